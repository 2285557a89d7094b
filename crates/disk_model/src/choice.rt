//! Which of the directories that a crash may leave.

/// How much a crash kept. Each number is cut to what there is.
#[derive(Clone, Copy, Debug, PartialEq, Eq)]
pub struct Choice {
    /// The moment of the crash: 0 is the one before the first call, and n the one after call n.
    pub since: u64,
    /// How many of the unsynced changes of names were kept, the first of them first.
    pub names: u64,
    /// How many unsynced bytes of the file under `Log`: each byte that was added or cut off counts.
    pub log: u64,
    /// The same of the file under `LogTemp`.
    pub log_temp: u64,
    /// The same of the file under `Dump`.
    pub dump: u64,
    /// The same of the file under `DumpTemp`.
    pub dump_temp: u64,
}
