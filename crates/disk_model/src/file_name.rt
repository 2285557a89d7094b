//! The files of a directory.

ghost use Rattle.std.specs.Prelude.{◌≡◌};
ghost use Rattle.disk_model.specs.FileName.{text};

/// One of the four files that a directory may hold.
#[derive(Clone, Copy, Debug, PartialEq, Eq)]
pub enum FileName {
    /// `appendonly.aof`, the append-only log.
    Log,
    /// `temp-rewriteaof.aof`, a log that is being rewritten.
    LogTemp,
    /// `dump.rdb`, a snapshot.
    Dump,
    /// `temp.rdb`, a snapshot that is being written.
    DumpTemp,
}

impl FileName {
    /// The file's name in its folder.
    pub fn as_str(self) -> &'static str
        ensures text { result.now ≡ text self }
    {
        match self {
            FileName::Log => "appendonly.aof",
            FileName::LogTemp => "temp-rewriteaof.aof",
            FileName::Dump => "dump.rdb",
            FileName::DumpTemp => "temp.rdb",
        }
    }
}
