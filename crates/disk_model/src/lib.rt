//! A directory of four files: what a read of it gives, what a crash may leave of it, and how often
//! it failed.
//!
//! The trait `Dir` says of each call what the files read as afterwards, how the call came out, and
//! that a fault is counted exactly where one is answered. A directory that tells its past tells the
//! files at first, all of them synced, and each call since with how it came out; the disk at each
//! moment follows. At each moment a crash leaves the names after a first part of their changes, and
//! of each file what a first part of its changes made of its synced bytes, the last of them done in
//! part. `laws` says what follows for callers: when a name is safe, what a call adds to what a
//! crash may leave, and what a run of calls leaves.
//!
//! `MemoryDir` tells its past, fails at the calls it is told to, and gives each directory that a
//! crash may leave (`MemoryDir::image`); it keeps each call that was made on it, and an image costs
//! the bytes of them all. `RealDir` is a folder of the file system. It locks the folder, tells no
//! past, and makes no system call that is not owed. Of its calls `read_all` takes memory, and
//! `sync_names` where a file of the folder is a link.
#![tactic(auto)]

mod choice;
mod dir;
mod file_name;
mod laws;
mod memory;
mod real;

pub use choice::Choice;
pub use dir::{Dir, DirFault, ReadAllStop};
pub use file_name::FileName;
pub use laws::{
    becomes_safe, choices_are_complete, crash_laws, failed_calls_read, images_added, memory_tells,
    runs, safe_name_stays, safe_names,
};
pub use memory::MemoryDir;
pub use real::RealDir;
