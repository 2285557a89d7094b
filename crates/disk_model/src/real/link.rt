//! A file that a symbolic link names: the folder that holds it.

ghost use Rattle.std.specs.Prelude.{◌≡◌, ◌↔◌, Ok, None, IsOk, OnOk};
ghost use Rattle.std.specs.IoError.{error_kind};

use std::alloc::Global;
use std::fs::{self, File};
use std::io::{self, ErrorKind};
use std::path::PathBuf;
use std::rt::Files;

/// Opens the folder that holds the file which a symbolic link at this path names. `None` where no
/// link stands there, or the file that it names is missing.
pub(crate) fn open_home(
    rt: &impl Files<File = File>,
    alloc: Global,
    path: &PathBuf,
) -> io::Result<Option<File>> {
    match fs::symlink_metadata(rt, path) {
        Ok(found) if found.is_symlink() => open_home_of_link(rt, alloc, path),
        Ok(_) => Ok(None),
        Err(error) => unless_missing(error),
    }
}

fn open_home_of_link(
    rt: &impl Files<File = File>,
    alloc: Global,
    path: &PathBuf,
) -> io::Result<Option<File>> {
    let file = match rt.canonicalize(alloc, path.as_str()) {
        Ok(file) => file,
        Err(error) => return unless_missing(error),
    };
    match file.parent() {
        Some(home) => Ok(Some(File::open(rt, home)?)),
        None => Err(io::Error::from(ErrorKind::IsADirectory)),
    }
}

// Tells a file that is not there from one that can't be found out.
fn unless_missing(error: io::Error) -> io::Result<Option<File>>
    ensures missing { IsOk result ↔ error_kind error ≡ ErrorKind.NotFound }
    ensures none { OnOk result (result ≡ Ok None) }
{
    if error.kind() == ErrorKind::NotFound {
        Ok(None)
    } else {
        Err(error)
    }
}
