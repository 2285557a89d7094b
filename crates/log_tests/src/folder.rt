//! A directory over real folders. What its calls ask of the system shows here, and in no clause.

use disk_model::{Dir, FileName, ReadAllStop, RealDir};
use std::alloc::Global;
use std::os::unix::fs::symlink;
use std::test::Fail;
use std::{fs, io};

// An empty folder, whatever a run that was cut off has left there.
fn empty_folder(rt: &HostRuntime, folder: &str) -> io::Result<()> {
    let _ = fs::remove_dir_all(rt, folder);
    fs::create_dir(rt, folder)
}

// Makes a file of these bytes, in two pieces.
fn write(dir: &mut RealDir<HostRuntime>, name: FileName, bytes: &[u8]) -> bool {
    let (front, back) = bytes.split_at(bytes.len() / 2);
    dir.create(name).is_ok()
        && dir.append(name, front).is_ok()
        && dir.append(name, back).is_ok()
        && dir.sync(name).is_ok()
        && dir.sync_names().is_ok()
}

// Whether a read gives these bytes, or that no file is there.
fn reads(
    dir: &mut RealDir<HostRuntime>,
    alloc: Global,
    name: FileName,
    want: Option<&[u8]>,
) -> bool {
    match dir.read_all(alloc, name) {
        Ok(found) => found.as_ref().map(|blob| blob.as_slice()) == want,
        Err(_) => false,
    }
}

// Whether a file of the file system is this text.
fn holds(rt: &HostRuntime, path: &str, want: &str) -> bool {
    match fs::read_to_string(rt, path) {
        Ok(text) => text.as_str() == want,
        Err(_) => false,
    }
}

fn each_call_fails(dir: &mut RealDir<HostRuntime>, alloc: Global) -> bool {
    matches!(dir.read_all(alloc, FileName::Log), Err(ReadAllStop::Dir))
        && dir.create(FileName::Log).is_err()
        && dir.append(FileName::Log, b"a").is_err()
        && dir.cut(FileName::Log, 0).is_err()
        && dir.sync(FileName::Log).is_err()
        && dir.rename(FileName::Log, FileName::Dump).is_err()
        && dir.sync_names().is_err()
}

// Makes the four files, cuts the log, and goes on with it.
fn makes_files(dir: &mut RealDir<HostRuntime>, alloc: Global) -> bool {
    write(dir, FileName::Log, b"log.")
        && write(dir, FileName::LogTemp, b"log temp")
        && write(dir, FileName::Dump, b"dump")
        && write(dir, FileName::DumpTemp, b"dump temp")
        && dir.cut(FileName::Log, 3).is_ok()
        && dir.append(FileName::Log, b"!").is_ok()
        && dir.sync(FileName::Log).is_ok()
        && reads(dir, alloc, FileName::Log, Some(b"log!"))
}

fn files_are_made(rt: &HostRuntime) -> bool {
    holds(rt, "files/appendonly.aof", "log!")
        && holds(rt, "files/temp-rewriteaof.aof", "log temp")
        && holds(rt, "files/dump.rdb", "dump")
        && holds(rt, "files/temp.rdb", "dump temp")
}

// Moves two files in the place of others, and goes on with one of them.
fn moves_files(dir: &mut RealDir<HostRuntime>, alloc: Global) -> bool {
    dir.rename(FileName::DumpTemp, FileName::Dump).is_ok()
        && dir.rename(FileName::LogTemp, FileName::Log).is_ok()
        && dir.append(FileName::Log, b" on").is_ok()
        && dir.sync_names().is_ok()
        && reads(dir, alloc, FileName::LogTemp, None)
        && dir.append(FileName::LogTemp, b"a").is_err()
        && dir.sync(FileName::LogTemp).is_err()
        && dir.rename(FileName::LogTemp, FileName::Log).is_err()
}

fn files_are_moved(rt: &HostRuntime) -> bool {
    holds(rt, "files/appendonly.aof", "log temp on") && holds(rt, "files/dump.rdb", "dump temp")
}

// Each file has its name in the folder, and moves to another in the place of what that had. A file
// that is made anew is empty.
#[test]
fn files(rt: HostRuntime) -> Result<(), Fail> {
    let alloc = rt.alloc();
    empty_folder(&rt, "files")?;
    let mut dir = RealDir::new(rt, alloc, "files/")?;
    let made = makes_files(&mut dir, alloc) && files_are_made(&rt);
    let moved = moves_files(&mut dir, alloc) && files_are_moved(&rt);
    let anew = write(&mut dir, FileName::Log, b"new") && holds(&rt, "files/appendonly.aof", "new");
    drop(dir);
    assert!(rt; made && moved && anew);
    Ok(())
}

// The second directory over a folder fails and touches nothing, while the first lives.
fn second_fails(rt: HostRuntime, alloc: Global, second: &mut RealDir<HostRuntime>) -> bool {
    let Ok(mut first) = RealDir::new(rt, alloc, "held") else {
        return false;
    };
    let failed = write(&mut first, FileName::Log, b"first")
        && each_call_fails(second, alloc)
        && first.append(FileName::Log, b" goes on").is_ok()
        && holds(&rt, "held/appendonly.aof", "first goes on");
    drop(first);
    failed
}

// One directory at a time holds a folder.
#[test]
fn folder_is_held(rt: HostRuntime) -> Result<(), Fail> {
    let alloc = rt.alloc();
    empty_folder(&rt, "held")?;
    let mut second = RealDir::new(rt, alloc, "held")?;
    let failed = second_fails(rt, alloc, &mut second);
    let follows = write(&mut second, FileName::Log, b"second")
        && holds(&rt, "held/appendonly.aof", "second");
    drop(second);
    assert!(rt; failed && follows);
    Ok(())
}

// A link to a folder, where the log is a device that takes no byte, and the dump a link to a
// missing file.
fn make_links(rt: &HostRuntime) -> io::Result<()> {
    empty_folder(rt, "links")?;
    fs::create_dir(rt, "links/data")?;
    fs::create_dir(rt, "links/far")?;
    symlink(rt, "data", "links/folder")?;
    symlink(rt, "/dev/full", "links/data/appendonly.aof")?;
    symlink(rt, "../far/dump", "links/data/dump.rdb")
}

// A write and a sync fail, until another file has the name.
fn device_fails(dir: &mut RealDir<HostRuntime>) -> bool {
    dir.append(FileName::Log, b"a").is_err()
        && dir.sync(FileName::Log).is_err()
        && write(dir, FileName::LogTemp, b"log")
        && dir.rename(FileName::LogTemp, FileName::Log).is_ok()
        && dir.append(FileName::Log, b"!").is_ok()
        && dir.sync(FileName::Log).is_ok()
        && dir.sync_names().is_ok()
}

// A link works as what it names, and a rename replaces it.
#[test]
fn links(rt: HostRuntime) -> Result<(), Fail> {
    let alloc = rt.alloc();
    make_links(&rt)?;
    let mut dir = RealDir::new(rt, alloc, "links/folder")?;
    let missing = reads(&mut dir, alloc, FileName::Dump, None);
    let made = write(&mut dir, FileName::Dump, b"dump") && holds(&rt, "links/far/dump", "dump");
    let replaced = device_fails(&mut dir) && holds(&rt, "links/data/appendonly.aof", "log!");
    drop(dir);
    assert!(rt; missing && made && replaced);
    Ok(())
}

// A sync of the names fails, and each further one, whatever is done in between.
fn names_stay_unsynced(dir: &mut RealDir<HostRuntime>) -> bool {
    dir.sync_names().is_err()
        && dir.create(FileName::LogTemp).is_ok()
        && dir.rename(FileName::LogTemp, FileName::Dump).is_ok()
        && dir.sync(FileName::Dump).is_ok()
        && dir.sync_names().is_err()
}

// A folder that the system refuses to sync, and one of a file that a link names: the names are
// never told as safe.
#[test]
fn unsynced_names(rt: HostRuntime) -> Result<(), Fail> {
    let alloc = rt.alloc();
    empty_folder(&rt, "names")?;
    symlink(&rt, "/proc/self/status", "names/dump.rdb")?;
    let mut dir = RealDir::new(rt, alloc, "names")?;
    let linked = names_stay_unsynced(&mut dir);
    drop(dir);
    assert!(rt; linked);
    let mut dir = RealDir::new(rt, alloc, "/proc/self")?;
    let there = reads(&mut dir, alloc, FileName::Log, None);
    let failed = dir.sync_names().is_err() && dir.sync_names().is_err();
    drop(dir);
    assert!(rt; there && failed);
    Ok(())
}
