//! What the words of a command say, and how a list is counted.

ghost use Rattle.std.specs.Prelude.{◌≡◌, ◌<◌, ◌≤◌, Some, length, drop, IfOk};
ghost use Rattle.list_cmds.specs.Words.{counted, list_note, place_of};

use core_types::{Args, Blob, NoMemory, Note, NoteClass, Reply, Sequence};
use std::alloc::Global;

/// Which of this many items a number names, if it names one. A number below 0 counts from the end.
pub(crate) fn place_of(size: usize, index: i64) -> Option<usize>
    ensures { result ≡ place_of size index }
{
    let count = index.unsigned_abs() as usize;
    if index < 0 {
        size.checked_sub(count)
    } else if count < size {
        Some(count)
    } else {
        None
    }
}

/// A number of items, as a reply.
pub(crate) fn counted(count: usize) -> Reply
    ensures { result ≡ counted count }
{
    Reply::Int(count.min(i64::MAX as usize) as i64)
}

/// The words behind the key, as items.
pub(crate) fn items_of(alloc: Global, words: &Args) -> Result<Sequence<Blob>, NoMemory>
    requires { 2 ≤ length words.now }
    ensures { IfOk result (λ items. items ≡ drop 2 words.now) }
{
    let mut items = Vec::with_capacity(alloc, words.len() - 2)?;
    for word in words.from_place(2) {
        items.push(Blob::from_slice(alloc, word)?)?;
    }
    Ok(Sequence::from_vec(items))
}

/// An event of a list, on the key of these words.
pub(crate) fn list_note(alloc: Global, name: &[u8], words: &Args) -> Result<Note, NoMemory>
    requires { 1 < length words.now }
    ensures { IfOk result (λ note. note ≡ list_note name.now words.now) }
{
    Note::on_key(alloc, NoteClass::List, name, words)
}
