//! A look at a directory.

ghost use Rattle.std.specs.Prelude.{◌≡◌, ℕ, List, Option, IfOk};
ghost use Rattle.server_shell.specs.Check.{CheckEnds, check_text};
ghost use Rattle.server_shell.specs.Faults.{counted_by, end_of, faults_of};
ghost use Rattle.server_shell.specs.Pipe.{unread};
ghost use Rattle.io_edges.specs.Told.{ClockTold};

use crate::handing::put_all;
use crate::status::Status;
use byte_text::u64_text;
use core_types::{Blob, NoMemory};
use disk_model::Dir;
use durable_host::Loader;
use io_edges::Sink;
use restart::{Opened, look};
use std::alloc::Global;
use std::hash::RandomState;

/// Tells a sink what a start would find in a directory: the number of keys, and how much of the log
/// is whole units. Changes nothing of the directory.
pub(crate) fn tell_look<D: Dir, K: Sink>(
    alloc: Global,
    hashing: RandomState,
    dir: &mut D,
    sink: &mut K,
) -> Result<(), Status>
    ensures tells { (left : Option (List ℕ)) (clock : ClockTold)
        → CheckEnds (end_of result) (D.told dir.old) (D.told dir.new)
        (unread left clock (K.told sink.old) (K.told sink.new)) }
    ensures counts { faults_of (D.told dir.new) 0 (K.told sink.new)
        ≡ counted_by (end_of result) (faults_of (D.told dir.old) 0 (K.told sink.old)) }
{
    let mut loader = Loader::new(alloc, hashing)?;
    let opened = look(alloc, dir, &mut loader)?;
    let keys = loader.keys();
    loader.close();
    let text = look_text(alloc, keys, &opened)?;
    put_all(sink, text.as_slice())?;
    Ok(())
}

// The lines that say it.
fn look_text(alloc: Global, keys: u64, opened: &Opened) -> Result<Blob, NoMemory>
    ensures text { IfOk result (λ text. text ≡ check_text keys opened.now) }
{
    let mut text = Blob::new(alloc);
    text.push_slice(b"keys ")?;
    text.push_slice(u64_text(keys).as_slice())?;
    text.push_slice(b"\nkept ")?;
    text.push_slice(u64_text(opened.kept).as_slice())?;
    text.push_slice(b" of ")?;
    text.push_slice(u64_text(opened.length).as_slice())?;
    text.push_slice(b"\n")?;
    Ok(text)
}
