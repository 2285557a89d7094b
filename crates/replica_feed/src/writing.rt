//! Frames as bytes.

ghost use Rattle.std.specs.Prelude.{◌≡◌, ◌<◌, ◌≤◌, ◌++◌, ℕ, [], ◌∷◌, length, take, Err, OnOk, OnErr};
ghost use Rattle.std.specs.Fmt.{decimal};
ghost use Rattle.core_types.specs.Keyspace.{longest};
ghost use Rattle.resp_codec.specs.Marks.{dollar, header};
ghost use Rattle.resp_codec.specs.Spelling.{multibulk, bulk};
ghost use Rattle.replica_feed.specs.Frames.{content, frame_text, full_word, unit_word, IsForward, IsLoggableFrame};
ghost use Rattle.replica_feed.specs.declared.writing.WriteStop.TheVariants as stop;

use crate::frame::Frame;
use byte_text::u64_text;
use core_types::{Blob, NoMemory};
use effect_log::unit_text;
use std::alloc::Global;

// The most bytes of a word of a request.
const LONGEST: usize = 536_870_912;

// What stands around the bytes of a word: `$`, a decimal of at most twenty digits, and two line
// ends.
const WORD_FRAME: usize = 25;

// The first word of each form, behind the number of its words.
const FULL: &[u8] = b"*4\r\n$4\r\nFULL\r\n";

const UNIT: &[u8] = b"*5\r\n$4\r\nUNIT\r\n";

/// Why a frame was not written.
#[derive(Clone, Copy, Debug, PartialEq, Eq)]
pub enum WriteStop {
    /// Its file, or the text of its effects, has this many bytes, and more than 536,870,912.
    TooLarge(u64),
    /// Memory ran out.
    Memory,
}

impl From<NoMemory> for WriteStop {
    ghost from_gives = { λ _ end. end ≡ stop.Memory };

    fn from(_: NoMemory) -> WriteStop {
        WriteStop::Memory
    }
}

/// Appends the text of a frame: `FULL`, run, number and file, or `UNIT`, run, from, to and the text
/// of its effects, as the words of one request. A Unit needs `from` below `to`, and effects that a
/// log can hold. `TooLarge` comes exactly where a file or a text is too large. An `Err` leaves the
/// buffer as it was.
pub fn write_frame(alloc: Global, out: &mut Blob, frame: &Frame) -> Result<(), WriteStop>
    requires forward { IsForward frame.now }
    requires loggable { IsLoggableFrame frame.now }
    ensures ok { OnOk result (out.new ≡ out.old ++ frame_text frame.now) }
    ensures fits { OnOk result (length (content frame.now) ≤ longest) }
    ensures too_large { (n : ℕ) → result ≡ Err (stop.TooLarge n)
        → (n ≡ length (content frame.now)) × (longest < n) }
    ensures err { OnErr result (out.new ≡ out.old) }
{
    match frame {
        Frame::Full { run, number, file } => write_full(out, *run, *number, file.as_slice()),
        Frame::Unit {
            run,
            from,
            to,
            effects,
        } => {
            let text = unit_text(alloc, effects)?;
            write_unit(out, *run, *from, *to, text.as_slice())
        }
    }
}

fn write_full(out: &mut Blob, run: u64, number: u64, file: &[u8]) -> Result<(), WriteStop>
    ensures ok { OnOk result (out.new ≡ out.old
        ++ multibulk (full_word ∷ decimal run ∷ decimal number ∷ file.now ∷ [])) }
    ensures fits { OnOk result (length file.now ≤ longest) }
    ensures too_large { (n : ℕ) → result ≡ Err (stop.TooLarge n)
        → (n ≡ length file.now) × (longest < n) }
    ensures err { OnErr result (out.new ≡ out.old) }
{
    if file.len() > LONGEST {
        return Err(WriteStop::TooLarge(file.len() as u64));
    }
    let length = out.len();
    if append_full(out, run, number, file).is_err() {
        out.truncate(length);
        return Err(WriteStop::Memory);
    }
    Ok(())
}

fn write_unit(out: &mut Blob, run: u64, from: u64, to: u64, text: &[u8]) -> Result<(), WriteStop>
    ensures ok { OnOk result (out.new ≡ out.old
        ++ multibulk (unit_word ∷ decimal run ∷ decimal from ∷ decimal to ∷ text.now ∷ [])) }
    ensures fits { OnOk result (length text.now ≤ longest) }
    ensures too_large { (n : ℕ) → result ≡ Err (stop.TooLarge n)
        → (n ≡ length text.now) × (longest < n) }
    ensures err { OnErr result (out.new ≡ out.old) }
{
    if text.len() > LONGEST {
        return Err(WriteStop::TooLarge(text.len() as u64));
    }
    let length = out.len();
    if append_unit(out, run, from, to, text).is_err() {
        out.truncate(length);
        return Err(WriteStop::Memory);
    }
    Ok(())
}

// The functions below may leave, on an `Err`, a front of what they append.

fn append_full(out: &mut Blob, run: u64, number: u64, file: &[u8]) -> Result<(), NoMemory>
    ensures ok { OnOk result (out.new ≡ out.old
        ++ multibulk (full_word ∷ decimal run ∷ decimal number ∷ file.now ∷ [])) }
    ensures err { OnErr result (take (length out.old) out.new ≡ out.old) }
{
    out.push_slice(FULL)?;
    append_number(out, run)?;
    append_number(out, number)?;
    append_word(out, file)
}

fn append_unit(out: &mut Blob, run: u64, from: u64, to: u64, text: &[u8]) -> Result<(), NoMemory>
    ensures ok { OnOk result (out.new ≡ out.old
        ++ multibulk (unit_word ∷ decimal run ∷ decimal from ∷ decimal to ∷ text.now ∷ [])) }
    ensures err { OnErr result (take (length out.old) out.new ≡ out.old) }
{
    out.push_slice(UNIT)?;
    append_number(out, run)?;
    append_number(out, from)?;
    append_number(out, to)?;
    append_word(out, text)
}

// A number, as the word that is its decimal.
fn append_number(out: &mut Blob, number: u64) -> Result<(), NoMemory>
    ensures ok { OnOk result (out.new ≡ out.old ++ bulk (decimal number)) }
    ensures err { OnErr result (take (length out.old) out.new ≡ out.old) }
{
    append_word(out, u64_text(number).as_slice())
}

fn append_word(out: &mut Blob, word: &[u8]) -> Result<(), NoMemory>
    ensures ok { OnOk result (out.new ≡ out.old ++ bulk word.now) }
    ensures err { OnErr result (take (length out.old) out.new ≡ out.old) }
{
    make_room(out, word.len().saturating_add(WORD_FRAME))?;
    append_header(out, word.len() as u64)?;
    out.push_slice(word)?;
    out.push_slice(b"\r\n")
}

// The buffer gets room for what is longer than all that stands there, and no more than that.
fn make_room(out: &mut Blob, size: usize) -> Result<(), NoMemory>
    ensures same { out.new ≡ out.old }
{
    if size <= out.len() {
        return Ok(());
    }
    out.reserve(size)
}

// The header of a word of this length.
fn append_header(out: &mut Blob, size: u64) -> Result<(), NoMemory>
    ensures ok { OnOk result (out.new ≡ out.old ++ header dollar size) }
    ensures err { OnErr result (take (length out.old) out.new ≡ out.old) }
{
    out.push(b'$')?;
    out.push_slice(u64_text(size).as_slice())?;
    out.push_slice(b"\r\n")
}
