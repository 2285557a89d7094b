//! Replies and requests as the bytes that are sent.

ghost use Rattle.std.specs.Prelude.{◌≡◌, ◌∷◌, ◌++◌, length, take, OnOk, OnErr};
ghost use Rattle.std.specs.List.{flat_map};
ghost use Rattle.std.specs.Fmt.{decimal, signed_decimal};
ghost use Rattle.resp_codec.specs.Marks.{star, colon, crlf, marked, header};
ghost use Rattle.resp_codec.specs.ReplyText.{text, part_text};
ghost use Rattle.resp_codec.specs.Spelling.{multibulk, IsRequest, bulk};

use byte_text::{i64_text, u64_text};
use core_types::{Args, Blob, NoMemory, Part, Replies, Reply};

// What stands around the bytes of a bulk: `$`, a decimal of at most twenty digits, and two line
// ends.
const BULK_FRAME: usize = 25;

/// Appends the text of a reply, by RESP2. An `Err` leaves the buffer as it was.
pub fn write_reply(out: &mut Blob, reply: &Reply) -> Result<(), NoMemory>
    ensures ok { OnOk result (out.new ≡ out.old ++ text reply.now) }
    ensures err { OnErr result (out.new ≡ out.old) }
{
    let length = out.len();
    let written = append_reply(out, reply);
    if written.is_err() {
        out.truncate(length);
    }
    written
}

/// Appends the words of a request as a multibulk, which a `Reader` reads back whatever follows it.
/// An `Err` leaves the buffer as it was.
pub fn write_request(out: &mut Blob, words: &Args) -> Result<(), NoMemory>
    requires { IsRequest words.now }
    ensures ok { OnOk result (out.new ≡ out.old ++ multibulk words.now) }
    ensures err { OnErr result (out.new ≡ out.old) }
{
    let length = out.len();
    let written = append_request(out, words);
    if written.is_err() {
        out.truncate(length);
    }
    written
}

// The functions below may leave, on an `Err`, a front of what they append.

fn append_reply(out: &mut Blob, reply: &Reply) -> Result<(), NoMemory>
    ensures ok { OnOk result (out.new ≡ out.old ++ text reply.now) }
    ensures err { OnErr result (take (length out.old) out.new ≡ out.old) }
{
    match reply {
        Reply::Simple(line) => append_line(out, b'+', line.as_slice()),
        Reply::Error(line) => append_line(out, b'-', line.as_slice()),
        Reply::Int(n) => append_int(out, *n),
        Reply::Bulk(bytes) => append_bulk(out, bytes.as_slice()),
        Reply::Null => out.push_slice(b"$-1\r\n"),
        Reply::Array(replies) => append_array(out, replies),
        Reply::NullArray => out.push_slice(b"*-1\r\n"),
    }
}

fn append_array(out: &mut Blob, replies: &Replies) -> Result<(), NoMemory>
    ensures ok { OnOk result
        (out.new ≡ out.old ++
        (header star replies.now.count ++ flat_map part_text replies.now.parts)) }
    ensures err { OnErr result (take (length out.old) out.new ≡ out.old) }
{
    append_header(out, b'*', replies.count())?;
    for part in replies.parts() {
        append_part(out, part)?;
    }
    Ok(())
}

fn append_part(out: &mut Blob, part: &Part) -> Result<(), NoMemory>
    ensures ok { OnOk result (out.new ≡ out.old ++ part_text part.now) }
    ensures err { OnErr result (take (length out.old) out.new ≡ out.old) }
{
    match part {
        Part::Simple(line) => append_line(out, b'+', line.as_slice()),
        Part::Error(line) => append_line(out, b'-', line.as_slice()),
        Part::Int(n) => append_int(out, *n),
        Part::Bulk(bytes) => append_bulk(out, bytes.as_slice()),
        Part::Null => out.push_slice(b"$-1\r\n"),
        Part::NullArray => out.push_slice(b"*-1\r\n"),
        Part::ArrayOf(count) => append_header(out, b'*', *count),
    }
}

fn append_request(out: &mut Blob, words: &Args) -> Result<(), NoMemory>
    ensures ok { OnOk result (out.new ≡ out.old ++ multibulk words.now) }
    ensures err { OnErr result (take (length out.old) out.new ≡ out.old) }
{
    make_room_for_words(out, words)?;
    append_header(out, b'*', words.len() as u64)?;
    for word in words.from_place(0) {
        append_bulk(out, word)?;
    }
    Ok(())
}

fn append_bulk(out: &mut Blob, bytes: &[u8]) -> Result<(), NoMemory>
    ensures ok { OnOk result (out.new ≡ out.old ++ bulk bytes.now) }
    ensures err { OnErr result (take (length out.old) out.new ≡ out.old) }
{
    make_room(out, bytes.len().saturating_add(BULK_FRAME))?;
    append_header(out, b'$', bytes.len() as u64)?;
    append_ended(out, bytes)
}

// Room for the bulks of all words is taken at once.
fn make_room_for_words(out: &mut Blob, words: &Args) -> Result<(), NoMemory>
    ensures same { out.new ≡ out.old }
{
    let mut size: usize = BULK_FRAME;
    for word in words.from_place(0) {
        size = size.saturating_add(word.len()).saturating_add(BULK_FRAME);
    }
    make_room(out, size)
}

// The buffer gets room for what is longer than all that stands there; it grows by the size of what
// is large, and not to the double. What is shorter leaves it to grow as ever, so that what stands
// there is moved seldom.
fn make_room(out: &mut Blob, size: usize) -> Result<(), NoMemory>
    ensures same { out.new ≡ out.old }
{
    if size <= out.len() {
        return Ok(());
    }
    out.reserve(size)
}

// A mark, and a count in decimal, as a line.
fn append_header(out: &mut Blob, mark: u8, count: u64) -> Result<(), NoMemory>
    ensures ok { OnOk result (out.new ≡ out.old ++ header mark count) }
    ensures err { OnErr result (take (length out.old) out.new ≡ out.old) }
{
    append_line(out, mark, u64_text(count).as_slice())
}

fn append_int(out: &mut Blob, n: i64) -> Result<(), NoMemory>
    ensures ok { OnOk result (out.new ≡ out.old ++ marked colon (signed_decimal n)) }
    ensures err { OnErr result (take (length out.old) out.new ≡ out.old) }
{
    append_line(out, b':', i64_text(n).as_slice())
}

// A mark and a text, as a line.
fn append_line(out: &mut Blob, mark: u8, line: &[u8]) -> Result<(), NoMemory>
    ensures ok { OnOk result (out.new ≡ out.old ++ marked mark line.now) }
    ensures err { OnErr result (take (length out.old) out.new ≡ out.old) }
{
    out.push(mark)?;
    append_ended(out, line)
}

// A text, and the end of its line.
fn append_ended(out: &mut Blob, text: &[u8]) -> Result<(), NoMemory>
    ensures ok { OnOk result (out.new ≡ out.old ++ text.now ++ crlf) }
    ensures err { OnErr result (take (length out.old) out.new ≡ out.old) }
{
    out.push_slice(text)?;
    out.push_slice(b"\r\n")
}
