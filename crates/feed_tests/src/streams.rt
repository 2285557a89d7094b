ghost use Rattle.std.specs.Prelude.{◌≤◌, length};

use core_types::{Blob, NoMemory};
use replica_feed::{Frame, FrameReader, NextFrame};
use std::alloc::Global;
use std::test::Fail;

// Says the numbers of a frame, and its file, or how many effects it has.
fn say_frame(alloc: Global, frame: &Frame, text: &mut Blob) -> Result<(), NoMemory> {
    match frame {
        Frame::Full { run, number, file } => {
            text.push_slice(format!(in alloc; "full {run} {number} ")?.as_bytes())?;
            text.push_slice(file.as_slice())?;
        }
        Frame::Unit {
            run,
            from,
            to,
            effects,
        } => {
            let count = effects.len();
            let numbers = format!(in alloc; "unit {run} {from} {to} {count}")?;
            text.push_slice(numbers.as_bytes())?;
        }
    }
    text.push(b' ')
}

// Says what comes next of a stream. Answers whether it was a frame.
fn say_next(alloc: Global, reader: &mut FrameReader, text: &mut Blob) -> Result<bool, NoMemory> {
    match reader.next()? {
        NextFrame::Frame(offset, frame) => {
            text.push_slice(format!(in alloc; "{offset}:")?.as_bytes())?;
            say_frame(alloc, &frame, text)?;
            Ok(true)
        }
        NextFrame::More => {
            text.push_slice(b"more ")?;
            Ok(false)
        }
        NextFrame::Bad(offset, why) => {
            text.push_slice(format!(in alloc; "{offset}:{why:?} ")?.as_bytes())?;
            Ok(false)
        }
    }
}

// All that a stream says which comes in two pieces.
fn reading(alloc: Global, stream: &[u8], cut: usize) -> Result<Blob, NoMemory>
    requires { cut ≤ length stream.now }
{
    let mut reader = FrameReader::new(alloc);
    let mut text = Blob::new(alloc);
    reader.feed(&stream[..cut])?;
    reader.feed(&stream[cut..])?;
    for _ in 0..9u8 {
        if !say_next(alloc, &mut reader, &mut text)? {
            break;
        }
    }
    Ok(text)
}

// Frames as arrays and as lines, behind empty requests, and each place where a request begins that
// is none, with its reason.
const ROWS: [(&[u8], &[u8]); 14] = [
    (b"", b"more "),
    (
        b"*0\r\nFULL 3 4 xyz\r\n*4\r\n$4\r\nFULL\r\n$1\r\n3\r\n$1\r\n5\r\n$2\r\n\n\n\r\n",
        b"4:full 3 4 xyz 18:full 3 5 \n\n more ",
    ),
    (
        b"*5\r\n$4\r\nUNIT\r\n$1\r\n0\r\n$1\r\n0\r\n$1\r\n2\r\n$27\r\n\
        *3\r\n$3\r\nSET\r\n$1\r\na\r\n$1\r\n1\r\n\r\n*",
        b"0:unit 0 0 2 1 more ",
    ),
    (
        b"*5\r\n$4\r\nUNIT\r\n$1\r\n0\r\n$1\r\n5\r\n$1\r\n6\r\n$0\r\n\r\n",
        b"0:unit 0 5 6 0 more ",
    ),
    (
        b"*5\r\n$4\r\nUNIT\r\n$1\r\n0\r\n$1\r\n6\r\n$1\r\n6\r\n$0\r\n\r\n",
        b"0:Shape ",
    ),
    (
        b"*5\r\n$4\r\nUNIT\r\n$1\r\n0\r\n$1\r\n5\r\n$1\r\n6\r\n$2\r\n*1\r\n",
        b"0:Shape ",
    ),
    (
        b"*5\r\n$4\r\nUNIT\r\n$1\r\n0\r\n$1\r\n6\r\n$1\r\n6\r\n$14\r\n\
        *1\r\n$4\r\nEXEC\r\n\r\n",
        b"0:Text(LoneExec) ",
    ),
    (b"*0\r\nUNIT 0 5 6\r\n", b"4:Shape "),
    (b"\r\n*2\r\n$4\r\nFULL\r\n", b"more "),
    (
        b"*3\r\n$4\r\nUNIT\r\n$1\r\n0\r\n+",
        b"0:Request(ExpectedDollar(43)) ",
    ),
    (b"FULL 0 1 \r\nFULL 0 1 x\n", b"0:Shape "),
    (b"full 0 1 x\n", b"0:Shape "),
    (b"FULL 00 1 x\n", b"0:Shape "),
    (b"UNIT 0 2 1 +\r\n", b"0:Text(NotMultibulk) "),
];

#[test]
fn streams(rt: HostRuntime) -> Result<(), Fail> {
    for (stream, want) in ROWS {
        assert!(rt; reading(rt.alloc(), stream, 0)?.as_slice() == want);
        assert!(rt; reading(rt.alloc(), stream, stream.len() / 2)?.as_slice() == want);
    }
    Ok(())
}
