//! A sink over any writer.

ghost use Rattle.std.specs.Prelude.{◌≡◌, ◌≢◌, IfErr};
ghost use Rattle.std.specs.Io.{WritesAtMost};
ghost use Rattle.std.specs.Io.KnownBytes.{WriteAppends};
ghost use Rattle.std.specs.IoError.{error_kind};

use crate::{Sink, SinkFault};
use std::io::{self, ErrorKind, Write};

/// Any writer as a sink. A write that takes nothing is a fault. It tells what it has got where the
/// writer does; standard output does not.
#[derive(Drop)]
pub struct RealSink<W: Write + Drop> {
    writer: W,
    faults: u64,
}

impl<W: Write + Drop> RealSink<W> {
    /// The writer, with no fault so far.
    pub fn new(writer: W) -> RealSink<W>
        ensures tells { ⟦<RealSink<W> as Sink>⟧.told result
            ≡ record { got = W.contents writer; faults = 0 } }
    {
        RealSink { writer, faults: 0 }
    }
}

impl<W: Write + Drop> Sink for RealSink<W> {
    ghost told = { λ s. record { got = W.contents s.writer; faults = s.faults } };

    fn put(&mut self, piece: &[u8]) -> Result<usize, SinkFault> {
        match write_again(&mut self.writer, piece) {
            Ok(count) if count > 0 => Ok(count),
            _ => {
                self.faults = self.faults.saturating_add(1);
                Err(SinkFault)
            }
        }
    }
}

// Writes, and writes again where a signal interrupted that.
fn write_again<W: Write>(writer: &mut W, piece: &[u8]) -> io::Result<usize>
    ensures bound { WritesAtMost result piece.now }
    ensures bytes { WriteAppends (W.contents writer.old) (W.contents writer.new) result piece.now }
    ensures again { IfErr result (λ error. error_kind error ≢ ErrorKind.Interrupted) }
{
    for _ in 0..u64::MAX {
        match writer.write(piece) {
            Err(error) if error.kind() == ErrorKind::Interrupted => {}
            done => return done,
        }
    }
    Err(io::Error::from(ErrorKind::Other))
}
