//! A source over any reader.

ghost use Rattle.std.specs.Prelude.{◌≡◌, ◌≢◌, IfErr};
ghost use Rattle.std.specs.Io.{ReadsAtMost};
ghost use Rattle.std.specs.Io.KnownBytes.{ReadConsumes};
ghost use Rattle.std.specs.IoError.{error_kind};

use crate::{Source, SourceFault};
use std::io::{self, ErrorKind, Read};

/// Any reader as a source. It tells what is left where the reader does; standard input does not.
#[derive(Drop)]
pub struct RealSource<R: Read + Drop> {
    reader: R,
    faults: u64,
}

impl<R: Read + Drop> RealSource<R> {
    /// The reader, with no fault so far.
    pub fn new(reader: R) -> RealSource<R>
        ensures tells { ⟦<RealSource<R> as Source>⟧.told result
            ≡ record { left = R.remaining reader; faults = 0 } }
    {
        RealSource { reader, faults: 0 }
    }
}

impl<R: Read + Drop> Source for RealSource<R> {
    ghost told = { λ s. record { left = R.remaining s.reader; faults = s.faults } };

    fn take(&mut self, into: &mut [u8]) -> Result<usize, SourceFault> {
        match read_again(&mut self.reader, into) {
            Ok(count) => Ok(count),
            Err(_) => {
                self.faults = self.faults.saturating_add(1);
                Err(SourceFault)
            }
        }
    }
}

// Reads, and reads again where a signal interrupted that.
fn read_again<R: Read>(reader: &mut R, into: &mut [u8]) -> io::Result<usize>
    ensures bound { ReadsAtMost result into.new }
    ensures bytes { ReadConsumes (R.remaining reader.old) (R.remaining reader.new) result into.new }
    ensures again { IfErr result (λ error. error_kind error ≢ ErrorKind.Interrupted) }
{
    for _ in 0..u64::MAX {
        match reader.read(into) {
            Err(error) if error.kind() == ErrorKind::Interrupted => {}
            done => return done,
        }
    }
    Err(io::Error::from(ErrorKind::Other))
}
