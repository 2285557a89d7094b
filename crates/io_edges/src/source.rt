//! Where bytes are read from.

ghost use Rattle.std.specs.Prelude.{◌<◌, length};
ghost use Rattle.std.specs.Io.{ReadsAtMost};
ghost use Rattle.std.specs.Io.KnownBytes.{ReadConsumes};
ghost use Rattle.sequences.specs.Causes.{HasCause};
ghost use Rattle.io_edges.specs.Told.{SourceTold};

/// The source failed, and counted it.
#[derive(Clone, Copy, Debug, PartialEq, Eq)]
pub struct SourceFault;

/// A stream of bytes that is read in pieces.
pub trait Source {
    /// The bytes that are left, where it tells them, and how often it has failed. The count never
    /// falls, and stands still at the end of 64 bits.
    ghost told: { Self → SourceTold };

    /// Takes the next bytes, at most as many as fit, and answers their number. 0 is the end of the
    /// input. On a fault nothing was taken.
    fn take(&mut self, into: &mut [u8]) -> Result<usize, SourceFault>
        requires { 0 < length into.old }
        ensures bound { ReadsAtMost result into.new }
        ensures bytes { ReadConsumes (told self.old).left (told self.new).left result into.new }
        ensures cause { HasCause (told self.old).faults (told self.new).faults result };
}
