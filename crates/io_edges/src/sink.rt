//! Where bytes are written to.

ghost use Rattle.std.specs.Prelude.{◌<◌, ◌≤◌, length, IfOk};
ghost use Rattle.std.specs.Io.KnownBytes.{WriteAppends};
ghost use Rattle.sequences.specs.Causes.{HasCause};
ghost use Rattle.io_edges.specs.Told.{SinkTold};

/// The sink failed, and counted it.
#[derive(Clone, Copy, Debug, PartialEq, Eq)]
pub struct SinkFault;

/// A stream of bytes that is written in pieces.
pub trait Sink {
    /// The bytes that it has got, where it tells them, and how often it has failed. The count never
    /// falls, and stands still at the end of 64 bits.
    ghost told: { Self → SinkTold };

    /// Gives it a front of the piece, at least one byte, and answers how many it took. On a fault
    /// it took none.
    fn put(&mut self, piece: &[u8]) -> Result<usize, SinkFault>
        requires { 0 < length piece.now }
        ensures some { IfOk result (λ count. 0 < count) }
        ensures bound { IfOk result (λ count. count ≤ length piece.now) }
        ensures bytes { WriteAppends (told self.old).got (told self.new).got result piece.now }
        ensures cause { HasCause (told self.old).faults (told self.new).faults result };
}
