//! What the file of a frame is read into.

ghost use Rattle.std.specs.Prelude.{◌≡◌, ◌≤◌, List, ℕ, Bool, true, length, take, Err, IfOk};
ghost use Rattle.core_types.specs.Keys.{Keys, no_keys};
ghost use Rattle.core_types.specs.declared.stop.Stop.TheVariants as stop;
ghost use Rattle.effect_log.specs.declared.reason.Reason.{Reason};
ghost use Rattle.effect_log.specs.declared.replayer.ReplayStop.TheVariants as stops;

use effect_log::{ReplayStop, Replayer};
use std::alloc::Global;

/// A replayer that also takes all keys of a file at once.
pub trait FrontReplayer: Replayer {
    /// Whether bytes are a file of these keys.
    ghost saved: { List ℕ → Keys → Type 0 };

    /// Whether bytes begin with no file, or are none where a whole one is wanted: where, and why.
    ghost refuses: { List ℕ → Bool → ℕ → Reason → Type 0 };

    /// Takes the keys of the file that begins the bytes, and says how long it is. Where it is to be
    /// `whole`, it is all bytes. There must be no keys yet. A replayer that refused a file, or
    /// could not go on, is to be given up.
    fn load_front(&mut self, alloc: Global, bytes: &[u8], whole: bool) -> Result<u64, ReplayStop>
        requires none { Self.keys self.old ≡ no_keys }
        ensures ok { IfOk result (λ size. (size ≤ length bytes.now)
            × saved (take size bytes.now) (Self.keys self.new)) }
        ensures whole { whole ≡ true → IfOk result (λ size. size ≡ length bytes.now) }
        ensures refused { (place : ℕ) (why : Reason) → result ≡ Err (stops.Refused place why)
            → refuses bytes.now whole place why }
        ensures spent { result ≡ Err (stops.Stopped stop.NumbersSpent)
            → Self.is_spent self.new ≡ true };
}
