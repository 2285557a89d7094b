//! What holds of a run, of those who follow it, and of what is kept for them: laws over the
//! definitions, by functions that do nothing.

ghost use Rattle.std.specs.Prelude.{◌≡◌, ◌≤◌, ℕ, List, None, length};
ghost use Rattle.std.specs.List.{AllByRecursion};
ghost use Rattle.core_types.specs.Keys.{no_keys};
ghost use Rattle.core_types.specs.Shown.{Backlog};
ghost use Rattle.core_types.specs.declared.effect.Effect.{Effect};
ghost use Rattle.replica_feed.specs.declared.frame.Frame.{Frame};
ghost use Rattle.replica_feed.specs.declared.replica.Applied.{Applied};
ghost use Rattle.replica_feed.specs.declared.backlog.Since.TheVariants as since;
ghost use Rattle.core_types.specs.Keyspace.{longest};
ghost use Rattle.resp_codec.specs.Spelling.{IsRequest};
ghost use Rattle.replica_feed.specs.Frames.{content, frame_words, IsForward, IsLoggableFrame};
ghost use Rattle.replica_feed.specs.Words.{AreFrame, HasNumbers};
ghost use Rattle.replica_feed.specs.Units.{kept_from, pushed, since_in, AreKept};
ghost use Rattle.replica_feed.specs.Runs.{Run, StandsFor, IsBacklogOf, with_event};
ghost use Rattle.replica_feed.specs.Applying.{Following, Applies, AppliesAll, Follows};

use crate::fronts::FrontReplayer;

/// What `write_frame` writes is the text of one request, of which the words are that frame and no
/// other: the reader of requests gives it back, whatever follows.
pub fn frames_read_back()
    ensures request { (f : Frame) → IsForward f → HasNumbers f → length (content f) ≤ longest
        → IsRequest (frame_words f) }
    ensures frame { (f : Frame) → IsForward f → IsLoggableFrame f → HasNumbers f
        → AreFrame (frame_words f) f }
    ensures one { (words : List (List ℕ)) (f g : Frame) → AreFrame words f → AreFrame words g
        → f ≡ g }
{}

/// Frames that stand for one run, in whatever order they come, with losses and repeats, leave a
/// replica with the keys after as many events of that run as its number says, as long as none is
/// refused.
pub fn replica_follows<R: FrontReplayer>()
    ensures apply { (r : Run) (old new : Following R) (f : Frame) (answer : Applied)
        → StandsFor R.meaning R.saved r f
        → Follows R.keys R.meaning R.saved r old
        → Applies R.keys R.meaning R.saved old f new answer
        → Follows R.keys R.meaning R.saved r new }
    ensures all { (r : Run) (fresh last : Following R) (frames : List Frame)
        → AllByRecursion (StandsFor R.meaning R.saved r) frames
        → fresh.at ≡ None → R.keys fresh.replayer ≡ no_keys
        → AppliesAll R.keys R.meaning R.saved fresh frames last
        → Follows R.keys R.meaning R.saved r last }
{}

/// A backlog that gets each event of a run keeps what the run did, and what it gives since any
/// number stands for the run.
pub fn backlog_stands<R: FrontReplayer>()
    ensures new { (r : Run) → IsBacklogOf r (kept_from r.number (length r.events)) }
    ensures push { (r : Run) (b : Backlog) (effects : List Effect) → IsBacklogOf r b
        → IsBacklogOf (with_event r effects) (pushed b effects) }
    ensures since { (r : Run) (b : Backlog) (n : ℕ) (f : Frame) → IsBacklogOf r b
        → AreKept b.first b.units b.end
        → since_in b n ≡ since.Frame f → StandsFor R.meaning R.saved r f }
{}
