//! Keys that follow a run of a host.

ghost use Rattle.std.specs.Prelude.{◌≡◌, ℕ, List, true, None, Ok, Err, IfOk, OnOk, OnErr, MatchResult};
ghost use Rattle.std.specs.List.{AllByRecursion};
ghost use Rattle.std.specs.Option.{option_map};
ghost use Rattle.core_types.specs.Keys.{no_keys};
ghost use Rattle.core_types.specs.declared.stop.Stop.TheVariants as stop;
ghost use Rattle.effect_log.specs.Replay.{replayed};
ghost use Rattle.effect_log.specs.Unit.{IsLoggable};
ghost use Rattle.effect_log.specs.declared.reason.Reason.{Reason};
ghost use Rattle.effect_log.specs.declared.replayer.ReplayStop.TheVariants as stops;
ghost use Rattle.replica_feed.specs.Frames.{IsLoggableFrame};
ghost use Rattle.replica_feed.specs.Applying.{answer_to, answer_to_full, answer_to_unit, run_of, Applies, IsFull, Makes, IsReady, IsTaken, MakesNothing, RefusesOne};

use crate::frame::Frame;
use crate::fronts::FrontReplayer;
use core_types::Effects;
use effect_log::ReplayStop;
use std::alloc::Global;
use std::marker::Model;

/// What became of a frame.
#[derive(Clone, Copy, Debug, PartialEq, Eq)]
pub enum Applied {
    /// It was applied, and the replica stands at this number.
    To(u64),
    /// The replica has all that it says.
    Old,
    /// It begins at this number, and what happened before is missing.
    Gap(u64),
    /// It is of this run, and not of the run that the replica follows.
    OtherRun(u64),
    /// It has all keys at this number, which a fresh replica could take.
    NeedsFresh(u64),
}

// A run, and how many of its events were applied.
#[derive(Clone, Copy, Debug)]
pub(crate) struct Place {
    run: u64,
    number: u64,
}

impl Model for Place {
    ghost use Rattle.replica_feed.specs.Applying as applying;

    ghost Value = { applying.Place };

    ghost view = { λ p. record { run = p.run; number = p.number } };

    ghost inverse = { λ p. record { run = p.run; number = p.number } };
}

/// Keys that follow a run of a host, frame by frame.
#[derive(Debug, Drop)]
pub struct Replica<R> {
    replayer: R,
    at: Option<Place>,
    alloc: Global,
}

impl<R> Model for Replica<R> {
    ghost use Rattle.replica_feed.specs.Applying.{Following};

    ghost Value = { Following R };

    ghost view = { λ r. record { at = r.at; replayer = r.replayer } };
}

impl<R: FrontReplayer> Replica<R> {
    /// A replica to which nothing was applied. It is given a replayer without keys. Takes no
    /// memory.
    pub fn new(alloc: Global, fresh: R) -> Replica<R>
        requires none { R.keys fresh ≡ no_keys }
        ensures at { result.at ≡ None }
        ensures replayer { result.replayer ≡ fresh }
    {
        Replica {
            replayer: fresh,
            at: None,
            alloc,
        }
    }

    /// Applies a frame, where it goes on from where the replica stands, and says what became of it.
    ///
    /// A Full is applied exactly where nothing was yet. Else the answer is `OtherRun` where its run
    /// is another, `Old` where its number is at most the replica's, and `NeedsFresh` where it is
    /// above. For a Unit the answer is `Gap` where nothing was applied, `OtherRun` where its run is
    /// another, `Old` where its `to` is at most the replica's number, and `Gap` where its `from` is
    /// above; else it is applied. Its effects must be such as a log can hold.
    ///
    /// `Refused` comes exactly where the file is refused, or an effect. After an `Err` the replica
    /// stands where it stood, its keys may be a part of the frame's, and it is to be given up by
    /// `into_inner`.
    pub fn apply(&mut self, frame: &Frame) -> Result<Applied, ReplayStop>
        requires ready { IsReady R.keys self.old }
        requires loggable { IsLoggableFrame frame.now }
        ensures applied { IfOk result
            (Applies R.keys R.meaning R.saved self.old frame.now self.new) }
        ensures refused { (place : ℕ) (why : Reason) → result ≡ Err (stops.Refused place why)
            → MakesNothing R.meaning R.refuses frame.now (R.keys self.old.replayer) place why }
        ensures spent { result ≡ Err (stops.Stopped stop.NumbersSpent)
            → R.is_spent self.new.replayer ≡ true }
        ensures taken { OnErr result (IsTaken (answer_to self.old.at frame.now)) }
        ensures err { OnErr result (self.new.at ≡ self.old.at) }
    {
        let answer = judge(&self.at, frame);
        if let Applied::To(number) = answer {
            let run = take(self.alloc, &mut self.replayer, frame)?;
            self.at = Some(Place { run, number });
        }
        Ok(answer)
    }

    /// The run and the number at which the replica stands, or `None` before its first frame.
    pub fn at(&self) -> Option<(u64, u64)>
        ensures at { result ≡ option_map (λ p. (p.run, p.number)) self.now.at }
    {
        self.at.map(|place| (place.run, place.number))
    }

    /// What has the keys.
    pub fn into_inner(self) -> R
        ensures replayer { result ≡ self.replayer }
    {
        let Replica { replayer, .. } = self;
        replayer
    }
}

// What is answered to a frame, where this is how far was applied.
fn judge(at: &Option<Place>, frame: &Frame) -> Applied
    ensures { result ≡ answer_to at.now frame.now }
{
    match (at, frame) {
        (None, Frame::Full { number, .. }) => Applied::To(*number),
        (None, Frame::Unit { from, .. }) => Applied::Gap(*from),
        (Some(place), Frame::Full { run, number, .. }) => judge_full(*place, *run, *number),
        (Some(place), Frame::Unit { run, from, to, .. }) => judge_unit(*place, *run, *from, *to),
    }
}

fn judge_full(place: Place, run: u64, number: u64) -> Applied
    ensures { result ≡ answer_to_full place run number }
{
    if run != place.run {
        return Applied::OtherRun(run);
    }
    if number <= place.number {
        return Applied::Old;
    }
    Applied::NeedsFresh(number)
}

fn judge_unit(place: Place, run: u64, from: u64, to: u64) -> Applied
    ensures { result ≡ answer_to_unit place run from to }
{
    if run != place.run {
        return Applied::OtherRun(run);
    }
    if to <= place.number {
        return Applied::Old;
    }
    if from > place.number {
        return Applied::Gap(from);
    }
    Applied::To(to)
}

// Reads the file of a frame, or replays its effects, and gives its run.
fn take<R: FrontReplayer>(alloc: Global, replayer: &mut R, frame: &Frame) -> Result<u64, ReplayStop>
    requires none { IsFull frame.now → R.keys replayer.old ≡ no_keys }
    requires loggable { IsLoggableFrame frame.now }
    ensures run { IfOk result (λ run. run ≡ run_of frame.now) }
    ensures makes { OnOk result
        (Makes R.meaning R.saved frame.now (R.keys replayer.old) (R.keys replayer.new)) }
    ensures refused { (place : ℕ) (why : Reason) → result ≡ Err (stops.Refused place why)
        → MakesNothing R.meaning R.refuses frame.now (R.keys replayer.old) place why }
    ensures spent { result ≡ Err (stops.Stopped stop.NumbersSpent)
        → R.is_spent replayer.new ≡ true }
{
    match frame {
        Frame::Full { run, file, .. } => {
            let _ = replayer.load_front(alloc, file.as_slice(), true)?;
            Ok(*run)
        }
        Frame::Unit { run, effects, .. } => {
            replay_all(alloc, replayer, effects)?;
            Ok(*run)
        }
    }
}

// Replays effects in order, up to the first that is refused.
fn replay_all<R: FrontReplayer>(
    alloc: Global,
    replayer: &mut R,
    effects: &Effects,
) -> Result<(), ReplayStop>
    requires each { AllByRecursion IsLoggable effects.now }
    ensures ok { OnOk result
        (replayed R.meaning (R.keys replayer.old) effects.now ≡ Ok (R.keys replayer.new)) }
    ensures refused { (place : ℕ) (why : Reason) → result ≡ Err (stops.Refused place why)
        → (place ≡ 0) × RefusesOne R.meaning (R.keys replayer.old) effects.now why }
    ensures spent { result ≡ Err (stops.Stopped stop.NumbersSpent)
        → R.is_spent replayer.new ≡ true }
{
    for effect in effects.as_slice() {
        replayer.replay(alloc, effect)?;
    }
    Ok(())
}
