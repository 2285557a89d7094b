use crate::sets::one_set;
use core_types::{Blob, Effect, NoMemory};
use effect_log::{ReplayStop, Replayer};
use replica_feed::{Applied, Frame, FrontReplayer, Replica};
use std::alloc::Global;
use std::test::Fail;

// Counts the files and the effects, and keeps no keys.
#[derive(Drop)]
struct Counter {
    files: u64,
    effects: u64,
}

impl Replayer for Counter {
    ghost use Rattle.std.specs.Prelude.{Ok, false};
    ghost use Rattle.core_types.specs.Keys.{no_keys};

    ghost keys = { λ replayer. no_keys };

    ghost meaning = { λ keys effect. Ok keys };

    ghost is_spent = { λ replayer. false };

    fn replay(&mut self, _: Global, _: &Effect) -> Result<(), ReplayStop> {
        self.effects = self.effects.saturating_add(1);
        Ok(())
    }
}

impl FrontReplayer for Counter {
    ghost use Rattle.std.specs.Prelude.{◌≡◌};
    ghost use Rattle.core_types.specs.Keys.{no_keys};

    ghost saved = { λ bytes keys. keys ≡ no_keys };

    ghost refuses = { λ bytes whole place why. ⊥ };

    fn load_front(&mut self, _: Global, bytes: &[u8], _: bool) -> Result<u64, ReplayStop> {
        self.files = self.files.saturating_add(1);
        Ok(bytes.len() as u64)
    }
}

// What becomes of a Full, or of nothing more where memory runs out.
fn full(alloc: Global, replica: &mut Replica<Counter>, run: u64, number: u64) -> Option<Applied> {
    let file = Blob::from_slice(alloc, b"keys").ok()?;
    replica.apply(&Frame::Full { run, number, file }).ok()
}

// What becomes of a Unit whose last event sets a key.
fn unit(
    alloc: Global,
    replica: &mut Replica<Counter>,
    run: u64,
    from: u64,
    to: u64,
) -> Option<Applied> {
    let effects = one_set(alloc, b"a").ok()?;
    let frame = Frame::Unit {
        run,
        from,
        to,
        effects,
    };
    replica.apply(&frame).ok()
}

// What becomes of each of these frames, one after the other, and how many files and effects were
// replayed for them.
fn applied(alloc: Global) -> ([Option<Applied>; 11], Option<(u64, u64)>, (u64, u64)) {
    let counter = Counter {
        files: 0,
        effects: 0,
    };
    let mut replica = Replica::new(alloc, counter);
    let answers = [
        unit(alloc, &mut replica, 0, 0, 2),
        full(alloc, &mut replica, 0, 0),
        full(alloc, &mut replica, 0, 0),
        full(alloc, &mut replica, 0, 9),
        full(alloc, &mut replica, 1, 9),
        unit(alloc, &mut replica, 0, 0, 2),
        unit(alloc, &mut replica, 0, 0, 2),
        unit(alloc, &mut replica, 0, 5, 6),
        unit(alloc, &mut replica, 1, 2, 3),
        unit(alloc, &mut replica, 0, 1, 4),
        unit(alloc, &mut replica, 0, 4, 5),
    ];
    let at = replica.at();
    let counter = replica.into_inner();
    (answers, at, (counter.files, counter.effects))
}

const ANSWERS: [Option<Applied>; 11] = [
    Some(Applied::Gap(0)),
    Some(Applied::To(0)),
    Some(Applied::Old),
    Some(Applied::NeedsFresh(9)),
    Some(Applied::OtherRun(1)),
    Some(Applied::To(2)),
    Some(Applied::Old),
    Some(Applied::Gap(5)),
    Some(Applied::OtherRun(1)),
    Some(Applied::To(4)),
    Some(Applied::To(5)),
];

// Frames with losses and repeats: each answer, where the replica stands, and what was replayed.
#[test]
fn frames_in_any_order(rt: HostRuntime) -> Result<(), Fail> {
    let (answers, at, replayed) = applied(rt.alloc());
    assert!(rt; answers == ANSWERS);
    assert!(rt; at == Some((0, 5)));
    assert!(rt; replayed == (1, 3));
    Ok(())
}
