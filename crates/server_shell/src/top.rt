//! The top call: all that the program does, over any directory, source, sink and clock.

ghost use Rattle.std.specs.Prelude.{ℕ, ◌≡◌, ◌↔◌, List, Option, Some, None, map};
ghost use Rattle.io_edges.specs.Told.{ClockTold};
ghost use Rattle.server_shell.specs.Check.{CheckEnds};
ghost use Rattle.server_shell.specs.Faults.{counted_by, faults_of};
ghost use Rattle.server_shell.specs.Top.{IsIdle, RunEnds};
ghost use Rattle.server_shell.specs.Words.{job_of, usage_fault};
ghost use Rattle.server_shell.specs.Pipe.{outside_of, unread};

use crate::checking::tell_look;
use crate::pipe::serve_pipe;
use crate::status::Status;
use crate::words::{Job, WordsFault, read_words};
use disk_model::Dir;
use durable_host::DurableHost;
use io_edges::{Clock, Sink, Source};
use std::alloc::Global;
use std::hash::RandomState;

/// The end of a run, and the directory that was handed in.
#[derive(Drop)]
pub struct Ended<D: Dir> {
    /// How it ended.
    pub status: Status,
    /// The directory.
    pub dir: D,
}

/// Does what the words ask for. `pipe DIR` starts a host over the directory and serves the source
/// as client 1: for each request the clock is read, the keys that are due go, the request is
/// served, its changes are in the log and synced, and then its replies are given to the sink.
/// `check DIR` tells the sink what a start would find, and changes nothing.
pub fn modhost<D: Dir, S: Source, K: Sink, C: Clock>(
    alloc: Global,
    hashing: RandomState,
    words: &[&str],
    dir: D,
    source: &mut S,
    sink: &mut K,
    clock: &mut C,
) -> Ended<D>
    // Faulty words come with their place, and nothing is touched.
    ensures usage { (place : ℕ) → (result.status ≡ Status.Usage place)
        ↔ (usage_fault (map (λ word. word.now) words.now) ≡ Some place) }
    ensures usage_untouched { (place : ℕ) → result.status ≡ Status.Usage place
        → (result.dir ≡ dir) × IsIdle
        (outside_of (S.told source.old) (S.told source.new) (C.told clock.old) (C.told clock.new)
        (K.told sink.old) (K.told sink.new)) }
    // A host was not started, or served the source: what each status says of the input, the
    // replies, the log and every crash.
    ensures runs { usage_fault (map (λ word. word.now) words.now) ≡ None
        → job_of (map (λ word. word.now) words.now) ≡ Job.Pipe
        → RunEnds result.status D.told dir result.dir
        (outside_of (S.told source.old) (S.told source.new) (C.told clock.old) (C.told clock.new)
        (K.told sink.old) (K.told sink.new)) }
    // What a start would find was told, and nothing changed.
    ensures checks { usage_fault (map (λ word. word.now) words.now) ≡ None
        → job_of (map (λ word. word.now) words.now) ≡ Job.Check
        → CheckEnds result.status (D.told dir) (D.told result.dir)
        (outside_of (S.told source.old) (S.told source.new) (C.told clock.old) (C.told clock.new)
        (K.told sink.old) (K.told sink.new)) }
    // Each fault is told, and only where its object counted one.
    ensures counts { faults_of (D.told result.dir) (S.told source.new).faults (K.told sink.new)
        ≡ counted_by result.status
        (faults_of (D.told dir) (S.told source.old).faults (K.told sink.old)) }
{
    match read_words(words) {
        Ok(Job::Pipe) => pipe(alloc, hashing, dir, source, sink, clock),
        Ok(Job::Check) => check(alloc, hashing, dir, sink),
        Err(WordsFault::Usage(place)) => Ended {
            status: Status::Usage(place),
            dir,
        },
    }
}

// Tells what a start would find in the directory.
fn check<D: Dir, K: Sink>(alloc: Global, hashing: RandomState, mut dir: D, sink: &mut K) -> Ended<D>
    ensures checks { (left : Option (List ℕ)) (clock : ClockTold)
        → CheckEnds result.status (D.told dir) (D.told result.dir)
        (unread left clock (K.told sink.old) (K.told sink.new)) }
    ensures counts { faults_of (D.told result.dir) 0 (K.told sink.new)
        ≡ counted_by result.status (faults_of (D.told dir) 0 (K.told sink.old)) }
{
    let status = match tell_look(alloc, hashing, &mut dir, sink) {
        Ok(()) => Status::Done,
        Err(status) => status,
    };
    Ended { status, dir }
}

// Serves the source over the directory.
fn pipe<D: Dir, S: Source, K: Sink, C: Clock>(
    alloc: Global,
    hashing: RandomState,
    dir: D,
    source: &mut S,
    sink: &mut K,
    clock: &mut C,
) -> Ended<D>
    ensures runs { RunEnds result.status D.told dir result.dir
        (outside_of (S.told source.old) (S.told source.new) (C.told clock.old) (C.told clock.new)
        (K.told sink.old) (K.told sink.new)) }
    ensures counts { faults_of (D.told result.dir) (S.told source.new).faults (K.told sink.new)
        ≡ counted_by result.status
        (faults_of (D.told dir) (S.told source.old).faults (K.told sink.old)) }
{
    match DurableHost::start(alloc, hashing, dir) {
        Ok(mut host) => {
            let status = serve_pipe(alloc, &mut host, source, clock, sink);
            Ended {
                status,
                dir: host.close(),
            }
        }
        Err(back) => Ended {
            status: Status::from(back.stop),
            dir: back.dir,
        },
    }
}
