//! The context that the first half of a joined set sees.

ghost use Rattle.std.specs.Prelude.{◌≡◌, ◌∷◌};
ghost use Rattle.module_laws.specs.Told.{fault_of};

use crate::apart::Apart;
use crate::context::{Context, KeyFault, MutFault, SetBack};
use crate::either::{Either, left_of};
use crate::viewed::Viewed;
use core_types::{Args, Effect, Kind, NoMemory, NoteClass, Reply};
use std::alloc::Global;

/// A context, as the first half of a joined set sees it. It tells the record of the context that it
/// holds.
pub struct Left<'a, C, L: Viewed, R: Viewed> {
    ctx: &'a mut C,
    apart: Apart<L, R>,
}

impl<'a, L: Viewed, R: Viewed, C: Context<Either<L, R>>> Left<'a, C, L, R> {
    /// The context as the first half sees it.
    pub fn new(ctx: &'a mut C, apart: Apart<L, R>) -> Left<'a, C, L, R>
        ensures same_reference { result.ctx.ghost_name ≡ ctx.entry.ghost_name }
        ensures told { result.ctx.now ≡ ctx.old }
    {
        Left { ctx, apart }
    }
}

impl<'a, C, L: Viewed, R: Viewed> Drop for Left<'a, C, L, R> {
    fn drop(self)
        ensures same { self.exit.0.now ≡ self.entry.ctx.now }
    {
        let Left { ctx: _, apart: _ } = self;
    }
}

impl<'a, L: Viewed, R: Viewed, C: Context<Either<L, R>>> Context<L> for Left<'a, C, L, R> {
    ghost told = { λ left. C.told left.ctx.now };

    ghost held = { λ left. left.ctx.ghost_name ∷ C.held left.ctx.now };

    ghost typed = { λ left. C.typed left.ctx.now };

    ghost key_commands = { λ left. C.key_commands left.ctx.now };

    fn kind(&self, key: &[u8]) -> Option<Kind> {
        self.ctx.kind(key)
    }

    fn native(&self, key: &[u8]) -> Result<&L, KeyFault> {
        match self.ctx.native(key) {
            Ok(Either::Left(value)) => Ok(value),
            Ok(Either::Right(_)) => match self.ctx.kind(key) {
                Some(kind) => Err(KeyFault::NotOurs(kind)),
                None => Err(KeyFault::Empty),
            },
            Err(fault) => Err(fault),
        }
    }

    fn native_mut(&mut self, alloc: Global, key: &[u8]) -> Result<&mut L, MutFault> {
        let other = fault_at(self.ctx.kind(key));
        left_of(self.ctx.native_mut(alloc, key)?, other)
    }

    fn set_native(&mut self, alloc: Global, key: &[u8], value: L) -> Result<(), SetBack<L>> {
        match self.ctx.set_native(alloc, key, Either::Left(value)) {
            Ok(()) => Ok(()),
            Err(
                SetBack {
                    fault,
                    value: Either::Left(value),
                },
            ) => Err(SetBack { fault, value }),
            Err(
                SetBack {
                    fault: _,
                    value: Either::Right(_other),
                },
            ) => unreachable!(),
        }
    }

    fn delete(&mut self, alloc: Global, key: &[u8]) -> Result<bool, NoMemory> {
        self.ctx.delete(alloc, key)
    }

    fn call(&mut self, alloc: Global, words: &Args) -> Result<Reply, NoMemory> {
        self.ctx.call(alloc, words)
    }

    fn replicate(&mut self, alloc: Global, effect: Effect) -> Result<(), NoMemory> {
        self.ctx.replicate(alloc, effect)
    }

    fn notify(
        &mut self,
        alloc: Global,
        class: NoteClass,
        name: &[u8],
        key: &[u8],
    ) -> Result<(), NoMemory> {
        self.ctx.notify(alloc, class, name, key)
    }

    fn moment(&self) -> u64 {
        self.ctx.moment()
    }
}

/// Why a key of this kind, or none, lends no value of one's own.
pub(crate) fn fault_at(found: Option<Kind>) -> MutFault
    ensures { result ≡ fault_of found }
{
    match found {
        Some(kind) => MutFault::NotOurs(kind),
        None => MutFault::Empty,
    }
}
