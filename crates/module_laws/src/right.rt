//! The context that the second half of a joined set sees.

ghost use Rattle.std.specs.Prelude.{◌≡◌, ◌∷◌};

use crate::apart::Apart;
use crate::context::{Context, KeyFault, MutFault, SetBack};
use crate::either::{Either, right_of};
use crate::left::fault_at;
use crate::viewed::Viewed;
use core_types::{Args, Effect, Kind, NoMemory, NoteClass, Reply};
use std::alloc::Global;

/// A context, as the second half of a joined set sees it. It tells the record of the context that
/// it holds.
pub struct Right<'a, C, L: Viewed, R: Viewed> {
    ctx: &'a mut C,
    apart: Apart<L, R>,
}

impl<'a, L: Viewed, R: Viewed, C: Context<Either<L, R>>> Right<'a, C, L, R> {
    /// The context as the second half sees it.
    pub fn new(ctx: &'a mut C, apart: Apart<L, R>) -> Right<'a, C, L, R>
        ensures same_reference { result.ctx.ghost_name ≡ ctx.entry.ghost_name }
        ensures told { result.ctx.now ≡ ctx.old }
    {
        Right { ctx, apart }
    }
}

impl<'a, C, L: Viewed, R: Viewed> Drop for Right<'a, C, L, R> {
    fn drop(self)
        ensures same { self.exit.0.now ≡ self.entry.ctx.now }
    {
        let Right { ctx: _, apart: _ } = self;
    }
}

impl<'a, L: Viewed, R: Viewed, C: Context<Either<L, R>>> Context<R> for Right<'a, C, L, R> {
    ghost told = { λ right. C.told right.ctx.now };

    ghost held = { λ right. right.ctx.ghost_name ∷ C.held right.ctx.now };

    ghost typed = { λ right. C.typed right.ctx.now };

    ghost key_commands = { λ right. C.key_commands right.ctx.now };

    fn kind(&self, key: &[u8]) -> Option<Kind> {
        self.ctx.kind(key)
    }

    fn native(&self, key: &[u8]) -> Result<&R, KeyFault> {
        match self.ctx.native(key) {
            Ok(Either::Right(value)) => Ok(value),
            Ok(Either::Left(_)) => match self.ctx.kind(key) {
                Some(kind) => Err(KeyFault::NotOurs(kind)),
                None => Err(KeyFault::Empty),
            },
            Err(fault) => Err(fault),
        }
    }

    fn native_mut(&mut self, alloc: Global, key: &[u8]) -> Result<&mut R, MutFault> {
        let other = fault_at(self.ctx.kind(key));
        right_of(self.ctx.native_mut(alloc, key)?, other)
    }

    fn set_native(&mut self, alloc: Global, key: &[u8], value: R) -> Result<(), SetBack<R>> {
        match self.ctx.set_native(alloc, key, Either::Right(value)) {
            Ok(()) => Ok(()),
            Err(
                SetBack {
                    fault,
                    value: Either::Right(value),
                },
            ) => Err(SetBack { fault, value }),
            Err(
                SetBack {
                    fault: _,
                    value: Either::Left(_other),
                },
            ) => unreachable!(),
        }
    }

    fn delete(&mut self, alloc: Global, key: &[u8]) -> Result<bool, NoMemory> {
        self.ctx.delete(alloc, key)
    }

    fn call(&mut self, alloc: Global, words: &Args) -> Result<Reply, NoMemory> {
        self.ctx.call(alloc, words)
    }

    fn replicate(&mut self, alloc: Global, effect: Effect) -> Result<(), NoMemory> {
        self.ctx.replicate(alloc, effect)
    }

    fn notify(
        &mut self,
        alloc: Global,
        class: NoteClass,
        name: &[u8],
        key: &[u8],
    ) -> Result<(), NoMemory> {
        self.ctx.notify(alloc, class, name, key)
    }

    fn moment(&self) -> u64 {
        self.ctx.moment()
    }
}
