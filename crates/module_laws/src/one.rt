//! A set of one module.

ghost use Rattle.std.specs.Prelude.{◌≡◌, ◌<◌, IfOk, IfSome, IsSome};
ghost use Rattle.module_laws.specs.Applying.{Applies, saved_of};
ghost use Rattle.module_laws.specs.Sets.{HasPlace, SameBut, only};

use crate::context::Context;
use crate::module::Module;
use crate::module_set::ModuleSet;
use crate::verdict::{ApplyStop, LoadStop, Verdict};
use core_types::{Args, Blob, Chores, CommandSpec, Effects, Items, NoMemory, Note, Reply, Stop};
use std::alloc::Global;
use type_ids::TypeName;

/// A module as a set: it stands at place 0.
#[derive(Drop)]
pub struct One<M: Module> {
    /// The module.
    pub one: M,
}

impl<M: Module> One<M> {
    /// The set of this module.
    pub fn new(one: M) -> One<M>
        ensures one { result.one ≡ one }
    {
        One { one }
    }
}

impl<M: Module> ModuleSet for One<M> {
    ghost use Rattle.module_laws.specs.inner.OneSet.{owned_by_one, one_lawful};

    type Value = M::Value;

    ghost modules = { only M.meaning };

    ghost state_at = { λ set place. M.state set.one };

    ghost owner_of = { λ value. 0 };

    ghost owned = { owned_by_one M.meaning M.Value.native M.Value.types M.types_are M.Value.typed };

    ghost types_are = { M.types_are };

    ghost lawful = { λ set. one_lawful M.meaning M.lawful };

    ghost counted = { λ set place within. M.counted set.one };

    ghost reads_back = { M.reads_back };

    fn count() -> u16 {
        1
    }

    fn name(_place: u16) -> TypeName {
        match TypeName::new(&M::NAME) {
            Ok(name) => name,
            Err(_) => unreachable!(),
        }
    }

    fn encver(_place: u16) -> u16 {
        M::ENCVER
    }

    fn place_of(name: &TypeName) -> Option<u16> {
        if name.text() == M::NAME.as_slice() {
            Some(0)
        } else {
            None
        }
    }

    fn owner(_value: &M::Value) -> u16 {
        0
    }

    fn commands(&self, _place: u16) -> &[CommandSpec] {
        self.one.commands()
    }

    fn exec<C: Context<M::Value>>(
        &mut self,
        alloc: Global,
        _place: u16,
        ctx: &mut C,
        words: &Args,
    ) -> Result<Verdict, Stop> {
        self.one.exec(alloc, ctx, words)
    }

    fn apply(
        &mut self,
        alloc: Global,
        _place: u16,
        old: Option<M::Value>,
        words: &Args,
    ) -> Result<Option<M::Value>, ApplyStop<M::Value>>
        requires place { HasPlace (only M.meaning) _place }
        requires counted { IsSome old → (M.state self.old.one).freed < (M.state self.old.one).made }
        ensures applies { Applies (M.meaning.after (saved_of M.Value.native old) words.now)
            M.Value.native old result (M.state self.old.one) (M.state self.new.one) }
        ensures owner { IfOk result (λ made. IfSome made (λ value. 0 ≡ _place)) }
        ensures others { SameBut (only M.meaning) _place (λ place. M.state self.old.one)
            (λ place. M.state self.new.one) }
    {
        self.one.apply(alloc, old, words)
    }

    fn save(alloc: Global, _place: u16, value: &M::Value) -> Result<Items, NoMemory> {
        M::save(alloc, value)
    }

    fn load(
        &mut self,
        alloc: Global,
        _place: u16,
        items: &Items,
        encver: u16,
    ) -> Result<M::Value, LoadStop> {
        self.one.load(alloc, items, encver)
    }

    fn rewrite(
        alloc: Global,
        _place: u16,
        key: &[u8],
        value: &M::Value,
    ) -> Result<Effects, NoMemory> {
        M::rewrite(alloc, key, value)
    }

    fn free(&mut self, _place: u16, value: M::Value) {
        self.one.free(value);
    }

    fn on_note(&mut self, alloc: Global, _place: u16, note: &Note) -> Result<Chores, NoMemory> {
        self.one.on_note(alloc, note)
    }

    fn private(&self, alloc: Global, _place: u16) -> Result<Items, NoMemory> {
        self.one.private(alloc)
    }

    fn reply<C: Context<M::Value>>(
        &mut self,
        alloc: Global,
        _place: u16,
        ctx: &mut C,
        payload: &Blob,
    ) -> Result<Reply, Stop> {
        self.one.reply(alloc, ctx, payload)
    }

    fn timed_out<C: Context<M::Value>>(
        &mut self,
        alloc: Global,
        _place: u16,
        ctx: &mut C,
        job: &Blob,
    ) -> Result<Reply, Stop> {
        self.one.timed_out(alloc, ctx, job)
    }

    fn gone<C: Context<M::Value>>(
        &mut self,
        alloc: Global,
        _place: u16,
        ctx: &mut C,
        job: &Blob,
    ) -> Result<(), Stop> {
        self.one.gone(alloc, ctx, job)
    }

    fn section<C: Context<M::Value>>(
        &mut self,
        alloc: Global,
        _place: u16,
        ctx: &mut C,
        op: &Blob,
    ) -> Result<Blob, Stop> {
        self.one.section(alloc, ctx, op)
    }

    fn work(alloc: Global, _place: u16, job: &Blob) -> Result<Blob, NoMemory> {
        M::work(alloc, job)
    }

    fn made(&self, _place: u16) -> u64 {
        self.one.made()
    }

    fn freed(&self, _place: u16) -> u64 {
        self.one.freed()
    }
}
