//! A module of a type whose commands each work on one key.

ghost use Rattle.std.specs.Prelude.{◌≡◌, ◌+◌, ◌-◌, ◌^◌, ◌<◌, ◌≤◌, true, [], ◌∷◌, length, Some, None, IfOk, IfErr, IsSome, OnOk, OnErr, refl};
ghost use Rattle.std.specs.Option.{option_map};
ghost use Rattle.core_types.specs.Keyspace.{IsString};
ghost use Rattle.core_types.specs.Limits.{IsSmallEffect};
ghost use Rattle.module_laws.specs.Applying.{Applies, saved_of};
ghost use Rattle.module_laws.specs.Meaning.{type_of};
ghost use Rattle.module_laws.specs.Plain.{plain_state};
ghost use Rattle.module_laws.specs.Runs.{Runs, scene};
ghost use Rattle.one_key.specs.MeaningOf.{makes, meaning_of, serves};
ghost use Rattle.one_key.specs.OwnWords.{is_write, own};
ghost use Rattle.one_key.specs.inner.KeyLawful.{key_lawful};
ghost use Rattle.one_key.specs.inner.Shown.{shown};
ghost use Rattle.one_key.specs.inner.Steps.{CanPlace, Places, is_gone};

use crate::held::Held;
use crate::key_type::KeyType;
use crate::own::{is_write, own};
use crate::running::{read, tell, write_at, write_held};
use crate::wrote::{Change, Wrote};
use core_types::{
    After, Args, Blob, Chores, CommandSpec, Effect, Effects, Items, NoMemory, Note, Reply, Stop,
};
use module_laws::{ApplyStop, Context, LoadStop, Module, SetBack, SetFault, Verdict};
use std::alloc::Global;
use std::marker::PhantomData;

/// The module of a type: how many values it has made and freed.
#[derive(Drop)]
pub struct OneKey<T: KeyType> {
    made: u64,
    freed: u64,
    of: PhantomData<T>,
    ghost counted: { freed ≤ made },
}

impl<T: KeyType> OneKey<T> {
    /// A module that has made no values.
    pub fn new() -> OneKey<T>
        ensures made { result.made ≡ 0 }
        ensures freed { result.freed ≡ 0 }
    {
        OneKey {
            made: 0,
            freed: 0,
            of: PhantomData,
        }
    }

    // Counts a further value. It is let go where no more can be counted.
    fn make(&mut self, value: T::Value) -> Result<Held<T>, Stop>
        ensures value { IfOk result (λ held. held.value ≡ value) }
        ensures ok { OnOk result (self.new.made ≡ self.old.made + 1) }
        ensures err { IfErr result (λ stop. stop ≡ Stop.NumbersSpent) }
        ensures spent { OnErr result (self.old.made ≡ 2 ^ 64 - 1) }
        ensures same { OnErr result (self.new.made ≡ self.old.made) }
        ensures freed { self.new.freed ≡ self.old.freed }
    {
        if self.made == u64::MAX {
            return Err(Stop::NumbersSpent);
        }
        self.made += 1;
        Ok(Held { value })
    }

    // Counts a value that is let go.
    fn let_go(&mut self, held: Held<T>)
        requires { self.old.freed < self.old.made }
        ensures freed { self.new.freed ≡ self.old.freed + 1 }
        ensures made { self.new.made ≡ self.old.made }
    {
        let Held { value: _ } = held;
        let made = self.made;
        prove!(self.freed < made);
        self.freed += 1;
    }

    // Makes a value and puts it in. One that is refused is freed.
    fn put<C: Context<Held<T>>>(
        &mut self,
        alloc: Global,
        ctx: &mut C,
        key: &[u8],
        value: T::Value,
    ) -> Result<(), Stop>
        requires string { IsString key.now }
        requires full { CanPlace T.meaning T.saved (After.Put value) }
        ensures places { Places T.meaning T.saved key.now (After.Put value) result
            (scene (plain_state self.old.made self.old.freed) (C.told ctx.old))
            (scene (plain_state self.new.made self.new.freed) (C.told ctx.new)) }
        ensures holds { C.held ctx.new ≡ C.held ctx.old }
        ensures typed { C.typed ctx.new ≡ C.typed ctx.old }
    {
        let held = self.make(value)?;
        match ctx.set_native(alloc, key, held) {
            Ok(()) => Ok(()),
            Err(SetBack { fault, value: back }) => {
                self.let_go(back);
                match fault {
                    SetFault::NumbersSpent => Err(Stop::NumbersSpent),
                    _ => Err(Stop::Memory),
                }
            }
        }
    }

    // Does to a key what a command left to be done.
    fn place<C: Context<Held<T>>>(
        &mut self,
        alloc: Global,
        ctx: &mut C,
        key: &[u8],
        after: After<T::Value>,
    ) -> Result<(), Stop>
        requires string { IsString key.now }
        requires full { CanPlace T.meaning T.saved after }
        ensures places { Places T.meaning T.saved key.now after result
            (scene (plain_state self.old.made self.old.freed) (C.told ctx.old))
            (scene (plain_state self.new.made self.new.freed) (C.told ctx.new)) }
        ensures holds { C.held ctx.new ≡ C.held ctx.old }
        ensures typed { C.typed ctx.new ≡ C.typed ctx.old }
    {
        match after {
            After::Keep => Ok(()),
            After::Put(value) => self.put(alloc, ctx, key, value),
            After::Remove => {
                let _there = ctx.delete(alloc, key)?;
                Ok(())
            }
        }
    }

    // Runs a command that writes. What it changes is placed, and then told.
    fn write<C: Context<Held<T>>>(
        &mut self,
        alloc: Global,
        ctx: &mut C,
        own: Effect,
    ) -> Result<Verdict, Stop>
        requires key { 2 ≤ length own.words }
        requires small { IsSmallEffect own }
        requires writes { is_write T.meaning.rows own.words ≡ true }
        ensures runs { Runs (type_of (meaning_of T.meaning))
            (serves T.meaning [] (C.told ctx.old).seen own.words) result
            (scene (plain_state self.old.made self.old.freed) (C.told ctx.old))
            (scene (plain_state self.new.made self.new.freed) (C.told ctx.new)) }
        ensures holds { C.held ctx.new ≡ C.held ctx.old }
        ensures typed { C.typed ctx.new ≡ C.typed ctx.old }
    {
        let Some(wrote) = write_at::<T, C>(alloc, ctx, &own.words)? else {
            return Ok(Verdict::Say(T::other(alloc, &own.words)?));
        };
        let Wrote { reply, change } = wrote;
        let Some(change) = change else {
            return Ok(Verdict::Say(reply));
        };
        let Change {
            after,
            effect,
            event,
        } = change;
        let gone = is_gone(&after);
        self.place(alloc, ctx, own.words.word(1), after)?;
        tell::<T, C>(alloc, ctx, own, effect, event, gone)?;
        Ok(Verdict::Say(reply))
    }

    // Applies a command that writes to a value.
    fn apply_there(
        &mut self,
        alloc: Global,
        held: Held<T>,
        words: &Args,
    ) -> Result<Option<Held<T>>, ApplyStop<Held<T>>>
        requires key { 2 ≤ length words.now }
        requires counted { self.old.freed < self.old.made }
        ensures applies { Applies (option_map (λ change. change.left)
            (T.meaning.writes (Some (T.saved held.value)) words.now).change)
            (λ held. shown T.meaning (T.saved held.value)) (Some held) result
            (plain_state self.old.made self.old.freed)
            (plain_state self.new.made self.new.freed) }
    {
        let mut held = held;
        let Ok(wrote) = write_held(alloc, &mut held, words) else {
            return Err(ApplyStop::Stopped(Stop::Memory, Some(held)));
        };
        let Wrote { reply: _, change } = wrote;
        match change {
            None => Err(ApplyStop::Bad(Some(held))),
            Some(change) if is_gone(&change.after) => {
                self.let_go(held);
                Ok(None)
            }
            Some(_) => Ok(Some(held)),
        }
    }

    // Applies a command that writes where there is no value.
    fn apply_absent(
        &mut self,
        alloc: Global,
        words: &Args,
    ) -> Result<Option<Held<T>>, ApplyStop<Held<T>>>
        requires key { 2 ≤ length words.now }
        ensures applies { Applies (option_map (λ change. change.left)
            (T.meaning.writes None words.now).change)
            (λ held. shown T.meaning (T.saved held.value)) None result
            (plain_state self.old.made self.old.freed)
            (plain_state self.new.made self.new.freed) }
    {
        let Ok(wrote) = T::write_absent(alloc, words) else {
            return Err(ApplyStop::Stopped(Stop::Memory, None));
        };
        let Wrote { reply: _, change } = wrote;
        let Some(change) = change else {
            return Err(ApplyStop::Bad(None));
        };
        let Change {
            after,
            effect: _,
            event: _,
        } = change;
        let After::Put(value) = after else {
            return Ok(None);
        };
        match self.make(value) {
            Ok(held) => Ok(Some(held)),
            Err(stop) => Err(ApplyStop::Stopped(stop, None)),
        }
    }
}

impl<T: KeyType> Module for OneKey<T> {
    type Value = Held<T>;

    const NAME: [u8; 9] = T::NAME;

    const ENCVER: u16 = T::ENCVER;

    ghost NAME = { T.NAME };

    ghost ENCVER = { T.ENCVER };

    ghost meaning = { meaning_of T.meaning };

    ghost state = { λ m. plain_state m.made m.freed };

    ghost named = { T.named };

    ghost types_are = { refl };

    ghost lawful = { key_lawful T.meaning T.lawful };

    ghost counted = { λ m. m.counted };

    ghost reads_back = { λ held. T.reads_back held.value };

    fn commands(&self) -> &[CommandSpec] {
        T::commands()
    }

    fn exec<C: Context<Held<T>>>(
        &mut self,
        alloc: Global,
        ctx: &mut C,
        words: &Args,
    ) -> Result<Verdict, Stop> {
        let own = own(alloc, words)?;
        if is_write(T::commands(), &own.words) {
            self.write(alloc, ctx, own)
        } else {
            Ok(Verdict::Say(read::<T, C>(alloc, ctx, &own.words)?))
        }
    }

    fn apply(
        &mut self,
        alloc: Global,
        old: Option<Held<T>>,
        words: &Args,
    ) -> Result<Option<Held<T>>, ApplyStop<Held<T>>>
        requires counted { IsSome old → self.old.freed < self.old.made }
        ensures applies { Applies (makes T.meaning
            (saved_of (λ held. shown T.meaning (T.saved held.value)) old) (own words.now))
            (λ held. shown T.meaning (T.saved held.value)) old result
            (plain_state self.old.made self.old.freed) (plain_state self.new.made self.new.freed) }
    {
        if words.len() < 2 {
            return Err(ApplyStop::Bad(old));
        }
        let Ok(own) = own(alloc, words) else {
            return Err(ApplyStop::Stopped(Stop::Memory, old));
        };
        if !is_write(T::commands(), &own.words) {
            return Err(ApplyStop::Bad(old));
        }
        match old {
            Some(held) => self.apply_there(alloc, held, &own.words),
            None => self.apply_absent(alloc, &own.words),
        }
    }

    fn save(alloc: Global, value: &Held<T>) -> Result<Items, NoMemory> {
        T::save(alloc, &value.value)
    }

    fn load(&mut self, alloc: Global, items: &Items, encver: u16) -> Result<Held<T>, LoadStop> {
        let value = T::load(alloc, items, encver)?;
        match self.make(value) {
            Ok(held) => Ok(held),
            Err(stop) => Err(LoadStop::Stopped(stop)),
        }
    }

    fn rewrite(alloc: Global, key: &[u8], value: &Held<T>) -> Result<Effects, NoMemory> {
        T::rewrite(alloc, key, &value.value)
    }

    fn free(&mut self, value: Held<T>) {
        self.let_go(value);
    }

    fn on_note(&mut self, alloc: Global, _note: &Note) -> Result<Chores, NoMemory> {
        Ok(Chores::new(alloc))
    }

    fn private(&self, alloc: Global) -> Result<Items, NoMemory> {
        Ok(Items::new(alloc))
    }

    fn reply<C: Context<Held<T>>>(
        &mut self,
        _alloc: Global,
        _ctx: &mut C,
        _payload: &Blob,
    ) -> Result<Reply, Stop> {
        Ok(Reply::Null)
    }

    fn timed_out<C: Context<Held<T>>>(
        &mut self,
        _alloc: Global,
        _ctx: &mut C,
        _job: &Blob,
    ) -> Result<Reply, Stop> {
        Ok(Reply::Null)
    }

    fn gone<C: Context<Held<T>>>(
        &mut self,
        _alloc: Global,
        _ctx: &mut C,
        _job: &Blob,
    ) -> Result<(), Stop> {
        Ok(())
    }

    fn section<C: Context<Held<T>>>(
        &mut self,
        alloc: Global,
        _ctx: &mut C,
        _op: &Blob,
    ) -> Result<Blob, Stop> {
        Ok(Blob::new(alloc))
    }

    fn work(alloc: Global, job: &Blob) -> Result<Blob, NoMemory> {
        job.copy(alloc)
    }

    fn made(&self) -> u64 {
        self.made
    }

    fn freed(&self) -> u64 {
        self.freed
    }
}

// Whether a key goes.
fn is_gone<V>(after: &After<V>) -> bool
    ensures gone { result ≡ is_gone after.now }
{
    match after {
        After::Remove => true,
        _ => false,
    }
}
