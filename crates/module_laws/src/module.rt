//! A module: a type of values, its commands, and what it does when it is told or asked something.

ghost use Rattle.std.specs.Prelude.{◌≡◌, ◌<◌, ◌≤◌, ℕ, List, [], ◌∷◌, true, map, Ok, IfOk, IsSome};
ghost use Rattle.std.specs.List.{list_all};
ghost use Rattle.core_types.specs.CommandRow.{row_of_spec};
ghost use Rattle.core_types.specs.Keyspace.{IsString};
ghost use Rattle.module_laws.specs.Applying.{Applies, saved_of};
ghost use Rattle.module_laws.specs.Laws.{IsCall, IsLawful};
ghost use Rattle.module_laws.specs.Loading.{Loads};
ghost use Rattle.module_laws.specs.Meaning.{Meaning, type_of};
ghost use Rattle.module_laws.specs.Rewriting.{Rebuilds};
ghost use Rattle.module_laws.specs.Runs.{State, Runs, scene, with_freed};
ghost use Rattle.module_laws.specs.Telling.{Hears};
ghost use Rattle.module_laws.specs.Types.{is_short};

use crate::context::Context;
use crate::verdict::{ApplyStop, LoadStop, Verdict};
use crate::viewed::Viewed;
use core_types::{Args, Blob, Chores, CommandSpec, Effects, Items, NoMemory, Note, Reply, Stop};
use std::alloc::Global;

/// A module. What each call does is written in its `meaning`, and a call that answers `Ok` does
/// exactly that. The laws that a meaning obeys stand below the calls, and each `impl` proves them.
///
/// A value must be spent: it is put into a context or given to `free`.
pub trait Module {
    /// Its values.
    type Value: Viewed;

    /// The name of its type.
    const NAME: [u8; 9];

    /// The version in which it saves values.
    const ENCVER: u16;

    /// The name of its type, for contracts.
    ghost NAME: { List ℕ };

    /// The version, for contracts.
    ghost ENCVER: { ℕ };

    /// What it means.
    ghost meaning: { Meaning };

    /// Its private state, and how many values it has made and freed.
    ghost state: { Self → State };

    /// Its commands.
    fn commands(&self) -> &[CommandSpec]
        ensures rows { map row_of_spec result.now ≡ meaning.rows };

    /// Runs one of its commands. After an `Err` the host stops; what was done until then stands.
    fn exec<C: Context<Self::Value>>(
        &mut self,
        alloc: Global,
        ctx: &mut C,
        words: &Args,
    ) -> Result<Verdict, Stop>
        requires { IsCall meaning.rows words.now }
        ensures runs { Runs (type_of meaning)
            (meaning.says (state self.old).private (C.told ctx.old).seen words.now) result
            (scene (state self.old) (C.told ctx.old)) (scene (state self.new) (C.told ctx.new)) }
        ensures holds { C.held ctx.new ≡ C.held ctx.old }
        ensures typed { C.typed ctx.new ≡ C.typed ctx.old };

    /// Makes of a value, or of none, what an effect of its own makes of it: a value or none. Where
    /// the words make nothing of it, or memory runs out, the old value is handed back.
    fn apply(
        &mut self,
        alloc: Global,
        old: Option<Self::Value>,
        words: &Args,
    ) -> Result<Option<Self::Value>, ApplyStop<Self::Value>>
        requires { IsSome old → (state self.old).freed < (state self.old).made }
        ensures applies { Applies (meaning.after (saved_of Self.Value.native old) words.now)
            Self.Value.native old result (state self.old) (state self.new) };

    /// What a value is saved as.
    fn save(alloc: Global, value: &Self::Value) -> Result<Items, NoMemory>
        ensures items { IfOk result (λ items. items ≡ (Self.Value.native value.now).items) };

    /// The value that was saved so in this version, or why there is none.
    fn load(&mut self, alloc: Global, items: &Items, encver: u16) -> Result<Self::Value, LoadStop>
        ensures loads { Loads (meaning.loads items.now encver) Self.Value.native result
            (state self.old) (state self.new) };

    /// Commands of its own that build the value of a key again. For an empty value there are none.
    fn rewrite(alloc: Global, key: &[u8], value: &Self::Value) -> Result<Effects, NoMemory>
        requires key { IsString key.now }
        requires short { list_all is_short (Self.Value.native value.now).items ≡ true }
        ensures builds { IfOk result
            (Rebuilds meaning key.now (Self.Value.native value.now).items) };

    /// Takes a value that has left the keys.
    fn free(&mut self, value: Self::Value)
        requires { (state self.old).freed < (state self.old).made }
        ensures freed { state self.new ≡ with_freed (state self.old) };

    /// Is told a note, and answers the commands that it asks for. Changes its private state alone.
    fn on_note(&mut self, alloc: Global, note: &Note) -> Result<Chores, NoMemory>
        ensures hears { Hears (meaning.hears (state self.old).private note.now) result
            (state self.old) (state self.new) };

    /// Its private state.
    fn private(&self, alloc: Global) -> Result<Items, NoMemory>
        ensures items { IfOk result (λ items. items ≡ (state self.now).private) };

    /// The reply to a client that it blocked, when a payload has come.
    fn reply<C: Context<Self::Value>>(
        &mut self,
        alloc: Global,
        ctx: &mut C,
        payload: &Blob,
    ) -> Result<Reply, Stop>
        ensures runs { Runs (type_of meaning)
            (meaning.replies (state self.old).private (C.told ctx.old).seen payload.now) result
            (scene (state self.old) (C.told ctx.old)) (scene (state self.new) (C.told ctx.new)) }
        ensures holds { C.held ctx.new ≡ C.held ctx.old }
        ensures typed { C.typed ctx.new ≡ C.typed ctx.old };

    /// The reply to a client that it blocked, when its time is up.
    fn timed_out<C: Context<Self::Value>>(
        &mut self,
        alloc: Global,
        ctx: &mut C,
        job: &Blob,
    ) -> Result<Reply, Stop>
        ensures runs { Runs (type_of meaning)
            (meaning.times_out (state self.old).private (C.told ctx.old).seen job.now) result
            (scene (state self.old) (C.told ctx.old)) (scene (state self.new) (C.told ctx.new)) }
        ensures holds { C.held ctx.new ≡ C.held ctx.old }
        ensures typed { C.typed ctx.new ≡ C.typed ctx.old };

    /// A client that it blocked is gone.
    fn gone<C: Context<Self::Value>>(
        &mut self,
        alloc: Global,
        ctx: &mut C,
        job: &Blob,
    ) -> Result<(), Stop>
        ensures runs { Runs (type_of meaning)
            (meaning.goes (state self.old).private (C.told ctx.old).seen job.now) result
            (scene (state self.old) (C.told ctx.old)) (scene (state self.new) (C.told ctx.new)) }
        ensures holds { C.held ctx.new ≡ C.held ctx.old }
        ensures typed { C.typed ctx.new ≡ C.typed ctx.old };

    /// Is asked something outside a command, while nothing else changes the keys.
    fn section<C: Context<Self::Value>>(
        &mut self,
        alloc: Global,
        ctx: &mut C,
        op: &Blob,
    ) -> Result<Blob, Stop>
        requires { IsString op.now }
        ensures runs { Runs (type_of meaning)
            (meaning.tells (state self.old).private (C.told ctx.old).seen op.now) result
            (scene (state self.old) (C.told ctx.old)) (scene (state self.new) (C.told ctx.new)) }
        ensures holds { C.held ctx.new ≡ C.held ctx.old }
        ensures typed { C.typed ctx.new ≡ C.typed ctx.old };

    /// What a worker makes of a job, away from the keys.
    fn work(alloc: Global, job: &Blob) -> Result<Blob, NoMemory>
        ensures payload { IfOk result (λ payload. payload ≡ meaning.works job.now) };

    /// How many values it has made.
    fn made(&self) -> u64
        ensures made { result ≡ (state self.now).made };

    /// How many values it was given to free.
    fn freed(&self) -> u64
        ensures freed { result ≡ (state self.now).freed };

    /// The constants are those of the meaning.
    ghost named: { (NAME ≡ meaning.name) × (ENCVER ≡ meaning.version) };

    /// Its values are all of one type.
    ghost types_are: { Self.Value.types ≡ type_of meaning ∷ [] };

    /// The name, the commands, the effects and the limits are as they have to be.
    ghost lawful: { IsLawful meaning };

    /// It has freed no more values than it has made.
    ghost counted: { (own : Self) → (state own).freed ≤ (state own).made };

    /// What was saved is loaded as it was.
    ghost reads_back: { (value : Self.Value)
        → meaning.loads (Self.Value.native value).items meaning.version
        ≡ Ok (Self.Value.native value).items };
}
