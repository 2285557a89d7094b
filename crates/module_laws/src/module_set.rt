//! A set of modules, each by its place.

ghost use Rattle.std.specs.Prelude.{◌≡◌, ◌<◌, ◌≤◌, ℕ, true, map, Ok, IfOk, IfSome, IsSome};
ghost use Rattle.std.specs.List.{list_all};
ghost use Rattle.std.specs.Option.{option_map};
ghost use Rattle.core_types.specs.CommandRow.{row_of_spec};
ghost use Rattle.core_types.specs.Keyspace.{IsString};
ghost use Rattle.module_laws.specs.Applying.{Applies, saved_of};
ghost use Rattle.module_laws.specs.Laws.{IsCall};
ghost use Rattle.module_laws.specs.Loading.{Loads};
ghost use Rattle.module_laws.specs.Meaning.{type_of};
ghost use Rattle.module_laws.specs.Rewriting.{Rebuilds};
ghost use Rattle.module_laws.specs.Runs.{State, Runs, scene, with_freed};
ghost use Rattle.module_laws.specs.Sets.{Modules, HasPlace, IsOwnValue, AreLawful, SameBut, held, place_in, types_of};
ghost use Rattle.module_laws.specs.Telling.{Hears};
ghost use Rattle.module_laws.specs.Types.{is_short};

use crate::context::Context;
use crate::verdict::{ApplyStop, LoadStop, Verdict};
use crate::viewed::Viewed;
use core_types::{Args, Blob, Chores, CommandSpec, Effects, Items, NoMemory, Note, Reply, Stop};
use std::alloc::Global;
use type_ids::TypeName;

/// A set of modules. Each call takes the place of the module that it is for, and is that module's
/// call; the others stay as they are.
pub trait ModuleSet {
    /// The values of its modules.
    type Value: Viewed;

    /// How many modules there are, and what each means.
    ghost modules: { Modules };

    /// The state of the module at a place.
    ghost state_at: { Self → ℕ → State };

    /// The place of the module whose value it is.
    ghost owner_of: { Self.Value → ℕ };

    /// How many modules there are, 65,535 at most.
    fn count() -> u16
        ensures count { result ≡ held modules.size };

    /// The name of a module's type.
    fn name(place: u16) -> TypeName
        requires { HasPlace modules place }
        ensures name { result ≡ (modules.meaning_at place).name };

    /// The version in which a module saves values.
    fn encver(place: u16) -> u16
        requires { HasPlace modules place }
        ensures version { result ≡ (modules.meaning_at place).version };

    /// The place of the module whose type has this name.
    fn place_of(name: &TypeName) -> Option<u16>
        ensures place { result ≡ option_map held (place_in modules name.now) };

    /// The place of the module whose value it is.
    fn owner(value: &Self::Value) -> u16
        ensures owner { result ≡ held (owner_of value.now) };

    /// A module's commands.
    fn commands(&self, place: u16) -> &[CommandSpec]
        requires { HasPlace modules place }
        ensures rows { map row_of_spec result.now ≡ (modules.meaning_at place).rows };

    /// Runs one of a module's commands.
    fn exec<C: Context<Self::Value>>(
        &mut self,
        alloc: Global,
        place: u16,
        ctx: &mut C,
        words: &Args,
    ) -> Result<Verdict, Stop>
        requires place { HasPlace modules place }
        requires call { IsCall (modules.meaning_at place).rows words.now }
        ensures runs { let old = state_at self.old place in let means = modules.meaning_at place in
            Runs (type_of means) (means.says old.private (C.told ctx.old).seen words.now) result
            (scene old (C.told ctx.old)) (scene (state_at self.new place) (C.told ctx.new)) }
        ensures holds { C.held ctx.new ≡ C.held ctx.old }
        ensures typed { C.typed ctx.new ≡ C.typed ctx.old }
        ensures others { SameBut modules place (state_at self.old) (state_at self.new) };

    /// Applies an effect of a module's own to a value of it, or to none.
    fn apply(
        &mut self,
        alloc: Global,
        place: u16,
        old: Option<Self::Value>,
        words: &Args,
    ) -> Result<Option<Self::Value>, ApplyStop<Self::Value>>
        requires place { HasPlace modules place }
        requires owner { IfSome old (λ value. owner_of value ≡ place) }
        requires counted { IsSome old
            → (state_at self.old place).freed < (state_at self.old place).made }
        ensures applies { Applies
            ((modules.meaning_at place).after (saved_of Self.Value.native old) words.now)
            Self.Value.native old result (state_at self.old place) (state_at self.new place) }
        ensures owner { IfOk result (λ made. IfSome made (λ value. owner_of value ≡ place)) }
        ensures others { SameBut modules place (state_at self.old) (state_at self.new) };

    /// What a value is saved as.
    fn save(alloc: Global, place: u16, value: &Self::Value) -> Result<Items, NoMemory>
        requires place { HasPlace modules place }
        requires owner { owner_of value.now ≡ place }
        ensures items { IfOk result (λ items. items ≡ (Self.Value.native value.now).items) };

    /// The value of a module that was saved so in this version, or why there is none.
    fn load(
        &mut self,
        alloc: Global,
        place: u16,
        items: &Items,
        encver: u16,
    ) -> Result<Self::Value, LoadStop>
        requires { HasPlace modules place }
        ensures loads { Loads
            ((modules.meaning_at place).loads items.now encver) Self.Value.native result
            (state_at self.old place) (state_at self.new place) }
        ensures owner { IfOk result (λ value. owner_of value ≡ place) }
        ensures others { SameBut modules place (state_at self.old) (state_at self.new) };

    /// Commands of a module's own that build the value of a key again. For an empty value there are
    /// none.
    fn rewrite(
        alloc: Global,
        place: u16,
        key: &[u8],
        value: &Self::Value,
    ) -> Result<Effects, NoMemory>
        requires place { HasPlace modules place }
        requires owner { owner_of value.now ≡ place }
        requires key { IsString key.now }
        requires short { list_all is_short (Self.Value.native value.now).items ≡ true }
        ensures builds { IfOk result
            (Rebuilds (modules.meaning_at place) key.now (Self.Value.native value.now).items) };

    /// Gives a module a value of it that has left the keys.
    fn free(&mut self, place: u16, value: Self::Value)
        requires place { HasPlace modules place }
        requires owner { owner_of value ≡ place }
        requires counted { (state_at self.old place).freed < (state_at self.old place).made }
        ensures freed { state_at self.new place ≡ with_freed (state_at self.old place) }
        ensures others { SameBut modules place (state_at self.old) (state_at self.new) };

    /// Tells a module a note.
    fn on_note(&mut self, alloc: Global, place: u16, note: &Note) -> Result<Chores, NoMemory>
        requires { HasPlace modules place }
        ensures hears { Hears
            ((modules.meaning_at place).hears (state_at self.old place).private note.now)
            result (state_at self.old place) (state_at self.new place) }
        ensures others { SameBut modules place (state_at self.old) (state_at self.new) };

    /// A module's private state.
    fn private(&self, alloc: Global, place: u16) -> Result<Items, NoMemory>
        requires { HasPlace modules place }
        ensures items { IfOk result (λ items. items ≡ (state_at self.now place).private) };

    /// A module's reply to a client that it blocked, when a payload has come.
    fn reply<C: Context<Self::Value>>(
        &mut self,
        alloc: Global,
        place: u16,
        ctx: &mut C,
        payload: &Blob,
    ) -> Result<Reply, Stop>
        requires { HasPlace modules place }
        ensures runs { let old = state_at self.old place in let means = modules.meaning_at place in
            Runs (type_of means) (means.replies old.private
            (C.told ctx.old).seen payload.now) result
            (scene old (C.told ctx.old)) (scene (state_at self.new place) (C.told ctx.new)) }
        ensures holds { C.held ctx.new ≡ C.held ctx.old }
        ensures typed { C.typed ctx.new ≡ C.typed ctx.old }
        ensures others { SameBut modules place (state_at self.old) (state_at self.new) };

    /// A module's reply to a client that it blocked, when its time is up.
    fn timed_out<C: Context<Self::Value>>(
        &mut self,
        alloc: Global,
        place: u16,
        ctx: &mut C,
        job: &Blob,
    ) -> Result<Reply, Stop>
        requires { HasPlace modules place }
        ensures runs { let old = state_at self.old place in let means = modules.meaning_at place in
            Runs (type_of means) (means.times_out old.private (C.told ctx.old).seen job.now) result
            (scene old (C.told ctx.old)) (scene (state_at self.new place) (C.told ctx.new)) }
        ensures holds { C.held ctx.new ≡ C.held ctx.old }
        ensures typed { C.typed ctx.new ≡ C.typed ctx.old }
        ensures others { SameBut modules place (state_at self.old) (state_at self.new) };

    /// A client that a module blocked is gone.
    fn gone<C: Context<Self::Value>>(
        &mut self,
        alloc: Global,
        place: u16,
        ctx: &mut C,
        job: &Blob,
    ) -> Result<(), Stop>
        requires { HasPlace modules place }
        ensures runs { let old = state_at self.old place in let means = modules.meaning_at place in
            Runs (type_of means) (means.goes old.private (C.told ctx.old).seen job.now) result
            (scene old (C.told ctx.old)) (scene (state_at self.new place) (C.told ctx.new)) }
        ensures holds { C.held ctx.new ≡ C.held ctx.old }
        ensures typed { C.typed ctx.new ≡ C.typed ctx.old }
        ensures others { SameBut modules place (state_at self.old) (state_at self.new) };

    /// Asks a module something outside a command.
    fn section<C: Context<Self::Value>>(
        &mut self,
        alloc: Global,
        place: u16,
        ctx: &mut C,
        op: &Blob,
    ) -> Result<Blob, Stop>
        requires place { HasPlace modules place }
        requires op { IsString op.now }
        ensures runs { let old = state_at self.old place in let means = modules.meaning_at place in
            Runs (type_of means) (means.tells old.private (C.told ctx.old).seen op.now) result
            (scene old (C.told ctx.old)) (scene (state_at self.new place) (C.told ctx.new)) }
        ensures holds { C.held ctx.new ≡ C.held ctx.old }
        ensures typed { C.typed ctx.new ≡ C.typed ctx.old }
        ensures others { SameBut modules place (state_at self.old) (state_at self.new) };

    /// What a worker of a module makes of a job, away from the keys.
    fn work(alloc: Global, place: u16, job: &Blob) -> Result<Blob, NoMemory>
        requires { HasPlace modules place }
        ensures payload { IfOk result
            (λ payload. payload ≡ (modules.meaning_at place).works job.now) };

    /// How many values a module has made.
    fn made(&self, place: u16) -> u64
        requires { HasPlace modules place }
        ensures made { result ≡ (state_at self.now place).made };

    /// How many values a module was given to free.
    fn freed(&self, place: u16) -> u64
        requires { HasPlace modules place }
        ensures freed { result ≡ (state_at self.now place).freed };

    /// A value's owner is one of the modules, and its type is that module's.
    ghost owned: { (value : Self.Value)
        → IsOwnValue modules (owner_of value) (Self.Value.native value).name };

    /// The values are of the types of the modules.
    ghost types_are: { Self.Value.types ≡ types_of modules };

    /// In a set that stands each module obeys the laws, and no two share a name or a command.
    ghost lawful: { (set : Self) → AreLawful modules };

    /// No module of a set has freed more values than it has made.
    ghost counted: { (set : Self) (place : ℕ) → place < modules.size
        → (state_at set place).freed ≤ (state_at set place).made };

    /// What was saved is loaded as it was.
    ghost reads_back: { (value : Self.Value) → (modules.meaning_at (owner_of value)).loads
        (Self.Value.native value).items (modules.meaning_at (owner_of value)).version
        ≡ Ok (Self.Value.native value).items };
}
