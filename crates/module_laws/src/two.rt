//! Two sets as one.

ghost use Rattle.std.specs.Prelude.{◌≡◌, ◌+◌, ◌<◌, ◌≤◌, ℕ, false, IfOk, IfErr, IfSome, IsSome, OnOk};
ghost use Rattle.module_laws.specs.Applying.{Applies, saved_of};
ghost use Rattle.module_laws.specs.Sets.{HasPlace, SameBut, by_half, joined, has_name, shares_command, command_count};
ghost use Rattle.module_laws.specs.Joining.{CanJoin, IsJoinFault};
ghost use Rattle.module_laws.specs.Sides.{native_of, place_of_half};

use crate::apart::Apart;
use crate::context::Context;
use crate::either::Either;
use crate::halves;
use crate::joining::{TwoBack, find_fault};
use crate::left::Left;
use crate::module_set::ModuleSet;
use crate::right::Right;
use crate::verdict::{ApplyStop, LoadStop, Verdict};
use core_types::{Args, Blob, Chores, CommandSpec, Effects, Items, NoMemory, Note, Reply, Stop};
use std::alloc::Global;
use type_ids::TypeName;

/// Two sets as one. The modules of the first stand first.
#[derive(Drop)]
pub struct Two<A: ModuleSet, B: ModuleSet> {
    /// The first.
    pub a: A,
    /// The second.
    pub b: B,
    ghost names: { (place : ℕ) → place < A.modules.size
        → has_name B.modules (A.modules.meaning_at place).name ≡ false },
    ghost commands: { (place : ℕ) → place < A.modules.size
        → shares_command (A.modules.meaning_at place) B.modules ≡ false },
    ghost few: { A.modules.size + B.modules.size ≤ 200 },
    ghost few_commands: { command_count A.modules + command_count B.modules ≤ 900 },
}

impl<A: ModuleSet, B: ModuleSet> Two<A, B> {
    /// Joins two sets. They are handed back where both have a module of one name, else where both
    /// have a command of one name, else where they have more than 900 commands or more than 200
    /// modules together.
    pub fn new(a: A, b: B) -> Result<Two<A, B>, TwoBack<A, B>>
        ensures ok { OnOk result (CanJoin A.modules B.modules) }
        ensures joined { IfOk result (λ two. (two.a ≡ a) × (two.b ≡ b)) }
        ensures fault { IfErr result (λ back. IsJoinFault A.modules B.modules back.fault) }
        ensures back { IfErr result (λ back. (back.a ≡ a) × (back.b ≡ b)) }
    {
        match find_fault(&a, &b) {
            None => Ok(Two { a, b }),
            Some(fault) => Err(TwoBack { fault, a, b }),
        }
    }

    /// The two sets again.
    pub fn into_halves(self) -> (A, B)
        ensures a { result.0 ≡ self.a }
        ensures b { result.1 ≡ self.b }
    {
        let Two { a, b } = self;
        (a, b)
    }

    // That the two halves have no type in common.
    fn apart(&self) -> Apart<A::Value, B::Value> {
        Apart::new()
    }
}

impl<A: ModuleSet, B: ModuleSet> ModuleSet for Two<A, B> {
    ghost use Rattle.module_laws.specs.inner.TwoSets.{owned_by_half, types_joined, two_lawful, half_counted, half_reads_back};

    type Value = Either<A::Value, B::Value>;

    ghost modules = { joined A.modules B.modules };

    ghost state_at = { λ set. by_half A.modules.size (A.state_at set.a) (B.state_at set.b) };

    ghost owner_of = { place_of_half A.modules.size A.owner_of B.owner_of };

    ghost owned = { owned_by_half A.modules B.modules A.owner_of B.owner_of
        A.Value.native B.Value.native A.owned B.owned };

    ghost types_are = { types_joined A.modules B.modules A.Value.types B.Value.types
        A.types_are B.types_are };

    ghost lawful = { λ set. two_lawful A.modules B.modules (A.lawful set.a)
        (B.lawful set.b) set.names set.commands set.few set.few_commands };

    ghost counted = { λ set. half_counted A.modules B.modules (A.state_at set.a) (B.state_at set.b)
        (A.counted set.a) (B.counted set.b) };

    ghost reads_back = { half_reads_back A.modules B.modules A.owner_of B.owner_of
        A.Value.native B.Value.native A.owned A.reads_back B.reads_back };

    fn count() -> u16 {
        A::count().saturating_add(B::count())
    }

    fn name(place: u16) -> TypeName {
        let first = A::count();
        if place < first {
            A::name(place)
        } else {
            B::name(place - first)
        }
    }

    fn encver(place: u16) -> u16 {
        let first = A::count();
        if place < first {
            A::encver(place)
        } else {
            B::encver(place - first)
        }
    }

    fn place_of(name: &TypeName) -> Option<u16> {
        match A::place_of(name) {
            Some(place) => Some(place),
            None => match B::place_of(name) {
                Some(place) => Some(A::count().saturating_add(place)),
                None => None,
            },
        }
    }

    fn owner(value: &Either<A::Value, B::Value>) -> u16 {
        match value {
            Either::Left(value) => A::owner(value),
            Either::Right(value) => A::count().saturating_add(B::owner(value)),
        }
    }

    fn commands(&self, place: u16) -> &[CommandSpec] {
        let first = A::count();
        if place < first {
            self.a.commands(place)
        } else {
            self.b.commands(place - first)
        }
    }

    fn exec<C: Context<Either<A::Value, B::Value>>>(
        &mut self,
        alloc: Global,
        place: u16,
        ctx: &mut C,
        words: &Args,
    ) -> Result<Verdict, Stop> {
        let apart = self.apart();
        let first = A::count();
        if place < first {
            self.a.exec(alloc, place, &mut Left::new(ctx, apart), words)
        } else {
            self.b
                .exec(alloc, place - first, &mut Right::new(ctx, apart), words)
        }
    }

    fn apply(
        &mut self,
        alloc: Global,
        place: u16,
        old: Option<Either<A::Value, B::Value>>,
        words: &Args,
    ) -> Result<Option<Either<A::Value, B::Value>>, ApplyStop<Either<A::Value, B::Value>>>
        requires place { HasPlace (joined A.modules B.modules) place }
        requires owner { IfSome old (λ value.
            place_of_half A.modules.size A.owner_of B.owner_of value ≡ place) }
        requires counted { IsSome old
            → (by_half A.modules.size (A.state_at self.old.a) (B.state_at self.old.b) place).freed
            < (by_half A.modules.size (A.state_at self.old.a) (B.state_at self.old.b) place).made }
        ensures applies { Applies
            (((joined A.modules B.modules).meaning_at place).after
            (saved_of (native_of A.Value.native B.Value.native) old) words.now)
            (native_of A.Value.native B.Value.native) old result
            (by_half A.modules.size (A.state_at self.old.a) (B.state_at self.old.b) place)
            (by_half A.modules.size (A.state_at self.new.a) (B.state_at self.new.b) place) }
        ensures owner { IfOk result (λ made. IfSome made (λ value.
            place_of_half A.modules.size A.owner_of B.owner_of value ≡ place)) }
        ensures others { SameBut (joined A.modules B.modules) place
            (by_half A.modules.size (A.state_at self.old.a) (B.state_at self.old.b))
            (by_half A.modules.size (A.state_at self.new.a) (B.state_at self.new.b)) }
    {
        let first = A::count();
        if place < first {
            let old = halves::left_option(old);
            halves::from_left(self.a.apply(alloc, place, old, words))
        } else {
            let old = halves::right_option(old);
            halves::from_right(self.b.apply(alloc, place - first, old, words))
        }
    }

    fn save(
        alloc: Global,
        place: u16,
        value: &Either<A::Value, B::Value>,
    ) -> Result<Items, NoMemory> {
        match value {
            Either::Left(value) => A::save(alloc, place, value),
            Either::Right(value) => B::save(alloc, place - A::count(), value),
        }
    }

    fn load(
        &mut self,
        alloc: Global,
        place: u16,
        items: &Items,
        encver: u16,
    ) -> Result<Either<A::Value, B::Value>, LoadStop> {
        let first = A::count();
        if place < first {
            match self.a.load(alloc, place, items, encver) {
                Ok(value) => Ok(Either::Left(value)),
                Err(stop) => Err(stop),
            }
        } else {
            match self.b.load(alloc, place - first, items, encver) {
                Ok(value) => Ok(Either::Right(value)),
                Err(stop) => Err(stop),
            }
        }
    }

    fn rewrite(
        alloc: Global,
        place: u16,
        key: &[u8],
        value: &Either<A::Value, B::Value>,
    ) -> Result<Effects, NoMemory> {
        match value {
            Either::Left(value) => A::rewrite(alloc, place, key, value),
            Either::Right(value) => B::rewrite(alloc, place - A::count(), key, value),
        }
    }

    fn free(&mut self, place: u16, value: Either<A::Value, B::Value>) {
        match value {
            Either::Left(value) => self.a.free(place, value),
            Either::Right(value) => self.b.free(place - A::count(), value),
        }
    }

    fn on_note(&mut self, alloc: Global, place: u16, note: &Note) -> Result<Chores, NoMemory> {
        let first = A::count();
        if place < first {
            self.a.on_note(alloc, place, note)
        } else {
            self.b.on_note(alloc, place - first, note)
        }
    }

    fn private(&self, alloc: Global, place: u16) -> Result<Items, NoMemory> {
        let first = A::count();
        if place < first {
            self.a.private(alloc, place)
        } else {
            self.b.private(alloc, place - first)
        }
    }

    fn reply<C: Context<Either<A::Value, B::Value>>>(
        &mut self,
        alloc: Global,
        place: u16,
        ctx: &mut C,
        payload: &Blob,
    ) -> Result<Reply, Stop> {
        let apart = self.apart();
        let first = A::count();
        if place < first {
            self.a
                .reply(alloc, place, &mut Left::new(ctx, apart), payload)
        } else {
            self.b
                .reply(alloc, place - first, &mut Right::new(ctx, apart), payload)
        }
    }

    fn timed_out<C: Context<Either<A::Value, B::Value>>>(
        &mut self,
        alloc: Global,
        place: u16,
        ctx: &mut C,
        job: &Blob,
    ) -> Result<Reply, Stop> {
        let apart = self.apart();
        let first = A::count();
        if place < first {
            self.a
                .timed_out(alloc, place, &mut Left::new(ctx, apart), job)
        } else {
            self.b
                .timed_out(alloc, place - first, &mut Right::new(ctx, apart), job)
        }
    }

    fn gone<C: Context<Either<A::Value, B::Value>>>(
        &mut self,
        alloc: Global,
        place: u16,
        ctx: &mut C,
        job: &Blob,
    ) -> Result<(), Stop> {
        let apart = self.apart();
        let first = A::count();
        if place < first {
            self.a.gone(alloc, place, &mut Left::new(ctx, apart), job)
        } else {
            self.b
                .gone(alloc, place - first, &mut Right::new(ctx, apart), job)
        }
    }

    fn section<C: Context<Either<A::Value, B::Value>>>(
        &mut self,
        alloc: Global,
        place: u16,
        ctx: &mut C,
        op: &Blob,
    ) -> Result<Blob, Stop> {
        let apart = self.apart();
        let first = A::count();
        if place < first {
            self.a.section(alloc, place, &mut Left::new(ctx, apart), op)
        } else {
            self.b
                .section(alloc, place - first, &mut Right::new(ctx, apart), op)
        }
    }

    fn work(alloc: Global, place: u16, job: &Blob) -> Result<Blob, NoMemory> {
        let first = A::count();
        if place < first {
            A::work(alloc, place, job)
        } else {
            B::work(alloc, place - first, job)
        }
    }

    fn made(&self, place: u16) -> u64 {
        let first = A::count();
        if place < first {
            self.a.made(place)
        } else {
            self.b.made(place - first)
        }
    }

    fn freed(&self, place: u16) -> u64 {
        let first = A::count();
        if place < first {
            self.a.freed(place)
        } else {
            self.b.freed(place - first)
        }
    }
}
