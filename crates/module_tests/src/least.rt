//! The least module that meets the laws.

ghost use Rattle.std.specs.Prelude.{◌≡◌, ◌≤◌, refl, [], ◌∷◌, None};
ghost use Rattle.module_laws.specs.Applying.{Applies};
ghost use Rattle.module_laws.specs.Meaning.{type_of};
ghost use Rattle.module_tests.specs.Least.{least, least_lawful, least_name};
ghost use Rattle.module_laws.specs.Plain.{plain_state};

use core_types::{
    Args, Blob, Chores, CommandSpec, Effects, Items, LoadFault, NoMemory, Note, Reply, Stop,
};
use module_laws::{ApplyStop, Context, LoadStop, Module, Verdict, Viewed};
use std::alloc::Global;

/// A value that says nothing.
pub struct Mark;

impl Viewed for Mark {
    ghost types = { type_of least ∷ [] };

    ghost native = { λ mark. record { name = least_name; items = [] } };

    ghost typed = { λ mark. refl };
}

/// The least module: one command, which answers 1.
#[derive(Drop)]
pub struct Least {
    made: u64,
    freed: u64,
    ghost counted: { freed ≤ made },
}

impl Least {
    /// A module that has made no values.
    pub fn new() -> Least {
        Least { made: 0, freed: 0 }
    }
}

static COMMANDS: [CommandSpec; 1] = [CommandSpec {
    name: b"LEAST.PING",
    arity: 1,
    writes: false,
    key: 0,
}];

impl Module for Least {
    type Value = Mark;

    const NAME: [u8; 9] = *b"leasttype";

    const ENCVER: u16 = 0;

    ghost NAME = { least_name };

    ghost ENCVER = { 0 };

    ghost meaning = { least };

    ghost state = { λ l. plain_state l.made l.freed };

    ghost named = { (refl, refl) };

    ghost types_are = { refl };

    ghost lawful = { least_lawful };

    ghost counted = { λ l. l.counted };

    ghost reads_back = { λ mark. refl };

    fn commands(&self) -> &[CommandSpec] {
        &COMMANDS
    }

    fn exec<C: Context<Mark>>(
        &mut self,
        _alloc: Global,
        _ctx: &mut C,
        _words: &Args,
    ) -> Result<Verdict, Stop> {
        Ok(Verdict::Say(Reply::Int(1)))
    }

    fn apply(
        &mut self,
        _alloc: Global,
        old: Option<Mark>,
        _words: &Args,
    ) -> Result<Option<Mark>, ApplyStop<Mark>>
        ensures applies { Applies None (λ mark. record { name = least_name; items = [] }) old result
            (plain_state self.old.made self.old.freed) (plain_state self.new.made self.new.freed) }
    {
        Err(ApplyStop::Bad(old))
    }

    fn save(alloc: Global, _value: &Mark) -> Result<Items, NoMemory> {
        Ok(Items::new(alloc))
    }

    fn load(&mut self, _alloc: Global, items: &Items, encver: u16) -> Result<Mark, LoadStop> {
        if encver != 0 {
            return Err(LoadStop::Refused(LoadFault::Version(encver)));
        }
        if !items.is_empty() {
            return Err(LoadStop::Refused(LoadFault::Shape(0)));
        }
        if self.made == u64::MAX {
            return Err(LoadStop::Stopped(Stop::NumbersSpent));
        }
        self.made += 1;
        Ok(Mark)
    }

    fn rewrite(alloc: Global, _key: &[u8], _value: &Mark) -> Result<Effects, NoMemory> {
        Ok(Effects::new(alloc))
    }

    fn free(&mut self, value: Mark) {
        let Mark = value;
        let made = self.made;
        prove!(self.freed < made);
        self.freed += 1;
    }

    fn on_note(&mut self, alloc: Global, _note: &Note) -> Result<Chores, NoMemory> {
        Ok(Chores::new(alloc))
    }

    fn private(&self, alloc: Global) -> Result<Items, NoMemory> {
        Ok(Items::new(alloc))
    }

    fn reply<C: Context<Mark>>(
        &mut self,
        _alloc: Global,
        _ctx: &mut C,
        _payload: &Blob,
    ) -> Result<Reply, Stop> {
        Ok(Reply::Null)
    }

    fn timed_out<C: Context<Mark>>(
        &mut self,
        _alloc: Global,
        _ctx: &mut C,
        _job: &Blob,
    ) -> Result<Reply, Stop> {
        Ok(Reply::Null)
    }

    fn gone<C: Context<Mark>>(
        &mut self,
        _alloc: Global,
        _ctx: &mut C,
        _job: &Blob,
    ) -> Result<(), Stop> {
        Ok(())
    }

    fn section<C: Context<Mark>>(
        &mut self,
        alloc: Global,
        _ctx: &mut C,
        _op: &Blob,
    ) -> Result<Blob, Stop> {
        Ok(Blob::new(alloc))
    }

    fn work(alloc: Global, job: &Blob) -> Result<Blob, NoMemory> {
        job.copy(alloc)
    }

    fn made(&self) -> u64 {
        self.made
    }

    fn freed(&self) -> u64 {
        self.freed
    }
}
