//! hellotype: a key has a list of numbers in rising order.

ghost use Rattle.std.specs.Prelude.{◌≡◌, ◌+◌, ◌-◌, ◌^◌, ◌<◌, ◌≤◌, true, refl, [], ◌∷◌, length, IfOk, IfErr, IsSome, OnOk, OnErr, Some, None, OnSome};
ghost use Rattle.std.specs.Option.{option_map};
ghost use Rattle.core_types.specs.Keys.{value_at};
ghost use Rattle.core_types.specs.Keyspace.{IsString};
ghost use Rattle.sequences.specs.Words.{word};
ghost use Rattle.byte_text.specs.Number.{i64_of};
ghost use Rattle.module_laws.specs.Applying.{Applies, saved_of};
ghost use Rattle.module_laws.specs.Laws.{IsCall};
ghost use Rattle.core_types.specs.Limits.{IsSmallEffect};
ghost use Rattle.module_laws.specs.Meaning.{type_of};
ghost use Rattle.module_laws.specs.Runs.{Runs, scene};
ghost use Rattle.module_laws.specs.Told.{with_native};
ghost use Rattle.module_laws.specs.Plain.{answers_only, plain_state};
ghost use Rattle.mod_samples.specs.Changes.{leaves};
ghost use Rattle.mod_samples.specs.HelloNumbers.{saved_numbers};
ghost use Rattle.mod_samples.specs.HelloType.{hello_after, hello_name, hello_rows, hello_says, hellotype, inserts, lengths, list_at, natural, number_array, numbers_at, ranges, shown, to_insert};
ghost use Rattle.mod_samples.specs.Rising.{inserted, is_rising};
ghost use Rattle.mod_samples.specs.Words.{own};
ghost use Rattle.mod_samples.specs.inner.States.{hello_state};
ghost use Rattle.mod_samples.specs.inner.HelloLaws.{hello_lawful, hello_reads_back};

use crate::answers::{count, refuse};
use crate::effects::add_effect;
use crate::hello_list::HelloList;
use crate::reading::{numbers_in, saved};
use crate::rising::Rising;
use crate::tally::Tally;
use crate::words::{own, word_at};
use byte_text::{i64_text, read_i64, same_name};
use core_types::{
    Args, Blob, Chores, CommandSpec, Effect, Effects, Items, LoadFault, NoMemory, Note, NoteClass,
    Refusal, Replies, Reply, Stop,
};
use module_laws::{
    ApplyStop, Context, KeyFault, LoadStop, Module, SetBack, SetFault, Verdict, Viewed,
};
use std::alloc::Global;

impl Viewed for HelloList {
    ghost types = { type_of hellotype ∷ [] };

    ghost native = { λ l. shown l.numbers };

    ghost typed = { λ l. refl };
}

/// The module hellotype.
#[derive(Drop)]
pub struct HelloType {
    tally: Tally,
}

static COMMANDS: [CommandSpec; 3] = [
    CommandSpec {
        name: b"HELLOTYPE.INSERT",
        arity: 3,
        writes: true,
        key: 1,
    },
    CommandSpec {
        name: b"HELLOTYPE.RANGE",
        arity: 4,
        writes: false,
        key: 1,
    },
    CommandSpec {
        name: b"HELLOTYPE.LEN",
        arity: 2,
        writes: false,
        key: 1,
    },
];

// The number that the words of an INSERT insert.
fn to_insert(words: &Args) -> Option<i64>
    ensures { result ≡ to_insert words.now }
{
    if words.len() == 3 && same_name(word_at(words, 0), b"HELLOTYPE.INSERT") {
        read_i64(word_at(words, 2))
    } else {
        None
    }
}

// A number that is not negative.
fn natural(text: &[u8]) -> Option<u64>
    ensures { result ≡ natural (i64_of text.now) }
{
    match read_i64(text) {
        Some(n) if n >= 0 => Some(n as u64),
        _ => None,
    }
}

// Numbers as an array.
fn number_array(alloc: Global, numbers: &[i64]) -> Result<Reply, NoMemory>
    ensures { IfOk result (λ reply. reply ≡ number_array numbers.now) }
{
    let mut replies = Replies::new(alloc);
    for n in numbers {
        replies.push(Reply::Int(*n))?;
    }
    Ok(Reply::Array(replies))
}

// How many numbers a key has, none where it is not there; no answer where it has another kind.
fn length_at<C: Context<HelloList>>(ctx: &C, key: &[u8]) -> Option<usize>
    ensures { result ≡ option_map length (numbers_at (C.told ctx.now).seen.keys key.now) }
{
    match ctx.native(key) {
        Ok(list) => Some(list.numbers.len()),
        Err(KeyFault::Empty) => Some(0),
        Err(KeyFault::NotOurs(_)) => None,
    }
}

// Replies numbers of a key.
fn range<C: Context<HelloList>>(alloc: Global, ctx: &C, words: &Args) -> Result<Verdict, NoMemory>
    ensures { IfOk result (λ verdict. verdict ≡ (ranges (C.told ctx.now).seen
        (natural (i64_of (word 2 words.now))) (natural (i64_of (word 3 words.now)))
        (numbers_at (C.told ctx.now).seen.keys (word 1 words.now))).answer) }
{
    let Some(first) = natural(word_at(words, 2)) else {
        return refuse(alloc, Refusal::NotAnInteger);
    };
    let Some(count) = natural(word_at(words, 3)) else {
        return refuse(alloc, Refusal::NotAnInteger);
    };
    match ctx.native(word_at(words, 1)) {
        Ok(list) => Ok(Verdict::Say(number_array(alloc, list.numbers.range(first, count))?)),
        Err(KeyFault::Empty) => Ok(Verdict::Say(number_array(alloc, &[])?)),
        Err(KeyFault::NotOurs(_)) => refuse(alloc, Refusal::WrongType),
    }
}

// Replies how many numbers a key has.
fn length<C: Context<HelloList>>(alloc: Global, ctx: &C, key: &[u8]) -> Result<Verdict, NoMemory>
    ensures { IfOk result (λ verdict. verdict ≡ (lengths (C.told ctx.now).seen
        (numbers_at (C.told ctx.now).seen.keys key.now)).answer) }
{
    match length_at(ctx, key) {
        Some(length) => Ok(count(length)),
        None => refuse(alloc, Refusal::WrongType),
    }
}

// Inserts a number into the list of a key, where it has one. Nothing but memory can be wanting.
fn write<C: Context<HelloList>>(
    alloc: Global,
    ctx: &mut C,
    key: &[u8],
    n: i64,
) -> Result<(), NoMemory>
    ensures ok { OnOk result (C.told ctx.new ≡ with_native key.now
        (shown (inserted n (list_at (C.told ctx.old).seen.keys key.now))) (C.told ctx.old)) }
    ensures holds { C.held ctx.new ≡ C.held ctx.old }
    ensures typed { C.typed ctx.new ≡ C.typed ctx.old }
    ensures err { OnErr result (C.told ctx.new ≡ C.told ctx.old) }
{
    match ctx.native_mut(alloc, key) {
        Ok(list) => list.insert(n),
        Err(_) => Err(NoMemory),
    }
}

impl HelloType {
    /// A module that has made no values.
    pub fn new() -> HelloType
        ensures none { hello_state result ≡ plain_state 0 0 }
    {
        HelloType {
            tally: Tally::new(),
        }
    }

    // Counts a further list. It ends where no more can be counted.
    fn make(&mut self, numbers: Rising) -> Result<HelloList, Stop>
        requires { is_rising numbers ≡ true }
        ensures numbers { IfOk result (λ made. made.numbers ≡ numbers) }
        ensures ok { OnOk result (self.new.tally.made ≡ self.old.tally.made + 1) }
        ensures err { IfErr result (λ stop. stop ≡ Stop.NumbersSpent) }
        ensures spent { OnErr result (self.old.tally.made ≡ 2 ^ 64 - 1) }
        ensures same { OnErr result (self.new.tally.made ≡ self.old.tally.made) }
        ensures freed { self.new.tally.freed ≡ self.old.tally.freed }
    {
        self.tally.make()?;
        Ok(HelloList::new(numbers))
    }

    // Makes a list of one number and puts it in. One that is refused is freed.
    fn put<C: Context<HelloList>>(
        &mut self,
        alloc: Global,
        ctx: &mut C,
        key: &[u8],
        n: i64,
    ) -> Result<(), Stop>
        requires string { IsString key.now }
        requires absent { value_at (C.told ctx.old).seen.keys key.now ≡ None }
        ensures runs { Runs (type_of hellotype) (leaves hello_name (C.told ctx.old).seen key.now
            (Some (saved_numbers (n ∷ [])))) result
            (scene (plain_state self.old.tally.made self.old.tally.freed) (C.told ctx.old))
            (scene (plain_state self.new.tally.made self.new.tally.freed) (C.told ctx.new)) }
        ensures holds { C.held ctx.new ≡ C.held ctx.old }
        ensures typed { C.typed ctx.new ≡ C.typed ctx.old }
        ensures made { self.new.tally.made ≤ self.old.tally.made + 1 }
    {
        let numbers = Rising::one(alloc, n)?;
        let value = self.make(numbers)?;
        match ctx.set_native(alloc, key, value) {
            Ok(()) => Ok(()),
            Err(SetBack { fault, value }) => {
                self.free(value);
                match fault {
                    SetFault::NumbersSpent => Err(Stop::NumbersSpent),
                    _ => Err(Stop::Memory),
                }
            }
        }
    }

    // Leaves a key, which has a list or none, with a number more.
    fn store<C: Context<HelloList>>(
        &mut self,
        alloc: Global,
        ctx: &mut C,
        key: &[u8],
        n: i64,
    ) -> Result<(), Stop>
        requires string { IsString key.now }
        requires ours { IsSome (numbers_at (C.told ctx.old).seen.keys key.now) }
        ensures runs { Runs (type_of hellotype) (leaves hello_name (C.told ctx.old).seen key.now
            (Some (saved_numbers (inserted n (list_at (C.told ctx.old).seen.keys key.now))))) result
            (scene (plain_state self.old.tally.made self.old.tally.freed) (C.told ctx.old))
            (scene (plain_state self.new.tally.made self.new.tally.freed) (C.told ctx.new)) }
        ensures holds { C.held ctx.new ≡ C.held ctx.old }
        ensures typed { C.typed ctx.new ≡ C.typed ctx.old }
        ensures made { self.new.tally.made ≤ self.old.tally.made + 1 }
    {
        match ctx.kind(key) {
            None => self.put(alloc, ctx, key, n),
            Some(_) => {
                write(alloc, ctx, key, n)?;
                Ok(())
            }
        }
    }

    // Does an INSERT: it is its own effect, and a note tells of it.
    fn insert<C: Context<HelloList>>(
        &mut self,
        alloc: Global,
        ctx: &mut C,
        own: Effect,
    ) -> Result<Verdict, Stop>
        requires small { IsSmallEffect own }
        ensures runs { Runs (type_of hellotype) (inserts (C.told ctx.old).seen own.words
            (i64_of (word 2 own.words)) (numbers_at (C.told ctx.old).seen.keys (word 1 own.words)))
            result
            (scene (plain_state self.old.tally.made self.old.tally.freed) (C.told ctx.old))
            (scene (plain_state self.new.tally.made self.new.tally.freed) (C.told ctx.new)) }
        ensures holds { C.held ctx.new ≡ C.held ctx.old }
        ensures typed { C.typed ctx.new ≡ C.typed ctx.old }
        ensures made { self.new.tally.made ≤ self.old.tally.made + 1 }
    {
        let Some(n) = read_i64(word_at(&own.words, 2)) else {
            return Ok(refuse(alloc, Refusal::NotAnInteger)?);
        };
        let key = word_at(&own.words, 1);
        let Some(length) = length_at(ctx, key) else {
            return Ok(refuse(alloc, Refusal::WrongType)?);
        };
        self.store(alloc, ctx, key, n)?;
        ctx.notify(alloc, NoteClass::Module, b"hellotype.insert", key)?;
        add_effect(alloc, ctx, own)?;
        Ok(count(length.saturating_add(1)))
    }
}

impl Module for HelloType {
    type Value = HelloList;

    const NAME: [u8; 9] = *b"hellotype";

    const ENCVER: u16 = 1;

    ghost NAME = { hello_name };

    ghost ENCVER = { 1 };

    ghost meaning = { hellotype };

    ghost state = { hello_state };

    ghost named = { (refl, refl) };

    ghost types_are = { refl };

    ghost counted = { λ m. m.tally.counted };

    ghost lawful = { hello_lawful };

    ghost reads_back = { λ l. hello_reads_back l.numbers l.rising };

    fn commands(&self) -> &[CommandSpec] {
        &COMMANDS
    }

    fn exec<C: Context<HelloList>>(
        &mut self,
        alloc: Global,
        ctx: &mut C,
        words: &Args,
    ) -> Result<Verdict, Stop>
        requires { IsCall hello_rows words.now }
        ensures runs { Runs (type_of hellotype) (hello_says (C.told ctx.old).seen (own words.now))
            result
            (scene (plain_state self.old.tally.made self.old.tally.freed) (C.told ctx.old))
            (scene (plain_state self.new.tally.made self.new.tally.freed) (C.told ctx.new)) }
        ensures holds { C.held ctx.new ≡ C.held ctx.old }
        ensures typed { C.typed ctx.new ≡ C.typed ctx.old }
        ensures made { self.new.tally.made ≤ self.old.tally.made + 1 }
    {
        let own = own(alloc, words)?;
        let name = word_at(&own.words, 0);
        if name == b"HELLOTYPE.INSERT".as_slice() {
            self.insert(alloc, ctx, own)
        } else if name == b"HELLOTYPE.RANGE".as_slice() {
            Ok(range(alloc, ctx, &own.words)?)
        } else {
            Ok(length(alloc, ctx, word_at(&own.words, 1))?)
        }
    }

    fn apply(
        &mut self,
        alloc: Global,
        old: Option<HelloList>,
        words: &Args,
    ) -> Result<Option<HelloList>, ApplyStop<HelloList>>
        requires counted { IsSome old → self.old.tally.freed < self.old.tally.made }
        ensures applies { Applies (hello_after (saved_of (λ l. shown l.numbers) old) words.now)
            (λ l. shown l.numbers) old result
            (plain_state self.old.tally.made self.old.tally.freed)
            (plain_state self.new.tally.made self.new.tally.freed) }
        ensures made { self.new.tally.made ≤ self.old.tally.made + 1 }
    {
        let Some(n) = to_insert(words) else {
            return Err(ApplyStop::Bad(old));
        };
        let Some(mut list) = old else {
            return match Rising::one(alloc, n) {
                Ok(numbers) => match self.make(numbers) {
                    Ok(list) => Ok(Some(list)),
                    Err(stop) => Err(ApplyStop::Stopped(stop, None)),
                },
                Err(_) => Err(ApplyStop::Stopped(Stop::Memory, None)),
            };
        };
        match list.insert(n) {
            Ok(()) => Ok(Some(list)),
            Err(_) => Err(ApplyStop::Stopped(Stop::Memory, Some(list))),
        }
    }

    fn save(alloc: Global, value: &HelloList) -> Result<Items, NoMemory> {
        saved(alloc, value.numbers.as_slice())
    }

    fn load(&mut self, alloc: Global, items: &Items, encver: u16) -> Result<HelloList, LoadStop> {
        if encver > 1 {
            return Err(LoadStop::Refused(LoadFault::Version(encver)));
        }
        let numbers = Rising::from_vec(numbers_in(alloc, items, encver)?);
        match self.make(numbers) {
            Ok(list) => Ok(list),
            Err(stop) => Err(LoadStop::Stopped(stop)),
        }
    }

    fn rewrite(alloc: Global, key: &[u8], value: &HelloList) -> Result<Effects, NoMemory> {
        let mut effects = Effects::new(alloc);
        for n in value.numbers.as_slice() {
            let text = i64_text(*n);
            effects.push(Effect::on_key(alloc, b"HELLOTYPE.INSERT", key, text.as_slice())?)?;
        }
        Ok(effects)
    }

    fn free(&mut self, value: HelloList) {
        value.end();
        self.tally.free();
    }

    fn on_note(&mut self, alloc: Global, _note: &Note) -> Result<Chores, NoMemory> {
        Ok(Chores::new(alloc))
    }

    fn private(&self, alloc: Global) -> Result<Items, NoMemory> {
        Ok(Items::new(alloc))
    }

    fn reply<C: Context<HelloList>>(
        &mut self,
        _alloc: Global,
        ctx: &mut C,
        _payload: &Blob,
    ) -> Result<Reply, Stop>
        ensures runs { Runs (type_of hellotype)
            (answers_only Reply.Null (C.told ctx.old).seen) result
            (scene (plain_state self.old.tally.made self.old.tally.freed) (C.told ctx.old))
            (scene (plain_state self.new.tally.made self.new.tally.freed) (C.told ctx.new)) }
        ensures holds { C.held ctx.new ≡ C.held ctx.old }
        ensures typed { C.typed ctx.new ≡ C.typed ctx.old }
        ensures same { self.new ≡ self.old }
    {
        Ok(Reply::Null)
    }

    fn timed_out<C: Context<HelloList>>(
        &mut self,
        _alloc: Global,
        ctx: &mut C,
        _job: &Blob,
    ) -> Result<Reply, Stop>
        ensures runs { Runs (type_of hellotype)
            (answers_only Reply.Null (C.told ctx.old).seen) result
            (scene (plain_state self.old.tally.made self.old.tally.freed) (C.told ctx.old))
            (scene (plain_state self.new.tally.made self.new.tally.freed) (C.told ctx.new)) }
        ensures holds { C.held ctx.new ≡ C.held ctx.old }
        ensures typed { C.typed ctx.new ≡ C.typed ctx.old }
        ensures same { self.new ≡ self.old }
    {
        Ok(Reply::Null)
    }

    fn gone<C: Context<HelloList>>(
        &mut self,
        _alloc: Global,
        ctx: &mut C,
        _job: &Blob,
    ) -> Result<(), Stop>
        ensures runs { Runs (type_of hellotype) (answers_only tt (C.told ctx.old).seen) result
            (scene (plain_state self.old.tally.made self.old.tally.freed) (C.told ctx.old))
            (scene (plain_state self.new.tally.made self.new.tally.freed) (C.told ctx.new)) }
        ensures holds { C.held ctx.new ≡ C.held ctx.old }
        ensures typed { C.typed ctx.new ≡ C.typed ctx.old }
        ensures same { self.new ≡ self.old }
    {
        Ok(())
    }

    fn section<C: Context<HelloList>>(
        &mut self,
        alloc: Global,
        ctx: &mut C,
        op: &Blob,
    ) -> Result<Blob, Stop>
        requires { IsString op.now }
        ensures runs { Runs (type_of hellotype) (answers_only [] (C.told ctx.old).seen) result
            (scene (plain_state self.old.tally.made self.old.tally.freed) (C.told ctx.old))
            (scene (plain_state self.new.tally.made self.new.tally.freed) (C.told ctx.new)) }
        ensures holds { C.held ctx.new ≡ C.held ctx.old }
        ensures typed { C.typed ctx.new ≡ C.typed ctx.old }
        ensures same { self.new ≡ self.old }
    {
        Ok(Blob::new(alloc))
    }

    fn work(alloc: Global, job: &Blob) -> Result<Blob, NoMemory> {
        job.copy(alloc)
    }

    fn made(&self) -> u64 {
        self.tally.made
    }

    fn freed(&self) -> u64 {
        self.tally.freed
    }
}
