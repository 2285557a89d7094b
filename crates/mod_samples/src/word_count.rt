//! wordcount: a key has words with counts.

ghost use Rattle.std.specs.Prelude.{◌≡◌, ◌+◌, ◌-◌, ◌^◌, ◌<◌, ◌≤◌, ◌++◌, ◌&&◌, is_some, true, refl, [], ◌∷◌, length, IfOk, IfErr, IfSome, IsSome, OnOk, OnErr, Some, None};
ghost use Rattle.std.specs.Option.{is_none, option_map};
ghost use Rattle.core_types.specs.Keys.{value_at};
ghost use Rattle.core_types.specs.Keyspace.{IsString};
ghost use Rattle.sequences.specs.Words.{word};
ghost use Rattle.byte_text.specs.Number.{i64_of};
ghost use Rattle.module_laws.specs.Applying.{Applies, saved_of};
ghost use Rattle.module_laws.specs.Laws.{IsCall};
ghost use Rattle.core_types.specs.Limits.{IsSmallEffect, IsWithinLimits};
ghost use Rattle.module_laws.specs.Meaning.{type_of};
ghost use Rattle.module_laws.specs.Replay.{with_after};
ghost use Rattle.module_laws.specs.Runs.{Runs, scene};
ghost use Rattle.module_laws.specs.Told.{with_keys, with_native};
ghost use Rattle.module_laws.specs.Plain.{answers_only, plain_state};
ghost use Rattle.mod_samples.specs.Changes.{leaves, with_notes};
ghost use Rattle.mod_samples.specs.CountParts.{saved_counts};
ghost use Rattle.mod_samples.specs.Counts.{count_at, counted, is_count, some_counts, with_count, without_word};
ghost use Rattle.mod_samples.specs.WordCount.{adds, count_after, count_name, count_rows, count_says, counts_at, counts_or_none, counts_shown, drop_notes, drops, gets, is_drop, positive, puts, set_words, sets, to_set, value_of, wordcount, words_at};
ghost use Rattle.mod_samples.specs.Words.{own};
ghost use Rattle.mod_samples.specs.inner.States.{count_state};
ghost use Rattle.mod_samples.specs.inner.CountLawful.{count_lawful};
ghost use Rattle.mod_samples.specs.inner.CountLaws.{count_reads_back};

use crate::answers::refuse;
use crate::count_reading::{counts_in, saved};
use crate::counts::Counts;
use crate::effects::add_effect;
use crate::tally::Tally;
use crate::word_counts::WordCounts;
use crate::words::{own, word_at};
use byte_text::{read_i64, same_name, u64_text};
use core_types::{
    Args, Blob, Chores, CommandSpec, Effect, Effects, Items, LoadFault, NoMemory, Note, NoteClass,
    Refusal, Reply, Stop,
};
use module_laws::{
    ApplyStop, Context, KeyFault, LoadStop, Module, SetBack, SetFault, Verdict, Viewed,
};
use std::alloc::Global;

impl Viewed for WordCounts {
    ghost types = { type_of wordcount ∷ [] };

    ghost native = { λ w. counts_shown w.counts };

    ghost typed = { λ w. refl };
}

/// The module wordcount.
#[derive(Drop)]
pub struct WordCount {
    tally: Tally,
}

static COMMANDS: [CommandSpec; 4] = [
    CommandSpec {
        name: b"WORDCOUNT.ADD",
        arity: 3,
        writes: false,
        key: 1,
    },
    CommandSpec {
        name: b"WORDCOUNT.SET",
        arity: 4,
        writes: true,
        key: 1,
    },
    CommandSpec {
        name: b"WORDCOUNT.GET",
        arity: 3,
        writes: false,
        key: 1,
    },
    CommandSpec {
        name: b"WORDCOUNT.DROP",
        arity: 3,
        writes: true,
        key: 1,
    },
];

// A number from 1 on.
fn positive(text: &[u8]) -> Option<u64>
    ensures { result ≡ positive (i64_of text.now) }
{
    match read_i64(text) {
        Some(n) if n > 0 => Some(n as u64),
        _ => None,
    }
}

// The count that the words of a SET give.
fn to_set(words: &Args) -> Option<u64>
    ensures { result ≡ to_set words.now }
{
    if words.len() == 4 && same_name(word_at(words, 0), b"WORDCOUNT.SET") {
        positive(word_at(words, 3))
    } else {
        None
    }
}

// Whether these are the words of a DROP.
fn is_drop(words: &Args) -> bool
    ensures { result ≡ is_drop words.now }
{
    words.len() == 3 && same_name(word_at(words, 0), b"WORDCOUNT.DROP")
}

// Whether these are the words of a DROP of a word that is there.
fn drops_one(words: &Args, counts: &Counts) -> bool
    ensures { result ≡ (is_drop words.now && is_some (count_at (word 2 words.now) counts.now)) }
{
    is_drop(words) && counts.get(word_at(words, 2)).is_some()
}

// The SET of a count.
fn set_effect(alloc: Global, key: &[u8], word: &[u8], n: u64) -> Result<Effect, NoMemory>
    ensures { IfOk result (λ effect. effect.words ≡ set_words key.now word.now n) }
{
    let mut words = Args::new(alloc);
    words.push(b"WORDCOUNT.SET")?;
    words.push(key)?;
    words.push(word)?;
    words.push(u64_text(n).as_slice())?;
    Ok(Effect { words })
}

// The count of a word of a key, where it is there; no answer where the key has another kind.
fn count_in<C: Context<WordCounts>>(ctx: &C, key: &[u8], word: &[u8]) -> Option<Option<u64>>
    ensures count { result
        ≡ option_map (count_at word.now) (counts_at (C.told ctx.now).seen.keys key.now) }
    ensures small { IfSome result (λ count. IfSome count (λ n. n < 2 ^ 63)) }
{
    match ctx.native(key) {
        Ok(value) => Some(value.counts.get(word)),
        Err(KeyFault::Empty) => Some(None),
        Err(KeyFault::NotOurs(_)) => None,
    }
}

// How many words a key has.
fn words_in<C: Context<WordCounts>>(ctx: &C, key: &[u8]) -> usize
    ensures { result ≡ length (words_at (C.told ctx.now).seen.keys key.now) }
{
    match ctx.native(key) {
        Ok(value) => value.counts.len(),
        Err(_) => 0,
    }
}

// Gives a word of a key a count, where the key has words. Nothing but memory can be wanting.
fn write<C: Context<WordCounts>>(
    alloc: Global,
    ctx: &mut C,
    key: &[u8],
    word: &[u8],
    n: u64,
) -> Result<(), NoMemory>
    requires { is_count n ≡ true }
    ensures ok { OnOk result (C.told ctx.new ≡ with_native key.now
        (counts_shown (with_count word.now n (words_at (C.told ctx.old).seen.keys key.now)))
        (C.told ctx.old)) }
    ensures holds { C.held ctx.new ≡ C.held ctx.old }
    ensures typed { C.typed ctx.new ≡ C.typed ctx.old }
    ensures err { OnErr result (C.told ctx.new ≡ C.told ctx.old) }
{
    match ctx.native_mut(alloc, key) {
        Ok(value) => value.set(alloc, word, n),
        Err(_) => Err(NoMemory),
    }
}

// Takes a word of a key out, which is not its last. Nothing but memory can be wanting.
fn remove<C: Context<WordCounts>>(
    alloc: Global,
    ctx: &mut C,
    key: &[u8],
    word: &[u8],
) -> Result<(), NoMemory>
    requires { some_counts (without_word word.now
        (words_at (C.told ctx.old).seen.keys key.now)) ≡ true }
    ensures ok { OnOk result (C.told ctx.new ≡ with_native key.now
        (counts_shown (without_word word.now (words_at (C.told ctx.old).seen.keys key.now)))
        (C.told ctx.old)) }
    ensures holds { C.held ctx.new ≡ C.held ctx.old }
    ensures typed { C.typed ctx.new ≡ C.typed ctx.old }
    ensures err { OnErr result (C.told ctx.new ≡ C.told ctx.old) }
{
    match ctx.native_mut(alloc, key) {
        Ok(value) => {
            value.remove(word);
            Ok(())
        }
        Err(_) => Err(NoMemory),
    }
}

// Takes a word of a key out that is there, and the key with its last word. Says whether the key is
// gone.
fn take_out<C: Context<WordCounts>>(
    alloc: Global,
    ctx: &mut C,
    key: &[u8],
    word: &[u8],
) -> Result<bool, NoMemory>
    requires { IsSome (count_at word.now (words_at (C.told ctx.old).seen.keys key.now)) }
    ensures ok { OnOk result (C.told ctx.new ≡ with_keys (with_after count_name key.now
        (C.told ctx.old).seen.keys (value_of (without_word word.now
        (words_at (C.told ctx.old).seen.keys key.now)))) (C.told ctx.old)) }
    ensures gone { IfOk result (λ gone. gone ≡ is_none (value_of (without_word word.now
        (words_at (C.told ctx.old).seen.keys key.now)))) }
    ensures holds { C.held ctx.new ≡ C.held ctx.old }
    ensures typed { C.typed ctx.new ≡ C.typed ctx.old }
    ensures err { OnErr result (C.told ctx.new ≡ C.told ctx.old) }
{
    if words_in(ctx, key) == 1 {
        let _there = ctx.delete(alloc, key)?;
        return Ok(true);
    }
    remove(alloc, ctx, key, word)?;
    Ok(false)
}

// Tells of a word that was dropped, and of its key where it is gone.
fn tell_drop<C: Context<WordCounts>>(
    alloc: Global,
    ctx: &mut C,
    key: &[u8],
    gone: bool,
) -> Result<(), NoMemory>
    ensures ok { OnOk result
        (C.told ctx.new ≡ with_notes (drop_notes key.now gone) (C.told ctx.old)) }
    ensures seen { (C.told ctx.new).seen ≡ (C.told ctx.old).seen }
    ensures added { (C.told ctx.new).added ≡ (C.told ctx.old).added }
    ensures holds { C.held ctx.new ≡ C.held ctx.old }
    ensures typed { C.typed ctx.new ≡ C.typed ctx.old }
{
    ctx.notify(alloc, NoteClass::Module, b"wordcount.drop", key)?;
    if gone {
        ctx.notify(alloc, NoteClass::Generic, b"del", key)?;
    }
    Ok(())
}

// Replies the count of a word.
fn get<C: Context<WordCounts>>(alloc: Global, ctx: &C, words: &Args) -> Result<Verdict, NoMemory>
    ensures { IfOk result (λ verdict. verdict ≡ (gets (C.told ctx.now).seen (word 2 words.now)
        (counts_at (C.told ctx.now).seen.keys (word 1 words.now))).answer) }
{
    match count_in(ctx, word_at(words, 1), word_at(words, 2)) {
        Some(Some(n)) => Ok(Verdict::Say(Reply::Int(n as i64))),
        Some(None) => Ok(Verdict::Say(Reply::Int(0))),
        None => refuse(alloc, Refusal::WrongType),
    }
}

impl WordCount {
    /// A module that has made no values.
    pub fn new() -> WordCount
        ensures none { count_state result ≡ plain_state 0 0 }
    {
        WordCount {
            tally: Tally::new(),
        }
    }

    // Counts a further value. It ends where no more can be counted.
    fn make(&mut self, counts: Counts) -> Result<WordCounts, Stop>
        requires { some_counts counts ≡ true }
        ensures counts { IfOk result (λ made. made.counts ≡ counts) }
        ensures ok { OnOk result (self.new.tally.made ≡ self.old.tally.made + 1) }
        ensures err { IfErr result (λ stop. stop ≡ Stop.NumbersSpent) }
        ensures spent { OnErr result (self.old.tally.made ≡ 2 ^ 64 - 1) }
        ensures same { OnErr result (self.new.tally.made ≡ self.old.tally.made) }
        ensures freed { self.new.tally.freed ≡ self.old.tally.freed }
    {
        self.tally.make()?;
        Ok(WordCounts::new(counts))
    }

    // Makes a value of one word and puts it in. One that is refused is freed.
    fn put<C: Context<WordCounts>>(
        &mut self,
        alloc: Global,
        ctx: &mut C,
        key: &[u8],
        word: &[u8],
        n: u64,
    ) -> Result<(), Stop>
        requires string { IsString key.now }
        requires word { IsString word.now }
        requires count { is_count n ≡ true }
        requires absent { value_at (C.told ctx.old).seen.keys key.now ≡ None }
        ensures runs { Runs (type_of wordcount) (leaves count_name (C.told ctx.old).seen key.now
            (Some (saved_counts (counted word.now n ∷ [])))) result
            (scene (plain_state self.old.tally.made self.old.tally.freed) (C.told ctx.old))
            (scene (plain_state self.new.tally.made self.new.tally.freed) (C.told ctx.new)) }
        ensures holds { C.held ctx.new ≡ C.held ctx.old }
        ensures typed { C.typed ctx.new ≡ C.typed ctx.old }
        ensures made { self.new.tally.made ≤ self.old.tally.made + 1 }
    {
        let counts = Counts::one(alloc, word, n)?;
        let value = self.make(counts)?;
        match ctx.set_native(alloc, key, value) {
            Ok(()) => Ok(()),
            Err(SetBack { fault, value }) => {
                self.free(value);
                match fault {
                    SetFault::NumbersSpent => Err(Stop::NumbersSpent),
                    _ => Err(Stop::Memory),
                }
            }
        }
    }

    // Leaves a key, which has words or none, with a count of this word.
    fn store<C: Context<WordCounts>>(
        &mut self,
        alloc: Global,
        ctx: &mut C,
        key: &[u8],
        word: &[u8],
        n: u64,
    ) -> Result<(), Stop>
        requires string { IsString key.now }
        requires word { IsString word.now }
        requires count { is_count n ≡ true }
        requires ours { IsSome (counts_at (C.told ctx.old).seen.keys key.now) }
        ensures runs { Runs (type_of wordcount) (leaves count_name (C.told ctx.old).seen key.now
            (value_of (with_count word.now n (words_at (C.told ctx.old).seen.keys key.now)))) result
            (scene (plain_state self.old.tally.made self.old.tally.freed) (C.told ctx.old))
            (scene (plain_state self.new.tally.made self.new.tally.freed) (C.told ctx.new)) }
        ensures holds { C.held ctx.new ≡ C.held ctx.old }
        ensures typed { C.typed ctx.new ≡ C.typed ctx.old }
        ensures made { self.new.tally.made ≤ self.old.tally.made + 1 }
    {
        match ctx.kind(key) {
            None => self.put(alloc, ctx, key, word, n),
            Some(_) => {
                write(alloc, ctx, key, word, n)?;
                Ok(())
            }
        }
    }

    // Gives a word a count by the words of this SET, and replies so.
    fn set<C: Context<WordCounts>>(
        &mut self,
        alloc: Global,
        ctx: &mut C,
        effect: Effect,
        n: u64,
        said: Reply,
    ) -> Result<Verdict, Stop>
        requires small { IsSmallEffect effect }
        requires count { is_count n ≡ true }
        requires ours { IsSome (counts_at (C.told ctx.old).seen.keys (word 1 effect.words)) }
        ensures runs { Runs (type_of wordcount) (sets (C.told ctx.old).seen effect.words n
            (words_at (C.told ctx.old).seen.keys (word 1 effect.words)) said) result
            (scene (plain_state self.old.tally.made self.old.tally.freed) (C.told ctx.old))
            (scene (plain_state self.new.tally.made self.new.tally.freed) (C.told ctx.new)) }
        ensures holds { C.held ctx.new ≡ C.held ctx.old }
        ensures typed { C.typed ctx.new ≡ C.typed ctx.old }
        ensures made { self.new.tally.made ≤ self.old.tally.made + 1 }
    {
        let key = word_at(&effect.words, 1);
        self.store(alloc, ctx, key, word_at(&effect.words, 2), n)?;
        ctx.notify(alloc, NoteClass::Module, b"wordcount.set", key)?;
        add_effect(alloc, ctx, effect)?;
        Ok(Verdict::Say(said))
    }

    // Does an ADD: its effect is the SET of the new count.
    fn add<C: Context<WordCounts>>(
        &mut self,
        alloc: Global,
        ctx: &mut C,
        words: &Args,
    ) -> Result<Verdict, Stop>
        requires limits { IsWithinLimits words.now }
        ensures runs { Runs (type_of wordcount) (adds (C.told ctx.old).seen (word 1 words.now)
            (word 2 words.now) (counts_at (C.told ctx.old).seen.keys (word 1 words.now))) result
            (scene (plain_state self.old.tally.made self.old.tally.freed) (C.told ctx.old))
            (scene (plain_state self.new.tally.made self.new.tally.freed) (C.told ctx.new)) }
        ensures holds { C.held ctx.new ≡ C.held ctx.old }
        ensures typed { C.typed ctx.new ≡ C.typed ctx.old }
        ensures made { self.new.tally.made ≤ self.old.tally.made + 1 }
    {
        let key = word_at(words, 1);
        let word = word_at(words, 2);
        let Some(count) = count_in(ctx, key, word) else {
            return Ok(refuse(alloc, Refusal::WrongType)?);
        };
        let n = count.unwrap_or(0) + 1;
        if n > i64::MAX as u64 {
            return Ok(refuse(alloc, Refusal::Overflow)?);
        }
        let effect = set_effect(alloc, key, word, n)?;
        self.set(alloc, ctx, effect, n, Reply::Int(n as i64))
    }

    // Does a SET: it is its own effect.
    fn put_count<C: Context<WordCounts>>(
        &mut self,
        alloc: Global,
        ctx: &mut C,
        own: Effect,
    ) -> Result<Verdict, Stop>
        requires small { IsSmallEffect own }
        ensures runs { Runs (type_of wordcount) (puts (C.told ctx.old).seen own.words
            (positive (i64_of (word 3 own.words)))
            (counts_at (C.told ctx.old).seen.keys (word 1 own.words))) result
            (scene (plain_state self.old.tally.made self.old.tally.freed) (C.told ctx.old))
            (scene (plain_state self.new.tally.made self.new.tally.freed) (C.told ctx.new)) }
        ensures holds { C.held ctx.new ≡ C.held ctx.old }
        ensures typed { C.typed ctx.new ≡ C.typed ctx.old }
        ensures made { self.new.tally.made ≤ self.old.tally.made + 1 }
    {
        let Some(n) = positive(word_at(&own.words, 3)) else {
            return Ok(refuse(alloc, Refusal::NotAnInteger)?);
        };
        let key = word_at(&own.words, 1);
        if count_in(ctx, key, word_at(&own.words, 2)).is_none() {
            return Ok(refuse(alloc, Refusal::WrongType)?);
        }
        let said = Reply::simple(alloc, b"OK")?;
        self.set(alloc, ctx, own, n, said)
    }

    // Does a DROP: it is its own effect, where the word is there.
    fn drop_word<C: Context<WordCounts>>(
        &self,
        alloc: Global,
        ctx: &mut C,
        own: Effect,
    ) -> Result<Verdict, Stop>
        requires small { IsSmallEffect own }
        ensures runs { Runs (type_of wordcount) (drops (C.told ctx.old).seen own.words
            (counts_at (C.told ctx.old).seen.keys (word 1 own.words))) result
            (scene (plain_state self.now.tally.made self.now.tally.freed) (C.told ctx.old))
            (scene (plain_state self.now.tally.made self.now.tally.freed) (C.told ctx.new)) }
        ensures holds { C.held ctx.new ≡ C.held ctx.old }
        ensures typed { C.typed ctx.new ≡ C.typed ctx.old }
    {
        let key = word_at(&own.words, 1);
        let word = word_at(&own.words, 2);
        let Some(count) = count_in(ctx, key, word) else {
            return Ok(refuse(alloc, Refusal::WrongType)?);
        };
        if count.is_none() {
            return Ok(Verdict::Say(Reply::Int(0)));
        }
        let gone = take_out(alloc, ctx, key, word)?;
        tell_drop(alloc, ctx, key, gone)?;
        add_effect(alloc, ctx, own)?;
        Ok(Verdict::Say(Reply::Int(1)))
    }

    // Applies a SET to a value or none.
    fn apply_set(
        &mut self,
        alloc: Global,
        old: Option<WordCounts>,
        word: &[u8],
        n: u64,
    ) -> Result<Option<WordCounts>, ApplyStop<WordCounts>>
        requires { is_count n ≡ true }
        ensures applies { Applies (Some (value_of (with_count word.now n
            (counts_or_none (saved_of (λ w. counts_shown w.counts) old)))))
            (λ w. counts_shown w.counts) old result
            (plain_state self.old.tally.made self.old.tally.freed)
            (plain_state self.new.tally.made self.new.tally.freed) }
        ensures made { self.new.tally.made ≤ self.old.tally.made + 1 }
    {
        let Some(mut value) = old else {
            return match Counts::one(alloc, word, n) {
                Ok(counts) => match self.make(counts) {
                    Ok(value) => Ok(Some(value)),
                    Err(stop) => Err(ApplyStop::Stopped(stop, None)),
                },
                Err(_) => Err(ApplyStop::Stopped(Stop::Memory, None)),
            };
        };
        match value.set(alloc, word, n) {
            Ok(()) => Ok(Some(value)),
            Err(_) => Err(ApplyStop::Stopped(Stop::Memory, Some(value))),
        }
    }
}

impl Module for WordCount {
    type Value = WordCounts;

    const NAME: [u8; 9] = *b"wordcount";

    const ENCVER: u16 = 0;

    ghost NAME = { count_name };

    ghost ENCVER = { 0 };

    ghost meaning = { wordcount };

    ghost state = { count_state };

    ghost named = { (refl, refl) };

    ghost types_are = { refl };

    ghost counted = { λ m. m.tally.counted };

    ghost lawful = { count_lawful };

    ghost reads_back = { λ w. count_reads_back w.counts w.counted };

    fn commands(&self) -> &[CommandSpec] {
        &COMMANDS
    }

    fn exec<C: Context<WordCounts>>(
        &mut self,
        alloc: Global,
        ctx: &mut C,
        words: &Args,
    ) -> Result<Verdict, Stop>
        requires { IsCall count_rows words.now }
        ensures runs { Runs (type_of wordcount) (count_says (C.told ctx.old).seen (own words.now))
            result
            (scene (plain_state self.old.tally.made self.old.tally.freed) (C.told ctx.old))
            (scene (plain_state self.new.tally.made self.new.tally.freed) (C.told ctx.new)) }
        ensures holds { C.held ctx.new ≡ C.held ctx.old }
        ensures typed { C.typed ctx.new ≡ C.typed ctx.old }
        ensures made { self.new.tally.made ≤ self.old.tally.made + 1 }
    {
        let own = own(alloc, words)?;
        let name = word_at(&own.words, 0);
        if name == b"WORDCOUNT.ADD".as_slice() {
            self.add(alloc, ctx, &own.words)
        } else if name == b"WORDCOUNT.SET".as_slice() {
            self.put_count(alloc, ctx, own)
        } else if name == b"WORDCOUNT.DROP".as_slice() {
            self.drop_word(alloc, ctx, own)
        } else {
            Ok(get(alloc, ctx, &own.words)?)
        }
    }

    fn apply(
        &mut self,
        alloc: Global,
        old: Option<WordCounts>,
        words: &Args,
    ) -> Result<Option<WordCounts>, ApplyStop<WordCounts>>
        requires counted { IsSome old → self.old.tally.freed < self.old.tally.made }
        ensures applies { Applies
            (count_after (saved_of (λ w. counts_shown w.counts) old) words.now)
            (λ w. counts_shown w.counts) old result
            (plain_state self.old.tally.made self.old.tally.freed)
            (plain_state self.new.tally.made self.new.tally.freed) }
        ensures made { self.new.tally.made ≤ self.old.tally.made + 1 }
    {
        let word = word_at(words, 2);
        if let Some(n) = to_set(words) {
            return self.apply_set(alloc, old, word, n);
        }
        let Some(mut value) = old else {
            return Err(ApplyStop::Bad(None));
        };
        if !drops_one(words, &value.counts) {
            return Err(ApplyStop::Bad(Some(value)));
        }
        if value.counts.len() == 1 {
            self.free(value);
            return Ok(None);
        }
        value.remove(word);
        Ok(Some(value))
    }

    fn save(alloc: Global, value: &WordCounts) -> Result<Items, NoMemory> {
        saved(alloc, &value.counts)
    }

    fn load(&mut self, alloc: Global, items: &Items, encver: u16) -> Result<WordCounts, LoadStop> {
        if encver != 0 {
            return Err(LoadStop::Refused(LoadFault::Version(encver)));
        }
        let counts = counts_in(alloc, items)?;
        match self.make(counts) {
            Ok(value) => Ok(value),
            Err(stop) => Err(LoadStop::Stopped(stop)),
        }
    }

    fn rewrite(alloc: Global, key: &[u8], value: &WordCounts) -> Result<Effects, NoMemory> {
        let mut effects = Effects::new(alloc);
        for (word, n) in value.counts.iter() {
            effects.push(set_effect(alloc, key, word, *n)?)?;
        }
        Ok(effects)
    }

    fn free(&mut self, value: WordCounts) {
        value.end();
        self.tally.free();
    }

    fn on_note(&mut self, alloc: Global, _note: &Note) -> Result<Chores, NoMemory> {
        Ok(Chores::new(alloc))
    }

    fn private(&self, alloc: Global) -> Result<Items, NoMemory> {
        Ok(Items::new(alloc))
    }

    fn reply<C: Context<WordCounts>>(
        &mut self,
        _alloc: Global,
        ctx: &mut C,
        _payload: &Blob,
    ) -> Result<Reply, Stop>
        ensures runs { Runs (type_of wordcount)
            (answers_only Reply.Null (C.told ctx.old).seen) result
            (scene (plain_state self.old.tally.made self.old.tally.freed) (C.told ctx.old))
            (scene (plain_state self.new.tally.made self.new.tally.freed) (C.told ctx.new)) }
        ensures holds { C.held ctx.new ≡ C.held ctx.old }
        ensures typed { C.typed ctx.new ≡ C.typed ctx.old }
        ensures same { self.new ≡ self.old }
    {
        Ok(Reply::Null)
    }

    fn timed_out<C: Context<WordCounts>>(
        &mut self,
        _alloc: Global,
        ctx: &mut C,
        _job: &Blob,
    ) -> Result<Reply, Stop>
        ensures runs { Runs (type_of wordcount)
            (answers_only Reply.Null (C.told ctx.old).seen) result
            (scene (plain_state self.old.tally.made self.old.tally.freed) (C.told ctx.old))
            (scene (plain_state self.new.tally.made self.new.tally.freed) (C.told ctx.new)) }
        ensures holds { C.held ctx.new ≡ C.held ctx.old }
        ensures typed { C.typed ctx.new ≡ C.typed ctx.old }
        ensures same { self.new ≡ self.old }
    {
        Ok(Reply::Null)
    }

    fn gone<C: Context<WordCounts>>(
        &mut self,
        _alloc: Global,
        ctx: &mut C,
        _job: &Blob,
    ) -> Result<(), Stop>
        ensures runs { Runs (type_of wordcount) (answers_only tt (C.told ctx.old).seen) result
            (scene (plain_state self.old.tally.made self.old.tally.freed) (C.told ctx.old))
            (scene (plain_state self.new.tally.made self.new.tally.freed) (C.told ctx.new)) }
        ensures holds { C.held ctx.new ≡ C.held ctx.old }
        ensures typed { C.typed ctx.new ≡ C.typed ctx.old }
        ensures same { self.new ≡ self.old }
    {
        Ok(())
    }

    fn section<C: Context<WordCounts>>(
        &mut self,
        alloc: Global,
        ctx: &mut C,
        op: &Blob,
    ) -> Result<Blob, Stop>
        requires { IsString op.now }
        ensures runs { Runs (type_of wordcount) (answers_only [] (C.told ctx.old).seen) result
            (scene (plain_state self.old.tally.made self.old.tally.freed) (C.told ctx.old))
            (scene (plain_state self.new.tally.made self.new.tally.freed) (C.told ctx.new)) }
        ensures holds { C.held ctx.new ≡ C.held ctx.old }
        ensures typed { C.typed ctx.new ≡ C.typed ctx.old }
        ensures same { self.new ≡ self.old }
    {
        Ok(Blob::new(alloc))
    }

    fn work(alloc: Global, job: &Blob) -> Result<Blob, NoMemory> {
        job.copy(alloc)
    }

    fn made(&self) -> u64 {
        self.tally.made
    }

    fn freed(&self) -> u64 {
        self.tally.freed
    }
}
