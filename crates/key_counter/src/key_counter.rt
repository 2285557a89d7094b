//! A type whose commands each work on one key: a number, which they set, raise, drop and read.

ghost use Rattle.std.specs.Prelude.{◌≡◌, refl};
ghost use Rattle.key_counter.specs.KeyCounter.{counter, counter_makes, saved_number};
ghost use Rattle.key_counter.specs.KeyCounterLaws.{counter_lawful};

use byte_text::{read_u64, u64_text};
use core_types::{
    After, Args, Blob, CommandSpec, Effect, Effects, Items, LoadFault, NoMemory, Reply, Tagged,
};
use module_laws::LoadStop;
use one_key::{KeyType, Wrote, word_at};
use std::alloc::Global;

/// The type of numbers.
#[derive(Drop)]
pub struct Counter;

static COMMANDS: [CommandSpec; 4] = [
    CommandSpec {
        name: b"COUNTER.SET",
        arity: 3,
        writes: true,
        key: 1,
    },
    CommandSpec {
        name: b"COUNTER.RAISE",
        arity: 2,
        writes: true,
        key: 1,
    },
    CommandSpec {
        name: b"COUNTER.DROP",
        arity: 2,
        writes: true,
        key: 1,
    },
    CommandSpec {
        name: b"COUNTER.GET",
        arity: 2,
        writes: false,
        key: 1,
    },
];

// What a command makes of a number or of none.
fn makes(words: &Args, old: Option<u64>) -> Option<Option<u64>>
    ensures { result ≡ counter_makes words.now old }
{
    let name = word_at(words, 0);
    if name == b"COUNTER.SET".as_slice() {
        read_u64(word_at(words, 2)).map(|n| Some(n))
    } else if name == b"COUNTER.RAISE".as_slice() {
        old.map(|n| Some(n.saturating_add(1)))
    } else {
        old.map(|_| None)
    }
}

impl KeyType for Counter {
    type Value = u64;

    const NAME: [u8; 9] = *b"upcounter";

    const ENCVER: u16 = 0;

    ghost NAME = { counter.name };

    ghost ENCVER = { 0 };

    ghost meaning = { counter };

    ghost saved = { saved_number };

    ghost named = { (refl, refl) };

    ghost lawful = { counter_lawful };

    ghost reads_back = { λ n. refl };

    fn commands() -> &'static [CommandSpec] {
        &COMMANDS
    }

    fn read(alloc: Global, value: &u64, _words: &Args) -> Result<Reply, NoMemory> {
        Ok(Reply::Bulk(Blob::from_slice(alloc, u64_text(*value).as_slice())?))
    }

    fn read_absent(_alloc: Global, _words: &Args) -> Result<Reply, NoMemory> {
        Ok(Reply::Null)
    }

    fn write(_alloc: Global, value: &mut u64, words: &Args) -> Result<Wrote<u64>, NoMemory> {
        match makes(words, Some(*value)) {
            None => Ok(Wrote::answer(Reply::Int(0))),
            Some(None) => Ok(Wrote::change(After::Remove, b"counter", Reply::Int(1))),
            Some(Some(n)) => {
                *value = n;
                Ok(Wrote::change(After::Keep, b"counter", Reply::Int(1)))
            }
        }
    }

    fn write_absent(_alloc: Global, words: &Args) -> Result<Wrote<u64>, NoMemory> {
        match makes(words, None) {
            None => Ok(Wrote::answer(Reply::Int(0))),
            Some(None) => Ok(Wrote::change(After::Remove, b"counter", Reply::Int(1))),
            Some(Some(n)) => Ok(Wrote::change(After::Put(n), b"counter", Reply::Int(1))),
        }
    }

    fn other(_alloc: Global, words: &Args) -> Result<Reply, NoMemory> {
        if word_at(words, 0) == b"COUNTER.GET".as_slice() {
            Ok(Reply::Null)
        } else {
            Ok(Reply::Int(0))
        }
    }

    fn save(alloc: Global, value: &u64) -> Result<Items, NoMemory> {
        let mut items = Items::new(alloc);
        items.push(Tagged::Number(*value))?;
        Ok(items)
    }

    fn load(_alloc: Global, items: &Items, encver: u16) -> Result<u64, LoadStop> {
        if encver != 0 {
            return Err(LoadStop::Refused(LoadFault::Version(encver)));
        }
        match items.get(0) {
            Some(Tagged::Number(n)) if items.len() == 1 => Ok(*n),
            Some(Tagged::Number(_)) => Err(LoadStop::Refused(LoadFault::Shape(1))),
            _ => Err(LoadStop::Refused(LoadFault::Shape(0))),
        }
    }

    fn rewrite(alloc: Global, key: &[u8], value: &u64) -> Result<Effects, NoMemory> {
        let text = u64_text(*value);
        let mut effects = Effects::new(alloc);
        effects.push(Effect::on_key(alloc, b"COUNTER.SET", key, text.as_slice())?)?;
        Ok(effects)
    }
}
