//! Modules of a set, put to work with a context over a vector.

ghost use Rattle.std.specs.Prelude.{◌≡◌, true, find, map, length, nat_le, IfOk, IsTrue};
ghost use Rattle.std.specs.List.{list_all};
ghost use Rattle.std.specs.Option.{option_copied};
ghost use Rattle.std.specs.Str.{bytes_eq};
ghost use Rattle.core_types.specs.CommandRow.{row_of_spec};
ghost use Rattle.core_types.specs.Keyspace.{longest};
ghost use Rattle.module_laws.specs.Laws.{IsCall};
ghost use Rattle.module_laws.specs.Sets.{HasPlace};
ghost use Rattle.module_laws.specs.Types.{is_short};

use crate::shelf::Shelf;
use byte_text::read_i64;
use core_types::{
    Args, Blob, CommandSpec, Items, NoMemory, Note, NoteClass, Part, Reply, Stop, Tagged,
};
use module_laws::{ApplyStop, LoadStop, ModuleSet, Verdict, name_of};
use one_key::upper;
use std::alloc::Global;
use std::process::Abort;

// The words of a line.
fn words_of(alloc: Global, line: &[u8]) -> Result<Args, NoMemory> {
    let mut words = Args::new(alloc);
    for word in line.split(|byte| *byte == b' ') {
        words.push(word)?;
    }
    Ok(words)
}

// Whether no word is longer than a string may be.
fn are_short(words: &Args) -> bool
    ensures { result ≡ list_all (λ word. nat_le (length word) longest) words.now }
{
    words.from_place(0).all(|word| word.len() <= 536_870_912)
}

// The command of this name.
fn find<'a>(specs: &'a [CommandSpec], name: &[u8]) -> Option<&'a CommandSpec>
    ensures { option_copied result ≡ find (λ spec. bytes_eq spec.name.now name.now) specs.now }
{
    specs.iter().find(|spec| spec.name == name)
}

// Whether these are the words of one of these commands, as a host looks them up.
fn is_call(alloc: Global, specs: &[CommandSpec], words: &Args) -> Result<bool, NoMemory>
    ensures { IfOk result (λ is. IsTrue is → IsCall (map row_of_spec specs.now) words.now) }
{
    if words.is_empty() || words.len() > 1_048_576 || !are_short(words) {
        return Ok(false);
    }
    let name = upper(alloc, words.word(0))?;
    match find(specs, &name) {
        Some(spec) => Ok(spec.takes(words.len())),
        None => Ok(false),
    }
}

// The number in a part, or 0.
fn number_in(part: Option<&Part>) -> i64 {
    match part {
        Some(Part::Int(n)) => *n,
        _ => 0,
    }
}

// A reply as numbers: 1 with a number, 2 with the first and the last number of an array, 3 for a
// status, 4 with the length of an error's text, 5 with the number that a byte string says, 6 for no
// value, and 7 for no array.
fn told(reply: &Reply) -> [i64; 3] {
    match reply {
        Reply::Int(n) => [1, *n, 0],
        Reply::Array(replies) => [
            2,
            number_in(replies.parts().first()),
            number_in(replies.parts().last()),
        ],
        Reply::Simple(_) => [3, 0, 0],
        Reply::Error(text) => [4, text.as_slice().len().min(1000) as i64, 0],
        Reply::Bulk(text) => [5, read_i64(text.as_slice()).unwrap_or(-1), 0],
        Reply::Null => [6, 0, 0],
        Reply::NullArray => [7, 0, 0],
    }
}

/// What a module answers to a line: its reply as numbers, 8 where the client is to wait, and zeros
/// where the line is no command of it.
pub fn run<S: ModuleSet>(
    alloc: Global,
    set: &mut S,
    place: u16,
    ctx: &mut Shelf<S>,
    line: &[u8],
) -> Result<[i64; 3], Stop>
    requires { HasPlace S.modules place }
{
    let words = words_of(alloc, line)?;
    if !is_call(alloc, set.commands(place), &words)? {
        return Ok([0, 0, 0]);
    }
    match set.exec(alloc, place, ctx, &words)? {
        Verdict::Say(reply) => Ok(told(&reply)),
        Verdict::Block { .. } => Ok([8, 0, 0]),
    }
}

// What it answers to eight lines, and how many effects and notes came.
fn answers<S: ModuleSet>(
    alloc: Global,
    set: &mut S,
    place: u16,
    ctx: &mut Shelf<S>,
    lines: [&[u8]; 8],
) -> Result<([[i64; 3]; 8], (u64, u64)), Stop>
    requires { HasPlace S.modules place }
{
    let mut answers = [[0; 3]; 8];
    for (answer, line) in answers.iter_mut().zip(lines) {
        *answer = run(alloc, set, place, ctx, line)?;
    }
    Ok((answers, ctx.added()))
}

/// Gives a value to its module.
pub fn give<S: ModuleSet>(rt: &impl Abort, set: &mut S, value: S::Value) {
    let owner = S::owner(&value);
    assert!(rt; set.freed(owner) < set.made(owner));
    set.free(owner, value);
}

/// Gives each value that was put into a context to its module.
pub fn end<S: ModuleSet>(rt: &impl Abort, set: &mut S, mut ctx: Shelf<S>) {
    while let Some(value) = ctx.pop() {
        give(rt, set, value);
    }
    ctx.close();
}

/// What a module answers to eight lines in a context of its own, how many effects and notes came,
/// and how many values were made and freed.
pub fn lived<S: ModuleSet>(
    rt: &impl Abort,
    alloc: Global,
    set: &mut S,
    place: u16,
    lines: [&[u8]; 8],
) -> Result<([[i64; 3]; 8], (u64, u64), (u64, u64)), Stop>
    requires { HasPlace S.modules place }
{
    let mut ctx = Shelf::new(alloc, set);
    let lived = answers(alloc, set, place, &mut ctx, lines);
    end(rt, set, ctx);
    let (answers, added) = lived?;
    Ok((answers, added, (set.made(place), set.freed(place))))
}

/// Saved parts that are numbers.
pub fn numbers(alloc: Global, all: &[u64]) -> Result<Items, NoMemory>
    ensures { IfOk result (λ items. list_all is_short items ≡ true) }
{
    let mut items = Items::new(alloc);
    for n in all {
        items.push(Tagged::Number(*n))?;
    }
    Ok(items)
}

// What is saved of a value: how many parts, and the first where that is a number, else 0.
fn saved<S: ModuleSet>(alloc: Global, place: u16, value: &S::Value) -> Result<[u64; 2], Stop>
    requires place { HasPlace S.modules place }
    requires owner { S.owner_of value.now ≡ place }
{
    let items = S::save(alloc, place, value)?;
    let first = match items.get(0) {
        Some(Tagged::Number(n)) => *n,
        _ => 0,
    };
    Ok([items.len() as u64, first])
}

// What an effect makes of a value: what is saved of that, zeros for none, or 100 twice where the
// old one is handed back. All values are freed.
fn applied<S: ModuleSet>(
    rt: &impl Abort,
    alloc: Global,
    set: &mut S,
    place: u16,
    value: S::Value,
    words: &Args,
) -> Result<[u64; 2], Stop>
    requires place { HasPlace S.modules place }
    requires owner { S.owner_of value ≡ place }
{
    assert!(rt; name_of(set, &value) == S::name(place));
    assert!(rt; set.freed(place) < set.made(place));
    let (answer, back) = match set.apply(alloc, place, Some(value), words) {
        Ok(None) => (Ok([0, 0]), None),
        Ok(Some(value)) => (saved::<S>(alloc, place, &value), Some(value)),
        Err(ApplyStop::Bad(back)) => (Ok([100, 100]), back),
        Err(ApplyStop::Stopped(stop, back)) => (Err(stop), back),
    };
    if let Some(value) = back {
        give(rt, set, value);
    }
    answer
}

/// Loads a saved value of a module: what is saved of it, how many commands build it again, and what
/// an effect makes of it.
pub fn kept<S: ModuleSet>(
    rt: &impl Abort,
    alloc: Global,
    set: &mut S,
    place: u16,
    items: &Items,
    line: &[u8],
) -> Result<([u64; 2], usize, [u64; 2]), Stop>
    requires place { HasPlace S.modules place }
    requires short { list_all is_short items.now ≡ true }
{
    let words = words_of(alloc, line)?;
    match set.load(alloc, place, items, S::encver(place)) {
        Ok(value) => {
            let whole = saved::<S>(alloc, place, &value);
            let effects = S::rewrite(alloc, place, b"k", &value);
            let made = applied(rt, alloc, set, place, value, &words);
            Ok((whole?, effects?.len(), made?))
        }
        Err(LoadStop::Stopped(stop)) => Err(stop),
        Err(LoadStop::Refused(_)) => Ok(([200, 200], 200, [200, 200])),
    }
}

/// What a module answers without a command: whether a client that it blocked gets no value, in the
/// end and when its time is up; how many bytes it tells, and a worker makes of three; and how many
/// chores a note of this name makes, and private parts there are.
pub fn asked<S: ModuleSet>(
    alloc: Global,
    set: &mut S,
    place: u16,
    ctx: &mut Shelf<S>,
    name: &[u8],
) -> Result<[usize; 6], Stop>
    requires { HasPlace S.modules place }
{
    let text = Blob::from_slice(alloc, b"job")?;
    let note = Note {
        class: NoteClass::Module,
        name: Blob::from_slice(alloc, name)?,
        key: Blob::from_slice(alloc, b"k")?,
    };
    let replied = matches!(set.reply(alloc, place, ctx, &text)?, Reply::Null);
    let timed_out = matches!(set.timed_out(alloc, place, ctx, &text)?, Reply::Null);
    set.gone(alloc, place, ctx, &text)?;
    let told = set.section(alloc, place, ctx, &text)?.len();
    let made = S::work(alloc, place, &text)?.len();
    let chores = set.on_note(alloc, place, &note)?.len();
    let private = set.private(alloc, place)?.len();
    Ok([
        usize::from(replied),
        usize::from(timed_out),
        told,
        made,
        chores,
        private,
    ])
}
