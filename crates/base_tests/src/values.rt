use core_types::{
    After, Args, Blob, Chore, CommandSpec, Draft, Duplicate, Effect, Event, Field, HashBody, Line,
    ListBody, NoMemory, Note, NoteClass, Order, Out, Outcome, Part, Refusal, Replies, Reply,
    Sequence, Tagged, Words, invalid_expire, unknown_command, wrong_arity,
};
use std::alloc::Global;
use std::hash::RandomState;
use std::test::Fail;

fn blob(alloc: Global, bytes: &[u8]) -> Result<Blob, NoMemory> {
    Blob::from_slice(alloc, bytes)
}

fn words(alloc: Global, texts: &[&[u8]]) -> Result<Args, NoMemory> {
    let mut words = Args::new(alloc);
    words.reserve(texts.len(), 8)?;
    for text in texts {
        words.push(text)?;
    }
    Ok(words)
}

fn blobs(alloc: Global, texts: &[&[u8]]) -> Result<Sequence<Blob>, NoMemory> {
    let mut blobs = Sequence::new(alloc);
    for text in texts {
        blobs.push(blob(alloc, text)?)?;
    }
    Ok(blobs)
}

fn grow(text: &mut Blob) -> Result<(), NoMemory> {
    text.push(b'y')?;
    text.push_slice(b"s!")?;
    text.reserve(100)?;
    text.grow(7)?;
    text.overwrite(5, b"ab");
    Ok(())
}

fn write_anew(text: &mut Blob, all: &mut Blob) -> Result<(), NoMemory> {
    text.assign(b"|new")?;
    all.push_slice(text.as_slice())?;
    text.truncate(2);
    all.push_slice(text.as_slice())
}

// What the calls on byte strings leave, and a copy, one after the other.
fn strings(alloc: Global) -> Result<Vec<u8>, NoMemory> {
    let mut text = blob(alloc, b"ke")?;
    grow(&mut text)?;
    let mut all = text.copy(alloc)?;
    write_anew(&mut text, &mut all)?;
    Ok(all.into_vec())
}

#[test]
fn strings_grow_and_are_written_over(rt: HostRuntime) -> Result<(), Fail> {
    let all = strings(rt.alloc())?;
    assert_eq!(rt; all.as_slice(), b"keys!ab|new|n".as_slice());
    Ok(())
}

// Adds the words that are left, with a comma behind each.
fn add_words(all: &mut Blob, words: Words<'_>) -> Result<(), NoMemory> {
    for word in words {
        all.push_slice(word)?;
        all.push(b',')?;
    }
    Ok(())
}

// A copy of all words, those from the third on, and the second.
fn add_each_way(alloc: Global, all: &mut Blob, words: &Args) -> Result<(), NoMemory> {
    let copy = words.copy(alloc)?;
    add_words(all, copy.from_place(0))?;
    add_words(all, words.from_place(2))?;
    all.push_slice(words.get(1).unwrap_or(b"?"))?;
    all.push_slice(words.get(9).unwrap_or(b"!"))
}

// Adds a word to a draft in two pieces, of which the first is one byte or none.
fn draft_word(draft: &mut Draft, text: &[u8]) -> Result<(), NoMemory> {
    let (first, rest) = text.split_at(text.len().min(1));
    let Some(size) = draft.tail_len().checked_add(text.len()) else {
        return Err(NoMemory);
    };
    draft.add(first, size)?;
    draft.add(rest, size)?;
    draft.end_word()
}

#[tactic(auto, using(std::proofs::lemmas::List::nil_from_length))]
fn drafted(draft: &mut Draft, texts: &[&[u8]]) -> Result<Args, NoMemory> {
    for text in texts {
        draft_word(draft, text)?;
    }
    if draft.tail_len() > 0 || draft.len() != texts.len() {
        return Err(NoMemory);
    }
    Ok(draft.take())
}

const EDGES: &[&[u8]] = &[b"", b"key", b"", b"v", b""];

// Words that were pushed and words that were drafted, and those that a second draft has.
fn add_edges(alloc: Global, all: &mut Blob) -> Result<(), NoMemory> {
    add_each_way(alloc, all, &words(alloc, EDGES)?)?;
    let mut draft = Draft::new(alloc);
    add_each_way(alloc, all, &drafted(&mut draft, EDGES)?)?;
    add_each_way(alloc, all, &drafted(&mut draft, &[b"x"])?)
}

#[test]
fn empty_words_keep_their_places(rt: HostRuntime) -> Result<(), Fail> {
    let mut all = Blob::new(rt.alloc());
    add_edges(rt.alloc(), &mut all)?;
    assert_eq!(rt;
        all.as_slice(),
        b",key,,v,,,v,,key!,key,,v,,,v,,key!x,?!".as_slice()
    );
    Ok(())
}

// Adds the items of a list, with a comma behind each.
fn add_items(all: &mut Blob, list: &ListBody) -> Result<(), NoMemory> {
    for place in 0..list.len() {
        if let Some(item) = list.get(place) {
            all.push_slice(item.as_slice())?;
            all.push(b',')?;
        }
    }
    Ok(())
}

fn fill_list(alloc: Global, list: &mut ListBody) -> Result<(), NoMemory> {
    list.push_back(blob(alloc, b"a")?)?;
    list.push_front(blob(alloc, b"b")?)?;
    list.extend_back(blobs(alloc, &[b"a", b"c", b"a", b"d"])?)?;
    list.extend_front(blobs(alloc, &[b"x", b"a"])?)
}

fn take_last(alloc: Global, list: &mut ListBody) -> Result<(), NoMemory> {
    list.remove_last(2, b"a");
    if list.len() > 1 {
        let _ = list.replace(1, blob(alloc, b"z")?);
    }
    Ok(())
}

// A list without the first two `a`, and one without the last two.
fn lists(alloc: Global, all: &mut Blob) -> Result<(), NoMemory> {
    let mut list = ListBody::new(alloc)?;
    fill_list(alloc, &mut list)?;
    let mut copy = list.copy(alloc)?;
    copy.remove_first(2, b"a");
    add_items(all, &copy)?;
    take_last(alloc, &mut list)?;
    add_items(all, &list)
}

#[test]
fn lists_grow_at_both_ends(rt: HostRuntime) -> Result<(), Fail> {
    let mut all = Blob::new(rt.alloc());
    lists(rt.alloc(), &mut all)?;
    assert_eq!(rt; all.as_slice(), b"x,b,a,c,a,d,a,z,b,a,c,d,".as_slice());
    Ok(())
}

fn field(alloc: Global, name: &[u8], value: &[u8]) -> Result<Field, NoMemory> {
    Ok(Field {
        name: blob(alloc, name)?,
        value: blob(alloc, value)?,
    })
}

fn fill_hash(alloc: Global, hash: &mut HashBody) -> Result<(), NoMemory> {
    let mut fields = Sequence::new(alloc);
    for (name, value) in [(b"f", b"1"), (b"g", b"2"), (b"f", b"3")] {
        fields.push(field(alloc, name, value)?)?;
    }
    hash.put_all(fields)?;
    let _ = hash.put(alloc, b"h", blob(alloc, b"4")?)?;
    Ok(())
}

fn add_fields(all: &mut Blob, hash: &HashBody) -> Result<(), NoMemory> {
    for place in 0..hash.len() {
        all.push_slice(hash.name_at(place).unwrap_or(b"?"))?;
        all.push_slice(hash.value_at(place).map(Blob::as_slice).unwrap_or(b"?"))?;
    }
    Ok(())
}

fn add_copied(alloc: Global, all: &mut Blob, hash: &HashBody) -> Result<(), NoMemory> {
    let copy = hash.copy(alloc)?;
    add_fields(all, &copy)
}

// The fields of a hash and, behind them, those that are left without one.
fn add_twice(alloc: Global, all: &mut Blob, hash: &mut HashBody) -> Result<(), NoMemory> {
    fill_hash(alloc, hash)?;
    add_copied(alloc, all, hash)?;
    let _ = hash.remove(b"f");
    add_fields(all, hash)
}

// Takes out names: how many there were.
fn take_out(hash: &mut HashBody, alloc: Global, names: &[&[u8]]) -> Result<usize, NoMemory> {
    let names = words(alloc, names)?;
    hash.remove_all(alloc, names.from_place(0))
}

const MANY: &[&[u8]] = &[
    b"0", b"g", b"1", b"g", b"", b"2", b"3", b"4", b"h", b"5", b"6", b"7",
];

// How many fields a call on one name and one on many take out.
fn taken_out(alloc: Global, keys: RandomState) -> Result<[usize; 3], NoMemory> {
    let mut hash = HashBody::new(alloc, keys)?;
    fill_hash(alloc, &mut hash)?;
    let none = take_out(&mut hash, alloc, &[b"x"])?;
    let many = take_out(&mut hash, alloc, MANY)?;
    let one = take_out(&mut hash, alloc, &[b"f"])?;
    Ok([none, many, one])
}

#[test]
fn names_are_taken_out_together(rt: HostRuntime) -> Result<(), Fail> {
    assert_eq!(rt; taken_out(rt.alloc(), RandomState::new(&rt)?)?, [0, 2, 1]);
    Ok(())
}

fn hashes(alloc: Global, keys: RandomState, all: &mut Blob) -> Result<(), NoMemory> {
    let mut hash = HashBody::new(alloc, keys)?;
    add_twice(alloc, all, &mut hash)
}

#[test]
fn fields_keep_their_order(rt: HostRuntime) -> Result<(), Fail> {
    let mut all = Blob::new(rt.alloc());
    hashes(rt.alloc(), RandomState::new(&rt)?, &mut all)?;
    assert_eq!(rt; all.as_slice(), b"f3g2h4g2h4".as_slice());
    Ok(())
}

fn own_words(alloc: Global, name: &[u8], words: &Args) -> Result<Effect, NoMemory> {
    if words.is_empty() {
        return Err(NoMemory);
    }
    Effect::own_words(alloc, name, words)
}

fn on_key(alloc: Global, name: &[u8], words: &Args) -> Result<Note, NoMemory> {
    if words.len() < 2 {
        return Err(NoMemory);
    }
    Note::on_key(alloc, NoteClass::String, name, words)
}

// How many items a list of one and its copy have, the one moved behind the other.
fn doubled<T: Duplicate + Drop>(alloc: Global, item: T) -> Result<usize, NoMemory> {
    let mut items = Sequence::new(alloc);
    items.push(item)?;
    let mut copy = items.copy(alloc)?;
    items.append(&mut copy)?;
    Ok(items.len())
}

fn note(alloc: Global) -> Result<Note, NoMemory> {
    let words = words(alloc, &[b"SET", b"k"])?;
    on_key(alloc, b"set", &words)
}

fn order(alloc: Global) -> Result<Order, NoMemory> {
    Ok(Order {
        ticket: 1,
        place: 0,
        job: blob(alloc, b"j")?,
    })
}

fn out(alloc: Global) -> Result<Out, NoMemory> {
    Ok(Out {
        client: 1,
        reply: Refusal::Syntax.reply(alloc)?,
    })
}

fn chore(alloc: Global) -> Result<Chore, NoMemory> {
    Ok(Chore {
        place: 1,
        words: words(alloc, &[b"a"])?,
    })
}

fn told(alloc: Global) -> Result<[usize; 3], NoMemory> {
    Ok([
        doubled(alloc, Effect::on_key(alloc, b"SET", b"k", b"v")?)?,
        doubled(alloc, note(alloc)?)?,
        doubled(alloc, out(alloc)?)?,
    ])
}

fn asked(alloc: Global) -> Result<[usize; 5], NoMemory> {
    Ok([
        doubled(alloc, words(alloc, &[b"PING"])?)?,
        doubled(alloc, Event::Arrive(1, words(alloc, &[b"PING"])?))?,
        doubled(alloc, Event::Flush)?,
        doubled(alloc, order(alloc)?)?,
        doubled(alloc, chore(alloc)?)?,
    ])
}

fn saved(alloc: Global) -> Result<[usize; 3], NoMemory> {
    Ok([
        doubled(alloc, field(alloc, b"f", b"1")?)?,
        doubled(alloc, Tagged::Bytes(blob(alloc, b"x")?))?,
        doubled(alloc, Tagged::Number(7))?,
    ])
}

fn held(alloc: Global, keys: RandomState) -> Result<[usize; 3], NoMemory> {
    Ok([
        doubled(alloc, ListBody::new(alloc)?)?,
        doubled(alloc, HashBody::new(alloc, keys)?)?,
        doubled(alloc, Refusal::Syntax.reply(alloc)?)?,
    ])
}

// Each list of another type is copied with all its items.
#[test]
fn ample(rt: HostRuntime) -> Result<(), Fail> {
    assert_eq!(rt; told(rt.alloc())?, [2; 3]);
    assert_eq!(rt; asked(rt.alloc())?, [2; 5]);
    assert_eq!(rt; saved(rt.alloc())?, [2; 3]);
    assert_eq!(rt; held(rt.alloc(), RandomState::new(&rt)?)?, [2; 3]);
    Ok(())
}

fn pair(inner: &mut Replies) -> Result<(), NoMemory> {
    inner.push(Reply::Int(-1))?;
    inner.push(Reply::Null)
}

fn nested(alloc: Global) -> Result<Reply, NoMemory> {
    let mut inner = Replies::new(alloc);
    pair(&mut inner)?;
    Ok(Reply::Array(inner))
}

fn fill_replies(alloc: Global, outer: &mut Replies) -> Result<(), NoMemory> {
    outer.push(Reply::simple(alloc, b"OK")?)?;
    outer.push(nested(alloc)?)?;
    outer.push(Reply::error(alloc, b"ERR no")?)?;
    outer.push(Reply::Bulk(blob(alloc, b"v")?))?;
    outer.push(Reply::NullArray)
}

// How many replies there are, how many parts, and how many replies the second part announces.
fn flat(alloc: Global) -> Result<[u64; 3], NoMemory> {
    let mut outer = Replies::new(alloc);
    fill_replies(alloc, &mut outer)?;
    let copy = outer.copy(alloc)?;
    let announced = match copy.parts().get(1) {
        Some(Part::ArrayOf(count)) => *count,
        _ => 0,
    };
    Ok([copy.count(), copy.parts().len() as u64, announced])
}

// An array in an array is its header and its parts, and counts as one reply.
#[test]
fn replies_lie_flat(rt: HostRuntime) -> Result<(), Fail> {
    assert_eq!(rt; flat(rt.alloc())?, [5, 7, 2]);
    Ok(())
}

fn add_error(all: &mut Blob, reply: Reply) -> Result<(), NoMemory> {
    if let Reply::Error(text) = reply {
        all.push_slice(text.as_slice())?;
    }
    all.push(b'\n')
}

fn errors(alloc: Global, all: &mut Blob) -> Result<(), NoMemory> {
    add_error(all, wrong_arity(alloc, b"GET")?)?;
    add_error(all, invalid_expire(alloc, b"EXPIRE")?)?;
    add_error(all, unknown_command(alloc, b"No\x01")?)?;
    all.push_slice(Line::from_text(alloc, b"a\r\nb\x7f~ \xff")?.as_slice())
}

const ERRORS: &[u8] = b"ERR wrong number of arguments for 'get' command
ERR invalid expire time in 'expire' command
ERR unknown command 'No?'
a??b?~ ?";

// An error tells a name in lower case, or as it came where no command has it, in printable bytes.
#[test]
fn errors_tell_names(rt: HostRuntime) -> Result<(), Fail> {
    let mut all = Blob::new(rt.alloc());
    errors(rt.alloc(), &mut all)?;
    assert_eq!(rt; all.as_slice(), ERRORS);
    Ok(())
}

const APPEND: CommandSpec = CommandSpec {
    name: b"APPEND",
    arity: 3,
    writes: true,
    key: 1,
};

fn refused(alloc: Global) -> Result<usize, NoMemory> {
    let refused: Outcome<Blob> = Outcome::refuse(alloc, Refusal::WrongType)?;
    Ok(refused.effects.len() + refused.notes.len())
}

fn change(alloc: Global, words: &Args) -> Result<Outcome<Blob>, NoMemory> {
    let effect = own_words(alloc, APPEND.name, words)?;
    let note = on_key(alloc, b"append", words)?;
    Outcome::change(alloc, After::Keep, Reply::Int(1), effect, note)
}

fn changed(alloc: Global, words: &Args) -> Result<usize, NoMemory> {
    let changed = change(alloc, words)?;
    Ok(changed.effects.len() + changed.notes.len())
}

fn outcomes(alloc: Global) -> Result<[usize; 3], NoMemory> {
    let words = words(alloc, &[b"append", b"k", b"v"])?;
    let takes = usize::from(APPEND.takes(words.len()));
    Ok([refused(alloc)?, changed(alloc, &words)?, takes])
}

// A refused command has no effect and no note, and one that changes something has one of each.
#[test]
fn outcomes_have_effects_and_notes(rt: HostRuntime) -> Result<(), Fail> {
    assert_eq!(rt; outcomes(rt.alloc())?, [0, 2, 1]);
    Ok(())
}
