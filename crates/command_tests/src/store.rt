use core_types::{Blob, NoMemory, Value};
use key_store::KeyStore;
use std::alloc::Global;
use std::test::Fail;

// Gives a key a number, and tells whether it had a value.
fn put(alloc: Global, keys: &mut KeyStore<u64>, key: &[u8], number: u64) -> Result<bool, NoMemory> {
    let key = Blob::from_slice(alloc, key)?;
    match keys.put(key, Value::Native(number)) {
        Ok(before) => Ok(before.is_some()),
        Err(_) => Err(NoMemory),
    }
}

// Gives a key a deadline or none, where it is there.
fn date(keys: &mut KeyStore<u64>, key: &[u8], at: Option<u64>) -> Result<(), NoMemory> {
    if keys.get(key).is_some() && at != Some(0) {
        keys.set_deadline(key, at)?;
    }
    Ok(())
}

// Moves what one key has to another, where it is there and the other is another.
fn rename(
    alloc: Global,
    keys: &mut KeyStore<u64>,
    from: &[u8],
    to: &[u8],
) -> Result<bool, NoMemory> {
    if from == to || keys.get(from).is_none() {
        return Ok(false);
    }
    let to = Blob::from_slice(alloc, to)?;
    let before = keys.rename(from, to)?;
    Ok(before.is_some())
}

// Three keys, of which `c` is due at 50 and the others at 100.
fn three(alloc: Global) -> Result<KeyStore<u64>, NoMemory> {
    let mut keys = KeyStore::new(alloc);
    let _ = put(alloc, &mut keys, b"b", 2)?;
    let _ = put(alloc, &mut keys, b"c", 3)?;
    let _ = put(alloc, &mut keys, b"a", 1)?;
    date(&mut keys, b"b", Some(100))?;
    date(&mut keys, b"c", Some(50))?;
    date(&mut keys, b"a", Some(100))?;
    Ok(keys)
}

// The first byte of the key that is due at a moment.
fn due(keys: &KeyStore<u64>, now: u64) -> Option<u8> {
    match keys.next_due(now) {
        Some(key) => key.first().copied(),
        None => None,
    }
}

// Which key is due just before the least deadline, at it and later, and which one is then once `c`
// is gone.
fn dues(alloc: Global) -> Result<[Option<u8>; 4], NoMemory> {
    let mut keys = three(alloc)?;
    let early = due(&keys, 49);
    let first = due(&keys, 50);
    let late = due(&keys, 100);
    let _ = keys.take(b"c");
    Ok([early, first, late, due(&keys, 100)])
}

// Which key is due at 49 once the deadline of `a` is 40, at 60 once it has none, and at 60 once `c`
// was renamed to `b`, which had a deadline too.
fn redated(alloc: Global) -> Result<[Option<u8>; 3], NoMemory> {
    let mut keys = three(alloc)?;
    date(&mut keys, b"a", Some(40))?;
    let sooner = due(&keys, 49);
    date(&mut keys, b"a", None)?;
    let later = due(&keys, 60);
    let _ = rename(alloc, &mut keys, b"c", b"b")?;
    Ok([sooner, later, due(&keys, 60)])
}

// The deadlines of `c` and `d` once `c` was renamed to `d`, and that of `d` once it was put anew;
// and how many keys there are then.
fn moved(alloc: Global) -> Result<[Option<u64>; 4], NoMemory> {
    let mut keys = three(alloc)?;
    let _ = rename(alloc, &mut keys, b"c", b"d")?;
    let from = keys.deadline(b"c");
    let to = keys.deadline(b"d");
    let _ = put(alloc, &mut keys, b"d", 4)?;
    Ok([from, to, keys.deadline(b"d"), Some(keys.len())])
}

// What is taken out of the front, by the first byte of its key and its number, after the number of
// `a` was changed in its place; and its deadline before.
fn front(alloc: Global) -> Result<(Option<u8>, Option<u64>, Option<u64>), NoMemory> {
    let mut keys = three(alloc)?;
    if let Some(Value::Native(number)) = keys.get_mut(b"a") {
        *number = 7;
    }
    let deadline = keys.deadline(b"a");
    match keys.pop_first() {
        Some((key, value)) => Ok((key.as_slice().first().copied(), number(value), deadline)),
        None => Ok((None, None, deadline)),
    }
}

fn number(value: Value<u64>) -> Option<u64> {
    match value {
        Value::Native(number) => Some(number),
        _ => None,
    }
}

// The first bytes of the keys, in order.
fn order(alloc: Global) -> Result<Vec<Option<u8>>, NoMemory> {
    let keys = three(alloc)?;
    let mut names = Vec::new(alloc);
    for (key, _) in keys.iter() {
        names.push(key.first().copied())?;
    }
    Ok(names)
}

// Each call on its way to an answer: the least deadline is due first, and then the least name; a
// key that is renamed takes its deadline along, and one that is put has none.
#[test]
fn ample(rt: HostRuntime) -> Result<(), Fail> {
    let alloc = rt.alloc();
    assert!(rt; dues(alloc)? == [None, Some(b'c'), Some(b'c'), Some(b'a')]);
    assert!(rt; redated(alloc)? == [Some(b'a'), Some(b'c'), Some(b'b')]);
    assert!(rt; moved(alloc)? == [None, Some(50), None, Some(3)]);
    assert!(rt; front(alloc)? == (Some(b'a'), Some(7), Some(100)));
    assert!(rt; order(alloc)?.as_slice() == [Some(b'a'), Some(b'b'), Some(b'c')].as_slice());
    Ok(())
}
