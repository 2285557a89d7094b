//! DEL: removes keys.

ghost use Rattle.std.specs.Prelude.{◌≡◌, ◌≤◌, ◌<◌, ◌+◌, ◌^◌, ◌++◌, [], length, IfOk, OnOk, OnErr, vec_len, vec_capacity};
ghost use Rattle.std.specs.Option.{option_copied};
ghost use Rattle.core_types.specs.Keys.{value_at, without};
ghost use Rattle.key_cmds.specs.Run.{native_in, told};
ghost use Rattle.key_cmds.specs.SeveralKeys.{delete, removed};
ghost use Rattle.key_cmds.specs.inner.Several.{del_note, natives_named, note_keys, notes_left, notes_named, where_there};
ghost use Rattle.key_cmds.specs.inner.Settling.{HasRoom};

use crate::Ran;
use crate::ran::{counted, generic_note, own_change};
use crate::settling::hand_over;
use core_types::{Args, NoMemory, Note, Notes, Reply, Sequence, Value, Words};
use key_store::KeyStore;
use std::alloc::Global;
use std::collections::VecDeque;

// The keys of some names that are there.
#[derive(Debug, Drop)]
struct Found {
    // Of the removal of each a note.
    notes: Vec<Note>,
    // How many of them hold a value of a module.
    natives: usize,
}

/// `DEL key..`: removes keys. All memory is taken before the first is removed.
pub(crate) fn delete<N>(
    alloc: Global,
    keys: &mut KeyStore<N>,
    words: &Args,
    left: &mut Vec<N>,
) -> Result<Ran, NoMemory>
    requires { 2 ≤ length words.now }
    ensures keys { OnOk result (keys.new ≡ (delete keys.old words.now).keys) }
    ensures told { IfOk result (λ ran. ran ≡ told (delete keys.old words.now)) }
    ensures left { OnOk result
        (left.new.items ≡ left.old.items ++ (delete keys.old words.now).left) }
    ensures err { OnErr result ((keys.new ≡ keys.old) × (left.new.items ≡ left.old.items)) }
{
    let Found { notes, natives } = find(alloc, keys, words.from_place(1))?;
    if notes.is_empty() {
        return Ok(Ran::answer(alloc, Reply::Int(0)));
    }
    let effects = own_change(alloc, b"DEL", words)?;
    let mut gone = Vec::with_capacity(alloc, notes.len())?;
    left.reserve(natives)?;
    remove_each(keys, VecDeque::from_vec(notes), &mut gone, left);
    Ok(Ran {
        reply: counted(gone.len()),
        effects,
        notes: Sequence::from_vec(gone),
    })
}

fn find<N>(alloc: Global, keys: &KeyStore<N>, names: Words<'_>) -> Result<Found, NoMemory>
    ensures notes { IfOk result (λ found. found.notes.items ≡ notes_named keys.now names.entry) }
    ensures natives { IfOk result
        (λ found. found.natives ≡ length (natives_named keys.now names.entry)) }
{
    let mut found = Found {
        notes: Vec::new(alloc),
        natives: 0,
    };
    for name in names {
        found.add(alloc, name, keys.get(name))?;
    }
    Ok(found)
}

impl Found {
    // Adds a key, where this is what it has.
    fn add<N>(
        &mut self,
        alloc: Global,
        name: &[u8],
        held: Option<&Value<N>>,
    ) -> Result<(), NoMemory>
        requires { self.old.natives ≤ vec_len self.old.notes }
        ensures notes { OnOk result (self.new.notes.items
            ≡ self.old.notes.items ++ where_there (del_note name.now) (option_copied held.entry)) }
        ensures natives { OnOk result
            (self.new.natives ≡ self.old.natives + length (native_in (option_copied held.entry))) }
        ensures few { OnOk result (self.new.natives ≤ vec_len self.new.notes) }
    {
        let Some(value) = held else {
            return Ok(());
        };
        self.notes.push(generic_note(alloc, b"del", name)?)?;
        if let Value::Native(_) = value {
            self.natives += 1;
        }
        Ok(())
    }
}

// Removes the key of each note that is there when its turn has come, and gathers those notes.
fn remove_each<N>(
    keys: &mut KeyStore<N>,
    mut notes: VecDeque<Note>,
    gone: &mut Vec<Note>,
    left: &mut Vec<N>,
)
    requires gone { vec_len gone.old + length notes.items ≤ vec_capacity gone.old }
    requires left { vec_len left.old + length
        (natives_named keys.old (note_keys notes.items)) ≤ vec_capacity left.old }
    ensures keys { keys.new ≡ (removed (note_keys notes.items) keys.old).keys }
    ensures gone { gone.new.items ≡ gone.old.items ++ notes_left notes.items keys.old }
    ensures left { left.new.items
        ≡ left.old.items ++ (removed (note_keys notes.items) keys.old).left }
{
    while let Some(note) = notes.pop_front() {
        remove(keys, note, gone, left);
    }
}

// Removes the key of a note, where it is there.
fn remove<N>(keys: &mut KeyStore<N>, note: Note, gone: &mut Vec<Note>, left: &mut Vec<N>)
    requires gone { vec_len gone.old < vec_capacity gone.old }
    requires left { HasRoom left.old (value_at keys.old note.key) }
    ensures keys { keys.new ≡ without keys.old note.key }
    ensures gone { gone.new.items
        ≡ gone.old.items ++ where_there note (value_at keys.old note.key) }
    ensures gone_room { (vec_len gone.new ≤ vec_len gone.old + 1)
        × (vec_capacity gone.new ≡ vec_capacity gone.old) }
    ensures left { left.new.items ≡ left.old.items ++ native_in (value_at keys.old note.key) }
    ensures left_room { (vec_len left.new
        ≡ vec_len left.old + length (native_in (value_at keys.old note.key)))
        × (vec_capacity left.new ≡ vec_capacity left.old) }
{
    let before = keys.take(note.key.as_slice());
    if before.is_some() {
        gone.push_reserved(note);
    }
    hand_over(before, left);
}
