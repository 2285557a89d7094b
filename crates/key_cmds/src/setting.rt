//! MSET: sets keys.

ghost use Rattle.std.specs.Prelude.{◌≡◌, ◌≤◌, ◌∷◌, ◌++◌, [], map, codes, length, IfOk, OnOk, OnErr};
ghost use Rattle.core_types.specs.Done.{own_words};
ghost use Rattle.key_cmds.specs.Run.{told};
ghost use Rattle.key_cmds.specs.SeveralKeys.{ok, set_each, set_note};

use crate::Ran;
use crate::all_or_none::set_pairs;
use crate::pairs::Pairs;
use crate::ran::{ok, own_change};
use core_types::{Args, Blob, NoMemory, Note, NoteClass, Notes, wrong_arity};
use key_store::KeyStore;
use std::alloc::Global;

/// `MSET key value ..`: sets keys, all of them or none.
pub(crate) fn set_each<N>(
    alloc: Global,
    keys: &mut KeyStore<N>,
    words: &Args,
    left: &mut Vec<N>,
) -> Result<Ran, NoMemory>
    requires { 3 ≤ length words.now }
    ensures keys { OnOk result (keys.new ≡ (set_each keys.old words.now).keys) }
    ensures told { IfOk result (λ ran. ran ≡ told (set_each keys.old words.now)) }
    ensures left { OnOk result
        (left.new.items ≡ left.old.items ++ (set_each keys.old words.now).left) }
    ensures err { OnErr result ((keys.new ≡ keys.old) × (left.new.items ≡ left.old.items)) }
{
    if words.len() % 2 == 0 {
        return Ok(Ran::answer(alloc, wrong_arity(alloc, b"MSET")?));
    }
    let ran = Ran {
        reply: ok(alloc)?,
        effects: own_change(alloc, b"MSET", words)?,
        notes: set_notes(alloc, Pairs::new(words.from_place(1)))?,
    };
    set_pairs(alloc, keys, Pairs::new(words.from_place(1)), left)?;
    Ok(ran)
}

// An event of each pair.
fn set_notes(alloc: Global, pairs: Pairs<'_>) -> Result<Notes, NoMemory>
    ensures { IfOk result (λ notes. notes ≡ map set_note pairs.entry) }
{
    let mut notes = Notes::new(alloc);
    for (key, _) in pairs {
        notes.push(Note {
            class: NoteClass::String,
            name: Blob::from_slice(alloc, b"set")?,
            key: Blob::from_slice(alloc, key)?,
        })?;
    }
    Ok(notes)
}
