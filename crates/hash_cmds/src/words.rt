//! What the words of a command say.

ghost use Rattle.std.specs.Prelude.{◌≡◌, ◌<◌, ◌∷◌, [], length, IfOk, IfSome, IfNone};
ghost use Rattle.hash_cmds.specs.Words.{hash_note, pairs};

use core_types::{Args, Blob, Field, Fields, NoMemory, Note, NoteClass, Words};
use std::alloc::Global;

/// A name and its value, and so on, as fields.
pub(crate) fn pairs(alloc: Global, words: Words<'_>) -> Result<Fields, NoMemory>
    ensures { IfOk result (λ fields. fields ≡ pairs words.entry) }
{
    let mut fields = Vec::with_capacity(alloc, words.len() / 2)?;
    let mut rest = words;
    while let Some((name, value)) = next_pair(&mut rest) {
        fields.push(Field {
            name: Blob::from_slice(alloc, name)?,
            value: Blob::from_slice(alloc, value)?,
        })?;
    }
    Ok(Fields::from_vec(fields))
}

// The next two words, where there are two.
fn next_pair<'a>(rest: &mut Words<'a>) -> Option<(&'a [u8], &'a [u8])>
    ensures some { IfSome result (λ pair. rest.old ≡ pair.0.now ∷ pair.1.now ∷ rest.new) }
    ensures none { IfNone result (pairs rest.old ≡ []) }
{
    let name = rest.next()?;
    let value = rest.next()?;
    Some((name, value))
}

/// An event of a hash, on the key of these words.
pub(crate) fn hash_note(alloc: Global, name: &[u8], words: &Args) -> Result<Note, NoMemory>
    requires { 1 < length words.now }
    ensures { IfOk result (λ note. note ≡ hash_note name.now words.now) }
{
    Note::on_key(alloc, NoteClass::Hash, name, words)
}
