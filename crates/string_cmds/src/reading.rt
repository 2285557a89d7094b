//! GETRANGE: a part of what a key holds.

ghost use Rattle.std.specs.Prelude.{◌≡◌, List, ℕ, Option, length, IfOk};
ghost use Rattle.core_types.specs.Done.{Does};
ghost use Rattle.string_cmds.specs.Reading.{get_range};

use byte_text::number_in;
use core_types::{Args, Blob, NoMemory, Outcome, Reply, cut_range};
use std::alloc::Global;

/// A copy of the bytes of a range, as a reply.
pub(crate) fn get_range(alloc: Global, held: &[u8], words: &Args) -> Result<Outcome<Blob>, NoMemory>
    requires { length words.now ≡ 4 }
    ensures { IfOk result
        (λ o. (old : Option (List ℕ)) → Does o old old (get_range held.now words.now)) }
{
    let cut = cut_range(
        held.len(),
        number_in(words.word(2)),
        number_in(words.word(3)),
    );
    let taken = Blob::from_slice(alloc, &held[cut.start..cut.end])?;
    Ok(Outcome::answer(alloc, Reply::Bulk(taken)))
}
