//! LINDEX and LRANGE: they answer items of a list.

ghost use Rattle.std.specs.Prelude.{◌≡◌, ◌-◌, ◌≤◌, List, ℕ, Option, length, slice_range, IfOk};
ghost use Rattle.core_types.specs.Done.{Does};
ghost use Rattle.list_cmds.specs.Reading.{bulks, index, range};

use crate::words::place_of;
use byte_text::number_in;
use core_types::{Args, ListBody, NoMemory, Outcome, Replies, Reply, cut_range};
use std::alloc::Global;

/// A copy of the item that the third word names, as a reply.
pub(crate) fn index(
    alloc: Global,
    held: &ListBody,
    words: &Args,
) -> Result<Outcome<ListBody>, NoMemory>
    requires { length words.now ≡ 3 }
    ensures { IfOk result
        (λ o. (old : Option (List (List ℕ))) → Does o old old (index held.now words.now)) }
{
    let Some(place) = place_of(held.len(), number_in(words.word(2))) else {
        return Ok(Outcome::answer(alloc, Reply::Null));
    };
    match held.get(place) {
        Some(item) => Ok(Outcome::answer(alloc, Reply::Bulk(item.copy(alloc)?))),
        None => Ok(Outcome::answer(alloc, Reply::Null)),
    }
}

/// Copies of the items of a range, as a reply.
pub(crate) fn range(
    alloc: Global,
    held: &ListBody,
    words: &Args,
) -> Result<Outcome<ListBody>, NoMemory>
    requires { length words.now ≡ 4 }
    ensures { IfOk result
        (λ o. (old : Option (List (List ℕ))) → Does o old old (range held.now words.now)) }
{
    let cut = cut_range(
        held.len(),
        number_in(words.word(2)),
        number_in(words.word(3)),
    );
    let items = copies(alloc, held, cut.start, cut.end)?;
    Ok(Outcome::answer(alloc, Reply::Array(items)))
}

// The items from `start` on and before `end`, as replies.
fn copies(alloc: Global, held: &ListBody, start: usize, end: usize) -> Result<Replies, NoMemory>
    requires order { start ≤ end }
    requires within { end ≤ length held.now }
    ensures count { IfOk result (λ items. items.count ≡ end - start) }
    ensures parts { IfOk result
        (λ items. items.parts ≡ bulks (slice_range held.now start end)) }
{
    let mut items = Replies::new(alloc);
    for place in start..end {
        let item = held.get(place).unwrap();
        items.push(Reply::Bulk(item.copy(alloc)?))?;
    }
    Ok(items)
}
