//! Words with counts as they are saved.

ghost use Rattle.std.specs.Prelude.{◌≡◌, ◌+◌, ◌++◌, [], ◌∷◌, drop, length, true, Ok, Err, IfOk, IfErr, OnOk};
ghost use Rattle.std.specs.Option.{option_copied};
ghost use Rattle.mod_samples.specs.CountParts.{StopsCounting, Takes, counts_in, saved_counts};
ghost use Rattle.mod_samples.specs.Counts.{are_counts, is_behind};

use crate::counts::Counts;
use crate::reading::shape;
use core_types::{Items, NoMemory, Stop};
use module_laws::LoadStop;
use std::alloc::Global;
use tagged_io::{TaggedIn, TaggedOut};

// Whether a word stands behind the one before it, where there is one.
fn is_behind(last: Option<&[u8]>, word: &[u8]) -> bool
    ensures { result ≡ is_behind (option_copied last.entry) word.now }
{
    match last {
        None => true,
        Some(last) => last.cmp(word).is_lt(),
    }
}

// Takes the word that stands first, and its count.
fn take_counted<'a>(
    taking: &mut TaggedIn<'a>,
    last: Option<&[u8]>,
) -> Result<(&'a [u8], u64), LoadStop>
    ensures { Takes (option_copied last.entry) taking.old taking.new result }
{
    let place = taking.place();
    let Ok(word) = taking.take_bytes() else {
        return Err(shape(place));
    };
    if !is_behind(last, word) {
        return Err(shape(place));
    }
    let place = taking.place();
    match taking.take_unsigned() {
        Ok(n) if n > 0 && n <= i64::MAX as u64 => Ok((word, n)),
        _ => Err(shape(place)),
    }
}

// The words that parts stand for.
pub(crate) fn counts_in(alloc: Global, items: &Items) -> Result<Counts, LoadStop>
    ensures ok { IfOk result (λ counts. counts_in items.now ≡ Ok counts) }
    ensures err { IfErr result (StopsCounting (counts_in items.now)) }
{
    let mut taking = TaggedIn::new(items);
    let Ok(count) = taking.take_unsigned() else {
        return Err(shape(0));
    };
    if count == 0 {
        return Err(shape(0));
    }
    let mut counts = Counts::new(alloc);
    let mut last: Option<&[u8]> = None;
    for _ in 0..count {
        let (word, n) = take_counted(&mut taking, last)?;
        if counts.set(alloc, word, n).is_err() {
            return Err(LoadStop::Stopped(Stop::Memory));
        }
        last = Some(word);
    }
    if taking.left() > 0 {
        return Err(shape(taking.place()));
    }
    Ok(counts)
}

// What words with counts are saved as.
pub(crate) fn saved(alloc: Global, counts: &Counts) -> Result<Items, NoMemory>
    ensures { IfOk result (λ items. items ≡ saved_counts counts.now) }
{
    let mut out = TaggedOut::new(alloc);
    out.put_unsigned(counts.len() as u64)?;
    for (word, n) in counts.iter() {
        out.put_bytes(word)?;
        out.put_unsigned(*n)?;
    }
    Ok(out.finish())
}
