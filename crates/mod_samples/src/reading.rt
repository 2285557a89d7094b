//! Lists of numbers as they are saved.

ghost use Rattle.std.specs.Prelude.{◌≡◌, ◌++◌, [], ◌∷◌, Ok, IfOk, IfErr, OnOk};
ghost use Rattle.mod_samples.specs.HelloNumbers.{number_after, numbers_in, part_after, saved_numbers, StopsReading};

use core_types::{Items, LoadFault, NoMemory, Stop};
use module_laws::LoadStop;
use std::alloc::Global;
use tagged_io::{TaggedIn, TaggedOut};

// The number that a part stands for behind the one before it.
fn number_after(encver: u16, last: Option<i64>, part: u64) -> Option<i64>
    ensures { result ≡ number_after encver last part }
{
    let Some(last) = last else {
        return Some(part.cast_signed());
    };
    if encver == 0 {
        let n = part.cast_signed();
        if last <= n { Some(n) } else { None }
    } else {
        last.checked_add_unsigned(part)
    }
}

// A place at which a part does not fit.
pub(crate) fn shape(place: u64) -> LoadStop
    ensures { result ≡ LoadStop.Refused (LoadFault.Shape place) }
{
    LoadStop::Refused(LoadFault::Shape(place))
}

// The numbers that parts stand for.
pub(crate) fn numbers_in(alloc: Global, items: &Items, encver: u16) -> Result<Vec<i64>, LoadStop>
    ensures ok { IfOk result (λ numbers. numbers_in encver items.now ≡ Ok numbers.items) }
    ensures err { IfErr result (StopsReading (numbers_in encver items.now)) }
{
    let mut taking = TaggedIn::new(items);
    let Ok(count) = taking.take_unsigned() else {
        return Err(shape(0));
    };
    let mut numbers: Vec<i64> = Vec::new(alloc);
    for _ in 0..count {
        let place = taking.place();
        let Ok(part) = taking.take_unsigned() else {
            return Err(shape(place));
        };
        let Some(n) = number_after(encver, numbers.last().copied(), part) else {
            return Err(shape(place));
        };
        if numbers.push(n).is_err() {
            return Err(LoadStop::Stopped(Stop::Memory));
        }
    }
    if taking.left() > 0 {
        return Err(shape(taking.place()));
    }
    Ok(numbers)
}

// Puts a number behind the one before it.
fn put_number(out: &mut TaggedOut, last: Option<i64>, n: i64) -> Result<(), NoMemory>
    ensures ok { OnOk result (out.new ≡ out.old ++ part_after last n ∷ []) }
{
    match last {
        None => out.put_signed(n),
        Some(last) => out.put_unsigned(n.abs_diff(last)),
    }
}

// What numbers are saved as.
pub(crate) fn saved(alloc: Global, numbers: &[i64]) -> Result<Items, NoMemory>
    ensures { IfOk result (λ items. items ≡ saved_numbers numbers.now) }
{
    let mut out = TaggedOut::new(alloc);
    out.put_unsigned(numbers.len() as u64)?;
    let mut last: Option<i64> = None;
    for n in numbers {
        put_number(&mut out, last, *n)?;
        last = Some(*n);
    }
    Ok(out.finish())
}
