//! What commands of a module answer.

ghost use Rattle.std.specs.Prelude.{◌≡◌, IfOk};
ghost use Rattle.core_types.specs.Refusals.{refused};
ghost use Rattle.mod_samples.specs.Changes.{count_reply};

use core_types::{NoMemory, Refusal, Reply};
use module_laws::Verdict;
use std::alloc::Global;

// The error that a command is refused with.
pub(crate) fn refuse(alloc: Global, refusal: Refusal) -> Result<Verdict, NoMemory>
    ensures { IfOk result (λ verdict. verdict ≡ Verdict.Say (refused refusal)) }
{
    Ok(Verdict::Say(refusal.reply(alloc)?))
}

// How many there are.
pub(crate) fn count(count: usize) -> Verdict
    ensures { result ≡ Verdict.Say (count_reply count) }
{
    Verdict::Say(Reply::Int(count.min(i64::MAX as usize) as i64))
}
