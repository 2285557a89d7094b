//! A value of one of two halves.

ghost use Rattle.std.specs.Prelude.{◌≡◌, ◌++◌, Err, IfErr, IfOk};
ghost use Rattle.std.specs.Borrow.{sem, LendsIfOk};
ghost use Rattle.module_laws.specs.contracts.either.Either.{the_row};
ghost use Rattle.module_laws.specs.declared.either.Either.TheVariants as either;

use crate::context::MutFault;
use crate::viewed::Viewed;

/// A value of one of two halves.
#[derive(Debug)]
pub enum Either<L, R> {
    /// Of the first half.
    Left(L),
    /// Of the second half.
    Right(R),
}

impl<L: Viewed, R: Viewed> Viewed for Either<L, R> {
    ghost use Rattle.module_laws.specs.Sides.{native_of};
    ghost use Rattle.module_laws.specs.inner.HalfTypes.{typed_of};

    ghost types = { L.types ++ R.types };

    ghost native = { native_of L.native R.native };

    ghost typed = { typed_of L.types R.types L.native R.native L.typed R.typed };
}

/// Lends the value of the first half, or answers this fault.
pub(crate) fn left_of<L, R>(both: &mut Either<L, R>, fault: MutFault) -> Result<&mut L, MutFault>
    ensures* lends { sem 𝓛
        (LendsIfOk (the_row L.row R.row) L.row both.entry result (λ w. either.Left w) both.old) }
    ensures value { IfOk result (λ lent. both.old ≡ either.Left lent.now) }
    ensures other { IfErr result
        (λ why. (why ≡ fault) × ((value : R) × (both.old ≡ either.Right value))) }
{
    match both {
        Either::Left(value) => Ok(value),
        Either::Right(_) => Err(fault),
    }
}

/// Lends the value of the second half, or answers this fault.
pub(crate) fn right_of<L, R>(both: &mut Either<L, R>, fault: MutFault) -> Result<&mut R, MutFault>
    ensures* lends { sem 𝓛
        (LendsIfOk (the_row L.row R.row) R.row both.entry result (λ w. either.Right w) both.old) }
    ensures value { IfOk result (λ lent. both.old ≡ either.Right lent.now) }
    ensures other { IfErr result
        (λ why. (why ≡ fault) × ((value : L) × (both.old ≡ either.Left value))) }
{
    match both {
        Either::Left(_) => Err(fault),
        Either::Right(value) => Ok(value),
    }
}
