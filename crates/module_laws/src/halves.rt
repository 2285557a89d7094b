//! Answers of a half, as those of the whole.

ghost use Rattle.std.specs.Prelude.{◌≡◌};
ghost use Rattle.std.specs.Option.{option_map};
ghost use Rattle.module_laws.specs.Sides.{IsLeftOrNone, IsRightOrNone, left_answer, right_answer};
ghost use Rattle.module_laws.specs.declared.either.Either.TheVariants as either;

use crate::either::Either;
use crate::verdict::ApplyStop;

// A value of the first half, or none.
pub(crate) fn left_option<L, R>(old: Option<Either<L, R>>) -> Option<L>
    requires { IsLeftOrNone old }
    ensures { old ≡ option_map either.Left result }
{
    match old {
        None => None,
        Some(Either::Left(value)) => Some(value),
        Some(Either::Right(_other)) => unreachable!(),
    }
}

// A value of the second half, or none.
pub(crate) fn right_option<L, R>(old: Option<Either<L, R>>) -> Option<R>
    requires { IsRightOrNone old }
    ensures { old ≡ option_map either.Right result }
{
    match old {
        None => None,
        Some(Either::Left(_other)) => unreachable!(),
        Some(Either::Right(value)) => Some(value),
    }
}

// A value of the first half as one of the whole.
fn whole_left<L, R>(value: Option<L>) -> Option<Either<L, R>>
    ensures { result ≡ option_map either.Left value }
{
    match value {
        None => None,
        Some(value) => Some(Either::Left(value)),
    }
}

// A value of the second half as one of the whole.
fn whole_right<L, R>(value: Option<R>) -> Option<Either<L, R>>
    ensures { result ≡ option_map either.Right value }
{
    match value {
        None => None,
        Some(value) => Some(Either::Right(value)),
    }
}

// What the first half answered.
pub(crate) fn from_left<L, R>(
    answer: Result<Option<L>, ApplyStop<L>>,
) -> Result<Option<Either<L, R>>, ApplyStop<Either<L, R>>>
    ensures { result ≡ left_answer answer }
{
    match answer {
        Ok(made) => Ok(whole_left(made)),
        Err(ApplyStop::Bad(back)) => Err(ApplyStop::Bad(whole_left(back))),
        Err(ApplyStop::Stopped(why, back)) => Err(ApplyStop::Stopped(why, whole_left(back))),
    }
}

// What the second half answered.
pub(crate) fn from_right<L, R>(
    answer: Result<Option<R>, ApplyStop<R>>,
) -> Result<Option<Either<L, R>>, ApplyStop<Either<L, R>>>
    ensures { result ≡ right_answer answer }
{
    match answer {
        Ok(made) => Ok(whole_right(made)),
        Err(ApplyStop::Bad(back)) => Err(ApplyStop::Bad(whole_right(back))),
        Err(ApplyStop::Stopped(why, back)) => Err(ApplyStop::Stopped(why, whole_right(back))),
    }
}
