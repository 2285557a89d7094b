//! A value of a type in the hands of its module.

ghost use Rattle.std.specs.Prelude.{[], ◌∷◌};
ghost use Rattle.module_laws.specs.Meaning.{type_of};
ghost use Rattle.one_key.specs.MeaningOf.{meaning_of};
ghost use Rattle.one_key.specs.inner.Shown.{shown, shown_typed};

use crate::key_type::KeyType;
use module_laws::Viewed;

/// A value that was counted as made. It must be spent: it is put into a context or freed.
pub struct Held<T: KeyType> {
    pub(crate) value: T::Value,
}

impl<T: KeyType> Viewed for Held<T> {
    ghost types = { type_of (meaning_of T.meaning) ∷ [] };

    ghost native = { λ held. shown T.meaning (T.saved held.value) };

    ghost typed = { λ held. shown_typed T.meaning (T.saved held.value) };
}
