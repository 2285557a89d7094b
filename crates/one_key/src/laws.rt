//! The laws of a module, where those of its type hold.

ghost use Rattle.module_laws.specs.Laws.{IsLawful};
ghost use Rattle.one_key.specs.KeyMeaning.{KeyMeaning};
ghost use Rattle.one_key.specs.Lawful.{IsKeyLawful};
ghost use Rattle.one_key.specs.MeaningOf.{meaning_of};

/// A lawful type makes a lawful module.
pub fn key_types_are_lawful()
    ensures { (meaning : KeyMeaning) → IsKeyLawful meaning → IsLawful (meaning_of meaning) }
{}
