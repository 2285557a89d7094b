//! What a lawful set's modules do, said of the set.

ghost use Rattle.std.specs.Prelude.{◌≡◌, ◌<◌, ℕ, Bool, List, [], ◌∷◌, Some};
ghost use Rattle.std.specs.List.{AllByRecursion};
ghost use Rattle.core_types.specs.Keys.{Keys, Native};
ghost use Rattle.core_types.specs.declared.effect.Effect.{Effect};
ghost use Rattle.module_laws.specs.Laws.{EffectsMakeTheKeys, IsCommand, IsSound};
ghost use Rattle.module_laws.specs.Meaning.{Meaning, type_of};
ghost use Rattle.module_laws.specs.Replay.{AreFaithful, replayed_all};
ghost use Rattle.module_laws.specs.Sets.{Modules, AreLawful, listed, types_of};
ghost use Rattle.module_laws.specs.Told.{Builtins, Seen};

/// In a lawful set the effects of a module's call make the keys that it left, too, where all
/// modules of the set are known, as they are when a log is replayed: none of them takes an effect
/// for its own that is another's or a built-in command's.
pub fn effects_make_the_keys()
    ensures { (modules : Modules) (place : ℕ) → AreLawful modules → place < modules.size
        → EffectsMakeTheKeys (listed modules.size modules.meaning_at) (modules.meaning_at place) }
{}

/// Where the keys are sound for a lawful set, they are for the module at each place: what a key may
/// have of the set's values is, for those of one module, what that module says.
pub fn modules_are_sound()
    ensures { (modules : Modules) (place : ℕ) (allowed : Native → Bool) (seen : Seen)
        → AreLawful modules → place < modules.size → IsSound (types_of modules) allowed seen
        → IsSound (type_of (modules.meaning_at place) ∷ []) allowed seen }
{}

/// What built-in commands did is replayed the same where a module is known: it takes none of their
/// effects for its own.
pub fn builtin_effects_stay()
    ensures { (builtins : Builtins) (meaning : Meaning) → AreFaithful builtins
        → AllByRecursion IsCommand meaning.rows → (effects : List Effect) (keys made : Keys)
        → replayed_all builtins [] keys effects ≡ Some made
        → replayed_all builtins (meaning ∷ []) keys effects ≡ Some made }
{}
