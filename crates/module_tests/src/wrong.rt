//! What no module and no context may be.

ghost use Rattle.module_tests.specs.Wrong.{AreRefused};

/// A counter-example to each law on counts, writing, waiting, built-in commands and types is refused
/// by that law.
pub fn counter_examples_are_refused()
    ensures { AreRefused }
{}
