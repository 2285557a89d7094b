//! What putting and taking say of each other.

ghost use Rattle.std.specs.Prelude.{◌≡◌, ◌++◌, List, map};
ghost use Rattle.std.specs.List.{AllByRecursion};
ghost use Rattle.core_types.specs.declared.tagged.Tagged.{Tagged};
ghost use Rattle.tagged_io.specs.Putting.{Put, part, HasRange};
ghost use Rattle.tagged_io.specs.Taking.{TakesAll};

/// What was put is taken again, by the calls of the same kinds in the same order, whatever follows
/// it.
pub fn taken_as_put()
    ensures { (puts : List Put) (more : List Tagged) → AllByRecursion HasRange puts
        → TakesAll puts (map part puts ++ more) more }
{}
