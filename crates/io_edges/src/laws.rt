//! What follows from the contracts of the traits, as contracts of functions that do nothing.

ghost use Rattle.std.specs.Prelude.{◌≡◌, ◌<◌, ◌↔◌, ℕ, List, [], ◌++◌, length, Option, Some};
ghost use Rattle.std.specs.Prelude.{Result, IfOk};
ghost use Rattle.std.specs.Io.{ReadsAtMost};
ghost use Rattle.std.specs.Io.KnownBytes.{ReadConsumes};
ghost use Rattle.io_edges.specs.Memory.{Held, Fixed, source_telling, sink_telling, clock_telling};
ghost use Rattle.io_edges.specs.Told.{ClockTold, Gave};
ghost use Rattle.io_edges.specs.declared.source.SourceFault.{SourceFault};

use crate::{Clock, FixedClock, MemorySink, MemorySource, Sink, Source};

/// A source, a sink and a clock in memory tell all that the clauses of their traits speak of.
pub fn memory_tells()
    ensures source { (source : Held)
        → ⟦<MemorySource as Source>⟧.told source ≡ source_telling source }
    ensures sink { (sink : Held) → ⟦<MemorySink as Sink>⟧.told sink ≡ sink_telling sink }
    ensures clock { (clock : Fixed) → ⟦<FixedClock as Clock>⟧.told clock ≡ clock_telling clock }
{}

/// Where a source tells what is left, `take` answers 0 exactly at the end of the input.
pub fn zero_is_the_end()
    ensures end { (left piece : List ℕ) (now : Option (List ℕ)) (taken : Result ℕ SourceFault)
        → 0 < length piece → ReadsAtMost taken piece → ReadConsumes (Some left) now taken piece
        → IfOk taken (λ count. (count ≡ 0) ↔ (left ≡ [])) }
{}

/// Readings that were given in two parts were given in one, and where none was given the clock
/// tells the same.
pub fn readings_in_parts()
    ensures none { (told : ClockTold) → Gave [] told told }
    ensures parts { (first second : List ℕ) (old middle new : ClockTold)
        → Gave first old middle → Gave second middle new → Gave (first ++ second) old new }
{}
