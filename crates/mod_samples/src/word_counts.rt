//! A value of wordcount.

ghost use Rattle.std.specs.Prelude.{◌≡◌, true};
ghost use Rattle.mod_samples.specs.Counts.{some_counts};

use crate::counts::Counts;
use core_types::NoMemory;
use std::alloc::Global;

/// Words with counts, in byte order, at least one. It must be spent.
pub struct WordCounts {
    pub(crate) counts: Counts,
    ghost counted: { some_counts counts ≡ true },
}

impl WordCounts {
    ghost use Rattle.std.specs.Prelude.{OnOk, OnErr};
    ghost use Rattle.mod_samples.specs.Counts.{is_count, some_counts, with_count, without_word};

    // The value with these words.
    pub(crate) fn new(counts: Counts) -> WordCounts
        requires { some_counts counts ≡ true }
        ensures { result.counts ≡ counts }
    {
        WordCounts { counts }
    }

    // Gives a word this count.
    pub(crate) fn set(&mut self, alloc: Global, word: &[u8], n: u64) -> Result<(), NoMemory>
        requires { is_count n ≡ true }
        ensures ok { OnOk result (self.new.counts ≡ with_count word.now n self.old.counts) }
        ensures err { OnErr result (self.new ≡ self.old) }
    {
        self.counts.set(alloc, word, n)
    }

    // Takes a word out, which is not the last.
    pub(crate) fn remove(&mut self, word: &[u8])
        requires { some_counts (without_word word.now self.old.counts) ≡ true }
        ensures { self.new.counts ≡ without_word word.now self.old.counts }
    {
        self.counts.remove(word);
    }

    // Ends it.
    pub(crate) fn end(self) {
        let WordCounts { counts: _ } = self;
    }
}
