//! Words with counts.

ghost use Rattle.std.specs.Prelude.{◌≡◌, ◌<◌, ◌^◌, [], ◌∷◌, true, length, map, IfOk, IfSome, OnOk, OnErr};
ghost use Rattle.mod_samples.specs.Counts.{are_counts, count_at, counted, is_count, with_count, without_word};

use core_types::NoMemory;
use std::alloc::Global;
use std::collections::BTreeMap;
use std::collections::btree_map::Iter;
use std::marker::Model;

/// Words with counts, in byte order.
#[derive(Drop)]
pub(crate) struct Counts {
    words: BTreeMap<Vec<u8>, u64>,
}

impl Model for Counts {
    ghost use Rattle.std.specs.Prelude.{◌≡◌, List, true, map};
    ghost use Rattle.mod_samples.specs.Counts.{Counted, are_counts};

    ghost Value = { List Counted };

    ghost view = { λ c. map (λ e. record { word = e.0.items; count = e.1 }) c.words.entries };

    ghost invariant = { λ c.
        are_counts (map (λ e. record { word = e.0.items; count = e.1 }) c.words.entries) ≡ true };
}

impl Counts {
    // No words. Takes no memory.
    pub(crate) fn new(alloc: Global) -> Counts
        ensures { result ≡ [] }
    {
        Counts {
            words: BTreeMap::new(alloc),
        }
    }

    // One word.
    pub(crate) fn one(alloc: Global, word: &[u8], n: u64) -> Result<Counts, NoMemory>
        requires { is_count n ≡ true }
        ensures { IfOk result (λ counts. counts ≡ counted word.now n ∷ []) }
    {
        let mut counts = Counts::new(alloc);
        counts.set(alloc, word, n)?;
        Ok(counts)
    }

    // How many words there are.
    pub(crate) fn len(&self) -> usize
        ensures { result ≡ length self.now }
    {
        self.words.len()
    }

    // The count of a word, where it has one.
    pub(crate) fn get(&self, word: &[u8]) -> Option<u64>
        ensures count { result ≡ count_at word.now self.now }
        ensures small { IfSome result (λ n. n < 2 ^ 63) }
    {
        self.words.get(word).copied()
    }

    // Gives a word this count.
    pub(crate) fn set(&mut self, alloc: Global, word: &[u8], n: u64) -> Result<(), NoMemory>
        requires { is_count n ≡ true }
        ensures ok { OnOk result (self.new ≡ with_count word.now n self.old) }
        ensures err { OnErr result (self.new ≡ self.old) }
        ensures counts { are_counts self.new ≡ true }
    {
        let _words = &self.words;
        let word = Vec::from_slice(alloc, word)?;
        self.words.insert(word, n)?;
        Ok(())
    }

    // Takes a word out, where it is there.
    pub(crate) fn remove(&mut self, word: &[u8])
        ensures removed { self.new ≡ without_word word.now self.old }
        ensures counts { are_counts self.new ≡ true }
    {
        let _ = self.words.remove(word);
    }

    // The words in order, each with its count.
    pub(crate) fn iter(&self) -> Iter<'_, Vec<u8>, u64>
        ensures { map (λ e. record { word = e.0.items; count = e.1 }) result ≡ self.now }
    {
        self.words.iter()
    }
}
