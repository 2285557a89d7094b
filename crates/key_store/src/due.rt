//! The deadlines of the keys, in order.

ghost use Rattle.std.specs.Prelude.{◌≡◌, OnOk, OnErr};
ghost use Rattle.std.specs.Option.{option_map};
ghost use Rattle.std.specs.FinSet as set;
ghost use Rattle.key_store.specs.inner.Index.{due_of, unless_same, entered, taken_out, IsEarliest};

use crate::name::Name;
use core_types::NoMemory;
use std::alloc::Global;
use std::collections::BTreeSet;
use std::marker::Model;

/// A key, and the moment in milliseconds at which it is due. They are ordered by moment, and then
/// by key in byte order.
#[derive(Debug, PartialEq, Eq, PartialOrd, Ord, Drop)]
pub(crate) struct Due {
    pub moment: u64,
    pub key: Name,
}

/// The keys that have a deadline, in the order in which they are due. Every call is O(log n); only
/// `insert` takes memory.
#[derive(Debug, Drop)]
pub(crate) struct Dues {
    dues: BTreeSet<Due>,
}

impl Model for Dues {
    ghost use Rattle.std.specs.Prelude.{map};
    ghost use Rattle.std.specs.FinSet.{FinSet, from_list, code};
    ghost use Rattle.key_store.specs.inner.Index.{due_cmp, due_code, due_of};

    ghost Value = { FinSet due_cmp };

    ghost coded = { code due_code };

    ghost view = { λ d. from_list (map due_of d.dues.keys) };
}

impl Dues {
    pub(crate) fn new(alloc: Global) -> Dues
        ensures empty { result ≡ set.empty }
    {
        Dues {
            dues: BTreeSet::new(alloc),
        }
    }

    // The first, or `None` where no key has a deadline.
    pub(crate) fn first(&self) -> Option<&Due>
        ensures earliest { IsEarliest self.now (option_map (λ due. due_of due.now) result) }
    {
        self.dues.first()
    }

    // Enters a key at its deadline, where it has one.
    pub(crate) fn insert(
        &mut self,
        alloc: Global,
        key: &[u8],
        deadline: Option<u64>,
    ) -> Result<(), NoMemory>
        ensures ok { OnOk result (self.new ≡ entered self.old key.now deadline) }
        ensures err { OnErr result (self.new ≡ self.old) }
    {
        if let Some(moment) = deadline {
            let key = Name::new(alloc, key)?;
            self.dues.insert(Due { moment, key })?;
        }
        Ok(())
    }

    // Takes out a key at its deadline, where it has one.
    pub(crate) fn forget(&mut self, key: Name, deadline: Option<u64>)
        ensures removed { self.new ≡ taken_out self.old key deadline }
    {
        let _ = self.remove(key, deadline);
    }

    // Takes out a key at its deadline, where it has one, by its bytes. Takes memory only where it has
    // one.
    pub(crate) fn forget_key(
        &mut self,
        alloc: Global,
        key: &[u8],
        deadline: Option<u64>,
    ) -> Result<(), NoMemory>
        ensures ok { OnOk result (self.new ≡ taken_out self.old key.now deadline) }
        ensures err { OnErr result (self.new ≡ self.old) }
    {
        if deadline.is_some() {
            self.forget(Name::new(alloc, key)?, deadline);
        }
        Ok(())
    }

    // Takes out a key at its deadline, where it has one, and gives the key back.
    pub(crate) fn remove(&mut self, key: Name, deadline: Option<u64>) -> Name
        ensures key { result ≡ key }
        ensures removed { self.new ≡ taken_out self.old key deadline }
    {
        let Some(moment) = deadline else {
            return key;
        };
        let due = Due { moment, key };
        let _ = self.dues.remove(&due);
        due.key
    }
}

/// The moment of one deadline where another is not the same.
pub(crate) fn unless_same(deadline: Option<u64>, other: Option<u64>) -> Option<u64>
    ensures { result ≡ unless_same deadline other }
{
    match (deadline, other) {
        (Some(moment), Some(other)) if moment == other => None,
        _ => deadline,
    }
}
