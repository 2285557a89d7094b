//! What waits for a client that waits itself.

ghost use Rattle.std.specs.Prelude.{◌≡◌, ◌≤◌, ◌↔◌, ◌++◌, [], ◌∷◌, length, IfErr, OnOk, OnErr, Err};
ghost use Rattle.client_book.specs.Pending.{given_back};

use core_types::{Args, BadRequest, Duplicate, NoMemory};
use std::alloc::Global;
use std::collections::VecDeque;

// The most items that may wait for a client that waits itself.
const MOST: usize = 1_024;

/// A request that came while its client waited, and is served when it no longer waits.
#[derive(Debug, Drop)]
pub enum Pending {
    /// The words of a request.
    Command(Args),
    /// What came was no request.
    Broken(BadRequest),
}

impl Duplicate for Pending {
    fn duplicate(&self, alloc: Global) -> Result<Pending, NoMemory> {
        Ok(match self {
            Pending::Command(words) => Pending::Command(words.copy(alloc)?),
            Pending::Broken(kind) => Pending::Broken(*kind),
        })
    }
}

/// Why an item was not added to what waits for a client. It is handed back.
#[derive(Debug, Drop)]
pub enum PendFault {
    /// 1,024 items wait already.
    TooMany(Pending),
    /// Memory ran out.
    Memory(Pending),
}

/// Adds an item to those that wait. An `Err` changes nothing and hands the item back; it is
/// `TooMany` exactly where 1,024 wait already.
pub(crate) fn push_pending(items: &mut VecDeque<Pending>, item: Pending) -> Result<(), PendFault>
    requires few { length items.old.items ≤ 1024 }
    ensures few { length items.new.items ≤ 1024 }
    ensures ok { OnOk result (items.new.items ≡ items.old.items ++ item ∷ []) }
    ensures too_many { (result ≡ Err (PendFault.TooMany item)) ↔ (length items.old.items ≡ 1024) }
    ensures given_back { IfErr result (λ fault. given_back fault ≡ item) }
    ensures err { OnErr result (items.new.items ≡ items.old.items) }
{
    if items.len() == MOST {
        return Err(PendFault::TooMany(item));
    }
    match items.push_back(item) {
        Ok(()) => Ok(()),
        Err(refused) => Err(PendFault::Memory(refused.value)),
    }
}
