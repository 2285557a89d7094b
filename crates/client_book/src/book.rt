//! The book of clients.

ghost use Rattle.std.specs.Prelude.{◌≡◌, ◌≤◌, ◌↔◌, ◌++◌, length, take, drop, min, slice_get, is_some, IsSome, IfSome, IfOk, IfErr, OnOk, OnErr, Err, Some};
ghost use Rattle.resp_codec.specs.ReplyText.{text};
ghost use Rattle.client_book.specs.Client.{tells, passes, waits_for, pends, without_first_pending, begins_queue, queues, spoils_queue, watches, sees_change, unwatches, ends_queue, closes};
ghost use Rattle.client_book.specs.Register.{nobody, listed, joins, leaves, lists, on_record, changes, changes_all, frees_all, state_of, ticket_of, pending_of, queue_of, told_of, free_of, ended_queue, IsFront, roll_of};
ghost use Rattle.client_book.specs.Pending.{given_back};

use crate::entry::Entry;
use crate::pending::push_pending;
use crate::queue::{end, push_command, spoil};
use crate::table::{copy_records, mark_all};
use crate::watched::Watched;
use crate::watchers::Watchers;
use crate::{Clients, PendFault, Pending, Queue, Queued};
use core_types::{Args, ClientState, NoMemory, Reply, Sequence};
use std::alloc::Global;
use std::collections::{BTreeMap, VecDeque};
use std::marker::Model;

/// Why a client does not join.
#[derive(Clone, Copy, Debug, PartialEq, Eq)]
pub enum JoinFault {
    /// Its number is 0, or not above every number that joined.
    Stale,
    /// Memory ran out.
    Memory,
}

/// The clients of a host, by their numbers.
#[derive(Debug, Drop)]
pub struct Book {
    clients: BTreeMap<u64, Entry>,
    watchers: Watchers,
    // How often the book was flushed.
    flushes: u64,
    last: u64,
    alloc: Global,
}

impl Model for Book {
    ghost use Rattle.std.specs.FinMap.{from_entries};
    ghost use Rattle.client_book.specs.Register.{Register, register_code, each};

    ghost Value = { Register };

    ghost coded = { register_code };

    ghost use Rattle.client_book.specs.inner.Entry.{shown, AllFit};

    ghost view = { λ b. record {
      clients = each (shown b.flushes) (from_entries b.clients.entries);
      last = b.last;
    } };

    ghost invariant = { λ b. AllFit b.flushes b.watchers b.clients };
}

impl Book {
    /// No clients. Takes no memory.
    pub fn new(alloc: Global) -> Book
        ensures nobody { result ≡ nobody }
    {
        Book {
            clients: BTreeMap::new(alloc),
            watchers: Watchers::new(alloc),
            flushes: 0,
            last: 0,
            alloc,
        }
    }

    /// A client comes. An `Err` changes nothing; it is `Stale` exactly where the number is 0 or not
    /// above every number that joined.
    pub fn join(&mut self, client: u64) -> Result<(), JoinFault>
        ensures ok { OnOk result (self.new ≡ joins client self.old) }
        ensures stale { (result ≡ Err JoinFault.Stale) ↔ (client ≤ self.old.last) }
        ensures err { OnErr result (self.new ≡ self.old) }
    {
        if client <= self.last {
            return Err(JoinFault::Stale);
        }
        let entry = Entry::new(self.alloc);
        match self.clients.insert(client, entry) {
            Ok(_) => {
                self.last = client;
                Ok(())
            }
            Err(_) => Err(JoinFault::Memory),
        }
    }

    /// Whether a client is there, and whether it is still served.
    pub fn state(&self, client: u64) -> ClientState
        ensures state { result ≡ state_of (listed self.now client) }
    {
        match self.clients.get(&client) {
            None => ClientState::Absent,
            Some(entry) if entry.closing => ClientState::Closing,
            Some(_) => ClientState::Connected,
        }
    }

    /// The ticket that a client waits for: that of the last `set_waiting`.
    pub fn waiting(&self, client: u64) -> Option<u64>
        ensures ticket { result ≡ ticket_of (listed self.now client) }
    {
        match self.clients.get(&client) {
            Some(entry) => entry.waiting,
            None => None,
        }
    }

    /// Whether a client is in a transaction.
    pub fn has_queue(&self, client: u64) -> bool
        ensures queue { result ≡ is_some (queue_of (listed self.now client)) }
    {
        match self.clients.get(&client) {
            Some(entry) => entry.queue.is_some(),
            None => false,
        }
    }

    /// The greatest number that joined, or 0 where none did.
    pub fn last_joined(&self) -> u64
        ensures last { result ≡ self.now.last }
    {
        self.last
    }

    /// The number of bytes that a client may take.
    pub fn flushed(&self, client: u64) -> u64
        ensures bytes { result ≡ free_of (listed self.now client) }
    {
        match self.clients.get(&client) {
            Some(entry) => entry.outbox.free(self.flushes),
            None => 0,
        }
    }

    /// What is always so of a client: at most 1,024 items wait for it, and what it may take is a
    /// front of what it was told. A law, which is called by proofs alone.
    pub fn bounds(&self, client: u64)
        ensures pending { length (pending_of (listed self.now client)) ≤ 1024 }
        ensures front { IfSome (listed self.now client) IsFront }
    {
        if let Some(entry) = self.clients.get(&client) {
            let _free = entry.outbox.free(self.flushes);
        }
    }

    /// The number of bytes that a client was told and has not taken.
    pub fn untaken(&self, client: u64) -> u64
        ensures bytes { result ≡ length (told_of (listed self.now client)) }
    {
        match self.clients.get(&client) {
            Some(entry) => entry.outbox.untaken(),
            None => 0,
        }
    }

    /// A request comes while its client waits. An `Err` changes nothing and hands the item back; it
    /// is `TooMany` exactly where 1,024 wait already.
    pub fn pend(&mut self, client: u64, item: Pending) -> Result<(), PendFault>
        requires there { IsSome (listed self.old client) }
        ensures ok { OnOk result (self.new ≡ changes (pends item) client self.old) }
        ensures too_many { (result ≡ Err (PendFault.TooMany item))
            ↔ (length (pending_of (listed self.old client)) ≡ 1024) }
        ensures given_back { IfErr result (λ fault. given_back fault ≡ item) }
        ensures err { OnErr result (self.new ≡ self.old) }
    {
        let Some(entry) = self.clients.get_mut(&client) else {
            unreachable!();
        };
        push_pending(&mut entry.pending, item)
    }

    /// Takes out the request that has waited longest for a client, if there is one.
    pub fn next_pending(&mut self, client: u64) -> Option<Pending>
        requires there { IsSome (listed self.old client) }
        ensures item { result ≡ slice_get (pending_of (listed self.old client)) 0 }
        ensures left { self.new ≡ changes without_first_pending client self.old }
    {
        let Some(entry) = self.clients.get_mut(&client) else {
            unreachable!();
        };
        entry.pending.pop_front()
    }

    /// Tells a client a reply: its text is added to the bytes that are held. It may be taken after
    /// the next flush. An `Err` changes nothing; where a place in the stream would pass 64 bits, it
    /// is want of memory.
    pub fn hold(&mut self, client: u64, reply: &Reply) -> Result<(), NoMemory>
        requires there { IsSome (listed self.old client) }
        ensures ok { OnOk result (self.new ≡ changes (tells (text reply.now)) client self.old) }
        ensures err { OnErr result (self.new ≡ self.old) }
    {
        let alloc = self.alloc;
        let flushes = self.flushes;
        if flushes == u64::MAX {
            return Err(NoMemory);
        }
        let Some(entry) = self.clients.get_mut(&client) else {
            unreachable!();
        };
        entry.outbox.hold(alloc, reply, flushes)
    }

    /// All that every client was told may be taken from now on.
    pub fn flush(&mut self)
        ensures freed { self.new ≡ frees_all self.old }
    {
        self.flushes = self.flushes.saturating_add(1);
    }

    /// Moves the longest front of the bytes that a client may take, and that fits, and says how
    /// long it is. It is 0 for a client that is not there.
    pub fn take_out(&mut self, client: u64, into: &mut [u8]) -> usize
        ensures count { result ≡ min (length into.old) (free_of (listed self.old client)) }
        ensures moved { into.new
            ≡ take result (told_of (listed self.old client)) ++ drop result into.old }
        ensures left { self.new ≡ changes (passes result) client self.old }
    {
        let flushes = self.flushes;
        let Some(entry) = self.clients.get_mut(&client) else {
            return 0;
        };
        entry.outbox.take(into, flushes)
    }

    /// A client waits for a ticket, or no longer for any.
    pub fn set_waiting(&mut self, client: u64, ticket: Option<u64>)
        requires there { IsSome (listed self.old client) }
        ensures waits { self.new ≡ changes (waits_for ticket) client self.old }
    {
        let Some(entry) = self.clients.get_mut(&client) else {
            unreachable!();
        };
        entry.waiting = ticket;
    }

    /// Begins a transaction without commands.
    pub fn begin_queue(&mut self, client: u64)
        requires there { IsSome (listed self.old client) }
        ensures begun { self.new ≡ changes begins_queue client self.old }
    {
        let commands = Sequence::new(self.alloc);
        let Some(entry) = self.clients.get_mut(&client) else {
            unreachable!();
        };
        entry.queue = Some(Queued {
            commands,
            spoiled: false,
        });
    }

    /// Adds a command to a client's transaction. An `Err` changes nothing, and the words are
    /// dropped.
    pub fn queue(&mut self, client: u64, words: Args) -> Result<(), NoMemory>
        requires begun { IsSome (queue_of (listed self.old client)) }
        ensures ok { OnOk result (self.new ≡ changes (queues words) client self.old) }
        ensures err { OnErr result (self.new ≡ self.old) }
    {
        let Some(entry) = self.clients.get_mut(&client) else {
            unreachable!();
        };
        push_command(&mut entry.queue, words)
    }

    /// A command of a client's transaction was refused.
    pub fn spoil(&mut self, client: u64)
        requires begun { IsSome (queue_of (listed self.old client)) }
        ensures spoiled { self.new ≡ changes spoils_queue client self.old }
    {
        let Some(entry) = self.clients.get_mut(&client) else {
            unreachable!();
        };
        spoil(&mut entry.queue);
    }

    /// Ends a client's transaction, and its watches with it.
    pub fn end_queue(&mut self, client: u64) -> Queue
        requires begun { IsSome (queue_of (listed self.old client)) }
        ensures queue { ended_queue (listed self.old client) ≡ Some result }
        ensures ended { self.new ≡ changes ends_queue client self.old }
    {
        let empty = Watched::new(self.alloc);
        let Some(entry) = self.clients.get_mut(&client) else {
            unreachable!();
        };
        let touched = std::mem::replace(&mut entry.touched, false);
        let watched = std::mem::replace(&mut entry.watched, empty);
        let queued = entry.queue.take();
        self.watchers.forget(watched, client);
        end(queued, touched)
    }

    /// A client watches a key from now on. An `Err` changes nothing.
    pub fn watch(&mut self, client: u64, key: &[u8]) -> Result<(), NoMemory>
        requires there { IsSome (listed self.old client) }
        ensures ok { OnOk result (self.new ≡ changes (watches key.now) client self.old) }
        ensures err { OnErr result (self.new ≡ self.old) }
    {
        let alloc = self.alloc;
        let Some(entry) = self.clients.get_mut(&client) else {
            unreachable!();
        };
        self.watchers.add(alloc, key, client)?;
        let Err(refused) = entry.watched.insert(alloc, key) else {
            return Ok(());
        };
        if !entry.watched.contains(key) {
            self.watchers.remove(key, client);
        }
        Err(refused)
    }

    /// A client watches no key any longer, and no change that it saw counts.
    pub fn unwatch(&mut self, client: u64)
        requires there { IsSome (listed self.old client) }
        ensures unwatched { self.new ≡ changes unwatches client self.old }
    {
        let empty = Watched::new(self.alloc);
        let Some(entry) = self.clients.get_mut(&client) else {
            unreachable!();
        };
        entry.touched = false;
        let watched = std::mem::replace(&mut entry.watched, empty);
        self.watchers.forget(watched, client);
    }

    /// A key is changed: each client that watches it is marked.
    pub fn touch(&mut self, key: &[u8])
        ensures marked { self.new ≡ changes_all (sees_change key.now) self.old }
    {
        if let Some(watching) = self.watchers.of(key) {
            mark_all(&mut self.clients, watching, key);
        }
    }

    /// A client is served no longer. What waits for it is dropped, and its transaction and its
    /// watches end. It may still be told and take replies.
    pub fn set_closing(&mut self, client: u64)
        requires there { IsSome (listed self.old client) }
        ensures closing { self.new ≡ changes closes client self.old }
    {
        let empty = Watched::new(self.alloc);
        let Some(entry) = self.clients.get_mut(&client) else {
            unreachable!();
        };
        entry.closing = true;
        entry.pending = VecDeque::new(self.alloc);
        entry.queue = None;
        entry.touched = false;
        let watched = std::mem::replace(&mut entry.watched, empty);
        self.watchers.forget(watched, client);
    }

    /// A client goes, and its outbox with it. Nothing changes where it is not there.
    pub fn drop_client(&mut self, client: u64)
        ensures gone { self.new ≡ leaves client self.old }
    {
        if let Some(entry) = self.clients.remove(&client) {
            self.watchers.forget(entry.watched, client);
        }
    }

    /// A copy of the records and of the last number that joined.
    pub fn picture(&self, alloc: Global) -> Result<Clients, NoMemory>
        ensures same { IfOk result (λ clients. clients ≡ roll_of self.now) }
    {
        Ok(Clients {
            records: copy_records(alloc, &self.clients)?,
            last: self.last,
        })
    }
}
