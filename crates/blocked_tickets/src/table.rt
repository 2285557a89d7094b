//! The tickets that are held, by their numbers.

ghost use Rattle.std.specs.Prelude.{◌≡◌, OnOk, OnErr, IfErr, IfOk, None};
ghost use Rattle.std.specs.Option.{option_copied};
ghost use Rattle.std.specs.FinMap as map;
ghost use Rattle.blocked_tickets.specs.Ticket.{turned, with_payload};
ghost use Rattle.blocked_tickets.specs.TicketTable.{with_changed};
ghost use Rattle.blocked_tickets.specs.inner.Rewriting.{Rewrites};

use crate::{Phase, Ticket};
use sequences::{Blob, Duplicate, NoMemory};
use std::alloc::Global;
use std::collections::BTreeMap;
use std::marker::Model;

/// The tickets that are held. Every call is O(log n); only `insert` takes memory, and a copy.
#[derive(Debug, Drop)]
pub(crate) struct Table {
    tickets: BTreeMap<u64, Ticket>,
}

impl Model for Table {
    ghost use Rattle.std.specs.FinMap.{from_entries};
    ghost use Rattle.blocked_tickets.specs.TicketTable.{HeldMap, coded_held};

    ghost Value = { HeldMap };

    ghost coded = { coded_held };

    ghost view = { λ t. from_entries t.tickets.entries };
}

impl Table {
    pub(crate) fn new(alloc: Global) -> Table
        ensures empty { result ≡ map.empty }
    {
        Table {
            tickets: BTreeMap::new(alloc),
        }
    }

    // How many are held.
    pub(crate) fn len(&self) -> usize
        ensures length { result ≡ map.len self.now }
    {
        self.tickets.len()
    }

    pub(crate) fn get(&self, number: u64) -> Option<&Ticket>
        ensures ticket { option_copied result ≡ map.get self.now number }
    {
        self.tickets.get(&number)
    }

    // Holds a ticket under a number that is free. For want of memory it comes back.
    pub(crate) fn insert(&mut self, number: u64, ticket: Ticket) -> Result<(), Ticket>
        requires { map.get self.old number ≡ None }
        ensures ok { OnOk result (self.new ≡ map.insert self.old number ticket) }
        ensures back { IfErr result (λ back. back ≡ ticket) }
        ensures err { OnErr result (self.new ≡ self.old) }
    {
        match self.tickets.insert(number, ticket) {
            Ok(_) => Ok(()),
            Err(refused) => Err(refused.value.1),
        }
    }

    // Gives the ticket of a number, where it is held, a payload.
    pub(crate) fn give_payload(&mut self, number: u64, payload: Blob)
        ensures given { self.new ≡ with_changed self.old number (with_payload payload) }
    {
        give_payload(&mut self.tickets, number, payload);
    }

    // Turns the ticket of a number, where it is held, to a phase.
    pub(crate) fn turn(&mut self, number: u64, phase: Phase)
        ensures turned { self.new ≡ with_changed self.old number (turned phase) }
    {
        turn(&mut self.tickets, number, phase);
    }

    pub(crate) fn remove(&mut self, number: u64) -> Option<Ticket>
        ensures ticket { result ≡ map.get self.old number }
        ensures removed { self.new ≡ map.remove self.old number }
    {
        self.tickets.remove(&number)
    }

    // A copy of the tickets with their numbers.
    pub(crate) fn copy(&self, alloc: Global) -> Result<Vec<(u64, Ticket)>, NoMemory>
        ensures same { IfOk result (λ copies. map.from_entries copies.items ≡ self.now) }
    {
        copied(alloc, &self.tickets)
    }
}

fn copied(alloc: Global, tickets: &BTreeMap<u64, Ticket>) -> Result<Vec<(u64, Ticket)>, NoMemory>
    ensures same { IfOk result (λ copies. copies.items ≡ tickets.now.entries) }
{
    let mut copies = Vec::new(alloc);
    for (number, ticket) in tickets {
        copies.push((*number, ticket.duplicate(alloc)?))?;
    }
    Ok(copies)
}

// Gives the ticket of a number a payload.
fn give_payload(tickets: &mut BTreeMap<u64, Ticket>, number: u64, payload: Blob)
    ensures { Rewrites tickets.old tickets.new number (with_payload payload) }
{
    if let Some(ticket) = tickets.get_mut(&number) {
        ticket.payload = Some(payload);
    }
}

// Turns the ticket of a number to a phase.
fn turn(tickets: &mut BTreeMap<u64, Ticket>, number: u64, phase: Phase)
    ensures { Rewrites tickets.old tickets.new number (turned phase) }
{
    if let Some(ticket) = tickets.get_mut(&number) {
        ticket.phase = phase;
    }
}
