//! A picture of the tickets, as plain data.

ghost use Rattle.std.specs.Prelude.{◌≡◌};
ghost use Rattle.std.specs.FinMap.{from_entries};

use crate::Ticket;
use std::marker::Model;

/// The tickets that were held, the ready list and the next number, seen as `Tickets` is.
#[derive(Debug, Drop)]
pub struct Held {
    tickets: Vec<(u64, Ticket)>,
    ready: Vec<u64>,
    next: u64,
}

impl Model for Held {
    ghost use Rattle.std.specs.FinMap.{from_entries};
    ghost use Rattle.blocked_tickets.specs.TicketTable.{TicketTable, coded_table};

    ghost Value = { TicketTable };

    ghost coded = { coded_table };

    ghost view = { λ h. record {
      held = from_entries h.tickets.items;
      ready = h.ready.items;
      next =
          h.next;
    } };
}

impl Held {
    pub(crate) fn new(tickets: Vec<(u64, Ticket)>, ready: Vec<u64>, next: u64) -> Held
        ensures made { result
            ≡ record { held = from_entries tickets.items; ready = ready.items; next = next } }
    {
        Held {
            tickets,
            ready,
            next,
        }
    }

    /// The numbers of the tickets that were unblocked, in order of their unblocks.
    pub fn ready(&self) -> &[u64]
        ensures numbers { result.now ≡ self.now.ready }
    {
        &self.ready
    }

    /// The number that the next ticket was to get.
    pub fn next(&self) -> u64
        ensures number { result ≡ self.now.next }
    {
        self.next
    }
}
