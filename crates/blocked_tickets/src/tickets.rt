//! The tickets, and each step on them.

ghost use Rattle.std.specs.Prelude.{◌≡◌, ◌<◌, ◌≤◌, ◌^◌, slice_get, IsSome, IfSome, IfOk, IfErr, OnOk, OnErr, false, Some, None};
ghost use Rattle.std.specs.Option.{option_copied};
ghost use Rattle.std.specs.FinMap as map;
ghost use Rattle.blocked_tickets.specs.inner.Entering.{with_deadline};
ghost use Rattle.blocked_tickets.specs.Kept.{Kept};
ghost use Rattle.blocked_tickets.specs.Outcomes.{AdmitCause, UnblockCause, most_held};
ghost use Rattle.blocked_tickets.specs.Ticket.{new_ticket, turned, is_waiting};
ghost use Rattle.blocked_tickets.specs.TicketTable.{no_tickets, ticket_at, ticket_of, waiter_of, deadline_of, due_at, payload_of, admitted, unblocked, changed, timed_out, client_gone, closed};

use crate::deadlines::Deadlines;
use crate::ready_line::ReadyLine;
use crate::table::Table;
use crate::waiters::Waiters;
use crate::{AdmitFault, Held, Phase, Ticket, UnblockFault};
use sequences::{Blob, NoMemory};
use std::alloc::Global;
use std::marker::Model;

// The most tickets that are held at one time.
const MOST: usize = 65_536;

/// The tickets that are held.
#[derive(Debug, Drop)]
pub struct Tickets {
    held: Table,
    waiters: Waiters,
    deadlines: Deadlines,
    ready: ReadyLine,
    next: u64,
}

impl Model for Tickets {
    ghost use Rattle.blocked_tickets.specs.TicketTable.{TicketTable, coded_table};
    ghost use Rattle.blocked_tickets.specs.inner.Indexed.{Indexed, table_of};

    ghost Value = { TicketTable };

    ghost coded = { coded_table };

    ghost view = { λ t. table_of t.held t.ready.numbers t.next };

    ghost invariant = { λ t. Indexed t.waiters t.deadlines t.ready.room
        (table_of t.held t.ready.numbers t.next) };
}

impl Tickets {
    /// No tickets; the next number is 1. Takes no memory.
    pub fn new(alloc: Global) -> Tickets
        ensures empty { result ≡ no_tickets }
    {
        Tickets {
            held: Table::new(alloc),
            waiters: Waiters::new(alloc),
            deadlines: Deadlines::new(alloc),
            ready: ReadyLine::new(alloc),
            next: 1,
        }
    }

    /// Opens a ticket for a client that waits on none, and gives its number. A fault gives the job
    /// back: `Full` exactly where 65,536 tickets are held, else `NumbersSpent` exactly where the
    /// next number is 2^64 - 1.
    pub fn admit(
        &mut self,
        client: u64,
        place: u16,
        job: Blob,
        deadline: Option<u64>,
    ) -> Result<u64, (AdmitFault, Blob)>
        requires { ticket_of self.old client ≡ None }
        ensures number { IfOk result (λ number. number ≡ self.old.next) }
        ensures opened { OnOk result
            (self.new ≡ admitted self.old (new_ticket client place job deadline)) }
        ensures cause { AdmitCause self.old result }
        ensures job_back { IfErr result (λ fault. fault.1 ≡ job) }
        ensures err { OnErr result (self.new ≡ self.old) }
    {
        if self.held.len() >= MOST {
            return Err((AdmitFault::Full, job));
        }
        let number = self.next;
        if number == u64::MAX {
            return Err((AdmitFault::NumbersSpent, job));
        }
        if self.ready.reserve(self.held.len() + 1).is_err() {
            return Err((AdmitFault::Memory, job));
        }
        if enter(
            &mut self.waiters,
            &mut self.deadlines,
            client,
            number,
            deadline,
        )
        .is_err()
        {
            return Err((AdmitFault::Memory, job));
        }
        let ticket = Ticket::new(client, place, job, deadline);
        if let Err(ticket) = self.held.insert(number, ticket) {
            self.waiters.remove(Some(client));
            self.deadlines.remove(number, deadline);
            return Err((AdmitFault::Memory, ticket.job));
        }
        self.next += 1;
        Ok(number)
    }

    /// Gives a ticket its payload, and makes it the last of the ready ones. Its phase stays. A
    /// fault gives the payload back: `Already` exactly where the ticket is held and has a payload,
    /// `Closed` exactly where it was issued and is not held, `NeverIssued` exactly where it is 0 or
    /// not below the next number.
    pub fn unblock(&mut self, ticket: u64, payload: Blob) -> Result<(), (UnblockFault, Blob)>
        ensures unblocked { OnOk result (self.new ≡ unblocked self.old ticket payload) }
        ensures cause { UnblockCause self.old ticket result }
        ensures payload_back { IfErr result (λ fault. fault.1 ≡ payload) }
        ensures err { OnErr result (self.new ≡ self.old) }
    {
        let Some(held) = self.held.get(ticket) else {
            if ticket == 0 || ticket >= self.next {
                return Err((UnblockFault::NeverIssued, payload));
            }
            return Err((UnblockFault::Closed, payload));
        };
        if held.payload.is_some() {
            return Err((UnblockFault::Already, payload));
        }
        self.deadlines.remove(ticket, held.open_deadline());
        self.held.give_payload(ticket, payload);
        self.ready.push(ticket);
        Ok(())
    }

    /// The ticket of a number, or `None` where it is not held.
    pub fn get(&self, ticket: u64) -> Option<&Ticket>
        ensures ticket { option_copied result ≡ ticket_at self.now ticket }
    {
        self.held.get(ticket)
    }

    /// The ticket that was unblocked first of those that are held, or `None` where none was.
    pub fn next_ready(&self) -> Option<u64>
        ensures first { result ≡ slice_get self.now.ready 0 }
        ensures held { IfSome result (λ number. IsSome (payload_of self.now number)) }
    {
        self.ready.first()
    }

    /// The ticket that times out now, or `None` where none does: of the Waiting tickets without a
    /// payload whose deadline is at most `now`, the one of the least deadline, then of the least
    /// number.
    pub fn due(&self, now: u64) -> Option<u64>
        ensures due { result ≡ due_at self.now now }
        ensures can_time_out { IfSome result (λ number. IsSome (deadline_of self.now number)) }
    {
        match self.deadlines.first() {
            Some(first) if first.deadline <= now => Some(first.ticket),
            _ => None,
        }
    }

    /// Turns a ticket to TimedOut, which is Waiting and has a deadline and no payload.
    pub fn time_out(&mut self, ticket: u64)
        requires { IsSome (deadline_of self.old ticket) }
        ensures timed_out { self.new ≡ timed_out self.old ticket }
    {
        self.end_wait(ticket, Phase::TimedOut);
    }

    /// Turns the ticket on which a client waits to Gone, unblocked or not, and gives its number.
    /// `None` where the client waits on none.
    pub fn gone(&mut self, client: u64) -> Option<u64>
        ensures ticket { result ≡ ticket_of self.old client }
        ensures gone { self.new ≡ client_gone self.old client }
        ensures waits_no_more { ticket_of self.new client ≡ None }
    {
        let Some(ticket) = self.waiters.get(client) else {
            return None;
        };
        self.end_wait(ticket, Phase::Gone);
        Some(ticket)
    }

    /// Takes out a ticket that is held and has a payload.
    pub fn close(&mut self, ticket: u64) -> Ticket
        requires { IsSome (payload_of self.old ticket) }
        ensures ticket { Some result ≡ ticket_at self.old ticket }
        ensures closed { self.new ≡ closed self.old ticket }
    {
        let Some(held) = self.held.remove(ticket) else {
            unreachable!()
        };
        self.waiters.remove(held.waiter());
        self.ready.remove(ticket);
        held
    }

    /// The number of tickets that are held, at most 65,536.
    pub fn count(&self) -> u64
        ensures count { result ≡ map.len self.now.held }
        ensures kept { Kept self.now }
    {
        self.held.len() as u64
    }

    /// A copy of the tickets, the ready list and the next number.
    pub fn picture(&self, alloc: Global) -> Result<Held, NoMemory>
        ensures same { IfOk result (λ held. held ≡ self.now) }
    {
        Ok(Held::new(self.held.copy(alloc)?, self.ready.copy(alloc)?, self.next))
    }

    // Ends the wait of a ticket's client.
    fn end_wait(&mut self, ticket: u64, phase: Phase)
        requires waits { IsSome (waiter_of self.old ticket) }
        requires ends { is_waiting phase ≡ false }
        ensures turned { self.new ≡ changed self.old ticket (turned phase) }
    {
        let Some(held) = self.held.get(ticket) else {
            return;
        };
        self.deadlines.remove(ticket, held.open_deadline());
        self.waiters.remove(held.waiter());
        self.held.turn(ticket, phase);
    }
}

// Enters a new ticket into the indexes, into both or none.
fn enter(
    waiters: &mut Waiters,
    deadlines: &mut Deadlines,
    client: u64,
    ticket: u64,
    deadline: Option<u64>,
) -> Result<(), NoMemory>
    requires { map.get waiters.old client ≡ None }
    ensures waits { OnOk result (waiters.new ≡ map.insert waiters.old client ticket) }
    ensures due { OnOk result (deadlines.new ≡ with_deadline deadlines.old ticket deadline) }
    ensures err { OnErr result (waiters.new ≡ waiters.old) }
    ensures err_due { OnErr result (deadlines.new ≡ deadlines.old) }
{
    waiters.insert(client, ticket)?;
    let entered = deadlines.insert(ticket, deadline);
    if entered.is_err() {
        waiters.remove(Some(client));
    }
    entered
}
