//! The tickets of blocked clients.
//!
//! A client that waits for work holds a ticket. `Tickets` is the finite map of the tickets that are
//! held, the list of those that were unblocked in the order of their unblocks, and the next number;
//! each call is one step of it, and each refusal has its exact cause. A ticket is Waiting until its
//! deadline or its client's end; it is held until it was unblocked and then closed. It stands on
//! `sequences` alone. Every call is O(log n) in the tickets held: a ticket is found by its number,
//! the Waiting one by its client, the due one by its deadline, the ready one at the front of its
//! line. Closing another than the first ready ticket, and a copy of all, are linear. Only `admit`
//! and `picture` take memory.
#![tactic(auto)]

mod admit_fault;
mod deadlines;
mod held;
mod laws;
mod ready_line;
mod table;
mod ticket;
mod tickets;
mod unblock_fault;
mod waiters;

pub use admit_fault::AdmitFault;
pub use held::Held;
pub use laws::{
    each_step_keeps_the_tickets, the_first_is_due, the_ticket_of_a_client_is_its_waiting_one,
};
pub use ticket::{Phase, Ticket};
pub use tickets::Tickets;
pub use unblock_fault::UnblockFault;
