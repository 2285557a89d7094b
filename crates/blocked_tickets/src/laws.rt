//! Laws on the tickets of the machine, each the contract of a function without a body.

ghost use Rattle.blocked_tickets.specs.Kept.{Kept};
ghost use Rattle.blocked_tickets.specs.Laws.{AdmitKeeps, UnblockKeeps, TimeOutKeeps, GoneKeeps, CloseKeeps, TicketOfClient, FirstIsDue};
ghost use Rattle.blocked_tickets.specs.TicketTable.{no_tickets};

/// From no tickets on, each step keeps this: the numbers that are held are from 1 on and below the
/// next one; each client waits on one ticket at most; the ready tickets are those that are held
/// with a payload, each once; and at most 65,536 are held.
pub fn each_step_keeps_the_tickets()
    ensures new { Kept no_tickets }
    ensures admitted { AdmitKeeps }
    ensures unblocked { UnblockKeeps }
    ensures timed_out { TimeOutKeeps }
    ensures gone { GoneKeeps }
    ensures closed { CloseKeeps }
{}

/// Where a client waits on a ticket, the definition finds one on which it waits.
pub fn the_ticket_of_a_client_is_its_waiting_one()
    ensures { TicketOfClient }
{}

/// The due ticket is Waiting without a payload, its deadline has come, and no other such ticket has
/// an earlier deadline, or the same and a lower number. Where none is due there is none such.
pub fn the_first_is_due()
    ensures { FirstIsDue }
{}
