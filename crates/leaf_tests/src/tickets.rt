use blocked_tickets::{Phase, Ticket, Tickets, UnblockFault};
use sequences::{Blob, NoMemory};
use std::alloc::Global;
use std::test::Fail;

// Opens a ticket for a client that left before.
fn open(
    alloc: Global,
    tickets: &mut Tickets,
    client: u64,
    deadline: Option<u64>,
) -> Result<u64, NoMemory> {
    let job = Blob::from_slice(alloc, b"abc")?;
    let _ = tickets.gone(client);
    match tickets.admit(client, 3, job, deadline) {
        Ok(number) => Ok(number),
        Err(_) => Err(NoMemory),
    }
}

fn unblock(
    alloc: Global,
    tickets: &mut Tickets,
    ticket: u64,
) -> Result<Option<UnblockFault>, NoMemory> {
    let payload = Blob::from_slice(alloc, b"cba")?;
    match tickets.unblock(ticket, payload) {
        Ok(()) => Ok(None),
        Err((fault, _)) => Ok(Some(fault)),
    }
}

fn time_out(tickets: &mut Tickets, now: u64) -> Option<u64> {
    match tickets.due(now) {
        Some(due) => {
            tickets.time_out(due);
            Some(due)
        }
        None => None,
    }
}

fn close(tickets: &mut Tickets) -> Option<Ticket> {
    match tickets.next_ready() {
        Some(ready) => Some(tickets.close(ready)),
        None => None,
    }
}

// Four tickets: the third has the least deadline, the first two have one deadline, and the fourth
// is unblocked before its own.
fn admit_four(alloc: Global, tickets: &mut Tickets) -> Result<(), NoMemory> {
    for (client, deadline) in [(1, 100), (2, 100), (3, 50), (4, 20)] {
        let _ = open(alloc, tickets, client, Some(deadline))?;
    }
    let _ = unblock(alloc, tickets, 4)?;
    Ok(())
}

// The tickets that time out at each of these moments, one a moment.
fn timed_out(alloc: Global, moments: [u64; 6]) -> Result<[Option<u64>; 6], NoMemory> {
    let mut tickets = Tickets::new(alloc);
    let admitted = admit_four(alloc, &mut tickets);
    let mut due = [None; 6];
    for (ticket, now) in due.iter_mut().zip(moments) {
        *ticket = time_out(&mut tickets, now);
    }
    drop(tickets);
    admitted?;
    Ok(due)
}

// Three tickets are ready: one whose client waits, one that timed out before its unblock, and one
// whose client left after it.
fn make_ready(alloc: Global, tickets: &mut Tickets) -> Result<(), NoMemory> {
    for client in [7, 8, 9] {
        let _ = open(alloc, tickets, client, Some(client))?;
    }
    let _ = unblock(alloc, tickets, 3)?;
    let _ = time_out(tickets, 7);
    let _ = unblock(alloc, tickets, 1)?;
    let _ = unblock(alloc, tickets, 2)?;
    let _ = tickets.gone(9);
    Ok(())
}

// What the pump closes, phase by phase.
fn closed(alloc: Global) -> Result<[Option<Phase>; 4], NoMemory> {
    let mut tickets = Tickets::new(alloc);
    let ready = make_ready(alloc, &mut tickets);
    let mut phases = [None; 4];
    for phase in &mut phases {
        *phase = close(&mut tickets).map(|ticket| ticket.phase);
    }
    drop(tickets);
    ready?;
    Ok(phases)
}

// The answers to an unblock of each of these tickets, where the first was closed and the second
// unblocked.
fn unblock_each(
    alloc: Global,
    tickets: &mut Tickets,
    numbers: [u64; 6],
    answers: &mut [Option<UnblockFault>; 6],
) -> Result<(), NoMemory> {
    for client in [1, 2, 3] {
        let _ = open(alloc, tickets, client, None)?;
    }
    let _ = unblock(alloc, tickets, 1)?;
    let _ = close(tickets);
    let _ = unblock(alloc, tickets, 2)?;
    for (answer, number) in answers.iter_mut().zip(numbers) {
        *answer = unblock(alloc, tickets, number)?;
    }
    Ok(())
}

fn refusals(alloc: Global, numbers: [u64; 6]) -> Result<[Option<UnblockFault>; 6], NoMemory> {
    let mut tickets = Tickets::new(alloc);
    let mut answers = [None; 6];
    let done = unblock_each(alloc, &mut tickets, numbers, &mut answers);
    drop(tickets);
    done?;
    Ok(answers)
}

#[test]
fn the_least_deadline_is_due_first(rt: HostRuntime) -> Result<(), Fail> {
    let due = timed_out(rt.alloc(), [49, 50, 99, 100, 100, 100])?;
    assert_eq!(rt; due, [None, Some(3), None, Some(1), Some(2), None]);
    Ok(())
}

#[test]
fn the_ready_ones_close_in_order(rt: HostRuntime) -> Result<(), Fail> {
    let phases = [Phase::Gone, Phase::TimedOut, Phase::Waiting];
    let [gone, timed_out, waiting] = phases.map(Some);
    assert_eq!(rt; closed(rt.alloc())?, [gone, timed_out, waiting, None]);
    Ok(())
}

#[test]
fn each_refusal_has_its_cause(rt: HostRuntime) -> Result<(), Fail> {
    let closed = Some(UnblockFault::Closed);
    let already = Some(UnblockFault::Already);
    let never = Some(UnblockFault::NeverIssued);
    assert_eq!(rt;
        refusals(rt.alloc(), [1, 2, 3, 3, 0, 4])?,
        [closed, already, None, already, never, never]
    );
    Ok(())
}

// What a table of two tickets, of which the second was unblocked, looks like: the numbers of both,
// the next number, and whether the second alone is ready.
fn pictured(alloc: Global, tickets: &mut Tickets) -> Result<(u64, u64, u64, bool), NoMemory> {
    let first = open(alloc, tickets, 1, None)?;
    let second = open(alloc, tickets, 2, Some(5))?;
    let _ = unblock(alloc, tickets, second)?;
    let held = tickets.picture(alloc)?;
    Ok((first, second, held.next(), held.ready() == [2].as_slice()))
}

// Each call that takes memory succeeds where there is enough.
#[test]
fn ample(rt: HostRuntime) -> Result<(), Fail> {
    let mut tickets = Tickets::new(rt.alloc());
    let pictured = pictured(rt.alloc(), &mut tickets);
    drop(tickets);
    assert_eq!(rt; pictured, Ok((1, 2, 3, true)));
    Ok(())
}
