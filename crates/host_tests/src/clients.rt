ghost use Rattle.std.specs.Prelude.{IsTrue, IsSome};
ghost use Rattle.client_book.specs.Register.{listed};

use client_book::{Book, Client, Clients, JoinFault, PendFault, Pending};
use core_types::{Args, BadRequest, Blob, ClientState, NoMemory, Reply};
use std::alloc::Global;
use std::test::Fail;

fn is_there(book: &Book, client: u64) -> bool
    ensures { IsTrue result → IsSome (listed book.now client) }
{
    book.state(client) != ClientState::Absent
}

// A book with the clients 1 and 2.
fn two_clients(alloc: Global) -> Result<Book, JoinFault> {
    let mut book = Book::new(alloc);
    book.join(1)?;
    book.join(2)?;
    Ok(book)
}

// Tells a client a status of this text.
fn tell(alloc: Global, book: &mut Book, client: u64, text: &[u8]) -> Result<(), NoMemory> {
    let reply = Reply::simple(alloc, text)?;
    if is_there(book, client) {
        book.hold(client, &reply)?;
    }
    Ok(())
}

// Takes what a client may take, in pieces of one byte.
fn take_by_byte(alloc: Global, book: &mut Book, client: u64) -> Result<Blob, NoMemory> {
    let mut taken = Blob::new(alloc);
    for _ in 0..100 {
        let mut piece = [0u8; 1];
        if book.take_out(client, &mut piece) == 0 {
            break;
        }
        taken.push(piece[0])?;
    }
    Ok(taken)
}

// How many of these items a client's list takes, before one is too many.
fn pended(book: &mut Book, client: u64, items: u64) -> u64 {
    let mut taken = 0;
    for n in 0..items {
        if !is_there(book, client) {
            break;
        }
        let item = Pending::Broken(BadRequest::Quote);
        if let Err(PendFault::TooMany(_)) = book.pend(client, item) {
            break;
        }
        taken = n + 1;
    }
    taken
}

fn watch(book: &mut Book, client: u64, key: &[u8]) -> Result<(), NoMemory> {
    if is_there(book, client) {
        book.watch(client, key)?;
    }
    Ok(())
}

// Begins a transaction, where the client has none, and puts one command into it.
fn queue_one(alloc: Global, book: &mut Book, client: u64) -> Result<(), NoMemory> {
    if is_there(book, client) {
        book.begin_queue(client);
    }
    if book.has_queue(client) {
        book.queue(client, Args::new(alloc))?;
    }
    Ok(())
}

// Runs a transaction of one command, and says how many commands it had and whether a watched key
// was changed.
fn transaction(alloc: Global, book: &mut Book, client: u64) -> Result<(usize, bool), NoMemory> {
    queue_one(alloc, book, client)?;
    if book.has_queue(client) {
        let queue = book.end_queue(client);
        return Ok((queue.commands.len(), queue.touched));
    }
    Ok((0, false))
}

// How many commands a client's transaction has.
fn queued(clients: &Clients, client: u64) -> usize {
    match clients.get(client) {
        Some(
            Client {
                queue: Some(queued),
                ..
            },
        ) => queued.commands.len(),
        _ => 0,
    }
}

// Each call that takes memory answers something else than want of memory, and what it should.
#[test]
fn ample(rt: HostRuntime) -> Result<(), Fail> {
    let alloc = rt.alloc();
    let mut book = two_clients(alloc)?;
    assert_eq!(rt; book.join(2), Err(JoinFault::Stale));
    tell(alloc, &mut book, 2, b"OK")?;
    assert_eq!(rt; pended(&mut book, 2, 3), 3);
    watch(&mut book, 2, b"key")?;
    queue_one(alloc, &mut book, 1)?;
    let clients = book.picture(alloc)?;
    assert_eq!(rt; queued(&clients, 1), 1);
    assert_eq!(rt; clients.last_joined(), 2);
    assert!(rt; clients.get(3).is_none());
    let told = clients.get(2).map(|client| client.told.as_slice());
    assert_eq!(rt; told, Some(b"+OK\r\n".as_slice()));
    let pending = clients.get(2).map(|client| client.pending.len());
    assert_eq!(rt; pending, Some(3));
    let watched = clients.get(2).map(|client| client.watched.len());
    assert_eq!(rt; watched, Some(1));
    assert_eq!(rt; transaction(alloc, &mut book, 2)?, (1, false));
    Ok(())
}

// A reply may be taken after the next flush, and its bytes are handed out once each.
#[test]
fn held_until_flushed(rt: HostRuntime) -> Result<(), Fail> {
    let alloc = rt.alloc();
    let mut book = two_clients(alloc)?;
    tell(alloc, &mut book, 1, b"A")?;
    assert_eq!(rt; take_by_byte(alloc, &mut book, 1)?.len(), 0);
    book.flush();
    tell(alloc, &mut book, 1, b"B")?;
    assert_eq!(rt;
        take_by_byte(alloc, &mut book, 1)?.as_slice(),
        b"+A\r\n".as_slice()
    );
    assert_eq!(rt; book.untaken(1), 4);
    book.flush();
    assert_eq!(rt;
        take_by_byte(alloc, &mut book, 1)?.as_slice(),
        b"+B\r\n".as_slice()
    );
    assert_eq!(rt; book.untaken(1), 0);
    Ok(())
}

// The 1,025th item is one too many.
#[test]
fn pending_ends_at_1024(rt: HostRuntime) -> Result<(), Fail> {
    let mut book = two_clients(rt.alloc())?;
    assert_eq!(rt; pended(&mut book, 1, 2_000), 1_024);
    assert_eq!(rt; pended(&mut book, 2, 1_000), 1_000);
    Ok(())
}

// A change of a watched key is seen by its watcher alone, and by one transaction alone.
#[test]
fn changes_are_seen_by_watchers(rt: HostRuntime) -> Result<(), Fail> {
    let alloc = rt.alloc();
    let mut book = two_clients(alloc)?;
    watch(&mut book, 1, b"a")?;
    watch(&mut book, 2, b"b")?;
    book.touch(b"a");
    book.touch(b"c");
    assert_eq!(rt; transaction(alloc, &mut book, 1)?, (1, true));
    assert_eq!(rt; transaction(alloc, &mut book, 2)?, (1, false));
    book.touch(b"a");
    assert_eq!(rt; transaction(alloc, &mut book, 1)?, (1, false));
    Ok(())
}
