//! `modhost`: a keyspace server in the manner of Redis.
//!
//! `modhost pipe DIR` opens the log `appendonly.aof` in DIR and replays it, or begins one, reads
//! requests of RESP2 from standard input, serves them in order, writes each reply to standard
//! output, and appends each change to the log, synced before its reply is written. It serves every
//! plain command: strings, lists, hashes, keys of any type and their deadlines. The clock is read
//! before each request, and the keys that are due by then go first, as changes of their own.
//!
//! `modhost check DIR` prints how many keys the folder stands for, how many bytes of its log are
//! whole units and how many it has, and changes nothing.
//!
//! All of it is the call `server_shell::modhost`, over any directory, source, sink and clock: its
//! contract says what was sent and what the log holds at each end, when each end comes, and what a
//! crash leaves. `main` makes the real ones and calls it. A request costs what its command costs,
//! and O(log n) in the number of keys to find one. While the log is opened its bytes are held
//! beside the keys. After that memory grows with the keys, and with the requests of the run, since
//! the host keeps a copy of the keys that were opened and every event since.
#![tactic(auto)]

mod process;

use std::process::ExitCode;

fn main(rt: HostRuntime) -> ExitCode {
    let status = process::run(&rt);
    process::report(&rt, &status)
}
