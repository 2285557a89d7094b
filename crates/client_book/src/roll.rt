//! A copy of the records of all clients.

ghost use Rattle.std.specs.Prelude.{◌≡◌};
ghost use Rattle.std.specs.Option.{option_copied};
ghost use Rattle.std.specs.FinMap as finite;

use crate::Client;
use std::marker::Model;

/// The records of clients as they were at one moment, and the last number that had joined.
#[derive(Debug, Drop)]
pub struct Clients {
    pub(crate) records: Vec<(u64, Client)>,
    pub(crate) last: u64,
}

impl Model for Clients {
    ghost use Rattle.std.specs.FinMap.{from_entries};
    ghost use Rattle.client_book.specs.Register.{Roll, roll_code};

    ghost Value = { Roll };

    ghost coded = { roll_code };

    ghost view = { λ c. record { clients = from_entries c.records.items; last = c.last } };
}

impl Clients {
    /// The greatest number that had joined, or 0 where none had.
    pub fn last_joined(&self) -> u64
        ensures last { result ≡ self.now.last }
    {
        self.last
    }

    /// The record of a client, where it was there. Looks through the records in order.
    pub fn get(&self, client: u64) -> Option<&Client>
        ensures client { option_copied result ≡ finite.get self.now.clients client }
    {
        for (number, record) in &self.records {
            if *number == client {
                return Some(record);
            }
        }
        None
    }
}
