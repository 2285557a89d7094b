//! The replies in an array, kept flat.

ghost use Rattle.std.specs.Prelude.{◌≡◌, ◌+◌, ◌≤◌, ◌++◌, [], IfOk, OnOk, OnErr};

use crate::parts::push_parts;
use crate::{NoMemory, Part, Reply};
use sequences::duplicate_items;
use std::alloc::Global;
use std::marker::Model;

/// A list of replies: how many there are, and the parts of all of them in order.
#[derive(Debug, Drop)]
pub struct Replies {
    count: u64,
    parts: Vec<Part>,
}

impl Model for Replies {
    ghost use Rattle.std.specs.Prelude.{◌≤◌, length};
    ghost use Rattle.core_types.specs.Several.{Several};

    ghost Value = { Several };

    ghost view = { λ r. record { count = r.count; parts = r.parts.items } };

    ghost invariant = { λ r. r.count ≤ length r.parts.items };
}

impl Replies {
    ghost use Rattle.core_types.specs.Parts.{parts_of};

    /// No replies. Takes no memory.
    pub fn new(alloc: Global) -> Replies
        ensures count { result.count ≡ 0 }
        ensures parts { result.parts ≡ [] }
    {
        Replies {
            count: 0,
            parts: Vec::new(alloc),
        }
    }

    /// The number of replies.
    pub fn count(&self) -> u64
        ensures count { result ≡ self.now.count }
    {
        self.count
    }

    /// The parts of the replies, in order.
    pub fn parts(&self) -> &[Part]
        ensures parts { result.now ≡ self.now.parts }
    {
        &self.parts
    }

    /// Adds a reply at the end: the count rises by one, and its parts follow.
    pub fn push(&mut self, reply: Reply) -> Result<(), NoMemory>
        ensures count { OnOk result (self.new.count ≡ self.old.count + 1) }
        ensures parts { OnOk result (self.new.parts ≡ self.old.parts ++ parts_of reply) }
        ensures err { OnErr result (self.new ≡ self.old) }
    {
        push_parts(&mut self.parts, reply)?;
        self.count += 1;
        Ok(())
    }

    /// A second list of the same replies.
    pub fn copy(&self, alloc: Global) -> Result<Replies, NoMemory>
        ensures same { IfOk result (λ replies. replies ≡ self.now) }
    {
        Ok(Replies {
            count: self.count,
            parts: duplicate_items(alloc, &self.parts)?,
        })
    }

    // The count and the parts, for the reply that holds them.
    pub(crate) fn into_parts(self) -> (u64, Vec<Part>)
        ensures count { result.0 ≡ self.count }
        ensures parts { result.1.items ≡ self.parts }
    {
        let Replies { count, parts } = self;
        (count, parts)
    }
}
