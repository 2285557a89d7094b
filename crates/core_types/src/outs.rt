//! Replies with their clients.

use crate::{Duplicate, NoMemory, Reply, Sequence};
use std::alloc::Global;

/// One reply, and who gets it.
#[derive(Debug, Drop)]
pub struct Out {
    /// The number of the client.
    pub client: u64,
    /// The reply.
    pub reply: Reply,
}

/// The replies of an event, in order.
pub type Outs = Sequence<Out>;

impl Duplicate for Out {
    fn duplicate(&self, alloc: Global) -> Result<Out, NoMemory> {
        Ok(Out {
            client: self.client,
            reply: self.reply.copy(alloc)?,
        })
    }
}
