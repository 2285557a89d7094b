//! Why a client was not subscribed.

/// Why a client was not subscribed. What it has is as it was.
#[derive(Clone, Copy, Debug, PartialEq, Eq)]
pub enum ChannelFault {
    /// The name is new, and the client has 1,024 channels and patterns.
    TooMany,
    /// A pattern has a `[`: classes are not served.
    Class,
    /// Memory ran out.
    Memory,
}
