//! What makes a stream of bytes no stream of requests.

ghost use Rattle.std.specs.Prelude.{◌≡◌};
ghost use Rattle.core_types.specs.BadRequest.{number_of};

/// The kinds of bad requests, by RESP2 and the limits of this server.
#[derive(Clone, Copy, Debug, PartialEq, Eq)]
pub enum BadRequest {
    /// The count of an array is no decimal of 64 bits, or above 1,048,576.
    MultibulkLength,
    /// The length of a word is no decimal of 64 bits, is negative, or is above 536,870,912.
    BulkLength,
    /// A word of an array begins with this byte and not with `$`.
    ExpectedDollar(u8),
    /// The first 65,537 bytes of a header hold no CR, or of an inline line no LF.
    LineTooLong,
    /// A header's CR is not followed by LF, or a word's bytes are not followed by CR LF.
    NoLineEnd,
    /// An inline line holds `"` or `'`.
    Quote,
}

impl BadRequest {
    /// The number of the kind, from 1, as the line of a fault gives it.
    pub fn number(self) -> u8
        ensures number { result ≡ number_of self }
    {
        match self {
            BadRequest::MultibulkLength => 1,
            BadRequest::BulkLength => 2,
            BadRequest::ExpectedDollar(_) => 3,
            BadRequest::LineTooLong => 4,
            BadRequest::NoLineEnd => 5,
            BadRequest::Quote => 6,
        }
    }
}
