//! Why bytes are no frame.

use core_types::BadRequest;
use effect_log::Reason;

/// Why what a host sent is no frame.
#[derive(Clone, Copy, Debug, PartialEq, Eq)]
pub enum FrameFault {
    /// It is no request, by RESP2.
    Request(BadRequest),
    /// Its words are no frame.
    Shape,
    /// The text of a Unit has a fault of form.
    Text(Reason),
}
