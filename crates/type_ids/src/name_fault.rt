//! Why a text is no type name.

use thiserror::Error;

/// Why a text or an id gives no type name, in the order in which the reasons are looked for.
#[derive(Clone, Copy, Debug, PartialEq, Eq, Error)]
pub enum NameFault {
    /// The text has not nine bytes.
    #[error("bad length")]
    BadLength,
    /// The first byte that is no letter stands at this place, counted from 0.
    #[error("bad letter")]
    BadLetter(u8),
    /// The text is `AAAAAAAAA`, or the letters of the id are all `A`.
    #[error("reserved")]
    Reserved,
}
