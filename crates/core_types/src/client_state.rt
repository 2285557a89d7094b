//! Where a client stands.

/// Whether a client is there, and whether it is still served.
#[derive(Clone, Copy, Debug, PartialEq, Eq)]
pub enum ClientState {
    /// It never joined, or is gone.
    Absent,
    /// Its requests are served.
    Connected,
    /// Its requests are no longer served. It still gets what it was answered.
    Closing,
}
