//! Streams: their numbers, and those that are blocked.

/// The least invalid stream number (RFC 9000, section 2.1).
pub const STREAMS: u64 = 1 << 62;

/// A stream that is blocked. Of two, the one that waits for fewer insertions comes first.
#[derive(Clone, Copy, Debug, PartialEq, Eq, PartialOrd, Ord, Drop)]
pub struct BlockedStream {
    /// How many insertions must be received before its section can be decoded.
    pub required: usize,
    /// Its number.
    pub stream: u64,
}
