//! What both ends say of settings (RFC 9204, section 5).

use thiserror::Error;

/// Why settings are rejected.
#[derive(Clone, Copy, Debug, PartialEq, Eq, Drop, Error)]
pub enum SettingsError {
    /// The maximum capacity is 2^30 bytes or more.
    #[error("maximum capacity too large")]
    CapacityTooLarge,
    /// The limit of blocked streams is 65,535 or more.
    #[error("limit of blocked streams too large")]
    BlockedTooLarge,
}
