//! Laws of what both ends do, over the definitions of `qpack_spec`: sessions in bytes, peers that keep to RFC 9204, what
//! a strict end takes, and how sections are written. The crates from `qpack_codec` on use them. No crate below does, so
//! those are proved without waiting for these. Each function here is a law: it does nothing, and its contract is the
//! statement.
#![tactic(auto)]

pub mod block;
pub mod lawful;
pub mod rule;
pub mod session;
pub mod stateless;
pub mod stream;
pub mod table;
pub mod wanted;
pub mod window;
