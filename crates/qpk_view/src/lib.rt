//! What people are shown of QPACK (RFC 9204): a recorded connection in words or as JSON, and bytes with the meaning of their
//! bits.
#![tactic(auto)]

mod bits;
mod digits;
mod entries;
pub mod events;
pub mod explain;
pub mod fault;
mod fields;
mod json;
pub mod place;
mod printing;
pub mod reasons;
mod recording;
pub mod show;
pub mod text;
pub mod view;
pub mod watch;
