//! What both ends of a QPACK connection share (RFC 9204): places on a stream, streams that are blocked, errors of settings,
//! and the bytes of a stream that are to be sent.
#![tactic(auto)]

pub mod place;
pub mod room;
pub mod settings;
pub mod streams;
pub mod unsent;
