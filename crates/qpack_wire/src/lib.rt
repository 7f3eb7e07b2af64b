//! The bytes of QPACK: the lines of an encoded field section with its prefix, and the instructions of
//! the two streams (RFC 9204, sections 4.3 to 4.5).
#![tactic(auto)]

pub mod block;
mod form;
pub mod laws;
pub mod stream;
