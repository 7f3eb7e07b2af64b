//! Header lists in QIF, the text of QPACK's offline interop, and recordings of its format: lists encoded to a recording
//! and a recording decoded to lists (RFC 9204).
#![tactic(auto)]

pub mod lines;
pub mod lists;
pub mod recording;
pub mod session;
