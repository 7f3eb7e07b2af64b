//! The decoding end of a QPACK connection (RFC 9204): field sections read strictly, up to a limit, into memory that the
//! caller keeps, and the encoder stream received strictly, however it is cut.
#![tactic(auto)]

pub mod blocked;
pub mod decoder;
pub mod encoder_stream;
pub mod field_section;
pub mod section;
mod unsent;
