//! The encoding end of a QPACK connection (RFC 9204): it chooses what is inserted and referenced, and receives the decoder
//! stream strictly, however it is cut.
#![tactic(auto)]

mod at_risk;
mod choosing;
pub mod decoder_stream;
pub mod encoder;
mod unsent;
