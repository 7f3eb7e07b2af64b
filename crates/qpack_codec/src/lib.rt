//! Field sections and instructions over a dynamic table (RFC 9204): what the ends of a connection, and the calls of h3's
//! names, encode and decode with.
#![tactic(auto)]

pub mod decoder;
pub mod encoder;
pub mod error;
pub mod laws;
pub mod stateless;

pub use decoder::Decoded;
pub use error::{DecoderError, EncoderError, Error};
pub use stateless::{decode_stateless, encode_stateless};
