//! QPACK, the header compression of HTTP/3 (RFC 9204). Depend on this crate alone: it re-exports the modules of the
//! crates below under their names.
#![tactic(auto)]

pub mod session;

pub use qpack_base::field::HeaderField;
pub use qpack_base::{coding, field, parse_error, prefix_int, prefix_string, static_};
pub use qpack_codec::decoder::Decoded;
pub use qpack_codec::error::{DecoderError, EncoderError, Error};
pub use qpack_codec::stateless::{decode_stateless, encode_stateless};
pub use qpack_codec::{decoder, encoder, error, stateless};
pub use qpack_table::{dynamic, vas};
pub use qpack_wire::{block, stream};
