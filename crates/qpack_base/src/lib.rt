//! The byte layers of QPACK (RFC 9204): a cursor over bytes, integers with a prefix, string literals,
//! header fields and the static table.
#![tactic(auto)]

pub mod bytes;
pub mod coding;
pub mod field;
pub mod parse_error;
pub mod prefix_int;
pub mod prefix_string;
pub mod static_;
pub mod stored_field;
