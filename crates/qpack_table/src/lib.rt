//! The dynamic table of QPACK (RFC 9204, section 3.2): the indexes that reference its entries, and the table as a
//! decoder and an encoder use it.
#![tactic(auto)]

pub mod dynamic;
pub mod laws;
pub mod vas;
