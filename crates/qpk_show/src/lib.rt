//! A QPACK connection (RFC 9204) as an onlooker sees it, who has the bytes of both streams and the field sections: what
//! each instruction and each line is, where it is, and what it means.
#![tactic(auto)]

pub mod awaited;
pub mod instruction;
pub mod observer;
pub mod section;
pub mod shown;
pub mod stream;
