//! The definitions that the whole QPACK layer is proved against, in the words of RFC 9204 and RFC 7541, and the laws on
//! them. The definitions are in `specs/`. Each function here is a law: it does nothing, and its contract is a statement
//! on the definitions, which the check proves.
#![tactic(auto)]

pub mod block;
pub mod form;
pub mod huffman;
pub mod integer;
pub mod static_table;
pub mod stream;
pub mod text;
