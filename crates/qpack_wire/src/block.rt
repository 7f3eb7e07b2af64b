//! Encoded field sections: the prefix and the five forms of a line (RFC 9204, section 4.5).

pub mod indexes;
pub mod line;
pub mod literals;
pub mod prefix;
pub mod section;

pub use crate::block::indexes::{Indexed, IndexedWithPostBase};
pub use crate::block::line::{BlockLine, HeaderBlockField, LineParts, Reference, is_never_indexed};
pub use crate::block::literals::{
    LITERAL_SIZE, Literal, LiteralWithNameRef, LiteralWithPostBaseNameRef,
};
pub use crate::block::prefix::HeaderPrefix;
pub use crate::block::section::read_block;
pub use crate::form::VALUE_SIZE;
