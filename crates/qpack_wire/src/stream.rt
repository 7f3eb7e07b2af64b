//! The instructions of the encoder stream and of the decoder's (RFC 9204, sections 4.3 and 4.4).

pub mod bounded;
pub mod decoder_instructions;
pub mod decoder_stream;
pub mod encoder_instructions;
pub mod encoder_stream;
pub mod lines;

pub use crate::stream::bounded::{BoundedLine, NameSource};
pub use crate::stream::decoder_instructions::{HeaderAck, InsertCountIncrement, StreamCancel};
pub use crate::stream::decoder_stream::{DecoderInstruction, DecoderLine};
pub use crate::stream::encoder_instructions::{
    Duplicate, DynamicTableSizeUpdate, InsertWithNameRef, InsertWithoutNameRef,
};
pub use crate::stream::encoder_stream::{
    EncoderInstruction, EncoderLine, least_field_size, wanted,
};
pub use crate::stream::lines::{Wire, next_line};
