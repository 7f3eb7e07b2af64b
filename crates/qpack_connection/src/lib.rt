//! The two ends of a QPACK connection (RFC 9204), on the proved calls of `h3_qpack`, both as one `Connection`, which
//! carries the theorem of two ends, and what they are made of: field sections read strictly, up to a limit, into memory
//! that the caller keeps, and the two instruction streams received strictly, however they are cut.
#![tactic(auto)]

pub mod connection;
pub mod laws;

pub use connection::{
    Connection, ConnectionSettings, Event, Outcome, OwnedFieldLine, RunError, Skip, run,
};
pub use qpack_base::field::FieldLine;
pub use qpack_codec::encoder::{AsField, Wish, WishedField};
pub use qpack_ends::blocked::BlockedStream;
pub use qpack_ends::decoder::{ConnectionDecoder, DecoderSettings, DecodingError, SettingsError};
pub use qpack_ends::decoder_stream::{
    DECODER_STREAM_ERROR, DecoderStream, DecoderStreamError, HearingError,
};
pub use qpack_ends::encoder::{ConnectionEncoder, EncoderSettings, EncodingError};
pub use qpack_ends::encoder_stream::{
    ENCODER_STREAM_ERROR, EncoderStream, EncoderStreamError, Place,
};
pub use qpack_ends::field_section::{FieldSection, Fields};
pub use qpack_ends::section::{
    DECOMPRESSION_FAILED, LineError, Reading, SectionError, longest_section, read_section,
};
pub use qpack_ends::{
    blocked, decoder, decoder_stream, encoder, encoder_stream, field_section, section,
};
