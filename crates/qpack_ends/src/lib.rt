//! The two ends of a QPACK connection (RFC 9204). Depend on this crate alone: it re-exports the modules of `qpack_encoding`
//! and `qpack_decoding`, of which neither uses the other.
#![tactic(auto)]

pub use qpack_base::coding::Cursor;
pub use qpack_base::field::FieldLine;
pub use qpack_codec::encoder::{AsField, Wish, WishedField};
pub use qpack_decoding::blocked::BlockedStream;
pub use qpack_decoding::decoder::{
    ConnectionDecoder, DecoderSettings, DecodingError, SettingsError,
};
pub use qpack_decoding::encoder_stream::{
    ENCODER_STREAM_ERROR, EncoderStream, EncoderStreamError, Place,
};
pub use qpack_decoding::field_section::{FieldSection, Fields, PlacedField};
pub use qpack_decoding::section::reader::{Progress, SectionReader};
pub use qpack_decoding::section::{
    DECOMPRESSION_FAILED, LineError, Reading, SectionError, SectionPrefix, longest_section,
    read_prefix, read_section,
};
pub use qpack_decoding::{blocked, decoder, encoder_stream, field_section, section};
pub use qpack_encoding::decoder_stream::{
    DECODER_STREAM_ERROR, DecoderStream, DecoderStreamError, HearingError,
};
pub use qpack_encoding::encoder::{ConnectionEncoder, EncoderSettings, EncodingError};
pub use qpack_encoding::{decoder_stream, encoder};
pub use qpack_shared::room;
