//! Calls that begin an end or need none, and texts of errors that occur in no case.

use crate::{decoder, encoder};
use qpack_ends::decoder::{ConnectionDecoder, DecodingError, SettingsError};
use qpack_ends::encoder::{ConnectionEncoder, EncodingError};
use qpack_ends::{
    DECODER_STREAM_ERROR, DECOMPRESSION_FAILED, ENCODER_STREAM_ERROR, EncoderStreamError,
    LineError, SectionError, longest_section,
};
use qpack_testing::cases::{Call, Subject};

/// Calls.
#[derive(Drop)]
pub(crate) struct Calls;

impl Subject for Calls {
    fn begin(_call: &mut Call<'_>, _size: usize) -> Option<Calls> {
        Some(Calls)
    }

    fn make(&mut self, word: &str, call: &mut Call<'_>) {
        match word {
            "begins-decoder" => begin_decoder(call),
            "begins-encoder" => begin_encoder(call),
            "longest-section" => {
                let limit = call.number();
                call.show(&longest_section(limit));
            }
            "codes" => show_codes(call),
            "lacks-memory" => show_lack_of_memory(call),
            _ => call.fail("there is no such call"),
        }
    }
}

/// Begins a decoding end with the settings of words.
fn begin_decoder(call: &mut Call<'_>) {
    let settings = decoder::read_settings(call);
    show_begun(call, ConnectionDecoder::new(call.alloc(), settings).err());
}

/// Begins an encoding end with the settings of words.
fn begin_encoder(call: &mut Call<'_>) {
    let settings = encoder::read_settings(call);
    show_begun(call, ConnectionEncoder::new(call.alloc(), settings).err());
}

/// Appends that an end begins, or why its settings are refused.
fn show_begun(call: &mut Call<'_>, refusal: Option<SettingsError>) {
    match refusal {
        None => call.say("begins"),
        Some(error) => call.show_refusal(None, &error),
    }
}

/// Appends the codes of the errors that end a connection.
fn show_codes(call: &mut Call<'_>) {
    for code in [
        DECOMPRESSION_FAILED,
        ENCODER_STREAM_ERROR,
        DECODER_STREAM_ERROR,
    ] {
        if !call.answer().is_empty() {
            call.say(" ");
        }
        call.show_code(code);
    }
}

/// Appends the error of a call that was refused memory.
fn show_lack_of_memory(call: &mut Call<'_>) {
    match call.word() {
        "section" => call.show_refusal(SectionError::Memory.code(), &SectionError::Memory),
        "line" => call.show_refusal(LineError::Memory.code(), &LineError::Memory),
        "encoder-stream" => {
            call.show_refusal(
                EncoderStreamError::Memory.code(),
                &EncoderStreamError::Memory,
            );
        }
        "decoder" => call.show_refusal(DecodingError::Memory.code(), &DecodingError::Memory),
        "encoder" => call.show_refusal(EncodingError::Memory.code(), &EncodingError::Memory),
        _ => call.fail("there is no such end or stream"),
    }
}
