//! What calls return: 0, a number below it if the connection goes on after the error, and the code that ends the
//! connection above it (RFC 9204, section 6, and RFC 9114, section 8.1).

ghost use Rattle.std.specs.Prelude.{◌≡◌};
ghost use Rattle.h3_qpack_c.specs.Statuses.{of_encoding, of_decoding, of_section, of_line};

use qpack_ends::{DecodingError, EncodingError, LineError, SectionError};

/// Done.
pub(crate) const DONE: i32 = 0;

/// Out of memory; you can call again.
pub(crate) const NO_MEMORY: i32 = -1;

/// The caller's memory is too small; the lengths say how much is needed.
pub(crate) const NO_ROOM: i32 = -2;

/// The section waits for insertions.
pub(crate) const BLOCKED: i32 = -3;

/// An argument is out of its range; nothing was done.
pub(crate) const INVALID: i32 = -4;

/// The sizes of the section's fields sum to more than the limit.
pub(crate) const TOO_LARGE: i32 = -5;

/// The capacity would evict entries that may still be referenced; nothing was done.
pub(crate) const HELD: i32 = -6;

/// The next field of a section that comes in pieces.
pub(crate) const FIELD: i32 = -8;

/// The end of a section that comes in pieces.
pub(crate) const ENDS: i32 = -9;

/// The prefix of a section that comes in pieces; the call is to be made again.
pub(crate) const PREFIX: i32 = -10;

/// QPACK_DECOMPRESSION_FAILED (RFC 9204, section 6).
pub(crate) const DECOMPRESSION_FAILED: i32 = 0x200;

/// QPACK_ENCODER_STREAM_ERROR (RFC 9204, section 6).
pub(crate) const ENCODER_STREAM_ERROR: i32 = 0x201;

/// QPACK_DECODER_STREAM_ERROR (RFC 9204, section 6).
pub(crate) const DECODER_STREAM_ERROR: i32 = 0x202;

/// H3_SETTINGS_ERROR (RFC 9114, section 8.1).
pub(crate) const SETTINGS_ERROR: i32 = 0x109;

/// Returns the status of an error of an encoding end.
pub(crate) fn status_of_encoding(error: &EncodingError) -> i32
    ensures { result ≡ of_encoding error.now }
{
    match error {
        EncodingError::DecoderStream(_) | EncodingError::MaximumChanged => DECODER_STREAM_ERROR,
        EncodingError::LimitLowered => SETTINGS_ERROR,
        EncodingError::CapacityTooLarge
        | EncodingError::MaximumTooLarge
        | EncodingError::NoStream(_) => INVALID,
        EncodingError::EntriesHeld => HELD,
        EncodingError::Memory => NO_MEMORY,
    }
}

/// Returns the status of an error of a decoding end.
pub(crate) fn status_of_decoding(error: &DecodingError) -> i32
    ensures { result ≡ of_decoding error.now }
{
    match error {
        DecodingError::EncoderStream { .. } => ENCODER_STREAM_ERROR,
        DecodingError::Section { error, .. } => status_of_section(error),
        DecodingError::TooManyBlocked(_) => DECOMPRESSION_FAILED,
        DecodingError::NoStream(_) => INVALID,
        DecodingError::Memory => NO_MEMORY,
    }
}

/// Returns the status of an error of a section.
pub(crate) fn status_of_section(error: &SectionError) -> i32
    ensures { result ≡ of_section error.now }
{
    match error {
        SectionError::TooLong => TOO_LARGE,
        SectionError::Prefix(_) | SectionError::CountAtZero => DECOMPRESSION_FAILED,
        SectionError::Line { error, .. } => status_of_line(error),
        SectionError::Memory => NO_MEMORY,
    }
}

/// Returns the status of an error of a line.
pub(crate) fn status_of_line(error: &LineError) -> i32
    ensures { result ≡ of_line error.now }
{
    match error {
        LineError::Meaningless(_) | LineError::PastRequired(_) => DECOMPRESSION_FAILED,
        LineError::TooLarge(_) => TOO_LARGE,
        LineError::Memory => NO_MEMORY,
    }
}
