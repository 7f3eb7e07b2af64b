//! Why something was not encoded or decoded (RFC 9204, section 6).

ghost use Rattle.std.specs.Prelude.{◌≡◌};
ghost use Rattle.qpack_codec.specs.Errors.{encoder_error_of_table, encoder_error_of_string, encoder_error_of_parse};
ghost use Rattle.qpack_codec.specs.Errors.{decoder_error_of_parse, decoder_error_of_static, decoder_error_of_table};
ghost use Rattle.qpack_codec.specs.Errors.{decoder_error_of_integer, decoder_error_of_string};
ghost use Rattle.qpack_codec.specs.declared.error.DecoderError.TheVariants.{InvalidIndex, Memory};
ghost use Rattle.qpack_codec.specs.declared.error.EncoderError.TheVariants.{Memory as EncoderMemory};

use qpack_base::coding::NoMemory;
use qpack_base::parse_error::ParseError;
use qpack_base::{prefix_int, prefix_string, static_};
use qpack_table::{dynamic, vas};
use std::alloc::{AllocError, AllocFailed};

/// Why fields were not encoded or decoded.
#[derive(Debug, Drop, thiserror::Error)]
pub enum Error {
    /// Why they were not encoded.
    #[error("Encoder {0}")]
    Encoder(EncoderError),
    /// Why they were not decoded.
    #[error("Decoder {0}")]
    Decoder(DecoderError),
}

/// Why fields were not encoded, or an instruction of the decoder was not applied.
#[derive(Clone, Copy, Debug, PartialEq, Drop, thiserror::Error)]
pub enum EncoderError {
    /// The dynamic table rejected the operation.
    #[error("dynamic table insertion: {0:?}")]
    Insertion(dynamic::Error),
    /// A string is bad; kept from the original, and never returned.
    #[error("could not parse string: {0}")]
    InvalidString(prefix_string::Error),
    /// An integer of an instruction is too large, or the bytes end within it.
    #[error("could not parse integer: {0}")]
    InvalidInteger(prefix_int::Error),
    /// First bits are no instruction's; kept from the original, and never returned.
    #[error("got unkown decoder instruction: {0}")]
    UnknownDecoderInstruction(u8),
    /// No memory was left.
    #[error("out of memory")]
    Memory,
}

impl From<dynamic::Error> for EncoderError {
    ghost from_gives = { λ e r. r ≡ encoder_error_of_table e };

    fn from(e: dynamic::Error) -> EncoderError {
        match e {
            dynamic::Error::Memory => EncoderError::Memory,
            e => EncoderError::Insertion(e),
        }
    }
}

impl From<prefix_string::Error> for EncoderError {
    ghost from_gives = { λ e r. r ≡ encoder_error_of_string e };

    fn from(e: prefix_string::Error) -> EncoderError {
        match e {
            prefix_string::Error::Memory | prefix_string::Error::HuffmanEncoding(_) =>
                EncoderError::Memory,
            e => EncoderError::InvalidString(e),
        }
    }
}

impl From<ParseError> for EncoderError {
    ghost from_gives = { λ e r. r ≡ encoder_error_of_parse e };

    fn from(e: ParseError) -> EncoderError {
        match e {
            ParseError::Integer(e) => EncoderError::InvalidInteger(e),
            ParseError::String(e) => EncoderError::from(e),
            ParseError::InvalidPrefix(bits) => EncoderError::UnknownDecoderInstruction(bits),
            ParseError::InvalidBase(_) => {
                EncoderError::InvalidInteger(prefix_int::Error::Overflow)
            }
            ParseError::Memory => EncoderError::Memory,
        }
    }
}

impl From<NoMemory> for EncoderError {
    ghost from_gives = { λ _ r. r ≡ EncoderMemory };

    fn from(_e: NoMemory) -> EncoderError {
        EncoderError::Memory
    }
}

impl From<AllocError> for EncoderError {
    ghost from_gives = { λ _ r. r ≡ EncoderMemory };

    fn from(_e: AllocError) -> EncoderError {
        EncoderError::Memory
    }
}

/// Why a block was not decoded.
#[derive(Clone, Copy, Debug, PartialEq, Drop, thiserror::Error)]
pub enum DecoderError {
    /// An integer of the prefix or of a line is too large, or the bytes end within it.
    #[error("invalid integer: {0}")]
    InvalidInteger(prefix_int::Error),
    /// A string is malformed, or the bytes end within it.
    #[error("invalid string: {0:?}")]
    InvalidString(prefix_string::Error),
    /// An index of the dynamic table references no live entry; kept from the original, and never returned.
    #[error("invalid dynamic index: {0:?}")]
    InvalidIndex(vas::Error),
    /// The dynamic table rejected the operation, or has no entry of an index.
    #[error("dynamic table error: {0:?}")]
    DynamicTable(dynamic::Error),
    /// No field of the static table has this index.
    #[error("unknown static index: {0}")]
    InvalidStaticIndex(usize),
    /// First bits are no line's; kept from the original, and never returned.
    #[error("unknown instruction code: 0x{0}")]
    UnknownPrefix(u8),
    /// The section references entries of the dynamic table that were not received: it requires this many insertions, or
    /// 0 if they could never be received.
    #[error("missing {0} refs to decode bloc")]
    MissingRefs(usize),
    /// The base is below 0; it saturates at the least number.
    #[error("out of bounds base index: {0}")]
    BadBaseIndex(isize),
    /// Kept from the original, and never returned: a block that is cut ends within an integer or a string.
    #[error("unexpected end")]
    UnexpectedEnd,
    /// The sizes of the fields up to one of them sum to this, which passes the limit.
    #[error("header too long")]
    HeaderTooLong(u64),
    /// Kept from the original, and never returned: no number is narrowed.
    #[error("number in buffer wrong size")]
    BufSize,
    /// No memory was left.
    #[error("out of memory")]
    Memory,
}

impl From<ParseError> for DecoderError {
    ghost from_gives = { λ e r. r ≡ decoder_error_of_parse e };

    fn from(e: ParseError) -> DecoderError {
        match e {
            ParseError::Integer(e) => DecoderError::InvalidInteger(e),
            ParseError::String(prefix_string::Error::Memory) => DecoderError::Memory,
            ParseError::String(e) => DecoderError::InvalidString(e),
            ParseError::InvalidPrefix(bits) => DecoderError::UnknownPrefix(bits),
            ParseError::InvalidBase(base) => DecoderError::BadBaseIndex(base),
            ParseError::Memory => DecoderError::Memory,
        }
    }
}

impl From<dynamic::Error> for DecoderError {
    ghost from_gives = { λ e r. r ≡ decoder_error_of_table e };

    fn from(e: dynamic::Error) -> DecoderError {
        match e {
            dynamic::Error::Memory => DecoderError::Memory,
            e => DecoderError::DynamicTable(e),
        }
    }
}

impl From<vas::Error> for DecoderError {
    ghost from_gives = { λ e r. r ≡ InvalidIndex e };

    fn from(e: vas::Error) -> DecoderError {
        DecoderError::InvalidIndex(e)
    }
}

impl From<static_::Error> for DecoderError {
    ghost from_gives = { λ e r. r ≡ decoder_error_of_static e };

    fn from(e: static_::Error) -> DecoderError {
        match e {
            static_::Error::Unknown(index) => DecoderError::InvalidStaticIndex(index),
        }
    }
}

impl From<prefix_int::Error> for DecoderError {
    ghost from_gives = { λ e r. r ≡ decoder_error_of_integer e };

    fn from(e: prefix_int::Error) -> DecoderError {
        match e {
            prefix_int::Error::UnexpectedEnd => DecoderError::UnexpectedEnd,
            e => DecoderError::InvalidInteger(e),
        }
    }
}

impl From<prefix_string::Error> for DecoderError {
    ghost from_gives = { λ e r. r ≡ decoder_error_of_string e };

    fn from(e: prefix_string::Error) -> DecoderError {
        match e {
            prefix_string::Error::UnexpectedEnd => DecoderError::UnexpectedEnd,
            prefix_string::Error::Memory | prefix_string::Error::HuffmanEncoding(_) =>
                DecoderError::Memory,
            e => DecoderError::InvalidString(e),
        }
    }
}

impl From<NoMemory> for DecoderError {
    ghost from_gives = { λ _ r. r ≡ Memory };

    fn from(_e: NoMemory) -> DecoderError {
        DecoderError::Memory
    }
}

impl From<AllocError> for DecoderError {
    ghost from_gives = { λ _ r. r ≡ Memory };

    fn from(_e: AllocError) -> DecoderError {
        DecoderError::Memory
    }
}

impl<T: Drop> From<AllocFailed<T>> for DecoderError {
    ghost from_gives = { λ _ r. r ≡ Memory };

    fn from(_e: AllocFailed<T>) -> DecoderError {
        DecoderError::Memory
    }
}
