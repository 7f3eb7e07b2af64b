//! Why a line, a block's prefix or an instruction could not be read.

ghost use Rattle.std.specs.Prelude.{◌≡◌};
ghost use Rattle.qpack_base.specs.ParseErrors.{error_of_string};
ghost use Rattle.qpack_base.specs.declared.parse_error.ParseError.TheVariants.{Integer as BadInteger, Memory as NoRoom};

use crate::coding::NoMemory;
use crate::{prefix_int, prefix_string};
use std::alloc::{AllocError, AllocFailed};
use thiserror::Error;

/// Why a line, a block's prefix or an instruction could not be read.
#[derive(Clone, Copy, Debug, PartialEq, Drop, Error)]
pub enum ParseError {
    /// An integer is too large, or the bytes end within it.
    #[error("could not parse integer: {0}")]
    Integer(prefix_int::Error),
    /// A string is malformed, or the bytes end within it.
    #[error("could not parse string: {0}")]
    String(prefix_string::Error),
    /// The first bits are those of another form: the flags above the prefix, or the whole first byte.
    #[error("invalid prefix: {0}")]
    InvalidPrefix(u8),
    /// The base of a block is below 0; it saturates at the least number.
    #[error("invalid base: {0}")]
    InvalidBase(isize),
    /// No memory was left.
    #[error("out of memory")]
    Memory,
}

impl From<prefix_int::Error> for ParseError {
    ghost from_gives = { λ e r. r ≡ BadInteger e };

    fn from(e: prefix_int::Error) -> ParseError {
        ParseError::Integer(e)
    }
}

impl From<prefix_string::Error> for ParseError {
    ghost from_gives = { λ e r. r ≡ error_of_string e };

    fn from(e: prefix_string::Error) -> ParseError {
        match e {
            prefix_string::Error::Memory | prefix_string::Error::HuffmanEncoding(_) =>
                ParseError::Memory,
            e => ParseError::String(e),
        }
    }
}

impl From<NoMemory> for ParseError {
    ghost from_gives = { λ _ r. r ≡ NoRoom };

    fn from(_e: NoMemory) -> ParseError {
        ParseError::Memory
    }
}

impl From<AllocError> for ParseError {
    ghost from_gives = { λ _ r. r ≡ NoRoom };

    fn from(_e: AllocError) -> ParseError {
        ParseError::Memory
    }
}

impl<T: Drop> From<AllocFailed<T>> for ParseError {
    ghost from_gives = { λ _ r. r ≡ NoRoom };

    fn from(_e: AllocFailed<T>) -> ParseError {
        ParseError::Memory
    }
}
