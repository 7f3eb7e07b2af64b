//! The text calls: lines of fields to hexadecimal, and hexadecimal to fields.

ghost use Rattle.std.specs.Prelude.{◌≡◌, Some};
ghost use Rattle.hex.specs.Hex.{decode_of};
ghost use Rattle.qpack_spec.specs.Field.{Field};
ghost use Rattle.qpack_base.specs.HeaderFields.{field_of};
ghost use Rattle.qpk_qif.specs.Lines.{field_of_line, lines_of};
ghost use Rattle.qpk.specs.FieldText.{fields_from};
ghost use Rattle.qpk.specs.Answers.{encode_answer, EncodesText, ReadsFields, without_feed, DecodesText};
ghost use Rattle.qpk.specs.Answers.{fault_of_decoder};
ghost use Rattle.qpk.specs.Refusals.{fault_text};
ghost use Rattle.qpk.specs.declared.text.Fault.TheVariants.{Memory};

use crate::error_words::{DecoderWords, RecordingWords};
use crate::lines::{FromLine, read_lines};
use h3_qpack::coding::{Cursor, NoMemory};
use h3_qpack::{Decoded, DecoderError, HeaderField, decode_stateless, encode_stateless};
use hex::FromHexError;
use qpk_qif::lines::split_field;
use qpk_qif::session;
use std::alloc::{AllocError, AllocFailed, Global};
use std::error::Error;
use std::fmt;

/// Why a text was not encoded, decoded or inspected.
#[derive(Debug, PartialEq, Drop)]
pub enum Fault {
    /// The line of this number, counted from 1, has no TAB.
    NoTab(usize),
    /// The line of this number, counted from 1, is no event.
    BadEvent(usize),
    /// The text is no hexadecimal.
    NotHexadecimal,
    /// Bytes were not decoded: those of the text in hexadecimal, or those of an event.
    Refused(DecoderError),
    /// A table may not have this capacity.
    Capacity,
    /// The limit of blocked blocks is too large.
    Limit,
    /// Header lists were not encoded to a recording, or a recording was not decoded.
    Recording(session::Fault),
    /// The input is not what it should be, for this reason.
    Told(String),
    /// No memory was left.
    Memory,
}

impl fmt::Display for Fault {
    ghost output = { λ fault. Some (fault_text fault) };

    fn fmt<W: fmt::Write>(&self, f: &mut fmt::Formatter<W>) -> fmt::Result {
        match self {
            Fault::NoTab(number) => write!(f, "line {number}: no tab"),
            Fault::BadEvent(number) => write!(f, "line {number}: bad event"),
            Fault::NotHexadecimal => f.write_str("not hexadecimal"),
            Fault::Refused(e) => write!(f, "refused: {}", DecoderWords(e)),
            Fault::Capacity => f.write_str("refused: capacity"),
            Fault::Limit => f.write_str("refused: limit"),
            Fault::Recording(e) => write!(f, "{}", RecordingWords(e)),
            Fault::Told(reason) => f.write_str(reason.as_str()),
            Fault::Memory => f.write_str("refused: memory"),
        }
    }
}

impl Error for Fault {}

impl From<session::Fault> for Fault {
    fn from(e: session::Fault) -> Fault {
        match e {
            session::Fault::NoTab(number) => Fault::NoTab(number),
            session::Fault::Capacity => Fault::Capacity,
            session::Fault::Limit => Fault::Limit,
            session::Fault::Memory => Fault::Memory,
            e => Fault::Recording(e),
        }
    }
}

impl From<qpk_view::fault::Fault> for Fault {
    fn from(e: qpk_view::fault::Fault) -> Fault {
        match e {
            qpk_view::fault::Fault::Input(reason) => Fault::Told(reason),
            qpk_view::fault::Fault::Capacity => Fault::Capacity,
            qpk_view::fault::Fault::Memory => Fault::Memory,
        }
    }
}

impl From<AllocError> for Fault {
    ghost from_gives = { λ _ r. r ≡ Memory };

    fn from(_e: AllocError) -> Fault {
        Fault::Memory
    }
}

impl<T: Drop> From<AllocFailed<T>> for Fault {
    ghost from_gives = { λ _ r. r ≡ Memory };

    fn from(_e: AllocFailed<T>) -> Fault {
        Fault::Memory
    }
}

impl From<NoMemory> for Fault {
    ghost from_gives = { λ _ r. r ≡ Memory };

    fn from(_e: NoMemory) -> Fault {
        Fault::Memory
    }
}

impl From<DecoderError> for Fault {
    ghost from_gives = { λ e r. r ≡ fault_of_decoder e };

    fn from(e: DecoderError) -> Fault {
        match e {
            DecoderError::Memory => Fault::Memory,
            e => Fault::Refused(e),
        }
    }
}

/// Returns the stateless block of the fields of the text's lines, `name TAB value` each, in lower-case hexadecimal; or
/// the first line without a TAB.
pub fn encode_text(alloc: Global, text: &[u8]) -> Result<String, Fault>
    ensures { EncodesText result (encode_answer text.now) }
{
    let fields = read_field_lines(alloc, text)?;
    let mut block = Vec::new(alloc);
    let Ok(_size) = encode_stateless(&mut block, fields.iter()) else {
        // It fails for memory only.
        return Err(Fault::Memory);
    };
    Ok(hex::encode(alloc, block.as_slice())?)
}

/// Returns the fields of the text's lines.
fn read_field_lines(alloc: Global, text: &[u8]) -> Result<Vec<HeaderField>, Fault>
    ensures { ReadsFields result (fields_from 1 (lines_of text.now)) }
{
    read_lines(alloc, text)?.map_err(Fault::NoTab)
}

impl FromLine for HeaderField {
    ghost Value = { Field };

    ghost value = { field_of };

    ghost of_line = { field_of_line };

    fn from_line(alloc: Global, line: &[u8]) -> Result<Option<HeaderField>, Fault> {
        let Some((name, value)) = split_field(line) else {
            return Ok(None);
        };
        Ok(Some(HeaderField::from_pair(alloc, name, value)?))
    }
}

/// Returns the fields of the block that the text has in hexadecimal, in either case, with or without a line feed at its
/// end, up to a sum of sizes.
pub fn decode_text(alloc: Global, text: &[u8], max_size: u64) -> Result<Decoded, Fault>
    ensures { DecodesText result max_size (decode_of (without_feed text.now)) }
{
    let digits = text.strip_suffix(b"\n").unwrap_or(text);
    let block = match hex::decode(alloc, digits) {
        Ok(block) => block,
        Err(FromHexError::OutOfMemory) => return Err(Fault::Memory),
        Err(_) => return Err(Fault::NotHexadecimal),
    };
    Ok(decode_stateless(alloc, &mut Cursor::new(&block), max_size)?)
}
