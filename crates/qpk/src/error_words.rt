//! The words of errors, as they are printed: those of their own `Display`, which promises no text.

ghost use Rattle.std.specs.Prelude.{◌≡◌, ◌++◌, Some};
ghost use Rattle.std.specs.Fmt.{decimal};
ghost use Rattle.qpk.specs.ErrorWords.{decoder_words, encoder_words, integer_words, integer_name, string_words};
ghost use Rattle.qpk.specs.ErrorWords.{string_name, huffman_name, window_name, table_name, address_name};
ghost use Rattle.qpk.specs.ErrorWords.{counted_words, recording_words, TellsAlone};

use h3_qpack::prefix_string::{BitWindow, HuffmanDecodingError};
use h3_qpack::{DecoderError, EncoderError, dynamic, prefix_int, prefix_string, vas};
use qpk_qif::session;
use std::fmt;

/// No memory was left.
pub const MEMORY: &str = "out of memory";

/// Why a block was not decoded, or an instruction of the encoder not applied.
#[derive(Clone, Copy)]
pub struct DecoderWords<'a>(pub &'a DecoderError);

impl fmt::Display for DecoderWords<'_> {
    ghost output = { λ words. Some (decoder_words words.0.now) };

    fn fmt<W: fmt::Write>(&self, f: &mut fmt::Formatter<W>) -> fmt::Result {
        match self.0 {
            DecoderError::InvalidInteger(e) => write!(f, "invalid integer: {}", integer_words(e)),
            DecoderError::InvalidString(e) => write!(f, "invalid string: {}", StringName(e)),
            DecoderError::InvalidIndex(e) => write!(
                f,
                "invalid dynamic index: {}",
                address_name(e)
            ),
            DecoderError::DynamicTable(e) => write!(f, "dynamic table error: {}", table_name(e)),
            DecoderError::BadBaseIndex(base) => write!(f, "out of bounds base index: {base}"),
            _ => write!(f, "{}", lone_words(self.0)),
        }
    }
}

/// Returns the words of an error that contains no other error, nor a base.
fn lone_words(e: &DecoderError) -> Words
    ensures { TellsAlone e.now (counted_words result.front.now result.number result.back.now) }
{
    match e {
        DecoderError::InvalidStaticIndex(index) => {
            counted("unknown static index: ", *index as u64, "")
        }
        DecoderError::UnknownPrefix(bits) => {
            counted("unknown instruction code: 0x", *bits as u64, "")
        }
        DecoderError::MissingRefs(required) => {
            counted("missing ", *required as u64, " refs to decode bloc")
        }
        DecoderError::UnexpectedEnd => plain("unexpected end"),
        DecoderError::HeaderTooLong(_) => plain("header too long"),
        DecoderError::BufSize => plain("number in buffer wrong size"),
        _ => plain(MEMORY),
    }
}

/// Why header lists were not encoded to a recording, or a recording was not decoded.
#[derive(Clone, Copy)]
pub struct RecordingWords<'a>(pub &'a session::Fault);

impl fmt::Display for RecordingWords<'_> {
    ghost output = { λ words. Some (recording_words words.0.now) };

    fn fmt<W: fmt::Write>(&self, f: &mut fmt::Formatter<W>) -> fmt::Result {
        match self.0 {
            session::Fault::NoTab(number) => write!(f, "line {number}: no tab"),
            session::Fault::TooLong(number) => write!(f, "list {number}: too long for a record"),
            session::Fault::NotHeard(number, e) => write!(f, "list {number}: {}", EncoderWords(e)),
            session::Fault::Cut(number) => write!(f, "record {number}: cut off"),
            session::Fault::Refused(number, e) => write!(f, "record {number}: {}", DecoderWords(e)),
            session::Fault::TooManyBlocked(number) => {
                write!(f, "record {number}: too many streams are blocked")
            }
            session::Fault::BlockedToTheEnd(number) => {
                write!(f, "record {number}: blocked to the end")
            }
            session::Fault::EndsWithin(number) => {
                write!(f, "record {number}: ends within an instruction")
            }
            session::Fault::Capacity => f.write_str("capacity too large"),
            session::Fault::Limit => f.write_str("limit of blocked streams too large"),
            session::Fault::Memory => f.write_str(MEMORY),
        }
    }
}

/// Why fields were not encoded, a capacity not set, or an instruction of the decoder not applied.
#[derive(Clone, Copy)]
pub struct EncoderWords<'a>(pub &'a EncoderError);

impl fmt::Display for EncoderWords<'_> {
    ghost output = { λ words. Some (encoder_words words.0.now) };

    fn fmt<W: fmt::Write>(&self, f: &mut fmt::Formatter<W>) -> fmt::Result {
        match self.0 {
            EncoderError::Insertion(e) => write!(f, "dynamic table insertion: {}", table_name(e)),
            EncoderError::InvalidString(e) => write!(
                f,
                "could not parse string: {}",
                StringWords(e)
            ),
            EncoderError::InvalidInteger(e) => {
                write!(f, "could not parse integer: {}", integer_words(e))
            }
            EncoderError::UnknownDecoderInstruction(bits) => {
                write!(f, "got unkown decoder instruction: {bits}")
            }
            EncoderError::Memory => f.write_str(MEMORY),
        }
    }
}

/// Returns the words of an integer that could not be read.
fn integer_words(e: &prefix_int::Error) -> &'static str
    ensures { result.now ≡ integer_words e.now }
{
    match e {
        prefix_int::Error::Overflow => "value overflow",
        prefix_int::Error::UnexpectedEnd => "unexpected end",
    }
}

/// Returns the name of an integer that could not be read.
fn integer_name(e: &prefix_int::Error) -> &'static str
    ensures { result.now ≡ integer_name e.now }
{
    match e {
        prefix_int::Error::Overflow => "Overflow",
        prefix_int::Error::UnexpectedEnd => "UnexpectedEnd",
    }
}

/// A string that could not be read.
#[derive(Clone, Copy)]
struct StringWords<'a>(&'a prefix_string::Error);

impl fmt::Display for StringWords<'_> {
    ghost output = { λ words. Some (string_words words.0.now) };

    fn fmt<W: fmt::Write>(&self, f: &mut fmt::Formatter<W>) -> fmt::Result {
        match self.0 {
            prefix_string::Error::UnexpectedEnd => f.write_str("unexpected end"),
            prefix_string::Error::Integer(e) => {
                write!(f, "could not parse integer: {}", integer_words(e))
            }
            prefix_string::Error::HuffmanDecoding(e) => {
                write!(f, "Huffman decode failed: {}", HuffmanName(e))
            }
            prefix_string::Error::HuffmanEncoding(_) => {
                f.write_str("Huffman encode failed: HuffmanEncodingError")
            }
            prefix_string::Error::BufSize => f.write_str("number in buffer wrong size"),
            prefix_string::Error::Memory => f.write_str(MEMORY),
        }
    }
}

/// A string that could not be read, by its name.
#[derive(Clone, Copy)]
struct StringName<'a>(&'a prefix_string::Error);

impl fmt::Display for StringName<'_> {
    ghost output = { λ name. Some (string_name name.0.now) };

    fn fmt<W: fmt::Write>(&self, f: &mut fmt::Formatter<W>) -> fmt::Result {
        match self.0 {
            prefix_string::Error::UnexpectedEnd => f.write_str("UnexpectedEnd"),
            prefix_string::Error::Integer(e) => write!(f, "Integer({})", integer_name(e)),
            prefix_string::Error::HuffmanDecoding(e) => {
                write!(f, "HuffmanDecoding({})", HuffmanName(e))
            }
            prefix_string::Error::HuffmanEncoding(_) => {
                f.write_str("HuffmanEncoding(HuffmanEncodingError)")
            }
            prefix_string::Error::BufSize => f.write_str("BufSize"),
            prefix_string::Error::Memory => f.write_str("Memory"),
        }
    }
}

/// A malformed Huffman coded payload.
#[derive(Clone, Copy)]
struct HuffmanName<'a>(&'a HuffmanDecodingError);

impl fmt::Display for HuffmanName<'_> {
    ghost output = { λ name. Some (huffman_name name.0.now) };

    fn fmt<W: fmt::Write>(&self, f: &mut fmt::Formatter<W>) -> fmt::Result {
        match self.0 {
            HuffmanDecodingError::MissingBits(window) => {
                write!(f, "MissingBits({})", WindowName(window))
            }
            HuffmanDecodingError::Unhandled(window, code) => {
                write!(f, "Unhandled({}, {})", WindowName(window), code)
            }
        }
    }
}

/// A position in a payload, and how many bits are meant.
#[derive(Clone, Copy)]
struct WindowName<'a>(&'a BitWindow);

impl fmt::Display for WindowName<'_> {
    ghost output = { λ name. Some (window_name name.0.now) };

    fn fmt<W: fmt::Write>(&self, f: &mut fmt::Formatter<W>) -> fmt::Result {
        let BitWindow { byte, bit, count } = self.0;
        write!(
            f,
            "BitWindow {{ byte: {byte}, bit: {bit}, count: {count} }}"
        )
    }
}

/// Returns the name of what the dynamic table refused.
fn table_name(e: &dynamic::Error) -> Words
    ensures { counted_words result.front.now result.number result.back.now ≡ table_name e.now }
{
    match e {
        dynamic::Error::BadRelativeIndex(index) => counted("BadRelativeIndex(", *index as u64, ")"),
        dynamic::Error::BadPostbaseIndex(index) => counted("BadPostbaseIndex(", *index as u64, ")"),
        dynamic::Error::BadIndex(position) => counted("BadIndex(", *position as u64, ")"),
        dynamic::Error::MaxTableSizeReached => plain("MaxTableSizeReached"),
        dynamic::Error::MaximumTableSizeTooLarge => plain("MaximumTableSizeTooLarge"),
        dynamic::Error::MaxBlockedStreamsTooLarge => plain("MaxBlockedStreamsTooLarge"),
        dynamic::Error::UnknownStreamId(stream) => counted("UnknownStreamId(", *stream, ")"),
        dynamic::Error::NoTrackingData => plain("NoTrackingData"),
        dynamic::Error::InvalidTrackingCount => plain("InvalidTrackingCount"),
        dynamic::Error::Memory => plain("Memory"),
    }
}

/// Returns the name of the kind of an index of no live entry.
fn address_name(e: &vas::Error) -> Words
    ensures { counted_words result.front.now result.number result.back.now ≡ address_name e.now }
{
    match e {
        vas::Error::RelativeIndex(index) => counted("RelativeIndex(", *index as u64, ")"),
        vas::Error::PostbaseIndex(index) => counted("PostbaseIndex(", *index as u64, ")"),
        vas::Error::Index(position) => counted("Index(", *position as u64, ")"),
    }
}

/// Words, followed by a number and more words, if there is one.
#[derive(Clone, Copy)]
struct Words {
    front: &'static str,
    number: Option<u64>,
    back: &'static str,
}

impl fmt::Display for Words {
    ghost output = { λ words. Some (counted_words words.front.now words.number words.back.now) };

    fn fmt<W: fmt::Write>(&self, f: &mut fmt::Formatter<W>) -> fmt::Result {
        match self.number {
            Some(number) => write!(f, "{}{}{}", self.front, number, self.back),
            None => f.write_str(self.front),
        }
    }
}

/// Words without a number.
fn plain(words: &'static str) -> Words
    ensures { counted_words result.front.now result.number result.back.now ≡ words.now }
{
    Words {
        front: words,
        number: None,
        back: "",
    }
}

/// Words with a number.
fn counted(front: &'static str, number: u64, back: &'static str) -> Words
    ensures { counted_words result.front.now result.number result.back.now ≡ front.now ++ decimal number ++ back.now }
{
    Words {
        front,
        number: Some(number),
        back,
    }
}
