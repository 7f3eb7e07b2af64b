//! The words of errors, each beside those that its own `Display` prints: an answer has the same on both sides.

use h3_qpack::coding::NoMemory;
use h3_qpack::dynamic::Error as TableError;
use h3_qpack::prefix_int::Error as IntegerError;
use h3_qpack::prefix_string::{
    BitWindow, Error as StringError, HuffmanDecodingError, HuffmanEncodingError,
};
use h3_qpack::vas::Error as AddressError;
use h3_qpack::{DecoderError, EncoderError};
use qpack_testing::cases::{Call, Subject};
use qpk::error_words::{DecoderWords, EncoderWords, MEMORY, RecordingWords};
use qpk::text;
use qpk_qif::lists::ListFault;
use qpk_qif::session;
use std::fmt::Display;

const WINDOW: BitWindow = BitWindow {
    byte: 3,
    bit: 5,
    count: 30,
};

const STRINGS: [StringError; 7] = [
    StringError::UnexpectedEnd,
    StringError::Integer(IntegerError::Overflow),
    StringError::HuffmanDecoding(HuffmanDecodingError::MissingBits(WINDOW)),
    StringError::HuffmanDecoding(HuffmanDecodingError::Unhandled(WINDOW, 7)),
    StringError::HuffmanEncoding(HuffmanEncodingError),
    StringError::BufSize,
    StringError::Memory,
];

const TABLES: [TableError; 10] = [
    TableError::BadRelativeIndex(5),
    TableError::BadPostbaseIndex(6),
    TableError::BadIndex(0),
    TableError::MaxTableSizeReached,
    TableError::MaximumTableSizeTooLarge,
    TableError::MaxBlockedStreamsTooLarge,
    TableError::UnknownStreamId(8),
    TableError::NoTrackingData,
    TableError::InvalidTrackingCount,
    TableError::Memory,
];

const DECODERS: [DecoderError; 13] = [
    DecoderError::InvalidInteger(IntegerError::Overflow),
    DecoderError::InvalidInteger(IntegerError::UnexpectedEnd),
    DecoderError::InvalidIndex(AddressError::RelativeIndex(1)),
    DecoderError::InvalidIndex(AddressError::PostbaseIndex(2)),
    DecoderError::InvalidIndex(AddressError::Index(3)),
    DecoderError::InvalidStaticIndex(99),
    DecoderError::UnknownPrefix(255),
    DecoderError::MissingRefs(10),
    DecoderError::BadBaseIndex(-12),
    DecoderError::UnexpectedEnd,
    DecoderError::HeaderTooLong(80),
    DecoderError::BufSize,
    DecoderError::Memory,
];

const ENCODERS: [EncoderError; 4] = [
    EncoderError::InvalidInteger(IntegerError::Overflow),
    EncoderError::InvalidInteger(IntegerError::UnexpectedEnd),
    EncoderError::UnknownDecoderInstruction(192),
    EncoderError::Memory,
];

const RECORDINGS: [session::Fault; 11] = [
    session::Fault::NoTab(7),
    session::Fault::TooLong(2),
    session::Fault::NotHeard(3, EncoderError::Memory),
    session::Fault::Cut(4),
    session::Fault::Refused(5, DecoderError::MissingRefs(10)),
    session::Fault::TooManyBlocked(6),
    session::Fault::BlockedToTheEnd(8),
    session::Fault::EndsWithin(9),
    session::Fault::Capacity,
    session::Fault::Limit,
    session::Fault::Memory,
];

const TEXTS: [text::Fault; 5] = [
    text::Fault::NoTab(7),
    text::Fault::BadEvent(7),
    text::Fault::NotHexadecimal,
    text::Fault::Refused(DecoderError::UnexpectedEnd),
    text::Fault::Limit,
];

/// The words of errors. There are no settings.
#[derive(Drop)]
pub(crate) struct Words;

impl Subject for Words {
    fn begin(_call: &mut Call<'_>, _size: usize) -> Option<Words> {
        Some(Words)
    }

    /// A call is the kind of an error, and its place.
    fn make(&mut self, word: &str, call: &mut Call<'_>) {
        let place = call.count();
        match word {
            "decoder" => show_of_decoder(call, DECODERS.get(place)),
            "encoder" => show_of_encoder(call, ENCODERS.get(place)),
            "string" => show_of_string(call, STRINGS.get(place)),
            "table" => show_of_table(call, TABLES.get(place)),
            "recording" => show_of_recording(call, RECORDINGS.get(place)),
            _ => show_other(word, place, call),
        }
    }
}

/// Appends words, and what an error is printed as.
fn show_both<W: Display, E: Display>(call: &mut Call<'_>, words: &W, error: &E) {
    call.show(words);
    call.say(" = ");
    call.show(error);
}

/// Appends the words of a decoder's error.
fn show_of_decoder(call: &mut Call<'_>, error: Option<&DecoderError>) {
    match error {
        Some(error) => show_both(call, &DecoderWords(error), error),
        None => call.fail("there is no such error"),
    }
}

/// Appends the words of an encoder's error.
fn show_of_encoder(call: &mut Call<'_>, error: Option<&EncoderError>) {
    match error {
        Some(error) => show_both(call, &EncoderWords(error), error),
        None => call.fail("there is no such error"),
    }
}

/// Appends the words of an error of a string, by a decoder and by an encoder.
fn show_of_string(call: &mut Call<'_>, error: Option<&StringError>) {
    let error = error.copied().unwrap_or(StringError::Memory);
    show_of_decoder(call, Some(&DecoderError::InvalidString(error)));
    call.say("; ");
    show_of_encoder(call, Some(&EncoderError::InvalidString(error)));
}

/// Appends the words of an error of a table, by a decoder and by an encoder.
fn show_of_table(call: &mut Call<'_>, error: Option<&TableError>) {
    let error = error.copied().unwrap_or(TableError::Memory);
    show_of_decoder(call, Some(&DecoderError::DynamicTable(error)));
    call.say("; ");
    show_of_encoder(call, Some(&EncoderError::Insertion(error)));
}

/// Appends the words of a fault of a recording.
fn show_of_recording(call: &mut Call<'_>, fault: Option<&session::Fault>) {
    match fault {
        Some(fault) => show_both(call, &RecordingWords(fault), fault),
        None => call.fail("there is no such fault"),
    }
}

/// Appends the words of a fault of a text, of a list, or of memory.
fn show_other(word: &str, place: usize, call: &mut Call<'_>) {
    match (word, TEXTS.get(place)) {
        ("text", Some(fault)) => call.show(fault),
        ("list", _) => call.show(&ListFault::NoTab(place)),
        ("memory", _) => show_both(call, &MEMORY, &NoMemory),
        _ => call.fail("there are no such words"),
    }
}
