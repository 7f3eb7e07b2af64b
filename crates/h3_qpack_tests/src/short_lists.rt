//! Lists of at most two bytes, passed to each call that reads bytes of a peer. `tests/short_lists.py` compares the answers
//! with a plain reading of RFC 9204.

use h3_qpack::coding::Cursor;
use h3_qpack::decoder::{Decoded, Decoder};
use h3_qpack::dynamic::DynamicTable;
use h3_qpack::encoder::Encoder;
use h3_qpack::prefix_string::{self, HuffmanDecodingError};
use h3_qpack::{DecoderError, EncoderError, decode_stateless};
use qpack_testing::cases::{Call, Subject};
use std::alloc::Global;

/// What a call returns, how many bytes it leaves, the capacity and the insertions of the table then, and how many bytes
/// it wrote.
#[derive(Clone, Copy, PartialEq)]
struct Outcome {
    decoder: Result<usize, DecoderError>,
    encoder: Result<(), EncoderError>,
    left: usize,
    capacity: usize,
    inserted: usize,
    written: usize,
}

impl Outcome {
    /// The outcome of a call that neither takes bytes nor changes anything.
    const NOTHING: Outcome = Outcome {
        decoder: Ok(0),
        encoder: Ok(()),
        left: 0,
        capacity: 0,
        inserted: 0,
        written: 0,
    };

    /// Returns the outcome with the state of a table.
    fn with_table(mut self, table: &DynamicTable) -> Outcome {
        self.capacity = table.max_mem_size();
        self.inserted = table.total_inserted();
        self
    }
}

/// Tables of a capacity, and the outcome of the last call.
#[derive(Drop)]
pub(crate) struct ShortLists {
    capacity: usize,
    last: Option<Outcome>,
}

impl Subject for ShortLists {
    fn begin(call: &mut Call<'_>, _size: usize) -> Option<ShortLists> {
        Some(ShortLists {
            capacity: call.count(),
            last: None,
        })
    }

    /// Passes a list of the byte of words, and those of two bytes that begin with it, to the call of a word; or the empty
    /// list. Appends the outcome of each that is not the one before, and its place.
    fn make(&mut self, word: &str, call: &mut Call<'_>) {
        self.last = None;
        let Ok(first) = call.word().parse::<u8>() else {
            self.pass(word, call, 0, b"");
            return;
        };
        self.pass(word, call, 0, &[first]);
        for second in 0..=255u8 {
            self.pass(
                word,
                call,
                usize::from(second).saturating_add(1),
                &[first, second],
            );
        }
    }
}

impl ShortLists {
    /// Passes a list to a call.
    fn pass(&mut self, word: &str, call: &mut Call<'_>, place: usize, bytes: &[u8]) {
        let alloc = call.alloc();
        let outcome = match word {
            "receives" => receive(self.decoder(alloc), bytes, alloc),
            "hears" => hear(Encoder::from(self.table(alloc)), bytes),
            "decodes" => decode(self.decoder(alloc).decode_header(&mut Cursor::new(bytes))),
            _ => decode(decode_stateless(alloc, &mut Cursor::new(bytes), u64::MAX)),
        };
        if self.last != Some(outcome) {
            self.last = Some(outcome);
            show(call, place, outcome);
        }
    }

    /// Makes an empty table.
    fn table(&self, alloc: Global) -> DynamicTable {
        let mut table = DynamicTable::new(alloc);
        table.set_max_size(self.capacity).unwrap_or(());
        table
    }

    /// Makes a decoder over an empty table.
    fn decoder(&self, alloc: Global) -> Decoder {
        Decoder::from(self.table(alloc))
    }
}

/// Passes bytes of the encoder stream to a decoder.
fn receive(decoder: Decoder, bytes: &[u8], alloc: Global) -> Outcome {
    let (mut decoder, mut written) = (decoder, Vec::new(alloc));
    let mut cursor = Cursor::new(bytes);
    let received = decoder.on_encoder_recv(&mut cursor, &mut written);
    let mut outcome = Outcome::NOTHING.with_table(decoder.table());
    outcome.decoder = received.map_err(without_place);
    outcome.left = cursor.remaining();
    outcome.written = written.len();
    outcome
}

/// The error, without the place of missing bits, in whose place stands an error that no call returns.
fn without_place(error: DecoderError) -> DecoderError {
    match error {
        DecoderError::InvalidString(
            prefix_string::Error::HuffmanDecoding(HuffmanDecodingError::MissingBits(_)),
        ) => DecoderError::UnexpectedEnd,
        error => error,
    }
}

/// Passes bytes of the decoder stream to an encoder.
fn hear(encoder: Encoder, bytes: &[u8]) -> Outcome {
    let mut encoder = encoder;
    let mut cursor = Cursor::new(bytes);
    let received = encoder.on_decoder_recv(&mut cursor);
    let mut outcome = Outcome::NOTHING.with_table(encoder.table());
    outcome.encoder = received;
    outcome.left = cursor.remaining();
    outcome
}

/// Returns the outcome of a section: 1, if it has a field, or requires an entry.
fn decode(decoded: Result<Decoded, DecoderError>) -> Outcome {
    let mut outcome = Outcome::NOTHING;
    outcome.decoder = decoded.map(|decoded| usize::from(
        !decoded.fields.is_empty() || decoded.dyn_ref,
    ));
    outcome
}

/// Appends the place of a list, and its outcome.
fn show(call: &mut Call<'_>, place: usize, outcome: Outcome) {
    call.show(&place);
    call.say(" ");
    match outcome.encoder {
        Ok(()) => call.show_parts(&outcome.decoder),
        Err(error) => call.show_parts(&error),
    }
    call.say_number(" ", outcome.left);
    call.say_number(" ", outcome.capacity);
    call.say_number(" ", outcome.inserted);
    call.say_number(" ", outcome.written);
    call.say("; ");
}
