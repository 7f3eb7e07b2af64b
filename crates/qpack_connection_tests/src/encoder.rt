//! The encoding end of a connection.

use crate::answers::{must_be_done, show_count, show_done, show_failure, show_reading};
use h3_qpack::coding::Cursor;
use h3_qpack::encoder::AsField;
use qpack_ends::decoder::{ConnectionDecoder, DecoderSettings, DecodingError};
use qpack_ends::encoder::{ConnectionEncoder, EncoderSettings, EncodingError};
use qpack_ends::{FieldLine, FieldSection, Reading, Wish, WishedField};
use qpack_testing::cases::{Call, Field, Subject};
use std::alloc::Global;

/// An encoding end, the last section that it encoded, and the decoding end of its peer with what that decoded last.
#[derive(Drop)]
pub(crate) struct Encoder {
    end: ConnectionEncoder,
    section: Vec<u8>,
    peer: ConnectionDecoder,
    fields: FieldSection,
    /// Whether header fields are passed, which have no marks.
    is_of_header_fields: bool,
    size: usize,
}

/// The greatest limit of blocked streams that a decoding end may have.
const MOST_BLOCKED: usize = 65_534;

/// What the marks of cases ask.
const WISHES: [Wish; 4] = [Wish::Unmarked, Wish::Never, Wish::Reuse, Wish::Insert];

impl Subject for Encoder {
    fn begin(call: &mut Call<'_>, size: usize) -> Option<Encoder> {
        let settings = read_settings(call);
        let is_of_header_fields = call.word() == "of-header-fields";
        let peer = peer_of(call.alloc(), settings)?;
        Some(Encoder {
            end: ConnectionEncoder::new(call.alloc(), settings).ok()?,
            section: Vec::new(call.alloc()),
            peer,
            fields: FieldSection::new(call.alloc()),
            is_of_header_fields,
            size,
        })
    }

    fn make(&mut self, word: &str, call: &mut Call<'_>) {
        match word {
            "encodes" | "fills" | "passes" => self.call_with_fields(word, call),
            "hands-on" => self.hand_on(call),
            "decodes-alone" => decode_alone(call, &self.section),
            "receives" => self.receive(call),
            "takes-settings" => self.take_settings(call),
            "sets" => {
                let set = self.end.set_capacity(call.count());
                show_done(call, &set);
            }
            "shrinks" => {
                let set = self.end.shrink(call.count());
                show_done(call, &set);
            }
            "drops" => {
                self.end.sent(call.count());
                call.show_bytes(self.end.encoder_stream());
            }
            "writes" => call.show_bytes(&self.section),
            "holds" => call.show_bytes(self.end.encoder_stream()),
            _ => self.show_state(word, call),
        }
    }

    fn calls_that_can_fail() -> &'static [&'static str] {
        &[
            "encodes 0 | a = \"\"",
            "encodes 4611686018427387904 | n = \"\"",
            "sets 4097",
            "shrinks 0",
            "takes-settings 4096 16",
            "receives 01",
            "receives nothing",
        ]
    }
}

/// A seed of the table's hashes, on which no byte depends.
const SEED: u64 = 0x5EED;

/// The settings of words.
pub(crate) fn read_settings(call: &mut Call<'_>) -> EncoderSettings {
    EncoderSettings {
        max_capacity: call.count(),
        max_blocked: call.count(),
        capacity: call.count(),
        most_unacknowledged: call.count(),
        seed: SEED,
    }
}

/// Appends the capacity that waits, if one does.
fn show_pending(call: &mut Call<'_>, pending: Option<usize>) {
    match pending {
        Some(capacity) => call.show(&capacity),
        None => call.say("none"),
    }
}

/// A decoding end that sent these settings.
fn peer_of(alloc: Global, settings: EncoderSettings) -> Option<ConnectionDecoder> {
    let of_peer = DecoderSettings {
        max_capacity: settings.max_capacity,
        max_blocked: settings.max_blocked.min(MOST_BLOCKED),
        max_section_size: 1_000_000,
    };
    ConnectionDecoder::new(alloc, of_peer).ok()
}

/// Appends what a section is decoded to with no table at all.
fn decode_alone(call: &mut Call<'_>, section: &[u8]) {
    let peer = peer_of(call.alloc(), EncoderSettings::new(0, 0));
    call.holds(peer.is_some(), "no end without a table");
    if let Some(mut peer) = peer {
        decode_by(call, &mut peer, section);
    }
}

/// Appends what an end decodes a section to.
fn decode_by(call: &mut Call<'_>, end: &mut ConnectionDecoder, section: &[u8]) {
    let mut fields = FieldSection::new(call.alloc());
    let decoded = end.decode(8, section, &mut fields);
    show_decoded(call, &decoded, &fields);
}

/// Appends what a peer decoded a section to, which it may not refuse.
fn show_decoded(
    call: &mut Call<'_>,
    decoded: &Result<Reading, DecodingError>,
    fields: &FieldSection,
) {
    must_be_done(call, decoded, "the peer refuses a section");
    if let Ok(reading) = decoded {
        show_reading(call, *reading, fields);
    }
}

/// Borrows fields, each with its wish. Their lines have no marks: the wish alone says which is never indexed.
fn wishes_of<'a>(call: &mut Call<'_>, fields: &'a [Field]) -> Vec<WishedField<'a>> {
    let mut wished = Vec::new(call.alloc());
    for field in fields {
        let wish = WishedField {
            line: FieldLine::new(&field.name, &field.value),
            wish: field.mark.among(WISHES),
        };
        if wished.push(wish).is_err() {
            call.lack_memory();
        }
    }
    wished
}

/// Borrows fields that were decoded.
fn lines_of<'a>(call: &mut Call<'_>, fields: &'a FieldSection) -> Vec<FieldLine<'a>> {
    let mut lines = Vec::new(call.alloc());
    for field in fields.iter() {
        if lines.push(field).is_err() {
            call.lack_memory();
        }
    }
    lines
}

impl Encoder {
    /// Encodes a section in the place of the last one.
    fn encode<H: AsField>(&mut self, stream: u64, fields: &[H]) -> Result<usize, EncodingError> {
        self.section.clear();
        self.end.encode(stream, fields, &mut self.section)
    }

    /// Makes a call for the fields of words, and a stream or a number of streams.
    fn call_with_fields(&mut self, word: &str, call: &mut Call<'_>) {
        let number = call.number();
        if word == "fills" {
            self.fill(number, call);
            return;
        }
        let encoded = self.encode_words(number, call);
        if word == "passes" {
            must_be_done(call, &encoded, "a section is refused");
            self.pass(number, call);
        } else {
            self.show_encoded(&encoded, call);
        }
    }

    /// Encodes the fields of words on a stream, as header fields or as lines.
    fn encode_words(&mut self, stream: u64, call: &mut Call<'_>) -> Result<usize, EncodingError> {
        if self.is_of_header_fields {
            return self.encode(stream, &call.headers());
        }
        let fields = call.fields();
        self.encode(stream, &wishes_of(call, &fields))
    }

    /// Appends how many insertions a section requires, or why it was not encoded.
    fn show_encoded(&self, encoded: &Result<usize, EncodingError>, call: &mut Call<'_>) {
        let is_clean = encoded.is_ok() || self.section.is_empty();
        call.holds(is_clean, "a refused call writes a section");
        show_count(call, encoded);
    }

    /// Encodes the fields of words on each of this many streams, and appends how many insertions the sections require in
    /// all.
    fn fill(&mut self, streams: u64, call: &mut Call<'_>) {
        let fields = call.fields();
        let lines = wishes_of(call, &fields);
        let mut required = 0usize;
        for stream in 0..streams {
            let encoded = self.encode(stream, &lines);
            must_be_done(call, &encoded, "a section is refused");
            required = required.saturating_add(encoded.unwrap_or(0));
        }
        call.show(&required);
    }

    /// Encodes the fields that the peer decoded last on a stream of words, and sends the section.
    fn hand_on(&mut self, call: &mut Call<'_>) {
        let stream = call.number();
        let encoded = self.encode_again(stream, call);
        must_be_done(call, &encoded, "a section is refused");
        self.pass(stream, call);
    }

    /// Encodes the fields that the peer decoded last, as they are borrowed.
    fn encode_again(&mut self, stream: u64, call: &mut Call<'_>) -> Result<usize, EncodingError> {
        let lines = lines_of(call, &self.fields);
        self.section.clear();
        self.end.encode(stream, &lines, &mut self.section)
    }

    /// Takes the settings of words. The peer is then one that sent them.
    fn take_settings(&mut self, call: &mut Call<'_>) {
        let taken = self.end.set_peer_settings(call.count(), call.count());
        if taken.is_ok() {
            self.change_peer(call);
        }
        show_done(call, &taken);
    }

    /// Has the peer be one that sent the settings.
    fn change_peer(&mut self, call: &mut Call<'_>) {
        match peer_of(call.alloc(), self.end.settings()) {
            Some(peer) => self.peer = peer,
            None => call.fail("no peer has the settings"),
        }
    }

    /// Sends the encoder stream, the last section, and the decoder stream. Appends what the peer decoded.
    fn pass(&mut self, stream: u64, call: &mut Call<'_>) {
        let instructions = &mut Cursor::new(self.end.encoder_stream());
        let received = self.peer.receive(instructions);
        must_be_done(call, &received, "the peer refuses the encoder stream");
        self.end.sent(usize::MAX);
        let decoded = self.peer.decode(stream, &self.section, &mut self.fields);
        show_decoded(call, &decoded, &self.fields);
        let len = self.peer.decoder_stream_len();
        if self.peer.decoder_stream().len() < len {
            call.lack_memory();
        }
        let answers = &mut Cursor::new(self.peer.decoder_stream());
        let received = self.end.receive(answers);
        must_be_done(call, &received, "the decoder stream is refused");
        self.peer.sent(usize::MAX);
    }

    /// Receives bytes of the decoder stream in pieces, and appends the last result.
    fn receive(&mut self, call: &mut Call<'_>) {
        let bytes = call.bytes();
        let mut received = self.end.receive(&mut Cursor::new(b""));
        for piece in bytes.chunks(self.size.max(1)) {
            received = self.end.receive(&mut Cursor::new(piece));
        }
        show_done(call, &received);
    }

    /// Appends a part of its state.
    fn show_state(&self, word: &str, call: &mut Call<'_>) {
        let (end, table) = (&self.end, self.end.table());
        match word {
            "counts" => self.show_counts(call),
            "state" => {
                self.show_counts(call);
                call.say_number(", ", end.encoder_stream().len());
                call.say_number(" to send, ", end.waiting());
                call.say(" waiting");
            }
            "waits" => call.show(&end.waiting()),
            "capacity" => call.show_capacity(table.max_mem_size(), table.agreed_max()),
            "pending" => show_pending(call, end.pending_capacity()),
            "settings" => call.show_parts(&end.settings()),
            "failure" => show_failure(call, &end.failure()),
            _ => call.fail("an encoder has no such call"),
        }
    }

    /// Appends the counts of its sections and its table.
    fn show_counts(&self, call: &mut Call<'_>) {
        let table = self.end.table();
        call.show(&self.end.unacknowledged());
        call.say_number(" unacknowledged, ", self.end.blocked());
        call.say_number(" blocked, ", table.total_inserted());
        call.say_number(" inserted, ", table.known_received_count());
        call.say(" known");
    }
}
