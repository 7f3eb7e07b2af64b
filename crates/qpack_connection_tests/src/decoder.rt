//! The decoding end of a connection.

use crate::answers::{
    note_memory, show_count, show_done, show_failure, show_reading, show_refusal,
};
use h3_qpack::coding::Cursor;
use h3_qpack::stream::{DecoderLine, HeaderAck, InsertCountIncrement, StreamCancel, next_line};
use qpack_ends::decoder::{ConnectionDecoder, DecoderSettings, DecodingError};
use qpack_ends::{
    FieldLine, FieldSection, Progress, Reading, SectionError, SectionReader, read_section,
};
use qpack_testing::cases::{Call, Subject};

/// A decoding end, and the fields that it decoded last.
#[derive(Drop)]
pub(crate) struct Decoder {
    end: ConnectionDecoder,
    fields: FieldSection,
    size: usize,
}

impl Subject for Decoder {
    fn begin(call: &mut Call<'_>, size: usize) -> Option<Decoder> {
        let settings = read_settings(call);
        let end = ConnectionDecoder::new(call.alloc(), settings).ok()?;
        Some(Decoder {
            end,
            fields: FieldSection::new(call.alloc()),
            size,
        })
    }

    fn make(&mut self, word: &str, call: &mut Call<'_>) {
        match word {
            "receives" => self.receive(call),
            "decodes" => self.decode(call),
            "cancels" => {
                let cancelled = self.end.cancel(call.number());
                show_done(call, &cancelled);
            }
            "sends" => self.send(call),
            "drops" => {
                let bytes = call.count();
                self.end.sent(bytes);
                self.show_stream(call);
            }
            "holds" => self.show_stream(call),
            "tells" => {
                self.take_stream(call);
                show_told(call, self.end.decoder_stream());
            }
            _ => self.show_state(word, call),
        }
    }

    fn calls_that_can_fail() -> &'static [&'static str] {
        &[
            "receives 20",
            "receives nothing",
            "decodes 0 0000d1",
            "decodes 4611686018427387904 nothing",
            "cancels 0",
            "cancels 4611686018427387904",
        ]
    }
}

/// The settings of words.
pub(crate) fn read_settings(call: &mut Call<'_>) -> DecoderSettings {
    DecoderSettings {
        max_capacity: call.count(),
        max_blocked: call.count(),
        max_section_size: call.number(),
    }
}

impl Decoder {
    /// Receives bytes of the encoder stream in pieces, and appends how many insertions were made, or the last error.
    fn receive(&mut self, call: &mut Call<'_>) {
        let bytes = call.bytes();
        let mut received = self.end.receive(&mut Cursor::new(b""));
        for piece in bytes.chunks(self.size.max(1)) {
            received = self.end.receive(&mut Cursor::new(piece));
            note_memory(call, &received);
        }
        show_count(call, &received);
    }

    /// Has the decoder stream taken. If memory was refused for increments, the next call of `decoder_stream` writes them.
    fn take_stream(&mut self, call: &mut Call<'_>) {
        let len = self.end.decoder_stream_len();
        if self.end.decoder_stream().len() < len {
            call.lack_memory();
        }
        let is_whole = self.end.decoder_stream().len() == len;
        call.holds(is_whole, "the decoder stream has another length");
    }

    /// Appends the decoder stream.
    fn show_stream(&mut self, call: &mut Call<'_>) {
        self.take_stream(call);
        call.show_bytes(self.end.decoder_stream());
    }

    /// Appends the decoder stream, and takes it away.
    fn send(&mut self, call: &mut Call<'_>) {
        self.show_stream(call);
        self.end.sent(usize::MAX);
    }

    /// Decodes a section; if it waits, appends how many streams are blocked too.
    fn decode(&mut self, call: &mut Call<'_>) {
        let stream = call.number();
        let section = call.bytes();
        self.fields.clear();
        match self.end.decode(stream, &section, &mut self.fields) {
            Ok(reading) => self.show_decoded(reading, call),
            Err(error) => {
                call.holds(self.fields.is_empty(), "a refused section gives fields");
                show_refusal(call, &error);
            }
        }
    }

    /// Reads a section under the table, and neither counts nor acknowledges it.
    pub(crate) fn read_whole(
        &mut self,
        section: &[u8],
        call: &mut Call<'_>,
    ) -> Result<Reading, SectionError> {
        let limit = self.end.settings().max_section_size;
        let read = read_section(self.end.table(), section, limit, &mut self.fields);
        note_memory(call, &read);
        read
    }

    /// Reads a piece of a section.
    pub(crate) fn read_piece(
        &mut self,
        reader: &mut SectionReader,
        buf: &mut Cursor,
        last: bool,
        fields: &mut FieldSection,
    ) -> Result<Progress, DecodingError> {
        self.end.read(reader, buf, last, fields)
    }

    /// The size of pieces.
    pub(crate) fn size(&self) -> usize {
        self.size
    }

    /// The field of the section that was read last, at an index.
    pub(crate) fn whole_field(&self, index: usize) -> Option<FieldLine<'_>> {
        self.fields.get(index)
    }

    /// How many fields it has.
    pub(crate) fn whole_len(&self) -> usize {
        self.fields.len()
    }

    /// Appends what it was read as.
    pub(crate) fn show_whole(&self, reading: Reading, call: &mut Call<'_>) {
        self.show_decoded(reading, call);
    }

    /// Appends what a section was decoded to.
    fn show_decoded(&self, reading: Reading, call: &mut Call<'_>) {
        show_reading(call, reading, &self.fields);
        if let Reading::Blocked { .. } = reading {
            call.say_number(", ", self.end.blocked());
            call.say(" blocked");
        }
    }

    /// Appends a part of its state.
    fn show_state(&self, word: &str, call: &mut Call<'_>) {
        let (end, table) = (&self.end, self.end.table());
        match word {
            "has" => self.show_ready(call),
            "state" => self.show_counts(call),
            "settings" => call.show_parts(&end.settings()),
            "capacity" => call.show_capacity(table.max_mem_size(), table.agreed_max()),
            "failure" => show_failure(call, &end.failure()),
            "keeps" => self.show_kept(call),
            _ => call.fail("a decoder has no such call"),
        }
    }

    /// Appends how many streams are blocked, and the one that is ready next.
    fn show_ready(&self, call: &mut Call<'_>) {
        call.show(&self.end.blocked());
        call.say(" blocked, ready ");
        call.show_parts(&self.end.next_ready());
    }

    /// Appends whether the insertion of a number, the first being 1, is in the table, or not made yet.
    fn show_kept(&self, call: &mut Call<'_>) {
        let (table, number) = (self.end.table(), call.count());
        let newer = table.total_inserted().checked_sub(number);
        call.show(&newer.is_none_or(|newer| table.get_relative(newer).is_ok()));
    }

    /// Appends the counts of its state.
    fn show_counts(&self, call: &mut Call<'_>) {
        call.show(&self.end.decoder_stream_len());
        call.say_number(" to send, ", self.end.blocked());
        call.say_number(" blocked, ", self.end.waiting());
        call.say_number(" waiting, ", self.end.table().total_inserted());
        call.say(" inserted");
    }
}

/// Appends what a decoder stream reports: the streams that are acknowledged and cancelled, in turn, and how many insertions
/// increments report.
fn show_told(call: &mut Call<'_>, stream: &[u8]) {
    let mut received = 0usize;
    let mut cursor = Cursor::new(stream);
    for _ in stream {
        let line = next_line(call.alloc(), &mut cursor).unwrap_or(None);
        received = received.saturating_add(show_line(call, line));
    }
    call.holds(cursor.remaining() == 0, "an instruction is cut");
    call.show(&received);
    call.say(" by increments");
}

/// Appends the stream of an instruction, and returns how many insertions it reports.
fn show_line(call: &mut Call<'_>, line: Option<DecoderLine>) -> usize {
    let stream = match line {
        Some(DecoderLine::InsertCountIncrement(InsertCountIncrement(increment))) => {
            return increment;
        }
        Some(DecoderLine::HeaderAck(HeaderAck(stream))) => stream,
        Some(DecoderLine::StreamCancel(StreamCancel(stream))) => {
            call.say("cancelled ");
            stream
        }
        None => return 0,
    };
    call.show(&stream);
    call.say(", ");
    0
}
