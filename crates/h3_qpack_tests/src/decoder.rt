//! The decoder of `h3_qpack`, over a table with an index or without one.

use crate::strict::{are_alike, read_strictly};
use crate::table::{Kind, agree, show_state, table_of};
use h3_qpack::coding::{Cursor, NoMemory};
use h3_qpack::decoder::{Decoded, Decoder, DecoderError, ack_header, stream_canceled};
use h3_qpack::dynamic::EntryIndex;
use h3_qpack::prefix_int;
use qpack_testing::cases::{Call, Subject};

/// A decoder, and what it wrote since that was last asked for.
#[derive(Drop)]
pub(crate) struct H3Decoder<I: EntryIndex> {
    decoder: Decoder<I>,
    written: Vec<u8>,
    /// After how many bytes a stream is cut in two, or how many bytes a piece has.
    size: usize,
    /// What was delivered of the encoder stream in pieces, how many of its bytes the decoder took, and whether it refused
    /// one.
    delivered: Vec<u8>,
    taken: usize,
    is_ended: bool,
}

impl<I: Kind> Subject for H3Decoder<I> {
    /// The settings are those of its table.
    fn begin(call: &mut Call<'_>, size: usize) -> Option<H3Decoder<I>> {
        Some(H3Decoder {
            decoder: Decoder::from(table_of::<I>(call)),
            written: Vec::new(call.alloc()),
            size,
            delivered: Vec::new(call.alloc()),
            taken: 0,
            is_ended: false,
        })
    }

    fn make(&mut self, word: &str, call: &mut Call<'_>) {
        match word {
            "decodes" => self.decode(call),
            "decodes-strictly" => self.decode_strictly(call),
            "receives" => self.receive(call),
            "receives-without-memory" => self.receive_once(call),
            "receives-in-two" => self.receive_in_two(call),
            "delivers" => self.deliver(call),
            "acknowledges" | "cancels" => self.reply(word, call),
            "rebuilds" => self.rebuild(call),
            "writes" => self.show_written(call),
            "reports" => self.show_reported(call),
            _ => show_state(word, call, self.decoder.table()),
        }
    }

    // The trait's bodies again: the prover takes none from a trait if the type has parameters.
    fn calls_that_can_fail() -> &'static [&'static str] {
        &[]
    }

    fn lacked_memory(&self) -> bool {
        false
    }
}

impl<I: EntryIndex> H3Decoder<I> {
    /// Decodes a section, a second time in case memory was refused.
    fn decode_bytes(&self, section: &[u8]) -> Result<Decoded, DecoderError> {
        match self.decoder.decode_header(&mut Cursor::new(section)) {
            Err(DecoderError::Memory) => self.decoder.decode_header(&mut Cursor::new(section)),
            decoded => decoded,
        }
    }

    /// Decodes a section.
    fn decode(&self, call: &mut Call<'_>) {
        let decoded = self.decode_bytes(&call.bytes());
        show_decoded(call, &decoded);
    }

    /// Decodes a section, and appends how a strict reading compares with that, or why it is refused.
    fn decode_strictly(&self, call: &mut Call<'_>) {
        let section = call.bytes();
        match self.decode_bytes(&section) {
            Ok(decoded) => {
                let (table, fields) = (self.decoder.table(), &decoded.fields);
                call.say(read_strictly(call.alloc(), table, &section, fields));
            }
            Err(error) => call.show_done(&Err(error)),
        }
    }

    /// Receives what is left at a cursor, a second time if memory was refused: then nothing was written.
    fn take(&mut self, call: &mut Call<'_>, cursor: &mut Cursor) -> Result<usize, DecoderError> {
        let before = self.written.len();
        let received = self.decoder.on_encoder_recv(cursor, &mut self.written);
        if received != Err(DecoderError::Memory) {
            return received;
        }
        let is_kept = self.written.len() == before;
        call.holds(is_kept, "a call that was refused memory writes");
        self.decoder.on_encoder_recv(cursor, &mut self.written)
    }

    /// Receives bytes of the encoder stream.
    fn receive(&mut self, call: &mut Call<'_>) {
        let bytes = call.bytes();
        self.receive_after(0, &bytes, call);
    }

    /// Receives bytes of the encoder stream. Appends how many insertions there were, and how many bytes were taken, with
    /// those before.
    fn receive_after(&mut self, before: usize, bytes: &[u8], call: &mut Call<'_>) {
        let mut cursor = Cursor::new(bytes);
        let received = self.take(call, &mut cursor);
        show_taken(call, &received, before.saturating_add(cursor.position()));
    }

    /// Receives bytes of the encoder stream that take no memory.
    fn receive_once(&mut self, call: &mut Call<'_>) {
        let bytes = call.bytes();
        let mut cursor = Cursor::new(&bytes);
        let received = self.decoder.on_encoder_recv(&mut cursor, &mut self.written);
        show_taken(call, &received, cursor.position());
    }

    /// Receives bytes of the encoder stream in two pieces. The second begins with the bytes that the first left.
    fn receive_in_two(&mut self, call: &mut Call<'_>) {
        let bytes = call.bytes();
        let mut first = Cursor::new(bytes.get(..self.size).unwrap_or(&bytes));
        let received = self.take(call, &mut first);
        call.holds(received.is_ok(), "the first piece is refused");
        let rest = bytes.get(first.position()..).unwrap_or(b"");
        self.receive_after(first.position(), rest, call);
    }

    /// Receives bytes of the encoder stream in pieces, up to one that is refused. Nothing is delivered after that.
    fn deliver(&mut self, call: &mut Call<'_>) {
        let bytes = call.bytes();
        let mut received = Ok(0);
        for piece in bytes.chunks(self.size.max(1)) {
            if !self.is_ended {
                received = self.deliver_piece(call, piece);
            }
        }
        match received {
            Ok(_) => call.say("delivered"),
            Err(error) => call.show_done(&Err(error)),
        }
    }

    /// Receives a piece of the encoder stream, after the bytes that were left.
    fn deliver_piece(&mut self, call: &mut Call<'_>, piece: &[u8]) -> Result<usize, DecoderError> {
        let is_kept = self.delivered.extend_from_slice(piece).is_ok();
        call.holds(is_kept, "out of memory");
        let mut cursor = Cursor::new(self.delivered.get(self.taken..).unwrap_or(b""));
        let received = self.decoder.on_encoder_recv(&mut cursor, &mut self.written);
        self.taken = self.taken.saturating_add(cursor.position());
        self.is_ended = received.is_err();
        received
    }

    /// Acknowledges a section of a stream, or cancels the stream, a second time in case memory was refused.
    fn reply(&mut self, word: &str, call: &mut Call<'_>) {
        let stream = call.number();
        let mut done = reply(word, stream, &mut self.written);
        if done.is_err() {
            done = reply(word, stream, &mut self.written);
        }
        call.show_done(&done);
    }

    /// Appends what was written since it was last asked for.
    fn show_written(&mut self, call: &mut Call<'_>) {
        call.show_bytes(&self.written);
        self.written.clear();
    }

    /// Appends how many insertions were reported since it was last asked for (RFC 9204, section 4.4.3).
    fn show_reported(&mut self, call: &mut Call<'_>) {
        let mut cursor = Cursor::new(&self.written);
        let mut sum = 0u64;
        for _ in &self.written {
            let (flags, increment) = prefix_int::decode(6, &mut cursor).unwrap_or((0, 0));
            call.holds(flags == 0, "no increment was written");
            sum = sum.saturating_add(increment);
        }
        call.holds(cursor.remaining() == 0, "an increment is cut");
        call.show(&sum);
        self.written.clear();
    }
}

impl<I: Kind> H3Decoder<I> {
    /// Appends whether the table is the one of another decoder, which receives at once what this one took.
    fn rebuild(&self, call: &mut Call<'_>) {
        let mut table = I::empty(call.alloc());
        let agreed = agree(&mut table, self.decoder.table().agreed_max());
        call.holds(agreed.is_ok(), "the maximum is refused");
        let mut other = Decoder::from(table);
        let taken = self.delivered.get(..self.taken).unwrap_or(b"");
        let received = other.on_encoder_recv(&mut Cursor::new(taken), &mut Vec::new(call.alloc()));
        call.holds(
            received.is_ok() || self.is_ended,
            "what was taken is refused",
        );
        call.show(&are_alike(self.decoder.table(), other.table()));
    }
}

/// Appends how many insertions there were, or why an instruction was refused, and how many bytes were taken.
fn show_taken(call: &mut Call<'_>, received: &Result<usize, DecoderError>, taken: usize) {
    call.show_value(received);
    call.say_number(" at ", taken);
}

/// Writes the acknowledgment of a section of a stream, or the cancellation of the stream.
fn reply(word: &str, stream: u64, written: &mut Vec<u8>) -> Result<(), NoMemory> {
    match word {
        "acknowledges" => ack_header(stream, written),
        _ => stream_canceled(stream, written),
    }
}

/// Appends the size of a section that was decoded, whether it requires an entry, and its fields; or its error.
pub(crate) fn show_decoded(call: &mut Call<'_>, decoded: &Result<Decoded, DecoderError>) {
    match decoded {
        Ok(decoded) => show_section(call, decoded),
        Err(error) => call.show_done(&Err(*error)),
    }
}

/// Appends the size of a section, whether it requires an entry, and its fields.
fn show_section(call: &mut Call<'_>, decoded: &Decoded) {
    call.show(&decoded.mem_size);
    call.say(" ");
    call.show(&decoded.dyn_ref);
    for field in &decoded.fields {
        call.show_field(field.as_line());
    }
}
