//! The encoder of `h3_qpack`.

use crate::repeated::Repeated;
use crate::table::{show_state, table_of};
use h3_qpack::HeaderField;
use h3_qpack::coding::Cursor;
use h3_qpack::dynamic::SortedIndex;
use h3_qpack::encoder::{Encoder, EncoderError};
use linked_list_allocator::LocalHeap;
use qpack_testing::cases::{Call, Subject};
use std::alloc::Allocator;

/// An encoder, the sections that were not asked for yet, and the encoder stream.
#[derive(Drop)]
pub(crate) struct H3Encoder {
    encoder: Encoder,
    sections: Vec<u8>,
    stream: Vec<u8>,
    lacked_memory: bool,
}

/// Room in the encoder stream, so that the first capacities are not refused memory.
const ROOM: usize = 64;

/// Makes an encoder of settings: `new`, or the limit of blocked streams and those of its table.
fn encoder_of(call: &mut Call<'_>) -> Encoder {
    match call.word() {
        "new" => Encoder::new(call.alloc()),
        max_blocked => encoder_over_table(call, max_blocked.parse().unwrap_or(usize::MAX)),
    }
}

/// Makes an encoder over a table of settings, with a limit of blocked streams.
fn encoder_over_table(call: &mut Call<'_>, max_blocked: usize) -> Encoder {
    let mut table = table_of::<SortedIndex>(call);
    let is_limited = table.set_max_blocked(max_blocked).is_ok();
    call.holds(is_limited, "the limit of blocked streams is refused");
    Encoder::from(table)
}

impl Subject for H3Encoder {
    fn begin(call: &mut Call<'_>, _size: usize) -> Option<H3Encoder> {
        let stream = Vec::with_capacity(call.alloc(), ROOM).ok()?;
        Some(H3Encoder {
            encoder: encoder_of(call),
            sections: Vec::new(call.alloc()),
            stream,
            lacked_memory: false,
        })
    }

    fn make(&mut self, word: &str, call: &mut Call<'_>) {
        match word {
            "encodes" | "encodes-chained" | "encodes-repeated" => self.encode(word, call),
            "encodes-on-heap" | "sets-on-heap" => self.call_on_heap(word, call),
            "encodes-into-heap" => self.encode_into_heap(call),
            "receives" => self.receive(call),
            "sets" => show_set(call, &mut self.encoder, &mut self.stream),
            "writes" => {
                call.show_bytes(&self.sections);
                self.sections.clear();
            }
            "holds" => call.show_bytes(&self.stream),
            _ => show_state(word, call, self.encoder.table()),
        }
    }

    fn lacked_memory(&self) -> bool {
        self.lacked_memory
    }
}

impl H3Encoder {
    /// Encodes the fields of words on a stream, a second time if memory was refused. Appends how many insertions the
    /// section requires.
    fn encode(&mut self, word: &str, call: &mut Call<'_>) {
        let stream = call.number();
        let headers = call.headers();
        let mut encoded = self.encode_headers(word, stream, &headers);
        if encoded == Err(EncoderError::Memory) {
            self.lacked_memory = true;
            encoded = self.encode_headers(word, stream, &headers);
        }
        call.show_value(&encoded);
    }

    /// Encodes header fields on a stream: each once, or twice by the iterator that a word names. That is one of std's, or
    /// one of the first field alone that is none of std's.
    fn encode_headers(
        &mut self,
        word: &str,
        stream: u64,
        headers: &[HeaderField],
    ) -> Result<usize, EncoderError> {
        let (sections, instructions) = (&mut self.sections, &mut self.stream);
        let fields = headers.iter();
        match (word, headers.first()) {
            ("encodes-chained", _) => {
                let twice = fields.chain(headers.iter());
                self.encoder.encode(stream, sections, instructions, twice)
            }
            ("encodes-repeated", Some(field)) => {
                let twice = Repeated { field, left: 2 };
                self.encoder.encode(stream, sections, instructions, twice)
            }
            _ => self.encoder.encode(stream, sections, instructions, fields),
        }
    }

    /// Makes a call with the encoder stream on a heap. The words are the bytes of the heap, the room in a vector there,
    /// and those of the call.
    fn call_on_heap(&mut self, word: &str, call: &mut Call<'_>) {
        let (size, room) = (call.count(), call.count());
        match LocalHeap::new(call.alloc(), size) {
            Ok(heap) => self.call_with(word, call, &mut Vec::new(&heap), room),
            Err(_) => call.lack_memory(),
        }
    }

    /// Makes a call with the encoder stream in an empty vector, which is given this room.
    fn call_with(
        &mut self,
        word: &str,
        call: &mut Call<'_>,
        stream: &mut Vec<u8, &LocalHeap>,
        room: usize,
    ) {
        let is_held = stream.reserve(room).is_ok();
        let is_held = is_held && stream.extend_from_slice(&self.stream).is_ok();
        call.holds(is_held, "the heap has no room for the stream");
        match word {
            "sets-on-heap" => show_set(call, &mut self.encoder, stream),
            _ => self.encode_to(call, stream),
        }
        self.stream.clear();
        if self.stream.extend_from_slice(stream).is_err() {
            call.lack_memory();
        }
    }

    /// Encodes fields with the instructions on a heap. The words are how many bytes the encoder stream has once memory is
    /// refused, the stream, and the fields.
    fn encode_to(&mut self, call: &mut Call<'_>, instructions: &mut Vec<u8, &LocalHeap>) {
        let (written, stream) = (call.count(), call.number());
        let headers = call.headers();
        let sections = &mut self.sections;
        let encoded = self
            .encoder
            .encode(stream, sections, instructions, headers.iter());
        // Other memory was refused if the call ended elsewhere.
        self.lacked_memory |= instructions.len() != written;
        call.show_value(&encoded);
    }

    /// Encodes fields with the section on a heap. The words are the bytes of the heap, the room in a vector there, how many
    /// bytes the encoder stream has once memory is refused, the stream, and the fields.
    fn encode_into_heap(&mut self, call: &mut Call<'_>) {
        let (size, room) = (call.count(), call.count());
        match LocalHeap::new(call.alloc(), size) {
            Ok(heap) => self.encode_into(call, &mut Vec::new(&heap), room),
            Err(_) => call.lack_memory(),
        }
    }

    /// Encodes fields with the section in an empty vector, which is given this room.
    fn encode_into(&mut self, call: &mut Call<'_>, section: &mut Vec<u8, &LocalHeap>, room: usize) {
        let is_held = section.reserve_exact(room).is_ok();
        call.holds(is_held, "the heap has no room for the section");
        let (written, stream) = (call.count(), call.number());
        let headers = call.headers();
        let encoded = self
            .encoder
            .encode(stream, section, &mut self.stream, headers.iter());
        // Other memory was refused if the call ended elsewhere.
        self.lacked_memory |= self.stream.len() != written;
        call.show_value(&encoded);
    }

    /// Receives bytes of the decoder stream. Appends how many of them were taken too.
    fn receive(&mut self, call: &mut Call<'_>) {
        let bytes = call.bytes();
        let mut cursor = Cursor::new(&bytes);
        let received = self.encoder.on_decoder_recv(&mut cursor);
        call.show_done(&received);
        call.say_number(" at ", cursor.position());
    }
}

/// Sets a capacity, and writes its instruction. Appends the capacity that the table has then too.
fn show_set<A: Allocator>(call: &mut Call<'_>, encoder: &mut Encoder, stream: &mut Vec<u8, A>) {
    let set = encoder.set_capacity(call.count(), stream);
    call.show_done(&set);
    call.say_number(" at ", encoder.table().max_mem_size());
}
