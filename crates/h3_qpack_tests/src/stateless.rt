//! Sections without a table, and errors that no call returns.

use crate::decoder::show_decoded;
use h3_qpack::coding::Cursor;
use h3_qpack::{
    DecoderError, EncoderError, Error, HeaderField, decode_stateless, dynamic, encode_stateless,
    prefix_string, vas,
};
use linked_list_allocator::LocalHeap;
use qpack_testing::cases::{Call, Subject};
use std::fmt::Display;

/// Calls without a table, and the sections that they wrote. A section may be decoded up to a size.
#[derive(Drop)]
pub(crate) struct Stateless {
    max_size: u64,
    sections: Vec<u8>,
}

/// Room for the sections of a case, so that only a heap refuses memory.
const ROOM: usize = 1024;

/// Errors that no call returns with these values.
const NEVER_RETURNED: &[Error] = &[
    Error::Decoder(DecoderError::InvalidIndex(vas::Error::PostbaseIndex(3))),
    Error::Decoder(DecoderError::UnknownPrefix(16)),
    Error::Decoder(DecoderError::UnexpectedEnd),
    Error::Decoder(DecoderError::BufSize),
    Error::Decoder(DecoderError::Memory),
    Error::Decoder(DecoderError::HeaderTooLong(44)),
    Error::Encoder(EncoderError::InvalidString(prefix_string::Error::UnexpectedEnd)),
    Error::Encoder(EncoderError::UnknownDecoderInstruction(64)),
    Error::Encoder(EncoderError::Memory),
];

/// Errors of a table that no call returns.
const NEVER_RETURNED_BY_TABLES: &[dynamic::Error] = &[
    dynamic::Error::NoTrackingData,
    dynamic::Error::InvalidTrackingCount,
    dynamic::Error::Memory,
];

impl Subject for Stateless {
    fn begin(call: &mut Call<'_>, _size: usize) -> Option<Stateless> {
        let max_size = call.number();
        let sections = Vec::with_capacity(call.alloc(), ROOM).ok()?;
        Some(Stateless { max_size, sections })
    }

    fn make(&mut self, word: &str, call: &mut Call<'_>) {
        match word {
            "decodes" => self.decode(call),
            "encodes" => self.encode(call),
            "encodes-on-heap" => self.encode_on_heap(call),
            "holds" => call.show_bytes(&self.sections),
            "error" => show_error(call, NEVER_RETURNED),
            "table-error" => show_error(call, NEVER_RETURNED_BY_TABLES),
            _ => call.fail("there is no such call without a table"),
        }
    }
}

impl Stateless {
    /// Decodes a section, a second time in case memory was refused.
    fn decode(&self, call: &mut Call<'_>) {
        let section = call.bytes();
        let mut decoded = decode_stateless(call.alloc(), &mut Cursor::new(&section), self.max_size);
        if let Err(DecoderError::Memory) = decoded {
            decoded = decode_stateless(call.alloc(), &mut Cursor::new(&section), self.max_size);
        }
        show_decoded(call, &decoded);
    }

    /// Encodes fields in the place of the sections. Appends the size of the fields.
    fn encode(&mut self, call: &mut Call<'_>) {
        let headers = call.headers();
        self.sections.clear();
        call.show_value(&encode_stateless(&mut self.sections, headers.iter()));
    }

    /// Encodes fields with the sections on a heap. The words are the bytes of the heap, the room in a vector there, and
    /// the fields.
    fn encode_on_heap(&mut self, call: &mut Call<'_>) {
        let (size, room) = (call.count(), call.count());
        let headers = call.headers();
        match LocalHeap::new(call.alloc(), size) {
            Ok(heap) => self.encode_to(call, &mut Vec::new(&heap), room, &headers),
            Err(_) => call.lack_memory(),
        }
    }

    /// Encodes fields after the other sections, all in an empty vector. Appends the size of the fields.
    fn encode_to(
        &mut self,
        call: &mut Call<'_>,
        sections: &mut Vec<u8, &LocalHeap>,
        room: usize,
        headers: &[HeaderField],
    ) {
        let is_held = sections.reserve(room).is_ok();
        let is_held = is_held && sections.extend_from_slice(&self.sections).is_ok();
        call.holds(is_held, "the heap has no room for the sections");
        call.show_value(&encode_stateless(sections, headers.iter()));
        self.sections.clear();
        let is_kept = self.sections.extend_from_slice(sections).is_ok();
        call.holds(is_kept, "the sections are too long");
    }
}

/// Appends what an error is printed as.
fn show_error<E: Display>(call: &mut Call<'_>, errors: &[E]) {
    match errors.get(call.count()) {
        Some(error) => call.show(error),
        None => call.fail("there is no such error"),
    }
}
