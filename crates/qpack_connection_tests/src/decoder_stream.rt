//! The decoder stream, received strictly.

use crate::answers::{must_be_done, note_memory, show_done};
use h3_qpack::HeaderField;
use h3_qpack::coding::Cursor;
use h3_qpack::dynamic::{DynamicLookupResult, DynamicTable, DynamicTableEncoder, Error};
use qpack_ends::{DecoderStream, DecoderStreamError};
use qpack_testing::cases::{Call, Subject};

/// A decoder stream, and its table.
#[derive(Drop)]
pub(crate) struct Hearing {
    stream: DecoderStream,
    table: DynamicTable,
    size: usize,
}

/// References the entry of a field, which is inserted if there is none.
fn reference(block: &mut DynamicTableEncoder<'_>, field: &HeaderField) -> Result<(), Error> {
    if block.find(field)? == DynamicLookupResult::NotFound {
        block.insert(field)?;
    }
    Ok(())
}

/// Encodes a section on a stream that references a field, and returns how many insertions it requires.
fn send(table: &mut DynamicTable, stream: u64, field: &HeaderField) -> Result<usize, Error> {
    let mut block = table.encoder(stream);
    match reference(&mut block, field) {
        Ok(()) => {
            let required = block.required_insert_count();
            block.commit(required)?;
            Ok(required)
        }
        Err(error) => {
            block.release();
            Err(error)
        }
    }
}

impl Subject for Hearing {
    /// The settings are the capacity of the table, and its limit of blocked streams.
    fn begin(call: &mut Call<'_>, size: usize) -> Option<Hearing> {
        let mut table = DynamicTable::new(call.alloc());
        let set = table.set_max_size(call.count());
        must_be_done(call, &set, "the capacity is refused");
        let limited = table.set_max_blocked(call.count());
        must_be_done(call, &limited, "the limit is refused");
        Some(Hearing {
            stream: DecoderStream::new(),
            table,
            size,
        })
    }

    fn make(&mut self, word: &str, call: &mut Call<'_>) {
        match word {
            "sends" => self.send(call),
            "receives" => {
                let received = self.receive(&call.bytes());
                show_done(call, &received);
            }
            "oldest" => {
                let stream = call.number();
                call.show_parts(&self.table.oldest_required(stream));
            }
            "waits" => call.show(&self.stream.waiting()),
            "known" => call.show(&self.table.known_received_count()),
            "unacknowledged" => call.show(&self.table.unacknowledged_blocks()),
            "blocked" => call.show(&self.table.blocked_blocks()),
            _ => call.fail("a decoder stream has no such call"),
        }
    }
}

impl Hearing {
    /// Sends a section on a stream of words that references the entry of a name, and appends how many insertions it
    /// requires.
    fn send(&mut self, call: &mut Call<'_>) {
        let stream = call.number();
        let name = call.word().as_bytes();
        let sent = match HeaderField::from_pair(call.alloc(), name, b"bar") {
            Ok(field) => send(&mut self.table, stream, &field),
            Err(_) => Err(Error::Memory),
        };
        note_memory(call, &sent);
        call.show_value(&sent);
    }

    /// Receives bytes in pieces, until one is refused.
    fn receive(&mut self, bytes: &[u8]) -> Result<(), DecoderStreamError> {
        for piece in bytes.chunks(self.size.max(1)) {
            self.stream
                .receive(&mut self.table, &mut Cursor::new(piece))?;
        }
        Ok(())
    }
}
