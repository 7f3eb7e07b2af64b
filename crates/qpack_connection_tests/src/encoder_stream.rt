//! The encoder stream, received strictly.

use crate::answers::{must_be_done, show_done};
use h3_qpack::HeaderField;
use h3_qpack::coding::Cursor;
use h3_qpack::dynamic::{DynamicTable, Error};
use qpack_ends::{EncoderStream, EncoderStreamError};
use qpack_testing::cases::{Call, Subject};

/// An encoder stream, and its table.
#[derive(Drop)]
pub(crate) struct Receiving {
    stream: EncoderStream,
    table: DynamicTable,
    size: usize,
}

impl Subject for Receiving {
    /// The settings are the maximum of the capacity, which is 0.
    fn begin(call: &mut Call<'_>, size: usize) -> Option<Receiving> {
        let mut table = DynamicTable::new(call.alloc());
        let agreed = table.set_agreed_max(call.count());
        must_be_done(call, &agreed, "the maximum is refused");
        Some(Receiving {
            table,
            stream: EncoderStream::new(call.alloc()),
            size,
        })
    }

    fn make(&mut self, word: &str, call: &mut Call<'_>) {
        match word {
            "receives" => {
                let received = self.receive(&call.bytes());
                show_done(call, &received);
            }
            "entry" => {
                let index = call.count();
                show_entry(call, self.table.get_relative(index));
            }
            "waits" => call.show(&self.stream.waiting()),
            "capacity" => call.show(&self.table.max_mem_size()),
            "inserted" => call.show(&self.table.total_inserted()),
            _ => call.fail("an encoder stream has no such call"),
        }
    }
}

/// Appends an entry of a table.
fn show_entry(call: &mut Call<'_>, entry: Result<&HeaderField, Error>) {
    match entry {
        Ok(field) => call.show(field),
        Err(_) => call.fail("there is no entry"),
    }
}

impl Receiving {
    /// Receives bytes in pieces, until one is refused.
    fn receive(&mut self, bytes: &[u8]) -> Result<(), EncoderStreamError> {
        for piece in bytes.chunks(self.size.max(1)) {
            self.stream
                .receive(&mut self.table, &mut Cursor::new(piece))?;
        }
        Ok(())
    }
}
