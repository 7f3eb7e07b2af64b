//! Sections read strictly, up to a limit.

use crate::answers::{must_be_done, note_memory, show_fields, show_reading, show_refusal};
use h3_qpack::HeaderField;
use h3_qpack::dynamic::{DynamicTable, Error};
use qpack_ends::{FieldSection, read_section};
use qpack_testing::cases::{Call, Subject};
use std::alloc::Global;

/// A table, and the fields of the section that was read last.
#[derive(Drop)]
pub(crate) struct Sections {
    table: DynamicTable,
    fields: FieldSection,
}

/// Puts a field `NAME: bar`.
fn put(alloc: Global, table: &mut DynamicTable, name: &str) -> Result<(), Error> {
    table.put(HeaderField::from_pair(alloc, name.as_bytes(), b"bar")?)
}

impl Subject for Sections {
    /// The settings are the capacity of the table, and the name of each entry.
    fn begin(call: &mut Call<'_>, _size: usize) -> Option<Sections> {
        let mut table = DynamicTable::new(call.alloc());
        let set = table.set_max_size(call.count());
        must_be_done(call, &set, "the capacity is refused");
        for name in call.rest().split_whitespace() {
            let done = put(call.alloc(), &mut table, name);
            must_be_done(call, &done, "an entry is refused");
        }
        call.set_rest("");
        Some(Sections {
            table,
            fields: FieldSection::new(call.alloc()),
        })
    }

    fn make(&mut self, word: &str, call: &mut Call<'_>) {
        match word {
            "reads" => self.read(1_000_000, call),
            "reads-up-to" => self.read(call.number(), call),
            "puts" => {
                let done = put(call.alloc(), &mut self.table, call.word());
                note_memory(call, &done);
                call.show_done(&done);
            }
            "clears" => {
                self.fields.clear();
                call.say("done");
                show_fields(call, &self.fields);
            }
            _ => call.fail("sections have no such call"),
        }
    }
}

impl Sections {
    /// Reads a section up to a limit, into the fields of the one before.
    fn read(&mut self, limit: u64, call: &mut Call<'_>) {
        let section = call.bytes();
        match read_section(&self.table, &section, limit, &mut self.fields) {
            Ok(reading) => show_reading(call, reading, &self.fields),
            Err(error) => {
                call.holds(self.fields.is_empty(), "a refused section gives fields");
                show_refusal(call, &error);
            }
        }
    }
}
