//! A strict reading beside a decoder, and tables as a decoder sees them.

use h3_qpack::HeaderField;
use h3_qpack::dynamic::{DynamicTable, EntryIndex};
use qpack_ends::{FieldSection, Reading, read_section};
use std::alloc::Global;

/// Reads a section strictly, and says whether it has the fields of a list.
pub(crate) fn read_strictly<I: EntryIndex>(
    alloc: Global,
    table: &DynamicTable<I>,
    section: &[u8],
    list: &[HeaderField],
) -> &'static str {
    let mut fields = FieldSection::new(alloc);
    match read_section(table, section, u64::MAX, &mut fields) {
        Ok(Reading::Fields { .. }) if are_of(&fields, list) => "the same strictly",
        Ok(_) => "other fields strictly",
        Err(_) => "refused strictly",
    }
}

/// Returns whether these are the fields of a list.
fn are_of(fields: &FieldSection, list: &[HeaderField]) -> bool {
    let mut pairs = fields.iter().zip(list);
    fields.len() == list.len()
        && pairs.all(|(read, field)| {
            read.name == field.name.as_slice() && read.value == field.value.as_slice()
        })
}

/// Returns whether two tables are alike in what a decoder sees of them.
pub(crate) fn are_alike<I: EntryIndex>(one: &DynamicTable<I>, other: &DynamicTable<I>) -> bool {
    let mut are_alike = one.max_mem_size() == other.max_mem_size();
    are_alike &= one.total_inserted() == other.total_inserted();
    for index in 0..one.total_inserted() {
        let (field, same) = (one.get_relative(index).ok(), other.get_relative(index).ok());
        are_alike &= field == same;
    }
    are_alike
}
