//! What a table shows of its entries.

ghost use Rattle.h3_qpack_c.specs.Crossing.{Gives};
ghost use Rattle.h3_qpack_c.specs.Tables.{entry_at};

use crate::answers::Given;
use crate::fields::{give, no_field};
use qpack_base::stored_field::StoredField;
use qpack_table::dynamic::{DynamicTable, EntryIndex};

/// Copies the name and the value of an entry to a caller's memory, one after the other, if both fit. Index 0 is the
/// newest entry.
pub(crate) fn give_entry<I: EntryIndex, F: StoredField>(
    table: &DynamicTable<I, F>,
    index: usize,
    out: &mut [u8],
) -> Given
    ensures { Gives (entry_at table.now index) out.old out.new result }
{
    match table.get_relative(index) {
        Ok(field) => give(&field.as_line(), out),
        Err(_) => no_field(),
    }
}
