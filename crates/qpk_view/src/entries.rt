//! The live entries of a dynamic table.

use qpack_base::field::HeaderField;
use qpack_table::dynamic::ReceivedTable;
use std::ops::Range;

/// A live entry, with its absolute index, from 1, and its size in bytes.
#[derive(Clone, Copy)]
pub(crate) struct Entry<'a> {
    pub(crate) index: usize,
    pub(crate) size: usize,
    pub(crate) field: &'a HeaderField,
}

/// Returns the live entries of a table, the newest first.
pub(crate) fn live_entries(table: &ReceivedTable) -> LiveEntries<'_> {
    LiveEntries {
        table,
        relative: 0..table.total_inserted(),
    }
}

/// Live entries that are still to come.
#[derive(Drop)]
pub(crate) struct LiveEntries<'a> {
    table: &'a ReceivedTable,
    /// Their relative indexes, and after these some without an entry.
    relative: Range<usize>,
}

impl<'a> Iterator for LiveEntries<'a> {
    type Item = Entry<'a>;

    ghost use Rattle.std.specs.Iterator.{at_most};
    ghost use Rattle.std.specs.Prelude.{◌-◌};

    ghost remaining = { λ left. at_most (left.relative.end - left.relative.start) };

    fn next(&mut self) -> Option<Entry<'a>> {
        let relative = self.relative.next()?;
        let field = self.table.get_relative(relative).ok()?;
        let index = self.table.total_inserted().checked_sub(relative)?;
        let size = field.mem_size();
        Some(Entry { index, size, field })
    }
}
