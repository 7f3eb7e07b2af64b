//! Draining entries.
//!
//! An entry drains if the free bytes and the entries older than it are less than a quarter of the capacity. This is
//! reckoned when a section begins, and moves forward only, until the capacity changes. The oldest are those that have
//! entries of less than an eighth of the capacity before them.

use qpack_base::stored_field::PackedField;
use qpack_table::dynamic::{DynamicTableEncoder, Index};

/// The part of the capacity that drains.
const PART_THAT_DRAINS: usize = 4;

/// The part of the capacity that the oldest entries take.
const PART_OF_THE_OLDEST: usize = 8;

/// Returns whether an entry is one of the oldest: those before it take less than an eighth of the capacity.
pub(super) fn is_of_the_oldest(
    block: &DynamicTableEncoder<'_, Index, PackedField>,
    entry: usize,
) -> bool {
    let most = block.max_size() / PART_OF_THE_OLDEST;
    let mut before = 0_usize;
    for older in block.total_dropped().saturating_add(1)..entry {
        before = before.saturating_add(block.entry_size(older).unwrap_or(most));
        if before >= most {
            return false;
        }
    }
    true
}

/// Which entries drain: the oldest, which are to be evicted next (RFC 9204, section 2.1.1.1).
///
/// An entry drains if the free bytes and the entries older than it are less than a quarter of the capacity. The newest
/// that drains moves forward only, until the capacity changes.
#[derive(Debug, Drop)]
pub(super) struct Draining {
    /// The absolute index of the newest entry that drains, or of one that was evicted.
    newest: usize,
    /// The sizes of the live entries after that one, in bytes, as of `inserted` insertions.
    rest: usize,
    inserted: usize,
    /// The capacity, in bytes.
    capacity: usize,
}

impl Draining {
    /// Returns a state in which no entry drains.
    pub(super) fn new() -> Draining {
        Draining {
            newest: 0,
            rest: 0,
            inserted: 0,
            capacity: 0,
        }
    }

    /// Returns whether an entry drains.
    pub(super) fn contains(&self, entry: usize) -> bool {
        entry <= self.newest
    }

    /// Notes which entries drain when a section begins.
    pub(super) fn advance(&mut self, block: &DynamicTableEncoder<'_, Index, PackedField>) {
        self.count(block);
        let most = self.capacity - self.capacity / PART_THAT_DRAINS;
        for entry in self.newest..self.inserted {
            if self.rest <= most {
                return;
            }
            let entry = entry.saturating_add(1);
            let size = block.entry_size(entry).unwrap_or(0);
            self.rest = self.rest.saturating_sub(size);
            self.newest = entry;
        }
    }

    /// Returns whether an insertion of this size evicts only entries that drain.
    pub(super) fn has_room_for(
        &mut self,
        block: &DynamicTableEncoder<'_, Index, PackedField>,
        size: usize,
    ) -> bool {
        self.count(block);
        self.rest.saturating_add(size) <= self.capacity
    }

    /// Counts the entries that were inserted since, and passes those that were evicted.
    fn count(&mut self, block: &DynamicTableEncoder<'_, Index, PackedField>) {
        let (inserted, dropped, capacity) = (
            block.total_inserted(),
            block.total_dropped(),
            block.max_size(),
        );
        if self.newest <= dropped || self.capacity != capacity {
            self.newest = dropped;
            self.rest = block.used();
        } else {
            for entry in self.inserted..inserted {
                let size = block.entry_size(entry.saturating_add(1)).unwrap_or(0);
                self.rest = self.rest.saturating_add(size);
            }
        }
        self.inserted = inserted;
        self.capacity = capacity;
    }
}
