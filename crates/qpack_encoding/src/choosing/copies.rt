//! Copies.
//!
//! The latest 16 pairs of an entry and its copy are remembered, where no line references the copy yet. Until the decoder is
//! known to have received the copy, the original is referenced. No copy is made that would push out such a pair.

use qpack_base::stored_field::PackedField;
use qpack_table::dynamic::{DynamicTableEncoder, Index};

/// How many copies are remembered.
const MOST_COPIES: usize = 16;

/// Two equal entries, by their absolute indexes.
#[derive(Debug, Clone, Copy, Drop)]
struct Pair {
    copy: usize,
    original: usize,
}

/// The latest copies that were inserted without a reference, the latest first; 0 for none. Until the decoder is known to
/// have received a copy, its original may be referenced.
#[derive(Debug, Drop)]
pub(super) struct Copies {
    latest: [Pair; MOST_COPIES],
}

impl Copies {
    /// Returns a memory of no copies.
    pub(super) fn new() -> Copies {
        let none = Pair {
            copy: 0,
            original: 0,
        };
        Copies {
            latest: [none; MOST_COPIES],
        }
    }

    /// Returns whether one more copy would push out one that the decoder is not known to have received.
    pub(super) fn is_full(&self, block: &DynamicTableEncoder<'_, Index, PackedField>) -> bool {
        let oldest = self.latest[MOST_COPIES - 1].copy;
        oldest > block.total_dropped() && !block.may_reference(oldest)
    }

    /// Notes that an entry is inserted as a copy of another.
    pub(super) fn note(&mut self, copy: usize, original: usize) {
        self.latest.rotate_right(1);
        self.latest[0] = Pair { copy, original };
    }

    /// Returns the entry that one is a copy of, if that is remembered.
    pub(super) fn original_of(&self, copy: usize) -> Option<usize> {
        let pair = self.latest.iter().find(|pair| pair.copy == copy)?;
        Some(pair.original)
    }
}
