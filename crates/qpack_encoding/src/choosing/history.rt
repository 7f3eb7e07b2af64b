//! The history.
//!
//! It has tags of 16 bits of fields that no entry equalled, in sets of four by their hash, each set from the latest to the
//! oldest. There is a set for 256 bytes of capacity, 32 at most; of the first four sets one for 128 bytes. A field that was
//! not seen may have the tag of one that was.

/// How many tags a set holds.
const WAYS: usize = 4;

/// The bytes of capacity for each of the first sets.
const BYTES_A_FIRST_SET: usize = 128;

/// How many sets are the first.
const FIRST_SETS: usize = 4;

/// The bytes of capacity for each set if there are more.
const BYTES_A_SET: usize = 256;

/// The greatest number of sets.
const MOST_SETS: usize = 32;

/// The fields that were seen lately and not referenced: one that comes again is worth an entry.
///
/// Tags of 16 bits of the fields that were seen lately, in sets of four, each set from the latest to the oldest. A field
/// that was not seen may have the tag of one that was.
///
/// Its room is there from the start, so no allocation that is refused changes what is chosen.
#[derive(Debug, Drop)]
pub(super) struct History {
    tags: [u16; MOST_SETS * WAYS],
    /// How many sets are in use, none before the first section. The tags behind these are 0.
    sets: usize,
}

impl History {
    /// Returns a history that keeps nothing yet.
    pub(super) fn new() -> History {
        History {
            tags: [0; MOST_SETS * WAYS],
            sets: 0,
        }
    }

    /// Makes it as large as a capacity asks for.
    pub(super) fn fit(&mut self, capacity: usize) {
        let first = (capacity / BYTES_A_FIRST_SET).clamp(1, FIRST_SETS);
        let sets = (capacity / BYTES_A_SET).clamp(first, MOST_SETS);
        if self.sets != sets {
            self.tags[sets * WAYS..].fill(0);
            self.sets = sets;
        }
    }

    /// Returns whether a field of this hash was seen lately, and keeps that it was seen.
    pub(super) fn see(&mut self, hash: u32) -> bool {
        let sets = self.sets.min(MOST_SETS);
        if sets == 0 {
            return false;
        }
        let hash = hash as usize;
        let first = hash % sets * WAYS;
        let tag = (hash / sets & 0xffff) as u16 | 1;
        let set = &mut self.tags[first..first + WAYS];
        if set.contains(&tag) {
            return true;
        }
        set.rotate_right(1);
        set[0] = tag;
        false
    }
}
