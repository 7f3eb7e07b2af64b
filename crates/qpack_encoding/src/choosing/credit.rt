//! Credit and allowance.
//!
//! Two fields may be inserted for their names before one of them is referenced. The first reference to one allows one more.
//! At the limit an insertion is paid by its bytes: its value, and its name unless a static field has it. There each reference
//! to an equal field gives its bytes: first for what is owed, then up to 16,384 are kept. An insertion that these don't pay is
//! owed. At most four fifths of what all literals at the limit had, shared among the sections at the limit, or eleven if there
//! are more, may be owed; in the first of these sections, eleven sixteenths. So a short connection, and one whose
//! acknowledgments are late, loses little.

/// The most fields that may be inserted for their names before one of them is referenced.
const MOST_FOR_NAMES: u8 = 2;

/// The first reference to such an entry allows this many more.
const GAIN: u8 = 1;

/// How many more fields may be inserted for their names alone: a few at first, and more once their names are used.
#[derive(Debug, Drop)]
pub(super) struct NameCredit {
    left: u8,
}

impl NameCredit {
    /// Returns the credit of a new connection.
    pub(super) fn new() -> NameCredit {
        NameCredit {
            left: MOST_FOR_NAMES,
        }
    }

    /// Returns whether one more field may be inserted.
    pub(super) fn is_left(&self) -> bool {
        self.left > 0
    }

    /// Notes that a field is inserted for its name.
    pub(super) fn spend(&mut self) {
        self.left = self.left.saturating_sub(1);
    }

    /// Notes that such an entry is referenced for the first time.
    pub(super) fn gain(&mut self) {
        self.left = self.left.saturating_add(GAIN).min(MOST_FOR_NAMES);
    }
}

/// The most bytes that may be earned and not spent.
const MOST_EARNED: usize = 16384;

/// Among how many sections the bytes of all literals are shared, once there are that many.
const SHARES: usize = 11;

/// How many bytes of names and values may be inserted that their lines don't reference. What is inserted so costs bytes now,
/// and saves some only if it is referenced later.
#[derive(Debug, Drop)]
pub(super) struct Allowance {
    /// How many bytes references gave that are not spent.
    earned: usize,
    /// How many bytes were inserted on credit.
    owed: usize,
    /// How many bytes the literals at the limit had.
    literals: usize,
    /// How many sections began at the limit, at most `SHARES`.
    sections: usize,
}

impl Allowance {
    /// Returns the allowance of a new connection.
    pub(super) fn new() -> Allowance {
        Allowance {
            earned: 0,
            owed: 0,
            literals: 0,
            sections: 0,
        }
    }

    /// Notes that a section begins at the limit.
    pub(super) fn begin_section(&mut self) {
        self.sections = self.sections.saturating_add(1).min(SHARES);
    }

    /// Notes a literal of this many bytes.
    pub(super) fn note_literal(&mut self, bytes: usize) {
        self.literals = self.literals.saturating_add(bytes);
    }

    /// Notes a reference that stands for this many bytes.
    pub(super) fn earn(&mut self, bytes: usize) {
        let back = bytes.min(self.owed);
        self.owed = self.owed.saturating_sub(back);
        let left = bytes.saturating_sub(back);
        self.earned = self.earned.saturating_add(left).min(MOST_EARNED);
    }

    /// Returns whether these bytes are earned this many times.
    pub(super) fn has_earned(&self, times: usize, bytes: usize) -> bool {
        self.earned >= bytes.saturating_mul(times)
    }

    /// Returns whether this many bytes may be inserted, and takes them away.
    pub(super) fn pay(&mut self, bytes: usize) -> bool {
        if bytes <= self.earned {
            self.earned = self.earned.saturating_sub(bytes);
            return true;
        }
        let owed = self.owed.saturating_add(bytes);
        if owed > self.credit() {
            return false;
        }
        self.owed = owed;
        true
    }

    /// Returns how many bytes may be owed: four fifths of what an average section has in literals, and a little less of the
    /// first.
    fn credit(&self) -> usize {
        if self.sections == 1 {
            self.literals.saturating_mul(11) / 16
        } else {
            self.literals.saturating_mul(4) / self.sections.saturating_mul(5).max(1)
        }
    }
}
