//! Last uses.
//!
//! Each entry has a byte, at its absolute index modulo 256: the number of the section that referenced it last. Until one
//! does, the byte says why it was inserted. An entry was referenced lately if that was in this section or one of the two
//! before it. It is far if its relative index is 63 or more, so that a reference takes a second byte. It is small if it
//! takes at most a 64th of the capacity.

/// How many marks there are. Entries whose absolute indexes differ by a multiple of this have the same one.
const MARKS: usize = 256;

/// The mark of the first section number.
const FIRST_SECTION: u8 = 3;

/// How many section numbers there are; after the last comes the first.
const SECTIONS: u8 = u8::MAX - FIRST_SECTION + 1;

/// An entry was referenced lately if at most this many sections began since.
pub(super) const LATELY: u8 = 2;

/// When an entry was referenced last, and if never, why it was inserted.
#[derive(Debug, Clone, Copy, PartialEq, Drop)]
pub(super) enum LastUse {
    /// Never; it was inserted when its field came for the first time.
    None,
    /// Never; it was inserted for its name.
    NoneForName,
    /// Never since; it was inserted without a reference when its field came again.
    NoneSince,
    /// In this section or one of the two before it.
    Lately,
    /// Before that.
    Earlier,
}

/// A mark for each entry, of a byte: why it was inserted, until a line references it, and then the section that did so
/// last.
#[derive(Debug, Drop)]
pub(super) struct Marks {
    marks: [u8; MARKS],
    /// The number of the section, less than `SECTIONS`.
    section: u8,
}

impl Marks {
    /// Returns the marks of a table without entries.
    pub(super) fn new() -> Marks {
        Marks {
            marks: [0; MARKS],
            section: 0,
        }
    }

    /// Notes that a section begins.
    pub(super) fn begin_section(&mut self) {
        self.section = if self.section.saturating_add(1) < SECTIONS {
            self.section.saturating_add(1)
        } else {
            0
        };
    }

    /// Returns when an entry was referenced last.
    pub(super) fn last_use(&self, entry: usize) -> LastUse {
        let mark = self.marks[entry % MARKS];
        match mark {
            0 => LastUse::None,
            1 => LastUse::NoneForName,
            2 => LastUse::NoneSince,
            _ => self.use_in(mark.saturating_sub(FIRST_SECTION)),
        }
    }

    /// Returns when a section of this number was.
    fn use_in(&self, section: u8) -> LastUse {
        let age = if section <= self.section {
            self.section.saturating_sub(section)
        } else {
            SECTIONS.saturating_sub(section.saturating_sub(self.section))
        };
        if age <= LATELY {
            LastUse::Lately
        } else {
            LastUse::Earlier
        }
    }

    /// Notes that a line references an entry.
    pub(super) fn note_use(&mut self, entry: usize) {
        self.marks[entry % MARKS] = self.section.saturating_add(FIRST_SECTION);
    }

    /// Notes that no line references an entry yet.
    pub(super) fn note_unused(&mut self, entry: usize, why: LastUse) {
        self.marks[entry % MARKS] = match why {
            LastUse::NoneForName => 1,
            LastUse::NoneSince => 2,
            LastUse::None | LastUse::Lately | LastUse::Earlier => 0,
        };
    }
}
