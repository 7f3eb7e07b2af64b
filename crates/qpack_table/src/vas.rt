//! The indexes of the dynamic table (RFC 9204, sections 3.2.4 to 3.2.6). The entries are a list that
//! grows at one end and is dropped from the other; what is between is live. Here indexes are turned
//! into positions among the live entries, counted from 0 at the oldest. Absolute indexes begin at 1.
//!
//! After ten insertions, of which the first four are dropped, and under a base of 8:
//!
//! ```text
//!                           |      dropped      |            live             |
//! absolute index            |  1    2    3    4 |  5    6    7    8    9   10 |
//! position                  |                   |  0    1    2    3    4    5 |
//! relative, instruction     |                   |  5    4    3    2    1    0 |
//! relative, line            |                   |  3    2    1    0           |
//! post-base, line           |                   |                      0    1 |
//! ```

ghost use Rattle.std.specs.Prelude.{◌≡◌, ◌+◌, ◌^◌, ◌<◌, ◌≤◌, ◌↔◌, IsTrue, IsOk, IfOk, IfErr, IsSome, IfSome};
ghost use Rattle.qpack_table.specs.Positions.{IsLive, WasEvicted, IsPositionOf, IsNotEvicted, live_count};
ghost use Rattle.qpack_table.specs.Positions.{newest_relative_index};
ghost use Rattle.qpack_table.specs.Positions.{relative_index, post_base_index};
ghost use Rattle.qpack_table.specs.declared.vas.Error.TheVariants.{RelativeIndex as NoRelative};
ghost use Rattle.qpack_table.specs.declared.vas.Error.TheVariants.{PostbaseIndex as NoPostBase, Index as NoPlace};

use std::marker::Model;
use thiserror::Error as ThisError;

/// An index counted down from the newest entry, or from a base (RFC 9204, section 3.2.5).
pub type RelativeIndex = usize;

/// An index counted up from the first entry ever inserted, which has 1 (RFC 9204, section 3.2.4).
pub type AbsoluteIndex = usize;

/// Why an index references no live entry. Each variant has the index that was passed.
#[derive(Clone, Copy, Debug, PartialEq, Drop, ThisError)]
pub enum Error {
    /// The entry of this relative index is dropped, or before the first one, or nothing is live.
    #[error("no entry at relative index {0}")]
    RelativeIndex(usize),
    /// The entry of this post-base index is not live.
    #[error("no entry at post-base index {0}")]
    PostbaseIndex(usize),
    /// No live entry has this position.
    #[error("no entry at position {0}")]
    Index(usize),
}

/// How many entries were ever inserted, and how many of them were dropped, the oldest first.
#[derive(Debug, Drop)]
pub struct VirtualAddressSpace {
    inserted: usize,
    dropped: usize,
}

impl Model for VirtualAddressSpace {
    ghost use Rattle.std.specs.Prelude.{◌^◌, ◌≤◌};
    ghost use Rattle.qpack_table.specs.Positions.{Positions};

    ghost Value = { Positions };

    ghost view = { λ a. record { total = a.inserted; dropped = a.dropped } };

    ghost invariant = { λ a. (a.dropped ≤ a.inserted) × (a.inserted ≤ 2 ^ 62) };
}

impl Default for VirtualAddressSpace {
    ghost use Rattle.std.specs.Prelude.{◌≡◌};
    ghost use Rattle.qpack_table.specs.Positions.{no_positions};

    ghost is_default = { λ a. a ≡ no_positions };

    /// Returns a space in which nothing was inserted.
    fn default() -> VirtualAddressSpace {
        VirtualAddressSpace {
            inserted: 0,
            dropped: 0,
        }
    }
}

impl VirtualAddressSpace {
    /// Counts one more entry as inserted, of which fewer than 2^62 ever were, and returns its absolute index.
    pub fn add(&mut self) -> AbsoluteIndex
        requires { self.old.total < 2 ^ 62 }
        ensures index { result ≡ self.old.total + 1 }
        ensures added { self.new ≡ record self.old { total = self.old.total + 1 } }
    {
        self.inserted += 1;
        self.inserted
    }

    /// Drops the oldest live entry, of which there must be one.
    pub fn drop(&mut self)
        requires { self.old.dropped < self.old.total }
        ensures { self.new ≡ record self.old { dropped = self.old.dropped + 1 } }
    {
        self.dropped += 1;
    }

    /// Returns the position of the entry that an instruction's relative index references, 0 for the newest (RFC 9204,
    /// section 3.2.5).
    pub fn relative(&self, index: RelativeIndex) -> Result<usize, Error>
        ensures found { IfOk result (IsPositionOf self.now (newest_relative_index self.now index)) }
        ensures live { IsOk result ↔ IsLive self.now (newest_relative_index self.now index) }
        ensures refused { IfErr result (λ e. e ≡ NoRelative index) }
    {
        let absolute = self
            .inserted
            .checked_sub(index)
            .ok_or(Error::RelativeIndex(index))?;
        self.position(absolute).ok_or(Error::RelativeIndex(index))
    }

    /// Returns whether an absolute index is that of an entry that was dropped.
    pub fn evicted(&self, index: AbsoluteIndex) -> bool
        ensures { IsTrue result ↔ WasEvicted self.now index }
    {
        index > 0 && index <= self.dropped
    }

    /// Returns the position of the entry that a line's relative index references under a base (RFC 9204, section
    /// 3.2.5). It does not check that the base is at most the total: under a greater one the position may be past that
    /// of the newest entry.
    pub fn relative_base(&self, base: usize, index: RelativeIndex) -> Result<usize, Error>
        ensures found { IfOk result (IsPositionOf self.now (relative_index base index)) }
        ensures tested { IsOk result ↔ IsNotEvicted self.now base index }
        // Under a base up to the total it succeeds exactly if the entry is live.
        ensures live { base ≤ self.now.total → (IsOk result ↔ IsLive self.now (relative_index base index)) }
        ensures refused { IfErr result (λ e. e ≡ NoRelative index) }
    {
        if self.largest_ref() == 0 {
            return Err(Error::RelativeIndex(index));
        }
        let absolute = base.checked_sub(index).ok_or(Error::RelativeIndex(index))?;
        self.position(absolute).ok_or(Error::RelativeIndex(index))
    }

    /// Returns the position of the entry that a post-base index references (RFC 9204, section 3.2.6). If the sum with
    /// the base does not fit, it references none.
    pub fn post_base(&self, base: usize, index: RelativeIndex) -> Result<usize, Error>
        ensures found { IfOk result (IsPositionOf self.now (post_base_index base index)) }
        ensures live { IsOk result ↔ IsLive self.now (post_base_index base index) }
        ensures refused { IfErr result (λ e. e ≡ NoPostBase index) }
    {
        let after_base = self.inserted.saturating_sub(base);
        if index >= after_base {
            return Err(Error::PostbaseIndex(index));
        }
        self.position(base + index + 1)
            .ok_or(Error::PostbaseIndex(index))
    }

    /// Returns the absolute index of the live entry at a position.
    pub fn index(&self, index: usize) -> Result<usize, Error>
        ensures found { IfOk result (λ absolute. IsLive self.now absolute × IsPositionOf self.now absolute index) }
        ensures live { IsOk result ↔ (index < live_count self.now) }
        ensures refused { IfErr result (λ e. e ≡ NoPlace index) }
    {
        if index >= self.largest_ref() {
            return Err(Error::Index(index));
        }
        Ok(self.dropped + index + 1)
    }

    /// Returns how many entries are live.
    pub fn largest_ref(&self) -> usize
        ensures live { result ≡ live_count self.now }
        ensures parts { self.now.dropped + result ≡ self.now.total }
    {
        self.inserted - self.dropped
    }

    /// Returns how many entries were ever inserted, 2^62 at most.
    pub fn total_inserted(&self) -> usize
        ensures total { result ≡ self.now.total }
        ensures most { result ≤ 2 ^ 62 }
    {
        self.inserted
    }

    /// Returns how many entries were dropped.
    pub(crate) fn total_dropped(&self) -> usize
        ensures exact { result ≡ self.now.dropped }
        ensures most { result ≤ self.now.total }
        ensures total { self.now.total ≤ 2 ^ 62 }
    {
        self.dropped
    }

    /// Returns the position of an absolute index, from 0 at the oldest live entry, or `None` if the entry was dropped.
    fn position(&self, absolute: AbsoluteIndex) -> Option<usize>
        ensures found { IfSome result (IsPositionOf self.now absolute) }
        ensures above { IsSome result ↔ (self.now.dropped < absolute) }
    {
        absolute.checked_sub(self.dropped)?.checked_sub(1)
    }
}
