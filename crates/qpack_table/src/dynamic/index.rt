//! The index of the live entries, by which the newest entry with a field, or with a name, is found. It keeps only
//! hashes and absolute indexes: pass each call the entries, and how many were dropped before them.

ghost use Rattle.std.specs.Prelude.{◌≡◌, ℕ, ◌+◌, ◌-◌, ◌^◌, ◌<◌, ◌≤◌, [], OnOk, OnErr, length, drop};
ghost use Rattle.std.specs.Prelude.{vec_capacity};
ghost use Rattle.qpack_base.specs.HeaderFields.{line_of};
ghost use Rattle.qpack_spec.specs.Field.{is_field, has_name};
ghost use Rattle.qpack_table.specs.Rows.{field_at, Counts, GrowsSlots};
ghost use Rattle.qpack_table.specs.Tables.{IsIndexOfEntries, entries_of, live_fields};
ghost use Rattle.qpack_table.specs.SameFields.{with_same_fields};
ghost use Rattle.qpack_table.specs.Hashes.{name_hash};
ghost use Rattle.qpack_table.specs.Indexes.{AreHashesOf, AreSeededHashesOf, IsIndexOf, IsNewestIn};
ghost use Rattle.qpack_table.specs.Indexes.{KeepsSlots, HasNoSlots, HasRoomForEntry, HasFewSpare};

mod hash;
mod row;

use crate::dynamic::comparing::{Part, Steps};
use crate::dynamic::entries::Entries;
use crate::dynamic::entry_index::{EntryIndex, FindsEntries};
pub use crate::dynamic::index::hash::Hashes;
pub(super) use crate::dynamic::index::hash::SeededHashes;
use crate::dynamic::index::hash::hash_name;
use crate::dynamic::index::row::{Row, Sought};
use crate::vas::VirtualAddressSpace;
use qpack_base::field::FieldLine;
use qpack_base::stored_field::StoredField;
use std::alloc::{AllocError, Global};

/// The newest live entry of each different field, and of each different name.
#[derive(Debug, Drop)]
pub struct Index {
    fields: Row,
    names: Row,
    /// What the hashes are computed under.
    seed: u64,
    alloc: Global,
}

impl Index {
    /// Returns the index of no entry, with a seed. It takes no memory.
    pub(super) fn new(alloc: Global, seed: u64) -> Index
        ensures index { (dropped : ℕ) → IsIndexOf dropped [] 0 result }
        ensures room { HasNoSlots result }
        ensures seed { result.seed ≡ seed }
    {
        Index {
            fields: Row::new(alloc),
            names: Row::new(alloc),
            seed,
            alloc,
        }
    }

    /// Returns what the hashes are computed under.
    pub(super) fn seed(&self) -> u64
        ensures { result ≡ self.now.seed }
    {
        self.seed
    }

    /// Returns another index of no entry, with the same seed.
    pub(super) fn emptied(&self) -> Index
        ensures index { (dropped : ℕ) → IsIndexOf dropped [] 0 result }
        ensures room { HasNoSlots result }
        ensures seed { result.seed ≡ self.now.seed }
    {
        Index::new(self.alloc, self.seed)
    }

    /// Returns the newest entry with the field. If there is no entry, nothing is hashed.
    pub(super) fn newest_equal<F: StoredField>(
        &self,
        entries: &Entries<F>,
        dropped: usize,
        field: &FieldLine<'_>,
        steps: &mut Steps,
    ) -> Option<usize>
        requires few { dropped + length entries.now.items < 2 ^ 64 }
        requires index { IsIndexOf dropped (live_fields entries.now.items) (length entries.now.items) self.now }
        ensures found { IsNewestIn dropped (entries_of entries.now.items) (is_field (line_of field.now).field) result }
        ensures steps { Counts (length entries.now.items) steps.old.count steps.new.count }
    {
        if entries.is_empty() {
            return None;
        }
        let hashes = Hashes::of(self.seed, field);
        self.newest_hashed(entries, dropped, field, hashes, steps)
    }

    /// Returns the newest entry with a field that has these hashes.
    #[inline(always)]
    pub(super) fn newest_hashed<F: StoredField>(
        &self,
        entries: &Entries<F>,
        dropped: usize,
        field: &FieldLine<'_>,
        hashes: Hashes,
        steps: &mut Steps,
    ) -> Option<usize>
        requires few { dropped + length entries.now.items < 2 ^ 64 }
        requires index { IsIndexOf dropped (live_fields entries.now.items) (length entries.now.items) self.now }
        requires hashes { AreHashesOf self.now.seed hashes (line_of field.now).field }
        ensures found { IsNewestIn dropped (entries_of entries.now.items) (is_field (line_of field.now).field) result }
        ensures steps { Counts (length entries.now.items) steps.old.count steps.new.count }
    {
        let sought = Sought {
            part: Part::Whole(self.seed),
            line: *field,
            hash: hashes.field,
        };
        self.fields.newest(entries, dropped, &sought, steps)
    }

    /// Returns the newest entry with the name. If there is no entry, nothing is hashed.
    pub(super) fn newest_of_name<F: StoredField>(
        &self,
        entries: &Entries<F>,
        dropped: usize,
        name: &[u8],
        steps: &mut Steps,
    ) -> Option<usize>
        requires few { dropped + length entries.now.items < 2 ^ 64 }
        requires index { IsIndexOf dropped (live_fields entries.now.items) (length entries.now.items) self.now }
        ensures found { IsNewestIn dropped (entries_of entries.now.items) (has_name name.now) result }
        ensures steps { Counts (length entries.now.items) steps.old.count steps.new.count }
    {
        if entries.is_empty() {
            return None;
        }
        let hash = hash_name(self.seed, name);
        self.newest_hashed_name(entries, dropped, name, hash, steps)
    }

    /// Returns the newest entry with a name that has this hash.
    pub(super) fn newest_hashed_name<F: StoredField>(
        &self,
        entries: &Entries<F>,
        dropped: usize,
        name: &[u8],
        hash: u32,
        steps: &mut Steps,
    ) -> Option<usize>
        requires few { dropped + length entries.now.items < 2 ^ 64 }
        requires index { IsIndexOf dropped (live_fields entries.now.items) (length entries.now.items) self.now }
        requires hash { hash ≡ name_hash self.now.seed name.now }
        ensures found { IsNewestIn dropped (entries_of entries.now.items) (has_name name.now) result }
        ensures steps { Counts (length entries.now.items) steps.old.count steps.new.count }
    {
        let sought = Sought {
            part: Part::Name(self.seed),
            line: FieldLine::new(name, &[]),
            hash,
        };
        self.names.newest(entries, dropped, &sought, steps)
    }

    /// Makes room for one more entry. It fails only if there is none. On error the same entries are in.
    #[inline(always)]
    pub(super) fn reserve(&mut self) -> Result<(), AllocError>
        ensures slots { KeepsSlots self.old self.new }
        ensures room { OnOk result (HasRoomForEntry self.new) }
        ensures full { OnErr result (HasRoomForEntry self.old → ⊥) }
        ensures fields { GrowsSlots self.old.fields self.new.fields }
        ensures names { GrowsSlots self.old.names self.new.names }
    {
        self.fields.reserve()?;
        self.names.reserve()
    }

    /// Adds the next newer entry after those that are in. There is room.
    #[inline(always)]
    pub(super) fn enter<F: StoredField>(
        &mut self,
        entries: &Entries<F>,
        dropped: usize,
        index: usize,
        hashes: Hashes,
    )
        requires few { length entries.now.items < 2 ^ 32 }
        requires live { (dropped < index) × (index ≤ dropped + length entries.now.items) }
        requires index { IsIndexOf dropped (live_fields entries.now.items) (index - dropped - 1) self.old }
        requires hashes { AreHashesOf self.old.seed hashes (field_at dropped (live_fields entries.now.items) index) }
        requires room { HasRoomForEntry self.old }
        ensures index { IsIndexOf dropped (live_fields entries.now.items) (index - dropped) self.new }
        ensures fields { vec_capacity self.new.fields.slots ≡ vec_capacity self.old.fields.slots }
        ensures names { vec_capacity self.new.names.slots ≡ vec_capacity self.old.names.slots }
        ensures seed { self.new.seed ≡ self.old.seed }
    {
        let line = entries[index - dropped - 1].as_line();
        let field = Sought {
            part: Part::Whole(self.seed),
            line,
            hash: hashes.field,
        };
        let name = Sought {
            part: Part::Name(self.seed),
            line,
            hash: hashes.name,
        };
        self.fields.enter(entries, dropped, index, &field);
        self.names.enter(entries, dropped, index, &name);
    }

    /// Removes the oldest entry, which is about to be popped. It takes no memory, and the room that was made stays.
    pub(super) fn leave<F: StoredField>(&mut self, entries: &Entries<F>, dropped: usize)
        requires some { 0 < length entries.now.items }
        requires index { IsIndexOf dropped (live_fields entries.now.items) (length entries.now.items) self.old }
        ensures index { IsIndexOf (dropped + 1) (drop 1 (live_fields entries.now.items))
            (length entries.now.items - 1) self.new }
        ensures room { HasRoomForEntry self.old → HasRoomForEntry self.new }
        ensures fields { vec_capacity self.new.fields.slots ≡ vec_capacity self.old.fields.slots }
        ensures names { vec_capacity self.new.names.slots ≡ vec_capacity self.old.names.slots }
        ensures seed { self.new.seed ≡ self.old.seed }
    {
        let line = entries[0].as_line();
        let hashes = Hashes::of(self.seed, &line);
        let field = Sought {
            part: Part::Whole(self.seed),
            line,
            hash: hashes.field,
        };
        let name = Sought {
            part: Part::Name(self.seed),
            line,
            hash: hashes.name,
        };
        self.fields.leave(entries, dropped, &field);
        self.names.leave(entries, dropped, &name);
    }
}

impl EntryIndex for Index {
    type Key = SeededHashes;

    ghost is_index_of = { λ index dropped entries. IsIndexOfEntries index dropped entries };

    ghost is_key_of = { λ known f. AreSeededHashesOf known f };

    ghost is_own = { λ known index. known.seed ≡ index.seed };

    ghost has_no_room = { λ index. HasNoSlots index };

    ghost has_room = { λ index. HasRoomForEntry index };

    ghost has_few_spare = { λ most index. HasFewSpare most index };

    ghost same_fields = { λ index dropped old new same is.
        with_same_fields (λ live count. IsIndexOf dropped live count index) old new same is };

    fn key_of(&self, field: &FieldLine<'_>) -> SeededHashes {
        SeededHashes::of(self.seed(), field)
    }

    #[inline(always)]
    fn own_key(&self, key: SeededHashes, field: &FieldLine<'_>) -> SeededHashes {
        key.reseeded(self.seed(), field)
    }

    fn emptied(&self) -> Index {
        Index::emptied(self)
    }

    #[inline(always)]
    fn reserve<F: StoredField>(
        &mut self,
        _entries: &Entries<F>,
        _dropped: usize,
    ) -> Result<(), AllocError> {
        Index::reserve(self)
    }

    #[inline(always)]
    fn enter<F: StoredField>(&mut self, entries: &Entries<F>, dropped: usize, key: SeededHashes) {
        Index::enter(self, entries, dropped, dropped + entries.len(), key.hashes);
    }

    fn drop_oldest<F: StoredField>(
        &mut self,
        entries: &mut Entries<F>,
        vas: &mut VirtualAddressSpace,
        evicted: usize,
    ) -> usize {
        let mut freed = 0;
        for _ in 0..evicted {
            let dropped = vas.total_inserted() - entries.len();
            self.leave(entries, dropped);
            let Some(entry) = entries.pop_front() else {
                break;
            };
            freed += entry.mem_size();
            vas.drop();
        }
        freed
    }
}

impl FindsEntries for Index {
    #[inline(always)]
    fn hashes_of(&self, field: &FieldLine<'_>) -> Option<SeededHashes> {
        Some(SeededHashes::of(self.seed(), field))
    }

    #[inline(always)]
    fn key_of_known(&self, field: &FieldLine<'_>, known: Option<SeededHashes>) -> SeededHashes {
        match known {
            Some(known) => known.reseeded(self.seed(), field),
            None => SeededHashes::of(self.seed(), field),
        }
    }

    #[inline(always)]
    fn newest_equal<F: StoredField>(
        &self,
        entries: &Entries<F>,
        dropped: usize,
        field: &FieldLine<'_>,
        known: Option<SeededHashes>,
        steps: &mut Steps,
    ) -> Option<usize> {
        match known {
            Some(known) => {
                let hashes = known.reseeded(self.seed(), field).hashes;
                self.newest_hashed(entries, dropped, field, hashes, steps)
            }
            None => Index::newest_equal(self, entries, dropped, field, steps),
        }
    }

    #[inline(always)]
    fn newest_of_name<F: StoredField>(
        &self,
        entries: &Entries<F>,
        dropped: usize,
        name: &[u8],
        known: Option<SeededHashes>,
    ) -> Option<usize> {
        let mut steps = Steps::new();
        match known {
            Some(known) => {
                let hash = known.name_under(self.seed(), name);
                self.newest_hashed_name(entries, dropped, name, hash, &mut steps)
            }
            None => Index::newest_of_name(self, entries, dropped, name, &mut steps),
        }
    }
}
