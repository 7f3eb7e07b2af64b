//! The table: what it holds, its lookups, what is put into it and its capacity (RFC 9204, section 3.2).

ghost use Rattle.std.specs.Prelude.{◌≡◌, ℕ, [], ◌+◌, ◌-◌, ◌^◌, ◌<◌, ◌≤◌, Some, None, IfOk, IfErr, IfSome, IfNone, true};
ghost use Rattle.std.specs.Prelude.{false, IsOk, OnOk, OnErr, length};
ghost use Rattle.std.specs.Prelude.{slice_get};
ghost use Rattle.qpack_base.specs.HeaderFields.{line_of};
ghost use Rattle.qpack_base.specs.Refusals.{IsRefusedFor};
ghost use Rattle.qpack_spec.specs.Chosen.{passes_at};
ghost use Rattle.qpack_spec.specs.Field.{Field, field_size, is_field, total_size};
ghost use Rattle.qpack_spec.specs.Table.{empty_table, insert_count, window, fields_in, can_evict, eviction_count_for};
ghost use Rattle.qpack_spec.specs.Table.{with_entry, with_reference, sent_entry};
ghost use Rattle.qpack_spec.specs.Table.{put, with_capacity};
ghost use Rattle.qpack_spec.specs.Reading.{relative_field, post_base_field};
ghost use Rattle.qpack_spec.specs.Window.{absolute_entry, eviction_count, relative_entry, greatest_capacity};
ghost use Rattle.qpack_spec.specs.Window.{maximum_capacity};
ghost use Rattle.std.specs.Option.{option_map};
ghost use Rattle.qpack_table.specs.Positions.{positions_of};
ghost use Rattle.qpack_table.specs.Tables.{IsEvictableAt, LooksUp, IsInserted, entries_of, Changes, ChangesWithMemory};
ghost use Rattle.qpack_table.specs.Tables.{refusal_of};
ghost use Rattle.qpack_table.specs.declared.dynamic.Error.TheVariants.{BadRelativeIndex, BadIndex};
ghost use Rattle.qpack_table.specs.declared.dynamic.Error.TheVariants.{MaxBlockedStreamsTooLarge};
ghost use Rattle.qpack_table.specs.declared.dynamic.Error.TheVariants.{MaximumTableSizeTooLarge};

use crate::dynamic::Error;
use crate::dynamic::block::make_room;
use crate::dynamic::capacities::{Capacities, GREATEST_CAPACITY};
use crate::dynamic::comparing::{Part, Steps, compare_entry};
use crate::dynamic::entries::{Entries, Entry, give_back_room, replace_oldest};
use crate::dynamic::entry_index::{EntryIndex, NoIndex};
use crate::dynamic::index::Index;
use crate::dynamic::open_blocks::{BlockedBlocks, OpenBlocks};
use crate::dynamic::sorted::SortedIndex;
use crate::vas::VirtualAddressSpace;
use qpack_base::field::{FieldLine, HeaderField};
use qpack_base::stored_field::{PackedField, StoredField};
use std::alloc::{AllocError, Global};
use std::marker::Model;

/// The limits of blocked streams that may be set are below this.
const TOO_MANY_BLOCKED: usize = 65_535;

/// The number of insertions at which no more are made.
pub(super) const MOST_INSERTIONS: usize = 1 << 62;

/// The dynamic table of one end, with what it keeps beside its entries to find them: an index, unless it only receives
/// ([`ReceivedTable`]). `F` is how an entry stores its field.
#[derive(Debug, Drop)]
pub struct DynamicTable<I: EntryIndex = SortedIndex, F: StoredField = HeaderField> {
    /// The live entries, the oldest first.
    pub(super) entries: Entries<F>,
    pub(super) vas: VirtualAddressSpace,
    /// The sum of the live fields' sizes, in bytes.
    pub(super) mem_size: usize,
    pub(super) capacities: Capacities,
    pub(super) max_blocked: usize,
    /// The known received count.
    pub(super) known_received_count: usize,
    /// The absolute indexes that the block in progress references.
    pub(super) referenced: Vec<usize>,
    pub(super) unacknowledged: OpenBlocks,
    pub(super) blocked: BlockedBlocks,
    /// Of the live entries.
    pub(super) index: I,
}

/// A table that only receives: its entries are asked for by their indexes alone, so it keeps no index of their fields.
pub type ReceivedTable = DynamicTable<NoIndex>;

/// A table that keeps each field in one allocation, for the end of a connection that encodes.
pub type PackedTable = DynamicTable<Index, PackedField>;

/// A table that only receives, and keeps each field in one allocation, for the end that decodes.
pub type ReceivedPackedTable = DynamicTable<NoIndex, PackedField>;

impl<I: EntryIndex, F: StoredField> Model for DynamicTable<I, F> {
    ghost use Rattle.qpack_spec.specs.Table.{Table};
    ghost use Rattle.qpack_table.specs.Tables.{IsKept, entries_of};
    ghost use Rattle.qpack_table.specs.BlockedBlocks.{counts_of};

    ghost Value = { Table };

    ghost view = { λ a. record {
      capacity = a.capacities.capacity;
      agreed_max = a.capacities.agreed_max;
      limit = a.max_blocked;
      dropped = a.vas.dropped;
      live = entries_of a.entries.items;
      known_received_count = a.known_received_count;
      referenced = a.referenced.items;
      unacknowledged = a.unacknowledged;
      blocked = counts_of a.blocked;
    } };

    ghost invariant = { λ a. IsKept a.vas a.entries.items a.mem_size a.capacities.capacity a.referenced.items
        a.unacknowledged (I.is_index_of a.index) };
}

impl DynamicTable {
    /// Returns an empty table, of capacity 0 and with no block that may be blocked.
    pub fn new(alloc: Global) -> DynamicTable
        ensures { result ≡ empty_table 0 None 0 }
    {
        DynamicTable::with_index(alloc, SortedIndex::new(alloc))
    }
}

impl<F: StoredField> DynamicTable<Index, F> {
    /// Returns an empty table, as `new` does, whose index hashes fields with a seed. What it returns depends on no
    /// seed; but only with a secret one nobody can prepare fields that take long to insert.
    pub fn with_seed(alloc: Global, seed: u64) -> DynamicTable<Index, F>
        ensures { result ≡ empty_table 0 None 0 }
    {
        DynamicTable::with_index(alloc, Index::new(alloc, seed))
    }
}

impl<I: EntryIndex, F: StoredField> DynamicTable<I, F> {
    /// Sets how many blocks may be blocked at once, at most 65,534 (RFC 9204, section 2.1.2).
    pub fn set_max_blocked(&mut self, max: usize) -> Result<(), Error>
        ensures ok { OnOk result ((max < 65535) × (self.new ≡ record self.old { limit = max })) }
        ensures err { IfErr result (λ e. (e ≡ MaxBlockedStreamsTooLarge) × (65535 ≤ max) × (self.new ≡ self.old)) }
    {
        if max >= TOO_MANY_BLOCKED {
            return Err(Error::MaxBlockedStreamsTooLarge);
        }
        self.max_blocked = max;
        Ok(())
    }

    /// Inserts a field that an encoder sends, which has this key, and references it in the block in progress. On
    /// error, which is for memory only, nothing changes.
    #[inline(always)]
    pub(super) fn insert_sent(
        &mut self,
        field: F,
        key: I::Key,
        evicted: usize,
    ) -> Result<(), AllocError>
        requires key { I.is_key_of key (F.field field) }
        requires few { insert_count self.old < 2 ^ 62 }
        requires fits { field_size (F.field field) ≤ self.old.capacity }
        requires evicted { evicted ≡ eviction_count_for self.old (F.field field) }
        ensures ok { OnOk result (self.new
            ≡ with_reference (with_entry self.old (sent_entry (F.field field))) (insert_count self.old + 1)) }
        ensures err { OnErr result (self.new ≡ self.old) }
    {
        make_room(&mut self.referenced)?;
        let entry = Entry {
            field,
            sent: true,
            referenced: true,
            uses: 1,
        };
        replace_oldest(
            &mut self.entries,
            &mut self.index,
            &mut self.vas,
            &mut self.mem_size,
            evicted,
            entry,
            key,
        )?;
        self.referenced.push_reserved(self.vas.total_inserted());
        Ok(())
    }
}

impl<F: StoredField> DynamicTable<NoIndex, F> {
    /// Returns an empty table of a decoder, without an index.
    pub fn without_index(alloc: Global) -> DynamicTable<NoIndex, F>
        ensures { result ≡ empty_table 0 None 0 }
    {
        DynamicTable::with_index(alloc, NoIndex)
    }
}

impl<I: EntryIndex, F: StoredField> DynamicTable<I, F> {
    /// Returns an empty table, of capacity 0 and with no block that may be blocked, with an index of no entry.
    fn with_index(alloc: Global, index: I) -> DynamicTable<I, F>
        requires { (dropped : ℕ) → I.is_index_of index dropped [] }
        ensures { result ≡ empty_table 0 None 0 }
    {
        DynamicTable {
            entries: Entries::new(alloc),
            vas: VirtualAddressSpace::default(),
            mem_size: 0,
            capacities: Capacities::default(),
            max_blocked: 0,
            known_received_count: 0,
            referenced: Vec::new(alloc),
            unacknowledged: OpenBlocks::new(alloc),
            blocked: BlockedBlocks::new(alloc),
            index,
        }
    }

    /// Returns how many insertions were ever made.
    pub fn total_inserted(&self) -> usize
        ensures { result ≡ insert_count self.now }
    {
        self.vas.total_inserted()
    }

    /// Returns how many entries were evicted.
    pub(super) fn total_dropped(&self) -> usize
        ensures { result ≡ self.now.dropped }
    {
        self.vas.total_dropped()
    }

    /// Returns the size of the table in bytes: the sum of its entries' sizes (RFC 9204, section 3.2.1). It is at most the
    /// capacity.
    pub fn used(&self) -> usize
        ensures { result ≡ total_size (fields_in self.now.live) }
    {
        self.mem_size
    }

    /// Returns how many entries the table has.
    pub fn count(&self) -> usize
        ensures { result ≡ length self.now.live }
    {
        self.entries.len()
    }

    /// Returns the size in bytes of the live entry with an absolute index.
    pub(super) fn entry_size(&self, absolute: usize) -> Option<usize>
        ensures { result ≡ option_map field_size (absolute_entry (window self.now) absolute) }
    {
        let dropped = self.vas.total_dropped();
        if absolute <= dropped {
            return None;
        }
        match self.entries.get(absolute - dropped - 1) {
            Some(entry) => Some(entry.mem_size()),
            None => None,
        }
    }

    /// Returns whether the entry with an absolute index is live and equals a field.
    pub(super) fn is_equal(&self, absolute: usize, field: &FieldLine<'_>) -> bool
        ensures { result ≡ passes_at self.now (is_field (line_of field.now).field) absolute }
    {
        let dropped = self.vas.total_dropped();
        if absolute <= dropped {
            return false;
        }
        match self.entries.get(absolute - dropped - 1) {
            Some(entry) => {
                compare_entry(Part::Whole(0), field, entry, &mut Steps::new()).is_eq()
            }
            None => false,
        }
    }

    /// Returns the capacity in bytes, which is below 2^30. The live fields fit it.
    pub fn max_mem_size(&self) -> usize
        ensures exact { result ≡ self.now.capacity }
        ensures most { result < 2 ^ 30 }
        ensures fits { total_size (fields_in self.now.live) ≤ result }
    {
        self.capacities.capacity()
    }

    /// Returns the allocator of the table.
    pub fn allocator(&self) -> Global {
        *self.entries.allocator()
    }

    /// Returns the table under the base of a block.
    pub fn decoder(&self, base: usize) -> DynamicTableDecoder<'_, I, F>
        ensures table { result.table.now ≡ self.now }
        ensures base { result.base ≡ base }
    {
        DynamicTableDecoder { table: self, base }
    }

    /// Returns the live field of an instruction's relative index, 0 the newest (RFC 9204, section 3.2.5).
    pub fn get_relative(&self, index: usize) -> Result<&F, Error>
        ensures found { IfOk result (λ field. relative_entry (window self.now) index ≡ Some (F.field field.now)) }
        ensures refused { IfErr result
            (λ e. (e ≡ BadRelativeIndex index) × (relative_entry (window self.now) index ≡ None)) }
    {
        let position = self.positions().relative(index)?;
        self.field_at(position)
    }

    /// Returns the live field of a line's relative index under a base (RFC 9204, section 3.2.5).
    fn get_relative_base(&self, base: usize, index: usize) -> Result<&F, Error>
        ensures { LooksUp F.field result (relative_field (window self.now) base index) }
    {
        let position = self.positions().relative_base(base, index)?;
        self.field_at(position)
    }

    /// Returns the live field of a line's post-base index (RFC 9204, section 3.2.6).
    fn get_postbase(&self, base: usize, index: usize) -> Result<&F, Error>
        ensures { LooksUp F.field result (post_base_field (window self.now) base index) }
    {
        let position = self.positions().post_base(base, index)?;
        self.field_at(position)
    }

    /// Returns the address space, which is that of what both ends share.
    fn positions(&self) -> &VirtualAddressSpace
        ensures { result.now ≡ positions_of (window self.now) }
    {
        &self.vas
    }

    /// Returns the live field at a position.
    fn field_at(&self, position: usize) -> Result<&F, Error>
        ensures found { IfOk result
            (λ field. slice_get (fields_in self.now.live) position ≡ Some (F.field field.now)) }
        ensures refused { IfErr result (λ e. (e ≡ BadIndex position)
            × (slice_get (fields_in self.now.live) position ≡ None)) }
    {
        match self.entries.get(position) {
            Some(entry) => Ok(entry.field()),
            None => Err(Error::BadIndex(position)),
        }
    }

    /// Returns whether the live entry at a position is evictable: no block references it, and it was not sent or is
    /// known to be received (RFC 9204, section 2.1.1).
    fn is_evictable(&self, position: usize) -> bool
        requires { position < length self.now.live }
        ensures { IsEvictableAt self.now position result }
    {
        let entry = &self.entries[position];
        if entry.uses() > 0 {
            return false;
        }
        let dropped = self.total_inserted() - self.entries.len();
        !entry.is_sent() || dropped + position < self.known_received_count
    }

    /// Returns the least number of oldest entries whose removal lets the rest fit this many bytes, if each of them is
    /// evictable. Stops at the first that is not (RFC 9204, sections 2.1.1 and 3.2.2).
    fn evictable_count(&self, room: usize) -> Option<usize>
        ensures least { IfSome result (λ evicted. evicted ≡ eviction_count room (fields_in self.now.live)) }
        ensures evictable { IfSome result (λ evicted. can_evict self.now evicted ≡ true) }
        ensures held { IfNone result
            (can_evict self.now (eviction_count room (fields_in self.now.live)) ≡ false) }
    {
        let mut rest = self.mem_size;
        let mut evicted = 0;
        while evicted < self.entries.len() && rest > room {
            if !self.is_evictable(evicted) {
                return None;
            }
            rest -= self.entries[evicted].mem_size();
            evicted += 1;
        }
        Some(evicted)
    }

    /// Returns how many of the oldest entries are evicted for a field of this many bytes, if each of them is evictable.
    pub(super) fn evictable_for(&self, size: usize) -> Option<usize>
        requires fits { size ≤ self.now.capacity }
        ensures least { IfSome result
            (λ evicted. (field : Field) → field_size field ≡ size → evicted ≡ eviction_count_for self.now field) }
        ensures evictable { IfSome result (λ evicted. can_evict self.now evicted ≡ true) }
        ensures held { IfNone result ((field : Field) → field_size field ≡ size
            → can_evict self.now (eviction_count_for self.now field) ≡ false) }
    {
        self.evictable_count(self.max_mem_size() - size)
    }

    /// Inserts a field as the newest, and evicts this many of the oldest entries. On error, which is for memory only,
    /// nothing changes.
    fn insert(&mut self, field: F, sent: bool, evicted: usize) -> Result<(), AllocError>
        requires few { insert_count self.old < 2 ^ 62 }
        requires fits { field_size (F.field field) ≤ self.old.capacity }
        requires evicted { evicted ≡ eviction_count_for self.old (F.field field) }
        ensures ok { OnOk result (self.new ≡ with_entry self.old (record { field = F.field field; sent = sent })) }
        ensures err { OnErr result (self.new ≡ self.old) }
    {
        let key = self.index.key_of(&field.as_line());
        self.insert_hashed(field, sent, evicted, key)
    }

    /// Inserts a field with this key, as `insert` does.
    #[inline(always)]
    pub(super) fn insert_hashed(
        &mut self,
        field: F,
        sent: bool,
        evicted: usize,
        key: I::Key,
    ) -> Result<(), AllocError>
        requires key { I.is_key_of key (F.field field) }
        requires few { insert_count self.old < 2 ^ 62 }
        requires fits { field_size (F.field field) ≤ self.old.capacity }
        requires evicted { evicted ≡ eviction_count_for self.old (F.field field) }
        ensures ok { OnOk result (self.new ≡ with_entry self.old (record { field = F.field field; sent = sent })) }
        ensures err { OnErr result (self.new ≡ self.old) }
    {
        let entry = Entry {
            field,
            sent,
            referenced: false,
            uses: 0,
        };
        replace_oldest(
            &mut self.entries,
            &mut self.index,
            &mut self.vas,
            &mut self.mem_size,
            evicted,
            entry,
            key,
        )?;
        Ok(())
    }

    /// Inserts a field, as a decoder does, and evicts entries as needed (RFC 9204, section 3.2.2). Does nothing at
    /// capacity 0, after the 2^62th insertion, and if an entry that is not evictable would be evicted. Fails if the
    /// field is larger than the capacity. Only an insertion takes memory. On error nothing changes.
    #[tactic(auto, using(crate::proofs::Changes::put_without_entry))]
    pub fn put(&mut self, field: F) -> Result<(), Error>
        ensures { ChangesWithMemory (IsInserted self.old (F.field field)) result
            (put self.old (F.field field)) self.old self.new }
    {
        let capacity = self.max_mem_size();
        if capacity == 0 {
            return Ok(());
        }
        let size = field.mem_size();
        if size > capacity {
            return Err(Error::MaxTableSizeReached);
        }
        if self.total_inserted() >= MOST_INSERTIONS {
            return Ok(());
        }
        let Some(evicted) = self.evictable_for(size) else {
            return Ok(());
        };
        Ok(self.insert(field, false, evicted)?)
    }

    /// Returns the greatest capacity that may be set, in bytes.
    fn greatest_capacity(&self) -> usize
        ensures agreed_max { result ≡ greatest_capacity self.now.agreed_max }
        ensures most { result < 2 ^ 30 }
    {
        self.capacities.greatest()
    }

    /// Returns the maximum capacity in bytes: what was agreed, and the present capacity until then (RFC 9204, section
    /// 3.2.3).
    pub fn agreed_max(&self) -> usize
        ensures exact { result ≡ maximum_capacity self.now.agreed_max self.now.capacity }
        ensures most { self.now.capacity ≤ result }
        ensures fits { total_size (fields_in self.now.live) ≤ result }
    {
        self.capacities.maximum()
    }

    /// Agrees on a maximum capacity in bytes, before anything is inserted; from then on no capacity above it is set
    /// (RFC 9204, section 3.2.3). Fails if the maximum is 2^30 or more. It takes no memory. On error nothing changes.
    pub fn set_agreed_max(&mut self, max: usize) -> Result<(), Error>
        requires empty { insert_count self.old ≡ 0 }
        requires most { self.old.capacity ≤ max }
        ensures ok { OnOk result ((max < 2 ^ 30) × (self.new ≡ record self.old { agreed_max = Some max })) }
        ensures err { IfErr result (λ e. (e ≡ MaximumTableSizeTooLarge) × (2 ^ 30 ≤ max) × (self.new ≡ self.old)) }
    {
        if max > GREATEST_CAPACITY {
            return Err(Error::MaximumTableSizeTooLarge);
        }
        self.capacities.agree(max);
        Ok(())
    }

    /// Sets the capacity in bytes, and evicts entries that no longer fit, the oldest first (RFC 9204, section 3.2.3). A
    /// table that is empty then gives the memory of its entries and of its index back. Fails if the capacity is above
    /// the maximum or is 2^30 or more, and if it would evict an entry that is not evictable. On error nothing changes.
    pub fn set_max_size(&mut self, size: usize) -> Result<(), Error>
        ensures { Changes result (with_capacity self.old size) self.old self.new }
    {
        let evicted = self.evicted_for_capacity(size)?;
        let freed = self
            .index
            .drop_oldest(&mut self.entries, &mut self.vas, evicted);
        give_back_room(&mut self.entries, &mut self.index);
        self.mem_size -= freed;
        self.capacities.set(size);
        Ok(())
    }

    /// Returns whether `set_max_size` would set this capacity, or its error. Nothing changes.
    pub fn check_max_size(&self, size: usize) -> Result<(), Error>
        ensures ok { OnOk result (IsOk (with_capacity self.now size)) }
        ensures err { IfErr result (λ e. IsRefusedFor (with_capacity self.now size) (refusal_of e)) }
    {
        self.evicted_for_capacity(size)?;
        Ok(())
    }

    /// Returns how many of the oldest entries are evicted for a capacity of this many bytes, or the error of
    /// `set_max_size`.
    fn evicted_for_capacity(&self, size: usize) -> Result<usize, Error>
        ensures within { OnOk result (size ≤ greatest_capacity self.now.agreed_max) }
        ensures small { OnOk result (size < 2 ^ 30) }
        ensures least { IfOk result (λ evicted. evicted ≡ eviction_count size (fields_in self.now.live)) }
        ensures evictable { IfOk result (λ evicted. can_evict self.now evicted ≡ true) }
        ensures err { IfErr result (λ e. IsRefusedFor (with_capacity self.now size) (refusal_of e)) }
    {
        if size > self.greatest_capacity() {
            return Err(Error::MaximumTableSizeTooLarge);
        }
        self.evictable_count(size).ok_or(Error::MaxTableSizeReached)
    }
}

/// A table under the base of a block, whose lines reference its entries.
#[derive(Debug, Drop)]
pub struct DynamicTableDecoder<'a, I: EntryIndex = SortedIndex, F: StoredField = HeaderField> {
    table: &'a DynamicTable<I, F>,
    base: usize,
}

impl<I: EntryIndex, F: StoredField> DynamicTableDecoder<'_, I, F> {
    /// Returns the field that a line's relative index references (RFC 9204, section 3.2.5). Under a base above the
    /// total, the index may reference a position after the newest entry; the error is then `BadIndex`.
    pub fn get_relative(&self, index: usize) -> Result<&F, Error>
        ensures { LooksUp F.field result (relative_field (window self.now.table.now) self.now.base index) }
    {
        self.table.get_relative_base(self.base, index)
    }

    /// Returns the field that a line's post-base index references (RFC 9204, section 3.2.6).
    pub fn get_postbase(&self, index: usize) -> Result<&F, Error>
        ensures { LooksUp F.field result (post_base_field (window self.now.table.now) self.now.base index) }
    {
        self.table.get_postbase(self.base, index)
    }
}
