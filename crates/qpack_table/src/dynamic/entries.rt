//! The live entries of a table, in their order, and how a new one replaces the oldest.

ghost use Rattle.std.specs.Prelude.{◌≡◌, ℕ, ◌+◌, ◌-◌, ◌^◌, ◌<◌, ◌≤◌, [], ◌∷◌, ◌++◌, length, drop, max};
ghost use Rattle.std.specs.Prelude.{OnOk, OnErr, false, min, true};
ghost use Rattle.std.specs.VecDeque.{deque_capacity};
ghost use Rattle.qpack_base.specs.HeaderFields.{line_of};
ghost use Rattle.qpack_spec.specs.Field.{field_size, total_size, unmarked};
ghost use Rattle.qpack_spec.specs.Table.{fields_in};
ghost use Rattle.qpack_table.specs.Growth.{grown};
ghost use Rattle.qpack_table.specs.Tables.{entries_of};

use crate::dynamic::entry_index::EntryIndex;
use crate::dynamic::growth::{ENTRIES, make_room};
use crate::vas::VirtualAddressSpace;
use qpack_base::field::FieldLine;
use qpack_base::stored_field::StoredField;
use std::alloc::AllocError;
use std::collections::VecDeque;
use std::marker::Model;

/// The live entries of a table, the oldest first.
pub type Entries<F> = VecDeque<Entry<F>>;

/// A live entry.
#[derive(Debug, Drop)]
pub struct Entry<F: StoredField> {
    pub(super) field: F,
    /// Whether an encoder's handle inserted it, and so sent it.
    pub(super) sent: bool,
    /// Whether the block in progress references it.
    pub(super) referenced: bool,
    /// How many blocks reference it: unacknowledged ones, and the one in progress.
    pub(super) uses: usize,
}

impl<F: StoredField> Model for Entry<F> {
    ghost use Rattle.qpack_table.specs.Entries.{Entry};

    ghost Value = { Entry };

    ghost view = { λ e. record {
      field = F.field e.field;
      sent = e.sent;
      referenced = e.referenced;
      uses = e.uses;
    } };
}

impl<F: StoredField> Entry<F> {
    /// Borrows the field.
    #[inline(always)]
    pub(super) fn field(&self) -> &F
        ensures { F.field result.now ≡ self.now.field }
    {
        &self.field
    }

    /// Borrows the field as a line that may be indexed.
    #[inline(always)]
    pub(super) fn as_line(&self) -> FieldLine<'_>
        ensures { line_of result ≡ unmarked self.now.field }
    {
        self.field.as_line()
    }

    /// Returns the size of the field in a table, in bytes, at most 2^64 - 1 (RFC 9204, section 3.2.1).
    #[inline(always)]
    pub(super) fn mem_size(&self) -> usize
        ensures { result ≡ min (field_size self.now.field) (2 ^ 64 - 1) }
    {
        self.field.mem_size()
    }

    /// Returns whether an encoder's handle inserted it, and so sent it.
    pub(super) fn is_sent(&self) -> bool
        ensures { result ≡ self.now.sent }
    {
        self.sent
    }

    /// Returns whether the block in progress references it.
    pub(super) fn is_referenced(&self) -> bool
        ensures { result ≡ self.now.referenced }
    {
        self.referenced
    }

    /// Returns how many blocks reference it: unacknowledged ones, and the one in progress.
    pub(super) fn uses(&self) -> usize
        ensures { result ≡ self.now.uses }
    {
        self.uses
    }

    /// Counts one more block that references it, the one in progress.
    #[inline(always)]
    pub(super) fn mark_referenced(&mut self)
        requires { self.old.uses < 2 ^ 64 - 1 }
        ensures { self.new ≡ record self.old { referenced = true; uses = self.old.uses + 1 } }
    {
        self.referenced = true;
        self.uses += 1;
    }

    /// Clears the mark that the block in progress references it.
    #[inline(always)]
    pub(super) fn clear_mark(&mut self)
        ensures { self.new ≡ record self.old { referenced = false } }
    {
        self.referenced = false;
    }

    /// Counts one block less that references it.
    #[inline(always)]
    pub(super) fn lower_uses(&mut self)
        requires { 0 < self.old.uses }
        ensures { self.new ≡ record self.old { uses = self.old.uses - 1 } }
    {
        self.uses -= 1;
    }
}

/// Pops the oldest entries, and returns the sum of their sizes.
pub(super) fn pop_oldest<F: StoredField>(
    entries: &mut Entries<F>,
    vas: &mut VirtualAddressSpace,
    evicted: usize,
) -> usize
    requires there { evicted ≤ length entries.old.items }
    requires counted { vas.old.total ≡ vas.old.dropped + length entries.old.items }
    requires small { total_size (fields_in (entries_of entries.old.items)) < 2 ^ 63 }
    ensures left { entries.new.items ≡ drop evicted entries.old.items }
    ensures capacity { deque_capacity entries.new ≡ deque_capacity entries.old }
    ensures dropped { vas.new ≡ record vas.old { dropped = vas.old.dropped + evicted } }
    ensures freed { result + total_size (drop evicted (fields_in (entries_of entries.old.items))) ≡
        total_size (fields_in (entries_of entries.old.items)) }
{
    let mut freed = 0;
    for _ in 0..evicted {
        let Some(entry) = entries.pop_front() else {
            break;
        };
        freed += entry.mem_size();
        vas.drop();
    }
    freed
}

/// Gives the memory of an empty list and of its index back. One with entries stays as it is.
pub(super) fn give_back_room<I: EntryIndex, F: StoredField>(entries: &mut Entries<F>, index: &mut I)
    ensures items { entries.new.items ≡ entries.old.items }
    ensures given { length entries.old.items ≡ 0 → deque_capacity entries.new ≡ 0 }
    ensures kept { 0 < length entries.old.items → deque_capacity entries.new ≡ deque_capacity entries.old }
    ensures index_given { length entries.old.items ≡ 0 → I.has_no_room index.new }
    ensures index_kept { 0 < length entries.old.items → index.new ≡ index.old }
    ensures own { (key : I.Key) → I.is_own key index.old → I.is_own key index.new }
    ensures index { (dropped : ℕ) → I.is_index_of index.old dropped entries.old.items
        → I.is_index_of index.new dropped entries.new.items }
{
    if entries.is_empty() {
        entries.shrink_to_fit();
        *index = index.emptied();
    }
}

/// Drops the oldest entries, appends another after the newest, and updates the sum of their sizes. On error, which is
/// for memory only, nothing changes. With free room for the entry the list does not grow. The key is that of the
/// entry's field.
#[inline(always)]
pub(super) fn replace_oldest<I: EntryIndex, F: StoredField>(
    entries: &mut Entries<F>,
    index: &mut I,
    vas: &mut VirtualAddressSpace,
    mem_size: &mut usize,
    evicted: usize,
    entry: Entry<F>,
    key: I::Key,
) -> Result<(), AllocError>
    requires there { evicted ≤ length entries.old.items }
    requires counted { vas.old.total ≡ vas.old.dropped + length entries.old.items }
    requires few { vas.old.total < 2 ^ 62 }
    requires live { length entries.old.items < 2 ^ 31 }
    requires index { I.is_index_of index.old vas.old.dropped entries.old.items }
    requires sum { mem_size.old ≡ total_size (fields_in (entries_of entries.old.items)) }
    requires small { mem_size.old < 2 ^ 63 }
    requires small_entry { field_size entry.field < 2 ^ 63 }
    requires key { I.is_key_of key entry.field }
    ensures entered { OnOk result (entries.new.items ≡ drop evicted entries.old.items ++ entry ∷ []) }
    ensures dropped { OnOk result (vas.new.dropped ≡ vas.old.dropped + evicted) }
    ensures inserted { OnOk result (vas.new.total ≡ vas.old.total + 1) }
    ensures sum { OnOk result (mem_size.new
        ≡ total_size (drop evicted (fields_in (entries_of entries.old.items))) + field_size entry.field) }
    ensures same_sum { OnErr result (mem_size.new ≡ mem_size.old) }
    ensures same_entries { OnErr result (entries.new.items ≡ entries.old.items) }
    ensures same_space { OnErr result (vas.new ≡ vas.old) }
    ensures index { I.is_index_of index.new vas.new.dropped entries.new.items }
    ensures still { length entries.old.items + 1 ≤ deque_capacity entries.old
        → deque_capacity entries.new ≡ deque_capacity entries.old }
    ensures grown { OnOk result (deque_capacity entries.old ≤ length entries.old.items
        → deque_capacity entries.new ≡ grown 8 (length entries.old.items)) }
    ensures capacity { deque_capacity entries.new
        ≤ max (deque_capacity entries.old) (grown 8 (length entries.old.items)) }
    ensures spare { (most : ℕ) → length entries.old.items ≤ most → I.has_few_spare most index.old
        → I.has_few_spare most index.new }
{
    let size = entry.mem_size();
    let key = index.own_key(key, &entry.as_line());
    make_room(entries, ENTRIES)?;
    index.reserve(entries, vas.total_dropped())?;
    let freed = index.drop_oldest(entries, vas, evicted);
    *mem_size = *mem_size - freed + size;
    vas.add();
    entries.push_back_reserved(entry);
    index.enter(entries, vas.total_dropped(), key);
    Ok(())
}
