//! What a table keeps beside its entries to find one by its field: an index, or nothing if it is never used.

ghost use Rattle.std.specs.Prelude.{◌≡◌, ℕ, ◌+◌, ◌^◌, ◌<◌, ◌≤◌, ⊤, List, [], ◌∷◌, ◌++◌, OnOk, IfSome, length, drop};
ghost use Rattle.qpack_base.specs.HeaderFields.{line_of};
ghost use Rattle.std.specs.VecDeque.{deque_capacity};
ghost use Rattle.qpack_spec.specs.Field.{Field, is_field, has_name, total_size};
ghost use Rattle.qpack_spec.specs.Table.{fields_in};
ghost use Rattle.qpack_table.specs.Hashes.{name_hash};
ghost use Rattle.qpack_table.specs.Indexes.{AreSeededHashesOf, IsNewestIn};
ghost use Rattle.qpack_table.specs.Rows.{Counts};
ghost use Rattle.qpack_table.specs.Tables.{entries_of};
ghost use Rattle.qpack_table.specs.Entries.{Entry as EntryView};

use crate::dynamic::comparing::Steps;
use crate::dynamic::entries::{Entries, pop_oldest};
use crate::dynamic::index::{Index, SeededHashes};
use crate::dynamic::sorted::SortedIndex;
use crate::vas::VirtualAddressSpace;
use qpack_base::field::FieldLine;
use qpack_base::stored_field::StoredField;
use std::alloc::AllocError;

/// What is kept beside the entries of a [`DynamicTable`](crate::dynamic::DynamicTable), as a map is over its hasher:
/// [`SortedIndex`] or [`Index`], by which an encoder finds them, or [`NoIndex`].
pub trait EntryIndex: Drop {
    /// What is known of a field when its entry is added.
    type Key: Copy;

    // The live entries are in; this many were dropped before the first of them.
    ghost is_index_of: { Self → ℕ → List EntryView → Type 0 };

    // The key is that of the field.
    ghost is_key_of: { Self.Key → Field → Type 0 };

    // The key is one that it finds entries by.
    ghost is_own: { Self.Key → Self → Type 0 };

    // It has no memory.
    ghost has_no_room: { Self → Type 0 };

    // There is room for one more entry.
    ghost has_room: { Self → Type 0 };

    // There is no more room than one makes that grows at that many entries: for a quarter more.
    ghost has_few_spare: { ℕ → Self → Type 0 };

    /// Returns the key of a field, by which it finds entries.
    fn key_of(&self, field: &FieldLine<'_>) -> Self::Key
        ensures key { is_key_of result (line_of field.now).field }
        ensures own { is_own result self.now };

    /// Returns the key of a field by which it finds entries, where another key of the field is known.
    fn own_key(&self, key: Self::Key, field: &FieldLine<'_>) -> Self::Key
        requires { is_key_of key (line_of field.now).field }
        ensures key { is_key_of result (line_of field.now).field }
        ensures own { is_own result self.now };

    /// Returns what is kept beside no entries, which finds them by the same keys. It takes no memory.
    fn emptied(&self) -> Self
        ensures index { (dropped : ℕ) → is_index_of result dropped [] }
        ensures room { has_no_room result }
        ensures spare { (most : ℕ) → has_few_spare most result }
        ensures own { (key : Self.Key) → is_own key self.now → is_own key result };

    /// Makes room for one more entry. On error the same entries are in.
    fn reserve<F: StoredField>(
        &mut self,
        entries: &Entries<F>,
        dropped: usize,
    ) -> Result<(), AllocError>
        requires index { is_index_of self.old dropped entries.now.items }
        ensures index { is_index_of self.new dropped entries.now.items }
        ensures own { (key : Self.Key) → is_own key self.old → is_own key self.new }
        ensures room { OnOk result (has_room self.new) }
        ensures spare { (most : ℕ) → length entries.now.items ≤ most → has_few_spare most self.old
            → has_few_spare most self.new };

    /// Adds the newest entry, which was pushed after those that are in. There is room.
    fn enter<F: StoredField>(&mut self, entries: &Entries<F>, dropped: usize, key: Self::Key)
        requires few { length entries.now.items < 2 ^ 32 }
        requires within { dropped + length entries.now.items ≤ 2 ^ 62 }
        requires pushed { (front : List EntryView) × (newest : EntryView) × (entries.now.items ≡ front ++ newest ∷ [])
            × is_index_of self.old dropped front × is_key_of key newest.field }
        requires own { is_own key self.old }
        requires room { has_room self.old }
        ensures index { is_index_of self.new dropped entries.now.items }
        ensures own { (other : Self.Key) → is_own other self.old → is_own other self.new }
        ensures spare { (most : ℕ) → has_few_spare most self.old → has_few_spare most self.new };

    /// Drops the oldest entries, of the list too, and returns the sum of their sizes. It takes no memory, and the room that
    /// was made stays.
    fn drop_oldest<F: StoredField>(
        &mut self,
        entries: &mut Entries<F>,
        vas: &mut VirtualAddressSpace,
        evicted: usize,
    ) -> usize
        requires there { evicted ≤ length entries.old.items }
        requires counted { vas.old.total ≡ vas.old.dropped + length entries.old.items }
        requires index { is_index_of self.old vas.old.dropped entries.old.items }
        requires small { total_size (fields_in (entries_of entries.old.items)) < 2 ^ 63 }
        ensures left { entries.new.items ≡ drop evicted entries.old.items }
        ensures capacity { deque_capacity entries.new ≡ deque_capacity entries.old }
        ensures index { is_index_of self.new vas.new.dropped entries.new.items }
        ensures room { has_room self.old → has_room self.new }
        ensures spare { (most : ℕ) → has_few_spare most self.old → has_few_spare most self.new }
        ensures own { (key : Self.Key) → is_own key self.old → is_own key self.new }
        ensures dropped { vas.new ≡ record vas.old { dropped = vas.old.dropped + evicted } }
        ensures freed { result + total_size (drop evicted (fields_in (entries_of entries.old.items))) ≡
            total_size (fields_in (entries_of entries.old.items)) };

    // What blocks reference changes nothing: it is the index of other entries with the same fields.
    ghost same_fields: { (index : Self) (dropped : ℕ) (old new : List EntryView) → entries_of new ≡ entries_of old
        → is_index_of index dropped old → is_index_of index dropped new };
}

/// An index by which an encoder finds entries: [`SortedIndex`], or [`Index`] by hashes.
pub trait FindsEntries: EntryIndex {
    /// Returns the hashes of a field, if it finds entries by them.
    fn hashes_of(&self, field: &FieldLine<'_>) -> Option<SeededHashes>
        ensures { IfSome result (λ known. AreSeededHashesOf known (line_of field.now).field) };

    /// Returns the key of a field whose hashes may be known.
    fn key_of_known(&self, field: &FieldLine<'_>, known: Option<SeededHashes>) -> Self::Key
        requires { IfSome known (λ known. AreSeededHashesOf known (line_of field.now).field) }
        ensures { Self.is_key_of result (line_of field.now).field };

    /// Returns the newest entry with a field whose hashes may be known.
    fn newest_equal<F: StoredField>(
        &self,
        entries: &Entries<F>,
        dropped: usize,
        field: &FieldLine<'_>,
        known: Option<SeededHashes>,
        steps: &mut Steps,
    ) -> Option<usize>
        requires few { dropped + length entries.now.items < 2 ^ 64 }
        requires index { Self.is_index_of self.now dropped entries.now.items }
        requires known { IfSome known (λ known. AreSeededHashesOf known (line_of field.now).field) }
        ensures found { IsNewestIn dropped (entries_of entries.now.items) (is_field (line_of field.now).field) result }
        ensures steps { Counts (length entries.now.items) steps.old.count steps.new.count };

    /// Returns the newest entry with a name whose hash may be known.
    fn newest_of_name<F: StoredField>(
        &self,
        entries: &Entries<F>,
        dropped: usize,
        name: &[u8],
        known: Option<SeededHashes>,
    ) -> Option<usize>
        requires few { dropped + length entries.now.items < 2 ^ 64 }
        requires index { Self.is_index_of self.now dropped entries.now.items }
        requires known { IfSome known (λ known. known.hashes.name ≡ name_hash known.seed name.now) }
        ensures found { IsNewestIn dropped (entries_of entries.now.items) (has_name name.now) result };
}

/// No index: of a table that only receives, entries are asked for by their places alone.
#[derive(Debug, Drop)]
pub struct NoIndex;

impl EntryIndex for NoIndex {
    type Key = ();

    ghost is_index_of = { λ _ _ _. ⊤ };

    ghost is_key_of = { λ _ _. ⊤ };

    ghost is_own = { λ _ _. ⊤ };

    ghost has_no_room = { λ _. ⊤ };

    ghost has_room = { λ _. ⊤ };

    ghost has_few_spare = { λ _ _. ⊤ };

    ghost same_fields = { λ _ _ _ _ _ _. tt };

    fn key_of(&self, _field: &FieldLine<'_>) -> () {}

    fn own_key(&self, _key: (), _field: &FieldLine<'_>) -> () {}

    fn emptied(&self) -> NoIndex {
        NoIndex
    }

    fn reserve<F: StoredField>(
        &mut self,
        _entries: &Entries<F>,
        _dropped: usize,
    ) -> Result<(), AllocError> {
        Ok(())
    }

    fn enter<F: StoredField>(&mut self, _entries: &Entries<F>, _dropped: usize, _key: ()) {}

    fn drop_oldest<F: StoredField>(
        &mut self,
        entries: &mut Entries<F>,
        vas: &mut VirtualAddressSpace,
        evicted: usize,
    ) -> usize {
        pop_oldest(entries, vas, evicted)
    }
}
