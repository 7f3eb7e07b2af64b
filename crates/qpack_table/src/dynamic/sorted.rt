//! One sorted index of the live entries: their absolute indexes in one vector, ordered by the name, the value and the
//! index of their entries, and searched by halving. It keeps no hash. Pass each call the entries, and how many were
//! dropped before them.

ghost use Rattle.std.specs.Prelude.{◌≡◌, ℕ, ◌+◌, ◌-◌, ◌*◌, ◌<◌, ◌≤◌, ⊤, OnOk, [], length, max, drop, take};
ghost use Rattle.std.specs.Prelude.{vec_capacity};
ghost use Rattle.qpack_base.specs.HeaderFields.{line_of};
ghost use Rattle.qpack_spec.specs.Reading.{greatest_of};
ghost use Rattle.qpack_table.specs.Growth.{grown};
ghost use Rattle.qpack_table.specs.Rows.{Counts};
ghost use Rattle.qpack_table.specs.Tables.{live_fields};
ghost use Rattle.qpack_table.specs.SortedIndexes.{IsSortedIndexOf, IsEnd};
ghost use Rattle.qpack_table.specs.SameFields.{with_same_fields};

use crate::dynamic::block::greatest_in;
use crate::dynamic::comparing::{Part, Steps, compare_entry};
use crate::dynamic::entries::{Entries, pop_oldest};
use crate::dynamic::entry_index::{EntryIndex, FindsEntries};
use crate::dynamic::growth::{ENTRIES, growth};
use crate::dynamic::index::SeededHashes;
use crate::vas::VirtualAddressSpace;
use qpack_base::field::FieldLine;
use qpack_base::stored_field::StoredField;
use std::alloc::{AllocError, Global};
use std::cmp::Ordering;

/// Which end of a run is sought: the run of the entries that have what is sought.
#[derive(Debug, Clone, Copy)]
enum End {
    First,
    Last,
}

/// The absolute indexes of all live entries, ordered by name, value and index.
#[derive(Debug, Drop)]
pub struct SortedIndex {
    sorted: Vec<usize>,
}

impl SortedIndex {
    /// Returns the index of no entry. It takes no memory.
    pub(super) fn new(alloc: Global) -> SortedIndex
        ensures empty { result.sorted.items ≡ [] }
        ensures room { vec_capacity result.sorted ≡ 0 }
    {
        SortedIndex {
            sorted: Vec::new(alloc),
        }
    }

    /// Returns where the entries with what is sought begin, or where they end, if there are any; or else where they
    /// would stand. Each comparison leaves at most half of the indexes.
    fn search<F: StoredField>(
        &self,
        entries: &Entries<F>,
        dropped: usize,
        part: Part,
        sought: &FieldLine<'_>,
        end: End,
        steps: &mut Steps,
    ) -> Result<usize, usize>
        requires sorted { (entered : ℕ) × (entered ≤ length entries.now.items)
            × IsSortedIndexOf dropped (live_fields entries.now.items) entered self.now.sorted.items }
        ensures end { IsEnd part dropped (live_fields entries.now.items) self.now.sorted.items
            (line_of sought.now).field end result }
        ensures steps { Counts (length self.now.sorted.items) steps.old.count steps.new.count }
    {
        let mut found = false;
        let mut low = 0;
        let mut high = self.sorted.len();
        while low < high {
            let middle = low + (high - low) / 2;
            let entry = &entries[self.sorted[middle] - dropped - 1];
            match compare_entry(part, sought, entry, steps) {
                Ordering::Less => low = middle + 1,
                Ordering::Greater => high = middle,
                Ordering::Equal => {
                    found = true;
                    match end {
                        End::First => high = middle,
                        End::Last => low = middle + 1,
                    }
                }
            }
        }
        if found { Ok(low) } else { Err(low) }
    }

    /// Returns the greatest index between two positions, 0 if there is none.
    fn greatest_between(&self, first: usize, end: usize) -> usize
        requires order { first ≤ end }
        requires within { end ≤ length self.now.sorted.items }
        ensures { result ≡ greatest_of (take (end - first) (drop first self.now.sorted.items)) }
    {
        greatest_in(&self.sorted[first..end])
    }

    /// Makes room where there is none. This is a call of its own, so that an index with room saves no registers.
    #[inline(never)]
    fn grow(&mut self) -> Result<(), AllocError>
        requires full { vec_capacity self.old.sorted ≤ length self.old.sorted.items }
        ensures items { self.new.sorted.items ≡ self.old.sorted.items }
        ensures room { OnOk result (length self.new.sorted.items < vec_capacity self.new.sorted) }
        ensures capacity { vec_capacity self.new.sorted
            ≤ max (vec_capacity self.old.sorted) (grown 8 (length self.old.sorted.items)) }
    {
        self.sorted
            .reserve_exact(growth(self.sorted.len(), ENTRIES))
    }
}

impl EntryIndex for SortedIndex {
    type Key = ();

    ghost is_index_of = { λ index dropped entries. IsSortedIndexOf dropped (live_fields entries) (length entries)
        index.sorted.items };

    ghost is_key_of = { λ _ _. ⊤ };

    ghost is_own = { λ _ _. ⊤ };

    ghost has_no_room = { λ index. vec_capacity index.sorted ≡ 0 };

    ghost has_room = { λ index. length index.sorted.items < vec_capacity index.sorted };

    ghost has_few_spare = { λ most index. vec_capacity index.sorted ≤ grown 8 most };

    ghost same_fields = { λ index dropped old new same is.
        with_same_fields (λ live count. IsSortedIndexOf dropped live count index.sorted.items) old new same is };

    fn key_of(&self, _field: &FieldLine<'_>) -> () {}

    fn own_key(&self, _key: (), _field: &FieldLine<'_>) -> () {}

    fn emptied(&self) -> SortedIndex {
        SortedIndex::new(*self.sorted.allocator())
    }

    fn reserve<F: StoredField>(
        &mut self,
        _entries: &Entries<F>,
        _dropped: usize,
    ) -> Result<(), AllocError> {
        if self.sorted.len() < self.sorted.capacity() {
            return Ok(());
        }
        self.grow()
    }

    fn enter<F: StoredField>(&mut self, entries: &Entries<F>, dropped: usize, _key: ()) {
        let newest = entries[entries.len() - 1].as_line();
        let (Ok(place) | Err(place)) = self.search(
            entries,
            dropped,
            Part::Whole(0),
            &newest,
            End::Last,
            &mut Steps::new(),
        );
        if let Err(_full) = self.sorted.insert(place, dropped + entries.len()) {}
    }

    fn drop_oldest<F: StoredField>(
        &mut self,
        entries: &mut Entries<F>,
        vas: &mut VirtualAddressSpace,
        evicted: usize,
    ) -> usize {
        let freed = pop_oldest(entries, vas, evicted);
        let dropped = vas.total_dropped();
        self.sorted.retain(|index| *index > dropped);
        freed
    }
}

impl FindsEntries for SortedIndex {
    fn hashes_of(&self, _field: &FieldLine<'_>) -> Option<SeededHashes> {
        None
    }

    fn key_of_known(&self, _field: &FieldLine<'_>, _known: Option<SeededHashes>) -> () {}

    fn newest_equal<F: StoredField>(
        &self,
        entries: &Entries<F>,
        dropped: usize,
        field: &FieldLine<'_>,
        _known: Option<SeededHashes>,
        steps: &mut Steps,
    ) -> Option<usize> {
        match self.search(entries, dropped, Part::Whole(0), field, End::Last, steps) {
            Ok(end) => Some(self.sorted[end - 1]),
            Err(_) => None,
        }
    }

    fn newest_of_name<F: StoredField>(
        &self,
        entries: &Entries<F>,
        dropped: usize,
        name: &[u8],
        _known: Option<SeededHashes>,
    ) -> Option<usize> {
        let sought = FieldLine::new(name, &[]);
        let mut steps = Steps::new();
        let Ok(end) = self.search(
            entries,
            dropped,
            Part::Name(0),
            &sought,
            End::Last,
            &mut steps,
        ) else {
            return None;
        };
        let (Ok(first) | Err(first)) = self.search(
            entries,
            dropped,
            Part::Name(0),
            &sought,
            End::First,
            &mut steps,
        );
        Some(self.greatest_between(first, end))
    }
}
