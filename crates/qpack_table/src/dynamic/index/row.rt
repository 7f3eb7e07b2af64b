//! A row of the index: slots that rise by the hash of a part of their entries' fields, then by that part, one for each
//! different part. A search halves them, whatever their hashes are.

ghost use Rattle.std.specs.Prelude.{◌≡◌, ℕ, ◌+◌, ◌-◌, ◌^◌, ◌<◌, ◌≤◌, [], length, drop, IfSome, IfNone, OnOk, OnErr};
ghost use Rattle.std.specs.Prelude.{vec_capacity};
ghost use Rattle.qpack_table.specs.Rows.{part_at, key_cmp, key_at, key_of, field_of_sought, IsHashed, IsSlot};
ghost use Rattle.qpack_table.specs.Rows.{HasRoom, IsRow, IsRowOf, IsPlace, HasIndexAt, HasNoIndex};
ghost use Rattle.qpack_table.specs.Rows.{Searching};
ghost use Rattle.qpack_table.specs.Rows.{Counts, GrowsSlots, grown_slots, index_of};
ghost use Rattle.qpack_table.specs.Indexes.{FindsNewest};
ghost use Rattle.qpack_table.specs.Tables.{live_fields};

use crate::dynamic::comparing::{Part, Steps, compare_entry};
use crate::dynamic::entries::Entries;
use crate::dynamic::growth::{SLOTS, growth};
use qpack_base::field::FieldLine;
use qpack_base::stored_field::StoredField;
use std::alloc::{AllocError, Global};
use std::cmp::Ordering;

/// A row of at most this many slots is searched for an index without a look at an entry.
const MOST_SCANNED: usize = 16;

/// At how many slots a search looks at most before it halves what is left.
const MOST_LOOKS: usize = 8;

/// One more than the greatest number that 32 bits hold.
const WRAP: usize = 1 << 32;

/// A part of a field that is sought, with its hash.
#[derive(Debug, Clone, Copy)]
pub(super) struct Sought<'a> {
    pub(super) part: Part,
    pub(super) line: FieldLine<'a>,
    pub(super) hash: u32,
}

/// The hash of an entry's part, and the low 32 bits of the entry's absolute index. Fewer than 2^32 entries are live, so
/// these tell which it is.
#[derive(Debug, Clone, Copy)]
pub(super) struct Slot {
    pub(super) hash: u32,
    low: u32,
}

impl Slot {
    /// Returns the position of its entry among the live ones, counted from 0 at the oldest.
    #[inline(always)]
    fn position(&self, dropped: usize) -> usize
        ensures { index_of dropped self.now ≡ dropped + result + 1 }
    {
        (self.low as usize + (WRAP - 1) - dropped % WRAP) % WRAP
    }
}

/// Compares a slot with what is sought. It looks at the entry only if the hashes are the same.
fn compare<F: StoredField>(
    sought: &Sought<'_>,
    slot: Slot,
    entries: &Entries<F>,
    dropped: usize,
    steps: &mut Steps,
) -> Ordering
    requires { IsSlot sought.now.part dropped (live_fields entries.now.items) slot }
    ensures order { result ≡ key_cmp (key_at sought.now.part dropped (live_fields entries.now.items) slot)
        (key_of sought.now) }
    ensures raised { steps.new.count ≤ steps.old.count + 1 }
    ensures grows { steps.old.count ≤ steps.new.count }
{
    match slot.hash.cmp(&sought.hash) {
        Ordering::Equal => compare_entry(
            sought.part,
            &sought.line,
            &entries[slot.position(dropped)],
            steps,
        ),
        apart => apart,
    }
}

/// Returns where a hash would be in a row of this length if the hashes were spread evenly.
#[inline(always)]
fn likely_position(hash: u32, len: usize) -> usize
    requires { 0 < len }
    ensures { result < len }
{
    ((hash as usize).wrapping_mul(len) / WRAP).min(len - 1)
}

/// Returns the position of the oldest entry's slot. It looks at one slot after the other.
fn scan(slots: &[Slot], dropped: usize) -> Option<usize>
    ensures some { IfSome result (λ position. HasIndexAt dropped slots.now (dropped + 1) position) }
    ensures none { IfNone result (HasNoIndex dropped slots.now (dropped + 1)) }
{
    slots.iter().position(|slot| slot.position(dropped) == 0)
}

/// Slots of live entries, rising by the hash and the part; no two have the same part.
#[derive(Debug, Drop)]
pub(super) struct Row {
    slots: Vec<Slot>,
}

impl Row {
    /// Returns an empty row. It takes no memory.
    pub(super) fn new(alloc: Global) -> Row
        ensures empty { result.slots.items ≡ [] }
        ensures room { vec_capacity result.slots ≡ 0 }
    {
        Row {
            slots: Vec::new(alloc),
        }
    }

    /// Makes room for one more slot. It fails only if there is none.
    #[inline(always)]
    pub(super) fn reserve(&mut self) -> Result<(), AllocError>
        ensures slots { self.new.slots.items ≡ self.old.slots.items }
        ensures ok { OnOk result (HasRoom self.new) }
        ensures full { OnErr result (HasRoom self.old → ⊥) }
        ensures still { HasRoom self.old → vec_capacity self.new.slots ≡ vec_capacity self.old.slots }
        ensures capacity { GrowsSlots self.old self.new }
    {
        if self.slots.len() < self.slots.capacity() {
            return Ok(());
        }
        self.grow()
    }

    /// Makes room where there is none. This is a call of its own, so that a row with room saves no registers.
    #[inline(never)]
    fn grow(&mut self) -> Result<(), AllocError>
        requires full { vec_capacity self.old.slots ≤ length self.old.slots.items }
        ensures slots { self.new.slots.items ≡ self.old.slots.items }
        ensures grown { OnOk result (vec_capacity self.new.slots ≡ grown_slots self.old) }
        ensures err { OnErr result (vec_capacity self.new.slots ≡ vec_capacity self.old.slots) }
    {
        self.slots.reserve_exact(growth(self.slots.len(), SLOTS))
    }

    /// Returns between which positions what is sought is, as a few looks at hashes tell: at where its hash is if hashes are
    /// spread evenly, and then beside that.
    #[inline(always)]
    fn narrow<F: StoredField>(
        &self,
        entries: &Entries<F>,
        dropped: usize,
        sought: &Sought<'_>,
    ) -> (usize, usize)
        requires { IsRow sought.now.part dropped (live_fields entries.now.items) self.now.slots.items }
        ensures { Searching sought.now.part dropped (live_fields entries.now.items) self.now.slots.items
            (key_of sought.now) result.0 result.1 }
    {
        let mut low = 0;
        let mut high = self.slots.len();
        if high == 0 {
            return (low, high);
        }
        let mut at = likely_position(sought.hash, high);
        for _ in 0..MOST_LOOKS {
            match self.slots[at].hash.cmp(&sought.hash) {
                Ordering::Less => {
                    low = at + 1;
                    if low == high {
                        return (low, high);
                    }
                    at = low;
                }
                Ordering::Greater => {
                    high = at;
                    if low == high {
                        return (low, high);
                    }
                    at -= 1;
                }
                Ordering::Equal => break,
            }
        }
        let low = self.after_lesser(entries, dropped, sought, low, high, at);
        (
            low,
            self.before_greater(entries, dropped, sought, low, high, at),
        )
    }

    /// Returns the position if the slot before it has a lesser hash, and else the lower end.
    #[inline(always)]
    fn after_lesser<F: StoredField>(
        &self,
        entries: &Entries<F>,
        dropped: usize,
        sought: &Sought<'_>,
        low: usize,
        high: usize,
        at: usize,
    ) -> usize
        requires row { IsRow sought.now.part dropped (live_fields entries.now.items) self.now.slots.items }
        requires parted { Searching sought.now.part dropped (live_fields entries.now.items) self.now.slots.items
            (key_of sought.now) low high }
        requires within { at < high }
        requires from { low ≤ at }
        ensures parted { Searching sought.now.part dropped (live_fields entries.now.items) self.now.slots.items
            (key_of sought.now) result high }
        ensures most { result ≤ at }
    {
        if low == at {
            return low;
        }
        match self.slots[at - 1].hash.cmp(&sought.hash) {
            Ordering::Less => at,
            _ => low,
        }
    }

    /// Returns the next position if the slot there has a greater hash, and else the higher end.
    #[inline(always)]
    fn before_greater<F: StoredField>(
        &self,
        entries: &Entries<F>,
        dropped: usize,
        sought: &Sought<'_>,
        low: usize,
        high: usize,
        at: usize,
    ) -> usize
        requires row { IsRow sought.now.part dropped (live_fields entries.now.items) self.now.slots.items }
        requires parted { Searching sought.now.part dropped (live_fields entries.now.items) self.now.slots.items
            (key_of sought.now) low high }
        requires within { at < high }
        requires from { low ≤ at }
        ensures parted { Searching sought.now.part dropped (live_fields entries.now.items) self.now.slots.items
            (key_of sought.now) low result }
    {
        if at + 1 == high {
            return high;
        }
        match self.slots[at + 1].hash.cmp(&sought.hash) {
            Ordering::Greater => at + 1,
            _ => high,
        }
    }

    /// Returns where the slot with what is sought is, or where it would be. Each comparison leaves at most half of the
    /// slots.
    fn search<F: StoredField>(
        &self,
        entries: &Entries<F>,
        dropped: usize,
        sought: &Sought<'_>,
        steps: &mut Steps,
    ) -> Result<usize, usize>
        requires { IsRow sought.now.part dropped (live_fields entries.now.items) self.now.slots.items }
        ensures place { IsPlace sought.now.part dropped (live_fields entries.now.items) self.now.slots.items
            (key_of sought.now) result }
        ensures steps { Counts (length self.now.slots.items) steps.old.count steps.new.count }
    {
        let (mut low, mut high) = self.narrow(entries, dropped, sought);
        while low < high {
            let middle = low + (high - low) / 2;
            match compare(sought, self.slots[middle], entries, dropped, steps) {
                Ordering::Less => low = middle + 1,
                Ordering::Equal => return Ok(middle),
                Ordering::Greater => high = middle,
            }
        }
        Err(low)
    }

    /// Returns the newest index whose entry has what is sought. All entries are in.
    #[inline(always)]
    pub(super) fn newest<F: StoredField>(
        &self,
        entries: &Entries<F>,
        dropped: usize,
        sought: &Sought<'_>,
        steps: &mut Steps,
    ) -> Option<usize>
        requires few { dropped + length entries.now.items < 2 ^ 64 }
        requires row { IsRowOf sought.now.part dropped (live_fields entries.now.items) (length entries.now.items)
            self.now.slots.items }
        requires hashed { IsHashed sought.now }
        ensures found { FindsNewest sought.now.part dropped (live_fields entries.now.items)
            (field_of_sought sought.now) result }
        ensures steps { Counts (length entries.now.items) steps.old.count steps.new.count }
    {
        match self.search(entries, dropped, sought, steps) {
            Ok(position) => Some(dropped + self.slots[position].position(dropped) + 1),
            Err(_) => None,
        }
    }

    /// Adds the next newer entry after those that are in: in the slot of the same part, if there is one. There is room.
    pub(super) fn enter<F: StoredField>(
        &mut self,
        entries: &Entries<F>,
        dropped: usize,
        index: usize,
        sought: &Sought<'_>,
    )
        requires few { length entries.now.items < 2 ^ 32 }
        requires live { (dropped < index) × (index ≤ dropped + length entries.now.items) }
        requires row { IsRowOf sought.now.part dropped (live_fields entries.now.items) (index - dropped - 1)
            self.old.slots.items }
        requires field { field_of_sought sought.now
            ≡ part_at sought.now.part dropped (live_fields entries.now.items) index }
        requires hashed { IsHashed sought.now }
        requires room { HasRoom self.old }
        ensures row { IsRowOf sought.now.part dropped (live_fields entries.now.items) (index - dropped)
            self.new.slots.items }
        ensures capacity { vec_capacity self.new.slots ≡ vec_capacity self.old.slots }
    {
        let slot = Slot {
            hash: sought.hash,
            low: (index % WRAP) as u32,
        };
        let mut steps = Steps::new();
        match self.search(entries, dropped, sought, &mut steps) {
            Ok(position) => self.slots[position] = slot,
            Err(position) => if let Err(_full) = self.slots.insert(position, slot) {},
        }
    }

    /// Removes the oldest entry, which is about to be popped: its slot, if no newer entry has the same part.
    pub(super) fn leave<F: StoredField>(
        &mut self,
        entries: &Entries<F>,
        dropped: usize,
        sought: &Sought<'_>,
    )
        requires some { 0 < length entries.now.items }
        requires row { IsRowOf sought.now.part dropped (live_fields entries.now.items) (length entries.now.items)
            self.old.slots.items }
        requires field { field_of_sought sought.now
            ≡ part_at sought.now.part dropped (live_fields entries.now.items) (dropped + 1) }
        requires hashed { IsHashed sought.now }
        ensures row { IsRowOf sought.now.part (dropped + 1) (drop 1 (live_fields entries.now.items))
            (length entries.now.items - 1) self.new.slots.items }
        ensures room { HasRoom self.old → HasRoom self.new }
        ensures capacity { vec_capacity self.new.slots ≡ vec_capacity self.old.slots }
    {
        if let Some(position) = self.position_of_oldest(entries, dropped, sought) {
            self.slots.remove(position);
        }
    }

    /// Returns the position of the oldest entry's slot.
    fn position_of_oldest<F: StoredField>(
        &self,
        entries: &Entries<F>,
        dropped: usize,
        sought: &Sought<'_>,
    ) -> Option<usize>
        requires row { IsRow sought.now.part dropped (live_fields entries.now.items) self.now.slots.items }
        requires field { field_of_sought sought.now
            ≡ part_at sought.now.part dropped (live_fields entries.now.items) (dropped + 1) }
        requires hashed { IsHashed sought.now }
        ensures some { IfSome result (λ position. HasIndexAt dropped self.now.slots.items (dropped + 1) position) }
        ensures none { IfNone result (HasNoIndex dropped self.now.slots.items (dropped + 1)) }
    {
        if self.slots.len() <= MOST_SCANNED {
            return scan(&self.slots, dropped);
        }
        let mut steps = Steps::new();
        let Ok(position) = self.search(entries, dropped, sought, &mut steps) else {
            return None;
        };
        if self.slots[position].position(dropped) == 0 {
            Some(position)
        } else {
            None
        }
    }
}
