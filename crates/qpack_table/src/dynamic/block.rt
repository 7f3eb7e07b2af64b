//! Blocks: what the one in progress references, and its end; and which reference entries until they are acknowledged, or
//! may be blocked (RFC 9204, section 2.1).

ghost use Rattle.std.specs.Prelude.{◌≡◌, ℕ, ◌+◌, ◌^◌, ◌<◌, ◌≤◌, List, [], ◌∷◌, ◌++◌, length, true, if◌then◌else◌, Ok};
ghost use Rattle.std.specs.Prelude.{IfNone, IfSome, OnOk, OnErr, vec_len, vec_capacity};
ghost use Rattle.qpack_spec.specs.Instruction.{Acknowledgment, Cancellation, Increment};
ghost use Rattle.qpack_spec.specs.Reading.{greatest_of};
ghost use Rattle.qpack_spec.specs.Table.{without_references, with_reference, with_unacknowledged, insert_count};
ghost use Rattle.qpack_table.specs.Tables.{AreCounted, AreFlagged, AreUsed, Changes, entries_of, flags_of};
ghost use Rattle.qpack_table.specs.Tables.{oldest_required, uses_of};
ghost use Rattle.qpack_table.specs.BlockedBlocks.{BlockedKeys, IsKeptIf, counts_of};
ghost use Rattle.qpack_spec.specs.Table.{apply_decoder_instruction, commit};
ghost use Rattle.qpack_table.specs.Handles.{Commits, OpensOrBlocks};

use crate::dynamic::Error;
use crate::dynamic::entries::Entries;
use crate::dynamic::entry_index::EntryIndex;
use crate::dynamic::open_blocks::{BlockedBlocks, OpenBlocks};
use crate::dynamic::table::DynamicTable;
use qpack_base::stored_field::StoredField;
use std::alloc::AllocError;

impl<I: EntryIndex, F: StoredField> DynamicTable<I, F> {
    /// Adds a live entry to the references of the block in progress. On error, which is `Memory` only, nothing changes.
    pub(super) fn reference(&mut self, absolute: usize) -> Result<(), AllocError>
        requires live { self.old.dropped < absolute }
        requires inserted { absolute ≤ insert_count self.old }
        ensures ok { OnOk result (self.new ≡ with_reference self.old absolute) }
        ensures err { OnErr result (self.new ≡ self.old) }
    {
        let position = absolute - self.vas.total_dropped() - 1;
        if self.entries[position].is_referenced() {
            return Ok(());
        }
        make_room(&mut self.referenced)?;
        self.referenced.push_reserved(absolute);
        self.entries[position].mark_referenced();
        Ok(())
    }

    /// Returns the greatest absolute index that the block in progress references, 0 if it references none.
    pub(super) fn greatest_reference(&self) -> usize
        ensures exact { result ≡ greatest_of self.now.referenced }
        ensures inserted { result ≤ insert_count self.now }
    {
        greatest_in(&self.referenced)
    }

    /// Gives up the block in progress: what it references is referenced no more. It takes no memory.
    pub fn release_references(&mut self)
        ensures { self.new ≡ without_references self.old }
    {
        let dropped = self.vas.total_dropped();
        clear_references(&mut self.entries, dropped, &self.referenced);
        lower_uses(&mut self.entries, dropped, &self.referenced);
        self.referenced.clear();
    }

    /// Ends the block in progress, with this required insert count. On error, which is `Memory` only, the block is
    /// given up.
    pub(super) fn commit_block(&mut self, stream_id: u64, required: usize) -> Result<(), Error>
        ensures { Commits result stream_id required self.old self.new }
    {
        match self.end_block(stream_id, required) {
            Ok(()) => Ok(()),
            Err(_) => {
                self.release_references();
                Err(Error::Memory)
            }
        }
    }

    /// Ends the block in progress, as `commit_block` does. On error nothing changes.
    fn end_block(&mut self, stream_id: u64, required: usize) -> Result<(), AllocError>
        ensures ok { OnOk result (self.new ≡ commit self.old stream_id required) }
        ensures err { OnErr result (self.new ≡ self.old) }
        ensures asks { OnErr result (OpensOrBlocks self.old required) }
    {
        let is_blocked = required > self.known_received_count;
        push_if(&mut self.blocked, is_blocked, required)?;
        let dropped = self.vas.total_dropped();
        let opened = open_block(
            &mut self.entries,
            dropped,
            &mut self.referenced,
            &mut self.unacknowledged,
            stream_id,
        );
        match opened {
            Ok(()) => Ok(()),
            Err(refused) => {
                take_back_if(&mut self.blocked, is_blocked, required);
                Err(refused)
            }
        }
    }

    /// Returns the known received count: how many insertions the decoder is known to have received (RFC 9204, section
    /// 2.1.4).
    pub fn known_received_count(&self) -> usize
        ensures { result ≡ self.now.known_received_count }
    {
        self.known_received_count
    }

    /// Returns how many blocks are not acknowledged yet, of all streams (RFC 9204, section 2.1.1).
    pub fn unacknowledged_blocks(&self) -> usize
        ensures { result ≡ length self.now.unacknowledged }
    {
        self.unacknowledged.len()
    }

    /// Returns how many blocks may be blocked: committed ones whose required insert counts are above the known received
    /// count (RFC 9204, section 2.1.2).
    pub fn blocked_blocks(&self) -> usize
        ensures { result ≡ length self.now.blocked }
    {
        self.blocked.len()
    }

    /// Returns the required insert count of the oldest block of a stream that is not acknowledged yet, which an
    /// acknowledgment releases; none if there is no such block (RFC 9204, sections 2.1.2 and 4.4.1).
    pub fn oldest_required(&self, stream_id: u64) -> Option<usize>
        ensures { result ≡ oldest_required stream_id self.now.unacknowledged }
    {
        Some(greatest_in(self.unacknowledged.oldest(stream_id)?))
    }

    /// Releases the oldest unacknowledged block of a stream, for an acknowledgment. Fails if there is none, and takes
    /// no memory (RFC 9204, section 4.4.1).
    pub fn untrack_block(&mut self, stream_id: u64) -> Result<(), Error>
        ensures { Changes result (apply_decoder_instruction self.old (Acknowledgment stream_id)) self.old self.new }
    {
        let Some(references) = self.unacknowledged.take_oldest(stream_id) else {
            return Err(Error::UnknownStreamId(stream_id));
        };
        lower_uses(&mut self.entries, self.vas.total_dropped(), &references);
        Ok(())
    }

    /// Releases every unacknowledged block of a stream, for a cancellation. It takes no memory (RFC 9204, section
    /// 4.4.2).
    pub fn untrack_stream(&mut self, stream_id: u64)
        ensures { Ok self.new ≡ apply_decoder_instruction self.old (Cancellation stream_id) }
    {
        while self.untrack_block(stream_id).is_ok() {}
    }

    /// Raises the known received count by an increment, to at most 2^64 - 1: the blocks that it covers are blocked no
    /// more. It takes no memory (RFC 9204, section 4.4.3).
    pub fn update_largest_received(&mut self, increment: usize)
        ensures { Ok self.new ≡ apply_decoder_instruction self.old (Increment increment) }
    {
        self.known_received_count = self.known_received_count.saturating_add(increment);
        self.blocked.release_up_to(self.known_received_count);
    }
}

/// Makes room for one more number. If it is free already, nothing changes and no memory is taken.
#[inline(always)]
pub(super) fn make_room(numbers: &mut Vec<usize>) -> Result<(), AllocError>
    ensures items { numbers.new.items ≡ numbers.old.items }
    ensures ok { OnOk result (vec_len numbers.new + 1 ≤ vec_capacity numbers.new) }
{
    if numbers.len() < numbers.capacity() {
        return Ok(());
    }
    grow(numbers)
}

/// Makes room for a number if there is none. It is a call of its own, so that a caller that has room saves no
/// registers.
#[inline(never)]
fn grow(numbers: &mut Vec<usize>) -> Result<(), AllocError>
    ensures items { numbers.new.items ≡ numbers.old.items }
    ensures ok { OnOk result (vec_len numbers.new + 1 ≤ vec_capacity numbers.new) }
{
    numbers.reserve(1)
}

/// Keeps the block in progress until it is acknowledged, if it references an entry. On error nothing changes.
fn open_block<F: StoredField>(
    entries: &mut Entries<F>,
    dropped: usize,
    referenced: &mut Vec<usize>,
    unacknowledged: &mut OpenBlocks,
    stream_id: u64,
) -> Result<(), AllocError>
    ensures live { entries_of entries.new.items ≡ entries_of entries.old.items }
    ensures uses { uses_of entries.new.items ≡ uses_of entries.old.items }
    ensures cleared { OnOk result (AreFlagged dropped entries.old.items referenced.old.items
        → AreFlagged dropped entries.new.items []) }
    ensures none { OnOk result (referenced.new.items ≡ []) }
    ensures opened { OnOk result (unacknowledged.new
        ≡ with_unacknowledged unacknowledged.old stream_id referenced.old.items) }
    ensures few { OnOk result (length unacknowledged.old ≤ 2 ^ 62 → length unacknowledged.new ≤ 2 ^ 62) }
    ensures err { OnErr result ((entries.new ≡ entries.old) × (referenced.new.items ≡ referenced.old.items)
        × (unacknowledged.new ≡ unacknowledged.old)) }
    ensures asks { OnErr result (referenced.old.items ≡ [] → ⊥) }
{
    if referenced.is_empty() {
        return Ok(());
    }
    let references = Vec::from_slice(*referenced.allocator(), referenced)?;
    unacknowledged.push(stream_id, references)?;
    clear_references(entries, dropped, referenced);
    referenced.clear();
    Ok(())
}

/// Returns the greatest of these numbers, 0 if there are none.
pub(super) fn greatest_in(numbers: &[usize]) -> usize
    ensures { result ≡ greatest_of numbers.now }
{
    let mut greatest = 0usize;
    for number in numbers {
        greatest = greatest.max(*number);
    }
    greatest
}

/// Keeps a block that requires this many insertions as blocked, if it is blocked. On error, which is `Memory` only,
/// nothing changes.
fn push_if(blocked: &mut BlockedBlocks, is_blocked: bool, required: usize) -> Result<(), AllocError>
    ensures kept { OnOk result (IsKeptIf is_blocked required blocked.old blocked.new) }
    ensures counts { OnOk result (counts_of blocked.new
        ≡ (if is_blocked then counts_of blocked.old ++ required ∷ [] else counts_of blocked.old)) }
    ensures err { OnErr result (blocked.new ≡ blocked.old) }
    ensures asks { OnErr result (is_blocked ≡ true) }
{
    if is_blocked {
        blocked.push(required)?;
    }
    Ok(())
}

/// Takes back what `push_if` did. It takes no memory.
fn take_back_if(blocked: &mut BlockedBlocks, is_blocked: bool, required: usize)
    requires { (before : BlockedKeys) × IsKeptIf is_blocked required before blocked.old }
    ensures { (before : BlockedKeys) → IsKeptIf is_blocked required before blocked.old → blocked.new ≡ before }
{
    if is_blocked {
        blocked.take_back(required);
    }
}

/// Returns the position of the live entry with an absolute index.
fn position_of<F: StoredField>(
    entries: &Entries<F>,
    dropped: usize,
    absolute: usize,
) -> Option<usize>
    ensures found { IfSome result (λ position.
        (absolute ≡ dropped + position + 1) × (position < length entries.now.items)) }
    ensures none { IfNone result
        ((position : ℕ) → position < length entries.now.items → absolute ≡ dropped + position + 1 → ⊥) }
{
    let position = absolute.checked_sub(dropped)?.checked_sub(1)?;
    if position < entries.len() {
        Some(position)
    } else {
        None
    }
}

/// Clears the marks of the live entries that the block in progress references; these are all of them.
fn clear_references<F: StoredField>(entries: &mut Entries<F>, dropped: usize, references: &[usize])
    ensures live { entries_of entries.new.items ≡ entries_of entries.old.items }
    ensures uses { uses_of entries.new.items ≡ uses_of entries.old.items }
    ensures cleared { AreFlagged dropped entries.old.items references.now
        → AreFlagged dropped entries.new.items [] }
{
    for absolute in references {
        if let Some(position) = position_of(entries, dropped, *absolute) {
            entries[position].clear_mark();
        }
    }
}

/// Lowers the uses of each live entry among these by one, for a block that referenced them and is given up.
fn lower_uses<F: StoredField>(entries: &mut Entries<F>, dropped: usize, references: &[usize])
    requires { AreCounted dropped entries.old.items references.now }
    ensures live { entries_of entries.new.items ≡ entries_of entries.old.items }
    ensures flags { flags_of entries.new.items ≡ flags_of entries.old.items }
    ensures counted { (rest : List ℕ) → AreCounted dropped entries.old.items (references.now ++ rest)
        → AreCounted dropped entries.new.items rest }
    ensures lowered { (rest : List ℕ) → AreUsed dropped entries.old.items (references.now ++ rest)
        → AreUsed dropped entries.new.items rest }
{
    for absolute in references {
        if let Some(position) = position_of(entries, dropped, *absolute) {
            entries[position].lower_uses();
        }
    }
}
