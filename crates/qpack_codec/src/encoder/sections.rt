//! Field sections as an encoder writes them, and what it asks of its table for that (RFC 9204, section 2.1).

ghost use Rattle.std.specs.Prelude.{◌≡◌, ◌≤◌, ◌++◌, map, Ok, IfOk, IfErr, OnOk, OnErr, vec_len, vec_capacity, ◌+◌, Err};
ghost use Rattle.std.specs.Prelude.{◌-◌, [], length, take, drop};
ghost use Rattle.std.specs.Iterator.{IsFinite, Drains};
ghost use Rattle.qpack_spec.specs.Field.{fields_of_lines};
ghost use Rattle.qpack_spec.specs.Marked.{stateless_block_marked, coded_marked_block};
ghost use Rattle.qpack_base.specs.Codings.{coding_of};
ghost use Rattle.qpack_spec.specs.Table.{Table, commit, without_references, insert_count};
ghost use Rattle.qpack_spec.specs.Prefix.{written_prefix};
ghost use Rattle.qpack_codec.specs.Encoding.{DrainsLinesOf, EncodesLines, GivesUpLines, StopsEncodingLinesOf};
ghost use Rattle.qpack_codec.specs.Encoding.{GrowsForLinesOf, GrowsWithin, instructions_room};
ghost use Rattle.qpack_codec.specs.ChosenSections.{EncodesAlong, WritesAlong, GivesUpChosen, GivesUpAlong};
ghost use Rattle.qpack_codec.specs.ChosenSections.{AddsAlong, StopsAlong, DraftsAlong};
ghost use Rattle.qpack_codec.specs.declared.error.EncoderError.TheVariants.{Memory};
ghost use Rattle.qpack_codec.specs.Hearing.{SetsCapacity};
ghost use Rattle.qpack_wire.specs.Prefixes.{prefix_of};

use crate::encoder::choices::{AsField, Chooses};
use crate::encoder::chosen_fields::append_line;
use crate::encoder::newest_first::NewestFirst;
use crate::error::EncoderError;
use crate::stateless::field_lines::append_section;
use qpack_base::coding::{NoMemory, make_room};
use qpack_base::field::HeaderField;
use qpack_base::prefix_string::Coding;
use qpack_base::stored_field::StoredField;
use qpack_table::dynamic::{
    DynamicTable, DynamicTableEncoder, EntryIndex, FindsEntries, SortedIndex,
};
use qpack_wire::block::HeaderPrefix;
use qpack_wire::stream::DynamicTableSizeUpdate;
use std::alloc::{AllocError, Allocator, Global};

/// A table by which field sections are written. It is a type parameter of an encoder, so that the signature of
/// `Encoder::encode` names no `'static`: the check of borrows does not cover that beside an iterator over references.
pub trait WritesSections {
    // The table.
    ghost table: { Self → Table };

    /// Returns the allocator of the table.
    fn memory(&self) -> Global;

    /// Encodes a field section of borrowed field lines for a stream, as `Encoder::encode` does; only inserted fields
    /// are copied. A field that is never to be indexed becomes a literal with that mark, by the name of a static field
    /// or of an entry if the rule has one. It is neither inserted nor looked up (RFC 9204, section 7.1.3). On error,
    /// which is `Memory` only, the block is unchanged, the insertions that were made stay, their instructions are
    /// written, and nothing more is referenced.
    fn write_section<A: Allocator, B: Allocator, H: AsField>(
        &mut self,
        stream_id: u64,
        block: &mut Vec<u8, A>,
        encoder_buf: &mut Vec<u8, B>,
        fields: &[H],
    ) -> Result<usize, EncoderError>
        ensures ok { IfOk result (λ required. EncodesLines stream_id (map H.line fields.now) (table self.old)
            (table self.new) block.old.items block.new.items encoder_buf.old.items encoder_buf.new.items required) }
        ensures err { OnErr result (GivesUpLines (map H.line fields.now) (table self.old) (table self.new)
            encoder_buf.old.items encoder_buf.new.items) }
        ensures as_before { OnErr result (block.new.items ≡ block.old.items) }
        ensures memory { IfErr result (λ e. e ≡ Memory) }
        ensures capacity { vec_capacity block.old ≤ vec_capacity block.new }
        ensures still { OnOk result
            (vec_len block.new ≤ vec_capacity block.old → vec_capacity block.new ≡ vec_capacity block.old) }
        ensures instructions { GrowsWithin (instructions_room (fields_of_lines (map H.line fields.now))) encoder_buf.old
            encoder_buf.new };

    /// Gives the block in progress up: what it references is referenced no more.
    fn give_up(&mut self)
        ensures { table self.new ≡ without_references (table self.old) };
}

/// The dynamic table of an encoder, by which its field sections are written.
#[derive(Debug, Drop)]
pub struct EncoderTable<I: FindsEntries = SortedIndex, F: StoredField = HeaderField> {
    /// The table.
    pub table: DynamicTable<I, F>,
}

impl<I: FindsEntries, F: StoredField> EncoderTable<I, F> {
    /// Gives the block in progress up: what it references is referenced no more.
    pub fn give_up(&mut self)
        ensures { self.new.table ≡ without_references self.old.table }
    {
        self.table.release_references();
    }

    /// Encodes a field section for a stream as `write_section` does, but with a choice for each field, and with
    /// strings coded as the coding says. Whatever is chosen, the section means its fields. At capacity 0 nothing is chosen, and the chooser is not called.
    pub fn write_chosen_section<A: Allocator, B: Allocator, H: AsField, C: Chooses<I, F>>(
        &mut self,
        stream_id: u64,
        block: &mut Vec<u8, A>,
        encoder_buf: &mut Vec<u8, B>,
        fields: &[H],
        chooser: &mut C,
        coding: Coding,
    ) -> Result<usize, EncoderError>
        ensures ok { IfOk result (λ required. EncodesAlong (coding_of coding) C.chooses stream_id (map H.line fields.now)
            (map H.wish fields.now) self.old.table self.new.table block.old.items block.new.items encoder_buf.old.items encoder_buf.new.items required) }
        ensures err { OnErr result (GivesUpChosen (coding_of coding) (map H.line fields.now) self.old.table self.new.table
            encoder_buf.old.items encoder_buf.new.items) }
        ensures as_before { OnErr result (block.new.items ≡ block.old.items) }
        ensures memory { IfErr result (λ e. e ≡ Memory) }
        ensures capacity { vec_capacity block.old ≤ vec_capacity block.new }
        ensures still { OnOk result
            (vec_len block.new ≤ vec_capacity block.old → vec_capacity block.new ≡ vec_capacity block.old) }
        ensures instructions { GrowsWithin (instructions_room (fields_of_lines (map H.line fields.now))) encoder_buf.old
            encoder_buf.new }
    {
        if self.table.max_mem_size() == 0 {
            self.give_up();
            return append_alone(coding, fields, block);
        }
        self.write_along(stream_id, block, encoder_buf, fields, chooser, coding)
    }

    /// Encodes a field section as `write_chosen_section` does, at any capacity by what is chosen.
    fn write_along<A: Allocator, B: Allocator, H: AsField, C: Chooses<I, F>>(
        &mut self,
        stream_id: u64,
        block: &mut Vec<u8, A>,
        encoder_buf: &mut Vec<u8, B>,
        fields: &[H],
        chooser: &mut C,
        coding: Coding,
    ) -> Result<usize, EncoderError>
        ensures ok { IfOk result (λ required. WritesAlong (coding_of coding) C.chooses stream_id (map H.line fields.now)
            (map H.wish fields.now) self.old.table self.new.table block.old.items block.new.items encoder_buf.old.items
            encoder_buf.new.items required) }
        ensures err { OnErr result (GivesUpAlong (coding_of coding) C.chooses (map H.line fields.now) (map H.wish fields.now)
            self.old.table self.new.table encoder_buf.old.items encoder_buf.new.items) }
        ensures as_before { OnErr result (block.new.items ≡ block.old.items) }
        ensures memory { IfErr result (λ e. e ≡ Memory) }
        ensures capacity { vec_capacity block.old ≤ vec_capacity block.new }
        ensures still { OnOk result
            (vec_len block.new ≤ vec_capacity block.old → vec_capacity block.new ≡ vec_capacity block.old) }
        ensures instructions { GrowsWithin (instructions_room (fields_of_lines (map H.line fields.now))) encoder_buf.old
            encoder_buf.new }
    {
        let len = block.len();
        let mut handle = self.table.encoder(stream_id);
        let appended = append_block(&mut handle, block, encoder_buf, fields, chooser, coding);
        let answer = end_block(handle, appended);
        if answer.is_err() {
            block.truncate(len);
        }
        answer
    }
}

impl WritesSections for EncoderTable {
    ghost table = { λ e. e.table };

    fn memory(&self) -> Global {
        self.table.allocator()
    }

    fn write_section<A: Allocator, B: Allocator, H: AsField>(
        &mut self,
        stream_id: u64,
        block: &mut Vec<u8, A>,
        encoder_buf: &mut Vec<u8, B>,
        fields: &[H],
    ) -> Result<usize, EncoderError> {
        if self.table.max_mem_size() == 0 {
            self.give_up();
            return append_alone(Coding::Always, fields, block);
        }
        self.write_along(
            stream_id,
            block,
            encoder_buf,
            fields,
            &mut NewestFirst,
            Coding::Always,
        )
    }

    fn give_up(&mut self) {
        EncoderTable::give_up(self);
    }
}

/// Appends the section of the fields for a table of capacity 0, which has no entries. Returns its required insert
/// count, which is 0.
fn append_alone<A: Allocator, H: AsField>(
    coding: Coding,
    fields: &[H],
    block: &mut Vec<u8, A>,
) -> Result<usize, EncoderError>
    ensures ok { IfOk result (λ required. (required ≡ 0) × (block.new.items ≡ block.old.items
        ++ coded_marked_block (coding_of coding) (map H.line fields.now) (stateless_block_marked (map H.line fields.now)))) }
    ensures err { OnErr result (block.new.items ≡ block.old.items) }
    ensures memory { IfErr result (λ e. e ≡ Memory) }
    ensures capacity { vec_capacity block.old ≤ vec_capacity block.new }
    ensures still { OnOk result
        (vec_len block.new ≤ vec_capacity block.old → vec_capacity block.new ≡ vec_capacity block.old) }
{
    let len = block.len();
    match append_section(coding, block, fields) {
        Ok(()) => Ok(0),
        Err(error) => {
            block.truncate(len);
            Err(EncoderError::from(error))
        }
    }
}

/// Ends a block in progress, and returns this required insert count; or gives the block up if that is an error.
fn end_block<I: FindsEntries, F: StoredField>(
    handle: DynamicTableEncoder<'_, I, F>,
    appended: Result<usize, NoMemory>,
) -> Result<usize, EncoderError>
    ensures ok { IfOk result (λ required. (appended ≡ Ok required)
        × (handle.exit.0.now ≡ commit handle.entry.table.now handle.entry.stream_id required)) }
    ensures err { OnErr result (handle.exit.0.now ≡ without_references handle.entry.table.now) }
    ensures memory { IfErr result (λ e. e ≡ Memory) }
{
    match appended {
        Ok(required) => {
            handle.commit(required)?;
            Ok(required)
        }
        Err(error) => {
            handle.release();
            Err(EncoderError::from(error))
        }
    }
}

/// Encodes a field section of what an iterator gives, which is gathered first.
pub(super) fn encode_items<
    D: WritesSections,
    A: Allocator,
    B: Allocator,
    H: AsField + Drop,
    T: Iterator<Item = H> + Drop,
>(
    table: &mut D,
    stream_id: u64,
    block: &mut Vec<u8, A>,
    encoder_buf: &mut Vec<u8, B>,
    fields: T,
) -> Result<usize, EncoderError>
    requires can { T.can_next fields }
    requires ends { IsFinite (T.remaining fields) }
    ensures ok { IfOk result (λ required. DrainsLinesOf H.line T.next_gives fields (λ fs. EncodesLines stream_id fs
        (D.table table.old) (D.table table.new) block.old.items block.new.items encoder_buf.old.items
        encoder_buf.new.items required)) }
    ensures err { OnErr result (StopsEncodingLinesOf H.line T.next_gives fields (D.table table.old) (D.table table.new)
        encoder_buf.old.items encoder_buf.new.items) }
    ensures as_before { OnErr result (block.new.items ≡ block.old.items) }
    ensures memory { IfErr result (λ e. e ≡ Memory) }
    ensures capacity { vec_capacity block.old ≤ vec_capacity block.new }
    ensures still { OnOk result
        (vec_len block.new ≤ vec_capacity block.old → vec_capacity block.new ≡ vec_capacity block.old) }
    ensures instructions { GrowsForLinesOf H.line T.next_gives fields encoder_buf.old encoder_buf.new }
{
    match gather(table.memory(), fields) {
        Ok(gathered) => table.write_section(stream_id, block, encoder_buf, &gathered),
        Err(_) => {
            table.give_up();
            Err(EncoderError::Memory)
        }
    }
}

/// Collects what an iterator gives, in order.
fn gather<H: Drop, T: Iterator<Item = H> + Drop>(
    alloc: Global,
    fields: T,
) -> Result<Vec<H>, AllocError>
    requires can { T.can_next fields }
    requires ends { IsFinite (T.remaining fields) }
    ensures { IfOk result (λ gathered. Drains T.next_gives fields gathered.items) }
{
    fields.collect(alloc)
}

/// No number takes more bytes.
const GREATEST_NUMBER: usize = 11;

/// Sets the capacity of an encoder's table in bytes, and appends the instruction that announces it to the decoder (RFC
/// 9204, sections 3.2.3 and 4.3.1). It first checks that the table takes the capacity, then makes room for the
/// instruction.
///
/// # Errors
///
/// Fails with `Insertion(MaximumTableSizeTooLarge)` if the capacity is above the maximum or is 2^30 or more, with
/// `Insertion(MaxTableSizeReached)` if it would evict an entry that is not evictable, and with `Memory` if memory runs
/// out. On error nothing changes and nothing is written. With eleven bytes of free room it takes no memory.
pub fn set_dynamic_table_size<A: Allocator, I: EntryIndex, F: StoredField>(
    table: &mut DynamicTable<I, F>,
    encoder_buf: &mut Vec<u8, A>,
    size: usize,
) -> Result<(), EncoderError>
    ensures sets { SetsCapacity size table.old table.new encoder_buf.old.items encoder_buf.new.items result }
    ensures memory { vec_len encoder_buf.old + 11 ≤ vec_capacity encoder_buf.old → result ≡ Err Memory → ⊥ }
    ensures still { vec_len encoder_buf.old + 11 ≤ vec_capacity encoder_buf.old
        → vec_capacity encoder_buf.new ≡ vec_capacity encoder_buf.old }
    ensures capacity { vec_capacity encoder_buf.old ≤ vec_capacity encoder_buf.new }
{
    table.check_max_size(size)?;
    make_room(encoder_buf, GREATEST_NUMBER)?;
    table.set_max_size(size)?;
    Ok(DynamicTableSizeUpdate(size).encode(encoder_buf)?)
}

/// The most bytes of a prefix that are moved one by one.
const MOST_ONE_BY_ONE: usize = 5;

/// Puts a prefix in front of the bytes after the first `len`. On error the vector is unchanged.
#[inline(always)]
fn put_in_front<A: Allocator>(
    prefix: &HeaderPrefix,
    block: &mut Vec<u8, A>,
    len: usize,
) -> Result<(), NoMemory>
    requires { len ≤ vec_len block.old }
    ensures longer { vec_len block.old ≤ vec_len block.new }
    ensures ok { OnOk result (block.new.items
        ≡ take len block.old.items ++ written_prefix (prefix_of prefix.now) ++ drop len block.old.items) }
    ensures err { OnErr result (block.new.items ≡ block.old.items) }
    ensures capacity { vec_capacity block.old ≤ vec_capacity block.new }
    ensures still { OnOk result
        (vec_len block.new ≤ vec_capacity block.old → vec_capacity block.new ≡ vec_capacity block.old) }
{
    let end = block.len();
    prefix.encode(block)?;
    let written = block.len() - end;
    move_to_front(&mut block[len..], written);
    Ok(())
}

/// Moves this many bytes from the end to the front. A few, as in nearly every prefix, are moved one by one: to move
/// more at once takes room on the call stack, which is cleared first.
fn move_to_front(bytes: &mut [u8], count: usize)
    requires { count ≤ length bytes.old }
    ensures len { length bytes.new ≡ length bytes.old }
    ensures after { bytes.new
        ≡ drop (length bytes.old - count) bytes.old ++ take (length bytes.old - count) bytes.old }
{
    if count > MOST_ONE_BY_ONE {
        bytes.rotate_right(count);
        return;
    }
    for _ in 0..count {
        bytes.rotate_right(1);
    }
}

/// Appends the block of the fields and the instructions of its insertions, by what is chosen for each. Returns the
/// block's required insert count. It writes the lines first, then puts the prefix in front of them. On error the earlier
/// bytes of the block's vector are still at its front.
fn append_block<
    A: Allocator,
    B: Allocator,
    H: AsField,
    I: FindsEntries,
    F: StoredField,
    C: Chooses<I, F>,
>(
    handle: &mut DynamicTableEncoder<'_, I, F>,
    block: &mut Vec<u8, A>,
    encoder_buf: &mut Vec<u8, B>,
    fields: &[H],
    chooser: &mut C,
    coding: Coding,
) -> Result<usize, NoMemory>
    requires base { handle.old.base ≡ insert_count handle.old.table.now }
    requires begins { handle.old.table.now.referenced ≡ [] }
    ensures same_table { handle.new.table.ghost_name ≡ handle.old.table.ghost_name }
    ensures stream { handle.new.stream_id ≡ handle.old.stream_id }
    ensures ok { IfOk result (λ required. DraftsAlong (coding_of coding) C.chooses (map H.line fields.now) (map H.wish fields.now)
        handle.old.table.now handle.new.table.now block.old.items block.new.items encoder_buf.old.items encoder_buf.new.items required) }
    ensures err { OnErr result (GivesUpAlong (coding_of coding) C.chooses (map H.line fields.now) (map H.wish fields.now)
        handle.old.table.now (without_references handle.new.table.now) encoder_buf.old.items encoder_buf.new.items) }
    ensures as_before { OnErr result (take (vec_len block.old) block.new.items ≡ block.old.items) }
    ensures capacity { vec_capacity block.old ≤ vec_capacity block.new }
    ensures still { OnOk result
        (vec_len block.new ≤ vec_capacity block.old → vec_capacity block.new ≡ vec_capacity block.old) }
    ensures instructions { GrowsWithin (instructions_room (fields_of_lines (map H.line fields.now))) encoder_buf.old
        encoder_buf.new }
{
    let max = handle.agreed_max();
    let len = block.len();
    chooser.begin(handle);
    append_fields(handle, fields, chooser, coding, block, encoder_buf)?;
    let required = handle.required_insert_count();
    let prefix = HeaderPrefix::new(required, handle.base(), handle.total_inserted(), max);
    put_in_front(&prefix, block, len)?;
    Ok(required)
}

/// Adds the fields to a block in progress by what is chosen for each, one after the other. On error some of them were
/// added: what they inserted stays, and its instructions are written.
fn append_fields<
    A: Allocator,
    B: Allocator,
    H: AsField,
    I: FindsEntries,
    F: StoredField,
    C: Chooses<I, F>,
>(
    handle: &mut DynamicTableEncoder<'_, I, F>,
    fields: &[H],
    chooser: &mut C,
    coding: Coding,
    lines: &mut Vec<u8, A>,
    encoder_buf: &mut Vec<u8, B>,
) -> Result<(), NoMemory>
    ensures same_table { handle.new.table.ghost_name ≡ handle.old.table.ghost_name }
    ensures stream { handle.new.stream_id ≡ handle.old.stream_id }
    ensures base { handle.new.base ≡ handle.old.base }
    ensures ok { OnOk result (AddsAlong (coding_of coding) C.chooses (map H.line fields.now) (map H.wish fields.now)
        handle.old.table.now handle.old.base handle.new.table.now chooser.old chooser.new lines.old.items lines.new.items encoder_buf.old.items encoder_buf.new.items) }
    ensures err { OnErr result (StopsAlong (coding_of coding) C.chooses (map H.line fields.now) (map H.wish fields.now)
        handle.old.table.now handle.old.base handle.new.table.now chooser.old encoder_buf.old.items
        encoder_buf.new.items) }
    ensures as_before { OnErr result (take (vec_len lines.old) lines.new.items ≡ lines.old.items) }
    ensures capacity { vec_capacity lines.old ≤ vec_capacity lines.new }
    ensures still { OnOk result
        (vec_len lines.new ≤ vec_capacity lines.old → vec_capacity lines.new ≡ vec_capacity lines.old) }
    ensures instructions { GrowsWithin (instructions_room (fields_of_lines (map H.line fields.now))) encoder_buf.old
        encoder_buf.new }
{
    for field in fields {
        append_line(
            coding,
            handle,
            &field.as_field(),
            field.wish(),
            chooser,
            lines,
            encoder_buf,
        )?;
    }
    Ok(())
}
