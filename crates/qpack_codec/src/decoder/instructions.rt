//! Encoder instructions, as a decoder takes them (RFC 9204, section 4.3).

ghost use Rattle.std.specs.Prelude.{◌≡◌, ◌<◌, Err, IfErr, IsSome, IsTrue, OnOk, OnErr};
ghost use Rattle.qpack_spec.specs.Instruction.{Duplicate as DuplicateOf, EncoderInstruction};
ghost use Rattle.qpack_spec.specs.Instruction.{written_decoder_instructions};
ghost use Rattle.qpack_spec.specs.Table.{apply_encoder_instruction, put, with_capacity};
ghost use Rattle.qpack_base.specs.Writes.{Writes};
ghost use Rattle.qpack_wire.specs.Bounded.{IsBounded, IsLong};
ghost use Rattle.qpack_wire.specs.Instructions.{encoder_instruction_of_insert_with_name_ref};
ghost use Rattle.qpack_wire.specs.StreamLines.{encoder_instruction_of};
ghost use Rattle.qpack_codec.specs.Receiving.{Applies, field_to_insert, FindsField, TakesNext, TakesInstructions};
ghost use Rattle.qpack_codec.specs.Receiving.{is_passed, longest_texts, HasName, LacksName, written_report};
ghost use Rattle.qpack_codec.specs.declared.error.DecoderError.TheVariants.{Memory};
ghost use Rattle.qpack_codec.specs.declared.error.DecoderError.TheVariants.{DynamicTable as DynamicTableError};

use crate::error::DecoderError;
use qpack_base::coding::{Cursor, NoMemory};
use qpack_base::field::ESTIMATED_OVERHEAD_BYTES;
use qpack_base::static_::StaticTable;
use qpack_base::stored_field::StoredField;
use qpack_table::dynamic::{self, DynamicTable, EntryIndex};
use qpack_wire::stream::{
    BoundedLine, Duplicate, DynamicTableSizeUpdate, EncoderLine, InsertCountIncrement,
    InsertWithNameRef, InsertWithoutNameRef, NameSource,
};
use std::alloc::Allocator;

/// The greatest increment that is written; a longer one is split into pieces.
const GREATEST_PIECE: usize = 64;

/// Applies all whole instructions at the cursor, and moves past them. Stops at the first one that is rejected. The
/// cursor moves past that one exactly if the table rejects what it asks for.
pub(super) fn take_instructions<I: EntryIndex, F: StoredField>(
    table: &mut DynamicTable<I, F>,
    buf: &mut Cursor,
) -> Result<(), DecoderError>
    ensures takes { TakesInstructions table.old table.new buf.old.rest buf.new.rest result }
    ensures total { buf.new.total ≡ buf.old.total }
{
    while take_instruction(table, buf)? {}
    Ok(())
}

/// Applies the encoder instruction at the cursor, and moves past it (RFC 9204, section 4.3). Returns whether there was
/// a whole one. On error the table is unchanged. The cursor moves past the instruction exactly if the table rejects
/// what it asks for. The table may be one without an index. A name or a value that can't fit takes no memory.
pub fn take_instruction<I: EntryIndex, F: StoredField>(
    table: &mut DynamicTable<I, F>,
    buf: &mut Cursor,
) -> Result<bool, DecoderError>
    ensures takes { TakesNext table.old table.new buf.old.rest buf.new.rest result }
    ensures total { buf.new.total ≡ buf.old.total }
{
    let mut ahead = buf.fork();
    let most = longest_texts(table);
    let Some(line) = BoundedLine::decode(table.allocator(), most, &mut ahead)? else {
        return Ok(false);
    };
    let answer = apply_bounded_line(table, line);
    if is_passed(&answer) {
        *buf = ahead;
    }
    answer?;
    Ok(true)
}

/// Returns whether the cursor moves past an instruction with this result: it was applied, or the table rejects what it
/// asks for.
fn is_passed(answer: &Result<(), DecoderError>) -> bool
    ensures { result ≡ is_passed answer.now }
{
    match answer {
        Ok(()) => true,
        Err(DecoderError::DynamicTable(e)) => is_refused_by_table(e),
        Err(_) => false,
    }
}

/// Returns whether an error of the table refuses what an instruction asks for, and no index.
fn is_refused_by_table(e: &dynamic::Error) -> bool
    ensures { result ≡ is_passed (Err (DynamicTableError e.now)) }
{
    matches!(
        e,
        dynamic::Error::MaxTableSizeReached
            | dynamic::Error::MaximumTableSizeTooLarge
            | dynamic::Error::UnknownStreamId(_)
    )
}

/// Returns how many bytes the name and the value of a field that fits have together at most.
fn longest_texts<I: EntryIndex, F: StoredField>(table: &DynamicTable<I, F>) -> usize
    ensures { result ≡ longest_texts table.now }
{
    table
        .max_mem_size()
        .saturating_sub(ESTIMATED_OVERHEAD_BYTES)
}

/// Applies an instruction to the table. On error nothing changes.
fn apply_bounded_line<I: EntryIndex, F: StoredField>(
    table: &mut DynamicTable<I, F>,
    line: BoundedLine,
) -> Result<(), DecoderError>
    ensures applies { (i : EncoderInstruction) → IsBounded (longest_texts table.old) line i
        → Applies result (apply_encoder_instruction table.old i) table.old table.new }
    ensures memory { (i : EncoderInstruction) → IsBounded (longest_texts table.old) line i
        → result ≡ Err Memory → IsSome (field_to_insert table.old i) }
{
    match line {
        BoundedLine::Whole(line) => apply_encoder_line(table, line),
        BoundedLine::TooLong(source) => refuse_long_insertion(table, source),
    }
}

/// Rejects an insertion whose texts are longer than those of any field that fits. At capacity 0, where nothing is
/// inserted, passes over it.
fn refuse_long_insertion<I: EntryIndex, F: StoredField>(
    table: &DynamicTable<I, F>,
    source: NameSource,
) -> Result<(), DecoderError>
    ensures applies { (i : EncoderInstruction) → IsLong (longest_texts table.now) source i
        → Applies result (apply_encoder_instruction table.now i) table.now table.now }
    ensures no_memory { result ≡ Err Memory → ⊥ }
{
    find_name(table, source)?;
    if table.max_mem_size() == 0 {
        return Ok(());
    }
    Err(DecoderError::DynamicTable(dynamic::Error::MaxTableSizeReached))
}

/// Looks for the name that an insertion references. Takes no memory.
fn find_name<I: EntryIndex, F: StoredField>(
    table: &DynamicTable<I, F>,
    source: NameSource,
) -> Result<(), DecoderError>
    ensures found { OnOk result (HasName table.now source) }
    ensures lost { IfErr result (λ e. LacksName table.now source e) }
{
    match source {
        NameSource::Static(index) => {
            StaticTable::name(index)?;
        }
        NameSource::Dynamic(index) => {
            table.get_relative(index)?;
        }
        NameSource::Literal => {}
    }
    Ok(())
}

/// Applies an instruction to the table. On error nothing changes.
#[tactic(auto, unfolding(qpack_spec::specs::Table::apply_encoder_instruction))]
fn apply_encoder_line<I: EntryIndex, F: StoredField>(
    table: &mut DynamicTable<I, F>,
    line: EncoderLine,
) -> Result<(), DecoderError>
    ensures applies { Applies result (apply_encoder_instruction table.old (encoder_instruction_of line))
        table.old table.new }
    ensures memory { result ≡ Err Memory → IsSome (field_to_insert table.old (encoder_instruction_of line)) }
{
    match line {
        EncoderLine::InsertWithNameRef(line) => {
            let field = with_name(table, line)?;
            insert(table, field)
        }
        EncoderLine::InsertWithoutNameRef(InsertWithoutNameRef { name, value }) => {
            let field = F::from_parts(name, value)?;
            insert(table, field)
        }
        EncoderLine::Duplicate(Duplicate(index)) => {
            let field = duplicated(table, index)?;
            insert(table, field)
        }
        EncoderLine::DynamicTableSizeUpdate(DynamicTableSizeUpdate(size)) => {
            set_capacity(table, size)
        }
    }
}

/// Returns the field that an insertion with a name reference asks for (RFC 9204, section 4.3.2).
#[tactic(auto, unfolding(qpack_spec::specs::Table::apply_encoder_instruction))]
fn with_name<I: EntryIndex, F: StoredField>(
    table: &DynamicTable<I, F>,
    line: InsertWithNameRef,
) -> Result<F, DecoderError>
    ensures { FindsField F.field table.now (encoder_instruction_of_insert_with_name_ref line) result }
{
    match line {
        InsertWithNameRef::Static { index, value } => { Ok(F::with_static_name(index, value)?) }
        InsertWithNameRef::Dynamic { index, value } => {
            Ok(table.get_relative(index)?.with_value(value)?)
        }
    }
}

/// Returns the field that a duplicate asks for (RFC 9204, section 4.3.4).
#[tactic(auto, unfolding(qpack_spec::specs::Table::apply_encoder_instruction))]
fn duplicated<I: EntryIndex, F: StoredField>(
    table: &DynamicTable<I, F>,
    index: usize,
) -> Result<F, DecoderError>
    ensures { FindsField F.field table.now (DuplicateOf index) result }
{
    Ok(table.get_relative(index)?.duplicate()?)
}

/// Puts a field. On error nothing changes.
fn insert<I: EntryIndex, F: StoredField>(
    table: &mut DynamicTable<I, F>,
    field: F,
) -> Result<(), DecoderError>
    ensures { Applies result (put table.old (F.field field)) table.old table.new }
{
    Ok(table.put(field)?)
}

/// Sets the capacity. On error nothing changes; it takes no memory.
fn set_capacity<I: EntryIndex, F: StoredField>(
    table: &mut DynamicTable<I, F>,
    size: usize,
) -> Result<(), DecoderError>
    ensures applies { Applies result (with_capacity table.old size) table.old table.new }
    ensures no_memory { result ≡ Err Memory → ⊥ }
{
    Ok(table.set_max_size(size)?)
}

/// Appends increments for this many insertions, for the decoder stream: as many of 64 as possible, then one of the rest
/// (RFC 9204, section 4.4.3). On error the vector is unchanged. With free room for them all it succeeds and takes no
/// memory.
pub fn write_increments<A: Allocator>(
    insertions: usize,
    buf: &mut Vec<u8, A>,
) -> Result<(), NoMemory>
    ensures writes { Writes (written_report insertions) buf.old buf.new result }
    ensures memory { OnErr result (0 < insertions) }
{
    let len = buf.len();
    let mut rest = insertions;
    while rest > 0 {
        let piece = rest.min(GREATEST_PIECE);
        if InsertCountIncrement(piece).encode(buf).is_err() {
            buf.truncate(len);
            return Err(NoMemory);
        }
        rest -= piece;
    }
    Ok(())
}
