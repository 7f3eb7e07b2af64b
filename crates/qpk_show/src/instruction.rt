//! An encoder instruction, applied as a strict decoder does (RFC 9204, section 4.3), with the field that it inserts.

ghost use Rattle.std.specs.Prelude.{◌≡◌};
ghost use Rattle.qpack_base.specs.HeaderFields.{field_of};
ghost use Rattle.qpack_spec.specs.Instruction.{Duplicate as DuplicateOf};
ghost use Rattle.qpack_rules.specs.StrictInstructions.{inserts, strict_apply};
ghost use Rattle.qpack_spec.specs.Table.{apply_encoder_instruction, put, with_capacity};
ghost use Rattle.qpack_wire.specs.Instructions.{encoder_instruction_of_insert_with_name_ref};
ghost use Rattle.qpack_wire.specs.StreamLines.{encoder_instruction_of};
ghost use Rattle.qpack_codec.specs.Receiving.{Applies};
ghost use Rattle.qpk_show.specs.Answers.{AppliesLine, FindsToInsert, InsertsField};

use qpack_base::field::HeaderField;
use qpack_base::static_::StaticTable;
use qpack_codec::DecoderError;
use qpack_table::dynamic::{self, ReceivedTable};
use qpack_wire::stream::{
    Duplicate, DynamicTableSizeUpdate, EncoderLine, InsertWithNameRef, InsertWithoutNameRef,
};

/// Applies an instruction to the table, and returns the field that it inserts, if it inserts one. At capacity 0 no
/// insertion is lawful (RFC 9204, section 3.2.2). On error the table is unchanged; for memory, it is unspecified.
#[tactic(auto, unfolding(qpack_rules::specs::StrictInstructions::strict_apply))]
pub fn apply_instruction(
    table: &mut ReceivedTable,
    line: &EncoderLine,
) -> Result<Option<HeaderField>, DecoderError>
    ensures { AppliesLine result table.old table.new (encoder_instruction_of line.now)
        (strict_apply table.old (encoder_instruction_of line.now)) }
{
    if table.max_mem_size() == 0 && inserts(line) {
        return Err(DecoderError::DynamicTable(dynamic::Error::MaxTableSizeReached));
    }
    apply_line(table, line)
}

/// Returns whether an instruction inserts a field that it spells (RFC 9204, sections 4.3.2 and 4.3.3).
fn inserts(line: &EncoderLine) -> bool
    ensures { result ≡ inserts (encoder_instruction_of line.now) }
{
    match line {
        EncoderLine::InsertWithNameRef(InsertWithNameRef::Static { .. }) => true,
        EncoderLine::InsertWithNameRef(InsertWithNameRef::Dynamic { .. }) => true,
        EncoderLine::InsertWithoutNameRef(_) => true,
        EncoderLine::Duplicate(_) => false,
        EncoderLine::DynamicTableSizeUpdate(_) => false,
    }
}

/// Applies an instruction to the table.
#[tactic(auto, unfolding(qpack_spec::specs::Table::apply_encoder_instruction))]
fn apply_line(
    table: &mut ReceivedTable,
    line: &EncoderLine,
) -> Result<Option<HeaderField>, DecoderError>
    ensures { AppliesLine result table.old table.new (encoder_instruction_of line.now)
        (apply_encoder_instruction table.old (encoder_instruction_of line.now)) }
{
    match line {
        EncoderLine::InsertWithNameRef(line) => {
            let field = with_name(table, line)?;
            insert(table, field)
        }
        EncoderLine::InsertWithoutNameRef(InsertWithoutNameRef { name, value }) => {
            let field = HeaderField::new(name.clone()?, value.clone()?);
            insert(table, field)
        }
        EncoderLine::Duplicate(Duplicate(index)) => {
            let field = duplicated(table, *index)?;
            insert(table, field)
        }
        EncoderLine::DynamicTableSizeUpdate(DynamicTableSizeUpdate(size)) => {
            set_capacity(table, *size)?;
            Ok(None)
        }
    }
}

/// Returns the field that an insertion with a name reference asks for (RFC 9204, section 4.3.2).
#[tactic(auto, unfolding(qpack_spec::specs::Table::apply_encoder_instruction))]
fn with_name(table: &ReceivedTable, line: &InsertWithNameRef) -> Result<HeaderField, DecoderError>
    ensures { FindsToInsert table.now (encoder_instruction_of_insert_with_name_ref line.now) result }
{
    match line {
        InsertWithNameRef::Static { index, value } => {
            Ok(StaticTable::get(*index)?.with_value(value.clone()?)?)
        }
        InsertWithNameRef::Dynamic { index, value } => {
            Ok(table.get_relative(*index)?.with_value(value.clone()?)?)
        }
    }
}

/// Returns the field that a duplicate asks for (RFC 9204, section 4.3.4).
#[tactic(auto, unfolding(qpack_spec::specs::Table::apply_encoder_instruction))]
fn duplicated(table: &ReceivedTable, index: usize) -> Result<HeaderField, DecoderError>
    ensures { FindsToInsert table.now (DuplicateOf index) result }
{
    Ok(table.get_relative(index)?.clone()?)
}

/// Puts a field, and returns it. On error nothing changes.
fn insert(
    table: &mut ReceivedTable,
    field: HeaderField,
) -> Result<Option<HeaderField>, DecoderError>
    ensures { InsertsField result (field_of field) (put table.old (field_of field)) table.old table.new }
{
    let inserted = field.clone()?;
    put(table, field)?;
    Ok(Some(inserted))
}

/// Puts a field. On error nothing changes.
fn put(table: &mut ReceivedTable, field: HeaderField) -> Result<(), DecoderError>
    ensures { Applies result (put table.old (field_of field)) table.old table.new }
{
    Ok(table.put(field)?)
}

/// Sets the capacity. On error nothing changes.
fn set_capacity(table: &mut ReceivedTable, size: usize) -> Result<(), DecoderError>
    ensures { Applies result (with_capacity table.old size) table.old table.new }
{
    Ok(table.set_max_size(size)?)
}
