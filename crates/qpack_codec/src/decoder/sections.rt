//! Field sections under a dynamic table (RFC 9204, sections 2.2 and 4.5).

ghost use Rattle.std.specs.Prelude.{◌≡◌, Err, OnOk, []};
ghost use Rattle.qpack_spec.specs.Bytes.{Begins};
ghost use Rattle.qpack_spec.specs.BlockReading.{fields_in_bytes, reading_of_bytes};
ghost use Rattle.qpack_spec.specs.Reading.{line_field};
ghost use Rattle.qpack_spec.specs.Table.{window};
ghost use Rattle.qpack_wire.specs.BlockLines.{line_of};
ghost use Rattle.qpack_wire.specs.Lines.{line_of_indexed, line_of_literal_with_name_ref};
ghost use Rattle.qpack_wire.specs.Memory.{AsksLine, AsksSectionForMemory};
ghost use Rattle.qpack_codec.specs.Sections.{DecodesSection, GivesLineField, ReadsField, ReadsFields, line_field_at};
ghost use Rattle.qpack_codec.specs.Stateless.{IsFinished};
ghost use Rattle.qpack_codec.specs.declared.error.DecoderError.TheVariants.{Memory};

use crate::decoder::Decoded;
use crate::error::DecoderError;
use qpack_base::coding::Cursor;
use qpack_base::field::HeaderField;
use qpack_base::static_::StaticTable;
use qpack_table::dynamic::{DynamicTable, DynamicTableDecoder, EntryIndex};
use qpack_wire::block::{
    BlockLine, HeaderPrefix, Indexed, Literal, LiteralWithNameRef, LiteralWithPostBaseNameRef,
};
use std::alloc::Global;

/// For how many fields room is made at once at most.
const FIELDS_AT_ONCE: usize = 16;

/// The fields of lines, in order, and the sum of their sizes in bytes, at most 2^64 - 1.
#[derive(Drop)]
struct Fields {
    fields: Vec<HeaderField>,
    mem_size: u64,
}

/// Decodes the section left at the cursor.
#[tactic(auto, unfolding(qpack_spec::specs::BlockReading::reading_of_bytes))]
pub(super) fn read_section<I: EntryIndex>(
    table: &DynamicTable<I>,
    buf: &mut Cursor,
) -> Result<Decoded, DecoderError>
    ensures exact { DecodesSection result (reading_of_bytes (window table.now) buf.old.rest) }
    ensures finished { OnOk result (IsFinished buf.old buf.new) }
    ensures memory { result ≡ Err Memory → AsksSectionForMemory buf.old.rest }
{
    let prefix = HeaderPrefix::decode(buf)?;
    let inserted = table.total_inserted();
    let (required, base) = prefix.get(inserted, table.agreed_max())?;
    if required > inserted {
        return Err(DecoderError::MissingRefs(required));
    }
    let read = read_fields(table.allocator(), &table.decoder(base), buf)?;
    Ok(Decoded {
        fields: read.fields,
        dyn_ref: required > 0,
        mem_size: read.mem_size,
    })
}

/// Returns an empty list with room for as many fields as there can be lines in this many bytes, up to 16. (A list of 16
/// fields of 64 bytes is 1 KiB; larger blocks are slower to allocate and to free.) If memory is refused the list has no
/// room, and asks for it as fields come.
pub(crate) fn room_for_fields(alloc: Global, bytes: usize) -> Vec<HeaderField>
    ensures { result.items ≡ [] }
{
    let mut fields = Vec::new(alloc);
    let _is_made = fields.reserve(bytes.min(FIELDS_AT_ONCE)).is_ok();
    fields
}

/// Reads lines to the end of the cursor.
fn read_fields<I: EntryIndex>(
    alloc: Global,
    table: &DynamicTableDecoder<'_, I>,
    buf: &mut Cursor,
) -> Result<Fields, DecoderError>
    ensures exact { ReadsFields result (fields_in_bytes (window table.now.table.now) table.now.base buf.old.rest) }
    ensures finished { OnOk result (IsFinished buf.old buf.new) }
    ensures memory { result ≡ Err Memory → Begins AsksLine buf.old.rest }
{
    let mut fields = room_for_fields(alloc, buf.remaining());
    let mut mem_size = 0u64;
    while buf.remaining() > 0 {
        let field = read_field(alloc, table, buf)?;
        mem_size = mem_size.saturating_add(field.mem_size() as u64);
        fields.push(field)?;
    }
    Ok(Fields { fields, mem_size })
}

/// Reads the line at the cursor, and gives its field.
fn read_field<I: EntryIndex>(
    alloc: Global,
    table: &DynamicTableDecoder<'_, I>,
    buf: &mut Cursor,
) -> Result<HeaderField, DecoderError>
    ensures exact { ReadsField buf.old buf.new result
        (line_field_at (window table.now.table.now) table.now.base buf.old.rest) }
    ensures memory { result ≡ Err Memory → Begins AsksLine buf.old.rest }
{
    let line = BlockLine::decode(alloc, buf)?;
    field_of_line(table, line)
}

/// Returns the field that a line means (RFC 9204, sections 4.5.2 to 4.5.6).
#[tactic(auto, unfolding(qpack_spec::specs::Reading::line_field))]
fn field_of_line<I: EntryIndex>(
    table: &DynamicTableDecoder<'_, I>,
    line: BlockLine,
) -> Result<HeaderField, DecoderError>
    ensures { GivesLineField result (line_field (window table.now.table.now) table.now.base (line_of line)) }
{
    match line {
        BlockLine::Indexed(line) => field_of_indexed(table, line),
        BlockLine::IndexedWithPostBase(line) => Ok(table.get_postbase(line.0)?.clone()?),
        BlockLine::LiteralWithNameRef(line) => field_of_literal_with_name_ref(table, line),
        BlockLine::LiteralWithPostBaseNameRef(LiteralWithPostBaseNameRef { index, value }) => {
            Ok(table.get_postbase(index)?.with_value(value)?)
        }
        BlockLine::Literal(Literal { name, value }) => Ok(HeaderField::new(name, value)),
    }
}

/// Returns the field that an indexed field line means.
#[inline(always)]
#[tactic(auto, unfolding(qpack_spec::specs::Reading::line_field, qpack_spec::specs::Reading::static_field))]
fn field_of_indexed<I: EntryIndex>(
    table: &DynamicTableDecoder<'_, I>,
    line: Indexed,
) -> Result<HeaderField, DecoderError>
    ensures { GivesLineField result
        (line_field (window table.now.table.now) table.now.base (line_of_indexed line)) }
{
    match line {
        Indexed::Static(index) => Ok(StaticTable::get(index)?),
        Indexed::Dynamic(index) => Ok(table.get_relative(index)?.clone()?),
    }
}

/// Returns the field that a literal field line with a name reference means.
#[inline(always)]
#[tactic(auto, unfolding(qpack_spec::specs::Reading::line_field, qpack_spec::specs::Reading::static_field))]
fn field_of_literal_with_name_ref<I: EntryIndex>(
    table: &DynamicTableDecoder<'_, I>,
    line: LiteralWithNameRef,
) -> Result<HeaderField, DecoderError>
    ensures { GivesLineField result
        (line_field (window table.now.table.now) table.now.base (line_of_literal_with_name_ref line)) }
{
    match line {
        LiteralWithNameRef::Static { index, value } => {
            Ok(StaticTable::get(index)?.with_value(value)?)
        }
        LiteralWithNameRef::Dynamic { index, value } => {
            Ok(table.get_relative(index)?.with_value(value)?)
        }
    }
}
