//! Fields to blocks and back without a dynamic table (RFC 9204, sections 2.1 and 2.2).

ghost use Rattle.std.specs.Prelude.{◌≡◌, ◌++◌, ◌≤◌, ◌∷◌, List, Err, IfOk, IfErr, OnOk, OnErr, length, take, drop};
ghost use Rattle.std.specs.Prelude.{vec_len, vec_capacity};
ghost use Rattle.std.specs.Iterator.{IsFinite};
ghost use Rattle.qpack_spec.specs.Bytes.{Begins};
ghost use Rattle.qpack_spec.specs.Field.{Field, total_size};
ghost use Rattle.qpack_spec.specs.BlockReading.{written_block};
ghost use Rattle.qpack_spec.specs.Stateless.{StatelessFault, stateless_block, stateless_field, stateless_at};
ghost use Rattle.qpack_spec.specs.Stateless.{stateless_reading, saturated_size};
ghost use Rattle.qpack_spec.specs.StatelessMeaning.{MeansStateless, StopsStateless};
ghost use Rattle.qpack_base.specs.HeaderFields.{DrainsFields};
ghost use Rattle.qpack_wire.specs.BlockLines.{line_of};
ghost use Rattle.qpack_wire.specs.Memory.{AsksLine, AsksSectionForMemory};
ghost use Rattle.qpack_codec.specs.Stateless.{IsFinished, DecodesStateless, GivesFields, GivesFault, FindsFields};
ghost use Rattle.qpack_codec.specs.Stateless.{FindsFault};
ghost use Rattle.qpack_codec.specs.Stateless.{ReadsStatelessField, GivesStatelessField, stateless_field_at};
ghost use Rattle.qpack_codec.specs.declared.error.DecoderError.TheVariants.{Memory};
ghost use Rattle.qpack_codec.specs.declared.error.EncoderError.TheVariants.{Memory as EncoderMemory};

use crate::decoder::Decoded;
use crate::decoder::sections::room_for_fields;
use crate::error::{DecoderError, EncoderError};
use crate::stateless::field_lines::append_unmarked;
use qpack_base::coding::Cursor;
use qpack_base::field::HeaderField;
use qpack_base::prefix_string::Coding;
use qpack_base::static_::StaticTable;
use qpack_wire::block::{
    BlockLine, HeaderBlockField, HeaderPrefix, Indexed, Literal, LiteralWithNameRef,
};
use std::alloc::{Allocator, Global};

pub(crate) mod field_lines;

pub use crate::stateless::field_lines::encode_section_stateless;

/// Appends the block of the fields, written without a dynamic table, to the vector. Returns the sum of their sizes, at
/// most 2^64 - 1. On error, which is `Memory` only, the vector is unchanged.
pub fn encode_stateless<'a, A: Allocator, T: Iterator<Item = &'a HeaderField> + Drop>(
    block: &mut Vec<u8, A>,
    fields: T,
) -> Result<u64, EncoderError>
    requires can { T.can_next fields }
    requires ends { IsFinite (T.remaining fields) }
    ensures ok { IfOk result (λ size. DrainsFields T.next_gives fields (λ fs.
        (block.new.items ≡ block.old.items ++ written_block (stateless_block fs))
        × (size ≡ saturated_size (total_size fs)))) }
    ensures err { OnErr result (block.new.items ≡ block.old.items) }
    ensures memory { IfErr result (λ e. e ≡ EncoderMemory) }
    ensures capacity { vec_capacity block.old ≤ vec_capacity block.new }
{
    let len = block.len();
    let answer = append_stateless(block, fields);
    if answer.is_err() {
        block.truncate(len);
    }
    answer
}

/// Appends the block. On error the earlier bytes are still at the front.
fn append_stateless<'a, A: Allocator, T: Iterator<Item = &'a HeaderField> + Drop>(
    block: &mut Vec<u8, A>,
    fields: T,
) -> Result<u64, EncoderError>
    requires can { T.can_next fields }
    requires ends { IsFinite (T.remaining fields) }
    ensures ok { IfOk result (λ size. DrainsFields T.next_gives fields (λ fs.
        (block.new.items ≡ block.old.items ++ written_block (stateless_block fs))
        × (size ≡ saturated_size (total_size fs)))) }
    ensures err { OnErr result (take (vec_len block.old) block.new.items ≡ block.old.items) }
    ensures memory { IfErr result (λ e. e ≡ EncoderMemory) }
    ensures capacity { vec_capacity block.old ≤ vec_capacity block.new }
{
    HeaderPrefix::new(0, 0, 0, 0).encode(block)?;
    let mut size = 0u64;
    for field in fields {
        append_unmarked(
            Coding::Always,
            block,
            field.name.as_slice(),
            field.value.as_slice(),
        )?;
        size = size.saturating_add(field.mem_size() as u64);
    }
    Ok(size)
}

/// Decodes the bytes left at the cursor as a block without a dynamic table, up to a sum of sizes. It reads the block's
/// prefix, and ignores its values.
pub fn decode_stateless(
    alloc: Global,
    buf: &mut Cursor,
    max_size: u64,
) -> Result<Decoded, DecoderError>
    // It returns what the bytes mean, within the limit.
    ensures found { IfOk result (FindsFields max_size buf.old.rest) }
    // If they mean fields it returns them, unless memory is refused.
    ensures only { (fields : List Field) → MeansStateless max_size buf.old.rest fields → GivesFields result fields }
    // An error is the reason why they mean nothing: the first fault in reading order.
    ensures refused { IfErr result (FindsFault max_size buf.old.rest) }
    // If they mean nothing it returns why, unless memory is refused.
    ensures told { (fault : StatelessFault) → StopsStateless max_size buf.old.rest fault → GivesFault result fault }
    // A block that is read is read to its end.
    ensures finished { OnOk result (IsFinished buf.old buf.new) }
    // Memory is refused only if a prefix is followed by a whole line, or by a string whose payload is not empty.
    ensures memory { result ≡ Err Memory → AsksSectionForMemory buf.old.rest }
    // The clauses above as one function, which reads from left to right.
    ensures exact { DecodesStateless result (stateless_reading max_size buf.old.rest) }
{
    read_stateless(alloc, buf, max_size)
}

#[tactic(auto, unfolding(qpack_spec::specs::Stateless::stateless_reading))]
fn read_stateless(alloc: Global, buf: &mut Cursor, max_size: u64) -> Result<Decoded, DecoderError>
    ensures exact { DecodesStateless result (stateless_reading max_size buf.old.rest) }
    ensures finished { OnOk result (IsFinished buf.old buf.new) }
    ensures memory { result ≡ Err Memory → AsksSectionForMemory buf.old.rest }
{
    let _prefix = HeaderPrefix::decode(buf)?;
    read_stateless_fields(alloc, buf, max_size)
}

/// Reads lines to the end of the cursor.
fn read_stateless_fields(
    alloc: Global,
    buf: &mut Cursor,
    max_size: u64,
) -> Result<Decoded, DecoderError>
    ensures exact { DecodesStateless result (stateless_at (length buf.old.rest) max_size 0 buf.old.rest) }
    ensures finished { OnOk result (IsFinished buf.old buf.new) }
    ensures memory { result ≡ Err Memory → Begins AsksLine buf.old.rest }
{
    let mut fields = room_for_fields(alloc, buf.remaining());
    let mut mem_size = 0u64;
    while let Some(byte) = buf.chunk().first() {
        let field = read_stateless_field(alloc, *byte, buf)?;
        mem_size = mem_size.saturating_add(field.mem_size() as u64);
        if mem_size > max_size {
            return Err(DecoderError::HeaderTooLong(mem_size));
        }
        fields.push(field)?;
    }
    Ok(Decoded {
        fields,
        dyn_ref: false,
        mem_size,
    })
}

/// Reads the line at the cursor, which begins with this byte, and returns its field. A post-base line is rejected by
/// this byte alone.
fn read_stateless_field(
    alloc: Global,
    first: u8,
    buf: &mut Cursor,
) -> Result<HeaderField, DecoderError>
    requires { buf.old.rest ≡ first ∷ drop 1 buf.old.rest }
    ensures exact { ReadsStatelessField buf.old buf.new result (stateless_field_at first (drop 1 buf.old.rest)) }
    ensures memory { result ≡ Err Memory → Begins AsksLine buf.old.rest }
{
    match HeaderBlockField::decode(first) {
        HeaderBlockField::IndexedWithPostBase | HeaderBlockField::LiteralWithPostBaseNameRef => {
            Err(DecoderError::MissingRefs(0))
        }
        _ => stateless_field_of_line(BlockLine::decode(alloc, buf)?),
    }
}

/// Returns the field that a line means without a dynamic table.
#[tactic(auto, unfolding(qpack_spec::specs::Reading::static_field))]
fn stateless_field_of_line(line: BlockLine) -> Result<HeaderField, DecoderError>
    ensures { GivesStatelessField result (stateless_field (line_of line)) }
{
    match line {
        BlockLine::Indexed(Indexed::Static(index)) => Ok(StaticTable::get(index)?),
        BlockLine::LiteralWithNameRef(LiteralWithNameRef::Static { index, value }) => {
            Ok(StaticTable::get(index)?.with_value(value)?)
        }
        BlockLine::Literal(Literal { name, value }) => Ok(HeaderField::new(name, value)),
        BlockLine::Indexed(Indexed::Dynamic(_))
        | BlockLine::LiteralWithNameRef(LiteralWithNameRef::Dynamic { .. })
        | BlockLine::IndexedWithPostBase(_)
        | BlockLine::LiteralWithPostBaseNameRef(_) => Err(DecoderError::MissingRefs(0)),
    }
}
