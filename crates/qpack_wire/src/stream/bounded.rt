//! Encoder instructions as a decoder reads them: an insertion whose texts are too long for its table is read without them
//! (RFC 9204, sections 3.2.2 and 4.3).

ghost use Rattle.std.specs.Prelude.{◌≡◌, ◌∷◌, ◌≤◌, drop, Err, IfOk, IfSome, vec_capacity};
ghost use Rattle.qpack_spec.specs.Instruction.{encoder_instruction_form};
ghost use Rattle.qpack_base.specs.declared.parse_error.ParseError.TheVariants.{Memory};
ghost use Rattle.qpack_wire.specs.Alone.{kind_at};
ghost use Rattle.qpack_wire.specs.Bounded.{DecodesBounded, ReadsBounded, KeepsWithin};
ghost use Rattle.qpack_wire.specs.Instructions.{insert_with_name_ref, insert_without_name_ref};
ghost use Rattle.qpack_wire.specs.Memory.{AsksAt, AsksForMemory};
ghost use Rattle.qpack_wire.specs.StreamLines.{encoder_instruction_at};

use crate::form::VALUE_SIZE;
use crate::stream::encoder_instructions::{
    self, InsertWithNameRef, InsertWithoutNameRef, LITERAL, LITERAL_SIZE, NAMED_DYNAMIC,
    NAMED_SIZE, NAMED_STATIC,
};
use crate::stream::encoder_stream::{EncoderInstruction, EncoderLine};
use crate::stream::lines::or_none;
use qpack_base::coding::Cursor;
use qpack_base::parse_error::ParseError;
use qpack_base::{prefix_int, prefix_string};
use std::alloc::Global;

/// Where an insertion takes its name from.
#[derive(Clone, Copy, Debug, PartialEq, Drop)]
pub enum NameSource {
    /// A field of the static table, by its index.
    Static(usize),
    /// An entry of the dynamic table, by its relative index.
    Dynamic(usize),
    /// The instruction itself.
    Literal,
}

/// An encoder instruction whose texts have at most as many bytes as was asked for.
#[derive(Debug, PartialEq, Drop)]
pub enum BoundedLine {
    /// The instruction.
    Whole(EncoderLine),
    /// An insertion whose name and value, where it spells them, have more bytes together. They are not kept.
    TooLong(NameSource),
}

impl BoundedLine {
    /// Reads the instruction at the cursor, or returns `None` if it is truncated. A name or a value takes room for at
    /// most `most` bytes. If none is read, the cursor's position is unspecified.
    pub fn decode(
        alloc: Global,
        most: usize,
        buf: &mut Cursor,
    ) -> Result<Option<BoundedLine>, ParseError>
        ensures decodes { DecodesBounded most buf.old buf.new result }
        ensures room { IfOk result (λ read. IfSome read (λ line. KeepsWithin most line)) }
        // Memory is refused only if a string is whole and its payload is not empty.
        ensures memory { result ≡ Err Memory → AsksForMemory encoder_instruction_form buf.old.rest }
    {
        or_none(read_line(alloc, most, buf))
    }
}

#[tactic(auto, using(crate::proofs::StreamForms::no_instruction))]
fn read_line(alloc: Global, most: usize, buf: &mut Cursor) -> Result<BoundedLine, ParseError>
    ensures exact { ReadsBounded most buf.old buf.new result (encoder_instruction_at buf.old.rest) }
    ensures room { IfOk result (λ line. KeepsWithin most line) }
    ensures memory { result ≡ Err Memory → AsksForMemory encoder_instruction_form buf.old.rest }
{
    let Some((first, _)) = buf.chunk().split_first() else {
        return Err(ParseError::Integer(prefix_int::Error::UnexpectedEnd));
    };
    read_line_of(alloc, *first, most, buf)
}

/// Reads the instruction, which begins with this byte.
#[tactic(auto, using(crate::proofs::StreamForms::encoder_by_first))]
fn read_line_of(
    alloc: Global,
    first: u8,
    most: usize,
    buf: &mut Cursor,
) -> Result<BoundedLine, ParseError>
    requires { buf.old.rest ≡ first ∷ drop 1 buf.old.rest }
    ensures exact { ReadsBounded most buf.old buf.new result (encoder_instruction_at buf.old.rest) }
    ensures room { IfOk result (λ line. KeepsWithin most line) }
    ensures memory { result ≡ Err Memory → AsksForMemory encoder_instruction_form buf.old.rest }
{
    match EncoderInstruction::decode(first) {
        EncoderInstruction::InsertWithNameRef => read_insert_with_name_ref(alloc, most, buf),
        EncoderInstruction::InsertWithoutNameRef => read_insert_without_name_ref(alloc, most, buf),
        EncoderInstruction::Duplicate => {
            let line = encoder_instructions::read_duplicate(buf)?;
            Ok(BoundedLine::Whole(EncoderLine::Duplicate(line)))
        }
        EncoderInstruction::DynamicTableSizeUpdate => {
            let line = encoder_instructions::read_dynamic_table_size_update(buf)?;
            Ok(BoundedLine::Whole(EncoderLine::DynamicTableSizeUpdate(line)))
        }
        EncoderInstruction::Unknown => Err(ParseError::InvalidPrefix(first)),
    }
}

/// Reads an insertion with a name reference.
#[tactic(auto, unfolding(crate::specs::Alone::kind_at, qpack_spec::specs::Form::made_at))]
fn read_insert_with_name_ref(
    alloc: Global,
    most: usize,
    buf: &mut Cursor,
) -> Result<BoundedLine, ParseError>
    ensures exact { ReadsBounded most buf.old buf.new result (kind_at insert_with_name_ref buf.old.rest) }
    ensures room { IfOk result (λ line. KeepsWithin most line) }
    ensures memory { result ≡ Err Memory → AsksAt insert_with_name_ref buf.old.rest }
{
    let (flags, index) = prefix_int::decode(NAMED_SIZE, buf)?;
    let index = index as usize;
    let source = match flags {
        NAMED_STATIC => NameSource::Static(index),
        NAMED_DYNAMIC => NameSource::Dynamic(index),
        _ => return Err(ParseError::InvalidPrefix(flags)),
    };
    let mut value = Vec::new(alloc);
    let len = prefix_string::decode_within(VALUE_SIZE, most, buf, &mut value)?;
    if len > most {
        return Ok(BoundedLine::TooLong(source));
    }
    let line = if flags == NAMED_STATIC {
        InsertWithNameRef::Static { index, value }
    } else {
        InsertWithNameRef::Dynamic { index, value }
    };
    Ok(BoundedLine::Whole(EncoderLine::InsertWithNameRef(line)))
}

/// Reads an insertion with a literal name.
#[tactic(auto, unfolding(crate::specs::Alone::kind_at, qpack_spec::specs::Form::made_at))]
fn read_insert_without_name_ref(
    alloc: Global,
    most: usize,
    buf: &mut Cursor,
) -> Result<BoundedLine, ParseError>
    ensures exact { ReadsBounded most buf.old buf.new result (kind_at insert_without_name_ref buf.old.rest) }
    ensures room { IfOk result (λ line. KeepsWithin most line) }
    ensures memory { result ≡ Err Memory → AsksAt insert_without_name_ref buf.old.rest }
{
    let Some((first, _)) = buf.chunk().split_first() else {
        return Err(ParseError::Integer(prefix_int::Error::UnexpectedEnd));
    };
    if *first >> LITERAL_SIZE != LITERAL {
        return Err(ParseError::InvalidPrefix(*first));
    }
    let mut name = Vec::new(alloc);
    let mut value = Vec::new(alloc);
    let name_len = prefix_string::decode_within(LITERAL_SIZE, most, buf, &mut name)?;
    let left = most.saturating_sub(name_len);
    let value_len = prefix_string::decode_within(VALUE_SIZE, left, buf, &mut value)?;
    if name_len > most || value_len > left {
        return Ok(BoundedLine::TooLong(NameSource::Literal));
    }
    let line = InsertWithoutNameRef { name, value };
    Ok(BoundedLine::Whole(EncoderLine::InsertWithoutNameRef(line)))
}
