//! Encoder instructions (RFC 9204, section 4.3).

ghost use Rattle.std.specs.Prelude.{◌≡◌, Err, IfErr};
ghost use Rattle.qpack_spec.specs.Instruction.{InsertStaticName, InsertDynamicName, InsertLiteralName};
ghost use Rattle.qpack_spec.specs.Instruction.{coded_encoder_instruction, written_encoder_instruction};
ghost use Rattle.qpack_base.specs.Codings.{coding_of};
ghost use Rattle.qpack_base.specs.Writes.{Writes};
ghost use Rattle.qpack_base.specs.declared.prefix_string.Error.TheVariants.{Memory as NoRoom};
ghost use Rattle.qpack_base.specs.declared.parse_error.ParseError.TheVariants.{Memory};
ghost use Rattle.qpack_wire.specs.Alone.{form_for, SpellsKind, RefusesKind, kind_at};
ghost use Rattle.qpack_wire.specs.Answers.{ReadsForm};
ghost use Rattle.qpack_wire.specs.StreamAnswers.{DecodesInstruction, ReadsStream};
ghost use Rattle.qpack_wire.specs.Instructions.{dynamic_table_size_update, insert_with_name_ref};
ghost use Rattle.qpack_wire.specs.Instructions.{insert_without_name_ref, duplicate};
ghost use Rattle.qpack_wire.specs.Instructions.{encoder_instruction_of_dynamic_table_size_update};
ghost use Rattle.qpack_wire.specs.Instructions.{encoder_instruction_of_insert_with_name_ref};
ghost use Rattle.qpack_wire.specs.Instructions.{encoder_instruction_of_insert_without_name_ref};
ghost use Rattle.qpack_wire.specs.Instructions.{encoder_instruction_of_duplicate};
ghost use Rattle.qpack_wire.specs.Memory.{AsksForMemory, AsksAt};

use crate::form::{VALUE_SIZE, put_index_and_value, put_name_and_value, read_number};
use crate::stream::lines::or_none;
use qpack_base::coding::{Cursor, NoMemory};
use qpack_base::parse_error::ParseError;
use qpack_base::prefix_string::Coding;
use qpack_base::{prefix_int, prefix_string};
use std::alloc::{Allocator, Global};

// RFC 9204, section 4.3.1:
//   0   1   2   3   4   5   6   7
// +---+---+---+---+---+---+---+---+
// | 0 | 0 | 1 |   Capacity (5+)   |
// +---+---+---+-------------------+
pub(crate) const CAPACITY_SIZE: u8 = 5;

pub(crate) const CAPACITY: u8 = 0b001;

/// Sets the capacity of the dynamic table.
#[derive(Debug, PartialEq, Drop)]
pub struct DynamicTableSizeUpdate(pub usize);

impl DynamicTableSizeUpdate {
    /// Reads such an instruction at the cursor, or returns `None` if it is truncated. Takes no memory. If none is read,
    /// the cursor's position is unspecified.
    pub fn decode(buf: &mut Cursor) -> Result<Option<DynamicTableSizeUpdate>, ParseError>
        ensures decodes { DecodesInstruction encoder_instruction_of_dynamic_table_size_update
            (SpellsKind dynamic_table_size_update) (RefusesKind dynamic_table_size_update) buf.old buf.new result }
        ensures no_memory { result ≡ Err Memory → ⊥ }
        // The clauses above as one function, which reads from left to right.
        ensures exact { ReadsStream encoder_instruction_of_dynamic_table_size_update buf.old buf.new result
            (kind_at dynamic_table_size_update buf.old.rest) }
    {
        or_none(read_dynamic_table_size_update(buf))
    }

    /// Appends the written spelling of the instruction. On error the vector is unchanged; with free room for the
    /// spelling it succeeds and takes no memory.
    #[tactic(auto, unfolding(qpack_spec::specs::Instruction::coded_encoder_instruction))]
    pub fn encode<A: Allocator>(&self, buf: &mut Vec<u8, A>) -> Result<(), NoMemory>
        ensures writes { Writes
            (written_encoder_instruction (encoder_instruction_of_dynamic_table_size_update self.now)) buf.old
            buf.new result }
    {
        prefix_int::encode(CAPACITY_SIZE, CAPACITY, self.0 as u64, buf)
    }
}

#[tactic(auto, unfolding(crate::specs::Alone::kind_at, crate::specs::Alone::number_under, qpack_spec::specs::Form::made_at))]
pub(crate) fn read_dynamic_table_size_update(
    buf: &mut Cursor,
) -> Result<DynamicTableSizeUpdate, ParseError>
    ensures exact { ReadsForm encoder_instruction_of_dynamic_table_size_update buf.old buf.new result
        (kind_at dynamic_table_size_update buf.old.rest) }
    ensures no_memory { result ≡ Err Memory → ⊥ }
{
    let value = read_number(CAPACITY_SIZE, CAPACITY, buf)?;
    Ok(DynamicTableSizeUpdate(value as usize))
}

// RFC 9204, section 4.3.2:
//   0   1   2   3   4   5   6   7
// +---+---+---+---+---+---+---+---+
// | 1 | T |    Name Index (6+)    |
// +---+---+-----------------------+
// | H |     Value Length (7+)     |
// +---+---------------------------+
// |  Value String (Length bytes)  |
// +-------------------------------+
// T is 1 for the static table.
pub(crate) const NAMED_SIZE: u8 = 6;

pub(crate) const NAMED_DYNAMIC: u8 = 0b10;

pub(crate) const NAMED_STATIC: u8 = 0b11;

/// Inserts a value under the name of a field of the static table, or of an entry of the dynamic table.
#[derive(Debug, PartialEq, Drop)]
pub enum InsertWithNameRef {
    /// The name of a field of the static table.
    Static {
        /// The index in the static table.
        index: usize,
        /// The value.
        value: Vec<u8>,
    },
    /// The name of an entry of the dynamic table.
    Dynamic {
        /// The relative index in the dynamic table, the newest entry being 0.
        index: usize,
        /// The value.
        value: Vec<u8>,
    },
}

impl InsertWithNameRef {
    /// Returns a value under a name of the static table.
    pub fn new_static(index: usize, value: Vec<u8>) -> InsertWithNameRef
        ensures { encoder_instruction_of_insert_with_name_ref result ≡ InsertStaticName index value.items }
    {
        InsertWithNameRef::Static { index, value }
    }

    /// Returns a value under a name of the dynamic table.
    pub fn new_dynamic(index: usize, value: Vec<u8>) -> InsertWithNameRef
        ensures { encoder_instruction_of_insert_with_name_ref result ≡ InsertDynamicName index value.items }
    {
        InsertWithNameRef::Dynamic { index, value }
    }

    /// Reads such an instruction at the cursor, or returns `None` if it is truncated. If none is read, the cursor's
    /// position is unspecified.
    pub fn decode(alloc: Global, buf: &mut Cursor) -> Result<Option<InsertWithNameRef>, ParseError>
        ensures decodes { DecodesInstruction encoder_instruction_of_insert_with_name_ref
            (SpellsKind insert_with_name_ref)
            (RefusesKind insert_with_name_ref) buf.old buf.new result }
        // Memory is refused only if a string is whole and its payload is not empty.
        ensures memory { result ≡ Err Memory → AsksForMemory (form_for insert_with_name_ref) buf.old.rest }
        // The clauses above as one function, which reads from left to right.
        ensures exact { ReadsStream encoder_instruction_of_insert_with_name_ref buf.old buf.new result
            (kind_at insert_with_name_ref buf.old.rest) }
    {
        or_none(read_insert_with_name_ref(alloc, buf))
    }

    /// Appends the written spelling of the instruction. On error the vector is unchanged; with free room for the
    /// spelling it succeeds and takes no memory.
    pub fn encode<A: Allocator>(&self, buf: &mut Vec<u8, A>) -> Result<(), prefix_string::Error>
        ensures writes { Writes (written_encoder_instruction (encoder_instruction_of_insert_with_name_ref self.now))
            buf.old buf.new result }
        ensures memory { IfErr result (λ e. e ≡ NoRoom) }
    {
        match self {
            InsertWithNameRef::Static { index, value } => {
                InsertWithNameRef::write_static(Coding::Always, *index, value, buf)
            }
            InsertWithNameRef::Dynamic { index, value } => {
                InsertWithNameRef::write_dynamic(Coding::Always, *index, value, buf)
            }
        }
    }

    /// Appends the written spelling of the instruction with a borrowed value under a name of the static
    /// table, as `encode` does. The coding says which strings are coded.
    #[tactic(auto, unfolding(qpack_spec::specs::Instruction::coded_encoder_instruction))]
    pub fn write_static<A: Allocator>(
        coding: Coding,
        index: usize,
        value: &[u8],
        buf: &mut Vec<u8, A>,
    ) -> Result<(), prefix_string::Error>
        ensures writes { Writes (coded_encoder_instruction (coding_of coding) (InsertStaticName index value.now))
            buf.old buf.new result }
        ensures memory { IfErr result (λ e. e ≡ NoRoom) }
    {
        put_index_and_value(coding, NAMED_SIZE, NAMED_STATIC, index as u64, value, buf)
    }

    /// Appends the written spelling of the instruction with a borrowed value under a name of the dynamic
    /// table, as `encode` does. The coding says which strings are coded.
    #[tactic(auto, unfolding(qpack_spec::specs::Instruction::coded_encoder_instruction))]
    pub fn write_dynamic<A: Allocator>(
        coding: Coding,
        index: usize,
        value: &[u8],
        buf: &mut Vec<u8, A>,
    ) -> Result<(), prefix_string::Error>
        ensures writes { Writes (coded_encoder_instruction (coding_of coding) (InsertDynamicName index value.now))
            buf.old buf.new result }
        ensures memory { IfErr result (λ e. e ≡ NoRoom) }
    {
        put_index_and_value(coding, NAMED_SIZE, NAMED_DYNAMIC, index as u64, value, buf)
    }
}

#[inline(always)]
#[tactic(auto, unfolding(crate::specs::Alone::kind_at, qpack_spec::specs::Form::made_at))]
pub(crate) fn read_insert_with_name_ref(
    alloc: Global,
    buf: &mut Cursor,
) -> Result<InsertWithNameRef, ParseError>
    ensures exact { ReadsForm encoder_instruction_of_insert_with_name_ref buf.old buf.new result
        (kind_at insert_with_name_ref buf.old.rest) }
    ensures memory { result ≡ Err Memory → AsksAt insert_with_name_ref buf.old.rest }
{
    let (flags, index) = prefix_int::decode(NAMED_SIZE, buf)?;
    let is_static = match flags {
        NAMED_STATIC => true,
        NAMED_DYNAMIC => false,
        _ => return Err(ParseError::InvalidPrefix(flags)),
    };
    let index = index as usize;
    let value = prefix_string::decode(alloc, VALUE_SIZE, buf)?;
    if is_static {
        Ok(InsertWithNameRef::Static { index, value })
    } else {
        Ok(InsertWithNameRef::Dynamic { index, value })
    }
}

// RFC 9204, section 4.3.3:
//   0   1   2   3   4   5   6   7
// +---+---+---+---+---+---+---+---+
// | 0 | 1 | H | Name Length (5+)  |
// +---+---+---+-------------------+
// |  Name String (Length bytes)   |
// +---+---------------------------+
// | H |     Value Length (7+)     |
// +---+---------------------------+
// |  Value String (Length bytes)  |
// +-------------------------------+
pub(crate) const LITERAL_SIZE: u8 = 6;

pub(crate) const LITERAL: u8 = 0b01;

/// Inserts a name and a value.
#[derive(Debug, PartialEq, Drop)]
pub struct InsertWithoutNameRef {
    /// The name.
    pub name: Vec<u8>,
    /// The value.
    pub value: Vec<u8>,
}

impl InsertWithoutNameRef {
    /// Returns a name and a value.
    pub fn new(name: Vec<u8>, value: Vec<u8>) -> InsertWithoutNameRef
        ensures { encoder_instruction_of_insert_without_name_ref result ≡ InsertLiteralName name.items value.items }
    {
        InsertWithoutNameRef { name, value }
    }

    /// Reads such an instruction at the cursor, or returns `None` if it is truncated. If none is read, the cursor's
    /// position is unspecified.
    pub fn decode(
        alloc: Global,
        buf: &mut Cursor,
    ) -> Result<Option<InsertWithoutNameRef>, ParseError>
        ensures decodes { DecodesInstruction encoder_instruction_of_insert_without_name_ref
            (SpellsKind insert_without_name_ref) (RefusesKind insert_without_name_ref) buf.old buf.new result }
        // Memory is refused only if a string is whole and its payload is not empty.
        ensures memory { result ≡ Err Memory → AsksForMemory (form_for insert_without_name_ref) buf.old.rest }
        // The clauses above as one function, which reads from left to right.
        ensures exact { ReadsStream encoder_instruction_of_insert_without_name_ref buf.old buf.new result
            (kind_at insert_without_name_ref buf.old.rest) }
    {
        or_none(read_insert_without_name_ref(alloc, buf))
    }

    /// Appends the written spelling of the instruction. On error the vector is unchanged; with free room for the
    /// spelling it succeeds and takes no memory.
    pub fn encode<A: Allocator>(&self, buf: &mut Vec<u8, A>) -> Result<(), prefix_string::Error>
        ensures writes { Writes (written_encoder_instruction (encoder_instruction_of_insert_without_name_ref self.now))
            buf.old buf.new result }
        ensures memory { IfErr result (λ e. e ≡ NoRoom) }
    {
        InsertWithoutNameRef::write(Coding::Always, &self.name, &self.value, buf)
    }

    /// Appends the written spelling of the instruction with a borrowed name and value, as `encode` does. The
    /// coding says which strings are coded.
    #[tactic(auto, unfolding(qpack_spec::specs::Instruction::coded_encoder_instruction))]
    pub fn write<A: Allocator>(
        coding: Coding,
        name: &[u8],
        value: &[u8],
        buf: &mut Vec<u8, A>,
    ) -> Result<(), prefix_string::Error>
        ensures writes { Writes (coded_encoder_instruction (coding_of coding) (InsertLiteralName name.now value.now))
            buf.old buf.new result }
        ensures memory { IfErr result (λ e. e ≡ NoRoom) }
    {
        put_name_and_value(coding, LITERAL_SIZE, LITERAL, name, value, buf)
    }
}

#[tactic(auto, unfolding(crate::specs::Alone::kind_at, qpack_spec::specs::Form::made_at))]
pub(crate) fn read_insert_without_name_ref(
    alloc: Global,
    buf: &mut Cursor,
) -> Result<InsertWithoutNameRef, ParseError>
    ensures exact { ReadsForm encoder_instruction_of_insert_without_name_ref buf.old buf.new result
        (kind_at insert_without_name_ref buf.old.rest) }
    ensures memory { result ≡ Err Memory → AsksAt insert_without_name_ref buf.old.rest }
{
    let Some((first, _)) = buf.chunk().split_first() else {
        return Err(ParseError::Integer(prefix_int::Error::UnexpectedEnd));
    };
    if *first >> LITERAL_SIZE != LITERAL {
        return Err(ParseError::InvalidPrefix(*first));
    }
    let name = prefix_string::decode(alloc, LITERAL_SIZE, buf)?;
    let value = prefix_string::decode(alloc, VALUE_SIZE, buf)?;
    Ok(InsertWithoutNameRef { name, value })
}

// RFC 9204, section 4.3.4:
//   0   1   2   3   4   5   6   7
// +---+---+---+---+---+---+---+---+
// | 0 | 0 | 0 |    Index (5+)     |
// +---+---+---+-------------------+
const DUPLICATE_SIZE: u8 = 5;

const DUPLICATE: u8 = 0b000;

/// Inserts an entry of the table once more, the newest being 0.
#[derive(Debug, PartialEq, Drop)]
pub struct Duplicate(pub usize);

impl Duplicate {
    /// Reads such an instruction at the cursor, or returns `None` if it is truncated. Takes no memory. If none is read,
    /// the cursor's position is unspecified.
    pub fn decode(buf: &mut Cursor) -> Result<Option<Duplicate>, ParseError>
        ensures decodes { DecodesInstruction encoder_instruction_of_duplicate (SpellsKind duplicate)
            (RefusesKind duplicate) buf.old buf.new result }
        ensures no_memory { result ≡ Err Memory → ⊥ }
        // The clauses above as one function, which reads from left to right.
        ensures exact { ReadsStream encoder_instruction_of_duplicate buf.old buf.new result
            (kind_at duplicate buf.old.rest) }
    {
        or_none(read_duplicate(buf))
    }

    /// Appends the written spelling of the instruction. On error the vector is unchanged; with free room for the
    /// spelling it succeeds and takes no memory.
    #[tactic(auto, unfolding(qpack_spec::specs::Instruction::coded_encoder_instruction))]
    pub fn encode<A: Allocator>(&self, buf: &mut Vec<u8, A>) -> Result<(), NoMemory>
        ensures writes { Writes
            (written_encoder_instruction (encoder_instruction_of_duplicate self.now)) buf.old buf.new result }
    {
        prefix_int::encode(DUPLICATE_SIZE, DUPLICATE, self.0 as u64, buf)
    }
}

#[tactic(auto, unfolding(crate::specs::Alone::kind_at, crate::specs::Alone::number_under, qpack_spec::specs::Form::made_at))]
pub(crate) fn read_duplicate(buf: &mut Cursor) -> Result<Duplicate, ParseError>
    ensures exact { ReadsForm encoder_instruction_of_duplicate buf.old buf.new result (kind_at duplicate buf.old.rest) }
    ensures no_memory { result ≡ Err Memory → ⊥ }
{
    let value = read_number(DUPLICATE_SIZE, DUPLICATE, buf)?;
    Ok(Duplicate(value as usize))
}
