//! One encoder instruction, whichever it is (RFC 9204, section 4.3).

ghost use Rattle.std.specs.Prelude.{◌≡◌, ◌∷◌, drop, Err, ◌-◌, ◌^◌, min, length};
ghost use Rattle.qpack_spec.specs.Instruction.{encoder_instruction_form};
ghost use Rattle.qpack_spec.specs.Integer.{integer_at};
ghost use Rattle.qpack_spec.specs.Wanted.{wanted as wanted_of, string_end as string_end_of};
ghost use Rattle.qpack_spec.specs.Wanted.{value_wanted as value_wanted_of, value_behind_index_wanted};
ghost use Rattle.qpack_spec.specs.Wanted.{value_behind_name_wanted, least_field_size as least_field_size_of};
ghost use Rattle.qpack_spec.specs.Wanted.{least_text as least_text_of, least_string as least_string_of};
ghost use Rattle.qpack_spec.specs.Wanted.{least_value_behind_index, least_name_and_value};
ghost use Rattle.qpack_base.specs.declared.parse_error.ParseError.TheVariants.{Memory};
ghost use Rattle.qpack_wire.specs.Answers.{ReadsForm};
ghost use Rattle.qpack_wire.specs.Memory.{AsksForMemory};
ghost use Rattle.qpack_wire.specs.StreamLines.{encoder_instruction_of_first, encoder_instruction_of};
ghost use Rattle.qpack_wire.specs.StreamLines.{encoder_instruction_at};

use crate::form::VALUE_SIZE;
use crate::stream::encoder_instructions::{
    self, CAPACITY, CAPACITY_SIZE, Duplicate, DynamicTableSizeUpdate, InsertWithNameRef,
    InsertWithoutNameRef, LITERAL, LITERAL_SIZE, NAMED_DYNAMIC, NAMED_SIZE,
};
use crate::stream::lines::{Wire, or_none};
use qpack_base::coding::{Cursor, NoMemory};
use qpack_base::field::ESTIMATED_OVERHEAD_BYTES;
use qpack_base::parse_error::ParseError;
use qpack_base::prefix_int;
use std::alloc::{Allocator, Global};

/// The encoder instruction that a first byte determines.
#[derive(Debug, PartialEq, Drop)]
pub enum EncoderInstruction {
    /// `001`: a capacity (section 4.3.1).
    DynamicTableSizeUpdate,
    /// `1T`: an insertion with a name reference (section 4.3.2).
    InsertWithNameRef,
    /// `01H`: an insertion with a literal name (section 4.3.3).
    InsertWithoutNameRef,
    /// `000`: a duplication (section 4.3.4).
    Duplicate,
    /// Kept from the original, and never returned: every byte begins an instruction.
    Unknown,
}

impl EncoderInstruction {
    /// Returns the encoder instruction that begins with this byte.
    pub fn decode(first: u8) -> EncoderInstruction
        ensures { result ≡ encoder_instruction_of_first first }
    {
        if first >= NAMED_DYNAMIC << NAMED_SIZE {
            EncoderInstruction::InsertWithNameRef
        } else if first >= LITERAL << LITERAL_SIZE {
            EncoderInstruction::InsertWithoutNameRef
        } else if first >= CAPACITY << CAPACITY_SIZE {
            EncoderInstruction::DynamicTableSizeUpdate
        } else {
            EncoderInstruction::Duplicate
        }
    }
}

/// An encoder instruction.
#[derive(Debug, PartialEq, Drop)]
pub enum EncoderLine {
    /// An insertion with a name reference.
    InsertWithNameRef(InsertWithNameRef),
    /// An insertion with a literal name.
    InsertWithoutNameRef(InsertWithoutNameRef),
    /// A duplication.
    Duplicate(Duplicate),
    /// A capacity.
    DynamicTableSizeUpdate(DynamicTableSizeUpdate),
}

impl Wire for EncoderLine {
    ghost use Rattle.qpack_spec.specs.Instruction.{EncoderInstruction, SpellsEncoderInstruction};
    ghost use Rattle.qpack_spec.specs.Instruction.{written_encoder_instruction};
    ghost use Rattle.qpack_spec.specs.WrittenLaws.{IsWritableEncoderInstruction};
    ghost use Rattle.qpack_wire.specs.StreamLines.{RefusesEncoderLine};
    ghost use Rattle.qpack_wire.specs.StreamLineLaws.{written_instructions_spelled, written_instructions_read_back};
    ghost use Rattle.qpack_wire.specs.StreamLineLaws.{spellings_have_one_instruction, no_instruction_begins_another};

    ghost Line = { EncoderInstruction };

    ghost line_of = { encoder_instruction_of };

    ghost spells = { SpellsEncoderInstruction };

    ghost refuses = { RefusesEncoderLine };

    ghost read = { encoder_instruction_at };

    ghost writable = { IsWritableEncoderInstruction };

    ghost written = { written_encoder_instruction };

    ghost asks_for_memory = { AsksForMemory encoder_instruction_form };

    ghost written_is_spelled = { written_instructions_spelled };

    ghost written_is_read_back = { written_instructions_read_back };

    ghost spellings_have_one_line = { spellings_have_one_instruction };

    ghost no_line_begins_another = { no_instruction_begins_another };

    fn decode(alloc: Global, buf: &mut Cursor) -> Result<Option<EncoderLine>, ParseError> {
        or_none(read_line(alloc, buf))
    }

    fn encode<A: Allocator>(&self, buf: &mut Vec<u8, A>) -> Result<(), NoMemory> {
        match self {
            EncoderLine::InsertWithNameRef(line) => {
                if line.encode(buf).is_err() {
                    return Err(NoMemory);
                }
                Ok(())
            }
            EncoderLine::InsertWithoutNameRef(line) => {
                if line.encode(buf).is_err() {
                    return Err(NoMemory);
                }
                Ok(())
            }
            EncoderLine::Duplicate(line) => line.encode(buf),
            EncoderLine::DynamicTableSizeUpdate(line) => line.encode(buf),
        }
    }
}

#[tactic(auto, using(crate::proofs::StreamForms::no_instruction))]
fn read_line(alloc: Global, buf: &mut Cursor) -> Result<EncoderLine, ParseError>
    ensures exact { ReadsForm encoder_instruction_of buf.old buf.new result (encoder_instruction_at buf.old.rest) }
    ensures memory { result ≡ Err Memory → AsksForMemory encoder_instruction_form buf.old.rest }
{
    let Some((first, _)) = buf.chunk().split_first() else {
        return Err(ParseError::Integer(prefix_int::Error::UnexpectedEnd));
    };
    read_line_of(alloc, *first, buf)
}

/// Reads the instruction, which begins with this byte.
#[tactic(auto, using(crate::proofs::StreamForms::encoder_by_first))]
fn read_line_of(alloc: Global, first: u8, buf: &mut Cursor) -> Result<EncoderLine, ParseError>
    requires { buf.old.rest ≡ first ∷ drop 1 buf.old.rest }
    ensures exact { ReadsForm encoder_instruction_of buf.old buf.new result (encoder_instruction_at buf.old.rest) }
    ensures memory { result ≡ Err Memory → AsksForMemory encoder_instruction_form buf.old.rest }
{
    match EncoderInstruction::decode(first) {
        EncoderInstruction::InsertWithNameRef => {
            let line = encoder_instructions::read_insert_with_name_ref(alloc, buf)?;
            Ok(EncoderLine::InsertWithNameRef(line))
        }
        EncoderInstruction::InsertWithoutNameRef => {
            let line = encoder_instructions::read_insert_without_name_ref(alloc, buf)?;
            Ok(EncoderLine::InsertWithoutNameRef(line))
        }
        EncoderInstruction::Duplicate => {
            let line = encoder_instructions::read_duplicate(buf)?;
            Ok(EncoderLine::Duplicate(line))
        }
        EncoderInstruction::DynamicTableSizeUpdate => {
            let line = encoder_instructions::read_dynamic_table_size_update(buf)?;
            Ok(EncoderLine::DynamicTableSizeUpdate(line))
        }
        EncoderInstruction::Unknown => Err(ParseError::InvalidPrefix(first)),
    }
}

/// Returns how many bytes there must be in all before the encoder instruction that begins with these, and ends early,
/// can be whole or rejected. Takes no memory. The number saturates.
#[tactic(auto, using(crate::proofs::Waiting::wanted_of_nothing))]
pub fn wanted(bytes: &[u8]) -> usize
    ensures { result ≡ min (wanted_of bytes.now) (2 ^ 64 - 1) }
{
    let Some((first, _)) = bytes.split_first() else {
        return 1;
    };
    wanted_by_first(*first, bytes)
}

/// Returns what `wanted` returns for bytes that begin with this one.
#[tactic(auto, using(crate::proofs::Waiting::wanted_by_kind))]
fn wanted_by_first(first: u8, bytes: &[u8]) -> usize
    requires { bytes.now ≡ first ∷ drop 1 bytes.now }
    ensures { result ≡ min (wanted_of bytes.now) (2 ^ 64 - 1) }
{
    match EncoderInstruction::decode(first) {
        EncoderInstruction::InsertWithNameRef => wanted_behind_index(bytes),
        EncoderInstruction::InsertWithoutNameRef => wanted_behind_name(bytes),
        EncoderInstruction::Duplicate
        | EncoderInstruction::DynamicTableSizeUpdate
        | EncoderInstruction::Unknown => bytes.len() + 1,
    }
}

/// Returns what `wanted` returns for an index and a value.
fn wanted_behind_index(bytes: &[u8]) -> usize
    ensures { result ≡ min (value_behind_index_wanted (length bytes.now) (integer_at 6 bytes.now)) (2 ^ 64 - 1) }
{
    let mut buf = Cursor::new(bytes);
    match prefix_int::decode(NAMED_SIZE, &mut buf) {
        Ok(_) => value_wanted(bytes.len(), &mut buf),
        Err(_) => bytes.len() + 1,
    }
}

/// Returns what `wanted` returns for a name and a value. A coded name can be rejected where it ends, and a plain one
/// can't.
fn wanted_behind_name(bytes: &[u8]) -> usize
    ensures { result ≡ min (value_behind_name_wanted (length bytes.now) (integer_at 5 bytes.now)) (2 ^ 64 - 1) }
{
    let mut buf = Cursor::new(bytes);
    let Ok((flags, len)) = prefix_int::decode(LITERAL_SIZE - 1, &mut buf) else {
        return bytes.len() + 1;
    };
    if len <= buf.remaining() as u64 {
        buf.advance(len as usize);
        return value_wanted(bytes.len(), &mut buf);
    }
    let end = string_end(len, &buf);
    if flags % 2 == 0 {
        end.saturating_add(1)
    } else {
        end
    }
}

/// Returns what `wanted` returns for a value at the cursor, of `seen` bytes in all.
fn value_wanted(seen: usize, buf: &mut Cursor) -> usize
    requires { buf.old.total ≡ seen }
    ensures { result ≡ min (value_wanted_of seen (integer_at 7 buf.old.rest)) (2 ^ 64 - 1) }
{
    match prefix_int::decode(VALUE_SIZE - 1, buf) {
        Ok((_, len)) => string_end(len, buf),
        Err(_) => seen.saturating_add(1),
    }
}

/// Returns how many bytes there are up to the end of a payload of this length that begins at the cursor.
fn string_end(len: u64, buf: &Cursor) -> usize
    ensures { result ≡ min (string_end_of buf.now.total len buf.now.rest) (2 ^ 64 - 1) }
{
    buf.position().saturating_add(len as usize)
}

/// Returns the least size of the field inserted by an encoder instruction that begins with these bytes and ends early;
/// 0 if it inserts none, or a copy. Takes no memory. The size saturates.
#[tactic(auto, using(crate::proofs::Waiting::least_of_nothing))]
pub fn least_field_size(bytes: &[u8]) -> usize
    ensures { result ≡ min (least_field_size_of bytes.now) (2 ^ 64 - 1) }
{
    let Some((first, _)) = bytes.split_first() else {
        return 0;
    };
    least_field_size_by_first(*first, bytes)
}

/// Returns what `least_field_size` returns for bytes that begin with this one.
#[tactic(auto, using(crate::proofs::Waiting::least_by_kind))]
fn least_field_size_by_first(first: u8, bytes: &[u8]) -> usize
    requires { bytes.now ≡ first ∷ drop 1 bytes.now }
    ensures { result ≡ min (least_field_size_of bytes.now) (2 ^ 64 - 1) }
{
    let mut buf = Cursor::new(bytes);
    match EncoderInstruction::decode(first) {
        EncoderInstruction::InsertWithNameRef => {
            least_behind_index(&mut buf).saturating_add(ESTIMATED_OVERHEAD_BYTES)
        }
        EncoderInstruction::InsertWithoutNameRef => {
            least_texts(&mut buf).saturating_add(ESTIMATED_OVERHEAD_BYTES)
        }
        EncoderInstruction::Duplicate
        | EncoderInstruction::DynamicTableSizeUpdate
        | EncoderInstruction::Unknown => 0,
    }
}

/// Returns the least length of the value after an index.
fn least_behind_index(buf: &mut Cursor) -> usize
    ensures { result ≡ least_value_behind_index (integer_at 6 buf.old.rest) }
{
    match prefix_int::decode(NAMED_SIZE, buf) {
        Ok(_) => least_string(buf),
        Err(_) => 0,
    }
}

/// Returns the least length of a name and the value after it.
fn least_texts(buf: &mut Cursor) -> usize
    ensures { result ≡ min (least_name_and_value (integer_at 5 buf.old.rest)) (2 ^ 64 - 1) }
{
    let Ok((flags, len)) = prefix_int::decode(LITERAL_SIZE - 1, buf) else {
        return 0;
    };
    let name = least_text(flags, len);
    if len > buf.remaining() as u64 {
        return name;
    }
    buf.advance(len as usize);
    name.saturating_add(least_string(buf))
}

/// Returns how long the string at the cursor is at least.
fn least_string(buf: &mut Cursor) -> usize
    ensures { result ≡ least_string_of (integer_at 7 buf.old.rest) }
{
    match prefix_int::decode(VALUE_SIZE - 1, buf) {
        Ok((flags, len)) => least_text(flags, len),
        Err(_) => 0,
    }
}

/// Returns how long a text is at least whose payload has this length: no code has more than 31 bits.
fn least_text(flags: u8, len: u64) -> usize
    ensures { result ≡ least_text_of flags len }
{
    if flags % 2 == 0 {
        return len as usize;
    }
    len.div_ceil(4) as usize
}
