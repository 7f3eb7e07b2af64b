//! Decoder instructions (RFC 9204, section 4.4).

ghost use Rattle.std.specs.Prelude.{◌≡◌, Err};
ghost use Rattle.qpack_spec.specs.Instruction.{written_decoder_instruction};
ghost use Rattle.qpack_base.specs.Writes.{Writes};
ghost use Rattle.qpack_base.specs.declared.parse_error.ParseError.TheVariants.{Memory};
ghost use Rattle.qpack_wire.specs.Alone.{SpellsKind, RefusesKind, kind_at};
ghost use Rattle.qpack_wire.specs.Answers.{ReadsForm};
ghost use Rattle.qpack_wire.specs.StreamAnswers.{DecodesInstruction, ReadsStream};
ghost use Rattle.qpack_wire.specs.Instructions.{insert_count_increment, header_ack, stream_cancel};
ghost use Rattle.qpack_wire.specs.Instructions.{decoder_instruction_of_insert_count_increment};
ghost use Rattle.qpack_wire.specs.Instructions.{decoder_instruction_of_header_ack};
ghost use Rattle.qpack_wire.specs.Instructions.{decoder_instruction_of_stream_cancel};

use crate::form::read_number;
use crate::stream::lines::or_none;
use qpack_base::coding::{Cursor, NoMemory};
use qpack_base::parse_error::ParseError;
use qpack_base::prefix_int;
use std::alloc::Allocator;

// RFC 9204, section 4.4.3:
//   0   1   2   3   4   5   6   7
// +---+---+---+---+---+---+---+---+
// | 0 | 0 |     Increment (6+)    |
// +---+---+-----------------------+
const INCREMENT_SIZE: u8 = 6;

const INCREMENT: u8 = 0b00;

/// This many further insertions were received.
#[derive(Debug, PartialEq, Drop)]
pub struct InsertCountIncrement(pub usize);

impl InsertCountIncrement {
    /// Reads such an instruction at the cursor, or returns `None` if it is truncated. Takes no memory. If none is read,
    /// the cursor's position is unspecified.
    pub fn decode(buf: &mut Cursor) -> Result<Option<InsertCountIncrement>, ParseError>
        ensures decodes { DecodesInstruction decoder_instruction_of_insert_count_increment
            (SpellsKind insert_count_increment)
            (RefusesKind insert_count_increment) buf.old buf.new result }
        ensures no_memory { result ≡ Err Memory → ⊥ }
        // The clauses above as one function, which reads from left to right.
        ensures exact { ReadsStream decoder_instruction_of_insert_count_increment buf.old buf.new result
            (kind_at insert_count_increment buf.old.rest) }
    {
        or_none(read_insert_count_increment(buf))
    }

    /// Appends the written spelling of the instruction. On error the vector is unchanged; with free room for the
    /// spelling it succeeds and takes no memory.
    #[tactic(auto, unfolding(qpack_spec::specs::Instruction::written_decoder_instruction))]
    pub fn encode<A: Allocator>(&self, buf: &mut Vec<u8, A>) -> Result<(), NoMemory>
        ensures writes { Writes
            (written_decoder_instruction
            (decoder_instruction_of_insert_count_increment self.now)) buf.old buf.new result }
    {
        prefix_int::encode(INCREMENT_SIZE, INCREMENT, self.0 as u64, buf)
    }
}

#[tactic(auto, unfolding(crate::specs::Alone::kind_at, crate::specs::Alone::number_under, qpack_spec::specs::Form::made_at))]
pub(crate) fn read_insert_count_increment(
    buf: &mut Cursor,
) -> Result<InsertCountIncrement, ParseError>
    ensures exact { ReadsForm decoder_instruction_of_insert_count_increment buf.old buf.new result
        (kind_at insert_count_increment buf.old.rest) }
    ensures no_memory { result ≡ Err Memory → ⊥ }
{
    let value = read_number(INCREMENT_SIZE, INCREMENT, buf)?;
    Ok(InsertCountIncrement(value as usize))
}

// RFC 9204, section 4.4.1:
//   0   1   2   3   4   5   6   7
// +---+---+---+---+---+---+---+---+
// | 1 |      Stream ID (7+)       |
// +---+---------------------------+
pub(crate) const ACKNOWLEDGMENT_SIZE: u8 = 7;

pub(crate) const ACKNOWLEDGMENT: u8 = 0b1;

/// The oldest section of this stream that was not acknowledged was decoded.
#[derive(Debug, PartialEq, Drop)]
pub struct HeaderAck(pub u64);

impl HeaderAck {
    /// Reads such an instruction at the cursor, or returns `None` if it is truncated. Takes no memory. If none is read,
    /// the cursor's position is unspecified.
    pub fn decode(buf: &mut Cursor) -> Result<Option<HeaderAck>, ParseError>
        ensures decodes { DecodesInstruction decoder_instruction_of_header_ack (SpellsKind header_ack)
            (RefusesKind header_ack) buf.old buf.new result }
        ensures no_memory { result ≡ Err Memory → ⊥ }
        // The clauses above as one function, which reads from left to right.
        ensures exact { ReadsStream decoder_instruction_of_header_ack buf.old buf.new result
            (kind_at header_ack buf.old.rest) }
    {
        or_none(read_header_ack(buf))
    }

    /// Appends the written spelling of the instruction. On error the vector is unchanged; with free room for the
    /// spelling it succeeds and takes no memory.
    #[tactic(auto, unfolding(qpack_spec::specs::Instruction::written_decoder_instruction))]
    pub fn encode<A: Allocator>(&self, buf: &mut Vec<u8, A>) -> Result<(), NoMemory>
        ensures writes { Writes
            (written_decoder_instruction (decoder_instruction_of_header_ack self.now)) buf.old buf.new result }
    {
        prefix_int::encode(ACKNOWLEDGMENT_SIZE, ACKNOWLEDGMENT, self.0, buf)
    }
}

#[tactic(auto, unfolding(crate::specs::Alone::kind_at, crate::specs::Alone::number_under, qpack_spec::specs::Form::made_at))]
pub(crate) fn read_header_ack(buf: &mut Cursor) -> Result<HeaderAck, ParseError>
    ensures exact { ReadsForm decoder_instruction_of_header_ack buf.old buf.new result
        (kind_at header_ack buf.old.rest) }
    ensures no_memory { result ≡ Err Memory → ⊥ }
{
    let value = read_number(ACKNOWLEDGMENT_SIZE, ACKNOWLEDGMENT, buf)?;
    Ok(HeaderAck(value))
}

// RFC 9204, section 4.4.2:
//   0   1   2   3   4   5   6   7
// +---+---+---+---+---+---+---+---+
// | 0 | 1 |     Stream ID (6+)    |
// +---+---+-----------------------+
pub(crate) const CANCELLATION_SIZE: u8 = 6;

pub(crate) const CANCELLATION: u8 = 0b01;

/// The sections of this stream that are left will not be decoded.
#[derive(Debug, PartialEq, Drop)]
pub struct StreamCancel(pub u64);

impl StreamCancel {
    /// Reads such an instruction at the cursor, or returns `None` if it is truncated. Takes no memory. If none is read,
    /// the cursor's position is unspecified.
    pub fn decode(buf: &mut Cursor) -> Result<Option<StreamCancel>, ParseError>
        ensures decodes { DecodesInstruction decoder_instruction_of_stream_cancel (SpellsKind stream_cancel)
            (RefusesKind stream_cancel) buf.old buf.new result }
        ensures no_memory { result ≡ Err Memory → ⊥ }
        // The clauses above as one function, which reads from left to right.
        ensures exact { ReadsStream decoder_instruction_of_stream_cancel buf.old buf.new result
            (kind_at stream_cancel buf.old.rest) }
    {
        or_none(read_stream_cancel(buf))
    }

    /// Appends the written spelling of the instruction. On error the vector is unchanged; with free room for the
    /// spelling it succeeds and takes no memory.
    #[tactic(auto, unfolding(qpack_spec::specs::Instruction::written_decoder_instruction))]
    pub fn encode<A: Allocator>(&self, buf: &mut Vec<u8, A>) -> Result<(), NoMemory>
        ensures writes { Writes
            (written_decoder_instruction (decoder_instruction_of_stream_cancel self.now)) buf.old buf.new result }
    {
        prefix_int::encode(CANCELLATION_SIZE, CANCELLATION, self.0, buf)
    }
}

#[tactic(auto, unfolding(crate::specs::Alone::kind_at, crate::specs::Alone::number_under, qpack_spec::specs::Form::made_at))]
pub(crate) fn read_stream_cancel(buf: &mut Cursor) -> Result<StreamCancel, ParseError>
    ensures exact { ReadsForm decoder_instruction_of_stream_cancel buf.old buf.new result
        (kind_at stream_cancel buf.old.rest) }
    ensures no_memory { result ≡ Err Memory → ⊥ }
{
    let value = read_number(CANCELLATION_SIZE, CANCELLATION, buf)?;
    Ok(StreamCancel(value))
}
