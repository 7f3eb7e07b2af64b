//! One decoder instruction, whichever it is (RFC 9204, section 4.4).

ghost use Rattle.std.specs.Prelude.{◌≡◌, ◌∷◌, drop, Err};
ghost use Rattle.qpack_base.specs.declared.parse_error.ParseError.TheVariants.{Memory};
ghost use Rattle.qpack_wire.specs.Answers.{ReadsForm};
ghost use Rattle.qpack_wire.specs.StreamLines.{decoder_instruction_of_first, decoder_instruction_of};
ghost use Rattle.qpack_wire.specs.StreamLines.{decoder_instruction_at};

use crate::stream::decoder_instructions::{
    self, ACKNOWLEDGMENT, ACKNOWLEDGMENT_SIZE, CANCELLATION, CANCELLATION_SIZE, HeaderAck,
    InsertCountIncrement, StreamCancel,
};
use crate::stream::lines::{Wire, or_none};
use qpack_base::coding::{Cursor, NoMemory};
use qpack_base::parse_error::ParseError;
use qpack_base::prefix_int;
use std::alloc::{Allocator, Global};

/// The decoder instruction that a first byte determines.
#[derive(Debug, PartialEq, Drop)]
pub enum DecoderInstruction {
    /// `1`: an acknowledgment (section 4.4.1).
    HeaderAck,
    /// `01`: a cancellation (section 4.4.2).
    StreamCancel,
    /// `00`: an increment (section 4.4.3).
    InsertCountIncrement,
    /// Kept from the original, and never returned: every byte begins an instruction.
    Unknown,
}

impl DecoderInstruction {
    /// Returns the decoder instruction that begins with this byte.
    pub fn decode(first: u8) -> DecoderInstruction
        ensures { result ≡ decoder_instruction_of_first first }
    {
        if first >= ACKNOWLEDGMENT << ACKNOWLEDGMENT_SIZE {
            DecoderInstruction::HeaderAck
        } else if first >= CANCELLATION << CANCELLATION_SIZE {
            DecoderInstruction::StreamCancel
        } else {
            DecoderInstruction::InsertCountIncrement
        }
    }
}

/// A decoder instruction.
#[derive(Debug, PartialEq, Drop)]
pub enum DecoderLine {
    /// An increment.
    InsertCountIncrement(InsertCountIncrement),
    /// An acknowledgment.
    HeaderAck(HeaderAck),
    /// A cancellation.
    StreamCancel(StreamCancel),
}

impl Wire for DecoderLine {
    ghost use Rattle.qpack_spec.specs.Instruction.{DecoderInstruction, SpellsDecoderInstruction};
    ghost use Rattle.qpack_spec.specs.Instruction.{written_decoder_instruction};
    ghost use Rattle.qpack_spec.specs.WrittenLaws.{IsWritableDecoderInstruction};
    ghost use Rattle.qpack_wire.specs.StreamLines.{RefusesDecoderLine};
    ghost use Rattle.qpack_wire.specs.StreamLineLaws.{written_decoder_instructions_spelled};
    ghost use Rattle.qpack_wire.specs.StreamLineLaws.{written_decoder_instructions_read_back};
    ghost use Rattle.qpack_wire.specs.StreamLineLaws.{spellings_have_one_decoder_instruction};
    ghost use Rattle.qpack_wire.specs.StreamLineLaws.{no_decoder_instruction_begins_another};

    ghost Line = { DecoderInstruction };

    ghost line_of = { decoder_instruction_of };

    ghost spells = { SpellsDecoderInstruction };

    ghost refuses = { RefusesDecoderLine };

    ghost read = { decoder_instruction_at };

    ghost writable = { IsWritableDecoderInstruction };

    ghost written = { written_decoder_instruction };

    ghost asks_for_memory = { λ _. ⊥ };

    ghost written_is_spelled = { written_decoder_instructions_spelled };

    ghost written_is_read_back = { written_decoder_instructions_read_back };

    ghost spellings_have_one_line = { spellings_have_one_decoder_instruction };

    ghost no_line_begins_another = { no_decoder_instruction_begins_another };

    fn decode(_alloc: Global, buf: &mut Cursor) -> Result<Option<DecoderLine>, ParseError> {
        or_none(read_line(buf))
    }

    fn encode<A: Allocator>(&self, buf: &mut Vec<u8, A>) -> Result<(), NoMemory> {
        match self {
            DecoderLine::InsertCountIncrement(line) => line.encode(buf),
            DecoderLine::HeaderAck(line) => line.encode(buf),
            DecoderLine::StreamCancel(line) => line.encode(buf),
        }
    }
}

#[tactic(auto, using(crate::proofs::StreamForms::no_decoder_instruction))]
fn read_line(buf: &mut Cursor) -> Result<DecoderLine, ParseError>
    ensures exact { ReadsForm decoder_instruction_of buf.old buf.new result (decoder_instruction_at buf.old.rest) }
    ensures no_memory { result ≡ Err Memory → ⊥ }
{
    let Some((first, _)) = buf.chunk().split_first() else {
        return Err(ParseError::Integer(prefix_int::Error::UnexpectedEnd));
    };
    read_line_of(*first, buf)
}

/// Reads the instruction, which begins with this byte.
#[tactic(auto, using(crate::proofs::StreamForms::decoder_by_first))]
fn read_line_of(first: u8, buf: &mut Cursor) -> Result<DecoderLine, ParseError>
    requires { buf.old.rest ≡ first ∷ drop 1 buf.old.rest }
    ensures exact { ReadsForm decoder_instruction_of buf.old buf.new result (decoder_instruction_at buf.old.rest) }
    ensures no_memory { result ≡ Err Memory → ⊥ }
{
    match DecoderInstruction::decode(first) {
        DecoderInstruction::InsertCountIncrement => {
            let line = decoder_instructions::read_insert_count_increment(buf)?;
            Ok(DecoderLine::InsertCountIncrement(line))
        }
        DecoderInstruction::StreamCancel => {
            let line = decoder_instructions::read_stream_cancel(buf)?;
            Ok(DecoderLine::StreamCancel(line))
        }
        DecoderInstruction::HeaderAck => {
            let line = decoder_instructions::read_header_ack(buf)?;
            Ok(DecoderLine::HeaderAck(line))
        }
        DecoderInstruction::Unknown => Err(ParseError::InvalidPrefix(first)),
    }
}
