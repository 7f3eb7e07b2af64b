//! Bytes of the encoder stream, instruction by instruction (RFC 9204, section 4.3).

ghost use Rattle.std.specs.Prelude.{◌≡◌, string_bytes};
ghost use Rattle.qpack_spec.specs.Instruction.{EncoderInstruction, SpellsEncoderInstruction};
ghost use Rattle.qpk.specs.Inspections.{InspectsInstructions, InspectsNext, ReadsNext, AppliesWhole};

use crate::printing::{push_index_line, push_instruction_line};
use crate::text::Fault;
use h3_qpack::DecoderError;
use h3_qpack::coding::Cursor;
use h3_qpack::decoder::Decoder;
use h3_qpack::stream::{EncoderLine, next_line};
use std::alloc::Global;

/// Applies the whole instructions at the front of the bytes, and appends a line for each as it is applied; then how
/// many insertions were ever received. Returns how many bytes were consumed.
pub fn inspect_instructions(
    alloc: Global,
    decoder: &mut Decoder,
    bytes: &[u8],
    text: &mut String,
) -> Result<usize, Fault>
    ensures { InspectsInstructions decoder.old.table decoder.new.table bytes.now (string_bytes text.old) (string_bytes
        text.new)
        result }
{
    let mut buf = Cursor::new(bytes);
    while inspect_next(alloc, decoder, &mut buf, text)? {}
    let total = decoder.table().total_inserted();
    push_index_line(text, "received", total)?;
    Ok(buf.position())
}

/// Applies the instruction at the cursor, and appends its line once it is applied. Returns whether there was a whole
/// one.
fn inspect_next(
    alloc: Global,
    decoder: &mut Decoder,
    buf: &mut Cursor,
    text: &mut String,
) -> Result<bool, Fault>
    ensures inspects { InspectsNext decoder.old.table decoder.new.table buf.old.rest buf.new.rest (string_bytes
        text.old)
        (string_bytes text.new) result }
    ensures total { buf.new.total ≡ buf.old.total }
{
    let bytes = buf.chunk();
    let Some(line) = next_instruction(alloc, buf)? else {
        return Ok(false);
    };
    let instruction = &bytes[..bytes.len() - buf.remaining()];
    apply_bytes(alloc, decoder, instruction)?;
    push_instruction_line(text, &line)?;
    Ok(true)
}

/// Returns the instruction at the cursor, and moves past it; or `None` if it is truncated.
fn next_instruction(alloc: Global, buf: &mut Cursor) -> Result<Option<EncoderLine>, DecoderError>
    ensures reads { ReadsNext buf.old.rest buf.new.rest result }
    ensures total { buf.new.total ≡ buf.old.total }
{
    Ok(next_line(alloc, buf)?)
}

/// Passes the decoder one instruction, whose increments are dropped.
fn apply_bytes(alloc: Global, decoder: &mut Decoder, instruction: &[u8]) -> Result<(), Fault>
    ensures { (i : EncoderInstruction) → SpellsEncoderInstruction instruction.now i
        → AppliesWhole decoder.old.table decoder.new.table instruction.now i result }
{
    let mut told = Vec::new(alloc);
    decoder.on_encoder_recv(&mut Cursor::new(instruction), &mut told)?;
    Ok(())
}
