//! A block of a recorded connection (RFC 9204, section 4.5).

ghost use Rattle.std.specs.Prelude.{◌≡◌, ◌++◌, OnOk, map, string_bytes};
ghost use Rattle.std.specs.List.{flat_map};
ghost use Rattle.qpack_wire.specs.BlockLines.{line_of};
ghost use Rattle.qpk.specs.Inspecting.{line_text};
ghost use Rattle.qpack_spec.specs.Field.{total_size};
ghost use Rattle.qpack_spec.specs.Stateless.{saturated_size};
ghost use Rattle.qpack_codec.specs.Stateless.{fields_in};
ghost use Rattle.qpk.specs.Inspections.{InspectsBlock, PrintsRead, PrintsSection, block_of_lines};

use crate::error_words::DecoderWords;
use crate::printing::{push_block_line, push_index_line, push_numbers_line, push_refused_line};
use crate::text::Fault;
use h3_qpack::block::{BlockLine, HeaderPrefix, read_block};
use h3_qpack::coding::Cursor;
use h3_qpack::decoder::Decoder;
use h3_qpack::{Decoded, DecoderError};
use std::alloc::AllocError;

/// Appends what is printed of a block: which insert count it waits for, or why it is refused; or its prefix, its lines,
/// and how many fields it has of which size.
pub fn inspect_block(decoder: &Decoder, block: &[u8], text: &mut String) -> Result<(), Fault>
    ensures { InspectsBlock decoder.now.table block.now (string_bytes text.old) (string_bytes text.new) result }
{
    match decoder.decode_header(&mut Cursor::new(block)) {
        Ok(decoded) => push_section_lines(text, decoder, block, &decoded),
        Err(DecoderError::MissingRefs(required)) => Ok(push_index_line(text, "missing", required)?),
        Err(DecoderError::Memory) => Err(Fault::Memory),
        Err(e) => Ok(push_refused_line(text, DecoderWords(&e))?),
    }
}

/// Appends the lines of a block that was decoded.
fn push_section_lines(
    text: &mut String,
    decoder: &Decoder,
    block: &[u8],
    decoded: &Decoded,
) -> Result<(), Fault>
    requires { decoded.now.mem_size ≡ saturated_size (total_size (fields_in decoded.now.fields.items)) }
    ensures { PrintsSection decoder.now.table block.now (fields_in decoded.now.fields.items) (string_bytes text.old)
        (string_bytes text.new) result }
{
    // It fails for memory only: the decoder read these bytes.
    let Ok((prefix, lines)) = read_block(*text.allocator(), block) else {
        return Err(Fault::Memory);
    };
    push_read_lines(text, decoder, prefix, &lines, decoded)
}

/// Appends the lines of a block that was read of this prefix and these lines, and decoded.
fn push_read_lines(
    text: &mut String,
    decoder: &Decoder,
    prefix: HeaderPrefix,
    lines: &[BlockLine],
    decoded: &Decoded,
) -> Result<(), Fault>
    requires { decoded.now.mem_size ≡ saturated_size (total_size (fields_in decoded.now.fields.items)) }
    ensures { PrintsRead decoder.now.table (block_of_lines prefix lines.now) (fields_in decoded.now.fields.items)
        (string_bytes text.old) (string_bytes text.new) result }
{
    let table = decoder.table();
    // It is never refused: the decoder read this prefix.
    let Ok((required, base)) = prefix.get(table.total_inserted(), table.agreed_max()) else {
        return Err(Fault::Memory);
    };
    push_numbers_line(text, "prefix", required, base as u64)?;
    push_field_lines(text, lines)?;
    let count = decoded.fields.as_slice().len();
    Ok(push_numbers_line(text, "fields", count, decoded.mem_size)?)
}

/// Appends the lines of field lines.
fn push_field_lines(text: &mut String, lines: &[BlockLine]) -> Result<(), AllocError>
    ensures { OnOk result (string_bytes text.new
        ≡ string_bytes text.old ++ flat_map line_text (map line_of lines.now)) }
{
    for line in lines {
        push_block_line(text, line)?;
    }
    Ok(())
}
