//! The lines that commands print: each is appended to a borrowed text.

ghost use Rattle.std.specs.Prelude.{◌≡◌, ◌++◌, IfSome, OnOk, string_bytes};
ghost use Rattle.qpack_base.specs.HeaderFields.{field_of};
ghost use Rattle.qpack_wire.specs.BlockLines.{line_of};
ghost use Rattle.qpack_wire.specs.Instructions.{encoder_instruction_of_insert_with_name_ref};
ghost use Rattle.qpack_wire.specs.Lines.{line_of_indexed, line_of_literal_with_name_ref};
ghost use Rattle.qpack_wire.specs.StreamLines.{encoder_instruction_of};
ghost use Rattle.qpack_codec.specs.Stateless.{fields_in};
ghost use Rattle.qpk.specs.ErrorWords.{refused_text};
ghost use Rattle.qpk.specs.FieldText.{text_of_fields};
ghost use Rattle.qpk.specs.Inspecting.{hexadecimal, hexadecimal_field, hexadecimal_fields, index_text};
ghost use Rattle.qpk.specs.Inspecting.{index_value_text, name_value_text};
ghost use Rattle.qpk.specs.Inspecting.{numbers_text, instruction_text, line_text};

use h3_qpack::HeaderField;
use h3_qpack::block::{
    BlockLine, Indexed, IndexedWithPostBase, Literal, LiteralWithNameRef,
    LiteralWithPostBaseNameRef,
};
use h3_qpack::stream::{
    Duplicate, DynamicTableSizeUpdate, EncoderLine, InsertWithNameRef, InsertWithoutNameRef,
};
use std::alloc::AllocError;
use std::fmt::Display;

/// Appends bytes in lower-case hexadecimal, `-` if empty.
pub fn push_hexadecimal(text: &mut String, bytes: &[u8]) -> Result<(), AllocError>
    ensures { OnOk result (string_bytes text.new ≡ string_bytes text.old ++ hexadecimal bytes.now) }
{
    if bytes.is_empty() {
        return text.push('-');
    }
    let digits = hex::encode(*text.allocator(), bytes)?;
    text.push_str(digits.as_str())
}

/// Appends fields, a line each.
pub fn push_fields(text: &mut String, fields: &[HeaderField]) -> Result<(), AllocError>
    ensures { OnOk result (string_bytes text.new ≡ string_bytes text.old ++ text_of_fields (fields_in fields.now)) }
{
    for field in fields {
        let Ok(line) = field.to_text(*text.allocator()) else {
            return Err(AllocError);
        };
        writeln!(text, "{line}")?;
    }
    Ok(())
}

/// Appends fields in hexadecimal, a line each.
pub fn push_hexadecimal_fields(text: &mut String, fields: &[HeaderField]) -> Result<(), AllocError>
    ensures { OnOk result (string_bytes text.new
        ≡ string_bytes text.old ++ hexadecimal_fields (fields_in fields.now)) }
{
    for field in fields {
        push_hexadecimal_field(text, field)?;
    }
    Ok(())
}

/// Appends the line of a field in hexadecimal, its name and its value separated by a TAB.
fn push_hexadecimal_field(text: &mut String, field: &HeaderField) -> Result<(), AllocError>
    ensures { OnOk result (string_bytes text.new
        ≡ string_bytes text.old ++ hexadecimal_field (field_of field.now)) }
{
    push_hexadecimal(text, field.name.as_slice())?;
    text.push('\t')?;
    push_hexadecimal(text, field.value.as_slice())?;
    text.push('\n')
}

/// Appends the line of what was refused, in these words.
pub fn push_refused_line<E: Display + Drop>(text: &mut String, words: E) -> Result<(), AllocError>
    ensures { OnOk result (IfSome (E.output words)
        (λ words. string_bytes text.new ≡ string_bytes text.old ++ refused_text words)) }
{
    writeln!(text, "refused {words}")
}

/// Appends words and an index.
pub fn push_index_line(text: &mut String, words: &str, index: usize) -> Result<(), AllocError>
    ensures { OnOk result (string_bytes text.new ≡ string_bytes text.old ++ index_text words.now index) }
{
    writeln!(text, "{words} {index}")
}

/// Appends words and two numbers.
pub fn push_numbers_line(
    text: &mut String,
    words: &str,
    first: usize,
    second: u64,
) -> Result<(), AllocError>
    ensures { OnOk result (string_bytes text.new ≡ string_bytes text.old ++ numbers_text words.now first second) }
{
    writeln!(text, "{words} {first} {second}")
}

/// Appends words, an index and a value.
fn push_index_value_line(
    text: &mut String,
    words: &str,
    index: usize,
    value: &[u8],
) -> Result<(), AllocError>
    ensures { OnOk result (string_bytes text.new
        ≡ string_bytes text.old ++ index_value_text words.now index value.now) }
{
    write!(text, "{words} {index} ")?;
    push_hexadecimal(text, value)?;
    text.push('\n')
}

/// Appends words, a name and a value.
fn push_name_value_line(
    text: &mut String,
    words: &str,
    name: &[u8],
    value: &[u8],
) -> Result<(), AllocError>
    ensures { OnOk result (string_bytes text.new
        ≡ string_bytes text.old ++ name_value_text words.now name.now value.now) }
{
    write!(text, "{words} ")?;
    push_hexadecimal(text, name)?;
    text.push(' ')?;
    push_hexadecimal(text, value)?;
    text.push('\n')
}

/// Appends the line of an encoder instruction (RFC 9204, section 4.3).
pub fn push_instruction_line(text: &mut String, line: &EncoderLine) -> Result<(), AllocError>
    ensures { OnOk result (string_bytes text.new
        ≡ string_bytes text.old ++ instruction_text (encoder_instruction_of line.now)) }
{
    match line {
        EncoderLine::InsertWithNameRef(insert) => push_insert_with_name_ref_line(text, insert),
        EncoderLine::InsertWithoutNameRef(InsertWithoutNameRef { name, value }) => {
            push_name_value_line(text, "insert literal", name, value)
        }
        EncoderLine::Duplicate(Duplicate(index)) => push_index_line(text, "duplicate", *index),
        EncoderLine::DynamicTableSizeUpdate(DynamicTableSizeUpdate(size)) => {
            push_index_line(text, "capacity", *size)
        }
    }
}

/// Appends the line of an insertion with the name of an entry (RFC 9204, section 4.3.2).
fn push_insert_with_name_ref_line(
    text: &mut String,
    insert: &InsertWithNameRef,
) -> Result<(), AllocError>
    ensures { OnOk result (string_bytes text.new
        ≡ string_bytes text.old ++ instruction_text (encoder_instruction_of_insert_with_name_ref insert.now)) }
{
    match insert {
        InsertWithNameRef::Static { index, value } => {
            push_index_value_line(text, "insert static", *index, value)
        }
        InsertWithNameRef::Dynamic { index, value } => {
            push_index_value_line(text, "insert dynamic", *index, value)
        }
    }
}

/// Appends the line of a field line (RFC 9204, sections 4.5.2 to 4.5.6).
pub fn push_block_line(text: &mut String, line: &BlockLine) -> Result<(), AllocError>
    ensures { OnOk result (string_bytes text.new ≡ string_bytes text.old ++ line_text (line_of line.now)) }
{
    match line {
        BlockLine::Indexed(line) => push_indexed_line(text, line),
        BlockLine::IndexedWithPostBase(IndexedWithPostBase(index)) => {
            push_index_line(text, "postbase", *index)
        }
        BlockLine::LiteralWithNameRef(line) => push_literal_with_name_ref_line(text, line),
        BlockLine::LiteralWithPostBaseNameRef(LiteralWithPostBaseNameRef { index, value }) => {
            push_index_value_line(text, "postbase nameref", *index, value)
        }
        BlockLine::Literal(Literal { name, value }) => {
            push_name_value_line(text, "literal", name, value)
        }
    }
}

/// Appends the line of an indexed field line (RFC 9204, section 4.5.2).
fn push_indexed_line(text: &mut String, line: &Indexed) -> Result<(), AllocError>
    ensures { OnOk result (string_bytes text.new ≡ string_bytes text.old ++ line_text (line_of_indexed line.now)) }
{
    match line {
        Indexed::Static(index) => push_index_line(text, "indexed static", *index),
        Indexed::Dynamic(index) => push_index_line(text, "indexed dynamic", *index),
    }
}

/// Appends the line of a literal with the name of an entry (RFC 9204, section 4.5.4).
fn push_literal_with_name_ref_line(
    text: &mut String,
    line: &LiteralWithNameRef,
) -> Result<(), AllocError>
    ensures { OnOk result (string_bytes text.new
        ≡ string_bytes text.old ++ line_text (line_of_literal_with_name_ref line.now)) }
{
    match line {
        LiteralWithNameRef::Static { index, value } => {
            push_index_value_line(text, "nameref static", *index, value)
        }
        LiteralWithNameRef::Dynamic { index, value } => {
            push_index_value_line(text, "nameref dynamic", *index, value)
        }
    }
}
