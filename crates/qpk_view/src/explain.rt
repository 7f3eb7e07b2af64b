//! Bytes of QPACK, each with its bits and what they mean, without a connection (RFC 9204, sections 4.3 to 4.5).

ghost use Rattle.std.specs.Prelude.{IfOk, IsUtf8};

use crate::bits::Rows;
use crate::digits::{Digits, read_digits};
use crate::events::words_of;
use crate::fault::Fault;
use crate::fields::{push_field, push_name};
use crate::reasons::push_unreadable;
use crate::text::Text;
use crate::view::View;
use qpack_base::coding::Cursor;
use qpack_base::parse_error::ParseError;
use qpack_base::prefix_int;
use qpack_base::static_::StaticTable;
use qpack_wire::block::{
    BlockLine, HeaderPrefix, Indexed, Literal, LiteralWithNameRef, is_never_indexed,
};
use qpack_wire::stream::{DecoderLine, EncoderLine, InsertWithNameRef, next_line};
use std::alloc::Global;
use std::str;

/// What the bytes are.
#[derive(Clone, Copy)]
pub enum Kind {
    /// A field section.
    Section,
    /// Bytes of an encoder stream.
    EncoderStream,
    /// Bytes of a decoder stream.
    DecoderStream,
}

/// What the bytes are, and the maximum capacity that a required insert count is encoded under.
#[derive(Clone, Copy)]
pub struct ExplainOptions {
    /// What the bytes are.
    pub kind: Kind,
    /// The maximum capacity, in bytes.
    pub max_capacity: usize,
}

/// Explains bytes in hexadecimal: a row a byte. Fails if the text is not hexadecimal.
pub fn explain(alloc: Global, options: ExplainOptions, text: &[u8]) -> Result<View, Fault>
    ensures { IfOk result (λ _. IsUtf8 text.now) }
{
    let bytes = read_text(alloc, text)?;
    let mut rows = Rows::new(alloc, &bytes);
    match options.kind {
        Kind::Section => explain_section(&mut rows, options.max_capacity),
        Kind::EncoderStream => explain_encoder_stream(&mut rows),
        Kind::DecoderStream => explain_decoder_stream(&mut rows),
    }
    View::new(rows.text, rows.has_fault)
}

/// What is said of a text that is not hexadecimal.
const NO_DIGITS: &str = "the bytes are not hexadecimal";

/// What is said of half a byte.
const HALF_A_BYTE: &str = "the last byte has one digit";

/// Reads the bytes of a text in hexadecimal.
fn read_text(alloc: Global, text: &[u8]) -> Result<Vec<u8>, Fault>
    ensures { IfOk result (λ _. IsUtf8 text.now) }
{
    match str::from_utf8(text) {
        Ok(text) => read_hexadecimal(alloc, text),
        Err(_) => Err(Fault::in_words(alloc, NO_DIGITS)),
    }
}

/// Reads bytes in hexadecimal.
fn read_hexadecimal(alloc: Global, text: &str) -> Result<Vec<u8>, Fault> {
    let words = words_of(alloc, text)?;
    let digits = read_digits(alloc, &words)?;
    whole_bytes(alloc, digits)
}

/// Returns the bytes of digits, of which none is left over.
fn whole_bytes(alloc: Global, digits: Option<Digits>) -> Result<Vec<u8>, Fault> {
    match digits {
        Some(digits) if digits.has_half => Err(Fault::in_words(alloc, HALF_A_BYTE)),
        Some(digits) => Ok(digits.bytes),
        None => Err(Fault::in_words(alloc, NO_DIGITS)),
    }
}

/// Adds the rows of what can't be read.
fn push_fault(rows: &mut Rows<'_>, error: ParseError) {
    if let ParseError::Memory = error {
        rows.text.lack_memory();
    }
    rows.begin_unread();
    push_unreadable(&mut rows.text, error);
    rows.end_unread();
}

/// Adds the rows of an instruction that is cut.
fn push_cut(rows: &mut Rows<'_>) {
    rows.begin_unread();
    rows.text.push_str("the bytes end within the instruction");
    rows.end_unread();
}

/// Explains a section.
fn explain_section(rows: &mut Rows<'_>, max_capacity: usize) {
    match HeaderPrefix::decode(&mut Cursor::new(rows.rest())) {
        Ok(prefix) => {
            explain_count(rows, prefix.encoded_insert_count(), max_capacity);
            explain_base(rows);
            explain_lines(rows);
        }
        Err(e) => push_fault(rows, e),
    }
}

/// Explains the lines of a section.
fn explain_lines(rows: &mut Rows<'_>) {
    for _ in 0..u64::MAX {
        if rows.rest().is_empty() {
            return;
        }
        match BlockLine::decode(rows.text.allocator(), &mut Cursor::new(rows.rest())) {
            Ok(line) => explain_line(rows, &line),
            Err(e) => return push_fault(rows, e),
        }
    }
}

/// Explains an encoded required insert count (RFC 9204, section 4.5.1.1).
fn explain_count(rows: &mut Rows<'_>, encoded: usize, max_capacity: usize) {
    let len = rows.begin_integer(8, 0);
    push_count(&mut rows.text, encoded, max_capacity);
    rows.end_integer(len);
}

/// Appends what an encoded required insert count means under a maximum capacity (RFC 9204, section 4.5.1.1).
fn push_count(text: &mut Text, encoded: usize, max_capacity: usize) {
    if encoded == 0 {
        text.push_str("required insert count: 0, so no line references the dynamic table");
        return;
    }
    let range = (max_capacity / 32).saturating_mul(2);
    text.push_value("required insert count: encoded ", &encoded);
    if encoded > range {
        text.push_str(", which can't be");
    } else {
        text.push_value(", so ", &(encoded - 1));
        text.push_between(", or more by a multiple of ", &range, ",");
    }
    text.push_value(" at maximum capacity ", &max_capacity);
}

/// Explains a base (RFC 9204, section 4.5.1.2).
fn explain_base(rows: &mut Rows<'_>) {
    let (sign, delta) = match prefix_int::decode(7, &mut Cursor::new(rows.rest())) {
        Ok(read) => read,
        Err(_) => (0, 0),
    };
    let len = rows.begin_integer(7, 0b1000_0000);
    push_base(&mut rows.text, sign % 2 == 1, delta);
    rows.end_integer(len);
}

/// Appends what a sign and a delta mean for the base.
fn push_base(text: &mut Text, is_below: bool, delta: u64) {
    if is_below {
        text.push_value("base: sign 1, delta ", &delta);
        text.push_between(": required insert count - ", &delta, " - 1");
    } else {
        text.push_value("base: sign 0, delta ", &delta);
        text.push_value(": required insert count + ", &delta);
    }
}

/// Explains a field line.
fn explain_line(rows: &mut Rows<'_>, line: &BlockLine) {
    match line {
        BlockLine::Indexed(line) => explain_indexed(rows, line),
        BlockLine::IndexedWithPostBase(line) => explain_indexed_with_post_base(rows, line.0),
        BlockLine::LiteralWithNameRef(line) => explain_literal_with_name_ref(rows, line),
        BlockLine::LiteralWithPostBaseNameRef(line) => {
            explain_literal_with_post_base(rows, line.index, &line.value)
        }
        BlockLine::Literal(line) => explain_literal(rows, line),
    }
}

/// Explains an indexed field line.
fn explain_indexed(rows: &mut Rows<'_>, line: &Indexed) {
    let len = rows.begin_integer(6, 0b1100_0000);
    match line {
        Indexed::Static(index) => push_static_field(rows, *index),
        Indexed::Dynamic(index) => push_dynamic(&mut rows.text, "indexed, ", *index),
    }
    rows.end_integer(len);
}

/// Explains an indexed field line with a post-base index.
fn explain_indexed_with_post_base(rows: &mut Rows<'_>, index: usize) {
    let len = rows.begin_integer(4, 0b0001_0000);
    push_post_base(&mut rows.text, "indexed, ", index);
    rows.end_integer(len);
}

/// Explains a literal field line with a name reference.
fn explain_literal_with_name_ref(rows: &mut Rows<'_>, line: &LiteralWithNameRef) {
    let literal = literal(rows);
    let len = rows.begin_integer(4, 0b0111_0000);
    match line {
        LiteralWithNameRef::Static { index, value } => {
            push_static_name(rows, literal, *index);
            push_value(rows, len, value);
        }
        LiteralWithNameRef::Dynamic { index, value } => {
            push_dynamic(&mut rows.text, literal, *index);
            push_value(rows, len, value);
        }
    }
}

/// Explains a literal field line with a post-base name reference.
fn explain_literal_with_post_base(rows: &mut Rows<'_>, index: usize, value: &[u8]) {
    let literal = literal(rows);
    let len = rows.begin_integer(3, 0b0001_1000);
    push_post_base(&mut rows.text, literal, index);
    push_value(rows, len, value);
}

/// Explains a literal field line.
fn explain_literal(rows: &mut Rows<'_>, line: &Literal) {
    let name = if is_marked(rows) {
        "literal never indexed; name"
    } else {
        "literal; name"
    };
    rows.push_string(4, 0b0011_1000, name, &line.name);
    rows.push_value(&line.value);
}

/// Ends the row of a name reference that has this many bytes, and adds the rows of a value.
fn push_value(rows: &mut Rows<'_>, len: usize, value: &[u8]) {
    rows.end_integer(len);
    rows.push_value(value);
}

/// Returns whether the line that has the next row asks that its field stay a literal.
fn is_marked(rows: &Rows<'_>) -> bool {
    match rows.rest().first() {
        Some(first) => is_never_indexed(*first),
        None => false,
    }
}

/// Returns how a literal with a name reference begins.
fn literal(rows: &Rows<'_>) -> &'static str {
    if is_marked(rows) {
        "literal never indexed with the name of "
    } else {
        "literal with the name of "
    }
}

/// Appends what a relative index of a section means, after a text.
fn push_dynamic(text: &mut Text, front: &str, index: usize) {
    text.push_str(front);
    text.push_value("dynamic ", &index);
    text.push_value(": entry base - ", &index);
}

/// Appends what a post-base index means, after a text.
fn push_post_base(text: &mut Text, front: &str, index: usize) {
    text.push_str(front);
    text.push_value("post-base ", &index);
    text.push_between(": entry base + ", &index, " + 1");
}

/// Appends what an index of the static table means in an indexed field line. An index past it is a fault.
fn push_static_field(rows: &mut Rows<'_>, index: usize) {
    rows.text.push_between("indexed, static ", &index, ": ");
    match StaticTable::get(index) {
        Ok(field) => push_field(&mut rows.text, &field),
        Err(_) => push_past_static(rows),
    }
}

/// Appends what an index of the static table that has the name means, after a text. An index past it is a fault.
fn push_static_name(rows: &mut Rows<'_>, front: &str, index: usize) {
    rows.text.push_str(front);
    rows.text.push_between("static ", &index, ": ");
    match StaticTable::get(index) {
        Ok(field) => push_name(&mut rows.text, &field),
        Err(_) => push_past_static(rows),
    }
}

/// Appends that no field of the static table has an index, and keeps that this is a fault.
fn push_past_static(rows: &mut Rows<'_>) {
    rows.has_fault = true;
    rows.text
        .push_str("past the static table, which ends at 98");
}

/// Explains bytes of an encoder stream.
fn explain_encoder_stream(rows: &mut Rows<'_>) {
    for _ in 0..u64::MAX {
        if rows.rest().is_empty() {
            return;
        }
        match next_line::<EncoderLine>(rows.text.allocator(), &mut Cursor::new(rows.rest())) {
            Ok(Some(line)) => explain_instruction(rows, &line),
            Ok(None) => return push_cut(rows),
            Err(e) => return push_fault(rows, e),
        }
    }
}

/// Explains an encoder instruction.
fn explain_instruction(rows: &mut Rows<'_>, line: &EncoderLine) {
    match line {
        EncoderLine::DynamicTableSizeUpdate(size) => explain_capacity(rows, size.0),
        EncoderLine::Duplicate(index) => explain_duplicate(rows, index.0),
        EncoderLine::InsertWithNameRef(line) => explain_insert(rows, line),
        EncoderLine::InsertWithoutNameRef(line) => {
            rows.push_string(6, 0b0110_0000, "insert; name", &line.name);
            rows.push_value(&line.value);
        }
    }
}

/// Explains a change of the capacity.
fn explain_capacity(rows: &mut Rows<'_>, size: usize) {
    rows.push_integer(5, 0b0010_0000, "set capacity ", &size, "");
}

/// Explains a duplicate.
fn explain_duplicate(rows: &mut Rows<'_>, index: usize) {
    let len = rows.begin_integer(5, 0b0010_0000);
    push_newest(&mut rows.text, "duplicate ", index);
    rows.end_integer(len);
}

/// Explains an insertion with a name reference.
fn explain_insert(rows: &mut Rows<'_>, line: &InsertWithNameRef) {
    let len = rows.begin_integer(6, 0b1100_0000);
    match line {
        InsertWithNameRef::Static { index, value } => {
            push_static_name(rows, "insert with the name of ", *index);
            push_value(rows, len, value);
        }
        InsertWithNameRef::Dynamic { index, value } => {
            push_newest(&mut rows.text, "insert with the name of dynamic ", *index);
            push_value(rows, len, value);
        }
    }
}

/// Appends which entry a relative index of an instruction references, after a text.
fn push_newest(text: &mut Text, front: &str, index: usize) {
    text.push_value(front, &index);
    if index == 0 {
        text.push_str(": the newest entry");
    } else {
        text.push_between(": the entry ", &index, " before the newest");
    }
}

/// Explains bytes of a decoder stream.
fn explain_decoder_stream(rows: &mut Rows<'_>) {
    for _ in 0..u64::MAX {
        if rows.rest().is_empty() {
            return;
        }
        match next_line::<DecoderLine>(rows.text.allocator(), &mut Cursor::new(rows.rest())) {
            Ok(Some(line)) => explain_told(rows, &line),
            Ok(None) => return push_cut(rows),
            Err(e) => return push_fault(rows, e),
        }
    }
}

/// Explains a decoder instruction.
fn explain_told(rows: &mut Rows<'_>, line: &DecoderLine) {
    match line {
        DecoderLine::HeaderAck(stream) => explain_acknowledgment(rows, stream.0),
        DecoderLine::StreamCancel(stream) => explain_cancellation(rows, stream.0),
        DecoderLine::InsertCountIncrement(by) => explain_increment(rows, by.0),
    }
}

/// Explains an acknowledgment of a section.
fn explain_acknowledgment(rows: &mut Rows<'_>, stream: u64) {
    rows.push_integer(
        7,
        0b1000_0000,
        "acknowledge a section of stream ",
        &stream,
        "",
    );
}

/// Explains a cancellation of a stream.
fn explain_cancellation(rows: &mut Rows<'_>, stream: u64) {
    rows.push_integer(6, 0b0100_0000, "cancel stream ", &stream, "");
}

/// Explains an increment.
fn explain_increment(rows: &mut Rows<'_>, by: usize) {
    rows.push_integer(6, 0b0100_0000, "", &by, " more insertions were received");
}
