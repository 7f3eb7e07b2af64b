//! What is seen, an object of JSON a line. A name or a value is a string if it is UTF-8, otherwise an object whose
//! `hex` has its bytes.

ghost use Rattle.qpk_view.specs.Texts.{Extends};

use crate::entries::{Entry, live_entries};
use crate::place::Place;
use crate::reasons::{
    self, push_decoder_hint, push_encoder_hint, push_hearing, push_line_fault, push_prefix_refusal,
    push_unreadable,
};
use crate::text::Text;
use crate::watch::Sight;
use qpack_base::field::HeaderField;
use qpack_base::parse_error::ParseError;
use qpack_codec::DecoderError;
use qpack_table::dynamic::ReceivedTable;
use qpack_wire::block::{BlockLine, Indexed, LiteralWithNameRef};
use qpack_wire::stream::{DecoderLine, EncoderLine, InsertWithNameRef};
use qpk_show::awaited::HearingFault;
use qpk_show::section::{LineShown, Reading, Stop};
use qpk_show::shown::Shown;
use serde_json::Value;
use std::alloc::{AllocError, Global};
use std::str;

/// Appends the object of what is seen, and that of the table after an instruction that was applied, if `with_table`
/// asks for it.
pub(crate) fn push_object(text: &mut Text, place: Place<'_>, sight: Sight<'_>, with_table: bool)
    ensures { Extends text.old text.new }
{
    place.push_members(text);
    match sight {
        Sight::Shown(shown, observer) => {
            let table = observer.table();
            push_shown(text, shown, table);
            push_table_after(text, place, shown, table, with_table);
        }
        Sight::Settings(settings) => {
            text.push_value("\"max_capacity\":", &settings.max_capacity);
            text.push_between(",\"max_blocked\":", &settings.max_blocked, "}\n");
        }
        Sight::GivenUp(stream) => text.push_between("\"given_up\":", &stream, "}\n"),
        Sight::HalfByte => text.push_str("\"left_out\":\"half a byte\"}\n"),
        Sight::Cut(name, cut) => {
            text.push_str("\"");
            text.push_str(name);
            text.push_value("\":", &cut.offset);
            text.push_between(",\"cut\":", &cut.bytes, "}\n");
        }
    }
}

/// Appends the end of the object of an instruction or a section, and the object of the table after an instruction that
/// was applied, if `with_table` asks for it.
fn push_table_after(
    text: &mut Text,
    place: Place<'_>,
    shown: &Shown,
    table: &ReceivedTable,
    with_table: bool,
)
    ensures { Extends text.old text.new }
{
    text.push_str("}\n");
    if with_table && matches!(shown, Shown::Applied { .. }) {
        place.push_members(text);
        push_table(text, table);
    }
}

/// Appends the members of an instruction or a section.
fn push_shown(text: &mut Text, shown: &Shown, table: &ReceivedTable)
    ensures { Extends text.old text.new }
{
    match shown {
        Shown::Applied {
            offset,
            line,
            inserted,
        } => push_applied(
            text,
            *offset,
            line,
            inserted.as_ref(),
            table.total_inserted(),
        ),
        Shown::NotApplied {
            offset,
            line,
            error,
        } => push_not_applied(text, *offset, line, error, table),
        Shown::NoEncoderInstruction { offset, error } => {
            push_no_instruction(text, "\"encoder\":", *offset, *error)
        }
        Shown::Told { offset, line } => push_told(text, *offset, line),
        Shown::NotTold {
            offset,
            line,
            fault,
        } => push_not_told(text, *offset, line, *fault, table),
        Shown::NoDecoderInstruction { offset, error } => {
            push_no_instruction(text, "\"decoder\":", *offset, *error)
        }
        Shown::Section {
            stream,
            was_blocked,
            reading,
        } => push_section(text, *stream, *was_blocked, reading),
        Shown::BlockedUntil { stream, required } => push_blocked(text, *stream, *required),
        Shown::TooManyBlocked { stream, required } => {
            push_too_many_blocked(text, *stream, *required)
        }
    }
}

/// Appends an encoder instruction that the table refuses.
fn push_not_applied(
    text: &mut Text,
    offset: usize,
    line: &EncoderLine,
    error: &DecoderError,
    table: &ReceivedTable,
)
    ensures { Extends text.old text.new }
{
    text.push_between("\"encoder\":", &offset, ",");
    push_instruction(text, line, None);
    text.push_str(",\"refused\":\"");
    reasons::push_not_applied(text, line, error, table);
    push_encoder_hint(text, offset, line);
    text.push_str("\"");
}

/// Appends a decoder instruction that the sections and insertions before it refuse.
fn push_not_told(
    text: &mut Text,
    offset: usize,
    line: &DecoderLine,
    fault: HearingFault,
    table: &ReceivedTable,
)
    ensures { Extends text.old text.new }
{
    push_told(text, offset, line);
    text.push_str(",\"refused\":\"");
    push_hearing(text, fault, table);
    push_decoder_hint(text, offset, line);
    text.push_str("\"");
}

/// Appends bytes of a stream of this name that are no instruction.
fn push_no_instruction(text: &mut Text, name: &str, offset: usize, error: ParseError)
    ensures { Extends text.old text.new }
{
    text.push_between(name, &offset, ",\"refused\":\"");
    push_unreadable(text, error);
    text.push_str("\"");
}

/// Appends a section that is blocked.
fn push_blocked(text: &mut Text, stream: u64, required: usize)
    ensures { Extends text.old text.new }
{
    text.push_value("\"section\":", &stream);
    text.push_value(",\"blocked_until\":", &required);
}

/// Appends a section that would be blocked if more streams might be.
fn push_too_many_blocked(text: &mut Text, stream: u64, required: usize)
    ensures { Extends text.old text.new }
{
    push_blocked(text, stream, required);
    text.push_str(",\"refused\":\"");
    reasons::push_too_many_blocked(text, required);
    text.push_str("\"");
}

/// Appends an instruction that was applied, after which there were this many insertions.
fn push_applied(
    text: &mut Text,
    offset: usize,
    line: &EncoderLine,
    inserted: Option<&HeaderField>,
    total: usize,
)
    ensures { Extends text.old text.new }
{
    text.push_between("\"encoder\":", &offset, ",");
    push_instruction(text, line, Some(total.saturating_sub(1)));
    if let Some(field) = inserted {
        text.push_between(",\"entry\":", &total, ",");
        push_field(text, field);
    }
}

/// Appends what an instruction is. If it was applied, this many insertions were made before it.
fn push_instruction(text: &mut Text, line: &EncoderLine, before: Option<usize>)
    ensures { Extends text.old text.new }
{
    match line {
        EncoderLine::DynamicTableSizeUpdate(size) => {
            text.push_value("\"instruction\":\"set capacity\",\"capacity\":", &size.0)
        }
        EncoderLine::Duplicate(index) => {
            text.push_str("\"instruction\":\"duplicate\",\"of\":");
            push_index(text, "dynamic", index.0, entry_of(before, index.0));
        }
        EncoderLine::InsertWithNameRef(line) => push_insert(text, line, before),
        EncoderLine::InsertWithoutNameRef(_) => {
            text.push_str("\"instruction\":\"insert\",\"name_from\":{\"type\":\"literal\"}")
        }
    }
}

/// Appends an insertion with a name reference. If it was applied, this many insertions were made before it.
fn push_insert(text: &mut Text, line: &InsertWithNameRef, before: Option<usize>)
    ensures { Extends text.old text.new }
{
    text.push_str("\"instruction\":\"insert\",\"name_from\":");
    match line {
        InsertWithNameRef::Static { index, .. } => push_index(text, "static", *index, None),
        InsertWithNameRef::Dynamic { index, .. } => {
            push_index(text, "dynamic", *index, entry_of(before, *index))
        }
    }
}

/// Returns the entry that a relative index references, if it is known how many insertions were made before it.
fn entry_of(before: Option<usize>, index: usize) -> Option<usize> {
    Some(before?.saturating_sub(index))
}

/// Appends an index of a type, and the entry that it references, if that is known.
fn push_index(text: &mut Text, name: &str, index: usize, entry: Option<usize>)
    ensures { Extends text.old text.new }
{
    text.push_str("{\"type\":\"");
    text.push_str(name);
    text.push_value("\",\"index\":", &index);
    if let Some(entry) = entry {
        text.push_value(",\"entry\":", &entry);
    }
    text.push_str("}");
}

/// Appends a decoder instruction.
fn push_told(text: &mut Text, offset: usize, line: &DecoderLine)
    ensures { Extends text.old text.new }
{
    text.push_between("\"decoder\":", &offset, ",\"instruction\":");
    match line {
        DecoderLine::InsertCountIncrement(by) => text.push_value("\"increment\",\"by\":", &by.0),
        DecoderLine::HeaderAck(stream) => {
            text.push_value("\"acknowledge\",\"stream\":", &stream.0)
        }
        DecoderLine::StreamCancel(stream) => text.push_value("\"cancel\",\"stream\":", &stream.0),
    }
}

/// Appends a section.
fn push_section(text: &mut Text, stream: u64, was_blocked: bool, reading: &Reading)
    ensures { Extends text.old text.new }
{
    text.push_value("\"section\":", &stream);
    text.push_between(",\"was_blocked\":", &was_blocked, ",");
    match reading {
        Reading::Lines {
            required,
            base,
            lines,
            stop,
        } => {
            push_prefix(text, *required, *base);
            push_lines(text, *base, lines);
            push_stop(text, stop.as_ref());
        }
        Reading::Blocked(required) => text.push_value("\"blocked_until\":", required),
        Reading::Refused(refusal) => {
            text.push_str("\"refused\":\"");
            push_prefix_refusal(text, refusal);
            text.push_str("\"");
        }
    }
}

/// Appends the prefix of a section.
fn push_prefix(text: &mut Text, required: usize, base: usize)
    ensures { Extends text.old text.new }
{
    text.push_value("\"required_insert_count\":", &required);
    text.push_value(",\"base\":", &base);
}

/// Appends the objects of field lines under a base.
fn push_lines(text: &mut Text, base: usize, lines: &[LineShown])
    ensures { Extends text.old text.new }
{
    let mut is_first = true;
    text.push_str(",\"lines\":[");
    for line in lines {
        push_line(text, is_first, base, line);
        is_first = false;
    }
    text.push_str("]");
}

/// Appends the object of a field line under a base, the first of its section or another.
fn push_line(text: &mut Text, is_first: bool, base: usize, line: &LineShown)
    ensures { Extends text.old text.new }
{
    text.push_str(if is_first { "" } else { "," });
    text.push_between("{\"offset\":", &line.offset, ",\"form\":");
    push_form(text, base, line);
    text.push_str(",");
    push_field(text, &line.field);
    text.push_str("}");
}

/// Appends how a field came.
fn push_form(text: &mut Text, base: usize, line: &LineShown)
    ensures { Extends text.old text.new }
{
    match &line.line {
        BlockLine::Indexed(_) | BlockLine::IndexedWithPostBase(_) => push_from(text, base, line),
        _ => {
            text.push_value(
                "{\"type\":\"literal\",\"never_indexed\":",
                &line.never_indexed,
            );
            text.push_str(",\"name_from\":");
            push_from(text, base, line);
            text.push_str("}");
        }
    }
}

/// Appends where a field, or its name, is from.
fn push_from(text: &mut Text, base: usize, line: &LineShown)
    ensures { Extends text.old text.new }
{
    match &line.line {
        BlockLine::Indexed(Indexed::Static(index))
        | BlockLine::LiteralWithNameRef(LiteralWithNameRef::Static { index, .. }) => {
            push_index(text, "static", *index, None)
        }
        BlockLine::Indexed(Indexed::Dynamic(index))
        | BlockLine::LiteralWithNameRef(LiteralWithNameRef::Dynamic { index, .. }) => {
            push_index(text, "dynamic", *index, entry_of(Some(base), *index))
        }
        BlockLine::IndexedWithPostBase(line) => push_post_base(text, base, line.0),
        BlockLine::LiteralWithPostBaseNameRef(line) => push_post_base(text, base, line.index),
        BlockLine::Literal(_) => text.push_str("{\"type\":\"literal\"}"),
    }
}

/// Appends a post-base index.
fn push_post_base(text: &mut Text, base: usize, index: usize)
    ensures { Extends text.old text.new }
{
    let entry = base.saturating_add(index).saturating_add(1);
    push_index(text, "post-base", index, Some(entry));
}

/// Appends the line at which a section ends early, if it does.
fn push_stop(text: &mut Text, stop: Option<&Stop>)
    ensures { Extends text.old text.new }
{
    if let Some(stop) = stop {
        text.push_between(",\"offset\":", &stop.offset, ",\"refused\":\"");
        push_line_fault(text, &stop.fault);
        text.push_str("\"");
    }
}

/// Appends the rest of the object of the table: its live entries with their absolute indexes, from 1, the newest first.
fn push_table(text: &mut Text, table: &ReceivedTable)
    ensures { Extends text.old text.new }
{
    let mut is_first = true;
    text.push_str("\"table\":[");
    for entry in live_entries(table) {
        push_row(text, is_first, entry);
        is_first = false;
    }
    text.push_value("],\"size\":", &table.used());
    text.push_between(",\"capacity\":", &table.max_mem_size(), "}\n");
}

/// Appends the object of an entry of the table, the first or another, with its absolute index and its size.
fn push_row(text: &mut Text, is_first: bool, entry: Entry<'_>)
    ensures { Extends text.old text.new }
{
    text.push_str(if is_first { "" } else { "," });
    text.push_value("{\"entry\":", &entry.index);
    text.push_between(",\"size\":", &entry.size, ",");
    push_field(text, entry.field);
    text.push_str("}");
}

/// Appends a field.
fn push_field(text: &mut Text, field: &HeaderField)
    ensures { Extends text.old text.new }
{
    text.push_str("\"name\":");
    push_bytes(text, field.name.as_slice());
    text.push_str(",\"value\":");
    push_bytes(text, field.value.as_slice());
}

/// Appends bytes: a string if they are UTF-8, otherwise an object that has them in hexadecimal.
fn push_bytes(text: &mut Text, bytes: &[u8])
    ensures { Extends text.old text.new }
{
    match str::from_utf8(bytes) {
        Ok(characters) => text.push_made(string_of(text.allocator(), characters)),
        Err(_) => {
            text.push_str("{\"hex\":\"");
            text.push_made(hex::encode(text.allocator(), bytes));
            text.push_str("\"}");
        }
    }
}

/// Returns characters as a string of JSON.
fn string_of(alloc: Global, characters: &str) -> Result<String, AllocError> {
    Value::String(String::from_str(alloc, characters)?).to_string(alloc)
}
