//! The lines that are printed of what is seen.

ghost use Rattle.qpk_view.specs.Texts.{Extends};

use crate::entries::{Entry, live_entries};
use crate::fields::push_field;
use crate::place::Place;
use crate::reasons::{
    self, push_decoder_hint, push_encoder_hint, push_hearing, push_line_fault, push_prefix_refusal,
    push_unreadable,
};
use crate::text::Text;
use crate::watch::Sight;
use qpack_base::field::HeaderField;
use qpack_base::parse_error::ParseError;
use qpack_codec::DecoderError;
use qpack_table::dynamic::ReceivedTable;
use qpack_wire::block::{BlockLine, Indexed, LiteralWithNameRef};
use qpack_wire::stream::{DecoderLine, EncoderLine, InsertWithNameRef};
use qpk_show::awaited::HearingFault;
use qpk_show::section::{LineShown, Reading, Stop};
use qpk_show::shown::Shown;

/// Appends the lines of what is seen, and those of the table after an instruction that was applied, if `with_table`
/// asks for them.
pub(crate) fn push_sight(text: &mut Text, place: Place<'_>, sight: Sight<'_>, with_table: bool)
    ensures { Extends text.old text.new }
{
    place.push(text);
    match sight {
        Sight::Shown(shown, observer) => {
            let table = observer.table();
            push_shown(text, place.line, shown, table);
            push_table_after(text, shown, table, with_table);
        }
        Sight::Settings(settings) => {
            text.push_value("settings: maximum capacity ", &settings.max_capacity);
            text.push_between(", blocked streams ", &settings.max_blocked, "\n");
        }
        Sight::GivenUp(stream) => text.push_between("stream ", &stream, ": given up\n"),
        Sight::HalfByte => text.push_between(
            "line ",
            &place.line,
            ": half a byte at the end of the input is left out\n",
        ),
        Sight::Cut(name, cut) => {
            text.push_str(name);
            text.push_between(" ", &cut.offset, ": cut at the end of the input, ");
            text.push_between("bytes that wait: ", &cut.bytes, "\n");
        }
    }
}

/// Appends the lines of the table after an instruction that was applied, if `with_table` asks for them.
fn push_table_after(text: &mut Text, shown: &Shown, table: &ReceivedTable, with_table: bool)
    ensures { Extends text.old text.new }
{
    if with_table && matches!(shown, Shown::Applied { .. }) {
        push_table(text, table);
    }
}

/// Appends the lines of an instruction or a section; the line of this number came last.
fn push_shown(text: &mut Text, number: usize, shown: &Shown, table: &ReceivedTable)
    ensures { Extends text.old text.new }
{
    match shown {
        Shown::Applied {
            offset,
            line,
            inserted,
        } => push_applied(
            text,
            *offset,
            line,
            inserted.as_ref(),
            table.total_inserted(),
        ),
        Shown::NotApplied {
            offset,
            line,
            error,
        } => push_not_applied(text, number, *offset, line, error, table),
        Shown::NoEncoderInstruction { offset, error } => {
            push_no_instruction(text, number, "encoder ", *offset, *error)
        }
        Shown::Told { offset, line } => push_told(text, *offset, line, "\n"),
        Shown::NotTold {
            offset,
            line,
            fault,
        } => push_not_told(text, number, *offset, line, *fault, table),
        Shown::NoDecoderInstruction { offset, error } => {
            push_no_instruction(text, number, "decoder ", *offset, *error)
        }
        Shown::Section {
            stream,
            was_blocked,
            reading,
        } => push_section(text, number, *stream, *was_blocked, reading),
        Shown::BlockedUntil { stream, required } => push_blocked(text, *stream, *required),
        Shown::TooManyBlocked { stream, required } => {
            push_too_many_blocked(text, number, *stream, *required)
        }
    }
}

/// Appends an encoder instruction that the table refuses.
fn push_not_applied(
    text: &mut Text,
    number: usize,
    offset: usize,
    line: &EncoderLine,
    error: &DecoderError,
    table: &ReceivedTable,
)
    ensures { Extends text.old text.new }
{
    text.push_between("encoder ", &offset, ": ");
    push_instruction(text, line, None);
    push_refused(text, ", ", number);
    reasons::push_not_applied(text, line, error, table);
    push_encoder_hint(text, offset, line);
    text.push_str("\n");
}

/// Appends a decoder instruction that the sections and insertions before it refuse.
fn push_not_told(
    text: &mut Text,
    number: usize,
    offset: usize,
    line: &DecoderLine,
    fault: HearingFault,
    table: &ReceivedTable,
)
    ensures { Extends text.old text.new }
{
    push_told(text, offset, line, ", ");
    push_refused(text, "", number);
    push_hearing(text, fault, table);
    push_decoder_hint(text, offset, line);
    text.push_str("\n");
}

/// Appends bytes of a stream of this name that are no instruction.
fn push_no_instruction(text: &mut Text, number: usize, name: &str, offset: usize, error: ParseError)
    ensures { Extends text.old text.new }
{
    text.push_value(name, &offset);
    push_refused(text, ": ", number);
    push_unreadable(text, error);
    text.push_str("\n");
}

/// Appends a section that is blocked.
fn push_blocked(text: &mut Text, stream: u64, required: usize)
    ensures { Extends text.old text.new }
{
    text.push_value("section ", &stream);
    text.push_between(": blocked until insertion ", &required, "\n");
}

/// Appends a section that would be blocked if more streams might be.
fn push_too_many_blocked(text: &mut Text, number: usize, stream: u64, required: usize)
    ensures { Extends text.old text.new }
{
    text.push_value("section ", &stream);
    push_refused(text, ": ", number);
    reasons::push_too_many_blocked(text, required);
    text.push_str("\n");
}

/// Appends that something is refused, after a text and before the reason.
fn push_refused(text: &mut Text, front: &str, number: usize)
    ensures { Extends text.old text.new }
{
    text.push_str(front);
    text.push_between("refused in input line ", &number, ": ");
}

/// Appends an instruction that was applied, after which there were this many insertions.
fn push_applied(
    text: &mut Text,
    offset: usize,
    line: &EncoderLine,
    inserted: Option<&HeaderField>,
    total: usize,
)
    ensures { Extends text.old text.new }
{
    text.push_between("encoder ", &offset, ": ");
    push_instruction(text, line, Some(total.saturating_sub(1)));
    if let Some(field) = inserted {
        text.push_between(" as entry ", &total, ", ");
        push_field(text, field);
    }
    text.push_str("\n");
}

/// Appends what an instruction is, before its entry. After this many insertions an index references an entry that is
/// named too.
fn push_instruction(text: &mut Text, line: &EncoderLine, inserted: Option<usize>)
    ensures { Extends text.old text.new }
{
    match line {
        EncoderLine::DynamicTableSizeUpdate(size) => text.push_value("set capacity ", &size.0),
        EncoderLine::Duplicate(index) => push_reference(text, "duplicate ", index.0, inserted),
        EncoderLine::InsertWithNameRef(InsertWithNameRef::Static { index, .. }) => {
            text.push_value("insert with the name of static ", index)
        }
        EncoderLine::InsertWithNameRef(InsertWithNameRef::Dynamic { index, .. }) => {
            push_reference(text, "insert with the name of dynamic ", *index, inserted)
        }
        EncoderLine::InsertWithoutNameRef(_) => text.push_str("insert"),
    }
}

/// Appends a text and a relative index, and the entry that it references after this many insertions, if that is known.
fn push_reference(text: &mut Text, front: &str, index: usize, inserted: Option<usize>)
    ensures { Extends text.old text.new }
{
    text.push_value(front, &index);
    if let Some(inserted) = inserted {
        push_entry(text, inserted.saturating_sub(index));
    }
}

/// Appends the entry that an index references.
fn push_entry(text: &mut Text, entry: usize)
    ensures { Extends text.old text.new }
{
    text.push_between(" (entry ", &entry, ")");
}

/// Appends a decoder instruction, and a text after it.
fn push_told(text: &mut Text, offset: usize, line: &DecoderLine, back: &str)
    ensures { Extends text.old text.new }
{
    text.push_value("decoder ", &offset);
    push_decoder_instruction(text, line);
    text.push_str(back);
}

/// Appends what a decoder instruction is.
fn push_decoder_instruction(text: &mut Text, line: &DecoderLine)
    ensures { Extends text.old text.new }
{
    match line {
        DecoderLine::InsertCountIncrement(by) => text.push_value(": increment ", &by.0),
        DecoderLine::HeaderAck(stream) => text.push_value(": acknowledge stream ", &stream.0),
        DecoderLine::StreamCancel(stream) => text.push_value(": cancel stream ", &stream.0),
    }
}

/// Appends the lines of a section.
fn push_section(text: &mut Text, number: usize, stream: u64, was_blocked: bool, reading: &Reading)
    ensures { Extends text.old text.new }
{
    text.push_value("section ", &stream);
    text.push_str(if was_blocked { ": unblocked, " } else { ": " });
    match reading {
        Reading::Lines {
            required,
            base,
            lines,
            stop,
        } => {
            push_prefix(text, *required, *base);
            push_lines(text, *base, lines);
            push_stop(text, number, stop.as_ref());
        }
        Reading::Blocked(required) => {
            text.push_between("blocked until insertion ", required, "\n")
        }
        Reading::Refused(refusal) => {
            push_refused(text, "", number);
            push_prefix_refusal(text, refusal);
            text.push_str("\n");
        }
    }
}

/// Appends the prefix of a section.
fn push_prefix(text: &mut Text, required: usize, base: usize)
    ensures { Extends text.old text.new }
{
    text.push_value("required insert count ", &required);
    text.push_between(", base ", &base, "\n");
}

/// Appends field lines under a base: where each begins in the section, how it came, and the field.
fn push_lines(text: &mut Text, base: usize, lines: &[LineShown])
    ensures { Extends text.old text.new }
{
    for line in lines {
        push_line(text, base, line);
    }
}

/// Appends a field line under a base.
fn push_line(text: &mut Text, base: usize, line: &LineShown)
    ensures { Extends text.old text.new }
{
    text.push_between("  ", &line.offset, " ");
    push_form(text, base, line);
    text.push_str(", ");
    push_field(text, &line.field);
    text.push_str("\n");
}

/// Appends how a field came.
fn push_form(text: &mut Text, base: usize, line: &LineShown)
    ensures { Extends text.old text.new }
{
    push_literal(text, line);
    match &line.line {
        BlockLine::Indexed(Indexed::Static(index))
        | BlockLine::LiteralWithNameRef(LiteralWithNameRef::Static { index, .. }) => {
            text.push_value("static ", index)
        }
        BlockLine::Indexed(Indexed::Dynamic(index))
        | BlockLine::LiteralWithNameRef(LiteralWithNameRef::Dynamic { index, .. }) => {
            push_reference(text, "dynamic ", *index, Some(base))
        }
        BlockLine::IndexedWithPostBase(line) => push_post_base(text, base, line.0),
        BlockLine::LiteralWithPostBaseNameRef(line) => push_post_base(text, base, line.index),
        BlockLine::Literal(_) => {}
    }
}

/// Appends a post-base index, and the entry that it references.
fn push_post_base(text: &mut Text, base: usize, index: usize)
    ensures { Extends text.old text.new }
{
    text.push_value("post-base ", &index);
    push_entry(text, base.saturating_add(index).saturating_add(1));
}

/// Appends that a field came as a literal, if it did, before where its name is from.
fn push_literal(text: &mut Text, line: &LineShown)
    ensures { Extends text.old text.new }
{
    let back = match &line.line {
        BlockLine::Indexed(_) | BlockLine::IndexedWithPostBase(_) => return,
        BlockLine::Literal(_) => "",
        _ => " with the name of ",
    };
    text.push_str("literal");
    if line.never_indexed {
        text.push_str(" never indexed");
    }
    text.push_str(back);
}

/// Appends the line at which a section ends early, if it does.
fn push_stop(text: &mut Text, number: usize, stop: Option<&Stop>)
    ensures { Extends text.old text.new }
{
    if let Some(stop) = stop {
        text.push_value("  ", &stop.offset);
        push_refused(text, " ", number);
        push_line_fault(text, &stop.fault);
        text.push_str("\n");
    }
}

/// Appends the table: its live entries with their absolute indexes, from 1, and their sizes, the newest first, and its
/// capacity and how much of it is taken.
fn push_table(text: &mut Text, table: &ReceivedTable)
    ensures { Extends text.old text.new }
{
    for entry in live_entries(table) {
        push_row(text, entry);
    }
    text.push_value("  ", &table.used());
    text.push_between(" of ", &table.max_mem_size(), " bytes\n");
}

/// Appends an entry of the table, with its absolute index and its size.
fn push_row(text: &mut Text, entry: Entry<'_>)
    ensures { Extends text.old text.new }
{
    text.push_value("  entry ", &entry.index);
    text.push_between(", ", &entry.size, " bytes, ");
    push_field(text, entry.field);
    text.push_str("\n");
}
