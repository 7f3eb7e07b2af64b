//! A field section as it is shown: line by line, each with where it begins and what it means (RFC 9204, section 4.5).

ghost use Rattle.std.specs.Prelude.{◌≡◌, ◌∷◌, ◌+◌, ◌-◌, ◌^◌, ◌<◌, ◌&&◌, min, nat_eq, nat_lt, drop, length, Ok, IfOk};
ghost use Rattle.std.specs.Prelude.{OnOk, IsTrue, ◌↔◌};
ghost use Rattle.qpack_spec.specs.Reading.{line_field};
ghost use Rattle.qpack_spec.specs.Table.{window};
ghost use Rattle.qpack_wire.specs.BlockLines.{line_of, line_at};
ghost use Rattle.qpack_wire.specs.Lines.{line_of_indexed, line_of_literal_with_name_ref};
ghost use Rattle.qpack_wire.specs.Prefixes.{prefix_of};
ghost use Rattle.qpack_codec.specs.Sections.{GivesLineField};
ghost use Rattle.qpk_show.specs.Sections.{reference_of, shown_field, shown_line_at, shown_lines, shown_section};
ghost use Rattle.qpk_show.specs.Sections.{Reading as ReadingOf, shown_section_behind};
ghost use Rattle.qpk_show.specs.Showing.{required_of};
ghost use Rattle.qpk_show.specs.Answers.{unreadable_line, meaningless_line, under, DecodesLine, GivesField};
ghost use Rattle.qpk_show.specs.Answers.{ReadsLine, AreLines, IsReading};

use qpack_base::coding::{Cursor, NoMemory};
use qpack_base::field::HeaderField;
use qpack_base::parse_error::ParseError;
use qpack_base::static_::StaticTable;
use qpack_codec::DecoderError;
use qpack_table::dynamic::{DynamicTableDecoder, NoIndex, ReceivedTable};
use qpack_wire::block::{
    BlockLine, HeaderPrefix, Indexed, Literal, LiteralWithNameRef, LiteralWithPostBaseNameRef,
    is_never_indexed,
};
use std::alloc::Global;

/// A line that means a field.
#[derive(Debug, Drop)]
pub struct LineShown {
    /// Where it begins, in bytes from the section's start.
    pub offset: usize,
    /// What its bytes are.
    pub line: BlockLine,
    /// Whether its bytes ask that the field stay a literal (RFC 9204, section 7.1.3).
    pub never_indexed: bool,
    /// The field that it means.
    pub field: HeaderField,
}

/// Why a line gives no field.
#[derive(Debug, Drop)]
pub enum LineFault {
    /// Its bytes are no line.
    Unreadable(ParseError),
    /// It references an entry past the required insert count of its section (RFC 9204, section 2.2.3): the one of this
    /// absolute index, from 1.
    PastRequired(usize),
    /// It references no entry or static field that is there.
    Meaningless(DecoderError),
}

/// The line at which reading ends early.
#[derive(Debug, Drop)]
pub struct Stop {
    /// Where it begins, in bytes from the section's start.
    pub offset: usize,
    /// Why it gives no field.
    pub fault: LineFault,
}

/// Why a section has no lines.
#[derive(Debug, Drop)]
pub enum PrefixRefusal {
    /// Its bytes begin with no prefix.
    NoPrefix(ParseError),
    /// Its prefix is out of range, or has a base below 0 (RFC 9204, section 4.5.1).
    BadPrefix(ParseError),
    /// Its prefix has a required insert count, and the maximum capacity is 0 (RFC 9204, section 4.5.1.1).
    CountAtZero,
}

/// A section, as far as it can be read.
#[derive(Debug, Drop)]
pub enum Reading {
    /// Its lines.
    Lines {
        /// The required insert count.
        required: usize,
        /// The base.
        base: usize,
        /// The lines that mean a field, in order.
        lines: Vec<LineShown>,
        /// The line after them that means no field, if there is one.
        stop: Option<Stop>,
    },
    /// It waits for this many insertions.
    Blocked(usize),
    /// It is refused for its prefix.
    Refused(PrefixRefusal),
}

impl Reading {
    /// Returns the required insert count of the section, 0 if it has none.
    pub fn required(&self) -> usize
        ensures { (r : ReadingOf) → IsReading self.now r → result ≡ required_of r }
    {
        match self {
            Reading::Lines { required, .. } => *required,
            Reading::Blocked(required) => *required,
            Reading::Refused(_) => 0,
        }
    }
}

/// Why a line is not read: it gives no field, or no memory was left.
#[derive(Drop)]
enum LineError {
    Fault(LineFault),
    Memory,
}

/// Returns the error of bytes that are no line; out of memory stays itself.
fn unreadable(e: ParseError) -> LineError
    ensures { result ≡ unreadable_line e }
{
    match e {
        ParseError::Memory => LineError::Memory,
        e => LineError::Fault(LineFault::Unreadable(e)),
    }
}

/// Returns the error of a line without a meaning; out of memory stays itself.
fn meaningless(e: DecoderError) -> LineError
    ensures { result ≡ meaningless_line e }
{
    match e {
        DecoderError::Memory => LineError::Memory,
        e => LineError::Fault(LineFault::Meaningless(e)),
    }
}

/// What the lines of a section are read under.
#[derive(Drop)]
struct Under<'a> {
    table: &'a ReceivedTable,
    /// The required insert count.
    required: usize,
    base: usize,
    /// The length of the section, in bytes.
    section: usize,
}

/// Returns the field that a line means (RFC 9204, sections 4.5.2 to 4.5.6).
#[tactic(auto, unfolding(qpack_spec::specs::Reading::line_field))]
fn shown_field(
    table: &DynamicTableDecoder<NoIndex>,
    line: &BlockLine,
) -> Result<HeaderField, DecoderError>
    ensures { GivesLineField result (line_field (window table.now.table.now) table.now.base (line_of line.now)) }
{
    match line {
        BlockLine::Indexed(line) => field_of_indexed(table, line),
        BlockLine::IndexedWithPostBase(line) => Ok(table.get_postbase(line.0)?.clone()?),
        BlockLine::LiteralWithNameRef(line) => field_of_literal_with_name_ref(table, line),
        BlockLine::LiteralWithPostBaseNameRef(LiteralWithPostBaseNameRef { index, value }) => {
            Ok(table.get_postbase(*index)?.with_value(value.clone()?)?)
        }
        BlockLine::Literal(Literal { name, value }) => {
            Ok(HeaderField::new(name.clone()?, value.clone()?))
        }
    }
}

/// Returns the field that an indexed field line means.
#[tactic(auto, unfolding(qpack_spec::specs::Reading::line_field, qpack_spec::specs::Reading::static_field))]
fn field_of_indexed(
    table: &DynamicTableDecoder<NoIndex>,
    line: &Indexed,
) -> Result<HeaderField, DecoderError>
    ensures { GivesLineField result
        (line_field (window table.now.table.now) table.now.base (line_of_indexed line.now)) }
{
    match line {
        Indexed::Static(index) => Ok(StaticTable::get(*index)?),
        Indexed::Dynamic(index) => Ok(table.get_relative(*index)?.clone()?),
    }
}

/// Returns the field that a literal field line with a name reference means.
#[tactic(auto, unfolding(qpack_spec::specs::Reading::line_field, qpack_spec::specs::Reading::static_field))]
fn field_of_literal_with_name_ref(
    table: &DynamicTableDecoder<NoIndex>,
    line: &LiteralWithNameRef,
) -> Result<HeaderField, DecoderError>
    ensures { GivesLineField result
        (line_field (window table.now.table.now) table.now.base (line_of_literal_with_name_ref line.now)) }
{
    match line {
        LiteralWithNameRef::Static { index, value } => {
            Ok(StaticTable::get(*index)?.with_value(value.clone()?)?)
        }
        LiteralWithNameRef::Dynamic { index, value } => {
            Ok(table.get_relative(*index)?.with_value(value.clone()?)?)
        }
    }
}

/// Returns the greatest absolute index that a line references under a base, 0 if it references no entry. It saturates.
#[tactic(auto, unfolding(qpack_spec::specs::Reading::references_of_line, qpack_spec::specs::Reading::greatest_of))]
pub fn reference_of(base: usize, line: &BlockLine) -> usize
    ensures { result ≡ min (reference_of base (line_of line.now)) (2 ^ 64 - 1) }
{
    match line {
        BlockLine::Indexed(Indexed::Static(_)) => 0,
        BlockLine::Indexed(Indexed::Dynamic(index)) => base.saturating_sub(*index),
        BlockLine::IndexedWithPostBase(line) => behind(base, line.0),
        BlockLine::LiteralWithNameRef(LiteralWithNameRef::Static { .. }) => 0,
        BlockLine::LiteralWithNameRef(LiteralWithNameRef::Dynamic { index, .. }) => {
            base.saturating_sub(*index)
        }
        BlockLine::LiteralWithPostBaseNameRef(line) => behind(base, line.index),
        BlockLine::Literal(_) => 0,
    }
}

/// Returns whether a line references an entry past the required insert count (RFC 9204, section 2.2.3).
#[tactic(auto, unfolding(qpack_spec::specs::Reading::references_of_line, qpack_spec::specs::Reading::greatest_of))]
fn is_past(required: usize, base: usize, line: &BlockLine) -> bool
    ensures { IsTrue result ↔ required < reference_of base (line_of line.now) }
{
    match line {
        BlockLine::Indexed(Indexed::Static(_)) => false,
        BlockLine::Indexed(Indexed::Dynamic(index)) => base.saturating_sub(*index) > required,
        BlockLine::IndexedWithPostBase(line) => line.0 >= required.saturating_sub(base),
        BlockLine::LiteralWithNameRef(LiteralWithNameRef::Static { .. }) => false,
        BlockLine::LiteralWithNameRef(LiteralWithNameRef::Dynamic { index, .. }) => {
            base.saturating_sub(*index) > required
        }
        BlockLine::LiteralWithPostBaseNameRef(line) => line.index >= required.saturating_sub(base),
        BlockLine::Literal(_) => false,
    }
}

/// Returns the absolute index of a post-base index, at most 2^64 - 1 (RFC 9204, section 3.2.6).
fn behind(base: usize, index: usize) -> usize
    ensures { result ≡ min (base + index + 1) (2 ^ 64 - 1) }
{
    base.saturating_add(index).saturating_add(1)
}

/// Returns the line at the cursor, or why it can't be read.
fn decode_line(alloc: Global, buf: &mut Cursor) -> Result<BlockLine, LineError>
    ensures exact { DecodesLine buf.new result (line_at buf.old.rest) }
{
    match BlockLine::decode(alloc, buf) {
        Ok(line) => Ok(line),
        Err(e) => Err(unreadable(e)),
    }
}

impl Under<'_> {
    /// Returns the field that a line means, if it references nothing past the required insert count.
    fn field_of(&self, line: &BlockLine) -> Result<HeaderField, LineError>
        ensures { GivesField result (shown_field (under self.now) (line_of line.now)) }
    {
        if is_past(self.required, self.base, line) {
            let index = reference_of(self.base, line);
            return Err(LineError::Fault(LineFault::PastRequired(index)));
        }
        match shown_field(&self.table.decoder(self.base), line) {
            Ok(field) => Ok(field),
            Err(e) => Err(meaningless(e)),
        }
    }

    /// Reads the line at the cursor, which begins with this byte.
    fn read_line(&self, first: u8, buf: &mut Cursor) -> Result<LineShown, LineError>
        requires { 0 < length buf.old.rest }
        ensures exact { ReadsLine buf.new result (shown_line_at (under self.now) first buf.old.rest) }
        ensures shorter { OnOk result (length buf.new.rest < length buf.old.rest) }
    {
        let offset = self.section.saturating_sub(buf.remaining());
        let line = decode_line(self.table.allocator(), buf)?;
        let field = self.field_of(&line)?;
        Ok(LineShown {
            offset,
            line,
            never_indexed: is_never_indexed(first),
            field,
        })
    }

    /// Reads lines to the end of the cursor, or to one that gives no field.
    fn read_lines(&self, buf: &mut Cursor) -> Result<(Vec<LineShown>, Option<Stop>), NoMemory>
        ensures { IfOk result (λ r. AreLines r (shown_lines (under self.now) buf.old.rest)) }
    {
        let mut lines = Vec::new(self.table.allocator());
        while let Some(first) = buf.chunk().first() {
            let offset = self.section.saturating_sub(buf.remaining());
            match self.read_line(*first, buf) {
                Ok(line) => lines.push(line)?,
                Err(LineError::Memory) => return Err(NoMemory),
                Err(LineError::Fault(fault)) => return Ok((lines, Some(Stop { offset, fault }))),
            }
        }
        Ok((lines, None))
    }
}

/// Reads a section under a table, as far as it can be read.
#[tactic(auto, unfolding(crate::specs::Sections::shown_section))]
pub fn read_section(table: &ReceivedTable, section: &[u8]) -> Result<Reading, NoMemory>
    ensures { IfOk result (λ r. IsReading r (shown_section table.now section.now)) }
{
    let mut buf = Cursor::new(section);
    match HeaderPrefix::decode(&mut buf) {
        Ok(prefix) => read_behind(table, section.len(), prefix, &mut buf),
        Err(e) => Ok(Reading::Refused(PrefixRefusal::NoPrefix(e))),
    }
}

/// Reads a section of this length after its prefix.
fn read_behind(
    table: &ReceivedTable,
    section: usize,
    prefix: HeaderPrefix,
    buf: &mut Cursor,
) -> Result<Reading, NoMemory>
    ensures { IfOk result (λ r. IsReading r
        (shown_section_behind table.now section (Ok (prefix_of prefix, buf.old.rest)))) }
{
    let most = table.agreed_max();
    if most == 0 && prefix.encoded_insert_count() > 0 {
        return Ok(Reading::Refused(PrefixRefusal::CountAtZero));
    }
    let inserted = table.total_inserted();
    let (required, base) = match prefix.get_strict(inserted, most) {
        Ok(known) => known,
        Err(e) => return Ok(Reading::Refused(PrefixRefusal::BadPrefix(e))),
    };
    if required > inserted {
        return Ok(Reading::Blocked(required));
    }
    let under = Under {
        table,
        required,
        base,
        section,
    };
    let (lines, stop) = under.read_lines(buf)?;
    Ok(Reading::Lines {
        required,
        base,
        lines,
        stop,
    })
}
