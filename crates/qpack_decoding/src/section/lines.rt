//! The lines of a section, appended to a text as they are read (RFC 9204, sections 4.5.2 to 4.5.6).

ghost use Rattle.std.specs.Prelude.{◌≡◌, ℕ, ◌+◌, ◌*◌, ◌/◌, ◌-◌, ◌<◌, ◌≤◌, ◌∷◌, [], drop, length, max, Err, IfOk};
ghost use Rattle.std.specs.Prelude.{vec_len, vec_capacity};
ghost use Rattle.qpack_base.specs.HeaderFields.{line_of};
ghost use Rattle.qpack_spec.specs.Bytes.{Begins};
ghost use Rattle.qpack_spec.specs.Form.{NameAndValue, made_at, form_at, or_bad_integer};
ghost use Rattle.qpack_spec.specs.Form.{or_bad_string};
ghost use Rattle.qpack_spec.specs.Integer.{integer_at};
ghost use Rattle.qpack_spec.specs.Line.{Literal, line_form};
ghost use Rattle.qpack_spec.specs.Stateless.{saturated_size};
ghost use Rattle.qpack_spec.specs.StrictReading.{LinesUnder, strict_line_at, strict_lines_at};
ghost use Rattle.qpack_spec.specs.Text.{HoldsPayload, string_at};
ghost use Rattle.qpack_wire.specs.BlockLines.{form_of_parts};
ghost use Rattle.qpack_wire.specs.Memory.{AsksLine};
ghost use Rattle.qpack_wire.specs.declared.block.line.LineParts.TheVariants as parts;
ghost use Rattle.qpack_decoding.specs.Lines.{under, ReadsIndex, AppendsText, AppendsName, AppendsEntry, AppendsLine};
ghost use Rattle.qpack_decoding.specs.Lines.{field_of_form, entry_of, line_error_of_parse, line_error_of_table};
ghost use Rattle.qpack_decoding.specs.Lines.{line_error_of_static, ChecksRequired};
ghost use Rattle.qpack_decoding.specs.Lines.{ReadsLine};
ghost use Rattle.qpack_decoding.specs.Lines.{AsksInForm};
ghost use Rattle.qpack_decoding.specs.FieldSections.{AreInTurn, LacksRoomFor, fields_in};
ghost use Rattle.qpack_decoding.specs.Sections.{ReadsLines, error_at};
ghost use Rattle.qpack_decoding.specs.declared.section.LineError.TheVariants.{Memory as NoRoom};
ghost use Rattle.qpack_decoding.specs.declared.section.SectionError.TheVariants.{Memory as OutOfMemory};

use crate::field_section::Span;
use crate::section::{LineError, SectionError};
use qpack_base::coding::{Cursor, NoMemory, append_within, make_room_within};
use qpack_base::field::{ESTIMATED_OVERHEAD_BYTES, FieldLine};
use qpack_base::parse_error::ParseError;
use qpack_base::static_::{self, StaticTable};
use qpack_base::stored_field::StoredField;
use qpack_base::{prefix_int, prefix_string};
use qpack_codec::DecoderError;
use qpack_table::dynamic::{self, DynamicTable, EntryIndex};
use qpack_wire::block::{LITERAL_SIZE, LineParts, Reference, VALUE_SIZE, is_never_indexed};

impl From<ParseError> for LineError {
    ghost from_gives = { λ e r. r ≡ line_error_of_parse e };

    fn from(e: ParseError) -> LineError {
        LineError::from(DecoderError::from(e))
    }
}

impl From<dynamic::Error> for LineError {
    ghost from_gives = { λ e r. r ≡ line_error_of_table e };

    fn from(e: dynamic::Error) -> LineError {
        LineError::from(DecoderError::from(e))
    }
}

impl From<static_::Error> for LineError {
    ghost from_gives = { λ e r. r ≡ line_error_of_static e };

    fn from(e: static_::Error) -> LineError {
        LineError::from(DecoderError::from(e))
    }
}

impl From<NoMemory> for LineError {
    ghost from_gives = { λ _ r. r ≡ NoRoom };

    fn from(_e: NoMemory) -> LineError {
        LineError::Memory
    }
}

/// What the lines of a section are read under.
#[derive(Drop)]
pub(crate) struct Lines<'a, I: EntryIndex, F: StoredField> {
    /// The table.
    pub(crate) table: &'a DynamicTable<I, F>,
    /// The base of the section.
    pub(crate) base: usize,
    /// Its required insert count.
    pub(crate) required: usize,
    /// The limit on the sum of its fields' sizes, in bytes.
    pub(crate) limit: u64,
}

/// Reads an index with a prefix of `size` bits.
#[inline(always)]
fn read_index(size: u8, buf: &mut Cursor) -> Result<usize, LineError>
    requires least { 1 ≤ size }
    requires most { size ≤ 8 }
    ensures exact { ReadsIndex buf.old buf.new result (or_bad_integer (integer_at size buf.old.rest)) }
    ensures no_memory { result ≡ Err NoRoom → ⊥ }
{
    match prefix_int::decode(size, buf) {
        Ok((_, index)) => Ok(index as usize),
        Err(e) => Err(LineError::from(ParseError::from(e))),
    }
}

/// Appends the string at the cursor, with a prefix of `size` bits, if it has at most `most` bytes. Returns how many it
/// has.
#[inline(always)]
fn append_string(
    size: u8,
    most: usize,
    buf: &mut Cursor,
    text: &mut Vec<u8>,
) -> Result<usize, LineError>
    requires least { 2 ≤ size }
    requires greatest { size ≤ 8 }
    ensures exact { AppendsText most buf.old buf.new text.old.items text.new.items result
        (or_bad_string (string_at size buf.old.rest)) }
    ensures memory { result ≡ Err NoRoom → Begins (HoldsPayload size) buf.old.rest }
    ensures asks { result ≡ Err NoRoom → vec_capacity text.old < vec_len text.old + most }
    ensures left { IfOk result (λ len. vec_len text.new + (most - len) ≤ vec_len text.old + most) }
    ensures room { vec_capacity text.new ≤ max (vec_capacity text.old) (vec_len text.old + most) }
    ensures kept { vec_capacity text.old ≤ vec_capacity text.new }
{
    match prefix_string::decode_within(size, most, buf, text) {
        Ok(len) => Ok(len),
        Err(e) => Err(LineError::from(ParseError::from(e))),
    }
}

/// How many bytes a field's name and its value have.
#[derive(Clone, Copy, Debug)]
struct Lengths {
    name: usize,
    value: usize,
}

/// Appends a field's name if it has at most `most` bytes, and returns how many it has. On error the text is unchanged.
#[inline(always)]
fn append_name(field: &FieldLine<'_>, most: usize, text: &mut Vec<u8>) -> Result<usize, LineError>
    ensures exact { AppendsName most text.old.items text.new.items result (Ok (line_of field.now).field) }
    ensures asks { result ≡ Err NoRoom → vec_capacity text.old < vec_len text.old + most }
    ensures left { IfOk result (λ len. vec_len text.new + (most - len) ≤ vec_len text.old + most) }
    ensures room { vec_capacity text.new ≤ max (vec_capacity text.old) (vec_len text.old + most) }
    ensures kept { vec_capacity text.old ≤ vec_capacity text.new }
{
    Ok(append_within(field.name, most, text)?)
}

/// Appends a field's name and value, each if it has at most as many bytes as are left of `most`.
#[inline(always)]
fn append_field(
    field: &FieldLine<'_>,
    most: usize,
    text: &mut Vec<u8>,
) -> Result<Lengths, LineError>
    ensures exact { AppendsEntry most text.old.items text.new.items result (Ok (line_of field.now).field) }
    ensures asks { result ≡ Err NoRoom → vec_capacity text.old < vec_len text.old + most }
    ensures room { vec_capacity text.new ≤ max (vec_capacity text.old) (vec_len text.old + most) }
    ensures kept { vec_capacity text.old ≤ vec_capacity text.new }
{
    let name = append_name(field, most, text)?;
    let value = append_within(field.value, most.saturating_sub(name), text)?;
    Ok(Lengths { name, value })
}

impl<I: EntryIndex, F: StoredField> Lines<'_, I, F> {
    /// Rejects a relative index past the required insert count (RFC 9204, section 2.2.3).
    fn check_relative(&self, index: usize) -> Result<(), LineError>
        ensures { ChecksRequired result self.now.required (self.now.base - index) }
    {
        let absolute = self.base.saturating_sub(index);
        if absolute > self.required {
            return Err(LineError::PastRequired(absolute));
        }
        Ok(())
    }

    /// Rejects a post-base index past the required insert count (RFC 9204, section 2.2.3).
    fn check_post_base(&self, index: usize) -> Result<(), LineError>
        ensures { ChecksRequired result self.now.required (self.now.base + index + 1) }
    {
        if index >= self.required.saturating_sub(self.base) {
            let absolute = self.base.saturating_add(index).saturating_add(1);
            return Err(LineError::PastRequired(absolute));
        }
        Ok(())
    }

    /// Appends the name that an index references if it has at most `most` bytes, and returns how many it has.
    #[inline(always)]
    #[tactic(auto, unfolding(qpack_spec::specs::Reading::static_field))]
    fn append_name_of(
        &self,
        reference: Reference,
        index: usize,
        most: usize,
        text: &mut Vec<u8>,
    ) -> Result<usize, LineError>
        ensures exact { AppendsName most text.old.items text.new.items result
            (entry_of (under self.now 0) reference index) }
        ensures asks { result ≡ Err NoRoom → vec_capacity text.old < vec_len text.old + most }
        ensures left { IfOk result (λ len. vec_len text.new + (most - len) ≤ vec_len text.old + most) }
        ensures room { vec_capacity text.new ≤ max (vec_capacity text.old) (vec_len text.old + most) }
        ensures kept { vec_capacity text.old ≤ vec_capacity text.new }
    {
        match reference {
            Reference::Static => append_name(&StaticTable::get(index)?.as_line(), most, text),
            Reference::Relative => {
                self.check_relative(index)?;
                append_name(
                    &self.table.decoder(self.base).get_relative(index)?.as_line(),
                    most,
                    text,
                )
            }
            Reference::PostBase => {
                self.check_post_base(index)?;
                append_name(
                    &self.table.decoder(self.base).get_postbase(index)?.as_line(),
                    most,
                    text,
                )
            }
        }
    }

    /// Appends the field that an index references if it has at most `most` bytes, and returns how many it has.
    #[inline(always)]
    #[tactic(auto, unfolding(qpack_spec::specs::Reading::static_field))]
    fn append_entry(
        &self,
        reference: Reference,
        index: usize,
        most: usize,
        text: &mut Vec<u8>,
    ) -> Result<Lengths, LineError>
        ensures exact { AppendsEntry most text.old.items text.new.items result
            (entry_of (under self.now 0) reference index) }
        ensures asks { result ≡ Err NoRoom → vec_capacity text.old < vec_len text.old + most }
        ensures room { vec_capacity text.new ≤ max (vec_capacity text.old) (vec_len text.old + most) }
        ensures kept { vec_capacity text.old ≤ vec_capacity text.new }
    {
        match reference {
            Reference::Static => append_field(&StaticTable::get(index)?.as_line(), most, text),
            Reference::Relative => {
                self.check_relative(index)?;
                append_field(
                    &self.table.decoder(self.base).get_relative(index)?.as_line(),
                    most,
                    text,
                )
            }
            Reference::PostBase => {
                self.check_post_base(index)?;
                append_field(
                    &self.table.decoder(self.base).get_postbase(index)?.as_line(),
                    most,
                    text,
                )
            }
        }
    }

    /// Appends the field of an indexed field line (RFC 9204, sections 4.5.2 and 4.5.3), if it has at most `most` bytes.
    #[inline(always)]
    fn append_indexed(
        &self,
        reference: Reference,
        most: usize,
        buf: &mut Cursor,
        text: &mut Vec<u8>,
    ) -> Result<Lengths, LineError>
        ensures exact { AppendsLine most buf.old buf.new text.old.items text.new.items result
            (field_of_form (under self.now 0) (made_at (form_of_parts (parts.Index reference)) buf.old.rest)) }
        ensures memory { result ≡ Err NoRoom → AsksInForm (form_of_parts (parts.Index reference)) buf.old.rest }
        ensures asks { result ≡ Err NoRoom → vec_capacity text.old < vec_len text.old + most }
        ensures room { vec_capacity text.new ≤ max (vec_capacity text.old) (vec_len text.old + most) }
        ensures kept { vec_capacity text.old ≤ vec_capacity text.new }
    {
        let index = read_index(reference.index_size(), buf)?;
        self.append_entry(reference, index, most, text)
    }

    /// Appends the field of a literal field line with a name reference (RFC 9204, sections 4.5.4 and 4.5.5), if it has
    /// at most `most` bytes. Faults of the line's bytes are reported before an invalid index.
    #[inline(always)]
    fn append_named(
        &self,
        reference: Reference,
        most: usize,
        buf: &mut Cursor,
        text: &mut Vec<u8>,
    ) -> Result<Lengths, LineError>
        ensures exact { AppendsLine most buf.old buf.new text.old.items text.new.items result
            (field_of_form (under self.now 0) (made_at (form_of_parts (parts.IndexAndValue reference)) buf.old.rest)) }
        ensures memory { result ≡ Err NoRoom
            → AsksInForm (form_of_parts (parts.IndexAndValue reference)) buf.old.rest }
        ensures asks { result ≡ Err NoRoom → vec_capacity text.old < vec_len text.old + most }
        ensures room { vec_capacity text.new ≤ max (vec_capacity text.old) (vec_len text.old + most) }
        ensures kept { vec_capacity text.old ≤ vec_capacity text.new }
    {
        let index = read_index(reference.name_index_size(), buf)?;
        match self.append_name_of(reference, index, most, text) {
            Ok(name) => {
                let value = append_string(VALUE_SIZE, most.saturating_sub(name), buf, text)?;
                Ok(Lengths { name, value })
            }
            Err(e) => {
                append_string(VALUE_SIZE, 0, buf, text)?;
                Err(e)
            }
        }
    }

    /// Appends the field of the line at the cursor, which begins with this byte, if it has at most `most` bytes. Returns
    /// how many it has.
    #[inline(always)]
    fn append_line(
        &self,
        first: u8,
        most: usize,
        buf: &mut Cursor,
        text: &mut Vec<u8>,
    ) -> Result<Lengths, LineError>
        requires { buf.old.rest ≡ first ∷ drop 1 buf.old.rest }
        ensures exact { AppendsLine most buf.old buf.new text.old.items text.new.items result
            (field_of_form (under self.now 0) (form_at line_form buf.old.rest)) }
        ensures memory { result ≡ Err NoRoom → Begins AsksLine buf.old.rest }
        ensures asks { result ≡ Err NoRoom → vec_capacity text.old < vec_len text.old + most }
        ensures room { vec_capacity text.new ≤ max (vec_capacity text.old) (vec_len text.old + most) }
        ensures kept { vec_capacity text.old ≤ vec_capacity text.new }
    {
        match LineParts::of(first) {
            LineParts::Index(reference) => self.append_indexed(reference, most, buf, text),
            LineParts::IndexAndValue(reference) => self.append_named(reference, most, buf, text),
            LineParts::NameAndValue => append_literal(most, buf, text),
        }
    }
}

/// Appends the field of a literal field line with a literal name (RFC 9204, section 4.5.6), if it has at most `most`
/// bytes.
fn append_literal(most: usize, buf: &mut Cursor, text: &mut Vec<u8>) -> Result<Lengths, LineError>
    ensures exact { (u : LinesUnder) → AppendsLine most buf.old buf.new text.old.items text.new.items result
        (field_of_form u (made_at (NameAndValue 4 Literal) buf.old.rest)) }
    ensures memory { result ≡ Err NoRoom → AsksInForm (NameAndValue 4 Literal) buf.old.rest }
    ensures asks { result ≡ Err NoRoom → vec_capacity text.old < vec_len text.old + most }
    ensures room { vec_capacity text.new ≤ max (vec_capacity text.old) (vec_len text.old + most) }
    ensures kept { vec_capacity text.old ≤ vec_capacity text.new }
{
    let name = append_string(LITERAL_SIZE, most, buf, text)?;
    let value = append_string(VALUE_SIZE, most.saturating_sub(name), buf, text)?;
    Ok(Lengths { name, value })
}

/// Returns how many bytes a field may have so that the sizes, which have this sum so far, don't pass the limit with it.
fn most_of_field(limit: u64, sum: u64) -> usize
    ensures { result ≡ limit - sum - 32 }
{
    limit
        .saturating_sub(sum)
        .saturating_sub(ESTIMATED_OVERHEAD_BYTES as u64) as usize
}

/// Appends the field of the line at the cursor, which begins with this byte, unless the sizes pass the limit with it;
/// those so far have this sum. Returns the sum with it. On error text and spans are unchanged. What passes the limit is
/// never appended, and no room is made for it.
#[inline(always)]
pub(crate) fn read_line<I: EntryIndex, F: StoredField>(
    lines: &Lines<I, F>,
    first: u8,
    sum: u64,
    buf: &mut Cursor,
    text: &mut Vec<u8>,
    spans: &mut Vec<Span>,
) -> Result<u64, LineError>
    requires at { buf.old.rest ≡ first ∷ drop 1 buf.old.rest }
    requires held { vec_len text.old + 32 * vec_len spans.old ≤ sum }
    ensures exact { (all : ℕ) → sum ≡ saturated_size all → ReadsLine buf.old buf.new text.old.items text.new.items
        spans.old.items spans.new.items all result
        (strict_line_at (under lines.now 0) all first (drop 1 buf.old.rest)) }
    ensures memory { result ≡ Err NoRoom → Begins AsksLine buf.old.rest }
    ensures lacks { result ≡ Err NoRoom → LacksRoomFor lines.now.limit (vec_capacity text.old) (vec_capacity spans.old) }
    ensures held { IfOk result (λ with. vec_len text.new + 32 * vec_len spans.new ≤ with) }
    ensures text { vec_capacity text.new ≤ max (vec_capacity text.old) lines.now.limit }
    ensures spans { vec_capacity spans.new ≤ max (vec_capacity spans.old) (lines.now.limit / 32) }
    ensures kept_text { vec_capacity text.old ≤ vec_capacity text.new }
    ensures kept_spans { vec_capacity spans.old ≤ vec_capacity spans.new }
{
    let start = text.len();
    let most = most_of_field(lines.limit, sum);
    let lengths = match lines.append_line(first, most, buf, text) {
        Ok(lengths) => lengths,
        Err(e) => {
            text.truncate(start);
            return Err(e);
        }
    };
    let sum = sum
        .saturating_add(lengths.name as u64)
        .saturating_add(lengths.value as u64)
        .saturating_add(ESTIMATED_OVERHEAD_BYTES as u64);
    if sum > lines.limit {
        text.truncate(start);
        return Err(LineError::TooLarge(sum));
    }
    // No memory holds fields of this many bytes.
    if sum == u64::MAX {
        text.truncate(start);
        return Err(LineError::Memory);
    }
    let middle = start + lengths.name;
    let span = Span {
        middle,
        end: middle + lengths.value,
        never_indexed: is_never_indexed(first),
    };
    let most = lines.limit as usize / ESTIMATED_OVERHEAD_BYTES;
    match make_room_within(spans, 1, most.saturating_sub(spans.len())) {
        Ok(()) => {
            spans.push_reserved(span);
            Ok(sum)
        }
        Err(_) => {
            text.truncate(start);
            Err(LineError::Memory)
        }
    }
}

/// Returns the error of a section whose line of this number, at this offset, has this error; out of memory stays
/// itself.
pub(crate) fn at_line(number: usize, offset: usize, error: LineError) -> SectionError
    ensures { result ≡ error_at number offset error }
{
    match error {
        LineError::Memory => SectionError::Memory,
        error => SectionError::Line {
            number,
            offset,
            error,
        },
    }
}

/// Reads the lines to the end of the cursor, each strictly, until one is rejected.
pub(crate) fn read_lines<I: EntryIndex, F: StoredField>(
    lines: &Lines<I, F>,
    buf: &mut Cursor,
    text: &mut Vec<u8>,
    spans: &mut Vec<Span>,
) -> Result<(), SectionError>
    requires none { spans.old.items ≡ [] }
    requires empty { text.old.items ≡ [] }
    ensures exact { ReadsLines result (fields_in text.new.items 0 spans.new.items)
        (strict_lines_at (length buf.old.rest) (under lines.now buf.old.total) 0 0 buf.old.rest) }
    ensures in_turn { AreInTurn 0 spans.new.items (length text.new.items) }
    ensures memory { result ≡ Err OutOfMemory → Begins AsksLine buf.old.rest }
    ensures lacks { result ≡ Err OutOfMemory
        → LacksRoomFor lines.now.limit (vec_capacity text.old) (vec_capacity spans.old) }
    ensures text { vec_capacity text.new ≤ max (vec_capacity text.old) lines.now.limit }
    ensures spans { vec_capacity spans.new ≤ max (vec_capacity spans.old) (lines.now.limit / 32) }
    ensures kept_text { vec_capacity text.old ≤ vec_capacity text.new }
    ensures kept_spans { vec_capacity spans.old ≤ vec_capacity spans.new }
{
    let mut sum = 0u64;
    while let Some(byte) = buf.chunk().first() {
        let number = spans.len() + 1;
        let offset = buf.position();
        match read_line(lines, *byte, sum, buf, text, spans) {
            Ok(with) => sum = with,
            Err(error) => return Err(at_line(number, offset, error)),
        }
    }
    Ok(())
}
