//! The fields of a section, in memory that is kept from section to section.

ghost use Rattle.std.specs.Prelude.{◌≡◌, ◌<◌, ◌≤◌, ◌/◌, ℕ, List, [], length, nat_eq, slice_get, vec_capacity, IfSome, Err};
ghost use Rattle.std.specs.Option.{option_map};
ghost use Rattle.qpack_spec.specs.Bytes.{Begins};
ghost use Rattle.qpack_spec.specs.StrictReading.{strict_lines_at};
ghost use Rattle.qpack_wire.specs.Memory.{AsksLine};
ghost use Rattle.qpack_base.specs.HeaderFields.{line_of};
ghost use Rattle.qpack_decoding.specs.FieldSections.{IsWithin, GrowsTo, GrowsWithin, LacksRoomWithin, HoldsNothing, text_of};
ghost use Rattle.qpack_decoding.specs.FieldSections.{begins_at};
ghost use Rattle.qpack_decoding.specs.FieldSections.{field_at as field_of_span, start_of as start_of_span};
ghost use Rattle.qpack_decoding.specs.Lines.{under};
ghost use Rattle.qpack_decoding.specs.Pieces.{ReadsOneLine, line_at};
ghost use Rattle.qpack_decoding.specs.Sections.{ReadsLines};
ghost use Rattle.qpack_decoding.specs.declared.section.LineError.TheVariants.{Memory as NoRoom};
ghost use Rattle.qpack_decoding.specs.declared.section.SectionError.TheVariants.{Memory};

use crate::section::{LineError, Lines, SectionError, read_line, read_lines};
use qpack_base::coding::Cursor;
use qpack_base::field::{ESTIMATED_OVERHEAD_BYTES, FieldLine};
use qpack_base::stored_field::StoredField;
use qpack_shared::room::shrink_within;
use qpack_table::dynamic::EntryIndex;
use std::alloc::Global;
use std::marker::Model;

/// Where a field is in a text, in bytes from the start of the text, and how its line was spelled. Its name begins where
/// the field before it ends. The first begins at 0.
#[derive(Clone, Copy, Debug, Drop)]
pub(crate) struct Span {
    /// Where the name ends and the value begins.
    pub(crate) middle: usize,
    /// Where the value ends.
    pub(crate) end: usize,
    /// Whether the line asks that the field stay a literal.
    pub(crate) never_indexed: bool,
}

/// Returns the field of a span, whose name begins at `start`.
fn field_at<'a>(text: &'a [u8], start: usize, span: &Span) -> FieldLine<'a>
    requires { IsWithin (length text.now) start span.now }
    ensures { line_of result ≡ field_of_span text.now start span.now }
{
    FieldLine {
        name: &text[start..span.middle],
        value: &text[span.middle..span.end],
        never_indexed: span.never_indexed,
    }
}

/// Returns where the field at an index begins.
fn start_of(spans: &[Span], index: usize) -> usize
    requires { index < length spans.now }
    ensures { result ≡ start_of_span 0 spans.now index }
{
    if index == 0 { 0 } else { spans[index - 1].end }
}

/// A field, and where its name begins in the text of its section, in bytes.
#[derive(Clone, Copy, Debug, Drop)]
pub struct PlacedField<'a> {
    pub start: usize,
    pub field: FieldLine<'a>,
}

/// The fields of a section: names and values one after the other in one text, which holds nothing else. It keeps its
/// memory from section to section. Reading under a limit of n bytes makes room for at most n bytes of text, and for n /
/// 32 spans of 24 bytes each: both together take at most 7n / 4 bytes. Once there is that much room, it asks for no
/// memory. Only `expect` or a greater limit makes room for more, which is given back when a section is rejected.
#[derive(Debug, Drop)]
pub struct FieldSection {
    text: Vec<u8>,
    spans: Vec<Span>,
}

impl Model for FieldSection {
    ghost use Rattle.std.specs.Prelude.{length, vec_capacity};
    ghost use Rattle.std.specs.Vec.{vec_ptr};
    ghost use Rattle.qpack_decoding.specs.FieldSections.{SectionView, AreInTurn, fields_in};

    ghost Value = { SectionView };

    ghost view = { λ s. record {
      fields = fields_in s.text.items 0 s.spans.items;
      text_at = vec_ptr s.text;
      text_room = vec_capacity s.text;
      fields_room = vec_capacity s.spans;
    } };

    ghost invariant = { λ s. AreInTurn 0 s.spans.items (length s.text.items) };
}

impl FieldSection {
    /// Returns a section without fields. Takes no memory.
    pub fn new(alloc: Global) -> FieldSection
        ensures { HoldsNothing result }
    {
        FieldSection {
            text: Vec::new(alloc),
            spans: Vec::new(alloc),
        }
    }

    /// Returns how many fields there are.
    #[tactic(auto, using(crate::proofs::SpansInTurn::count_in))]
    pub fn len(&self) -> usize
        ensures { result ≡ length self.now.fields }
    {
        self.spans.len()
    }

    /// Returns whether there is no field.
    #[tactic(auto, using(crate::proofs::SpansInTurn::count_in))]
    pub fn is_empty(&self) -> bool
        ensures { result ≡ nat_eq (length self.now.fields) 0 }
    {
        self.spans.is_empty()
    }

    /// Returns the field at an index, from 0.
    pub fn get(&self, index: usize) -> Option<FieldLine<'_>>
        ensures { option_map line_of result ≡ slice_get self.now.fields index }
    {
        Some(self.placed(index)?.field)
    }

    /// Returns the field at an index, from 0, and where it begins in the text.
    #[tactic(auto, using(crate::proofs::SpansInTurn::within_at, crate::proofs::SpansInTurn::field_there, crate::proofs::SpansInTurn::no_field_there, crate::proofs::SpansInTurn::starts_behind))]
    pub fn placed(&self, index: usize) -> Option<PlacedField<'_>>
        ensures field { option_map (λ p. line_of p.field) result ≡ slice_get self.now.fields index }
        ensures start { IfSome result (λ p. p.start ≡ begins_at self.now.fields index) }
    {
        let span = self.spans.get(index)?;
        let start = start_of(&self.spans, index);
        Some(PlacedField {
            start,
            field: field_at(&self.text, start, span),
        })
    }

    /// Returns the fields, in the order of their lines.
    pub fn iter(&self) -> Fields<'_>
        ensures { result ≡ self.now.fields }
    {
        Fields {
            text: &self.text,
            start: 0,
            spans: &self.spans,
        }
    }

    /// Returns the names and values of all fields, one after the other.
    #[tactic(auto, using(crate::proofs::SpansInTurn::text_of_spans))]
    pub fn text(&self) -> &[u8]
        ensures { result.now ≡ text_of self.now.fields }
    {
        &self.text
    }

    /// Returns where the text lies in memory, until the section is changed.
    pub fn text_ptr(&self) -> *const u8
        ensures { result ≡ self.now.text_at }
    {
        self.text.as_ptr()
    }

    /// Makes room for this many fields, and for this many bytes of their names and values, as far as memory permits.
    /// This affects only how often later calls ask for memory. With room for `limit / 32` fields and `limit` bytes,
    /// reading under that limit asks for none.
    pub fn expect(&mut self, fields: usize, bytes: usize)
        ensures same { self.new.fields ≡ self.old.fields }
        ensures room { GrowsTo bytes fields self.old self.new }
    {
        let fields = fields.saturating_sub(self.spans.len());
        let bytes = bytes.saturating_sub(self.text.len());
        let _is_made = self.spans.reserve_exact(fields).is_ok()
            && self.text.reserve_exact(bytes).is_ok();
    }

    /// Drops every field; the memory is kept.
    pub fn clear(&mut self)
        ensures none { self.new.fields ≡ [] }
        ensures text_kept { self.new.text_room ≡ self.old.text_room }
        ensures fields_kept { self.new.fields_room ≡ self.old.fields_room }
    {
        self.text.clear();
        self.spans.clear();
    }

    /// Drops every field. Memory past what a section within the limit can use is given back.
    #[cold]
    #[inline(never)]
    pub(crate) fn clear_within(&mut self, limit: u64)
        ensures none { self.new.fields ≡ [] }
        ensures text { self.new.text_room ≤ limit }
        ensures fields { self.new.fields_room ≤ limit / 32 }
        ensures text_kept { self.old.text_room ≤ limit → self.new.text_room ≡ self.old.text_room }
        ensures fields_kept { self.old.fields_room ≤ limit / 32 → self.new.fields_room ≡ self.old.fields_room }
    {
        self.text.clear();
        self.spans.clear();
        shrink_within(&mut self.text, limit as usize);
        shrink_within(&mut self.spans, limit as usize / ESTIMATED_OVERHEAD_BYTES);
    }

    /// Reads the lines of a section to the end of the cursor, into a field section without fields.
    #[tactic(auto, using(crate::proofs::SpansInTurn::none_in))]
    pub(crate) fn read_lines<I: EntryIndex, F: StoredField>(
        &mut self,
        lines: &Lines<I, F>,
        buf: &mut Cursor,
    ) -> Result<(), SectionError>
        requires { self.old.fields ≡ [] }
        ensures exact { ReadsLines result self.new.fields
            (strict_lines_at (length buf.old.rest) (under lines.now buf.old.total) 0 0 buf.old.rest) }
        ensures memory { result ≡ Err Memory → Begins AsksLine buf.old.rest }
        ensures lacks { result ≡ Err Memory → LacksRoomWithin lines.now.limit self.old }
        ensures room { GrowsWithin lines.now.limit self.old self.new }
    {
        self.text.clear();
        read_lines(lines, buf, &mut self.text, &mut self.spans)
    }

    /// Reads the line at the cursor into a field section without fields, the sizes before it having this sum. Returns the
    /// sum with its field.
    pub(crate) fn read_line<I: EntryIndex, F: StoredField>(
        &mut self,
        lines: &Lines<I, F>,
        sum: u64,
        buf: &mut Cursor,
    ) -> Result<u64, LineError>
        requires none { self.old.fields ≡ [] }
        requires some { 0 < length buf.old.rest }
        ensures exact { ReadsOneLine buf.old buf.new self.new.fields sum result
            (line_at (under lines.now 0) sum buf.old.rest) }
        ensures memory { result ≡ Err NoRoom → Begins AsksLine buf.old.rest }
        ensures lacks { result ≡ Err NoRoom → LacksRoomWithin lines.now.limit self.old }
        ensures room { GrowsWithin lines.now.limit self.old self.new }
    {
        self.text.clear();
        self.spans.clear();
        let Some(first) = buf.chunk().first() else {
            unreachable!()
        };
        read_line(lines, *first, sum, buf, &mut self.text, &mut self.spans)
    }
}

/// The fields of a section that are still to come.
#[derive(Debug, Drop)]
pub struct Fields<'a> {
    text: &'a [u8],
    /// Where the first of them begins.
    start: usize,
    spans: &'a [Span],
}

impl<'a> Model for Fields<'a> {
    ghost use Rattle.std.specs.Prelude.{List, length};
    ghost use Rattle.qpack_spec.specs.Field.{FieldLine};
    ghost use Rattle.qpack_decoding.specs.FieldSections.{AreInTurn, fields_in};

    ghost Value = { List FieldLine };

    ghost view = { λ s. fields_in s.text.now s.start s.spans.now };

    ghost invariant = { λ s. AreInTurn s.start s.spans.now (length s.text.now) };
}

impl<'a> Iterator for Fields<'a> {
    type Item = FieldLine<'a>;

    ghost use Rattle.std.specs.Iterator.{at_most};
    ghost use Rattle.std.specs.Prelude.{length};
    ghost use Rattle.qpack_decoding.specs.FieldSections.{GivesNext};

    ghost next_gives = { λ left item after. GivesNext left item after };

    ghost remaining = { λ left. at_most (length left) };

    #[tactic(auto, using(crate::proofs::SpansInTurn::front_within))]
    fn next(&mut self) -> Option<FieldLine<'a>> {
        let (first, rest) = self.spans.split_first()?;
        let field = field_at(self.text, self.start, first);
        self.start = first.end;
        self.spans = rest;
        Some(field)
    }
}
