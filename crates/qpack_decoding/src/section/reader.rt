//! Field sections that come in pieces: a call gives one field, and only the bytes of a prefix or of a line that is not
//! whole are kept (RFC 9204, sections 2.2.1 and 4.5).

ghost use Rattle.std.specs.Prelude.{◌≡◌, ◌+◌, ◌-◌, ◌++◌, ◌≤◌, ◌<◌, ℕ, None, [], List, length, max, nat_le, if◌then◌else◌};
ghost use Rattle.std.specs.Prelude.{take, vec_capacity, Err, OnOk, OnErr, IfOk};
ghost use Rattle.qpack_spec.specs.Table.{window};
ghost use Rattle.qpack_decoding.specs.FieldSections.{GrowsWithin, SectionView};
ghost use Rattle.qpack_decoding.specs.Lines.{under};
ghost use Rattle.qpack_decoding.specs.Pieces.{ReadsOn, Answers, fresh, most_read, next_prefix, next_line, part_behind};
ghost use Rattle.qpack_decoding.specs.Pieces.{goes_on, missing_in, KeepsWithin, LacksRoomToWait, NeedsMemoryToFind};
ghost use Rattle.qpack_decoding.specs.Pieces.{NeedsMemoryForNext, NeedsMemoryToReadOn};
ghost use Rattle.qpack_decoding.specs.Missing.{line_missing, prefix_missing};
ghost use Rattle.qpack_decoding.specs.PieceLaws.{PiecesGiveTheFields, PiecesGiveTheSection, PiecesKeepTheReading};
ghost use Rattle.qpack_decoding.specs.PieceLaws.{PiecesLeaveTheReading};
ghost use Rattle.qpack_decoding.specs.Pieces.{front_of, kept_failure};
ghost use Rattle.qpack_decoding.specs.Pieces.{FindsPrefix, GathersPrefix, FindsLine, GathersLine, Gathers, AppendsMissing};
ghost use Rattle.qpack_decoding.specs.declared.section.LineError.TheVariants.{Memory as OutOfMemory};
ghost use Rattle.qpack_decoding.specs.declared.section.SectionError.TheVariants.{Memory};
ghost use Rattle.qpack_decoding.specs.declared.section.missing.Part.TheVariants.{Line};
ghost use Rattle.qpack_decoding.specs.declared.section.reader.Progress.TheVariants.{Waits, Ends};

use crate::field_section::FieldSection;
use crate::section::missing::{Part, missing};
use crate::section::{
    LineError, Lines, SectionError, SectionPrefix, at_line, longest_section, read_prefix,
};
use qpack_base::coding::{Cursor, NoMemory, append_within};
use qpack_base::stored_field::StoredField;
use qpack_shared::room::shrink_within;
use qpack_table::dynamic::{DynamicTable, EntryIndex};
use std::alloc::Global;
use std::marker::Model;

/// What a piece of a section gives.
#[derive(Clone, Copy, Debug, PartialEq, Eq)]
pub enum Progress {
    /// All bytes were consumed, and nothing more is whole. Call again with the next bytes.
    Waits,
    /// The prefix was read, and the cursor is after it. Call again, even if no byte is left.
    Prefix {
        /// How many insertions must be received before the section can be read, 0 if it references no entry.
        required: usize,
    },
    /// The section waits for insertions, and no byte was consumed. Call again once they are received.
    Blocked {
        /// How many insertions must be received.
        required: usize,
    },
    /// The next field, which is in the field section. The cursor is after its line, whose last byte was consumed now. Call
    /// again, even if no byte is left.
    Field,
    /// The section ended, and all its fields were given.
    Ends {
        /// The required insert count of the section, 0 if it references no entry.
        required: usize,
    },
}

/// A section that comes on a stream in pieces.
///
/// It is kept beside the decoding end, one for a stream. Between calls it has the bytes of a prefix or of a line that
/// is not whole, and under a limit of n bytes of fields never more than 4n + 20.
#[derive(Debug, Drop)]
pub struct SectionReader {
    stream: u64,
    pending: Vec<u8>,
    /// What the prefix says, once it was read.
    prefix: Option<SectionPrefix>,
    /// How many lines were read.
    lines: usize,
    /// How many bytes of the section are before those that wait.
    offset: usize,
    /// The sum of the sizes of the fields so far, which saturates.
    sum: u64,
    /// Why the section was rejected.
    failure: Option<SectionError>,
}

impl Model for SectionReader {
    ghost use Rattle.std.specs.Prelude.{vec_capacity};
    ghost use Rattle.qpack_decoding.specs.Pieces.{KeptReader, IsKept};

    ghost Value = { KeptReader };

    ghost view = { λ r. record {
      section = record {
        stream = r.stream;
        pending = r.pending.items;
        prefix = r.prefix;
        lines = r.lines;
        offset = r.offset;
        sum = r.sum;
        failure = r.failure;
      };
      room = vec_capacity r.pending;
    } };

    ghost invariant = { λ r. IsKept (record {
      section = record {
        stream = r.stream;
        pending = r.pending.items;
        prefix = r.prefix;
        lines = r.lines;
        offset = r.offset;
        sum = r.sum;
        failure = r.failure;
      };
      room = vec_capacity r.pending;
    }) };
}

impl SectionReader {
    /// Returns a reader of a section that comes on this stream, at its start. Takes no memory.
    pub fn new(alloc: Global, stream: u64) -> SectionReader
        ensures { result ≡ record { section = fresh stream; room = 0 } }
    {
        SectionReader {
            stream,
            pending: Vec::new(alloc),
            prefix: None,
            lines: 0,
            offset: 0,
            sum: 0,
            failure: None,
        }
    }

    /// Returns the stream.
    pub fn stream(&self) -> u64
        ensures { result ≡ self.now.section.stream }
    {
        self.stream
    }

    /// Returns how many bytes are kept.
    pub fn waiting(&self) -> usize
        ensures { result ≡ length self.now.section.pending }
    {
        self.pending.len()
    }

    /// Returns to the start of a section.
    pub(crate) fn begin(&mut self)
        ensures section { self.new.section ≡ fresh self.old.section.stream }
        ensures room { self.new.room ≤ self.old.room }
    {
        drop_all(&mut self.pending);
        self.prefix = None;
        self.lines = 0;
        self.offset = 0;
        self.sum = 0;
        self.failure = None;
    }

    /// Reads on under a table, and up to a limit on the sum of the fields' sizes in bytes, at the cursor, whose bytes
    /// continue those of earlier calls. With `last`, the section ends with them.
    ///
    /// # Errors
    ///
    /// Fails, checking in this order, as before after an error other than `Memory`; if more bytes came than a section
    /// within the limit can have (`TooLong`); and as `read_section` does, at the prefix or at the next line. Then no
    /// byte is consumed. `Memory` changes nothing.
    pub(crate) fn read<I: EntryIndex, F: StoredField>(
        &mut self,
        table: &DynamicTable<I, F>,
        limit: u64,
        buf: &mut Cursor,
        last: bool,
        fields: &mut FieldSection,
    ) -> Result<Progress, SectionError>
        requires { fields.old.fields ≡ [] }
        ensures reads { ReadsOn (window table.now) limit last self.old.section self.new.section buf.old.rest
            buf.new.rest fields.new.fields result self.old.section.failure }
        // Memory is refused only for bytes that wait and do not fit, or for a line, if `fields` has less room than a
        // section within the limit can use.
        ensures memory { result ≡ Err Memory
            → NeedsMemoryToReadOn (window table.now) limit last self.old buf.old.rest fields.old }
        ensures kept { KeepsWithin limit self.old self.new }
        ensures total { buf.new.total ≡ buf.old.total }
        ensures room { GrowsWithin limit fields.old fields.new }
    {
        if let Some(failure) = self.failure {
            return Err(failure);
        }
        if !self.may_take(buf.remaining(), limit) {
            return Err(self.refuse(SectionError::TooLong));
        }
        let Some(prefix) = self.prefix else {
            return self.read_prefix(table, limit, last, buf);
        };
        if prefix.required > table.total_inserted() {
            return Ok(Progress::Blocked {
                required: prefix.required,
            });
        }
        let lines = Lines {
            table,
            base: prefix.base,
            required: prefix.required,
            limit,
        };
        self.read_line(&lines, last, buf, fields)
    }

    /// Returns whether the section is not too long with this many bytes more.
    fn may_take(&self, more: usize, limit: u64) -> bool
        ensures { result ≡ nat_le (self.now.section.offset + length self.now.section.pending + more) (most_read limit) }
    {
        let Some(before) = self.offset.checked_add(self.pending.len()) else {
            return false;
        };
        match before.checked_add(more) {
            Some(all) => all as u64 <= longest_section(limit),
            None => false,
        }
    }

    /// Returns how many bytes may wait, of a section that is not too long.
    fn most_waiting(&self, limit: u64) -> usize
        ensures { result ≡ most_read limit - self.now.section.offset }
    {
        (longest_section(limit) as usize).saturating_sub(self.offset)
    }

    /// Returns the error, and keeps it unless it is out of memory.
    fn refuse(&mut self, error: SectionError) -> SectionError
        ensures is { result ≡ error }
        ensures kept { self.new.section ≡ kept_failure error self.old.section }
        ensures room { self.new.room ≡ self.old.room }
    {
        match error {
            SectionError::Memory => {}
            _ => self.failure = Some(error),
        }
        error
    }

    /// Reads the prefix.
    fn read_prefix<I: EntryIndex, F: StoredField>(
        &mut self,
        table: &DynamicTable<I, F>,
        limit: u64,
        last: bool,
        buf: &mut Cursor,
    ) -> Result<Progress, SectionError>
        requires none { self.old.section.prefix ≡ None }
        requires fits { self.old.section.offset + length self.old.section.pending + length buf.old.rest
            ≤ most_read limit }
        ensures reads { let all : List ℕ = self.old.section.pending ++ buf.old.rest in
            Answers (next_prefix (window table.now) last all) self.old.section self.new.section all buf.old.rest
            buf.new.rest [] result }
        ensures memory { result ≡ Err Memory → (fields : SectionView) → NeedsMemoryForNext
            (next_prefix (window table.now) last (self.old.section.pending ++ buf.old.rest)) limit self.old buf.old.rest
            fields }
        ensures kept { KeepsWithin limit self.old self.new }
        ensures total { buf.new.total ≡ buf.old.total }
    {
        let waited = self.pending.len();
        let most = self.most_waiting(limit);
        match find_prefix(table, last, buf.chunk(), most, &mut self.pending) {
            Ok(Some(prefix)) => {
                buf.advance(prefix.length - waited);
                self.prefix = Some(prefix);
                self.offset = prefix.length;
                Ok(Progress::Prefix {
                    required: prefix.required,
                })
            }
            Ok(None) => {
                buf.advance(buf.remaining());
                Ok(Progress::Waits)
            }
            Err(error) => Err(self.refuse(error)),
        }
    }

    /// Reads the next line.
    fn read_line<I: EntryIndex, F: StoredField>(
        &mut self,
        lines: &Lines<I, F>,
        last: bool,
        buf: &mut Cursor,
        fields: &mut FieldSection,
    ) -> Result<Progress, SectionError>
        requires prefix { part_behind self.old.section.prefix ≡ Line }
        requires none { fields.old.fields ≡ [] }
        requires fits { self.old.section.offset + length self.old.section.pending + length buf.old.rest
            ≤ most_read lines.now.limit }
        ensures reads { let all : List ℕ = self.old.section.pending ++ buf.old.rest in
            Answers (next_line (under lines.now 0) last self.old.section all) self.old.section self.new.section all
            buf.old.rest buf.new.rest fields.new.fields result }
        ensures memory { result ≡ Err Memory → NeedsMemoryForNext
            (next_line (under lines.now 0) last self.old.section (self.old.section.pending ++ buf.old.rest))
            lines.now.limit self.old buf.old.rest fields.old }
        ensures kept { KeepsWithin lines.now.limit self.old self.new }
        ensures total { buf.new.total ≡ buf.old.total }
        ensures room { GrowsWithin lines.now.limit fields.old fields.new }
    {
        let waited = self.pending.len();
        if waited == 0 && buf.remaining() == 0 {
            return Ok(at_end(lines.required, last));
        }
        let most = self.most_waiting(lines.limit);
        match find_line(
            lines,
            self.sum,
            last,
            buf.chunk(),
            most,
            &mut self.pending,
            fields,
        ) {
            Ok(Some(taken)) => {
                buf.advance(taken.len - waited);
                self.lines += 1;
                self.offset += taken.len;
                self.sum = taken.sum;
                Ok(Progress::Field)
            }
            Ok(None) => {
                buf.advance(buf.remaining());
                Ok(Progress::Waits)
            }
            Err(error) => Err(self.refuse(at_line(self.lines + 1, self.offset, error))),
        }
    }
}

/// Returns what comes after the lines of a section, of which no byte is left.
fn at_end(required: usize, last: bool) -> Progress
    ensures { result ≡ (if last then Ends required else Waits) }
{
    if last {
        Progress::Ends { required }
    } else {
        Progress::Waits
    }
}

/// How many bytes a line has, and the sum of the sizes with its field.
#[derive(Clone, Copy, Debug)]
struct Taken {
    len: usize,
    sum: u64,
}

/// The most bytes of memory that are kept while none wait.
const KEPT_ROOM: usize = 64;

/// Finds the prefix in the bytes, which continue those that wait, of which there may be at most `most`. If it is not whole
/// and the bytes are not the last, they all wait. On error what waits is unchanged.
fn find_prefix<I: EntryIndex, F: StoredField>(
    table: &DynamicTable<I, F>,
    last: bool,
    bytes: &[u8],
    most: usize,
    pending: &mut Vec<u8>,
) -> Result<Option<SectionPrefix>, SectionError>
    requires cut { 0 < prefix_missing pending.old.items }
    requires fits { length pending.old.items + length bytes.now ≤ most }
    requires little { pending.old.items ≡ [] → vec_capacity pending.old ≤ 64 }
    ensures finds { FindsPrefix (window table.now) last pending.old.items pending.new.items bytes.now result }
    ensures memory { result ≡ Err Memory → LacksRoomToWait
        (goes_on last (prefix_missing (pending.old.items ++ bytes.now))) (vec_capacity pending.old) pending.old.items
        bytes.now }
    ensures room { vec_capacity pending.new ≤ max (vec_capacity pending.old) most }
    ensures little { pending.new.items ≡ [] → vec_capacity pending.new ≤ 64 }
{
    let waited = pending.len();
    let found = gather_prefix(table, last, bytes, most, pending);
    if found.is_err() {
        cut_back(pending, waited);
    }
    found
}

/// Finds the prefix as `find_prefix` does. On error more bytes may wait.
fn gather_prefix<I: EntryIndex, F: StoredField>(
    table: &DynamicTable<I, F>,
    last: bool,
    bytes: &[u8],
    most: usize,
    pending: &mut Vec<u8>,
) -> Result<Option<SectionPrefix>, SectionError>
    requires cut { 0 < prefix_missing pending.old.items }
    requires fits { length pending.old.items + length bytes.now ≤ most }
    requires little { pending.old.items ≡ [] → vec_capacity pending.old ≤ 64 }
    ensures finds { GathersPrefix (window table.now) last pending.old.items pending.new.items bytes.now result }
    ensures memory { result ≡ Err Memory → LacksRoomToWait
        (goes_on last (prefix_missing (pending.old.items ++ bytes.now))) (vec_capacity pending.old) pending.old.items
        bytes.now }
    ensures room { vec_capacity pending.new ≤ max (vec_capacity pending.old) most }
    ensures little { IfOk result (λ found. pending.new.items ≡ [] → vec_capacity pending.new ≤ 64) }
{
    if !gather(Part::Prefix, last, bytes, most, pending)? {
        return Ok(None);
    }
    let prefix = read_prefix(table, front(pending, bytes))?;
    drop_all(pending);
    Ok(Some(prefix))
}

/// Finds the next line in the bytes, which continue those that wait, of which there may be at most `most`, and appends its
/// field. If it is not whole and the bytes are not the last, they all wait. On error what waits is unchanged.
fn find_line<I: EntryIndex, F: StoredField>(
    lines: &Lines<I, F>,
    sum: u64,
    last: bool,
    bytes: &[u8],
    most: usize,
    pending: &mut Vec<u8>,
    fields: &mut FieldSection,
) -> Result<Option<Taken>, LineError>
    requires cut { 0 < line_missing pending.old.items }
    requires some { 0 < length pending.old.items + length bytes.now }
    requires none { fields.old.fields ≡ [] }
    requires fits { length pending.old.items + length bytes.now ≤ most }
    requires little { pending.old.items ≡ [] → vec_capacity pending.old ≤ 64 }
    ensures finds { FindsLine (under lines.now 0) sum last pending.old.items pending.new.items bytes.now
        fields.new.fields result }
    ensures memory { result ≡ Err OutOfMemory → NeedsMemoryToFind last lines.now.limit (vec_capacity pending.old)
        pending.old.items bytes.now fields.old }
    ensures kept { vec_capacity pending.new ≤ max (vec_capacity pending.old) most }
    ensures little { pending.new.items ≡ [] → vec_capacity pending.new ≤ 64 }
    ensures room { GrowsWithin lines.now.limit fields.old fields.new }
{
    let waited = pending.len();
    let found = gather_line(lines, sum, last, bytes, most, pending, fields);
    if found.is_err() {
        cut_back(pending, waited);
    }
    found
}

/// Finds the next line as `find_line` does. On error more bytes may wait.
fn gather_line<I: EntryIndex, F: StoredField>(
    lines: &Lines<I, F>,
    sum: u64,
    last: bool,
    bytes: &[u8],
    most: usize,
    pending: &mut Vec<u8>,
    fields: &mut FieldSection,
) -> Result<Option<Taken>, LineError>
    requires cut { 0 < line_missing pending.old.items }
    requires some { 0 < length pending.old.items + length bytes.now }
    requires none { fields.old.fields ≡ [] }
    requires fits { length pending.old.items + length bytes.now ≤ most }
    requires little { pending.old.items ≡ [] → vec_capacity pending.old ≤ 64 }
    ensures finds { GathersLine (under lines.now 0) sum last pending.old.items pending.new.items bytes.now
        fields.new.fields result }
    ensures memory { result ≡ Err OutOfMemory → NeedsMemoryToFind last lines.now.limit (vec_capacity pending.old)
        pending.old.items bytes.now fields.old }
    ensures kept { vec_capacity pending.new ≤ max (vec_capacity pending.old) most }
    ensures little { IfOk result (λ found. pending.new.items ≡ [] → vec_capacity pending.new ≤ 64) }
    ensures room { GrowsWithin lines.now.limit fields.old fields.new }
{
    if !gather(Part::Line, last, bytes, most, pending)? {
        return Ok(None);
    }
    let mut buf = Cursor::new(front(pending, bytes));
    let sum = fields.read_line(lines, sum, &mut buf)?;
    let len = buf.position();
    drop_all(pending);
    Ok(Some(Taken { len, sum }))
}

/// Appends bytes to those that wait, until these hold the part. If none wait, and the bytes hold it or are the last, it
/// appends none. Returns whether the part can be read from what `front` returns; else all bytes were appended. On error
/// more bytes may wait.
fn gather(
    part: Part,
    last: bool,
    bytes: &[u8],
    most: usize,
    pending: &mut Vec<u8>,
) -> Result<bool, NoMemory>
    requires { length pending.old.items + length bytes.now ≤ most }
    ensures gathers { Gathers part last pending.old.items pending.new.items bytes.now result }
    ensures lacks { OnErr result (LacksRoomToWait (goes_on last (missing_in part (pending.old.items ++ bytes.now)))
        (vec_capacity pending.old) pending.old.items bytes.now) }
    ensures room { vec_capacity pending.new ≤ max (vec_capacity pending.old) most }
    ensures still { OnOk result (pending.new.items ≡ [] → vec_capacity pending.new ≡ vec_capacity pending.old) }
{
    if pending.is_empty() {
        if last || missing(part, bytes) == 0 {
            return Ok(true);
        }
        keep(bytes, most, pending)?;
        return Ok(false);
    }
    append_missing(part, bytes, most, pending)?;
    Ok(last || missing(part, pending) == 0)
}

/// Appends bytes to those that wait, until these hold the part or none is left.
fn append_missing(
    part: Part,
    bytes: &[u8],
    most: usize,
    pending: &mut Vec<u8>,
) -> Result<(), NoMemory>
    requires { length pending.old.items + length bytes.now ≤ most }
    ensures appends { AppendsMissing part pending.old.items pending.new.items bytes.now result }
    ensures lacks { OnErr result (vec_capacity pending.old < length pending.old.items + length bytes.now) }
    ensures room { vec_capacity pending.new ≤ max (vec_capacity pending.old) most }
{
    let mut rest = bytes;
    while !rest.is_empty() {
        let count = missing(part, pending).min(rest.len());
        if count == 0 {
            return Ok(());
        }
        keep(&rest[..count], most, pending)?;
        rest = &rest[count..];
    }
    Ok(())
}

/// Appends bytes to those that wait, of which there may be at most `most`. On error none is appended.
fn keep(bytes: &[u8], most: usize, pending: &mut Vec<u8>) -> Result<(), NoMemory>
    requires { length pending.old.items + length bytes.now ≤ most }
    ensures ok { OnOk result (pending.new.items ≡ pending.old.items ++ bytes.now) }
    ensures err { OnErr result (pending.new.items ≡ pending.old.items) }
    ensures lacks { OnErr result (vec_capacity pending.old < length pending.old.items + length bytes.now) }
    ensures kept { vec_capacity pending.old ≤ vec_capacity pending.new }
    ensures room { vec_capacity pending.new ≤ max (vec_capacity pending.old) most }
    ensures still { bytes.now ≡ [] → vec_capacity pending.new ≡ vec_capacity pending.old }
{
    if !bytes.is_empty() {
        append_within(bytes, most - pending.len(), pending)?;
    }
    Ok(())
}

/// Returns the bytes that are read: those that wait, or if none does those that come.
fn front<'a>(pending: &'a [u8], bytes: &'a [u8]) -> &'a [u8]
    ensures { result.now ≡ front_of pending.now bytes.now }
{
    if pending.is_empty() { bytes } else { pending }
}

/// Drops the bytes after the first ones, of which there are this many. If none is left, gives memory of more than
/// `KEPT_ROOM` bytes back.
fn cut_back(pending: &mut Vec<u8>, many: usize)
    ensures items { pending.new.items ≡ take many pending.old.items }
    ensures room { vec_capacity pending.new ≤ vec_capacity pending.old }
    ensures little { pending.new.items ≡ [] → vec_capacity pending.new ≤ 64 }
{
    pending.truncate(many);
    if pending.is_empty() {
        drop_all(pending);
    }
}

/// Drops all bytes that wait, and gives memory of more than `KEPT_ROOM` bytes back.
fn drop_all(pending: &mut Vec<u8>)
    ensures items { pending.new.items ≡ [] }
    ensures room { vec_capacity pending.new ≤ vec_capacity pending.old }
    ensures little { vec_capacity pending.new ≤ 64 }
{
    pending.clear();
    shrink_within(pending, KEPT_ROOM);
}

/// A section reads the same in pieces: whatever follows, each call under a table gives a part of what `read_section` reads
/// under it, as far as that reads sections of any length, and leaves the rest.
pub fn pieces_keep_the_reading()
    ensures { PiecesKeepTheReading }
{}

/// The table may change between calls. A section that tables read as the same fields, or with which they wait, leaves to
/// each what it reads of the rest. So calls under such tables give these fields in turn, and then the end: those of the
/// whole section, if `read_section` would read it under each, or wait.
pub fn pieces_give_the_section()
    ensures leave { PiecesLeaveTheReading }
    ensures fields { PiecesGiveTheFields }
    ensures section { PiecesGiveTheSection }
{}
