//! Field sections, read strictly and up to a limit on their fields' sizes (RFC 9204, sections 2.2 and 4.5).

ghost use Rattle.std.specs.Prelude.{◌≡◌, ◌-◌, ◌^◌, ◌&&◌, [], Ok, OnOk, min, nat_eq, nat_lt, Err};
ghost use Rattle.qpack_spec.specs.Bytes.{Begins};
ghost use Rattle.qpack_spec.specs.LengthLaws.{longest_section as longest};
ghost use Rattle.qpack_spec.specs.StrictReading.{strict_reading, strict_section_behind};
ghost use Rattle.qpack_spec.specs.Table.{window};
ghost use Rattle.qpack_wire.specs.Memory.{AsksLine, AsksSectionForMemory};
ghost use Rattle.qpack_wire.specs.Prefixes.{prefix_of};
ghost use Rattle.qpack_decoding.specs.FieldSections.{GrowsWithin, IsRoomWithin, LacksRoomWithin};
ghost use Rattle.qpack_decoding.specs.Lines.{line_error_of};
ghost use Rattle.qpack_decoding.specs.Sections.{ReadsSection, ReadsInto, section_error_of, code_of, line_code_of};
ghost use Rattle.qpack_decoding.specs.SectionPrefixes.{GivesNumbers, GivesPrefix, PrefixSaysWhatWaits};
ghost use Rattle.qpack_decoding.specs.SectionPrefixes.{strict_numbers, strict_prefix};
ghost use Rattle.qpack_decoding.specs.declared.section.SectionError.TheVariants.{Memory};

use crate::field_section::FieldSection;
use qpack_base::coding::{Cursor, NoMemory};
use qpack_base::parse_error::ParseError;
use qpack_base::stored_field::StoredField;
use qpack_codec::DecoderError;
use qpack_table::dynamic::{DynamicTable, EntryIndex};
use qpack_wire::block::HeaderPrefix;
use thiserror::Error;

mod lines;
mod missing;
pub mod reader;

pub(crate) use crate::section::lines::{Lines, at_line, read_line, read_lines};

/// The result of reading a section.
#[derive(Clone, Copy, Debug, PartialEq, Eq)]
pub enum Reading {
    /// The fields, which are in the field section.
    Fields {
        /// The required insert count of the section, 0 if it references no entry.
        required: usize,
    },
    /// It waits for insertions; it can be read again once they are received.
    Blocked {
        /// How many insertions must be received.
        required: usize,
    },
}

/// What the prefix of a section says (RFC 9204, section 4.5.1).
#[derive(Clone, Copy, Debug, PartialEq, Eq)]
pub struct SectionPrefix {
    /// The required insert count: how many insertions must be received before the section can be read, 0 if it
    /// references no entry.
    pub required: usize,
    /// The base, from which its lines count the entries that they reference.
    pub base: usize,
    /// How many bytes the prefix takes.
    pub length: usize,
}

/// Why a line gives no field.
#[derive(Clone, Copy, Debug, PartialEq, Drop, Error)]
pub enum LineError {
    /// Its bytes are malformed, or it references no entry or static field.
    #[error("{0}")]
    Meaningless(DecoderError),
    /// It references an entry past the required insert count of its section (RFC 9204, section 2.2.3): the one of this
    /// absolute index, from 1.
    #[error("reference to entry {0}, past the required insert count")]
    PastRequired(usize),
    /// With its field the sizes sum to this many bytes, which passes the limit.
    #[error("field section of {0} bytes or more")]
    TooLarge(u64),
    /// No memory was left.
    #[error("out of memory")]
    Memory,
}

/// Why a section gives no fields.
#[derive(Clone, Copy, Debug, PartialEq, Drop, Error)]
pub enum SectionError {
    /// It is longer than any section whose fields are within the limit; it was not read.
    #[error("field section too long")]
    TooLong,
    /// Its prefix can't be read, or is out of range (RFC 9204, section 4.5.1).
    #[error("in the prefix: {0}")]
    Prefix(DecoderError),
    /// Its prefix has a required insert count, and the maximum capacity is 0 (RFC 9204, section 4.5.1.1).
    #[error("a required insert count at maximum capacity 0")]
    CountAtZero,
    /// A line gives no field.
    #[error("in line {number} at offset {offset}: {error}")]
    Line {
        /// The line's number, from 1.
        number: usize,
        /// Where the line begins, in bytes from the section's start.
        offset: usize,
        /// Why.
        error: LineError,
    },
    /// No memory was left.
    #[error("out of memory")]
    Memory,
}

/// QPACK_DECOMPRESSION_FAILED: a field section can't be interpreted (RFC 9204, section 6).
pub const DECOMPRESSION_FAILED: u64 = 0x200;

impl SectionError {
    /// Returns the code of the error that ends the connection (RFC 9204, section 6), or `None` for the reader's own
    /// errors: its limit, and out of memory.
    pub fn code(&self) -> Option<u64>
        ensures { result ≡ code_of self.now }
    {
        match self {
            SectionError::TooLong | SectionError::Memory => None,
            SectionError::Prefix(_) | SectionError::CountAtZero => Some(DECOMPRESSION_FAILED),
            SectionError::Line { error, .. } => error.code(),
        }
    }
}

impl LineError {
    /// Returns the code of the error that ends the connection (RFC 9204, section 6), or `None` for the reader's own
    /// errors: its limit, and out of memory.
    pub fn code(&self) -> Option<u64>
        ensures { result ≡ line_code_of self.now }
    {
        match self {
            LineError::Meaningless(_) | LineError::PastRequired(_) => Some(DECOMPRESSION_FAILED),
            LineError::TooLarge(_) | LineError::Memory => None,
        }
    }
}

impl From<DecoderError> for LineError {
    ghost from_gives = { λ e r. r ≡ line_error_of e };

    fn from(e: DecoderError) -> LineError {
        match e {
            DecoderError::Memory => LineError::Memory,
            e => LineError::Meaningless(e),
        }
    }
}

impl From<ParseError> for SectionError {
    ghost from_gives = { λ e r. r ≡ section_error_of e };

    /// Returns the error of a prefix.
    fn from(e: ParseError) -> SectionError {
        match DecoderError::from(e) {
            DecoderError::Memory => SectionError::Memory,
            e => SectionError::Prefix(e),
        }
    }
}

impl From<NoMemory> for SectionError {
    ghost from_gives = { λ _ r. r ≡ Memory };

    fn from(_e: NoMemory) -> SectionError {
        SectionError::Memory
    }
}

/// Returns the most bytes that a section can have whose fields' sizes sum to this many, at most 2^64 - 1.
pub fn longest_section(size: u64) -> u64
    ensures { result ≡ min (longest size) (2 ^ 64 - 1) }
{
    size.saturating_mul(4).saturating_add(20)
}

/// Reads a section under a table, strictly, and up to a limit on the sum of its fields' sizes in bytes (RFC 9204,
/// section 3.2.1). It first empties the field section, which stays empty unless `Reading::Fields` is returned. It
/// appends nothing that exceeds the limit: under a limit of n bytes the field section grows to at most 7n / 4 bytes.
/// With room for n bytes of text and for n / 32 fields it asks for no memory.
///
/// # Errors
///
/// Rejects, checking in this order, a section longer than any within the limit, unread (`TooLong`); bytes that are no
/// prefix (`Prefix`); a count if the maximum capacity is 0 (`CountAtZero`); a prefix that is out of range, or a base
/// below 0 (`Prefix`); and line by line (`Line`) its bytes, a reference past the required insert count, what it
/// references, and the sum of sizes. If the required insert count exceeds the insertions that were received, it returns
/// `Reading::Blocked` and does not read the lines.
pub fn read_section<I: EntryIndex, F: StoredField>(
    table: &DynamicTable<I, F>,
    section: &[u8],
    limit: u64,
    fields: &mut FieldSection,
) -> Result<Reading, SectionError>
    ensures exact { ReadsSection result fields.new.fields (strict_reading (window table.now) limit section.now) }
    // Memory is refused only if a prefix is followed by a whole line, or by a string whose payload is not empty,
    ensures memory { result ≡ Err Memory → AsksSectionForMemory section.now }
    // and only if `fields` has less room than a section within the limit can use.
    ensures lacks { result ≡ Err Memory → LacksRoomWithin limit fields.old }
    ensures room { IsRoomWithin limit fields.old fields.new }
    // Memory is given back only if a section is rejected, and only what one within the limit can't use.
    ensures kept { OnOk result (GrowsWithin limit fields.old fields.new) }
{
    fields.clear();
    let reading = read_into(table, section, limit, fields);
    if reading.is_err() {
        fields.clear_within(limit);
    }
    reading
}

/// Reads as `read_section` does, into a field section without fields. On error it may have the fields read so far.
#[tactic(auto, unfolding(qpack_spec::specs::StrictReading::strict_reading))]
fn read_into<I: EntryIndex, F: StoredField>(
    table: &DynamicTable<I, F>,
    section: &[u8],
    limit: u64,
    fields: &mut FieldSection,
) -> Result<Reading, SectionError>
    requires { fields.old.fields ≡ [] }
    ensures exact { ReadsInto result fields.new.fields (strict_reading (window table.now) limit section.now) }
    ensures memory { result ≡ Err Memory → AsksSectionForMemory section.now }
    ensures lacks { result ≡ Err Memory → LacksRoomWithin limit fields.old }
    ensures room { GrowsWithin limit fields.old fields.new }
{
    if section.len() as u64 > longest_section(limit) {
        return Err(SectionError::TooLong);
    }
    let mut buf = Cursor::new(section);
    let prefix = HeaderPrefix::decode(&mut buf)?;
    read_behind(table, prefix, limit, &mut buf, fields)
}

/// Reads the lines after the prefix, if the prefix permits it.
fn read_behind<I: EntryIndex, F: StoredField>(
    table: &DynamicTable<I, F>,
    prefix: HeaderPrefix,
    limit: u64,
    buf: &mut Cursor,
    fields: &mut FieldSection,
) -> Result<Reading, SectionError>
    requires { fields.old.fields ≡ [] }
    ensures exact { ReadsInto result fields.new.fields (strict_section_behind (window table.now) limit buf.old.total
        (Ok (prefix_of prefix, buf.old.rest))) }
    ensures memory { result ≡ Err Memory → Begins AsksLine buf.old.rest }
    ensures lacks { result ≡ Err Memory → LacksRoomWithin limit fields.old }
    ensures room { GrowsWithin limit fields.old fields.new }
{
    let (required, base) = read_numbers(table, prefix)?;
    if required > table.total_inserted() {
        return Ok(Reading::Blocked { required });
    }
    let lines = Lines {
        table,
        base,
        required,
        limit,
    };
    fields.read_lines(&lines, buf)?;
    Ok(Reading::Fields { required })
}

/// Returns what the prefix of a section says under a table, read strictly. The rest of the section may be missing. It
/// takes no memory.
///
/// # Errors
///
/// Rejects bytes that are no prefix (`Prefix`), a count if the maximum capacity is 0 (`CountAtZero`), and a prefix that
/// is out of range, or a base below 0 (`Prefix`).
#[tactic(auto, unfolding(crate::specs::SectionPrefixes::strict_prefix))]
pub fn read_prefix<I: EntryIndex, F: StoredField>(
    table: &DynamicTable<I, F>,
    section: &[u8],
) -> Result<SectionPrefix, SectionError>
    ensures { GivesPrefix result (strict_prefix (window table.now) section.now) }
{
    let mut buf = Cursor::new(section);
    let prefix = HeaderPrefix::decode(&mut buf)?;
    let (required, base) = read_numbers(table, prefix)?;
    Ok(SectionPrefix {
        required,
        base,
        length: buf.position(),
    })
}

/// The prefix alone says whether a section waits, and for how many insertions: so `read_section` reads each section that
/// is not too long.
pub fn prefix_says_what_waits()
    ensures { PrefixSaysWhatWaits }
{}

/// Returns the required insert count and the base of a prefix under a table.
fn read_numbers<I: EntryIndex, F: StoredField>(
    table: &DynamicTable<I, F>,
    prefix: HeaderPrefix,
) -> Result<(usize, usize), SectionError>
    ensures { GivesNumbers result (strict_numbers (window table.now) (prefix_of prefix)) }
{
    let maximum = table.agreed_max();
    if counts_at_zero(&prefix, maximum) {
        return Err(SectionError::CountAtZero);
    }
    Ok(prefix.get_strict(table.total_inserted(), maximum)?)
}

/// Returns whether a prefix has a count if the maximum capacity is 0 (RFC 9204, section 4.5.1.1).
fn counts_at_zero(prefix: &HeaderPrefix, maximum: usize) -> bool
    ensures { result ≡ (nat_eq maximum 0 && nat_lt 0 (prefix_of prefix.now).count) }
{
    maximum == 0 && prefix.encoded_insert_count() > 0
}
