//! One line of an encoded field section, whichever form it has (RFC 9204, section 4.5).

ghost use Rattle.std.specs.Prelude.{◌≡◌, ◌/◌, ◌^◌, ◌<◌, ◌∷◌, drop, Err, IfErr, Some};
ghost use Rattle.qpack_spec.specs.Line.{SpellsLine, line_form, written_line};
ghost use Rattle.qpack_spec.specs.StrictReading.{is_never_indexed};
ghost use Rattle.qpack_base.specs.Writes.{Writes};
ghost use Rattle.qpack_base.specs.declared.prefix_string.Error.TheVariants.{Memory as NoRoom};
ghost use Rattle.qpack_base.specs.declared.parse_error.ParseError.TheVariants.{Memory};
ghost use Rattle.qpack_wire.specs.Answers.{Decodes, ReadsForm};
ghost use Rattle.qpack_wire.specs.BlockLines.{field_of_first, form_of_parts, line_of, table_of_bit, RefusesBlockLine};
ghost use Rattle.qpack_wire.specs.BlockLines.{line_at, index_size, name_index_size};
ghost use Rattle.qpack_wire.specs.Memory.{AsksForMemory};

use crate::block::indexes::{
    INDEXED_DYNAMIC, INDEXED_SIZE, Indexed, IndexedWithPostBase, POST_BASE, POST_BASE_SIZE,
};
use crate::block::literals::{
    LITERAL, LITERAL_SIZE, Literal, LiteralWithNameRef, LiteralWithPostBaseNameRef, NAMED_DYNAMIC,
    NAMED_SIZE, POST_BASE_NAMED_SIZE,
};
use qpack_base::coding::Cursor;
use qpack_base::parse_error::ParseError;
use qpack_base::{prefix_int, prefix_string};
use std::alloc::{Allocator, Global};

/// The form of a line, which its first byte determines.
#[derive(Debug, PartialEq, Drop)]
pub enum HeaderBlockField {
    /// `1T`: an indexed field line (section 4.5.2).
    Indexed,
    /// `0001`: an indexed field line with a post-base index (section 4.5.3).
    IndexedWithPostBase,
    /// `01NT`: a literal field line with a name reference (section 4.5.4).
    LiteralWithNameRef,
    /// `0000N`: a literal field line with a post-base name reference (section 4.5.5).
    LiteralWithPostBaseNameRef,
    /// `001NH`: a literal field line with a literal name (section 4.5.6).
    Literal,
    /// Kept from the original, and never returned: every byte begins a form.
    Unknown,
}

impl HeaderBlockField {
    /// Returns the form of a line that begins with this byte.
    pub fn decode(first: u8) -> HeaderBlockField
        ensures { result ≡ field_of_first first }
    {
        if first >= INDEXED_DYNAMIC << INDEXED_SIZE {
            HeaderBlockField::Indexed
        } else if first >= NAMED_DYNAMIC << NAMED_SIZE {
            HeaderBlockField::LiteralWithNameRef
        } else if first >= LITERAL << LITERAL_SIZE {
            HeaderBlockField::Literal
        } else if first >= POST_BASE << POST_BASE_SIZE {
            HeaderBlockField::IndexedWithPostBase
        } else {
            HeaderBlockField::LiteralWithPostBaseNameRef
        }
    }
}

/// What an index of a field line counts (RFC 9204, sections 3.1, 3.2.5 and 3.2.6).
#[derive(Clone, Copy, Debug)]
pub enum Reference {
    /// The fields of the static table.
    Static,
    /// The entries of the dynamic table, down from the base.
    Relative,
    /// Those after the base, up from it.
    PostBase,
}

impl Reference {
    /// Returns how many bits the prefix of an index has in an indexed field line (sections 4.5.2 and 4.5.3).
    #[inline(always)]
    pub fn index_size(self) -> u8
        ensures { result ≡ index_size self }
    {
        match self {
            Reference::Static | Reference::Relative => INDEXED_SIZE,
            Reference::PostBase => POST_BASE_SIZE,
        }
    }

    /// Returns how many bits the prefix of a name's index has in a literal field line (sections 4.5.4 and 4.5.5).
    #[inline(always)]
    pub fn name_index_size(self) -> u8
        ensures { result ≡ name_index_size self }
    {
        match self {
            Reference::Static | Reference::Relative => NAMED_SIZE,
            Reference::PostBase => POST_BASE_NAMED_SIZE,
        }
    }
}

/// What a field line is made of.
#[derive(Clone, Copy, Debug)]
pub enum LineParts {
    /// The index of a field (sections 4.5.2 and 4.5.3).
    Index(Reference),
    /// The index of a name, and a value (sections 4.5.4 and 4.5.5).
    IndexAndValue(Reference),
    /// A name and a value (section 4.5.6).
    NameAndValue,
}

impl LineParts {
    /// Returns what a line is made of that begins with this byte.
    #[inline(always)]
    #[tactic(auto, unfolding(qpack_spec::specs::Line::line_form))]
    pub fn of(first: u8) -> LineParts
        ensures { line_form first ≡ Some (form_of_parts result) }
    {
        match HeaderBlockField::decode(first) {
            HeaderBlockField::Indexed => LineParts::Index(table_of_bit(first, INDEXED_SIZE)),
            HeaderBlockField::IndexedWithPostBase => LineParts::Index(Reference::PostBase),
            HeaderBlockField::LiteralWithNameRef => {
                LineParts::IndexAndValue(table_of_bit(first, NAMED_SIZE))
            }
            HeaderBlockField::LiteralWithPostBaseNameRef => {
                LineParts::IndexAndValue(Reference::PostBase)
            }
            HeaderBlockField::Literal | HeaderBlockField::Unknown => LineParts::NameAndValue,
        }
    }
}

/// Returns which table an index counts, by the bit above its prefix of `size` bits.
#[inline(always)]
fn table_of_bit(first: u8, size: u8) -> Reference
    requires { size < 8 }
    ensures { result ≡ table_of_bit (first / 2 ^ size) }
{
    if (first >> size) % 2 == 1 {
        Reference::Static
    } else {
        Reference::Relative
    }
}

/// Whether the first byte of a line asks that its field stay a literal (sections 4.5.4 to 4.5.6).
#[inline(always)]
#[tactic(auto, unfolding(qpack_spec::specs::StrictReading::is_never_indexed))]
pub fn is_never_indexed(first: u8) -> bool
    ensures { result ≡ is_never_indexed first }
{
    match HeaderBlockField::decode(first) {
        HeaderBlockField::LiteralWithNameRef => (first >> NAMED_SIZE) / 2 % 2 == 1,
        HeaderBlockField::LiteralWithPostBaseNameRef => (first >> POST_BASE_NAMED_SIZE) % 2 == 1,
        HeaderBlockField::Literal => (first >> LITERAL_SIZE) % 2 == 1,
        _ => false,
    }
}

/// A line in any of the five forms.
#[derive(Debug, PartialEq, Drop)]
pub enum BlockLine {
    /// An index, of the static table or relative to the base.
    Indexed(Indexed),
    /// An index after the base.
    IndexedWithPostBase(IndexedWithPostBase),
    /// A name's index, of the static table or relative to the base, and a value.
    LiteralWithNameRef(LiteralWithNameRef),
    /// A name's index after the base, and a value.
    LiteralWithPostBaseNameRef(LiteralWithPostBaseNameRef),
    /// A name and a value.
    Literal(Literal),
}

impl BlockLine {
    /// Reads the line at the cursor, in the form that its first byte determines. On error the cursor's position is
    /// unspecified.
    #[inline(always)]
    pub fn decode(alloc: Global, buf: &mut Cursor) -> Result<BlockLine, ParseError>
        ensures decodes { Decodes line_of SpellsLine RefusesBlockLine buf.old buf.new result }
        // Memory is refused only if a string is whole and its payload is not empty.
        ensures memory { result ≡ Err Memory → AsksForMemory line_form buf.old.rest }
        // The clauses above as one function, which reads from left to right.
        ensures exact { ReadsForm line_of buf.old buf.new result (line_at buf.old.rest) }
    {
        read_line(alloc, buf)
    }

    /// Appends the written spelling of the line. On error the vector is unchanged; with free room for the spelling it
    /// succeeds and takes no memory.
    pub fn encode<A: Allocator>(&self, buf: &mut Vec<u8, A>) -> Result<(), prefix_string::Error>
        ensures writes { Writes (written_line (line_of self.now)) buf.old buf.new result }
        ensures memory { IfErr result (λ e. e ≡ NoRoom) }
    {
        match self {
            BlockLine::Indexed(line) => Ok(line.encode(buf)?),
            BlockLine::IndexedWithPostBase(line) => Ok(line.encode(buf)?),
            BlockLine::LiteralWithNameRef(line) => line.encode(buf),
            BlockLine::LiteralWithPostBaseNameRef(line) => line.encode(buf),
            BlockLine::Literal(line) => line.encode(buf),
        }
    }
}

#[inline(always)]
#[tactic(auto, using(crate::proofs::BlockLines::line_of_nothing))]
fn read_line(alloc: Global, buf: &mut Cursor) -> Result<BlockLine, ParseError>
    ensures exact { ReadsForm line_of buf.old buf.new result (line_at buf.old.rest) }
    ensures memory { result ≡ Err Memory → AsksForMemory line_form buf.old.rest }
{
    let Some((first, _)) = buf.chunk().split_first() else {
        return Err(ParseError::Integer(prefix_int::Error::UnexpectedEnd));
    };
    read_line_of(alloc, *first, buf)
}

/// Reads the line, which begins with this byte.
#[inline(always)]
#[tactic(auto, using(crate::proofs::BlockLines::lines_by_first))]
fn read_line_of(alloc: Global, first: u8, buf: &mut Cursor) -> Result<BlockLine, ParseError>
    requires { buf.old.rest ≡ first ∷ drop 1 buf.old.rest }
    ensures exact { ReadsForm line_of buf.old buf.new result (line_at buf.old.rest) }
    ensures memory { result ≡ Err Memory → AsksForMemory line_form buf.old.rest }
{
    match HeaderBlockField::decode(first) {
        HeaderBlockField::Indexed => Ok(BlockLine::Indexed(Indexed::decode(buf)?)),
        HeaderBlockField::IndexedWithPostBase => {
            Ok(BlockLine::IndexedWithPostBase(IndexedWithPostBase::decode(buf)?))
        }
        HeaderBlockField::LiteralWithNameRef => {
            Ok(BlockLine::LiteralWithNameRef(LiteralWithNameRef::decode(alloc, buf)?))
        }
        HeaderBlockField::LiteralWithPostBaseNameRef => {
            Ok(BlockLine::LiteralWithPostBaseNameRef(LiteralWithPostBaseNameRef::decode(
                alloc, buf,
            )?))
        }
        HeaderBlockField::Literal => Ok(BlockLine::Literal(Literal::decode(alloc, buf)?)),
        HeaderBlockField::Unknown => Err(ParseError::InvalidPrefix(first)),
    }
}
