//! Lines with a literal value (RFC 9204, sections 4.5.4 to 4.5.6).

ghost use Rattle.std.specs.Prelude.{◌≡◌, Err, IfErr};
ghost use Rattle.qpack_spec.specs.Line.{NamedStatic, NamedDynamic, NamedPostBase, Literal as LiteralLine, written_line};
ghost use Rattle.qpack_spec.specs.Line.{coded_marked_line};
ghost use Rattle.qpack_base.specs.Codings.{coding_of};
ghost use Rattle.qpack_base.specs.Writes.{Writes};
ghost use Rattle.qpack_base.specs.declared.prefix_string.Error.TheVariants.{Memory as NoRoom};
ghost use Rattle.qpack_base.specs.declared.parse_error.ParseError.TheVariants.{Memory};
ghost use Rattle.qpack_wire.specs.Alone.{form_for, SpellsKind, RefusesKind, kind_at};
ghost use Rattle.qpack_wire.specs.Answers.{Decodes, ReadsForm};
ghost use Rattle.qpack_wire.specs.Lines.{literal_with_name_ref, literal_with_post_base_name_ref, literal};
ghost use Rattle.qpack_wire.specs.Lines.{line_of_literal_with_name_ref, line_of_literal_with_post_base_name_ref};
ghost use Rattle.qpack_wire.specs.Lines.{line_of_literal};
ghost use Rattle.qpack_wire.specs.Memory.{AsksForMemory, AsksAt};

use crate::form::{VALUE_SIZE, put_index_and_value, put_name_and_value};
use qpack_base::coding::Cursor;
use qpack_base::parse_error::ParseError;
use qpack_base::prefix_string::Coding;
use qpack_base::{prefix_int, prefix_string};
use std::alloc::{Allocator, Global};

// RFC 9204, section 4.5.4:
//   0   1   2   3   4   5   6   7
// +---+---+---+---+---+---+---+---+
// | 0 | 1 | N | T |Name Index (4+)|
// +---+---+---+---+---------------+
// | H |     Value Length (7+)     |
// +---+---------------------------+
// |  Value String (Length bytes)  |
// +-------------------------------+
// N asks that the field never be indexed: reading drops it, and a writer sets it as its caller says. T is 1 for the
// static table.
pub(crate) const NAMED_SIZE: u8 = 4;

pub(crate) const NAMED_DYNAMIC: u8 = 0b0100;

const NAMED_STATIC: u8 = 0b0101;

const NAMED_DYNAMIC_NEVER_INDEXED: u8 = 0b0110;

const NAMED_STATIC_NEVER_INDEXED: u8 = 0b0111;

/// A value with the name of a field of the static table, or of an entry of the dynamic table, counted down from the
/// base.
#[derive(Debug, PartialEq, Drop)]
pub enum LiteralWithNameRef {
    /// The name of a field of the static table.
    Static {
        /// The index in the static table.
        index: usize,
        /// The value.
        value: Vec<u8>,
    },
    /// The name of an entry of the dynamic table.
    Dynamic {
        /// The relative index in the dynamic table.
        index: usize,
        /// The value.
        value: Vec<u8>,
    },
}

impl LiteralWithNameRef {
    /// Returns a value with a name of the static table.
    pub fn new_static(index: usize, value: Vec<u8>) -> LiteralWithNameRef
        ensures { line_of_literal_with_name_ref result ≡ NamedStatic index value.items }
    {
        LiteralWithNameRef::Static { index, value }
    }

    /// Returns a value with a name of the dynamic table.
    pub fn new_dynamic(index: usize, value: Vec<u8>) -> LiteralWithNameRef
        ensures { line_of_literal_with_name_ref result ≡ NamedDynamic index value.items }
    {
        LiteralWithNameRef::Dynamic { index, value }
    }

    /// Reads such a line at the cursor. On error the cursor's position is unspecified.
    #[inline(always)]
    pub fn decode(alloc: Global, buf: &mut Cursor) -> Result<LiteralWithNameRef, ParseError>
        ensures decodes { Decodes line_of_literal_with_name_ref (SpellsKind literal_with_name_ref)
            (RefusesKind literal_with_name_ref) buf.old buf.new result }
        // Memory is refused only if a string is whole and its payload is not empty.
        ensures memory { result ≡ Err Memory → AsksForMemory (form_for literal_with_name_ref) buf.old.rest }
        // The clauses above as one function, which reads from left to right.
        ensures exact { ReadsForm line_of_literal_with_name_ref buf.old buf.new result
            (kind_at literal_with_name_ref buf.old.rest) }
    {
        read_literal_with_name_ref(alloc, buf)
    }

    /// Appends the written spelling of the line, whose N is 0. On error the vector is unchanged; with free room for the
    /// spelling it succeeds and takes no memory.
    pub fn encode<A: Allocator>(&self, buf: &mut Vec<u8, A>) -> Result<(), prefix_string::Error>
        ensures writes { Writes (written_line (line_of_literal_with_name_ref self.now)) buf.old buf.new result }
        ensures memory { IfErr result (λ e. e ≡ NoRoom) }
    {
        match self {
            LiteralWithNameRef::Static { index, value } => {
                LiteralWithNameRef::write_static(*index, value, buf)
            }
            LiteralWithNameRef::Dynamic { index, value } => {
                LiteralWithNameRef::write_dynamic(*index, value, buf)
            }
        }
    }

    /// Appends the written spelling of a line with a borrowed value and a name of the static table, as `encode` does.
    #[inline(always)]
    #[tactic(auto, unfolding(qpack_spec::specs::Line::coded_marked_line, qpack_spec::specs::Line::coded_line))]
    pub fn write_static<A: Allocator>(
        index: usize,
        value: &[u8],
        buf: &mut Vec<u8, A>,
    ) -> Result<(), prefix_string::Error>
        ensures writes { Writes (written_line (NamedStatic index value.now)) buf.old buf.new result }
        ensures memory { IfErr result (λ e. e ≡ NoRoom) }
    {
        LiteralWithNameRef::write_static_marked(Coding::Always, index, value, false, buf)
    }

    /// Appends the line as `write_static` does; N is 1 if the field is never to be indexed (RFC 9204, section 7.1.3). The
    /// coding says which strings are coded.
    #[inline(always)]
    #[tactic(auto, unfolding(qpack_spec::specs::Line::coded_marked_line, qpack_spec::specs::Line::coded_line))]
    pub fn write_static_marked<A: Allocator>(
        coding: Coding,
        index: usize,
        value: &[u8],
        never_indexed: bool,
        buf: &mut Vec<u8, A>,
    ) -> Result<(), prefix_string::Error>
        ensures writes { Writes (coded_marked_line (coding_of coding) never_indexed (NamedStatic index value.now))
            buf.old buf.new result }
        ensures memory { IfErr result (λ e. e ≡ NoRoom) }
    {
        let flags = if never_indexed {
            NAMED_STATIC_NEVER_INDEXED
        } else {
            NAMED_STATIC
        };
        put_index_and_value(coding, NAMED_SIZE, flags, index as u64, value, buf)
    }

    /// Appends the written spelling of a line with a borrowed value and a name of the dynamic table, as `encode` does.
    #[inline(always)]
    #[tactic(auto, unfolding(qpack_spec::specs::Line::coded_marked_line, qpack_spec::specs::Line::coded_line))]
    pub fn write_dynamic<A: Allocator>(
        index: usize,
        value: &[u8],
        buf: &mut Vec<u8, A>,
    ) -> Result<(), prefix_string::Error>
        ensures writes { Writes (written_line (NamedDynamic index value.now)) buf.old buf.new result }
        ensures memory { IfErr result (λ e. e ≡ NoRoom) }
    {
        LiteralWithNameRef::write_dynamic_marked(Coding::Always, index, value, false, buf)
    }

    /// Appends the line as `write_dynamic` does; N is 1 if the field is never to be indexed (RFC 9204, section 7.1.3). The
    /// coding says which strings are coded.
    #[inline(always)]
    #[tactic(auto, unfolding(qpack_spec::specs::Line::coded_marked_line, qpack_spec::specs::Line::coded_line))]
    pub fn write_dynamic_marked<A: Allocator>(
        coding: Coding,
        index: usize,
        value: &[u8],
        never_indexed: bool,
        buf: &mut Vec<u8, A>,
    ) -> Result<(), prefix_string::Error>
        ensures writes { Writes (coded_marked_line (coding_of coding) never_indexed (NamedDynamic index value.now))
            buf.old buf.new result }
        ensures memory { IfErr result (λ e. e ≡ NoRoom) }
    {
        let flags = if never_indexed {
            NAMED_DYNAMIC_NEVER_INDEXED
        } else {
            NAMED_DYNAMIC
        };
        put_index_and_value(coding, NAMED_SIZE, flags, index as u64, value, buf)
    }
}

#[inline(always)]
#[tactic(auto, unfolding(crate::specs::Alone::kind_at, qpack_spec::specs::Form::made_at))]
fn read_literal_with_name_ref(
    alloc: Global,
    buf: &mut Cursor,
) -> Result<LiteralWithNameRef, ParseError>
    ensures exact { ReadsForm line_of_literal_with_name_ref buf.old buf.new result
        (kind_at literal_with_name_ref buf.old.rest) }
    ensures memory { result ≡ Err Memory → AsksAt literal_with_name_ref buf.old.rest }
{
    let (flags, index) = prefix_int::decode(NAMED_SIZE, buf)?;
    let is_static = match flags {
        NAMED_STATIC | NAMED_STATIC_NEVER_INDEXED => true,
        NAMED_DYNAMIC | NAMED_DYNAMIC_NEVER_INDEXED => false,
        _ => return Err(ParseError::InvalidPrefix(flags)),
    };
    let index = index as usize;
    let value = prefix_string::decode(alloc, VALUE_SIZE, buf)?;
    if is_static {
        Ok(LiteralWithNameRef::Static { index, value })
    } else {
        Ok(LiteralWithNameRef::Dynamic { index, value })
    }
}

// RFC 9204, section 4.5.5:
//   0   1   2   3   4   5   6   7
// +---+---+---+---+---+---+---+---+
// | 0 | 0 | 0 | 0 | N |NameIdx(3+)|
// +---+---+---+---+---+-----------+
// | H |     Value Length (7+)     |
// +---+---------------------------+
// |  Value String (Length bytes)  |
// +-------------------------------+
pub(crate) const POST_BASE_NAMED_SIZE: u8 = 3;

pub(crate) const POST_BASE_NAMED: u8 = 0b00000;

const POST_BASE_NAMED_NEVER_INDEXED: u8 = 0b00001;

/// A value with the name of an entry of the dynamic table, counted up from the base.
#[derive(Debug, PartialEq, Drop)]
pub struct LiteralWithPostBaseNameRef {
    /// The post-base index in the dynamic table.
    pub index: usize,
    /// The value.
    pub value: Vec<u8>,
}

impl LiteralWithPostBaseNameRef {
    /// Returns a value with this name.
    pub fn new(index: usize, value: Vec<u8>) -> LiteralWithPostBaseNameRef
        ensures { line_of_literal_with_post_base_name_ref result ≡ NamedPostBase index value.items }
    {
        LiteralWithPostBaseNameRef { index, value }
    }

    /// Reads such a line at the cursor. On error the cursor's position is unspecified.
    #[inline(always)]
    pub fn decode(alloc: Global, buf: &mut Cursor) -> Result<LiteralWithPostBaseNameRef, ParseError>
        ensures decodes { Decodes line_of_literal_with_post_base_name_ref (SpellsKind literal_with_post_base_name_ref)
            (RefusesKind literal_with_post_base_name_ref) buf.old buf.new result }
        // Memory is refused only if a string is whole and its payload is not empty.
        ensures memory { result ≡ Err Memory → AsksForMemory (form_for literal_with_post_base_name_ref) buf.old.rest }
        // The clauses above as one function, which reads from left to right.
        ensures exact { ReadsForm line_of_literal_with_post_base_name_ref buf.old buf.new result
            (kind_at literal_with_post_base_name_ref buf.old.rest) }
    {
        read_literal_with_post_base_name_ref(alloc, buf)
    }

    /// Appends the written spelling of the line, whose N is 0. On error the vector is unchanged; with free room for the
    /// spelling it succeeds and takes no memory.
    pub fn encode<A: Allocator>(&self, buf: &mut Vec<u8, A>) -> Result<(), prefix_string::Error>
        ensures writes { Writes (written_line (line_of_literal_with_post_base_name_ref self.now))
            buf.old buf.new result }
        ensures memory { IfErr result (λ e. e ≡ NoRoom) }
    {
        LiteralWithPostBaseNameRef::write(self.index, &self.value, buf)
    }

    /// Appends the written spelling of a line with a borrowed value, as `encode` does.
    #[inline(always)]
    #[tactic(auto, unfolding(qpack_spec::specs::Line::coded_marked_line, qpack_spec::specs::Line::coded_line))]
    pub fn write<A: Allocator>(
        index: usize,
        value: &[u8],
        buf: &mut Vec<u8, A>,
    ) -> Result<(), prefix_string::Error>
        ensures writes { Writes (written_line (NamedPostBase index value.now)) buf.old buf.new result }
        ensures memory { IfErr result (λ e. e ≡ NoRoom) }
    {
        LiteralWithPostBaseNameRef::write_marked(Coding::Always, index, value, false, buf)
    }

    /// Appends the line as `write` does; N is 1 if the field is never to be indexed (RFC 9204, section 7.1.3). The
    /// coding says which strings are coded.
    #[inline(always)]
    #[tactic(auto, unfolding(qpack_spec::specs::Line::coded_marked_line, qpack_spec::specs::Line::coded_line))]
    pub fn write_marked<A: Allocator>(
        coding: Coding,
        index: usize,
        value: &[u8],
        never_indexed: bool,
        buf: &mut Vec<u8, A>,
    ) -> Result<(), prefix_string::Error>
        ensures writes { Writes (coded_marked_line (coding_of coding) never_indexed (NamedPostBase index value.now))
            buf.old buf.new result }
        ensures memory { IfErr result (λ e. e ≡ NoRoom) }
    {
        let flags = if never_indexed {
            POST_BASE_NAMED_NEVER_INDEXED
        } else {
            POST_BASE_NAMED
        };
        put_index_and_value(
            coding,
            POST_BASE_NAMED_SIZE,
            flags,
            index as u64,
            value,
            buf,
        )
    }
}

#[inline(always)]
#[tactic(auto, unfolding(crate::specs::Alone::kind_at, qpack_spec::specs::Form::made_at))]
fn read_literal_with_post_base_name_ref(
    alloc: Global,
    buf: &mut Cursor,
) -> Result<LiteralWithPostBaseNameRef, ParseError>
    ensures exact { ReadsForm line_of_literal_with_post_base_name_ref buf.old buf.new result
        (kind_at literal_with_post_base_name_ref buf.old.rest) }
    ensures memory { result ≡ Err Memory → AsksAt literal_with_post_base_name_ref buf.old.rest }
{
    let (flags, index) = prefix_int::decode(POST_BASE_NAMED_SIZE, buf)?;
    if !matches!(flags, POST_BASE_NAMED | POST_BASE_NAMED_NEVER_INDEXED) {
        return Err(ParseError::InvalidPrefix(flags));
    }
    let value = prefix_string::decode(alloc, VALUE_SIZE, buf)?;
    Ok(LiteralWithPostBaseNameRef {
        index: index as usize,
        value,
    })
}

// RFC 9204, section 4.5.6:
//   0   1   2   3   4   5   6   7
// +---+---+---+---+---+---+---+---+
// | 0 | 0 | 1 | N | H |NameLen(3+)|
// +---+---+---+---+---+-----------+
// |  Name String (Length bytes)   |
// +---+---------------------------+
// | H |     Value Length (7+)     |
// +---+---------------------------+
// |  Value String (Length bytes)  |
// +-------------------------------+
/// The prefix of the name, in bits, with the bit H.
pub const LITERAL_SIZE: u8 = 4;

pub(crate) const LITERAL: u8 = 0b0010;

const LITERAL_NEVER_INDEXED: u8 = 0b0011;

/// A name and a value.
#[derive(Debug, PartialEq, Drop)]
pub struct Literal {
    /// The name.
    pub name: Vec<u8>,
    /// The value.
    pub value: Vec<u8>,
}

impl Literal {
    /// Returns a name and a value.
    pub fn new(name: Vec<u8>, value: Vec<u8>) -> Literal
        ensures { line_of_literal result ≡ LiteralLine name.items value.items }
    {
        Literal { name, value }
    }

    /// Reads such a line at the cursor. A first byte of another form is rejected before anything is read. On error the
    /// cursor's position is unspecified.
    #[inline(always)]
    pub fn decode(alloc: Global, buf: &mut Cursor) -> Result<Literal, ParseError>
        ensures decodes { Decodes line_of_literal (SpellsKind literal) (RefusesKind literal) buf.old buf.new result }
        // Memory is refused only if a string is whole and its payload is not empty.
        ensures memory { result ≡ Err Memory → AsksForMemory (form_for literal) buf.old.rest }
        // The clauses above as one function, which reads from left to right.
        ensures exact { ReadsForm line_of_literal buf.old buf.new result (kind_at literal buf.old.rest) }
    {
        read_literal(alloc, buf)
    }

    /// Appends the written spelling of the line, whose N is 0. On error the vector is unchanged; with free room for the
    /// spelling it succeeds and takes no memory.
    pub fn encode<A: Allocator>(&self, buf: &mut Vec<u8, A>) -> Result<(), prefix_string::Error>
        ensures writes { Writes (written_line (line_of_literal self.now)) buf.old buf.new result }
        ensures memory { IfErr result (λ e. e ≡ NoRoom) }
    {
        Literal::write(&self.name, &self.value, buf)
    }

    /// Appends the written spelling of a line with a borrowed name and value, as `encode` does.
    #[inline(always)]
    #[tactic(auto, unfolding(qpack_spec::specs::Line::coded_marked_line, qpack_spec::specs::Line::coded_line))]
    pub fn write<A: Allocator>(
        name: &[u8],
        value: &[u8],
        buf: &mut Vec<u8, A>,
    ) -> Result<(), prefix_string::Error>
        ensures writes { Writes (written_line (LiteralLine name.now value.now)) buf.old buf.new result }
        ensures memory { IfErr result (λ e. e ≡ NoRoom) }
    {
        Literal::write_marked(Coding::Always, name, value, false, buf)
    }

    /// Appends the line as `write` does; N is 1 if the field is never to be indexed (RFC 9204, section 7.1.3). The
    /// coding says which strings are coded.
    #[inline(always)]
    #[tactic(auto, unfolding(qpack_spec::specs::Line::coded_marked_line, qpack_spec::specs::Line::coded_line))]
    pub fn write_marked<A: Allocator>(
        coding: Coding,
        name: &[u8],
        value: &[u8],
        never_indexed: bool,
        buf: &mut Vec<u8, A>,
    ) -> Result<(), prefix_string::Error>
        ensures writes { Writes (coded_marked_line (coding_of coding) never_indexed (LiteralLine name.now value.now))
            buf.old buf.new result }
        ensures memory { IfErr result (λ e. e ≡ NoRoom) }
    {
        let flags = if never_indexed {
            LITERAL_NEVER_INDEXED
        } else {
            LITERAL
        };
        put_name_and_value(coding, LITERAL_SIZE, flags, name, value, buf)
    }
}

#[inline(always)]
#[tactic(auto, unfolding(crate::specs::Alone::kind_at, qpack_spec::specs::Form::made_at))]
fn read_literal(alloc: Global, buf: &mut Cursor) -> Result<Literal, ParseError>
    ensures exact { ReadsForm line_of_literal buf.old buf.new result (kind_at literal buf.old.rest) }
    ensures memory { result ≡ Err Memory → AsksAt literal buf.old.rest }
{
    let Some((first, _)) = buf.chunk().split_first() else {
        return Err(ParseError::Integer(prefix_int::Error::UnexpectedEnd));
    };
    if !matches!(*first >> LITERAL_SIZE, LITERAL | LITERAL_NEVER_INDEXED) {
        return Err(ParseError::InvalidPrefix(*first));
    }
    let name = prefix_string::decode(alloc, LITERAL_SIZE, buf)?;
    let value = prefix_string::decode(alloc, VALUE_SIZE, buf)?;
    Ok(Literal { name, value })
}
