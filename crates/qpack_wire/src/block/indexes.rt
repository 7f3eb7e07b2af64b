//! Lines that are an index alone (RFC 9204, sections 4.5.2 and 4.5.3).

ghost use Rattle.std.specs.Prelude.{◌≡◌, Err};
ghost use Rattle.qpack_spec.specs.Line.{written_line};
ghost use Rattle.qpack_base.specs.Writes.{Writes};
ghost use Rattle.qpack_base.specs.declared.parse_error.ParseError.TheVariants.{Memory};
ghost use Rattle.qpack_wire.specs.Alone.{SpellsKind, RefusesKind, kind_at};
ghost use Rattle.qpack_wire.specs.Answers.{Decodes, ReadsForm};
ghost use Rattle.qpack_wire.specs.Lines.{indexed_line, indexed_line_with_post_base, line_of_indexed};
ghost use Rattle.qpack_wire.specs.Lines.{line_of_indexed_with_post_base};

use crate::form::read_number;
use qpack_base::coding::{Cursor, NoMemory};
use qpack_base::parse_error::ParseError;
use qpack_base::prefix_int;
use std::alloc::Allocator;

// RFC 9204, section 4.5.2:
//   0   1   2   3   4   5   6   7
// +---+---+---+---+---+---+---+---+
// | 1 | T |      Index (6+)       |
// +---+---+-----------------------+
// T is 1 for the static table.
pub(crate) const INDEXED_SIZE: u8 = 6;

pub(crate) const INDEXED_DYNAMIC: u8 = 0b10;

const INDEXED_STATIC: u8 = 0b11;

/// A field of the static table, or one of the dynamic table, counted down from the base.
#[derive(Debug, PartialEq, Drop)]
pub enum Indexed {
    /// The index in the static table.
    Static(usize),
    /// The relative index in the dynamic table.
    Dynamic(usize),
}

impl Indexed {
    /// Reads such a line at the cursor. Takes no memory. On error the cursor's position is unspecified.
    #[inline(always)]
    pub fn decode(buf: &mut Cursor) -> Result<Indexed, ParseError>
        ensures decodes { Decodes line_of_indexed (SpellsKind indexed_line) (RefusesKind indexed_line) buf.old buf.new
            result }
        ensures no_memory { result ≡ Err Memory → ⊥ }
        // The clauses above as one function, which reads from left to right.
        ensures exact { ReadsForm line_of_indexed buf.old buf.new result (kind_at indexed_line buf.old.rest) }
    {
        read_indexed(buf)
    }

    /// Appends the written spelling of the line. On error the vector is unchanged; with free room for the spelling it
    /// succeeds and takes no memory.
    #[inline(always)]
    #[tactic(auto, unfolding(qpack_spec::specs::Line::coded_line))]
    pub fn encode<A: Allocator>(&self, buf: &mut Vec<u8, A>) -> Result<(), NoMemory>
        ensures writes { Writes (written_line (line_of_indexed self.now)) buf.old buf.new result }
    {
        match self {
            Indexed::Static(index) => {
                prefix_int::encode(INDEXED_SIZE, INDEXED_STATIC, *index as u64, buf)
            }
            Indexed::Dynamic(index) => {
                prefix_int::encode(INDEXED_SIZE, INDEXED_DYNAMIC, *index as u64, buf)
            }
        }
    }
}

#[inline(always)]
#[tactic(auto, unfolding(crate::specs::Alone::kind_at, qpack_spec::specs::Form::made_at))]
fn read_indexed(buf: &mut Cursor) -> Result<Indexed, ParseError>
    ensures exact { ReadsForm line_of_indexed buf.old buf.new result (kind_at indexed_line buf.old.rest) }
    ensures no_memory { result ≡ Err Memory → ⊥ }
{
    match prefix_int::decode(INDEXED_SIZE, buf)? {
        (INDEXED_STATIC, index) => Ok(Indexed::Static(index as usize)),
        (INDEXED_DYNAMIC, index) => Ok(Indexed::Dynamic(index as usize)),
        (flags, _) => Err(ParseError::InvalidPrefix(flags)),
    }
}

// RFC 9204, section 4.5.3:
//   0   1   2   3   4   5   6   7
// +---+---+---+---+---+---+---+---+
// | 0 | 0 | 0 | 1 |  Index (4+)   |
// +---+---+---+---+---------------+
pub(crate) const POST_BASE_SIZE: u8 = 4;

pub(crate) const POST_BASE: u8 = 0b0001;

/// An entry of the dynamic table, counted up from the base.
#[derive(Debug, PartialEq, Drop)]
pub struct IndexedWithPostBase(pub usize);

impl IndexedWithPostBase {
    /// Reads such a line at the cursor. Takes no memory. On error the cursor's position is unspecified.
    #[inline(always)]
    pub fn decode(buf: &mut Cursor) -> Result<IndexedWithPostBase, ParseError>
        ensures decodes { Decodes line_of_indexed_with_post_base (SpellsKind indexed_line_with_post_base)
            (RefusesKind indexed_line_with_post_base) buf.old buf.new result }
        ensures no_memory { result ≡ Err Memory → ⊥ }
        // The clauses above as one function, which reads from left to right.
        ensures exact { ReadsForm line_of_indexed_with_post_base buf.old buf.new result
            (kind_at indexed_line_with_post_base buf.old.rest) }
    {
        read_indexed_with_post_base(buf)
    }

    /// Appends the written spelling of the line. On error the vector is unchanged; with free room for the spelling it
    /// succeeds and takes no memory.
    #[inline(always)]
    #[tactic(auto, unfolding(qpack_spec::specs::Line::coded_line))]
    pub fn encode<A: Allocator>(&self, buf: &mut Vec<u8, A>) -> Result<(), NoMemory>
        ensures writes { Writes (written_line (line_of_indexed_with_post_base self.now)) buf.old buf.new result }
    {
        prefix_int::encode(POST_BASE_SIZE, POST_BASE, self.0 as u64, buf)
    }
}

#[inline(always)]
#[tactic(auto, unfolding(crate::specs::Alone::kind_at, crate::specs::Alone::number_under, qpack_spec::specs::Form::made_at))]
fn read_indexed_with_post_base(buf: &mut Cursor) -> Result<IndexedWithPostBase, ParseError>
    ensures exact { ReadsForm line_of_indexed_with_post_base buf.old buf.new result
        (kind_at indexed_line_with_post_base buf.old.rest) }
    ensures no_memory { result ≡ Err Memory → ⊥ }
{
    let index = read_number(POST_BASE_SIZE, POST_BASE, buf)?;
    Ok(IndexedWithPostBase(index as usize))
}
