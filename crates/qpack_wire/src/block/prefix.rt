//! The prefix of an encoded field section (RFC 9204, section 4.5.1).

ghost use Rattle.std.specs.Prelude.{◌≡◌, ◌+◌, ◌*◌, ◌^◌, ◌<◌, ◌≤◌, Err};
ghost use Rattle.qpack_spec.specs.Prefix.{SpellsPrefix, prefix_for, required_at, read_required, read_base, read_prefix};
ghost use Rattle.qpack_spec.specs.Prefix.{read_strict_prefix, written_prefix};
ghost use Rattle.qpack_base.specs.Writes.{Writes};
ghost use Rattle.qpack_base.specs.declared.parse_error.ParseError.TheVariants.{Memory};
ghost use Rattle.qpack_wire.specs.Answers.{Decodes, ReadsForm};
ghost use Rattle.qpack_wire.specs.Prefixes.{prefix_of, RefusesPrefix, read_prefix_at, or_prefix_error};

use qpack_base::coding::{Cursor, NoMemory};
use qpack_base::parse_error::ParseError;
use qpack_base::prefix_int;
use std::alloc::Allocator;

// RFC 9204, section 4.5.1:
//   0   1   2   3   4   5   6   7
// +---+---+---+---+---+---+---+---+
// |   Required Insert Count (8+)  |
// +---+---------------------------+
// | S |      Delta Base (7+)      |
// +---+---------------------------+
const COUNT_SIZE: u8 = 8;

const COUNT_FLAGS: u8 = 0;

const BASE_SIZE: u8 = 7;

const NOT_NEGATIVE: u8 = 0;

const NEGATIVE: u8 = 1;

/// The encoded required insert count, the sign bit and the delta base.
#[derive(Debug, PartialEq, Drop)]
pub struct HeaderPrefix {
    encoded_insert_count: usize,
    sign_negative: bool,
    delta_base: usize,
}

impl HeaderPrefix {
    /// Returns the prefix that is written for a required insert count and a base, under a table of this capacity with
    /// this many insertions.
    #[tactic(auto, unfolding(qpack_spec::specs::Prefix::prefix_for))]
    pub fn new(
        required: usize,
        base: usize,
        total_inserted: usize,
        max_table_size: usize,
    ) -> HeaderPrefix
        requires inserted { 0 < max_table_size → 0 < required → required ≤ total_inserted }
        requires room { 0 < max_table_size → 0 < required → 32 ≤ max_table_size }
        ensures { prefix_of result ≡ prefix_for max_table_size required base }
    {
        if required == 0 || max_table_size == 0 {
            return HeaderPrefix {
                encoded_insert_count: 0,
                sign_negative: false,
                delta_base: 0,
            };
        }
        let encoded_insert_count = required % (2 * (max_table_size / 32)) + 1;
        if required <= base {
            HeaderPrefix {
                encoded_insert_count,
                sign_negative: false,
                delta_base: base - required,
            }
        } else {
            HeaderPrefix {
                encoded_insert_count,
                sign_negative: true,
                delta_base: required - base - 1,
            }
        }
    }

    /// Reads a prefix at the cursor. Takes no memory. On error the cursor's position is unspecified.
    pub fn decode(buf: &mut Cursor) -> Result<HeaderPrefix, ParseError>
        ensures decodes { Decodes prefix_of SpellsPrefix RefusesPrefix buf.old buf.new result }
        ensures no_memory { result ≡ Err Memory → ⊥ }
        // The clauses above as one function, which reads from left to right.
        ensures exact { ReadsForm prefix_of buf.old buf.new result (read_prefix_at buf.old.rest) }
    {
        read_header_prefix(buf)
    }

    /// Appends the written spelling of the prefix. On error the vector is unchanged; with free room for the spelling it
    /// succeeds and takes no memory.
    #[tactic(auto, unfolding(qpack_spec::specs::Prefix::written_prefix))]
    pub fn encode<A: Allocator>(&self, buf: &mut Vec<u8, A>) -> Result<(), NoMemory>
        ensures writes { Writes (written_prefix (prefix_of self.now)) buf.old buf.new result }
    {
        let sign = if self.sign_negative {
            NEGATIVE
        } else {
            NOT_NEGATIVE
        };
        let len = buf.len();
        prefix_int::encode(
            COUNT_SIZE,
            COUNT_FLAGS,
            self.encoded_insert_count as u64,
            buf,
        )?;
        let answer = prefix_int::encode(BASE_SIZE, sign, self.delta_base as u64, buf);
        if answer.is_err() {
            buf.truncate(len);
        }
        answer
    }

    /// Returns the encoded required insert count, as it is in the bytes.
    pub fn encoded_insert_count(&self) -> usize
        ensures { result ≡ (prefix_of self.now).count }
    {
        self.encoded_insert_count
    }

    /// Returns the required insert count and the base that the prefix encodes, under a table of this capacity with this
    /// many insertions. If nothing is required both are 0, and the rest of the prefix is ignored.
    #[tactic(auto, unfolding(qpack_spec::specs::Prefix::read_prefix))]
    pub fn get(
        self,
        total_inserted: usize,
        max_table_size: usize,
    ) -> Result<(usize, usize), ParseError>
        ensures { result ≡ or_prefix_error (read_prefix total_inserted max_table_size (prefix_of self)) }
    {
        let required = required_count(self.encoded_insert_count, total_inserted, max_table_size)?;
        if required == 0 {
            return Ok((0, 0));
        }
        let base = base_behind(self.sign_negative, required, self.delta_base)?;
        Ok((required, base))
    }

    /// Returns what `get` returns, read strictly: a base below 0 is an error (`InvalidBase`) also if nothing is
    /// required (RFC 9204, section 4.5.1.2).
    #[tactic(auto, unfolding(qpack_spec::specs::Prefix::read_strict_prefix))]
    pub fn get_strict(
        self,
        total_inserted: usize,
        max_table_size: usize,
    ) -> Result<(usize, usize), ParseError>
        ensures { result ≡ or_prefix_error (read_strict_prefix total_inserted max_table_size (prefix_of self)) }
    {
        let required = required_count(self.encoded_insert_count, total_inserted, max_table_size)?;
        if required == 0 && !self.sign_negative {
            return Ok((0, 0));
        }
        let base = base_behind(self.sign_negative, required, self.delta_base)?;
        Ok((required, base))
    }
}

#[tactic(auto, unfolding(qpack_spec::specs::Prefix::prefix_at))]
fn read_header_prefix(buf: &mut Cursor) -> Result<HeaderPrefix, ParseError>
    ensures exact { ReadsForm prefix_of buf.old buf.new result (read_prefix_at buf.old.rest) }
    ensures no_memory { result ≡ Err Memory → ⊥ }
{
    let (_, count) = prefix_int::decode(COUNT_SIZE, buf)?;
    let (sign, delta) = prefix_int::decode(BASE_SIZE, buf)?;
    Ok(HeaderPrefix {
        encoded_insert_count: count as usize,
        sign_negative: sign == NEGATIVE,
        delta_base: delta as usize,
    })
}

/// Returns the required insert count that this encoded one means.
#[tactic(auto, unfolding(qpack_spec::specs::Prefix::read_required))]
fn required_count(
    count: usize,
    total_inserted: usize,
    max_table_size: usize,
) -> Result<usize, ParseError>
    ensures { result ≡ or_prefix_error (read_required total_inserted max_table_size count) }
{
    if max_table_size == 0 || count == 0 {
        return Ok(0);
    }
    let max_entries = max_table_size / 32;
    if max_entries == 0 || count > 2 * max_entries {
        return Err(ParseError::Integer(prefix_int::Error::Overflow));
    }
    let required = number_in_window(count, total_inserted, max_entries);
    if required == 0 || required > usize::MAX as u128 {
        return Err(ParseError::Integer(prefix_int::Error::Overflow));
    }
    Ok(required as usize)
}

/// Returns the greatest number of the residue `count - 1` modulo twice the entries that is at most the total and the
/// entries; 0 if none is above 0.
#[tactic(auto, using(crate::proofs::Prefixes::window_at))]
fn number_in_window(count: usize, total_inserted: usize, max_entries: usize) -> u128
    requires some { 0 < count }
    requires most { count ≤ 2 * max_entries }
    requires few { max_entries < 2 ^ 60 }
    ensures { result ≡ required_at (total_inserted + max_entries) max_entries count }
{
    let span = 2 * max_entries;
    let back = (total_inserted % span + max_entries + span - (count - 1)) % span;
    let top = total_inserted as u128 + max_entries as u128;
    top.saturating_sub(back as u128)
}

/// Returns the base that a sign and a delta give after a required insert count.
#[tactic(auto, unfolding(qpack_spec::specs::Prefix::read_base))]
fn base_behind(sign_negative: bool, required: usize, delta: usize) -> Result<usize, ParseError>
    ensures { result ≡ or_prefix_error (read_base sign_negative required delta) }
{
    if !sign_negative {
        return match required.checked_add(delta) {
            Some(base) => Ok(base),
            None => Err(ParseError::Integer(prefix_int::Error::Overflow)),
        };
    }
    if delta < required {
        return Ok(required - delta - 1);
    }
    let below = (delta - required).min(isize::MAX as usize) as isize;
    Err(ParseError::InvalidBase(-below - 1))
}
