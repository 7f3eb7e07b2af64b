//! The shapes of a form: reading a number alone, and writing an index or a name followed by a value.

ghost use Rattle.std.specs.Prelude.{◌≡◌, ◌≤◌, ◌++◌, IfErr, Err};
ghost use Rattle.qpack_spec.specs.Integer.{written_integer};
ghost use Rattle.qpack_spec.specs.Text.{coded_string};
ghost use Rattle.qpack_base.specs.Codings.{coding_of};
ghost use Rattle.qpack_base.specs.Writes.{Writes};
ghost use Rattle.qpack_base.specs.declared.prefix_string.Error.TheVariants.{Memory as NoRoom};
ghost use Rattle.qpack_base.specs.declared.parse_error.ParseError.TheVariants.{Memory};
ghost use Rattle.qpack_wire.specs.Alone.{number_under};
ghost use Rattle.qpack_wire.specs.Answers.{ReadsForm};

use qpack_base::coding::Cursor;
use qpack_base::parse_error::ParseError;
use qpack_base::prefix_string::Coding;
use qpack_base::{prefix_int, prefix_string};
use std::alloc::Allocator;

/// Reads a number with a prefix of `size` bits and exactly these flags above it. Takes no memory. On
/// error the cursor's position is unspecified.
#[inline(always)]
#[tactic(auto, unfolding(crate::specs::Alone::number_under))]
pub(crate) fn read_number(size: u8, flags: u8, buf: &mut Cursor) -> Result<u64, ParseError>
    requires least { 1 ≤ size }
    requires most { size ≤ 8 }
    ensures exact { ReadsForm (λ n. n) buf.old buf.new result (number_under size flags buf.old.rest) }
    ensures no_memory { result ≡ Err Memory → ⊥ }
{
    let (bits, number) = prefix_int::decode(size, buf)?;
    if bits == flags {
        Ok(number)
    } else {
        Err(ParseError::InvalidPrefix(bits))
    }
}

/// The prefix of a value, which takes whole bytes: there is nothing above its flag.
pub const VALUE_SIZE: u8 = 8;

const VALUE_FLAGS: u8 = 0;

/// Appends an index, with a prefix of `size` bits under the flags, and a value. On error the vector is unchanged.
#[inline(always)]
pub(crate) fn put_index_and_value<A: Allocator>(
    coding: Coding,
    size: u8,
    flags: u8,
    index: u64,
    value: &[u8],
    buf: &mut Vec<u8, A>,
) -> Result<(), prefix_string::Error>
    requires least { 1 ≤ size }
    requires most { size ≤ 8 }
    ensures writes { Writes (written_integer size flags index ++ coded_string (coding_of coding) 8 0 value.now)
        buf.old buf.new result }
    ensures memory { IfErr result (λ e. e ≡ NoRoom) }
{
    let len = buf.len();
    prefix_int::encode(size, flags, index, buf)?;
    let answer = prefix_string::encode_under(coding, VALUE_SIZE, VALUE_FLAGS, value, buf);
    if answer.is_err() {
        buf.truncate(len);
    }
    answer
}

/// Appends a name, with a prefix of `size` bits under the flags, and a value. On error the vector is unchanged.
#[inline(always)]
pub(crate) fn put_name_and_value<A: Allocator>(
    coding: Coding,
    size: u8,
    flags: u8,
    name: &[u8],
    value: &[u8],
    buf: &mut Vec<u8, A>,
) -> Result<(), prefix_string::Error>
    requires least { 2 ≤ size }
    requires most { size ≤ 8 }
    ensures writes { Writes (coded_string (coding_of coding) size flags name.now ++
        coded_string (coding_of coding) 8 0 value.now) buf.old buf.new result }
    ensures memory { IfErr result (λ e. e ≡ NoRoom) }
{
    let len = buf.len();
    prefix_string::encode_under(coding, size, flags, name, buf)?;
    let answer = prefix_string::encode_under(coding, VALUE_SIZE, VALUE_FLAGS, value, buf);
    if answer.is_err() {
        buf.truncate(len);
    }
    answer
}
