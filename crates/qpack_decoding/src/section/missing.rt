//! How many bytes are missing at the end of a prefix or of a line, by the lengths that they spell: so bytes that come one
//! by one are not decoded before they are whole (RFC 9204, sections 4.1 and 4.5).

ghost use Rattle.std.specs.Prelude.{◌≡◌, ◌≤◌, ◌∷◌, drop};
ghost use Rattle.qpack_spec.specs.Integer.{integer_at};
ghost use Rattle.qpack_base.specs.Integers.{integer_fault_of};
ghost use Rattle.qpack_decoding.specs.Missing.{fault_missing, integer_missing, string_missing as missing_of_string};
ghost use Rattle.qpack_decoding.specs.Missing.{missing_behind_index as missing_of_value};
ghost use Rattle.qpack_decoding.specs.Missing.{missing_behind_name as missing_of_literal};
ghost use Rattle.qpack_decoding.specs.Missing.{line_missing as missing_of_line, prefix_missing as missing_of_prefix};
ghost use Rattle.qpack_decoding.specs.Pieces.{missing_in};

use qpack_base::coding::Cursor;
use qpack_base::prefix_int;
use qpack_wire::block::{LITERAL_SIZE, LineParts, VALUE_SIZE};

/// A part of a section that is read at once.
#[derive(Clone, Copy, Debug)]
pub(crate) enum Part {
    /// The prefix.
    Prefix,
    /// A line.
    Line,
}

/// How many bits the prefixes of the two integers of a section's prefix have (RFC 9204, section 4.5.1).
const COUNT_SIZE: u8 = 8;

const BASE_SIZE: u8 = 7;

/// Returns how many bytes a part that begins with these lacks at least, 0 if it is whole.
pub(crate) fn missing(part: Part, bytes: &[u8]) -> usize
    ensures { result ≡ missing_in part bytes.now }
{
    match part {
        Part::Prefix => prefix_missing(bytes),
        Part::Line => line_missing(bytes),
    }
}

/// Returns how many bytes a prefix that begins with these lacks at least.
#[tactic(auto, unfolding(crate::specs::Missing::prefix_missing))]
fn prefix_missing(bytes: &[u8]) -> usize
    ensures { result ≡ missing_of_prefix bytes.now }
{
    let mut buf = Cursor::new(bytes);
    match prefix_int::decode(COUNT_SIZE, &mut buf) {
        Ok(_) => index_missing(BASE_SIZE, &mut buf),
        Err(error) => at_fault(error),
    }
}

/// Returns how many bytes a line that begins with these lacks at least.
#[tactic(auto, using(crate::proofs::MissingCode::missing_of_nothing))]
fn line_missing(bytes: &[u8]) -> usize
    ensures { result ≡ missing_of_line bytes.now }
{
    let Some((first, _)) = bytes.split_first() else {
        return 1;
    };
    line_missing_by_first(*first, bytes)
}

/// Returns what `line_missing` returns for bytes that begin with this one.
fn line_missing_by_first(first: u8, bytes: &[u8]) -> usize
    requires { bytes.now ≡ first ∷ drop 1 bytes.now }
    ensures { result ≡ missing_of_line bytes.now }
{
    let mut buf = Cursor::new(bytes);
    match LineParts::of(first) {
        LineParts::Index(reference) => index_missing(reference.index_size(), &mut buf),
        LineParts::IndexAndValue(reference) => {
            value_missing(reference.name_index_size(), &mut buf)
        }
        LineParts::NameAndValue => literal_missing(&mut buf),
    }
}

/// Returns how many bytes an integer at the cursor, with a prefix of `size` bits, lacks at least.
fn index_missing(size: u8, buf: &mut Cursor) -> usize
    requires least { 1 ≤ size }
    requires most { size ≤ 8 }
    ensures { result ≡ integer_missing (integer_at size buf.old.rest) }
{
    match prefix_int::decode(size, buf) {
        Ok(_) => 0,
        Err(error) => at_fault(error),
    }
}

/// Returns how many bytes an index at the cursor, with a prefix of `size` bits, and a value lack at least.
fn value_missing(size: u8, buf: &mut Cursor) -> usize
    requires least { 1 ≤ size }
    requires most { size ≤ 8 }
    ensures { result ≡ missing_of_value (integer_at size buf.old.rest) }
{
    match prefix_int::decode(size, buf) {
        Ok(_) => string_missing(buf),
        Err(error) => at_fault(error),
    }
}

/// Returns how many bytes a name at the cursor and a value lack at least.
fn literal_missing(buf: &mut Cursor) -> usize
    ensures { result ≡ missing_of_literal (integer_at 3 buf.old.rest) }
{
    match prefix_int::decode(LITERAL_SIZE - 1, buf) {
        Ok((_, len)) => {
            let there = buf.remaining();
            if len > there as u64 {
                return len as usize - there;
            }
            buf.advance(len as usize);
            string_missing(buf)
        }
        Err(error) => at_fault(error),
    }
}

/// Returns how many bytes a value at the cursor lacks at least.
fn string_missing(buf: &mut Cursor) -> usize
    ensures { result ≡ missing_of_string (integer_at 7 buf.old.rest) }
{
    match prefix_int::decode(VALUE_SIZE - 1, buf) {
        Ok((_, len)) => (len as usize).saturating_sub(buf.remaining()),
        Err(error) => at_fault(error),
    }
}

/// Returns how many bytes are missing at least where an integer can't be read.
fn at_fault(error: prefix_int::Error) -> usize
    ensures { result ≡ fault_missing (integer_fault_of error) }
{
    match error {
        prefix_int::Error::Overflow => 0,
        prefix_int::Error::UnexpectedEnd => 1,
    }
}
