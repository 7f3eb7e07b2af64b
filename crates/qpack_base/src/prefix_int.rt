//! Integers with a prefix of 1 to 8 bits (RFC 7541, section 5.1; RFC 9204, section 4.1.1).

ghost use Rattle.std.specs.Prelude.{◌≡◌, ℕ, ◌+◌, ◌*◌, ◌^◌, ◌<◌, ◌≤◌, ◌-◌, ◌++◌, ◌↔◌, List, IfOk};
ghost use Rattle.std.specs.Prelude.{◌%◌, [], ◌∷◌, IfSome, IfNone};
ghost use Rattle.std.specs.Prelude.{vec_len, vec_capacity, length};
ghost use Rattle.qpack_spec.specs.Bytes.{Begins};
ghost use Rattle.qpack_spec.specs.Integer.{integer_at, groups_at, SpellsInteger, OverflowsInteger, TruncatesInteger};
ghost use Rattle.qpack_spec.specs.Integer.{written_integer, written_groups};
ghost use Rattle.qpack_base.specs.Cursor.{MovesPast};
ghost use Rattle.qpack_base.specs.Integers.{ReadsInteger, ReadsGroups};
ghost use Rattle.qpack_base.specs.Writes.{Writes};
ghost use Rattle.qpack_base.specs.declared.prefix_int.Error.TheVariants.{Overflow, UnexpectedEnd as Truncated};

use crate::coding::{self, BufExt, Cursor, NoMemory, make_room};
use std::alloc::Allocator;
use thiserror::Error as ThisError;

/// Why an integer could not be read.
#[derive(Clone, Copy, Debug, PartialEq, Drop, ThisError)]
pub enum Error {
    /// The prefix is full, and nine further bytes have their high bits set: the value may exceed the greatest one that
    /// is read, 2^63 + 2^n - 2 for a prefix of n bits.
    #[error("value overflow")]
    Overflow,
    /// The bytes end within the integer.
    #[error("unexpected end")]
    UnexpectedEnd,
}

impl From<coding::UnexpectedEnd> for Error {
    ghost from_gives = { λ _ e. e ≡ Truncated };

    fn from(_e: coding::UnexpectedEnd) -> Error {
        Error::UnexpectedEnd
    }
}

/// The most further bytes that are read after a full prefix.
const MOST_GROUPS: u8 = 9;

/// Reads the integer at the cursor, with a prefix of `size` bits: the flags, which are the bits above
/// the prefix, and the value. Takes no memory. On error the cursor's position is unspecified.
#[inline(always)]
pub fn decode(size: u8, buf: &mut Cursor) -> Result<(u8, u64), Error>
    requires least { 1 ≤ size }
    requires most { size ≤ 8 }
    // What is read is spelled so, and the cursor moves past exactly it.
    ensures found { IfOk result (λ x. (encoding : List ℕ) × SpellsInteger size encoding x.0 x.1 ×
        MovesPast encoding buf.old buf.new) }
    // What is spelled so is read, whatever follows.
    ensures only { (encoding rest : List ℕ) (flags value : ℕ) → SpellsInteger size encoding flags value →
        buf.old.rest ≡ encoding ++ rest →
        (result ≡ Ok (flags, value)) × MovesPast encoding buf.old buf.new }
    ensures overflow { (result ≡ Err Overflow) ↔ Begins (OverflowsInteger size) buf.old.rest }
    ensures truncated { (result ≡ Err Truncated) ↔ TruncatesInteger size buf.old.rest }
    // The clauses above as one function, which reads from left to right.
    ensures exact { ReadsInteger buf.old buf.new result (integer_at size buf.old.rest) }
{
    read(size, buf)
}

#[inline(always)]
#[tactic(auto, unfolding(qpack_spec::specs::Integer::integer_at))]
fn read(size: u8, buf: &mut Cursor) -> Result<(u8, u64), Error>
    requires least { 1 ≤ size }
    requires most { size ≤ 8 }
    ensures { ReadsInteger buf.old buf.new result (integer_at size buf.old.rest) }
{
    let first = u64::from(buf.get::<u8>()?);
    let end = power(size);
    let flags = (first / end) as u8;
    let prefix = first % end;
    if prefix < end - 1 {
        return Ok((flags, prefix));
    }
    let sum = read_groups(buf)?;
    Ok((flags, end - 1 + sum))
}

/// Reads groups of seven bits, the least first, up to the byte whose high bit is clear.
#[inline(never)]
fn read_groups(buf: &mut Cursor) -> Result<u64, Error>
    ensures exact { ReadsGroups buf.old buf.new result (groups_at 9 buf.old.rest) }
    ensures small { IfOk result (λ sum. sum < 2 ^ 63) }
{
    let mut sum = 0;
    let mut weight: u64 = 1;
    for _ in 0..MOST_GROUPS {
        let byte = u64::from(buf.get::<u8>()?);
        sum += byte % 128 * weight;
        if byte < 128 {
            return Ok(sum);
        }
        weight *= 128;
    }
    Err(Error::Overflow)
}

/// Appends the shortest spelling of the value with a prefix of `size` bits, under the flags, which are cut to the bits
/// above the prefix. On error the vector is unchanged; with free room for the spelling it succeeds and takes no memory.
#[inline(always)]
pub fn encode<A: Allocator>(
    size: u8,
    flags: u8,
    value: u64,
    buf: &mut Vec<u8, A>,
) -> Result<(), NoMemory>
    requires least { 1 ≤ size }
    requires most { size ≤ 8 }
    ensures { Writes (written_integer size flags value) buf.old buf.new result }
{
    let Some(byte) = short(size, flags, value) else {
        return encode_long(size, flags, value, buf);
    };
    make_room(buf, 1)?;
    buf.push_reserved(byte);
    Ok(())
}

/// Appends the spelling as `encode` does, for a value that fills the prefix.
#[inline(never)]
fn encode_long<A: Allocator>(
    size: u8,
    flags: u8,
    value: u64,
    buf: &mut Vec<u8, A>,
) -> Result<(), NoMemory>
    requires least { 1 ≤ size }
    requires most { size ≤ 8 }
    requires long { 2 ^ size ≤ value + 1 }
    ensures { Writes (written_integer size flags value) buf.old buf.new result }
{
    make_room(buf, encoded_len(size, value))?;
    put_long(size, flags, value, buf);
    Ok(())
}

/// Appends the spelling as `encode` does, into the free room.
#[inline(always)]
pub(crate) fn put<A: Allocator>(size: u8, flags: u8, value: u64, buf: &mut Vec<u8, A>)
    requires least { 1 ≤ size }
    requires most { size ≤ 8 }
    requires room { vec_len buf.old + length (written_integer size flags value) ≤ vec_capacity buf.old }
    ensures items { buf.new.items ≡ buf.old.items ++ written_integer size flags value }
    ensures capacity { vec_capacity buf.new ≡ vec_capacity buf.old }
{
    match short(size, flags, value) {
        Some(byte) => buf.push_reserved(byte),
        None => put_long(size, flags, value, buf),
    }
}

/// Appends the spelling as `put` does, for a value that fills the prefix.
#[inline(never)]
#[tactic(auto, unfolding(qpack_spec::specs::Integer::written_integer))]
fn put_long<A: Allocator>(size: u8, flags: u8, value: u64, buf: &mut Vec<u8, A>)
    requires least { 1 ≤ size }
    requires most { size ≤ 8 }
    requires long { 2 ^ size ≤ value + 1 }
    requires room { vec_len buf.old + length (written_integer size flags value) ≤ vec_capacity buf.old }
    ensures items { buf.new.items ≡ buf.old.items ++ written_integer size flags value }
    ensures capacity { vec_capacity buf.new ≡ vec_capacity buf.old }
{
    let most = power(size) - 1;
    buf.push_reserved(first_byte(size, flags, most));
    put_groups(value - most, buf);
}

/// Returns the shortest spelling of a value, under the flags, which are cut to the bits above the prefix, if it is one
/// byte.
#[inline(always)]
#[tactic(auto, unfolding(qpack_spec::specs::Integer::written_integer))]
pub(crate) fn short(size: u8, flags: u8, value: u64) -> Option<u8>
    requires least { 1 ≤ size }
    requires most { size ≤ 8 }
    ensures some { IfSome result (λ byte. written_integer size flags value ≡ byte ∷ []) }
    ensures none { IfNone result (2 ^ size ≤ value + 1) }
{
    if value >= power(size) - 1 {
        return None;
    }
    Some(first_byte(size, flags, value))
}

/// Returns the shortest spelling of a value, under the flags, as `short` has it, if it is two bytes.
#[inline(always)]
#[tactic(auto, unfolding(qpack_spec::specs::Integer::written_integer), using(crate::proofs::WrittenGroups::written_steps))]
pub(crate) fn paired(size: u8, flags: u8, value: u64) -> Option<(u8, u8)>
    requires least { 1 ≤ size }
    requires most { size ≤ 8 }
    ensures { IfSome result (λ bytes. written_integer size flags value ≡ bytes.0 ∷ bytes.1 ∷ []) }
{
    let most = power(size) - 1;
    if value < most || value - most >= 128 {
        return None;
    }
    Some((first_byte(size, flags, most), (value - most) as u8))
}

/// Returns the prefix under the flags, which are cut to the bits above it.
#[inline(always)]
fn first_byte(size: u8, flags: u8, prefix: u64) -> u8
    requires least { 1 ≤ size }
    requires most { size ≤ 8 }
    requires fits { prefix < 2 ^ size }
    ensures { result ≡ flags % 2 ^ (8 - size) * 2 ^ size + prefix }
{
    let high = u64::from(flags) % power(8 - size) * power(size);
    (high + prefix) as u8
}

/// Returns how many bytes the shortest spelling of the value has, with a prefix of `size` bits.
#[tactic(auto, unfolding(qpack_spec::specs::Integer::written_integer))]
pub(crate) fn encoded_len(size: u8, value: u64) -> usize
    requires least { 1 ≤ size }
    requires most { size ≤ 8 }
    ensures len { (flags : ℕ) → result ≡ length (written_integer size flags value) }
    ensures few { result ≤ 11 }
{
    let end = power(size);
    if value < end - 1 {
        return 1;
    }
    1 + groups_len(value - (end - 1))
}

/// Returns two to the number of bits.
fn power(bits: u8) -> u64
    requires { bits ≤ 8 }
    ensures { result ≡ 2 ^ bits }
{
    1 << bits
}

/// Returns how many groups of seven bits the value takes.
#[tactic(auto, using(crate::proofs::WrittenGroups::written_steps))]
fn groups_len(value: u64) -> usize
    ensures len { result ≡ length (written_groups 9 value) }
    ensures few { result ≤ 10 }
{
    let mut len = 1;
    let mut left = value;
    while left >= 128 {
        left /= 128;
        len += 1;
    }
    len
}

/// Appends the value in groups of seven bits, the least first, into the free room.
#[tactic(auto, using(crate::proofs::WrittenGroups::written_steps))]
fn put_groups<A: Allocator>(value: u64, buf: &mut Vec<u8, A>)
    requires { vec_len buf.old + length (written_groups 9 value) ≤ vec_capacity buf.old }
    ensures items { buf.new.items ≡ buf.old.items ++ written_groups 9 value }
    ensures capacity { vec_capacity buf.new ≡ vec_capacity buf.old }
{
    let mut left = value;
    while left >= 128 {
        buf.push_reserved((128 + left % 128) as u8);
        left /= 128;
    }
    buf.push_reserved(left as u8);
}
