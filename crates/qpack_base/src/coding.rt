//! A cursor over bytes, and the reading and writing of single bytes.

ghost use Rattle.std.specs.Prelude.{◌≡◌, ℕ, ◌+◌, ◌^◌, ◌<◌, ◌≤◌, ◌++◌, ◌∷◌, [], List, OnOk, OnErr, IsOk, length, drop};
ghost use Rattle.std.specs.Prelude.{vec_len, vec_capacity, max, IfOk};
ghost use Rattle.qpack_base.specs.Cursor.{CursorView, ReadsByte};
ghost use Rattle.qpack_base.specs.Writes.{kept_within};

use core::mem::replace_with;
use std::alloc::{AllocError, AllocFailed, Allocator};
use std::marker::Model;
use thiserror::Error as ThisError;

/// The bytes ended before the value did: this many more were needed, and nothing was read.
#[derive(Clone, Copy, Debug, PartialEq, Eq, ThisError)]
#[error("unexpected end")]
pub struct UnexpectedEnd(pub usize);

/// No memory was left.
#[derive(Clone, Copy, Debug, PartialEq, Eq, ThisError)]
#[error("out of memory")]
pub struct NoMemory;

impl From<AllocError> for NoMemory {
    fn from(_e: AllocError) -> NoMemory {
        NoMemory
    }
}

impl<T: Drop> From<AllocFailed<T>> for NoMemory {
    fn from(_e: AllocFailed<T>) -> NoMemory {
        NoMemory
    }
}

/// The result of reading a value.
pub type Result<T> = std::result::Result<T, UnexpectedEnd>;

/// A position in a byte slice, from which reading goes on.
#[derive(Debug, Drop)]
pub struct Cursor<'a> {
    rest: &'a [u8],
    passed: usize,
}

impl<'a> Model for Cursor<'a> {
    ghost Value = { CursorView };

    ghost view = { λ c. record { rest = c.rest.now; total = c.passed + length c.rest.now } };

    ghost invariant = { λ c. c.passed + length c.rest.now < 2 ^ 64 };
}

impl<'a> Cursor<'a> {
    /// Returns a cursor at the front of a slice.
    pub fn new(bytes: &'a [u8]) -> Cursor<'a>
        ensures rest { result.rest ≡ bytes.now }
        ensures total { result.total ≡ length bytes.now }
    {
        Cursor {
            rest: bytes,
            passed: 0,
        }
    }

    /// Returns another cursor at this position, to look ahead with.
    pub fn fork(&self) -> Cursor<'a>
        ensures { result ≡ self.now }
    {
        Cursor {
            rest: self.rest,
            passed: self.passed,
        }
    }

    /// Returns how many bytes are left.
    pub fn remaining(&self) -> usize
        ensures { result ≡ length self.now.rest }
    {
        self.rest.len()
    }

    /// Returns the bytes that are left.
    pub fn chunk(&self) -> &'a [u8]
        ensures { result.now ≡ self.now.rest }
    {
        self.rest
    }

    /// Returns how many bytes were passed.
    pub fn position(&self) -> usize
        ensures { result + length self.now.rest ≡ self.now.total }
    {
        self.passed
    }

    /// Passes `count` bytes, at most as many as are left.
    pub fn advance(&mut self, count: usize)
        requires { count ≤ length self.old.rest }
        ensures rest { self.new.rest ≡ drop count self.old.rest }
        ensures total { self.new.total ≡ self.old.total }
    {
        self.rest = &self.rest[count..];
        self.passed += count;
    }
}

/// What can be read from a cursor.
pub trait Decode: Sized {
    ghost use Rattle.qpack_base.specs.Cursor.{Reads};

    /// What is read, and where the cursor is then.
    ghost decode_gives: { Reads Self };

    /// Reads a value at the cursor.
    fn decode(buf: &mut Cursor) -> Result<Self>
        ensures { decode_gives buf.old result buf.new };
}

/// What can be written to a vector. It can be let go: `write` takes it by value.
pub trait Encode: Drop {
    /// The bytes that are written.
    ghost encoding: { Self → List ℕ };

    /// Appends the value's bytes. On error the vector is unchanged. With free room for them it succeeds and takes no
    /// memory.
    fn encode<A: Allocator>(&self, buf: &mut Vec<u8, A>) -> std::result::Result<(), NoMemory>
        ensures ok { OnOk result (buf.new.items ≡ buf.old.items ++ encoding self.now) }
        ensures err { OnErr result (buf.new.items ≡ buf.old.items) }
        ensures succeeds { vec_len buf.old + length (encoding self.now) ≤ vec_capacity buf.old → IsOk result }
        ensures still { vec_len buf.old + length (encoding self.now) ≤ vec_capacity buf.old →
            vec_capacity buf.new ≡ vec_capacity buf.old }
        ensures capacity { vec_capacity buf.old ≤ vec_capacity buf.new };
}

impl Decode for u8 {
    ghost decode_gives = { ReadsByte };

    fn decode(buf: &mut Cursor) -> Result<u8> {
        let Some((first, rest)) = buf.rest.split_first() else {
            return Err(UnexpectedEnd(1));
        };
        let first = *first;
        buf.rest = rest;
        buf.passed += 1;
        Ok(first)
    }
}

impl Encode for u8 {
    ghost encoding = { λ byte. byte ∷ [] };

    fn encode<A: Allocator>(&self, buf: &mut Vec<u8, A>) -> std::result::Result<(), NoMemory> {
        make_room(buf, 1)?;
        buf.push_reserved(*self);
        Ok(())
    }
}

/// Reading at a cursor.
pub trait BufExt {
    /// Reads a value.
    fn get<T: Decode>(&mut self) -> Result<T>;
}

impl BufExt for Cursor<'_> {
    fn get<T: Decode>(&mut self) -> Result<T>
        ensures { T.decode_gives self.old result self.new }
    {
        T::decode(self)
    }
}

/// Writing at the end of a vector.
pub trait BufMutExt {
    /// Appends a value's bytes; with free room for them it takes no memory.
    fn write<T: Encode>(&mut self, value: T) -> std::result::Result<(), NoMemory>;
}

impl<A: Allocator> BufMutExt for Vec<u8, A> {
    fn write<T: Encode>(&mut self, value: T) -> std::result::Result<(), NoMemory>
        ensures ok { OnOk result (self.new.items ≡ self.old.items ++ T.encoding value) }
        ensures err { OnErr result (self.new.items ≡ self.old.items) }
        ensures succeeds { vec_len self.old + length (T.encoding value) ≤ vec_capacity self.old → IsOk result }
        ensures still { vec_len self.old + length (T.encoding value) ≤ vec_capacity self.old →
            vec_capacity self.new ≡ vec_capacity self.old }
        ensures capacity { vec_capacity self.old ≤ vec_capacity self.new }
    {
        value.encode(self)
    }
}

/// Makes room for this many more bytes. If it is free already, nothing changes and no memory is taken.
#[inline(always)]
pub fn make_room<A: Allocator>(
    buf: &mut Vec<u8, A>,
    additional: usize,
) -> std::result::Result<(), NoMemory>
    ensures items { buf.new.items ≡ buf.old.items }
    ensures len { vec_len buf.new ≡ vec_len buf.old }
    ensures ok { OnOk result (vec_len buf.new + additional ≤ vec_capacity buf.new) }
    ensures succeeds { vec_len buf.old + additional ≤ vec_capacity buf.old → IsOk result }
    ensures still { vec_len buf.old + additional ≤ vec_capacity buf.old → vec_capacity buf.new ≡ vec_capacity buf.old }
    ensures capacity { vec_capacity buf.old ≤ vec_capacity buf.new }
{
    if additional <= buf.capacity().saturating_sub(buf.len()) {
        return Ok(());
    }
    grow(buf, additional)
}

/// Makes room where there is too little. This is a call of its own, so that a caller that has room saves no registers.
#[inline(never)]
fn grow<A: Allocator>(buf: &mut Vec<u8, A>, additional: usize) -> std::result::Result<(), NoMemory>
    requires { vec_capacity buf.old < vec_len buf.old + additional }
    ensures items { buf.new.items ≡ buf.old.items }
    ensures ok { OnOk result (vec_len buf.new + additional ≤ vec_capacity buf.new) }
    ensures capacity { vec_capacity buf.old ≤ vec_capacity buf.new }
{
    buf.reserve(additional)?;
    Ok(())
}

/// The least room that a growth makes, in elements, if it may.
const LEAST_GROWTH: usize = 4;

/// Makes room for `additional` more elements, of at most `most`. A growth enlarges the capacity by half, but makes no
/// room past `most` more elements. If the room is free already, nothing changes and no memory is taken.
#[inline(always)]
pub fn make_room_within<T, A: Allocator>(
    buf: &mut Vec<T, A>,
    additional: usize,
    most: usize,
) -> std::result::Result<(), NoMemory>
    requires { additional ≤ most }
    ensures items { buf.new.items ≡ buf.old.items }
    ensures len { vec_len buf.new ≡ vec_len buf.old }
    ensures ok { OnOk result (vec_len buf.new + additional ≤ vec_capacity buf.new) }
    ensures full { OnErr result (vec_capacity buf.old < vec_len buf.old + additional) }
    ensures still { vec_len buf.old + additional ≤ vec_capacity buf.old → vec_capacity buf.new ≡ vec_capacity buf.old }
    ensures capacity { vec_capacity buf.old ≤ vec_capacity buf.new }
    ensures within { vec_capacity buf.new ≤ max (vec_capacity buf.old) (vec_len buf.old + most) }
{
    if additional <= buf.capacity().saturating_sub(buf.len()) {
        return Ok(());
    }
    grow_within(buf, additional, most)
}

/// Makes room where there is too little, out of line as `grow` is.
#[inline(never)]
fn grow_within<T, A: Allocator>(
    buf: &mut Vec<T, A>,
    additional: usize,
    most: usize,
) -> std::result::Result<(), NoMemory>
    requires fits { additional ≤ most }
    requires full { vec_capacity buf.old < vec_len buf.old + additional }
    ensures items { buf.new.items ≡ buf.old.items }
    ensures ok { OnOk result (vec_len buf.new + additional ≤ vec_capacity buf.new) }
    ensures capacity { vec_capacity buf.old ≤ vec_capacity buf.new }
    ensures within { vec_capacity buf.new ≤ max (vec_capacity buf.old) (vec_len buf.old + most) }
{
    let free = buf.capacity().saturating_sub(buf.len());
    let grown = (buf.capacity() / 2).saturating_add(free);
    buf.reserve_exact(grown.max(LEAST_GROWTH).min(most).max(additional))?;
    Ok(())
}

/// Appends the bytes if they are at most `most`, and makes no room beyond `most` more. Returns how many they are. On
/// error the vector is unchanged.
#[inline(never)]
pub fn append_within<A: Allocator>(
    bytes: &[u8],
    most: usize,
    buf: &mut Vec<u8, A>,
) -> std::result::Result<usize, NoMemory>
    ensures ok { IfOk result (λ len. (len ≡ length bytes.now) ×
        (buf.new.items ≡ buf.old.items ++ kept_within most bytes.now)) }
    ensures err { OnErr result (buf.new.items ≡ buf.old.items) }
    // Memory is refused only if there was less room, and only for bytes that would be appended.
    ensures full { OnErr result (vec_capacity buf.old < vec_len buf.old + length bytes.now) }
    ensures fits { OnErr result (length bytes.now ≤ most) }
    ensures capacity { vec_capacity buf.old ≤ vec_capacity buf.new }
    ensures within { vec_capacity buf.new ≤ max (vec_capacity buf.old) (vec_len buf.old + most) }
{
    let len = bytes.len();
    if len > most {
        return Ok(len);
    }
    make_room_within(buf, len, most)?;
    replace_with(buf, bytes, extended);
    Ok(len)
}

/// Returns the vector with the bytes appended, for which there is room: sixteen at a time, and the last ones eight, four,
/// two and one at a time. It is passed by value, so that it stays in registers.
pub(crate) fn extended<A: Allocator>(mut buf: Vec<u8, A>, bytes: &[u8]) -> (Vec<u8, A>, ())
    requires { vec_len buf + length bytes.now ≤ vec_capacity buf }
    ensures items { result.0.items ≡ buf.items ++ bytes.now }
    ensures capacity { vec_capacity result.0 ≡ vec_capacity buf }
{
    let mut rest = bytes;
    while let Some((first, behind)) = rest.split_first_chunk::<8>() {
        match behind.split_first_chunk::<8>() {
            Some((second, after)) => {
                push_sixteen(*first, *second, &mut buf);
                rest = after;
            }
            None => {
                push_eight(*first, &mut buf);
                rest = behind;
            }
        }
    }
    if let Some((four, behind)) = rest.split_first_chunk::<4>() {
        push_four(*four, &mut buf);
        rest = behind;
    }
    if let Some((two, behind)) = rest.split_first_chunk::<2>() {
        push_two(*two, &mut buf);
        rest = behind;
    }
    if let Some(last) = rest.first() {
        buf.push_reserved(*last);
    }
    (buf, ())
}

/// Appends twice eight bytes into the free room. All are loaded before the first is stored, so it takes one step.
#[inline(always)]
fn push_sixteen<A: Allocator>(first: [u8; 8], second: [u8; 8], buf: &mut Vec<u8, A>)
    requires { vec_len buf.old + 16 ≤ vec_capacity buf.old }
    ensures items { buf.new.items ≡ buf.old.items ++ (first ++ second) }
    ensures capacity { vec_capacity buf.new ≡ vec_capacity buf.old }
{
    push_eight(first, buf);
    push_eight(second, buf);
}

/// Appends eight bytes into the free room. All are loaded before the first is stored, so it takes one step.
#[inline(always)]
pub(crate) fn push_eight<A: Allocator>(eight: [u8; 8], buf: &mut Vec<u8, A>)
    requires { vec_len buf.old + 8 ≤ vec_capacity buf.old }
    ensures items { buf.new.items ≡ buf.old.items ++ eight }
    ensures capacity { vec_capacity buf.new ≡ vec_capacity buf.old }
{
    let [first, second, third, fourth, fifth, sixth, seventh, eighth] = eight;
    push_four([first, second, third, fourth], buf);
    push_four([fifth, sixth, seventh, eighth], buf);
}

/// Appends four bytes into the free room, in one step.
#[inline(always)]
pub(crate) fn push_four<A: Allocator>(four: [u8; 4], buf: &mut Vec<u8, A>)
    requires { vec_len buf.old + 4 ≤ vec_capacity buf.old }
    ensures items { buf.new.items ≡ buf.old.items ++ four }
    ensures capacity { vec_capacity buf.new ≡ vec_capacity buf.old }
{
    let [first, second, third, fourth] = four;
    push_two([first, second], buf);
    push_two([third, fourth], buf);
}

/// Appends two bytes into the free room, in one step.
#[inline(always)]
fn push_two<A: Allocator>(two: [u8; 2], buf: &mut Vec<u8, A>)
    requires { vec_len buf.old + 2 ≤ vec_capacity buf.old }
    ensures items { buf.new.items ≡ buf.old.items ++ two }
    ensures capacity { vec_capacity buf.new ≡ vec_capacity buf.old }
{
    let [first, second] = two;
    buf.push_reserved(first);
    buf.push_reserved(second);
}
