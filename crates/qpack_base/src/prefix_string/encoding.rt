//! Writing Huffman coded payloads (RFC 7541, section 5.2), and the code as a table (Appendix B).

ghost use Rattle.std.specs.Prelude.{◌≡◌, ◌≢◌, ◌+◌, ◌*◌, ◌%◌, ◌/◌, ◌-◌, ◌^◌, ◌<◌, ◌≤◌, ◌++◌, List, [], ℕ, IfOk, OnErr};
ghost use Rattle.std.specs.Prelude.{◌∷◌, length, min, vec_len, vec_capacity};
ghost use Rattle.qpack_spec.specs.Huffman.{bits_of, bits_of_text, code_of, payload_of};
ghost use Rattle.qpack_base.specs.HuffmanTables.{AreCodes};
ghost use Rattle.qpack_base.specs.WrittenPayloads.{AddsBits, AddsLast, AddsCodes, HasAdded};

use crate::coding::{push_eight, push_four};
use core::mem::replace_with;
use std::alloc::{AllocError, Allocator};
use thiserror::Error as ThisError;

/// No memory was left for a payload.
#[derive(Clone, Copy, Debug, Drop, PartialEq, ThisError)]
#[error("out of memory")]
pub struct HuffmanEncodingError;

impl From<AllocError> for HuffmanEncodingError {
    fn from(_e: AllocError) -> HuffmanEncodingError {
        HuffmanEncodingError
    }
}

/// Up to so many bytes the bits of their codes are summed in a number of 32 bits.
const FEW: usize = 1 << 26;

/// How many bytes the payload of a text has, at most 2^64 - 1.
pub(super) fn payload_len(text: &[u8]) -> usize
    ensures { result ≡ min (length (payload_of text.now)) (2 ^ 64 - 1) }
{
    if text.len() > FEW {
        return long_payload_len(text);
    }
    let mut bits = 0u32;
    let mut rest = text;
    while let Some((four, behind)) = rest.split_first_chunk::<4>() {
        bits += bits_of_four(four);
        rest = behind;
    }
    ((bits + bits_of_few(rest) + 7) / 8) as usize
}

/// How many bits the codes of four bytes have.
#[inline(always)]
fn bits_of_four(four: &[u8; 4]) -> u32
    ensures len { result ≡ length (bits_of_text four.now) }
    ensures most { result ≤ 120 }
{
    let [first, second, third, fourth] = four;
    bits_of_byte(*first) + bits_of_byte(*second) + bits_of_byte(*third) + bits_of_byte(*fourth)
}

/// How many bits the codes of a text have that is not long.
#[inline(always)]
fn bits_of_few(text: &[u8]) -> u32
    requires { length text.now ≤ 2 ^ 26 }
    ensures len { result ≡ length (bits_of_text text.now) }
    ensures most { result ≤ 30 * length text.now }
{
    let mut bits = 0u32;
    for byte in text {
        bits += bits_of_byte(*byte);
    }
    bits
}

/// How many bits the code of a byte has.
#[inline(always)]
fn bits_of_byte(byte: u8) -> u32
    ensures len { result ≡ length (code_of byte) }
    ensures most { result ≤ 30 }
{
    codes()[usize::from(byte)].0
}

/// The same of any text.
fn long_payload_len(text: &[u8]) -> usize
    ensures { result ≡ min (length (payload_of text.now)) (2 ^ 64 - 1) }
{
    let mut bytes = 0usize;
    let mut bits = 0usize;
    for byte in text {
        bits += bits_of_byte(*byte) as usize;
        bytes = bytes.saturating_add(bits / 8);
        bits %= 8;
    }
    if bits == 0 {
        return bytes;
    }
    bytes.saturating_add(1)
}

/// The bits that are still to be written: the lowest `count` of a number, above which others may stand.
#[derive(Clone, Copy)]
struct Pending {
    bits: u64,
    count: u32,
}

impl Pending {
    /// With the code of a byte behind them. Only the last 64 bits are kept.
    #[inline(always)]
    fn with(self, byte: u8) -> Pending
        requires { self.count < 128 }
        ensures { AddsCodes (byte ∷ []) self result }
    {
        let (bits, code) = codes()[usize::from(byte)];
        Pending {
            bits: (self.bits << bits) + u64::from(code),
            count: self.count + bits,
        }
    }

    /// Appends the first 32 of them into the free room, where there are so many.
    #[inline(always)]
    fn flush<A: Allocator>(self, buf: &mut Vec<u8, A>) -> Pending
        requires most { self.count < 64 }
        requires room { 8 * vec_len buf.old + self.count ≤ 8 * vec_capacity buf.old }
        ensures added { HasAdded (bits_of self.count self.bits) result.count result.bits
            buf.old.items buf.new.items }
        ensures few { result.count < 32 }
        ensures len { 8 * vec_len buf.new + result.count ≡ 8 * vec_len buf.old + self.count }
        ensures capacity { vec_capacity buf.new ≡ vec_capacity buf.old }
    {
        if self.count < 32 {
            return self;
        }
        let count = self.count - 32;
        put_four((self.bits >> count) % 0x1_0000_0000, buf);
        Pending {
            bits: self.bits,
            count,
        }
    }

    /// Appends the codes of a text behind them into the free room, but for fewer than 32 bits.
    #[inline(always)]
    fn put_each<A: Allocator>(self, text: &[u8], buf: &mut Vec<u8, A>) -> Pending
        requires few { self.count < 32 }
        requires room { 8 * vec_len buf.old + self.count + length (bits_of_text text.now) ≤ 8 * vec_capacity buf.old }
        ensures added { HasAdded (bits_of self.count self.bits ++ bits_of_text text.now) result.count
            result.bits buf.old.items buf.new.items }
        ensures few { result.count < 32 }
        ensures len { 8 * vec_len buf.new + result.count ≡
            8 * vec_len buf.old + self.count + length (bits_of_text text.now) }
        ensures capacity { vec_capacity buf.new ≡ vec_capacity buf.old }
    {
        let mut pending = self;
        for byte in text {
            pending = pending.with(*byte).flush(buf);
        }
        pending
    }

    /// The same of four bytes, in one step where their codes are not long.
    #[inline(always)]
    fn put_quad<A: Allocator>(self, four: &[u8; 4], buf: &mut Vec<u8, A>) -> Pending
        requires few { self.count < 32 }
        requires room { 8 * vec_len buf.old + self.count + length (bits_of_text four.now) ≤ 8 * vec_capacity buf.old }
        ensures added { HasAdded (bits_of self.count self.bits ++ bits_of_text four.now) result.count
            result.bits buf.old.items buf.new.items }
        ensures few { result.count < 32 }
        ensures len { 8 * vec_len buf.new + result.count ≡
            8 * vec_len buf.old + self.count + length (bits_of_text four.now) }
        ensures capacity { vec_capacity buf.new ≡ vec_capacity buf.old }
    {
        let [first, second, third, fourth] = four;
        let pending = self.with(*first).with(*second).with(*third).with(*fourth);
        if pending.count < 64 {
            return pending.flush(buf);
        }
        replace_with(buf, (self, four), with_long_codes)
    }

    /// With the codes of the last bytes of a text behind them.
    #[inline(always)]
    fn with_each(self, text: &[u8]) -> Pending
        requires few { self.count < 32 }
        requires short { length text.now < 4 }
        ensures { AddsCodes text.now self result }
    {
        let mut pending = self;
        for byte in text {
            pending = pending.with(*byte);
        }
        pending
    }

    /// Appends them into the free room, filled up with ones. All eight bytes of a number are written, and those that
    /// don't count are cut off again.
    #[inline(always)]
    fn put_filled<A: Allocator>(self, buf: &mut Vec<u8, A>)
        requires few { self.count < 64 }
        requires room { vec_len buf.old + 8 ≤ vec_capacity buf.old }
        ensures items { AddsLast (bits_of self.count self.bits) buf.old.items buf.new.items }
        ensures capacity { vec_capacity buf.new ≡ vec_capacity buf.old }
    {
        let end = buf.len() + ((self.count + 7) / 8) as usize;
        let ones = 63 - self.count;
        let marked = (self.bits << 1) + 1;
        put_eight((marked << ones) + (power(ones) - 1), buf);
        buf.truncate(end);
    }

    /// Appends the last bits of a payload into the free room: these, and the codes of the last bytes of its text.
    #[inline(always)]
    fn put_end<A: Allocator>(self, rest: &[u8], buf: &mut Vec<u8, A>)
        requires few { self.count < 32 }
        requires short { length rest.now < 4 }
        requires room { vec_len buf.old + (self.count + length (bits_of_text rest.now) + 7) / 8 ≤ vec_capacity buf.old }
        ensures items { AddsLast (bits_of self.count self.bits ++ bits_of_text rest.now) buf.old.items buf.new.items }
        ensures capacity { vec_capacity buf.new ≡ vec_capacity buf.old }
    {
        let last = self.with_each(rest);
        if last.count < 64 && buf.capacity() - buf.len() >= 8 {
            return last.put_filled(buf);
        }
        replace_with(buf, (self, rest), with_narrow_end)
    }
}

/// The vector with the codes of four bytes behind it, as `put_each` appends them, kept out of the loop of those whose
/// codes are not long.
#[inline(never)]
fn with_long_codes<A: Allocator>(
    mut buf: Vec<u8, A>,
    from: (Pending, &[u8; 4]),
) -> (Vec<u8, A>, Pending)
    requires few { from.0.count < 32 }
    requires room { 8 * vec_len buf + from.0.count + length (bits_of_text from.1.now) ≤ 8 * vec_capacity buf }
    ensures added { HasAdded (bits_of from.entry.0.count from.entry.0.bits ++ bits_of_text from.entry.1.now)
        result.1.count result.1.bits buf.items result.0.items }
    ensures few { result.1.count < 32 }
    ensures len { 8 * vec_len result.0 + result.1.count ≡
        8 * vec_len buf + from.entry.0.count + length (bits_of_text from.entry.1.now) }
    ensures capacity { vec_capacity result.0 ≡ vec_capacity buf }
{
    let (pending, four) = from;
    let pending = pending.put_each(four, &mut buf);
    (buf, pending)
}

/// Appends the payload of a text into the free room.
pub(super) fn put_payload<A: Allocator>(text: &[u8], buf: &mut Vec<u8, A>)
    requires { vec_len buf.old + length (payload_of text.now) ≤ vec_capacity buf.old }
    ensures items { buf.new.items ≡ buf.old.items ++ payload_of text.now }
    ensures capacity { vec_capacity buf.new ≡ vec_capacity buf.old }
{
    replace_with(buf, text, with_payload);
}

/// The vector with the payload of a text behind it, four bytes of the text at a time. It is taken by value, so that
/// its pointer and its length stay in registers.
fn with_payload<A: Allocator>(mut buf: Vec<u8, A>, text: &[u8]) -> (Vec<u8, A>, ())
    requires { vec_len buf + length (payload_of text.now) ≤ vec_capacity buf }
    ensures items { result.0.items ≡ buf.items ++ payload_of text.now }
    ensures capacity { vec_capacity result.0 ≡ vec_capacity buf }
{
    let mut pending = Pending { bits: 0, count: 0 };
    let mut rest = text;
    while let Some((four, behind)) = rest.split_first_chunk::<4>() {
        pending = pending.put_quad(four, &mut buf);
        rest = behind;
    }
    pending.put_end(rest, &mut buf);
    (buf, ())
}

/// The vector with the last bits of a payload behind it, where the codes are long or the room is narrow.
#[inline(never)]
fn with_narrow_end<A: Allocator>(mut buf: Vec<u8, A>, from: (Pending, &[u8])) -> (Vec<u8, A>, ())
    requires few { from.0.count < 32 }
    requires room { vec_len buf + (from.0.count + length (bits_of_text from.1.now) + 7) / 8 ≤ vec_capacity buf }
    ensures items { AddsLast (bits_of from.entry.0.count from.entry.0.bits ++ bits_of_text from.entry.1.now) buf.items
        result.0.items }
    ensures capacity { vec_capacity result.0 ≡ vec_capacity buf }
{
    let (pending, rest) = from;
    let last = pending.put_each(rest, &mut buf);
    put_last(last.bits % power(last.count), last.count, &mut buf);
    (buf, ())
}

/// Appends 64 bits into the free room.
#[inline(always)]
fn put_eight<A: Allocator>(eight: u64, buf: &mut Vec<u8, A>)
    requires room { vec_len buf.old + 8 ≤ vec_capacity buf.old }
    ensures items { AddsBits 64 eight buf.old.items buf.new.items }
    ensures len { vec_len buf.new ≡ vec_len buf.old + 8 }
    ensures capacity { vec_capacity buf.new ≡ vec_capacity buf.old }
{
    push_eight(eight.to_be_bytes(), buf);
}

/// Appends 32 bits into the free room.
#[inline(always)]
fn put_four<A: Allocator>(four: u64, buf: &mut Vec<u8, A>)
    requires fits { four < 2 ^ 32 }
    requires room { vec_len buf.old + 4 ≤ vec_capacity buf.old }
    ensures items { AddsBits 32 four buf.old.items buf.new.items }
    ensures len { vec_len buf.new ≡ vec_len buf.old + 4 }
    ensures capacity { vec_capacity buf.new ≡ vec_capacity buf.old }
{
    push_four((four as u32).to_be_bytes(), buf);
}

/// Appends the last bits into the free room, filled up with ones to whole bytes.
#[inline(always)]
fn put_last<A: Allocator>(loaded: u64, count: u32, buf: &mut Vec<u8, A>)
    requires fits { loaded < 2 ^ count }
    requires few { count < 32 }
    requires room { vec_len buf.old + (count + 7) / 8 ≤ vec_capacity buf.old }
    ensures items { AddsLast (bits_of count loaded) buf.old.items buf.new.items }
    ensures capacity { vec_capacity buf.new ≡ vec_capacity buf.old }
{
    let ones = (8 - count % 8) % 8;
    let places = power(ones);
    let filled = loaded * places + (places - 1);
    let mut left = count + ones;
    while left >= 8 {
        left -= 8;
        buf.push_reserved((filled / power(left) % 0x100) as u8);
    }
}

/// Two to the number of bits.
fn power(bits: u32) -> u64
    requires { bits < 64 }
    ensures { result ≡ 2 ^ bits }
{
    1 << bits
}

/// What can be coded as a payload.
pub trait HpackStringEncode {
    /// The bytes of the text.
    ghost text: { Self → List ℕ };

    /// The payload of the text; an empty one takes no memory.
    fn hpack_encode(&self) -> Result<Vec<u8>, HuffmanEncodingError>
        ensures ok { IfOk result (λ v. v.items ≡ payload_of (text self.now)) }
        ensures memory { OnErr result (text self.now ≢ []) };
}

impl HpackStringEncode for Vec<u8> {
    ghost text = { λ v. v.items };

    fn hpack_encode(&self) -> Result<Vec<u8>, HuffmanEncodingError> {
        let mut payload = Vec::with_capacity(*self.allocator(), payload_len(self))?;
        put_payload(self, &mut payload);
        Ok(payload)
    }
}

/// For each byte how many bits its code has, and the code as a number.
fn codes() -> &'static [(u32, u32); 256]
    ensures { AreCodes result.now }
{
    &CODES
}

#[rattlefmt::skip]
static CODES: [(u32, u32); 256] = [
    (13, 0x1ff8), (23, 0x7fffd8), (28, 0xfffffe2), (28, 0xfffffe3), (28, 0xfffffe4), (28, 0xfffffe5), (28, 0xfffffe6),
    (28, 0xfffffe7), (28, 0xfffffe8), (24, 0xffffea), (30, 0x3ffffffc), (28, 0xfffffe9), (28, 0xfffffea),
    (30, 0x3ffffffd), (28, 0xfffffeb), (28, 0xfffffec), (28, 0xfffffed), (28, 0xfffffee), (28, 0xfffffef),
    (28, 0xffffff0), (28, 0xffffff1), (28, 0xffffff2), (30, 0x3ffffffe), (28, 0xffffff3), (28, 0xffffff4),
    (28, 0xffffff5), (28, 0xffffff6), (28, 0xffffff7), (28, 0xffffff8), (28, 0xffffff9), (28, 0xffffffa),
    (28, 0xffffffb), (6, 0x14), (10, 0x3f8), (10, 0x3f9), (12, 0xffa), (13, 0x1ff9), (6, 0x15), (8, 0xf8), (11, 0x7fa),
    (10, 0x3fa), (10, 0x3fb), (8, 0xf9), (11, 0x7fb), (8, 0xfa), (6, 0x16), (6, 0x17), (6, 0x18), (5, 0x0), (5, 0x1),
    (5, 0x2), (6, 0x19), (6, 0x1a), (6, 0x1b), (6, 0x1c), (6, 0x1d), (6, 0x1e), (6, 0x1f), (7, 0x5c), (8, 0xfb),
    (15, 0x7ffc), (6, 0x20), (12, 0xffb), (10, 0x3fc), (13, 0x1ffa), (6, 0x21), (7, 0x5d), (7, 0x5e), (7, 0x5f),
    (7, 0x60), (7, 0x61), (7, 0x62), (7, 0x63), (7, 0x64), (7, 0x65), (7, 0x66), (7, 0x67), (7, 0x68), (7, 0x69),
    (7, 0x6a), (7, 0x6b), (7, 0x6c), (7, 0x6d), (7, 0x6e), (7, 0x6f), (7, 0x70), (7, 0x71), (7, 0x72), (8, 0xfc),
    (7, 0x73), (8, 0xfd), (13, 0x1ffb), (19, 0x7fff0), (13, 0x1ffc), (14, 0x3ffc), (6, 0x22), (15, 0x7ffd), (5, 0x3),
    (6, 0x23), (5, 0x4), (6, 0x24), (5, 0x5), (6, 0x25), (6, 0x26), (6, 0x27), (5, 0x6), (7, 0x74), (7, 0x75),
    (6, 0x28), (6, 0x29), (6, 0x2a), (5, 0x7), (6, 0x2b), (7, 0x76), (6, 0x2c), (5, 0x8), (5, 0x9), (6, 0x2d),
    (7, 0x77), (7, 0x78), (7, 0x79), (7, 0x7a), (7, 0x7b), (15, 0x7ffe), (11, 0x7fc), (14, 0x3ffd), (13, 0x1ffd),
    (28, 0xffffffc), (20, 0xfffe6), (22, 0x3fffd2), (20, 0xfffe7), (20, 0xfffe8), (22, 0x3fffd3), (22, 0x3fffd4),
    (22, 0x3fffd5), (23, 0x7fffd9), (22, 0x3fffd6), (23, 0x7fffda), (23, 0x7fffdb), (23, 0x7fffdc), (23, 0x7fffdd),
    (23, 0x7fffde), (24, 0xffffeb), (23, 0x7fffdf), (24, 0xffffec), (24, 0xffffed), (22, 0x3fffd7), (23, 0x7fffe0),
    (24, 0xffffee), (23, 0x7fffe1), (23, 0x7fffe2), (23, 0x7fffe3), (23, 0x7fffe4), (21, 0x1fffdc), (22, 0x3fffd8),
    (23, 0x7fffe5), (22, 0x3fffd9), (23, 0x7fffe6), (23, 0x7fffe7), (24, 0xffffef), (22, 0x3fffda), (21, 0x1fffdd),
    (20, 0xfffe9), (22, 0x3fffdb), (22, 0x3fffdc), (23, 0x7fffe8), (23, 0x7fffe9), (21, 0x1fffde), (23, 0x7fffea),
    (22, 0x3fffdd), (22, 0x3fffde), (24, 0xfffff0), (21, 0x1fffdf), (22, 0x3fffdf), (23, 0x7fffeb), (23, 0x7fffec),
    (21, 0x1fffe0), (21, 0x1fffe1), (22, 0x3fffe0), (21, 0x1fffe2), (23, 0x7fffed), (22, 0x3fffe1), (23, 0x7fffee),
    (23, 0x7fffef), (20, 0xfffea), (22, 0x3fffe2), (22, 0x3fffe3), (22, 0x3fffe4), (23, 0x7ffff0), (22, 0x3fffe5),
    (22, 0x3fffe6), (23, 0x7ffff1), (26, 0x3ffffe0), (26, 0x3ffffe1), (20, 0xfffeb), (19, 0x7fff1), (22, 0x3fffe7),
    (23, 0x7ffff2), (22, 0x3fffe8), (25, 0x1ffffec), (26, 0x3ffffe2), (26, 0x3ffffe3), (26, 0x3ffffe4), (27, 0x7ffffde),
    (27, 0x7ffffdf), (26, 0x3ffffe5), (24, 0xfffff1), (25, 0x1ffffed), (19, 0x7fff2), (21, 0x1fffe3), (26, 0x3ffffe6),
    (27, 0x7ffffe0), (27, 0x7ffffe1), (26, 0x3ffffe7), (27, 0x7ffffe2), (24, 0xfffff2), (21, 0x1fffe4), (21, 0x1fffe5),
    (26, 0x3ffffe8), (26, 0x3ffffe9), (28, 0xffffffd), (27, 0x7ffffe3), (27, 0x7ffffe4), (27, 0x7ffffe5), (20, 0xfffec),
    (24, 0xfffff3), (20, 0xfffed), (21, 0x1fffe6), (22, 0x3fffe9), (21, 0x1fffe7), (21, 0x1fffe8), (23, 0x7ffff3),
    (22, 0x3fffea), (22, 0x3fffeb), (25, 0x1ffffee), (25, 0x1ffffef), (24, 0xfffff4), (24, 0xfffff5), (26, 0x3ffffea),
    (23, 0x7ffff4), (26, 0x3ffffeb), (27, 0x7ffffe6), (26, 0x3ffffec), (26, 0x3ffffed), (27, 0x7ffffe7),
    (27, 0x7ffffe8), (27, 0x7ffffe9), (27, 0x7ffffea), (27, 0x7ffffeb), (28, 0xffffffe), (27, 0x7ffffec),
    (27, 0x7ffffed), (27, 0x7ffffee), (27, 0x7ffffef), (27, 0x7fffff0), (26, 0x3ffffee),
];
