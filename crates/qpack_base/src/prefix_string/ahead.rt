//! Reading the codes of a whole payload, one after the other (RFC 7541, section 5.2 and Appendix B). What is loaded
//! is passed by value, so that it stays in registers.

ghost use Rattle.std.specs.Prelude.{◌≡◌, ◌+◌, ◌*◌, ◌-◌, ◌/◌, ◌^◌, ◌<◌, ◌≤◌, ◌++◌, IfSome};
ghost use Rattle.std.specs.Prelude.{length, vec_len, vec_capacity};
ghost use Rattle.qpack_base.specs.HuffmanTables.{pair_bits, pair_bytes};
ghost use Rattle.qpack_spec.specs.Huffman.{bits_of, bits_of_bytes};
ghost use Rattle.qpack_base.specs.Payloads.{bits_ahead, IsAhead, BeginsCode, BeginsCodes, PassesCodes, bytes_of_codes};
ghost use Rattle.qpack_base.specs.Payloads.{FitsAhead, PushesNext};

use crate::prefix_string::decoding::{DecodeIter, long_code, short_codes};
use crate::prefix_string::pair_table::pairs;
use std::alloc::Allocator;

/// How many bits a look into `pairs` takes.
const WINDOW: u32 = 12;

/// The bits of a payload that are still to be read: the highest `count` bits of `loaded`, and then those of `rest`.
#[derive(Clone, Copy)]
struct Ahead<'a> {
    rest: &'a [u8],
    loaded: u64,
    count: u32,
}

/// A code: its byte, and how many bits it has.
#[derive(Clone, Copy)]
struct Code {
    byte: u8,
    bits: u32,
}

/// One code, or two that follow each other: their bytes, how many codes there are, and how many bits they have together.
/// If there is one, `second` has no meaning.
#[derive(Clone, Copy)]
struct Codes {
    first: u8,
    second: u8,
    count: u8,
    bits: u32,
}

impl<'a> Ahead<'a> {
    #[inline(always)]
    fn new(payload: &'a [u8]) -> Ahead<'a>
        ensures left { bits_ahead result ≡ bits_of_bytes payload.now }
        ensures ahead { IsAhead result }
    {
        Ahead {
            rest: payload,
            loaded: 0,
            count: 0,
        }
    }

    /// Loads four bytes or the last ones, where fewer than 32 bits are loaded.
    #[inline(always)]
    fn load(self) -> Ahead<'a>
        requires { IsAhead self }
        ensures left { bits_ahead result ≡ bits_ahead self.entry }
        ensures ahead { IsAhead result }
    {
        if self.count >= 32 || self.rest.is_empty() {
            return self;
        }
        let Some((code, rest)) = self.rest.split_first_chunk::<4>() else {
            return self.load_last();
        };
        let [first, second, third, fourth] = code;
        let code = u32::from_be_bytes([*first, *second, *third, *fourth]);
        Ahead {
            rest,
            loaded: self.loaded + ((u64::from(code) << 32) >> self.count),
            count: self.count + 32,
        }
    }

    /// Loads the last bytes, which are fewer than four.
    #[inline(always)]
    fn load_last(self) -> Ahead<'a>
        requires ahead { IsAhead self }
        requires room { self.count < 32 }
        requires few { length self.rest.now < 4 }
        ensures left { bits_ahead result ≡ bits_ahead self.entry }
        ensures ahead { IsAhead result }
    {
        let mut ahead = self;
        while let Some((first, rest)) = ahead.rest.split_first() {
            ahead = Ahead {
                rest,
                loaded: ahead.loaded + ((u64::from(*first) << 56) >> ahead.count),
                count: ahead.count + 8,
            };
        }
        ahead
    }

    /// The codes that the next twelve bits begin with, where that many are loaded.
    #[inline(always)]
    fn codes(self) -> Option<Codes>
        requires { IsAhead self }
        ensures enough { IfSome result (λ codes. 12 ≤ self.entry.count) }
        ensures begins { IfSome result (λ codes. BeginsCodes self.entry.count
            (self.entry.loaded / 2 ^ (64 - self.entry.count)) codes.bits (bytes_of_codes codes)) }
    {
        if self.count < WINDOW {
            return None;
        }
        let codes = codes_of(pairs()[(self.loaded >> 52) as usize]);
        if codes.bits > WINDOW {
            return None;
        }
        Some(codes)
    }

    /// The code that comes next, where all of it is loaded.
    #[inline(always)]
    fn code(self) -> Option<Code>
        requires { IsAhead self }
        ensures { IfSome result (λ code. (code.bits ≤ self.entry.count) × BeginsCode self.entry.count
            (self.entry.loaded / 2 ^ (64 - self.entry.count)) code.byte code.bits) }
    {
        let (byte, bits) = short_codes()[(self.loaded >> 56) as usize];
        let bits = u32::from(bits);
        if bits <= self.count {
            return Some(Code { byte, bits });
        }
        self.long_code()
    }

    /// The code of more than eight bits that comes next, where that many are loaded.
    #[inline(always)]
    fn long_code(self) -> Option<Code>
        requires { IsAhead self }
        ensures { IfSome result (λ code. (code.bits ≤ self.entry.count) × BeginsCode self.entry.count
            (self.entry.loaded / 2 ^ (64 - self.entry.count)) code.byte code.bits) }
    {
        if self.count < 8 {
            return None;
        }
        let long = long_code(self.lowest(), self.count);
        let bits = long / 0x100;
        if bits > self.count {
            return None;
        }
        let byte = (long % 0x100) as u8;
        Some(Code { byte, bits })
    }

    /// Passes bits that are loaded.
    #[inline(always)]
    fn pass(self, bits: u32) -> Ahead<'a>
        requires ahead { IsAhead self }
        requires there { bits ≤ self.count }
        ensures left { bits_ahead self.entry ≡
            bits_of bits (self.entry.loaded / 2 ^ (64 - self.entry.count) / 2 ^ (self.entry.count - bits)) ++
            bits_ahead result }
        ensures ahead { IsAhead result }
    {
        Ahead {
            rest: self.rest,
            loaded: self.loaded << bits,
            count: self.count - bits,
        }
    }

    /// The loaded bits as the lowest of a number.
    #[inline(always)]
    fn lowest(self) -> u64
        requires { IsAhead self }
        ensures is { result ≡ self.entry.loaded / 2 ^ (64 - self.entry.count) }
        ensures fits { result < 2 ^ self.entry.count }
    {
        (self.loaded >> 1) >> (63 - self.count)
    }
}

/// The codes of an entry of the table of twelve bits.
#[inline(always)]
fn codes_of(entry: u32) -> Codes
    ensures bytes { bytes_of_codes result ≡ pair_bytes entry }
    ensures bits { result.bits ≡ pair_bits entry }
{
    let [bits, count, first, second] = entry.to_le_bytes();
    Codes {
        first,
        second,
        count,
        bits: u32::from(bits),
    }
}

/// Appends the bytes of the codes. Pushes both, and then cuts the second off if there is one code, so that no branch
/// depends on the payload.
#[inline(always)]
fn push_both<A: Allocator>(text: &mut Vec<u8, A>, codes: Codes)
    requires { vec_len text.old + 2 ≤ vec_capacity text.old }
    ensures items { text.new.items ≡ text.old.items ++ bytes_of_codes codes }
    ensures len { vec_len text.new ≡ vec_len text.old + length (bytes_of_codes codes) }
    ensures capacity { vec_capacity text.new ≡ vec_capacity text.old }
{
    let start = text.len();
    text.push_reserved(codes.first);
    text.push_reserved(codes.second);
    text.truncate(start + usize::from(codes.count));
}

/// Appends the bytes of the codes that the next twelve bits begin with. Returns what is ahead after them. If fewer bits
/// are loaded, or they begin with a longer code, returns `None`, and the text is as before.
#[inline(always)]
fn push_pair<'a, A: Allocator>(ahead: Ahead<'a>, text: &mut Vec<u8, A>) -> Option<Ahead<'a>>
    requires ahead { IsAhead ahead }
    requires fits { FitsAhead ahead text.old }
    ensures { PushesNext ahead.entry result text.old text.new }
{
    let codes = ahead.codes()?;
    push_both(text, codes);
    Some(ahead.pass(codes.bits))
}

/// Appends the byte of the code that comes next. Returns what is ahead after it. If no whole code is loaded, returns
/// `None`, and the text is as before.
#[inline(always)]
fn push_code<'a, A: Allocator>(ahead: Ahead<'a>, text: &mut Vec<u8, A>) -> Option<Ahead<'a>>
    requires ahead { IsAhead ahead }
    requires fits { FitsAhead ahead text.old }
    ensures { PushesNext ahead.entry result text.old text.new }
{
    let code = ahead.code()?;
    text.push_reserved(code.byte);
    Some(ahead.pass(code.bits))
}

/// Appends the bytes of the codes that come next, up to four. Returns what is ahead after them. If no whole code is
/// loaded, returns `None`, and the text is as before.
#[inline(always)]
fn push_next<'a, A: Allocator>(ahead: Ahead<'a>, text: &mut Vec<u8, A>) -> Option<Ahead<'a>>
    requires ahead { IsAhead ahead }
    requires fits { FitsAhead ahead text.old }
    ensures { PushesNext ahead.entry result text.old text.new }
{
    let Some(left) = push_pair(ahead, text) else {
        return push_code(ahead, text);
    };
    if let Some(left) = push_pair(left, text) {
        return Some(left);
    }
    Some(left)
}

/// Appends the bytes whose codes stand at the front of the payload, up to what is no code. No code has fewer than five
/// bits, so that there is room for all of them. Answers what is left of the payload, too.
pub(super) fn push_codes<A: Allocator>(
    mut text: Vec<u8, A>,
    payload: &[u8],
) -> (Vec<u8, A>, DecodeIter<'_>)
    requires room { 8 * length payload.now ≤ 5 * (vec_capacity text - vec_len text) + 4 }
    ensures passes { PassesCodes (bits_of_bytes payload.now) result.1 text.items result.0.items }
    ensures room { length result.1 ≤ 5 * (vec_capacity result.0 - vec_len result.0) + 4 }
    ensures len { vec_len text ≤ vec_len result.0 }
    ensures capacity { vec_capacity result.0 ≡ vec_capacity text }
{
    let mut ahead = Ahead::new(payload);
    loop {
        ahead = ahead.load();
        let Some(left) = push_next(ahead, &mut text) else {
            break;
        };
        ahead = left;
    }
    let rest = DecodeIter::behind(ahead.lowest(), ahead.count, ahead.rest, payload.len());
    (text, rest)
}
