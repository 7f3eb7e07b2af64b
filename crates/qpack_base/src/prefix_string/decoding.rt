//! Reading Huffman coded payloads (RFC 7541, section 5.2), and the code as two tables (Appendix B).

ghost use Rattle.std.specs.Prelude.{◌≡◌, ℕ, ◌+◌, ◌*◌, ◌/◌, ◌%◌, ◌^◌, ◌<◌, ◌≤◌, ◌-◌, List, [], ◌++◌, length};
ghost use Rattle.std.specs.Prelude.{MatchOption, OnOk, IsTrue, true, slice_index, take};
ghost use Rattle.std.specs.Iterator.{at_most};
ghost use Rattle.qpack_spec.specs.Huffman.{bits_of, bits_of_bytes, bytes_by_length, code_at, is_padding};
ghost use Rattle.qpack_base.specs.HuffmanTables.{AreShortCodes, ArePassed, rows_at, long_rows};
ghost use Rattle.qpack_base.specs.Payloads.{GivesItem, ReadsCode, bits_left, IsLoaded, IsFull, KeepsRest, BeginsCode};

use crate::prefix_string::bitwin::BitWindow;
use std::marker::Model;
use thiserror::Error as ThisError;

/// Why a payload means nothing.
#[derive(Clone, Copy, Debug, Drop, PartialEq, ThisError)]
pub enum HuffmanDecodingError {
    /// Behind the last code stand bits that are neither a code nor fewer than eight ones.
    #[error("missing bits")]
    MissingBits(BitWindow),
    /// Behind the last code stand thirty ones, EOS.
    #[error("unhandled code word")]
    Unhandled(BitWindow, usize),
}

/// The bits of a payload that are still to be read: the lowest `count` bits of `loaded`, and then
/// those of `rest`.
#[derive(Debug, Drop)]
struct Bits<'a> {
    rest: &'a [u8],
    loaded: u64,
    count: u32,
    length: usize,
}

/// From here on, eight bits begin no code of at most eight bits.
const LONG: u64 = 0xfe;

/// From here on, 24 bits begin no code of at most 15 bits. The next longer ones have 19.
const CODES_OF_19: u64 = 0xff_fe00;

/// From here on, 24 bits begin no code of at most 23 bits.
const CODES_OF_24: u64 = 0xff_ffea;

/// How many loaded bits serve every code.
const ENOUGH: u32 = 32;

/// More bits than are ever loaded, 256 times.
const NO_CODE: u32 = 0x4000;

/// Thirty ones.
const EOS: usize = 0x3fff_ffff;

impl<'a> Bits<'a> {
    fn new(payload: &'a [u8]) -> Bits<'a>
        ensures left { bits_left result ≡ bits_of_bytes payload.now }
        ensures loaded { IsLoaded result }
    {
        Bits {
            rest: payload,
            loaded: 0,
            count: 0,
            length: payload.len(),
        }
    }

    /// Loads bytes until there are enough bits for every code, or no more bytes.
    fn load(&mut self)
        requires { IsLoaded self.old }
        ensures left { bits_left self.new ≡ bits_left self.old }
        ensures loaded { IsLoaded self.new }
        ensures full { IsFull self.new }
    {
        if self.count >= ENOUGH {
            return;
        }
        let Some((code, rest)) = self.rest.split_first_chunk::<4>() else {
            self.load_last();
            return;
        };
        let [first, second, third, fourth] = code;
        let code = u32::from_be_bytes([*first, *second, *third, *fourth]);
        self.loaded = self.loaded * 0x1_0000_0000 + u64::from(code);
        self.count += 32;
        self.rest = rest;
    }

    /// Loads the last bytes, which are fewer than four.
    fn load_last(&mut self)
        requires loaded { IsLoaded self.old }
        requires room { self.old.count < 32 }
        requires few { length self.old.rest.now < 4 }
        ensures left { bits_left self.new ≡ bits_left self.old }
        ensures loaded { IsLoaded self.new }
        ensures full { IsFull self.new }
    {
        while let Some((first, rest)) = self.rest.split_first() {
            self.loaded = self.loaded * 0x100 + u64::from(*first);
            self.count += 8;
            self.rest = rest;
        }
    }

    /// What comes next: a byte, a fault, or the end.
    fn item(&mut self) -> Option<Result<u8, HuffmanDecodingError>>
        requires loaded { IsLoaded self.old }
        requires full { IsFull self.old }
        ensures gives { GivesItem (bits_left self.old) result (bits_left self.new) }
        ensures loaded { IsLoaded self.new }
    {
        if self.count < 8 {
            return self.last_item();
        }
        let window = self.loaded >> (self.count - 8);
        if window >= LONG {
            return Some(self.long_code());
        }
        let (byte, bits) = short_codes()[window as usize];
        self.pass(u32::from(bits));
        Some(Ok(byte))
    }

    /// The same of the last bits, which are fewer than eight: they are filled up with ones, and a code
    /// counts only where all of it remains.
    fn last_item(&mut self) -> Option<Result<u8, HuffmanDecodingError>>
        requires loaded { IsLoaded self.old }
        requires few { self.old.count < 8 }
        requires all { self.old.rest.now ≡ [] }
        ensures gives { GivesItem (bits_left self.old) result (bits_left self.new) }
        ensures loaded { IsLoaded self.new }
    {
        let places = power(8 - self.count);
        let window = self.loaded * places + (places - 1);
        if window == 0xff {
            self.stop();
            return None;
        }
        let (byte, bits) = short_codes()[window as usize];
        let bits = u32::from(bits);
        if bits > self.count {
            let window = self.window();
            self.stop();
            return Some(Err(HuffmanDecodingError::MissingBits(window)));
        }
        self.pass(bits);
        Some(Ok(byte))
    }

    /// The byte whose code of more than eight bits comes next.
    fn long_code(&mut self) -> Result<u8, HuffmanDecodingError>
        requires loaded { IsLoaded self.old }
        requires full { IsFull self.old }
        requires eight { 8 ≤ self.old.count }
        requires long { 254 ≤ self.old.loaded / 2 ^ (self.old.count - 8) }
        ensures gives { ReadsCode (bits_left self.old) (bits_left self.new) result
            (code_at bytes_by_length 0 0 (bits_left self.old)) }
        ensures loaded { IsLoaded self.new }
        ensures rest { OnOk result (self.new.rest.now ≡ self.old.rest.now) }
    {
        let rows = &long_codes()[self.passed_rows()..];
        for row in rows {
            let bits = u32::from(row.0);
            if bits > self.count {
                let window = self.window();
                self.stop();
                return Err(HuffmanDecodingError::MissingBits(window));
            }
            let number = self.loaded >> (self.count - bits);
            if let Some(byte) = byte_at(number, u64::from(row.1), row.2) {
                self.pass(bits);
                return Ok(byte);
            }
        }
        let window = self.window();
        self.stop();
        Err(HuffmanDecodingError::Unhandled(window, EOS))
    }

    /// How many of the first rows of long codes are passed at sight: what comes next is greater than their codes.
    fn passed_rows(&self) -> usize
        requires { IsLoaded self.now }
        ensures few { result ≤ 17 }
        ensures smaller { ArePassed self.now.count self.now.loaded (take result long_rows) }
    {
        if self.count < 24 {
            return 0;
        }
        let window = self.loaded >> (self.count - 24);
        if window >= CODES_OF_24 {
            11
        } else if window >= CODES_OF_19 {
            6
        } else {
            0
        }
    }

    /// The place of the next bit, and how many are loaded.
    fn window(&self) -> BitWindow {
        let loaded = self.length.saturating_sub(self.rest.len()) as u64;
        let count = u64::from(self.count);
        BitWindow {
            byte: loaded.saturating_sub((count + 7) / 8),
            bit: (8 - count % 8) % 8,
            count,
        }
    }

    /// Passes bits that are loaded.
    fn pass(&mut self, bits: u32)
        requires loaded { IsLoaded self.old }
        requires there { bits ≤ self.old.count }
        ensures rest { KeepsRest bits self.old self.new }
        ensures loaded { IsLoaded self.new }
    {
        self.count -= bits;
        self.loaded = low_bits(self.loaded, self.count);
    }

    /// Passes all bits.
    fn stop(&mut self)
        ensures left { bits_left self.new ≡ [] }
        ensures loaded { IsLoaded self.new }
    {
        self.rest = &[];
        self.loaded = 0;
        self.count = 0;
    }
}

/// The byte whose code of more than eight bits the lowest `count` bits of `loaded` begin with, and 256 times how many
/// bits that has; or `NO_CODE`. It is one number, and no reference is taken, so that a caller's loop keeps its state in
/// registers.
#[inline(never)]
pub(super) fn long_code(loaded: u64, count: u32) -> u32
    requires few { count < 64 }
    requires fits { loaded < 2 ^ count }
    ensures { BeginsCode count loaded (result % 256) (result / 256) }
{
    if count < 8 || loaded >> (count - 8) < LONG {
        return NO_CODE;
    }
    let mut bits = Bits {
        rest: &[],
        loaded,
        count,
        length: 0,
    };
    match bits.long_code() {
        Ok(byte) => u32::from(byte) + 0x100 * (count - bits.count),
        Err(_) => NO_CODE,
    }
}

/// The byte whose code is the number, where those of the bytes are the numbers from `first` on.
fn byte_at(number: u64, first: u64, bytes: &[u8]) -> Option<u8>
    ensures { MatchOption result (first ≤ number → length bytes.now ≤ number - first)
        (λ b. (first ≤ number) × (number - first < length bytes.now) × (b ≡ slice_index bytes.now (number - first))) }
{
    if number < first {
        return None;
    }
    bytes.get((number - first) as usize).copied()
}

/// The lowest bits of a number.
fn low_bits(value: u64, bits: u32) -> u64
    requires { bits < 64 }
    ensures { result ≡ value % 2 ^ bits }
{
    value % power(bits)
}

/// Two to the number of bits.
fn power(bits: u32) -> u64
    requires { bits < 64 }
    ensures { result ≡ 2 ^ bits }
{
    1 << bits
}

/// The bytes that a payload's codes spell. It ends after its first fault.
#[derive(Debug, Drop)]
pub struct DecodeIter<'a> {
    bits: Bits<'a>,
}

impl<'a> Model for DecodeIter<'a> {
    ghost Value = { List ℕ };

    ghost view = { λ d. bits_left d.bits };

    ghost invariant = { λ d. IsLoaded d.bits };
}

impl<'a> DecodeIter<'a> {
    /// Over a payload.
    pub(super) fn new(payload: &'a [u8]) -> DecodeIter<'a>
        ensures { result ≡ bits_of_bytes payload.now }
    {
        DecodeIter {
            bits: Bits::new(payload),
        }
    }

    /// Over the lowest `count` bits of `loaded`, and then those of `rest`, which ends a payload of `length` bytes.
    pub(super) fn behind(loaded: u64, count: u32, rest: &'a [u8], length: usize) -> DecodeIter<'a>
        requires few { count < 64 }
        requires fits { loaded < 2 ^ count }
        ensures { result ≡ bits_of count loaded ++ bits_of_bytes rest.now }
    {
        DecodeIter {
            bits: Bits {
                rest,
                loaded,
                count,
                length,
            },
        }
    }

    /// Whether what is left is seen to be the end: fewer than eight ones.
    #[inline(always)]
    pub(super) fn is_end(&self) -> bool
        ensures { IsTrue result → is_padding 8 self.now ≡ true }
    {
        let bits = &self.bits;
        if !bits.rest.is_empty() || bits.count >= 8 {
            return false;
        }
        bits.loaded == power(bits.count) - 1
    }
}

impl<'a> Iterator for DecodeIter<'a> {
    type Item = Result<u8, HuffmanDecodingError>;

    ghost next_gives = { λ bits item left. GivesItem bits item left };

    ghost remaining = { λ bits. at_most (length bits) };

    fn next(&mut self) -> Option<Result<u8, HuffmanDecodingError>> {
        self.bits.load();
        self.bits.item()
    }
}

/// What can be read as a payload.
pub trait HpackStringDecode {
    /// The bytes of the payload.
    ghost payload: { Self → List ℕ };

    /// The bytes that the payload's codes spell, up to its first fault. Takes no memory.
    fn hpack_decode(&self) -> DecodeIter<'_>
        ensures { result ≡ bits_of_bytes (payload self.now) };
}

impl HpackStringDecode for Vec<u8> {
    ghost payload = { λ v. v.items };

    fn hpack_decode(&self) -> DecodeIter<'_> {
        DecodeIter::new(self)
    }
}

/// For each eight bits the byte whose code they begin with, and how many bits that code has. The last two begin no such
/// code, and have more bits than are ever loaded.
pub(super) fn short_codes() -> &'static [(u8, u8); 256]
    ensures { AreShortCodes result.now }
{
    &SHORT
}

/// The lengths of the codes of more than eight bits, in rising order, each with its first code and
/// the bytes whose codes are the numbers from that on.
fn long_codes() -> &'static [(u8, u32, &'static [u8]); 17]
    ensures { rows_at result.now ≡ long_rows }
{
    &LONG_ROWS
}

#[rattlefmt::skip]
static SHORT: [(u8, u8); 256] = [
    (48, 5), (48, 5), (48, 5), (48, 5), (48, 5), (48, 5), (48, 5), (48, 5),
    (49, 5), (49, 5), (49, 5), (49, 5), (49, 5), (49, 5), (49, 5), (49, 5),
    (50, 5), (50, 5), (50, 5), (50, 5), (50, 5), (50, 5), (50, 5), (50, 5),
    (97, 5), (97, 5), (97, 5), (97, 5), (97, 5), (97, 5), (97, 5), (97, 5),
    (99, 5), (99, 5), (99, 5), (99, 5), (99, 5), (99, 5), (99, 5), (99, 5),
    (101, 5), (101, 5), (101, 5), (101, 5), (101, 5), (101, 5), (101, 5), (101, 5),
    (105, 5), (105, 5), (105, 5), (105, 5), (105, 5), (105, 5), (105, 5), (105, 5),
    (111, 5), (111, 5), (111, 5), (111, 5), (111, 5), (111, 5), (111, 5), (111, 5),
    (115, 5), (115, 5), (115, 5), (115, 5), (115, 5), (115, 5), (115, 5), (115, 5),
    (116, 5), (116, 5), (116, 5), (116, 5), (116, 5), (116, 5), (116, 5), (116, 5),
    (32, 6), (32, 6), (32, 6), (32, 6), (37, 6), (37, 6), (37, 6), (37, 6),
    (45, 6), (45, 6), (45, 6), (45, 6), (46, 6), (46, 6), (46, 6), (46, 6),
    (47, 6), (47, 6), (47, 6), (47, 6), (51, 6), (51, 6), (51, 6), (51, 6),
    (52, 6), (52, 6), (52, 6), (52, 6), (53, 6), (53, 6), (53, 6), (53, 6),
    (54, 6), (54, 6), (54, 6), (54, 6), (55, 6), (55, 6), (55, 6), (55, 6),
    (56, 6), (56, 6), (56, 6), (56, 6), (57, 6), (57, 6), (57, 6), (57, 6),
    (61, 6), (61, 6), (61, 6), (61, 6), (65, 6), (65, 6), (65, 6), (65, 6),
    (95, 6), (95, 6), (95, 6), (95, 6), (98, 6), (98, 6), (98, 6), (98, 6),
    (100, 6), (100, 6), (100, 6), (100, 6), (102, 6), (102, 6), (102, 6), (102, 6),
    (103, 6), (103, 6), (103, 6), (103, 6), (104, 6), (104, 6), (104, 6), (104, 6),
    (108, 6), (108, 6), (108, 6), (108, 6), (109, 6), (109, 6), (109, 6), (109, 6),
    (110, 6), (110, 6), (110, 6), (110, 6), (112, 6), (112, 6), (112, 6), (112, 6),
    (114, 6), (114, 6), (114, 6), (114, 6), (117, 6), (117, 6), (117, 6), (117, 6),
    (58, 7), (58, 7), (66, 7), (66, 7), (67, 7), (67, 7), (68, 7), (68, 7),
    (69, 7), (69, 7), (70, 7), (70, 7), (71, 7), (71, 7), (72, 7), (72, 7),
    (73, 7), (73, 7), (74, 7), (74, 7), (75, 7), (75, 7), (76, 7), (76, 7),
    (77, 7), (77, 7), (78, 7), (78, 7), (79, 7), (79, 7), (80, 7), (80, 7),
    (81, 7), (81, 7), (82, 7), (82, 7), (83, 7), (83, 7), (84, 7), (84, 7),
    (85, 7), (85, 7), (86, 7), (86, 7), (87, 7), (87, 7), (89, 7), (89, 7),
    (106, 7), (106, 7), (107, 7), (107, 7), (113, 7), (113, 7), (118, 7), (118, 7),
    (119, 7), (119, 7), (120, 7), (120, 7), (121, 7), (121, 7), (122, 7), (122, 7),
    (38, 8), (42, 8), (44, 8), (59, 8), (88, 8), (90, 8), (0, 64), (0, 64),
];

static LONG_ROWS: [(u8, u32, &[u8]); 17] = [
    (10, 0x3f8, &[33, 34, 40, 41, 63]),
    (11, 0x7fa, &[39, 43, 124]),
    (12, 0xffa, &[35, 62]),
    (13, 0x1ff8, &[0, 36, 64, 91, 93, 126]),
    (14, 0x3ffc, &[94, 125]),
    (15, 0x7ffc, &[60, 96, 123]),
    (19, 0x7fff0, &[92, 195, 208]),
    (20, 0xfffe6, &[128, 130, 131, 162, 184, 194, 224, 226]),
    (
        21,
        0x1fffdc,
        &[
            153, 161, 167, 172, 176, 177, 179, 209, 216, 217, 227, 229, 230,
        ],
    ),
    (
        22,
        0x3fffd2,
        &[
            129, 132, 133, 134, 136, 146, 154, 156, 160, 163, 164, 169, 170, 173, 178, 181, 185,
            186, 187, 189, 190, 196, 198, 228, 232, 233,
        ],
    ),
    (
        23,
        0x7fffd8,
        &[
            1, 135, 137, 138, 139, 140, 141, 143, 147, 149, 150, 151, 152, 155, 157, 158, 165, 166,
            168, 174, 175, 180, 182, 183, 188, 191, 197, 231, 239,
        ],
    ),
    (
        24,
        0xffffea,
        &[9, 142, 144, 145, 148, 159, 171, 206, 215, 225, 236, 237],
    ),
    (25, 0x1ffffec, &[199, 207, 234, 235]),
    (
        26,
        0x3ffffe0,
        &[
            192, 193, 200, 201, 202, 205, 210, 213, 218, 219, 238, 240, 242, 243, 255,
        ],
    ),
    (
        27,
        0x7ffffde,
        &[
            203, 204, 211, 212, 214, 221, 222, 223, 241, 244, 245, 246, 247, 248, 250, 251, 252,
            253, 254,
        ],
    ),
    (
        28,
        0xfffffe2,
        &[
            2, 3, 4, 5, 6, 7, 8, 11, 12, 14, 15, 16, 17, 18, 19, 20, 21, 23, 24, 25, 26, 27, 28,
            29, 30, 31, 127, 220, 249,
        ],
    ),
    (30, 0x3ffffffc, &[10, 13, 22]),
];
