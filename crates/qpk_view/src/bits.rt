//! Bytes as rows: where each is, its bits, and what they mean.

ghost use Rattle.std.specs.Prelude.{◌≤◌};

use crate::fields::push_bytes;
use crate::text::Text;
use qpack_base::coding::Cursor;
use qpack_base::prefix_int;
use std::alloc::Global;
use std::fmt::Display;

/// The most blanks that are within the bits of a row.
const BLANKS: u32 = 4;

/// Rows of bytes, and the bytes that have none yet.
#[derive(Drop)]
pub(crate) struct Rows<'a> {
    pub(crate) text: Text,
    /// Whether a byte can't be read, or can't mean anything with any connection.
    pub(crate) has_fault: bool,
    /// Where the next byte is, from 0.
    at: usize,
    rest: &'a [u8],
}

impl<'a> Rows<'a> {
    /// Makes no rows yet.
    pub(crate) fn new(alloc: Global, bytes: &'a [u8]) -> Rows<'a> {
        Rows {
            text: Text::new(alloc),
            has_fault: false,
            at: 0,
            rest: bytes,
        }
    }

    /// Returns the bytes that have no row yet.
    pub(crate) fn rest(&self) -> &'a [u8] {
        self.rest
    }

    /// Begins the row of the next byte, with which an integer begins that has a prefix of this many bits. The row's
    /// meaning comes next. Returns how many bytes the integer has, or 1 if there is none.
    pub(crate) fn begin_integer(&mut self, size: u8, mask: u8) -> usize
        requires least { 1 ≤ size }
        requires most { size ≤ 8 }
    {
        let mut cursor = Cursor::new(self.rest);
        let len = match prefix_int::decode(size, &mut cursor) {
            Ok(_) => cursor.position(),
            Err(_) => 1,
        };
        self.begin(mask);
        len
    }

    /// Ends a row, and adds those of the further bytes of the integer of this many that begins in it.
    pub(crate) fn end_integer(&mut self, len: usize) {
        self.text.push_str("\n");
        for _ in 1..len {
            self.begin(0b1000_0000);
            self.text
                .push_str("7 more bits of it, above those before\n");
        }
    }

    /// Adds the rows of an integer that begins with a prefix of this many bits, of which a value between two texts is the
    /// meaning.
    pub(crate) fn push_integer<T: Display>(
        &mut self,
        size: u8,
        mask: u8,
        front: &str,
        value: &T,
        back: &str,
    )
        requires least { 1 ≤ size }
        requires most { size ≤ 8 }
    {
        let len = self.begin_integer(size, mask);
        self.text.push_between(front, value, back);
        self.end_integer(len);
    }

    /// Begins the row of the next byte, up to its meaning. A blank comes after each bit that the mask has.
    fn begin(&mut self, mask: u8) {
        self.push_byte(mask);
        for _ in mask.count_ones()..BLANKS {
            self.text.push_str(" ");
        }
        self.text.push_str("  ");
    }

    /// Appends where the next byte is, the byte, and its bits, with a blank after each that the mask has.
    fn push_byte(&mut self, mask: u8) {
        let Some((byte, rest)) = self.rest.split_first() else {
            return;
        };
        self.push_offset();
        push_byte(&mut self.text, *byte, mask);
        self.rest = rest;
        self.at = self.at.saturating_add(1);
    }

    /// Appends where the next byte is.
    fn push_offset(&mut self) {
        let offset = format!(in self.text.allocator(); "{:>4}  ", self.at);
        self.text.push_made(offset);
    }

    /// Adds the row of the next byte, without a meaning.
    fn push_bare(&mut self) {
        self.push_byte(0);
        self.text.push_str("\n");
    }

    /// Adds the rows of a string of this value, which begins with a prefix of this many bits, its first Huffman or not.
    pub(crate) fn push_string(&mut self, size: u8, mask: u8, name: &str, value: &[u8])
        requires least { 2 ≤ size }
        requires most { size ≤ 8 }
    {
        let Ok((flags, len)) = prefix_int::decode(size - 1, &mut Cursor::new(self.rest)) else {
            return;
        };
        let bytes = self.begin_integer(size - 1, mask);
        push_length(&mut self.text, name, flags % 2 == 1, len);
        self.end_integer(bytes);
        if len > 0 {
            self.push_payload(len, value);
        }
    }

    /// Adds the rows of a value.
    pub(crate) fn push_value(&mut self, value: &[u8]) {
        self.push_string(8, 0b1000_0000, "value", value);
    }

    /// Adds the rows of a string's bytes, of which the first has the value.
    fn push_payload(&mut self, len: u64, value: &[u8]) {
        self.begin(0);
        self.text.push_str("\"");
        push_bytes(&mut self.text, value, b' ');
        self.text.push_str("\"\n");
        for _ in 1..len {
            if self.rest.is_empty() {
                break;
            }
            self.push_bare();
        }
    }

    /// Begins the rows of all bytes that are left, which mean nothing. Why comes next.
    pub(crate) fn begin_unread(&mut self) {
        self.has_fault = true;
        if self.rest.is_empty() {
            self.push_offset();
        } else {
            self.begin(0);
        }
        self.text.push_str("not read: ");
    }

    /// Ends the row of why bytes mean nothing, and adds those of the other bytes that are left.
    pub(crate) fn end_unread(&mut self) {
        self.text.push_str("\n");
        for _ in 0..self.rest.len() {
            self.push_bare();
        }
    }
}

/// Appends the name of a string, its form, and its length.
fn push_length(text: &mut Text, name: &str, is_huffman: bool, len: u64) {
    text.push_str(name);
    text.push_str(if is_huffman { ": Huffman" } else { ": plain" });
    text.push_value(", length ", &len);
}

/// Appends a byte, and its bits, with a blank after each that the mask has.
fn push_byte(text: &mut Text, byte: u8, mask: u8) {
    text.push_digits(byte);
    text.push_str("  ");
    push_bits(text, byte, mask);
}

/// Appends the bits of a byte, with a blank after each that the mask has.
fn push_bits(text: &mut Text, byte: u8, mask: u8) {
    for bit in [128u8, 64, 32, 16, 8, 4, 2, 1] {
        text.push_str(if byte & bit == 0 { "0" } else { "1" });
        text.push_str(if mask & bit == 0 { "" } else { " " });
    }
}
