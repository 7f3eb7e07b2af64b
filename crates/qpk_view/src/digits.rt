//! Hexadecimal as people have it: in words, with colons, and with `0x` before a word.

use crate::fault::Fault;
use hex::FromHexError;
use std::alloc::Global;

/// Bytes that were read, and whether a digit is left after them.
#[derive(Drop)]
pub(crate) struct Digits {
    pub(crate) bytes: Vec<u8>,
    pub(crate) has_half: bool,
}

/// Reads the bytes of words in hexadecimal; a byte may begin in one word and end in the next. Returns `None` if a word
/// has anything except digits and colons after its `0x`.
pub(crate) fn read_digits(alloc: Global, words: &[&str]) -> Result<Option<Digits>, Fault> {
    let mut digits = Vec::new(alloc);
    for word in words {
        if !push_digits(&mut digits, without_mark(word.as_bytes()))? {
            return Ok(None);
        }
    }
    let has_half = digits.len() % 2 == 1;
    if has_half {
        digits.pop();
    }
    match hex::decode(alloc, &digits) {
        Ok(bytes) => Ok(Some(Digits { bytes, has_half })),
        Err(FromHexError::OutOfMemory) => Err(Fault::Memory),
        Err(_) => Ok(None),
    }
}

/// Returns a word without the `0x` at its front.
fn without_mark(word: &[u8]) -> &[u8] {
    word.strip_prefix(b"0x".as_slice())
        .or(word.strip_prefix(b"0X".as_slice()))
        .unwrap_or(word)
}

/// Appends the digits of a word. Returns false if it has anything except digits and colons.
fn push_digits(digits: &mut Vec<u8>, word: &[u8]) -> Result<bool, Fault> {
    for byte in word {
        if byte.is_ascii_hexdigit() {
            digits.push(*byte)?;
        } else if *byte != b':' {
            return Ok(false);
        }
    }
    Ok(true)
}
