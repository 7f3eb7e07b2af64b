//! String literals with a prefix of 2 to 8 bits, plain or Huffman coded (RFC 7541, section 5.2;
//! RFC 9204, section 4.1.2).

ghost use Rattle.std.specs.Prelude.{◌≡◌, ◌≢◌, ℕ, ◌≤◌, ◌-◌, ◌++◌, ◌↔◌, List, [], Err, IfOk, IfErr, OnOk, OnErr};
ghost use Rattle.std.specs.Prelude.{◌+◌, ◌*◌, ◌/◌, ◌<◌, Ok, length, take, vec_len, vec_capacity, IsTrue, false, max, min, ◌^◌};
ghost use Rattle.qpack_spec.specs.Bytes.{Begins};
ghost use Rattle.qpack_spec.specs.Huffman.{HuffmanFault, bits_of_bytes, payload_of, with_front, text_of_bits};
ghost use Rattle.qpack_spec.specs.Text.{LengthOverflows, BadHuffman, SpellsString, RefusesString, TruncatesString};
ghost use Rattle.qpack_spec.specs.Text.{HoldsPayload, value_before, string_at, is_coded, written_literal_of};
ghost use Rattle.qpack_spec.specs.Text.{coded_string, written_string};
ghost use Rattle.qpack_base.specs.Cursor.{MovesPast};
ghost use Rattle.qpack_base.specs.Payloads.{huffman_fault_of, HasRoom};
ghost use Rattle.qpack_base.specs.Refusals.{IsRefusedFor};
ghost use Rattle.qpack_base.specs.Writes.{Writes};
ghost use Rattle.qpack_base.specs.Strings.{error_of_integer, string_fault_of, meaning, ReadsString};
ghost use Rattle.qpack_base.specs.Strings.{AppendsText, GivesValue, IsFaulty, GivesFault};
ghost use Rattle.qpack_base.specs.Codings.{coding_of};
ghost use Rattle.qpack_base.specs.Strings.{AppendsStringWithin, AppendsTextWithin, FitsWithin, FitsStringWithin};
ghost use Rattle.qpack_base.specs.declared.prefix_string.Attempt.TheVariants.{Appended, Plain};
ghost use Rattle.qpack_base.specs.declared.prefix_string.Error.TheVariants.{UnexpectedEnd as Truncated};
ghost use Rattle.qpack_base.specs.declared.prefix_string.Error.TheVariants.{Integer as BadLength};
ghost use Rattle.qpack_base.specs.declared.prefix_string.Error.TheVariants.{HuffmanDecoding as BadPayload};
ghost use Rattle.qpack_base.specs.declared.prefix_string.Error.TheVariants.{Memory as NoRoom};
ghost use Rattle.qpack_base.specs.declared.prefix_int.Error.TheVariants.{Overflow};

mod ahead;
mod bitwin;
mod decoding;
mod encoding;
mod pair_table;

use crate::coding::{Cursor, NoMemory, append_within, extended, make_room, make_room_within};
use crate::prefix_int;
use crate::prefix_string::ahead::push_codes;
pub use crate::prefix_string::bitwin::BitWindow;
pub use crate::prefix_string::decoding::{DecodeIter, HpackStringDecode, HuffmanDecodingError};
pub use crate::prefix_string::encoding::{HpackStringEncode, HuffmanEncodingError};
use core::mem::replace_with;
use std::alloc::{AllocError, AllocFailed, Allocator, Global};
use thiserror::Error as ThisError;

/// Why a string could not be read or written.
#[derive(Clone, Copy, Debug, PartialEq, Drop, ThisError)]
pub enum Error {
    /// The bytes end within the string.
    #[error("unexpected end")]
    UnexpectedEnd,
    /// The length overflows.
    #[error("could not parse integer: {0}")]
    Integer(prefix_int::Error),
    /// The coded payload is malformed.
    #[error("Huffman decode failed: {0:?}")]
    HuffmanDecoding(HuffmanDecodingError),
    /// Kept from the original, and never returned: a refused growth is `Memory`.
    #[error("Huffman encode failed: {0:?}")]
    HuffmanEncoding(HuffmanEncodingError),
    /// Kept from the original, and never returned: no number is narrowed.
    #[error("number in buffer wrong size")]
    BufSize,
    /// No memory was left.
    #[error("out of memory")]
    Memory,
}

impl From<prefix_int::Error> for Error {
    ghost from_gives = { λ e r. r ≡ error_of_integer e };

    fn from(e: prefix_int::Error) -> Error {
        match e {
            prefix_int::Error::UnexpectedEnd => Error::UnexpectedEnd,
            prefix_int::Error::Overflow => Error::Integer(prefix_int::Error::Overflow),
        }
    }
}

impl From<HuffmanDecodingError> for Error {
    ghost from_gives = { λ e r. r ≡ BadPayload e };

    fn from(e: HuffmanDecodingError) -> Error {
        Error::HuffmanDecoding(e)
    }
}

impl From<HuffmanEncodingError> for Error {
    ghost from_gives = { λ _ r. r ≡ NoRoom };

    fn from(_e: HuffmanEncodingError) -> Error {
        Error::Memory
    }
}

impl From<NoMemory> for Error {
    ghost from_gives = { λ _ r. r ≡ NoRoom };

    fn from(_e: NoMemory) -> Error {
        Error::Memory
    }
}

impl From<AllocError> for Error {
    ghost from_gives = { λ _ r. r ≡ NoRoom };

    fn from(_e: AllocError) -> Error {
        Error::Memory
    }
}

impl<T: Drop> From<AllocFailed<T>> for Error {
    ghost from_gives = { λ _ r. r ≡ NoRoom };

    fn from(_e: AllocFailed<T>) -> Error {
        Error::Memory
    }
}

/// Which strings are coded, which RFC 9204, section 4.1.2 leaves to the encoder.
#[derive(Clone, Copy, Debug, PartialEq, Drop)]
pub enum Coding {
    /// Every string.
    Always,
    /// The strings that the code makes shorter.
    WhereShorter,
}

impl Coding {
    /// Returns whether the value is coded, by the length of its payload.
    #[inline(always)]
    fn codes(self, payload_len: usize, value: &[u8]) -> bool
        requires { payload_len ≡ min (length (payload_of value.now)) (2 ^ 64 - 1) }
        ensures { result ≡ is_coded (coding_of self) value.now }
    {
        match self {
            Coding::Always => true,
            Coding::WhereShorter => payload_len < value.len(),
        }
    }
}

/// What became of a literal whose payload was written first.
#[derive(Clone, Copy, PartialEq, Drop)]
enum Attempt {
    /// It was appended.
    Appended,
    /// It is to be plain, and the vector is unchanged.
    Plain,
    /// Its length takes more bytes than were left for it, or fewer, and the vector is unchanged.
    Misfit,
}

/// The payload of a string, whole, and the flags before its length, of which the lowest says whether it is coded.
#[derive(Clone, Copy)]
struct Payload<'a> {
    flags: u8,
    bytes: &'a [u8],
}

/// Reads the string at the cursor, with a prefix of `size` bits, plain or coded. Asks for memory only if the payload is
/// whole and not empty. On error the cursor's position is unspecified.
pub fn decode(alloc: Global, size: u8, buf: &mut Cursor) -> Result<Vec<u8>, Error>
    requires least { 2 ≤ size }
    requires most { size ≤ 8 }
    // What is read is spelled so, and the cursor moves past exactly it.
    ensures found { IfOk result (λ v. (encoding : List ℕ) × (flags : ℕ) × SpellsString size encoding flags v.items ×
        MovesPast encoding buf.old buf.new) }
    // What is spelled so is read, whatever follows, unless memory is refused.
    ensures only { (encoding rest : List ℕ) (flags : ℕ) (value : List ℕ) → SpellsString size encoding flags value →
        buf.old.rest ≡ encoding ++ rest →
        GivesValue result value (MovesPast encoding buf.old buf.new) }
    ensures overflow { (result ≡ Err (BadLength Overflow)) ↔
        Begins (λ encoding. RefusesString size encoding LengthOverflows) buf.old.rest }
    ensures truncated { (result ≡ Err Truncated) ↔ TruncatesString size buf.old.rest }
    // A malformed coded payload is rejected for its fault, unless memory is refused.
    ensures faulty { (fault : HuffmanFault) → IsFaulty result fault →
        Begins (λ encoding. RefusesString size encoding (BadHuffman fault)) buf.old.rest }
    ensures refused { (fault : HuffmanFault) →
        Begins (λ encoding. RefusesString size encoding (BadHuffman fault)) buf.old.rest → GivesFault result fault }
    // Memory is refused only for a whole payload.
    ensures memory { result ≡ Err NoRoom → Begins (HoldsPayload size) buf.old.rest }
    // The clauses above as one function, which reads from left to right.
    ensures exact { ReadsString buf.old buf.new result (string_at size buf.old.rest) }
{
    read(alloc, size, buf)
}

/// Reads the string at the cursor, with a prefix of `size` bits, plain or coded, and appends its value if it has at most
/// `most` bytes. Returns how many it has. A longer one takes no memory, and the text is unchanged. The text never gets
/// room for more than `most` more bytes. On error the text is unchanged, and the cursor's position is unspecified.
pub fn decode_within<A: Allocator>(
    size: u8,
    most: usize,
    buf: &mut Cursor,
    text: &mut Vec<u8, A>,
) -> Result<usize, Error>
    requires least { 2 ≤ size }
    requires greatest { size ≤ 8 }
    // The value that is read is appended if it is no longer, and the cursor moves past exactly its string.
    ensures exact { AppendsStringWithin most buf.old buf.new text.old text.new result (string_at size buf.old.rest) }
    // Memory is refused only for a whole payload,
    ensures whole { result ≡ Err NoRoom → Begins (HoldsPayload size) buf.old.rest }
    // only if there was less room than any payload of the bytes that are left may need,
    ensures memory { result ≡ Err NoRoom →
        vec_capacity text.old < vec_len text.old + (length buf.old.rest / 5 * 8 + 6) }
    // only if there was less room than for `most` more bytes,
    ensures asks { result ≡ Err NoRoom → vec_capacity text.old < vec_len text.old + most }
    // and only to a value that would be appended, or to a malformed payload.
    ensures fits { result ≡ Err NoRoom → FitsStringWithin most (string_at size buf.old.rest) }
    ensures capacity { vec_capacity text.old ≤ vec_capacity text.new }
    ensures within { vec_capacity text.new ≤ max (vec_capacity text.old) (vec_len text.old + most) }
{
    read_within(take_payload(size, buf)?, most, text)
}

/// Appends the coded literal of the value with a prefix of `size` bits, under the flags, which are cut to the bits
/// above it. On error the vector is unchanged; with free room for the literal it succeeds and takes no memory.
#[inline(always)]
pub fn encode<A: Allocator>(
    size: u8,
    flags: u8,
    value: &[u8],
    buf: &mut Vec<u8, A>,
) -> Result<(), Error>
    requires least { 2 ≤ size }
    requires most { size ≤ 8 }
    ensures writes { Writes (written_string size flags value.now) buf.old buf.new result }
    ensures memory { IfErr result (λ e. e ≡ NoRoom) }
{
    encode_under(Coding::Always, size, flags, value, buf)
}

/// Appends the literal as `encode` does, plain if the coding has it so.
#[inline(always)]
pub fn encode_under<A: Allocator>(
    coding: Coding,
    size: u8,
    flags: u8,
    value: &[u8],
    buf: &mut Vec<u8, A>,
) -> Result<(), Error>
    requires least { 2 ≤ size }
    requires most { size ≤ 8 }
    ensures writes { Writes (coded_string (coding_of coding) size flags value.now) buf.old buf.new result }
    ensures memory { IfErr result (λ e. e ≡ NoRoom) }
{
    Ok(append(coding, size, flags, value, buf)?)
}

/// Appends the literal as `encode_under` does, with an error that fits a register. Inlined, it knows the size of the
/// prefix.
#[inline(always)]
fn append<A: Allocator>(
    coding: Coding,
    size: u8,
    flags: u8,
    value: &[u8],
    buf: &mut Vec<u8, A>,
) -> Result<(), NoMemory>
    requires least { 2 ≤ size }
    requires most { size ≤ 8 }
    ensures { Writes (coded_string (coding_of coding) size flags value.now) buf.old buf.new result }
{
    if !has_ample_room(value, buf) {
        return append_measured(coding, size, flags, value, buf);
    }
    match append_unmeasured(coding, size, flags, value, buf) {
        Attempt::Appended => Ok(()),
        Attempt::Plain => append_plain(size, flags, value, buf),
        Attempt::Misfit => append_measured(coding, size, flags, value, buf),
    }
}

/// Returns whether there is room for two bytes and the payload of this text, which has at most four bytes for each of
/// the text.
#[inline(always)]
fn has_ample_room<A: Allocator>(value: &[u8], buf: &Vec<u8, A>) -> bool
    ensures { IsTrue result → vec_len buf.now + 4 * length value.now + 2 ≤ vec_capacity buf.now }
{
    value.len() < buf.capacity().saturating_sub(buf.len()) / 4
}

/// Appends the literal of a text whose payload is written first, with room in front of it for its length: as much as
/// that takes if a code has six bits, which is about what one has in a field. It is a misfit if it takes more or less, or
/// more than two bytes.
#[inline(always)]
fn append_unmeasured<A: Allocator>(
    coding: Coding,
    size: u8,
    flags: u8,
    value: &[u8],
    buf: &mut Vec<u8, A>,
) -> Attempt
    requires least { 2 ≤ size }
    requires most { size ≤ 8 }
    requires room { vec_len buf.old + 4 * length value.now + 2 ≤ vec_capacity buf.old }
    ensures done { result ≡ Appended →
        buf.new.items ≡ buf.old.items ++ coded_string (coding_of coding) size flags value.now }
    ensures plain { result ≡ Plain → is_coded (coding_of coding) value.now ≡ false }
    ensures undone { result ≢ Appended → buf.new.items ≡ buf.old.items }
    ensures capacity { vec_capacity buf.new ≡ vec_capacity buf.old }
{
    let likely = value.len() - value.len() / 4;
    let prefix = (1 << (size - 1)) - 1;
    if likely < prefix {
        return append_short(coding, size, flags, value, buf);
    }
    if likely < prefix + 128 {
        return append_paired(coding, size, flags, value, buf);
    }
    Attempt::Misfit
}

/// Appends the literal, if its length takes one byte: that byte is written again once the payload is after it.
#[inline(always)]
fn append_short<A: Allocator>(
    coding: Coding,
    size: u8,
    flags: u8,
    value: &[u8],
    buf: &mut Vec<u8, A>,
) -> Attempt
    requires least { 2 ≤ size }
    requires most { size ≤ 8 }
    requires room { vec_len buf.old + 4 * length value.now + 1 ≤ vec_capacity buf.old }
    ensures done { result ≡ Appended →
        buf.new.items ≡ buf.old.items ++ coded_string (coding_of coding) size flags value.now }
    ensures plain { result ≡ Plain → is_coded (coding_of coding) value.now ≡ false }
    ensures undone { result ≢ Appended → buf.new.items ≡ buf.old.items }
    ensures capacity { vec_capacity buf.new ≡ vec_capacity buf.old }
{
    let start = buf.len();
    buf.push_reserved(0);
    encoding::put_payload(value, buf);
    let len = buf.len() - start - 1;
    if !coding.codes(len, value) {
        buf.truncate(start);
        return Attempt::Plain;
    }
    let Some(head) = prefix_int::short(size - 1, flags % 0x80 * 2 + 1, len as u64) else {
        buf.truncate(start);
        return Attempt::Misfit;
    };
    buf[start] = head;
    Attempt::Appended
}

/// Appends the literal as `append_short` does, if its length takes two bytes.
#[inline(always)]
fn append_paired<A: Allocator>(
    coding: Coding,
    size: u8,
    flags: u8,
    value: &[u8],
    buf: &mut Vec<u8, A>,
) -> Attempt
    requires least { 2 ≤ size }
    requires most { size ≤ 8 }
    requires room { vec_len buf.old + 4 * length value.now + 2 ≤ vec_capacity buf.old }
    ensures done { result ≡ Appended →
        buf.new.items ≡ buf.old.items ++ coded_string (coding_of coding) size flags value.now }
    ensures plain { result ≡ Plain → is_coded (coding_of coding) value.now ≡ false }
    ensures undone { result ≢ Appended → buf.new.items ≡ buf.old.items }
    ensures capacity { vec_capacity buf.new ≡ vec_capacity buf.old }
{
    let start = buf.len();
    buf.push_reserved(0);
    buf.push_reserved(0);
    encoding::put_payload(value, buf);
    let len = buf.len() - start - 2;
    if !coding.codes(len, value) {
        buf.truncate(start);
        return Attempt::Plain;
    }
    let head = prefix_int::paired(size - 1, flags % 0x80 * 2 + 1, len as u64);
    let Some((first, second)) = head else {
        buf.truncate(start);
        return Attempt::Misfit;
    };
    buf[start] = first;
    buf[start + 1] = second;
    Attempt::Appended
}

/// Appends the literal, with its length first.
#[inline(never)]
fn append_measured<A: Allocator>(
    coding: Coding,
    size: u8,
    flags: u8,
    value: &[u8],
    buf: &mut Vec<u8, A>,
) -> Result<(), NoMemory>
    requires least { 2 ≤ size }
    requires most { size ≤ 8 }
    ensures { Writes (coded_string (coding_of coding) size flags value.now) buf.old buf.new result }
{
    let len = encoding::payload_len(value);
    if !coding.codes(len, value) {
        return append_plain(size, flags, value, buf);
    }
    append_coded(size, flags, len, value, buf)
}

/// Appends the coded literal, by the length of its payload.
#[inline(always)]
fn append_coded<A: Allocator>(
    size: u8,
    flags: u8,
    len: usize,
    value: &[u8],
    buf: &mut Vec<u8, A>,
) -> Result<(), NoMemory>
    requires least { 2 ≤ size }
    requires most { size ≤ 8 }
    requires len { len ≡ min (length (payload_of value.now)) (2 ^ 64 - 1) }
    ensures { Writes (written_literal_of size flags 1 (payload_of value.now)) buf.old buf.new result }
{
    let head = prefix_int::encoded_len(size - 1, len as u64);
    make_room(buf, len.saturating_add(head))?;
    prefix_int::put(size - 1, flags % 0x80 * 2 + 1, len as u64, buf);
    encoding::put_payload(value, buf);
    Ok(())
}

/// Appends the plain literal.
#[inline(never)]
fn append_plain<A: Allocator>(
    size: u8,
    flags: u8,
    value: &[u8],
    buf: &mut Vec<u8, A>,
) -> Result<(), NoMemory>
    requires least { 2 ≤ size }
    requires most { size ≤ 8 }
    ensures { Writes (written_literal_of size flags 0 value.now) buf.old buf.new result }
{
    let head = prefix_int::encoded_len(size - 1, value.len() as u64);
    make_room(buf, value.len().saturating_add(head))?;
    prefix_int::put(size - 1, flags % 0x80 * 2, value.len() as u64, buf);
    replace_with(buf, value, extended);
    Ok(())
}

/// Returns the string at the cursor, in a new vector.
fn read(alloc: Global, size: u8, buf: &mut Cursor) -> Result<Vec<u8>, Error>
    requires least { 2 ≤ size }
    requires most { size ≤ 8 }
    ensures { ReadsString buf.old buf.new result (string_at size buf.old.rest) }
{
    let payload = take_payload(size, buf)?;
    let mut value = Vec::new(alloc);
    read_payload(payload, &mut value)?;
    Ok(value)
}

/// Moves past the string at the cursor, and returns its payload.
#[inline(always)]
#[tactic(auto, unfolding(qpack_spec::specs::Text::string_at))]
fn take_payload<'a>(size: u8, buf: &mut Cursor<'a>) -> Result<Payload<'a>, Error>
    requires least { 2 ≤ size }
    requires most { size ≤ 8 }
    ensures is { IfOk result (λ p. string_at size buf.old.rest ≡
        value_before (p.flags / 2) buf.new.rest (meaning p.flags p.bytes.now)) }
    ensures within { IfOk result (λ p. length p.bytes.now ≤ length buf.old.rest) }
    ensures total { OnOk result (buf.new.total ≡ buf.old.total) }
    ensures err { IfErr result (λ e. IsRefusedFor (string_at size buf.old.rest) (string_fault_of e)) }
{
    let (flags, len) = prefix_int::decode(size - 1, buf)?;
    let len = len as usize;
    if buf.remaining() < len {
        return Err(Error::UnexpectedEnd);
    }
    let bytes = &buf.chunk()[..len];
    buf.advance(len);
    Ok(Payload { flags, bytes })
}

/// Appends the value of a payload. An empty one takes no memory.
fn read_payload<A: Allocator>(payload: Payload, text: &mut Vec<u8, A>) -> Result<(), Error>
    ensures exact { AppendsText text.old text.new result (meaning payload.entry.flags payload.entry.bytes.now) }
    ensures memory { result ≡ Err NoRoom →
        vec_capacity text.old < vec_len text.old + (length payload.entry.bytes.now / 5 * 8 + 6) }
    ensures capacity { vec_capacity text.old ≤ vec_capacity text.new }
{
    if payload.bytes.is_empty() {
        return Ok(());
    }
    if payload.flags % 2 == 0 {
        return push_plain(payload.bytes, text);
    }
    read_text(payload.bytes, text)
}

/// Appends the value of a payload if it has at most `most` bytes. Returns how many it has.
fn read_within<A: Allocator>(
    payload: Payload,
    most: usize,
    text: &mut Vec<u8, A>,
) -> Result<usize, Error>
    ensures exact { AppendsTextWithin most text.old text.new result
        (meaning payload.entry.flags payload.entry.bytes.now) }
    ensures memory { result ≡ Err NoRoom →
        vec_capacity text.old < vec_len text.old + (length payload.entry.bytes.now / 5 * 8 + 6) }
    ensures asks { result ≡ Err NoRoom → vec_capacity text.old < vec_len text.old + most }
    ensures fits { result ≡ Err NoRoom → FitsWithin most (meaning payload.entry.flags payload.entry.bytes.now) }
    ensures capacity { vec_capacity text.old ≤ vec_capacity text.new }
    ensures within { vec_capacity text.new ≤ max (vec_capacity text.old) (vec_len text.old + most) }
{
    if payload.bytes.is_empty() {
        return Ok(0);
    }
    if payload.flags % 2 == 0 {
        return Ok(append_within(payload.bytes, most, text)?);
    }
    read_text_within(payload.bytes, most, text)
}

/// Appends a plain payload.
fn push_plain<A: Allocator>(payload: &[u8], text: &mut Vec<u8, A>) -> Result<(), Error>
    ensures ok { OnOk result (text.new.items ≡ text.old.items ++ payload.now) }
    ensures err { OnErr result (text.new.items ≡ text.old.items) }
    ensures memory { IfErr result (λ e. e ≡ NoRoom) }
    ensures full { OnErr result (vec_capacity text.old < vec_len text.old + length payload.now) }
    ensures capacity { vec_capacity text.old ≤ vec_capacity text.new }
{
    make_text_room(text, payload.len())?;
    Ok(text.extend_from_slice(payload)?)
}

/// Makes room for this many more bytes. An empty text, which may be the only use of its vector, gets exactly that.
fn make_text_room<A: Allocator>(text: &mut Vec<u8, A>, additional: usize) -> Result<(), NoMemory>
    ensures items { text.new.items ≡ text.old.items }
    ensures len { vec_len text.new ≡ vec_len text.old }
    ensures ok { OnOk result (vec_len text.new + additional ≤ vec_capacity text.new) }
    ensures full { OnErr result (vec_capacity text.old < vec_len text.old + additional) }
    ensures capacity { vec_capacity text.old ≤ vec_capacity text.new }
{
    if text.is_empty() {
        return Ok(text.reserve_exact(additional)?);
    }
    make_room(text, additional)
}

/// Appends the text that a coded payload means, with room made for the longest.
fn read_text<A: Allocator>(payload: &[u8], text: &mut Vec<u8, A>) -> Result<(), Error>
    requires { payload.now ≢ [] }
    ensures exact { AppendsText text.old text.new result (text_of_bits (bits_of_bytes payload.now)) }
    ensures memory { result ≡ Err NoRoom →
        vec_capacity text.old < vec_len text.old + (length payload.now / 5 * 8 + 6) }
    ensures capacity { vec_capacity text.old ≤ vec_capacity text.new }
{
    make_text_room(text, longest_text(payload))?;
    Ok(push_text(payload, text)?)
}

/// Appends the text as `read_text` does, if it has at most `most` bytes. Returns how many it has. Counts them first if
/// a payload of this length may mean more.
fn read_text_within<A: Allocator>(
    payload: &[u8],
    most: usize,
    text: &mut Vec<u8, A>,
) -> Result<usize, Error>
    requires { payload.now ≢ [] }
    ensures exact { AppendsTextWithin most text.old text.new result (text_of_bits (bits_of_bytes payload.now)) }
    ensures memory { result ≡ Err NoRoom →
        vec_capacity text.old < vec_len text.old + (length payload.now / 5 * 8 + 6) }
    ensures asks { result ≡ Err NoRoom → vec_capacity text.old < vec_len text.old + most }
    ensures fits { result ≡ Err NoRoom → FitsWithin most (text_of_bits (bits_of_bytes payload.now)) }
    ensures capacity { vec_capacity text.old ≤ vec_capacity text.new }
    ensures within { vec_capacity text.new ≤ max (vec_capacity text.old) (vec_len text.old + most) }
{
    let start = text.len();
    let longest = longest_text(payload);
    if longest <= most {
        make_room_within(text, longest, most)?;
        push_text(payload, text)?;
        return Ok(text.len() - start);
    }
    let len = text_len(payload)?;
    if len <= most {
        make_room_within(text, len, most)?;
        push_rest(start, DecodeIter::new(payload), text)?;
    }
    Ok(len)
}

/// Returns an upper bound of the bytes that a payload of this length means, since no code has fewer than five bits.
fn longest_text(payload: &[u8]) -> usize
    ensures { result ≡ length payload.now / 5 * 8 + 6 }
{
    payload.len() / 5 * 8 + 6
}

/// Returns how many bytes the text has that a coded payload means.
fn text_len(payload: &[u8]) -> Result<usize, HuffmanDecodingError>
    ensures ok { IfOk result (λ len. (value : List ℕ) × (text_of_bits (bits_of_bytes payload.now) ≡ Ok value) ×
        (len ≡ length value)) }
    ensures fault { IfErr result (λ e. text_of_bits (bits_of_bytes payload.now) ≡ Err (huffman_fault_of e)) }
{
    let mut len = 0;
    for byte in DecodeIter::new(payload) {
        match byte {
            Ok(_) => len += 1,
            Err(e) => return Err(e),
        }
    }
    Ok(len)
}

/// Appends the text that a coded payload means into the free room, which is enough for the longest. If the payload is
/// malformed the text is unchanged.
fn push_text<A: Allocator>(
    payload: &[u8],
    text: &mut Vec<u8, A>,
) -> Result<(), HuffmanDecodingError>
    requires room { 8 * length payload.now ≤ 5 * (vec_capacity text.old - vec_len text.old) + 4 }
    ensures ok { OnOk result ((value : List ℕ) × (text_of_bits (bits_of_bytes payload.now) ≡ Ok value) ×
        (text.new.items ≡ text.old.items ++ value)) }
    ensures fault { IfErr result (λ e. text_of_bits (bits_of_bytes payload.now) ≡ Err (huffman_fault_of e)) }
    ensures err { OnErr result (text.new.items ≡ text.old.items) }
    ensures capacity { vec_capacity text.new ≡ vec_capacity text.old }
{
    let start = text.len();
    let rest = replace_with(text, payload, push_codes);
    if rest.is_end() {
        return Ok(());
    }
    push_rest(start, rest, text)
}

/// Appends what the rest of a payload means into the free room. If the rest is malformed, the text is cut to its first
/// `start` bytes.
fn push_rest<A: Allocator>(
    start: usize,
    rest: DecodeIter,
    text: &mut Vec<u8, A>,
) -> Result<(), HuffmanDecodingError>
    requires start { start ≤ vec_len text.old }
    requires room { HasRoom rest (vec_capacity text.old - vec_len text.old) }
    ensures ok { OnOk result (with_front text.old.items (text_of_bits rest.entry) ≡ Ok text.new.items) }
    ensures fault { IfErr result (λ e. text_of_bits rest.entry ≡ Err (huffman_fault_of e)) }
    ensures err { OnErr result (text.new.items ≡ take start text.old.items) }
    ensures capacity { vec_capacity text.new ≡ vec_capacity text.old }
{
    for byte in rest {
        match byte {
            Ok(byte) => text.push_reserved(byte),
            Err(e) => {
                text.truncate(start);
                return Err(e);
            }
        }
    }
    Ok(())
}
