//! Streams of instructions: whole, truncated, and cut into pieces (RFC 9204, sections 4.3 and 4.4).

use crate::bytes::show_result;
use qpack_base::coding::Cursor;
use qpack_base::parse_error::ParseError;
use qpack_testing::cases::Call;
use qpack_wire::stream::{EncoderLine, Wire, least_field_size, next_line, wanted};
use std::alloc::Global;
use std::fmt::Debug;

/// Reads the next instruction; at the same cursor a second time, in case memory was refused.
fn next<W: Wire>(alloc: Global, cursor: &mut Cursor) -> Result<Option<W>, ParseError> {
    match next_line(alloc, cursor) {
        Err(ParseError::Memory) => next_line(alloc, cursor),
        read => read,
    }
}

/// Appends the instruction at the front of the bytes, and how many bytes are left after it.
pub(crate) fn show_next<W: Wire + Debug>(call: &mut Call<'_>, bytes: &[u8]) {
    let mut cursor = Cursor::new(bytes);
    show_result(call, &next::<W>(call.alloc(), &mut cursor));
    call.say_number(", ", cursor.remaining());
    call.say(" left");
}

/// Appends how many bytes there must be of an encoder instruction that is truncated, and the least size of its field.
pub(crate) fn show_waiting(call: &mut Call<'_>, bytes: &[u8]) {
    show_next::<EncoderLine>(call, bytes);
    call.say_number(", ", wanted(bytes));
    call.say_number(" wanted, a field of ", least_field_size(bytes));
}

/// Reads the whole instructions of the bytes after those that were read, and returns how many bytes they took.
fn read_all(call: &mut Call<'_>, bytes: &[u8], lines: &mut Vec<EncoderLine>) -> usize {
    let mut cursor = Cursor::new(bytes);
    for _ in bytes {
        match next(call.alloc(), &mut cursor) {
            Ok(Some(line)) => {
                if lines.push(line).is_err() {
                    call.lack_memory();
                }
            }
            Ok(None) => break,
            Err(_) => call.fail("an instruction is refused"),
        }
    }
    cursor.position()
}

/// Appends the whole instructions at the front of an encoder stream, read one behind the other, and how many bytes they took.
pub(crate) fn show_all(call: &mut Call<'_>, stream: &[u8]) {
    let mut lines = Vec::new(call.alloc());
    let taken = read_all(call, stream, &mut lines);
    call.show_parts(&lines);
    call.say_number(", ", taken);
    call.say(" taken");
}

/// Requires that a stream in two pieces, the first of this many bytes, has the instructions of the whole.
fn hold_cut(call: &mut Call<'_>, stream: &[u8], cut: usize, whole: &Vec<EncoderLine>) {
    let mut lines = Vec::new(call.alloc());
    let taken = read_all(call, stream.get(..cut).unwrap_or(stream), &mut lines);
    let more = read_all(call, stream.get(taken..).unwrap_or(b""), &mut lines);
    let is_same = taken.saturating_add(more) == stream.len() && lines == *whole;
    call.holds(is_same, "a cut stream has other instructions");
}

/// How many cuts are tried, spread over a stream: as many as the recorded one has bytes, so that it is cut anywhere.
const CASES: usize = 2_699;

/// Appends how many instructions an encoder stream has, wherever it is cut, and how many bytes they take.
pub(crate) fn show_cuts(call: &mut Call<'_>, stream: &[u8]) {
    let mut whole = Vec::new(call.alloc());
    let taken = read_all(call, stream, &mut whole);
    for case in 0..CASES {
        hold_cut(call, stream, case.saturating_mul(taken) / CASES, &whole);
    }
    call.show(&whole.len());
    call.say_number(" instructions of ", taken);
    call.say(" bytes");
}
