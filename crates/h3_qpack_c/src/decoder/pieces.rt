//! A decoding end over sections that come in pieces.

ghost use Rattle.std.specs.Prelude.{◌≡◌, ◌-◌, nat_eq, not};
ghost use Rattle.h3_qpack_c.specs.Pieces.{ReadsPieceTo, told_of_piece, told_of_stop, told_of_progress};

use crate::answers::Piece;
use crate::decoder::lend::state;
use crate::decoder::{Handle, State};
use crate::reader;
use crate::statuses::{BLOCKED, DONE, ENDS, FIELD, PREFIX, status_of_decoding};
use qpack_base::coding::Cursor;
use qpack_ends::{DecodingError, Progress, SectionError};

/// Reads on in a section that comes in pieces, and consumes bytes up to its next field, which the reader keeps until its
/// next call. If `last` is not 0, the section ends with the bytes.
#[unsafe(no_mangle)]
pub extern "C" fn h3q_decoder_read_section(
    handle: &mut Handle,
    reader: &mut reader::Handle,
    bytes: &[u8],
    last: u32,
) -> Piece
    ensures { ReadsPieceTo handle.old.value handle.new.value reader.old.value reader.new.value bytes.now
        (not (nat_eq last 0)) result }
{
    let state = state(handle);
    let reader = reader::state(reader);
    let answer = read_section(state, reader, bytes, last != 0);
    answer
}

/// Reads as `h3q_decoder_read_section` does, given what the handles keep.
fn read_section(state: &mut State, reader: &mut reader::State, bytes: &[u8], last: bool) -> Piece
    ensures { ReadsPieceTo state.old state.new reader.old reader.new bytes.now last result }
{
    let mut cursor = Cursor::new(bytes);
    let answer = state
        .end
        .read(&mut reader.reader, &mut cursor, last, &mut reader.fields);
    let taken = bytes.len().saturating_sub(cursor.remaining());
    match answer {
        Ok(progress) => told_of(progress, taken),
        Err(error) => stopped(&error, taken),
    }
}

/// Returns the result for what a section gave, with this many bytes consumed.
fn told_of(progress: Progress, taken: usize) -> Piece
    ensures { result ≡ told_of_progress progress taken }
{
    let (status, required) = match progress {
        Progress::Waits => (DONE, 0),
        Progress::Prefix { required } => (PREFIX, required),
        Progress::Blocked { required } => (BLOCKED, required),
        Progress::Field => (FIELD, 0),
        Progress::Ends { required } => (ENDS, required),
    };
    Piece {
        status,
        taken,
        required,
        number: 0,
        offset: 0,
    }
}

/// Returns the result for a section that is not read on, with this many bytes consumed.
fn stopped(error: &DecodingError, taken: usize) -> Piece
    ensures { result ≡ told_of_stop error.now taken }
{
    let (number, offset) = match error {
        DecodingError::Section {
            error: SectionError::Line { number, offset, .. },
            ..
        } => (*number as u64, *offset as u64),
        _ => (0, 0),
    };
    Piece {
        status: status_of_decoding(error),
        taken,
        required: 0,
        number,
        offset,
    }
}
