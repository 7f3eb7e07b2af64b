//! The decoding end of a handle.

ghost use Rattle.h3_qpack_c.specs.declared.decoder.State.{State};
ghost use Rattle.std.specs.Prelude.{◌≡◌, ◌<◌, ◌≤◌, ◌^◌, length, slice_get, IfOk, IfErr, [], ℕ};
ghost use Rattle.qpack_spec.specs.Table.{insert_count};
ghost use Rattle.qpack_decoding.specs.Blocked.{ready};
ghost use Rattle.qpack_decoding.specs.Decoders.{end_of, FailsSettings, blocked_streams, with_report};
ghost use Rattle.qpack_decoding.specs.declared.decoder.DecoderSettings.{DecoderSettings};
ghost use Rattle.h3_qpack_c.specs.Crossing.{Makes, Gives, GivesAll, StoresOption};
ghost use Rattle.h3_qpack_c.specs.Decoding.{DecodesTo, ReceivesTo, CancelsTo, TakesFront, InRange};
ghost use Rattle.h3_qpack_c.specs.Decoding.{SaysPrefix, of_waiting, taken_of};
ghost use Rattle.h3_qpack_c.specs.Decoding.{told_of_refusal, told_of_receiving, IsNew, KeepsNew};

use crate::answers::{Decoding, Given, Prefixed, Received, Written};
use crate::fields::{copy_front, give, give_all, no_field};
use crate::statuses::{
    BLOCKED, DONE, ENCODER_STREAM_ERROR, INVALID, NO_MEMORY, status_of_decoding, status_of_section,
};
use qpack_base::coding::Cursor;
use qpack_ends::{
    ConnectionDecoder, DecoderSettings, DecodingError, FieldSection, Reading, SectionError,
    SettingsError,
};
use std::alloc::Global;
use std::marker::Model;

mod lend;
mod pieces;
mod slot;
mod table;

pub(crate) use lend::state;
use slot::{Slot, put};

/// A decoding end, and the fields of the section that it decoded last.
#[derive(Drop)]
pub struct State {
    end: ConnectionDecoder,
    pub(crate) fields: FieldSection,
}

/// A decoding end that C keeps.
#[repr(C)]
pub struct Handle {
    at: *mut u8,
    ghost value: { State },
}

impl Model for Handle {
    ghost use Rattle.std.specs.Box.Ownership.{box_owns};
    ghost use Rattle.h3_qpack_c.specs.Tokens.{token};
    ghost use Rattle.h3_qpack_c.specs.contracts.decoder.State.{the_row};

    ghost also_owns = { λ h. box_owns token the_row h.at h.value };
}

impl Handle {
    /// Returns the end that a handle keeps.
    fn into_box(self, alloc: Global) -> Box<State>
        ensures { result.value ≡ self.value }
    {
        let Handle { at } = self;
        unsafe { Box::from_raw(alloc, at as *mut State) }
    }
}

/// Returns an end at which nothing happened yet.
fn begin(alloc: Global, settings: DecoderSettings) -> Result<State, SettingsError>
    ensures ok { IfOk result (IsNew settings) }
    ensures err { IfErr result (FailsSettings settings) }
{
    let end = ConnectionDecoder::new(alloc, settings)?;
    Ok(State {
        end,
        fields: FieldSection::new(alloc),
    })
}

/// Makes a decoding end that sends these settings: the greatest capacity in bytes, below 2^30, how many streams may be
/// blocked, below 65,535, and the greatest sum of the sizes of a section's fields.
#[unsafe(no_mangle)]
pub extern "C" fn h3q_decoder_new(
    alloc: Global,
    max_capacity: usize,
    max_blocked: usize,
    max_section_size: u64,
    out: &mut Slot,
) -> i32
    ensures { let settings : DecoderSettings = record {
      max_capacity = max_capacity;
      max_blocked = max_blocked;
      max_section_size = max_section_size;
    } in Makes (InRange max_capacity max_blocked) (KeepsNew settings out.new.value) (out.new ≡ out.old) result }
{
    let settings = DecoderSettings {
        max_capacity,
        max_blocked,
        max_section_size,
    };
    let Ok(state) = begin(alloc, settings) else {
        return INVALID;
    };
    match Box::new(alloc, state) {
        Ok(kept) => {
            put(kept, out);
            DONE
        }
        Err(_) => NO_MEMORY,
    }
}

/// Frees a decoding end.
#[unsafe(no_mangle)]
pub extern "C" fn h3q_decoder_free(alloc: Global, handle: Handle) {
    let _end = handle.into_box(alloc);
}

/// Reads the prefix of a section, of which the rest may be missing, and changes nothing.
#[unsafe(no_mangle)]
pub extern "C" fn h3q_decoder_prefix(handle: &mut Handle, section: &[u8]) -> Prefixed
    ensures same { handle.new.value ≡ handle.old.value }
    ensures says { SaysPrefix handle.old.value.end.table section.now result }
{
    let state = state(handle);
    let answer = read_prefix(&state.end, section);
    answer
}

/// Reads as `h3q_decoder_prefix` does, given the end that the handle keeps.
fn read_prefix(end: &ConnectionDecoder, section: &[u8]) -> Prefixed
    ensures { SaysPrefix end.now.table section.now result }
{
    match end.prefix(section) {
        Ok(prefix) => Prefixed {
            status: status_of_waiting(prefix.required, end.table().total_inserted()),
            required: prefix.required,
            base: prefix.base,
            len: prefix.length,
        },
        Err(error) => Prefixed {
            status: status_of_section(&error),
            required: 0,
            base: 0,
            len: 0,
        },
    }
}

/// Returns whether a section waits that requires this many insertions, where that many were received.
fn status_of_waiting(required: usize, received: usize) -> i32
    ensures { result ≡ of_waiting required received }
{
    if required > received { BLOCKED } else { DONE }
}

/// Decodes a section that came on a stream. Its fields are kept until the next call that decodes.
#[unsafe(no_mangle)]
pub extern "C" fn h3q_decoder_decode(handle: &mut Handle, stream: u64, section: &[u8]) -> Decoding
    ensures { DecodesTo handle.old.value handle.new.value stream section.now result }
{
    let state = state(handle);
    let answer = decode(state, stream, section);
    answer
}

/// Decodes as `h3q_decoder_decode` does, given what the handle keeps.
fn decode(state: &mut State, stream: u64, section: &[u8]) -> Decoding
    ensures { DecodesTo state.old state.new stream section.now result }
{
    match state.end.decode(stream, section, &mut state.fields) {
        Ok(Reading::Fields { required }) => {
            let (fields, len) = (state.fields.len(), state.fields.text().len());
            decoded(DONE, fields, len, required)
        }
        Ok(Reading::Blocked { required }) => decoded(BLOCKED, 0, 0, required),
        Err(error) => refused(&error),
    }
}

/// Returns the result for a section that was read.
fn decoded(status: i32, fields: usize, len: usize, required: usize) -> Decoding
    ensures { result ≡ record {
      status = status;
      fields = fields;
      len = len;
      required = required;
      number = 0;
      offset = 0;
    } }
{
    Decoding {
        status,
        fields,
        len,
        required,
        number: 0,
        offset: 0,
    }
}

/// Returns the result for a section that is rejected.
fn refused(error: &DecodingError) -> Decoding
    ensures { result ≡ told_of_refusal error.now }
{
    let status = status_of_decoding(error);
    let (number, offset) = match error {
        DecodingError::Section {
            error: SectionError::Line { number, offset, .. },
            ..
        } => (*number as u64, *offset as u64),
        _ => (0, 0),
    };
    Decoding {
        status,
        fields: 0,
        len: 0,
        required: 0,
        number,
        offset,
    }
}

/// Copies the name and the value of a field of the section that was decoded last to the caller's memory, one after the
/// other, if both fit.
#[unsafe(no_mangle)]
pub extern "C" fn h3q_decoder_field(handle: &mut Handle, index: usize, out: &mut [u8]) -> Given
    ensures same { handle.new.value ≡ handle.old.value }
    ensures gives { Gives (slice_get handle.old.value.fields.fields index) out.old out.new result }
{
    let state = state(handle);
    let answer = match state.fields.get(index) {
        Some(field) => give(&field, out),
        None => no_field(),
    };
    answer
}

/// Copies the fields of the section that was decoded last to the caller's memory, if there is room for an entry of
/// each, and for their names and values one after the other.
#[unsafe(no_mangle)]
pub extern "C" fn h3q_decoder_fields(
    handle: &mut Handle,
    told: &mut [Given],
    out: &mut [u8],
) -> Written
    ensures same { handle.new.value ≡ handle.old.value }
    ensures gives { GivesAll handle.old.value.fields.fields told.old told.new out.old out.new result }
{
    let state = state(handle);
    let answer = give_all(&state.fields, told, out);
    answer
}

/// Takes the next bytes of the encoder stream, cut anywhere.
#[unsafe(no_mangle)]
pub extern "C" fn h3q_decoder_read(handle: &mut Handle, bytes: &[u8]) -> Received
    ensures { ReceivesTo handle.old.value handle.new.value bytes.now result }
{
    let state = state(handle);
    let answer = read(state, bytes);
    answer
}

/// Receives as `h3q_decoder_read` does, given what the handle keeps.
fn read(state: &mut State, bytes: &[u8]) -> Received
    ensures { ReceivesTo state.old state.new bytes.now result }
{
    let ended = state.end.failure();
    let mut cursor = Cursor::new(bytes);
    let answer = state.end.receive(&mut cursor);
    received(
        &answer,
        taken(ended, &answer, bytes.len(), cursor.remaining()),
    )
}

/// Returns how many bytes a call consumed: all if it rejected the stream, and otherwise those that are not left.
fn taken(
    ended: Option<DecodingError>,
    answer: &Result<usize, DecodingError>,
    len: usize,
    left: usize,
) -> usize
    ensures { result ≡ taken_of ended answer.now len left }
{
    match (ended, answer) {
        (None, Err(DecodingError::EncoderStream { .. })) => len,
        _ => len.saturating_sub(left),
    }
}

/// Returns the result for bytes of the encoder stream, of which this many were consumed.
fn received(answer: &Result<usize, DecodingError>, taken: usize) -> Received
    ensures { result ≡ told_of_receiving answer.now taken }
{
    match answer {
        Ok(_) => Received {
            status: DONE,
            taken,
            number: 0,
            offset: 0,
        },
        Err(DecodingError::EncoderStream { place, .. }) => Received {
            status: ENCODER_STREAM_ERROR,
            taken,
            number: place.number,
            offset: place.offset,
        },
        Err(error) => Received {
            status: status_of_decoding(error),
            taken,
            number: 0,
            offset: 0,
        },
    }
}

/// Returns how many insertions were ever received.
#[unsafe(no_mangle)]
pub extern "C" fn h3q_decoder_insert_count(handle: &mut Handle) -> usize
    ensures same { handle.new.value ≡ handle.old.value }
    ensures exact { result ≡ insert_count handle.old.value.end.table }
{
    let state = state(handle);
    let count = state.end.table().total_inserted();
    count
}

/// Returns how many streams are blocked.
#[unsafe(no_mangle)]
pub extern "C" fn h3q_decoder_blocked(handle: &mut Handle) -> usize
    ensures same { handle.new.value ≡ handle.old.value }
    ensures exact { result ≡ blocked_streams (end_of handle.old.value.end) }
{
    let state = state(handle);
    let blocked = state.end.blocked();
    blocked
}

/// Stores a blocked stream whose section can now be decoded, and returns 1; or returns 0 if there is none. If there are
/// several, it is the one that waited for the fewest insertions.
#[unsafe(no_mangle)]
pub extern "C" fn h3q_decoder_next_ready(handle: &mut Handle, stream: &mut u64) -> u32
    ensures same { handle.new.value ≡ handle.old.value }
    ensures tells { StoresOption (ready (insert_count handle.old.value.end.table) handle.old.value.end.blocked)
        stream.old stream.new result }
{
    let state = state(handle);
    let ready = match state.end.next_ready() {
        Some(number) => {
            *stream = number;
            1
        }
        None => 0,
    };
    ready
}

/// Takes as many bytes of the decoder stream as the caller's memory has room for, and returns their number. At its end are
/// increments for what was not reported yet, unless memory is refused for them.
#[unsafe(no_mangle)]
pub extern "C" fn h3q_decoder_stream(handle: &mut Handle, out: &mut [u8]) -> usize
    ensures { TakesFront handle.old.value handle.new.value out.old out.new result }
{
    let state = state(handle);
    let taken = take_stream(state, out);
    taken
}

/// Takes bytes as `h3q_decoder_stream` does, given what the handle keeps.
fn take_stream(state: &mut State, out: &mut [u8]) -> usize
    ensures { TakesFront state.old state.new out.old out.new result }
{
    let taken = copy_front(state.end.decoder_stream(), out);
    state.end.sent(taken);
    taken
}

/// Returns how many bytes of the decoder stream are to be taken, unless memory is refused.
#[unsafe(no_mangle)]
pub extern "C" fn h3q_decoder_stream_len(handle: &mut Handle) -> usize
    ensures same { handle.new.value ≡ handle.old.value }
    ensures exact { result ≡ length (with_report (end_of handle.old.value.end)).unsent }
{
    let state = state(handle);
    let len = state.end.decoder_stream_len();
    len
}

/// Cancels a stream, which was reset or is read no further.
#[unsafe(no_mangle)]
pub extern "C" fn h3q_decoder_cancel(handle: &mut Handle, stream: u64) -> i32
    ensures { CancelsTo handle.old.value handle.new.value stream result }
{
    let state = state(handle);
    let status = cancel(state, stream);
    status
}

/// Cancels as `h3q_decoder_cancel` does, given what the handle keeps.
fn cancel(state: &mut State, stream: u64) -> i32
    ensures { CancelsTo state.old state.new stream result }
{
    match state.end.cancel(stream) {
        Ok(()) => DONE,
        Err(error) => status_of_decoding(&error),
    }
}
