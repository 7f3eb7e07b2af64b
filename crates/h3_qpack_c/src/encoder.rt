//! The encoding end of a handle.

ghost use Rattle.h3_qpack_c.specs.declared.encoder.State.{State};
ghost use Rattle.std.specs.Prelude.{◌≡◌, ◌<◌, ◌≤◌, ◌^◌, [], pos, length, map, IfOk, IfErr, ℤ};
ghost use Rattle.qpack_shared.specs.declared.settings.SettingsError.TheVariants.{CapacityTooLarge};
ghost use Rattle.h3_qpack_c.specs.Crossing.{line_of_lent, wish_of_lent, copied, told_of_copy, Makes};
ghost use Rattle.h3_qpack_c.specs.Encoding.{EncodesTo, HearsTo, SetsCapacityTo, TakesStream, told_of_hearing};
ghost use Rattle.h3_qpack_c.specs.Encoding.{IsNew, KeepsNew, ShrinksTo, TakesPeerTo};
ghost use Rattle.h3_qpack_c.specs.Crossing.{StoresOption};
ghost use Rattle.qpack_encoding.specs.Encoders.{pending_capacity};
ghost use Rattle.qpack_encoding.specs.declared.encoder.EncoderSettings.{EncoderSettings};
ghost use Rattle.qpack_encoding.specs.Risk.{streams_at_risk};

use crate::answers::{Encoded, Received, Written};
use crate::fields::{Field, copy_front, list_size, write};
use crate::statuses::{DECODER_STREAM_ERROR, DONE, INVALID, NO_MEMORY, status_of_encoding};
use qpack_base::coding::Cursor;
use qpack_ends::room::shrink_within;
use qpack_ends::{ConnectionEncoder, EncoderSettings, EncodingError, SettingsError};
use std::alloc::Global;
use std::marker::Model;

mod lend;
mod slot;
mod table;

use lend::state;
use slot::{Slot, put};

/// An encoding end, and the section that it encoded last.
#[derive(Drop)]
pub struct State {
    end: ConnectionEncoder,
    section: Vec<u8>,
}

/// An encoding end that C keeps.
#[repr(C)]
pub struct Handle {
    at: *mut u8,
    ghost value: { State },
}

impl Model for Handle {
    ghost use Rattle.std.specs.Box.Ownership.{box_owns};
    ghost use Rattle.h3_qpack_c.specs.Tokens.{token};
    ghost use Rattle.h3_qpack_c.specs.contracts.encoder.State.{the_row};

    ghost also_owns = { λ h. box_owns token the_row h.at h.value };
}

impl Handle {
    /// Returns the end that a handle keeps.
    fn into_box(self, alloc: Global) -> Box<State>
        ensures { result.value ≡ self.value }
    {
        let Handle { at } = self;
        unsafe { Box::from_raw(alloc, at as *mut State) }
    }
}

/// Returns an end at which nothing happened yet.
fn begin(alloc: Global, settings: EncoderSettings) -> Result<State, SettingsError>
    ensures ok { IfOk result (IsNew settings) }
    ensures err { IfErr result (λ e. (e ≡ CapacityTooLarge) × (2 ^ 30 ≤ settings.max_capacity)) }
{
    let end = ConnectionEncoder::new(alloc, settings)?;
    Ok(State {
        end,
        section: Vec::new(alloc),
    })
}

/// Makes an encoding end for a peer that sent these settings: its maximum capacity in bytes, below 2^30, and its limit
/// of blocked streams. The end's own settings are its capacity, how many sections may wait for acknowledgments, and the
/// seed of its table's hashes.
#[unsafe(no_mangle)]
pub extern "C" fn h3q_encoder_new(
    alloc: Global,
    max_capacity: usize,
    max_blocked: usize,
    capacity: usize,
    most_unacknowledged: usize,
    seed: u64,
    out: &mut Slot,
) -> i32
    ensures { let settings : EncoderSettings = record {
      max_capacity = max_capacity;
      max_blocked = max_blocked;
      capacity = capacity;
      most_unacknowledged = most_unacknowledged;
      seed = seed;
    } in Makes (max_capacity < 2 ^ 30) (KeepsNew settings out.new.value) (out.new ≡ out.old) result }
{
    let settings = EncoderSettings {
        max_capacity,
        max_blocked,
        capacity,
        most_unacknowledged,
        seed,
    };
    let Ok(state) = begin(alloc, settings) else {
        return INVALID;
    };
    match Box::new(alloc, state) {
        Ok(kept) => {
            put(kept, out);
            DONE
        }
        Err(_) => NO_MEMORY,
    }
}

/// Frees an encoding end.
#[unsafe(no_mangle)]
pub extern "C" fn h3q_encoder_free(alloc: Global, handle: Handle) {
    let _end = handle.into_box(alloc);
}

/// Encodes fields for a stream, and copies the section to the caller's memory if it fits there; it is kept until the
/// next call that encodes.
#[unsafe(no_mangle)]
pub extern "C" fn h3q_encoder_encode(
    handle: &mut Handle,
    stream: u64,
    fields: &[Field],
    section: &mut [u8],
) -> Encoded
    ensures { EncodesTo handle.old.value handle.new.value stream (map line_of_lent fields.now)
        (map wish_of_lent fields.now) section.old section.new result }
{
    let state = state(handle);
    let answer = encode(state, stream, fields, section);
    answer
}

/// Encodes as `h3q_encoder_encode` does, given what the handle keeps.
fn encode(state: &mut State, stream: u64, fields: &[Field], section: &mut [u8]) -> Encoded
    ensures { EncodesTo state.old state.new stream (map line_of_lent fields.now) (map wish_of_lent fields.now) section.old
        section.new result }
{
    state.section.clear();
    shrink_within(&mut state.section, KEPT_ROOM);
    match state.end.encode(stream, fields, &mut state.section) {
        Ok(required) => {
            let Written { status, len } = write(&state.section, section);
            Encoded {
                status,
                len,
                required,
                size: list_size(fields),
            }
        }
        Err(error) => Encoded {
            status: status_of_encoding(&error),
            len: 0,
            required: 0,
            size: 0,
        },
    }
}

/// How much memory is kept for the next section, in bytes.
const KEPT_ROOM: usize = 4096;

/// Copies the section that was encoded last to the caller's memory, if it fits.
#[unsafe(no_mangle)]
pub extern "C" fn h3q_encoder_section(handle: &mut Handle, section: &mut [u8]) -> Written
    ensures same { handle.new.value ≡ handle.old.value }
    ensures told { result ≡ told_of_copy handle.old.value.section.items section.old }
    ensures copied { section.new ≡ copied handle.old.value.section.items section.old }
{
    let state = state(handle);
    let answer = write(&state.section, section);
    answer
}

/// Takes as many bytes of the encoder stream as the caller's memory has room for, and returns their number.
#[unsafe(no_mangle)]
pub extern "C" fn h3q_encoder_stream(handle: &mut Handle, out: &mut [u8]) -> usize
    ensures { TakesStream handle.old.value handle.new.value out.old out.new result }
{
    let state = state(handle);
    let taken = take_stream(state, out);
    taken
}

/// Takes bytes as `h3q_encoder_stream` does, given what the handle keeps.
fn take_stream(state: &mut State, out: &mut [u8]) -> usize
    ensures { TakesStream state.old state.new out.old out.new result }
{
    let taken = copy_front(state.end.encoder_stream(), out);
    state.end.sent(taken);
    taken
}

/// Returns how many bytes of the encoder stream are to be taken.
#[unsafe(no_mangle)]
pub extern "C" fn h3q_encoder_stream_len(handle: &mut Handle) -> usize
    ensures same { handle.new.value ≡ handle.old.value }
    ensures len { result ≡ length handle.old.value.end.unsent }
{
    let state = state(handle);
    let len = state.end.encoder_stream().len();
    len
}

/// Takes the next bytes of the decoder stream, cut anywhere.
#[unsafe(no_mangle)]
pub extern "C" fn h3q_encoder_read(handle: &mut Handle, bytes: &[u8]) -> Received
    ensures { HearsTo handle.old.value handle.new.value bytes.now result }
{
    let state = state(handle);
    let answer = read(state, bytes);
    answer
}

/// Receives as `h3q_encoder_read` does, given what the handle keeps.
fn read(state: &mut State, bytes: &[u8]) -> Received
    ensures { HearsTo state.old state.new bytes.now result }
{
    let mut cursor = Cursor::new(bytes);
    let answer = state.end.receive(&mut cursor);
    heard(&answer, bytes.len().saturating_sub(cursor.remaining()))
}

/// Returns the result for bytes of the decoder stream, of which this many were consumed.
fn heard(answer: &Result<(), EncodingError>, taken: usize) -> Received
    ensures { result ≡ told_of_hearing answer.now taken }
{
    match answer {
        Ok(()) => Received {
            status: DONE,
            taken,
            number: 0,
            offset: 0,
        },
        Err(EncodingError::DecoderStream(error)) => Received {
            status: DECODER_STREAM_ERROR,
            taken,
            number: error.place.number,
            offset: error.place.offset,
        },
        Err(error) => Received {
            status: status_of_encoding(error),
            taken,
            number: 0,
            offset: 0,
        },
    }
}

/// Applies the settings that the peer sent: its maximum capacity in bytes, and its limit of blocked streams.
#[unsafe(no_mangle)]
pub extern "C" fn h3q_encoder_set_peer_settings(
    handle: &mut Handle,
    max_capacity: usize,
    max_blocked: usize,
) -> i32
    ensures { TakesPeerTo handle.old.value handle.new.value max_capacity max_blocked result }
{
    let state = state(handle);
    let status = set_peer_settings(state, max_capacity, max_blocked);
    status
}

/// Takes settings as `h3q_encoder_set_peer_settings` does, given what the handle keeps.
fn set_peer_settings(state: &mut State, max_capacity: usize, max_blocked: usize) -> i32
    ensures { TakesPeerTo state.old state.new max_capacity max_blocked result }
{
    match state.end.set_peer_settings(max_capacity, max_blocked) {
        Ok(()) => DONE,
        Err(error) => status_of_encoding(&error),
    }
}

/// Sets the capacity of the table, in bytes.
#[unsafe(no_mangle)]
pub extern "C" fn h3q_encoder_set_capacity(handle: &mut Handle, capacity: usize) -> i32
    ensures { SetsCapacityTo handle.old.value handle.new.value capacity result }
{
    let state = state(handle);
    let status = set_capacity(state, capacity);
    status
}

/// Sets a capacity as `h3q_encoder_set_capacity` does, given what the handle keeps.
fn set_capacity(state: &mut State, capacity: usize) -> i32
    ensures { SetsCapacityTo state.old state.new capacity result }
{
    match state.end.set_capacity(capacity) {
        Ok(()) => DONE,
        Err(error) => status_of_encoding(&error),
    }
}

/// Sets a capacity, in bytes, now or as soon as no entry that it evicts is needed.
#[unsafe(no_mangle)]
pub extern "C" fn h3q_encoder_shrink(handle: &mut Handle, capacity: usize) -> i32
    ensures { ShrinksTo handle.old.value handle.new.value capacity result }
{
    let state = state(handle);
    let status = shrink(state, capacity);
    status
}

/// Sets a capacity as `h3q_encoder_shrink` does, given what the handle keeps.
fn shrink(state: &mut State, capacity: usize) -> i32
    ensures { ShrinksTo state.old state.new capacity result }
{
    match state.end.shrink(capacity) {
        Ok(()) => DONE,
        Err(error) => status_of_encoding(&error),
    }
}

/// Stores the capacity that waits, in bytes, and returns 1; or returns 0 if none does.
#[unsafe(no_mangle)]
pub extern "C" fn h3q_encoder_pending_capacity(handle: &mut Handle, capacity: &mut usize) -> u32
    ensures same { handle.new.value ≡ handle.old.value }
    ensures tells { StoresOption (pending_capacity handle.old.value.end) capacity.old capacity.new result }
{
    let state = state(handle);
    let waits = match state.end.pending_capacity() {
        Some(pending) => {
            *capacity = pending;
            1
        }
        None => 0,
    };
    waits
}

/// Returns how many streams may be blocked.
#[unsafe(no_mangle)]
pub extern "C" fn h3q_encoder_blocked(handle: &mut Handle) -> usize
    ensures same { handle.new.value ≡ handle.old.value }
    ensures exact { result ≡ length (streams_at_risk handle.old.value.end.table) }
{
    let state = state(handle);
    let blocked = state.end.blocked();
    blocked
}
