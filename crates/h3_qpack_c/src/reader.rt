//! A reader of sections that come in pieces, in a handle.

ghost use Rattle.h3_qpack_c.specs.declared.reader.State.{State};
ghost use Rattle.std.specs.Prelude.{◌≡◌, ◌<◌, ◌^◌, length, slice_get};
ghost use Rattle.h3_qpack_c.specs.Crossing.{Gives, Makes};
ghost use Rattle.h3_qpack_c.specs.Pieces.{IsReader, KeepsReader};

use crate::answers::Given;
use crate::fields::{give, no_field};
use crate::statuses::{DONE, INVALID, NO_MEMORY};
use qpack_ends::{FieldSection, SectionReader};
use std::alloc::Global;
use std::marker::Model;

mod lend;
mod slot;

pub(crate) use lend::state;
use slot::{Slot, put};

/// A reader of the sections of a stream, and the field that it gave last.
#[derive(Drop)]
pub struct State {
    pub(crate) reader: SectionReader,
    pub(crate) fields: FieldSection,
}

/// Returns a reader of the sections of a stream, which has no field.
fn begin(alloc: Global, stream: u64) -> State
    ensures { IsReader stream result }
{
    State {
        reader: SectionReader::new(alloc, stream),
        fields: FieldSection::new(alloc),
    }
}

/// A reader that C keeps.
#[repr(C)]
pub struct Handle {
    at: *mut u8,
    ghost value: { State },
}

impl Model for Handle {
    ghost use Rattle.std.specs.Box.Ownership.{box_owns};
    ghost use Rattle.h3_qpack_c.specs.Tokens.{token};
    ghost use Rattle.h3_qpack_c.specs.contracts.reader.State.{the_row};

    ghost also_owns = { λ h. box_owns token the_row h.at h.value };
}

impl Handle {
    /// Returns the reader that a handle keeps.
    fn into_box(self, alloc: Global) -> Box<State>
        ensures { result.value ≡ self.value }
    {
        let Handle { at } = self;
        unsafe { Box::from_raw(alloc, at as *mut State) }
    }
}

/// The least invalid stream number (RFC 9000, section 2.1).
const STREAMS: u64 = 1 << 62;

/// Makes a reader of the sections of a stream, whose number is below 2^62.
#[unsafe(no_mangle)]
pub extern "C" fn h3q_reader_new(alloc: Global, stream: u64, out: &mut Slot) -> i32
    ensures { Makes (stream < 2 ^ 62) (KeepsReader stream out.new.value) (out.new ≡ out.old) result }
{
    if stream >= STREAMS {
        return INVALID;
    }
    match Box::new(alloc, begin(alloc, stream)) {
        Ok(kept) => {
            put(kept, out);
            DONE
        }
        Err(_) => NO_MEMORY,
    }
}

/// Frees a reader.
#[unsafe(no_mangle)]
pub extern "C" fn h3q_reader_free(alloc: Global, handle: Handle) {
    let _reader = handle.into_box(alloc);
}

/// Copies the name and the value of the field that the last call gave to the caller's memory, one after the other, if both
/// fit.
#[unsafe(no_mangle)]
pub extern "C" fn h3q_reader_field(handle: &mut Handle, out: &mut [u8]) -> Given
    ensures same { handle.new.value ≡ handle.old.value }
    ensures gives { Gives (slice_get handle.old.value.fields.fields 0) out.old out.new result }
{
    let state = state(handle);
    let answer = match state.fields.get(0) {
        Some(field) => give(&field, out),
        None => no_field(),
    };
    answer
}

/// Returns how many bytes a reader keeps.
#[unsafe(no_mangle)]
pub extern "C" fn h3q_reader_waiting(handle: &mut Handle) -> usize
    ensures same { handle.new.value ≡ handle.old.value }
    ensures exact { result ≡ length handle.old.value.reader.section.pending }
{
    let state = state(handle);
    let waiting = state.reader.waiting();
    waiting
}
