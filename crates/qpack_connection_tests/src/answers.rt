//! What calls answer.

use h3_qpack::dynamic::Error;
use qpack_ends::decoder::DecodingError;
use qpack_ends::encoder::EncodingError;
use qpack_ends::{DecoderStreamError, EncoderStreamError, FieldSection, Reading, SectionError};
use qpack_testing::cases::Call;
use std::fmt::Display;

/// Why an end or a stream refuses a call.
pub(crate) trait Refusal: Display + Drop {
    /// Returns the code that ends the connection, or `None` if it goes on.
    fn ending_code(&self) -> Option<u64>;

    /// Whether the call was refused memory.
    fn is_of_memory(&self) -> bool;
}

impl Refusal for Error {
    fn ending_code(&self) -> Option<u64> {
        None
    }

    fn is_of_memory(&self) -> bool {
        matches!(self, Error::Memory)
    }
}

impl Refusal for SectionError {
    fn ending_code(&self) -> Option<u64> {
        self.code()
    }

    fn is_of_memory(&self) -> bool {
        matches!(self, SectionError::Memory)
    }
}

impl Refusal for DecodingError {
    fn ending_code(&self) -> Option<u64> {
        self.code()
    }

    fn is_of_memory(&self) -> bool {
        matches!(self, DecodingError::Memory)
    }
}

impl Refusal for EncodingError {
    fn ending_code(&self) -> Option<u64> {
        self.code()
    }

    fn is_of_memory(&self) -> bool {
        matches!(self, EncodingError::Memory)
    }
}

impl Refusal for EncoderStreamError {
    fn ending_code(&self) -> Option<u64> {
        self.code()
    }

    fn is_of_memory(&self) -> bool {
        matches!(self, EncoderStreamError::Memory)
    }
}

impl Refusal for DecoderStreamError {
    fn ending_code(&self) -> Option<u64> {
        Some(self.code())
    }

    fn is_of_memory(&self) -> bool {
        false
    }
}

/// Notes if a call was refused memory: then all calls of its case are made once more.
pub(crate) fn note_memory<T, E: Refusal>(call: &mut Call<'_>, done: &Result<T, E>) {
    if let Err(error) = done {
        note_memory_of(call, error);
    }
}

/// Notes if an error is of refused memory.
fn note_memory_of<E: Refusal>(call: &mut Call<'_>, error: &E) {
    if error.is_of_memory() {
        call.lack_memory();
    }
}

/// Notes that a call was refused, whatever the answer, unless it was refused memory.
pub(crate) fn must_be_done<T, E: Refusal>(
    call: &mut Call<'_>,
    done: &Result<T, E>,
    why: &'static str,
) {
    note_memory(call, done);
    call.holds(done.is_ok(), why);
}

/// Appends why a call was refused.
pub(crate) fn show_refusal<E: Refusal>(call: &mut Call<'_>, error: &E) {
    note_memory_of(call, error);
    call.show_refusal(error.ending_code(), error);
}

/// Appends that a call was done, or why it was refused.
pub(crate) fn show_done<E: Refusal>(call: &mut Call<'_>, done: &Result<(), E>) {
    match done {
        Ok(()) => call.say("done"),
        Err(error) => show_refusal(call, error),
    }
}

/// Appends a count, or why the call was refused.
pub(crate) fn show_count<E: Refusal>(call: &mut Call<'_>, count: &Result<usize, E>) {
    match count {
        Ok(count) => call.show(count),
        Err(error) => show_refusal(call, error),
    }
}

/// Appends why an end failed, or that it did not.
pub(crate) fn show_failure<E: Refusal>(call: &mut Call<'_>, failure: &Option<E>) {
    match failure {
        Some(error) => show_refusal(call, error),
        None => call.say("none"),
    }
}

/// Appends fields, which are the same by their indexes and in turn.
pub(crate) fn show_fields(call: &mut Call<'_>, fields: &FieldSection) {
    let mut count = 0usize;
    for field in fields.iter() {
        call.holds(
            fields.get(count) == Some(field),
            "another field is at its index",
        );
        call.show_field(field);
        count = count.saturating_add(1);
    }
    let is_counted = fields.len() == count && fields.is_empty() == (count == 0);
    call.holds(is_counted, "the fields are more or fewer");
    call.holds(fields.get(count).is_none(), "a field is behind the last");
}

/// Appends what a section is read as: how many insertions it requires, and its fields if it does not wait for them.
pub(crate) fn show_reading(call: &mut Call<'_>, reading: Reading, fields: &FieldSection) {
    match reading {
        Reading::Fields { required } => call.show(&required),
        Reading::Blocked { required } => call.say_number("waits for ", required),
    }
    show_fields(call, fields);
}
