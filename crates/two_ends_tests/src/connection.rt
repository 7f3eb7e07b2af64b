//! A connection: two ends as the peers of a connection have them, and what is between them.

use crate::lawful::{Ends, Rest};
use qpack_connection::decoder::{DecoderSettings, DecodingError};
use qpack_connection::encoder::EncodingError;
use qpack_connection::{
    ConnectionSettings, Event, FieldSection, Outcome, OwnedFieldLine, Reading, Skip, Wish,
    connection,
};
use qpack_testing::cases::{Call, Field, Subject};
use std::alloc::Global;

/// A connection. It is given an event again that was refused memory.
#[derive(Drop)]
pub(crate) struct Connection {
    ends: connection::Connection,
    lacked_memory: bool,
}

/// Reads settings: the maximum capacity, the limit of blocked streams, the encoder's capacity, and how many sections
/// may be unacknowledged.
pub(crate) fn read_settings(call: &mut Call<'_>) -> ConnectionSettings {
    ConnectionSettings {
        decoder: DecoderSettings {
            max_capacity: call.count(),
            max_blocked: call.count(),
            max_section_size: 1_000,
        },
        capacity: call.count(),
        most_unacknowledged: call.count(),
    }
}

impl Subject for Connection {
    fn begin(call: &mut Call<'_>, _size: usize) -> Option<Connection> {
        let settings = read_settings(call);
        Some(Connection {
            ends: connection::Connection::new(call.alloc(), settings).ok()?,
            lacked_memory: false,
        })
    }

    fn make(&mut self, word: &str, call: &mut Call<'_>) {
        if word == "acks" {
            // A connection acknowledges by itself.
            call.number();
            call.say("skipped 4");
            return;
        }
        let words = call.rest();
        let outcome = self.step(word, call);
        if wants_memory(&outcome) {
            self.lacked_memory = true;
            call.set_rest(words);
            let outcome = self.step_again(word, call);
            show_outcome(call, &outcome);
        } else {
            show_outcome(call, &outcome);
        }
    }

    fn lacked_memory(&self) -> bool {
        self.lacked_memory
    }
}

impl Connection {
    /// Gives the event of a call.
    fn step(&mut self, word: &str, call: &mut Call<'_>) -> Outcome {
        let event = event_of(word, call);
        self.ends.step(event)
    }

    /// Gives an event after one that was refused memory: the same, or a delivery of no bytes more, since some of a number
    /// of bytes may have been taken.
    fn step_again(&mut self, word: &str, call: &mut Call<'_>) -> Outcome {
        let words = call.rest();
        if word == "to-decoder" && call.amount() != usize::MAX {
            return self.ends.step(Event::ToDecoder(0));
        }
        call.set_rest(words);
        self.step(word, call)
    }
}

impl Ends for Connection {
    fn inserted(&self) -> usize {
        self.ends.decoder().table().total_inserted()
    }

    fn rest(&self) -> Rest {
        let (encoder, decoder) = (self.ends.encoder(), self.ends.decoder());
        let failed = encoder.failure().is_some() || decoder.failure().is_some();
        let waits = (encoder.waiting(), decoder.waiting(), decoder.blocked()) != (0, 0, 0);
        Rest {
            is_sound: !failed && !waits,
            unacknowledged: encoder.unacknowledged(),
            blocked: encoder.blocked(),
        }
    }
}

/// Reads the event of a call.
pub(crate) fn event_of(word: &str, call: &mut Call<'_>) -> Event {
    if word == "encodes" {
        return Event::Encode(call.number(), owned_fields(call));
    }
    let number = call.amount();
    match word {
        "decodes" => Event::Decode(number as u64),
        "to-decoder" => Event::ToDecoder(number),
        "to-encoder" => Event::ToEncoder(number),
        "cancels" => Event::Cancel(number as u64),
        "sets" => Event::SetCapacity(number),
        "shrinks" => Event::Shrink(number),
        _ => {
            call.fail("a connection has no such call");
            Event::ToDecoder(0)
        }
    }
}

/// What the marks of cases ask.
const WISHES: [Wish; 4] = [Wish::Unmarked, Wish::Never, Wish::Reuse, Wish::Insert];

/// Reads the fields of the words that are left, each with its wish.
fn owned_fields(call: &mut Call<'_>) -> Vec<OwnedFieldLine> {
    let mut owned = Vec::new(call.alloc());
    for field in &call.fields() {
        if push_owned(call.alloc(), &mut owned, field).is_none() {
            call.lack_memory();
        }
    }
    owned
}

/// Appends a field with its wish. Returns nothing if memory was refused.
fn push_owned(alloc: Global, owned: &mut Vec<OwnedFieldLine>, field: &Field) -> Option<()> {
    let mut line = OwnedFieldLine::copy(alloc, field.as_line()).ok()?;
    line.wish = field.mark.among(WISHES);
    owned.push(line).ok()
}

/// Whether an event was refused memory.
fn wants_memory(outcome: &Outcome) -> bool {
    matches!(
        outcome,
        Outcome::NoRoom
            | Outcome::Encoded(Err(EncodingError::Memory))
            | Outcome::CapacitySet(Err(EncodingError::Memory))
            | Outcome::Delivered(Err(DecodingError::Memory))
            | Outcome::Decoded(Err(DecodingError::Memory), _)
            | Outcome::Cancelled(Err(DecodingError::Memory))
    )
}

/// Appends an outcome, in the words of a session: a section that was decoded is its required insert count, whether that
/// is above 0, and its fields.
pub(crate) fn show_outcome(call: &mut Call<'_>, outcome: &Outcome) {
    match outcome {
        Outcome::Encoded(Ok(required)) => call.say_number("encoded ", *required),
        Outcome::Delivered(Ok(received)) => call.say_number("received ", *received),
        Outcome::Decoded(Ok(reading), fields) => show_reading(call, *reading, fields),
        Outcome::Decoded(Err(error), _)
        | Outcome::Delivered(Err(error))
        | Outcome::Cancelled(Err(error)) => show_decoding_error(call, *error),
        Outcome::Encoded(Err(error))
        | Outcome::CapacitySet(Err(error))
        | Outcome::Heard(Err(error)) => show_encoding_error(call, *error),
        _ => call.say(word_of(outcome)),
    }
}

/// The word for an outcome that has no part.
fn word_of(outcome: &Outcome) -> &'static str {
    match outcome {
        Outcome::Heard(Ok(())) => "heard",
        Outcome::Cancelled(Ok(())) => "cancelled",
        Outcome::CapacitySet(Ok(())) => "capacity",
        Outcome::Skipped(Skip::NothingToDecode) => "skipped 2",
        Outcome::Skipped(Skip::StreamCancelled) => "skipped 3",
        _ => "refused Memory",
    }
}

/// Appends why a decoding end refuses an event.
fn show_decoding_error(call: &mut Call<'_>, error: DecodingError) {
    call.say("refused ");
    call.show_parts(&error);
}

/// Appends why an encoding end refuses an event.
fn show_encoding_error(call: &mut Call<'_>, error: EncodingError) {
    call.say("refused ");
    call.show_parts(&error);
}

/// Appends what a section was read as. One that waits has no fields.
fn show_reading(call: &mut Call<'_>, reading: Reading, fields: &FieldSection) {
    match reading {
        Reading::Fields { required } => {
            call.say_number("decoded ", required);
            call.say(" ");
            call.show(&(required > 0));
        }
        Reading::Blocked { required } => {
            call.say_number("missing ", required);
            call.holds(fields.is_empty(), "a section that waits has fields");
        }
    }
    for field in fields.iter() {
        call.show_field(field);
    }
}
