//! A session: two ends in the names of h3, and what is between them.

use crate::lawful::{Ends, Rest};
use h3_qpack::Decoded;
use h3_qpack::coding::Cursor;
use h3_qpack::decoder::DecoderError;
use h3_qpack::encoder::EncoderError;
use h3_qpack::session::{self, Event, Outcome};
use qpack_testing::cases::{Call, Subject};

/// A session, and the stream of each section that it decoded. It is given an event again that was refused memory.
#[derive(Drop)]
pub(crate) struct Session {
    ends: session::Session,
    decoded: Vec<u64>,
    lacked_memory: bool,
}

/// How many bytes the encoder stream and the decoder stream have.
#[derive(Clone, Copy)]
struct Lengths {
    encoder_stream: usize,
    decoder_stream: usize,
}

impl Subject for Session {
    /// The settings are the capacity at the start, its maximum, and the limit of blocked streams.
    fn begin(call: &mut Call<'_>, _size: usize) -> Option<Session> {
        let (capacity, maximum, limit) = (call.count(), call.count(), call.count());
        let capacity = capacity.min(maximum);
        Some(Session {
            ends: session::Session::with_maximum(call.alloc(), capacity, maximum, limit).ok()?,
            decoded: Vec::new(call.alloc()),
            lacked_memory: false,
        })
    }

    fn make(&mut self, word: &str, call: &mut Call<'_>) {
        match word {
            "delivers-once" => {
                let outcome = self.ends.step(&Event::ToDecoder(call.amount()));
                self.lacked_memory |= wants_memory(&outcome);
            }
            "replies" => call.show_bytes(self.ends.decoder_bytes()),
            "sections" => {
                let stream = call.number();
                call.show(&self.ends.blocks(stream));
            }
            _ => {
                let stream = call.first_number();
                let event = event_of(word, call);
                self.give(stream, &event, call);
            }
        }
    }

    fn lacked_memory(&self) -> bool {
        self.lacked_memory
    }
}

impl Ends for Session {
    fn inserted(&self) -> usize {
        self.ends.decoder().table().total_inserted()
    }

    fn rest(&self) -> Rest {
        let table = self.ends.encoder().table();
        Rest {
            is_sound: true,
            unacknowledged: table.unacknowledged_blocks(),
            blocked: table.blocked_blocks(),
        }
    }
}

/// Reads the event of a call.
pub(crate) fn event_of(word: &str, call: &mut Call<'_>) -> Event {
    if word == "encodes" {
        return Event::Encode(call.number(), call.headers());
    }
    let number = call.amount();
    match word {
        "decodes" => Event::Decode(number as u64),
        "to-decoder" => Event::ToDecoder(number),
        "to-encoder" => Event::ToEncoder(number),
        "acks" => Event::Ack(number as u64),
        "cancels" => Event::Cancel(number as u64),
        "sets" => Event::SetCapacity(number),
        _ => {
            call.fail("a session has no such call");
            Event::ToDecoder(0)
        }
    }
}

/// Whether an event was refused memory.
fn wants_memory(outcome: &Outcome) -> bool {
    matches!(
        outcome,
        Outcome::Encoded(Err(EncoderError::Memory))
            | Outcome::Decoded(Err(DecoderError::Memory))
            | Outcome::Delivered(Err(DecoderError::Memory))
            | Outcome::Acknowledged(Err(_))
            | Outcome::Cancelled(Err(_))
            | Outcome::CapacitySet(Err(EncoderError::Memory))
    )
}

impl Session {
    /// Gives an event on a stream, and appends its outcome with the bytes that it added. A decode must return what the
    /// decoder itself returns for the section.
    fn give(&mut self, stream: u64, event: &Event, call: &mut Call<'_>) {
        let before = self.lengths();
        let foreseen = match event {
            Event::Decode(stream) => self.foresee(*stream),
            _ => None,
        };
        let outcome = self.step(event, call);
        self.note_decoded(stream, foreseen.as_ref(), &outcome, call);
        show_outcome(call, &outcome);
        if let Outcome::Encoded(Ok(_)) = outcome {
            self.show_section(stream, call);
        }
        self.show_added(call, &outcome, before);
    }

    /// Appends the last section of a stream.
    fn show_section(&self, stream: u64, call: &mut Call<'_>) {
        let last = self.ends.blocks(stream).saturating_sub(1);
        call.say(" ");
        call.show_bytes(self.ends.block(stream, last).unwrap_or(b""));
    }

    /// How many bytes both streams have.
    fn lengths(&self) -> Lengths {
        Lengths {
            encoder_stream: self.ends.encoder_bytes().len(),
            decoder_stream: self.ends.decoder_bytes().len(),
        }
    }

    /// Gives an event. If it was refused memory, it wrote no instruction to the encoder and kept no section, and it is
    /// given again. The bytes that were delivered are offered again by a delivery of none.
    fn step(&mut self, event: &Event, call: &mut Call<'_>) -> Outcome {
        let before = self.kept();
        let outcome = self.ends.step(event);
        if !wants_memory(&outcome) {
            return outcome;
        }
        self.lacked_memory = true;
        call.holds(
            self.kept() == before,
            "an event that was refused memory wrote bytes",
        );
        match event {
            Event::ToDecoder(_) => self.ends.step(&Event::ToDecoder(0)),
            event => self.ends.step(event),
        }
    }

    /// How many bytes the decoder stream has, and how many sections the streams of the cases.
    fn kept(&self) -> (usize, usize) {
        let mut sections = 0usize;
        for stream in [0, 4, 8, 12] {
            sections = sections.saturating_add(self.ends.blocks(stream));
        }
        (self.ends.decoder_bytes().len(), sections)
    }

    /// Notes the outcome of a decode, which must be what was foreseen.
    fn note_decoded(
        &mut self,
        stream: u64,
        foreseen: Option<&Result<Decoded, DecoderError>>,
        outcome: &Outcome,
        call: &mut Call<'_>,
    ) {
        let Outcome::Decoded(answer) = outcome else {
            return;
        };
        call.holds(
            foreseen == Some(answer),
            "the decoder itself decodes to something else",
        );
        if answer.is_ok() && self.decoded.push(stream).is_err() {
            call.lack_memory();
        }
    }

    /// What the decoder itself decodes the oldest undecoded section of a stream to.
    fn foresee(&self, stream: u64) -> Option<Result<Decoded, DecoderError>> {
        let decoded = self.decoded.iter().filter(|other| **other == stream);
        let section = self.ends.block(stream, decoded.count())?;
        let decoder = self.ends.decoder();
        match decoder.decode_header(&mut Cursor::new(section)) {
            Err(DecoderError::Memory) => Some(decoder.decode_header(&mut Cursor::new(section))),
            answer => Some(answer),
        }
    }

    /// Appends the bytes that an event added to its stream, if it is one that adds any. It adds none to the other.
    fn show_added(&self, call: &mut Call<'_>, outcome: &Outcome, before: Lengths) {
        let (encoder_stream, decoder_stream) = (
            self.ends.encoder_bytes(),
            self.ends.decoder_bytes(),
        );
        let sent = encoder_stream.get(before.encoder_stream..).unwrap_or(b"");
        let replied = decoder_stream.get(before.decoder_stream..).unwrap_or(b"");
        match outcome {
            Outcome::Encoded(Ok(_)) | Outcome::CapacitySet(Ok(())) => show_one(call, sent, replied),
            Outcome::Delivered(Ok(_))
            | Outcome::Acknowledged(Ok(()))
            | Outcome::Cancelled(Ok(())) => show_one(call, replied, sent),
            _ => {
                let adds_nothing = sent.is_empty() && replied.is_empty();
                call.holds(adds_nothing, "bytes were added to a stream");
            }
        }
    }
}

/// Appends the bytes that were added to a stream. None were added to the other.
fn show_one(call: &mut Call<'_>, added: &[u8], other: &[u8]) {
    call.holds(other.is_empty(), "bytes were added to another stream");
    call.say(" ");
    call.show_bytes(added);
}

/// Appends an outcome, in the words that `qpk run` prints: a section that was decoded is its size, whether it requires
/// an entry, and its fields.
pub(crate) fn show_outcome(call: &mut Call<'_>, outcome: &Outcome) {
    match outcome {
        Outcome::Encoded(Ok(required)) => call.say_number("encoded ", *required),
        Outcome::Delivered(Ok(received)) => call.say_number("received ", *received),
        Outcome::Skipped(reason) => call.say_number("skipped ", usize::from(*reason)),
        Outcome::Decoded(Ok(decoded)) => show_decoded(call, decoded),
        Outcome::Decoded(Err(DecoderError::MissingRefs(required))) => {
            call.say_number("missing ", *required);
        }
        Outcome::Decoded(Err(error)) | Outcome::Delivered(Err(error)) => {
            call.say("refused ");
            call.show_parts(error);
        }
        Outcome::Encoded(Err(error))
        | Outcome::CapacitySet(Err(error))
        | Outcome::Heard(Err(error)) => {
            call.say("refused ");
            call.show_parts(error);
        }
        _ => call.say(word_of(outcome)),
    }
}

/// The word for an outcome that has no part.
fn word_of(outcome: &Outcome) -> &'static str {
    match outcome {
        Outcome::Heard(Ok(())) => "heard",
        Outcome::Acknowledged(Ok(())) => "acked",
        Outcome::Cancelled(Ok(())) => "cancelled",
        Outcome::CapacitySet(Ok(())) => "capacity",
        _ => "refused Memory",
    }
}

/// Appends a section that was decoded.
fn show_decoded(call: &mut Call<'_>, decoded: &Decoded) {
    call.say("decoded ");
    call.show(&decoded.mem_size);
    call.say(" ");
    call.show(&decoded.dyn_ref);
    for field in &decoded.fields {
        call.show_field(field.as_line());
    }
}
