//! Sections that come in pieces: they are read as they are when they are whole.

use crate::answers::{note_memory, show_reading, show_refusal};
use crate::decoder::Decoder;
use h3_qpack::coding::Cursor;
use qpack_ends::{DecodingError, FieldSection, Progress, Reading, SectionError, SectionReader};
use qpack_testing::cases::{Call, Subject};

/// A decoding end, and the streams whose sections come in pieces.
#[derive(Drop)]
pub(crate) struct Pieces {
    decoder: Decoder,
    streams: Vec<Coming>,
}

/// A stream whose section comes in pieces.
#[derive(Drop)]
struct Coming {
    reader: SectionReader,
    /// How many bytes of the section were consumed, and how many fields it gave.
    passed: usize,
    given: usize,
}

impl Subject for Pieces {
    fn begin(call: &mut Call<'_>, size: usize) -> Option<Pieces> {
        let decoder = Decoder::begin(call, size)?;
        Some(Pieces {
            decoder,
            streams: Vec::new(call.alloc()),
        })
    }

    fn make(&mut self, word: &str, call: &mut Call<'_>) {
        match word {
            "decodes" => self.decode(call),
            "reads" => self.read(false, call),
            "ends" => self.read(true, call),
            "cancels" => {
                let stream = call.first_number();
                self.streams.retain(|one| one.reader.stream() != stream);
                self.decoder.make(word, call);
            }
            _ => self.decoder.make(word, call),
        }
    }

    fn calls_that_can_fail() -> &'static [&'static str] {
        &[
            "receives 20",
            "reads 0 0000d1",
            "ends 0 nothing",
            "ends 4611686018427387904 nothing",
            "cancels 0",
        ]
    }
}

impl Pieces {
    /// Returns where a stream is among those whose sections come, at which it is put if it is new.
    fn place_of(&mut self, stream: u64, call: &mut Call<'_>) -> Option<usize> {
        let found = self
            .streams
            .iter()
            .position(|one| one.reader.stream() == stream);
        if found.is_some() {
            return found;
        }
        let one = Coming {
            reader: SectionReader::new(call.alloc(), stream),
            passed: 0,
            given: 0,
        };
        if self.streams.push(one).is_err() {
            call.lack_memory();
            return None;
        }
        self.streams.len().checked_sub(1)
    }

    /// Decodes a section, of which earlier calls may have consumed a front: in pieces, and whole. Both must give the same.
    fn decode(&mut self, call: &mut Call<'_>) {
        let stream = call.number();
        let section = call.bytes();
        let Some(place) = self.place_of(stream, call) else {
            return;
        };
        let Some(one) = self.streams.get_mut(place) else {
            return;
        };
        let whole = self.decoder.read_whole(&section, call);
        let passed = one.passed;
        let rest = section.get(passed..).unwrap_or(&[]);
        let read = pass(&mut self.decoder, one, rest, call);
        match (read, whole) {
            (Ok(Progress::Ends { required }), Ok(reading)) => {
                let is_same = reading == Reading::Fields { required };
                call.holds(is_same, "a whole section requires another number");
                call.holds(one.given == self.decoder.whole_len(), "fields are missing");
                one.passed = 0;
                one.given = 0;
                self.decoder.show_whole(reading, call);
            }
            (Ok(Progress::Blocked { required }), Ok(reading)) => {
                let is_same = reading == Reading::Blocked { required };
                call.holds(is_same, "a whole section waits for another number");
                call.holds(one.passed <= LONGEST_PREFIX, "it waits late");
                self.decoder.show_whole(reading, call);
            }
            (Err(error), whole) => {
                if let DecodingError::Section { error, .. } = error {
                    call.holds(whole == Err(error), "a whole section is rejected otherwise");
                }
                show_refusal(call, &error);
            }
            _ => call.fail("a whole section is read otherwise"),
        }
    }

    /// Reads a piece of a section, and appends what each call gives.
    fn read(&mut self, last: bool, call: &mut Call<'_>) {
        let stream = call.number();
        let bytes = call.bytes();
        let Some(place) = self.place_of(stream, call) else {
            return;
        };
        let Some(one) = self.streams.get_mut(place) else {
            return;
        };
        let mut buf = Cursor::new(&bytes);
        let mut fields = FieldSection::new(call.alloc());
        for _ in 0..MOST_CALLS {
            if !call.answer().is_empty() {
                call.say(", ");
            }
            let read = self
                .decoder
                .read_piece(&mut one.reader, &mut buf, last, &mut fields);
            note_memory(call, &read);
            match read {
                Ok(progress) => {
                    show_progress(call, progress, &fields, &one.reader);
                    if matches!(progress, Progress::Blocked { .. }) && buf.remaining() > 0 {
                        call.say_number(", left ", buf.remaining());
                    }
                    if !goes_on(progress) {
                        break;
                    }
                }
                Err(error) => {
                    show_refusal(call, &error);
                    break;
                }
            }
        }
    }
}

/// The longest prefix, in bytes.
const LONGEST_PREFIX: usize = 20;

/// More calls than a case makes of a piece.
const MOST_CALLS: usize = 1_000;

/// Whether a call is to be made again at once.
fn goes_on(progress: Progress) -> bool {
    matches!(progress, Progress::Prefix { .. } | Progress::Field)
}

/// Appends what a call gave.
fn show_progress(
    call: &mut Call<'_>,
    progress: Progress,
    fields: &FieldSection,
    reader: &SectionReader,
) {
    match progress {
        Progress::Waits => call.say_number("keeps ", reader.waiting()),
        Progress::Prefix { required } => call.say_number("requires ", required),
        Progress::Blocked { required } => call.say_number("waits for ", required),
        Progress::Field => {
            call.say("gives");
            show_reading_fields(call, fields);
        }
        Progress::Ends { required } => call.say_number("ends with ", required),
    }
}

/// Appends the one field that a call gave.
fn show_reading_fields(call: &mut Call<'_>, fields: &FieldSection) {
    call.holds(fields.len() == 1, "not one field");
    for field in fields.iter() {
        call.show_field(field);
    }
}

/// Passes the bytes that are left of a section in pieces, and holds each field against that of the whole. Returns what the
/// last call gave.
fn pass(
    decoder: &mut Decoder,
    one: &mut Coming,
    rest: &[u8],
    call: &mut Call<'_>,
) -> Result<Progress, DecodingError> {
    let size = decoder.size().max(1);
    let mut fields = FieldSection::new(call.alloc());
    let mut at = 0usize;
    let mut end = size.min(rest.len());
    for _ in 0..u64::MAX {
        let last = end == rest.len();
        let mut buf = Cursor::new(rest.get(at..end).unwrap_or(&[]));
        let read = decoder.read_piece(&mut one.reader, &mut buf, last, &mut fields);
        note_memory(call, &read);
        let taken = buf.position();
        one.passed = one.passed.saturating_add(taken);
        at = at.saturating_add(taken);
        match read {
            Ok(Progress::Waits) if !last => end = end.saturating_add(size).min(rest.len()),
            Ok(Progress::Prefix { .. }) => {}
            Ok(Progress::Field) => {
                call.holds(taken > 0, "a field without a byte");
                let is_same = fields.len() == 1 && fields.get(0) == decoder.whole_field(one.given);
                call.holds(is_same, "a whole section has another field");
                one.given = one.given.saturating_add(1);
            }
            read => return read,
        }
    }
    Err(DecodingError::Section {
        stream: 0,
        error: SectionError::Memory,
    })
}
