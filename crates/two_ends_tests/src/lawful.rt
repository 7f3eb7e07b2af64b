//! The rules for two ends, whatever is encoded, delivered and cancelled: each section is decoded to the fields that
//! were passed to its encode, in order, or waits for insertions, and no stream is refused (RFC 9204, section 2).

use qpack_testing::cases::{Call, Subject};

/// Two ends, and what is between them.
pub(crate) trait Ends: Subject {
    /// Returns how many insertions the decoder received.
    fn inserted(&self) -> usize;

    /// Returns what the encoder still waits for.
    fn rest(&self) -> Rest;
}

/// Whether no end failed or waits for bytes, and how many sections the encoder waits for: unacknowledged ones, and
/// blocked ones.
#[derive(Clone, Copy)]
pub(crate) struct Rest {
    pub(crate) is_sound: bool,
    pub(crate) unacknowledged: usize,
    pub(crate) blocked: usize,
}

/// How many sections were decoded, how many of them required an insertion, and how many decodes had to wait.
#[derive(Clone, Copy)]
struct Counts {
    decoded: usize,
    dynamic: usize,
    blocked: usize,
}

impl Counts {
    /// Nothing was counted.
    const NONE: Counts = Counts {
        decoded: 0,
        dynamic: 0,
        blocked: 0,
    };

    /// Adds other counts.
    fn add(&mut self, other: Counts) {
        self.decoded = self.decoded.saturating_add(other.decoded);
        self.dynamic = self.dynamic.saturating_add(other.dynamic);
        self.blocked = self.blocked.saturating_add(other.blocked);
    }
}

/// A stream: the fields of each section that was encoded on it, how many of the sections were decoded, and whether the
/// stream was cancelled.
#[derive(Drop)]
struct Stream {
    number: u64,
    handed: Vec<String>,
    decoded: usize,
    is_cancelled: bool,
}

impl Stream {
    /// The fields of the section that is decoded next.
    fn next(&self) -> Option<&str> {
        Some(self.handed.get(self.decoded)?.as_str())
    }

    /// Whether a call on the stream may be skipped with this answer: its number is too large, a decode has no section,
    /// or it is cancelled.
    fn may_skip(&self, answer: &str) -> bool {
        match answer {
            "skipped 1" => self.number >= 1 << 62,
            "skipped 2" => !self.is_cancelled && self.next().is_none(),
            "skipped 3" => self.is_cancelled,
            _ => false,
        }
    }

    /// Notes the answer of an encode of these fields. Returns whether it may give that.
    fn note_encode(&mut self, handed: String, call: &mut Call<'_>) -> bool {
        if !call.answer().starts_with("encoded ") {
            return self.may_skip(call.answer());
        }
        if self.handed.push(handed).is_err() {
            call.lack_memory();
        }
        true
    }

    /// Notes the answer of a decode by a decoder that received this many insertions, and counts it. Returns nothing if it
    /// may not give that.
    fn note_decode(&mut self, answer: &str, inserted: usize) -> Option<Counts> {
        let mut counts = Counts::NONE;
        if let Some(section) = answer.strip_prefix("decoded ") {
            let (_, section) = section.split_once(' ')?;
            counts.decoded = 1;
            counts.dynamic = usize::from(section.starts_with("true"));
            return self.note_decoded(section).then_some(counts);
        }
        if let Some(required) = answer.strip_prefix("missing ") {
            counts.blocked = 1;
            let waits = required.parse::<usize>().ok()? > inserted;
            let may_wait = waits && !self.is_cancelled && self.next().is_some();
            return may_wait.then_some(counts);
        }
        self.may_skip(answer).then_some(counts)
    }

    /// Notes a section that was decoded: whether it required an insertion, and its fields. Returns whether these are the
    /// fields of the next.
    fn note_decoded(&mut self, section: &str) -> bool {
        let fields = section.find(" | ").and_then(|at| section.get(at..));
        let is_next = self
            .next()
            .is_some_and(|handed| handed == fields.unwrap_or(""));
        self.decoded = self.decoded.saturating_add(1);
        is_next
    }

    /// Notes the answer of a cancellation. Returns whether it may give that.
    fn note_cancel(&mut self, answer: &str) -> bool {
        if answer.starts_with("cancelled") {
            let is_first = !self.is_cancelled;
            self.is_cancelled = true;
            return is_first;
        }
        answer != "skipped 2" && self.may_skip(answer)
    }
}

/// Two ends whose results are lawful.
#[derive(Drop)]
pub(crate) struct Lawful<S> {
    ends: S,
    streams: Vec<Stream>,
    counts: Counts,
}

impl<S: Ends> Subject for Lawful<S> {
    fn begin(call: &mut Call<'_>, size: usize) -> Option<Lawful<S>> {
        Some(Lawful {
            ends: S::begin(call, size)?,
            streams: Vec::new(call.alloc()),
            counts: Counts::NONE,
        })
    }

    fn make(&mut self, word: &str, call: &mut Call<'_>) {
        match word {
            "encodes" => self.encode(call),
            "decodes" => self.decode(call),
            "cancels" => self.cancel(call),
            "decoded" => {
                let number = call.number();
                let stream = self.streams.iter().find(|stream| stream.number == number);
                call.show(&stream.map_or(0, |stream| stream.decoded));
            }
            "settles" => self.settle(call),
            "at-rest" => call.show(&self.is_at_rest()),
            "counts" => self.show_counts(call),
            _ => self.make_other(word, call),
        }
    }

    // The trait's body again: the prover takes none from a trait if the type has parameters.
    fn calls_that_can_fail() -> &'static [&'static str] {
        &[]
    }

    fn lacked_memory(&self) -> bool {
        self.ends.lacked_memory()
    }
}

/// Whether a call that is no encode, decode or cancellation may give this answer.
fn may_answer(word: &str, answer: &str) -> bool {
    match word {
        "to-decoder" => answer.starts_with("received "),
        "to-encoder" => answer == "heard",
        "acks" => answer.starts_with("acked") || answer.starts_with("skipped "),
        "sets" => answer.starts_with("capacity") || may_refuse_capacity(answer),
        "shrinks" => answer.starts_with("capacity") || answer == "refused CapacityTooLarge",
        _ => true,
    }
}

/// Whether a capacity may be refused so: it is too large, or the table holds entries that may not be evicted.
fn may_refuse_capacity(answer: &str) -> bool {
    matches!(
        answer,
        "refused EntriesHeld"
            | "refused CapacityTooLarge"
            | "refused Insertion(MaxTableSizeReached)"
            | "refused Insertion(MaximumTableSizeTooLarge)"
    )
}

impl<S: Ends> Lawful<S> {
    /// Makes a call that is no encode, decode or cancellation.
    fn make_other(&mut self, word: &str, call: &mut Call<'_>) {
        self.ends.make(word, call);
        call.holds(may_answer(word, call.answer()), "its answer is not lawful");
    }

    /// Appends what was counted.
    fn show_counts(&self, call: &mut Call<'_>) {
        call.show(&self.counts.decoded);
        call.say_number(" decoded, ", self.counts.dynamic);
        call.say_number(" with insertions, ", self.counts.blocked);
        call.say(" blocked");
    }

    /// Decodes the sections of a stream that are left, and acknowledges them.
    fn settle(&mut self, call: &mut Call<'_>) {
        let (words, number) = (call.rest(), call.first_number());
        for _ in 0..MOST_SECTIONS {
            if self.has_next(number) {
                begin_again(call, words);
                self.decode(call);
            }
        }
        call.holds(!self.has_next(number), "a section is not decoded");
        for _ in 0..MOST_SECTIONS {
            begin_again(call, words);
            self.make_other("acks", call);
            if call.answer().starts_with("skipped") {
                break;
            }
        }
        call.clear();
        call.say("settled");
    }

    /// Returns whether all is at rest: no end failed or waits for bytes, and each section is acknowledged, unless a stream
    /// was cancelled.
    fn is_at_rest(&self) -> bool {
        let rest = self.ends.rest();
        let is_cancelled = self.streams.iter().any(|stream| stream.is_cancelled);
        rest.is_sound && (is_cancelled || rest.unacknowledged == 0 && rest.blocked == 0)
    }

    /// Whether a stream has a section to decode, and is not cancelled.
    fn has_next(&self, number: u64) -> bool {
        self.streams.iter().any(|stream| {
            stream.number == number && !stream.is_cancelled && stream.next().is_some()
        })
    }

    /// Returns the place of the stream of a call, to which it is added if it is new, with room for a section.
    fn place_of(&mut self, call: &mut Call<'_>) -> usize {
        let number = call.first_number();
        let known = self
            .streams
            .iter()
            .position(|stream| stream.number == number);
        let at = known.unwrap_or(self.streams.len());
        if known.is_none() {
            let stream = Stream {
                number,
                handed: Vec::new(call.alloc()),
                decoded: 0,
                is_cancelled: false,
            };
            if self.streams.push(stream).is_err() {
                call.lack_memory();
            }
        }
        at
    }

    /// Makes a call on a stream, and returns the stream, unless memory was refused.
    fn call_on_stream(&mut self, word: &str, call: &mut Call<'_>) -> Option<&mut Stream> {
        let at = self.place_of(call);
        self.ends.make(word, call);
        self.streams.get_mut(at)
    }

    /// Encodes a section, and notes its fields.
    fn encode(&mut self, call: &mut Call<'_>) {
        let handed = handed_of(call);
        let is_lawful = match self.call_on_stream("encodes", call) {
            Some(stream) => stream.note_encode(handed, call),
            None => false,
        };
        call.holds(is_lawful, "its answer is not lawful");
    }

    /// Decodes a section, and notes it.
    fn decode(&mut self, call: &mut Call<'_>) {
        let at = self.place_of(call);
        self.ends.make("decodes", call);
        let inserted = self.ends.inserted();
        let stream = self.streams.get_mut(at);
        let counts = stream.and_then(|stream| stream.note_decode(call.answer(), inserted));
        call.holds(counts.is_some(), "its answer is not lawful");
        self.counts.add(counts.unwrap_or(Counts::NONE));
    }

    /// Cancels a stream, and notes that.
    fn cancel(&mut self, call: &mut Call<'_>) {
        let stream = self.call_on_stream("cancels", call);
        let is_lawful = stream.is_some_and(|stream| stream.note_cancel(call.answer()));
        call.holds(is_lawful, "its answer is not lawful");
    }
}

/// More sections than a stream has in a script.
const MOST_SECTIONS: usize = 60;

/// Has a call be one of these words, with no answer.
fn begin_again<'a>(call: &mut Call<'a>, words: &'a str) {
    call.clear();
    call.set_rest(words);
}

/// Returns the fields of an encode as a decode prints them. Leaves the words.
fn handed_of(call: &mut Call<'_>) -> String {
    let words = call.rest();
    call.number();
    for field in &call.fields() {
        call.show_field(field.as_line());
    }
    call.set_rest(words);
    let handed = String::from_str(call.alloc(), call.answer());
    call.clear();
    match handed {
        Ok(handed) => handed,
        Err(_) => {
            call.lack_memory();
            String::new(call.alloc())
        }
    }
}
