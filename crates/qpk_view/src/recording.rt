//! A recording: its lines, or its records in the format of the offline interop. It is read an event at a time.

ghost use Rattle.std.specs.Prelude.{◌≡◌, false, IfOk, IsUtf8};

use crate::events::{Act, End, Event, Settings, has_event, read_event};
use crate::fault::Fault;
use qpk_qif::recording::{Record, split_record};
use qpk_show::stream::Cut;
use std::alloc::Global;
use std::str;

/// A recording, and how much of it was read.
#[derive(Clone, Copy)]
pub(crate) struct Recording<'a> {
    rest: Rest<'a>,
    /// How many lines or records were read.
    number: usize,
    /// How many bytes of records were read.
    offset: usize,
}

/// What is not read yet.
#[derive(Clone, Copy)]
enum Rest<'a> {
    Lines(&'a str),
    Records(&'a [u8]),
}

/// What is said of an input that is no text.
const NO_TEXT: &str =
    "the input is no text; --qif reads a recording of the offline interop, and --keys KEYLOG a capture";

impl<'a> Recording<'a> {
    /// Returns the recording of an input, of which nothing was read: records of the offline interop, or lines.
    pub(crate) fn new(alloc: Global, is_qif: bool, input: &'a [u8]) -> Result<Recording<'a>, Fault>
        ensures { is_qif ≡ false → IfOk result (λ _. IsUtf8 input.now) }
    {
        if is_qif {
            return Ok(Recording::of(Rest::Records(input)));
        }
        match str::from_utf8(input) {
            Ok(text) => Ok(Recording::of(Rest::Lines(text))),
            Err(_) => Err(Fault::in_words(alloc, NO_TEXT)),
        }
    }

    /// Returns a recording of which nothing was read.
    fn of(rest: Rest<'a>) -> Recording<'a> {
        Recording {
            rest,
            number: 0,
            offset: 0,
        }
    }

    /// Reads the next event. Returns `None` if there is no more.
    pub(crate) fn next(&mut self, alloc: Global) -> Result<Option<Event<'a>>, Fault> {
        match self.rest {
            Rest::Lines(_) => self.next_of_lines(alloc),
            Rest::Records(rest) => self.next_record(alloc, rest),
        }
    }

    /// Reads lines up to the next event. Some are empty, or comments.
    fn next_of_lines(&mut self, alloc: Global) -> Result<Option<Event<'a>>, Fault> {
        match self.next_line_of_event() {
            Some(line) => Ok(Some(read_event(alloc, self.number, line.text, line.is_cut)?)),
            None => Ok(None),
        }
    }

    /// Splits lines off up to the next that has an event.
    fn next_line_of_event(&mut self) -> Option<Line<'a>> {
        for _ in 0..u64::MAX {
            let line = self.next_line()?;
            if has_event(line.text) {
                return Some(line);
            }
        }
        None
    }

    /// Splits the next line off.
    fn next_line(&mut self) -> Option<Line<'a>> {
        let text = match self.rest {
            Rest::Lines(text) if !text.is_empty() => text,
            _ => return None,
        };
        self.number = self.number.saturating_add(1);
        let (text, rest, is_cut) = match text.split_once('\n') {
            Some((text, rest)) => (text, rest, false),
            None => (text, "", true),
        };
        self.rest = Rest::Lines(rest);
        Some(Line { text, is_cut })
    }

    /// Reads the next record. Stream 0 is the encoder stream, and any other record is a section.
    fn next_record(&mut self, alloc: Global, rest: &'a [u8]) -> Result<Option<Event<'a>>, Fault> {
        let Some((record, after)) = split_record(rest) else {
            return Ok(None);
        };
        self.pass(rest.len().saturating_sub(after.len()), after);
        Ok(Some(event_of(alloc, self.number, &record)?))
    }

    /// Notes that a record of this many bytes was read, after which these are left.
    fn pass(&mut self, len: usize, after: &'a [u8]) {
        self.number = self.number.saturating_add(1);
        self.offset = self.offset.saturating_add(len);
        self.rest = Rest::Records(after);
    }

    /// Returns the record that the end of the input cuts, if one is, with its number. All before it was read.
    pub(crate) fn cut(&self) -> Option<(usize, Cut)> {
        match self.rest {
            Rest::Records(rest) if !rest.is_empty() => {
                let cut = Cut {
                    offset: self.offset,
                    bytes: rest.len(),
                };
                Some((self.number.saturating_add(1), cut))
            }
            _ => None,
        }
    }
}

/// A line.
#[derive(Clone, Copy)]
struct Line<'a> {
    text: &'a str,
    /// Whether the end of the input cuts it: it has no end of its own.
    is_cut: bool,
}

/// Returns what a record is.
fn event_of<'a>(alloc: Global, line: usize, record: &Record) -> Result<Event<'a>, Fault> {
    let bytes = Vec::from_slice(alloc, record.bytes)?;
    let act = match record.stream {
        0 => Act::Encoder(bytes),
        stream => Act::Section(stream, bytes),
    };
    Ok(Event {
        line,
        time: "",
        end: None,
        act,
        has_half: false,
    })
}

/// What a recording says of itself.
#[derive(Clone, Copy)]
pub(crate) struct Outline {
    /// Whether its lines say which end they are of. It has no line before the first is noted.
    is_marked: Option<bool>,
    /// The SETTINGS that limit the client's encoder.
    client: Option<Settings>,
    /// The SETTINGS that limit the server's encoder.
    server: Option<Settings>,
    /// Whether it has bytes of the decoder stream that goes to the client's encoder.
    tells_client: bool,
    /// Whether it has bytes of the decoder stream that goes to the server's encoder.
    tells_server: bool,
}

/// What is said of a line that has the mark of an end, or none, unlike the first.
const MIXED_MARKS: &str = "either all lines begin with > or <, or none";

/// What is said of a line with SETTINGS that an end has sent before.
const TWO_SETTINGS: &str = "SETTINGS come once from each end";

impl Outline {
    /// Reads a whole recording. Fails at the first line that is at fault.
    pub(crate) fn read(alloc: Global, recording: Recording<'_>) -> Result<Outline, Fault> {
        let mut recording = recording;
        let mut outline = Outline {
            is_marked: None,
            client: None,
            server: None,
            tells_client: false,
            tells_server: false,
        };
        for _ in 0..u64::MAX {
            if !outline.note_next(alloc, &mut recording)? {
                break;
            }
        }
        Ok(outline)
    }

    /// Reads the next event, and notes it. Returns false if there is none.
    fn note_next(&mut self, alloc: Global, recording: &mut Recording<'_>) -> Result<bool, Fault> {
        match recording.next(alloc)? {
            Some(event) => {
                self.note(alloc, &event)?;
                Ok(true)
            }
            None => Ok(false),
        }
    }

    /// Returns whether the lines say which end they are of.
    pub(crate) fn is_marked(&self) -> bool {
        self.is_marked == Some(true)
    }

    /// Returns the SETTINGS that limit the encoder of an end, if the recording has them.
    pub(crate) fn settings_for(&self, encoder: End) -> Option<Settings> {
        match encoder {
            End::Client => self.client,
            End::Server => self.server,
        }
    }

    /// Returns whether the recording has bytes of the decoder stream that goes to the encoder of an end.
    pub(crate) fn tells(&self, encoder: End) -> bool {
        match encoder {
            End::Client => self.tells_client,
            End::Server => self.tells_server,
        }
    }

    /// Notes an event. Rejects one that says which end it is of and should not, or the other way round.
    fn note(&mut self, alloc: Global, event: &Event<'_>) -> Result<(), Fault> {
        let has_mark = event.end.is_some();
        if self.is_marked.unwrap_or(has_mark) != has_mark {
            return Err(Fault::of_line(alloc, event.line, MIXED_MARKS));
        }
        self.is_marked = Some(has_mark);
        match &event.act {
            Act::Settings(settings) => self.note_settings(alloc, event, *settings),
            Act::Decoder(bytes) => {
                self.note_decoder(event.encoder(), !bytes.is_empty());
                Ok(())
            }
            _ => Ok(()),
        }
    }

    /// Notes a piece of the decoder stream that goes to the encoder of an end, which has bytes or not.
    fn note_decoder(&mut self, encoder: End, has_bytes: bool) {
        match encoder {
            End::Client => self.tells_client = self.tells_client || has_bytes,
            End::Server => self.tells_server = self.tells_server || has_bytes,
        }
    }

    /// Notes SETTINGS. Rejects second ones of an end.
    fn note_settings(
        &mut self,
        alloc: Global,
        event: &Event<'_>,
        settings: Settings,
    ) -> Result<(), Fault> {
        let encoder = event.encoder();
        if self.settings_for(encoder).is_some() {
            return Err(Fault::of_line(alloc, event.line, TWO_SETTINGS));
        }
        match encoder {
            End::Client => self.client = Some(settings),
            End::Server => self.server = Some(settings),
        }
        Ok(())
    }
}
