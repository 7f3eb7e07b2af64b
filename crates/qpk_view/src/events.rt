//! The lines of a recording: what came on a connection, or what an end of it did.

use crate::digits::{Digits, read_digits};
use crate::fault::Fault;
use std::alloc::Global;

/// An end of the connection.
#[derive(Clone, Copy, PartialEq)]
pub enum End {
    /// The client, whose lines begin with `>`.
    Client,
    /// The server, whose lines begin with `<`.
    Server,
}

impl End {
    /// Returns the other end.
    pub fn other(self) -> End {
        match self {
            End::Client => End::Server,
            End::Server => End::Client,
        }
    }
}

/// What a decoder allows the encoder that writes to it: its SETTINGS (RFC 9204, section 5).
#[derive(Clone, Copy)]
pub struct Settings {
    /// The maximum table capacity, in bytes.
    pub max_capacity: usize,
    /// How many streams may be blocked.
    pub max_blocked: usize,
}

/// What came, or what an end did.
#[derive(Drop)]
pub(crate) enum Act {
    /// Bytes of the encoder stream, after those that came before: `e HEX`.
    Encoder(Vec<u8>),
    /// Bytes of the decoder stream, after those that came before: `d HEX`.
    Decoder(Vec<u8>),
    /// A field section of a stream: `b STREAM HEX`.
    Section(u64, Vec<u8>),
    /// A stream is read no further: `c STREAM`.
    GivenUp(u64),
    /// The SETTINGS: `s CAPACITY BLOCKED`.
    Settings(Settings),
}

/// A line of a recording.
#[derive(Drop)]
pub(crate) struct Event<'a> {
    /// The number of the line, from 1.
    pub(crate) line: usize,
    /// When it came, as the line says after `@`; empty if it does not.
    pub(crate) time: &'a str,
    /// Which end sent it or did it, if the line says so.
    pub(crate) end: Option<End>,
    pub(crate) act: Act,
    /// Whether half a byte was left out, which the end of the input cuts.
    pub(crate) has_half: bool,
}

impl Event<'_> {
    /// Returns the end whose encoder it is about: the client if it does not say which end it is of.
    pub(crate) fn encoder(&self) -> End {
        let Some(end) = self.end else {
            return End::Client;
        };
        match &self.act {
            Act::Encoder(_) | Act::Section(_, _) => end,
            Act::Decoder(_) | Act::GivenUp(_) | Act::Settings(_) => end.other(),
        }
    }
}

/// Returns whether a line has an event: it is not empty, and no comment.
pub(crate) fn has_event(text: &str) -> bool {
    match text.split_whitespace().next() {
        Some(word) => !word.as_bytes().starts_with(b"#"),
        None => false,
    }
}

/// Reads a line of this number, which has an event, and whose end may be cut.
pub(crate) fn read_event<'a>(
    alloc: Global,
    line: usize,
    text: &'a str,
    is_cut: bool,
) -> Result<Event<'a>, Fault> {
    let words = words_of(alloc, text)?;
    read_words(alloc, line, &words, is_cut)
}

/// Reads the words of a line of this number, whose end may be cut.
fn read_words<'a>(
    alloc: Global,
    line: usize,
    words: &[&'a str],
    is_cut: bool,
) -> Result<Event<'a>, Fault> {
    let mut words = Words {
        alloc,
        line,
        is_cut,
        all: words,
        taken: 0,
        has_half: false,
    };
    let time = words.take_time()?;
    let (end, name) = words.take_name();
    let act = words.take_act(name)?;
    Ok(Event {
        line,
        time,
        end,
        act,
        has_half: words.has_half,
    })
}

/// Returns the words of a text.
pub(crate) fn words_of<'a>(alloc: Global, text: &'a str) -> Result<Vec<&'a str>, Fault> {
    Ok(text.split_whitespace().collect(alloc)?)
}

/// The words of a line, of which some are taken.
#[derive(Clone, Copy)]
struct Words<'a, 'b> {
    alloc: Global,
    /// The number of the line.
    line: usize,
    /// Whether the end of the input cuts the line.
    is_cut: bool,
    all: &'b [&'a str],
    /// How many are taken.
    taken: usize,
    /// Whether half a byte was left out.
    has_half: bool,
}

impl<'a> Words<'a, '_> {
    /// Returns the next word; it is empty if there is none.
    fn next(&self) -> &'a str {
        match self.all.get(self.taken) {
            Some(word) => *word,
            None => "",
        }
    }

    /// Takes the next word; it is empty if there is none.
    fn take(&mut self) -> &'a str {
        let word = self.next();
        self.taken = self.taken.saturating_add(1);
        word
    }

    /// Takes the word of a time, if it is there, and returns it without its `@`. It is printed as it is, in JSON too.
    fn take_time(&mut self) -> Result<&'a str, Fault> {
        let Some(time) = self.next().strip_prefix("@") else {
            return Ok("");
        };
        if !is_printed_as_it_is(time) {
            return Err(self.fault(BAD_TIME));
        }
        self.take();
        Ok(time)
    }

    /// Takes the mark of an end, if it is there, and the name of what came.
    fn take_name(&mut self) -> (Option<End>, &'a str) {
        let (end, name) = end_of(self.take());
        if end.is_some() && name.is_empty() {
            return (end, self.take());
        }
        (end, name)
    }

    /// Takes what came, of this name.
    fn take_act(&mut self, name: &str) -> Result<Act, Fault> {
        match name {
            "e" => self.take_encoder(),
            "d" => self.take_decoder(),
            "b" => self.take_section(),
            "c" => self.take_given_up(),
            "s" => self.take_settings(),
            _ => Err(self.fault_of(name, "is not one of e, d, b, c and s")),
        }
    }

    /// Takes bytes of the encoder stream.
    fn take_encoder(&mut self) -> Result<Act, Fault> {
        Ok(Act::Encoder(self.take_bytes()?))
    }

    /// Takes bytes of the decoder stream.
    fn take_decoder(&mut self) -> Result<Act, Fault> {
        Ok(Act::Decoder(self.take_bytes()?))
    }

    /// Takes a section and its stream.
    fn take_section(&mut self) -> Result<Act, Fault> {
        let stream = self.take_number()?;
        Ok(Act::Section(stream, self.take_bytes()?))
    }

    /// Takes a stream that is read no further.
    fn take_given_up(&mut self) -> Result<Act, Fault> {
        let stream = self.take_number()?;
        self.end()?;
        Ok(Act::GivenUp(stream))
    }

    /// Takes SETTINGS: the maximum capacity, and how many streams may be blocked.
    fn take_settings(&mut self) -> Result<Act, Fault> {
        let max_capacity = self.take_number()?;
        let max_blocked = self.take_number()?;
        self.end()?;
        Ok(Act::Settings(Settings {
            max_capacity: max_capacity as usize,
            max_blocked: max_blocked as usize,
        }))
    }

    /// Takes a number.
    fn take_number(&mut self) -> Result<u64, Fault> {
        let word = self.take();
        match word.parse::<u64>() {
            Ok(number) => Ok(number),
            Err(_) => Err(self.fault_of(word, "is not a whole number below 2^64")),
        }
    }

    /// Takes all words that are left, as bytes in hexadecimal.
    fn take_bytes(&mut self) -> Result<Vec<u8>, Fault> {
        let digits = self.read_rest()?;
        self.take_digits(digits)
    }

    /// Reads the words that are left, as bytes in hexadecimal.
    fn read_rest(&self) -> Result<Option<Digits>, Fault> {
        let from = self.taken.min(self.all.len());
        read_digits(self.alloc, &self.all[from..])
    }

    /// Takes the bytes of digits, if a line may have these. One that is left over is cut off its byte.
    fn take_digits(&mut self, digits: Option<Digits>) -> Result<Vec<u8>, Fault> {
        match digits {
            Some(digits) if digits.has_half && !self.is_cut => {
                Err(self.fault("its last byte has one digit"))
            }
            Some(digits) => {
                self.has_half = digits.has_half;
                Ok(digits.bytes)
            }
            None => Err(self.fault("its bytes are not hexadecimal")),
        }
    }

    /// Rejects words that are left.
    fn end(&self) -> Result<(), Fault> {
        match self.all.get(self.taken) {
            None => Ok(()),
            Some(word) => Err(self.fault_of(*word, "is one word too many")),
        }
    }

    /// Returns the fault of the line, in these words.
    fn fault(&self, words: &str) -> Fault {
        Fault::of_line(self.alloc, self.line, words)
    }

    /// Returns the fault of a word of the line, in these words after it.
    fn fault_of(&self, word: &str, words: &str) -> Fault {
        Fault::of_word(self.alloc, self.line, word, words)
    }
}

/// What is said of a time that is not printed as it is.
const BAD_TIME: &str = "its time has a quotation mark, a backslash or a control character";

/// Returns whether a string of JSON has this text without an escape, and a terminal shows it.
fn is_printed_as_it_is(text: &str) -> bool {
    text.chars()
        .all(|it| !it.is_control() && it != '"' && it != '\\')
}

/// Returns the end whose mark a word begins with, if it does, and the rest of the word.
fn end_of(word: &str) -> (Option<End>, &str) {
    if let Some(name) = word.strip_prefix(">") {
        return (Some(End::Client), name);
    }
    if let Some(name) = word.strip_prefix("<") {
        return (Some(End::Server), name);
    }
    (None, word)
}
