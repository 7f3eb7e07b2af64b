//! The lines of a file.

use std::alloc::Global;
use std::fmt::Write;

/// A line, and its number in the file.
#[derive(Drop)]
pub struct Line {
    pub(crate) number: usize,
    pub(crate) text: String,
}

impl Line {
    /// Returns what follows these characters, if the line begins with them.
    pub(crate) fn after(&self, begins: &str) -> Option<&str> {
        self.text.as_str().strip_prefix(begins)
    }
}

/// A text and its name.
#[derive(Clone, Copy)]
struct Named<'a> {
    name: &'a str,
    text: &'a str,
}

/// What is read of a file.
#[derive(Drop)]
struct Reading<'a> {
    alloc: Global,
    names: Vec<Named<'a>>,
    lines: Vec<Line>,
    /// The number of the last line.
    number: usize,
    /// Whether nothing was refused memory, and each name has a text.
    is_whole: bool,
}

/// Returns the lines of a text, without comments and empty ones, with the texts of names in their place and a line for
/// each number of an `each`. Returns nothing if memory was refused, or a name has no text.
pub(crate) fn read_lines(alloc: Global, text: &str) -> Option<Vec<Line>> {
    let mut reading = Reading {
        alloc,
        names: Vec::new(alloc),
        lines: Vec::new(alloc),
        number: 0,
        is_whole: true,
    };
    reading.read_all(text);
    if reading.is_whole {
        return Some(reading.lines);
    }
    None
}

impl<'a> Reading<'a> {
    /// Reads all lines of a text.
    fn read_all(&mut self, text: &'a str) {
        for line in text.lines() {
            self.number = self.number.saturating_add(1);
            if let Some(named) = line.strip_prefix('$') {
                self.name(named);
            } else if !line.is_empty() && !line.starts_with(';') {
                self.read(line);
            }
        }
    }

    /// Gives a text a name.
    fn name(&mut self, line: &'a str) {
        let (name, text) = line.split_once(' ').unwrap_or((line, ""));
        self.is_whole &= self.names.push(Named { name, text }).is_ok();
    }

    /// Reads a line that gives no name.
    fn read(&mut self, line: &str) {
        let text = self.expanded(line);
        match text.as_str().strip_prefix("each ") {
            Some(rest) => self.add_each(rest),
            None => self.add(text),
        }
    }

    /// Adds a line.
    fn add(&mut self, text: String) {
        let line = Line {
            number: self.number,
            text,
        };
        self.is_whole &= self.lines.push(line).is_ok();
    }

    /// Adds a line for each of the numbers, from the first to the last, that stand before a call.
    fn add_each(&mut self, text: &str) {
        let (first, rest) = text.split_once(' ').unwrap_or((text, ""));
        let (last, call) = rest.split_once(' ').unwrap_or((rest, ""));
        let (first, last) = (first.parse().unwrap_or(0), last.parse().unwrap_or(0));
        for distance in 0..=u64::abs_diff(first, last) {
            self.add_numbered(call, number_at(first, last, distance));
        }
    }

    /// Adds a call with a number in the place of each `@`.
    fn add_numbered(&mut self, call: &str, number: u64) {
        let mut text = String::new(self.alloc);
        let mut is_first = true;
        for part in call.split('@') {
            if !is_first {
                self.is_whole &= write!(text, "{number}").is_ok();
            }
            is_first = false;
            self.is_whole &= text.push_str(part).is_ok();
        }
        self.add(text);
    }

    /// Returns a line with the texts of names in their place.
    fn expanded(&mut self, line: &str) -> String {
        let mut text = String::new(self.alloc);
        let mut is_first = true;
        for part in line.split('$') {
            if is_first {
                self.is_whole &= text.push_str(part).is_ok();
            } else {
                self.push_named(&mut text, part);
            }
            is_first = false;
        }
        text
    }

    /// Appends the text of the name that a part begins with, and the rest of the part.
    fn push_named(&mut self, text: &mut String, part: &str) {
        let end = part.find(' ').unwrap_or(part.len());
        let (name, rest) = part.split_at_checked(end).unwrap_or((part, ""));
        let found = text_of(&self.names, name);
        let is_pushed = text.push_str(found.unwrap_or("")).is_ok() && text.push_str(rest).is_ok();
        self.is_whole &= is_pushed && found.is_some();
    }
}

/// Returns the text of a name.
fn text_of<'a>(names: &[Named<'a>], name: &str) -> Option<&'a str> {
    let named = names.iter().find(|named| named.name == name)?;
    Some(named.text)
}

/// Returns the number at a distance from the first, on the way to the last.
fn number_at(first: u64, last: u64, distance: u64) -> u64 {
    if first <= last {
        first.saturating_add(distance)
    } else {
        first.saturating_sub(distance)
    }
}
