//! A call: the words that are left of it, and its answer.

use std::alloc::Global;
use std::fmt::{Debug, Display, Write};

/// A call, its answer, and what went wrong.
#[derive(Drop)]
pub struct Call<'a> {
    alloc: Global,
    /// The words that are left.
    rest: &'a str,
    answer: String,
    /// Whether a word, or a part of the answer, was refused memory.
    lacks_memory: bool,
    /// Why the call does not hold, whatever its answer; empty if it may.
    fault: &'static str,
}

impl<'a> Call<'a> {
    /// A call of no words.
    pub fn new(alloc: Global) -> Call<'a> {
        Call {
            alloc,
            rest: "",
            answer: String::new(alloc),
            lacks_memory: false,
            fault: "",
        }
    }

    /// Takes the words of a text in the place of its own, and clears the answer.
    pub fn take(&mut self, text: &'a str) {
        self.rest = text;
        self.answer.clear();
    }

    /// Forgets what went wrong.
    pub(crate) fn start_over(&mut self) {
        self.lacks_memory = false;
        self.fault = "";
    }

    /// Returns where memory comes from.
    pub fn alloc(&self) -> Global {
        self.alloc
    }

    /// Returns the answer.
    pub fn answer(&self) -> &str {
        self.answer.as_str()
    }

    /// Clears the answer.
    pub fn clear(&mut self) {
        self.answer.clear();
    }

    /// Returns why the call does not hold; empty if it may.
    pub fn fault(&self) -> &'static str {
        self.fault
    }

    /// Returns whether a word, or a part of the answer, was refused memory.
    pub fn lacks_memory(&self) -> bool {
        self.lacks_memory
    }

    /// Notes that a word, or a part of the answer, was refused memory.
    pub fn lack_memory(&mut self) {
        self.lacks_memory = true;
    }

    /// Notes that a part of another call was refused memory, if one was.
    pub fn lack_memory_of(&mut self, other: &Call<'_>) {
        self.lacks_memory |= other.lacks_memory;
    }

    /// Notes that the call does not hold.
    pub fn fail(&mut self, why: &'static str) {
        if self.fault.is_empty() {
            self.fault = why;
        }
    }

    /// Notes that the call does not hold, unless this is so.
    pub fn holds(&mut self, is_so: bool, why: &'static str) {
        if !is_so {
            self.fail(why);
        }
    }

    /// Returns the words that are left.
    pub fn rest(&self) -> &'a str {
        self.rest
    }

    /// Has these words be left.
    pub fn set_rest(&mut self, rest: &'a str) {
        self.rest = rest;
    }

    /// Returns the next word; empty if there is none.
    pub fn word(&mut self) -> &'a str {
        let (word, rest) = self.rest.split_once(' ').unwrap_or((self.rest, ""));
        self.rest = rest;
        word
    }

    /// Returns the first word, a number, which stays; 0 if it is no number.
    pub fn first_number(&self) -> u64 {
        let (word, _) = self.rest.split_once(' ').unwrap_or((self.rest, ""));
        word.parse().unwrap_or(0)
    }

    /// Returns the next word, a number.
    pub fn number(&mut self) -> u64 {
        let word = self.word();
        self.number_of(word)
    }

    /// Returns the number that a word is.
    fn number_of(&mut self, word: &str) -> u64 {
        let number = word.parse();
        self.holds(number.is_ok(), "a word is no number");
        number.unwrap_or(0)
    }

    /// Returns the next word, a count.
    pub fn count(&mut self) -> usize {
        self.number() as usize
    }

    /// Returns the next word, a count; `all` is the greatest.
    pub fn amount(&mut self) -> usize {
        match self.word() {
            "all" => usize::MAX,
            word => self.number_of(word) as usize,
        }
    }

    /// Returns the bytes of the next word, in hexadecimal.
    pub fn bytes(&mut self) -> Vec<u8> {
        let digits = match self.word() {
            "nothing" => "",
            digits => digits,
        };
        self.bytes_of(digits)
    }

    /// Returns the bytes of hexadecimal digits.
    pub(crate) fn bytes_of(&mut self, digits: &str) -> Vec<u8> {
        match hex::decode(self.alloc, digits) {
            Ok(bytes) => bytes,
            Err(error) => {
                self.note_digits(error == hex::FromHexError::OutOfMemory);
                Vec::new(self.alloc)
            }
        }
    }

    /// Notes that digits are not read: memory was refused, or they are none.
    fn note_digits(&mut self, lacks_memory: bool) {
        self.lacks_memory |= lacks_memory;
        self.holds(lacks_memory, "a word is not in hexadecimal");
    }

    /// Returns a copy of bytes.
    pub fn copy(&mut self, bytes: &[u8]) -> Vec<u8> {
        match Vec::from_slice(self.alloc, bytes) {
            Ok(copy) => copy,
            Err(_) => {
                self.lacks_memory = true;
                Vec::new(self.alloc)
            }
        }
    }

    /// Appends a text to the answer.
    pub fn say(&mut self, text: &str) {
        self.lacks_memory |= self.answer.push_str(text).is_err();
    }

    /// Appends what a value is printed as to the answer.
    pub fn show<T: Display>(&mut self, value: &T) {
        self.lacks_memory |= write!(self.answer, "{value}").is_err();
    }

    /// Appends a value to the answer, with the names of its parts.
    pub fn show_parts<T: Debug>(&mut self, value: &T) {
        self.lacks_memory |= write!(self.answer, "{value:?}").is_err();
    }

    /// Appends a text and a number to the answer.
    pub fn say_number(&mut self, text: &str, number: usize) {
        self.say(text);
        self.show(&number);
    }

    /// Appends bytes in hexadecimal to the answer.
    pub fn show_bytes(&mut self, bytes: &[u8]) {
        if bytes.is_empty() {
            self.say("nothing");
        }
        self.show_digits(bytes);
    }

    /// Appends the digits of bytes to the answer.
    pub(crate) fn show_digits(&mut self, bytes: &[u8]) {
        for byte in bytes {
            self.lacks_memory |= write!(self.answer, "{byte:02x}").is_err();
        }
    }

    /// Appends the capacity of a table, and its maximum, to the answer.
    pub fn show_capacity(&mut self, capacity: usize, maximum: usize) {
        self.show(&capacity);
        self.say_number(" of ", maximum);
    }

    /// Appends why a call was refused to the answer, and the code of the error if it ends the connection.
    pub fn show_refusal<E: Display>(&mut self, code: Option<u64>, error: &E) {
        match code {
            Some(code) => {
                self.say("ends ");
                self.show_code(code);
            }
            None => self.say("refused"),
        }
        self.say(": ");
        self.show(error);
    }

    /// Appends the code of an error that ends a connection to the answer.
    pub fn show_code(&mut self, code: u64) {
        self.lacks_memory |= write!(self.answer, "{code:#x}").is_err();
    }

    /// Appends an error to the answer: its parts, and what it is printed as.
    pub fn show_error<E: Debug + Display>(&mut self, error: &E) {
        self.show_parts(error);
        self.say(": ");
        self.show(error);
    }

    /// Appends a value to the answer, or why there is none.
    pub fn show_value<T: Debug, E: Debug + Display>(&mut self, value: &Result<T, E>) {
        match value {
            Ok(value) => self.show_parts(value),
            Err(error) => {
                self.say("refused ");
                self.show_error(error);
            }
        }
    }

    /// Appends that a call was done, or its error, to the answer.
    pub fn show_done<E: Debug + Display>(&mut self, done: &Result<(), E>) {
        match done {
            Ok(()) => self.say("done"),
            Err(error) => {
                self.say("refused ");
                self.show_error(error);
            }
        }
    }
}
