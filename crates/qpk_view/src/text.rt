//! A text to append to. It remembers a refused allocation, so that an append returns nothing and its end asks once.

ghost use Rattle.std.specs.Prelude.{◌≡◌, [], ◌++◌, true, false, IfOk, IfSome, OnErr, encode_utf8, string_bytes};
ghost use Rattle.qpk_view.specs.Texts.{Appends, Extends};

use std::alloc::{AllocError, Global};
use std::fmt::Display;
use std::marker::Model;
use std::mem;

/// A text, and whether memory for some of it was refused. From then on nothing is appended.
#[derive(Drop)]
pub struct Text {
    text: String,
    lacks_memory: bool,
}

impl Model for Text {
    ghost use Rattle.std.specs.Prelude.{string_bytes};
    ghost use Rattle.qpk_view.specs.Texts.{Written};

    ghost Value = { Written };

    ghost view = { λ t. record { bytes = string_bytes t.text; lacks_memory = t.lacks_memory } };
}

impl Text {
    /// Returns an empty text.
    pub fn new(alloc: Global) -> Text
        ensures { result ≡ record { bytes = []; lacks_memory = false } }
    {
        Text {
            text: String::new(alloc),
            lacks_memory: false,
        }
    }

    /// Returns the allocator of the text.
    pub fn allocator(&self) -> Global {
        *self.text.allocator()
    }

    /// Appends a text.
    pub fn push_str(&mut self, text: &str)
        ensures { Appends self.old self.new text.now }
    {
        if !self.lacks_memory && self.text.push_str(text).is_err() {
            self.lacks_memory = true;
        }
    }

    /// Appends a character.
    pub fn push(&mut self, character: char)
        ensures { Appends self.old self.new (encode_utf8 character) }
    {
        if !self.lacks_memory && self.text.push(character).is_err() {
            self.lacks_memory = true;
        }
    }

    /// Appends a value.
    pub fn show<T: Display>(&mut self, value: &T)
        ensures { IfSome (T.output value.now) (Appends self.old self.new) }
    {
        if !self.lacks_memory && write!(self.text, "{value}").is_err() {
            self.lacks_memory = true;
        }
    }

    /// Appends a text and a value.
    pub fn push_value<T: Display>(&mut self, front: &str, value: &T)
        ensures { IfSome (T.output value.now) (λ out. Appends self.old self.new (front.now ++ out)) }
    {
        self.push_str(front);
        self.show(value);
    }

    /// Appends a value between two texts.
    pub fn push_between<T: Display>(&mut self, front: &str, value: &T, back: &str)
        ensures { IfSome (T.output value.now) (λ out. Appends self.old self.new (front.now ++ out ++ back.now)) }
    {
        self.push_value(front, value);
        self.push_str(back);
    }

    /// Appends a byte: two digits in lower-case hexadecimal.
    pub fn push_digits(&mut self, byte: u8)
        ensures { Extends self.old self.new }
    {
        self.push(digit(byte / 16));
        self.push(digit(byte % 16));
    }

    /// Appends an error in its own words.
    pub fn push_error<E: Display>(&mut self, error: &E)
        ensures { Extends self.old self.new }
    {
        self.push_made(format!(in self.allocator(); "{error}"));
    }

    /// Appends a text that was made for it, or notes that memory for that was refused.
    pub fn push_made(&mut self, made: Result<String, AllocError>)
        ensures { Extends self.old self.new }
    {
        match made {
            Ok(made) => self.push_str(made.as_str()),
            Err(_) => self.lack_memory(),
        }
    }

    /// Notes whether something else was done, which fails only if memory is refused.
    pub fn note(&mut self, done: Result<(), AllocError>)
        ensures { Appends self.old self.new [] }
    {
        if done.is_err() {
            self.lack_memory();
        }
    }

    /// Notes that memory was refused.
    pub fn lack_memory(&mut self)
        ensures { self.new.lacks_memory ≡ true }
    {
        self.lacks_memory = true;
    }

    /// Appends characters; a control character, which a terminal would heed, as `\x` and two digits.
    pub fn push_plain(&mut self, text: &str)
        ensures { Extends self.old self.new }
    {
        for character in text.chars() {
            self.push_visible(character);
        }
    }

    /// Appends a character, or if it is a control character `\x` and two digits.
    fn push_visible(&mut self, character: char)
        ensures { Extends self.old self.new }
    {
        if character.is_control() {
            self.push_str("\\x");
            self.push_digits(character as u32 as u8);
        } else {
            self.push(character);
        }
    }

    /// Returns whether the text has more than this many bytes, or memory was refused.
    pub fn is_longer_than(&self, len: usize) -> bool {
        self.lacks_memory || self.text.len() > len
    }

    /// Takes the text, which is empty then. Fails if memory was refused.
    pub fn take(&mut self) -> Result<String, AllocError>
        ensures ok { IfOk result (λ text. (self.old.lacks_memory ≡ false) × (string_bytes text ≡ self.old.bytes)) }
        ensures err { OnErr result (self.old.lacks_memory ≡ true) }
        ensures new { self.new ≡ record { bytes = []; lacks_memory = false } }
    {
        let taken = mem::replace(self, Text::new(self.allocator()));
        taken.finish()
    }

    /// Returns the text. Fails if memory was refused.
    pub fn finish(self) -> Result<String, AllocError>
        ensures ok { IfOk result (λ text. (self.lacks_memory ≡ false) × (string_bytes text ≡ self.bytes)) }
        ensures err { OnErr result (self.lacks_memory ≡ true) }
    {
        if self.lacks_memory {
            return Err(AllocError);
        }
        Ok(self.text)
    }
}

/// Returns a digit in lower-case hexadecimal.
fn digit(value: u8) -> char {
    char::from_digit(u32::from(value), 16).unwrap_or('0')
}
