//! Fields as cases write them.

use crate::cases::call::Call;
use qpack_base::field::{FieldLine, HeaderField};
use std::alloc::Global;
use std::str;

/// What a case asks of an encoder for a field.
#[derive(Clone, Copy, PartialEq, Drop)]
pub enum Mark {
    Unmarked,
    Never,
    Reuse,
    Insert,
}

impl Mark {
    /// Returns the meaning of the mark among those of no mark, `never`, `reuse` and `insert`.
    pub fn among<T: Copy>(self, meanings: [T; 4]) -> T {
        match self {
            Mark::Unmarked => meanings[0],
            Mark::Never => meanings[1],
            Mark::Reuse => meanings[2],
            Mark::Insert => meanings[3],
        }
    }
}

/// A field that a case names.
#[derive(Drop)]
pub struct Field {
    pub name: Vec<u8>,
    pub value: Vec<u8>,
    pub mark: Mark,
}

impl Field {
    /// Borrows the field.
    pub fn as_line(&self) -> FieldLine<'_> {
        FieldLine {
            name: &self.name,
            value: &self.value,
            never_indexed: self.mark == Mark::Never,
        }
    }
}

impl<'a> Call<'a> {
    /// Returns the fields of the words that are left, each after a `| `.
    pub fn fields(&mut self) -> Vec<Field> {
        let text = self.rest();
        self.set_rest("");
        self.fields_of(text)
    }

    /// Returns the fields of a text, each after a `| `.
    pub fn fields_of(&mut self, text: &str) -> Vec<Field> {
        let mut fields = Vec::new(self.alloc());
        let Some(text) = text.strip_prefix("| ") else {
            return fields;
        };
        for text in text.split(" | ") {
            let field = self.field_of(text);
            if fields.push(field).is_err() {
                self.lack_memory();
            }
        }
        fields
    }

    /// Returns the field of a text.
    fn field_of(&mut self, text: &str) -> Field {
        let (mark, text) = read_mark(text);
        let parts = text.split_once(" = ");
        self.holds(parts.is_some(), "a field has no value");
        let (name, value) = parts.unwrap_or((text, ""));
        Field {
            name: self.text_of(name),
            value: self.text_of(value),
            mark,
        }
    }

    /// Returns the bytes of the words that are left, written as a name or a value is.
    pub fn text(&mut self) -> Vec<u8> {
        let text = self.rest();
        self.set_rest("");
        self.text_of(text)
    }

    /// Returns the bytes of a name or of a value.
    fn text_of(&mut self, text: &str) -> Vec<u8> {
        match text.strip_prefix("0x") {
            Some(digits) => self.bytes_of(digits),
            None if text == "\"\"" => Vec::new(self.alloc()),
            None => self.copy(text.as_bytes()),
        }
    }

    /// Returns the fields of the words that are left as header fields, which have no marks.
    pub fn headers(&mut self) -> Vec<HeaderField> {
        let fields = self.fields();
        let mut headers = Vec::new(self.alloc());
        for field in &fields {
            if push_header(self.alloc(), &mut headers, field).is_none() {
                self.lack_memory();
            }
        }
        headers
    }

    /// Appends a name or a value to the answer.
    fn show_text(&mut self, bytes: &[u8]) {
        let text = str::from_utf8(bytes).unwrap_or("");
        if bytes.is_empty() {
            self.say("\"\"");
        } else if !text.is_empty() && bytes.iter().all(|byte| (b' '..=b'~').contains(byte)) {
            self.say(text);
        } else {
            self.say("0x");
            self.show_digits(bytes);
        }
    }

    /// Appends a field to the answer.
    pub fn show_field(&mut self, field: FieldLine<'_>) {
        self.say(" | ");
        if field.never_indexed {
            self.say("never ");
        }
        self.show_text(field.name);
        self.say(" = ");
        self.show_text(field.value);
    }
}

/// Reads a mark, and returns the rest of the text.
fn read_mark(text: &str) -> (Mark, &str) {
    match text.split_once(' ') {
        Some(("never", rest)) => (Mark::Never, rest),
        Some(("reuse", rest)) => (Mark::Reuse, rest),
        Some(("insert", rest)) => (Mark::Insert, rest),
        _ => (Mark::Unmarked, text),
    }
}

/// Appends a header field. Returns nothing if memory was refused.
fn push_header(alloc: Global, headers: &mut Vec<HeaderField>, field: &Field) -> Option<()> {
    let header = HeaderField::from_pair(alloc, &field.name, &field.value).ok()?;
    headers.push(header).ok()
}
