//! Why an input is not read.

use crate::text::Text;
use qpack_base::coding::NoMemory;
use std::alloc::{AllocError, AllocFailed, Global};

/// Why an input is not read.
#[derive(Debug, PartialEq, Drop)]
pub enum Fault {
    /// The input is not what it should be, for this reason.
    Input(String),
    /// A maximum capacity is 2^30 or more.
    Capacity,
    /// No memory was left.
    Memory,
}

impl Fault {
    /// Returns the fault of an input, for this reason.
    pub(crate) fn of_input(reason: Text) -> Fault {
        match reason.finish() {
            Ok(reason) => Fault::Input(reason),
            Err(_) => Fault::Memory,
        }
    }

    /// Returns the fault of an input, in these words.
    pub(crate) fn in_words(alloc: Global, words: &str) -> Fault {
        let mut reason = Text::new(alloc);
        reason.push_str(words);
        Fault::of_input(reason)
    }

    /// Returns the fault of the line of this number, in these words.
    pub(crate) fn of_line(alloc: Global, line: usize, words: &str) -> Fault {
        let mut reason = Text::new(alloc);
        reason.push_between("line ", &line, ": ");
        reason.push_str(words);
        Fault::of_input(reason)
    }

    /// Returns the fault of a word in the line of this number, in these words after it.
    pub(crate) fn of_word(alloc: Global, line: usize, word: &str, words: &str) -> Fault {
        let mut reason = Text::new(alloc);
        reason.push_between("line ", &line, ": \"");
        push_front(&mut reason, word);
        reason.push_str("\" ");
        reason.push_str(words);
        Fault::of_input(reason)
    }
}

/// A word at fault is printed up to this many characters.
const MOST_CHARACTERS: usize = 80;

/// Appends a word at fault: of a long one its front.
fn push_front(reason: &mut Text, word: &str) {
    match word.char_indices().nth(MOST_CHARACTERS) {
        Some((len, _)) => {
            reason.push_plain(&word[..len]);
            reason.push_str("..");
        }
        None => reason.push_plain(word),
    }
}

impl From<AllocError> for Fault {
    fn from(_e: AllocError) -> Fault {
        Fault::Memory
    }
}

impl<T: Drop> From<AllocFailed<T>> for Fault {
    fn from(_e: AllocFailed<T>) -> Fault {
        Fault::Memory
    }
}

impl From<NoMemory> for Fault {
    fn from(_e: NoMemory) -> Fault {
        Fault::Memory
    }
}
