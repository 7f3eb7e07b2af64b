//! The bytes of QPACK: integers, strings, header fields, lines, prefixes and instructions. Cases hold what no clause of
//! `qpack_base` and `qpack_wire` says: values from outside, success with ample memory, what a refused growth leaves, and
//! printed texts. No call keeps anything for the next.

mod fields;
mod reading;
mod streams;
mod writing;

use qpack_base::parse_error::ParseError;
use qpack_base::prefix_string::{BitWindow, Error, HuffmanEncodingError};
use qpack_base::static_::StaticTable;
use qpack_testing::cases::{Call, Subject};
use qpack_wire::block::HeaderBlockField;
use qpack_wire::stream::{DecoderInstruction, EncoderInstruction};
use std::fmt::{Debug, Display};

/// Calls.
#[derive(Drop)]
pub(crate) struct Bytes;

/// Returns whether an answer has the name of an error of refused memory, or the text of std's. What `fills` answers is
/// another text.
fn is_refusal(answer: &str) -> bool {
    answer.contains("Memory") || answer.contains("Out of memory")
}

impl Subject for Bytes {
    fn begin(_call: &mut Call<'_>, _size: usize) -> Option<Bytes> {
        Some(Bytes)
    }

    fn make(&mut self, word: &str, call: &mut Call<'_>) {
        let words = call.rest();
        make(word, call);
        if is_refusal(call.answer()) {
            // A second time, in case memory was refused.
            call.clear();
            call.set_rest(words);
            make(word, call);
        }
    }
}

/// Makes a call.
fn make(word: &str, call: &mut Call<'_>) {
    match word {
        "writes" => writing::show_written(call),
        "fills" => writing::show_filling(call),
        "codes" => writing::show_payload(call),
        "static" => {
            let index = call.count();
            show_result(call, &StaticTable::get(index));
        }
        "compares" | "alters" | "finds" | "changes" | "shows" => fields::make(word, call),
        "forms" => show_forms(call),
        "windows" => show_windows(call),
        "unreturned" => show_unreturned(call),
        _ => reading::make(word, call),
    }
}

/// Appends a value, or the error in its place and the text of that, after what stands there.
pub(crate) fn show_result<T: Debug, E: Debug + Display>(
    call: &mut Call<'_>,
    outcome: &Result<T, E>,
) {
    if !call.answer().is_empty() {
        call.say("; ");
    }
    match outcome {
        Ok(value) => call.show_parts(value),
        Err(error) => call.show_error(error),
    }
}

/// Appends the forms of a line, of an encoder instruction and of a decoder instruction that a byte begins.
fn show_forms(call: &mut Call<'_>) {
    let byte = writing::read_byte(call);
    call.show_parts(&HeaderBlockField::decode(byte));
    call.say(", ");
    call.show_parts(&EncoderInstruction::decode(byte));
    call.say(", ");
    call.show_parts(&DecoderInstruction::decode(byte));
}

/// Appends whether the first window is the default one, where it moved, and the rest of the byte there.
fn show_windows(call: &mut Call<'_>) {
    let mut window = BitWindow::new();
    call.show(&(window == BitWindow::default()));
    window.forwards(5);
    window.forwards(6);
    window.forwards(3);
    call.say("; ");
    call.show_parts(&window);
    call.say("; ");
    call.show_parts(&window.opposite_bit_window());
}

/// Appends the texts of errors that no call returns unless memory is refused.
fn show_unreturned(call: &mut Call<'_>) {
    call.show(&HuffmanEncodingError);
    call.say("; ");
    call.show(&Error::HuffmanEncoding(HuffmanEncodingError));
    call.say("; ");
    call.show(&Error::BufSize);
    call.say("; ");
    call.show(&ParseError::Memory);
}
