//! Remarks on an input that was processed.

ghost use Rattle.std.specs.Prelude.{◌≡◌, IfErr, IfOk, string_bytes};
ghost use Rattle.std.specs.Option.{option_map};
ghost use Rattle.qpk.specs.Notes.{IsNoteOf, return_line, return_note};
ghost use Rattle.qpk.specs.declared.text.Fault.TheVariants.{Memory};

use crate::command::Command;
use crate::text::Fault;
use std::alloc::{AllocError, Global};

/// Returns the remark on the input of a command, as a line, if there is one.
pub fn note_of(alloc: Global, command: Command, input: &[u8]) -> Result<Option<String>, Fault>
    ensures note { IfOk result (λ note. IsNoteOf command input.now (option_map string_bytes note)) }
    ensures memory { IfErr result (λ fault. fault ≡ Memory) }
{
    match command {
        Command::EncodeLists(_) => Ok(return_note(alloc, input)?),
        _ => Ok(None),
    }
}

/// Returns the line that says that a carriage return belongs to a value, if there is one before a line feed.
fn return_note(alloc: Global, input: &[u8]) -> Result<Option<String>, AllocError>
    ensures { IfOk result (λ note. option_map string_bytes note ≡ return_note input.now) }
{
    let Some(number) = return_line(input) else {
        return Ok(None);
    };
    let note = format!(in alloc;
        "qpk: line {number}: the carriage return at its end belongs to the value\n"
    )?;
    Ok(Some(note))
}

/// Returns the number, counted from 1, of the first line that ends in a carriage return and a line feed.
fn return_line(input: &[u8]) -> Option<usize>
    ensures { result ≡ return_line 1 input.now }
{
    let mut number = 1usize;
    let mut rest = input;
    while let Some((byte, behind)) = rest.split_first() {
        if *byte == b'\r' && behind.first() == Some(&b'\n') {
            return Some(number);
        }
        if *byte == b'\n' {
            number += 1;
        }
        rest = behind;
    }
    None
}
