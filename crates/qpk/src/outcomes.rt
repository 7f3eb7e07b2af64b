//! The lines that an event of a script prints.

ghost use Rattle.std.specs.Prelude.{◌≡◌, ◌++◌, OnOk, string_bytes};
ghost use Rattle.qpack_codec.specs.Stateless.{fields_in};
ghost use Rattle.qpk.specs.Outcomes.{added_text, encoded_text, decoded_text, received_text, printed_outcome};

use crate::error_words::{DecoderWords, EncoderWords, MEMORY};
use crate::printing::{push_fields, push_hexadecimal, push_index_line, push_refused_line};
use h3_qpack::session::Outcome;
use h3_qpack::{Decoded, DecoderError};
use std::alloc::AllocError;

/// Appends what an event prints: its outcome, with the bytes of the block that it made, if it made one, and those that
/// it added to a stream, in lower-case hexadecimal, `-` if empty. If it is refused, it prints that in the words of its
/// error.
pub fn push_outcome_lines(
    text: &mut String,
    outcome: &Outcome,
    block: &[u8],
    added: &[u8],
) -> Result<(), AllocError>
    ensures { OnOk result (string_bytes text.new
        ≡ string_bytes text.old ++ printed_outcome outcome.now block.now added.now) }
{
    match outcome {
        Outcome::Encoded(Ok(required)) => push_encoded_line(text, *required, block, added),
        Outcome::Encoded(Err(e)) => push_refused_line(text, EncoderWords(e)),
        Outcome::Decoded(Ok(decoded)) => push_decoded_lines(text, decoded),
        Outcome::Decoded(Err(DecoderError::MissingRefs(required))) => {
            push_index_line(text, "missing", *required)
        }
        Outcome::Decoded(Err(e)) => push_refused_line(text, DecoderWords(e)),
        Outcome::Delivered(Ok(total)) => push_received_line(text, *total, added),
        Outcome::Delivered(Err(e)) => push_refused_line(text, DecoderWords(e)),
        Outcome::Heard(Ok(())) => text.push_str("heard\n"),
        Outcome::Heard(Err(e)) => push_refused_line(text, EncoderWords(e)),
        Outcome::Acknowledged(Ok(())) => push_added_line(text, "acked", added),
        Outcome::Acknowledged(Err(_)) => push_refused_line(text, MEMORY),
        Outcome::Cancelled(Ok(())) => push_added_line(text, "cancelled", added),
        Outcome::Cancelled(Err(_)) => push_refused_line(text, MEMORY),
        Outcome::CapacitySet(Ok(())) => push_added_line(text, "capacity", added),
        Outcome::CapacitySet(Err(e)) => push_refused_line(text, EncoderWords(e)),
        Outcome::Skipped(reason) => push_index_line(text, "skipped", usize::from(*reason)),
    }
}

/// Appends the line of a block that was made: its required insert count, its bytes, and those of its instructions.
fn push_encoded_line(
    text: &mut String,
    required: usize,
    block: &[u8],
    added: &[u8],
) -> Result<(), AllocError>
    ensures { OnOk result (string_bytes text.new ≡ string_bytes text.old ++ encoded_text required block.now added.now) }
{
    write!(text, "encoded {required} ")?;
    push_hexadecimal(text, block)?;
    text.push(' ')?;
    push_hexadecimal(text, added)?;
    text.push('\n')
}

/// Appends the line of a block that was decoded, with the sum of its fields' sizes and their number; and the fields, a
/// line each.
fn push_decoded_lines(text: &mut String, decoded: &Decoded) -> Result<(), AllocError>
    ensures { OnOk result (string_bytes text.new
        ≡ string_bytes text.old ++ decoded_text decoded.now.mem_size (fields_in decoded.now.fields.items)) }
{
    let size = decoded.mem_size;
    let count = decoded.fields.len();
    writeln!(text, "decoded {size} {count}")?;
    push_fields(text, &decoded.fields)
}

/// Appends the line of instructions that came to the decoder: how many insertions it ever received, and the bytes of
/// the increments that report them.
fn push_received_line(text: &mut String, total: usize, added: &[u8]) -> Result<(), AllocError>
    ensures { OnOk result (string_bytes text.new ≡ string_bytes text.old ++ received_text total added.now) }
{
    write!(text, "received {total} ")?;
    push_hexadecimal(text, added)?;
    text.push('\n')
}

/// Appends a word and the bytes that were added to a stream.
fn push_added_line(text: &mut String, word: &str, added: &[u8]) -> Result<(), AllocError>
    ensures { OnOk result (string_bytes text.new ≡ string_bytes text.old ++ added_text word.now added.now) }
{
    write!(text, "{word} ")?;
    push_hexadecimal(text, added)?;
    text.push('\n')
}
