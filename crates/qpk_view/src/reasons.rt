//! Why something is refused, in words.

ghost use Rattle.qpk_view.specs.Texts.{Extends};

use crate::text::Text;
use qpack_base::parse_error::ParseError;
use qpack_base::prefix_string::{self, HuffmanDecodingError};
use qpack_codec::DecoderError;
use qpack_table::dynamic::{self, ReceivedTable};
use qpack_wire::stream::{
    DecoderLine, Duplicate, DynamicTableSizeUpdate, EncoderLine, InsertCountIncrement,
};
use qpk_show::awaited::HearingFault;
use qpk_show::section::{LineFault, PrefixRefusal};

/// Appends why an encoder instruction is refused; the table is as it was before it.
pub fn push_not_applied(
    text: &mut Text,
    line: &EncoderLine,
    error: &DecoderError,
    table: &ReceivedTable,
)
    ensures { Extends text.old text.new }
{
    if let EncoderLine::DynamicTableSizeUpdate(DynamicTableSizeUpdate(size)) = line {
        push_above_maximum(text, *size, table);
        return;
    }
    match error {
        DecoderError::DynamicTable(dynamic::Error::MaxTableSizeReached) => {
            push_no_room(text, table)
        }
        DecoderError::DynamicTable(dynamic::Error::BadRelativeIndex(index)) => {
            push_no_entry(text, *index, table)
        }
        _ => push_error(text, error),
    }
}

/// Appends that a capacity is above the maximum.
fn push_above_maximum(text: &mut Text, size: usize, table: &ReceivedTable)
    ensures { Extends text.old text.new }
{
    text.push_value("a capacity of ", &size);
    text.push_value(" is above the maximum, ", &table.agreed_max());
}

/// Returns whether an encoder instruction at an offset is what the type of its stream, left in, would be.
pub fn is_encoder_type(offset: usize, line: &EncoderLine) -> bool {
    offset == 0 && matches!(line, EncoderLine::Duplicate(Duplicate(2)))
}

/// Returns whether a decoder instruction at an offset is what the type of its stream, left in, would be.
pub fn is_decoder_type(offset: usize, line: &DecoderLine) -> bool {
    offset == 0
        && matches!(
            line,
            DecoderLine::InsertCountIncrement(InsertCountIncrement(3))
        )
}

/// Appends that the encoder stream may begin with its type, if its first instruction is what that would be.
pub(crate) fn push_encoder_hint(text: &mut Text, offset: usize, line: &EncoderLine)
    ensures { Extends text.old text.new }
{
    if is_encoder_type(offset, line) {
        text.push_str("; does the stream begin with its type, the byte 0x02?");
    }
}

/// Appends that the decoder stream may begin with its type, if its first instruction is what that would be.
pub(crate) fn push_decoder_hint(text: &mut Text, offset: usize, line: &DecoderLine)
    ensures { Extends text.old text.new }
{
    if is_decoder_type(offset, line) {
        text.push_str("; does the stream begin with its type, the byte 0x03?");
    }
}

/// Appends why there is no room for an insertion.
fn push_no_room(text: &mut Text, table: &ReceivedTable)
    ensures { Extends text.old text.new }
{
    let capacity = table.max_mem_size();
    if capacity > 0 {
        text.push_value("the entry is larger than the capacity, ", &capacity);
        return;
    }
    text.push_str("insertion while the capacity is 0");
    if table.total_inserted() == 0 {
        text.push_str(": no Set Dynamic Table Capacity came before it");
    }
}

/// Appends that a relative index of an instruction references no entry.
fn push_no_entry(text: &mut Text, index: usize, table: &ReceivedTable)
    ensures { Extends text.old text.new }
{
    text.push_value("index ", &index);
    text.push_value(" is past the table: live entries ", &table.count());
    text.push_value(", insertions ", &table.total_inserted());
}

/// Appends why a decoder instruction is refused; the table has had its insertions.
pub fn push_hearing(text: &mut Text, fault: HearingFault, table: &ReceivedTable)
    ensures { Extends text.old text.new }
{
    match fault {
        HearingFault::ZeroIncrement => text.push_str("an increment of 0"),
        HearingFault::PastInsertions(_) => text.push_between(
            "it tells of more insertions than the ",
            &table.total_inserted(),
            " that were made",
        ),
        HearingFault::UnknownStream(stream) => text.push_between(
            "no section of stream ",
            &stream,
            " waits for an acknowledgment",
        ),
    }
}

/// Appends why bytes can't be read.
pub fn push_unreadable(text: &mut Text, error: ParseError)
    ensures { Extends text.old text.new }
{
    push_error(text, &DecoderError::from(error));
}

/// Appends why a section has no lines.
pub fn push_prefix_refusal(text: &mut Text, refusal: &PrefixRefusal)
    ensures { Extends text.old text.new }
{
    match refusal {
        PrefixRefusal::NoPrefix(e) => push_unreadable(text, *e),
        PrefixRefusal::BadPrefix(ParseError::InvalidBase(base)) => push_bad_base(text, *base),
        PrefixRefusal::BadPrefix(_) => {
            text.push_str("no encoder could have written this required insert count")
        }
        PrefixRefusal::CountAtZero => {
            text.push_str("a required insert count, though the maximum capacity is 0")
        }
    }
}

/// Appends that a base is below 0.
fn push_bad_base(text: &mut Text, base: isize)
    ensures { Extends text.old text.new }
{
    text.push_value("the base is below 0: ", &base);
}

/// Appends why a line of a section gives no field.
pub fn push_line_fault(text: &mut Text, fault: &LineFault)
    ensures { Extends text.old text.new }
{
    match fault {
        LineFault::Unreadable(e) => push_unreadable(text, *e),
        LineFault::Meaningless(e) => push_error(text, e),
        LineFault::PastRequired(index) => {
            text.push_between("entry ", index, " is past the required insert count")
        }
    }
}

/// Appends that a section would be blocked if more streams might be.
pub fn push_too_many_blocked(text: &mut Text, required: usize)
    ensures { Extends text.old text.new }
{
    text.push_between(
        "it waits for insertion ",
        &required,
        ", and no more streams may be blocked",
    );
}

/// Appends an error of bytes, or of what they reference.
fn push_error(text: &mut Text, error: &DecoderError)
    ensures { Extends text.old text.new }
{
    match error {
        DecoderError::InvalidInteger(qpack_base::prefix_int::Error::Overflow) => {
            text.push_str("an integer is too large")
        }
        DecoderError::InvalidInteger(qpack_base::prefix_int::Error::UnexpectedEnd)
        | DecoderError::UnexpectedEnd => text.push_str("the bytes end within an integer"),
        DecoderError::InvalidString(e) => push_string_error(text, e),
        DecoderError::InvalidStaticIndex(index) => text.push_between(
            "static index ",
            index,
            " is past the static table, which ends at 98",
        ),
        DecoderError::DynamicTable(e) => push_table_error(text, e),
        DecoderError::BadBaseIndex(base) => push_bad_base(text, *base),
        e => text.push_error(e),
    }
}

/// Appends why a string can't be read.
fn push_string_error(text: &mut Text, error: &prefix_string::Error)
    ensures { Extends text.old text.new }
{
    match error {
        prefix_string::Error::UnexpectedEnd => text.push_str("the bytes end within a string"),
        prefix_string::Error::Integer(_) => text.push_str("the length of a string is too large"),
        prefix_string::Error::HuffmanDecoding(e) => text.push_str(words_of_huffman(e)),
        e => text.push_error(e),
    }
}

/// Returns why a Huffman-coded string can't be read.
fn words_of_huffman(error: &HuffmanDecodingError) -> &'static str {
    match error {
        HuffmanDecodingError::MissingBits(_) => {
            "a Huffman-coded string ends in bits that are neither a code nor padding"
        }
        HuffmanDecodingError::Unhandled(_, _) => {
            "a Huffman-coded string contains the code of EOS"
        }
    }
}

/// Appends why the dynamic table has no entry.
fn push_table_error(text: &mut Text, error: &dynamic::Error)
    ensures { Extends text.old text.new }
{
    match error {
        dynamic::Error::BadRelativeIndex(index) => text.push_between(
            "relative index ",
            index,
            " references an entry that is not in the table",
        ),
        dynamic::Error::BadPostbaseIndex(index) => text.push_between(
            "post-base index ",
            index,
            " references an entry that is not in the table",
        ),
        dynamic::Error::BadIndex(_) => {
            text.push_str("it references an entry that is not in the table")
        }
        e => text.push_error(e),
    }
}
