//! A finding: where, what is wrong, the section of RFC 9204 or RFC 9114 that says so, the code that ends the connection or
//! the stream, and a cause.

ghost use Rattle.std.specs.Prelude.{false, true};
ghost use Rattle.qpk_check.specs.Findings.{finding_front};
ghost use Rattle.qpk_view.specs.Texts.{BeginsWith, Extends};

use crate::causes;
use crate::duties::Kept;
use crate::messages::{MessageFault, Part};
use qpack_base::parse_error::ParseError;
use qpack_base::prefix_string::HuffmanDecodingError;
use qpack_base::{prefix_int, prefix_string};
use qpack_codec::DecoderError;
use qpack_table::dynamic::{self, ReceivedTable};
use qpack_wire::stream::{DecoderLine, EncoderLine};
use qpk_show::awaited::HearingFault;
use qpk_show::section::{LineFault, PrefixRefusal};
use qpk_view::place::Place;
use qpk_view::reasons::{is_decoder_type, is_encoder_type};
use qpk_view::text::Text;

/// What a finding is about.
#[derive(Clone, Copy)]
pub(crate) enum Subject {
    /// An instruction of the encoder stream: its offset, and its number from 1.
    Encoder(usize, usize),
    /// An instruction of the decoder stream.
    Decoder(usize, usize),
    /// A section of this stream, at this offset.
    Section(u64, usize),
    /// A record of the offline interop.
    Record(usize),
}

/// The code that ends the connection (RFC 9204, section 6), or the stream (RFC 9114, section 8.1).
#[derive(Clone, Copy)]
pub(crate) enum Code {
    Decompression,
    EncoderStream,
    DecoderStream,
    Message,
    /// It is no error of the connection yet.
    None,
}

/// The standard that says what is wrong.
#[derive(Clone, Copy)]
enum Standard {
    /// RFC 9204.
    Qpack,
    /// RFC 9114.
    Http,
}

/// The section of a standard that says what is wrong, the code, and a likely cause.
#[derive(Clone, Copy)]
pub(crate) struct Rule {
    standard: Standard,
    section: &'static str,
    code: Code,
    cause: &'static str,
}

/// What the end of a recording cuts.
pub(crate) const CUT: Rule = Rule {
    standard: Standard::Qpack,
    section: "4.2",
    code: Code::None,
    cause: causes::MORE_FOLLOWS,
};
/// A section that waits to the end.
const NEVER_UNBLOCKED: Rule = Rule {
    standard: Standard::Qpack,
    section: "2.1.2",
    code: Code::None,
    cause: causes::NEVER_COMES,
};
/// A section that waits to the end, and would not by the capacity in use.
const WAITS_BY_MAXIMUM: Rule = Rule {
    standard: Standard::Qpack,
    section: "4.5.1.1",
    code: Code::None,
    cause: causes::BY_CAPACITY,
};
/// A section that may not wait.
pub(crate) const TOO_MANY_BLOCKED: Rule = Rule {
    standard: Standard::Qpack,
    section: "2.1.2",
    code: Code::Decompression,
    cause: causes::TOO_MANY_BLOCKED,
};

/// More streams could be blocked than may be.
pub(crate) const TOO_MANY_AT_RISK: Rule = Rule {
    standard: Standard::Qpack,
    section: "2.1.2",
    code: Code::None,
    cause: causes::TOO_MANY_AT_RISK,
};
/// A decoder that acknowledges no section.
pub(crate) const NO_ACKNOWLEDGMENT: Rule = Rule {
    standard: Standard::Qpack,
    section: "2.2.2.1",
    code: Code::None,
    cause: causes::NO_ACKNOWLEDGMENT,
};

/// Returns the rule of a section of RFC 9204 that is broken.
fn broken(section: &'static str, code: Code, cause: &'static str) -> Rule {
    Rule {
        standard: Standard::Qpack,
        section,
        code,
        cause,
    }
}

/// Returns the rule of an encoder instruction at an offset, which the table refuses.
pub(crate) fn rule_of_instruction(
    offset: usize,
    line: &EncoderLine,
    error: &DecoderError,
    table: &ReceivedTable,
) -> Rule {
    let code = Code::EncoderStream;
    if let EncoderLine::DynamicTableSizeUpdate(_) = line {
        return broken("4.3.1", code, causes::ABOVE_MAXIMUM);
    }
    match error {
        DecoderError::DynamicTable(dynamic::Error::MaxTableSizeReached) => {
            broken("3.2.2", code, cause_of_no_room(table))
        }
        DecoderError::DynamicTable(_) => broken("2.2.3", code, cause_of_no_entry(offset, line)),
        _ => broken("3.1", code, causes::STATIC_INDEX),
    }
}

/// Returns why there may be no room for an insertion.
fn cause_of_no_room(table: &ReceivedTable) -> &'static str {
    if table.max_mem_size() > 0 {
        return causes::TOO_LARGE;
    }
    if table.total_inserted() > 0 {
        return causes::CAPACITY_IS_ZERO_AGAIN;
    }
    causes::NO_CAPACITY
}

/// Returns why an instruction may reference no entry.
fn cause_of_no_entry(offset: usize, line: &EncoderLine) -> &'static str {
    if is_encoder_type(offset, line) {
        causes::ENCODER_TYPE
    } else {
        causes::INSTRUCTION_INDEX
    }
}

/// Returns the rule of bytes of a stream that are no instruction.
pub(crate) fn rule_of_bytes(code: Code, error: ParseError) -> Rule {
    broken(section_of(error), code, cause_of_unreadable(error))
}

/// Returns the section that bytes break which can't be read.
fn section_of(error: ParseError) -> &'static str {
    match error {
        ParseError::String(_) => "4.1.2",
        _ => "4.1.1",
    }
}

/// Returns why bytes of a stream or of a section can't be read.
fn cause_of_unreadable(error: ParseError) -> &'static str {
    match error {
        ParseError::String(
            prefix_string::Error::HuffmanDecoding(HuffmanDecodingError::MissingBits(_)),
        ) => causes::HUFFMAN,
        _ => causes::UNREADABLE,
    }
}

/// How the sections of a stream were released, of which none waits for an acknowledgment.
#[derive(Clone, Copy)]
pub(crate) enum Released {
    /// There was none with a required insert count.
    Never,
    /// They were acknowledged, the last one in this line; or the decoder reads the stream no further.
    Acknowledged(Option<usize>),
    /// The stream was cancelled, in this line.
    Cancelled(usize),
}

/// Returns the rule of a decoder instruction at an offset that is refused, for a stream whose sections were released.
pub(crate) fn rule_of_hearing(
    offset: usize,
    line: &DecoderLine,
    fault: HearingFault,
    released: Released,
) -> Rule {
    let code = Code::DecoderStream;
    match fault {
        HearingFault::ZeroIncrement => broken("4.4.3", code, causes::NOTHING_CAME),
        HearingFault::PastInsertions(_) => broken("4.4.3", code, cause_of_increment(offset, line)),
        HearingFault::UnknownStream(_) => broken("4.4.1", code, cause_of_release(released)),
    }
}

/// Returns why a section may be acknowledged that does not wait for that.
fn cause_of_release(released: Released) -> &'static str {
    match released {
        Released::Never => causes::NOTHING_TO_ACKNOWLEDGE,
        Released::Acknowledged(_) => causes::ACKNOWLEDGED_TWICE,
        Released::Cancelled(_) => causes::ACKNOWLEDGED_AFTER_CANCEL,
    }
}

/// Returns why an increment may pass the insertions.
fn cause_of_increment(offset: usize, line: &DecoderLine) -> &'static str {
    if is_decoder_type(offset, line) {
        causes::DECODER_TYPE
    } else {
        causes::COUNTED_TWICE
    }
}

/// Returns the rule of a section that is refused for its prefix.
pub(crate) fn rule_of_prefix(refusal: &PrefixRefusal) -> Rule {
    let code = Code::Decompression;
    match refusal {
        PrefixRefusal::NoPrefix(e) => broken("4.5.1", code, cause_of_bytes(*e)),
        PrefixRefusal::BadPrefix(ParseError::InvalidBase(_)) => {
            broken("4.5.1.2", code, causes::BAD_BASE)
        }
        PrefixRefusal::BadPrefix(_) => broken("4.5.1.1", code, causes::BAD_COUNT),
        PrefixRefusal::CountAtZero => broken("4.5.1.1", code, causes::COUNT_AT_ZERO),
    }
}

/// Returns why bytes of a section can't be read.
fn cause_of_bytes(error: ParseError) -> &'static str {
    match error {
        ParseError::Integer(prefix_int::Error::UnexpectedEnd)
        | ParseError::String(prefix_string::Error::UnexpectedEnd) => causes::CUT_SECTION,
        error => cause_of_unreadable(error),
    }
}

/// Returns the rule of a line that gives no field, of a section with this required insert count and this base; and by the
/// capacity in use, with another count.
pub(crate) fn rule_of_line(
    fault: &LineFault,
    required: usize,
    base: usize,
    by_capacity: Option<usize>,
) -> Rule {
    let code = Code::Decompression;
    if by_capacity.is_some() && is_reference(fault) {
        return broken("4.5.1.1", code, causes::BY_CAPACITY);
    }
    match fault {
        LineFault::Unreadable(e) => broken(section_of(*e), code, cause_of_bytes(*e)),
        LineFault::PastRequired(_) => broken("2.2.3", code, cause_of_past(required, base)),
        LineFault::Meaningless(DecoderError::InvalidStaticIndex(_)) => {
            broken("3.1", code, causes::STATIC_INDEX)
        }
        LineFault::Meaningless(_) => {
            broken("2.2.3", code, cause_of_no_reference(fault, required, base))
        }
    }
}

/// Returns whether a line references an entry that is not there.
fn is_reference(fault: &LineFault) -> bool {
    match fault {
        LineFault::PastRequired(_) | LineFault::Meaningless(DecoderError::DynamicTable(_)) => true,
        LineFault::Unreadable(_) | LineFault::Meaningless(_) => false,
    }
}

/// Returns the rule of a section that waits to the end. By the capacity in use it has another required insert count.
pub(crate) fn rule_of_wait(by_capacity: Option<usize>) -> Rule {
    match by_capacity {
        Some(_) => WAITS_BY_MAXIMUM,
        None => NEVER_UNBLOCKED,
    }
}

/// Returns why a line may reference an entry past the required insert count.
fn cause_of_past(required: usize, base: usize) -> &'static str {
    if base > required {
        causes::BASE_TOO_HIGH
    } else {
        causes::PAST_REQUIRED
    }
}

/// Returns why a line of a section with this required insert count and this base may reference no entry.
fn cause_of_no_reference(fault: &LineFault, required: usize, base: usize) -> &'static str {
    if required == 0 {
        return causes::NOTHING_REQUIRED;
    }
    match fault {
        LineFault::Meaningless(DecoderError::DynamicTable(dynamic::Error::BadRelativeIndex(index)))
            if *index >= base => causes::BASE_TOO_LOW,
        _ => causes::EVICTED,
    }
}

/// Returns the rule of an entry that may not be evicted yet.
pub(crate) fn rule_of_early(kept: Kept) -> Rule {
    let cause = match kept {
        Kept::Referenced(_, _) => causes::EVICTED_WHILE_REFERENCED,
        Kept::Unacknowledged => causes::EVICTED_UNACKNOWLEDGED,
    };
    broken("2.1.1", Code::None, cause)
}

/// Returns the rule of a list that is no message. Its field came of the dynamic table or not.
pub(crate) fn rule_of_message(fault: MessageFault, is_dynamic: bool) -> Rule {
    Rule {
        standard: Standard::Http,
        section: section_of_message(fault),
        code: Code::Message,
        cause: if is_dynamic {
            causes::WRONG_ENTRY
        } else {
            cause_of_message(fault)
        },
    }
}

/// Returns the section of RFC 9114 that a list breaks.
fn section_of_message(fault: MessageFault) -> &'static str {
    match fault {
        MessageFault::Capitals | MessageFault::OfConnection => "4.2",
        MessageFault::Late | MessageFault::Undefined(_) | MessageFault::InTrailers => "4.3",
        MessageFault::Twice(Part::Response) | MessageFault::Missing(Part::Response, _) => "4.3.2",
        MessageFault::Twice(_) | MessageFault::Missing(_, _) => "4.3.1",
    }
}

/// Returns why a list may be no message.
fn cause_of_message(fault: MessageFault) -> &'static str {
    match fault {
        MessageFault::Capitals => causes::CAPITALS,
        MessageFault::OfConnection => causes::OF_CONNECTION,
        MessageFault::Late => causes::LATE_PSEUDO,
        MessageFault::Undefined(_) => causes::UNDEFINED_PSEUDO,
        MessageFault::InTrailers => causes::PSEUDO_IN_TRAILERS,
        MessageFault::Twice(_) => causes::PSEUDO_TWICE,
        MessageFault::Missing(_, _) => causes::NO_PSEUDO,
    }
}

/// Appends the front of a finding as a line, before the reason.
pub(crate) fn push_finding(text: &mut Text, place: Place<'_>, subject: Subject)
    ensures { BeginsWith (finding_front false) text.old text.new }
{
    text.push_between("line ", &place.line, ": ");
    place.push(text);
    push_subject(text, subject);
    text.push_str(": ");
}

/// Appends the end of a finding as a line.
pub(crate) fn push_rule(text: &mut Text, rule: Rule)
    ensures { Extends text.old text.new }
{
    text.push_str(front_of(rule.standard));
    text.push_str(rule.section);
    text.push_str(words_of(rule.code));
    text.push_str("]; likely cause: ");
    text.push_str(rule.cause);
    text.push_str("\n");
}

/// Returns the words before the section of a standard.
fn front_of(standard: Standard) -> &'static str {
    match standard {
        Standard::Qpack => " [RFC 9204, section ",
        Standard::Http => " [RFC 9114, section ",
    }
}

/// Returns the words for the code that ends the connection, if one does.
fn words_of(code: Code) -> &'static str {
    match code {
        Code::Decompression => "; 0x0200 QPACK_DECOMPRESSION_FAILED",
        Code::EncoderStream => "; 0x0201 QPACK_ENCODER_STREAM_ERROR",
        Code::DecoderStream => "; 0x0202 QPACK_DECODER_STREAM_ERROR",
        Code::Message => "; 0x010e H3_MESSAGE_ERROR",
        Code::None => "",
    }
}

/// Appends what a finding is about.
fn push_subject(text: &mut Text, subject: Subject)
    ensures { Extends text.old text.new }
{
    match subject {
        Subject::Encoder(offset, number) => {
            text.push_value("encoder stream, byte ", &offset);
            text.push_value(", instruction ", &number);
        }
        Subject::Decoder(offset, number) => {
            text.push_value("decoder stream, byte ", &offset);
            text.push_value(", instruction ", &number);
        }
        Subject::Section(stream, offset) => {
            text.push_value("section of stream ", &stream);
            text.push_value(", byte ", &offset);
        }
        Subject::Record(offset) => text.push_value("record at byte ", &offset),
    }
}

/// Appends the front of a finding as an object of JSON, before the reason.
pub(crate) fn push_finding_object(text: &mut Text, place: Place<'_>, subject: Subject)
    ensures { BeginsWith (finding_front true) text.old text.new }
{
    place.push_members(text);
    push_subject_members(text, subject);
    text.push_str(",\"fault\":\"");
}

/// Appends the end of a finding as an object of JSON.
pub(crate) fn push_rule_members(text: &mut Text, rule: Rule)
    ensures { Extends text.old text.new }
{
    text.push_str(member_of(rule.standard));
    text.push_str(rule.section);
    text.push_str("\"");
    text.push_str(members_of(rule.code));
    text.push_str(",\"cause\":\"");
    text.push_str(rule.cause);
    text.push_str("\"}\n");
}

/// Returns the end of a reason, and the front of the member of the section of a standard.
fn member_of(standard: Standard) -> &'static str {
    match standard {
        Standard::Qpack => "\",\"rfc9204\":\"",
        Standard::Http => "\",\"rfc9114\":\"",
    }
}

/// Returns the members of the code that ends the connection, if one does.
fn members_of(code: Code) -> &'static str {
    match code {
        Code::Decompression => ",\"code\":512,\"code_name\":\"QPACK_DECOMPRESSION_FAILED\"",
        Code::EncoderStream => ",\"code\":513,\"code_name\":\"QPACK_ENCODER_STREAM_ERROR\"",
        Code::DecoderStream => ",\"code\":514,\"code_name\":\"QPACK_DECODER_STREAM_ERROR\"",
        Code::Message => ",\"code\":270,\"code_name\":\"H3_MESSAGE_ERROR\"",
        Code::None => "",
    }
}

/// Appends the members of what a finding is about.
fn push_subject_members(text: &mut Text, subject: Subject)
    ensures { Extends text.old text.new }
{
    match subject {
        Subject::Encoder(offset, number) => {
            text.push_value("\"encoder\":", &offset);
            text.push_value(",\"instruction_number\":", &number);
        }
        Subject::Decoder(offset, number) => {
            text.push_value("\"decoder\":", &offset);
            text.push_value(",\"instruction_number\":", &number);
        }
        Subject::Section(stream, offset) => {
            text.push_value("\"section\":", &stream);
            text.push_value(",\"offset\":", &offset);
        }
        Subject::Record(offset) => text.push_value("\"record\":", &offset),
    }
}
