//! What makes a finding likely: a sentence each, as docs/CAUSES.md lists them.

/// The encoder relies on a capacity that no instruction set.
pub(crate) const NO_CAPACITY: &str =
    "the encoder takes the maximum for the capacity, or the recording begins late";
/// The capacity is 0 again.
pub(crate) const CAPACITY_IS_ZERO_AGAIN: &str =
    "an earlier instruction set the capacity to 0, and the encoder goes on inserting";
/// Sizes are counted in another way.
pub(crate) const TOO_LARGE: &str =
    "the encoder leaves out the 32 bytes that each entry counts more, or has another capacity";
/// SETTINGS are not followed.
pub(crate) const ABOVE_MAXIMUM: &str =
    "the encoder does not keep to the decoder's SETTINGS, or they are not in the recording: give --max-capacity";
/// The stream of encoder instructions begins with its type.
pub(crate) const ENCODER_TYPE: &str =
    "the type of the stream, the byte 0x02, was left in: leave it out";
/// The stream of decoder instructions begins with its type.
pub(crate) const DECODER_TYPE: &str =
    "the type of the stream, the byte 0x03, was left in: leave it out";
/// An index of an instruction is counted in another way.
pub(crate) const INSTRUCTION_INDEX: &str =
    "the encoder counts from a base and not from the newest entry, or an insertion is missing";
/// A static index is counted in another way.
pub(crate) const STATIC_INDEX: &str =
    "static indexes begin at 0; or a dynamic index has the bit of a static one";
/// Bytes are missing before it.
pub(crate) const UNREADABLE: &str = "bytes before it are missing, or are there twice";
/// The section is cut.
pub(crate) const CUT_SECTION: &str =
    "the section is cut, or the length of its frame or of a string is wrong";
/// The required insert count is too low.
pub(crate) const PAST_REQUIRED: &str =
    "the encoder writes a required insert count that is too low, or takes the base for it";
/// The base is above the required insert count, and an entry between them is referenced.
pub(crate) const BASE_TOO_HIGH: &str =
    "its base is too high, or the encoder writes a required insert count that is too low";
/// An index counts back past the first entry.
pub(crate) const BASE_TOO_LOW: &str =
    "its base is too low; or the encoder wrote a required insert count that is too large, which was read modulo 2 * MaxEntries";
/// A string is coded otherwise.
pub(crate) const HUFFMAN: &str =
    "the encoder fills the last byte of a string with other padding than ones, or with 8 bits and more (RFC 7541, section 5.2); or bytes before it are missing";
/// The required insert count is 0.
pub(crate) const NOTHING_REQUIRED: &str =
    "the encoder writes a required insert count of 0 for a section that references the dynamic table";
/// The entry was evicted.
pub(crate) const EVICTED: &str =
    "the encoder evicted an entry that a section still needs, or its base is wrong";
/// MaxEntries differs.
pub(crate) const BAD_COUNT: &str =
    "the ends compute MaxEntries from different maximum capacities: it is that of SETTINGS, not the capacity";
/// MaxEntries is that of the capacity.
pub(crate) const BY_CAPACITY: &str =
    "the encoder computes MaxEntries from the capacity in use, as nghttp3 and neqo do, and not from the maximum of SETTINGS";
/// The base is below 0.
pub(crate) const BAD_BASE: &str =
    "the sign of the base is set, and its delta is not below the required insert count";
/// No table is allowed.
pub(crate) const COUNT_AT_ZERO: &str =
    "the encoder uses a table before the decoder's SETTINGS allow it, or they are not in the recording";
/// Too many streams wait.
pub(crate) const TOO_MANY_BLOCKED: &str =
    "the encoder does not keep to the decoder's SETTINGS, or bytes of the encoder stream are missing";
/// A section without references is acknowledged.
pub(crate) const NOTHING_TO_ACKNOWLEDGE: &str =
    "a section whose required insert count is 0 is not acknowledged; or the stream's number is wrong";
/// A section is acknowledged twice.
pub(crate) const ACKNOWLEDGED_TWICE: &str =
    "each section of the stream was acknowledged or cancelled before";
/// A section of a stream that was cancelled is acknowledged.
pub(crate) const ACKNOWLEDGED_AFTER_CANCEL: &str =
    "the stream was cancelled, so that no section of it is acknowledged (section 2.2.2.2)";
/// Nothing came since the last increment.
pub(crate) const NOTHING_CAME: &str =
    "the decoder writes an increment though nothing was inserted since the last one";
/// Insertions are counted twice.
pub(crate) const COUNTED_TWICE: &str =
    "insertions are missing in the recording; or the decoder also counts insertions that an acknowledgment told of, or counts other instructions";
/// More bytes follow.
pub(crate) const MORE_FOLLOWS: &str =
    "the recording ends early, or a length in the instruction is wrong";
/// The insertions never come.
pub(crate) const NEVER_COMES: &str =
    "the recording ends early, or the encoder never sent that insertion";
/// An entry is evicted that a section references.
pub(crate) const EVICTED_WHILE_REFERENCED: &str =
    "the encoder lets go of the entries of a section once it is sent, and not once it is acknowledged or cancelled";
/// An entry is evicted whose insertion is not acknowledged.
pub(crate) const EVICTED_UNACKNOWLEDGED: &str =
    "the encoder evicts entries that nothing references, and does not wait until the decoder acknowledges their insertion";
/// More streams could be blocked than may be.
pub(crate) const TOO_MANY_AT_RISK: &str =
    "the encoder counts the streams that are blocked, and not all that could be, whose insertions are not acknowledged";
/// No section is acknowledged.
pub(crate) const NO_ACKNOWLEDGMENT: &str =
    "the decoder acknowledges no section, so that the encoder can evict nothing that one references; or its stream is not in the recording";
/// A field comes of an entry that was not meant.
pub(crate) const WRONG_ENTRY: &str =
    "an index hits another entry, since the base is wrong or an insertion is missing; or the message is so";
/// A name is not in small letters.
pub(crate) const CAPITALS: &str =
    "names go to the encoder as the application wrote them: write them in small letters before";
/// A field is about the connection.
pub(crate) const OF_CONNECTION: &str = "fields of HTTP/1.1 are passed on: leave this one out";
/// A pseudo-field is late.
pub(crate) const LATE_PSEUDO: &str = "pseudo-fields go before all other fields: sort the list";
/// A pseudo-field is not defined.
pub(crate) const UNDEFINED_PSEUDO: &str =
    "its name is wrong, or an extension has it that the ends agreed on";
/// Trailers have a pseudo-field.
pub(crate) const PSEUDO_IN_TRAILERS: &str =
    "a second header section is sent on the stream, or trailers with fields of the first";
/// A pseudo-field comes twice.
pub(crate) const PSEUDO_TWICE: &str = "the list has it from two places: keep one";
/// A pseudo-field is missing.
pub(crate) const NO_PSEUDO: &str =
    "the list has no such field, or the header section of the stream is not in the recording";
