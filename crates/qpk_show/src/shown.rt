//! What an onlooker is shown of a connection.

use crate::awaited::HearingFault;
use crate::section::Reading;
use qpack_base::field::HeaderField;
use qpack_base::parse_error::ParseError;
use qpack_codec::DecoderError;
use qpack_wire::stream::{DecoderLine, EncoderLine};

/// One thing that is shown. An offset is that of its stream's byte where it begins, from 0.
#[derive(Debug, Drop)]
pub enum Shown {
    /// An encoder instruction that was applied.
    Applied {
        /// Where it begins.
        offset: usize,
        /// What it is.
        line: EncoderLine,
        /// The field that it inserts, if it inserts one.
        inserted: Option<HeaderField>,
    },
    /// An encoder instruction that the table refuses; the stream ends here.
    NotApplied {
        /// Where it begins.
        offset: usize,
        /// What it is.
        line: EncoderLine,
        /// Why it is refused.
        error: DecoderError,
    },
    /// Bytes that are no encoder instruction; the stream ends here.
    NoEncoderInstruction {
        /// Where they begin.
        offset: usize,
        /// Why they are none.
        error: ParseError,
    },
    /// A decoder instruction.
    Told {
        /// Where it begins.
        offset: usize,
        /// What it is.
        line: DecoderLine,
    },
    /// A decoder instruction that the sections and insertions before it refuse; the stream ends here.
    NotTold {
        /// Where it begins.
        offset: usize,
        /// What it is.
        line: DecoderLine,
        /// Why it is refused.
        fault: HearingFault,
    },
    /// Bytes that are no decoder instruction; the stream ends here.
    NoDecoderInstruction {
        /// Where they begin.
        offset: usize,
        /// Why they are none.
        error: ParseError,
    },
    /// A field section.
    Section {
        /// Its stream.
        stream: u64,
        /// Whether it was blocked before.
        was_blocked: bool,
        /// Its prefix and its lines, or why it is refused.
        reading: Reading,
    },
    /// A field section that is blocked.
    BlockedUntil {
        /// Its stream.
        stream: u64,
        /// How many insertions it waits for.
        required: usize,
    },
    /// A field section that is refused, since it would be blocked, and no more streams may be (RFC 9204, section
    /// 2.1.2).
    TooManyBlocked {
        /// Its stream.
        stream: u64,
        /// How many insertions it would wait for.
        required: usize,
    },
}
