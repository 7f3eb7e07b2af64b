//! Cases of the two ends of a connection, of their parts, and of the bytes that they read and write, in the format of
//! `qpack_testing::cases`.
#![tactic(auto)]

mod answers;
mod bytes;
mod calls;
mod decoder;
mod decoder_stream;
mod encoder;
mod encoder_stream;
mod pieces;
mod sections;

use anyhow::Result;
use bytes::Bytes;
use calls::Calls;
use decoder::Decoder;
use decoder_stream::Hearing;
use encoder::Encoder;
use encoder_stream::Receiving;
use pieces::Pieces;
use qpack_testing::cases::{Kinds, Run, answer_calls, hold, hold_files};
use sections::Sections;

/// The files of cases.
const FILES: [&str; 15] = [
    "integers.txt",
    "literals.txt",
    "recorded_texts.txt",
    "header_fields.txt",
    "field_lines.txt",
    "instructions.txt",
    "cut_stream.txt",
    "decoder.txt",
    "encoder.txt",
    "decoder_stream.txt",
    "encoder_stream.txt",
    "sections.txt",
    "pieces.txt",
    "recordings.txt",
    "calls.txt",
];

/// What the cases call.
struct Ends;

impl Kinds for Ends {
    fn hold_kind(kind: &str, run: &mut Run<'_>) {
        match kind {
            "decoder" => hold::<Decoder>(run),
            "encoder" => hold::<Encoder>(run),
            "decoder-stream" => hold::<Hearing>(run),
            "encoder-stream" => hold::<Receiving>(run),
            "pieces" => hold::<Pieces>(run),
            "sections" => hold::<Sections>(run),
            "bytes" => hold::<Bytes>(run),
            "calls" => hold::<Calls>(run),
            _ => run.fail("there is no such kind"),
        }
    }
}

/// Runs the tests. Fails at the first one that does not hold.
pub fn run(rt: &HostRuntime) -> Result<()> {
    hold_files::<Ends>(rt, &FILES)
}

/// Prints the answers of calls.
pub fn answer(rt: &HostRuntime, calls: &str) -> Result<()> {
    answer_calls::<Ends>(rt, calls)
}
