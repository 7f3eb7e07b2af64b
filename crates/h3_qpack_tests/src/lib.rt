//! Cases of h3's names: the dynamic table and its indexes, the encoder and the decoder over one, sections without a
//! table, and lists of at most two bytes, in the format of `qpack_testing::cases`.
#![tactic(auto)]

mod decoder;
mod encoder;
mod positions;
mod repeated;
mod short_lists;
mod stateless;
mod strict;
mod table;

use anyhow::Result;
use decoder::H3Decoder;
use encoder::H3Encoder;
use h3_qpack::dynamic::{NoIndex, SortedIndex};
use positions::Positions;
use qpack_testing::cases::{Kinds, Run, answer_calls, hold, hold_files};
use short_lists::ShortLists;
use stateless::Stateless;
use table::{Hashed, Received, Table};

/// The files of cases.
const FILES: [&str; 8] = [
    "positions.txt",
    "tables.txt",
    "h3_encoder.txt",
    "h3_decoder.txt",
    "cut_early.txt",
    "cut_late.txt",
    "stateless.txt",
    "heaps.txt",
];

/// What the cases call.
struct Names;

impl Kinds for Names {
    fn hold_kind(kind: &str, run: &mut Run<'_>) {
        match kind {
            "positions" => hold::<Positions>(run),
            "table" => hold::<Table>(run),
            "received-table" => hold::<Received>(run),
            "hashed-table" => hold::<Hashed>(run),
            "h3-encoder" => hold::<H3Encoder>(run),
            "h3-decoder" => hold::<H3Decoder<SortedIndex>>(run),
            "h3-received-decoder" => hold::<H3Decoder<NoIndex>>(run),
            "stateless" => hold::<Stateless>(run),
            "short-lists" => hold::<ShortLists>(run),
            _ => run.fail("there is no such kind"),
        }
    }
}

/// Runs the tests. Fails at the first one that does not hold.
pub fn run(rt: &HostRuntime) -> Result<()> {
    hold_files::<Names>(rt, &FILES)
}

/// Prints the answers of calls.
pub fn answer(rt: &HostRuntime, calls: &str) -> Result<()> {
    answer_calls::<Names>(rt, calls)
}
