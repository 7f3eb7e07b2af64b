//! Runs of `qpk`, which `tests/foretold.py` asks for on standard input, and compares with what was foretold. The words of
//! errors are cases, beside those that each error prints by itself.
#![tactic(auto)]

mod errors;
mod serving;
mod streams;

use anyhow::Result;
use errors::Words;
use qpack_testing::cases::{Kinds, Run, answer_calls, hold, hold_files};
use serving::Serving;

/// What is asked for.
struct Runs;

impl Kinds for Runs {
    fn hold_kind(kind: &str, run: &mut Run<'_>) {
        match kind {
            "qpk" => hold::<Serving>(run),
            "words" => hold::<Words>(run),
            _ => run.fail("there is no such kind"),
        }
    }
}

/// Runs the tests. Fails at the first one that does not hold.
pub fn run(rt: &HostRuntime) -> Result<()> {
    hold_files::<Runs>(rt, &["error_words.txt"])
}

/// Prints the answers of calls.
pub fn answer(rt: &HostRuntime, calls: &str) -> Result<()> {
    answer_calls::<Runs>(rt, calls)
}
