//! Cases of sessions and connections: both ends and what is between them, in the format of `qpack_testing::cases`.
#![tactic(auto)]

mod connection;
mod lawful;
mod runs;
mod session;

use anyhow::Result;
use connection::Connection;
use lawful::Lawful;
use qpack_testing::cases::{Kinds, Run, answer_calls, hold, hold_files};
use runs::Runs;
use session::Session;

/// The files of cases.
const FILES: [&str; 5] = [
    "sessions.txt",
    "many_streams.txt",
    "two_ends.txt",
    "refused.txt",
    "runs.txt",
];

/// What the cases call.
struct TwoEnds;

impl Kinds for TwoEnds {
    fn hold_kind(kind: &str, run: &mut Run<'_>) {
        match kind {
            "session" => hold::<Lawful<Session>>(run),
            "connection" => hold::<Lawful<Connection>>(run),
            "runs" => hold::<Runs>(run),
            _ => run.fail("there is no such kind"),
        }
    }
}

/// Runs the tests. Fails at the first one that does not hold.
pub fn run(rt: &HostRuntime) -> Result<()> {
    hold_files::<TwoEnds>(rt, &FILES)
}

/// Prints the answers of calls.
pub fn answer(rt: &HostRuntime, calls: &str) -> Result<()> {
    answer_calls::<TwoEnds>(rt, calls)
}
