//! Runs the tests that read their cases from files: those of the crate that standard input names, or of all. The first
//! that does not hold ends the program with an error. With calls after the name it prints their answers. One program for
//! all is linked and compiled once.
#![tactic(auto)]

use anyhow::{Result, bail};
use qpack_testing::cases::read_calls;
use std::io::Read;
use std::str;

/// The crates with such tests.
const CRATES: [&str; 4] = [
    "h3_qpack_tests",
    "two_ends_tests",
    "qpack_connection_tests",
    "qpk_foretold",
];

/// The longest name.
const LONGEST: usize = 64;

/// Runs the tests of a crate.
fn run(rt: &HostRuntime, name: &str) -> Result<()> {
    match name {
        "h3_qpack_tests" => h3_qpack_tests::run(rt),
        "two_ends_tests" => two_ends_tests::run(rt),
        "qpack_connection_tests" => qpack_connection_tests::run(rt),
        "qpk_foretold" => qpk_foretold::run(rt),
        _ => bail!("there are no tests {name}"),
    }
}

/// Runs the tests of all crates, after the name of each.
fn run_all(rt: &HostRuntime) -> Result<()> {
    for name in CRATES {
        println!(rt; "== {name}")?;
        run(rt, name)?;
    }
    Ok(())
}

/// Prints the answers of the calls of standard input, of which this is the beginning.
fn answer(rt: &HostRuntime, name: &str, begun: &str) -> Result<()> {
    let calls = read_calls(rt, begun)?;
    match name {
        "h3_qpack_tests" => h3_qpack_tests::answer(rt, calls.as_str()),
        "two_ends_tests" => two_ends_tests::answer(rt, calls.as_str()),
        "qpack_connection_tests" => qpack_connection_tests::answer(rt, calls.as_str()),
        "qpk_foretold" => qpk_foretold::answer(rt, calls.as_str()),
        _ => bail!("{name} answers no calls"),
    }
}

fn main(rt: HostRuntime) -> Result<()> {
    // Read without memory, so that no test is left out where an allocation is refused.
    let mut line = [0; LONGEST];
    let len = rt.reader().read(&mut line)?;
    match str::from_utf8(line.get(..len).unwrap_or(&[]))?.split_once('\n') {
        Some((name, "")) => run(&rt, name),
        Some((name, calls)) => answer(&rt, name, calls),
        None => run_all(&rt),
    }
}
