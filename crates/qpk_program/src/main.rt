//! The program `qpk`: QPACK on the command line (RFC 9204).
#![tactic(auto)]

use qpk::refusal::Refusal;
use qpk::serve;
use qpk::text::Fault;
use std::env;
use std::io::ErrorKind;
use std::process::ExitCode;

fn main(rt: HostRuntime) -> ExitCode {
    let status = match read_words(&rt) {
        Ok(words) => serve::serve(
            rt.alloc(),
            &words,
            &mut rt.reader(),
            &mut rt.stdout(),
            &mut rt.stderr(),
        ),
        Err(refusal) => serve::refuse(rt.alloc(), &refusal, &mut rt.stderr()),
    };
    ExitCode::from(status)
}

/// The words that the program was given, without its name.
fn read_words(rt: &HostRuntime) -> Result<Vec<String>, Refusal> {
    let mut words = Vec::new(rt.alloc());
    let all = env::args(rt).map_err(|e| match e.kind() {
        ErrorKind::OutOfMemory => Refusal::Fault(Fault::Memory),
        _ => Refusal::Usage,
    })?;
    for word in all.skip(1) {
        words.push(word).map_err(|_| Refusal::Fault(Fault::Memory))?;
    }
    Ok(words)
}
