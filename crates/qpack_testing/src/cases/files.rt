//! The files of a program's cases.

use crate::cases::lines::{Line, read_lines};
use crate::cases::run::Run;
use crate::cases::subject::Kinds;
use anyhow::{Result, bail};
use std::alloc::Global;
use std::io::Read;
use std::{fs, str};

/// The size of pieces if a case names none: a stream comes whole.
const WHOLE: &str = "1000000000";

/// Makes all calls of the files' cases, and prints a line for each file. Fails if a case does not hold.
pub fn hold_files<K: Kinds>(rt: &HostRuntime, files: &[&str]) -> Result<()> {
    let mut is_held = true;
    for file in files {
        is_held &= hold_file::<K>(rt, file);
    }
    end(is_held)
}

/// Makes the calls of a text, and prints each answer. Fails at a call that does not hold, whatever its answer.
pub fn answer_calls<K: Kinds>(rt: &HostRuntime, text: &str) -> Result<()> {
    end(hold_text::<K>(rt, "asked", text, true))
}

/// Fails unless all was held.
fn end(is_held: bool) -> Result<()> {
    if !is_held {
        bail!("a case does not hold, or a file's lines are not read");
    }
    Ok(())
}

/// Makes all calls of a file's cases. Returns whether they hold.
fn hold_file<K: Kinds>(rt: &HostRuntime, file: &str) -> bool {
    match read_file(rt, file) {
        Some(text) => hold_text::<K>(rt, file, text.as_str(), false),
        None => false,
    }
}

/// Makes all calls of a text's cases. Returns whether they hold.
fn hold_text<K: Kinds>(rt: &HostRuntime, name: &str, text: &str, is_asked: bool) -> bool {
    match read_twice(rt.alloc(), text) {
        Some(lines) => hold_lines::<K>(rt, name, &lines, is_asked),
        None => false,
    }
}

/// Makes all calls of the cases of lines, and prints the answers that are asked for. Returns whether the cases hold.
fn hold_lines<K: Kinds>(rt: &HostRuntime, name: &str, lines: &[Line], is_asked: bool) -> bool {
    let mut run = Run::new(rt.alloc(), is_asked);
    hold_cases::<K>(&mut run, lines);
    run.keep_answers();
    tell(rt, name, &run)
}

/// How many bytes of standard input are read at a time.
const PIECE: usize = 4096;

/// Reads what is left of standard input, and returns all of it. The beginning was read before. Each growth is tried twice, in
/// case memory was refused: what was read can't be read again.
pub fn read_calls(rt: &HostRuntime, begun: &str) -> Result<String> {
    let mut calls = String::new(rt.alloc());
    let mut is_whole = push_twice(&mut calls, begun);
    let mut piece = [0; PIECE];
    for _ in 0..usize::MAX {
        match rt.reader().read(&mut piece) {
            Ok(0) => break,
            Ok(len) => is_whole &= push_piece(&mut calls, piece.get(..len).unwrap_or(&[])),
            Err(_) => {
                is_whole = false;
                break;
            }
        }
    }
    if !is_whole {
        bail!("the calls are not read whole");
    }
    Ok(calls)
}

/// Appends bytes that are a text. Returns whether they are, and there was memory.
fn push_piece(calls: &mut String, piece: &[u8]) -> bool {
    match str::from_utf8(piece) {
        Ok(text) => push_twice(calls, text),
        Err(_) => false,
    }
}

/// Appends a text, a second time in case memory was refused. Returns whether there was memory.
fn push_twice(calls: &mut String, text: &str) -> bool {
    calls.push_str(text).is_ok() || calls.push_str(text).is_ok()
}

/// Reads a file, a second time in case memory was refused.
fn read_file(rt: &HostRuntime, file: &str) -> Option<String> {
    match fs::read_to_string(rt, file) {
        Ok(text) => Some(text),
        Err(_) => fs::read_to_string(rt, file).ok(),
    }
}

/// Reads the lines of a text, a second time in case memory was refused.
fn read_twice(alloc: Global, text: &str) -> Option<Vec<Line>> {
    match read_lines(alloc, text) {
        Some(lines) => Some(lines),
        None => read_lines(alloc, text),
    }
}

/// Prints the answers of a run, and how many cases held or which line does not. Returns whether all held, and all is printed.
fn tell(rt: &HostRuntime, name: &str, run: &Run<'_>) -> bool {
    let is_held = !run.has_failed();
    let is_told = if is_held {
        println!(rt;
            "{}{name}: {} cases, {} calls",
            run.printed, run.cases, run.calls
        )
    } else {
        println!(rt; "{name}, line {}: {}", run.wrong_line, run.why)
    };
    is_held && is_told.is_ok()
}

/// Returns the place of the first line from one on that begins so, or the end of the lines.
fn place_of(lines: &[Line], from: usize, begins: &str) -> usize {
    let behind = lines.get(from..).unwrap_or(&[]);
    let found = behind.iter().position(|line| line.after(begins).is_some());
    found.map_or(lines.len(), |place| from.saturating_add(place))
}

/// Makes all calls of the cases of lines.
fn hold_cases<'a, K: Kinds>(run: &mut Run<'a>, lines: &'a [Line]) {
    let mut at = place_of(lines, 0, "# ");
    for _ in lines {
        let end = place_of(lines, at.saturating_add(1), "# ");
        if let Some(case) = lines.get(at.saturating_add(1)..end) {
            hold_case::<K>(run, case);
        }
        at = end;
    }
}

/// Makes all calls of a case, which has the subjects first.
fn hold_case<'a, K: Kinds>(run: &mut Run<'a>, case: &'a [Line]) {
    let subjects = case.iter().position(|line| line.after("= ").is_none());
    let (subjects, calls) = case
        .split_at_checked(subjects.unwrap_or(case.len()))
        .unwrap_or((case, &[]));
    let mut at = place_of(calls, 0, "again");
    let head = calls.get(..at).unwrap_or(&[]);
    let mut is_first = true;
    for _ in case {
        let end = place_of(calls, at.saturating_add(1), "again");
        let tail = calls.get(at.saturating_add(1)..end);
        if is_first || tail.is_some() {
            hold_part::<K>(run, subjects, head, tail.unwrap_or(&[]));
        }
        is_first = false;
        at = end;
    }
}

/// Makes the calls of a part of a case for each of its subjects.
fn hold_part<'a, K: Kinds>(
    run: &mut Run<'a>,
    subjects: &'a [Line],
    head: &'a [Line],
    tail: &'a [Line],
) {
    run.cases = run.cases.saturating_add(1);
    if subjects.is_empty() || head.is_empty() && tail.is_empty() {
        run.fail("a case calls nothing");
    }
    for subject in subjects {
        let text = subject.after("= ").unwrap_or("");
        let (text, sizes) = text.split_once(" pieces ").unwrap_or((text, WHOLE));
        for size in sizes.split_whitespace() {
            let kind = run.take(text, size.parse().unwrap_or(0), head, tail);
            K::hold_kind(kind, run);
        }
    }
}
