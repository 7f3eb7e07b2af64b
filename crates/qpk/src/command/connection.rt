//! The words of `show` and `check`.

ghost use Rattle.std.specs.Prelude.{◌≡◌, map, string_bytes};
ghost use Rattle.qpk.specs.Commands.{ReadsWords, connection_of, connection_words, finished_connection, topic_for};
ghost use Rattle.qpk.specs.Commands.{with_connection_option, with_connection_word, with_connection_words};

use super::words::{bad_word, is_help, read_number};
use super::{Command, help_alone};
use crate::refusal::{Refusal, Wanted};
use crate::usage::Topic;
use qpk_check::check::CheckOptions;
use qpk_view::events::Settings;
use qpk_view::show::ShowOptions;
use std::alloc::Global;

/// Which number the next word is.
#[derive(Clone, Copy, PartialEq)]
enum Expected {
    /// It is an option, or none is left.
    None,
    /// The maximum capacity.
    MaxCapacity,
    /// How many streams may be blocked.
    MaxBlocked,
}

/// What the words of `show` or `check` say so far.
#[derive(Clone, Copy)]
struct ConnectionWords {
    is_check: bool,
    table: bool,
    json: bool,
    qif: bool,
    max_capacity: usize,
    max_blocked: usize,
    expected: Expected,
}

/// Returns what `show` or `check` says without words.
fn connection_words(is_check: bool) -> ConnectionWords
    ensures { result ≡ connection_words is_check }
{
    ConnectionWords {
        is_check,
        table: false,
        json: false,
        qif: false,
        max_capacity: 4096,
        max_blocked: 100,
        expected: Expected::None,
    }
}

/// Returns what the words after `show` or `check` ask for.
pub(super) fn read_connection(
    alloc: Global,
    is_check: bool,
    rest: &[String],
) -> Result<Command, Refusal>
    ensures { ReadsWords result (connection_of is_check (map string_bytes rest.now)) }
{
    if let Some((first, behind)) = rest.split_first() {
        if is_help(first.as_str()) {
            return help_alone(alloc, topic_for(is_check), behind);
        }
    }
    let words = read_connection_words(alloc, is_check, rest)?;
    finish_connection(words)
}

/// Returns what the words after `show` or `check` say.
fn read_connection_words(
    alloc: Global,
    is_check: bool,
    rest: &[String],
) -> Result<ConnectionWords, Refusal>
    ensures { ReadsWords result (with_connection_words (connection_words is_check) (map string_bytes rest.now)) }
{
    let mut words = connection_words(is_check);
    let mut left = rest;
    while let Some((first, behind)) = left.split_first() {
        words = with_connection_word(alloc, words, first.as_str())?;
        left = behind;
    }
    Ok(words)
}

/// Returns the command that words of `show` or `check` ask for, if no number is missing.
fn finish_connection(words: ConnectionWords) -> Result<Command, Refusal>
    ensures { ReadsWords result (finished_connection words) }
{
    let topic = topic_for(words.is_check);
    match words.expected {
        Expected::MaxCapacity => return Err(Refusal::Missing(topic, Wanted::MaxCapacity)),
        Expected::MaxBlocked => return Err(Refusal::Missing(topic, Wanted::MaxBlocked)),
        Expected::None => {}
    }
    let settings = Settings {
        max_capacity: words.max_capacity,
        max_blocked: words.max_blocked,
    };
    if words.is_check {
        return Ok(Command::Check(CheckOptions {
            json: words.json,
            qif: words.qif,
            settings,
        }));
    }
    Ok(Command::Show(ShowOptions {
        table: words.table,
        json: words.json,
        qif: words.qif,
        settings,
    }))
}

/// Returns the topic of `show` or `check`.
fn topic_for(is_check: bool) -> Topic
    ensures { result ≡ topic_for is_check }
{
    if is_check { Topic::Check } else { Topic::Show }
}

/// Returns what words of `show` or `check` say with one more.
fn with_connection_word(
    alloc: Global,
    words: ConnectionWords,
    word: &str,
) -> Result<ConnectionWords, Refusal>
    ensures { ReadsWords result (with_connection_word words word.now) }
{
    let topic = topic_for(words.is_check);
    match words.expected {
        Expected::MaxCapacity => {
            let max_capacity = read_number(alloc, topic, word)? as usize;
            Ok(ConnectionWords {
                max_capacity,
                expected: Expected::None,
                ..words
            })
        }
        Expected::MaxBlocked => {
            let max_blocked = read_number(alloc, topic, word)? as usize;
            Ok(ConnectionWords {
                max_blocked,
                expected: Expected::None,
                ..words
            })
        }
        Expected::None => with_connection_option(alloc, words, word),
    }
}

/// Returns what words of `show` or `check` say with one more option.
fn with_connection_option(
    alloc: Global,
    words: ConnectionWords,
    word: &str,
) -> Result<ConnectionWords, Refusal>
    ensures { ReadsWords result (with_connection_option words word.now) }
{
    match word {
        "-" => Ok(words),
        "--json" => Ok(ConnectionWords {
            json: true,
            ..words
        }),
        "--qif" => Ok(ConnectionWords { qif: true, ..words }),
        "--max-capacity" => Ok(ConnectionWords {
            expected: Expected::MaxCapacity,
            ..words
        }),
        "--max-blocked" => Ok(ConnectionWords {
            expected: Expected::MaxBlocked,
            ..words
        }),
        "--table" if !words.is_check => Ok(ConnectionWords {
            table: true,
            ..words
        }),
        _ => Err(bad_word(alloc, topic_for(words.is_check), Wanted::Option, word)),
    }
}
