//! The words of `explain`.

ghost use Rattle.std.specs.Prelude.{◌≡◌, map, string_bytes};
ghost use Rattle.qpk.specs.Commands.{ReadsWords, explain_of, explain_words, finished_explain, with_explain_word};
ghost use Rattle.qpk.specs.Commands.{with_explain_words};

use super::words::{bad_word, is_help, is_option, read_number};
use super::{Command, help_alone};
use crate::refusal::{Refusal, Wanted};
use crate::usage::Topic;
use qpk_view::explain::{ExplainOptions, Kind};
use std::alloc::Global;

/// What the words of `explain` say so far.
#[derive(Clone, Copy)]
struct ExplainWords {
    kind: Kind,
    max_capacity: usize,
    /// Whether the next word is the maximum capacity.
    expects_capacity: bool,
    /// Whether a word has bytes.
    has_bytes: bool,
}

/// Returns what `explain` says without words.
fn explain_words() -> ExplainWords
    ensures { result ≡ explain_words }
{
    ExplainWords {
        kind: Kind::Section,
        max_capacity: 4096,
        expects_capacity: false,
        has_bytes: false,
    }
}

/// Returns what the words after `explain` ask for.
pub(super) fn read_explain(alloc: Global, rest: &[String]) -> Result<Command, Refusal>
    ensures { ReadsWords result (explain_of (map string_bytes rest.now)) }
{
    if let Some((first, behind)) = rest.split_first() {
        if is_help(first.as_str()) {
            return help_alone(alloc, Topic::Explain, behind);
        }
    }
    let words = read_explain_words(alloc, rest)?;
    finish_explain(words)
}

/// Returns what the words after `explain` say.
fn read_explain_words(alloc: Global, rest: &[String]) -> Result<ExplainWords, Refusal>
    ensures { ReadsWords result (with_explain_words explain_words (map string_bytes rest.now)) }
{
    let mut words = explain_words();
    let mut left = rest;
    while let Some((first, behind)) = left.split_first() {
        words = with_explain_word(alloc, words, first.as_str())?;
        left = behind;
    }
    Ok(words)
}

/// Returns the command that words of `explain` ask for, if no number is missing.
fn finish_explain(words: ExplainWords) -> Result<Command, Refusal>
    ensures { ReadsWords result (finished_explain words) }
{
    if words.expects_capacity {
        return Err(Refusal::Missing(Topic::Explain, Wanted::MaxCapacity));
    }
    let options = ExplainOptions {
        kind: words.kind,
        max_capacity: words.max_capacity,
    };
    if words.has_bytes {
        return Ok(Command::ExplainWords(options));
    }
    Ok(Command::ExplainInput(options))
}

/// Returns what words of `explain` say with one more.
fn with_explain_word(
    alloc: Global,
    words: ExplainWords,
    word: &str,
) -> Result<ExplainWords, Refusal>
    ensures { ReadsWords result (with_explain_word words word.now) }
{
    if words.expects_capacity {
        let max_capacity = read_number(alloc, Topic::Explain, word)? as usize;
        return Ok(ExplainWords {
            max_capacity,
            expects_capacity: false,
            ..words
        });
    }
    match word {
        "-" => Ok(words),
        "--max-capacity" => Ok(ExplainWords {
            expects_capacity: true,
            ..words
        }),
        "--encoder-stream" => Ok(ExplainWords {
            kind: Kind::EncoderStream,
            ..words
        }),
        "--decoder-stream" => Ok(ExplainWords {
            kind: Kind::DecoderStream,
            ..words
        }),
        _ if is_option(word) => Err(bad_word(alloc, Topic::Explain, Wanted::Option, word)),
        _ => Ok(ExplainWords {
            has_bytes: true,
            ..words
        }),
    }
}
