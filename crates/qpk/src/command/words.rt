//! A word of a call: an option, a number, or one at fault.

ghost use Rattle.std.specs.Prelude.{◌≡◌, map, string_bytes};
ghost use Rattle.qpk.specs.Commands.{BadWord as FaultOfWord, ReadsWords, SplitsNumber, TellsWords, at_number, is_help};
ghost use Rattle.qpk.specs.Commands.{is_option, no_more, no_option, one_number, only_number, only_numbers};
ghost use Rattle.qpk.specs.Commands.{or_other_words, read_number};
ghost use Rattle.qpk.specs.Scripts.{number_of};

use crate::refusal::{Refusal, Wanted};
use crate::script::parts;
use crate::text::Fault;
use crate::usage::Topic;
use std::alloc::Global;

/// Returns whether a word asks for help.
pub(super) fn is_help(word: &str) -> bool
    ensures { result ≡ is_help word.now }
{
    word == "--help" || word == "-h"
}

/// Returns whether a word begins as an option does.
pub fn is_option(word: &str) -> bool
    ensures { result ≡ is_option word.now }
{
    word.as_bytes().starts_with(b"--")
}

/// Returns the refusal of a word of a command that is not what it should be.
pub(super) fn bad_word(alloc: Global, topic: Topic, wanted: Wanted, word: &str) -> Refusal
    ensures { TellsWords result (FaultOfWord topic wanted word.now) }
{
    match String::from_str(alloc, word) {
        Ok(word) => Refusal::BadWord(topic, wanted, word),
        Err(_) => Refusal::Fault(Fault::Memory),
    }
}

/// Rejects words.
pub(super) fn no_more(alloc: Global, topic: Topic, words: &[String]) -> Result<(), Refusal>
    ensures { ReadsWords result (no_more topic (map string_bytes words.now)) }
{
    match words.split_first() {
        None => Ok(()),
        Some((word, _)) => Err(bad_word(alloc, topic, Wanted::Nothing, word.as_str())),
    }
}

/// Rejects words of which the first begins as an option does.
pub(super) fn no_option(alloc: Global, topic: Topic, words: &[String]) -> Result<(), Refusal>
    ensures { ReadsWords result (no_option topic (map string_bytes words.now)) }
{
    if let Some((first, _)) = words.split_first() {
        if is_option(first.as_str()) {
            return Err(bad_word(alloc, topic, Wanted::Option, first.as_str()));
        }
    }
    Ok(())
}

/// Returns the number that a word says.
pub(super) fn read_number(alloc: Global, topic: Topic, word: &str) -> Result<u64, Refusal>
    ensures { ReadsWords result (read_number topic word.now) }
{
    match parts::read_number(word.as_bytes()) {
        Some(number) => Ok(number),
        None => Err(bad_word(alloc, topic, Wanted::Number, word)),
    }
}

/// Splits off the number that the first word says.
pub(super) fn split_number<'a>(
    alloc: Global,
    topic: Topic,
    wanted: Wanted,
    words: &'a [String],
) -> Result<(u64, &'a [String]), Refusal>
    ensures { SplitsNumber result (at_number topic wanted (map string_bytes words.now)) }
{
    let Some((word, rest)) = words.split_first() else {
        return Err(Refusal::Missing(topic, wanted));
    };
    let number = read_number(alloc, topic, word.as_str())?;
    Ok((number, rest))
}

/// Returns the limit that a word says, after which no other comes.
pub(super) fn one_number(alloc: Global, words: &[String]) -> Result<u64, Refusal>
    ensures { ReadsWords result (one_number (map string_bytes words.now)) }
{
    no_option(alloc, Topic::Decode, words)?;
    let (number, more) = split_number(alloc, Topic::Decode, Wanted::Limit, words)?;
    no_more(alloc, Topic::Decode, more)?;
    Ok(number)
}

/// Returns the number that these words are, if they are one number.
pub(super) fn only_number(words: &[String]) -> Result<u64, Refusal>
    ensures { ReadsWords result (only_number (map string_bytes words.now)) }
{
    let [word] = words else {
        return Err(Refusal::Usage);
    };
    or_usage(word.as_str())
}

/// Returns the two numbers that these words are, if they are two numbers.
pub(super) fn only_numbers(words: &[String]) -> Result<(u64, u64), Refusal>
    ensures { ReadsWords result (only_numbers (map string_bytes words.now)) }
{
    let [first, second] = words else {
        return Err(Refusal::Usage);
    };
    let first = or_usage(first.as_str())?;
    let second = or_usage(second.as_str())?;
    Ok((first, second))
}

/// Returns the number that a word says, or the usage.
fn or_usage(word: &str) -> Result<u64, Refusal>
    ensures { ReadsWords result (or_other_words (number_of word.now)) }
{
    match parts::read_number(word.as_bytes()) {
        Some(number) => Ok(number),
        None => Err(Refusal::Usage),
    }
}
