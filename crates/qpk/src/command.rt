//! What the words of a call ask for.

ghost use Rattle.std.specs.Prelude.{map, string_bytes};
ghost use Rattle.qpk.specs.Commands.{ReadsWords, command_of, decode_of, encode_of, help_alone, help_of, inspect_of};
ghost use Rattle.qpk.specs.Commands.{lists_of, read_acknowledged, records_of, run_of, topic_of, version_alone};

use crate::refusal::{Refusal, Wanted};
use crate::usage::Topic;
use qpk_check::check::CheckOptions;
use qpk_qif::session::{DecoderSettings, EncoderSettings};
use qpk_view::explain::ExplainOptions;
use qpk_view::show::ShowOptions;
use std::alloc::Global;

mod connection;
mod explain;
mod words;

use connection::read_connection;
use explain::read_explain;
pub use words::is_option;
use words::{
    bad_word, is_help, no_more, no_option, one_number, only_number, only_numbers, split_number,
};

/// What the words ask for.
#[derive(Clone, Copy)]
pub enum Command {
    /// Print the help on a command, or on all; no input is read.
    Help(Topic),
    /// Print the version; no input is read.
    Version,
    /// Encode the fields of the input's lines.
    Encode,
    /// Encode the header lists of the input, in QIF, to a recording of the offline interop format.
    EncodeLists(EncoderSettings),
    /// Decode the recording of the input, of that format, to header lists in QIF.
    DecodeRecords(DecoderSettings),
    /// Decode the block of the input, up to a sum of sizes in bytes.
    Decode(u64),
    /// Decode as `Decode` does, and print the fields in hexadecimal.
    DecodeHex(u64),
    /// Decode as `Decode` does, and print the fields as an object of JSON.
    DecodeJson(u64),
    /// Inspect the events of the input, by a table of this capacity in bytes.
    Inspect(usize),
    /// Run the events of the input on a session of this capacity in bytes, with this limit of blocked blocks.
    Run(usize, usize),
    /// Show a connection.
    Show(ShowOptions),
    /// Judge a connection.
    Check(CheckOptions),
    /// Explain the bytes that the words have, without a word of the input.
    ExplainWords(ExplainOptions),
    /// Explain the bytes of the input.
    ExplainInput(ExplainOptions),
}

/// Returns the command that the words give, without the program's name; or that they give none. For a command beyond
/// the usage's four it also returns what is missing, or the word at fault. It asks for memory to keep that word.
pub fn read_command(alloc: Global, words: &[String]) -> Result<Command, Refusal>
    ensures { ReadsWords result (command_of (map string_bytes words.now)) }
{
    let Some((name, rest)) = words.split_first() else {
        return Err(Refusal::Usage);
    };
    match name.as_str() {
        "--help" | "-h" | "help" => read_help(alloc, rest),
        "--version" => read_version(alloc, rest),
        "encode" => read_encode(alloc, rest),
        "decode" => read_decode(alloc, rest),
        "inspect" => read_inspect(alloc, rest),
        "run" => read_run(alloc, rest),
        "show" => read_connection(alloc, false, rest),
        "check" => read_connection(alloc, true, rest),
        "explain" => read_explain(alloc, rest),
        _ => Err(Refusal::Usage),
    }
}

/// Returns what the words after `help` ask for: a command, or all.
fn read_help(alloc: Global, rest: &[String]) -> Result<Command, Refusal>
    ensures { ReadsWords result (help_of (map string_bytes rest.now)) }
{
    let Some((name, more)) = rest.split_first() else {
        return Ok(Command::Help(Topic::All));
    };
    no_more(alloc, Topic::All, more)?;
    Ok(Command::Help(topic_of(alloc, name.as_str())?))
}

/// Returns the command of a name.
fn topic_of(alloc: Global, name: &str) -> Result<Topic, Refusal>
    ensures { ReadsWords result (topic_of name.now) }
{
    match name {
        "encode" => Ok(Topic::Encode),
        "decode" => Ok(Topic::Decode),
        "inspect" => Ok(Topic::Inspect),
        "run" => Ok(Topic::Run),
        "show" => Ok(Topic::Show),
        "explain" => Ok(Topic::Explain),
        "check" => Ok(Topic::Check),
        _ => Err(bad_word(alloc, Topic::All, Wanted::Command, name)),
    }
}

/// Returns what `--version` asks for, after which no word may come.
fn read_version(alloc: Global, rest: &[String]) -> Result<Command, Refusal>
    ensures { ReadsWords result (version_alone (map string_bytes rest.now)) }
{
    no_more(alloc, Topic::All, rest)?;
    Ok(Command::Version)
}

/// Returns the help on a command, after which no word may come.
pub(super) fn help_alone(alloc: Global, topic: Topic, rest: &[String]) -> Result<Command, Refusal>
    ensures { ReadsWords result (help_alone topic (map string_bytes rest.now)) }
{
    no_more(alloc, topic, rest)?;
    Ok(Command::Help(topic))
}

/// Returns what the words after `encode` ask for.
fn read_encode(alloc: Global, rest: &[String]) -> Result<Command, Refusal>
    ensures { ReadsWords result (encode_of (map string_bytes rest.now)) }
{
    let Some((first, behind)) = rest.split_first() else {
        return Ok(Command::Encode);
    };
    match first.as_str() {
        "--qif" => read_lists(alloc, behind),
        "--help" | "-h" => help_alone(alloc, Topic::Encode, behind),
        _ => Err(Refusal::Usage),
    }
}

/// Returns what the words after `encode --qif` ask for: two numbers, and 0 or 1.
fn read_lists(alloc: Global, words: &[String]) -> Result<Command, Refusal>
    ensures { ReadsWords result (lists_of (map string_bytes words.now)) }
{
    no_option(alloc, Topic::Encode, words)?;
    let (capacity, words) = split_number(alloc, Topic::Encode, Wanted::Capacity, words)?;
    let (blocked, words) = split_number(alloc, Topic::Encode, Wanted::Blocked, words)?;
    let Some((acknowledged, more)) = words.split_first() else {
        return Err(Refusal::Missing(Topic::Encode, Wanted::Acknowledged));
    };
    let acknowledged = read_acknowledged(alloc, acknowledged.as_str())?;
    no_more(alloc, Topic::Encode, more)?;
    Ok(Command::EncodeLists(EncoderSettings {
        capacity: capacity as usize,
        blocked: blocked as usize,
        acknowledged,
    }))
}

/// Returns whether a word says that blocks are acknowledged.
fn read_acknowledged(alloc: Global, word: &str) -> Result<bool, Refusal>
    ensures { ReadsWords result (read_acknowledged word.now) }
{
    match word {
        "0" => Ok(false),
        "1" => Ok(true),
        _ => Err(bad_word(alloc, Topic::Encode, Wanted::Acknowledged, word)),
    }
}

/// Returns what the words after `decode --qif` ask for: two numbers.
fn read_records(alloc: Global, words: &[String]) -> Result<Command, Refusal>
    ensures { ReadsWords result (records_of (map string_bytes words.now)) }
{
    no_option(alloc, Topic::Decode, words)?;
    let (capacity, words) = split_number(alloc, Topic::Decode, Wanted::Capacity, words)?;
    let (blocked, more) = split_number(alloc, Topic::Decode, Wanted::Blocked, words)?;
    no_more(alloc, Topic::Decode, more)?;
    Ok(Command::DecodeRecords(DecoderSettings {
        capacity: capacity as usize,
        blocked: blocked as usize,
    }))
}

/// Returns what the words after `decode` ask for.
fn read_decode(alloc: Global, rest: &[String]) -> Result<Command, Refusal>
    ensures { ReadsWords result (decode_of (map string_bytes rest.now)) }
{
    let Some((first, behind)) = rest.split_first() else {
        return Err(Refusal::Usage);
    };
    match first.as_str() {
        "--hex" => Ok(Command::DecodeHex(one_number(alloc, behind)?)),
        "--json" => Ok(Command::DecodeJson(one_number(alloc, behind)?)),
        "--qif" => read_records(alloc, behind),
        "--help" | "-h" => help_alone(alloc, Topic::Decode, behind),
        _ => Ok(Command::Decode(only_number(rest)?)),
    }
}

/// Returns what the words after `inspect` ask for.
fn read_inspect(alloc: Global, rest: &[String]) -> Result<Command, Refusal>
    ensures { ReadsWords result (inspect_of (map string_bytes rest.now)) }
{
    if let Some((first, behind)) = rest.split_first() {
        if is_help(first.as_str()) {
            return help_alone(alloc, Topic::Inspect, behind);
        }
    }
    let capacity = only_number(rest)?;
    Ok(Command::Inspect(capacity as usize))
}

/// Returns what the words after `run` ask for.
fn read_run(alloc: Global, rest: &[String]) -> Result<Command, Refusal>
    ensures { ReadsWords result (run_of (map string_bytes rest.now)) }
{
    if let Some((first, behind)) = rest.split_first() {
        if is_help(first.as_str()) {
            return help_alone(alloc, Topic::Run, behind);
        }
    }
    let (capacity, limit) = only_numbers(rest)?;
    Ok(Command::Run(capacity as usize, limit as usize))
}
