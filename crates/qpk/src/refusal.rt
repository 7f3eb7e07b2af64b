//! Why the program prints no output, and the line that reports it.

ghost use Rattle.std.specs.Prelude.{◌≡◌, IfOk, OnErr};
ghost use Rattle.std.specs.Cow.{cow_str_bytes};
ghost use Rattle.qpk.specs.Refusals.{MayWantMemory, bad_word_line, fault_line, missing_line, name_of, refusal_line};
ghost use Rattle.qpk.specs.Refusals.{wanted_words};
ghost use Rattle.qpk.specs.declared.refusal.Refusal.TheVariants.{Fault as Refused};

use crate::text::Fault;
use crate::usage::{Topic, usage, usage_of};
use std::alloc::{AllocError, Global};
use std::borrow::CowStr;

/// Why there is no output.
#[derive(Debug, Drop)]
pub enum Refusal {
    /// The words give none of the usage's four commands, and none beyond these.
    Usage,
    /// This word of a command is missing.
    Missing(Topic, Wanted),
    /// This word of a command is not what it should be.
    BadWord(Topic, Wanted, String),
    /// The input could not be read.
    Input,
    /// The output could not be written.
    Output,
    /// Nobody reads the output any more, as behind `| head`: nothing is printed for it.
    Unread,
    /// The input has a fault, or no memory was left.
    Fault(Fault),
}

/// What a word should be.
#[derive(Clone, Copy, Debug, PartialEq)]
pub enum Wanted {
    /// An option of the command.
    Option,
    /// A number.
    Number,
    /// Whether blocks are acknowledged.
    Acknowledged,
    /// The name of a command.
    Command,
    /// No word.
    Nothing,
    /// A capacity.
    Capacity,
    /// How many streams may be blocked.
    Blocked,
    /// The greatest sum of sizes.
    Limit,
    /// The number of `--max-capacity`.
    MaxCapacity,
    /// The number of `--max-blocked`.
    MaxBlocked,
}

impl From<Fault> for Refusal {
    ghost from_gives = { λ fault r. r ≡ Refused fault };

    fn from(fault: Fault) -> Refusal {
        Refusal::Fault(fault)
    }
}

impl Refusal {
    /// Returns the line that reports it; for words of a command beyond the usage's four, after the lines of how it is
    /// called. It asks for memory only to print a word, the number of a line, or a refusal of the decoder.
    pub fn line(&self, alloc: Global) -> Result<CowStr<'static, Global>, AllocError>
        ensures line { IfOk result (λ line. cow_str_bytes line ≡ refusal_line self.now) }
        ensures memory { OnErr result (MayWantMemory self.now) }
    {
        match self {
            Refusal::Usage => Ok(CowStr::Borrowed(usage())),
            Refusal::Missing(topic, wanted) => missing_line(alloc, *topic, *wanted),
            Refusal::BadWord(topic, wanted, word) => {
                bad_word_line(alloc, *topic, *wanted, word.as_str())
            }
            Refusal::Input => Ok(CowStr::Borrowed("qpk: refused: input\n")),
            Refusal::Output => Ok(CowStr::Borrowed("qpk: refused: output\n")),
            Refusal::Unread => Ok(CowStr::Borrowed("")),
            Refusal::Fault(fault) => fault_line(alloc, fault),
        }
    }
}

/// Returns the lines of how a command is called, and the line that reports a missing word.
fn missing_line(
    alloc: Global,
    topic: Topic,
    wanted: Wanted,
) -> Result<CowStr<'static, Global>, AllocError>
    ensures { IfOk result (λ line. cow_str_bytes line ≡ missing_line topic wanted) }
{
    let usage = usage_of(topic);
    let name = name_of(wanted);
    let mut line = format!(in alloc; "{usage}qpk: {name}")?;
    line.push_str(" is missing\n")?;
    Ok(CowStr::Owned(line))
}

/// Returns the name of a word in the lines of how a command is called.
fn name_of(wanted: Wanted) -> &'static str
    ensures { result.now ≡ name_of wanted }
{
    match wanted {
        Wanted::Option => "an option",
        Wanted::Number => "a number",
        Wanted::Acknowledged => "ACK, which is 0 or 1,",
        Wanted::Command => "COMMAND",
        Wanted::Nothing => "nothing",
        Wanted::Capacity => "CAPACITY",
        Wanted::Blocked => "BLOCKED",
        Wanted::Limit => "LIMIT",
        Wanted::MaxCapacity => "the number after --max-capacity",
        Wanted::MaxBlocked => "the number after --max-blocked",
    }
}

/// Returns the lines of how a command is called, and the line that reports a word at fault.
fn bad_word_line(
    alloc: Global,
    topic: Topic,
    wanted: Wanted,
    word: &str,
) -> Result<CowStr<'static, Global>, AllocError>
    ensures { IfOk result (λ line. cow_str_bytes line ≡ bad_word_line topic wanted word.now) }
{
    let usage = usage_of(topic);
    let words = wanted_words(wanted);
    Ok(CowStr::Owned(format!(in alloc; "{usage}qpk: \"{word}\" is {words}\n")?))
}

/// Returns what a word is not.
fn wanted_words(wanted: Wanted) -> &'static str
    ensures { result.now ≡ wanted_words wanted }
{
    match wanted {
        Wanted::Option => "not an option here",
        Wanted::Acknowledged => "neither 0 nor 1",
        Wanted::Command => "not a command",
        Wanted::Nothing => "one word too many",
        _ => "not a whole number below 2^64",
    }
}

/// Returns the line that reports a fault.
fn fault_line(alloc: Global, fault: &Fault) -> Result<CowStr<'static, Global>, AllocError>
    ensures { IfOk result (λ line. cow_str_bytes line ≡ fault_line fault.now) }
{
    match fault {
        Fault::NoTab(_)
        | Fault::BadEvent(_)
        | Fault::Refused(_)
        | Fault::Recording(_)
        | Fault::Told(_) => Ok(CowStr::Owned(format!(in alloc; "qpk: {fault}\n")?)),
        Fault::NotHexadecimal => Ok(CowStr::Borrowed("qpk: not hexadecimal\n")),
        Fault::Capacity => Ok(CowStr::Borrowed("qpk: refused: capacity\n")),
        Fault::Limit => Ok(CowStr::Borrowed("qpk: refused: limit\n")),
        Fault::Memory => Ok(CowStr::Borrowed("qpk: refused: memory\n")),
    }
}
