//! The program over any reader and writers.

ghost use Rattle.std.specs.Prelude.{◌≡◌, ◌≢◌, ◌⊎◌, ◌++◌, ◌∷◌, [], List, ℕ, Option, None, Some, IfOk, IfErr, IfSome};
ghost use Rattle.std.specs.Prelude.{OnOk, false, string_bytes};
ghost use Rattle.std.specs.Io.KnownBytes.{Appends};
ghost use Rattle.std.specs.Option.{option_map};
ghost use Rattle.qpack_spec.specs.Field.{total_size};
ghost use Rattle.qpack_spec.specs.Stateless.{saturated_size};
ghost use Rattle.qpack_codec.specs.Stateless.{fields_in};
ghost use Rattle.qpk.specs.Refusals.{AppendsFront, AppendsSome, Says, TellsBy, refusal_line};
ghost use Rattle.qpk.specs.Usage.{help_text};
ghost use Rattle.qpk.specs.Serving.{AsksForNone, AsksForNothing, AnswersInput, EndsFor, EndsForCommand, EndsWell};
ghost use Rattle.qpk.specs.Serving.{FailsToRead, HasStatus, IsAnswered, IsAnsweredBy, IsFound, IsUnwritten, MayFind};
ghost use Rattle.qpk.specs.Serving.{MayHaveFound, ReadsNone, SaysNote, StopsReply, StopsShowing, StopsWhole};
ghost use Rattle.qpk.specs.Serving.{WritesReply, WritesWhole};
ghost use Rattle.qpk.specs.Serving.{hexadecimal_answer, input_of, printed_fields};
ghost use Rattle.qpk.specs.declared.refusal.Refusal.TheVariants.{Fault as FaultRefused, Input as InputRefused};
ghost use Rattle.qpk.specs.declared.text.Fault.TheVariants.{Memory};

use crate::command::{Command, is_option, read_command};
use crate::inspect::inspect;
use crate::json::section_json;
use crate::note::note_of;
use crate::printing::{push_fields, push_hexadecimal_fields};
use crate::refusal::Refusal;
use crate::run::run_script;
use crate::text::{Fault, decode_text, encode_text};
use crate::usage::{Topic, VERSION, details_of, usage_of};
use crate::writing::write_bytes;
use h3_qpack::coding::NoMemory;
use h3_qpack::{Decoded, DecoderError};
use qpk_check::check::check;
use qpk_qif::session::{decode_records, encode_lists};
use qpk_view::explain::explain;
use qpk_view::show::Showing;
use qpk_view::view::View;
use std::alloc::{AllocError, Global};
use std::borrow::CowStr;
use std::io::{self, ErrorKind, Read, Write};

/// What is written for an input.
#[derive(Drop)]
enum Reply<'a> {
    /// An output that was made whole.
    Whole(Output),
    /// A connection, which is shown piece by piece.
    Shown(Showing<'a>),
}

/// What is written for an input, the refusal that ends it, and whether something is refused or found in it.
#[derive(Drop)]
struct Output {
    bytes: Vec<u8>,
    refused: Option<DecoderError>,
    has_found: bool,
}

/// The remark on an input that was processed, and the exit status.
#[derive(Drop)]
struct Ending {
    note: Option<String>,
    status: u8,
}

/// How a run ended.
#[derive(Drop)]
pub struct Ended {
    /// The exit status.
    pub status: u8,
    /// Why what it says was not written whole to the faults, if a write of it failed.
    pub said: io::Result<()>,
}

/// Runs the program on its words, without its name, and its three streams, and returns the exit status. It is 0 if the
/// output was written. It is 2 if it was, and `show` or `explain` has something in it that is refused. It is 1 if it
/// was, and `check` found something; and 1 in every other case, with the line of the refusal written to the faults. A
/// write to the faults that fails is ignored.
pub fn serve<R: Read, W: Write, E: Write>(
    alloc: Global,
    words: &[String],
    input: &mut R,
    output: &mut W,
    faults: &mut E,
) -> u8
    // At status 0 the output for the input was written, and on the faults only a remark on header lists in QIF.
    ensures answered { result ≡ 0 → (note : Option (List ℕ))
        × IsAnswered words.now (R.remaining input.old) (W.contents output.old) (W.contents output.new) note
        × SaysNote (AppendsFront (E.contents faults.old) (E.contents faults.new))
        (E.contents faults.old) (E.contents faults.new) note }
    // Otherwise why: other words, an input that can't be read or has a fault, a refusal further on, before which all is
    // written, memory that ends while a connection is shown, or an output that can't be written, which then has a part
    // of what is asked for. The line of it is written to the faults, as far as they take it; it is empty if nobody
    // reads the output any more. There is no other status. Or the output was written, and the status says that something
    // was refused or found.
    ensures refused { result ≢ 0 → ((result ≡ 1) × (refusal : Refusal)
        × EndsFor words.now (R.remaining input.old) (W.contents output.old) (W.contents output.new) refusal
        × AppendsFront (E.contents faults.old) (E.contents faults.new) (refusal_line refusal))
        ⊎ IsFound words.now (R.remaining input.old) (W.contents output.old) (W.contents output.new)
        (AppendsFront (E.contents faults.old) (E.contents faults.new))
        (E.contents faults.old) (E.contents faults.new) result }
    // Help reads no input, nor do words that ask for nothing or have the bytes.
    ensures unread { AsksForNone words.now ⊎ AsksForNothing words.now → input.new ≡ input.old }
{
    serve_and_say(alloc, words, input, output, faults).status
}

/// Runs the program as `serve` does, and returns also whether what it says was written whole to the faults: all of it
/// was, unless a write failed.
pub fn serve_and_say<R: Read, W: Write, E: Write>(
    alloc: Global,
    words: &[String],
    input: &mut R,
    output: &mut W,
    faults: &mut E,
) -> Ended
    ensures answered { result.status ≡ 0 → (note : Option (List ℕ))
        × IsAnswered words.now (R.remaining input.old) (W.contents output.old) (W.contents output.new) note
        × SaysNote (Says result.said (E.contents faults.old) (E.contents faults.new))
        (E.contents faults.old) (E.contents faults.new) note }
    ensures refused { result.status ≢ 0 → ((result.status ≡ 1) × (refusal : Refusal)
        × EndsFor words.now (R.remaining input.old) (W.contents output.old) (W.contents output.new) refusal
        × Says result.said (E.contents faults.old) (E.contents faults.new) (refusal_line refusal))
        ⊎ IsFound words.now (R.remaining input.old) (W.contents output.old) (W.contents output.new)
        (Says result.said (E.contents faults.old) (E.contents faults.new))
        (E.contents faults.old) (E.contents faults.new) result.status }
    ensures unread { AsksForNone words.now ⊎ AsksForNothing words.now → input.new ≡ input.old }
{
    match run(alloc, words, input, output) {
        Ok(ending) => Ended {
            said: say_note(ending.note, faults),
            status: ending.status,
        },
        Err(refusal) => Ended {
            said: say_refusal(alloc, &refusal, faults),
            status: 1,
        },
    }
}

/// Writes the remark on an input to the faults, if there is one.
fn say_note<E: Write>(note: Option<String>, faults: &mut E) -> io::Result<()>
    ensures { SaysNote (Says result (E.contents faults.old) (E.contents faults.new))
        (E.contents faults.old) (E.contents faults.new) (option_map string_bytes note) }
{
    match note {
        Some(line) => say(line.as_str(), faults),
        None => Ok(()),
    }
}

/// Writes a line to the faults: all of it, or a part if a write fails.
fn say<E: Write>(line: &str, faults: &mut E) -> io::Result<()>
    ensures { Says result (E.contents faults.old) (E.contents faults.new) line.now }
{
    write_bytes(faults, line.as_bytes())
}

/// Writes the line of a refusal to the faults, or that of out of memory if there is none left to make it, and returns
/// the exit status 1. A write that fails is ignored.
pub fn refuse<E: Write>(alloc: Global, refusal: &Refusal, faults: &mut E) -> u8
    ensures status { result ≡ 1 }
    ensures told { TellsBy refusal.now (AppendsFront (E.contents faults.old) (E.contents faults.new)) }
{
    let _ = say_refusal(alloc, refusal, faults);
    1
}

/// Writes the line of a refusal to the faults, or that of out of memory if there is none left to make it.
fn say_refusal<E: Write>(alloc: Global, refusal: &Refusal, faults: &mut E) -> io::Result<()>
    ensures { TellsBy refusal.now (Says result (E.contents faults.old) (E.contents faults.new)) }
{
    let line = match refusal.line(alloc) {
        Ok(line) => line,
        Err(_) => CowStr::Borrowed("qpk: refused: memory\n"),
    };
    say(line.as_str(), faults)
}

/// Writes the output for the words and the input, and returns the remark on the input, and the status.
fn run<R: Read, W: Write>(
    alloc: Global,
    words: &[String],
    input: &mut R,
    output: &mut W,
) -> Result<Ending, Refusal>
    ensures answered { IfOk result (λ e.
        EndsWell words.now (R.remaining input.old) (W.contents output.old) (W.contents output.new)
        (option_map string_bytes e.note) e.status) }
    ensures refused { IfErr result
        (EndsFor words.now (R.remaining input.old) (W.contents output.old) (W.contents output.new)) }
    ensures unread { AsksForNone words.now ⊎ AsksForNothing words.now → input.new ≡ input.old }
{
    let command = read_command(alloc, words)?;
    run_command(alloc, command, words, input, output)
}

/// Writes the output for a command of these words and the input, and returns the remark on the input, and the status.
#[tactic(auto, using(crate::proofs::Tellings::reply_answers, crate::proofs::Tellings::reply_ends, crate::proofs::Tellings::reply_may_find))]
fn run_command<R: Read, W: Write>(
    alloc: Global,
    command: Command,
    words: &[String],
    input: &mut R,
    output: &mut W,
) -> Result<Ending, Refusal>
    ensures answered { IfOk result (λ e.
        IsAnsweredBy command (R.remaining input.old) (W.contents output.old) (W.contents output.new)
        (option_map string_bytes e.note) × HasStatus command e.status) }
    ensures refused { IfErr result
        (EndsForCommand command (R.remaining input.old) (W.contents output.old) (W.contents output.new)) }
    ensures unread { ReadsNone command → input.new ≡ input.old }
{
    let bytes = read_input(alloc, command, words, input)?;
    let answer = answer(alloc, command, &bytes)?;
    let note = match note_of(alloc, command, &bytes) {
        Ok(note) => note,
        Err(fault) => return Err(Refusal::Fault(fault)),
    };
    let has_found = write_reply(command, answer, output)?;
    Ok(Ending {
        note,
        status: status_of(command, has_found),
    })
}

/// Writes the answer to a command, and returns whether something is refused or found in it. Fails if it can't be written
/// whole, or if a refusal ends it.
fn write_reply<W: Write>(
    command: Command,
    reply: Reply<'_>,
    output: &mut W,
) -> Result<bool, Refusal>
    ensures written { IfOk result (WritesReply reply.entry (W.contents output.old) (W.contents output.new)) }
    ensures refused { IfErr result (StopsReply command reply.entry (W.contents output.old) (W.contents output.new)) }
{
    match reply {
        Reply::Whole(whole) => write_whole(command, whole, output),
        Reply::Shown(showing) => write_shown(showing, output),
    }
}

/// Writes an output for a command, and returns whether something is refused or found in it. Fails if a refusal ends it,
/// after it was written.
fn write_whole<W: Write>(command: Command, whole: Output, output: &mut W) -> Result<bool, Refusal>
    ensures written { IfOk result (WritesWhole whole (W.contents output.old) (W.contents output.new)) }
    ensures refused { IfErr result
        (StopsWhole command whole (W.contents output.old) (W.contents output.new)) }
{
    if let Err(e) = write_bytes(output, &whole.bytes) {
        return Err(refusal_to_write(command, &e));
    }
    match whole.refused {
        None => Ok(whole.has_found),
        Some(e) => Err(Refusal::Fault(Fault::Refused(e))),
    }
}

/// Writes a connection that is shown, and returns whether something in it is refused. Fails if memory is refused on the
/// way.
fn write_shown<W: Write>(showing: Showing<'_>, output: &mut W) -> Result<bool, Refusal>
    ensures written { OnOk result (AppendsSome (W.contents output.old) (W.contents output.new)) }
    ensures refused { IfErr result (StopsShowing (W.contents output.old) (W.contents output.new)) }
{
    let mut showing = showing;
    write_pieces(&mut showing, output)
}

/// Writes a connection that is shown, a piece after the other, and returns whether something in it is refused.
fn write_pieces<W: Write>(showing: &mut Showing<'_>, output: &mut W) -> Result<bool, Refusal>
    ensures written { OnOk result (AppendsSome (W.contents output.old) (W.contents output.new)) }
    ensures refused { IfErr result (StopsShowing (W.contents output.old) (W.contents output.new)) }
{
    for _ in 0..u64::MAX {
        if write_piece(showing, output)? {
            break;
        }
    }
    Ok(showing.has_found())
}

/// Writes the next piece of a connection that is shown, and returns whether it was the last: there is none.
fn write_piece<W: Write>(showing: &mut Showing<'_>, output: &mut W) -> Result<bool, Refusal>
    ensures written { OnOk result (AppendsSome (W.contents output.old) (W.contents output.new)) }
    ensures refused { IfErr result (StopsShowing (W.contents output.old) (W.contents output.new)) }
{
    match showing.next_piece() {
        Ok(Some(piece)) => match write_bytes(output, piece.as_bytes()) {
            Ok(()) => Ok(false),
            Err(e) if e.kind() == ErrorKind::BrokenPipe => Err(Refusal::Unread),
            Err(_) => Err(Refusal::Output),
        },
        Ok(None) => Ok(true),
        Err(_) => Err(Refusal::Fault(Fault::Memory)),
    }
}

/// Returns why a command's output could not be written. The usage's four commands tell it even if nobody reads their
/// output any more.
fn refusal_to_write(command: Command, e: &io::Error) -> Refusal
    ensures { IsUnwritten command result }
{
    match command {
        Command::Encode | Command::Decode(_) | Command::Inspect(_) | Command::Run(_, _) => {
            Refusal::Output
        }
        _ if e.kind() == ErrorKind::BrokenPipe => Refusal::Unread,
        _ => Refusal::Output,
    }
}

/// Returns the status of a command whose output has something refused or found, or not.
fn status_of(command: Command, has_found: bool) -> u8
    requires { MayFind command has_found }
    ensures { HasStatus command result }
{
    if !has_found {
        return 0;
    }
    match command {
        Command::Check(_) => 1,
        Command::Show(_) | Command::ExplainWords(_) | Command::ExplainInput(_) => 2,
        _ => 0,
    }
}

/// Returns the input that a command processes: all of it, none for help, and the bytes of the words if they have them.
fn read_input<R: Read>(
    alloc: Global,
    command: Command,
    words: &[String],
    input: &mut R,
) -> Result<Vec<u8>, Refusal>
    ensures read { IfOk result (λ bytes.
        IfSome (input_of command (R.remaining input.old)) (λ all. bytes.items ≡ all)) }
    ensures refused { IfErr result (FailsToRead command) }
    ensures unread { ReadsNone command → input.new ≡ input.old }
{
    match command {
        Command::Help(_) | Command::Version => Ok(Vec::new(alloc)),
        Command::ExplainWords(_) => match bytes_of(alloc, words) {
            Ok(bytes) => Ok(bytes),
            Err(_) => Err(Refusal::Fault(Fault::Memory)),
        },
        _ => read_all(alloc, input),
    }
}

/// Returns all of the input.
fn read_all<R: Read>(alloc: Global, input: &mut R) -> Result<Vec<u8>, Refusal>
    ensures read { IfOk result (λ bytes. IfSome (R.remaining input.old) (λ all. bytes.items ≡ all)) }
    ensures refused { IfErr result (λ r. (r ≡ InputRefused) ⊎ (r ≡ FaultRefused Memory)) }
{
    let mut bytes = Vec::new(alloc);
    match input.read_to_end(&mut bytes) {
        Ok(_) => Ok(bytes),
        Err(e) if e.kind() == ErrorKind::OutOfMemory => Err(Refusal::Fault(Fault::Memory)),
        Err(_) => Err(Refusal::Input),
    }
}

/// Returns the words of `explain` that have bytes, with blanks between them.
fn bytes_of(alloc: Global, words: &[String]) -> Result<Vec<u8>, AllocError> {
    let mut bytes = Vec::new(alloc);
    let mut is_number = true;
    for word in words {
        let is_bytes = !is_number && !is_option(word.as_str()) && word.as_str() != "-";
        is_number = word.as_str() == "--max-capacity";
        if is_bytes {
            bytes.extend_from_slice(word.as_bytes())?;
            bytes.push(b' ')?;
        }
    }
    Ok(bytes)
}

/// Returns what is written for an input, and the refusal that ends it.
fn answer<'a>(alloc: Global, command: Command, input: &'a [u8]) -> Result<Reply<'a>, Fault>
    ensures answers { AnswersInput command input.now result }
    ensures found { IfOk result (MayHaveFound command) }
{
    match command {
        Command::Help(topic) => Ok(Reply::Whole(whole(help(alloc, topic)?))),
        Command::Version => Ok(Reply::Whole(whole(String::from_str(alloc, VERSION)?))),
        Command::Encode => {
            let mut text = encode_text(alloc, input)?;
            text.push('\n')?;
            Ok(Reply::Whole(whole(text)))
        }
        Command::Decode(limit) => {
            let text = show_fields(alloc, &decode_text(alloc, input, limit)?)?;
            Ok(Reply::Whole(whole(text)))
        }
        Command::DecodeHex(limit) => {
            let text = show_hexadecimal(alloc, &decode_text(alloc, input, limit)?)?;
            Ok(Reply::Whole(whole(text)))
        }
        Command::DecodeJson(limit) => {
            let text = section_json(alloc, &decode_text(alloc, input, limit)?)?;
            Ok(Reply::Whole(whole(text)))
        }
        Command::Inspect(capacity) => {
            let inspection = inspect(alloc, capacity, input)?;
            Ok(Reply::Whole(Output {
                bytes: inspection.text.into_bytes(),
                refused: inspection.refused,
                has_found: false,
            }))
        }
        Command::EncodeLists(settings) => {
            let bytes = encode_lists(alloc, settings, input)?;
            Ok(Reply::Whole(of_bytes(bytes)))
        }
        Command::DecodeRecords(settings) => {
            let bytes = decode_records(alloc, settings, input)?;
            Ok(Reply::Whole(of_bytes(bytes)))
        }
        Command::Run(capacity, limit) => {
            let text = run_script(alloc, capacity, limit, input)?;
            Ok(Reply::Whole(whole(text)))
        }
        Command::Show(options) => Ok(Reply::Shown(Showing::new(alloc, options, input)?)),
        Command::Check(options) => Ok(Reply::Whole(viewed(check(alloc, options, input)?))),
        Command::ExplainWords(options) | Command::ExplainInput(options) => {
            Ok(Reply::Whole(viewed(explain(alloc, options, input)?)))
        }
    }
}

/// Returns the help on a command.
fn help(alloc: Global, topic: Topic) -> Result<String, AllocError>
    ensures { IfOk result (λ text. string_bytes text ≡ help_text topic) }
{
    let mut text = String::from_str(alloc, usage_of(topic))?;
    text.push_str(details_of(topic))?;
    Ok(text)
}

/// Returns an output in which something may be rejected or found.
fn viewed(view: View) -> Output
    ensures { result.refused ≡ None }
{
    Output {
        bytes: view.text.into_bytes(),
        refused: None,
        has_found: view.has_found,
    }
}

/// Returns an output in text that no refusal ends.
fn whole(text: String) -> Output
    ensures bytes { result.bytes.items ≡ string_bytes text }
    ensures refused { result.refused ≡ None }
    ensures found { result.has_found ≡ false }
{
    of_bytes(text.into_bytes())
}

/// Returns an output that no refusal ends.
fn of_bytes(bytes: Vec<u8>) -> Output
    ensures bytes { result.bytes ≡ bytes }
    ensures refused { result.refused ≡ None }
    ensures found { result.has_found ≡ false }
{
    Output {
        bytes,
        refused: None,
        has_found: false,
    }
}

/// Returns the fields, a line each, and the line of their size.
fn show_fields(alloc: Global, decoded: &Decoded) -> Result<String, NoMemory>
    requires { decoded.now.mem_size ≡ saturated_size (total_size (fields_in decoded.now.fields.items)) }
    ensures { IfOk result (λ text. string_bytes text ≡ printed_fields (fields_in decoded.now.fields.items)) }
{
    let mut text = String::new(alloc);
    push_fields(&mut text, &decoded.fields)?;
    writeln!(text, "size {}", decoded.mem_size)?;
    Ok(text)
}

/// Returns the fields in hexadecimal, a line each, and the line of their size.
fn show_hexadecimal(alloc: Global, decoded: &Decoded) -> Result<String, NoMemory>
    requires { decoded.now.mem_size ≡ saturated_size (total_size (fields_in decoded.now.fields.items)) }
    ensures { IfOk result (λ text. string_bytes text ≡ hexadecimal_answer (fields_in decoded.now.fields.items)) }
{
    let mut text = String::new(alloc);
    push_hexadecimal_fields(&mut text, &decoded.fields)?;
    writeln!(text, "size {}", decoded.mem_size)?;
    Ok(text)
}
