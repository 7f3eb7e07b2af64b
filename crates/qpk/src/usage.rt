//! How the program is called.

ghost use Rattle.std.specs.Prelude.{◌≡◌};
ghost use Rattle.qpk.specs.Usage.{all_details, all_usage};
ghost use Rattle.qpk.specs.Usage.{encode_details, encode_usage};
ghost use Rattle.qpk.specs.Usage.{decode_details, decode_usage};
ghost use Rattle.qpk.specs.Usage.{inspect_details, inspect_usage};
ghost use Rattle.qpk.specs.Usage.{run_details, run_usage};
ghost use Rattle.qpk.specs.Usage.{show_details, show_usage};
ghost use Rattle.qpk.specs.Usage.{explain_details, explain_usage};
ghost use Rattle.qpk.specs.Usage.{check_details, check_usage};
ghost use Rattle.qpk.specs.Usage.{details_of, usage_line, usage_of};

/// What help may be asked for.
#[derive(Clone, Copy, Debug, PartialEq)]
pub enum Topic {
    /// All commands.
    All,
    /// `encode`.
    Encode,
    /// `decode`.
    Decode,
    /// `inspect`.
    Inspect,
    /// `run`.
    Run,
    /// `show`.
    Show,
    /// `explain`.
    Explain,
    /// `check`.
    Check,
}

/// The version of the program.
pub const VERSION: &str = "qpk 0.1.0\n";

/// Returns the line for words that give none of the four commands that other programs know, and none beyond these.
pub fn usage() -> &'static str
    ensures { result.now ≡ usage_line }
{
    "usage: qpk encode | qpk decode LIMIT | qpk run CAPACITY LIMIT | qpk inspect CAPACITY\n"
}

/// Returns how a command is called, in three lines at most.
pub fn usage_of(topic: Topic) -> &'static str
    ensures { result.now ≡ usage_of topic }
{
    match topic {
        Topic::All => all_usage(),
        Topic::Encode => encode_usage(),
        Topic::Decode => decode_usage(),
        Topic::Inspect => inspect_usage(),
        Topic::Run => run_usage(),
        Topic::Show => show_usage(),
        Topic::Explain => explain_usage(),
        Topic::Check => check_usage(),
    }
}

/// Returns what help says of a command after how it is called.
pub fn details_of(topic: Topic) -> &'static str
    ensures { result.now ≡ details_of topic }
{
    match topic {
        Topic::All => all_details(),
        Topic::Encode => encode_details(),
        Topic::Decode => decode_details(),
        Topic::Inspect => inspect_details(),
        Topic::Run => run_details(),
        Topic::Show => show_details(),
        Topic::Explain => explain_details(),
        Topic::Check => check_details(),
    }
}

/// Returns how the program is called.
#[tactic(auto, unfolding(crate::specs::Usage::all_usage))]
fn all_usage() -> &'static str
    ensures { result.now ≡ all_usage }
{
    "\
usage: qpk COMMAND .. <INPUT    encodes, decodes and explains QPACK, the header compression of HTTP/3 (RFC 9204)
       qpk help COMMAND         says more about a command, with an example
"
}

/// Returns the details of how the program is called.
#[tactic(auto, unfolding(crate::specs::Usage::all_details))]
fn all_details() -> &'static str
    ensures { result.now ≡ all_details }
{
    "\n\
To debug a connection:
  show     a recorded connection in words: each instruction, each section, each field
  check    a verdict on a recorded connection: what is wrong, where, and why that may be
  explain  bytes, each with its bits and what they mean; no connection is needed
To encode and decode:
  encode   fields to a section, or header lists in QIF to a recording
  decode   a section without the dynamic table to its fields, or a recording to QIF
By numbers:
  inspect  a recorded connection as numbers
  run      a script of events on two ends

-h, --help and help print this text, qpk COMMAND --help that of a command, and --version the version.
Status: 0, the answer is on standard output; 1, words or input were refused, as standard error says, or check found
something; 2, show or explain printed something that is refused.
"
}

/// Returns how `encode` is called.
#[tactic(auto, unfolding(crate::specs::Usage::encode_usage))]
fn encode_usage() -> &'static str
    ensures { result.now ≡ encode_usage }
{
    "\
usage: qpk encode <FIELDS
       qpk encode --qif CAPACITY BLOCKED ACK <LISTS
"
}

/// Returns the details of how `encode` is called.
#[tactic(auto, unfolding(crate::specs::Usage::encode_details))]
fn encode_details() -> &'static str
    ensures { result.now ≡ encode_details }
{
    "\n\
Reads fields, a line each: the name, a TAB and the value. Prints their section in hexadecimal.
  printf ':method\\tGET\\n' | qpk encode
  0000d1
Only a line feed ends a line: a carriage return before it is part of the value.

With --qif it reads header lists in QIF, and writes a recording of the offline interop. CAPACITY is that of the table in
bytes, and BLOCKED how many streams may be blocked. ACK is 1 if each section is acknowledged before the next list, else 0.
"
}

/// Returns how `decode` is called.
#[tactic(auto, unfolding(crate::specs::Usage::decode_usage))]
fn decode_usage() -> &'static str
    ensures { result.now ≡ decode_usage }
{
    "\
usage: qpk decode [--hex | --json] LIMIT <SECTION
       qpk decode --qif CAPACITY BLOCKED <RECORDING
"
}

/// Returns the details of how `decode` is called.
#[tactic(auto, unfolding(crate::specs::Usage::decode_details))]
fn decode_details() -> &'static str
    ensures { result.now ≡ decode_details }
{
    "\n\
Reads a section in hexadecimal, and prints its fields. LIMIT is the most bytes that the fields may have together, each
with 32 more than its name and its value.
  echo 0000d1 | qpk decode 42
  :method\tGET
  size 42
With --hex names and values are in hexadecimal, and a minus if they are empty. With --json the answer is an object; what is
not UTF-8 is an object whose hex has its bytes.

A section that needs the dynamic table is refused: qpk show reads it with its connection, and qpk explain reads it alone.
qpk explain also says at which byte a section is at fault.

With --qif it reads a recording of the offline interop, and writes its header lists in QIF.
"
}

/// Returns how `inspect` is called.
#[tactic(auto, unfolding(crate::specs::Usage::inspect_usage))]
fn inspect_usage() -> &'static str
    ensures { result.now ≡ inspect_usage }
{
    "\
usage: qpk inspect CAPACITY <RECORDING
"
}

/// Returns the details of how `inspect` is called.
#[tactic(auto, unfolding(crate::specs::Usage::inspect_details))]
fn inspect_details() -> &'static str
    ensures { result.now ≡ inspect_details }
{
    "\n\
Reads lines: e TAB HEX, bytes of the encoder stream, and b TAB HEX, a section. Prints what they are, in numbers. The table
begins empty, with CAPACITY bytes.
  printf 'b\\t0000d1\\n' | qpk inspect 4096
  prefix 0 0
  indexed static 17
  fields 1 42
qpk show and qpk check read recordings too, whose lines name the stream of a section, and say why something is refused.
"
}

/// Returns how `run` is called.
#[tactic(auto, unfolding(crate::specs::Usage::run_usage))]
fn run_usage() -> &'static str
    ensures { result.now ≡ run_usage }
{
    "\
usage: qpk run CAPACITY LIMIT <SCRIPT
"
}

/// Returns the details of how `run` is called.
#[tactic(auto, unfolding(crate::specs::Usage::run_details))]
fn run_details() -> &'static str
    ensures { result.now ≡ run_details }
{
    "\n\
Runs a script on the two ends of a connection. CAPACITY is that of both tables in bytes, and at most LIMIT sections may be
blocked. The events: encode STREAM NAME VALUE .., decode STREAM, todecoder N, toencoder N, ack STREAM, cancel STREAM and
setcapacity N, with TABs between their words.
  printf 'encode\\t4\\tfoo\\tbar\\n' | qpk run 4096 1
  encoded 1 028010 6294e7838c767f
"
}

/// Returns how `show` is called.
#[tactic(auto, unfolding(crate::specs::Usage::show_usage))]
fn show_usage() -> &'static str
    ensures { result.now ≡ show_usage }
{
    "\
usage: qpk show [--table] [--json] [--max-capacity N] [--max-blocked N] [--qif] [FILE]
       qpk show CAPTURE --keys KEYLOG [--connection N] [--stream N]
"
}

/// Returns the details of how `show` is called.
#[tactic(auto, unfolding(crate::specs::Usage::show_details))]
fn show_details() -> &'static str
    ensures { result.now ≡ show_details }
{
    "\n\
Prints what a recorded connection says: each instruction with the offset on its stream, each section with its fields.
  printf 'b 4 028010\\ne 3fe11f6294e7838c767f\\n' | qpk show
  section 4: blocked until insertion 1
  encoder 0: set capacity 4096
  encoder 3: insert as entry 1, foo: bar
  section 4: unblocked, required insert count 1, base 0
    2 post-base 0 (entry 1), foo: bar

A line of a recording is one of these, its words separated by blanks or TABs:
  e HEX                bytes of the encoder stream, without the byte of its type
  d HEX                bytes of the decoder stream, without the byte of its type
  b STREAM HEX         a section of a stream
  c STREAM             the decoder reads the stream no further
  s CAPACITY BLOCKED   SETTINGS: the decoder's maximum table capacity, and how many streams may be blocked
> before a line says that the client sent it or did it, and < the server; then all lines have one of them. @TIME before
that is when. HEX may have blanks, colons and 0x. Empty lines and lines that begin with # are skipped.

--table            print the table after each instruction of the encoder stream
--json             print an object a line
--max-capacity N   the maximum table capacity in bytes, where no line s has it; else 4096
--max-blocked N    how many streams may be blocked, where no line s has it; else 100
--qif              read a recording of the offline interop
Status 2 says that something was refused.
"
}

/// Returns how `explain` is called.
#[tactic(auto, unfolding(crate::specs::Usage::explain_usage))]
fn explain_usage() -> &'static str
    ensures { result.now ≡ explain_usage }
{
    "\
usage: qpk explain [--encoder-stream | --decoder-stream] [--max-capacity N] [HEX..]
"
}

/// Returns the details of how `explain` is called.
#[tactic(auto, unfolding(crate::specs::Usage::explain_details))]
fn explain_details() -> &'static str
    ensures { result.now ≡ explain_details }
{
    "\n\
Prints each byte with its offset, its bits and what they mean. The bytes are those of a section, or, by an option, of a
stream of instructions, without the byte of its type. Without HEX they are read from standard input.
  qpk explain 0000d1
     0  00  00000000      required insert count: 0, so no line references the dynamic table
     1  00  0 0000000     base: sign 0, delta 0: required insert count + 0
     2  d1  1 1 010001    indexed, static 17: :method: GET
A required insert count depends on the maximum capacity: --max-capacity N in bytes, else 4096. An entry is named by its
distance from the base, which only a connection tells: qpk show.
Status 2 says that bytes could not be read.
"
}

/// Returns how `check` is called.
#[tactic(auto, unfolding(crate::specs::Usage::check_usage))]
fn check_usage() -> &'static str
    ensures { result.now ≡ check_usage }
{
    "\
usage: qpk check [--json] [--max-capacity N] [--max-blocked N] [--qif] [FILE]
       qpk check CAPTURE --keys KEYLOG [--connection N]
"
}

/// Returns the details of how `check` is called.
#[tactic(auto, unfolding(crate::specs::Usage::check_details))]
fn check_details() -> &'static str
    ensures { result.now ≡ check_details }
{
    "\n\
Prints a line for each thing in a recorded connection that a strict end refuses: the line of the recording, the place on
the stream, the section of RFC 9204, the code that ends the connection, and a likely cause. The status is 1 then, else 0.
  printf 'e 6294e7838c767f\\n' | qpk check
  line 1: encoder stream, byte 0, instruction 1: insertion while the capacity is 0: no Set Dynamic Table Capacity came before it [RFC 9204, section 3.2.2; 0x0201 QPACK_ENCODER_STREAM_ERROR]; likely cause: the encoder takes the maximum for the capacity, or the recording begins late

A line of a recording is one of these, its words separated by blanks or TABs:
  e HEX                bytes of the encoder stream, without the byte of its type
  d HEX                bytes of the decoder stream, without the byte of its type
  b STREAM HEX         a section of a stream
  c STREAM             the decoder reads the stream no further
  s CAPACITY BLOCKED   SETTINGS: the decoder's maximum table capacity, and how many streams may be blocked
> before a line says that the client sent it or did it, and < the server; then all lines have one of them. @TIME before
that is when. HEX may have blanks, colons and 0x. Empty lines and lines that begin with # are skipped.

--json             print an object a line
--max-capacity N   the maximum table capacity in bytes, where no line s has it; else 4096
--max-blocked N    how many streams may be blocked, where no line s has it; else 100
--qif              read a recording of the offline interop
"
}
