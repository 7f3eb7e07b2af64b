//! Cases that are files of text, which one small program reads: each line is a call and its answer. The first call that
//! gives any other answer ends the program with an error, which names the file, the case and the line.
//!
//! A file has these lines, and empty ones:
//!
//! - `; TEXT` is a comment.
//! - `$NAME TEXT` gives a text a name: `$NAME` in a later line is the text.
//! - `# NAME` begins a case.
//! - `= KIND SETTINGS` says what the case calls. A case with several such lines makes its calls for each. With
//!   `pieces 1 7` at its end the bytes of a stream come in pieces of one byte, and then in pieces of seven.
//! - `CALL -> ANSWER` makes a call, which must give this answer. After a call that was refused memory any answer will
//!   do. Then all calls of the case are made once more, and none of these may be refused memory.
//! - `CALL => ANSWER` does the same, and the answer counts after refused memory too.
//! - `CALL` alone makes a call, and takes any answer.
//! - `each FIRST LAST CALL -> ANSWER` makes the call once for each of these numbers, up or down. `@` is the number.
//! - `ended -> ANSWER` requires that every call that can fail gives this answer from now on, and changes nothing.
//! - `again` starts over, after the calls before the first `again` of the case.
//!
//! Bytes are in hexadecimal, and `nothing` is no byte. A field is `NAME = VALUE` after ` | `, with `never` before its
//! name if it is never to be indexed. A name or a value is a text, or `0x` and its bytes, and `""` is an empty one.
//!
//! The scripts of `tests/` ask calls on standard input, and compare the answers: there a line is a case's `= KIND
//! SETTINGS`, or a call, whose answer is printed.
//!
//! A check or an append that fails is noted and returns nothing: each exit of a function is a path of its own for the
//! prover.

mod call;
mod fields;
mod files;
mod lines;
mod run;
mod subject;

pub use call::Call;
pub use fields::{Field, Mark};
pub use files::{answer_calls, hold_files, read_calls};
pub use run::Run;
pub use subject::{Kinds, Subject, hold, make_call};
