//! QPACK as text (RFC 9204): fields to blocks and back, recorded connections inspected, scripts of sessions run; and
//! the program `qpk` over any words, reader and writers.
#![tactic(auto)]

pub mod command;
pub mod error_words;
mod inspect;
mod json;
mod lines;
mod note;
mod outcomes;
mod printing;
pub mod refusal;
mod run;
mod script;
pub mod serve;
pub mod text;
pub mod usage;
mod writing;
