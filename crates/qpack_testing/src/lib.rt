//! What the tests of several crates share: cases that are files of text.
#![tactic(auto)]

pub mod cases;
