//! Runs of `qpk`.

use crate::streams::{Input, Output};
use qpack_testing::cases::{Call, Subject};
use qpk::serve::serve;
use std::io::ErrorKind;

/// What the next run of `qpk` is given: its input, and the rooms of its output and its faults.
#[derive(Drop)]
pub(crate) struct Serving {
    input: Vec<u8>,
    /// Whether reading fails at the end of the input.
    is_broken: bool,
    output_room: usize,
    faults_room: usize,
    /// How writing fails where there is no room.
    failure: ErrorKind,
}

impl Subject for Serving {
    fn begin(call: &mut Call<'_>, _size: usize) -> Option<Serving> {
        Some(Serving {
            input: Vec::new(call.alloc()),
            is_broken: false,
            output_room: usize::MAX,
            faults_room: usize::MAX,
            failure: ErrorKind::StorageFull,
        })
    }

    /// The calls are `input BYTES`, `breaks`, `rooms OUTPUT FAULTS`, `closes`, and `runs WORDS` or `pipes WORDS`. A run
    /// answers with its status, its faults and its output. The output of one that pipes is the next input: the answer is its
    /// length. Where a room is full, writing fails; after `closes` as it does if nobody reads.
    fn make(&mut self, word: &str, call: &mut Call<'_>) {
        match word {
            "input" => self.input = call.bytes(),
            "breaks" => self.is_broken = true,
            "closes" => self.failure = ErrorKind::BrokenPipe,
            "rooms" => {
                self.output_room = call.amount();
                self.faults_room = call.amount();
            }
            "runs" => {
                let output = self.run(call);
                call.show_bytes(&output.taken);
            }
            "pipes" => {
                let output = self.run_twice(call);
                call.show(&output.taken.len());
                self.input = output.taken;
            }
            _ => call.fail("there is no such call"),
        }
    }
}

impl Serving {
    /// Runs `qpk`, and once more if it was refused: memory may have been, and what the next run is given is its output.
    fn run_twice(&self, call: &mut Call<'_>) -> Output {
        let words = call.rest();
        let output = self.run(call);
        if call.answer().starts_with("0 ") {
            return output;
        }
        call.clear();
        call.set_rest(words);
        self.run(call)
    }

    /// Runs `qpk`, and returns its output. Appends its status and its faults.
    fn run(&self, call: &mut Call<'_>) -> Output {
        let words = words_of(call);
        let mut output = Output::new(call.alloc(), self.output_room, self.failure);
        let mut faults = Output::new(call.alloc(), self.faults_room, self.failure);
        let mut input = Input {
            rest: &self.input,
            is_broken: self.is_broken,
        };
        let status = serve(call.alloc(), &words, &mut input, &mut output, &mut faults);
        call.show(&status);
        call.say(" ");
        call.show_bytes(&faults.taken);
        call.say(" ");
        output
    }
}

/// Returns the words that are left.
fn words_of(call: &mut Call<'_>) -> Vec<String> {
    let mut words = Vec::new(call.alloc());
    for word in call.rest().split_whitespace() {
        let is_kept = match String::from_str(call.alloc(), word) {
            Ok(word) => words.push(word).is_ok(),
            Err(_) => false,
        };
        if !is_kept {
            call.lack_memory();
        }
    }
    call.set_rest("");
    words
}
