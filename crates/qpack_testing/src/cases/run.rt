//! A run: the calls of a case for one of its subjects, and what came of those before.

use crate::cases::call::Call;
use crate::cases::lines::Line;
use crate::cases::subject::{Subject, make_call};
use std::alloc::Global;
use std::fmt::Write;

/// The calls of a case for one of its subjects, and how many cases and calls there were.
#[derive(Drop)]
pub struct Run<'a> {
    call: Call<'a>,
    /// The settings of the subject.
    settings: &'a str,
    size: usize,
    /// The calls before the first `again` of the case, and those after an `again`.
    head: &'a [Line],
    tail: &'a [Line],
    /// Whether each answer is printed, and compared by others.
    is_asked: bool,
    /// The answers that are printed: of the runs before, and of this one.
    pub(crate) printed: String,
    answers: String,
    pub(crate) cases: usize,
    pub(crate) calls: usize,
    /// The line that does not hold, and why; 0 while all hold.
    pub(crate) wrong_line: usize,
    pub(crate) why: String,
}

impl<'a> Run<'a> {
    /// A run of no calls.
    pub(crate) fn new(alloc: Global, is_asked: bool) -> Run<'a> {
        Run {
            call: Call::new(alloc),
            settings: "",
            size: 0,
            head: &[],
            tail: &[],
            is_asked,
            printed: String::new(alloc),
            answers: String::new(alloc),
            cases: 0,
            calls: 0,
            wrong_line: 0,
            why: String::new(alloc),
        }
    }

    /// Takes the settings of a subject and the calls, and returns the kind of the subject.
    pub(crate) fn take(
        &mut self,
        subject: &'a str,
        size: usize,
        head: &'a [Line],
        tail: &'a [Line],
    ) -> &'a str {
        let (kind, settings) = subject.split_once(' ').unwrap_or((subject, ""));
        self.keep_answers();
        self.settings = settings;
        self.size = size;
        self.head = head;
        self.tail = tail;
        self.calls = self.calls.saturating_add(head.len());
        self.calls = self.calls.saturating_add(tail.len());
        kind
    }

    /// Keeps the answers of this run, a second time in case memory was refused.
    pub(crate) fn keep_answers(&mut self) {
        let answers = self.answers.as_str();
        let is_kept = self.printed.push_str(answers).is_ok()
            || self.printed.push_str(answers).is_ok();
        self.answers.clear();
        if !is_kept {
            self.fail("out of memory");
        }
    }

    /// Has the words of the call be the settings, and returns the size of pieces.
    pub(crate) fn start_over(&mut self) -> usize {
        self.answers.clear();
        self.call.start_over();
        self.call.take(self.settings);
        self.size
    }

    /// The call.
    pub(crate) fn call(&mut self) -> &mut Call<'a> {
        &mut self.call
    }

    /// Notes that the run does not hold.
    pub fn fail(&mut self, why: &str) {
        self.fail_at(0, why);
    }

    /// Notes that a line does not hold, unless another does not.
    fn fail_at(&mut self, number: usize, why: &str) {
        if self.has_failed() {
            return;
        }
        let first = self.head.first().or(self.tail.first());
        self.wrong_line = number.max(first.map_or(1, |line| line.number));
        let is_told = self.why.push_str(why).is_ok();
        self.call.holds(is_told, "out of memory");
    }

    /// Returns whether a line does not hold.
    pub(crate) fn has_failed(&self) -> bool {
        self.wrong_line > 0
    }

    /// Makes all calls, up to one that does not hold. Returns whether none was refused memory.
    pub(crate) fn hold_all<S: Subject>(&mut self, subject: &mut S) -> bool {
        if !self.call.rest().is_empty() {
            self.fail("its settings are too many");
        }
        for line in self.head {
            self.hold(subject, line);
        }
        for line in self.tail {
            self.hold(subject, line);
        }
        self.has_failed() || !self.lacks_memory(subject)
    }

    /// Returns whether a call was refused memory, or a part of one.
    fn lacks_memory<S: Subject>(&self, subject: &S) -> bool {
        subject.lacked_memory() || self.call.lacks_memory()
    }

    /// Makes the call of a line, unless an earlier one does not hold, or was refused memory for its words.
    fn hold<S: Subject>(&mut self, subject: &mut S, line: &'a Line) {
        if self.has_failed() || self.call.lacks_memory() {
            return;
        }
        if self.is_asked {
            self.make(subject, line.text.as_str(), line.number);
            self.print_answer();
        } else {
            self.hold_line(subject, line);
        }
    }

    /// Appends the answer to those that are printed.
    fn print_answer(&mut self) {
        let is_pushed = self.answers.push_str(self.call.answer()).is_ok();
        if !is_pushed || self.answers.push('\n').is_err() {
            self.call.lack_memory();
        }
    }

    /// Makes the call of a line, which must give the answer of the line, if it has one.
    fn hold_line<S: Subject>(&mut self, subject: &mut S, line: &'a Line) {
        let text = line.text.as_str();
        if let Some((call, expected)) = text.split_once(" => ") {
            self.make(subject, call, line.number);
            self.expect(expected, line);
        } else if let Some((call, expected)) = text.split_once(" -> ") {
            self.hold_call(subject, call, expected, line);
        } else {
            self.make(subject, text, line.number);
        }
    }

    /// Makes a call, which must give this answer unless one was refused memory.
    fn hold_call<S: Subject>(
        &mut self,
        subject: &mut S,
        call: &'a str,
        expected: &str,
        line: &Line,
    ) {
        if call == "ended" {
            self.hold_end(subject, expected, line);
            return;
        }
        self.make(subject, call, line.number);
        if !subject.lacked_memory() {
            self.expect(expected, line);
        }
    }

    /// Makes a call.
    fn make<S: Subject>(&mut self, subject: &mut S, call: &'a str, number: usize) {
        make_call(subject, call, &mut self.call);
        if !self.call.lacks_memory() {
            self.note_fault(number);
        }
    }

    /// Notes that a line does not hold, if its call says so.
    fn note_fault(&mut self, number: usize) {
        let fault = self.call.fault();
        if !fault.is_empty() {
            self.fail_at(number, fault);
        }
    }

    /// Notes that a line does not hold, if its call gave another answer, for which there was memory.
    fn expect(&mut self, expected: &str, line: &Line) {
        if self.call.answer() == expected || self.call.lacks_memory() || self.has_failed() {
            return;
        }
        self.fail_at(line.number, line.text.as_str());
        let answer = self.call.answer();
        let is_told = write!(self.why, ": it answers {answer}").is_ok();
        self.call.holds(is_told, "out of memory");
    }

    /// Requires that every call that can fail gives this answer, and changes nothing.
    fn hold_end<S: Subject>(&mut self, subject: &mut S, expected: &str, line: &Line) {
        let calls = S::calls_that_can_fail();
        self.call.holds(!calls.is_empty(), "it does not end");
        self.make(subject, "state", line.number);
        let state = Vec::from_slice(self.call.alloc(), self.call.answer().as_bytes()).ok();
        for call in calls {
            self.make(subject, call, line.number);
            self.expect(expected, line);
        }
        self.make(subject, "failure", line.number);
        self.expect(expected, line);
        self.make(subject, "state", line.number);
        self.expect_state(state, line);
    }

    /// Notes that a line does not hold, if the state was another one.
    fn expect_state(&mut self, state: Option<Vec<u8>>, line: &Line) {
        if state.is_none() {
            self.call.lack_memory();
        }
        let is_same = state.is_some_and(|state| self.call.answer().as_bytes() == state.as_slice());
        if !is_same && !self.call.lacks_memory() {
            self.fail_at(line.number, "a call that ended changes the state");
        }
    }
}
