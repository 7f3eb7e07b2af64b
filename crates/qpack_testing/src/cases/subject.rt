//! What cases call.

use crate::cases::call::Call;
use crate::cases::run::Run;

/// What a case calls.
pub trait Subject: Drop {
    /// Makes one of the settings in the words of a call, which takes the bytes of a stream in pieces of this size. Returns
    /// nothing if they are refused.
    fn begin(call: &mut Call<'_>, size: usize) -> Option<Self>;

    /// Makes the call of a word and of the words that are left after it.
    fn make(&mut self, word: &str, call: &mut Call<'_>);

    /// The calls that all return the error once one ended the connection. There are none if it does not end.
    fn calls_that_can_fail() -> &'static [&'static str] {
        &[]
    }

    /// Whether a call was refused memory.
    fn lacked_memory(&self) -> bool {
        false
    }
}

/// The kinds of what a program's cases call.
pub trait Kinds {
    /// Makes all calls of what has the kind, by `hold`.
    fn hold_kind(kind: &str, run: &mut Run<'_>);
}

/// Makes the call of a text.
pub fn make_call<'a, S: Subject>(subject: &mut S, text: &'a str, call: &mut Call<'a>) {
    call.take(text);
    let word = call.word();
    subject.make(word, call);
    call.holds(call.rest().is_empty(), "its words are too many");
}

/// Makes all calls of a run, and once more if one was refused memory.
pub fn hold<S: Subject>(run: &mut Run<'_>) {
    if !hold_once::<S>(run) && !hold_once::<S>(run) {
        run.fail("its settings are refused, or memory is again");
    }
}

/// Makes all calls of a run. Returns whether none was refused memory.
fn hold_once<S: Subject>(run: &mut Run<'_>) -> bool {
    let size = run.start_over();
    match S::begin(run.call(), size) {
        Some(mut subject) => run.hold_all(&mut subject),
        None => false,
    }
}
