//! Lists of events that are given at once, and what begins a session.

use crate::{connection, session};
use h3_qpack::dynamic::{DynamicTable, Error};
use h3_qpack::session::{Event, Outcome, Session, run};
use qpack_connection::connection as ends;
use qpack_testing::cases::{Call, Subject};

/// The calls of the events that were given so far.
#[derive(Drop)]
pub(crate) struct Runs {
    events: Vec<String>,
}

/// A session and the outcomes of its run, or why it is refused.
type SessionRun = Result<(Session, Vec<Outcome>), Error>;

/// What the answer of a run has if an event, or the run, was refused memory.
const REFUSED: &str = "refused Memory";

impl Subject for Runs {
    fn begin(call: &mut Call<'_>, _size: usize) -> Option<Runs> {
        Some(Runs {
            events: Vec::new(call.alloc()),
        })
    }

    fn make(&mut self, word: &str, call: &mut Call<'_>) {
        let words = call.rest();
        self.make_once(word, call);
        if call.answer().contains(REFUSED) {
            // A second time, in case memory was refused.
            call.clear();
            call.set_rest(words);
            self.make_once(word, call);
        }
    }
}

impl Runs {
    /// Makes a call.
    fn make_once(&mut self, word: &str, call: &mut Call<'_>) {
        match word {
            "gives" => self.give(call),
            "begins-session" => show_begun(call),
            "runs-session" => {
                let ran = self.run_session(call);
                show_session_run(call, &ran);
            }
            "runs-connection" => self.run_connection(call),
            "equal-events" => {
                let events = self.session_events(call);
                show_equals(call, &events);
            }
            "equal-outcomes" => {
                let ran = self.run_session(call);
                show_equals_of_run(call, &ran);
            }
            _ => call.fail("runs have no such call"),
        }
    }

    /// Keeps the call of an event.
    fn give(&mut self, call: &mut Call<'_>) {
        let event = String::from_str(call.alloc(), call.rest());
        call.set_rest("");
        let is_kept = event.is_ok_and(|event| self.events.push(event).is_ok());
        if !is_kept {
            call.lack_memory();
        }
    }

    /// Runs a session over the events.
    fn run_session(&self, call: &mut Call<'_>) -> SessionRun {
        let (capacity, limit) = (call.count(), call.count());
        let events = self.session_events(call);
        run(call.alloc(), capacity, limit, &events)
    }

    /// Appends the outcomes of a connection's run, and the capacity then; or why it is refused.
    fn run_connection(&self, call: &mut Call<'_>) {
        let settings = connection::read_settings(call);
        let events = self.connection_events(call);
        match ends::run(call.alloc(), settings, events) {
            Ok((connection, outcomes)) => show_connection(call, &connection, &outcomes),
            Err(error) => {
                call.say("refused ");
                call.show_parts(&error);
            }
        }
    }

    /// The events, for a session.
    fn session_events(&self, call: &mut Call<'_>) -> Vec<Event> {
        let mut events = Vec::new(call.alloc());
        for text in &self.events {
            let mut words = Call::new(call.alloc());
            words.take(text.as_str());
            let word = words.word();
            let is_kept = events.push(session::event_of(word, &mut words)).is_ok();
            note_event(call, is_kept, &words);
        }
        events
    }

    /// The events, for a connection.
    fn connection_events(&self, call: &mut Call<'_>) -> Vec<ends::Event> {
        let mut events = Vec::new(call.alloc());
        for text in &self.events {
            let mut words = Call::new(call.alloc());
            words.take(text.as_str());
            let word = words.word();
            let is_kept = events.push(connection::event_of(word, &mut words)).is_ok();
            note_event(call, is_kept, &words);
        }
        events
    }
}

/// Notes what went wrong with an event, and whether there was memory for it.
fn note_event(call: &mut Call<'_>, is_kept: bool, words: &Call<'_>) {
    if !is_kept {
        call.lack_memory();
    }
    call.lack_memory_of(words);
    call.holds(words.fault().is_empty(), "there is no such event");
}

/// Appends the capacities of the tables of a new session, or why it is refused.
fn show_begun(call: &mut Call<'_>) {
    let (capacity, maximum, limit) = (call.count(), call.count(), call.count());
    match Session::with_maximum(call.alloc(), capacity, maximum, limit) {
        Ok(session) => {
            show_table(call, session.encoder().table());
            call.say(", ");
            show_table(call, session.decoder().table());
        }
        Err(error) => show_refused(call, error),
    }
}

/// Appends why a session is refused.
fn show_refused(call: &mut Call<'_>, error: Error) {
    call.say("refused ");
    call.show_parts(&error);
}

/// Appends the capacity of a table, and its maximum.
fn show_table(call: &mut Call<'_>, table: &DynamicTable) {
    call.show_capacity(table.max_mem_size(), table.agreed_max());
}

/// Appends the outcomes of a session's run, and the capacity then; or why it is refused.
fn show_session_run(call: &mut Call<'_>, ran: &SessionRun) {
    match ran {
        Ok((session, outcomes)) => show_outcomes(call, session, outcomes),
        Err(error) => show_refused(call, *error),
    }
}

/// Appends the outcomes of a session, and its capacity.
fn show_outcomes(call: &mut Call<'_>, session: &Session, outcomes: &[Outcome]) {
    for outcome in outcomes {
        session::show_outcome(call, outcome);
        call.say("; ");
    }
    show_table(call, session.encoder().table());
}

/// Appends the outcomes of a connection, and its capacity.
fn show_connection(call: &mut Call<'_>, ends: &ends::Connection, outcomes: &[ends::Outcome]) {
    for outcome in outcomes {
        connection::show_outcome(call, outcome);
        call.say("; ");
    }
    let table = ends.encoder().table();
    call.show_capacity(table.max_mem_size(), table.agreed_max());
}

/// Appends, for each of the outcomes of a session's run, how many of them equal it; or why it is refused.
fn show_equals_of_run(call: &mut Call<'_>, ran: &SessionRun) {
    match ran {
        Ok((_, outcomes)) => show_equals(call, outcomes),
        Err(error) => show_refused(call, *error),
    }
}

/// Appends, for each of the items, how many of them equal it.
fn show_equals<T: PartialEq>(call: &mut Call<'_>, items: &[T]) {
    for item in items {
        let equal = items.iter().filter(|other| *other == item).count();
        call.show(&equal);
    }
}
