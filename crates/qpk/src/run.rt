//! A script run on a session, and what is printed of it.

ghost use Rattle.std.specs.Prelude.{◌≡◌, ◌-◌, ◌++◌, List, ℕ, OnOk, length, drop, slice_get, string_bytes};
ghost use Rattle.qpack_rules.specs.Session.{stream_at};
ghost use Rattle.h3_qpack.specs.Sessions.{event_of};
ghost use Rattle.qpk.specs.Scripts.{events_in};
ghost use Rattle.qpk.specs.Runs.{RunsScript, RunsSession, BeginsRun, RunsEvents, PrintsOne};
ghost use Rattle.qpk.specs.Runs.{stored_stream_bytes, stored_block_bytes};

use crate::outcomes::push_outcome_lines;
use crate::script::read_script;
use crate::text::Fault;
use h3_qpack::dynamic;
use h3_qpack::session::{Event, Session};
use std::alloc::{AllocError, Global};

/// Runs the events of a script, a line each, on a session with this capacity in bytes and this limit of blocked blocks,
/// and returns what they print. It reads the whole script before the session begins.
pub fn run_script(
    alloc: Global,
    capacity: usize,
    limit: usize,
    text: &[u8],
) -> Result<String, Fault>
    ensures { RunsScript capacity limit text.now result }
{
    let events = read_script(alloc, text)?;
    let mut out = String::new(alloc);
    run_session(alloc, capacity, limit, &events, &mut out)?;
    Ok(out)
}

/// Runs events on a session with this capacity in bytes and this limit of blocked blocks, and appends what they print.
fn run_session(
    alloc: Global,
    capacity: usize,
    limit: usize,
    events: &[Event],
    text: &mut String,
) -> Result<(), Fault>
    ensures { RunsSession capacity limit (events_in events.now) (string_bytes text.old) (string_bytes text.new) result }
{
    let mut session = begin(alloc, capacity, limit)?;
    run_events(&mut session, events, text)
}

/// Returns a session with this capacity in bytes and this limit of blocked blocks.
fn begin(alloc: Global, capacity: usize, limit: usize) -> Result<Session, Fault>
    ensures { BeginsRun result capacity limit }
{
    match Session::new(alloc, capacity, limit) {
        Ok(session) => Ok(session),
        Err(dynamic::Error::MaximumTableSizeTooLarge) => Err(Fault::Capacity),
        Err(dynamic::Error::MaxBlockedStreamsTooLarge) => Err(Fault::Limit),
        Err(_) => Err(Fault::Memory),
    }
}

/// Passes a session the events in turn, and appends what they print.
fn run_events(session: &mut Session, events: &[Event], text: &mut String) -> Result<(), Fault>
    ensures { RunsEvents session.old session.new (events_in events.now) (string_bytes text.old) (string_bytes text.new)
        result }
{
    for event in events {
        run_event(session, event, text)?;
    }
    Ok(())
}

/// Passes a session an event, and appends what it prints.
fn run_event(session: &mut Session, event: &Event, text: &mut String) -> Result<(), AllocError>
    ensures { OnOk result ((out : List ℕ) × PrintsOne session.old session.new (event_of event.now) out
        × (string_bytes text.new ≡ string_bytes text.old ++ out)) }
{
    let before = written_stream(session, event).len();
    let outcome = session.step(event);
    let added = written_stream(session, event).get(before..).unwrap_or(&[]);
    push_outcome_lines(text, &outcome, made_block(session, event), added)
}

/// Returns the stream that an event adds bytes to, if it adds any.
fn written_stream<'a>(session: &'a Session, event: &Event) -> &'a [u8]
    ensures { result.now ≡ stored_stream_bytes (event_of event.now) session.now }
{
    match event {
        Event::Encode(..) | Event::SetCapacity(_) => session.encoder_bytes(),
        _ => session.decoder_bytes(),
    }
}

/// Returns the newest block of the stream that is encoded for, empty if there is none.
fn made_block<'a>(session: &'a Session, event: &Event) -> &'a [u8]
    ensures { result.now ≡ stored_block_bytes (event_of event.now) session.now }
{
    match event {
        Event::Encode(stream, _) => {
            let newest = session.blocks(*stream).saturating_sub(1);
            session.block(*stream, newest).unwrap_or(&[])
        }
        _ => &[],
    }
}
