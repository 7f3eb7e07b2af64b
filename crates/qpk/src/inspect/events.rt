//! The input of an inspection: an event a line, `e TAB HEX` or `b TAB HEX`.

ghost use Rattle.qpk.specs.LineItems.{IsItem};
ghost use Rattle.qpk.specs.Inspecting.{Event as InspectedEvent, events_of, event_of_line, event_named};
ghost use Rattle.qpk.specs.Inspections.{ReadsEvents, event_of};

use crate::lines::{FromLine, read_lines};
use crate::text::Fault;
use hex::FromHexError;
use qpk_qif::lines::split_field;
use std::alloc::Global;

/// An event of a recorded connection.
#[derive(Drop)]
pub enum Event {
    /// Bytes of the encoder stream, after those that came before.
    Piece(Vec<u8>),
    /// A block.
    Section(Vec<u8>),
}

/// Returns the events of the input's lines, or the first line that is no event.
pub fn read_events(alloc: Global, input: &[u8]) -> Result<Vec<Event>, Fault>
    ensures { ReadsEvents result (events_of input.now) }
{
    read_lines(alloc, input)?.map_err(Fault::BadEvent)
}

impl FromLine for Event {
    ghost Value = { InspectedEvent };

    ghost value = { event_of };

    ghost of_line = { event_of_line };

    fn from_line(alloc: Global, line: &[u8]) -> Result<Option<Event>, Fault> {
        let Some((name, value)) = split_field(line) else {
            return Ok(None);
        };
        match hex::decode(alloc, value) {
            Ok(bytes) => Ok(event_named(name, bytes)),
            Err(FromHexError::OutOfMemory) => Err(Fault::Memory),
            Err(_) => Ok(None),
        }
    }
}

/// Returns the event of this name, with these bytes.
fn event_named(name: &[u8], bytes: Vec<u8>) -> Option<Event>
    ensures { IsItem event_of result (event_named name.now bytes.items) }
{
    if name == b"e".as_slice() {
        Some(Event::Piece(bytes))
    } else if name == b"b".as_slice() {
        Some(Event::Section(bytes))
    } else {
        None
    }
}
