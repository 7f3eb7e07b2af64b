//! A script of a session: an event a line, its parts separated by TABs.

ghost use Rattle.qpack_rules.specs.Session.{Event as SessionEvent};
ghost use Rattle.h3_qpack.specs.Sessions.{event_of};
ghost use Rattle.qpk.specs.LineItems.{IsItem};
ghost use Rattle.qpk.specs.Scripts.{script_events, event_of_line, event_of_number, ReadsScript};

use crate::lines::{FromLine, read_lines};
use crate::text::Fault;
use h3_qpack::session::Event;
use std::alloc::Global;

pub(crate) mod parts;

use parts::{read_field_parts, read_number, split_part};

/// Returns the events of a script, a line each, or the first line that is no event.
pub fn read_script(alloc: Global, text: &[u8]) -> Result<Vec<Event>, Fault>
    ensures { ReadsScript result (script_events text.now) }
{
    read_lines(alloc, text)?.map_err(Fault::BadEvent)
}

impl FromLine for Event {
    ghost Value = { SessionEvent };

    ghost value = { event_of };

    ghost of_line = { event_of_line };

    #[tactic(auto, using(crate::proofs::Parts::part_behind))]
    fn from_line(alloc: Global, line: &[u8]) -> Result<Option<Event>, Fault> {
        let (name, Some(rest)) = split_part(line) else {
            return Ok(None);
        };
        let (number, rest) = split_part(rest);
        let Some(number) = read_number(number) else {
            return Ok(None);
        };
        if name == b"encode".as_slice() {
            let Some(fields) = read_field_parts(alloc, rest)? else {
                return Ok(None);
            };
            return Ok(Some(Event::Encode(number, fields)));
        }
        match rest {
            None => Ok(number_event(name, number)),
            Some(_) => Ok(None),
        }
    }
}

/// Returns the event of this name that has a number alone.
fn number_event(name: &[u8], number: u64) -> Option<Event>
    ensures { IsItem event_of result (event_of_number name.now number) }
{
    if name == b"decode".as_slice() {
        Some(Event::Decode(number))
    } else if name == b"todecoder".as_slice() {
        Some(Event::ToDecoder(number as usize))
    } else if name == b"toencoder".as_slice() {
        Some(Event::ToEncoder(number as usize))
    } else if name == b"ack".as_slice() {
        Some(Event::Ack(number))
    } else if name == b"cancel".as_slice() {
        Some(Event::Cancel(number))
    } else if name == b"setcapacity".as_slice() {
        Some(Event::SetCapacity(number as usize))
    } else {
        None
    }
}
