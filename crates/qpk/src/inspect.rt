//! What the bytes of a recorded connection say, and what they do to the dynamic table (RFC 9204, sections 3.2, 4.3
//! and 4.5).

ghost use Rattle.qpack_spec.specs.Table.{empty_table};
ghost use Rattle.std.specs.Prelude.{◌≡◌, ◌^◌, ◌<◌, ◌≤◌, Some, MatchResult, string_bytes};
ghost use Rattle.qpk.specs.Inspections.{InspectsEvents, InspectsFromEmpty, InspectsInput, events_in};
ghost use Rattle.qpk.specs.declared.text.Fault.TheVariants.{Capacity};

use crate::text::Fault;
use h3_qpack::DecoderError;
use h3_qpack::decoder::Decoder;
use h3_qpack::dynamic::{self, DynamicTable};
use std::alloc::Global;

mod blocks;
mod events;
mod instructions;

use blocks::inspect_block;
use events::{Event, read_events};
use instructions::inspect_instructions;

/// What is printed of an input, and the refusal that ends it.
#[derive(Drop)]
pub struct Inspection {
    /// The printed lines.
    pub text: String,
    /// Why the events after them were not inspected, if they were not.
    pub refused: Option<DecoderError>,
}

/// Inspects the events of the input, a line each, by a decoder that begins empty, with this capacity in bytes, which is
/// its agreed maximum too.
pub fn inspect(alloc: Global, capacity: usize, input: &[u8]) -> Result<Inspection, Fault>
    ensures { InspectsInput capacity input.now result }
{
    let events = read_events(alloc, input)?;
    let mut text = String::new(alloc);
    match inspect_from_empty(alloc, capacity, &events, &mut text) {
        Ok(()) => Ok(Inspection {
            text,
            refused: None,
        }),
        Err(Fault::Refused(e)) => Ok(Inspection {
            text,
            refused: Some(e),
        }),
        Err(fault) => Err(fault),
    }
}

/// Inspects events in turn by a decoder that begins empty, with this capacity in bytes, which is its agreed maximum
/// too; appends what is printed of them.
fn inspect_from_empty(
    alloc: Global,
    capacity: usize,
    events: &[Event],
    text: &mut String,
) -> Result<(), Fault>
    ensures { InspectsFromEmpty capacity (events_in events.now) (string_bytes text.old) (string_bytes text.new) result }
{
    let mut decoder = new_decoder(alloc, capacity)?;
    inspect_events(alloc, &mut decoder, events, text)
}

/// Returns an empty decoder with this capacity in bytes, which is its agreed maximum too.
fn new_decoder(alloc: Global, capacity: usize) -> Result<Decoder, Fault>
    ensures { MatchResult result
        (λ d. (capacity < 2 ^ 30) × (d.table ≡ empty_table capacity (Some capacity) 0))
        (λ fault. (2 ^ 30 ≤ capacity) × (fault ≡ Capacity)) }
{
    match new_table(alloc, capacity) {
        Ok(table) => Ok(Decoder::from(table)),
        Err(_) => Err(Fault::Capacity),
    }
}

/// Returns an empty table with this capacity in bytes, which is its agreed maximum too. Fails if the capacity is 2^30
/// or more.
#[tactic(auto, using(crate::proofs::EmptyTables::resized_to_maximum, crate::proofs::EmptyTables::never_refused))]
fn new_table(alloc: Global, capacity: usize) -> Result<DynamicTable, dynamic::Error>
    ensures { MatchResult result (λ t. (capacity < 2 ^ 30) × (t ≡ empty_table capacity (Some capacity) 0))
        (λ _. 2 ^ 30 ≤ capacity) }
{
    let mut table = DynamicTable::new(alloc);
    table.set_agreed_max(capacity)?;
    table.set_max_size(capacity)?;
    Ok(table)
}

/// Inspects events in turn, and appends what is printed of them.
fn inspect_events(
    alloc: Global,
    decoder: &mut Decoder,
    events: &[Event],
    text: &mut String,
) -> Result<(), Fault>
    ensures { InspectsEvents decoder.old.table (events_in events.now) (string_bytes text.old) (string_bytes text.new)
        result }
{
    let mut stream = Vec::new(alloc);
    let mut taken = 0usize;
    for event in events {
        match event {
            Event::Piece(bytes) => {
                stream.extend_from_slice(bytes)?;
                taken += inspect_instructions(alloc, decoder, &stream[taken..], text)?;
            }
            Event::Section(block) => inspect_block(decoder, block, text)?,
        }
    }
    Ok(())
}
