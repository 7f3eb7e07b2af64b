//! Two ends of a connection, with both streams between them and the blocks of each request stream (RFC 9204, section
//! 2). Pass events one by one; each returns what the call of its end returns.

ghost use Rattle.std.specs.Prelude.{◌≡◌, ◌<◌, ◌≤◌, ◌⊎◌, ◌^◌, [], length, slice_get, Some, IfOk, IfErr};
ghost use Rattle.std.specs.List.{AllByRecursion};
ghost use Rattle.qpack_rules.specs.Session.{begin_session, initial_session, stream_at};
ghost use Rattle.qpack_spec.specs.Table.{empty_table};
ghost use Rattle.qpack_safety.specs.SessionSafety.{RunsByTheRule, RefusesNothing, DecodesWhatWasHanded};
ghost use Rattle.qpack_safety.specs.SessionSafety.{WaitsOnlyForInsertions};
ghost use Rattle.qpack_table.specs.declared.dynamic.Error.TheVariants.{MaximumTableSizeTooLarge};
ghost use Rattle.h3_qpack.specs.Sessions.{Follows, Keeps, Reaches, IsReached, event_of};
ghost use Rattle.h3_qpack.specs.SessionStarts.{Begins, IsBlock};
ghost use Rattle.h3_qpack.specs.SessionRuns.{AnswerWhatWasHanded, Runs, RefusesRun};
ghost use Rattle.h3_qpack.specs.SessionMemory.{IsAskedFor};
ghost use Rattle.h3_qpack.specs.SessionAnswers.{IsUnrefused, IsExactBehind, AreExact};

use crate::session::streams::Streams;
use qpack_base::coding::NoMemory;
use qpack_base::field::HeaderField;
use qpack_codec::decoder::{Decoded, Decoder, DecoderError};
use qpack_codec::encoder::{Encoder, EncoderError};
use qpack_table::dynamic::{self, DynamicTable};
use std::alloc::Global;
use std::marker::Model;

mod bytes;
mod events;
mod offered;
mod stream;
mod streams;

/// An event of a session. Stream numbers are below 2^62.
#[derive(Debug, PartialEq, Drop)]
pub enum Event {
    /// Encodes a field section for a stream (RFC 9204, section 2.1).
    Encode(u64, Vec<HeaderField>),
    /// Decodes the oldest undecoded block of a stream (RFC 9204, section 2.2).
    Decode(u64),
    /// Delivers this many more bytes of the encoder stream to the decoder, or all that are left.
    ToDecoder(usize),
    /// Delivers this many more bytes of the decoder stream to the encoder, or all that are left.
    ToEncoder(usize),
    /// Acknowledges the oldest decoded block of a stream that requires an entry (RFC 9204, section 4.4.1).
    Ack(u64),
    /// Cancels a stream (RFC 9204, section 4.4.2).
    Cancel(u64),
    /// Sets the encoder's capacity in bytes (RFC 9204, section 4.3.1).
    SetCapacity(usize),
}

/// The outcome of an event.
#[derive(Debug, PartialEq, Drop)]
pub enum Outcome {
    /// The required insert count of the block, 0 if it references no entry.
    Encoded(Result<usize, EncoderError>),
    /// The fields of the block.
    Decoded(Result<Decoded, DecoderError>),
    /// How many insertions the decoder received in all.
    Delivered(Result<usize, DecoderError>),
    /// The instructions were applied.
    Heard(Result<(), EncoderError>),
    /// The acknowledgment was written.
    Acknowledged(Result<(), NoMemory>),
    /// The cancellation was written.
    Cancelled(Result<(), NoMemory>),
    /// The capacity was set, and its instruction written.
    CapacitySet(Result<(), EncoderError>),
    /// The event is outside a lawful session, and nothing changed: 1, its stream number is 2^62 or more; 2, its stream
    /// has no undecoded block; 3, its stream is cancelled; 4, no block of its stream is to be acknowledged.
    Skipped(u8),
}

/// Two ends, and what is between them.
#[derive(Debug, Drop)]
pub struct Session {
    encoder: Encoder,
    decoder: Decoder,
    encoder_stream: Vec<u8>,
    encoder_stream_delivered: usize,
    encoder_stream_taken: usize,
    decoder_stream: Vec<u8>,
    decoder_stream_delivered: usize,
    decoder_stream_taken: usize,
    streams: Streams,
}

impl Model for Session {
    ghost use Rattle.h3_qpack.specs.Sessions.{SessionView, IsReached};

    ghost Value = { SessionView };

    ghost view = { λ s. record {
      encoder = s.encoder;
      decoder = s.decoder;
      encoder_stream = s.encoder_stream.items;
      encoder_stream_delivered = s.encoder_stream_delivered;
      encoder_stream_taken = s.encoder_stream_taken;
      decoder_stream = s.decoder_stream.items;
      decoder_stream_delivered = s.decoder_stream_delivered;
      decoder_stream_taken = s.decoder_stream_taken;
      streams = s.streams;
    } };

    ghost invariant = { λ s. IsReached (record {
      encoder = s.encoder;
      decoder = s.decoder;
      encoder_stream = s.encoder_stream.items;
      encoder_stream_delivered = s.encoder_stream_delivered;
      encoder_stream_taken = s.encoder_stream_taken;
      decoder_stream = s.decoder_stream.items;
      decoder_stream_delivered = s.decoder_stream_delivered;
      decoder_stream_taken = s.decoder_stream_taken;
      streams = s.streams;
    }) };
}

impl Session {
    /// Returns a session of two empty tables of this capacity in bytes, which is the maximum capacity too, with this
    /// limit of blocked blocks (RFC 9204, sections 3.2.3 and 2.1.2). Fails with `MaximumTableSizeTooLarge` if the
    /// capacity is 2^30 or more, then with `MaxBlockedStreamsTooLarge` if the limit is 65,535 or more. It takes no
    /// memory. `with_maximum` begins below the maximum capacity.
    pub fn new(alloc: Global, capacity: usize, limit: usize) -> Result<Session, dynamic::Error>
        // It begins as the definition does, or fails as that does.
        ensures begins { Begins result (begin_session capacity capacity limit) }
        // And no events lead to it.
        ensures reaches { IfOk result
            (λ s. Reaches s capacity capacity limit [] (initial_session capacity capacity limit)) }
    {
        Session::with_maximum(alloc, capacity, capacity, limit)
    }

    /// Returns a session of two empty tables of this capacity in bytes, with this limit of blocked blocks;
    /// `Event::SetCapacity` sets the capacity up to this maximum in bytes (RFC 9204, sections 3.2.2, 3.2.3 and 2.1.2).
    /// A connection of HTTP/3 begins at capacity 0, and its maximum comes from the decoder's settings. Fails with
    /// `MaximumTableSizeTooLarge` if the maximum is 2^30 or more or the capacity is above it, then with
    /// `MaxBlockedStreamsTooLarge` if the limit is 65,535 or more. It takes no memory.
    pub fn with_maximum(
        alloc: Global,
        capacity: usize,
        maximum: usize,
        limit: usize,
    ) -> Result<Session, dynamic::Error>
        // It begins as the definition does, or fails as that does.
        ensures begins { Begins result (begin_session capacity maximum limit) }
        // And no events lead to it.
        ensures reaches { IfOk result
            (λ s. Reaches s capacity maximum limit [] (initial_session capacity maximum limit)) }
    {
        let mut table = empty_table(alloc, capacity, maximum)?;
        table.set_max_blocked(limit)?;
        Ok(Session {
            encoder: Encoder::from(table),
            decoder: Decoder::from(empty_table(alloc, capacity, maximum)?),
            encoder_stream: Vec::new(alloc),
            encoder_stream_delivered: 0,
            encoder_stream_taken: 0,
            decoder_stream: Vec::new(alloc),
            decoder_stream_delivered: 0,
            decoder_stream_taken: 0,
            streams: Streams::new(alloc),
        })
    }

    /// Performs an event, and returns its outcome. An event outside a lawful session is skipped and changes nothing. If
    /// memory was refused, you can pass the event again.
    pub fn step(&mut self, event: &Event) -> Outcome
        // It is a step of the definition, from any session that the one before it shows to one that the one after it
        // shows, and its outcome is one of its own kind.
        ensures goes { Follows self.old self.new (event_of event.now) result }
        // It refuses no instruction except for memory.
        ensures unrefused { IsUnrefused result }
        // A decode returns exactly the fields that were passed to the encode of its block, or runs out of memory, or
        // returns the block's required insert count, which exceeds the insertions received.
        ensures exact { IsExactBehind self.old (event_of event.now) result }
        // Memory is refused only if it is asked for: by a decode, if in its block a prefix is followed by a whole line,
        // or by a string whose payload is not empty; by a delivery to the decoder, if insertions are still to be
        // reported or the next instruction asks for memory; and by events that write bytes. A delivery to the encoder
        // takes none.
        ensures asks { IsAskedFor self.old self.new (event_of event.now) result }
        // For any events that led to the session before it, they and this one with its outcome lead to one of which the
        // four parts of the session theorem hold. (a) The outcomes and the state are a run of the session. Each block
        // and the encoder stream are the rule's. Both tables are those that the instructions make of an empty one, and
        // within their capacity, which is at most the maximum. The blocked blocks are within the limit.
        ensures follows { Keeps self.old self.new (event_of event.now) result
            (λ capacity maximum limit events v. RunsByTheRule capacity maximum limit events v) }
        // (b) No instruction is refused except for memory.
        ensures refuses { Keeps self.old self.new (event_of event.now) result
            (λ capacity maximum limit events v. RefusesNothing v) }
        // (c) A decode that returns fields returns exactly those that were passed to the encode of its block.
        ensures decodes { Keeps self.old self.new (event_of event.now) result
            (λ capacity maximum limit events v. DecodesWhatWasHanded capacity maximum events v) }
        // (d) Any other result of a decode is out of memory, or that its block's required insert count is missing,
        // which exceeds the insertions received; never once the bytes written by the block's end were delivered.
        ensures waits { Keeps self.old self.new (event_of event.now) result
            (λ capacity maximum limit events v. WaitsOnlyForInsertions events v) }
    {
        self.recall_events();
        self.perform(event)
    }

    /// Events led to the session, as is known of each. It does nothing: a proof recalls its contract.
    fn recall_events(&self)
        ensures { IsReached self.now }
    {
        let _ = &self.encoder;
    }

    /// Returns how many blocks were encoded for a stream.
    pub fn blocks(&self, stream: u64) -> usize
        ensures { result ≡ length (stream_at self.now.streams stream).blocks }
    {
        match self.streams.get(stream) {
            Some(stream) => stream.len(),
            None => 0,
        }
    }

    /// Returns the bytes of a block of a stream, the first being 0, or `None` if there are fewer.
    pub fn block(&self, stream: u64, k: usize) -> Option<&[u8]>
        ensures { IsBlock result (slice_get (stream_at self.now.streams stream).blocks k) }
    {
        match self.streams.get(stream) {
            Some(stream) => stream.block(k),
            None => None,
        }
    }

    /// Returns all bytes of the encoder stream.
    pub fn encoder_bytes(&self) -> &[u8]
        ensures { result.now ≡ self.now.encoder_stream }
    {
        &self.encoder_stream
    }

    /// Returns all bytes of the decoder stream.
    pub fn decoder_bytes(&self) -> &[u8]
        ensures { result.now ≡ self.now.decoder_stream }
    {
        &self.decoder_stream
    }

    /// Returns the encoder.
    pub fn encoder(&self) -> &Encoder
        ensures { result.now ≡ self.now.encoder }
    {
        &self.encoder
    }

    /// Returns the decoder.
    pub fn decoder(&self) -> &Decoder
        ensures { result.now ≡ self.now.decoder }
    {
        &self.decoder
    }
}

/// Returns an empty table of this capacity, under this maximum capacity.
fn empty_table(
    alloc: Global,
    capacity: usize,
    maximum: usize,
) -> Result<DynamicTable, dynamic::Error>
    ensures ok { IfOk result
        (λ t. (capacity ≤ maximum) × (maximum < 2 ^ 30) × (t ≡ empty_table capacity (Some maximum) 0)) }
    ensures err { IfErr result
        (λ e. (e ≡ MaximumTableSizeTooLarge) × ((maximum < capacity) ⊎ (2 ^ 30 ≤ maximum))) }
{
    let mut table = DynamicTable::new(alloc);
    table.set_agreed_max(maximum)?;
    table.set_max_size(capacity)?;
    Ok(table)
}

/// Begins a session and performs the events in turn. Returns the session after them and the outcome of each. Fails as
/// `Session::new` does if the capacity or the limit is too great, and if there is no memory for the outcomes.
pub fn run(
    alloc: Global,
    capacity: usize,
    limit: usize,
    events: &[Event],
) -> Result<(Session, Vec<Outcome>), dynamic::Error>
    // On error the session does not begin, or memory runs out.
    ensures err { IfErr result (λ e. RefusesRun e (begin_session capacity capacity limit)) }
    // The headline, by events and outcomes alone. Each outcome is of its event's kind. On each stream the fields that
    // were decoded are the first of those that were encoded, in order. No stream is refused, and what is skipped is
    // skipped for its reason. A decode that returns no fields runs out of memory or returns the required insert count
    // that its block's encode returned.
    ensures headline { IfOk result (λ p. AnswerWhatWasHanded events.now p.1.items) }
    // No instruction is refused except for memory.
    ensures unrefused { IfOk result (λ p. AllByRecursion IsUnrefused p.1.items) }
    // Each decode returns exactly the fields that were passed to the encode of its block, or runs out of memory, or
    // returns the block's required insert count, which exceeds the insertions received by then.
    ensures exact { IfOk result (λ p. Runs capacity capacity limit events.now p.1.items p.0
        (λ steps v. AreExact capacity capacity limit [] steps p.1.items)) }
    // The events, each with its outcome, lead to the session that is returned, and the four parts of the session
    // theorem hold of it. (a) The outcomes and the state are a run of the session, each block and the encoder stream
    // are the rule's, the tables within their capacity and the blocked blocks within the limit.
    ensures follows { IfOk result (λ p. Runs capacity capacity limit events.now p.1.items p.0
        (λ steps v. RunsByTheRule capacity capacity limit steps v)) }
    // (b) No instruction is refused except for memory.
    ensures refuses { IfOk result (λ p. Runs capacity capacity limit events.now p.1.items p.0
        (λ steps v. RefusesNothing v)) }
    // (c) A decode that returns fields returns exactly those that were passed to the encode of its block.
    ensures decodes { IfOk result (λ p. Runs capacity capacity limit events.now p.1.items p.0
        (λ steps v. DecodesWhatWasHanded capacity capacity steps v)) }
    // (d) Any other result of a decode is out of memory, or that its block's required insert count is missing, which
    // exceeds the insertions received; never once the bytes written by the block's end were delivered.
    ensures waits { IfOk result (λ p. Runs capacity capacity limit events.now p.1.items p.0
        (λ steps v. WaitsOnlyForInsertions steps v)) }
{
    let mut session = Session::new(alloc, capacity, limit)?;
    let mut outcomes = Vec::with_capacity(alloc, events.len())?;
    session.perform_all(events, &mut outcomes);
    Ok((session, outcomes))
}
