//! Both ends of a connection, with the two instruction streams between them and the sections of each request stream
//! (RFC 9204, section 2). Pass events one by one; each returns what the call of its end returns.

ghost use Rattle.std.specs.Prelude.{◌≡◌, ◌+◌, ◌≤◌, length, vec_len, vec_capacity, IfOk, IfErr};
ghost use Rattle.qpack_connection.specs.ConnectionEvents.{encoder_settings, BeginsWith, Goes, IsReached};
ghost use Rattle.qpack_connection.specs.ConnectionRuns.{AnswersEvent, StepsAll, GoesFrom, RefusesRun};
ghost use Rattle.qpack_connection.specs.ConnectionRuns.{AnswerWhatWasHanded};
ghost use Rattle.qpack_connection.specs.Headline.{EventsAnswerWhatWasHanded};
ghost use Rattle.qpack_connection.specs.declared.connection.RunError.TheVariants.{Settings, Memory};
ghost use Rattle.qpack_decoding.specs.Decoders.{end_of, FailsSettings};
ghost use Rattle.qpack_connection.specs.TwoEndsHeadline.{IsWithin};

use crate::connection::ends::Ends;
use qpack_ends::decoder::{ConnectionDecoder, DecoderSettings, DecodingError, SettingsError};
use qpack_ends::encoder::{
    ConnectionEncoder, DEFAULT_CAPACITY, DEFAULT_UNACKNOWLEDGED, EncoderSettings, EncodingError,
};
use qpack_ends::field_section::FieldSection;
use qpack_ends::section::Reading;
use std::alloc::{AllocError, Global};
use std::marker::Model;
use thiserror::Error;

mod ends;
mod fields;
mod offered;
mod stream;
mod streams;

pub use fields::OwnedFieldLine;

/// The settings of both ends of a connection: those that the decoding end sends and the encoding end receives (RFC
/// 9204, section 5), and the encoding end's choices for its table.
#[derive(Clone, Copy, Debug, PartialEq, Eq, Drop)]
pub struct ConnectionSettings {
    /// What the decoding end sends.
    pub decoder: DecoderSettings,
    /// The table's capacity that the encoding end asks for, in bytes; one above the maximum is lowered to it (RFC 9204,
    /// section 3.2.3).
    pub capacity: usize,
    /// How many sections may wait for acknowledgments (RFC 9204, section 4.4.1) before sections are written without
    /// references.
    pub most_unacknowledged: usize,
}

impl ConnectionSettings {
    /// Returns settings with those of the decoding end, a capacity of 16,384 bytes, and at most 100 sections that wait
    /// for acknowledgments.
    pub fn new(decoder: DecoderSettings) -> ConnectionSettings
        ensures { result ≡ record { decoder = decoder; capacity = 16384; most_unacknowledged = 100 } }
    {
        ConnectionSettings {
            decoder,
            capacity: DEFAULT_CAPACITY,
            most_unacknowledged: DEFAULT_UNACKNOWLEDGED,
        }
    }

    /// Returns the settings of the encoding end.
    pub fn encoder(&self) -> EncoderSettings
        ensures { result ≡ encoder_settings self.now }
    {
        EncoderSettings {
            max_capacity: self.decoder.max_capacity,
            max_blocked: self.decoder.max_blocked,
            capacity: self.capacity,
            most_unacknowledged: self.most_unacknowledged,
            seed: 0,
        }
    }
}

/// An event of a connection. Stream numbers are below 2^62.
#[derive(Debug, Drop)]
pub enum Event {
    /// Encodes a field section for a stream (RFC 9204, section 2.1).
    Encode(u64, Vec<OwnedFieldLine>),
    /// Sets the capacity of the encoding end's table, in bytes (RFC 9204, section 4.3.1).
    SetCapacity(usize),
    /// Sets the capacity of the encoding end's table, in bytes, now or as soon as no section needs what it evicts.
    Shrink(usize),
    /// Delivers this many more bytes of the encoder stream to the decoding end, or all that are left.
    ToDecoder(usize),
    /// Delivers this many more bytes of the decoder stream to the encoding end, or all that are left.
    ToEncoder(usize),
    /// Passes the oldest section of a stream that was not decoded to the decoding end (RFC 9204, section 2.2).
    Decode(u64),
    /// Cancels a stream at the decoding end (RFC 9204, section 4.4.2).
    Cancel(u64),
}

/// Why an event is skipped.
#[derive(Clone, Copy, Debug, PartialEq, Eq, Drop)]
pub enum Skip {
    /// The stream has no section that was not decoded.
    NothingToDecode,
    /// The stream is cancelled.
    StreamCancelled,
}

/// The outcome of an event.
#[derive(Debug, Drop)]
pub enum Outcome {
    /// The required insert count of the section, 0 if it references no entry; or why it was not encoded.
    Encoded(Result<usize, EncodingError>),
    /// The capacity was set, and is announced, or it waits after `Event::Shrink`; or why not.
    CapacitySet(Result<(), EncodingError>),
    /// How many insertions the decoding end received in all; or why it stopped.
    Delivered(Result<usize, DecodingError>),
    /// The encoding end received the bytes; or why it stopped.
    Heard(Result<(), EncodingError>),
    /// What the section read as, with its fields, of which there are none unless the reading is `Reading::Fields`; or
    /// why it was not decoded.
    Decoded(Result<Reading, DecodingError>, FieldSection),
    /// The stream was cancelled; or why not.
    Cancelled(Result<(), DecodingError>),
    /// The event is outside what the two ends of a connection do, and nothing changed.
    Skipped(Skip),
    /// There was no memory to keep a section or a stream: no end was called, and nothing changed.
    NoRoom,
}

/// Why a run failed.
#[derive(Clone, Copy, Debug, PartialEq, Eq, Drop, Error)]
pub enum RunError {
    /// The settings are rejected.
    #[error("{0}")]
    Settings(SettingsError),
    /// There was no memory for the outcomes of the events.
    #[error("out of memory")]
    Memory,
}

impl From<SettingsError> for RunError {
    ghost from_gives = { λ e r. r ≡ Settings e };

    fn from(e: SettingsError) -> RunError {
        RunError::Settings(e)
    }
}

impl From<AllocError> for RunError {
    ghost from_gives = { λ _ r. r ≡ Memory };

    fn from(_e: AllocError) -> RunError {
        RunError::Memory
    }
}

/// The two ends of a connection, and what is between them.
#[derive(Debug, Drop)]
pub struct Connection {
    ends: Ends,
}

impl Model for Connection {
    ghost use Rattle.qpack_connection.specs.Connections.{Connection as Ends};
    ghost use Rattle.qpack_connection.specs.ConnectionEvents.{IsReached};

    ghost Value = { Ends };

    ghost view = { λ c. c.ends };

    ghost invariant = { λ c. IsReached c.ends };
}

impl Connection {
    /// Returns a connection on which nothing has happened. Both tables have capacity 0 until the encoding end announces
    /// another, before the first section (RFC 9204, section 3.2.3). Fails if the maximum capacity is 2^30 bytes or
    /// more, then if the limit is 65,535 blocked streams or more. Takes no memory.
    pub fn new(alloc: Global, settings: ConnectionSettings) -> Result<Connection, SettingsError>
        ensures ok { IfOk result (λ c. BeginsWith settings c) }
        ensures err { IfErr result (FailsSettings settings.decoder) }
    {
        let ends = Ends::new(alloc, settings)?;
        Ok(Connection { ends })
    }

    /// Performs an event, and returns its outcome. An event outside what the two ends do is skipped. If there was no
    /// room for it, or its outcome is out of memory, you can pass the event again.
    pub fn step(&mut self, event: Event) -> Outcome
        // It is one call of an end, and what that makes of the connection; or it is skipped, exactly for its reason, or
        // there was no room for what is kept of it, and nothing changes.
        ensures goes { Goes self.old self.new event result }
        // The call returns what the theorem of two ends says: neither end refuses what the other sent, and a section is
        // decoded exactly to what was passed to its encode, or waits while fewer insertions were received than it
        // requires.
        ensures answers { AnswersEvent self.old self.new event result }
        // No error ended an end; no more sections are blocked, and no more streams wait, than may; and the encoding end
        // takes no insertion for received that was not.
        ensures within { IsWithin self.new.decoder.settings.max_blocked self.new }
    {
        self.recall_events();
        self.ends.perform(event)
    }

    /// Performs the events one by one, and appends the outcome of each. There is room for them.
    fn step_all(&mut self, events: Vec<Event>, outcomes: &mut Vec<Outcome>)
        requires room { vec_len outcomes.old + length events.items ≤ vec_capacity outcomes.old }
        ensures { StepsAll self.old self.new events.items outcomes.old.items outcomes.new.items }
    {
        for event in events {
            outcomes.push_reserved(self.step(event));
        }
    }

    /// Calls led to the connection: this is known of each.
    fn recall_events(&self)
        ensures { IsReached self.now }
    {
        let _ = &self.ends;
    }

    /// Returns the encoding end. What it has to send is all of the encoder stream, from the start.
    pub fn encoder(&self) -> &ConnectionEncoder
        ensures { result.now ≡ record self.now.encoder { unsent = self.now.encoder_stream.written } }
    {
        self.ends.encoder()
    }

    /// Returns the decoding end. What it has to send is all of the decoder stream, from the start.
    pub fn decoder(&self) -> &ConnectionDecoder
        ensures { end_of result.now ≡ record self.now.decoder { unsent = self.now.decoder_stream.written } }
    {
        self.ends.decoder()
    }
}

/// Begins a connection and performs the events in turn. Returns the connection after them and the outcome of each.
/// Fails as `Connection::new` does if it rejects the settings, and if there is no memory for the outcomes.
pub fn run(
    alloc: Global,
    settings: ConnectionSettings,
    events: Vec<Event>,
) -> Result<(Connection, Vec<Outcome>), RunError>
    ensures err { IfErr result (RefusesRun settings) }
    // The events in turn, each with its outcome, lead from a new connection of these settings to the one that is
    // returned.
    ensures goes { IfOk result (λ p. GoesFrom settings events.items p.1.items p.0) }
    // The headline, by events and outcomes alone: on each stream each decode returns exactly the fields of the next
    // section that was passed to an encode, with their marks, and waits exactly while fewer insertions were received
    // than that encode returned. No end refuses what the other sent, no other error is returned than may be, each skip
    // has its reason, and no more streams wait than may.
    ensures headline { IfOk result (λ p. EventsAnswerWhatWasHanded settings events.items p.1.items) }
    // The theorem of two ends: neither end refuses what the other sent, each section is decoded exactly to what was
    // passed to its encode, or waits while fewer insertions were received than it requires, and no more streams are
    // blocked than may be.
    ensures answers { IfOk result (λ p. AnswerWhatWasHanded settings events.items p.1.items p.0) }
{
    let mut connection = Connection::new(alloc, settings)?;
    let mut outcomes = Vec::with_capacity(alloc, events.len())?;
    connection.step_all(events, &mut outcomes);
    Ok((connection, outcomes))
}
