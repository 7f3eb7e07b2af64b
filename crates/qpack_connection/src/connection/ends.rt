//! The two ends of a connection and what is between them, event by event.

ghost use Rattle.std.specs.Prelude.{◌≡◌, IfOk, IfErr};
ghost use Rattle.qpack_connection.specs.OwnedLines.{lines_of};
ghost use Rattle.qpack_connection.specs.ConnectionEvents.{BeginsWith, Goes, IsReached};
ghost use Rattle.qpack_decoding.specs.Decoders.{end_of, FailsSettings};
ghost use Rattle.qpack_connection.specs.declared.connection.Event.TheVariants.{Encode, SetCapacity, Shrink};
ghost use Rattle.qpack_connection.specs.declared.connection.Event.TheVariants.{ToDecoder, ToEncoder, Decode, Cancel};

use crate::connection::fields::OwnedFieldLine;
use crate::connection::offered::next_of;
use crate::connection::streams::Streams;
use crate::connection::{ConnectionSettings, Event, Outcome};
use qpack_base::coding::Cursor;
use qpack_ends::decoder::{ConnectionDecoder, SettingsError};
use qpack_ends::encoder::ConnectionEncoder;
use qpack_ends::field_section::FieldSection;
use qpack_ends::section::Reading;
use std::alloc::Global;
use std::marker::Model;

/// The two ends of a connection and what is between them. What an end has to send is all that it ever wrote: those are
/// the bytes of its instruction stream. How many of them were received is kept beside them.
#[derive(Debug, Drop)]
pub(super) struct Ends {
    encoder: ConnectionEncoder,
    decoder: ConnectionDecoder,
    encoder_stream_received: usize,
    decoder_stream_received: usize,
    streams: Streams,
}

impl Model for Ends {
    ghost use Rattle.qpack_connection.specs.Connections.{Connection};
    ghost use Rattle.qpack_connection.specs.ConnectionEvents.{connection_of};
    ghost use Rattle.qpack_decoding.specs.Decoders.{end_of};

    ghost Value = { Connection };

    ghost view = { λ e. connection_of e.encoder (end_of e.decoder) e.encoder_stream_received
        e.decoder_stream_received e.streams };
}

impl Ends {
    /// Returns two ends of which neither was called.
    pub(super) fn new(alloc: Global, settings: ConnectionSettings) -> Result<Ends, SettingsError>
        ensures ok { IfOk result (λ c. BeginsWith settings c) }
        ensures err { IfErr result (FailsSettings settings.decoder) }
    {
        Ok(Ends {
            decoder: ConnectionDecoder::new(alloc, settings.decoder)?,
            encoder: ConnectionEncoder::new(alloc, settings.encoder())?,
            encoder_stream_received: 0,
            decoder_stream_received: 0,
            streams: Streams::new(alloc),
        })
    }

    /// Performs an event.
    pub(super) fn perform(&mut self, event: Event) -> Outcome
        requires { IsReached self.old }
        ensures { Goes self.old self.new event result }
    {
        match event {
            Event::Encode(stream, fields) => self.encode(stream, fields),
            Event::SetCapacity(capacity) => self.set_capacity(capacity),
            Event::Shrink(capacity) => self.shrink(capacity),
            Event::ToDecoder(many) => self.deliver_to_decoder(many),
            Event::ToEncoder(many) => self.deliver_to_encoder(many),
            Event::Decode(stream) => self.decode(stream),
            Event::Cancel(stream) => self.cancel(stream),
        }
    }

    /// Encodes a section of the fields for a stream.
    fn encode(&mut self, number: u64, fields: Vec<OwnedFieldLine>) -> Outcome
        ensures { Goes self.old self.new (Encode number fields) result }
    {
        let alloc = self.encoder.table().allocator();
        let Ok(answer) = self
            .streams
            .encode(alloc, number, &mut self.encoder, fields)
        else {
            return Outcome::NoRoom;
        };
        Outcome::Encoded(answer)
    }

    /// Sets the capacity of the encoding end.
    fn set_capacity(&mut self, capacity: usize) -> Outcome
        ensures { Goes self.old self.new (SetCapacity capacity) result }
    {
        Outcome::CapacitySet(self.encoder.set_capacity(capacity))
    }

    /// Sets the capacity of the encoding end, now or as soon as no section needs what it evicts.
    fn shrink(&mut self, capacity: usize) -> Outcome
        ensures { Goes self.old self.new (Shrink capacity) result }
    {
        Outcome::CapacitySet(self.encoder.shrink(capacity))
    }

    /// Delivers this many more bytes of the encoder stream to the decoding end, after those that it received.
    fn deliver_to_decoder(&mut self, many: usize) -> Outcome
        requires { IsReached self.old }
        ensures { Goes self.old self.new (ToDecoder many) result }
    {
        let offered = next_of(
            self.encoder.encoder_stream(),
            self.encoder_stream_received,
            many,
        );
        let mut offered = Cursor::new(offered);
        let answer = self.decoder.receive(&mut offered);
        self.encoder_stream_received += offered.position();
        Outcome::Delivered(answer)
    }

    /// Delivers this many more bytes of the decoder stream to the encoding end, after those that it received.
    fn deliver_to_encoder(&mut self, many: usize) -> Outcome
        requires { IsReached self.old }
        ensures { Goes self.old self.new (ToEncoder many) result }
    {
        let offered = next_of(
            self.decoder.decoder_stream(),
            self.decoder_stream_received,
            many,
        );
        let mut offered = Cursor::new(offered);
        let answer = self.encoder.receive(&mut offered);
        self.decoder_stream_received += offered.position();
        Outcome::Heard(answer)
    }

    /// Passes the oldest section of a stream that was not decoded to the decoding end.
    fn decode(&mut self, number: u64) -> Outcome
        ensures { Goes self.old self.new (Decode number) result }
    {
        let section = match self.streams.next_section(number) {
            Ok(section) => section,
            Err(why) => return Outcome::Skipped(why),
        };
        let mut fields = FieldSection::new(self.encoder.table().allocator());
        match self.decoder.decode(number, section, &mut fields) {
            Ok(Reading::Fields { required }) => {
                self.streams.mark_decoded(number, required);
                Outcome::Decoded(Ok(Reading::Fields { required }), fields)
            }
            Ok(Reading::Blocked { required }) => {
                Outcome::Decoded(Ok(Reading::Blocked { required }), fields)
            }
            Err(e) => Outcome::Decoded(Err(e), fields),
        }
    }

    /// Gives a stream up. It makes room to keep that first.
    fn cancel(&mut self, number: u64) -> Outcome
        ensures { Goes self.old self.new (Cancel number) result }
    {
        if let Some(why) = self.streams.cancel_skip(number) {
            return Outcome::Skipped(why);
        }
        let alloc = self.encoder.table().allocator();
        if self.streams.open(alloc, number).is_err() {
            return Outcome::NoRoom;
        }
        match self.decoder.cancel(number) {
            Ok(()) => {
                self.streams.mark_cancelled(number);
                Outcome::Cancelled(Ok(()))
            }
            Err(e) => Outcome::Cancelled(Err(e)),
        }
    }

    /// Returns the encoding end. What it has to send is all that it ever wrote.
    pub(super) fn encoder(&self) -> &ConnectionEncoder
        ensures { result.now ≡ record self.now.encoder { unsent = self.now.encoder_stream.written } }
    {
        &self.encoder
    }

    /// Returns the decoding end. What it has to send is all that it ever wrote.
    pub(super) fn decoder(&self) -> &ConnectionDecoder
        ensures { end_of result.now ≡ record self.now.decoder { unsent = self.now.decoder_stream.written } }
    {
        &self.decoder
    }
}
