//! The events of a session, one by one.

ghost use Rattle.std.specs.Prelude.{◌+◌, ◌≤◌, length, vec_len, vec_capacity};
ghost use Rattle.qpack_rules.specs.Session.{Encode, Decode, ToDecoder, ToEncoder, Acknowledge, Cancel, ChangeCapacity};
ghost use Rattle.h3_qpack.specs.Sessions.{Follows, event_of};
ghost use Rattle.h3_qpack.specs.SessionMemory.{IsAskedFor};
ghost use Rattle.h3_qpack.specs.SessionRuns.{PerformsAll};
ghost use Rattle.qpack_codec.specs.Stateless.{fields_in};

use crate::session::bytes::recall_fields;
use crate::session::offered::{delivered_after, offered};
use crate::session::{Event, Outcome, Session};
use qpack_base::coding::Cursor;
use qpack_base::field::HeaderField;
use qpack_codec::decoder::ack_header;

impl Session {
    /// Performs the events one by one, and appends the outcome of each. There is room for them.
    pub(super) fn perform_all(&mut self, events: &[Event], outcomes: &mut Vec<Outcome>)
        requires room { vec_len outcomes.old + length events.now ≤ vec_capacity outcomes.old }
        ensures { PerformsAll self.old self.new events.now outcomes.old.items outcomes.new.items }
    {
        for event in events {
            outcomes.push_reserved(self.perform(event));
        }
    }

    /// Performs an event.
    pub(super) fn perform(&mut self, event: &Event) -> Outcome
        ensures goes { Follows self.old self.new (event_of event.now) result }
        ensures asks { IsAskedFor self.old self.new (event_of event.now) result }
    {
        match event {
            Event::Encode(stream, fields) => self.encode(*stream, fields),
            Event::Decode(stream) => self.decode(*stream),
            Event::ToDecoder(count) => self.deliver_to_decoder(*count),
            Event::ToEncoder(count) => self.deliver_to_encoder(*count),
            Event::Ack(stream) => self.acknowledge(*stream),
            Event::Cancel(stream) => self.cancel(*stream),
            Event::SetCapacity(capacity) => self.change_capacity(*capacity),
        }
    }

    /// Encodes a block of the fields for a stream.
    pub(super) fn encode(&mut self, number: u64, fields: &[HeaderField]) -> Outcome
        ensures goes { Follows self.old self.new (Encode number (fields_in fields.now)) result }
        ensures asks { IsAskedFor self.old self.new (Encode number (fields_in fields.now)) result }
    {
        recall_fields(fields);
        if let Some(reason) = self.streams.encode_skip(number) {
            return Outcome::Skipped(reason);
        }
        let alloc = self.encoder.table().allocator();
        Outcome::Encoded(
            self.streams.encode(
                alloc,
                number,
                &mut self.encoder,
                &mut self.encoder_stream,
                fields,
            ),
        )
    }

    /// Decodes the oldest undecoded block of a stream.
    pub(super) fn decode(&mut self, number: u64) -> Outcome
        ensures goes { Follows self.old self.new (Decode number) result }
        ensures asks { IsAskedFor self.old self.new (Decode number) result }
    {
        let bytes = match self.streams.next_block(number) {
            Ok(bytes) => bytes,
            Err(reason) => return Outcome::Skipped(reason),
        };
        match self.decoder.decode_header(&mut Cursor::new(bytes)) {
            Ok(decoded) => {
                self.streams.mark_decoded(number);
                Outcome::Decoded(Ok(decoded))
            }
            Err(e) => Outcome::Decoded(Err(e)),
        }
    }

    /// Delivers this many more bytes of the encoder stream to the decoder, after those that it left.
    pub(super) fn deliver_to_decoder(&mut self, count: usize) -> Outcome
        ensures goes { Follows self.old self.new (ToDecoder count) result }
        ensures asks { IsAskedFor self.old self.new (ToDecoder count) result }
    {
        let len = self.encoder_stream.len();
        let delivered = delivered_after(self.encoder_stream_delivered, count, len);
        let offered = offered(&self.encoder_stream, self.encoder_stream_taken, delivered);
        let mut offered = Cursor::new(offered);
        let answer = self
            .decoder
            .on_encoder_recv(&mut offered, &mut self.decoder_stream);
        self.encoder_stream_delivered = delivered;
        self.encoder_stream_taken += offered.position();
        Outcome::Delivered(answer)
    }

    /// Delivers this many more bytes of the decoder stream to the encoder, after those that it left.
    pub(super) fn deliver_to_encoder(&mut self, count: usize) -> Outcome
        ensures goes { Follows self.old self.new (ToEncoder count) result }
        ensures asks { IsAskedFor self.old self.new (ToEncoder count) result }
    {
        let len = self.decoder_stream.len();
        let delivered = delivered_after(self.decoder_stream_delivered, count, len);
        let offered = offered(&self.decoder_stream, self.decoder_stream_taken, delivered);
        let mut offered = Cursor::new(offered);
        let answer = self.encoder.on_decoder_recv(&mut offered);
        self.decoder_stream_delivered = delivered;
        self.decoder_stream_taken += offered.position();
        Outcome::Heard(answer)
    }

    /// Acknowledges the oldest decoded block of a stream that requires an entry.
    pub(super) fn acknowledge(&mut self, number: u64) -> Outcome
        ensures goes { Follows self.old self.new (Acknowledge number) result }
        ensures asks { IsAskedFor self.old self.new (Acknowledge number) result }
    {
        if let Some(reason) = self.streams.acknowledgment_skip(number) {
            return Outcome::Skipped(reason);
        }
        match ack_header(number, &mut self.decoder_stream) {
            Ok(()) => {
                self.streams.mark_acknowledged(number);
                Outcome::Acknowledged(Ok(()))
            }
            Err(e) => Outcome::Acknowledged(Err(e)),
        }
    }

    /// Cancels a stream.
    pub(super) fn cancel(&mut self, number: u64) -> Outcome
        ensures goes { Follows self.old self.new (Cancel number) result }
        ensures asks { IsAskedFor self.old self.new (Cancel number) result }
    {
        if let Some(reason) = self.streams.cancellation_skip(number) {
            return Outcome::Skipped(reason);
        }
        let alloc = self.encoder.table().allocator();
        Outcome::Cancelled(self.streams.cancel(alloc, number, &mut self.decoder_stream))
    }

    /// Sets the encoder's capacity in bytes, and writes it.
    pub(super) fn change_capacity(&mut self, capacity: usize) -> Outcome
        ensures goes { Follows self.old self.new (ChangeCapacity capacity) result }
        ensures asks { IsAskedFor self.old self.new (ChangeCapacity capacity) result }
    {
        Outcome::CapacitySet(
            self.encoder
                .set_capacity(capacity, &mut self.encoder_stream),
        )
    }
}
