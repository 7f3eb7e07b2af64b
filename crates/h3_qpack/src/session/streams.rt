//! The request streams of a session, found by their numbers.

ghost use Rattle.std.specs.Prelude.{◌≡◌, ◌+◌, ◌<◌, ◌++◌, ℕ, [], None, Some, true, length, nat_eq, false, IfSome};
ghost use Rattle.std.specs.Prelude.{IfNone, IfOk, IfErr, OnOk, OnErr, if◌then◌else◌, IsSome};
ghost use Rattle.qpack_rules.specs.Session.{stream_at, awaits_acknowledgment, oldest_undecoded};
ghost use Rattle.qpack_codec.specs.RequestStreams.{ChangesStream, KeepsStreams, IsOpen};
ghost use Rattle.h3_qpack.specs.Sessions.{stored_requires_entry};
ghost use Rattle.h3_qpack.specs.Sessions.{WritesStream, GivesUp, HasBytes, encode_skip, decode_skip};
ghost use Rattle.h3_qpack.specs.Sessions.{acknowledgment_skip};
ghost use Rattle.h3_qpack.specs.Sessions.{cancellation_skip};
ghost use Rattle.qpack_spec.specs.Instruction.{Cancellation, written_decoder_instruction};
ghost use Rattle.qpack_codec.specs.Stateless.{fields_in};
ghost use Rattle.qpack_codec.specs.declared.error.EncoderError.TheVariants.{Memory};

use crate::session::stream::Stream;
use qpack_base::coding::NoMemory;
use qpack_base::field::HeaderField;
use qpack_codec::decoder::stream_canceled;
use qpack_codec::encoder::{Encoder, EncoderError};
use std::alloc::Global;
use std::collections::BTreeMap;
use std::marker::Model;

/// The numbers of streams are below this.
const STREAM_NUMBERS: u64 = 1 << 62;

/// Why an event is outside a lawful session: its stream number is too large.
const NUMBER_TOO_LARGE: u8 = 1;

/// Its stream has no undecoded block.
const NOTHING_TO_DECODE: u8 = 2;

/// Its stream is cancelled.
const STREAM_CANCELLED: u8 = 3;

/// No block of its stream is to be acknowledged.
const NOTHING_TO_ACKNOWLEDGE: u8 = 4;

/// The request streams that were used.
#[derive(Debug, Drop)]
pub(super) struct Streams {
    by_number: BTreeMap<u64, Stream>,
}

impl Model for Streams {
    ghost use Rattle.std.specs.Prelude.{ℕ, List};
    ghost use Rattle.h3_qpack.specs.Sessions.{StoredStream};

    ghost Value = { List (ℕ × StoredStream) };

    ghost view = { λ s. s.by_number.entries };
}

impl Streams {
    /// Returns an empty list of streams.
    pub(super) fn new(alloc: Global) -> Streams
        ensures { result ≡ [] }
    {
        Streams {
            by_number: BTreeMap::new(alloc),
        }
    }

    /// Returns a stream, if it was ever used.
    pub(super) fn get(&self, number: u64) -> Option<&Stream>
        ensures found { IfSome result (λ stream. stream.now ≡ stream_at self.now number) }
        ensures none { IfNone result (stream_at self.now number
            ≡ record { blocks = []; decoded = 0; acknowledged = 0; cancelled = false }) }
    {
        self.by_number.get(&number)
    }

    /// Makes room for a stream. The streams do not change.
    pub(super) fn open(&mut self, alloc: Global, number: u64) -> Result<(), NoMemory>
        ensures same { KeepsStreams self.old self.new }
        ensures open { OnOk result (IsOpen number self.new) }
    {
        if self.by_number.contains_key(&number) {
            return Ok(());
        }
        self.by_number.insert(number, Stream::new(alloc))?;
        Ok(())
    }

    /// Marks the oldest undecoded block of a stream as decoded.
    pub(super) fn mark_decoded(&mut self, number: u64)
        requires { (stream_at self.old number).decoded < length (stream_at self.old number).blocks }
        ensures { ChangesStream number (record (stream_at self.old number)
            { decoded = (stream_at self.old number).decoded + 1 }) self.old self.new }
    {
        if let Some(stream) = self.by_number.get_mut(&number) {
            stream.mark_decoded();
        }
    }

    /// Marks the oldest block of a stream that is to be acknowledged as acknowledged.
    pub(super) fn mark_acknowledged(&mut self, number: u64)
        requires { awaits_acknowledgment stored_requires_entry (stream_at self.old number) ≡ true }
        ensures { ChangesStream number (record (stream_at self.old number)
            { acknowledged = (stream_at self.old number).acknowledged + 1 }) self.old self.new }
    {
        if let Some(stream) = self.by_number.get_mut(&number) {
            stream.mark_acknowledged();
        }
    }

    /// Marks a stream as cancelled.
    pub(super) fn mark_cancelled(&mut self, number: u64)
        requires { IsOpen number self.old }
        ensures { ChangesStream number (record (stream_at self.old number) { cancelled = true }) self.old self.new }
    {
        if let Some(stream) = self.by_number.get_mut(&number) {
            stream.mark_cancelled();
        }
    }

    /// Cancels a stream, and writes it for the decoder stream (RFC 9204, section 4.4.2). On error neither is done.
    pub(super) fn cancel(
        &mut self,
        alloc: Global,
        number: u64,
        decoder_stream: &mut Vec<u8>,
    ) -> Result<(), NoMemory>
        ensures ok { OnOk result (ChangesStream number (record (stream_at self.old number) { cancelled = true })
            self.old self.new) }
        ensures writes { OnOk result (decoder_stream.new.items
            ≡ decoder_stream.old.items ++ written_decoder_instruction (Cancellation number)) }
        ensures err { OnErr result (KeepsStreams self.old self.new) }
        ensures as_before { OnErr result (decoder_stream.new.items ≡ decoder_stream.old.items) }
    {
        self.open(alloc, number)?;
        stream_canceled(number, decoder_stream)?;
        self.mark_cancelled(number);
        Ok(())
    }

    /// Returns the bytes of the oldest undecoded block of a stream, or why a decode of it is outside a lawful session.
    pub(super) fn next_block(&self, number: u64) -> Result<&[u8], u8>
        ensures found { IfOk result (λ bytes. HasBytes (oldest_undecoded (stream_at self.now number)) bytes.now) }
        ensures lawful { OnOk result (decode_skip self.now number ≡ None) }
        ensures skipped { IfErr result (λ reason. decode_skip self.now number ≡ Some reason) }
    {
        if number >= STREAM_NUMBERS {
            return Err(NUMBER_TOO_LARGE);
        }
        let Some(stream) = self.get(number) else {
            return Err(NOTHING_TO_DECODE);
        };
        if stream.is_cancelled() {
            return Err(STREAM_CANCELLED);
        }
        match stream.oldest_undecoded() {
            Some(bytes) => Ok(bytes),
            None => Err(NOTHING_TO_DECODE),
        }
    }

    /// Returns why a block for a stream is outside a lawful session, if it is.
    pub(super) fn encode_skip(&self, number: u64) -> Option<u8>
        ensures { result ≡ encode_skip number }
    {
        (number >= STREAM_NUMBERS).then_some(NUMBER_TOO_LARGE)
    }

    /// Returns why an acknowledgment on a stream is outside a lawful session, if it is.
    pub(super) fn acknowledgment_skip(&self, number: u64) -> Option<u8>
        ensures { result ≡ acknowledgment_skip self.now number }
    {
        if number >= STREAM_NUMBERS {
            return Some(NUMBER_TOO_LARGE);
        }
        let Some(stream) = self.get(number) else {
            return Some(NOTHING_TO_ACKNOWLEDGE);
        };
        if stream.is_cancelled() {
            return Some(STREAM_CANCELLED);
        }
        if stream.awaits_acknowledgment() {
            return None;
        }
        Some(NOTHING_TO_ACKNOWLEDGE)
    }

    /// Returns why a cancellation of a stream is outside a lawful session, if it is.
    pub(super) fn cancellation_skip(&self, number: u64) -> Option<u8>
        ensures { result ≡ cancellation_skip self.now number }
    {
        if number >= STREAM_NUMBERS {
            return Some(NUMBER_TOO_LARGE);
        }
        match self.get(number) {
            Some(stream) if stream.is_cancelled() => Some(STREAM_CANCELLED),
            _ => None,
        }
    }

    /// Encodes a block of the fields for a stream, and keeps it (RFC 9204, section 2.1). It makes room for it first. On
    /// error, which is `Memory` only, no block is kept.
    pub(super) fn encode(
        &mut self,
        alloc: Global,
        number: u64,
        encoder: &mut Encoder,
        encoder_stream: &mut Vec<u8>,
        fields: &[HeaderField],
    ) -> Result<usize, EncoderError>
        ensures ok { IfOk result (WritesStream number (fields_in fields.now) encoder.old encoder.new
            encoder_stream.old.items encoder_stream.new.items self.old self.new) }
        ensures err { OnErr result (GivesUp (fields_in fields.now) encoder.old encoder.new encoder_stream.old.items
            encoder_stream.new.items) }
        ensures as_before { OnErr result (KeepsStreams self.old self.new) }
        ensures memory { IfErr result (λ e. e ≡ Memory) }
    {
        self.open(alloc, number)?;
        let Some(stream) = self.by_number.get_mut(&number) else {
            return Err(EncoderError::Memory);
        };
        stream.encode(alloc, number, encoder, encoder_stream, fields)
    }
}
