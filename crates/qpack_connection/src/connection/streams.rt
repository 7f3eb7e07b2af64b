//! The request streams of a connection, found by their numbers.

ghost use Rattle.std.specs.Prelude.{◌≡◌, ◌<◌, [], None, Some, true, false, length, IfSome, IfNone, IfOk};
ghost use Rattle.std.specs.Prelude.{IfErr, OnOk, OnErr};
ghost use Rattle.qpack_rules.specs.Session.{stream_at, oldest_undecoded};
ghost use Rattle.qpack_codec.specs.RequestStreams.{ChangesStream, KeepsStreams, IsOpen};
ghost use Rattle.qpack_connection.specs.OwnedLines.{lines_of};
ghost use Rattle.qpack_connection.specs.ConnectionEvents.{SendsAmong, HasBytes, decoded_with, decode_skip, cancel_skip};

use crate::connection::Skip;
use crate::connection::fields::OwnedFieldLine;
use crate::connection::stream::Stream;
use qpack_base::coding::NoMemory;
use qpack_ends::encoder::{ConnectionEncoder, EncodingError};
use std::alloc::Global;
use std::collections::BTreeMap;
use std::marker::Model;

/// The request streams that were used.
#[derive(Debug, Drop)]
pub(super) struct Streams {
    by_number: BTreeMap<u64, Stream>,
}

impl Model for Streams {
    ghost use Rattle.std.specs.Prelude.{ℕ, List};
    ghost use Rattle.qpack_rules.specs.Session.{RequestStream};
    ghost use Rattle.qpack_connection.specs.Connections.{SentSection};

    ghost Value = { List (ℕ × RequestStream SentSection) };

    ghost view = { λ s. s.by_number.entries };
}

impl Streams {
    /// Returns an empty list of streams.
    pub(super) fn new(alloc: Global) -> Streams
        ensures { result ≡ [] }
    {
        Streams {
            by_number: BTreeMap::new(alloc),
        }
    }

    /// Returns a stream, if there is room for it.
    fn get(&self, number: u64) -> Option<&Stream>
        ensures found { IfSome result (λ stream. stream.now ≡ stream_at self.now number) }
        ensures none { IfNone result (stream_at self.now number
            ≡ record { blocks = []; decoded = 0; acknowledged = 0; cancelled = false }) }
    {
        self.by_number.get(&number)
    }

    /// Makes room for a stream. The streams do not change.
    pub(super) fn open(&mut self, alloc: Global, number: u64) -> Result<(), NoMemory>
        ensures same { KeepsStreams self.old self.new }
        ensures open { OnOk result (IsOpen number self.new) }
    {
        if self.by_number.contains_key(&number) {
            return Ok(());
        }
        self.by_number.insert(number, Stream::new(alloc))?;
        Ok(())
    }

    /// Marks the oldest section of a stream that was not decoded as decoded. It required this many insertions.
    pub(super) fn mark_decoded(&mut self, number: u64, required: usize)
        requires { (stream_at self.old number).decoded < length (stream_at self.old number).blocks }
        ensures { ChangesStream number (decoded_with required (stream_at self.old number)) self.old self.new }
    {
        if let Some(stream) = self.by_number.get_mut(&number) {
            stream.mark_decoded(required);
        }
    }

    /// Marks a stream as cancelled.
    pub(super) fn mark_cancelled(&mut self, number: u64)
        requires { IsOpen number self.old }
        ensures { ChangesStream number (record (stream_at self.old number) { cancelled = true }) self.old self.new }
    {
        if let Some(stream) = self.by_number.get_mut(&number) {
            stream.mark_cancelled();
        }
    }

    /// Returns the bytes of the oldest section of a stream that was not decoded, or why a decode of it is skipped.
    pub(super) fn next_section(&self, number: u64) -> Result<&[u8], Skip>
        ensures found { IfOk result (λ bytes. HasBytes (oldest_undecoded (stream_at self.now number)) bytes.now) }
        ensures live { OnOk result (decode_skip (stream_at self.now number) ≡ None) }
        ensures skipped { IfErr result (λ why. decode_skip (stream_at self.now number) ≡ Some why) }
    {
        let Some(stream) = self.get(number) else {
            return Err(Skip::NothingToDecode);
        };
        if stream.is_cancelled() {
            return Err(Skip::StreamCancelled);
        }
        match stream.oldest_undecoded() {
            Some(bytes) => Ok(bytes),
            None => Err(Skip::NothingToDecode),
        }
    }

    /// Returns why a cancellation of a stream is skipped, if it is.
    pub(super) fn cancel_skip(&self, number: u64) -> Option<Skip>
        ensures { result ≡ cancel_skip (stream_at self.now number) }
    {
        match self.get(number) {
            Some(stream) if stream.is_cancelled() => Some(Skip::StreamCancelled),
            _ => None,
        }
    }

    /// Encodes a section of the fields for a stream, and keeps it (RFC 9204, section 2.1). If memory is refused to keep
    /// it, the encoding end is not called, and nothing changes.
    pub(super) fn encode(
        &mut self,
        alloc: Global,
        number: u64,
        encoder: &mut ConnectionEncoder,
        fields: Vec<OwnedFieldLine>,
    ) -> Result<Result<usize, EncodingError>, NoMemory>
        ensures ok { IfOk result (λ answer. SendsAmong number (lines_of fields.items) encoder.old encoder.new self.old
            self.new answer) }
        ensures err { OnErr result (KeepsStreams self.old self.new) }
        ensures not_called { OnErr result (encoder.new ≡ encoder.old) }
    {
        self.open(alloc, number)?;
        let Some(stream) = self.by_number.get_mut(&number) else {
            return Err(NoMemory);
        };
        stream.encode(alloc, number, encoder, fields)
    }
}
