//! A request stream of a connection: its sections, and what became of them.

ghost use Rattle.std.specs.Prelude.{◌≡◌, ◌<◌, [], length, true, false, IfOk, OnErr, IfSome, IfNone, None};
ghost use Rattle.qpack_rules.specs.Session.{oldest_undecoded};
ghost use Rattle.qpack_connection.specs.OwnedLines.{lines_of};
ghost use Rattle.qpack_connection.specs.ConnectionEvents.{Sends, HasBytes, decoded_with};

use crate::connection::fields::{OwnedFieldLine, recall_fields, recall_length};
use qpack_base::coding::NoMemory;
use qpack_ends::encoder::{ConnectionEncoder, EncodingError};
use std::alloc::Global;
use std::marker::Model;

/// A section that the encoding end wrote.
#[derive(Debug, Drop)]
pub(super) struct Section {
    /// The fields that were passed to its encode.
    fields: Vec<OwnedFieldLine>,
    bytes: Vec<u8>,
    /// Its required insert count.
    required: usize,
}

impl Model for Section {
    ghost use Rattle.qpack_connection.specs.Connections.{SentSection};
    ghost use Rattle.qpack_connection.specs.OwnedLines.{lines_of};

    ghost Value = { SentSection };

    ghost view = { λ s. record { fields = lines_of s.fields.items; bytes = s.bytes.items; required = s.required } };
}

impl Section {
    /// Returns the bytes.
    fn bytes(&self) -> &[u8]
        ensures { result.now ≡ self.now.bytes }
    {
        &self.bytes
    }
}

/// A request stream.
#[derive(Debug, Drop)]
pub(super) struct Stream {
    sections: Vec<Section>,
    decoded: usize,
    /// How many of the decoded sections were acknowledged.
    acknowledged: usize,
    cancelled: bool,
}

impl Model for Stream {
    ghost use Rattle.std.specs.Prelude.{◌≤◌, length};
    ghost use Rattle.qpack_rules.specs.Session.{RequestStream};
    ghost use Rattle.qpack_connection.specs.Connections.{SentSection};

    ghost Value = { RequestStream SentSection };

    ghost view = { λ s. record {
      blocks = s.sections.items;
      decoded = s.decoded;
      acknowledged = s.acknowledged;
      cancelled = s.cancelled;
    } };

    ghost invariant = { λ s. (s.acknowledged ≤ s.decoded) × (s.decoded ≤ length s.sections.items) };
}

impl Stream {
    /// Returns a stream that was never used.
    pub(super) fn new(alloc: Global) -> Stream
        ensures { result ≡ record { blocks = []; decoded = 0; acknowledged = 0; cancelled = false } }
    {
        Stream {
            sections: Vec::new(alloc),
            decoded: 0,
            acknowledged: 0,
            cancelled: false,
        }
    }

    /// Returns whether it is cancelled.
    pub(super) fn is_cancelled(&self) -> bool
        ensures { result ≡ self.now.cancelled }
    {
        self.cancelled
    }

    /// Returns the bytes of the oldest section that was not decoded.
    pub(super) fn oldest_undecoded(&self) -> Option<&[u8]>
        ensures found { IfSome result (λ bytes. HasBytes (oldest_undecoded self.now) bytes.now) }
        ensures none { IfNone result (oldest_undecoded self.now ≡ None) }
    {
        let section = self.sections.get(self.decoded)?;
        Some(section.bytes())
    }

    /// Marks the oldest section that was not decoded as decoded. It required this many insertions; one that required
    /// any was acknowledged.
    pub(super) fn mark_decoded(&mut self, required: usize)
        requires { self.old.decoded < length self.old.blocks }
        ensures { self.new ≡ decoded_with required self.old }
    {
        if required > 0 {
            self.acknowledged += 1;
        }
        self.decoded += 1;
    }

    /// Marks the stream as cancelled.
    pub(super) fn mark_cancelled(&mut self)
        ensures { self.new ≡ record self.old { cancelled = true } }
    {
        self.cancelled = true;
    }

    /// Encodes a section of the fields, and keeps it (RFC 9204, section 2.1). It makes room for it first: if memory is
    /// refused for that, the encoding end is not called, and nothing changes.
    pub(super) fn encode(
        &mut self,
        alloc: Global,
        number: u64,
        encoder: &mut ConnectionEncoder,
        fields: Vec<OwnedFieldLine>,
    ) -> Result<Result<usize, EncodingError>, NoMemory>
        ensures ok { IfOk result (λ answer. Sends number (lines_of fields.items) encoder.old encoder.new self.old
            self.new answer) }
        ensures err { OnErr result (self.new ≡ self.old) }
        ensures not_called { OnErr result (encoder.new ≡ encoder.old) }
    {
        self.sections.reserve(1)?;
        recall_fields(&fields);
        let mut bytes = Vec::new(alloc);
        let answer = encoder.encode(number, &fields, &mut bytes);
        recall_length(encoder.encoder_stream());
        if let Ok(required) = answer {
            self.sections.push_reserved(Section {
                fields,
                bytes,
                required,
            });
        }
        Ok(answer)
    }
}
