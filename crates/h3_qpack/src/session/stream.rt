//! A request stream of a session: its blocks, and what became of them.

ghost use Rattle.std.specs.Prelude.{◌≡◌, ◌+◌, ◌<◌, ◌∷◌, [], ◌++◌, true, false, length, IfSome, IfNone, IfOk, IfErr};
ghost use Rattle.std.specs.Prelude.{OnErr, None, Some};
ghost use Rattle.std.specs.Prelude.{slice_get};
ghost use Rattle.qpack_rules.specs.Session.{awaits_acknowledgment, oldest_undecoded};
ghost use Rattle.h3_qpack.specs.Sessions.{stored_requires_entry, HasBytes, WritesBlock, GivesUp};
ghost use Rattle.qpack_codec.specs.Stateless.{fields_in};
ghost use Rattle.qpack_codec.specs.declared.error.EncoderError.TheVariants.{Memory};

use qpack_base::field::HeaderField;
use qpack_codec::encoder::{Encoder, EncoderError};
use std::alloc::Global;
use std::marker::Model;

/// A block that an encoder wrote.
#[derive(Debug, Drop)]
pub(super) struct Block {
    bytes: Vec<u8>,
    /// Its required insert count.
    required: usize,
}

impl Model for Block {
    ghost use Rattle.h3_qpack.specs.Sessions.{StoredBlock};

    ghost Value = { StoredBlock };

    ghost view = { λ b. record { bytes = b.bytes.items; required = b.required } };
}

impl Block {
    /// Returns the bytes.
    pub(super) fn bytes(&self) -> &[u8]
        ensures { result.now ≡ self.now.bytes }
    {
        &self.bytes
    }
}

/// A request stream.
#[derive(Debug, Drop)]
pub(super) struct Stream {
    blocks: Vec<Block>,
    decoded: usize,
    /// How many of the decoded blocks require an entry.
    dynamic: usize,
    /// How many of those are acknowledged.
    acknowledged: usize,
    cancelled: bool,
}

impl Model for Stream {
    ghost use Rattle.h3_qpack.specs.Sessions.{StoredStream, CountsDecoded};

    ghost Value = { StoredStream };

    ghost view = { λ s. record {
      blocks = s.blocks.items;
      decoded = s.decoded;
      acknowledged = s.acknowledged;
      cancelled = s.cancelled;
    } };

    ghost invariant = { λ s. CountsDecoded s.blocks.items s.decoded s.dynamic };
}

impl Stream {
    /// Returns a stream that was never used.
    pub(super) fn new(alloc: Global) -> Stream
        ensures { result ≡ record { blocks = []; decoded = 0; acknowledged = 0; cancelled = false } }
    {
        Stream {
            blocks: Vec::new(alloc),
            decoded: 0,
            dynamic: 0,
            acknowledged: 0,
            cancelled: false,
        }
    }

    /// Returns how many blocks it has.
    pub(super) fn len(&self) -> usize
        ensures { result ≡ length self.now.blocks }
    {
        self.blocks.len()
    }

    /// Returns the bytes of a block, the first being 0.
    pub(super) fn block(&self, position: usize) -> Option<&[u8]>
        ensures found { IfSome result (λ bytes. HasBytes (slice_get self.now.blocks position) bytes.now) }
        ensures none { IfNone result (slice_get self.now.blocks position ≡ None) }
    {
        let block = self.blocks.get(position)?;
        Some(block.bytes())
    }

    /// Returns whether it is cancelled.
    pub(super) fn is_cancelled(&self) -> bool
        ensures { result ≡ self.now.cancelled }
    {
        self.cancelled
    }

    /// Returns the bytes of the oldest undecoded block.
    pub(super) fn oldest_undecoded(&self) -> Option<&[u8]>
        ensures found { IfSome result (λ bytes. HasBytes (oldest_undecoded self.now) bytes.now) }
        ensures none { IfNone result (oldest_undecoded self.now ≡ None) }
    {
        self.block(self.decoded)
    }

    /// Returns whether a decoded block that requires an entry is to be acknowledged.
    pub(super) fn awaits_acknowledgment(&self) -> bool
        ensures { result ≡ awaits_acknowledgment stored_requires_entry self.now }
    {
        self.acknowledged < self.dynamic
    }

    /// Marks the oldest undecoded block as decoded.
    pub(super) fn mark_decoded(&mut self)
        requires { self.old.decoded < length self.old.blocks }
        ensures { self.new ≡ record self.old { decoded = self.old.decoded + 1 } }
    {
        if self.blocks[self.decoded].required > 0 {
            self.dynamic += 1;
        }
        self.decoded += 1;
    }

    /// Marks the oldest block that is to be acknowledged as acknowledged.
    pub(super) fn mark_acknowledged(&mut self)
        requires { awaits_acknowledgment stored_requires_entry self.old ≡ true }
        ensures { self.new ≡ record self.old { acknowledged = self.old.acknowledged + 1 } }
    {
        self.acknowledged += 1;
    }

    /// Marks the stream as cancelled.
    pub(super) fn mark_cancelled(&mut self)
        ensures { self.new ≡ record self.old { cancelled = true } }
    {
        self.cancelled = true;
    }

    /// Encodes a block of the fields, and keeps it (RFC 9204, section 2.1). It makes room for it first. On error, which
    /// is for memory only, no block is kept.
    pub(super) fn encode(
        &mut self,
        alloc: Global,
        number: u64,
        encoder: &mut Encoder,
        encoder_stream: &mut Vec<u8>,
        fields: &[HeaderField],
    ) -> Result<usize, EncoderError>
        ensures ok { IfOk result (WritesBlock number (fields_in fields.now) encoder.old encoder.new
            encoder_stream.old.items encoder_stream.new.items self.old self.new) }
        ensures err { OnErr result (GivesUp (fields_in fields.now) encoder.old encoder.new encoder_stream.old.items
            encoder_stream.new.items) }
        ensures as_before { OnErr result (self.new ≡ self.old) }
        ensures memory { IfErr result (λ e. e ≡ Memory) }
    {
        self.blocks.reserve(1)?;
        let mut bytes = Vec::new(alloc);
        let required = encoder.encode(number, &mut bytes, encoder_stream, fields.iter())?;
        self.blocks.push_reserved(Block { bytes, required });
        Ok(required)
    }
}
