//! The decoding end of a connection, made from what it sends as its settings (RFC 9204, sections 2.2, 4.4 and 5).

ghost use Rattle.std.specs.Prelude.{◌≡◌, ◌<◌, ◌≤◌, ◌^◌, ◌-◌, None, Some, Err, OnOk, OnErr, IfOk, IfErr, IfSome};
ghost use Rattle.std.specs.Prelude.{ℕ, List, [], drop, length, ⊤};
ghost use Rattle.std.specs.Borrow.{sem, follows_so};
ghost use mathlib.Core.Option.{none};
ghost use Rattle.qpack_spec.specs.StrictReading.{strict_reading};
ghost use Rattle.qpack_spec.specs.Table.{Table, empty_table, insert_count, window};
ghost use Rattle.qpack_decoding.specs.Blocked.{ready};
ghost use Rattle.qpack_decoding.specs.FieldSections.{GrowsWithin, IsRoomWithin};
ghost use Rattle.qpack_decoding.specs.Receiving.{Receives, AsksToReceive};
ghost use Rattle.qpack_decoding.specs.SectionPrefixes.{GivesPrefix, strict_prefix};
ghost use Rattle.qpack_decoding.specs.Decoders.{end_of, Begins, FailsSettings, Checks, Reports, Acknowledges};
ghost use Rattle.qpack_decoding.specs.Decoders.{BlocksStream, DecodesInto, Decodes, Cancels, refused};
ghost use Rattle.qpack_decoding.specs.Decoders.{code_of, stream_failure, ReceivesBytes, blocked_streams, TakesStream, with_report};
ghost use Rattle.qpack_decoding.specs.Decoders.{NeedsMemoryToDecode, unreported};
ghost use Rattle.qpack_decoding.specs.Decoders.{acknowledgment_of, answer_to, cancellation_of};
ghost use Rattle.qpack_shared.specs.Unsent.{LacksRoom, KeepsRoom, Appends, Drops};
ghost use Rattle.qpack_codec.specs.Receiving.{written_report};
ghost use Rattle.qpack_decoding.specs.contracts.decoder.ConnectionDecoder.{the_row};
ghost use Rattle.qpack_decoding.specs.declared.decoder.DecodingError.TheVariants.{Memory};
ghost use Rattle.qpack_shared.specs.declared.settings.SettingsError.TheVariants.{CapacityTooLarge};

use crate::blocked::{BlockedStream, BlockedStreams, NotBlocked};
use crate::encoder_stream::{ENCODER_STREAM_ERROR, EncoderStream, EncoderStreamError, Place};
use crate::field_section::FieldSection;
use crate::section::{
    DECOMPRESSION_FAILED, Reading, SectionError, SectionPrefix, read_prefix, read_section,
};
use crate::unsent::{self, report_len};
use qpack_base::coding::{Cursor, NoMemory};
use qpack_codec::DecoderError;
pub use qpack_shared::settings::SettingsError;
use qpack_shared::streams::STREAMS;
use qpack_shared::unsent::Unsent;
use qpack_table::dynamic::ReceivedPackedTable;
use std::alloc::Global;
use std::marker::Model;
use thiserror::Error;

mod reading;

/// What a decoding end sends as its settings (RFC 9204, section 5, and RFC 9114, section 7.2.4.1).
#[derive(Clone, Copy, Debug, PartialEq, Eq, Drop)]
pub struct DecoderSettings {
    /// SETTINGS_QPACK_MAX_TABLE_CAPACITY, in bytes, below 2^30: the greatest capacity that the peer may set.
    pub max_capacity: usize,
    /// SETTINGS_QPACK_BLOCKED_STREAMS, below 65,535: how many streams may be blocked at once.
    pub max_blocked: usize,
    /// SETTINGS_MAX_FIELD_SECTION_SIZE, in bytes: the greatest sum of the sizes of a section's fields.
    pub max_section_size: u64,
}

/// Why a call of a decoding end failed.
#[derive(Clone, Copy, Debug, PartialEq, Drop, Error)]
pub enum DecodingError {
    /// The encoder stream is rejected at an instruction.
    #[error("encoder stream: in instruction {} at offset {}: {error}", .place.number, .place.offset)]
    EncoderStream {
        /// Where the instruction is on the stream.
        place: Place,
        /// Why.
        error: DecoderError,
    },
    /// A section is rejected.
    #[error("field section of stream {stream}: {error}")]
    Section {
        /// The stream that it came on.
        stream: u64,
        /// Why.
        error: SectionError,
    },
    /// With this stream the limit of blocked streams would be exceeded (RFC 9204, section 2.1.2).
    #[error("stream {0} would be one blocked stream too many")]
    TooManyBlocked(u64),
    /// The stream number is invalid: it is 2^62 or more. Nothing was done.
    #[error("no stream has the number {0}")]
    NoStream(u64),
    /// Out of memory; you can call again.
    #[error("out of memory")]
    Memory,
}

/// The least limit of blocked streams that is rejected.
const BLOCKED_LIMITS: usize = 65_535;

impl DecodingError {
    /// Returns the code of the error that ends the connection (RFC 9204, section 6). Returns `None` for an error that
    /// does not end it: the reader's own limit, an invalid stream number, or out of memory.
    pub fn code(&self) -> Option<u64>
        ensures { result ≡ code_of self.now }
    {
        match self {
            DecodingError::EncoderStream { .. } => Some(ENCODER_STREAM_ERROR),
            DecodingError::Section { error, .. } => error.code(),
            DecodingError::TooManyBlocked(_) => Some(DECOMPRESSION_FAILED),
            DecodingError::NoStream(_) | DecodingError::Memory => None,
        }
    }

    /// Returns the error of an encoder stream.
    fn of_stream(error: EncoderStreamError) -> DecodingError
        ensures { result ≡ stream_failure error }
    {
        match error {
            EncoderStreamError::Refused { place, error } => {
                DecodingError::EncoderStream { place, error }
            }
            EncoderStreamError::Memory => DecodingError::Memory,
        }
    }
}

impl From<NoMemory> for DecodingError {
    ghost from_gives = { λ _ r. r ≡ Memory };

    fn from(_e: NoMemory) -> DecodingError {
        DecodingError::Memory
    }
}

/// The decoding end of a connection.
///
/// It takes the bytes of the encoder stream and the field sections of streams, and writes the decoder stream. An error
/// that has a code ends the connection: from then on every call that can fail returns that error.
#[derive(Debug, Drop)]
pub struct ConnectionDecoder {
    settings: DecoderSettings,
    table: ReceivedPackedTable,
    stream: EncoderStream,
    /// How many insertions increments and acknowledgments have reported.
    reported: usize,
    blocked: BlockedStreams,
    /// The bytes of the decoder stream that are not sent.
    unsent: Unsent,
    /// The error that ended the connection.
    failure: Option<DecodingError>,
}

impl Model for ConnectionDecoder {
    ghost use Rattle.qpack_decoding.specs.Decoders.{DecoderView, IsSound};

    ghost Value = { DecoderView };

    ghost view = { λ d. record {
      settings = d.settings;
      table = d.table;
      stream = d.stream;
      reported = d.reported;
      blocked = d.blocked;
      unsent = d.unsent;
      failure = d.failure;
    } };

    ghost invariant = { λ d. IsSound (record {
      settings = d.settings;
      table = d.table;
      stream = d.stream;
      reported = d.reported;
      blocked = d.blocked;
      unsent = d.unsent.bytes;
      failure = d.failure;
    }) };
}

impl ConnectionDecoder {
    /// Returns a decoding end that sends these settings. Its table has capacity 0 until the peer sets another (RFC
    /// 9204, section 3.2.3). Fails if the maximum capacity is 2^30 bytes or more, then if the limit is 65,535 blocked
    /// streams or more. Takes no memory.
    pub fn new(alloc: Global, settings: DecoderSettings) -> Result<ConnectionDecoder, SettingsError>
        ensures ok { IfOk result (λ d. Begins settings (end_of d)) }
        ensures room { IfOk result (λ d. d.unsent ≡ record { bytes = []; front = 0; capacity = 0 }) }
        ensures err { IfErr result (FailsSettings settings) }
    {
        let table = new_table(alloc, settings.max_capacity)?;
        if settings.max_blocked >= BLOCKED_LIMITS {
            return Err(SettingsError::BlockedTooLarge);
        }
        Ok(ConnectionDecoder {
            settings,
            table,
            stream: EncoderStream::new(alloc),
            reported: 0,
            blocked: BlockedStreams::new(alloc),
            unsent: Unsent::new(alloc),
            failure: None,
        })
    }

    /// Returns the settings.
    pub fn settings(&self) -> DecoderSettings
        ensures { result ≡ self.now.settings }
    {
        self.settings
    }

    /// Returns the table.
    pub fn table(&self) -> &ReceivedPackedTable
        ensures { result.now ≡ self.now.table }
    {
        &self.table
    }

    /// Returns the error that ended the connection, if one did.
    pub fn failure(&self) -> Option<DecodingError>
        ensures { result ≡ self.now.failure }
    {
        self.failure
    }

    /// Returns how many streams are blocked: those that still wait for insertions.
    pub fn blocked(&self) -> usize
        ensures exact { result ≡ blocked_streams (end_of self.now) }
        ensures few { result ≤ self.now.settings.max_blocked }
    {
        self.blocked.count(self.table.total_inserted())
    }

    /// Returns how many bytes of the encoder stream wait for the rest of their instruction.
    pub fn waiting(&self) -> usize
        ensures { result ≡ length self.now.stream.pending }
    {
        self.stream.waiting()
    }

    /// Returns the bytes of the decoder stream that are to be sent, in order (RFC 9204, section 4.4). At their end it
    /// writes increments, of 64 and one of the rest, for the insertions that nothing before reports (section 4.4.3). If
    /// memory is refused for these, a later call writes them.
    pub fn decoder_stream(&mut self) -> &[u8]
        ensures* takes { sem 𝓛 (follows_so the_row the_row self.entry.ghost_name none (λ _ _. ⊤)
            (λ now. TakesStream self.old now × (result.now ≡ now.unsent.bytes))) }
    {
        let _ = self.report();
        self.unsent.as_slice()
    }

    /// Returns how many bytes `decoder_stream` returns, unless memory is refused. It writes nothing.
    pub fn decoder_stream_len(&self) -> usize
        ensures { result ≡ length (with_report (end_of self.now)).unsent }
    {
        self.unsent.len() + report_len(self.unreported())
    }

    /// Drops this many bytes of the decoder stream, or all if there are fewer. Call this after they were sent. Once
    /// none is left, it keeps memory for at most 1,024 bytes.
    pub fn sent(&mut self, many: usize)
        ensures end { end_of self.new ≡ record (end_of self.old) { unsent = drop many self.old.unsent.bytes } }
        ensures unsent { Drops many self.old.unsent self.new.unsent }
    {
        self.unsent.sent(many);
    }

    /// Returns a blocked stream whose section can now be decoded. If there are several, it is the one that waited for
    /// the fewest insertions, and of those with as many the one with the lowest number.
    pub fn next_ready(&self) -> Option<u64>
        ensures { result ≡ ready (insert_count self.now.table) self.now.blocked }
    {
        self.blocked.ready(self.table.total_inserted())
    }

    /// Returns what the prefix of a field section says, as `read_prefix` reads it: with more insertions required than
    /// `table().total_inserted()`, `decode` returns `Reading::Blocked`. It changes nothing, and the rest of the section may
    /// be missing.
    pub fn prefix(&self, section: &[u8]) -> Result<SectionPrefix, SectionError>
        ensures { GivesPrefix result (strict_prefix (window self.now.table) section.now) }
    {
        read_prefix(&self.table, section)
    }

    /// Decodes a field section that came on a stream (RFC 9204, section 2.2), as `read_section` reads it, with the
    /// limit of the settings. Unless it returns `Reading::Fields`, `fields` is empty. If `fields` has room for all that
    /// the limit allows, reading the section asks for no memory.
    ///
    /// It acknowledges the fields of a section that requires insertions, and the stream is no longer blocked. Before the
    /// acknowledgment it writes increments for insertions not yet reported, unless the section requires all that were
    /// received: then the acknowledgment reports them (RFC 9204, section 2.1.4). It does not keep a blocked section. The stream counts as blocked
    /// while insertions are missing; once `next_ready` returns the stream, pass the section again.
    ///
    /// # Errors
    ///
    /// Fails, checking in this order, after an error that ended the connection, with that error; with `NoStream` if the
    /// stream number is invalid; with `Section` if `read_section` fails; and with `TooManyBlocked` if one stream too
    /// many would be blocked. After `Section` the stream is no longer blocked. Any other error without a code changes
    /// nothing, except that increments may have been written before memory ran out.
    pub fn decode(
        &mut self,
        stream: u64,
        section: &[u8],
        fields: &mut FieldSection,
    ) -> Result<Reading, DecodingError>
        ensures decodes { Decodes (end_of self.old) (end_of self.new) stream
            (strict_reading (window self.old.table) self.old.settings.max_section_size section.now) fields.new.fields result }
        // Memory is refused only if the section asks for it and `fields` has less room than the limit allows, if the
        // stream may become blocked and is not counted with this count, or if there is no room for the acknowledgment
        // and the increments before it.
        ensures memory { result ≡ Err Memory → NeedsMemoryToDecode self.old stream section.now fields.old }
        ensures unsent { KeepsRoom (length (answer_to stream
            (strict_reading (window self.old.table) self.old.settings.max_section_size section.now) (end_of self.old)))
            self.old.unsent self.new.unsent }
        ensures room { IsRoomWithin self.old.settings.max_section_size fields.old fields.new }
        // Memory is given back only if a section is rejected, and only what one within the limit can't use.
        ensures kept { OnOk result (GrowsWithin self.old.settings.max_section_size fields.old fields.new) }
    {
        fields.clear();
        self.check(stream)?;
        let reading = self.decode_into(stream, section, fields);
        if reading.is_err() {
            fields.clear();
        }
        reading
    }

    /// Cancels a stream. Call this when a stream is reset or you stop reading it. The stream is no longer blocked, and
    /// a cancellation is written, unless the maximum capacity is 0 (RFC 9204, section 2.2.2.2). You may call it for any
    /// stream. On error nothing changes.
    pub fn cancel(&mut self, stream: u64) -> Result<(), DecodingError>
        ensures cancels { Cancels (end_of self.old) (end_of self.new) stream result }
        // Memory is refused only if there is no room for the cancellation.
        ensures memory { result ≡ Err Memory
            → LacksRoom (length (cancellation_of stream (end_of self.old))) self.old.unsent }
        ensures unsent { KeepsRoom (length (cancellation_of stream (end_of self.old))) self.old.unsent self.new.unsent }
    {
        self.check(stream)?;
        if self.settings.max_capacity > 0 {
            unsent::write_cancellation(&mut self.unsent, stream)?;
        }
        self.blocked.forget(stream);
        Ok(())
    }

    /// Receives the bytes left at the cursor, which continue those of earlier calls and may be cut anywhere (RFC 9204,
    /// sections 4.2 and 4.3), as `EncoderStream::receive` does. Returns how many insertions were ever made;
    /// `decoder_stream` reports them.
    ///
    /// # Errors
    ///
    /// A rejected instruction ends the connection (`EncoderStream`); the instructions before it stay applied. After
    /// `Memory`, call again with the bytes left at the cursor, even if there are none.
    pub fn receive(&mut self, buf: &mut Cursor) -> Result<usize, DecodingError>
        ensures receives { self.old.failure ≡ None → (start : Table) (before : List ℕ)
            → Receives start self.old.table before self.old.stream
            → ReceivesBytes start before (end_of self.old) (end_of self.new) buf.old.rest buf.new.rest result }
        ensures ended { IfSome self.old.failure
            (λ e. (result ≡ Err e) × (self.new ≡ self.old) × (buf.new.rest ≡ buf.old.rest)) }
        // Memory is refused only for an instruction, or for bytes that are left.
        ensures memory { result ≡ Err Memory → AsksToReceive self.new.table buf.new.rest self.new.stream }
        ensures unsent { self.new.unsent ≡ self.old.unsent }
        ensures total { buf.new.total ≡ buf.old.total }
    {
        if let Some(failure) = self.failure {
            return Err(failure);
        }
        match self.stream.receive(&mut self.table, buf) {
            Ok(()) => Ok(self.table.total_inserted()),
            Err(error) => Err(self.refuse(DecodingError::of_stream(error))),
        }
    }

    /// Returns the error of a call for a stream, if the connection ended or the stream number is invalid.
    fn check(&self, stream: u64) -> Result<(), DecodingError>
        ensures checks { Checks (end_of self.now) stream result }
        ensures no_memory { result ≡ Err Memory → ⊥ }
    {
        if let Some(failure) = self.failure {
            return Err(failure);
        }
        if stream >= STREAMS {
            return Err(DecodingError::NoStream(stream));
        }
        Ok(())
    }

    /// Reads a section, and acts on the result. On error there may be fields in `fields`.
    fn decode_into(
        &mut self,
        stream: u64,
        section: &[u8],
        fields: &mut FieldSection,
    ) -> Result<Reading, DecodingError>
        ensures decodes { DecodesInto (end_of self.old) (end_of self.new) stream
            (strict_reading (window self.old.table) self.old.settings.max_section_size section.now) fields.new.fields result }
        ensures memory { result ≡ Err Memory → NeedsMemoryToDecode self.old stream section.now fields.old }
        ensures unsent { KeepsRoom (length (answer_to stream
            (strict_reading (window self.old.table) self.old.settings.max_section_size section.now) (end_of self.old)))
            self.old.unsent self.new.unsent }
        ensures room { IsRoomWithin self.old.settings.max_section_size fields.old fields.new }
        ensures kept { OnOk result (GrowsWithin self.old.settings.max_section_size fields.old fields.new) }
    {
        match read_section(&self.table, section, self.settings.max_section_size, fields) {
            Ok(Reading::Fields { required }) => {
                self.acknowledge(stream, required)?;
                Ok(Reading::Fields { required })
            }
            Ok(Reading::Blocked { required }) => {
                self.block(stream, required)?;
                Ok(Reading::Blocked { required })
            }
            Err(SectionError::Memory) => Err(DecodingError::Memory),
            Err(error) => {
                self.blocked.forget(stream);
                Err(self.refuse(DecodingError::Section { stream, error }))
            }
        }
    }

    /// Writes the acknowledgment of a section, if it requires insertions, and counts its stream as blocked no more. If the
    /// section requires fewer insertions than were received, increments come first.
    #[inline(always)]
    fn acknowledge(&mut self, stream: u64, required: usize) -> Result<(), DecodingError>
        ensures acknowledges { Acknowledges (end_of self.old) (end_of self.new) stream required result }
        ensures lacks { OnErr result
            (LacksRoom (length (acknowledgment_of stream required (end_of self.old))) self.old.unsent) }
        ensures room { KeepsRoom (length (acknowledgment_of stream required (end_of self.old))) self.old.unsent
            self.new.unsent }
    {
        if required > 0 {
            let inserted = self.table.total_inserted();
            if required < inserted {
                self.report()?;
            }
            unsent::write_acknowledgment(&mut self.unsent, stream)?;
            self.reported = inserted;
        }
        self.blocked.forget(stream);
        Ok(())
    }

    /// Marks a stream as blocked, or ends the connection if it is one too many.
    fn block(&mut self, stream: u64, required: usize) -> Result<(), DecodingError>
        ensures blocks { BlocksStream (end_of self.old) (end_of self.new) stream required result }
        ensures unsent { self.new.unsent ≡ self.old.unsent }
    {
        let blocked = BlockedStream { stream, required };
        let inserted = self.table.total_inserted();
        match self
            .blocked
            .block(blocked, inserted, self.settings.max_blocked)
        {
            Ok(()) => Ok(()),
            Err(NotBlocked::TooMany) => Err(self.refuse(DecodingError::TooManyBlocked(stream))),
            Err(NotBlocked::Memory) => Err(DecodingError::Memory),
        }
    }

    /// Writes increments for the insertions that are not reported.
    fn report(&mut self) -> Result<(), DecodingError>
        ensures reports { Reports (end_of self.old) (end_of self.new) result }
        ensures unsent { Appends (written_report (unreported (end_of self.old))) self.old.unsent self.new.unsent
            result }
    {
        let unreported = self.unreported();
        unsent::write_increments(&mut self.unsent, unreported)?;
        self.reported = self.table.total_inserted();
        Ok(())
    }

    /// Returns how many insertions were received and are not reported.
    fn unreported(&self) -> usize
        ensures { result ≡ unreported (end_of self.now) }
    {
        self.table.total_inserted().saturating_sub(self.reported)
    }

    /// Returns the error, and keeps it if it ends the connection.
    fn refuse(&mut self, error: DecodingError) -> DecodingError
        ensures is { result ≡ error }
        ensures ends { end_of self.new ≡ refused error (end_of self.old) }
        ensures unsent { self.new.unsent ≡ self.old.unsent }
    {
        if error.code().is_some() {
            self.failure = Some(error);
        }
        error
    }
}

/// Returns an empty table of capacity 0, with this maximum capacity.
fn new_table(alloc: Global, max_capacity: usize) -> Result<ReceivedPackedTable, SettingsError>
    ensures ok { IfOk result (λ t. (max_capacity < 2 ^ 30) × (t ≡ empty_table 0 (Some max_capacity) 0)) }
    ensures err { IfErr result (λ e. (e ≡ CapacityTooLarge) × (2 ^ 30 ≤ max_capacity)) }
{
    let mut table = ReceivedPackedTable::without_index(alloc);
    match table.set_agreed_max(max_capacity) {
        Ok(()) => Ok(table),
        Err(_) => Err(SettingsError::CapacityTooLarge),
    }
}
