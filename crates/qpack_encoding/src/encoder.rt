//! The encoding end of a connection, made from what the peer sent as its settings (RFC 9204, sections 2.1, 3.2.3 and
//! 5).

ghost use Rattle.std.specs.Prelude.{◌≡◌, ◌<◌, ◌≤◌, ◌^◌, None, Some, IfOk, IfErr, IfSome, List, [], ℕ, drop, length};
ghost use Rattle.std.specs.Prelude.{Err, OnOk, OnErr, IsSome, false, true, map, ◌+◌, ◌⊎◌, ◌++◌, vec_len, vec_capacity};
ghost use Rattle.qpack_spec.specs.Field.{fields_of_lines};
ghost use Rattle.qpack_spec.specs.Instruction.{DecoderInstruction};
ghost use Rattle.qpack_spec.specs.Table.{empty_table, insert_count};
ghost use Rattle.qpack_spec.specs.Text.{WhereShorter};
ghost use Rattle.qpack_encoding.specs.Hearing.{Receives};
ghost use Rattle.qpack_encoding.specs.Encoders.{Starts, first_capacity, code_of, capacity_failure, SetsCapacity, Shrinks};
ghost use Rattle.qpack_encoding.specs.Encoders.{TellsCapacity, Begins, ReceivesBytes, Checks, is_alone, written_alone};
ghost use Rattle.qpack_encoding.specs.Encoders.{is_held, pending_capacity};
ghost use Rattle.qpack_encoding.specs.Encoders.{Encodes, begun, may_block, AsksToEncode, HasNoRoomAlone, IsDue};
ghost use Rattle.qpack_encoding.specs.Encoders.{TakesPeer, peer_refusal, refused};
ghost use Rattle.qpack_encoding.specs.Risk.{streams_at_risk, with_limit, limit_for};
ghost use Rattle.qpack_encoding.specs.declared.choosing.Chooser.{Chooser as State};
ghost use Rattle.qpack_encoding.specs.Wishes.{by_wish};
ghost use Rattle.qpack_codec.specs.ChosenSections.{EncodesAlong, EncodesChosen, GivesUpChosen};
ghost use Rattle.qpack_codec.specs.Encoding.{instructions_room};
ghost use Rattle.qpack_shared.specs.Unsent.{KeepsRoom};
ghost use Rattle.qpack_encoding.specs.Wishes.{EncodesAsWished};
ghost use Rattle.qpack_shared.specs.declared.settings.SettingsError.TheVariants.{CapacityTooLarge};
ghost use Rattle.qpack_encoding.specs.declared.encoder.EncodingError.TheVariants.{Memory};

use crate::at_risk::StreamsAtRisk;
use crate::choosing::Chooser;
use crate::decoder_stream::{DECODER_STREAM_ERROR, DecoderStream, DecoderStreamError};
use crate::unsent;
use qpack_base::coding::Cursor;
use qpack_base::stored_field::PackedField;
use qpack_codec::EncoderError;
use qpack_codec::encoder::{AsField, EncoderTable, encode_section_stateless};
use qpack_shared::settings::SettingsError;
use qpack_shared::streams::{BlockedStream, STREAMS};
use qpack_shared::unsent::Unsent;
use qpack_table::dynamic;
use qpack_table::dynamic::{Index, PackedTable};
use qpack_wire::block::HeaderPrefix;
use std::alloc::{Allocator, Global};
use std::marker::Model;
use thiserror::Error;

/// The capacity that `EncoderSettings::new` chooses, in bytes.
pub const DEFAULT_CAPACITY: usize = 16_384;

/// How many sections may wait for acknowledgments by `EncoderSettings::new`.
pub const DEFAULT_UNACKNOWLEDGED: usize = 100;

/// How many sections the table counts that may be blocked, cancelled ones among them.
const MOST_BLOCKED: usize = 4_096;

/// The least maximum capacity that is rejected, in bytes.
const CAPACITIES: usize = 1 << 30;

/// The settings that the peer sent (RFC 9204, section 5), and this end's choices for its table.
#[derive(Clone, Copy, Debug, PartialEq, Eq, Drop)]
pub struct EncoderSettings {
    /// The peer's SETTINGS_QPACK_MAX_TABLE_CAPACITY, in bytes, below 2^30: the greatest capacity that may be set.
    pub max_capacity: usize,
    /// The peer's SETTINGS_QPACK_BLOCKED_STREAMS: how many streams may be blocked at once (RFC 9204, section 2.1.2). Of
    /// their sections, 4,096 at most may be blocked that are not known to be received, cancelled ones among them.
    pub max_blocked: usize,
    /// The table's capacity that this end asks for, in bytes; one above the maximum is lowered to it (RFC 9204, section
    /// 3.2.3).
    pub capacity: usize,
    /// How many sections may wait for acknowledgments (RFC 9204, section 4.4.1) before sections are written without
    /// references.
    pub most_unacknowledged: usize,
    /// What the hashes of the table's index are computed with. The bytes that are written depend on no seed. With one
    /// that nobody can guess, nobody can prepare fields that take long to insert.
    pub seed: u64,
}

impl EncoderSettings {
    /// Returns settings with the peer's maximum capacity in bytes and its limit of blocked streams, a capacity of 16,384
    /// bytes, at most 100 sections that wait for acknowledgments, and the seed 0.
    pub fn new(max_capacity: usize, max_blocked: usize) -> EncoderSettings
        ensures { result ≡ record {
          max_capacity = max_capacity;
          max_blocked = max_blocked;
          capacity = 16384;
          most_unacknowledged = 100;
          seed = 0;
        } }
    {
        EncoderSettings {
            max_capacity,
            max_blocked,
            capacity: DEFAULT_CAPACITY,
            most_unacknowledged: DEFAULT_UNACKNOWLEDGED,
            seed: 0,
        }
    }

    /// Returns why an encoder with these settings does not take those of the peer, if it does not.
    fn peer_refusal(&self, max_capacity: usize, max_blocked: usize) -> Option<EncodingError>
        ensures { result ≡ peer_refusal self.now max_capacity max_blocked }
    {
        if max_blocked < self.max_blocked {
            return Some(EncodingError::LimitLowered);
        }
        if max_capacity == self.max_capacity {
            return None;
        }
        if self.max_capacity > 0 {
            return Some(EncodingError::MaximumChanged);
        }
        if max_capacity >= CAPACITIES {
            return Some(EncodingError::MaximumTooLarge);
        }
        None
    }

    /// Returns the capacity to announce before the first section; `None` for 0, which a table has from the start.
    fn first_capacity(&self) -> Option<usize>
        ensures { result ≡ first_capacity self.now }
    {
        let capacity = self.capacity.min(self.max_capacity);
        if capacity == 0 {
            return None;
        }
        Some(capacity)
    }
}

/// Why a call of an encoding end failed.
#[derive(Clone, Copy, Debug, PartialEq, Drop, Error)]
pub enum EncodingError {
    /// The decoder stream is rejected at an instruction, which ends the connection (RFC 9204, section 4.4).
    #[error("decoder stream: {0}")]
    DecoderStream(DecoderStreamError),
    /// The capacity is above the maximum capacity of the peer (RFC 9204, section 3.2.3); nothing was done.
    #[error("capacity above the maximum of the peer")]
    CapacityTooLarge,
    /// The capacity would evict an entry that is not evictable yet (RFC 9204, section 2.1.1); nothing was done.
    #[error("entries that are not evictable do not fit the capacity")]
    EntriesHeld,
    /// The stream number is invalid: it is 2^62 or more. Nothing was done.
    #[error("no stream has the number {0}")]
    NoStream(u64),
    /// The peer's SETTINGS have another maximum capacity than the one that this end was made with, which is not 0. This
    /// ends the connection (RFC 9204, section 3.2.3).
    #[error("the peer changed its maximum capacity")]
    MaximumChanged,
    /// The peer's SETTINGS lower the limit of blocked streams. This ends the connection (RFC 9114, section 7.2.4.2).
    #[error("the peer lowered its limit of blocked streams")]
    LimitLowered,
    /// The peer's maximum capacity is 2^30 bytes or more; nothing was done.
    #[error("maximum capacity of the peer too large")]
    MaximumTooLarge,
    /// Out of memory; you can call again.
    #[error("out of memory")]
    Memory,
}

/// H3_SETTINGS_ERROR (RFC 9114, section 8.1).
pub const SETTINGS_ERROR: u64 = 0x109;

impl EncodingError {
    /// Returns the code of the error that ends the connection (RFC 9204, section 6, and RFC 9114, section 8.1), or
    /// `None` if the connection goes on.
    pub fn code(&self) -> Option<u64>
        ensures { result ≡ code_of self.now }
    {
        match self {
            EncodingError::DecoderStream(_) | EncodingError::MaximumChanged => {
                Some(DECODER_STREAM_ERROR)
            }
            EncodingError::LimitLowered => Some(SETTINGS_ERROR),
            EncodingError::CapacityTooLarge
            | EncodingError::MaximumTooLarge
            | EncodingError::EntriesHeld
            | EncodingError::NoStream(_)
            | EncodingError::Memory => None,
        }
    }

    /// Returns the error of a capacity that was not set.
    fn of_capacity(error: EncoderError) -> EncodingError
        ensures { result ≡ capacity_failure error }
    {
        match error {
            EncoderError::Insertion(dynamic::Error::MaxTableSizeReached) => {
                EncodingError::EntriesHeld
            }
            EncoderError::Memory => EncodingError::Memory,
            _ => EncodingError::CapacityTooLarge,
        }
    }
}

/// The encoding end of a connection.
///
/// It takes the bytes of the decoder stream, and writes the encoder stream. An error that has a code ends the
/// connection: from then on every call that can fail returns that error.
#[derive(Debug, Drop)]
pub struct ConnectionEncoder {
    settings: EncoderSettings,
    table: EncoderTable<Index, PackedField>,
    at_risk: StreamsAtRisk,
    chooser: Chooser,
    /// The capacity that waits to be announced with a section, in bytes.
    wanted: Option<usize>,
    stream: DecoderStream,
    /// The bytes of the encoder stream that are not sent.
    unsent: Unsent,
    /// The error that ended the connection.
    failure: Option<EncodingError>,
}

impl Model for ConnectionEncoder {
    ghost use Rattle.qpack_encoding.specs.Encoders.{EncodingEnd, IsSound, IsBareAtZero};
    ghost use Rattle.qpack_encoding.specs.Risk.{TracksRisk};

    ghost Value = { EncodingEnd };

    ghost view = { λ d. record {
      settings = d.settings;
      table = d.table.table;
      wanted = d.wanted;
      stream = d.stream;
      unsent = d.unsent.bytes;
      failure = d.failure;
    } };

    ghost invariant = { λ d. IsSound (record {
      settings = d.settings;
      table = d.table.table;
      wanted = d.wanted;
      stream = d.stream;
      unsent = d.unsent.bytes;
      failure = d.failure;
    }) × TracksRisk d.at_risk.streams.items d.table.table × IsBareAtZero d.settings d.table.table };
}

impl ConnectionEncoder {
    /// Returns an encoding end for a peer that sent these settings. Its table has capacity 0 until it announces
    /// another, which it does before the first section (RFC 9204, section 3.2.3). Takes no memory.
    ///
    /// # Errors
    ///
    /// Fails with `CapacityTooLarge` if the maximum capacity is 2^30 bytes or more. A smaller one in its place would
    /// change how required insert counts are encoded, which depends on the maximum that the peer sent (section
    /// 4.5.1.1). For such a peer create the end with a maximum capacity of 0; it writes no reference.
    pub fn new(alloc: Global, settings: EncoderSettings) -> Result<ConnectionEncoder, SettingsError>
        ensures ok { IfOk result (λ d. Starts settings d) }
        ensures err { IfErr result (λ e. (e ≡ CapacityTooLarge) × (2 ^ 30 ≤ settings.max_capacity)) }
    {
        let table = new_table(alloc, settings)?;
        Ok(ConnectionEncoder {
            settings,
            table: EncoderTable { table },
            at_risk: StreamsAtRisk::new(alloc),
            chooser: Chooser::new(),
            wanted: settings.first_capacity(),
            stream: DecoderStream::new(),
            unsent: Unsent::new(alloc),
            failure: None,
        })
    }

    /// Returns the settings, as they were passed.
    pub fn settings(&self) -> EncoderSettings
        ensures { result ≡ self.now.settings }
    {
        self.settings
    }

    /// Returns the table.
    pub fn table(&self) -> &PackedTable
        ensures { result.now ≡ self.now.table }
    {
        &self.table.table
    }

    /// Returns the error that ended the connection, if one did.
    pub fn failure(&self) -> Option<EncodingError>
        ensures { result ≡ self.now.failure }
    {
        self.failure
    }

    /// Returns how many sections wait for acknowledgments, of all streams (RFC 9204, section 4.4.1).
    pub fn unacknowledged(&self) -> usize
        ensures { result ≡ length self.now.table.unacknowledged }
    {
        self.table.table.unacknowledged_blocks()
    }

    /// Returns how many streams may be blocked: those with a section that is neither acknowledged nor cancelled, and
    /// requires insertions which the peer is not known to have received (RFC 9204, section 2.1.2).
    pub fn blocked(&self) -> usize
        ensures { result ≡ length (streams_at_risk self.now.table) }
    {
        self.at_risk.len()
    }

    /// Returns how many bytes of the decoder stream wait for the rest of their instruction: at most nine.
    pub fn waiting(&self) -> usize
        ensures exact { result ≡ length self.now.stream.pending }
        ensures few { result < 10 }
    {
        self.stream.waiting()
    }

    /// Returns the bytes of the encoder stream that are to be sent, in order (RFC 9204, section 4.3).
    pub fn encoder_stream(&self) -> &[u8]
        ensures { result.now ≡ self.now.unsent }
    {
        self.unsent.as_slice()
    }

    /// Drops this many bytes of the encoder stream, or all if there are fewer. Call this after they were sent.
    pub fn sent(&mut self, many: usize)
        ensures { self.new ≡ record self.old { unsent = drop many self.old.unsent } }
    {
        self.unsent.sent(many);
    }

    /// Applies the settings that the peer sent: its SETTINGS_QPACK_MAX_TABLE_CAPACITY in bytes, and its
    /// SETTINGS_QPACK_BLOCKED_STREAMS, 0 for one that is missing. Call this when the peer's SETTINGS arrive at an encoder
    /// that was made before: with a maximum and a limit of 0, or with the settings remembered for 0-RTT (RFC 9204,
    /// section 3.2.3).
    ///
    /// Up to then an encoder of maximum 0 writes sections without references, which any peer can decode, and writes
    /// nothing on its encoder stream. Afterwards it is as one that was made with the peer's settings. Takes no memory.
    ///
    /// # Errors
    ///
    /// Fails, checking in this order, after an error that ended the connection, with that error; with `LimitLowered` if
    /// the limit of blocked streams is below the one that this end has; and with `MaximumChanged` if the maximum
    /// differs and this end has one above 0. The last two end the connection. Fails with `MaximumTooLarge` if a new
    /// maximum is 2^30 bytes or more: nothing changes, and the encoder goes on without a table.
    pub fn set_peer_settings(
        &mut self,
        max_capacity: usize,
        max_blocked: usize,
    ) -> Result<(), EncodingError>
        ensures { TakesPeer self.old self.new max_capacity max_blocked result }
    {
        if let Some(failure) = self.failure {
            return Err(failure);
        }
        if let Some(error) = self.settings.peer_refusal(max_capacity, max_blocked) {
            return Err(self.refuse(error));
        }
        if max_capacity == self.settings.max_capacity {
            self.settings.max_blocked = max_blocked;
            return Ok(());
        }
        agree_on(&mut self.table.table, max_capacity);
        self.settings.max_capacity = max_capacity;
        self.settings.max_blocked = max_blocked;
        self.wanted = self.settings.first_capacity();
        Ok(())
    }

    /// Sets the capacity of the table in bytes, and writes the instruction that announces it (RFC 9204, sections 3.2.3
    /// and 4.3.1). If the capacity of the settings was not announced yet, this one takes its place. Evicts entries that
    /// no longer fit, the oldest first (section 3.2.2). If the maximum is 0, the only capacity is 0, and nothing is
    /// written (section 3.2.3).
    ///
    /// # Errors
    ///
    /// Fails, checking in this order, after an error that ended the connection, with that error; with
    /// `CapacityTooLarge` if the capacity is above the maximum; with `EntriesHeld` if it would evict an entry that is
    /// not evictable; and with `Memory` if memory runs out. On error nothing changes.
    pub fn set_capacity(&mut self, capacity: usize) -> Result<(), EncodingError>
        ensures { SetsCapacity self.old self.new capacity result }
    {
        if let Some(failure) = self.failure {
            return Err(failure);
        }
        if capacity == 0 && self.settings.max_capacity == 0 {
            return Ok(());
        }
        self.tell(capacity)
    }

    /// Sets the capacity of the table in bytes, as `set_capacity` does, or as soon as no section needs what it evicts.
    /// Call this to lower the capacity while requests are under way.
    ///
    /// If the capacity would evict an entry that is not evictable, it waits. Then nothing is inserted, and sections are
    /// written without references. Each `encode` begins by trying again. Once the sections before are acknowledged or
    /// cancelled, and the peer is known to have received what is evicted, that call announces the capacity (RFC 9204,
    /// section 2.1.1). A capacity that waited before is replaced.
    ///
    /// # Errors
    ///
    /// Fails, checking in this order, after an error that ended the connection, with that error; with
    /// `CapacityTooLarge` if the capacity is above the maximum; and with `Memory` if memory runs out. On error nothing
    /// changes.
    pub fn shrink(&mut self, capacity: usize) -> Result<(), EncodingError>
        ensures { Shrinks self.old self.new capacity result }
    {
        let set = self.set_capacity(capacity);
        if is_held(&set) {
            self.wanted = Some(capacity);
            return Ok(());
        }
        set
    }

    /// Returns the capacity that waits since `shrink`, in bytes, if one does.
    pub fn pending_capacity(&self) -> Option<usize>
        ensures { result ≡ pending_capacity self.now }
    {
        if self.table.table.count() == 0 {
            return None;
        }
        self.wanted
    }

    /// Encodes a field section for a stream (RFC 9204, section 2.1). Appends the section to the vector and its
    /// insertions to the encoder stream. Returns the section's required insert count, which is 0 if it references no
    /// entry.
    ///
    /// A field that the static table has is one byte or two. Of the others, the table keeps those that come again: a
    /// new field is inserted while a quarter of the capacity is free, when it comes a second time, or for a name that
    /// no table has. The oldest entries that are still used are inserted again, so that the others can be evicted
    /// (section 2.1.1.1). If no more sections may be blocked, a field is inserted without a reference (section 2.1.2).
    /// The caller's `AsField::wish` comes first: insert this field, or insert nothing for it.
    ///
    /// A field that is never to be indexed becomes a literal with that mark, by the name of a static field or of an
    /// entry. It is neither inserted nor compared with the values of entries (section 7.1.3). Only inserted fields are
    /// copied.
    ///
    /// The first call announces the capacity of the settings, if none was announced. Each call announces the capacity that
    /// waits since `shrink`, if it can be set now. While one waits, and once the limit of sections that wait for
    /// acknowledgments is reached, a section is written without references, as `encode_section_stateless` does, and does
    /// not wait.
    ///
    /// # Errors
    ///
    /// Fails, checking in this order, after an error that ended the connection, with that error; with `NoStream` if the
    /// stream number is invalid; and with `Memory` if memory runs out. On error the vector is unchanged. After
    /// `Memory`, the capacity may have been announced, and insertions that were made stay and are written; you can call
    /// again. A section that fits the vector's capacity does not grow the vector.
    pub fn encode<A: Allocator, H: AsField>(
        &mut self,
        stream: u64,
        fields: &[H],
        section: &mut Vec<u8, A>,
    ) -> Result<usize, EncodingError>
        ensures encodes { Encodes self.old self.new stream (map H.line fields.now) section.old.items section.new.items
            result }
        // What the caller wishes of a field is done (section 2.1).
        ensures wishes { EncodesAsWished self.old self.new stream (map H.line fields.now) (map H.wish fields.now)
            section.old.items section.new.items result }
        // Memory is refused only if a capacity is to be announced, if there is a field, or if the two bytes of a
        // section without fields do not fit the vector. While a capacity waits, and once the limit of waiting sections is
        // reached, only if the section's own bytes do not fit it.
        ensures memory { result ≡ Err Memory → AsksToEncode self.old (map H.line fields.now) section.old }
        ensures alone { result ≡ Err Memory → is_alone (begun self.old) ≡ true
            → IsDue self.old ⊎ HasNoRoomAlone (map H.line fields.now) section.old }
        ensures capacity { vec_capacity section.old ≤ vec_capacity section.new }
        // A vector with room for the section is not grown.
        ensures still { OnOk result
            (vec_len section.new ≤ vec_capacity section.old → vec_capacity section.new ≡ vec_capacity section.old) }
    {
        self.check(stream)?;
        self.begin()?;
        if self.is_alone() {
            return encode_alone(fields, section);
        }
        if fields.is_empty() {
            self.table.give_up();
            return encode_nothing(section);
        }
        let may_block = self.may_block(stream);
        // Room is made before anything is written, so that a section that is written is counted.
        if self.at_risk.make_room(may_block).is_err() {
            return Err(EncodingError::Memory);
        }
        let required = write_section(
            &mut self.table,
            stream,
            may_block,
            section,
            &mut self.unsent,
            fields,
            &mut self.chooser,
        )?;
        if required > self.table.table.known_received_count() {
            self.at_risk.put(BlockedStream { required, stream });
        }
        Ok(required)
    }

    /// Receives the bytes of the decoder stream left at the cursor, which continue those of earlier calls and may be
    /// cut anywhere (RFC 9204, sections 4.2 and 4.4), as `DecoderStream::receive` does: acknowledgments and
    /// cancellations release sections, acknowledgments and increments raise the known received count (section 2.1.4).
    /// It takes no memory.
    ///
    /// # Errors
    ///
    /// A rejected instruction ends the connection (`DecoderStream`); the instructions before it stay applied. The
    /// cursor moves to its end, except after an error that ended the connection: then it does not move.
    pub fn receive(&mut self, buf: &mut Cursor) -> Result<(), EncodingError>
        ensures receives { self.old.failure ≡ None → (heard : List DecoderInstruction) (before : List ℕ)
            → Receives heard before self.old.stream
            → ReceivesBytes heard before self.old self.new buf.old.rest result }
        ensures left { self.old.failure ≡ None → buf.new.rest ≡ [] }
        ensures ended { IfSome self.old.failure
            (λ e. (result ≡ Err e) × (self.new ≡ self.old) × (buf.new.rest ≡ buf.old.rest)) }
        ensures total { buf.new.total ≡ buf.old.total }
    {
        if let Some(failure) = self.failure {
            return Err(failure);
        }
        let received = self.stream.receive(&mut self.table.table, buf);
        self.at_risk.keep_open(&self.table.table);
        match received {
            Ok(()) => Ok(()),
            Err(error) => {
                let failure = EncodingError::DecoderStream(error);
                self.failure = Some(failure);
                Err(failure)
            }
        }
    }

    /// Returns an error, which is kept if it ends the connection.
    fn refuse(&mut self, error: EncodingError) -> EncodingError
        ensures is { result ≡ error }
        ensures ends { self.new ≡ refused error self.old }
    {
        if error.code().is_some() {
            self.failure = Some(error);
        }
        error
    }

    /// Returns the error of a call for a stream, if the connection ended or the stream number is invalid.
    fn check(&self, stream: u64) -> Result<(), EncodingError>
        ensures checks { Checks self.now stream result }
        ensures no_memory { result ≡ Err Memory → ⊥ }
    {
        if let Some(failure) = self.failure {
            return Err(failure);
        }
        if stream >= STREAMS {
            return Err(EncodingError::NoStream(stream));
        }
        Ok(())
    }

    /// Returns whether a section references no entry: a capacity waits, or as many sections wait for acknowledgments as
    /// may.
    fn is_alone(&self) -> bool
        ensures { result ≡ is_alone self.now }
    {
        self.wanted.is_some()
            || self.table.table.unacknowledged_blocks() >= self.settings.most_unacknowledged
    }

    /// Returns whether a section of a stream may require insertions that the peer is not known to have received: the
    /// stream may be blocked already, or fewer streams may be blocked than the peer permits (RFC 9204, section 2.1.2).
    fn may_block(&self, stream: u64) -> bool
        ensures { result ≡ may_block self.now stream }
    {
        self.at_risk.len() < self.settings.max_blocked || self.at_risk.contains(stream)
    }

    /// Announces the capacity that waits, if the table takes it. On error, which is `Memory` only, nothing changes.
    fn begin(&mut self) -> Result<(), EncodingError>
        ensures { Begins self.old self.new result }
    {
        let Some(capacity) = self.wanted else {
            return Ok(());
        };
        let told = self.tell(capacity);
        if is_held(&told) {
            return Ok(());
        }
        told
    }

    /// Sets the capacity of the table, and writes the instruction that announces it. On error nothing changes.
    fn tell(&mut self, capacity: usize) -> Result<(), EncodingError>
        ensures { TellsCapacity self.old self.new capacity result }
    {
        match unsent::set_capacity(&mut self.unsent, &mut self.table.table, capacity) {
            Ok(()) => {
                self.wanted = None;
                Ok(())
            }
            Err(error) => Err(EncodingError::of_capacity(error)),
        }
    }
}

/// Returns whether a capacity was not set because entries that it would evict are held.
fn is_held(set: &Result<(), EncodingError>) -> bool
    ensures { result ≡ is_held set.now }
{
    matches!(set, Err(EncodingError::EntriesHeld))
}

/// Appends the section without fields, which is two bytes. Returns its required insert count, which is 0. On error the
/// vector is unchanged. Asks for memory only if the two bytes do not fit the vector's capacity.
fn encode_nothing<A: Allocator>(section: &mut Vec<u8, A>) -> Result<usize, EncodingError>
    ensures ok { IfOk result (λ required. (required ≡ 0)
        × (section.new.items ≡ section.old.items ++ written_alone [])) }
    ensures err { IfErr result (λ e. (e ≡ Memory) × (section.new.items ≡ section.old.items)) }
    ensures memory { OnErr result (vec_capacity section.old < vec_len section.old + 2) }
    ensures capacity { vec_capacity section.old ≤ vec_capacity section.new }
    ensures still { OnOk result
        (vec_len section.new ≤ vec_capacity section.old → vec_capacity section.new ≡ vec_capacity section.old) }
{
    match HeaderPrefix::new(0, 0, 0, 0).encode(section) {
        Ok(()) => Ok(0),
        Err(_) => Err(EncodingError::Memory),
    }
}

/// Appends the section of the fields without references. Returns its required insert count, which is 0. On error, which
/// is `Memory` only, the vector is unchanged.
fn encode_alone<A: Allocator, H: AsField>(
    fields: &[H],
    section: &mut Vec<u8, A>,
) -> Result<usize, EncodingError>
    ensures ok { IfOk result (λ required. (required ≡ 0)
        × (section.new.items ≡ section.old.items ++ written_alone (map H.line fields.now))) }
    ensures err { IfErr result (λ e. (e ≡ Memory) × (section.new.items ≡ section.old.items)) }
    ensures memory { OnErr result (HasNoRoomAlone (map H.line fields.now) section.old) }
    ensures capacity { vec_capacity section.old ≤ vec_capacity section.new }
    ensures still { OnOk result
        (vec_len section.new ≤ vec_capacity section.old → vec_capacity section.new ≡ vec_capacity section.old) }
{
    match encode_section_stateless(section, fields) {
        Ok(()) => Ok(0),
        Err(_) => Err(EncodingError::Memory),
    }
}

/// Appends a section of a stream, which may be blocked or not, and its instructions. If it may not be, the table
/// permits no blocked block while the section is written, so that the section requires nothing that is not known to be
/// received.
fn write_section<A: Allocator, H: AsField>(
    table: &mut EncoderTable<Index, PackedField>,
    stream: u64,
    may_block: bool,
    section: &mut Vec<u8, A>,
    unsent: &mut Unsent,
    fields: &[H],
    chooser: &mut Chooser,
) -> Result<usize, EncodingError>
    requires { table.old.table.limit ≡ 4096 }
    ensures section { IfOk result (λ required. EncodesChosen WhereShorter stream (map H.line fields.now) table.old.table table.new.table
        section.old.items section.new.items unsent.old.bytes unsent.new.bytes required) }
    ensures known { IfOk result (λ required. may_block ≡ false → required ≤ table.old.table.known_received_count) }
    ensures small { IfOk result (λ required. required < 2 ^ 64) }
    ensures wishes { IfOk result (λ required. EncodesAlong WhereShorter (by_wish State) stream (map H.line fields.now)
        (map H.wish fields.now) (with_limit (limit_for may_block) table.old.table)
        (with_limit (limit_for may_block) table.new.table) section.old.items section.new.items unsent.old.bytes
        unsent.new.bytes required) }
    ensures err { OnErr result (GivesUpChosen WhereShorter (map H.line fields.now) table.old.table table.new.table unsent.old.bytes
        unsent.new.bytes) }
    ensures as_before { OnErr result (section.new.items ≡ section.old.items) }
    ensures memory { IfErr result (λ e. e ≡ Memory) }
    ensures capacity { vec_capacity section.old ≤ vec_capacity section.new }
    ensures still { OnOk result
        (vec_len section.new ≤ vec_capacity section.old → vec_capacity section.new ≡ vec_capacity section.old) }
    ensures room { KeepsRoom (instructions_room (fields_of_lines (map H.line fields.now))) unsent.old unsent.new }
{
    limit_blocked(&mut table.table, if may_block { MOST_BLOCKED } else { 0 });
    let written = unsent::write_section(unsent, table, stream, section, fields, chooser);
    limit_blocked(&mut table.table, MOST_BLOCKED);
    match written {
        Ok(required) => Ok(required),
        Err(_) => Err(EncodingError::Memory),
    }
}

/// Sets how many sections may be blocked.
fn limit_blocked(table: &mut PackedTable, limit: usize)
    requires { limit < 65535 }
    ensures { table.new ≡ record table.old { limit = limit } }
{
    match table.set_max_blocked(limit) {
        Ok(()) => {}
        Err(_) => unreachable!(),
    }
}

/// Agrees on a maximum capacity, before anything is inserted.
fn agree_on(table: &mut PackedTable, maximum: usize)
    requires small { maximum < 2 ^ 30 }
    requires empty { insert_count table.old ≡ 0 }
    requires none { table.old.capacity ≡ 0 }
    ensures { table.new ≡ record table.old { agreed_max = Some maximum } }
{
    match table.set_agreed_max(maximum) {
        Ok(()) => {}
        Err(_) => unreachable!(),
    }
}

/// Returns an empty table of capacity 0, with the maximum capacity of these settings.
fn new_table(alloc: Global, settings: EncoderSettings) -> Result<PackedTable, SettingsError>
    ensures ok { IfOk result (λ t. (settings.max_capacity < 2 ^ 30)
        × (t ≡ empty_table 0 (Some settings.max_capacity) 4096)) }
    ensures err { IfErr result (λ e. (e ≡ CapacityTooLarge) × (2 ^ 30 ≤ settings.max_capacity)) }
{
    let mut table = PackedTable::with_seed(alloc, settings.seed);
    if table.set_agreed_max(settings.max_capacity).is_err() {
        return Err(SettingsError::CapacityTooLarge);
    }
    limit_blocked(&mut table, MOST_BLOCKED);
    Ok(table)
}
