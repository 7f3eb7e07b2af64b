//! The encoder stream as a strict decoder receives it: each byte once, cut anywhere (RFC 9204, section 4.3).

ghost use Rattle.std.specs.Prelude.{◌≡◌, ◌<◌, ◌≤◌, ℕ, [], ◌∷◌, List, length, Err, OnOk, ◌+◌, ◌-◌, ◌^◌, min};
ghost use Rattle.qpack_spec.specs.Form.{Truncates};
ghost use Rattle.qpack_spec.specs.Instruction.{encoder_instruction_form};
ghost use Rattle.qpack_spec.specs.Table.{Table, insert_count};
ghost use Rattle.qpack_decoding.specs.Receiving.{begins_insertion, begins_unlawfully, FindsWanted};
ghost use Rattle.qpack_decoding.specs.Receiving.{TakesNextStrictly, TakesAllStrictly};
ghost use Rattle.qpack_decoding.specs.Receiving.{Receives, ReceivesFront, ReceivesMore, AsksToReceive, PassesOne};
ghost use Rattle.qpack_decoding.specs.Receiving.{stream_error_at, answer_at, stream_code_of};
ghost use Rattle.qpack_table.specs.declared.dynamic.Error.TheVariants.{MaxTableSizeReached};
ghost use Rattle.qpack_codec.specs.declared.error.DecoderError.TheVariants.{DynamicTable as DynamicTableError, Memory};
ghost use Rattle.qpack_decoding.specs.declared.encoder_stream.EncoderStreamError.TheVariants.{Memory as NoRoom};

use qpack_base::coding::Cursor;
use qpack_base::stored_field::StoredField;
use qpack_codec::decoder::{DecoderError, take_instruction};
pub use qpack_shared::place::Place;
use qpack_table::dynamic::{self, DynamicTable, EntryIndex};
use qpack_wire::stream::{self, EncoderInstruction};
use std::alloc::Global;
use std::marker::Model;
use thiserror::Error;

/// Why the encoder stream was not received.
#[derive(Clone, Copy, Debug, PartialEq, Drop, Error)]
pub enum EncoderStreamError {
    /// The instruction at this place is rejected.
    #[error("in instruction {} at offset {}: {error}", .place.number, .place.offset)]
    Refused {
        /// Where the instruction is on the stream.
        place: Place,
        /// Why; never out of memory.
        error: DecoderError,
    },
    /// No memory was left.
    #[error("out of memory")]
    Memory,
}

/// QPACK_ENCODER_STREAM_ERROR: the encoder stream can't be interpreted (RFC 9204, section 6).
pub const ENCODER_STREAM_ERROR: u64 = 0x201;

impl EncoderStreamError {
    /// Returns the code of the error that ends the connection (RFC 9204, section 6), or `None` for out of memory, which
    /// is the receiver's own.
    pub fn code(&self) -> Option<u64>
        ensures { result ≡ stream_code_of self.now }
    {
        match self {
            EncoderStreamError::Refused { .. } => Some(ENCODER_STREAM_ERROR),
            EncoderStreamError::Memory => None,
        }
    }

    /// Returns the error of the instruction at this place.
    fn at(place: Place, error: DecoderError) -> EncoderStreamError
        ensures { result ≡ stream_error_at place error }
    {
        match error {
            DecoderError::Memory => EncoderStreamError::Memory,
            error => EncoderStreamError::Refused { place, error },
        }
    }
}

/// The received part of the encoder stream: the bytes that wait for the rest of their instruction. Each call borrows
/// the table.
#[derive(Debug, Drop)]
pub struct EncoderStream {
    /// The bytes that were received and not applied: of an instruction that is not whole, or for which memory ran out.
    pending: Vec<u8>,
    /// How many bytes there must be before they are read again; 0 if they are read in any case.
    wanted: usize,
    /// The place of the first instruction that was not taken.
    place: Place,
}

impl Model for EncoderStream {
    ghost use Rattle.qpack_decoding.specs.Receiving.{StreamView};

    ghost Value = { StreamView };

    ghost view = { λ s. record { pending = s.pending.items; wanted = s.wanted; place = s.place } };
}

impl EncoderStream {
    /// Returns a stream of which nothing was received. Takes no memory.
    pub fn new(alloc: Global) -> EncoderStream
        ensures { (table : Table) → Receives table table [] result }
    {
        EncoderStream {
            pending: Vec::new(alloc),
            wanted: 0,
            place: Place::first(),
        }
    }

    /// Returns how many bytes wait: those of an instruction that is not whole, and, after memory was refused, one more
    /// for each call.
    pub fn waiting(&self) -> usize
        ensures { result ≡ length self.now.pending }
    {
        self.pending.len()
    }

    /// Receives the bytes left at the cursor, which continue the stream, and applies each instruction that is now
    /// whole. It reads them in place. It keeps only the bytes of an instruction that is not whole: fewer than four
    /// bytes for each byte of the capacity, plus ten.
    ///
    /// # Errors
    ///
    /// Rejects an instruction with malformed bytes (`InvalidInteger`, `InvalidString`), one with an index that has no
    /// entry (`InvalidStaticIndex`, `DynamicTable`), and one that the table rejects (`DynamicTable`). At capacity 0 it
    /// rejects an insertion by its first byte, and it rejects a truncated one as soon as its field can't fit. The error
    /// has the place on the stream, which does not depend on how the stream is cut. The table is then as it was before
    /// that instruction, and the kept bytes are unspecified. If memory runs out, the instructions before it stay
    /// applied, and the cursor is past the bytes that were consumed. Then call again with the bytes left at the cursor,
    /// even if there are none.
    pub fn receive<I: EntryIndex, F: StoredField>(
        &mut self,
        table: &mut DynamicTable<I, F>,
        buf: &mut Cursor,
    ) -> Result<(), EncoderStreamError>
        ensures receives { (start : Table) (before : List ℕ) → Receives start table.old before self.old
            → ReceivesMore start table.old table.new before buf.old.rest buf.new.rest self.old self.new result }
        // Memory is refused only for an instruction, or for bytes that are left.
        ensures memory { result ≡ Err NoRoom → AsksToReceive table.new buf.new.rest self.new }
        ensures grows { insert_count table.old ≤ insert_count table.new }
        ensures total { buf.new.total ≡ buf.old.total }
    {
        match self.receive_bytes(table, buf) {
            Ok(()) => Ok(()),
            Err(error) => Err(EncoderStreamError::at(self.place, error)),
        }
    }

    /// Receives the bytes as `receive` does. A rejected instruction is the first one that was not applied.
    fn receive_bytes<I: EntryIndex, F: StoredField>(
        &mut self,
        table: &mut DynamicTable<I, F>,
        buf: &mut Cursor,
    ) -> Result<(), DecoderError>
        ensures receives { (start : Table) (before : List ℕ) → Receives start table.old before self.old
            → ReceivesMore start table.old table.new before buf.old.rest buf.new.rest self.old self.new
            (answer_at self.new.place result) }
        ensures memory { result ≡ Err Memory → AsksToReceive table.new buf.new.rest self.new }
        ensures grows { insert_count table.old ≤ insert_count table.new }
        ensures total { buf.new.total ≡ buf.old.total }
    {
        while self.waiting() > 0 {
            self.receive_front(table, buf)?;
            if buf.remaining() == 0 {
                return Ok(());
            }
        }
        self.receive_rest(table, buf)
    }

    /// Consumes as many bytes as the waiting instruction is known to need, or one, and applies it if it is whole then.
    fn receive_front<I: EntryIndex, F: StoredField>(
        &mut self,
        table: &mut DynamicTable<I, F>,
        buf: &mut Cursor,
    ) -> Result<(), DecoderError>
        ensures receives { (start : Table) (before : List ℕ) → Receives start table.old before self.old
            → ReceivesFront start table.new before buf.old.rest buf.new.rest self.old self.new
            (answer_at self.new.place result) }
        ensures moves { OnOk result (0 < length buf.new.rest → length buf.new.rest < length buf.old.rest) }
        ensures memory { result ≡ Err Memory → AsksToReceive table.new buf.new.rest self.new }
        ensures grows { insert_count table.old ≤ insert_count table.new }
        ensures total { buf.new.total ≡ buf.old.total }
    {
        let wanted = self.wanted;
        let missing = wanted.saturating_sub(self.pending.len()).max(1);
        let count = missing.min(buf.remaining());
        let front = &buf.chunk()[..count];
        self.pending.extend_from_slice(front)?;
        buf.advance(count);
        self.wanted = 0;
        if self.pending.len() >= wanted {
            take_whole(table, &mut self.place, &mut self.pending)?;
        }
        self.wanted = find_wanted(table, &self.pending)?;
        Ok(())
    }

    /// Receives the bytes if none wait: each instruction is read from them, and a rest that is not whole is kept.
    fn receive_rest<I: EntryIndex, F: StoredField>(
        &mut self,
        table: &mut DynamicTable<I, F>,
        buf: &mut Cursor,
    ) -> Result<(), DecoderError>
        ensures receives { (start : Table) (before : List ℕ) → Receives start table.old before self.old
            → self.old.pending ≡ [] → ReceivesMore start table.old table.new before buf.old.rest buf.new.rest self.old
            self.new (answer_at self.new.place result) }
        ensures memory { result ≡ Err Memory → AsksToReceive table.new buf.new.rest self.new }
        ensures grows { insert_count table.old ≤ insert_count table.new }
        ensures total { buf.new.total ≡ buf.old.total }
    {
        if buf.remaining() == 0 {
            return Ok(());
        }
        self.wanted = 0;
        take_all_strictly(table, &mut self.place, buf)?;
        let wanted = find_wanted(table, buf.chunk())?;
        self.pending.extend_from_slice(buf.chunk())?;
        buf.advance(buf.remaining());
        self.wanted = wanted;
        Ok(())
    }
}

/// Applies all whole instructions at the front of the bytes, from this place on, and drops their bytes. Stops at the
/// first one that is rejected, with its place; if memory runs out, its bytes are kept.
fn take_whole<I: EntryIndex, F: StoredField>(
    table: &mut DynamicTable<I, F>,
    place: &mut Place,
    pending: &mut Vec<u8>,
) -> Result<(), DecoderError>
    ensures { TakesAllStrictly table.old table.new place.old place.new pending.old.items pending.new.items result }
{
    let mut buf = Cursor::new(pending);
    let taken = take_all_strictly(table, place, &mut buf);
    let passed = buf.position();
    pending.drain(..passed);
    taken
}

/// Applies all whole instructions at the cursor, from this place on, and moves past them. Stops at the first one that
/// is rejected, with its place; if memory runs out, the cursor stays before it.
fn take_all_strictly<I: EntryIndex, F: StoredField>(
    table: &mut DynamicTable<I, F>,
    place: &mut Place,
    buf: &mut Cursor,
) -> Result<(), DecoderError>
    ensures takes { TakesAllStrictly table.old table.new place.old place.new buf.old.rest buf.new.rest result }
    ensures total { buf.new.total ≡ buf.old.total }
{
    while take_and_pass(table, place, buf)? {}
    Ok(())
}

/// Applies the instruction at the cursor, and moves the cursor and the place past it. Returns whether there was a whole
/// one.
fn take_and_pass<I: EntryIndex, F: StoredField>(
    table: &mut DynamicTable<I, F>,
    place: &mut Place,
    buf: &mut Cursor,
) -> Result<bool, DecoderError>
    ensures takes { TakesNextStrictly table.old table.new buf.old.rest buf.new.rest result }
    ensures passes { PassesOne place.old place.new buf.old.rest buf.new.rest result }
    ensures total { buf.new.total ≡ buf.old.total }
{
    let before = buf.remaining();
    if !take_strictly(table, buf)? {
        return Ok(false);
    }
    *place = place.pass(before - buf.remaining());
    Ok(true)
}

/// Applies the instruction at the cursor, and moves past it. Returns whether there was a whole one. At capacity 0 it
/// rejects an insertion by its first byte.
fn take_strictly<I: EntryIndex, F: StoredField>(
    table: &mut DynamicTable<I, F>,
    buf: &mut Cursor,
) -> Result<bool, DecoderError>
    ensures takes { TakesNextStrictly table.old table.new buf.old.rest buf.new.rest result }
    ensures total { buf.new.total ≡ buf.old.total }
{
    if begins_unlawfully(table, buf.chunk()) {
        return Err(does_not_fit());
    }
    take_instruction(table, buf)
}

/// Returns whether the bytes begin an insertion at capacity 0 (RFC 9204, section 3.2.2).
fn begins_unlawfully<I: EntryIndex, F: StoredField>(
    table: &DynamicTable<I, F>,
    bytes: &[u8],
) -> bool
    ensures { result ≡ begins_unlawfully table.now bytes.now }
{
    match bytes.first() {
        Some(first) => table.max_mem_size() == 0 && begins_insertion(*first),
        None => false,
    }
}

/// Returns whether this byte begins an instruction that inserts a field which it spells (RFC 9204, sections 4.3.2 and
/// 4.3.3).
fn begins_insertion(first: u8) -> bool
    ensures { result ≡ begins_insertion (first ∷ []) }
{
    matches!(
        EncoderInstruction::decode(first),
        EncoderInstruction::InsertWithNameRef | EncoderInstruction::InsertWithoutNameRef
    )
}

/// Returns how many bytes there must be before the truncated instruction at their front can be whole. Fails if its
/// field can't fit.
fn find_wanted<I: EntryIndex, F: StoredField>(
    table: &DynamicTable<I, F>,
    pending: &[u8],
) -> Result<usize, DecoderError>
    ensures finds { Truncates encoder_instruction_form pending.now → FindsWanted table.now pending.now result }
    ensures no_memory { result ≡ Err Memory → ⊥ }
{
    if stream::least_field_size(pending) > table.max_mem_size() {
        return Err(does_not_fit());
    }
    Ok(stream::wanted(pending))
}

/// Returns the error that a field does not fit.
fn does_not_fit() -> DecoderError
    ensures { result ≡ DynamicTableError MaxTableSizeReached }
{
    DecoderError::DynamicTable(dynamic::Error::MaxTableSizeReached)
}
