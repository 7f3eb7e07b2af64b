//! The decoder stream as a strict encoder receives it: each byte once, cut anywhere (RFC 9204, section 4.4).

ghost use Rattle.std.specs.Prelude.{◌≡◌, ℕ, [], ◌∷◌, ◌++◌, ◌<◌, ◌+◌, List, Ok, false, length, nat_lt, ◌≤◌};
ghost use Rattle.qpack_spec.specs.Instruction.{DecoderInstruction, Acknowledgment, Increment};
ghost use Rattle.qpack_spec.specs.Table.{insert_count, with_increment};
ghost use Rattle.qpack_wire.specs.StreamLines.{decoder_instruction_of};
ghost use Rattle.qpack_encoding.specs.Hearing.{strict_hear, known_at_least, Applies, HearsNext, Receives};
ghost use Rattle.qpack_encoding.specs.Hearing.{decoder_stream_error, ReceivesMore};

use qpack_base::coding::Cursor;
use qpack_base::stored_field::StoredField;
use qpack_shared::place::Place;
use qpack_table::dynamic::{DynamicTable, EntryIndex};
use qpack_wire::stream::{DecoderLine, HeaderAck, InsertCountIncrement, StreamCancel, next_line};
use std::marker::Model;
use thiserror::Error;

/// QPACK_DECODER_STREAM_ERROR: the decoder stream can't be interpreted (RFC 9204, section 6).
pub const DECODER_STREAM_ERROR: u64 = 0x202;

/// Why a decoder instruction is rejected.
#[derive(Clone, Copy, Debug, PartialEq, Drop, Error)]
pub enum HearingError {
    /// Its integer is too large (RFC 9204, section 4.1.1).
    #[error("integer too large")]
    IntegerOverflow,
    /// It is an increment of 0 (RFC 9204, section 4.4.3).
    #[error("increment of 0")]
    ZeroIncrement,
    /// It is an increment by this number, which would raise the known received count above the insertions made (RFC
    /// 9204, section 4.4.3).
    #[error("increment of {0}, past the insertions")]
    IncrementPastInsertions(usize),
    /// It is an acknowledgment of this stream, which has no unacknowledged section (RFC 9204, section 4.4.1).
    #[error("acknowledgment of stream {0}, which has no unacknowledged section")]
    UnknownStream(u64),
}

/// Why the decoder stream is rejected, and where.
#[derive(Clone, Copy, Debug, PartialEq, Drop, Error)]
#[error("in instruction {} at offset {}: {error}", .place.number, .place.offset)]
pub struct DecoderStreamError {
    /// Where the rejected instruction is.
    pub place: Place,
    /// Why.
    pub error: HearingError,
}

impl DecoderStreamError {
    /// Returns the code of the error that ends the connection (RFC 9204, section 6).
    pub fn code(&self) -> u64
        ensures { result ≡ decoder_stream_error }
    {
        DECODER_STREAM_ERROR
    }
}

/// The received part of the decoder stream: the bytes that wait for the rest of their instruction. Each call borrows
/// the table. It takes no memory.
#[derive(Debug, Drop)]
pub struct DecoderStream {
    /// The bytes that were received and not taken: of an instruction that is not whole.
    pending: Pending,
    /// Where that instruction begins.
    place: Place,
}

impl Model for DecoderStream {
    ghost use Rattle.std.specs.Prelude.{◌<◌, length};
    ghost use Rattle.qpack_encoding.specs.Hearing.{StreamView};

    ghost Value = { StreamView };

    ghost view = { λ s. record { pending = s.pending; place = s.place } };

    ghost invariant = { λ s. length s.pending < 10 };
}

impl DecoderStream {
    /// Returns a stream of which nothing was received.
    pub fn new() -> DecoderStream
        ensures { Receives [] [] result }
    {
        DecoderStream {
            pending: Pending::new(),
            place: Place::first(),
        }
    }

    /// Returns how many bytes wait: those of an instruction that is not whole, which are nine at most.
    pub fn waiting(&self) -> usize
        ensures exact { result ≡ length self.now.pending }
        ensures few { result < 10 }
    {
        self.pending.as_slice().len()
    }

    /// Receives the bytes left at the cursor, which continue the stream, and applies each instruction that is now whole
    /// to the table. The table may have changed since the last call. An acknowledgment releases the oldest
    /// unacknowledged section of its stream, and raises the known received count to what that section required; a
    /// cancellation releases every section of its stream; an increment raises the count (RFC 9204, sections 2.1.4 and
    /// 4.4). The bytes of an instruction that is not whole yet are kept.
    ///
    /// # Errors
    ///
    /// Fails if an integer is too large, if an increment is 0 or exceeds the insertions that were made, or if an
    /// acknowledged stream has no unacknowledged section. The table is then as it was before that instruction, no bytes
    /// wait, and the error has the place of the instruction. The cursor always moves to its end.
    pub fn receive<I: EntryIndex, F: StoredField>(
        &mut self,
        table: &mut DynamicTable<I, F>,
        buf: &mut Cursor,
    ) -> Result<(), DecoderStreamError>
        ensures receives { (heard : List DecoderInstruction) (before : List ℕ) → Receives heard before self.old
            → ReceivesMore table.old table.new heard before buf.old.rest self.new result }
        ensures left { buf.new.rest ≡ [] }
        ensures total { buf.new.total ≡ buf.old.total }
    {
        let received = self.receive_bytes(table, buf.chunk());
        buf.advance(buf.remaining());
        received
    }

    /// Receives these bytes.
    fn receive_bytes<I: EntryIndex, F: StoredField>(
        &mut self,
        table: &mut DynamicTable<I, F>,
        bytes: &[u8],
    ) -> Result<(), DecoderStreamError>
        ensures { (heard : List DecoderInstruction) (before : List ℕ) → Receives heard before self.old
            → ReceivesMore table.old table.new heard before bytes.now self.new result }
    {
        for byte in bytes {
            self.receive_byte(table, *byte)?;
        }
        Ok(())
    }

    /// Receives one byte more.
    fn receive_byte<I: EntryIndex, F: StoredField>(
        &mut self,
        table: &mut DynamicTable<I, F>,
        byte: u8,
    ) -> Result<(), DecoderStreamError>
        ensures { (heard : List DecoderInstruction) (before : List ℕ) → Receives heard before self.old
            → ReceivesMore table.old table.new heard before (byte ∷ []) self.new result }
    {
        self.pending.push(byte);
        match hear(table, self.pending.as_slice()) {
            Ok(false) => Ok(()),
            Ok(true) => {
                self.place = self.place.pass(self.pending.as_slice().len());
                self.pending.clear();
                Ok(())
            }
            Err(error) => {
                self.pending.clear();
                Err(DecoderStreamError {
                    place: self.place,
                    error,
                })
            }
        }
    }
}

/// Applies the instruction at the front of the bytes. Returns whether there was a whole one.
fn hear<I: EntryIndex, F: StoredField>(
    table: &mut DynamicTable<I, F>,
    bytes: &[u8],
) -> Result<bool, HearingError>
    ensures hears { HearsNext table.old table.new bytes.now result }
    ensures short { result ≡ Ok false → length bytes.now < 10 }
{
    let mut buf = Cursor::new(bytes);
    match next_line::<DecoderLine>(table.allocator(), &mut buf) {
        Ok(Some(line)) => {
            apply_strictly(table, line)?;
            Ok(true)
        }
        Ok(None) => Ok(false),
        Err(_) => Err(HearingError::IntegerOverflow),
    }
}

/// Applies an instruction to the table. On error nothing changes.
fn apply_strictly<I: EntryIndex, F: StoredField>(
    table: &mut DynamicTable<I, F>,
    line: DecoderLine,
) -> Result<(), HearingError>
    ensures { Applies result (strict_hear table.old (decoder_instruction_of line)) table.old table.new }
{
    match line {
        DecoderLine::InsertCountIncrement(InsertCountIncrement(increment)) => {
            raise(table, increment)
        }
        DecoderLine::HeaderAck(HeaderAck(stream_id)) => acknowledge(table, stream_id),
        DecoderLine::StreamCancel(StreamCancel(stream_id)) => {
            table.untrack_stream(stream_id);
            Ok(())
        }
    }
}

/// Raises the known received count by an increment (RFC 9204, section 4.4.3). On error nothing changes.
fn raise<I: EntryIndex, F: StoredField>(
    table: &mut DynamicTable<I, F>,
    increment: usize,
) -> Result<(), HearingError>
    ensures { Applies result (strict_hear table.old (Increment increment)) table.old table.new }
{
    if increment == 0 {
        return Err(HearingError::ZeroIncrement);
    }
    if is_past_insertions(table, increment) {
        return Err(HearingError::IncrementPastInsertions(increment));
    }
    table.update_largest_received(increment);
    Ok(())
}

/// Returns whether an increment raises the known received count above the insertions that were made.
fn is_past_insertions<I: EntryIndex, F: StoredField>(
    table: &DynamicTable<I, F>,
    increment: usize,
) -> bool
    ensures { result ≡ nat_lt (insert_count table.now) (table.now.known_received_count + increment) }
{
    let insertions = table.total_inserted();
    match table.known_received_count().checked_add(increment) {
        Some(count) => count > insertions,
        None => true,
    }
}

/// Releases the oldest unacknowledged section of a stream, and raises the known received count to what that required
/// (RFC 9204, sections 2.1.4 and 4.4.1). On error nothing changes.
fn acknowledge<I: EntryIndex, F: StoredField>(
    table: &mut DynamicTable<I, F>,
    stream_id: u64,
) -> Result<(), HearingError>
    ensures { Applies result (strict_hear table.old (Acknowledgment stream_id)) table.old table.new }
{
    let required = table.oldest_required(stream_id).unwrap_or(0);
    match table.untrack_block(stream_id) {
        Ok(()) => {
            raise_to(table, required);
            Ok(())
        }
        Err(_) => Err(HearingError::UnknownStream(stream_id)),
    }
}

/// Raises the known received count to at least this.
fn raise_to<I: EntryIndex, F: StoredField>(table: &mut DynamicTable<I, F>, count: usize)
    ensures { table.new ≡ known_at_least count table.old }
{
    let missing = count.saturating_sub(table.known_received_count());
    table.update_largest_received(missing);
}

/// The length limit of an instruction: an integer with nine further bytes (RFC 9204, section 4.1.1).
const MOST_BYTES: usize = 10;

/// The bytes of an instruction that is not whole, which lie in the value itself.
#[derive(Debug, Drop)]
struct Pending {
    bytes: [u8; MOST_BYTES],
    len: usize,
}

impl Model for Pending {
    ghost use Rattle.std.specs.Prelude.{ℕ, List, ◌≤◌, take};

    ghost Value = { List ℕ };

    ghost view = { λ p. take p.len p.bytes };

    ghost invariant = { λ p. p.len ≤ 10 };
}

impl Pending {
    /// Returns an empty list of bytes.
    fn new() -> Pending
        ensures { result ≡ [] }
    {
        Pending {
            bytes: [0; MOST_BYTES],
            len: 0,
        }
    }

    /// Returns the bytes.
    fn as_slice(&self) -> &[u8]
        ensures { result.now ≡ self.now }
    {
        &self.bytes[..self.len]
    }

    /// Appends a byte.
    fn push(&mut self, byte: u8)
        requires { length self.old < 10 }
        ensures { self.new ≡ self.old ++ byte ∷ [] }
    {
        self.bytes[self.len] = byte;
        self.len += 1;
    }

    /// Drops the bytes.
    fn clear(&mut self)
        ensures { self.new ≡ [] }
    {
        self.len = 0;
    }
}
