//! Blocks to header fields: the decoder of a connection, which has a table and what it has still to report (RFC 9204,
//! section 2.2).

ghost use Rattle.std.specs.Prelude.{◌≡◌, ◌≤◌, Err, OnOk, vec_capacity};
ghost use Rattle.qpack_spec.specs.BlockReading.{reading_of_bytes};
ghost use Rattle.qpack_spec.specs.Instruction.{Acknowledgment, Cancellation, written_decoder_instruction};
ghost use Rattle.qpack_spec.specs.Table.{window};
ghost use Rattle.qpack_base.specs.Writes.{Writes};
ghost use Rattle.qpack_wire.specs.Memory.{AsksSectionForMemory};
ghost use Rattle.qpack_codec.specs.Receiving.{AsksToTake, HasRoomToReport, Receives};
ghost use Rattle.qpack_codec.specs.Sections.{DecodesSection};
ghost use Rattle.qpack_codec.specs.Stateless.{IsFinished};
ghost use Rattle.qpack_codec.specs.declared.error.DecoderError.TheVariants.{Memory};

use crate::decoder::instructions::take_instructions;
use crate::decoder::sections::read_section;
use qpack_base::coding::{Cursor, NoMemory};
use qpack_base::field::HeaderField;
use qpack_table::dynamic::{DynamicTable, EntryIndex, SortedIndex};
use qpack_wire::stream::{HeaderAck, StreamCancel};
use std::alloc::Allocator;
use std::marker::Model;

mod instructions;
pub(crate) mod sections;

pub use crate::decoder::instructions::{take_instruction, write_increments};
pub use crate::error::DecoderError;
pub use crate::stateless::decode_stateless;

/// The fields of a block.
#[derive(Debug, PartialEq, Drop)]
pub struct Decoded {
    /// The fields, in the order of their lines.
    pub fields: Vec<HeaderField>,
    /// Whether the block's required insert count is above 0.
    pub dyn_ref: bool,
    /// The sum of the fields' sizes in bytes, at most 2^64 - 1.
    pub mem_size: u64,
}

/// The decoder of a connection, over a table with an index of its entries or without one
/// ([`ReceivedTable`](crate::dynamic::ReceivedTable)). It asks for entries by their places alone, and receives faster
/// over a table without one.
#[derive(Debug, Drop)]
pub struct Decoder<I: EntryIndex = SortedIndex> {
    table: DynamicTable<I>,
    /// How many insertions no increment has reported yet.
    unreported: usize,
}

impl<I: EntryIndex> Model for Decoder<I> {
    ghost use Rattle.std.specs.Prelude.{◌≤◌};
    ghost use Rattle.qpack_spec.specs.Table.{insert_count};
    ghost use Rattle.qpack_codec.specs.Receiving.{DecoderView};

    ghost Value = { DecoderView };

    ghost view = { λ d. record { table = d.table; unreported = d.unreported } };

    ghost invariant = { λ d. d.unreported ≤ insert_count d.table };
}

impl<I: EntryIndex> From<DynamicTable<I>> for Decoder<I> {
    ghost from_gives = { λ t d. d ≡ record { table = t; unreported = 0 } };

    /// Returns a decoder over a table, the insertions of which are reported.
    fn from(table: DynamicTable<I>) -> Decoder<I> {
        Decoder {
            table,
            unreported: 0,
        }
    }
}

impl<I: EntryIndex> Decoder<I> {
    /// Returns the table.
    pub fn table(&self) -> &DynamicTable<I>
        ensures { result.now ≡ self.now.table }
    {
        &self.table
    }

    /// Decodes the field section left at the cursor, to its end. It changes only the cursor.
    ///
    /// # Errors
    ///
    /// Rejects, checking in this order, bytes that are no prefix, and a prefix that is out of range (`InvalidInteger`);
    /// a base below 0 if the section requires insertions (`BadBaseIndex`); a required insert count above the insertions
    /// that were received (`MissingRefs`, the section can be decoded later); then line by line its bytes
    /// (`InvalidInteger`, `InvalidString`) and its index (`DynamicTable`, `InvalidStaticIndex`). On error the cursor's
    /// position is unspecified.
    pub fn decode_header(&self, buf: &mut Cursor) -> Result<Decoded, DecoderError>
        // Returns what the section means under the table, or the first fault in reading order.
        ensures exact { DecodesSection result (reading_of_bytes (window self.now.table) buf.old.rest) }
        // A section that is read is read to its end.
        ensures finished { OnOk result (IsFinished buf.old buf.new) }
        // Memory is refused only if a prefix is followed by a whole line, or by a string whose payload is not empty.
        ensures memory { result ≡ Err Memory → AsksSectionForMemory buf.old.rest }
    {
        read_section(&self.table, buf)
    }

    /// Takes the bytes of the encoder stream that are left at the cursor, and returns how many insertions were ever
    /// made (RFC 9204, sections 4.2 and 4.3). It applies each whole instruction to the table, and leaves a truncated
    /// rest at the cursor; pass that rest again with the bytes that follow it. Then it reports the insertions in
    /// `write`, for the decoder stream, by increments of 64 and one of the rest (section 4.4.3).
    ///
    /// # Errors
    ///
    /// Rejects an instruction with malformed bytes (`InvalidInteger`, `InvalidString`), with an index that has no entry
    /// (`InvalidStaticIndex`, `DynamicTable`), or with a field or a capacity that the table rejects (`DynamicTable`;
    /// the cursor moves past it then, and in no other case). Fails with `Memory` if memory runs out. The instructions
    /// before it stay applied, nothing is written, and the next call that succeeds reports their insertions. With free
    /// room for the increments it takes no memory for them, and the vector does not grow.
    pub fn on_encoder_recv<A: Allocator>(
        &mut self,
        buf: &mut Cursor,
        write: &mut Vec<u8, A>,
    ) -> Result<usize, DecoderError>
        ensures receives { Receives self.old self.new buf.old.rest buf.new.rest write.old.items write.new.items result }
        ensures total { buf.new.total ≡ buf.old.total }
        // With free room for the increments, memory is refused only for an instruction, and the vector is not grown.
        ensures memory { HasRoomToReport self.old self.new.table write.old → result ≡ Err Memory
            → AsksToTake self.new.table buf.new.rest }
        ensures still { HasRoomToReport self.old self.new.table write.old
            → vec_capacity write.new ≡ vec_capacity write.old }
        ensures capacity { vec_capacity write.old ≤ vec_capacity write.new }
    {
        let before = self.table.total_inserted();
        let taken = take_instructions(&mut self.table, buf);
        self.unreported += self.table.total_inserted() - before;
        taken?;
        write_increments(self.unreported, write)?;
        self.unreported = 0;
        Ok(self.table.total_inserted())
    }
}

/// Appends the acknowledgment of a section of this stream that referenced the dynamic table, for the decoder stream
/// (RFC 9204, section 4.4.1). On error the vector is unchanged; with free room for it, it succeeds and takes no memory.
pub fn ack_header<A: Allocator>(stream_id: u64, decoder: &mut Vec<u8, A>) -> Result<(), NoMemory>
    ensures writes { Writes (written_decoder_instruction (Acknowledgment stream_id)) decoder.old decoder.new result }
{
    HeaderAck(stream_id).encode(decoder)
}

/// Appends the cancellation of this stream, for the decoder stream (RFC 9204, section 4.4.2). On error the vector is
/// unchanged; with free room for it, it succeeds and takes no memory.
pub fn stream_canceled<A: Allocator>(
    stream_id: u64,
    decoder: &mut Vec<u8, A>,
) -> Result<(), NoMemory>
    ensures writes { Writes (written_decoder_instruction (Cancellation stream_id)) decoder.old decoder.new result }
{
    StreamCancel(stream_id).encode(decoder)
}
