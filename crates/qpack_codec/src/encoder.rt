//! Header fields to blocks: the encoder of a connection, which has a table and hears the decoder's instructions (RFC
//! 9204, section 2.1).

ghost use Rattle.std.specs.Prelude.{◌≡◌, ◌+◌, ◌≤◌, Err, None, IfOk, IfErr, OnOk, OnErr, vec_len, vec_capacity};
ghost use Rattle.std.specs.Iterator.{IsFinite};
ghost use Rattle.qpack_spec.specs.Table.{empty_table, apply_decoder_instruction};
ghost use Rattle.qpack_base.specs.HeaderFields.{DrainsFields};
ghost use Rattle.qpack_codec.specs.Encoding.{EncodesBlock, GrowsForFields, StopsEncoding};
ghost use Rattle.qpack_codec.specs.Hearing.{Hears, SetsCapacity, Applies, HearsNext};
ghost use Rattle.qpack_codec.specs.declared.error.EncoderError.TheVariants.{Memory};
ghost use Rattle.qpack_wire.specs.StreamLines.{decoder_instruction_of};

use crate::encoder::sections::encode_items;
use qpack_base::coding::Cursor;
use qpack_base::field::HeaderField;
use qpack_table::dynamic::DynamicTable;
use qpack_wire::stream::{DecoderLine, HeaderAck, InsertCountIncrement, StreamCancel, next_line};
use std::alloc::{Allocator, Global};
use std::marker::Model;

mod choices;
mod chosen_fields;
pub(crate) mod fields;
mod newest_first;
mod sections;

pub use crate::encoder::choices::{AsField, Choice, Chooses, Wish, WishedField};
pub use crate::encoder::sections::{EncoderTable, WritesSections, set_dynamic_table_size};
pub use crate::error::EncoderError;
pub use crate::stateless::{encode_section_stateless, encode_stateless};

/// The encoder of a connection. A user names no parameter: `EncoderTable`, the default, is the one table there is, and
/// `WritesSections`, what it does for `encode`, is there so that the signature of `encode` names no `'static`, which the
/// check of borrows does not cover beside an iterator over references. `AsField` is what the Rust has
/// `AsRef<HeaderField>` for.
#[derive(Debug, Drop)]
pub struct Encoder<D: WritesSections = EncoderTable> {
    table: D,
}

impl<D: WritesSections> Model for Encoder<D> {
    ghost use Rattle.qpack_spec.specs.Table.{Table};

    ghost Value = { Table };

    ghost view = { λ e. D.table e.table };
}

impl From<DynamicTable> for Encoder {
    ghost from_gives = { λ t e. e ≡ t };

    /// Returns an encoder over a table.
    fn from(table: DynamicTable) -> Encoder {
        Encoder {
            table: EncoderTable { table },
        }
    }
}

impl Encoder {
    /// Returns an encoder over an empty table, of capacity 0 and with no block that may be blocked.
    pub fn new(alloc: Global) -> Encoder
        ensures { result ≡ empty_table 0 None 0 }
    {
        Encoder::from(DynamicTable::new(alloc))
    }

    /// Returns the table.
    pub fn table(&self) -> &DynamicTable
        ensures { result.now ≡ self.now }
    {
        &self.table.table
    }

    /// Takes the bytes of the decoder stream that are left at the cursor (RFC 9204, section 4.4). It applies each whole
    /// instruction to the table: an acknowledgment releases the oldest unacknowledged block of its stream, a
    /// cancellation every one, and an increment raises the known received count. It leaves a truncated rest at the
    /// cursor; pass that rest again with the bytes that follow it. It takes no memory.
    ///
    /// # Errors
    ///
    /// Rejects malformed bytes (`InvalidInteger`), and an acknowledgment of a stream that has no unacknowledged block
    /// (`Insertion(UnknownStreamId)`; the cursor moves past it then, and in no other case). The instructions before it
    /// stay applied.
    pub fn on_decoder_recv(&mut self, buf: &mut Cursor) -> Result<(), EncoderError>
        ensures hears { Hears self.old self.new buf.old.rest buf.new.rest result }
        ensures total { buf.new.total ≡ buf.old.total }
        ensures no_memory { result ≡ Err Memory → ⊥ }
    {
        take_instructions(&mut self.table.table, buf)
    }

    /// Sets the capacity of the table in bytes, and writes the instruction that announces it to the decoder (RFC 9204,
    /// sections 3.2.3 and 4.3.1), as `set_dynamic_table_size` does.
    pub fn set_capacity<A: Allocator>(
        &mut self,
        size: usize,
        encoder_buf: &mut Vec<u8, A>,
    ) -> Result<(), EncoderError>
        ensures sets { SetsCapacity size self.old self.new encoder_buf.old.items encoder_buf.new.items result }
        ensures memory { vec_len encoder_buf.old + 11 ≤ vec_capacity encoder_buf.old → result ≡ Err Memory → ⊥ }
        ensures still { vec_len encoder_buf.old + 11 ≤ vec_capacity encoder_buf.old
            → vec_capacity encoder_buf.new ≡ vec_capacity encoder_buf.old }
        ensures capacity { vec_capacity encoder_buf.old ≤ vec_capacity encoder_buf.new }
    {
        set_dynamic_table_size(&mut self.table.table, encoder_buf, size)
    }
}

impl<D: WritesSections> Encoder<D> {
    /// Encodes a field section for a stream (RFC 9204, section 2.1). Appends the block to one vector, and the
    /// instructions of its insertions to the other. Returns the block's required insert count, which is 0 if it
    /// references no entry. For each field it takes the first of these that applies: an equal static field, the newest
    /// equal entry that was live at the block's start, an insertion, and a literal.
    ///
    /// # Errors
    ///
    /// On error, which is `Memory` only, the block is unchanged. The insertions that were made stay, their instructions
    /// are written, and nothing more is referenced: you can call again. A block's vector with free room for it does not
    /// grow, nor does that of the instructions with four bytes of free room for each byte of the fields' sizes.
    pub fn encode<'a, A: Allocator, B: Allocator, T: Iterator<Item = &'a HeaderField> + Drop>(
        &mut self,
        stream_id: u64,
        block: &mut Vec<u8, A>,
        encoder_buf: &mut Vec<u8, B>,
        fields: T,
    ) -> Result<usize, EncoderError>
        requires can { T.can_next fields }
        requires ends { IsFinite (T.remaining fields) }
        ensures ok { IfOk result (λ required. DrainsFields T.next_gives fields (λ fs. EncodesBlock stream_id
            fs self.old self.new block.old.items block.new.items encoder_buf.old.items encoder_buf.new.items
            required)) }
        ensures err { OnErr result (StopsEncoding T.next_gives fields self.old self.new encoder_buf.old.items
            encoder_buf.new.items) }
        ensures as_before { OnErr result (block.new.items ≡ block.old.items) }
        ensures memory { IfErr result (λ e. e ≡ Memory) }
        ensures capacity { vec_capacity block.old ≤ vec_capacity block.new }
        ensures still { OnOk result
            (vec_len block.new ≤ vec_capacity block.old → vec_capacity block.new ≡ vec_capacity block.old) }
        // The instructions' vector is longer by four bytes for each byte of the fields' sizes at most, and with so much
        // free room it is not grown.
        ensures instructions { GrowsForFields T.next_gives fields encoder_buf.old encoder_buf.new }
    {
        encode_items(&mut self.table, stream_id, block, encoder_buf, fields)
    }
}

/// Applies all whole instructions at the cursor, and moves past them. Stops at the first one that is rejected. The
/// cursor moves past that one exactly if the table rejects it.
fn take_instructions(table: &mut DynamicTable, buf: &mut Cursor) -> Result<(), EncoderError>
    ensures hears { Hears table.old table.new buf.old.rest buf.new.rest result }
    ensures total { buf.new.total ≡ buf.old.total }
{
    while take_instruction(table, buf)? {}
    Ok(())
}

/// Applies the instruction at the cursor, and moves past it. Returns whether there was a whole one.
fn take_instruction(table: &mut DynamicTable, buf: &mut Cursor) -> Result<bool, EncoderError>
    ensures hears { HearsNext table.old table.new buf.old.rest buf.new.rest result }
    ensures total { buf.new.total ≡ buf.old.total }
{
    let Some(line) = next_line::<DecoderLine>(table.allocator(), buf)? else {
        return Ok(false);
    };
    apply_decoder_line(table, line)?;
    Ok(true)
}

/// Applies an instruction to the table. On error nothing changes; it takes no memory.
fn apply_decoder_line(table: &mut DynamicTable, line: DecoderLine) -> Result<(), EncoderError>
    ensures { Applies result (apply_decoder_instruction table.old (decoder_instruction_of line)) table.old table.new }
{
    match line {
        DecoderLine::InsertCountIncrement(InsertCountIncrement(increment)) => {
            table.update_largest_received(increment);
        }
        DecoderLine::HeaderAck(HeaderAck(stream_id)) => table.untrack_block(stream_id)?,
        DecoderLine::StreamCancel(StreamCancel(stream_id)) => table.untrack_stream(stream_id),
    }
    Ok(())
}
