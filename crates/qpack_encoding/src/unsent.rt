//! What an encoding end writes to its stream: capacities, and the insertions of sections.

ghost use Rattle.std.specs.Prelude.{◌≡◌, ◌≤◌, map, Err, IfOk, OnOk, OnErr, vec_len, vec_capacity};
ghost use Rattle.qpack_spec.specs.Field.{fields_of_lines};
ghost use Rattle.qpack_spec.specs.Text.{WhereShorter};
ghost use Rattle.qpack_codec.specs.ChosenSections.{EncodesAlong, GivesUpChosen};
ghost use Rattle.qpack_codec.specs.Encoding.{instructions_room};
ghost use Rattle.qpack_codec.specs.Hearing.{SetsCapacity};
ghost use Rattle.qpack_codec.specs.declared.error.EncoderError.TheVariants.{Memory};
ghost use Rattle.qpack_shared.specs.Unsent.{HasRoom, KeepsRoom};
ghost use Rattle.qpack_encoding.specs.Wishes.{by_wish};
ghost use Rattle.qpack_encoding.specs.declared.choosing.Chooser.{Chooser};

use crate::choosing::Chooser;
use qpack_base::prefix_string::Coding;
use qpack_base::stored_field::PackedField;
use qpack_codec::EncoderError;
use qpack_codec::encoder::{AsField, EncoderTable, set_dynamic_table_size};
use qpack_shared::unsent::Unsent;
use qpack_table::dynamic::{Index, PackedTable};
use std::alloc::Allocator;

/// Sets the capacity of the table, and appends the instruction that announces it. On error the bytes are unchanged.
/// With room for eleven bytes, the longest instruction, it asks for no memory.
pub(crate) fn set_capacity(
    unsent: &mut Unsent,
    table: &mut PackedTable,
    capacity: usize,
) -> Result<(), EncoderError>
    ensures sets { SetsCapacity capacity table.old table.new unsent.old.bytes unsent.new.bytes result }
    ensures memory { HasRoom 11 unsent.old → result ≡ Err Memory → ⊥ }
    ensures room { KeepsRoom 11 unsent.old unsent.new }
{
    set_dynamic_table_size(table, &mut unsent.bytes, capacity)
}

/// Appends a section to the vector, and the instructions of its insertions to the bytes, as `write_chosen_section`
/// does. With room for the section the vector is not grown. With room for four bytes for each byte of the fields'
/// sizes that of the instructions is not grown.
pub(crate) fn write_section<A: Allocator, H: AsField>(
    unsent: &mut Unsent,
    table: &mut EncoderTable<Index, PackedField>,
    stream: u64,
    section: &mut Vec<u8, A>,
    fields: &[H],
    chooser: &mut Chooser,
) -> Result<usize, EncoderError>
    ensures ok { IfOk result (λ required. EncodesAlong WhereShorter (by_wish Chooser) stream (map H.line fields.now)
        (map H.wish fields.now) table.old.table table.new.table section.old.items section.new.items unsent.old.bytes
        unsent.new.bytes required) }
    ensures err { OnErr result (GivesUpChosen WhereShorter (map H.line fields.now) table.old.table table.new.table unsent.old.bytes
        unsent.new.bytes) }
    ensures as_before { OnErr result (section.new.items ≡ section.old.items) }
    ensures capacity { vec_capacity section.old ≤ vec_capacity section.new }
    ensures still { OnOk result
        (vec_len section.new ≤ vec_capacity section.old → vec_capacity section.new ≡ vec_capacity section.old) }
    ensures room { KeepsRoom (instructions_room (fields_of_lines (map H.line fields.now))) unsent.old unsent.new }
{
    table.write_chosen_section(
        stream,
        section,
        &mut unsent.bytes,
        fields,
        chooser,
        Coding::WhereShorter,
    )
}
