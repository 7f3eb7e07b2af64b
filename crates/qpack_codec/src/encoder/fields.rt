//! The fields of a block, one by one: a line for each, and an instruction for each that is inserted (RFC 9204, section
//! 2.1).

ghost use Rattle.std.specs.Prelude.{◌≡◌, ◌*◌, ◌≤◌, false, length};
ghost use Rattle.qpack_spec.specs.Field.{field_size};
ghost use Rattle.qpack_spec.specs.Handle.{Insertion, insert_field};
ghost use Rattle.qpack_spec.specs.Handle.{line_of as line_of_insertion, literal_at};
ghost use Rattle.qpack_spec.specs.Line.{coded_line, coded_marked_line};
ghost use Rattle.qpack_base.specs.Codings.{coding_of};
ghost use Rattle.qpack_base.specs.HeaderFields.{line_of};
ghost use Rattle.qpack_base.specs.Writes.{Writes};
ghost use Rattle.qpack_spec.specs.Text.{Coding as Chosen};
ghost use Rattle.qpack_table.specs.Handles.{insertion_of, lookup_of};
ghost use Rattle.qpack_codec.specs.Encoding.{written_insertion, AreAlike};

use qpack_base::coding::NoMemory;
use qpack_base::field::FieldLine;
use qpack_base::prefix_string;
use qpack_base::prefix_string::Coding;
use qpack_base::stored_field::StoredField;
use qpack_table::dynamic::{
    DynamicInsertionResult, DynamicLookupResult, DynamicTableEncoder, FindsEntries,
};
use qpack_wire::block::{
    IndexedWithPostBase, Literal, LiteralWithNameRef, LiteralWithPostBaseNameRef,
};
use qpack_wire::stream::{Duplicate, InsertWithNameRef, InsertWithoutNameRef};
use std::alloc::Allocator;

/// Returns how many bytes hold the instruction of this field, if it is inserted, with a reference or without: four for
/// each byte of the entry's size hold its numbers and its strings, coded or plain.
pub(super) fn instruction_room<I: FindsEntries, F: StoredField>(
    block: &DynamicTableEncoder<'_, I, F>,
    field: &FieldLine<'_>,
) -> usize
    ensures enough { (coding : Chosen) → length (written_insertion coding (line_of field.now).field
        (insert_field block.now.table.now block.now.base (line_of field.now).field).insertion) ≤ result }
    ensures any { field_size (line_of field.now).field ≤ block.now.table.now.capacity
        → (coding : Chosen) (i : Insertion) → length (written_insertion coding (line_of field.now).field i) ≤ result }
    ensures most { result ≤ 4 * field_size (line_of field.now).field }
{
    let size = field.mem_size();
    if size > block.max_size() {
        return 0;
    }
    4 * size
}

/// Appends the instruction of an insertion. On error the vector is unchanged.
#[tactic(auto, using(crate::proofs::Alike::writes_alike), unfolding(qpack_spec::specs::Instruction::coded_encoder_instruction))]
pub(super) fn write_instruction<A: Allocator>(
    coding: Coding,
    field: &FieldLine<'_>,
    insertion: &DynamicInsertionResult,
    buf: &mut Vec<u8, A>,
) -> Result<(), NoMemory>
    ensures writes { Writes (written_insertion (coding_of coding) (line_of field.now).field (insertion_of insertion.now)) buf.old buf.new
        result }
{
    let value = field.value;
    match *insertion {
        DynamicInsertionResult::Duplicated { relative, .. } => Duplicate(relative).encode(buf),
        DynamicInsertionResult::InsertedWithStaticNameRef { index, .. } => {
            for_memory(InsertWithNameRef::write_static(coding, index, value, buf))
        }
        DynamicInsertionResult::InsertedWithNameRef { relative, .. } => {
            for_memory(InsertWithNameRef::write_dynamic(coding, relative, value, buf))
        }
        DynamicInsertionResult::Inserted { .. } => {
            for_memory(InsertWithoutNameRef::write(coding, field.name, value, buf))
        }
        DynamicInsertionResult::NotInserted(_) => Ok(()),
    }
}

/// Appends the line of a field that was inserted, or was not. On error the vector is unchanged.
#[inline(always)]
#[tactic(auto, unfolding(qpack_spec::specs::Line::coded_line))]
pub(super) fn append_inserted<A: Allocator>(
    coding: Coding,
    field: &FieldLine<'_>,
    insertion: DynamicInsertionResult,
    buf: &mut Vec<u8, A>,
) -> Result<(), NoMemory>
    requires unmarked { field.now.never_indexed ≡ false }
    ensures writes { Writes (coded_line (coding_of coding) (line_of_insertion (line_of field.now).field (insertion_of insertion)))
        buf.old
        buf.new result }
{
    match insertion {
        DynamicInsertionResult::Duplicated { postbase, .. }
        | DynamicInsertionResult::InsertedWithStaticNameRef { postbase, .. }
        | DynamicInsertionResult::InsertedWithNameRef { postbase, .. }
        | DynamicInsertionResult::Inserted { postbase, .. } => {
            IndexedWithPostBase(postbase).encode(buf)
        }
        DynamicInsertionResult::NotInserted(lookup) => append_literal(coding, field, lookup, buf),
    }
}

/// Appends a literal, by where its name was found. On error the vector is unchanged.
#[tactic(auto, using(crate::proofs::Alike::writes_alike))]
pub(super) fn append_literal<A: Allocator>(
    coding: Coding,
    field: &FieldLine<'_>,
    lookup: DynamicLookupResult,
    buf: &mut Vec<u8, A>,
) -> Result<(), NoMemory>
    ensures writes { Writes (coded_marked_line (coding_of coding) field.now.never_indexed
        (literal_at (line_of field.now).field (lookup_of lookup))) buf.old buf.new result }
{
    let (value, never_indexed) = (field.value, field.never_indexed);
    match lookup {
        DynamicLookupResult::Static(index) => for_memory(LiteralWithNameRef::write_static_marked(
            coding,
            index,
            value,
            never_indexed,
            buf,
        )),
        DynamicLookupResult::Relative { index, .. } => for_memory(
            LiteralWithNameRef::write_dynamic_marked(coding, index, value, never_indexed, buf),
        ),
        DynamicLookupResult::PostBase { index, .. } => for_memory(
            LiteralWithPostBaseNameRef::write_marked(coding, index, value, never_indexed, buf),
        ),
        DynamicLookupResult::NotFound => {
            for_memory(Literal::write_marked(coding, field.name, value, never_indexed, buf))
        }
    }
}

/// Returns the result of a writer that fails only for memory, with an error that fits a register.
#[inline(always)]
pub(crate) fn for_memory(written: Result<(), prefix_string::Error>) -> Result<(), NoMemory>
    ensures { AreAlike written result }
{
    match written {
        Ok(()) => Ok(()),
        Err(_) => Err(NoMemory),
    }
}
