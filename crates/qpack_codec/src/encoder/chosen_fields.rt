//! The fields of a block, one by one, by what is chosen for each: a line, and an instruction for each that is inserted
//! (RFC 9204, section 2.1).

ghost use Rattle.std.specs.Prelude.{◌≡◌, ◌*◌, ◌++◌, ◌≤◌, [], ◌∷◌, false, true, None, take, OnOk, OnErr, vec_len};
ghost use Rattle.std.specs.Prelude.{vec_capacity};
ghost use Rattle.qpack_base.specs.Codings.{coding_of};
ghost use Rattle.qpack_base.specs.HeaderFields.{line_of};
ghost use Rattle.qpack_base.specs.Writes.{Writes};
ghost use Rattle.qpack_spec.specs.Chosen as chosen;
ghost use Rattle.qpack_spec.specs.Chosen.{chosen_field, line_chosen, line_uninserted, literal_chosen, passes_at};
ghost use Rattle.qpack_spec.specs.Chosen.{unreferenced_chosen};
ghost use Rattle.qpack_spec.specs.Field.{field_size, has_name, is_field};
ghost use Rattle.qpack_spec.specs.Instruction.{coded_encoder_instructions};
ghost use Rattle.qpack_spec.specs.Line.{coded_marked_line};
ghost use Rattle.qpack_spec.specs.Stateless.{stateless_literal};
ghost use Rattle.qpack_spec.specs.StaticTable.{static_index, static_name_index};
ghost use Rattle.qpack_spec.specs.Table.{newest_index, without_references};
ghost use Rattle.qpack_table.specs.Handles.{AreHashesIn, IsSoughtIn, naming_of};
ghost use Rattle.qpack_codec.specs.declared.encoder.choices.Choice.TheVariants.{Inserted};
ghost use Rattle.qpack_codec.specs.Choices.{by_entry, chosen_of, line_choice};
ghost use Rattle.qpack_codec.specs.ChosenSections.{AddsLine, AddsByChooser, StopsByChooser};
ghost use Rattle.qpack_codec.specs.Encoding.{draft_at, Adds, AddsLines, GrowsWithin, StopsAdding};

use crate::encoder::choices::{Choice, Chooses, Wish};
use crate::encoder::fields::{
    append_inserted, append_literal, instruction_room, write_instruction,
};
use qpack_base::coding::{NoMemory, make_room};
use qpack_base::field::FieldLine;
use qpack_base::prefix_string::Coding;
use qpack_base::static_::{StaticMatch, StaticTable};
use qpack_base::stored_field::StoredField;
use qpack_table::dynamic::{
    DynamicLookupResult, DynamicTableEncoder, FindsEntries, Naming, SoughtField,
};
use qpack_wire::block::{Indexed, IndexedWithPostBase};
use std::alloc::Allocator;

/// Adds a field line to a block in progress, by what is chosen for it. An equal static field is taken without asking. On
/// error either nothing was inserted and no instruction is written, or an entry was and its instruction is.
pub(super) fn append_line<
    A: Allocator,
    B: Allocator,
    I: FindsEntries,
    F: StoredField,
    C: Chooses<I, F>,
>(
    coding: Coding,
    block: &mut DynamicTableEncoder<'_, I, F>,
    field: &FieldLine<'_>,
    wish: Wish,
    chooser: &mut C,
    lines: &mut Vec<u8, A>,
    encoder_buf: &mut Vec<u8, B>,
) -> Result<(), NoMemory>
    ensures same_table { block.new.table.ghost_name ≡ block.old.table.ghost_name }
    ensures stream { block.new.stream_id ≡ block.old.stream_id }
    ensures base { block.new.base ≡ block.old.base }
    ensures ok { OnOk result (AddsByChooser (coding_of coding) C.chooses (line_of field.now) wish block.old.base block.old.table.now
        block.new.table.now chooser.old chooser.new lines.old.items lines.new.items encoder_buf.old.items
        encoder_buf.new.items) }
    ensures err { OnErr result (StopsByChooser (coding_of coding) C.chooses (line_of field.now) wish block.old.base block.old.table.now
        block.new.table.now chooser.old encoder_buf.old.items encoder_buf.new.items) }
    ensures as_before { OnErr result (take (vec_len lines.old) lines.new.items ≡ lines.old.items) }
    ensures capacity { vec_capacity lines.old ≤ vec_capacity lines.new }
    ensures still { OnOk result
        (vec_len lines.new ≤ vec_capacity lines.old → vec_capacity lines.new ≡ vec_capacity lines.old) }
    ensures instructions { GrowsWithin (4 * field_size (line_of field.now).field) encoder_buf.old encoder_buf.new }
{
    if field.never_indexed {
        let sought = SoughtField::name_alone(StaticTable::find_name(field.name));
        let choice = chooser.choose(block, field, wish, &sought);
        return Ok(append_never_indexed(coding, block, field, &sought, choice, lines)?);
    }
    let static_name = match StaticTable::lookup(field.name, field.value) {
        Some(StaticMatch::Field(index)) => return Ok(Indexed::Static(index).encode(lines)?),
        Some(StaticMatch::Name(index)) => Some(index),
        None => None,
    };
    let sought = block.seek(field, static_name);
    let naming = chooser.naming();
    let choice = chooser.choose(block, field, wish, &sought);
    Ok(append_chosen(
        coding,
        block,
        field,
        &sought,
        choice,
        naming,
        lines,
        encoder_buf,
    )?)
}

/// Adds a field that is never indexed to a block in progress: a literal, with the name of the newest entry that has it if
/// that is chosen.
fn append_never_indexed<A: Allocator, I: FindsEntries, F: StoredField>(
    coding: Coding,
    block: &mut DynamicTableEncoder<'_, I, F>,
    field: &FieldLine<'_>,
    sought: &SoughtField,
    choice: Choice,
    lines: &mut Vec<u8, A>,
) -> Result<(), NoMemory>
    requires hashes { AreHashesIn (line_of field.now).field sought.now }
    requires static_name { sought.now.static_name ≡ static_name_index (line_of field.now).field.name }
    ensures same_table { block.new.table.ghost_name ≡ block.old.table.ghost_name }
    ensures stream { block.new.stream_id ≡ block.old.stream_id }
    ensures base { block.new.base ≡ block.old.base }
    ensures ok { OnOk result (AddsLine (coding_of coding) (line_of field.now) (literal_chosen block.old.base
        (draft_at block.old.table.now) (line_of field.now).field
        (line_choice block.old.table.now (line_of field.now).field choice))
        block.new.table.now lines.old.items lines.new.items) }
    ensures err { OnErr result
        (without_references block.new.table.now ≡ without_references block.old.table.now) }
    ensures as_before { OnErr result (lines.new.items ≡ lines.old.items) }
    ensures capacity { vec_capacity lines.old ≤ vec_capacity lines.new }
    ensures still { OnOk result
        (vec_len lines.new ≤ vec_capacity lines.old → vec_capacity lines.new ≡ vec_capacity lines.old) }
{
    if let Choice::Named { .. } = choice {
        return Ok(append_named(coding, block, field, sought, lines)?);
    }
    Ok(append_alone(coding, field, sought, lines)?)
}

/// Adds a field that no static field equals to a block in progress, by what is chosen for it. On error either nothing
/// was inserted and no instruction is written, or an entry was and its instruction is.
fn append_chosen<A: Allocator, B: Allocator, I: FindsEntries, F: StoredField>(
    coding: Coding,
    block: &mut DynamicTableEncoder<'_, I, F>,
    field: &FieldLine<'_>,
    sought: &SoughtField,
    choice: Choice,
    naming: Naming,
    lines: &mut Vec<u8, A>,
    encoder_buf: &mut Vec<u8, B>,
) -> Result<(), NoMemory>
    requires unmarked { field.now.never_indexed ≡ false }
    requires no_static { static_index (line_of field.now).field ≡ None }
    requires sought { IsSoughtIn block.old.table.now (line_of field.now).field sought.now }
    ensures same_table { block.new.table.ghost_name ≡ block.old.table.ghost_name }
    ensures stream { block.new.stream_id ≡ block.old.stream_id }
    ensures base { block.new.base ≡ block.old.base }
    ensures ok { OnOk result (AddsLines (coding_of coding) (line_of field.now ∷ [])
        (chosen_field block.old.base (draft_at block.old.table.now) (line_of field.now)
        (chosen_of (naming_of naming) block.old.table.now (line_of field.now).field choice))
        block.new.table.now lines.old.items lines.new.items encoder_buf.old.items encoder_buf.new.items) }
    ensures err { OnErr result (StopsAdding (coding_of coding)
        (chosen_field block.old.base (draft_at block.old.table.now) (line_of field.now)
        (chosen_of (naming_of naming) block.old.table.now (line_of field.now).field choice))
        block.old.table.now block.new.table.now encoder_buf.old.items encoder_buf.new.items) }
    ensures as_before { OnErr result (take (vec_len lines.old) lines.new.items ≡ lines.old.items) }
    ensures capacity { vec_capacity lines.old ≤ vec_capacity lines.new }
    ensures still { OnOk result
        (vec_len lines.new ≤ vec_capacity lines.old → vec_capacity lines.new ≡ vec_capacity lines.old) }
    ensures instructions { GrowsWithin (4 * field_size (line_of field.now).field) encoder_buf.old encoder_buf.new }
{
    if let Choice::Inserted = choice {
        return Ok(append_insertion_or_alone(
            coding,
            block,
            field,
            sought,
            naming,
            lines,
            encoder_buf,
        )?);
    }
    append_uninserted(coding, block, field, sought, choice, lines)?;
    if choice.inserts_after() {
        return Ok(append_unreferenced(coding, block, field, sought, naming, encoder_buf)?);
    }
    Ok(())
}

/// Adds the line of a field that is not inserted for it.
fn append_uninserted<A: Allocator, I: FindsEntries, F: StoredField>(
    coding: Coding,
    block: &mut DynamicTableEncoder<'_, I, F>,
    field: &FieldLine<'_>,
    sought: &SoughtField,
    choice: Choice,
    lines: &mut Vec<u8, A>,
) -> Result<(), NoMemory>
    requires unmarked { field.now.never_indexed ≡ false }
    requires no_static { static_index (line_of field.now).field ≡ None }
    requires sought { IsSoughtIn block.old.table.now (line_of field.now).field sought.now }
    requires not_inserted { choice ≡ Inserted → ⊥ }
    ensures same_table { block.new.table.ghost_name ≡ block.old.table.ghost_name }
    ensures stream { block.new.stream_id ≡ block.old.stream_id }
    ensures base { block.new.base ≡ block.old.base }
    ensures ok { OnOk result (AddsLine (coding_of coding) (line_of field.now) (line_uninserted block.old.base
        (draft_at block.old.table.now) (line_of field.now).field
        (line_choice block.old.table.now (line_of field.now).field choice))
        block.new.table.now lines.old.items lines.new.items) }
    ensures sought { OnOk result (IsSoughtIn block.new.table.now (line_of field.now).field sought.now) }
    ensures err { OnErr result
        (without_references block.new.table.now ≡ without_references block.old.table.now) }
    ensures as_before { OnErr result (lines.new.items ≡ lines.old.items) }
    ensures capacity { vec_capacity lines.old ≤ vec_capacity lines.new }
    ensures still { OnOk result
        (vec_len lines.new ≤ vec_capacity lines.old → vec_capacity lines.new ≡ vec_capacity lines.old) }
{
    match choice {
        Choice::Equal { entry, .. } => Ok(append_equal(
            coding, block, field, sought, entry, lines,
        )?),
        Choice::Named { .. } => Ok(append_named(coding, block, field, sought, lines)?),
        _ => Ok(append_alone(coding, field, sought, lines)?),
    }
}

/// Appends the literal of a field without the dynamic table, by the static field of its name if there is one. On error
/// the vector is unchanged.
fn append_alone<A: Allocator>(
    coding: Coding,
    field: &FieldLine<'_>,
    sought: &SoughtField,
    lines: &mut Vec<u8, A>,
) -> Result<(), NoMemory>
    requires { sought.now.static_name ≡ static_name_index (line_of field.now).field.name }
    ensures writes { Writes (coded_marked_line (coding_of coding) field.now.never_indexed (stateless_literal (line_of field.now).field
        (static_name_index (line_of field.now).field.name))) lines.old lines.new result }
{
    let lookup = match sought.static_name() {
        Some(index) => DynamicLookupResult::Static(index),
        None => DynamicLookupResult::NotFound,
    };
    append_literal(coding, field, lookup, lines)
}

/// Adds a reference to an entry, if it is live, equals a field and may be referenced, and else a literal without the
/// dynamic table.
fn append_equal<A: Allocator, I: FindsEntries, F: StoredField>(
    coding: Coding,
    block: &mut DynamicTableEncoder<'_, I, F>,
    field: &FieldLine<'_>,
    sought: &SoughtField,
    entry: usize,
    lines: &mut Vec<u8, A>,
) -> Result<(), NoMemory>
    requires unmarked { field.now.never_indexed ≡ false }
    requires no_static { static_index (line_of field.now).field ≡ None }
    requires sought { IsSoughtIn block.old.table.now (line_of field.now).field sought.now }
    ensures same_table { block.new.table.ghost_name ≡ block.old.table.ghost_name }
    ensures stream { block.new.stream_id ≡ block.old.stream_id }
    ensures base { block.new.base ≡ block.old.base }
    ensures ok { OnOk result (AddsLine (coding_of coding) (line_of field.now) (line_uninserted block.old.base
        (draft_at block.old.table.now) (line_of field.now).field (chosen.References entry))
        block.new.table.now lines.old.items lines.new.items) }
    ensures sought { OnOk result (IsSoughtIn block.new.table.now (line_of field.now).field sought.now) }
    ensures err { OnErr result
        (without_references block.new.table.now ≡ without_references block.old.table.now) }
    ensures as_before { OnErr result (lines.new.items ≡ lines.old.items) }
    ensures capacity { vec_capacity lines.old ≤ vec_capacity lines.new }
    ensures still { OnOk result
        (vec_len lines.new ≤ vec_capacity lines.old → vec_capacity lines.new ≡ vec_capacity lines.old) }
{
    if !is_equal(block, field, sought, entry) {
        return Ok(append_alone(coding, field, sought, lines)?);
    }
    let Ok(lookup) = block.reference(Some(entry)) else {
        return Err(NoMemory);
    };
    match lookup {
        DynamicLookupResult::Relative { index, .. } => Ok(Indexed::Dynamic(index).encode(lines)?),
        DynamicLookupResult::PostBase { index, .. } => {
            Ok(IndexedWithPostBase(index).encode(lines)?)
        }
        _ => Ok(append_alone(coding, field, sought, lines)?),
    }
}

/// Returns whether an entry is live and equals a field. Of the newest one this is known.
fn is_equal<I: FindsEntries, F: StoredField>(
    block: &DynamicTableEncoder<'_, I, F>,
    field: &FieldLine<'_>,
    sought: &SoughtField,
    entry: usize,
) -> bool
    requires { IsSoughtIn block.now.table.now (line_of field.now).field sought.now }
    ensures { result ≡ passes_at block.now.table.now (is_field (line_of field.now).field) entry }
{
    sought.newest() == Some(entry) || block.is_equal(entry, field)
}

/// Adds a literal with the name of the newest entry that has it, if it may be referenced, and else one without the
/// dynamic table.
fn append_named<A: Allocator, I: FindsEntries, F: StoredField>(
    coding: Coding,
    block: &mut DynamicTableEncoder<'_, I, F>,
    field: &FieldLine<'_>,
    sought: &SoughtField,
    lines: &mut Vec<u8, A>,
) -> Result<(), NoMemory>
    requires hashes { AreHashesIn (line_of field.now).field sought.now }
    requires static_name { sought.now.static_name ≡ static_name_index (line_of field.now).field.name }
    ensures same_table { block.new.table.ghost_name ≡ block.old.table.ghost_name }
    ensures stream { block.new.stream_id ≡ block.old.stream_id }
    ensures base { block.new.base ≡ block.old.base }
    ensures ok { OnOk result (AddsLine (coding_of coding) (line_of field.now) (literal_chosen block.old.base
        (draft_at block.old.table.now) (line_of field.now).field
        (by_entry chosen.Names (newest_index block.old.table.now (has_name (line_of field.now).field.name))))
        block.new.table.now lines.old.items lines.new.items) }
    ensures sought { OnOk result (IsSoughtIn block.old.table.now (line_of field.now).field sought.now
        → IsSoughtIn block.new.table.now (line_of field.now).field sought.now) }
    ensures err { OnErr result
        (without_references block.new.table.now ≡ without_references block.old.table.now) }
    ensures as_before { OnErr result (lines.new.items ≡ lines.old.items) }
    ensures capacity { vec_capacity lines.old ≤ vec_capacity lines.new }
    ensures still { OnOk result
        (vec_len lines.new ≤ vec_capacity lines.old → vec_capacity lines.new ≡ vec_capacity lines.old) }
{
    let newest = block.newest_name(field, sought);
    let Ok(lookup) = block.reference(newest) else {
        return Err(NoMemory);
    };
    if let DynamicLookupResult::NotFound = lookup {
        return Ok(append_alone(coding, field, sought, lines)?);
    }
    Ok(append_literal(coding, field, lookup, lines)?)
}

/// Inserts a field, and references the new entry, if one more block may be blocked and there is room. Else it is a literal
/// without the dynamic table. Room for the instruction is made before the insertion.
fn append_insertion_or_alone<A: Allocator, B: Allocator, I: FindsEntries, F: StoredField>(
    coding: Coding,
    block: &mut DynamicTableEncoder<'_, I, F>,
    field: &FieldLine<'_>,
    sought: &SoughtField,
    naming: Naming,
    lines: &mut Vec<u8, A>,
    encoder_buf: &mut Vec<u8, B>,
) -> Result<(), NoMemory>
    requires unmarked { field.now.never_indexed ≡ false }
    requires no_static { static_index (line_of field.now).field ≡ None }
    requires sought { IsSoughtIn block.old.table.now (line_of field.now).field sought.now }
    ensures same_table { block.new.table.ghost_name ≡ block.old.table.ghost_name }
    ensures stream { block.new.stream_id ≡ block.old.stream_id }
    ensures base { block.new.base ≡ block.old.base }
    ensures ok { OnOk result (Adds (coding_of coding) (line_chosen (naming_of naming) block.old.base (draft_at block.old.table.now)
        (line_of field.now).field chosen.Inserts)
        block.new.table.now lines.old.items lines.new.items encoder_buf.old.items encoder_buf.new.items) }
    ensures err { OnErr result (StopsAdding (coding_of coding) (line_chosen (naming_of naming) block.old.base (draft_at block.old.table.now)
        (line_of field.now).field chosen.Inserts)
        block.old.table.now block.new.table.now encoder_buf.old.items encoder_buf.new.items) }
    ensures as_before { OnErr result (lines.new.items ≡ lines.old.items) }
    ensures capacity { vec_capacity lines.old ≤ vec_capacity lines.new }
    ensures still { OnOk result
        (vec_len lines.new ≤ vec_capacity lines.old → vec_capacity lines.new ≡ vec_capacity lines.old) }
    ensures instructions { GrowsWithin (4 * field_size (line_of field.now).field) encoder_buf.old encoder_buf.new }
{
    make_room(encoder_buf, instruction_room(block, field))?;
    let Ok(inserted) = block.insert_sought(field, sought, naming) else {
        return Err(NoMemory);
    };
    let Some(insertion) = inserted else {
        return Ok(append_alone(coding, field, sought, lines)?);
    };
    write_instruction(coding, field, &insertion, encoder_buf)?;
    Ok(append_inserted(coding, field, insertion, lines)?)
}

/// Inserts a field without a reference, if there is room, and appends its instruction (RFC 9204, section 2.1.2). Room for
/// the instruction is made before the insertion. On error nothing changes.
fn append_unreferenced<B: Allocator, I: FindsEntries, F: StoredField>(
    coding: Coding,
    block: &mut DynamicTableEncoder<'_, I, F>,
    field: &FieldLine<'_>,
    sought: &SoughtField,
    naming: Naming,
    encoder_buf: &mut Vec<u8, B>,
) -> Result<(), NoMemory>
    requires { IsSoughtIn block.old.table.now (line_of field.now).field sought.now }
    ensures same_table { block.new.table.ghost_name ≡ block.old.table.ghost_name }
    ensures stream { block.new.stream_id ≡ block.old.stream_id }
    ensures base { block.new.base ≡ block.old.base }
    ensures table { OnOk result (block.new.table.now ≡ (unreferenced_chosen (naming_of naming) true
        (draft_at block.old.table.now) (line_of field.now).field).table) }
    ensures written { OnOk result (encoder_buf.new.items ≡ encoder_buf.old.items
        ++ coded_encoder_instructions (coding_of coding) (unreferenced_chosen (naming_of naming) true
        (draft_at block.old.table.now) (line_of field.now).field).instructions) }
    ensures same { OnErr result (block.new.table.now ≡ block.old.table.now) }
    ensures as_before { OnErr result (encoder_buf.new.items ≡ encoder_buf.old.items) }
    ensures instructions { GrowsWithin (4 * field_size (line_of field.now).field) encoder_buf.old encoder_buf.new }
{
    make_room(encoder_buf, instruction_room(block, field))?;
    let Ok(inserted) = block.insert_unreferenced(field, sought, naming) else {
        return Err(NoMemory);
    };
    match inserted {
        Some(insertion) => Ok(write_instruction(coding, field, &insertion, encoder_buf)?),
        None => Ok(()),
    }
}
