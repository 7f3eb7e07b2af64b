//! Field sections that reference no entry, of borrowed field lines (RFC 9204, sections 2.1 and 4.5).

ghost use Rattle.std.specs.Prelude.{◌≡◌, ◌+◌, ◌++◌, ◌≤◌, true, map, IfErr, IsOk, OnOk, OnErr, length, take, vec_len};
ghost use Rattle.std.specs.Prelude.{vec_capacity};
ghost use Rattle.qpack_spec.specs.Line.{coded_line, coded_marked_line};
ghost use Rattle.qpack_spec.specs.Marked.{stateless_line_marked, stateless_block_marked, coded_marked_block};
ghost use Rattle.qpack_spec.specs.Stateless.{stateless_line, stateless_literal};
ghost use Rattle.qpack_spec.specs.StaticTable.{static_name_index};
ghost use Rattle.qpack_spec.specs.Text.{WhereShorter};
ghost use Rattle.qpack_base.specs.Codings.{coding_of};
ghost use Rattle.qpack_base.specs.HeaderFields.{line_of};
ghost use Rattle.qpack_base.specs.Writes.{Writes};
ghost use Rattle.qpack_codec.specs.declared.error.EncoderError.TheVariants.{Memory};

use crate::encoder::AsField;
use crate::encoder::fields::for_memory;
use crate::error::EncoderError;
use qpack_base::coding::NoMemory;
use qpack_base::field::FieldLine;
use qpack_base::prefix_string::Coding;
use qpack_base::static_::{StaticMatch, StaticTable};
use qpack_wire::block::{HeaderPrefix, Indexed, Literal, LiteralWithNameRef};
use std::alloc::Allocator;

/// Appends the section of field lines that is written without a dynamic table, as `encode_stateless` writes it, but
/// with strings coded only where that makes them shorter: it references no entry, and is never blocked. A field line that is never to be indexed becomes a literal with that
/// mark, by the first static field of its name if there is one (RFC 9204, section 7.1.3). A vector with room for the
/// section does not grow. On error, which is for memory only, the vector is unchanged.
pub fn encode_section_stateless<A: Allocator, H: AsField>(
    block: &mut Vec<u8, A>,
    fields: &[H],
) -> Result<(), EncoderError>
    ensures ok { OnOk result (block.new.items ≡ block.old.items
        ++ coded_marked_block WhereShorter (map H.line fields.now) (stateless_block_marked (map H.line fields.now))) }
    ensures err { OnErr result (block.new.items ≡ block.old.items) }
    ensures memory { IfErr result (λ e. e ≡ Memory) }
    ensures succeeds { vec_len block.old + length (coded_marked_block WhereShorter (map H.line fields.now)
        (stateless_block_marked (map H.line fields.now))) ≤ vec_capacity block.old → IsOk result }
    ensures capacity { vec_capacity block.old ≤ vec_capacity block.new }
    ensures still { OnOk result
        (vec_len block.new ≤ vec_capacity block.old → vec_capacity block.new ≡ vec_capacity block.old) }
{
    let len = block.len();
    let appended = append_section(Coding::WhereShorter, block, fields);
    if appended.is_err() {
        block.truncate(len);
    }
    Ok(appended?)
}

/// Appends the section. On error the earlier bytes are still at the front.
pub(crate) fn append_section<A: Allocator, H: AsField>(
    coding: Coding,
    block: &mut Vec<u8, A>,
    fields: &[H],
) -> Result<(), NoMemory>
    ensures ok { OnOk result (block.new.items ≡ block.old.items
        ++ coded_marked_block (coding_of coding) (map H.line fields.now) (stateless_block_marked (map H.line fields.now))) }
    ensures err { OnErr result (take (vec_len block.old) block.new.items ≡ block.old.items) }
    ensures succeeds { vec_len block.old + length (coded_marked_block (coding_of coding) (map H.line fields.now)
        (stateless_block_marked (map H.line fields.now))) ≤ vec_capacity block.old → IsOk result }
    ensures capacity { vec_capacity block.old ≤ vec_capacity block.new }
    ensures still { OnOk result
        (vec_len block.new ≤ vec_capacity block.old → vec_capacity block.new ≡ vec_capacity block.old) }
{
    HeaderPrefix::new(0, 0, 0, 0).encode(block)?;
    for field in fields {
        append_line(coding, block, &field.as_field())?;
    }
    Ok(())
}

/// Appends the line of a field. On error the vector is unchanged.
fn append_line<A: Allocator>(
    coding: Coding,
    block: &mut Vec<u8, A>,
    field: &FieldLine<'_>,
) -> Result<(), NoMemory>
    ensures writes { Writes (coded_marked_line (coding_of coding) field.now.never_indexed
        (stateless_line_marked (line_of field.now))) block.old block.new result }
{
    if field.never_indexed {
        return append_never_indexed(coding, block, field.name, field.value);
    }
    append_unmarked(coding, block, field.name, field.value)
}

/// Appends the line of a field that may be indexed: a static index, a static name with the value, or both in full. On
/// error the vector is unchanged.
#[tactic(auto, using(crate::proofs::Alike::writes_alike), unfolding(qpack_spec::specs::Line::coded_marked_line, qpack_spec::specs::Line::coded_line))]
pub(crate) fn append_unmarked<A: Allocator>(
    coding: Coding,
    block: &mut Vec<u8, A>,
    name: &[u8],
    value: &[u8],
) -> Result<(), NoMemory>
    ensures writes { Writes (coded_line (coding_of coding) (stateless_line (record { name = name.now; value = value.now })))
        block.old block.new result }
{
    match StaticTable::lookup(name, value) {
        Some(StaticMatch::Field(index)) => Indexed::Static(index).encode(block),
        Some(StaticMatch::Name(index)) => {
            for_memory(LiteralWithNameRef::write_static_marked(coding, index, value, false, block))
        }
        None => for_memory(Literal::write_marked(coding, name, value, false, block)),
    }
}

/// Appends the literal of a field that is never to be indexed. On error the vector is unchanged.
#[tactic(auto, using(crate::proofs::Alike::writes_alike))]
fn append_never_indexed<A: Allocator>(
    coding: Coding,
    block: &mut Vec<u8, A>,
    name: &[u8],
    value: &[u8],
) -> Result<(), NoMemory>
    ensures writes { Writes (coded_marked_line (coding_of coding) true (stateless_literal (record { name = name.now; value = value.now })
        (static_name_index name.now))) block.old block.new result }
{
    match StaticTable::find_name(name) {
        Some(index) => for_memory(LiteralWithNameRef::write_static_marked(
            coding, index, value, true, block,
        )),
        None => for_memory(Literal::write_marked(coding, name, value, true, block)),
    }
}
