//! Sections without a dynamic table, and without an end.

ghost use Rattle.std.specs.Prelude.{◌≡◌, ◌⊎◌, ◌≤◌, ◌*◌, ◌/◌, None, Err, [], length, map, max, min};
ghost use Rattle.qpack_spec.specs.StrictReading.{strict_reading};
ghost use Rattle.qpack_spec.specs.Table.{empty_table, window};
ghost use Rattle.qpack_wire.specs.Memory.{AsksSectionForMemory};
ghost use Rattle.qpack_decoding.specs.FieldSections.{HoldsNothing};
ghost use Rattle.qpack_decoding.specs.Sections.{ReadsSection};
ghost use Rattle.qpack_decoding.specs.declared.section.SectionError.TheVariants.{Memory};
ghost use Rattle.h3_qpack_c.specs.Alone.{DecodesAlone, GivesAlone, told_of_refusal};
ghost use Rattle.qpack_encoding.specs.Encoders.{written_alone};
ghost use Rattle.h3_qpack_c.specs.Crossing.{line_of_lent, copied, told_of_copy};
ghost use Rattle.h3_qpack_c.specs.Statuses.{no_memory};

use crate::answers::{DecodedAlone, Given, Written};
use crate::fields::{Field, give_all, write};
use crate::statuses::{BLOCKED, NO_MEMORY, status_of_line, status_of_section};
use qpack_codec::encoder::encode_section_stateless;
use qpack_ends::{FieldSection, Reading, SectionError, read_section};
use qpack_table::dynamic::ReceivedPackedTable;
use std::alloc::Global;

/// The most room that is made before a section is written, in bytes.
const MOST_ROOM: usize = 4096;

/// The section of no field: a prefix whose count and base are 0 (RFC 9204, section 4.5.1).
const NO_FIELDS: [u8; 2] = [0, 0];

/// How many bytes of a section count as a line when room is made before it is read.
const LINE_LEN: usize = 4;

/// Encodes fields without a dynamic table, and copies the section to the caller's memory if it fits there.
#[unsafe(no_mangle)]
pub extern "C" fn h3q_encode_stateless(
    alloc: Global,
    fields: &[Field],
    section: &mut [u8],
) -> Written
    // Memory is refused only if there is a field.
    ensures { ((result ≡ told_of_copy (written_alone (map line_of_lent fields.now)) section.old)
        × (section.new ≡ copied (written_alone (map line_of_lent fields.now)) section.old))
        ⊎ ((fields.now ≡ [] → ⊥) × (result ≡ record { status = no_memory; len = 0 }) × (section.new ≡ section.old)) }
{
    if fields.is_empty() {
        return write(&NO_FIELDS, section);
    }
    let mut bytes = Vec::new(alloc);
    // As much as the caller expects; if that is refused, the section may find less.
    let _is_made = bytes.reserve(section.len().min(MOST_ROOM)).is_ok();
    if encode_section_stateless(&mut bytes, fields).is_err() {
        return Written {
            status: NO_MEMORY,
            len: 0,
        };
    }
    write(&bytes, section)
}

/// Decodes a section without a dynamic table, up to a limit on the sum of its fields' sizes, and copies its fields to the
/// caller's memory if all fit there.
#[unsafe(no_mangle)]
pub extern "C" fn h3q_decode_stateless(
    alloc: Global,
    section: &[u8],
    max_section_size: u64,
    told: &mut [Given],
    out: &mut [u8],
) -> DecodedAlone
    ensures { DecodesAlone section.now max_section_size told.old told.new out.old out.new result }
{
    let mut fields = FieldSection::new(alloc);
    let (places, room) = (told.len(), out.len());
    let answer = read_alone(alloc, section, max_section_size, places, room, &mut fields);
    tell(&answer, &fields, told, out)
}

/// Reads a section without a dynamic table into a field section that has no memory yet. Before, it makes room for as many
/// fields and bytes as the section may have, but for no more than the caller has room for.
fn read_alone(
    alloc: Global,
    section: &[u8],
    limit: u64,
    most_fields: usize,
    most_bytes: usize,
    fields: &mut FieldSection,
) -> Result<Reading, SectionError>
    requires { HoldsNothing fields.old }
    ensures exact { ReadsSection result fields.new.fields (strict_reading (window (empty_table 0 None 0)) limit section.now) }
    ensures memory { result ≡ Err Memory → AsksSectionForMemory section.now }
    ensures text { fields.new.text_room ≤ max (min (2 * length section.now) most_bytes) limit }
    ensures fields { fields.new.fields_room ≤ max (min (length section.now / 4) most_fields) (limit / 32) }
{
    let (lines, bytes) = (section.len() / LINE_LEN, section.len().saturating_mul(2));
    fields.expect(lines.min(most_fields), bytes.min(most_bytes));
    read_section(
        &ReceivedPackedTable::without_index(alloc),
        section,
        limit,
        fields,
    )
}

/// Returns the result for a section that was read, and copies its fields; or the result for one that is rejected.
fn tell(
    answer: &Result<Reading, SectionError>,
    fields: &FieldSection,
    told: &mut [Given],
    out: &mut [u8],
) -> DecodedAlone
    ensures { GivesAlone answer.now fields.now.fields told.old told.new out.old out.new result }
{
    match answer {
        Ok(Reading::Fields { .. }) => {
            let Written { status, len } = give_all(fields, told, out);
            DecodedAlone {
                status,
                fields: fields.len(),
                len,
                number: 0,
                offset: 0,
            }
        }
        Ok(Reading::Blocked { .. }) => refused(BLOCKED, 0, 0),
        Err(
            SectionError::Line {
                number,
                offset,
                error,
            },
        ) => refused(status_of_line(error), *number as u64, *offset as u64),
        Err(error) => refused(status_of_section(error), 0, 0),
    }
}

/// Returns the result for a section without fields: a status, and where a line was rejected.
fn refused(status: i32, number: u64, offset: u64) -> DecodedAlone
    ensures { result ≡ told_of_refusal status number offset }
{
    DecodedAlone {
        status,
        fields: 0,
        len: 0,
        number,
        offset,
    }
}
