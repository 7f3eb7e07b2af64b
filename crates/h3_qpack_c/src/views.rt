//! Fields where they lie in the memory of an end.

ghost use Rattle.std.specs.Prelude.{◌≡◌, ◌<◌, IfSome};
ghost use Rattle.qpack_base.specs.HeaderFields.{line_of};
ghost use Rattle.qpack_spec.specs.StaticTable.{static_index, static_name_index};
ghost use Rattle.h3_qpack_c.specs.Views.{Views, view_of as view_of_field};
ghost use Rattle.h3_qpack_c.specs.Views as views;

use crate::statuses::{DONE, INVALID};
use crate::{decoder, reader};
use qpack_base::static_::{StaticMatch, StaticTable};
use qpack_ends::{FieldLine, FieldSection, PlacedField};

/// A field where it lies in the memory of an end.
#[repr(C)]
#[derive(Clone, Copy)]
pub struct View {
    /// Where the text of the section's fields lies.
    pub text: *const u8,
    /// Where the name begins there, which the value follows.
    pub start: usize,
    /// How many bytes the name has.
    pub name: usize,
    /// How many bytes the value has.
    pub value: usize,
    /// The lowest bit says that the field is never to be indexed.
    pub flags: u32,
    /// The first index of the static table that has the name (RFC 9204, Appendix A), or -1.
    pub static_name: i16,
    /// The first index that has the name and the value, or -1.
    pub static_field: i16,
}

/// The number for an index of the static table that does not exist.
const NO_INDEX: i16 = -1;

/// Returns the number of an index of the static table.
fn number_of(index: Option<usize>) -> i16
    requires { IfSome index (λ i. i < 99) }
    ensures { result ≡ views.number_of index }
{
    match index {
        Some(index) => index as i16,
        None => NO_INDEX,
    }
}

/// Returns the number of the first index of the static table with a name.
#[tactic(auto, using(crate::proofs::StaticNumbers::name_number))]
fn number_of_name(name: &[u8]) -> i16
    ensures { result ≡ views.number_of (static_name_index name.now) }
{
    number_of(StaticTable::find_name(name))
}

/// What the static table has of a field.
struct StaticNumbers {
    name: i16,
    field: i16,
}

/// Returns the first indexes of the static table that have a field's name, and its name and value.
#[tactic(auto, using(crate::proofs::StaticNumbers::field_number, crate::proofs::StaticNumbers::first_number))]
fn static_numbers(field: &FieldLine) -> StaticNumbers
    ensures name { result.name ≡ views.number_of (static_name_index (line_of field.now).field.name) }
    ensures field { result.field ≡ views.number_of (static_index (line_of field.now).field) }
{
    match StaticTable::lookup(field.name, field.value) {
        Some(StaticMatch::Field(index)) => StaticNumbers {
            name: number_of_name(field.name),
            field: number_of(Some(index)),
        },
        Some(StaticMatch::Name(index)) => StaticNumbers {
            name: number_of(Some(index)),
            field: NO_INDEX,
        },
        None => StaticNumbers {
            name: NO_INDEX,
            field: NO_INDEX,
        },
    }
}

/// Returns the view of a field in a text that lies here.
fn view_of(text: *const u8, placed: &PlacedField) -> View
    ensures { result ≡ view_of_field text placed.now.start (line_of placed.now.field) }
{
    let PlacedField { start, field } = *placed;
    let StaticNumbers {
        name: static_name,
        field: static_field,
    } = static_numbers(&field);
    View {
        text,
        start,
        name: field.name.len(),
        value: field.value.len(),
        flags: if field.never_indexed { 1 } else { 0 },
        static_name,
        static_field,
    }
}

/// Stores the view of the field at an index of a section, if there is one.
fn store_view(section: &FieldSection, index: usize, out: &mut View) -> i32
    ensures { Views section.now index out.old out.new result }
{
    let Some(placed) = section.placed(index) else {
        return INVALID;
    };
    *out = view_of(section.text_ptr(), &placed);
    DONE
}

/// Stores where a field lies of the section that was decoded last, until the decoder decodes again.
#[unsafe(no_mangle)]
pub extern "C" fn h3q_decoder_view(
    handle: &mut decoder::Handle,
    index: usize,
    out: &mut View,
) -> i32
    ensures same { handle.new.value ≡ handle.old.value }
    ensures views { Views handle.old.value.fields index out.old out.new result }
{
    let state = decoder::state(handle);
    let status = store_view(&state.fields, index, out);
    status
}

/// Stores where the field lies that the reader gave last, until the reader reads on.
#[unsafe(no_mangle)]
pub extern "C" fn h3q_reader_view(handle: &mut reader::Handle, out: &mut View) -> i32
    ensures same { handle.new.value ≡ handle.old.value }
    ensures views { Views handle.old.value.fields 0 out.old out.new result }
{
    let state = reader::state(handle);
    let status = store_view(&state.fields, 0, out);
    status
}
