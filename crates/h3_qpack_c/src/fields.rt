//! Fields, and bytes, as they cross to C and from it.

ghost use Rattle.std.specs.Prelude.{◌≡◌, ◌≤◌, length, map, min, take, Some};
ghost use Rattle.qpack_base.specs.HeaderFields.{line_of};
ghost use Rattle.h3_qpack_c.specs.Crossing.{written_over, copied, told_of_copy, Gives, no_such_field};
ghost use Rattle.h3_qpack_c.specs.Crossing.{line_of_lent, told_of_field, GivesAll};
ghost use Rattle.h3_qpack_c.specs.Crossing as crossing;

use crate::answers::{Given, Written};
use crate::statuses::{DONE, INVALID, NO_ROOM};
use qpack_codec::encoder::{AsField, Wish};
use qpack_ends::{FieldLine, FieldSection};

/// The flag of a field that is to be inserted.
const INSERT: u8 = 8;

/// The flag of a field for which nothing is to be inserted.
const REUSE: u8 = 16;

/// A borrowed field: its name, its value, and its flags. The lowest flag says that it is never to be indexed (RFC 9204,
/// section 7.1.3), the fourth that it is to be inserted, and the fifth that nothing is to be inserted for it.
#[repr(C)]
#[derive(Clone, Copy)]
pub struct Field<'a> {
    pub name: &'a [u8],
    pub value: &'a [u8],
    pub flags: u8,
}

impl AsField for Field<'_> {
    ghost use Rattle.h3_qpack_c.specs.Crossing.{line_of_lent, wish_of_lent};

    ghost line = { λ f. line_of_lent f };

    ghost wish = { λ f. wish_of_lent f };

    fn as_field(&self) -> FieldLine<'_> {
        FieldLine {
            name: self.name,
            value: self.value,
            never_indexed: self.flags % 2 == 1,
        }
    }

    fn wish(&self) -> Wish {
        if self.flags % 2 == 1 {
            Wish::Never
        } else if self.flags / REUSE % 2 == 1 {
            Wish::Reuse
        } else if self.flags / INSERT % 2 == 1 {
            Wish::Insert
        } else {
            Wish::Unmarked
        }
    }
}

/// Copies bytes to the front of a caller's memory, if they fit. Otherwise the memory is unchanged.
pub(crate) fn write(bytes: &[u8], out: &mut [u8]) -> Written
    ensures told { result ≡ told_of_copy bytes.now out.old }
    ensures copied { out.new ≡ copied bytes.now out.old }
{
    let len = bytes.len();
    if len > out.len() {
        return Written {
            status: NO_ROOM,
            len,
        };
    }
    copy_over(bytes, out);
    Written { status: DONE, len }
}

/// Copies as many bytes to the front of a caller's memory as it has room for, and returns their number.
pub(crate) fn copy_front(bytes: &[u8], out: &mut [u8]) -> usize
    ensures many { result ≡ min (length bytes.now) (length out.old) }
    ensures copied { out.new ≡ written_over (take (min (length bytes.now) (length out.old)) bytes.now) out.old }
{
    let many = bytes.len().min(out.len());
    copy_over(&bytes[..many], out);
    many
}

/// Copies bytes to the front of memory in which they fit.
fn copy_over(bytes: &[u8], out: &mut [u8])
    requires { length bytes.now ≤ length out.old }
    ensures { out.new ≡ written_over bytes.now out.old }
{
    let (front, _) = out.split_at_mut(bytes.len());
    front.copy_from_slice(bytes);
}

/// Returns the result for a field that does not exist.
pub(crate) fn no_field() -> Given
    ensures { result ≡ no_such_field }
{
    Given {
        status: INVALID,
        flags: 0,
        name: 0,
        value: 0,
    }
}

/// Copies the name and the value of a field to a caller's memory, one after the other, if both fit.
pub(crate) fn give(field: &FieldLine, out: &mut [u8]) -> Given
    ensures { Gives (Some (line_of field.now)) out.old out.new result }
{
    let (name, value) = (field.name.len(), field.value.len());
    let fits = name <= out.len() && value <= out.len() - name;
    if fits {
        let (front, rest) = out.split_at_mut(name);
        front.copy_from_slice(field.name);
        copy_over(field.value, rest);
    }
    Given {
        status: if fits { DONE } else { NO_ROOM },
        flags: if field.never_indexed { 1 } else { 0 },
        name,
        value,
    }
}

/// Returns the result for a field whose name and value are copied.
fn told_of(field: &FieldLine) -> Given
    ensures { result ≡ told_of_field (line_of field.now) }
{
    Given {
        status: DONE,
        flags: if field.never_indexed { 1 } else { 0 },
        name: field.name.len(),
        value: field.value.len(),
    }
}

/// Copies the fields of a section to a caller's memory, if there is room for an entry of each, and for their names and
/// values one after the other. Returns how many bytes the names and values have.
pub(crate) fn give_all(section: &FieldSection, told: &mut [Given], out: &mut [u8]) -> Written
    ensures { GivesAll section.now.fields told.old told.new out.old out.new result }
{
    let text = section.text();
    let len = text.len();
    if section.len() > told.len() || len > out.len() {
        return Written {
            status: NO_ROOM,
            len,
        };
    }
    tell_all(section, told);
    copy_over(text, out);
    Written { status: DONE, len }
}

/// Returns the size of a list of fields in bytes, at most 2^64 - 1 (RFC 9114, section 4.2.2).
pub(crate) fn list_size(fields: &[Field]) -> usize
    ensures { result ≡ crossing.list_size (map line_of_lent fields.now) }
{
    let mut size = 0usize;
    for field in fields {
        size = size.saturating_add(field.as_field().mem_size());
    }
    size
}

/// Puts the result for each field of a section into memory that has room for them.
fn tell_all(section: &FieldSection, told: &mut [Given])
    requires { length section.now.fields ≤ length told.old }
    ensures { told.new ≡ written_over (map told_of_field section.now.fields) told.old }
{
    for index in 0..section.len() {
        if let Some(field) = section.get(index) {
            told[index] = told_of(&field);
        }
    }
}
