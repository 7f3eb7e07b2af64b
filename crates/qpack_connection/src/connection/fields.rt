//! Owned field lines, as a connection keeps those that were passed to its encoding end.

ghost use Rattle.std.specs.Prelude.{◌≡◌, ◌<◌, ◌^◌, IfOk, length};
ghost use Rattle.std.specs.List.{AllByRecursion};
ghost use Rattle.qpack_spec.specs.Field.{fields_of_lines};
ghost use Rattle.qpack_spec.specs.Huffman.{AreBytes};
ghost use Rattle.qpack_spec.specs.WrittenLaws.{IsByteField};
ghost use Rattle.qpack_base.specs.HeaderFields.{line_of};
ghost use Rattle.qpack_connection.specs.OwnedLines.{line_of as line_of_owned, lines_of};

use qpack_base::coding::NoMemory;
use qpack_base::field::FieldLine;
use qpack_codec::encoder::{AsField, Wish};
use std::alloc::Global;

/// A field line that owns its name and its value (RFC 9110, section 5).
#[derive(Debug, Drop)]
pub struct OwnedFieldLine {
    /// The name.
    pub name: Vec<u8>,
    /// The value.
    pub value: Vec<u8>,
    /// Whether the field is never to be indexed (RFC 9204, section 7.1.3); so it is, too, by the wish `Never`.
    pub never_indexed: bool,
    /// The wish for the field, which the encoding end takes into account.
    pub wish: Wish,
}

impl OwnedFieldLine {
    /// Returns a copy of a field line, with the wish of its mark.
    pub fn copy(alloc: Global, line: FieldLine<'_>) -> Result<OwnedFieldLine, NoMemory>
        ensures { IfOk result (λ owned. line_of_owned owned ≡ line_of line.entry) }
    {
        Ok(OwnedFieldLine {
            name: Vec::from_slice(alloc, line.name)?,
            value: Vec::from_slice(alloc, line.value)?,
            never_indexed: line.never_indexed,
            wish: Wish::of_mark(line.never_indexed),
        })
    }
}

impl AsField for OwnedFieldLine {
    ghost line = { λ x. line_of_owned x };

    ghost wish = { λ x. x.wish };

    fn as_field(&self) -> FieldLine<'_> {
        FieldLine {
            name: &self.name,
            value: &self.value,
            never_indexed: self.wish == Wish::Never || self.never_indexed,
        }
    }

    fn wish(&self) -> Wish {
        self.wish
    }
}

/// Recalls that the fields are bytes. Their types say so of each once it is read, and what is proved of a connection
/// rests on it.
pub(super) fn recall_fields(fields: &[OwnedFieldLine])
    ensures { AllByRecursion IsByteField (fields_of_lines (lines_of fields.now)) }
{
    for field in fields {
        recall_field(field);
    }
}

/// Recalls that the field's name and its value are bytes.
fn recall_field(field: &OwnedFieldLine)
    ensures { IsByteField (line_of_owned field.now).field }
{
    recall_bytes(&field.name);
    recall_bytes(&field.value);
}

/// Recalls that the numbers of the slice are bytes.
fn recall_bytes(bytes: &[u8])
    ensures { AreBytes bytes.now }
{
    let _len = bytes.len();
}

/// Recalls that what is in memory takes fewer than 2^63 bytes.
pub(super) fn recall_length(bytes: &[u8])
    ensures { length bytes.now < 2 ^ 63 }
{
    let _len = bytes.len();
}
