//! Names and values are bytes. Their types say so of each once it is read, and what is proved of a session rests on it.

ghost use Rattle.std.specs.List.{AllByRecursion};
ghost use Rattle.qpack_spec.specs.Huffman.{AreBytes};
ghost use Rattle.qpack_spec.specs.WrittenLaws.{IsByteField};
ghost use Rattle.qpack_base.specs.HeaderFields.{field_of};
ghost use Rattle.qpack_codec.specs.Stateless.{fields_in};

use qpack_base::field::HeaderField;

/// Recalls that the fields are bytes.
pub(super) fn recall_fields(fields: &[HeaderField])
    ensures { AllByRecursion IsByteField (fields_in fields.now) }
{
    for field in fields {
        recall_field(field);
    }
}

/// Recalls that the field's name and its value are bytes.
fn recall_field(field: &HeaderField)
    ensures { IsByteField (field_of field.now) }
{
    recall_bytes(field.name.as_slice());
    recall_bytes(field.value.as_slice());
}

/// Recalls that the numbers of the slice are bytes.
fn recall_bytes(bytes: &[u8])
    ensures { AreBytes bytes.now }
{
    let _len = bytes.len();
}
