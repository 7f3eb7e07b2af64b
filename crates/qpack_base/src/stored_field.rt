//! How a table stores the fields of its entries.

ghost use Rattle.std.specs.Prelude.{◌≡◌, ◌≤◌, ◌-◌, ◌^◌, min, IfOk, IfErr, IfSome, Some, length, slice_get};
ghost use Rattle.std.specs.Option.{option_map};
ghost use Rattle.qpack_spec.specs.Field.{Field, field_size, unmarked};
ghost use Rattle.qpack_spec.specs.StaticTable.{static_table, IsLeastStatic};
ghost use Rattle.qpack_spec.specs.Window.{with_value};
ghost use Rattle.qpack_base.specs.HeaderFields.{field_of, line_of};
ghost use Rattle.qpack_base.specs.declared.static_.Error.TheVariants.{Unknown};

use crate::coding::NoMemory;
use crate::field::{FieldLine, HeaderField};
use crate::static_::{Error, StaticTable};
pub use packed::PackedField;
use std::alloc::Global;
use std::borrow::CowSlice;

mod packed;

/// How a table stores the field of an entry: as a [`HeaderField`], or packed into one allocation ([`PackedField`]). A
/// call that returns [`NoMemory`] drops the vectors that it was passed.
pub trait StoredField: Drop {
    // The name and the value.
    ghost field: { Self → Field };

    /// Borrows the field as a line that may be indexed.
    fn as_line(&self) -> FieldLine<'_>
        ensures { line_of result ≡ unmarked (field self.now) };

    /// Returns the size of the field in a table, in bytes, at most 2^64 - 1 (RFC 9204, section 3.2.1).
    fn mem_size(&self) -> usize
        ensures { result ≡ min (field_size (field self.now)) (2 ^ 64 - 1) };

    /// Copies a field. If a static field has its name, pass the least index of one. The name is then not copied.
    fn copy_of(
        alloc: Global,
        line: &FieldLine<'_>,
        static_name: Option<usize>,
    ) -> Result<Self, NoMemory>
        requires { IfSome static_name (IsLeastStatic (λ f. f.name ≡ line.now.name.now)) }
        ensures { IfOk result (λ copy. field copy ≡ (line_of line.now).field) };

    /// Returns the field of a name and a value.
    fn from_parts(name: Vec<u8>, value: Vec<u8>) -> Result<Self, NoMemory>
        ensures { IfOk result (λ made. field made ≡ record { name = name.items; value = value.items }) };

    /// Returns the field with the name of the static field at an index, from 0 to 98, and another value (RFC 9204,
    /// Appendix A).
    fn with_static_name(index: usize, value: Vec<u8>) -> Result<Self, Error>
        ensures found { IfOk result (λ made.
            option_map (λ f. with_value value.items f) (slice_get static_table index) ≡ Some (field made)) }
        ensures unknown { IfErr result (λ e. (e ≡ Unknown index) × (length static_table ≤ index)) };

    /// Returns the field with this name and another value.
    fn with_value(&self, value: Vec<u8>) -> Result<Self, NoMemory>
        ensures { IfOk result (λ made. field made ≡ record { name = (field self.now).name; value = value.items }) };

    /// Returns a copy of the field.
    fn duplicate(&self) -> Result<Self, NoMemory>
        ensures { IfOk result (λ copy. field copy ≡ field self.now) };
}

/// The name and the value are stored apart. A name of the static table is borrowed.
impl StoredField for HeaderField {
    ghost field = { field_of };

    #[inline(always)]
    fn as_line(&self) -> FieldLine<'_> {
        HeaderField::as_line(self)
    }

    fn mem_size(&self) -> usize {
        HeaderField::mem_size(self)
    }

    #[inline(always)]
    fn copy_of(
        alloc: Global,
        line: &FieldLine<'_>,
        static_name: Option<usize>,
    ) -> Result<HeaderField, NoMemory> {
        let Some(index) = static_name else {
            return HeaderField::from_pair(alloc, line.name, line.value);
        };
        Ok(HeaderField {
            name: CowSlice::Borrowed(StaticTable::known_name(index)),
            value: CowSlice::Owned(Vec::from_slice(alloc, line.value)?),
        })
    }

    fn from_parts(name: Vec<u8>, value: Vec<u8>) -> Result<HeaderField, NoMemory> {
        Ok(HeaderField::new(name, value))
    }

    fn with_static_name(index: usize, value: Vec<u8>) -> Result<HeaderField, Error> {
        Ok(HeaderField {
            name: CowSlice::Borrowed(StaticTable::name(index)?),
            value: CowSlice::Owned(value),
        })
    }

    fn with_value(&self, value: Vec<u8>) -> Result<HeaderField, NoMemory> {
        HeaderField::with_value(self, value)
    }

    fn duplicate(&self) -> Result<HeaderField, NoMemory> {
        Ok(self.clone()?)
    }
}
