//! A field that is packed into one allocation.

ghost use Rattle.std.specs.Prelude.{◌≡◌, ◌+◌, ◌^◌, ◌<◌, ◌≤◌, ◌++◌, IfOk, IsSome, Some, length, max, slice_get, vec_len, vec_capacity};
ghost use Rattle.std.specs.Option.{option_map};
ghost use Rattle.qpack_spec.specs.StaticTable.{static_table};
ghost use Rattle.qpack_spec.specs.Window.{with_value};

use crate::coding::{NoMemory, append_within};
use crate::field::FieldLine;
use crate::static_::{Error, StaticTable};
use crate::stored_field::StoredField;
use std::alloc::Global;
use std::marker::Model;

/// A name and a value in one allocation. A name of the static table is not copied (RFC 9204, Appendix A). A name of
/// 2^32 bytes or more is refused as [`NoMemory`]. No table holds one.
#[derive(Debug, Drop)]
pub struct PackedField {
    /// The value, and after it the name, unless a static field has the name.
    bytes: Vec<u8>,
    /// How many bytes of a name there are.
    name_len: u32,
    /// The index of a static field with the name.
    static_name: Option<u8>,
}

// Each entry of a table takes these bytes, besides those of its strings.
const _: () = prove!(size_of::<PackedField>() == 32);

impl Model for PackedField {
    ghost use Rattle.qpack_spec.specs.Field.{Field};
    ghost use Rattle.qpack_base.specs.PackedFields.{packed_field, IsPacked};

    ghost Value = { Field };

    ghost view = { λ p. packed_field p.bytes.items p.name_len p.static_name };

    ghost invariant = { λ p. IsPacked p.bytes.items p.name_len p.static_name };
}

impl PackedField {
    /// Returns the field of a value and the name of the static field at an index.
    fn with_name_at(index: usize, value: Vec<u8>) -> PackedField
        requires { IsSome (slice_get static_table index) }
        ensures { option_map (λ f. with_value value.items f) (slice_get static_table index) ≡ Some result }
    {
        PackedField {
            bytes: value,
            name_len: 0,
            static_name: Some(index as u8),
        }
    }

    /// Returns the field of a value and a name, which is appended to it.
    fn with_copied_name(value: Vec<u8>, name: &[u8]) -> Result<PackedField, NoMemory>
        ensures { IfOk result (λ made. made ≡ record { name = name.now; value = value.items }) }
    {
        let Ok(name_len) = u32::try_from(name.len()) else {
            return Err(NoMemory);
        };
        Ok(PackedField {
            bytes: joined(value, name)?,
            name_len,
            static_name: None,
        })
    }
}

/// Appends a name to a value. Reserves exactly the room that is missing.
fn joined(value: Vec<u8>, name: &[u8]) -> Result<Vec<u8>, NoMemory>
    ensures items { IfOk result (λ bytes. bytes.items ≡ value.items ++ name.now) }
    ensures room { IfOk result
        (λ bytes. vec_capacity bytes ≡ max (vec_capacity value) (vec_len value + length name.now)) }
{
    let mut bytes = value;
    append_within(name, name.len(), &mut bytes)?;
    Ok(bytes)
}

/// Copies bytes into a vector, with room for exactly this many more.
fn copied(alloc: Global, bytes: &[u8], more: usize) -> Result<Vec<u8>, NoMemory>
    requires { length bytes.now + more < 2 ^ 64 }
    ensures items { IfOk result (λ copy. copy.items ≡ bytes.now) }
    ensures room { IfOk result (λ copy. vec_capacity copy ≡ length bytes.now + more) }
{
    let empty = Vec::with_capacity(alloc, bytes.len() + more)?;
    joined(empty, bytes)
}

/// A name of the static table is looked up there. Another name is a part of the bytes.
impl StoredField for PackedField {
    ghost field = { λ f. f };

    #[inline(always)]
    fn as_line(&self) -> FieldLine<'_> {
        let bytes = self.bytes.as_slice();
        let (value, own) = bytes.split_at(bytes.len() - self.name_len as usize);
        let name = match self.static_name {
            Some(index) => StaticTable::known_name(index as usize),
            None => own,
        };
        FieldLine::new(name, value)
    }

    fn mem_size(&self) -> usize {
        self.as_line().mem_size()
    }

    #[inline(always)]
    fn copy_of(
        alloc: Global,
        line: &FieldLine<'_>,
        static_name: Option<usize>,
    ) -> Result<PackedField, NoMemory> {
        if let Some(index) = static_name {
            let value = copied(alloc, line.value, 0)?;
            return Ok(PackedField::with_name_at(index, value));
        }
        let value = copied(alloc, line.value, line.name.len())?;
        PackedField::with_copied_name(value, line.name)
    }

    fn from_parts(name: Vec<u8>, value: Vec<u8>) -> Result<PackedField, NoMemory> {
        PackedField::with_copied_name(value, &name)
    }

    fn with_static_name(index: usize, value: Vec<u8>) -> Result<PackedField, Error> {
        StaticTable::name(index)?;
        Ok(PackedField::with_name_at(index, value))
    }

    fn with_value(&self, value: Vec<u8>) -> Result<PackedField, NoMemory> {
        if let Some(index) = self.static_name {
            return Ok(PackedField::with_name_at(index as usize, value));
        }
        let line = self.as_line();
        PackedField::with_copied_name(value, line.name)
    }

    fn duplicate(&self) -> Result<PackedField, NoMemory> {
        Ok(PackedField {
            bytes: copied(*self.bytes.allocator(), &self.bytes, 0)?,
            name_len: self.name_len,
            static_name: self.static_name,
        })
    }
}
