//! Header fields: a name and a value (RFC 9204, section 1.1).

ghost use Rattle.std.specs.Prelude.{◌≡◌, ◌+◌, ◌-◌, ◌^◌, ◌↔◌, true, min, fold, IfOk, IsTrue, string_bytes};
ghost use Rattle.qpack_spec.specs.Field.{field_size, unmarked};
ghost use Rattle.std.specs.Ordering.{is_eq};
ghost use Rattle.qpack_base.specs.HeaderFields.{field_of, line_of, field_cmp, text_of, hash_input_of};

use crate::coding::NoMemory;
use bstr::ByteSlice;
use std::alloc::Global;
use std::borrow::CowSlice;
use std::cmp::Ordering;
use std::fmt;
use std::hash::{Hash, Hasher};

/// What a table counts for an entry besides its name and its value, in bytes (RFC 9204, section 3.2.1).
pub const ESTIMATED_OVERHEAD_BYTES: usize = 32;

/// A name and a value, each borrowed for 'static or owned. Two fields are equal, and hash alike, exactly if their names
/// and their values are the same bytes; they are ordered by name, then by value, byte by byte.
#[derive(Debug, PartialEq, Eq, PartialOrd, Ord, Hash, Clone, Drop)]
pub struct HeaderField {
    pub name: CowSlice<'static, u8>,
    pub value: CowSlice<'static, u8>,
}

impl HeaderField {
    /// Returns the field of two byte vectors.
    pub fn new(name: Vec<u8>, value: Vec<u8>) -> HeaderField
        ensures { field_of result ≡ record { name = name.items; value = value.items } }
    {
        HeaderField {
            name: CowSlice::Owned(name),
            value: CowSlice::Owned(value),
        }
    }

    /// Copies two byte slices into a field.
    pub fn from_pair(alloc: Global, name: &[u8], value: &[u8]) -> Result<HeaderField, NoMemory>
        ensures { IfOk result (λ field. field_of field ≡ record { name = name.now; value = value.now }) }
    {
        let name = Vec::from_slice(alloc, name)?;
        let value = Vec::from_slice(alloc, value)?;
        Ok(HeaderField::new(name, value))
    }

    /// Returns the size of the field in a table, in bytes, at most 2^64 - 1 (RFC 9204, section 3.2.1).
    pub fn mem_size(&self) -> usize
        ensures { result ≡ min (field_size (field_of self.now)) (2 ^ 64 - 1) }
    {
        self.as_line().mem_size()
    }

    /// Borrows the field as a line that may be indexed.
    #[inline(always)]
    pub fn as_line(&self) -> FieldLine<'_>
        ensures { line_of result ≡ unmarked (field_of self.now) }
    {
        FieldLine::new(self.name.as_slice(), self.value.as_slice())
    }

    /// Returns the field with another value.
    pub fn with_value(&self, value: Vec<u8>) -> Result<HeaderField, NoMemory>
        ensures { IfOk result (λ field. field_of field ≡
            record { name = (field_of self.now).name; value = value.items }) }
    {
        Ok(HeaderField {
            name: self.name.clone()?,
            value: CowSlice::Owned(value),
        })
    }

    /// Returns the name and the value.
    pub fn into_inner(self) -> (CowSlice<'static, u8>, CowSlice<'static, u8>)
        ensures { result ≡ (self.name, self.value) }
    {
        (self.name, self.value)
    }

    /// Returns the name, a TAB and the value as text, with U+FFFD in place of bytes that are not UTF-8.
    pub fn to_text(&self, alloc: Global) -> Result<String, NoMemory>
        ensures { IfOk result (λ text. string_bytes text ≡ text_of (field_of self.now)) }
    {
        let mut text = String::new(alloc);
        self.name.as_slice().to_str_lossy_into(&mut text)?;
        text.push('\t')?;
        self.value.as_slice().to_str_lossy_into(&mut text)?;
        Ok(text)
    }
}

/// A field line (RFC 9110, section 5): a borrowed field, and whether it is to stay a literal wherever it is sent on
/// (RFC 9204, section 7.1.3).
#[derive(Clone, Copy, Debug, PartialEq, Drop)]
pub struct FieldLine<'a> {
    /// The name.
    pub name: &'a [u8],
    /// The value.
    pub value: &'a [u8],
    /// Whether the field is never to be indexed: anyone who sends it on must send it as a literal with that mark.
    pub never_indexed: bool,
}

impl<'a> FieldLine<'a> {
    /// Returns the line of a field that may be indexed.
    #[inline(always)]
    pub fn new(name: &'a [u8], value: &'a [u8]) -> FieldLine<'a>
        ensures { line_of result ≡ unmarked (record { name = name.now; value = value.now }) }
    {
        FieldLine {
            name,
            value,
            never_indexed: false,
        }
    }

    /// Returns the line of a field that is never to be indexed.
    #[inline(always)]
    pub fn never_indexed(name: &'a [u8], value: &'a [u8]) -> FieldLine<'a>
        ensures { line_of result ≡
            record { field = record { name = name.now; value = value.now }; never_indexed = true } }
    {
        FieldLine {
            name,
            value,
            never_indexed: true,
        }
    }

    /// Returns the size of the field in a table, in bytes, at most 2^64 - 1 (RFC 9204, section 3.2.1).
    pub fn mem_size(&self) -> usize
        ensures { result ≡ min (field_size (line_of self.now).field) (2 ^ 64 - 1) }
    {
        self.name
            .len()
            .saturating_add(self.value.len())
            .saturating_add(ESTIMATED_OVERHEAD_BYTES)
    }
}

impl fmt::Display for HeaderField {
    fn fmt<W: fmt::Write>(&self, f: &mut fmt::Formatter<W>) -> fmt::Result {
        let name = self.name.as_slice().as_bstr();
        let value = self.value.as_slice().as_bstr();
        write!(f, "\"{name}\": \"{value}\"")
    }
}

/// Returns what `==` returns: whether the two names and the two values are the same bytes, however each is stored.
pub fn equality_is_of_bytes(field: &HeaderField, other: &HeaderField) -> bool
    ensures operator { result ≡ ⟦<HeaderField as PartialEq>⟧.eq field.now other.now }
    ensures bytes { IsTrue result ↔ (field_of field.now ≡ field_of other.now) }
{
    field == other
}

/// Returns what `cmp` returns: the order of the names, then that of the values, each byte by byte. Only equal fields
/// tie.
pub fn order_is_of_bytes(field: &HeaderField, other: &HeaderField) -> Ordering
    ensures operator { result ≡ ⟦<HeaderField as Ord>⟧.cmp field.now other.now }
    ensures bytes { result ≡ field_cmp (field_of field.now) (field_of other.now) }
    ensures equal { IsTrue (is_eq result) ↔ (field_of field.now ≡ field_of other.now) }
{
    field.cmp(other)
}

/// Feeds one field to a hasher and another to a second one, whatever hashers they are, and returns whether the fields
/// are equal. A hasher gets the length and the bytes of the name, then those of the value, however they are stored: so
/// equal fields hash alike.
pub fn equal_fields_hash_alike<H: Hasher>(
    field: &HeaderField,
    other: &HeaderField,
    first: &mut H,
    second: &mut H,
) -> bool
    ensures equal { IsTrue result ↔ (field_of field.now ≡ field_of other.now) }
    ensures first { first.new ≡ fold H.write first.old (hash_input_of (field_of field.now)) }
    ensures second { second.new ≡ fold H.write second.old (hash_input_of (field_of other.now)) }
    // What `Hash` feeds any hasher.
    ensures input { ⟦<HeaderField as Hash>⟧.hash_input field.now ≡ hash_input_of (field_of field.now) }
    ensures alike { IsTrue result → first.old ≡ second.old → first.new ≡ second.new }
{
    field.hash(first);
    other.hash(second);
    equality_is_of_bytes(field, other)
}
