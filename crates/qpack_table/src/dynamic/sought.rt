//! The newest live entry with a field or with a name, found by the index. A field is looked up once: later questions to
//! the table about it hash and search nothing again.

ghost use Rattle.std.specs.Prelude.{◌≡◌, None, IfSome, length};
ghost use Rattle.qpack_base.specs.HeaderFields.{line_of, field_of};
ghost use Rattle.qpack_spec.specs.Field.{has_name, is_field};
ghost use Rattle.qpack_spec.specs.StaticTable.{static_name_index};
ghost use Rattle.qpack_spec.specs.Table.{newest_index};
ghost use Rattle.qpack_table.specs.Handles.{AreHashesIn, IsSoughtIn};
ghost use Rattle.qpack_table.specs.Hashes.{name_hash};
ghost use Rattle.qpack_table.specs.Indexes.{AreHashesOf, AreSeededHashesOf};
ghost use Rattle.qpack_table.specs.Rows.{Counts};

use crate::dynamic::comparing::Steps;
use crate::dynamic::entry_index::FindsEntries;
use crate::dynamic::index::{Hashes, SeededHashes};
use crate::dynamic::table::DynamicTable;
use crate::vas::AbsoluteIndex;
use qpack_base::field::{FieldLine, HeaderField};
use qpack_base::stored_field::StoredField;

/// What is known of a field that was sought.
#[derive(Debug, Clone, Copy)]
pub struct SoughtField {
    /// Its hashes, which are not computed if there is no entry.
    pub(super) hashes: Option<SeededHashes>,
    /// The absolute index of the newest live entry that is the field.
    pub(super) newest: Option<AbsoluteIndex>,
    /// The least index of a static field with its name.
    pub(super) static_name: Option<usize>,
}

impl SoughtField {
    /// Returns a field whose value is not looked for: no entry counts as equal, and only its static name is known.
    pub fn name_alone(static_name: Option<usize>) -> SoughtField
        ensures { result ≡ record { hashes = None; newest = None; static_name = static_name } }
    {
        SoughtField {
            hashes: None,
            newest: None,
            static_name,
        }
    }

    /// Returns the absolute index of the newest live entry that equals the field.
    pub fn newest(&self) -> Option<AbsoluteIndex>
        ensures { result ≡ self.now.newest }
    {
        self.newest
    }

    /// Returns the least index of a static field with its name.
    pub fn static_name(&self) -> Option<usize>
        ensures { result ≡ self.now.static_name }
    {
        self.static_name
    }

    /// Returns the hashes of the field under the seed 0, which are the same for every table. Computes them unless they
    /// are known.
    #[inline(always)]
    pub fn unseeded(&self, field: &FieldLine<'_>) -> Hashes
        requires { AreHashesIn (line_of field.now).field self.now }
        ensures { AreHashesOf 0 result (line_of field.now).field }
    {
        self.hashes_under(0, field).hashes
    }

    /// Returns its hashes under a seed. Computes them unless they are known.
    #[inline(always)]
    pub(super) fn hashes_under(&self, seed: u64, field: &FieldLine<'_>) -> SeededHashes
        requires { AreHashesIn (line_of field.now).field self.now }
        ensures seed { result.seed ≡ seed }
        ensures hashes { AreSeededHashesOf result (line_of field.now).field }
    {
        match self.hashes {
            Some(known) => known.reseeded(seed, field),
            None => SeededHashes::of(seed, field),
        }
    }
}

impl<I: FindsEntries, F: StoredField> DynamicTable<I, F> {
    /// Seeks a field; `static_name` is the index of its name in the static table, if it has one. If there is no entry,
    /// nothing is hashed.
    #[inline(always)]
    pub(super) fn seek(&self, field: &FieldLine<'_>, static_name: Option<usize>) -> SoughtField
        requires { static_name ≡ static_name_index (line_of field.now).field.name }
        ensures { IsSoughtIn self.now (line_of field.now).field result }
    {
        if self.entries.is_empty() {
            return SoughtField {
                hashes: None,
                newest: None,
                static_name,
            };
        }
        let hashes = self.index.hashes_of(field);
        SoughtField {
            hashes,
            newest: self.newest_hashed(field, hashes),
            static_name,
        }
    }

    /// Returns the key of a field that was sought, by which the index finds it.
    #[inline(always)]
    pub(super) fn key_of_sought(&self, field: &FieldLine<'_>, sought: &SoughtField) -> I::Key
        requires { AreHashesIn (line_of field.now).field sought.now }
        ensures { I.is_key_of result (line_of field.now).field }
    {
        self.index.key_of_known(field, sought.hashes)
    }

    /// Returns the absolute index of the newest live entry with the name of a field that was sought.
    #[inline(always)]
    pub(super) fn newest_sought_name(
        &self,
        name: &[u8],
        sought: &SoughtField,
    ) -> Option<AbsoluteIndex>
        requires { IfSome sought.now.hashes (λ known. known.hashes.name ≡ name_hash known.seed name.now) }
        ensures { result ≡ newest_index self.now (has_name name.now) }
    {
        self.index.newest_of_name(&self.entries, self.vas.total_dropped(), name, sought.hashes)
    }
}

impl<I: FindsEntries, F: StoredField> DynamicTable<I, F> {
    /// Returns the absolute index of the newest live entry with the field. It is compared with at most as many entries
    /// as the number of live ones has binary digits, and each comparison is counted.
    pub fn newest_equal(&self, field: &HeaderField, steps: &mut Steps) -> Option<AbsoluteIndex>
        ensures found { result ≡ newest_index self.now (is_field (field_of field.now)) }
        ensures steps { Counts (length self.now.live) steps.old.count steps.new.count }
    {
        self.newest_line(&field.as_line(), steps)
    }

    /// Returns the absolute index of the newest live entry with a borrowed field, counting comparisons as
    /// `newest_equal` does.
    fn newest_line(&self, field: &FieldLine<'_>, steps: &mut Steps) -> Option<AbsoluteIndex>
        ensures found { result ≡ newest_index self.now (is_field (line_of field.now).field) }
        ensures steps { Counts (length self.now.live) steps.old.count steps.new.count }
    {
        self.index.newest_equal(&self.entries, self.vas.total_dropped(), field, None, steps)
    }

    /// Returns the absolute index of the newest live entry with the field, uncounted.
    pub(super) fn newest_field(&self, field: &FieldLine<'_>) -> Option<AbsoluteIndex>
        ensures { result ≡ newest_index self.now (is_field (line_of field.now).field) }
    {
        self.newest_line(field, &mut Steps::new())
    }

    /// Returns the absolute index of the newest live entry with the field, whose hashes may be known.
    #[inline(always)]
    pub(super) fn newest_hashed(
        &self,
        field: &FieldLine<'_>,
        known: Option<SeededHashes>,
    ) -> Option<AbsoluteIndex>
        requires { IfSome known (λ known. AreSeededHashesOf known (line_of field.now).field) }
        ensures { result ≡ newest_index self.now (is_field (line_of field.now).field) }
    {
        self.index.newest_equal(
            &self.entries,
            self.vas.total_dropped(),
            field,
            known,
            &mut Steps::new(),
        )
    }
}
