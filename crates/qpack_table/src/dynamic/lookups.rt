//! What an encoder's handle asks of the table for a field: to find an entry, or to insert one (RFC 9204, section
//! 2.1).

ghost use Rattle.std.specs.Prelude.{◌≡◌, ◌+◌, ◌-◌, ◌^◌, ◌<◌, ◌≤◌, true, false, IfOk, IfErr, IfSome, IfNone, OnOk};
ghost use Rattle.std.specs.Prelude.{◌&&◌, drop, length};
ghost use Rattle.qpack_base.specs.HeaderFields.{line_of};
ghost use Rattle.qpack_spec.specs.Handle.{found_entry, find_field, found_name, insert_field, answer_of};
ghost use Rattle.qpack_spec.specs.Chosen.{instruction_naming};
ghost use Rattle.qpack_spec.specs.Rule.{instruction_for};
ghost use Rattle.qpack_spec.specs.StaticTable.{static_name_index, IsLeastStatic};
ghost use Rattle.qpack_spec.specs.Table.{insert_count, has_room, eviction_count_for, below_limit, may_reference};
ghost use Rattle.qpack_spec.specs.Table.{with_reference, with_entry, sent_entry, fields_in};
ghost use Rattle.qpack_table.specs.declared.dynamic.Error.TheVariants.{Memory as NoRoom};
ghost use Rattle.qpack_spec.specs.Handle as handle;
ghost use Rattle.qpack_table.specs.Handles.{Finds, Inserts, InsertsIf, IsSoughtIn, lookup_of, insertion_of, kept_index};
ghost use Rattle.qpack_table.specs.Handles.{naming_of, referenced_insertion, unreferenced_insertion};

use crate::dynamic::Error;
use crate::dynamic::encoder::{DynamicInsertionResult, DynamicLookupResult, Naming};
use crate::dynamic::entry_index::FindsEntries;
use crate::dynamic::sought::SoughtField;
use crate::dynamic::table::{DynamicTable, MOST_INSERTIONS};
use qpack_base::field::FieldLine;
use qpack_base::static_::StaticTable;
use qpack_base::stored_field::StoredField;

impl<I: FindsEntries, F: StoredField> DynamicTable<I, F> {
    /// Finds the newest entry that is this field, and references it, if it may be referenced.
    pub(super) fn find_field(
        &mut self,
        base: usize,
        field: &FieldLine<'_>,
    ) -> Result<DynamicLookupResult, Error>
        ensures { Finds result (find_field self.old base (line_of field.now).field) self.old self.new }
    {
        let newest = self.newest_field(field);
        self.find_entry(base, newest)
    }

    /// Finds the name of a field that was sought: that of a static field, or of the newest entry that has it, which is
    /// referenced if it may be.
    #[inline(always)]
    fn find_sought_name(
        &mut self,
        base: usize,
        field: &FieldLine<'_>,
        sought: &SoughtField,
    ) -> Result<DynamicLookupResult, Error>
        requires sought { IsSoughtIn self.old (line_of field.now).field sought.now }
        ensures { Finds result (found_name self.old base (line_of field.now).field
            (static_name_index (line_of field.now).field.name)) self.old self.new }
    {
        if let Some(index) = sought.static_name {
            return Ok(DynamicLookupResult::Static(index));
        }
        let newest = self.newest_sought_name(field.name, sought);
        self.find_entry(base, newest)
    }

    /// Finds a live entry, and references it, if there is one and it may be referenced.
    #[inline(always)]
    pub(super) fn find_entry(
        &mut self,
        base: usize,
        newest: Option<usize>,
    ) -> Result<DynamicLookupResult, Error>
        requires live { IfSome newest (λ absolute. self.old.dropped < absolute) }
        requires inserted { IfSome newest (λ absolute. absolute ≤ insert_count self.old) }
        ensures { Finds result (found_entry self.old base newest) self.old self.new }
    {
        let Some(absolute) = newest else {
            return Ok(DynamicLookupResult::NotFound);
        };
        if !self.may_reference(absolute) {
            return Ok(DynamicLookupResult::NotFound);
        }
        self.reference(absolute)?;
        Ok(lookup_under(base, absolute))
    }

    /// Returns whether one more block may be blocked (RFC 9204, section 2.1.2).
    pub(super) fn is_below_limit(&self) -> bool
        ensures { result ≡ below_limit self.now }
    {
        self.blocked.len() < self.max_blocked
    }

    /// Returns whether an entry may be referenced: one more block may be blocked, or it is known to be received (RFC
    /// 9204, section 2.1.2).
    pub(super) fn may_reference(&self, absolute: usize) -> bool
        ensures { result ≡ may_reference self.now absolute }
    {
        self.is_below_limit() || absolute <= self.known_received_count
    }

    /// Returns how many of the oldest entries are evicted for a field, if there is room for it: it fits, insertions are
    /// left, and these entries are evictable (RFC 9204, section 2.1.1).
    fn room_for(&self, field: &FieldLine<'_>) -> Option<usize>
        ensures room { IfSome result (λ evicted. has_room self.now (line_of field.now).field ≡ true) }
        ensures evicted { IfSome result (λ evicted. evicted ≡ eviction_count_for self.now (line_of field.now).field) }
        ensures none { IfNone result (has_room self.now (line_of field.now).field ≡ false) }
    {
        let size = field.mem_size();
        if size > self.max_mem_size() {
            return None;
        }
        if self.total_inserted() >= MOST_INSERTIONS {
            return None;
        }
        self.evictable_for(size)
    }

    /// Returns whether there is room for a field.
    pub(super) fn has_room(&self, field: &FieldLine<'_>) -> bool
        ensures { result ≡ has_room self.now (line_of field.now).field }
    {
        self.room_for(field).is_some()
    }

    /// Returns how many of the oldest entries are evicted for a field, if one more block may be blocked and there is
    /// room.
    #[inline(always)]
    fn insertable(&self, field: &FieldLine<'_>) -> Option<usize>
        ensures inserted { IfSome result
            (λ evicted. (below_limit self.now && has_room self.now (line_of field.now).field) ≡ true) }
        ensures room { IfSome result (λ evicted. has_room self.now (line_of field.now).field ≡ true) }
        ensures evicted { IfSome result (λ evicted. evicted ≡ eviction_count_for self.now (line_of field.now).field) }
        ensures none { IfNone result ((below_limit self.now && has_room self.now (line_of field.now).field) ≡ false) }
    {
        if !self.is_below_limit() {
            return None;
        }
        self.room_for(field)
    }

    /// Inserts a field, and references it, if one more block may be blocked and there is room. Otherwise finds its
    /// name.
    pub(super) fn insert_field(
        &mut self,
        base: usize,
        field: &FieldLine<'_>,
    ) -> Result<DynamicInsertionResult, Error>
        ensures { Inserts result (insert_field self.old base (line_of field.now).field) self.old self.new }
    {
        let sought = self.seek(field, StaticTable::find_name(field.name));
        self.insert_sought(base, field, &sought)
    }

    /// Inserts a field that was sought, as `insert_field` does.
    #[inline(always)]
    pub(super) fn insert_sought(
        &mut self,
        base: usize,
        field: &FieldLine<'_>,
        sought: &SoughtField,
    ) -> Result<DynamicInsertionResult, Error>
        requires sought { IsSoughtIn self.old (line_of field.now).field sought.now }
        ensures { Inserts result (insert_field self.old base (line_of field.now).field) self.old self.new }
    {
        if let Some(evicted) = self.insertable(field) {
            return self.insert_in_room(base, field, sought, evicted, Naming::Staying);
        }
        let lookup = self.find_sought_name(base, field, sought)?;
        Ok(DynamicInsertionResult::NotInserted(lookup))
    }

    /// Inserts a field for which there is room, and references it. Looks first which entry is equal or has its name,
    /// then evicts entries as needed. On error, which is `Memory` only, nothing changes.
    #[inline(always)]
    fn insert_in_room(
        &mut self,
        base: usize,
        field: &FieldLine<'_>,
        sought: &SoughtField,
        evicted: usize,
        naming: Naming,
    ) -> Result<DynamicInsertionResult, Error>
        requires room { has_room self.old (line_of field.now).field ≡ true }
        requires evicted { evicted ≡ eviction_count_for self.old (line_of field.now).field }
        requires sought { IsSoughtIn self.old (line_of field.now).field sought.now }
        ensures ok { IfOk result (λ r. insertion_of r ≡ answer_of
            (instruction_naming (naming_of naming) self.old (line_of field.now).field)
            (insert_count self.old - base) (insert_count self.old + 1)) }
        ensures new { OnOk result (self.new ≡ with_reference
            (with_entry self.old (sent_entry (line_of field.now).field)) (insert_count self.old + 1)) }
        ensures err { IfErr result (λ e. (e ≡ NoRoom) × (self.new ≡ self.old)) }
    {
        let insertion = self.insertion_of(base, field, sought, naming.passed_over(evicted));
        let key = self.key_of_sought(field, sought);
        let copy = F::copy_of(self.allocator(), field, sought.static_name)?;
        self.insert_sent(copy, key, evicted)?;
        Ok(insertion)
    }

    /// Inserts a field that was sought, and references it, if one more block may be blocked and there is room.
    /// Otherwise does nothing.
    #[inline(always)]
    pub(super) fn insert_referenced(
        &mut self,
        base: usize,
        field: &FieldLine<'_>,
        sought: &SoughtField,
        naming: Naming,
    ) -> Result<Option<DynamicInsertionResult>, Error>
        requires sought { IsSoughtIn self.old (line_of field.now).field sought.now }
        ensures { InsertsIf (below_limit self.old && has_room self.old (line_of field.now).field) result
            (referenced_insertion (naming_of naming) self.old base (line_of field.now).field) self.old self.new }
    {
        let Some(evicted) = self.insertable(field) else {
            return Ok(None);
        };
        let insertion = self.insert_in_room(base, field, sought, evicted, naming)?;
        Ok(Some(insertion))
    }

    /// Inserts a field that was sought, if there is room, and references nothing. Otherwise does nothing.
    #[inline(always)]
    pub(super) fn insert_unreferenced(
        &mut self,
        base: usize,
        field: &FieldLine<'_>,
        sought: &SoughtField,
        naming: Naming,
    ) -> Result<Option<DynamicInsertionResult>, Error>
        requires sought { IsSoughtIn self.old (line_of field.now).field sought.now }
        ensures { InsertsIf (has_room self.old (line_of field.now).field) result
            (unreferenced_insertion (naming_of naming) self.old base (line_of field.now).field) self.old self.new }
    {
        let Some(evicted) = self.room_for(field) else {
            return Ok(None);
        };
        let insertion = self.insert_alone_in_room(base, field, sought, evicted, naming)?;
        Ok(Some(insertion))
    }

    /// Inserts a field for which there is room, and references nothing. On error, which is for memory only, nothing
    /// changes.
    #[inline(always)]
    fn insert_alone_in_room(
        &mut self,
        base: usize,
        field: &FieldLine<'_>,
        sought: &SoughtField,
        evicted: usize,
        naming: Naming,
    ) -> Result<DynamicInsertionResult, Error>
        requires room { has_room self.old (line_of field.now).field ≡ true }
        requires evicted { evicted ≡ eviction_count_for self.old (line_of field.now).field }
        requires sought { IsSoughtIn self.old (line_of field.now).field sought.now }
        ensures ok { IfOk result (λ r. insertion_of r ≡ answer_of
            (instruction_naming (naming_of naming) self.old (line_of field.now).field)
            (insert_count self.old - base) (insert_count self.old + 1)) }
        ensures new { OnOk result (self.new ≡ with_entry self.old (sent_entry (line_of field.now).field)) }
        ensures err { IfErr result (λ e. (e ≡ NoRoom) × (self.new ≡ self.old)) }
    {
        let insertion = self.insertion_of(base, field, sought, naming.passed_over(evicted));
        let key = self.key_of_sought(field, sought);
        let copy = F::copy_of(self.allocator(), field, sought.static_name)?;
        self.insert_hashed(copy, true, evicted, key)?;
        Ok(insertion)
    }

    /// Returns how a field that was sought is inserted by the entries after this many of the oldest: by the newest equal
    /// one, by a static field's name, by the newest one of its name, or with a literal name.
    fn insertion_of(
        &self,
        base: usize,
        field: &FieldLine<'_>,
        sought: &SoughtField,
        passed: usize,
    ) -> DynamicInsertionResult
        requires sought { IsSoughtIn self.now (line_of field.now).field sought.now }
        requires few { insert_count self.now < 2 ^ 62 }
        requires passed { passed ≤ length self.now.live }
        ensures { insertion_of result ≡ answer_of
            (instruction_for (line_of field.now).field (drop passed (fields_in self.now.live)))
            (insert_count self.now - base) (insert_count self.now + 1) }
    {
        let total = self.total_inserted();
        let (postbase, absolute) = (total.saturating_sub(base), total + 1);
        let dropped = self.vas.total_dropped() + passed;
        if let Some(newest) = above(sought.newest, dropped) {
            return DynamicInsertionResult::Duplicated {
                relative: total - newest,
                postbase,
                absolute,
            };
        }
        if let Some(index) = sought.static_name {
            return DynamicInsertionResult::InsertedWithStaticNameRef {
                postbase,
                index,
                absolute,
            };
        }
        match above(self.newest_sought_name(field.name, sought), dropped) {
            Some(newest) => DynamicInsertionResult::InsertedWithNameRef {
                postbase,
                relative: total - newest,
                absolute,
            },
            None => DynamicInsertionResult::Inserted { postbase, absolute },
        }
    }
}

/// Returns an absolute index, if it is that of an entry that was not dropped.
fn above(newest: Option<usize>, dropped: usize) -> Option<usize>
    ensures { result ≡ kept_index newest dropped }
{
    newest.filter(|absolute| *absolute > dropped)
}

/// Returns where an entry is, by its index before the base or after it (RFC 9204, sections 3.2.5 and 3.2.6).
fn lookup_under(base: usize, absolute: usize) -> DynamicLookupResult
    requires { 0 < absolute }
    ensures { lookup_of result ≡ handle.lookup_of base absolute }
{
    if absolute <= base {
        DynamicLookupResult::Relative {
            index: base - absolute,
            absolute,
        }
    } else {
        DynamicLookupResult::PostBase {
            index: absolute - base - 1,
            absolute,
        }
    }
}
