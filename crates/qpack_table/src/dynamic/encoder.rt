//! An encoder's handle on the table: a block in progress, which references entries (RFC 9204, section 2.1).

ghost use Rattle.std.specs.Prelude.{◌≡◌, ◌<◌, ◌≤◌, ◌^◌, ◌&&◌, IfSome};
ghost use Rattle.std.specs.Option.{option_map};
ghost use Rattle.qpack_base.specs.HeaderFields.{field_of, line_of};
ghost use Rattle.qpack_spec.specs.Chosen.{passed_over, passes_at};
ghost use Rattle.qpack_spec.specs.Field.{field_size, has_name, is_field, total_size};
ghost use Rattle.qpack_spec.specs.Handle.{find_field, insert_field};
ghost use Rattle.qpack_spec.specs.Reading.{greatest_of};
ghost use Rattle.qpack_spec.specs.StaticTable.{static_name_index};
ghost use Rattle.qpack_spec.specs.Table.{below_limit, fields_in, has_room, insert_count, may_reference};
ghost use Rattle.qpack_spec.specs.Table.{newest_index, window, without_references};
ghost use Rattle.qpack_spec.specs.Handle.{found_entry};
ghost use Rattle.qpack_spec.specs.Window.{absolute_entry, maximum_capacity};
ghost use Rattle.qpack_table.specs.Handles.{Finds, Inserts, Commits, IsSoughtIn};
ghost use Rattle.qpack_table.specs.Handles.{AreHashesIn, InsertsIf, naming_of, referenced_insertion};
ghost use Rattle.qpack_table.specs.Handles.{unreferenced_insertion};

use crate::dynamic::Error;
use crate::dynamic::entry_index::FindsEntries;
use crate::dynamic::sorted::SortedIndex;
use crate::dynamic::sought::SoughtField;
use crate::dynamic::table::DynamicTable;
use qpack_base::field::{FieldLine, HeaderField};
use qpack_base::stored_field::StoredField;

/// Where a field or its name was found. Absolute indexes begin at 1.
#[derive(Debug, PartialEq, Clone, Copy)]
pub enum DynamicLookupResult {
    /// A static field with the name.
    Static(usize),
    /// An entry that was live at the block's start, by its relative index under the base (RFC 9204, section 3.2.5).
    Relative { index: usize, absolute: usize },
    /// A later entry, by its post-base index (RFC 9204, section 3.2.6).
    PostBase { index: usize, absolute: usize },
    /// No entry that may be referenced, and no static field.
    NotFound,
}

/// How a field was inserted, which determines its instruction, or where its name was found instead. The new entry has
/// its post-base and its absolute index; the original or the entry of the name has its relative index as an instruction
/// counts it, 0 for the newest entry before the insertion.
#[derive(Debug, PartialEq, Clone, Copy)]
pub enum DynamicInsertionResult {
    /// With a literal name (RFC 9204, section 4.3.3).
    Inserted {
        postbase: usize,
        absolute: usize,
    },
    /// As a duplicate (RFC 9204, section 4.3.4).
    Duplicated {
        relative: usize,
        postbase: usize,
        absolute: usize,
    },
    /// With the name of an entry (RFC 9204, section 4.3.2).
    InsertedWithNameRef {
        postbase: usize,
        relative: usize,
        absolute: usize,
    },
    /// With the name of a static field (RFC 9204, section 4.3.2).
    InsertedWithStaticNameRef {
        postbase: usize,
        index: usize,
        absolute: usize,
    },
    /// Not inserted: one more block may not be blocked, or there is no room.
    NotInserted(DynamicLookupResult),
}

/// Which entries the instruction of an insertion may name, to duplicate one or to take its name.
#[derive(Debug, Clone, Copy, PartialEq, Drop)]
pub enum Naming {
    /// Those that stay when the field is inserted.
    Staying,
    /// Every live one, so also one that the insertion evicts (RFC 9204, section 3.2.2).
    Live,
}

impl Naming {
    /// Returns how many of the oldest entries are not named, if this many are evicted.
    pub(super) fn passed_over(self, evicted: usize) -> usize
        ensures { result ≡ passed_over (naming_of self) evicted }
    {
        match self {
            Naming::Staying => evicted,
            Naming::Live => 0,
        }
    }
}

impl<I: FindsEntries, F: StoredField> DynamicTable<I, F> {
    /// Begins a block of a stream, which references nothing yet. Its base is the insert count.
    pub fn encoder(&mut self, stream_id: u64) -> DynamicTableEncoder<'_, I, F>
        ensures same_table { result.table.ghost_name ≡ self.entry.ghost_name }
        ensures table { result.table.now ≡ without_references self.old }
        ensures stream { result.stream_id ≡ stream_id }
        ensures base { result.base ≡ insert_count self.old }
    {
        self.release_references();
        let base = self.total_inserted();
        DynamicTableEncoder {
            table: self,
            stream_id,
            base,
        }
    }
}

/// A block in progress. It must be spent, by `commit` or `release`; its references are kept in the table.
pub struct DynamicTableEncoder<'a, I: FindsEntries = SortedIndex, F: StoredField = HeaderField> {
    table: &'a mut DynamicTable<I, F>,
    stream_id: u64,
    base: usize,
}

impl<I: FindsEntries, F: StoredField> DynamicTableEncoder<'_, I, F> {
    /// Returns the capacity of the table in bytes. The live fields fit it.
    pub fn max_size(&self) -> usize
        ensures exact { result ≡ self.now.table.now.capacity }
        ensures most { result < 2 ^ 30 }
        ensures fits { total_size (fields_in self.now.table.now.live) ≤ result }
    {
        self.table.max_mem_size()
    }

    /// Returns the base of the block, which is the insert count at its start.
    pub fn base(&self) -> usize
        ensures { result ≡ self.now.base }
    {
        self.base
    }

    /// Returns how many insertions were ever made.
    pub fn total_inserted(&self) -> usize
        ensures { result ≡ insert_count self.now.table.now }
    {
        self.table.total_inserted()
    }

    /// Returns the maximum capacity in bytes, which is at least the capacity (RFC 9204, section 3.2.3).
    pub fn agreed_max(&self) -> usize
        ensures exact { result ≡ maximum_capacity self.now.table.now.agreed_max self.now.table.now.capacity }
        ensures most { self.now.table.now.capacity ≤ result }
        ensures fits { total_size (fields_in self.now.table.now.live) ≤ result }
    {
        self.table.agreed_max()
    }

    /// Returns the required insert count so far: the greatest absolute index that the block references, 0 if it
    /// references no entry (RFC 9204, section 2.1.2).
    pub fn required_insert_count(&self) -> usize
        ensures exact { result ≡ greatest_of self.now.table.now.referenced }
        ensures inserted { result ≤ insert_count self.now.table.now }
    {
        self.table.greatest_reference()
    }

    /// Looks for the newest entry that equals this field. If it may be referenced, references and returns it. On error,
    /// which is `Memory` only, nothing changes.
    pub fn find(&mut self, field: &HeaderField) -> Result<DynamicLookupResult, Error>
        ensures same_table { self.new.table.ghost_name ≡ self.old.table.ghost_name }
        ensures stream { self.new.stream_id ≡ self.old.stream_id }
        ensures base { self.new.base ≡ self.old.base }
        ensures found { Finds result (find_field self.old.table.now self.old.base (field_of field.now))
            self.old.table.now self.new.table.now }
    {
        self.table.find_field(self.base, &field.as_line())
    }

    /// Inserts a field, if one more block may be blocked and there is room: evicts entries as needed, and references
    /// the new one. Otherwise looks for its name, in the static table and then among the entries, and references the
    /// newest of these, if it may be referenced. On error, which is `Memory` only, nothing changes.
    pub fn insert(&mut self, field: &HeaderField) -> Result<DynamicInsertionResult, Error>
        ensures same_table { self.new.table.ghost_name ≡ self.old.table.ghost_name }
        ensures stream { self.new.stream_id ≡ self.old.stream_id }
        ensures base { self.new.base ≡ self.old.base }
        ensures inserted { Inserts result (insert_field self.old.table.now self.old.base (field_of field.now))
            self.old.table.now self.new.table.now }
    {
        self.table.insert_field(self.base, &field.as_line())
    }

    /// Returns how many entries were evicted since the table was empty. The oldest live entry has the next absolute
    /// index.
    pub fn total_dropped(&self) -> usize
        ensures { result ≡ self.now.table.now.dropped }
    {
        self.table.total_dropped()
    }

    /// Returns the sum of the live fields' sizes in bytes (RFC 9204, section 3.2.1).
    pub fn used(&self) -> usize
        ensures { result ≡ total_size (fields_in self.now.table.now.live) }
    {
        self.table.used()
    }

    /// Returns the size of a live entry in bytes, by its absolute index (RFC 9204, section 3.2.1).
    pub fn entry_size(&self, absolute: usize) -> Option<usize>
        ensures { result ≡ option_map field_size (absolute_entry (window self.now.table.now) absolute) }
    {
        self.table.entry_size(absolute)
    }

    /// Returns whether an entry is live and equals a field, byte for byte.
    pub fn is_equal(&self, absolute: usize, field: &FieldLine<'_>) -> bool
        ensures { result ≡ passes_at self.now.table.now (is_field (line_of field.now).field) absolute }
    {
        self.table.is_equal(absolute, field)
    }

    /// Returns whether one more block may be blocked (RFC 9204, section 2.1.2).
    pub fn is_below_limit(&self) -> bool
        ensures { result ≡ below_limit self.now.table.now }
    {
        self.table.is_below_limit()
    }

    /// Returns whether an entry may be referenced: one more block may be blocked, or the decoder is known to have
    /// received it (RFC 9204, section 2.1.2).
    pub fn may_reference(&self, absolute: usize) -> bool
        ensures { result ≡ may_reference self.now.table.now absolute }
    {
        self.table.may_reference(absolute)
    }

    /// Returns whether there is room for a field: it fits, insertions are left, and each entry that has to be evicted
    /// for it is evictable (RFC 9204, section 2.1.1).
    pub fn has_room(&self, field: &FieldLine<'_>) -> bool
        ensures { result ≡ has_room self.now.table.now (line_of field.now).field }
    {
        self.table.has_room(field)
    }

    /// Looks for the newest entry that equals a field. `static_name` is the least index of a static field with its
    /// name. Nothing is referenced.
    #[inline(always)]
    pub fn seek(&self, field: &FieldLine<'_>, static_name: Option<usize>) -> SoughtField
        requires { static_name ≡ static_name_index (line_of field.now).field.name }
        ensures { IsSoughtIn self.now.table.now (line_of field.now).field result }
    {
        self.table.seek(field, static_name)
    }

    /// Returns the absolute index of the newest entry with the name of a field. Nothing is referenced.
    #[inline(always)]
    pub fn newest_name(&self, field: &FieldLine<'_>, sought: &SoughtField) -> Option<usize>
        requires { AreHashesIn (line_of field.now).field sought.now }
        ensures { result ≡ newest_index self.now.table.now (has_name (line_of field.now).field.name) }
    {
        self.table.newest_sought_name(field.name, sought)
    }

    /// References a live entry, if it may be referenced. On error, which is for memory only, nothing changes.
    #[inline(always)]
    pub fn reference(&mut self, newest: Option<usize>) -> Result<DynamicLookupResult, Error>
        requires live { IfSome newest (λ absolute. self.old.table.now.dropped < absolute) }
        requires inserted { IfSome newest (λ absolute. absolute ≤ insert_count self.old.table.now) }
        ensures same_table { self.new.table.ghost_name ≡ self.old.table.ghost_name }
        ensures stream { self.new.stream_id ≡ self.old.stream_id }
        ensures base { self.new.base ≡ self.old.base }
        ensures found { Finds result (found_entry self.old.table.now self.old.base newest) self.old.table.now
            self.new.table.now }
    {
        self.table.find_entry(self.base, newest)
    }

    /// Inserts a field that was sought, if one more block may be blocked and there is room, and references the new
    /// entry. `naming` says which entries its instruction may name. Otherwise does nothing. On error, which is for
    /// memory only, nothing changes.
    #[inline(always)]
    pub fn insert_sought(
        &mut self,
        field: &FieldLine<'_>,
        sought: &SoughtField,
        naming: Naming,
    ) -> Result<Option<DynamicInsertionResult>, Error>
        requires { IsSoughtIn self.old.table.now (line_of field.now).field sought.now }
        ensures same_table { self.new.table.ghost_name ≡ self.old.table.ghost_name }
        ensures stream { self.new.stream_id ≡ self.old.stream_id }
        ensures base { self.new.base ≡ self.old.base }
        ensures inserted { InsertsIf
            (below_limit self.old.table.now && has_room self.old.table.now (line_of field.now).field) result
            (referenced_insertion (naming_of naming) self.old.table.now self.old.base (line_of field.now).field)
            self.old.table.now self.new.table.now }
    {
        self.table
            .insert_referenced(self.base, field, sought, naming)
    }

    /// Inserts a field that was sought, if there is room, and references nothing (RFC 9204, section 2.1.2). `naming` says
    /// which entries its instruction may name. Otherwise does nothing. On error, which is for memory only, nothing
    /// changes.
    #[inline(always)]
    pub fn insert_unreferenced(
        &mut self,
        field: &FieldLine<'_>,
        sought: &SoughtField,
        naming: Naming,
    ) -> Result<Option<DynamicInsertionResult>, Error>
        requires { IsSoughtIn self.old.table.now (line_of field.now).field sought.now }
        ensures same_table { self.new.table.ghost_name ≡ self.old.table.ghost_name }
        ensures stream { self.new.stream_id ≡ self.old.stream_id }
        ensures base { self.new.base ≡ self.old.base }
        ensures inserted { InsertsIf (has_room self.old.table.now (line_of field.now).field) result
            (unreferenced_insertion (naming_of naming) self.old.table.now self.old.base (line_of field.now).field)
            self.old.table.now self.new.table.now }
    {
        self.table
            .insert_unreferenced(self.base, field, sought, naming)
    }

    /// Ends the block, whose required insert count is this. It waits for an acknowledgment if it references an entry,
    /// and counts as blocked while its required insert count is above the known received count. On error, which is for
    /// memory only, what it references is given back.
    #[inline(always)]
    pub fn commit(self, largest_ref: usize) -> Result<(), Error>
        ensures { Commits result self.entry.stream_id largest_ref self.entry.table.now self.exit.0.now }
    {
        let DynamicTableEncoder {
            table,
            stream_id,
            base: _,
        } = self;
        table.commit_block(stream_id, largest_ref)
    }

    /// Gives the block up: what it references is referenced no more.
    pub fn release(self)
        ensures { self.exit.0.now ≡ without_references self.entry.table.now }
    {
        let DynamicTableEncoder {
            table,
            stream_id: _,
            base: _,
        } = self;
        table.release_references();
    }
}
