//! Laws of the static table (RFC 9204, Appendix A).

ghost use Rattle.qpack_spec.specs.StaticTableLaws.{StaticTableHas99, StaticFieldsDiffer, StaticIndexIsLeast};
ghost use Rattle.qpack_spec.specs.StaticTableLaws.{StaticNameIndexIsLeast};

/// The table has 99 fields.
pub fn static_table_has_99()
    ensures { StaticTableHas99 }
{}

/// No field is in the table twice.
pub fn static_fields_differ()
    ensures { StaticFieldsDiffer }
{}

/// Looking up a field finds its index exactly if it is in the table.
pub fn static_index_is_least()
    ensures { StaticIndexIsLeast }
{}

/// Looking for a name finds the least index of a field with it, exactly if there is one.
pub fn static_name_index_is_least()
    ensures { StaticNameIndexIsLeast }
{}
