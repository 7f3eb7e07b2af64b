//! Laws of a dynamic table with what its encoder tracks (RFC 9204, sections 2.1 and 3.2).

ghost use Rattle.qpack_rules.specs.TableLaws.{EntriesAreInsertions, CapacitiesAreOfTheWindow};
ghost use Rattle.qpack_rules.specs.TableLaws.{DecodersTableGoesAsItsWindow};

/// A table's insertions and capacities are those of its window, with any marks of its entries.
pub fn tables_go_as_their_windows()
    ensures entries { EntriesAreInsertions }
    ensures capacities { CapacitiesAreOfTheWindow }
{}

/// A decoder's table takes what its window takes, and refuses what that refuses.
pub fn decoders_table_goes_as_its_window()
    ensures { DecodersTableGoesAsItsWindow }
{}
