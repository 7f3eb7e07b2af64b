//! Laws of the indexes: they reference the entries of the window that both ends share (RFC 9204, section 3.2).

ghost use Rattle.qpack_table.specs.PlaceLaws.{EntriesStandAtPositions, RecentEntriesAreNamed, RelativeFieldsAreNamed};
ghost use Rattle.qpack_table.specs.PlaceLaws.{PostBaseFieldsAreNamed};

/// An absolute index has an entry exactly if it is live, and the entry is at its position; and the indexes of
/// instructions and of lines reference the entries that a window gives for them.
pub fn indexes_name_entries()
    ensures positions { EntriesStandAtPositions }
    ensures recent { RecentEntriesAreNamed }
    ensures relative { RelativeFieldsAreNamed }
    ensures post_base { PostBaseFieldsAreNamed }
{}
