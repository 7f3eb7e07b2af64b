//! Laws of each end alone, against any peer that follows the standard (RFC 9204, sections 2.1, 2.2, 3.2 and 4.5).

ghost use Rattle.qpack_rules.specs.LawfulDecoders.{ChosenInsertionsGoOn, InsertionsGoOn, LawfulInstructionsAreHeard};
ghost use Rattle.qpack_rules.specs.LawfulDecoders.{MoreSectionsChangeNothing};
ghost use Rattle.qpack_rules.specs.LawfulEncoders.{EntriesStayLive, LawfulSectionsAreRead};

/// After any front of a lawful encoder's instructions, an entry that a strict decoder has received, and the encoder has
/// not evicted, is live there under the same absolute index. A section that is not acknowledged is blocked until the
/// insertions that it requires are received. Then it is read as exactly the fields that it means by the encoder's
/// insertions, with their marks.
pub fn lawful_sections_are_read()
    ensures live { EntriesStayLive }
    ensures read { LawfulSectionsAreRead }
{}

/// A strict encoder hears everything that a lawful decoder writes, also once it has written more sections. If nothing
/// is under way it inserts a field that is to be inserted, and references it, as far as the limit of blocked sections
/// permits. Under any choices, a section whose first field is chosen to be inserted requires a new insertion there.
pub fn lawful_decoders_are_heard()
    ensures heard { LawfulInstructionsAreHeard }
    ensures later { MoreSectionsChangeNothing }
    ensures inserted { InsertionsGoOn }
    ensures chosen { ChosenInsertionsGoOn }
{}
