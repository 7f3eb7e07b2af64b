//! Laws of encoded field sections (RFC 9204, section 4.5).

ghost use Rattle.qpack_spec.specs.LengthLaws.{ReadSectionsAreShort, StatelessSectionsAreShort};
ghost use Rattle.qpack_spec.specs.MarkedLaws.{MarkedLinesAreSpellings, MarkedSectionsAreRead, MarkedSectionsAreBlocked};
ghost use Rattle.qpack_spec.specs.StrictReading.{StrictReadingsAreReadings, StrictReadingsAreWithin};
ghost use Rattle.qpack_spec.specs.StrictReading.{StrictPrefixesAgree, StrictSectionsAreRead};

/// A section is at most four times as long as the sizes of its fields, and twenty bytes more: so a reader with a limit
/// on these need not look at a longer one.
pub fn sections_are_short()
    ensures read { ReadSectionsAreShort }
    ensures alone { StatelessSectionsAreShort }
{}

/// A strict decoder reads what a section means, or refuses it; and what it reads is within its limit. It reads a prefix
/// as any reader does, except one that requires nothing and has the sign bit, whose base it refuses.
pub fn strict_readings_are_readings()
    ensures read { StrictReadingsAreReadings }
    ensures within { StrictReadingsAreWithin }
    ensures prefixes { StrictPrefixesAgree }
{}

/// A strict decoder reads every section that is written so, follows its required insert count, and is within the limit,
/// with the marks of its fields. While the section requires more than was received, it reads that it is blocked.
pub fn strict_sections_are_read()
    ensures plain { StrictSectionsAreRead }
    ensures spelled { MarkedLinesAreSpellings }
    ensures marked { MarkedSectionsAreRead }
    ensures blocked { MarkedSectionsAreBlocked }
{}
