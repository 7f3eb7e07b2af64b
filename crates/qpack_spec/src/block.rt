//! Laws of encoded field sections (RFC 9204, section 4.5).

ghost use Rattle.qpack_spec.specs.BlockLaws.{ReadingFindsPrefixes, CountsHaveOneReading, CountsAreRead};
ghost use Rattle.qpack_spec.specs.BlockLaws.{ReadingLinesFindsFields};
ghost use Rattle.qpack_spec.specs.WrittenLaws.{WrittenPrefixesAreSpellings, WrittenBlocksAreRead};

/// An encoded count means one required insert count at most, and that is the one that is computed.
pub fn counts_have_one_reading()
    ensures one { CountsHaveOneReading }
    ensures computed { CountsAreRead }
{}

/// Reading a prefix from left to right is the relation of its spellings, and what is written is one.
pub fn reading_prefixes_is_the_relation()
    ensures read { ReadingFindsPrefixes }
    ensures written { WrittenPrefixesAreSpellings }
{}

/// Reading line by line gives the fields of the lines that the bytes are, or the first fault in reading order.
pub fn reading_lines_finds_fields()
    ensures { ReadingLinesFindsFields }
{}

/// What is written of a block is read as the block.
pub fn written_blocks_are_read()
    ensures { WrittenBlocksAreRead }
{}
