//! Laws of string literals (RFC 7541, section 5.2).

ghost use Rattle.qpack_spec.specs.TextLaws.{StringsHaveOneValue, NoStringBeginsAnother, WrittenStringsAreLiterals};
ghost use Rattle.qpack_spec.specs.TextLaws.{WrittenStringsAreReadBack, ReadingFindsStrings, ReadingFindsRefusals};
ghost use Rattle.qpack_spec.specs.TextLaws.{ReadingFindsTruncation};

/// One literal is of one value.
pub fn strings_have_one_value()
    ensures { StringsHaveOneValue }
{}

/// No literal or refusal of a string begins another, so where one ends is never in doubt.
pub fn no_string_begins_another()
    ensures { NoStringBeginsAnother }
{}

/// A written string is a literal, and is read back with its flags, whatever follows.
pub fn written_strings_are_read_back()
    ensures literal { WrittenStringsAreLiterals }
    ensures back { WrittenStringsAreReadBack }
{}

/// Reading from left to right is the relation of literals, of each refusal, and of what is cut off.
pub fn reading_strings_is_the_relation()
    ensures literals { ReadingFindsStrings }
    ensures refusals { ReadingFindsRefusals }
    ensures truncation { ReadingFindsTruncation }
{}
