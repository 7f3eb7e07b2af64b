//! Laws of integers with a prefix (RFC 7541, section 5.1).

ghost use Rattle.qpack_spec.specs.IntegerLaws.{IntegersHaveOneValue, NoIntegerBeginsAnother};
ghost use Rattle.qpack_spec.specs.IntegerLaws.{WrittenIntegersAreShortest, WrittenIntegersAreReadBack};
ghost use Rattle.qpack_spec.specs.IntegerLaws.{ReadingFindsSpellings, ReadingFindsFaults};

/// One spelling is of one value.
pub fn integers_have_one_value()
    ensures { IntegersHaveOneValue }
{}

/// No spelling or refusal of an integer begins another, so where one ends is never in doubt.
pub fn no_integer_begins_another()
    ensures { NoIntegerBeginsAnother }
{}

/// The written spelling is a shortest one.
pub fn written_integers_are_shortest()
    ensures { WrittenIntegersAreShortest }
{}

/// A written integer is read back with its flags, whatever follows, up to the greatest value that is read.
pub fn written_integers_are_read_back()
    ensures { WrittenIntegersAreReadBack }
{}

/// Reading from left to right is the relation of spellings, and of each fault.
pub fn reading_integers_is_the_relation()
    ensures spellings { ReadingFindsSpellings }
    ensures faults { ReadingFindsFaults }
{}
