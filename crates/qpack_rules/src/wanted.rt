//! Laws of encoder instructions whose bytes end early (RFC 9204, section 4.3).

ghost use Rattle.qpack_rules.specs.WantedLaws.{NothingStandsBeforeWanted, FieldsAreAsLarge, WaitingBytesAreFew};

/// A truncated instruction stays truncated until as many bytes are there as it needs.
pub fn nothing_stands_before_wanted()
    ensures { NothingStandsBeforeWanted }
{}

/// What an instruction inserts is at least as large as what was known of it when it was truncated.
pub fn fields_are_as_large()
    ensures { FieldsAreAsLarge }
{}

/// The bytes that an instruction needs whose field may fit are at most four for each byte of the capacity, and ten
/// more.
pub fn waiting_bytes_are_few()
    ensures { WaitingBytesAreFew }
{}
