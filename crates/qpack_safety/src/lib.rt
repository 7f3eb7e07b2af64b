//! The session theorem, over the definitions of `qpack_spec` and `qpack_rules`: whatever happens between two ends, no
//! instruction is refused, and each decode returns what was passed to the encoder, or waits for what is still under way.
//! Each function here is a law: it does nothing, and its contract is the statement.
#![tactic(auto)]

ghost use Rattle.qpack_safety.specs.Headline.{SessionsAnswerWhatWasHanded};
ghost use Rattle.qpack_safety.specs.HandedSections.{BlocksAreOfWhatWasHanded, SectionsAreReadStrictly};
ghost use Rattle.qpack_safety.specs.LawfulFlights.{FlightsAreLawful};
ghost use Rattle.qpack_safety.specs.SessionSafety.{SessionsAreSafe};
ghost use Rattle.qpack_safety.specs.TwoEnds.{StrictEndsAreSafe};

/// The theorem: at every moment of every session in bytes, for any events, and any refusals of memory.
pub fn sessions_are_safe()
    ensures { SessionsAreSafe }
{}

/// The headline, over events and outcomes alone: on each stream the fields that were decoded are the first of those
/// that were encoded, in order, and each outcome is right after those before it.
pub fn sessions_answer_what_was_handed()
    ensures { SessionsAnswerWhatWasHanded }
{}

/// Of sessions in values: two strict ends that know marked fields never send what the other refuses, and each section
/// is decoded exactly. The decoder writes each acknowledgment after the increments for all that it received. This and
/// the two laws below hold for any choices of the encoder, at every section.
pub fn strict_ends_are_safe()
    ensures { StrictEndsAreSafe }
{}

/// And of what such ends have under way: the whole encoder stream is one that a strict decoder applies, and what is under
/// way on the decoder stream is heard by a strict encoder.
pub fn strict_flights_are_lawful()
    ensures { FlightsAreLawful }
{}

/// Of the bytes of their sections: each stream's blocks are of the fields that were passed to it, in order; and its
/// next section is read to exactly its fields with their marks, or is blocked while it requires more than was received.
pub fn strict_sections_are_read_exactly()
    ensures handed { BlocksAreOfWhatWasHanded }
    ensures read { SectionsAreReadStrictly }
{}
