//! Laws of the definition of a session.

ghost use Rattle.qpack_rules.specs.SessionLaws.{EventsHaveAnswers, EventsAreSkippedExactly};
ghost use Rattle.qpack_rules.specs.SessionLaws.{PiecesAddUp, PiecesAreSmall};

/// Every event has an outcome at every session, without a refusal for memory.
pub fn every_event_has_an_answer()
    ensures { EventsHaveAnswers }
{}

/// An event is skipped exactly if its stream number is 2^62 or more, its stream is cancelled, or there is nothing to
/// decode or acknowledge, each with its number. A delivery and a capacity are never skipped.
pub fn events_are_skipped_exactly()
    ensures { EventsAreSkippedExactly }
{}

/// The pieces in which insertions are reported add up to them, and each is from 1 to 64.
pub fn pieces_report_all()
    ensures sum { PiecesAddUp }
    ensures sizes { PiecesAreSmall }
{}
