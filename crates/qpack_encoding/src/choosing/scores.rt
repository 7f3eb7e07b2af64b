//! Scores of names.
//!
//! Each of 256 hashes of names has a byte, 128 at first, and that of `date` 164. Values of 128 bytes or more have another
//! than shorter ones. A field that no entry equals and that the history does not have takes an eighth from its score,
//! rounded up. A value that comes again adds 48: where the history has it and the limit is not reached, and by the first
//! reference to an entry that was inserted when its field came for the first time, or for its name. At the limit the first
//! reference to any entry adds them. A score is high from 140 on, in a tight table from 192 on, and at the limit from 144
//! on. It is low below 64.

ghost use Rattle.std.specs.Prelude.{◌<◌};

use qpack_base::field::FieldLine;

/// How many scores there are.
const SCORES: usize = 256;

/// The score of values of which nothing is known.
const MIDDLE: u8 = 128;

/// The place of the score of `date`, by the hash of that name.
const DATE: usize = 135;

/// The score of `date` at first: the responses of one second have the same.
const DATED: u8 = 164;

/// From this score on, a field is inserted when it comes for the first time.
pub(super) const LIKELY: u8 = 140;

/// The same at the limit.
pub(super) const LIKELY_AT_THE_LIMIT: u8 = 144;

/// The same below the limit, where the table is tight.
pub(super) const LIKELY_IF_TIGHT: u8 = 192;

/// Below this score a field is not inserted when it comes for the first time, even where there is room, and at the limit
/// seldom when it comes again.
pub(super) const UNLIKELY: u8 = 64;

/// What a value that comes again adds to the score.
const GAIN: u8 = 48;

/// The part of the score that a new value takes.
const LOSS: u8 = 8;

/// From this length on, in bytes, a value is long.
const LONG: usize = 128;

/// The values of a name that are long, or those that are not.
#[derive(Debug, Clone, Copy)]
pub(super) struct Values {
    name: u32,
    are_long: bool,
}

impl Values {
    /// Returns the values that are like that of a field, by the hash of its name.
    pub(super) fn like(field: &FieldLine<'_>, name: u32) -> Values {
        Values {
            name,
            are_long: field.value.len() >= LONG,
        }
    }

    /// Returns the place of their score: the first eight bits of the hash; for long values, half of all places further.
    fn place(self) -> usize
        ensures { result < 256 }
    {
        let first = (self.name >> 24) as usize;
        let further = if self.are_long { SCORES / 2 } else { 0 };
        (first + further) % SCORES
    }
}

/// A score of a byte for each name, and for its long values another: the more of them come again, the higher.
#[derive(Debug, Drop)]
pub(super) struct Scores {
    scores: [u8; SCORES],
}

impl Scores {
    /// Returns the scores of a new connection.
    pub(super) fn new() -> Scores {
        let mut scores = [MIDDLE; SCORES];
        scores[DATE] = DATED;
        Scores { scores }
    }

    /// Returns the score of values.
    pub(super) fn of(&self, values: Values) -> u8 {
        self.scores[values.place()]
    }

    /// Notes that one of these values came again.
    pub(super) fn raise(&mut self, values: Values) {
        let score = self.of(values);
        self.scores[values.place()] = score.saturating_add(GAIN);
    }

    /// Notes that a new one of these values came.
    pub(super) fn lower(&mut self, values: Values) {
        let score = self.of(values);
        self.scores[values.place()] = score.saturating_sub(score.div_ceil(LOSS));
    }
}
