//! What the encoding end chooses for each field of a section: what it inserts, what it references, and what it lets go
//! (RFC 9204, sections 2.1 and 2.1.1.1).
//!
//! Any choice is safe: one that the table does not permit becomes a line without it. No choice depends on the seed, or on
//! memory that is refused. A field that a static field equals is written as that. *At the limit* no more streams may be
//! blocked, so a line references only what is known to be received. A table of 2,048 bytes or more is *large*.
//!
//! **A field that an entry equals:**
//!
//! 1. The newest equal entry is referenced if it may be. Else the one that it is a copy of, if that is remembered. Else the
//!    field is a literal.
//! 2. An entry that drains is inserted again if there is room, and the line references the new entry. So is one that is
//!    far, small and was referenced lately, if only entries that drain are evicted for it.
//! 3. At the limit the line references the old entry, and the new one is a copy. In a small table an entry that was
//!    referenced lately may be inserted again in its own room, if its bytes are earned eight times: the line is a literal.
//! 4. Without room, in a large table that is tight, a draining entry of the oldest is let go: the field is a literal.
//!
//! **A field that no entry equals** is inserted
//!
//! 1. if the history has it, and at the limit the score of its name is not low; one in eight where it is low, none where it
//!    is 0;
//! 2. or if the score is high;
//! 3. or if the score is not low, the limit is not reached, and at most half of a large table is used with it;
//! 4. or for its name, within the credit, if it takes at most half of the capacity, and no static field has the name and no
//!    entry that stays.
//!
//! In a small table no insertion evicts what was referenced lately. Below the limit an entry that was not, before this line,
//! may be inserted again in its own room. So may any that drains, where an insertion found no room in this section or one of
//! the two before it. Where there is no room below the limit, the table is *tight* from then on, for this section and 32
//! more. At the limit the new entry is not referenced, and the insertion is paid from the allowance.
//!
//! **The instruction of an insertion** may name any live entry, also one that the insertion evicts (section 3.2.2).
//!
//! **A literal** has the name of the newest entry with it, if no static field has it and the entry is not let go.
//!
//! **A wish goes first.** `Insert` inserts a field that no entry equals, `Reuse` and `Never` insert nothing.

ghost use Rattle.std.specs.Prelude.{◌≡◌, ℕ, Bool, false, true, None, Some};
ghost use Rattle.qpack_base.specs.HeaderFields.{line_of};
ghost use Rattle.qpack_spec.specs.Chosen.{Live};
ghost use Rattle.qpack_spec.specs.Table.{may_reference};
ghost use Rattle.qpack_table.specs.Handles.{AreHashesIn};
ghost use Rattle.qpack_codec.specs.Choices.{inserts_after};
ghost use Rattle.qpack_codec.specs.declared.encoder.choices.Choice.TheVariants.{Equal, Inserted};
ghost use Rattle.qpack_codec.specs.declared.encoder.choices.Wish.TheVariants.{Insert as Asked, Reuse as Reused};
ghost use Rattle.qpack_encoding.specs.Wishes.{KeepsWish, by_wish};
ghost use Rattle.qpack_encoding.specs.declared.choosing.Reason.TheVariants.{Wish as Wished};

use crate::choosing::copies::Copies;
use crate::choosing::credit::{Allowance, NameCredit};
use crate::choosing::draining::{Draining, is_of_the_oldest};
use crate::choosing::history::History;
use crate::choosing::marks::{LATELY, LastUse, Marks};
use crate::choosing::scores::{
    LIKELY, LIKELY_AT_THE_LIMIT, LIKELY_IF_TIGHT, Scores, UNLIKELY, Values,
};
use qpack_base::field::FieldLine;
use qpack_base::stored_field::PackedField;
use qpack_codec::encoder::{Choice, Chooses, Wish};
use qpack_table::dynamic::{DynamicTableEncoder, Index, Naming, SoughtField};

mod copies;
mod credit;
mod draining;
mod history;
mod marks;
mod scores;

/// After an insertion found no room, the table is tight for this many sections.
const SECTIONS_WITHOUT_ROOM: u8 = 32;

/// A reference with a relative index of this or more takes a second byte.
const FAR: usize = 63;

/// The largest part of the capacity that a field may take which is inserted again because it is far.
const PART_OF_A_FAR_COPY: usize = 64;

/// From this capacity on a table is large: room alone is a reason to insert, and what was referenced lately may be evicted.
const LARGE: usize = 2048;

/// The part of the capacity that a field may take which is inserted for its name.
const PART_OF_A_NAME: usize = 2;

/// At the limit, one field in this many is inserted again although values of its name seldom come again.
const TURNS: u8 = 8;

/// At the limit, an entry of a small table is inserted again in its own room if its bytes are earned this many times.
const TIMES_EARNED: usize = 8;

/// Why a field that no entry equals is inserted.
#[derive(Debug, Clone, Copy, PartialEq, Drop)]
enum Reason {
    /// The caller wishes it.
    Wish,
    /// It was seen lately.
    Again,
    /// Values of its name come again, or there is room.
    Likely,
    /// For its name, which no table has.
    Name,
}

/// What the encoding end keeps of earlier sections to choose for the next fields.
#[derive(Debug, Drop)]
pub(crate) struct Chooser {
    draining: Draining,
    copies: Copies,
    history: History,
    scores: Scores,
    marks: Marks,
    names: NameCredit,
    allowance: Allowance,
    /// How many sections began since an insertion found no room, at most 255.
    sections_since: u8,
    /// How many fields had an unlikely name at the limit, modulo 256.
    turns: u8,
}

impl Chooser {
    /// Returns the chooser of a new connection.
    pub(crate) fn new() -> Chooser {
        Chooser {
            draining: Draining::new(),
            copies: Copies::new(),
            history: History::new(),
            scores: Scores::new(),
            marks: Marks::new(),
            names: NameCredit::new(),
            allowance: Allowance::new(),
            sections_since: u8::MAX,
            turns: 0,
        }
    }

    /// Returns whether an insertion found no room lately.
    fn is_tight(&self) -> bool {
        self.sections_since <= SECTIONS_WITHOUT_ROOM
    }

    /// Returns whether an insertion found no room in this section or one of the two before it.
    fn lacked_room_lately(&self) -> bool {
        self.sections_since <= LATELY
    }

    /// Returns whether an entry is let go: no line references it, so that it can be evicted.
    fn is_let_go(&self, block: &DynamicTableEncoder<'_, Index, PackedField>, entry: usize) -> bool {
        block.max_size() >= LARGE
            && self.is_tight()
            && self.draining.contains(entry)
            && is_of_the_oldest(block, entry)
    }

    /// Returns whether a field can be inserted. In a small table nothing is evicted for it that was referenced lately,
    /// except an entry that it replaces.
    fn can_insert(
        &self,
        block: &DynamicTableEncoder<'_, Index, PackedField>,
        field: &FieldLine<'_>,
        replaced: Option<usize>,
    ) -> bool {
        block.has_room(field)
            && (block.max_size() >= LARGE || self.spares_recent(block, field.mem_size(), replaced))
    }

    /// Returns whether an insertion of this size evicts no entry that was referenced lately, except this one.
    fn spares_recent(
        &self,
        block: &DynamicTableEncoder<'_, Index, PackedField>,
        size: usize,
        replaced: Option<usize>,
    ) -> bool {
        let mut used = block.used().saturating_add(size);
        for evicted in block.total_dropped()..block.total_inserted() {
            if used <= block.max_size() {
                return true;
            }
            let entry = evicted.saturating_add(1);
            if replaced != Some(entry) && self.marks.last_use(entry) == LastUse::Lately {
                return false;
            }
            used = used.saturating_sub(block.entry_size(entry).unwrap_or(0));
        }
        true
    }

    /// Returns the newest equal entry that may be referenced: the newest of all, or the one that it is a copy of.
    fn entry_to_reference(
        &self,
        block: &DynamicTableEncoder<'_, Index, PackedField>,
        field: &FieldLine<'_>,
        newest: usize,
    ) -> Option<usize>
        ensures { may_reference block.now.table.now newest ≡ true → result ≡ Some newest }
    {
        if block.may_reference(newest) {
            return Some(newest);
        }
        let original = self.copies.original_of(newest)?;
        if block.may_reference(original) && block.is_equal(original, field) {
            Some(original)
        } else {
            None
        }
    }

    /// Chooses for a field that an entry equals which may be referenced. One that drains, or that is far and used much,
    /// is inserted again: then the new entry is referenced, and the old one can be evicted.
    fn choose_equal(
        &mut self,
        block: &DynamicTableEncoder<'_, Index, PackedField>,
        field: &FieldLine<'_>,
        wish: Wish,
        sought: &SoughtField,
        entry: usize,
        newest: usize,
    ) -> Choice
        requires hashes { AreHashesIn (line_of field.now).field sought.now }
        requires newest { may_reference block.now.table.now newest ≡ true → entry ≡ newest }
        ensures { KeepsWish block.now.table.now (line_of field.now).field wish (Some newest) result }
    {
        let last = self.note_equal(block, field, sought, entry);
        let reference = Choice::Equal {
            entry,
            inserts: false,
        };
        if wish == Wish::Reuse || entry < newest {
            return reference;
        }
        let drains = self.draining.contains(entry);
        if !drains && !self.is_worth_a_copy(block, field, entry, last) {
            return reference;
        }
        if !block.is_below_limit() {
            return if self.can_insert(block, field, None) && !self.copies.is_full(block) {
                self.copy(block, entry)
            } else if self.takes_its_room(block, field, sought, entry, last) {
                self.marks
                    .note_use(block.total_inserted().saturating_add(1));
                Choice::Alone { inserts: true }
            } else {
                reference
            };
        }
        let replaced = (last != LastUse::Lately || self.lacked_room_lately()).then_some(entry);
        if self.can_insert(block, field, replaced) {
            self.marks
                .note_use(block.total_inserted().saturating_add(1));
            return Choice::Inserted;
        }
        if drains && self.is_let_go(block, entry) {
            return Choice::Alone { inserts: false };
        }
        reference
    }

    /// Returns whether an entry that does not drain is inserted again: it is far, small, was referenced in this section or
    /// one of the two before it, and only entries that drain are evicted for it.
    fn is_worth_a_copy(
        &mut self,
        block: &DynamicTableEncoder<'_, Index, PackedField>,
        field: &FieldLine<'_>,
        entry: usize,
        last: LastUse,
    ) -> bool {
        let size = field.mem_size();
        block.base().saturating_sub(entry) >= FAR
            && last == LastUse::Lately
            && size <= block.max_size() / PART_OF_A_FAR_COPY
            && self.draining.has_room_for(block, size)
    }

    /// Returns whether an entry is inserted again at the limit in its own room, and pays for it: in a small table, where it was
    /// referenced lately, and much was earned.
    fn takes_its_room(
        &mut self,
        block: &DynamicTableEncoder<'_, Index, PackedField>,
        field: &FieldLine<'_>,
        sought: &SoughtField,
        entry: usize,
        last: LastUse,
    ) -> bool {
        let bytes = length(field, sought);
        block.max_size() < LARGE
            && last == LastUse::Lately
            && evicts(block, field, entry)
            && self.can_insert(block, field, Some(entry))
            && self.allowance.has_earned(TIMES_EARNED, bytes)
            && self.allowance.pay(bytes)
    }

    /// Chooses a reference to an entry, and after it a copy that nothing references yet.
    fn copy(&mut self, block: &DynamicTableEncoder<'_, Index, PackedField>, entry: usize) -> Choice
        ensures { result ≡ Equal entry true }
    {
        let copy = block.total_inserted().saturating_add(1);
        self.copies.note(copy, entry);
        self.marks.note_use(copy);
        Choice::Equal {
            entry,
            inserts: true,
        }
    }

    /// Chooses for a field that no entry equals.
    fn choose_new(
        &mut self,
        block: &DynamicTableEncoder<'_, Index, PackedField>,
        field: &FieldLine<'_>,
        wish: Wish,
        sought: &SoughtField,
    ) -> Choice
        requires { AreHashesIn (line_of field.now).field sought.now }
        ensures { KeepsWish block.now.table.now (line_of field.now).field wish None result }
    {
        self.note_literal(block, field, sought);
        let Some(reason) = self.wants(block, field, wish, sought) else {
            return self.choose_literal(block, field, sought, false);
        };
        if !block.is_below_limit() {
            let inserts = reason == Reason::Wish || self.affords(block, field, sought);
            if inserts {
                self.note_insertion(block, reason);
            }
            return self.choose_literal(block, field, sought, inserts);
        }
        if self.can_insert(block, field, None) || reason == Reason::Wish && block.has_room(field) {
            self.note_insertion(block, reason);
            return Choice::Inserted;
        }
        self.sections_since = 0;
        self.choose_literal(block, field, sought, false)
    }

    /// Returns why a new field is to be inserted, if it is.
    fn wants(
        &mut self,
        block: &DynamicTableEncoder<'_, Index, PackedField>,
        field: &FieldLine<'_>,
        wish: Wish,
        sought: &SoughtField,
    ) -> Option<Reason>
        requires { AreHashesIn (line_of field.now).field sought.now }
        ensures insert { wish ≡ Asked → result ≡ Some Wished }
        ensures reuse { wish ≡ Reused → result ≡ None }
    {
        let hashes = sought.unseeded(field);
        let is_again = self.history.see(hashes.field());
        let values = Values::like(field, hashes.name());
        let score = self.scores.of(values);
        if !is_again {
            self.scores.lower(values);
        } else if block.is_below_limit() {
            self.scores.raise(values);
        }
        match wish {
            Wish::Insert => Some(Reason::Wish),
            Wish::Reuse | Wish::Never => None,
            Wish::Unmarked => {
                if is_again {
                    self.is_worth_an_entry(block, score)
                        .then_some(Reason::Again)
                } else if self.is_likely(block, field, score) {
                    Some(Reason::Likely)
                } else {
                    self.takes_name(block, field, sought)
                        .then_some(Reason::Name)
                }
            }
        }
    }

    /// Returns whether a field that came again is inserted, by the score of its name.
    fn is_worth_an_entry(
        &mut self,
        block: &DynamicTableEncoder<'_, Index, PackedField>,
        score: u8,
    ) -> bool {
        if block.is_below_limit() || score >= UNLIKELY {
            return true;
        }
        if score == 0 {
            return false;
        }
        self.turns = self.turns.wrapping_add(1);
        self.turns % TURNS == 0
    }

    /// Returns the score from which on a field is inserted when it comes for the first time.
    fn least_likely(&self, block: &DynamicTableEncoder<'_, Index, PackedField>) -> u8 {
        if !block.is_below_limit() {
            LIKELY_AT_THE_LIMIT
        } else if self.is_tight() {
            LIKELY_IF_TIGHT
        } else {
            LIKELY
        }
    }

    /// Returns whether a field is inserted when it comes for the first time, by the score of its name.
    fn is_likely(
        &self,
        block: &DynamicTableEncoder<'_, Index, PackedField>,
        field: &FieldLine<'_>,
        score: u8,
    ) -> bool {
        score >= self.least_likely(block) || score >= UNLIKELY && leaves_room(block, field)
    }

    /// Returns whether a field is to be inserted for its name alone, which no table has.
    fn takes_name(
        &self,
        block: &DynamicTableEncoder<'_, Index, PackedField>,
        field: &FieldLine<'_>,
        sought: &SoughtField,
    ) -> bool
        requires { AreHashesIn (line_of field.now).field sought.now }
    {
        if sought.static_name().is_some()
            || !self.names.is_left()
            || field.mem_size() > block.max_size() / PART_OF_A_NAME
            || !block.has_room(field)
        {
            return false;
        }
        match block.newest_name(field, sought) {
            Some(entry) => self.draining.contains(entry),
            None => true,
        }
    }

    /// Returns whether a field is inserted that its line does not reference, and pays for it.
    fn affords(
        &mut self,
        block: &DynamicTableEncoder<'_, Index, PackedField>,
        field: &FieldLine<'_>,
        sought: &SoughtField,
    ) -> bool {
        self.can_insert(block, field, None) && self.allowance.pay(length(field, sought))
    }

    /// Notes that a field which may be inserted is a literal, or is inserted, at the limit.
    fn note_literal(
        &mut self,
        block: &DynamicTableEncoder<'_, Index, PackedField>,
        field: &FieldLine<'_>,
        sought: &SoughtField,
    ) {
        if !block.is_below_limit() {
            self.allowance.note_literal(length(field, sought));
        }
    }

    /// Notes that the next entry is inserted for a reason.
    fn note_insertion(
        &mut self,
        block: &DynamicTableEncoder<'_, Index, PackedField>,
        reason: Reason,
    ) {
        let entry = block.total_inserted().saturating_add(1);
        match reason {
            Reason::Wish => self.marks.note_use(entry),
            Reason::Again if block.is_below_limit() => self.marks.note_use(entry),
            Reason::Again => self.marks.note_unused(entry, LastUse::NoneSince),
            Reason::Likely => self.marks.note_unused(entry, LastUse::None),
            Reason::Name => {
                self.names.spend();
                self.marks.note_unused(entry, LastUse::NoneForName);
            }
        }
    }

    /// Notes that an entry is referenced by an equal field. Returns when it was referenced before.
    fn note_equal(
        &mut self,
        block: &DynamicTableEncoder<'_, Index, PackedField>,
        field: &FieldLine<'_>,
        sought: &SoughtField,
        entry: usize,
    ) -> LastUse
        requires { AreHashesIn (line_of field.now).field sought.now }
    {
        let is_below = block.is_below_limit();
        if !is_below {
            self.allowance.earn(length(field, sought));
        }
        let last = self.marks.last_use(entry);
        self.marks.note_use(entry);
        if last == LastUse::NoneForName {
            self.names.gain();
        }
        match last {
            LastUse::None | LastUse::NoneForName => self.raise(field, sought),
            LastUse::NoneSince if !is_below => self.raise(field, sought),
            LastUse::NoneSince | LastUse::Lately | LastUse::Earlier => {}
        }
        last
    }

    /// Notes that the value of a field came again.
    fn raise(&mut self, field: &FieldLine<'_>, sought: &SoughtField)
        requires { AreHashesIn (line_of field.now).field sought.now }
    {
        let name = sought.unseeded(field).name();
        self.scores.raise(Values::like(field, name));
    }

    /// Notes that an entry is referenced for its name.
    fn note_name(&mut self, entry: usize) {
        match self.marks.last_use(entry) {
            LastUse::NoneForName => {
                self.names.gain();
                self.marks.note_unused(entry, LastUse::None);
            }
            LastUse::None | LastUse::NoneSince => {}
            LastUse::Lately | LastUse::Earlier => self.marks.note_use(entry),
        }
    }

    /// Chooses a literal, with the name of an entry if no static field has it.
    fn choose_literal(
        &mut self,
        block: &DynamicTableEncoder<'_, Index, PackedField>,
        field: &FieldLine<'_>,
        sought: &SoughtField,
        inserts: bool,
    ) -> Choice
        requires { AreHashesIn (line_of field.now).field sought.now }
        ensures literal { result ≡ Inserted → ⊥ }
        ensures equal { (entry : ℕ) (again : Bool) → result ≡ Equal entry again → ⊥ }
        ensures inserts { inserts_after result ≡ inserts }
    {
        if sought.static_name().is_some() {
            return Choice::Alone { inserts };
        }
        let Some(entry) = block.newest_name(field, sought) else {
            return Choice::Alone { inserts };
        };
        if !block.may_reference(entry) || self.is_let_go(block, entry) {
            return Choice::Alone { inserts };
        }
        self.note_name(entry);
        Choice::Named { inserts }
    }
}

impl Chooses<Index, PackedField> for Chooser {
    ghost use Rattle.qpack_encoding.specs.declared.choosing.Chooser.{Chooser as State};

    ghost chooses = { λ before base t l w c after. by_wish State before base t l w c after };

    ghost naming = { Live };

    fn naming(&self) -> Naming {
        Naming::Live
    }

    fn begin(&mut self, block: &DynamicTableEncoder<'_, Index, PackedField>) {
        self.sections_since = self.sections_since.saturating_add(1);
        self.history.fit(block.max_size());
        self.draining.advance(block);
        self.marks.begin_section();
        if !block.is_below_limit() {
            self.allowance.begin_section();
        }
    }

    fn choose(
        &mut self,
        block: &DynamicTableEncoder<'_, Index, PackedField>,
        field: &FieldLine<'_>,
        wish: Wish,
        sought: &SoughtField,
    ) -> Choice {
        if field.never_indexed || wish == Wish::Never {
            return self.choose_literal(block, field, sought, false);
        }
        let Some(newest) = sought.newest() else {
            return self.choose_new(block, field, wish, sought);
        };
        match self.entry_to_reference(block, field, newest) {
            Some(entry) => self.choose_equal(block, field, wish, sought, entry, newest),
            None => {
                self.note_literal(block, field, sought);
                self.choose_literal(block, field, sought, false)
            }
        }
    }
}

/// Returns how many bytes a field's value has, with its name unless a static field has that.
fn length(field: &FieldLine<'_>, sought: &SoughtField) -> usize {
    let name = if sought.static_name().is_some() {
        0
    } else {
        field.name.len()
    };
    field.value.len().saturating_add(name)
}

/// Returns whether a field that is inserted evicts an entry.
fn evicts(
    block: &DynamicTableEncoder<'_, Index, PackedField>,
    field: &FieldLine<'_>,
    entry: usize,
) -> bool {
    let mut used = block.used().saturating_add(field.mem_size());
    for older in block.total_dropped().saturating_add(1)..entry {
        used = used.saturating_sub(block.entry_size(older).unwrap_or(0));
    }
    used > block.max_size()
}

/// Returns whether, with the field, at most half of a large table is used and one more section may be blocked.
fn leaves_room(block: &DynamicTableEncoder<'_, Index, PackedField>, field: &FieldLine<'_>) -> bool {
    block.is_below_limit()
        && block.max_size() >= LARGE
        && block.used().saturating_add(field.mem_size()) <= block.max_size() / 2
}
