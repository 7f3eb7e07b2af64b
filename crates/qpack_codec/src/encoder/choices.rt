//! What is chosen for each field of a section: how its line is written, and whether it is inserted (RFC 9204, section
//! 2.1).

ghost use Rattle.std.specs.Prelude.{◌≡◌, ℕ, false, true};
ghost use Rattle.qpack_base.specs.HeaderFields.{line_of, field_of};
ghost use Rattle.qpack_spec.specs.Chosen as chosen;
ghost use Rattle.qpack_spec.specs.Chosen.{Chosen};
ghost use Rattle.qpack_spec.specs.Field.{FieldLine as Line, unmarked};
ghost use Rattle.qpack_spec.specs.StaticTable.{static_name_index};
ghost use Rattle.qpack_spec.specs.Table.{Table};
ghost use Rattle.qpack_table.specs.Handles.{AreHashesIn, IsSoughtIn, naming_of};
ghost use Rattle.qpack_codec.specs.Choices.{chosen_of, inserts_after, line_as_wished, wish_of_mark};
ghost use Rattle.qpack_codec.specs.declared.encoder.choices.Wish.{Wish as Asked};
ghost use Rattle.qpack_codec.specs.declared.encoder.choices.Wish.TheVariants.{Unmarked, Never as Refused};

use qpack_base::field::{FieldLine, HeaderField};
use qpack_base::stored_field::StoredField;
use qpack_table::dynamic::{DynamicTableEncoder, FindsEntries, Naming, SoughtField};

/// The caller's wish for a field.
#[derive(Debug, Clone, Copy, PartialEq, Drop)]
pub enum Wish {
    /// Nothing: the encoder chooses.
    Unmarked,
    /// The field is never indexed: it becomes a literal with that mark (RFC 9204, section 7.1.3).
    Never,
    /// The field is not inserted. The newest entry that equals it is referenced, if it may be.
    Reuse,
    /// The field is inserted if there is room.
    Insert,
}

impl Wish {
    /// Returns the wish of a field line's mark.
    pub fn of_mark(never_indexed: bool) -> Wish
        ensures { result ≡ wish_of_mark never_indexed }
    {
        if never_indexed {
            Wish::Never
        } else {
            Wish::Unmarked
        }
    }
}

/// What is done for a field. What is not safe for the table that it meets is replaced by a line without the dynamic
/// table, and an insertion without room by nothing.
#[derive(Debug, Clone, Copy, PartialEq, Drop)]
pub enum Choice {
    /// A line without the dynamic table. If `inserts`, the field is inserted after it, and nothing references the entry.
    Alone { inserts: bool },
    /// A reference to an equal entry, by its absolute index. If `inserts`, the same insertion after it, which is a
    /// duplicate.
    Equal { entry: usize, inserts: bool },
    /// A literal with the name of the newest entry that has it. If `inserts`, the same insertion after it.
    Named { inserts: bool },
    /// An insertion that the line references.
    Inserted,
}

impl Choice {
    /// Returns whether the field is inserted after its line.
    pub(super) fn inserts_after(&self) -> bool
        ensures { result ≡ inserts_after self.now }
    {
        match *self {
            Choice::Alone { inserts } | Choice::Equal { inserts, .. } | Choice::Named { inserts } =>
                inserts,
            Choice::Inserted => false,
        }
    }
}

/// A chooser for the fields of a section, one after the other, at tables with this index and storage. Whatever it chooses,
/// the section means its fields.
pub trait Chooses<I: FindsEntries, F: StoredField> {
    // How it chooses for one field: its state before, the base of the section, the table, the field line, the wish, the
    // choice, and its state after.
    ghost chooses: { Self → ℕ → Table → Line → Asked → Chosen → Self → Type 0 };

    // What an insertion may name.
    ghost naming: { chosen.Naming };

    /// Returns which entries the instruction of an insertion may name.
    fn naming(&self) -> Naming
        ensures { naming_of result ≡ naming };

    /// Begins a section: this is called before its first field.
    fn begin(&mut self, block: &DynamicTableEncoder<'_, I, F>);

    /// Chooses for a field that no static field equals, or that is never indexed. Of the latter only the name counts:
    /// `sought` holds no equal entry, and it is not inserted.
    fn choose(
        &mut self,
        block: &DynamicTableEncoder<'_, I, F>,
        field: &FieldLine<'_>,
        wish: Wish,
        sought: &SoughtField,
    ) -> Choice
        requires hashes { AreHashesIn (line_of field.now).field sought.now }
        requires static_name { sought.now.static_name ≡ static_name_index (line_of field.now).field.name }
        requires sought { (line_of field.now).never_indexed ≡ false
            → IsSoughtIn block.now.table.now (line_of field.now).field sought.now }
        ensures { chooses self.old block.now.base block.now.table.now (line_of field.now) wish
            (chosen_of naming block.now.table.now (line_of field.now).field result) self.new };
}

/// What can be borrowed as a field line: a header field, which may be indexed, a field line, and a reference to either.
pub trait AsField {
    // The field line that is borrowed.
    ghost line: { Self → Line };

    // The wish for the field.
    ghost wish: { Self → Asked };

    /// Returns the field line, borrowed.
    fn as_field(&self) -> FieldLine<'_>
        ensures { line_of result ≡ line self.now };

    /// Returns the wish for the field, which an encoder that chooses takes into account. The line of a field with the
    /// wish `Never` has that mark.
    fn wish(&self) -> Wish
        ensures same { result ≡ wish self.now }
        ensures never { wish self.now ≡ Refused → (line self.now).never_indexed ≡ true };
}

/// A field line with a wish.
#[derive(Debug, Clone, Copy, Drop)]
pub struct WishedField<'a> {
    /// The field line. One that is never indexed stays so, whatever the wish; the wish `Never` makes it so.
    pub line: FieldLine<'a>,
    /// The wish.
    pub wish: Wish,
}

impl AsField for WishedField<'_> {
    ghost line = { λ x. line_as_wished (line_of x.line) x.wish };

    ghost wish = { λ x. x.wish };

    fn as_field(&self) -> FieldLine<'_> {
        FieldLine {
            name: self.line.name,
            value: self.line.value,
            never_indexed: self.wish == Wish::Never || self.line.never_indexed,
        }
    }

    fn wish(&self) -> Wish {
        self.wish
    }
}

impl AsField for HeaderField {
    ghost line = { λ x. unmarked (field_of x) };

    ghost wish = { λ _. Unmarked };

    fn as_field(&self) -> FieldLine<'_> {
        self.as_line()
    }

    fn wish(&self) -> Wish {
        Wish::Unmarked
    }
}

impl AsField for FieldLine<'_> {
    ghost line = { λ x. line_of x };

    ghost wish = { λ x. wish_of_mark x.never_indexed };

    fn as_field(&self) -> FieldLine<'_> {
        *self
    }

    fn wish(&self) -> Wish {
        Wish::of_mark(self.never_indexed)
    }
}

impl<T: AsField> AsField for &T {
    ghost line = { λ x. T.line x.now };

    ghost wish = { λ x. T.wish x.now };

    fn as_field(&self) -> FieldLine<'_> {
        T::as_field(*self)
    }

    fn wish(&self) -> Wish {
        T::wish(*self)
    }
}
