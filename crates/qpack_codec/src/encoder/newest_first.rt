//! The rule of the calls of h3's names: the first that applies of the newest equal entry that was live at the block's
//! start, an insertion and a literal (RFC 9204, section 2.1).

ghost use Rattle.std.specs.Prelude.{◌≡◌, false};
ghost use Rattle.qpack_base.specs.HeaderFields.{line_of};
ghost use Rattle.qpack_spec.specs.Chosen.{Staying};
ghost use Rattle.qpack_spec.specs.Field.{Field};
ghost use Rattle.qpack_spec.specs.Table.{Table};
ghost use Rattle.qpack_table.specs.Handles.{IsSoughtIn};
ghost use Rattle.qpack_codec.specs.Choices.{inserts_after, line_choice};
ghost use Rattle.qpack_codec.specs.NewestFirst.{by_newest, literal_first, unmarked_first};

use crate::encoder::choices::{Choice, Chooses, Wish};
use qpack_base::field::FieldLine;
use qpack_base::stored_field::StoredField;
use qpack_table::dynamic::{DynamicTableEncoder, FindsEntries, Naming, SoughtField};

/// Chooses by the table and the field alone.
#[derive(Debug, Clone, Copy, Drop)]
pub(super) struct NewestFirst;

impl<I: FindsEntries, F: StoredField> Chooses<I, F> for NewestFirst {
    ghost use Rattle.qpack_codec.specs.declared.encoder.newest_first.NewestFirst.{NewestFirst as State};

    ghost chooses = { λ before base t l w c after. by_newest State before base t l w c after };

    ghost naming = { Staying };

    fn naming(&self) -> Naming {
        Naming::Staying
    }

    fn begin(&mut self, _block: &DynamicTableEncoder<'_, I, F>) {}

    fn choose(
        &mut self,
        block: &DynamicTableEncoder<'_, I, F>,
        field: &FieldLine<'_>,
        _wish: Wish,
        sought: &SoughtField,
    ) -> Choice {
        if field.never_indexed {
            return choose_literal(sought);
        }
        choose_unmarked(block, field, sought)
    }
}

/// Chooses for a field that may be indexed, and that no static field equals.
fn choose_unmarked<I: FindsEntries, F: StoredField>(
    block: &DynamicTableEncoder<'_, I, F>,
    field: &FieldLine<'_>,
    sought: &SoughtField,
) -> Choice
    requires { IsSoughtIn block.now.table.now (line_of field.now).field sought.now }
    ensures line { line_choice block.now.table.now (line_of field.now).field result
        ≡ unmarked_first block.now.base block.now.table.now (line_of field.now).field }
    ensures unreferenced { inserts_after result ≡ false }
{
    match sought.newest() {
        Some(entry) if entry <= block.base() && block.may_reference(entry) => {
            return Choice::Equal {
                entry,
                inserts: false,
            };
        }
        _ => {}
    }
    if block.is_below_limit() && block.has_room(field) {
        return Choice::Inserted;
    }
    choose_literal(sought)
}

/// Chooses a literal, with the name of the newest entry that has it if no static field has.
fn choose_literal(sought: &SoughtField) -> Choice
    ensures line { (t : Table) (f : Field) → line_choice t f result ≡ literal_first t f sought.now.static_name }
    ensures unreferenced { inserts_after result ≡ false }
{
    if sought.static_name().is_some() {
        return Choice::Alone { inserts: false };
    }
    Choice::Named { inserts: false }
}
