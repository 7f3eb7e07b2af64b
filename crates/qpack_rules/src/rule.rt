//! Laws of the rule by which field sections are written (RFC 9204, section 2.1).

ghost use Rattle.qpack_spec.specs.BlockLaws.{BlocksRequireReferences};
ghost use Rattle.qpack_spec.specs.Chosen.{ChosenFieldsHaveLines, MarkedRuleIsChosen, NothingIsChosenAtZero};
ghost use Rattle.std.specs.Prelude.{List};
ghost use Rattle.qpack_spec.specs.Field.{Field};
ghost use Rattle.qpack_spec.specs.Handle.{HandleIsTheRule};
ghost use Rattle.qpack_spec.specs.Marked.{HandleIsTheMarkedRule, IsTheRuleUnmarked, MarkedLinesAreOfFields};
ghost use Rattle.qpack_spec.specs.MarkedLaws.{MarkedFieldsAreLiterals};
ghost use Rattle.qpack_spec.specs.StrictLaws.{NothingIsInsertedAtZero, WrittenSectionsAreStrict};
ghost use Rattle.qpack_spec.specs.Table.{Table};

/// Asking the table field by field, to find an entry and else to insert one, is the rule.
pub fn handle_is_the_rule()
    ensures { HandleIsTheRule }
{}

/// What a block requires, and what is kept of it until it is acknowledged, is what its lines reference.
pub fn blocks_require_what_they_reference()
    ensures { BlocksRequireReferences }
{}

/// A strict decoder refuses nothing that the rule writes: no line references an entry past the required insert count,
/// no count is encoded if the maximum capacity is 0, and no base is below 0 if nothing is required. At capacity 0
/// nothing is inserted.
pub fn written_sections_are_strict()
    ensures sections { WrittenSectionsAreStrict }
    ensures insertions { NothingIsInsertedAtZero }
{}

/// With fields that are marked as never to be indexed, asking the table field by field is the rule too, each field has
/// a line, a marked one a literal, and if none is marked it is the rule for unmarked fields, written as before (RFC
/// 9204, section 7.1.3).
pub fn marked_fields_are_literals()
    ensures literals { MarkedFieldsAreLiterals }
    ensures handle { HandleIsTheMarkedRule }
    ensures lines { MarkedLinesAreOfFields }
    ensures unmarked { (t : Table) (fs : List Field) → IsTheRuleUnmarked t fs }
{}

/// Under any choices of an encoder, each field has a line, a marked one a literal, and nothing is inserted at capacity
/// 0. The rule for marked fields is one list of choices.
pub fn chosen_fields_have_lines()
    ensures lines { ChosenFieldsHaveLines }
    ensures insertions { NothingIsChosenAtZero }
    ensures rule { MarkedRuleIsChosen }
{}
