//! Laws of field sections that reference no entry.

ghost use Rattle.qpack_spec.specs.Stateless.{RuleWithoutTable, StatelessPairAgrees};
ghost use Rattle.qpack_spec.specs.StatelessMeaning.{StatelessReadingIsMeaning, StatelessIsWithoutTable};

/// Without a table the rule writes static lines and literals alone.
pub fn rule_without_table_is_stateless()
    ensures { RuleWithoutTable }
{}

/// What is written alone is read alone as the fields, or refused at the first one whose sum of sizes passes the limit.
pub fn stateless_pair_agrees()
    ensures { StatelessPairAgrees }
{}

/// Reading a section alone from left to right gives its fields, or its first fault in reading order.
pub fn reading_alone_is_meaning()
    ensures { StatelessReadingIsMeaning }
{}

/// Reading a section alone is reading it under an empty table of capacity 0, up to the limit.
pub fn stateless_is_without_table()
    ensures { StatelessIsWithoutTable }
{}
