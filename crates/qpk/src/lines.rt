//! Texts with one item a line.

ghost use Rattle.std.specs.Prelude.{ℕ, List, Option};
ghost use Rattle.qpk_qif.specs.Lines.{lines_of};
ghost use Rattle.qpk.specs.LineItems.{ReadsItem, ReadsItems, items_from};

use crate::text::Fault;
use qpk_qif::lines::split_line;
use std::alloc::Global;

/// An item that a line of a text may be.
pub trait FromLine: Drop {
    // The values of the definitions, the value of an item, and the value of a line, if it has one.
    ghost Value: { Type 0 };

    ghost value: { Self → Value };

    ghost of_line: { List ℕ → Option Value };

    /// Returns the item of a line, if it has one.
    fn from_line(alloc: Global, line: &[u8]) -> Result<Option<Self>, Fault>
        ensures { ReadsItem value result (of_line line.now) };
}

/// Returns the items of a text's lines; or the number of the first line that has none, counted from 1.
pub fn read_lines<T: FromLine>(alloc: Global, text: &[u8]) -> Result<Result<Vec<T>, usize>, Fault>
    ensures { ReadsItems T.value result (items_from T.of_line 1 (lines_of text.now)) }
{
    let mut items = Vec::new(alloc);
    let mut rest = text;
    let mut number = 0usize;
    while !rest.is_empty() {
        number += 1;
        let (line, after) = split_line(rest);
        let Some(item) = T::from_line(alloc, line)? else {
            return Ok(Err(number));
        };
        items.push(item)?;
        rest = after;
    }
    Ok(Ok(items))
}
