//! Required insert counts of an encoder that computes MaxEntries from the capacity in use, and not from the maximum of
//! SETTINGS (RFC 9204, section 4.5.1.1).

ghost use Rattle.qpk_view.specs.Texts.{Extends};

use qpack_table::dynamic::ReceivedTable;
use qpack_wire::block::HeaderPrefix;
use qpk_view::text::Text;

/// The least size of an entry, in bytes (RFC 9204, section 3.2.1).
const ENTRY: usize = 32;

/// Returns the required insert count that a section has by the capacity in use, if its last insertion is in the table and
/// that of the count by the maximum is not: then the encoder took the one for the other. This many insertions were evicted.
pub(crate) fn by_capacity(required: usize, table: &ReceivedTable, evicted: usize) -> Option<usize> {
    let total = table.total_inserted();
    if required == 0 || is_there(required, total, evicted) {
        return None;
    }
    let count = count_by_capacity(required, table)?;
    if is_there(count, total, evicted) {
        Some(count)
    } else {
        None
    }
}

/// Returns whether an insertion is in the table, with this many insertions, of which this many were evicted.
fn is_there(insertion: usize, total: usize, evicted: usize) -> bool {
    insertion > evicted && insertion <= total
}

/// Returns what the encoded count of a required insert count is by the capacity in use.
fn count_by_capacity(required: usize, table: &ReceivedTable) -> Option<usize> {
    let maximum = table.agreed_max();
    if maximum < ENTRY {
        return None;
    }
    let prefix = HeaderPrefix::new(required, required, required, maximum);
    match prefix.get(table.total_inserted(), table.max_mem_size()) {
        Ok((count, _)) => Some(count),
        Err(_) => None,
    }
}

/// Appends the required insert count by the capacity in use, if there is one.
pub(crate) fn push_by_capacity(text: &mut Text, count: Option<usize>)
    ensures { Extends text.old text.new }
{
    if let Some(count) = count {
        text.push_value(
            ": by the capacity in use its required insert count is ",
            &count,
        );
    }
}
