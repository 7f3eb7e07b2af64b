//! What a finding follows from, in words: what came before it.

ghost use Rattle.qpk_view.specs.Texts.{Extends};

use crate::duties::{Duties, Early, Kept};
use crate::findings::Released;
use crate::judged::Waiting;
use qpack_codec::DecoderError;
use qpack_table::dynamic;
use qpk_show::section::LineFault;
use qpk_view::text::Text;

/// Appends in which line the sections of a stream were released, if an instruction did it.
pub(crate) fn push_release(text: &mut Text, released: Released)
    ensures { Extends text.old text.new }
{
    match released {
        Released::Acknowledged(Some(line)) => text.push_value(
            ": the last was acknowledged in line ",
            &line,
        ),
        Released::Cancelled(line) => text.push_value(": it was cancelled in line ", &line),
        _ => {}
    }
}

/// Appends which entry a line references, and in which line that was evicted, if it was.
pub(crate) fn push_eviction(text: &mut Text, fault: &LineFault, base: usize, duties: &Duties)
    ensures { Extends text.old text.new }
{
    let Some(entry) = entry_of(fault, base) else {
        return;
    };
    if let Some(line) = duties.line_of_eviction(entry) {
        text.push_value(": entry ", &entry);
        text.push_value(", evicted in line ", &line);
    }
}

/// Returns the entry that a line references, by its absolute index from 1, if there ever was one.
fn entry_of(fault: &LineFault, base: usize) -> Option<usize> {
    match fault {
        LineFault::Meaningless(DecoderError::DynamicTable(dynamic::Error::BadRelativeIndex(index)))
            if *index < base => Some(base.saturating_sub(*index)),
        LineFault::Meaningless(
            DecoderError::DynamicTable(dynamic::Error::BadPostbaseIndex(index)),
        ) => Some(base.saturating_add(*index).saturating_add(1)),
        _ => None,
    }
}

/// How many streams are named at most that are blocked.
const MOST_NAMED: usize = 4;

/// Appends how many streams may be blocked, and the first of those that are.
pub(crate) fn push_blocked(text: &mut Text, limit: usize, waiting: &[Waiting])
    ensures { Extends text.old text.new }
{
    text.push_between(": at most ", &limit, " may be, and these are:");
    for section in waiting.iter().take(MOST_NAMED) {
        text.push_value(" ", &section.stream);
    }
    if waiting.len() > MOST_NAMED {
        text.push_str(" ..");
    }
}

/// Appends that an instruction evicts an entry that may not be evicted yet.
pub(crate) fn push_early(text: &mut Text, early: Early)
    ensures { Extends text.old text.new }
{
    text.push_value("it evicts entry ", &early.entry);
    match early.kept {
        Kept::Referenced(stream, line) => {
            text.push_value(", which the section of stream ", &stream);
            text.push_value(" in line ", &line);
            text.push_str(" references, and that is not acknowledged");
        }
        Kept::Unacknowledged => text.push_str(", whose insertion is not acknowledged"),
    }
}

/// Appends how many streams could be blocked with a section, of how many, and the first of them.
pub(crate) fn push_at_risk(text: &mut Text, streams: usize, limit: usize, duties: &Duties)
    ensures { Extends text.old text.new }
{
    text.push_value("streams that could be blocked with it: ", &streams);
    text.push_value(", of at most ", &limit);
    text.push_str(";");
    for stream in duties.at_risk().iter().take(MOST_NAMED) {
        text.push_value(" ", &stream.stream);
    }
    if streams > MOST_NAMED {
        text.push_str(" ..");
    }
}

/// Appends that a decoder acknowledges no section.
pub(crate) fn push_silence(text: &mut Text, sections: usize)
    ensures { Extends text.old text.new }
{
    text.push_value("of ", &sections);
    text.push_str(" sections that wait for it none is acknowledged");
}
