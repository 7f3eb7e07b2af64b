//! What the ends keep to, though nobody can refuse it: what an encoder owes to its decoder, what a decoder owes to its
//! encoder, and what a header list is as a message.

ghost use Rattle.std.specs.Prelude.{◌≡◌};

use crate::duties::least_reference;
use crate::findings::{self, Subject, rule_of_early, rule_of_message};
use crate::history;
use crate::judged::Judged;
use crate::messages::{Malformed, first_fault, push_malformed};
use crate::report::Report;
use qpack_table::dynamic::ReceivedTable;
use qpack_wire::stream::{DecoderLine, HeaderAck, StreamCancel};
use qpk_show::observer::Observer;
use qpk_show::section::{LineShown, Reading, reference_of};
use qpk_view::place::Place;

/// Judges an encoder instruction at an offset that was applied: what it evicts.
pub(crate) fn judge_applied(
    judged: &mut Judged,
    report: &mut Report,
    place: Place<'_>,
    offset: usize,
    observer: &Observer,
)
    ensures { report.new.json ≡ report.old.json }
{
    let number = judged.count_encoder();
    let evicted = evicted_from(observer.table());
    match judged
        .duties
        .evict(evicted, place.line, observer.known_received())
    {
        Ok(Some(early)) => {
            report.begin(place, Subject::Encoder(offset, number));
            history::push_early(&mut report.text, early);
            report.end(rule_of_early(early.kept));
        }
        Ok(None) => {}
        Err(_) => report.text.lack_memory(),
    }
}

/// Returns how many entries were evicted.
fn evicted_from(table: &ReceivedTable) -> usize {
    table.total_inserted() - table.count()
}

/// Judges a decoder instruction that is not refused.
pub(crate) fn judge_told(
    judged: &mut Judged,
    report: &mut Report,
    place: Place<'_>,
    line: &DecoderLine,
    observer: &Observer,
)
    ensures { report.new.json ≡ report.old.json }
{
    let known = observer.known_received();
    judged.count_decoder();
    judged.decoder_taken = observer.decoder_taken();
    match line {
        DecoderLine::HeaderAck(HeaderAck(stream)) => {
            judged.duties.acknowledge(*stream, known);
            judged.silence.end();
            report.text.note(judged.release(*stream, place.line, false));
        }
        DecoderLine::StreamCancel(StreamCancel(stream)) => {
            report.text.note(judged.give_up(*stream));
            judged.silence.end();
            report.text.note(judged.release(*stream, place.line, true));
        }
        DecoderLine::InsertCountIncrement(_) => judged.duties.learn(known),
    }
}

/// Judges how many streams could be blocked with a section that came.
pub(crate) fn judge_risk(
    judged: &mut Judged,
    report: &mut Report,
    place: Place<'_>,
    stream: u64,
    required: usize,
    observer: &Observer,
)
    ensures { report.new.json ≡ report.old.json }
{
    let (known, limit) = (observer.known_received(), observer.limit());
    match judged.duties.risk(stream, required, known, limit) {
        Ok(Some(streams)) => {
            report.begin(place, Subject::Section(stream, 0));
            history::push_at_risk(&mut report.text, streams, limit, &judged.duties);
            report.end(findings::TOO_MANY_AT_RISK);
        }
        Ok(None) => {}
        Err(_) => report.text.lack_memory(),
    }
}

/// Judges a decoder whose end sent something: whether it acknowledges sections.
pub(crate) fn judge_silence(judged: &mut Judged, report: &mut Report, place: Place<'_>)
    ensures { report.new.json ≡ report.old.json }
{
    let Some(sections) = judged.silence.hear(place.line) else {
        return;
    };
    let number = judged.decoder_instructions.saturating_add(1);
    report.begin(place, Subject::Decoder(judged.decoder_taken, number));
    history::push_silence(&mut report.text, sections);
    report.end(findings::NO_ACKNOWLEDGMENT);
}

/// Judges the list of a section that was read, unless its reading ended early. It waited before or not.
pub(crate) fn judge_list(
    judged: &mut Judged,
    report: &mut Report,
    place: Place<'_>,
    stream: u64,
    was_blocked: bool,
    reading: &Reading,
    observer: &Observer,
)
    ensures { report.new.json ≡ report.old.json }
{
    let Reading::Lines {
        required,
        base,
        lines,
        stop: None,
    } = reading
    else {
        judged.end_connection();
        report.text.note(judged.messages.skip(stream));
        return;
    };
    if *required > 0 {
        note_references(
            judged,
            report,
            place,
            stream,
            was_blocked,
            least_reference(*base, lines),
        );
        judge_new_risk(
            judged,
            report,
            place,
            stream,
            was_blocked,
            *required,
            observer,
        );
    }
    judge_message(judged, report, place, stream, *base, lines);
}

/// Notes the least entry that a section references, until it is acknowledged.
fn note_references(
    judged: &mut Judged,
    report: &mut Report,
    place: Place<'_>,
    stream: u64,
    was_blocked: bool,
    least: usize,
)
    ensures { report.new.json ≡ report.old.json }
{
    judged.silence.add();
    if was_blocked {
        judged.duties.end_wait(stream, least);
    } else {
        report
            .text
            .note(judged.duties.add(stream, place.line, least));
    }
}

/// Judges how many streams could be blocked with a section that did not wait before.
fn judge_new_risk(
    judged: &mut Judged,
    report: &mut Report,
    place: Place<'_>,
    stream: u64,
    was_blocked: bool,
    required: usize,
    observer: &Observer,
)
    ensures { report.new.json ≡ report.old.json }
{
    if !was_blocked {
        judge_risk(judged, report, place, stream, required, observer);
    }
}

/// Judges a list as a message, if it is known which end sent it. Behind an error of the connection lists may not be what
/// was meant.
fn judge_message(
    judged: &mut Judged,
    report: &mut Report,
    place: Place<'_>,
    stream: u64,
    base: usize,
    lines: &[LineShown],
)
    ensures { report.new.json ≡ report.old.json }
{
    let Some(end) = place.end else {
        return;
    };
    if judged.has_ended {
        return;
    }
    if judged.is_waiting(stream) {
        report.text.note(judged.messages.skip(stream));
    }
    match judged.messages.take(end, stream, lines) {
        Ok(Some(part)) => {
            if let Some(it) = first_fault(part, lines) {
                push_message(report, place, stream, base, lines, it);
            }
        }
        Ok(None) => {}
        Err(_) => report.text.lack_memory(),
    }
}

/// Appends the finding of a list that is no message.
fn push_message(
    report: &mut Report,
    place: Place<'_>,
    stream: u64,
    base: usize,
    lines: &[LineShown],
    it: Malformed,
)
    ensures { report.new.json ≡ report.old.json }
{
    let at = it.index.and_then(|index| lines.get(index));
    let offset = match at {
        Some(line) => line.offset,
        None => 0,
    };
    let is_dynamic = rests_on_table(base, lines, it);
    report.begin(place, Subject::Section(stream, offset));
    push_malformed(&mut report.text, it, lines);
    report.end(rule_of_message(it.fault, is_dynamic));
}

/// Returns whether a list might be a message, if its lines referenced other entries under their base.
fn rests_on_table(base: usize, lines: &[LineShown], it: Malformed) -> bool {
    match it.index {
        Some(index) if it.fault.is_of_one_line() => {
            lines
                .get(index)
                .is_some_and(|line| reference_of(base, &line.line) > 0)
        }
        Some(index) => lines
            .iter()
            .take(index.saturating_add(1))
            .any(|line| reference_of(base, &line.line) > 0),
        None => lines.iter().any(|line| reference_of(base, &line.line) > 0),
    }
}
