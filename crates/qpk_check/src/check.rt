//! A recorded connection, judged: a finding for each thing that a strict end refuses, and for what its end leaves open.

ghost use Rattle.std.specs.Prelude.{◌≡◌, false, IfOk, IsUtf8, string_bytes};
ghost use Rattle.qpk_check.specs.Findings.{AreVerdict};

use crate::counts::{by_capacity, push_by_capacity};
use crate::findings::{
    self, Code, Released, Subject, rule_of_bytes, rule_of_hearing, rule_of_instruction,
    rule_of_line, rule_of_prefix, rule_of_wait,
};
use crate::history;
use crate::judged::{Judged, Waiting};
use crate::keeping::{judge_applied, judge_list, judge_risk, judge_silence, judge_told};
use crate::report::{Counts, Report};
use qpack_base::parse_error::ParseError;
use qpack_codec::DecoderError;
use qpack_table::dynamic::ReceivedTable;
use qpack_wire::stream::{DecoderLine, EncoderLine, HeaderAck};
use qpk_show::awaited::HearingFault;
use qpk_show::observer::Observer;
use qpk_show::section::{Reading, Stop};
use qpk_show::shown::Shown;
use qpk_show::stream::Cut;
use qpk_view::events::{End, Settings};
use qpk_view::fault::Fault;
use qpk_view::place::Place;
use qpk_view::reasons;
use qpk_view::view::View;
use qpk_view::watch::{Sight, Watch, Watcher};
use std::alloc::Global;

/// How a recording is read, and how findings are printed.
#[derive(Clone, Copy)]
pub struct CheckOptions {
    /// Whether objects of JSON are printed.
    pub json: bool,
    /// Whether the input is a recording of the offline interop format, and no lines.
    pub qif: bool,
    /// The limits of encoders for which the recording has no SETTINGS.
    pub settings: Settings,
}

/// Judges a recording: a finding a line, or one line that says that there is none. Fails if the maximum capacity is
/// 2^30 or more, or if the input is no recording.
pub fn check(alloc: Global, options: CheckOptions, input: &[u8]) -> Result<View, Fault>
    ensures verdict { IfOk result (λ view. AreVerdict options.json view.has_found (string_bytes view.text)) }
    ensures text { options.qif ≡ false → IfOk result (λ _. IsUtf8 input.now) }
{
    let watch = Watch::new(alloc, options.qif, options.settings, input)?;
    judge_recording(alloc, options.json, watch)
}

/// Judges a recording of which nothing was seen.
fn judge_recording(alloc: Global, json: bool, watch: Watch<'_>) -> Result<View, Fault>
    ensures { IfOk result (λ view. AreVerdict json view.has_found (string_bytes view.text)) }
{
    let mut watch = watch;
    let judge = Judge::new(alloc, json, &watch);
    judge_all(&mut watch, judge)
}

/// Judges all of a recording of which nothing was seen.
fn judge_all(watch: &mut Watch<'_>, judge: Judge) -> Result<View, Fault>
    ensures { IfOk result (λ view. AreVerdict judge.report.json view.has_found (string_bytes view.text)) }
{
    let mut judge = judge;
    match watch.finish(&mut judge) {
        Ok(()) => judge.end(),
        Err(fault) => Err(fault),
    }
}

/// A watcher that judges a recording.
#[derive(Drop)]
struct Judge {
    report: Report,
    client: Judged,
    server: Judged,
}

impl Watcher for Judge {
    ghost json = { λ judge. judge.report.json };

    fn see(&mut self, place: Place<'_>, encoder: End, sight: Sight<'_>) {
        match encoder {
            End::Client => judge_sight(&mut self.client, &mut self.report, place, sight),
            End::Server => judge_sight(&mut self.server, &mut self.report, place, sight),
        }
        match encoder_of_speaker(place, encoder, sight) {
            Some(End::Client) => judge_silence(&mut self.client, &mut self.report, place),
            Some(End::Server) => judge_silence(&mut self.server, &mut self.report, place),
            None => {}
        }
    }
}

/// Returns the end whose decoder sent something in a place, or another stream of the decoder's end has it.
fn encoder_of_speaker(place: Place<'_>, encoder: End, sight: Sight<'_>) -> Option<End> {
    match (place.end, sight) {
        (Some(end), _) => Some(end.other()),
        (None, Sight::Shown(Shown::Told { .. }, _)) => Some(encoder),
        _ => None,
    }
}

impl Judge {
    /// Returns the judge of a recording of which nothing was seen.
    fn new(alloc: Global, json: bool, watch: &Watch<'_>) -> Judge
        ensures { result.report.json ≡ json }
    {
        Judge {
            report: Report::new(alloc, json),
            client: Judged::new(alloc, watch.tells(End::Client)),
            server: Judged::new(alloc, watch.tells(End::Server)),
        }
    }

    /// Ends the report: sections that still wait, and, if nothing was found, what was looked at.
    fn end(self) -> Result<View, Fault>
        ensures { IfOk result (λ view. AreVerdict self.report.json view.has_found (string_bytes view.text)) }
    {
        let Judge {
            mut report,
            client,
            server,
        } = self;
        judge_waiting(&client, &mut report);
        judge_waiting(&server, &mut report);
        report.finish(counts_of(&client, &server))
    }
}

/// Returns how many sections and instructions were seen.
fn counts_of(client: &Judged, server: &Judged) -> Counts {
    Counts {
        sections: client.sections.saturating_add(server.sections),
        encoder: client
            .encoder_instructions
            .saturating_add(server.encoder_instructions),
        decoder: client
            .decoder_instructions
            .saturating_add(server.decoder_instructions),
    }
}

/// Judges what is seen of an encoder and of its decoder.
fn judge_sight(judged: &mut Judged, report: &mut Report, place: Place<'_>, sight: Sight<'_>)
    ensures { report.new.json ≡ report.old.json }
{
    match sight {
        Sight::Shown(shown, observer) => judge_shown(judged, report, place, shown, observer),
        Sight::GivenUp(stream) => judge_given_up(judged, report, stream),
        Sight::Cut(name, cut) => judge_cut(judged, report, place, name, cut),
        Sight::Settings(_) | Sight::HalfByte => {}
    }
}

/// Notes that a stream is read no further.
fn judge_given_up(judged: &mut Judged, report: &mut Report, stream: u64)
    ensures { report.new.json ≡ report.old.json }
{
    report.text.note(judged.give_up(stream));
    judged.silence.end();
    report.text.note(judged.messages.skip(stream));
}

/// Judges an instruction or a section.
fn judge_shown(
    judged: &mut Judged,
    report: &mut Report,
    place: Place<'_>,
    shown: &Shown,
    observer: &Observer,
)
    ensures { report.new.json ≡ report.old.json }
{
    let table = observer.table();
    match shown {
        Shown::Applied { offset, .. } => judge_applied(judged, report, place, *offset, observer),
        Shown::NotApplied {
            offset,
            line,
            error,
        } => judge_not_applied(judged, report, place, *offset, line, error, table),
        Shown::NoEncoderInstruction { offset, error } => {
            judge_encoder_bytes(judged, report, place, *offset, *error)
        }
        Shown::Told { line, .. } => judge_told(judged, report, place, line, observer),
        Shown::NotTold {
            offset,
            line,
            fault,
        } => judge_hearing(judged, report, place, *offset, line, *fault, table),
        Shown::NoDecoderInstruction { offset, error } => {
            judge_decoder_bytes(judged, report, place, *offset, *error)
        }
        Shown::Section {
            stream,
            was_blocked,
            reading,
        } => {
            judged.count_section(*stream, *was_blocked);
            judge_reading(judged, report, place, *stream, reading, table);
            judge_list(
                judged,
                report,
                place,
                *stream,
                *was_blocked,
                reading,
                observer,
            );
        }
        Shown::BlockedUntil { stream, required } => {
            judge_blocked(judged, report, place, *stream, *required, observer)
        }
        Shown::TooManyBlocked { stream, required } => {
            judge_too_many_blocked(judged, report, place, *stream, *required, observer.limit())
        }
    }
}

/// Judges an encoder instruction at an offset that the table refuses.
fn judge_not_applied(
    judged: &mut Judged,
    report: &mut Report,
    place: Place<'_>,
    offset: usize,
    line: &EncoderLine,
    error: &DecoderError,
    table: &ReceivedTable,
)
    ensures { report.new.json ≡ report.old.json }
{
    judged.break_off();
    report.begin(place, Subject::Encoder(offset, judged.count_encoder()));
    reasons::push_not_applied(&mut report.text, line, error, table);
    report.end(rule_of_instruction(offset, line, error, table));
}

/// Judges bytes of an encoder stream at an offset that are no instruction.
fn judge_encoder_bytes(
    judged: &mut Judged,
    report: &mut Report,
    place: Place<'_>,
    offset: usize,
    error: ParseError,
)
    ensures { report.new.json ≡ report.old.json }
{
    judged.break_off();
    let subject = Subject::Encoder(offset, judged.count_encoder());
    judge_bytes(report, place, subject, Code::EncoderStream, error);
}

/// Judges bytes of a decoder stream at an offset that are no instruction.
fn judge_decoder_bytes(
    judged: &mut Judged,
    report: &mut Report,
    place: Place<'_>,
    offset: usize,
    error: ParseError,
)
    ensures { report.new.json ≡ report.old.json }
{
    judged.end_connection();
    let subject = Subject::Decoder(offset, judged.count_decoder());
    judge_bytes(report, place, subject, Code::DecoderStream, error);
}

/// Judges bytes of a stream that are no instruction.
fn judge_bytes(
    report: &mut Report,
    place: Place<'_>,
    subject: Subject,
    code: Code,
    error: ParseError,
)
    ensures { report.new.json ≡ report.old.json }
{
    report.begin(place, subject);
    reasons::push_unreadable(&mut report.text, error);
    report.end(rule_of_bytes(code, error));
}

/// Judges a decoder instruction at an offset that is refused for a fault.
fn judge_hearing(
    judged: &mut Judged,
    report: &mut Report,
    place: Place<'_>,
    offset: usize,
    line: &DecoderLine,
    fault: HearingFault,
    table: &ReceivedTable,
)
    ensures { report.new.json ≡ report.old.json }
{
    judged.end_connection();
    let subject = Subject::Decoder(offset, judged.count_decoder());
    if follows(judged, fault) {
        return;
    }
    let released = released_of(judged, line);
    report.begin(place, subject);
    reasons::push_hearing(&mut report.text, fault, table);
    history::push_release(&mut report.text, released);
    report.end(rule_of_hearing(offset, line, fault, released));
}

/// Judges a section that is blocked.
fn judge_blocked(
    judged: &mut Judged,
    report: &mut Report,
    place: Place<'_>,
    stream: u64,
    required: usize,
    observer: &Observer,
)
    ensures { report.new.json ≡ report.old.json }
{
    judged.count_section(stream, false);
    let count = by_capacity(required, observer.table(), judged.duties.evicted());
    report.text.note(judged.wait(Waiting {
        stream,
        required,
        line: place.line,
        end: place.end,
        by_capacity: count,
    }));
    report
        .text
        .note(judged.duties.add_waiting(stream, place.line));
    judge_risk(judged, report, place, stream, required, observer);
}

/// Judges a section that would be blocked if more streams might be.
fn judge_too_many_blocked(
    judged: &mut Judged,
    report: &mut Report,
    place: Place<'_>,
    stream: u64,
    required: usize,
    limit: usize,
)
    ensures { report.new.json ≡ report.old.json }
{
    judged.count_section(stream, false);
    report.text.note(judged.refer(stream));
    report.text.note(judged.messages.skip(stream));
    judged.end_connection();
    if judged.is_broken {
        return;
    }
    report.begin(place, Subject::Section(stream, 0));
    reasons::push_too_many_blocked(&mut report.text, required);
    history::push_blocked(&mut report.text, limit, &judged.waiting);
    report.end(findings::TOO_MANY_BLOCKED);
}

/// Returns whether a refusal follows from an encoder stream that was refused.
fn follows(judged: &Judged, fault: HearingFault) -> bool {
    match fault {
        HearingFault::PastInsertions(_) => judged.is_broken,
        _ => false,
    }
}

/// Returns how the sections of the stream that an instruction acknowledges were released.
fn released_of(judged: &Judged, line: &DecoderLine) -> Released {
    match line {
        DecoderLine::HeaderAck(HeaderAck(stream)) => judged.released(*stream),
        _ => Released::Never,
    }
}

/// Judges a section that was read.
fn judge_reading(
    judged: &mut Judged,
    report: &mut Report,
    place: Place<'_>,
    stream: u64,
    reading: &Reading,
    table: &ReceivedTable,
)
    ensures { report.new.json ≡ report.old.json }
{
    let required = reading.required();
    if required > 0 {
        report.text.note(judged.refer(stream));
    }
    match reading {
        Reading::Lines {
            base,
            stop: Some(stop),
            ..
        } => judge_stop(judged, report, place, stream, required, *base, stop, table),
        Reading::Refused(refusal) => {
            report.begin(place, Subject::Section(stream, 0));
            reasons::push_prefix_refusal(&mut report.text, refusal);
            report.end(rule_of_prefix(refusal));
        }
        _ => {}
    }
}

/// Judges the line at which a section with this required insert count and this base ends early.
fn judge_stop(
    judged: &Judged,
    report: &mut Report,
    place: Place<'_>,
    stream: u64,
    required: usize,
    base: usize,
    stop: &Stop,
    table: &ReceivedTable,
)
    ensures { report.new.json ≡ report.old.json }
{
    let count = by_capacity(required, table, judged.duties.evicted());
    report.begin(place, Subject::Section(stream, stop.offset));
    reasons::push_line_fault(&mut report.text, &stop.fault);
    history::push_eviction(&mut report.text, &stop.fault, base, &judged.duties);
    push_by_capacity(&mut report.text, count);
    report.end(rule_of_line(&stop.fault, required, base, count));
}

/// Judges what the end of the input cuts.
fn judge_cut(judged: &Judged, report: &mut Report, place: Place<'_>, name: &str, cut: Cut)
    ensures { report.new.json ≡ report.old.json }
{
    report.begin(place, subject_of_cut(judged, name, cut.offset));
    report.text.push_str("cut at the end of the recording");
    report.end(findings::CUT);
}

/// Returns what the end of the input cuts, at an offset: an instruction of a stream of this name, or a record.
fn subject_of_cut(judged: &Judged, name: &str, offset: usize) -> Subject {
    match name {
        "encoder" => Subject::Encoder(offset, judged.encoder_instructions.saturating_add(1)),
        "decoder" => Subject::Decoder(offset, judged.decoder_instructions.saturating_add(1)),
        _ => Subject::Record(offset),
    }
}

/// Judges sections that wait to the end. That is to be expected after an encoder stream that was rejected.
fn judge_waiting(judged: &Judged, report: &mut Report)
    ensures { report.new.json ≡ report.old.json }
{
    if judged.is_broken {
        return;
    }
    for waiting in &judged.waiting {
        judge_wait(report, waiting);
    }
}

/// Judges a section that waits to the end.
fn judge_wait(report: &mut Report, waiting: &Waiting)
    ensures { report.new.json ≡ report.old.json }
{
    let place = Place {
        line: waiting.line,
        time: "",
        end: waiting.end,
    };
    report.begin(place, Subject::Section(waiting.stream, 0));
    report.text.push_between("blocked until insertion ", &waiting.required, " to the end");
    push_by_capacity(&mut report.text, waiting.by_capacity);
    report.end(rule_of_wait(waiting.by_capacity));
}
