//! The findings so far, as lines or as objects of JSON; or, where there is none, how much was judged.

ghost use Rattle.std.specs.Prelude.{◌≡◌, false, true, IfOk, string_bytes};
ghost use Rattle.qpk_check.specs.Findings.{AreVerdict, finding_front, nothing_front};
ghost use Rattle.qpk_view.specs.Texts.{BeginsWith, Extends};

use crate::findings::{
    Rule, Subject, push_finding, push_finding_object, push_rule, push_rule_members,
};
use qpk_view::fault::Fault;
use qpk_view::place::Place;
use qpk_view::text::Text;
use qpk_view::view::View;
use std::alloc::Global;
use std::marker::Model;

/// The findings so far.
#[derive(Drop)]
pub(crate) struct Report {
    pub(crate) text: Text,
    pub(crate) json: bool,
    has_found: bool,
}

impl Model for Report {
    ghost use Rattle.std.specs.Prelude.{◌≡◌, false};
    ghost use Rattle.qpk_check.specs.Findings.{AreFindings, Findings};

    ghost Value = { Findings };

    ghost view = { λ r. record { text = r.text; json = r.json; has_found = r.has_found } };

    ghost invariant = { λ r. r.text.lacks_memory ≡ false → AreFindings r.json r.has_found r.text.bytes };
}

impl Report {
    /// Returns a report without a finding.
    pub(crate) fn new(alloc: Global, json: bool) -> Report
        ensures { result.json ≡ json }
    {
        Report {
            text: Text::new(alloc),
            json,
            has_found: false,
        }
    }

    /// Begins a finding. Its reason comes next.
    #[tactic(auto, using(crate::proofs::Reports::begun))]
    pub(crate) fn begin(&mut self, place: Place<'_>, subject: Subject)
        ensures json { self.new.json ≡ self.old.json }
        ensures found { self.new.has_found ≡ true }
    {
        push_front(&mut self.text, self.json, place, subject);
        self.has_found = true;
    }

    /// Ends a finding, after its reason.
    pub(crate) fn end(&mut self, rule: Rule)
        requires { self.old.has_found ≡ true }
        ensures json { self.new.json ≡ self.old.json }
        ensures found { self.new.has_found ≡ true }
    {
        if self.json {
            push_rule_members(&mut self.text, rule);
        } else {
            push_rule(&mut self.text, rule);
        }
    }

    /// Returns what is printed. Where nothing was found, that is how many sections and instructions there were.
    pub(crate) fn finish(self, counts: Counts) -> Result<View, Fault>
        ensures { IfOk result (λ view. AreVerdict self.json view.has_found (string_bytes view.text)) }
    {
        let Report {
            mut text,
            json,
            has_found,
        } = self;
        if !has_found {
            push_nothing_found(&mut text, json, counts);
        }
        View::new(text, has_found)
    }
}

/// Appends the front of a finding, before the reason, as a line or as an object of JSON.
fn push_front(text: &mut Text, json: bool, place: Place<'_>, subject: Subject)
    ensures { BeginsWith (finding_front json) text.old text.new }
{
    if json {
        return push_finding_object(text, place, subject);
    }
    push_finding(text, place, subject);
}

/// How many sections and instructions there were.
#[derive(Clone, Copy)]
pub(crate) struct Counts {
    pub(crate) sections: usize,
    pub(crate) encoder: usize,
    pub(crate) decoder: usize,
}

/// Appends that nothing was found.
fn push_nothing_found(text: &mut Text, json: bool, counts: Counts)
    ensures { BeginsWith (nothing_front json) text.old text.new }
{
    if json {
        return push_counts_object(text, counts);
    }
    push_counts(text, counts);
}

/// Appends that nothing was found, as an object of JSON.
fn push_counts_object(text: &mut Text, counts: Counts)
    ensures { BeginsWith (nothing_front true) text.old text.new }
{
    text.push_str("{\"findings\":0,");
    push_members(text, counts);
}

/// Appends how many sections and instructions there were, and the end of their object of JSON.
fn push_members(text: &mut Text, counts: Counts)
    ensures { Extends text.old text.new }
{
    text.push_between(
        "\"sections\":",
        &counts.sections,
        ",\"encoder_instructions\":",
    );
    text.push_between("", &counts.encoder, ",\"decoder_instructions\":");
    text.push_between("", &counts.decoder, "}\n");
}

/// Appends that nothing was found, as a line.
fn push_counts(text: &mut Text, counts: Counts)
    ensures { BeginsWith (nothing_front false) text.old text.new }
{
    text.push_str("nothing found: ");
    push_numbers(text, counts);
}

/// Appends how many sections and instructions there were, and the end of their line.
fn push_numbers(text: &mut Text, counts: Counts)
    ensures { Extends text.old text.new }
{
    text.push_between("sections ", &counts.sections, ", encoder instructions ");
    text.push_between("", &counts.encoder, ", decoder instructions ");
    text.push_between("", &counts.decoder, "\n");
}
