//! What an encoder may not do before its decoder acknowledged it: evict an entry (RFC 9204, section 2.1.1), and have more
//! streams that could be blocked than SETTINGS allow (section 2.1.2). A capture sees an acknowledgment no later than the
//! encoder does, and an insertion no earlier. So an end that keeps to these rules is not accused. A section that comes after
//! its stream was cancelled was sent before the encoder knew that: it binds nobody.

ghost use Rattle.std.specs.Prelude.{◌≡◌, nat_le, nat_lt};
ghost use Rattle.qpk_check.specs.Duties.{at_risk_without, first_needing, still_at_risk};

use qpk_show::section::{LineShown, reference_of};
use std::alloc::{AllocError, Global};
use std::collections::BTreeSet;

/// How many sections of an encoder are kept at most, until they are acknowledged. What more there are is not judged.
const MOST_SECTIONS: usize = 4096;
/// How many streams of an encoder are counted at most that could be blocked.
const MOST_STREAMS: usize = 1024;
/// The least entry of a section that references none, or is not read yet.
const NO_ENTRY: usize = usize::MAX;

/// A section that is not acknowledged.
#[derive(Clone, Copy)]
struct Needing {
    stream: u64,
    /// The line that it came in.
    line: usize,
    /// The least entry that it references, by its absolute index from 1.
    least: usize,
    is_waiting: bool,
}

/// A stream that could be blocked.
#[derive(Clone, Copy)]
pub(crate) struct AtRisk {
    pub(crate) stream: u64,
    /// The greatest required insert count of its sections.
    required: usize,
}

/// Why an entry may not be evicted yet.
#[derive(Clone, Copy)]
pub(crate) enum Kept {
    /// A section of this stream, which came in this line, references it, and is not acknowledged.
    Referenced(u64, usize),
    /// Its insertion is not acknowledged.
    Unacknowledged,
}

/// An entry that was evicted, and may not be yet.
#[derive(Clone, Copy)]
pub(crate) struct Early {
    /// Its absolute index, from 1.
    pub(crate) entry: usize,
    /// Why it may not be evicted yet.
    pub(crate) kept: Kept,
}

/// An instruction that evicted entries.
#[derive(Clone, Copy)]
struct Eviction {
    /// How many entries were evicted up to it.
    evicted: usize,
    line: usize,
}

/// What an encoder did that its decoder did not acknowledge.
#[derive(Drop)]
pub(crate) struct Duties {
    sections: Vec<Needing>,
    at_risk: Vec<AtRisk>,
    /// The streams that are cancelled, or read no further.
    cancelled: BTreeSet<u64>,
    evictions: Vec<Eviction>,
    evicted: usize,
    /// Whether the recording has what the decoder acknowledged. Else nothing is judged.
    is_told: bool,
    has_evicted_early: bool,
    has_too_many: bool,
}

impl Duties {
    /// Returns those of an encoder that did nothing yet. The recording has its decoder's stream or not.
    pub(crate) fn new(alloc: Global, is_told: bool) -> Duties {
        Duties {
            sections: Vec::new(alloc),
            at_risk: Vec::new(alloc),
            cancelled: BTreeSet::new(alloc),
            evictions: Vec::new(alloc),
            evicted: 0,
            is_told,
            has_evicted_early: false,
            has_too_many: false,
        }
    }

    /// Judges no further, since what comes is not known to be what was sent.
    pub(crate) fn stop(&mut self) {
        self.is_told = false;
    }

    /// Returns the streams that could be blocked.
    pub(crate) fn at_risk(&self) -> &[AtRisk] {
        &self.at_risk
    }

    /// Returns how many entries were evicted.
    pub(crate) fn evicted(&self) -> usize {
        self.evicted
    }

    /// Returns the line of the instruction that evicted an entry, if one did.
    pub(crate) fn line_of_eviction(&self, entry: usize) -> Option<usize> {
        let index = self.evictions.partition_point(|e| e.evicted < entry);
        Some(self.evictions.get(index)?.line)
    }

    /// Notes a section that came in a line, and is read.
    pub(crate) fn add(&mut self, stream: u64, line: usize, least: usize) -> Result<(), AllocError> {
        self.push(Needing {
            stream,
            line,
            least,
            is_waiting: false,
        })
    }

    /// Notes a section that came in a line, and waits.
    pub(crate) fn add_waiting(&mut self, stream: u64, line: usize) -> Result<(), AllocError> {
        self.push(Needing {
            stream,
            line,
            least: NO_ENTRY,
            is_waiting: true,
        })
    }

    /// Notes a section, if there is room.
    fn push(&mut self, section: Needing) -> Result<(), AllocError> {
        if self.binds(section.stream) && self.sections.len() < MOST_SECTIONS {
            self.sections.push(section)?;
        }
        Ok(())
    }

    /// Returns whether the sections of a stream are judged.
    fn binds(&self, stream: u64) -> bool {
        self.is_told && !self.cancelled.contains(&stream)
    }

    /// Notes that a section of a stream that waited is read. If others of the stream are not acknowledged either, it is
    /// not known which of them it is, and its entries are not kept.
    pub(crate) fn end_wait(&mut self, stream: u64, least: usize) {
        let is_alone = self.count_of(stream) == 1;
        let found = self
            .sections
            .iter_mut()
            .find(|s| s.stream == stream && s.is_waiting);
        if let Some(section) = found {
            section.is_waiting = false;
            section.least = if is_alone { least } else { NO_ENTRY };
        }
    }

    /// Returns how many sections of a stream are not acknowledged.
    fn count_of(&self, stream: u64) -> usize {
        self.sections.iter().filter(|s| s.stream == stream).count()
    }

    /// Notes that the oldest section of a stream is acknowledged, and that this many insertions are known to be
    /// received.
    pub(crate) fn acknowledge(&mut self, stream: u64, known: usize) {
        if let Some(index) = self.sections.iter().position(|s| s.stream == stream) {
            self.sections.remove(index);
        }
        self.learn(known);
    }

    /// Notes that this many insertions are known to be received.
    pub(crate) fn learn(&mut self, known: usize) {
        keep_at_risk(&mut self.at_risk, known);
    }

    /// Notes that a stream is read no further.
    pub(crate) fn give_up(&mut self, stream: u64) -> Result<(), AllocError> {
        self.sections.retain(|s| s.stream != stream);
        drop_at_risk(&mut self.at_risk, stream);
        self.cancelled.insert(stream)?;
        Ok(())
    }

    /// Notes that this many entries are evicted after the instruction in a line, while this many insertions are known
    /// to be received. Returns one of them that may not be, the first time.
    pub(crate) fn evict(
        &mut self,
        evicted: usize,
        line: usize,
        known: usize,
    ) -> Result<Option<Early>, AllocError> {
        if evicted <= self.evicted {
            return Ok(None);
        }
        let before = self.evicted;
        self.evicted = evicted;
        self.evictions.push(Eviction { evicted, line })?;
        if !self.is_told || self.has_evicted_early {
            return Ok(None);
        }
        let early = early_of(&self.sections, before, evicted, known);
        self.has_evicted_early = early.is_some();
        Ok(early)
    }

    /// Notes a section of a stream that requires this many insertions, while as many as `known` are known to be
    /// received. Returns how many streams could be blocked, if these are more than the limit, the first time.
    pub(crate) fn risk(
        &mut self,
        stream: u64,
        required: usize,
        known: usize,
        limit: usize,
    ) -> Result<Option<usize>, AllocError> {
        if required <= known || !self.binds(stream) || self.has_too_many {
            return Ok(None);
        }
        self.raise(stream, required)?;
        let count = self.at_risk.len();
        if count <= limit {
            return Ok(None);
        }
        self.has_too_many = true;
        Ok(Some(count))
    }

    /// Notes that a section of a stream requires this many insertions, if there is room.
    fn raise(&mut self, stream: u64, required: usize) -> Result<(), AllocError> {
        if let Some(found) = self.at_risk.iter_mut().find(|s| s.stream == stream) {
            found.required = found.required.max(required);
            return Ok(());
        }
        if self.at_risk.len() < MOST_STREAMS {
            self.at_risk.push(AtRisk { stream, required })?;
        }
        Ok(())
    }
}

/// Returns one of the entries behind `before` and up to `evicted` that may not be evicted, if there is one.
fn early_of(sections: &[Needing], before: usize, evicted: usize, known: usize) -> Option<Early> {
    if let Some(section) = section_needing(sections, evicted) {
        return Some(Early {
            entry: section.least,
            kept: Kept::Referenced(section.stream, section.line),
        });
    }
    if evicted <= known {
        return None;
    }
    Some(Early {
        entry: before.max(known).saturating_add(1),
        kept: Kept::Unacknowledged,
    })
}

/// Returns the first section that references an entry up to this one.
fn section_needing(sections: &[Needing], evicted: usize) -> Option<Needing> {
    let index = first_needing(sections, evicted)?;
    sections.get(index).copied()
}

/// Returns the index of the first section that references an entry up to this one (RFC 9204, section 2.1.1).
fn first_needing(sections: &[Needing], evicted: usize) -> Option<usize>
    ensures { result ≡ first_needing evicted sections.now }
{
    sections.iter().position(|s| s.least <= evicted)
}

/// Keeps the streams that could be blocked, once this many insertions are known to be received (RFC 9204, section 2.1.2).
fn keep_at_risk(at_risk: &mut Vec<AtRisk>, known: usize)
    ensures { at_risk.new.items ≡ still_at_risk known at_risk.old.items }
{
    at_risk.retain(|s| known < s.required);
}

/// Drops a stream.
fn drop_at_risk(at_risk: &mut Vec<AtRisk>, stream: u64)
    ensures { at_risk.new.items ≡ at_risk_without stream at_risk.old.items }
{
    at_risk.retain(|s| s.stream != stream);
}

/// Returns the least entry that lines reference under a base, by its absolute index from 1.
pub(crate) fn least_reference(base: usize, lines: &[LineShown]) -> usize {
    let mut least = NO_ENTRY;
    for line in lines {
        let entry = reference_of(base, &line.line);
        if entry > 0 {
            least = least.min(entry);
        }
    }
    least
}

/// How many sections wait for an acknowledgment when a decoder is held to be silent, and in how many lines it sent something
/// since.
pub(crate) const SILENT: usize = 16;

/// How long a decoder acknowledges no section (RFC 9204, section 2.2.2.1).
#[derive(Clone, Copy, Drop)]
pub(crate) struct Silence {
    /// How many sections it decoded that it has to acknowledge.
    sections: usize,
    /// In how many lines it sent something since these were as many as [`SILENT`].
    lines: usize,
    /// The last of them.
    last: usize,
    /// Whether it acknowledged or cancelled one, or can't be judged.
    is_over: bool,
}

impl Silence {
    /// Returns that of a decoder to which nothing came.
    pub(crate) fn new() -> Silence {
        Silence {
            sections: 0,
            lines: 0,
            last: 0,
            is_over: false,
        }
    }

    /// Ends it for good.
    pub(crate) fn end(&mut self) {
        self.is_over = true;
    }

    /// Notes a section that it decoded and has to acknowledge.
    pub(crate) fn add(&mut self) {
        self.sections = self.sections.saturating_add(1);
    }

    /// Notes that the decoder's end sent something in a line. Returns how many sections wait, once it is held to be
    /// silent.
    pub(crate) fn hear(&mut self, line: usize) -> Option<usize> {
        if self.is_over || self.sections < SILENT || line == self.last {
            return None;
        }
        self.last = line;
        self.lines = self.lines.saturating_add(1);
        if self.lines < SILENT {
            return None;
        }
        self.is_over = true;
        Some(self.sections)
    }
}
