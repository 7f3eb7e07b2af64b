//! What an onlooker keeps to judge the decoder stream: the sections that wait for an acknowledgment, and how many
//! insertions the decoder is known to have received (RFC 9204, sections 2.1.4 and 4.4).

ghost use Rattle.std.specs.Prelude.{◌≡◌, ◌<◌, OnOk, Some, length, nat_eq, position, remove, slice_get};
ghost use Rattle.qpack_wire.specs.StreamLines.{decoder_instruction_of};
ghost use Rattle.qpk_show.specs.Awaited.{Hears, acknowledged, cancelled, hear, incremented};
ghost use Rattle.qpk_show.specs.Awaited.{known_with, nothing_awaited, on_other_streams, with_sent};

use qpack_wire::stream::{DecoderLine, HeaderAck, InsertCountIncrement, StreamCancel};
use std::alloc::{AllocError, Global};
use std::marker::Model;

/// A section that is not acknowledged yet.
#[derive(Clone, Copy, Debug, PartialEq)]
struct Sent {
    stream: u64,
    /// Its required insert count, which is 1 or more.
    required: usize,
}

/// Why a decoder instruction is rejected.
#[derive(Clone, Copy, Debug, PartialEq, Drop)]
pub enum HearingFault {
    /// It is an increment of 0 (RFC 9204, section 4.4.3).
    ZeroIncrement,
    /// It raises the known received count by this, above the insertions made (RFC 9204, section 4.4.3).
    PastInsertions(usize),
    /// It acknowledges a section of this stream, on which none waits (RFC 9204, section 4.4.1).
    UnknownStream(u64),
}

/// What the decoder stream may report.
#[derive(Debug, Drop)]
pub(crate) struct Awaited {
    /// How many insertions are known to be received.
    known: usize,
    sent: Vec<Sent>,
}

impl Model for Awaited {
    ghost use Rattle.qpk_show.specs.Awaited.{Awaited};

    ghost Value = { Awaited };

    ghost view = { λ w. record { known = w.known; sent = w.sent.items } };
}

impl Awaited {
    /// Returns what is awaited if nothing was sent.
    pub(crate) fn new(alloc: Global) -> Awaited
        ensures { result ≡ nothing_awaited }
    {
        Awaited {
            known: 0,
            sent: Vec::new(alloc),
        }
    }

    /// Returns how many insertions are known to be received.
    pub(crate) fn known(&self) -> usize
        ensures { result ≡ self.now.known }
    {
        self.known
    }

    /// Adds a section of a stream.
    pub(crate) fn add(&mut self, stream: u64, required: usize) -> Result<(), AllocError>
        ensures { OnOk result (self.new ≡ with_sent self.old stream required) }
    {
        self.sent.push(Sent { stream, required })?;
        Ok(())
    }

    /// Takes a decoder instruction, after this many insertions. On error nothing changes.
    #[tactic(auto, unfolding(crate::specs::Awaited::hear))]
    pub(crate) fn hear(&mut self, inserted: usize, line: &DecoderLine) -> Result<(), HearingFault>
        ensures { Hears result (hear inserted self.old (decoder_instruction_of line.now)) self.old self.new }
    {
        match line {
            DecoderLine::InsertCountIncrement(InsertCountIncrement(by)) => {
                self.increment(inserted, *by)
            }
            DecoderLine::HeaderAck(HeaderAck(stream)) => self.acknowledge(*stream),
            DecoderLine::StreamCancel(StreamCancel(stream)) => {
                self.cancel(*stream);
                Ok(())
            }
        }
    }

    /// Raises the known received count. On error nothing changes.
    fn increment(&mut self, inserted: usize, by: usize) -> Result<(), HearingFault>
        ensures { Hears result (incremented inserted self.old by) self.old self.new }
    {
        if by == 0 {
            return Err(HearingFault::ZeroIncrement);
        }
        match self.known.checked_add(by) {
            Some(known) if known <= inserted => {
                self.known = known;
                Ok(())
            }
            _ => Err(HearingFault::PastInsertions(by)),
        }
    }

    /// Releases the oldest section of a stream. On error nothing changes.
    fn acknowledge(&mut self, stream: u64) -> Result<(), HearingFault>
        ensures { Hears result (acknowledged self.old stream) self.old self.new }
    {
        match first_on(&self.sent, stream) {
            Some(index) => {
                let sent = self.take(index);
                self.known = known_with(self.known, sent.required);
                Ok(())
            }
            None => Err(HearingFault::UnknownStream(stream)),
        }
    }

    /// Takes the section at this index.
    fn take(&mut self, index: usize) -> Sent
        requires { index < length self.old.sent }
        ensures value { slice_get self.old.sent index ≡ Some result }
        ensures others { self.new ≡ record self.old { sent = remove self.old.sent index } }
    {
        self.sent.remove(index)
    }

    /// Releases the sections of a stream.
    fn cancel(&mut self, stream: u64)
        ensures { self.new ≡ cancelled self.old stream }
    {
        drop_sections(&mut self.sent, stream);
    }
}

/// Returns the known received count, if this many insertions are known to be received too.
fn known_with(known: usize, required: usize) -> usize
    ensures { result ≡ known_with known required }
{
    if known < required { required } else { known }
}

/// Returns the index of the first section of a stream.
fn first_on(sent: &[Sent], stream: u64) -> Option<usize>
    ensures { result ≡ position (λ s. nat_eq s.stream stream) sent.now }
{
    sent.iter().position(|s| s.stream == stream)
}

/// Drops the sections of a stream.
fn drop_sections(sent: &mut Vec<Sent>, stream: u64)
    ensures { sent.new.items ≡ on_other_streams stream sent.old.items }
{
    sent.retain(|s| s.stream != stream);
}
