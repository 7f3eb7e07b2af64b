//! An onlooker of a connection: bytes of both streams and field sections come, and what they are is shown one after the
//! other.

ghost use Rattle.std.specs.Prelude.{◌≡◌, ◌^◌, ◌≤◌, ◌<◌, ◌++◌, ◌∷◌, [], ℕ, List, None, Some, position, length, set};
ghost use Rattle.std.specs.Prelude.{Ok, remove};
ghost use Rattle.std.specs.Prelude.{slice_get, IfOk, OnOk, OnErr, OnErr, MatchOption, ◌&&◌, not};
ghost use Rattle.std.specs.List.{list_any};
ghost use Rattle.qpack_spec.specs.Table.{insert_count};
ghost use Rattle.qpk_show.specs.Showing.{is_due, waits_on, blocked_streams, may_wait, next_shown, next_told};
ghost use Rattle.qpk_show.specs.Showing.{next_taken};
ghost use Rattle.qpack_rules.specs.StrictInstructions.{strict_apply};
ghost use Rattle.qpack_wire.specs.StreamLines.{decoder_instruction_of, encoder_instruction_of};
ghost use Rattle.qpk_show.specs.Showing.{section_at, observed_at_first, with_section, without_stream, is_waiting};
ghost use Rattle.qpk_show.specs.Showing.{applied, blocked_at, heard, noted, of_other_streams, required_of};
ghost use Rattle.qpk_show.specs.Showing.{section_read, section_tried};
ghost use Rattle.qpk_show.specs.Awaited.{hear};
ghost use Rattle.qpk_show.specs.Sections.{Reading as ReadingOf, shown_section};
ghost use Rattle.qpk_show.specs.Streams.{cut_of};
ghost use Rattle.qpk_show.specs.Answers.{IsReading, ShowsNext, ShowsOne, no_encoder_instruction, no_decoder_instruction};
ghost use Rattle.qpk_show.specs.Answers.{not_applied};

use crate::awaited::Awaited;
use crate::instruction::apply_instruction;
use crate::section::{Reading, read_section};
use crate::shown::Shown;
use crate::stream::{Cut, Stream};
use qpack_base::coding::NoMemory;
use qpack_base::parse_error::ParseError;
use qpack_codec::DecoderError;
use qpack_table::dynamic::{DynamicTable, ReceivedTable};
use qpack_wire::stream::{DecoderLine, EncoderLine};
use std::alloc::{AllocError, Global};
use std::marker::Model;

/// A field section that came, and is not shown yet.
#[derive(Debug, Drop)]
struct Arrived {
    stream: u64,
    bytes: Vec<u8>,
    /// How many insertions it waits for, if that is known.
    waits_for: Option<usize>,
}

/// An onlooker.
#[derive(Debug, Drop)]
pub struct Observer {
    table: ReceivedTable,
    /// How many streams may be blocked.
    limit: usize,
    encoder_stream: Stream,
    decoder_stream: Stream,
    arrived: Vec<Arrived>,
    awaited: Awaited,
}

impl Model for Arrived {
    ghost use Rattle.qpk_show.specs.Showing.{Arrived};

    ghost Value = { Arrived };

    ghost view = { λ a. record { stream = a.stream; bytes = a.bytes.items; waits_for = a.waits_for } };
}

impl Arrived {
    /// Returns whether it can be read now: it was not tried yet, or what it waits for has come.
    fn is_due(&self, inserted: usize) -> bool
        ensures { result ≡ is_due inserted self.now }
    {
        match self.waits_for {
            None => true,
            Some(required) => required <= inserted,
        }
    }

    /// Returns whether it waits.
    fn is_waiting(&self) -> bool
        ensures { result ≡ is_waiting self.now }
    {
        self.waits_for.is_some()
    }

    /// Returns whether it waits on this stream.
    fn waits_on(&self, stream: u64) -> bool
        ensures { result ≡ waits_on stream self.now }
    {
        self.stream == stream && self.waits_for.is_some()
    }
}

impl Model for Observer {
    ghost use Rattle.qpk_show.specs.Showing.{Observed};

    ghost Value = { Observed };

    ghost view = { λ o. record {
      table = o.table;
      limit = o.limit;
      encoder_stream = o.encoder_stream;
      decoder_stream = o.decoder_stream;
      arrived = o.arrived.items;
      awaited = o.awaited;
    } };
}

impl Observer {
    /// Returns an onlooker who has seen nothing, of a connection with this maximum table capacity in bytes and this
    /// limit of blocked streams. The table begins at capacity 0 (RFC 9204, section 3.2.2). Returns `None` if the
    /// maximum is 2^30 or more.
    pub fn new(alloc: Global, maximum: usize, limit: usize) -> Option<Observer>
        ensures { MatchOption result (2 ^ 30 ≤ maximum)
            (λ o. (maximum < 2 ^ 30) × (o ≡ observed_at_first maximum limit)) }
    {
        let mut table = DynamicTable::without_index(alloc);
        if table.set_agreed_max(maximum).is_err() {
            return None;
        }
        Some(Observer {
            table,
            limit,
            encoder_stream: Stream::new(alloc),
            decoder_stream: Stream::new(alloc),
            arrived: Vec::new(alloc),
            awaited: Awaited::new(alloc),
        })
    }

    /// Returns the table after the instructions that were shown.
    pub fn table(&self) -> &ReceivedTable
        ensures { result.now ≡ self.now.table }
    {
        &self.table
    }

    /// Returns how many streams may be blocked.
    pub fn limit(&self) -> usize
        ensures { result ≡ self.now.limit }
    {
        self.limit
    }

    /// Returns how many insertions the decoder is known to have received (RFC 9204, section 2.1.4).
    pub fn known_received(&self) -> usize
        ensures { result ≡ self.now.awaited.known }
    {
        self.awaited.known()
    }

    /// Returns how many bytes of the decoder stream were taken.
    pub fn decoder_taken(&self) -> usize
        ensures { result ≡ self.now.decoder_stream.taken }
    {
        self.decoder_stream.taken()
    }

    /// Returns the front of an encoder instruction that is not whole, once there is nothing to show.
    pub fn encoder_cut(&self) -> Option<Cut>
        ensures { result ≡ cut_of self.now.encoder_stream }
    {
        self.encoder_stream.cut()
    }

    /// Returns the front of a decoder instruction that is not whole, once there is nothing to show.
    pub fn decoder_cut(&self) -> Option<Cut>
        ensures { result ≡ cut_of self.now.decoder_stream }
    {
        self.decoder_stream.cut()
    }

    /// Takes bytes of the encoder stream. On error, which is for memory only, nothing changes.
    pub fn receive_encoder(&mut self, bytes: &[u8]) -> Result<(), AllocError>
        ensures ok { OnOk result (self.new ≡ record self.old {
          encoder_stream = record self.old.encoder_stream {
            received = self.old.encoder_stream.received ++ bytes.now;
          };
        }) }
        ensures err { OnErr result (self.new ≡ self.old) }
    {
        self.encoder_stream.receive(bytes)
    }

    /// Takes bytes of the decoder stream. On error, which is for memory only, nothing changes.
    pub fn receive_decoder(&mut self, bytes: &[u8]) -> Result<(), AllocError>
        ensures ok { OnOk result (self.new ≡ record self.old {
          decoder_stream = record self.old.decoder_stream {
            received = self.old.decoder_stream.received ++ bytes.now;
          };
        }) }
        ensures err { OnErr result (self.new ≡ self.old) }
    {
        self.decoder_stream.receive(bytes)
    }

    /// Receives a field section of a stream.
    pub fn receive_section(&mut self, stream: u64, section: &[u8]) -> Result<(), AllocError>
        ensures { OnOk result (self.new ≡ with_section self.old stream section.now) }
    {
        let bytes = Vec::from_slice(*self.arrived.allocator(), section)?;
        self.arrived.push(Arrived {
            stream,
            bytes,
            waits_for: None,
        })?;
        Ok(())
    }

    /// Gives up reading a stream: drops its sections that are not shown.
    pub fn cancel(&mut self, stream: u64)
        ensures { self.new ≡ without_stream self.old stream }
    {
        drop_stream(&mut self.arrived, stream);
    }

    /// Shows the next thing, or `None` if more has to come. If memory runs out, what is left is unspecified.
    #[tactic(auto, unfolding(crate::specs::Showing::next_shown))]
    pub fn next(&mut self) -> Result<Option<Shown>, NoMemory>
        ensures { ShowsNext result self.old self.new (next_shown self.old) }
    {
        match self.due() {
            Some(index) => Ok(Some(self.show_section(index)?)),
            None => self.next_taken(),
        }
    }

    /// Returns the index of the first section that can be read now.
    fn due(&self) -> Option<usize>
        ensures { result ≡ position (λ a. is_due (insert_count self.now.table) a) self.now.arrived }
    {
        let inserted = self.table.total_inserted();
        self.arrived.iter().position(|a| a.is_due(inserted))
    }

    /// Shows the section at this index.
    fn show_section(&mut self, index: usize) -> Result<Shown, NoMemory>
        requires { index < length self.old.arrived }
        ensures { ShowsOne result self.new (section_at self.old index (slice_get self.old.arrived index)) }
    {
        let arrived = self.take(index);
        self.show_taken(index, arrived)
    }

    /// Takes the section at this index.
    fn take(&mut self, index: usize) -> Arrived
        requires { index < length self.old.arrived }
        ensures value { slice_get self.old.arrived index ≡ Some result }
        ensures others { self.new ≡ record self.old { arrived = remove self.old.arrived index } }
    {
        self.arrived.remove(index)
    }

    /// Shows a section that was taken from this index.
    fn show_taken(&mut self, index: usize, arrived: Arrived) -> Result<Shown, NoMemory>
        requires { index ≤ length self.old.arrived }
        ensures { ShowsOne result self.new
            (Some (section_tried self.old index arrived (shown_section self.old.table arrived.bytes))) }
    {
        let reading = read_section(&self.table, &arrived.bytes)?;
        self.note(&arrived, &reading)?;
        self.show_read(index, arrived, reading)
    }

    /// Notes that a section with a required insert count is to be acknowledged, if it was not tried before.
    fn note(&mut self, arrived: &Arrived, reading: &Reading) -> Result<(), AllocError>
        ensures { (r : ReadingOf) → IsReading reading.now r
            → OnOk result (self.new ≡ noted self.old arrived.now (required_of r)) }
    {
        let required = reading.required();
        if arrived.is_waiting() || required == 0 {
            return Ok(());
        }
        self.awaited.add(arrived.stream, required)
    }

    /// Shows a section that was taken from this index and read, or has it wait there.
    fn show_read(
        &mut self,
        index: usize,
        arrived: Arrived,
        reading: Reading,
    ) -> Result<Shown, NoMemory>
        requires { index ≤ length self.old.arrived }
        ensures { (r : ReadingOf) → IsReading reading r
            → ShowsOne result self.new (Some (section_read self.old index arrived r)) }
    {
        if let Reading::Blocked(required) = reading {
            return self.block(index, arrived, required);
        }
        Ok(Shown::Section {
            stream: arrived.stream,
            was_blocked: arrived.is_waiting(),
            reading,
        })
    }

    /// Has a section that was taken from this index wait there, if one more may wait.
    fn block(&mut self, index: usize, arrived: Arrived, required: usize) -> Result<Shown, NoMemory>
        requires { index ≤ length self.old.arrived }
        ensures { ShowsOne result self.new (Some (blocked_at self.old index arrived required)) }
    {
        let stream = arrived.stream;
        if !self.may_wait(stream) {
            return Ok(Shown::TooManyBlocked { stream, required });
        }
        let waiting = Arrived {
            stream,
            bytes: arrived.bytes,
            waits_for: Some(required),
        };
        self.arrived.insert(index, waiting)?;
        Ok(Shown::BlockedUntil { stream, required })
    }

    /// Returns whether a section of this stream may wait (RFC 9204, section 2.1.2).
    fn may_wait(&self, stream: u64) -> bool
        ensures { result ≡ may_wait self.now.limit self.now.arrived stream }
    {
        any_waits_on(&self.arrived, stream) || blocked_streams(&self.arrived) < self.limit
    }

    /// Shows what the next bytes of the encoder stream are, or else those of the decoder stream.
    fn next_taken(&mut self) -> Result<Option<Shown>, NoMemory>
        ensures { ShowsNext result self.old self.new (next_taken self.old) }
    {
        let offset = self.encoder_stream.taken();
        match self
            .encoder_stream
            .next::<EncoderLine>(self.table.allocator())
        {
            Ok(None) => self.next_told(),
            Ok(Some(line)) => Ok(Some(self.show_instruction(offset, line)?)),
            Err(e) => no_encoder_instruction(offset, e),
        }
    }

    /// Applies an encoder instruction that was taken. On error the stream ends.
    fn show_instruction(&mut self, offset: usize, line: EncoderLine) -> Result<Shown, NoMemory>
        ensures { ShowsOne result self.new (Some (applied self.old offset (encoder_instruction_of line)
            self.old.encoder_stream (strict_apply self.old.table (encoder_instruction_of line)))) }
    {
        match apply_instruction(&mut self.table, &line) {
            Ok(inserted) => Ok(Shown::Applied {
                offset,
                line,
                inserted,
            }),
            Err(e) => {
                self.encoder_stream.refuse();
                not_applied(offset, line, e)
            }
        }
    }

    /// Shows what the next bytes of the decoder stream are.
    fn next_told(&mut self) -> Result<Option<Shown>, NoMemory>
        ensures { ShowsNext result self.old self.new (next_told self.old) }
    {
        let offset = self.decoder_stream.taken();
        match self
            .decoder_stream
            .next::<DecoderLine>(self.table.allocator())
        {
            Ok(None) => Ok(None),
            Ok(Some(line)) => Ok(Some(self.show_told(offset, line))),
            Err(error) => no_decoder_instruction(offset, error),
        }
    }

    /// Checks a decoder instruction against the sections and insertions before it. On error the stream ends.
    fn show_told(&mut self, offset: usize, line: DecoderLine) -> Shown
        ensures { ShowsOne (Ok result) self.new (Some (heard self.old offset (decoder_instruction_of line)
            self.old.decoder_stream (hear (insert_count self.old.table) self.old.awaited
            (decoder_instruction_of line)))) }
    {
        match self.awaited.hear(self.table.total_inserted(), &line) {
            Ok(()) => Shown::Told { offset, line },
            Err(fault) => {
                self.decoder_stream.refuse();
                Shown::NotTold {
                    offset,
                    line,
                    fault,
                }
            }
        }
    }
}

/// Returns whether a section waits on this stream.
fn any_waits_on(arrived: &[Arrived], stream: u64) -> bool
    ensures { result ≡ list_any (λ a. waits_on stream a) arrived.now }
{
    arrived.iter().any(|a| a.waits_on(stream))
}

/// Returns whether a section waits, and none of these on its stream.
fn is_last_on_its_stream(first: &Arrived, more: &[Arrived]) -> bool
    ensures { result ≡ (is_waiting first.now && not (list_any (λ a. waits_on first.now.stream a) more.now)) }
{
    first.is_waiting() && !any_waits_on(more, first.stream)
}

/// Returns how many streams have a section that waits.
#[tactic(auto, unfolding(crate::specs::Showing::blocked_streams))]
fn blocked_streams(arrived: &[Arrived]) -> usize
    ensures { result ≡ blocked_streams arrived.now }
{
    let mut count = 0usize;
    let mut rest = arrived;
    while let Some((first, more)) = rest.split_first() {
        if is_last_on_its_stream(first, more) {
            count += 1;
        }
        rest = more;
    }
    count
}

/// Drops the sections of a stream.
fn drop_stream(arrived: &mut Vec<Arrived>, stream: u64)
    ensures { arrived.new.items ≡ of_other_streams stream arrived.old.items }
{
    arrived.retain(|a| a.stream != stream);
}

/// Returns bytes that are no encoder instruction, or out of memory.
fn no_encoder_instruction(offset: usize, error: ParseError) -> Result<Option<Shown>, NoMemory>
    ensures { result ≡ no_encoder_instruction offset error }
{
    match error {
        ParseError::Memory => Err(NoMemory),
        error => Ok(Some(Shown::NoEncoderInstruction { offset, error })),
    }
}

/// Returns bytes that are no decoder instruction, or out of memory.
fn no_decoder_instruction(offset: usize, error: ParseError) -> Result<Option<Shown>, NoMemory>
    ensures { result ≡ no_decoder_instruction offset error }
{
    match error {
        ParseError::Memory => Err(NoMemory),
        error => Ok(Some(Shown::NoDecoderInstruction { offset, error })),
    }
}

/// Returns an instruction that is refused, or out of memory.
fn not_applied(offset: usize, line: EncoderLine, error: DecoderError) -> Result<Shown, NoMemory>
    ensures { result ≡ not_applied offset line error }
{
    match error {
        DecoderError::Memory => Err(NoMemory),
        error => Ok(Shown::NotApplied {
            offset,
            line,
            error,
        }),
    }
}
