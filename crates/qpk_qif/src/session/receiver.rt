//! The decoding end.

use crate::recording::{Record, split_record};
use crate::session::{DecoderSettings, Fault};
use qpack_base::coding::Cursor;
use qpack_base::field::HeaderField;
use qpack_codec::DecoderError;
use qpack_codec::decoder::Decoder;
use qpack_table::dynamic::DynamicTable;
use std::alloc::{AllocError, Global};
use std::collections::BTreeSet;
use std::mem;

/// A block that waits for insertions.
#[derive(Drop)]
struct Waiting {
    stream: u64,
    /// The number of its record.
    number: usize,
    bytes: Vec<u8>,
}

/// A list that was read.
#[derive(Drop)]
pub(super) struct Received {
    stream: u64,
    /// The number of its record.
    number: usize,
    pub(super) fields: Vec<HeaderField>,
}

/// The decoding end.
#[derive(Drop)]
pub(super) struct Receiver {
    decoder: Decoder,
    /// How many streams may be blocked.
    limit: usize,
    /// The bytes of an instruction that is not whole yet.
    pending: Vec<u8>,
    /// The number of the last record of the encoder stream.
    number: usize,
    waiting: Vec<Waiting>,
    /// The streams of the blocks that wait.
    blocked: BTreeSet<u64>,
    lists: Vec<Received>,
}

impl Receiver {
    /// Returns an end that has received nothing.
    pub(super) fn new(alloc: Global, settings: DecoderSettings) -> Result<Receiver, Fault> {
        let mut table = DynamicTable::new(alloc);
        table.set_agreed_max(settings.capacity)?;
        table.set_max_size(settings.capacity)?;
        Ok(Receiver {
            decoder: Decoder::from(table),
            limit: settings.blocked,
            pending: Vec::new(alloc),
            number: 0,
            waiting: Vec::new(alloc),
            blocked: BTreeSet::new(alloc),
            lists: Vec::new(alloc),
        })
    }

    /// Receives the records of a recording.
    pub(super) fn receive_all(&mut self, alloc: Global, recording: &[u8]) -> Result<(), Fault> {
        let mut rest = recording;
        let mut number = 0usize;
        while !rest.is_empty() {
            number += 1;
            let Some((record, after)) = split_record(rest) else {
                return Err(Fault::Cut(number));
            };
            self.receive(alloc, number, &record)?;
            rest = after;
        }
        Ok(())
    }

    /// Receives the record of this number.
    fn receive(&mut self, alloc: Global, number: usize, record: &Record) -> Result<(), Fault> {
        match record.stream {
            0 => self.receive_instructions(alloc, number, record.bytes),
            stream => self.receive_block(alloc, number, stream, record.bytes),
        }
    }

    /// More bytes of the encoder stream come: what waits is tried again.
    fn receive_instructions(
        &mut self,
        alloc: Global,
        number: usize,
        bytes: &[u8],
    ) -> Result<(), Fault> {
        self.number = number;
        self.pending.extend_from_slice(bytes)?;
        self.take_instructions(alloc)?;
        let waiting = mem::replace(&mut self.waiting, Vec::new(alloc));
        self.blocked = BTreeSet::new(alloc);
        for block in waiting {
            if !self.read(block.stream, block.number, &block.bytes)? {
                self.keep(block)?;
            }
        }
        Ok(())
    }

    /// Applies the whole instructions.
    fn take_instructions(&mut self, alloc: Global) -> Result<(), Fault> {
        let mut unsent = Vec::new(alloc);
        let mut cursor = Cursor::new(&self.pending);
        if let Err(e) = self.decoder.on_encoder_recv(&mut cursor, &mut unsent) {
            return Err(refusal(self.number, e));
        }
        let rest = Vec::from_slice(alloc, cursor.chunk())?;
        self.pending = rest;
        Ok(())
    }

    /// Receives a block.
    fn receive_block(
        &mut self,
        alloc: Global,
        number: usize,
        stream: u64,
        bytes: &[u8],
    ) -> Result<(), Fault> {
        if self.read(stream, number, bytes)? {
            return Ok(());
        }
        let bytes = Vec::from_slice(alloc, bytes)?;
        self.keep(Waiting {
            stream,
            number,
            bytes,
        })?;
        if self.blocked.len() > self.limit {
            return Err(Fault::TooManyBlocked(number));
        }
        Ok(())
    }

    /// Reads the block of a stream and a record, and returns whether it was read; otherwise it waits for insertions.
    fn read(&mut self, stream: u64, number: usize, bytes: &[u8]) -> Result<bool, Fault> {
        match self.decoder.decode_header(&mut Cursor::new(bytes)) {
            Ok(decoded) => {
                self.lists.push(Received {
                    stream,
                    number,
                    fields: decoded.fields,
                })?;
                Ok(true)
            }
            Err(DecoderError::MissingRefs(_)) => Ok(false),
            Err(e) => Err(refusal(number, e)),
        }
    }

    /// Keeps a block that waits.
    fn keep(&mut self, block: Waiting) -> Result<(), Fault> {
        self.blocked.insert(block.stream)?;
        Ok(self.waiting.push(block)?)
    }

    /// Returns all lists in the order of their streams; or what is still missing.
    pub(super) fn finish(&mut self) -> Result<&[Received], Fault> {
        if let Some(block) = self.waiting.first() {
            return Err(Fault::BlockedToTheEnd(block.number));
        }
        if !self.pending.is_empty() {
            return Err(Fault::EndsWithin(self.number));
        }
        sort(&mut self.lists)?;
        Ok(&self.lists)
    }
}

/// Sorts lists by their streams, and those of a stream by their records.
fn sort(lists: &mut Vec<Received>) -> Result<(), AllocError> {
    lists.sort_by_key(|list| (list.stream, list.number))
}

/// Returns why the record of this number is refused.
fn refusal(number: usize, e: DecoderError) -> Fault {
    match e {
        DecoderError::Memory => Fault::Memory,
        e => Fault::Refused(number, e),
    }
}
