//! The encoding end.

use crate::recording::push_record;
use crate::session::{EncoderSettings, Fault};
use qpack_base::coding::Cursor;
use qpack_base::field::HeaderField;
use qpack_codec::EncoderError;
use qpack_codec::decoder::{ack_header, write_increments};
use qpack_codec::encoder::Encoder;
use qpack_table::dynamic::DynamicTable;
use std::alloc::Global;

/// The encoding end.
#[derive(Drop)]
pub(super) struct Sender {
    encoder: Encoder,
    acknowledged: bool,
}

impl Sender {
    /// Returns an end that sent nothing but its capacity, if that is above 0.
    pub(super) fn new(
        alloc: Global,
        settings: EncoderSettings,
        recording: &mut Vec<u8>,
    ) -> Result<Sender, Fault> {
        let mut table = DynamicTable::new(alloc);
        table.set_agreed_max(settings.capacity)?;
        table.set_max_blocked(settings.blocked)?;
        let mut sender = Sender {
            encoder: Encoder::from(table),
            acknowledged: settings.acknowledged,
        };
        sender.send_capacity(alloc, settings.capacity, recording)?;
        Ok(sender)
    }

    /// Sends a capacity, if it is above 0.
    fn send_capacity(
        &mut self,
        alloc: Global,
        capacity: usize,
        recording: &mut Vec<u8>,
    ) -> Result<(), Fault> {
        if capacity == 0 {
            return Ok(());
        }
        let mut instructions = Vec::new(alloc);
        match self.encoder.set_capacity(capacity, &mut instructions) {
            Ok(()) => record(recording, 0, 1, &instructions),
            Err(EncoderError::Memory) => Err(Fault::Memory),
            Err(_) => Err(Fault::Capacity),
        }
    }

    /// Sends lists, on streams from 1 on.
    pub(super) fn send_all(
        &mut self,
        alloc: Global,
        lists: &[Vec<HeaderField>],
        recording: &mut Vec<u8>,
    ) -> Result<(), Fault> {
        let mut stream = 0u64;
        for list in lists {
            stream += 1;
            self.send(alloc, stream, list, recording)?;
        }
        Ok(())
    }

    /// Sends a list, which has the number of its stream.
    fn send(
        &mut self,
        alloc: Global,
        stream: u64,
        list: &[HeaderField],
        recording: &mut Vec<u8>,
    ) -> Result<(), Fault> {
        let inserted = self.encoder.table().total_inserted();
        let mut instructions = Vec::new(alloc);
        let mut block = Vec::new(alloc);
        let Ok(required) = self
            .encoder
            .encode(stream, &mut block, &mut instructions, list.iter())
        else {
            // It fails for memory only.
            return Err(Fault::Memory);
        };
        if !instructions.is_empty() {
            record(recording, 0, stream, &instructions)?;
        }
        record(recording, stream, stream, &block)?;
        if self.acknowledged {
            let inserted = self
                .encoder
                .table()
                .total_inserted()
                .saturating_sub(inserted);
            self.acknowledge(alloc, stream, required, inserted)?;
        }
        Ok(())
    }

    /// Hears what a decoder writes that received this many insertions and then decoded the block of a stream with this
    /// required insert count.
    fn acknowledge(
        &mut self,
        alloc: Global,
        stream: u64,
        required: usize,
        inserted: usize,
    ) -> Result<(), Fault> {
        let mut answer = Vec::new(alloc);
        write_increments(inserted, &mut answer)?;
        if required > 0 {
            ack_header(stream, &mut answer)?;
        }
        self.encoder
            .on_decoder_recv(&mut Cursor::new(&answer))
            .map_err(|e| Fault::NotHeard(stream, e))
    }
}

/// Appends a record of a stream, which is one of the list of this number.
fn record(recording: &mut Vec<u8>, stream: u64, list: u64, bytes: &[u8]) -> Result<(), Fault> {
    if bytes.len() > u32::MAX as usize {
        return Err(Fault::TooLong(list));
    }
    Ok(push_record(recording, stream, bytes)?)
}
