//! The streams that may be blocked, as the encoding end keeps them (RFC 9204, section 2.1.2).

ghost use Rattle.std.specs.Prelude.{◌≡◌, ◌<◌, ◌≤◌, true, [], length, nat_eq, OnOk, OnErr, vec_len, vec_capacity};
ghost use Rattle.std.specs.List.{list_any};
ghost use Rattle.qpack_encoding.specs.Risk.{covers, with_stream, still_at_risk};

use qpack_base::coding::NoMemory;
use qpack_shared::streams::BlockedStream;
use qpack_table::dynamic::PackedTable;
use std::alloc::Global;

/// The streams that may be blocked, each once, with the most insertions that a section of each requires.
#[derive(Debug, Drop)]
pub(crate) struct StreamsAtRisk {
    streams: Vec<BlockedStream>,
}

impl StreamsAtRisk {
    /// Returns an empty list. Takes no memory.
    pub(crate) fn new(alloc: Global) -> StreamsAtRisk
        ensures { result.streams.items ≡ [] }
    {
        StreamsAtRisk {
            streams: Vec::new(alloc),
        }
    }

    /// Returns how many there are.
    pub(crate) fn len(&self) -> usize
        ensures { result ≡ length self.now.streams.items }
    {
        self.streams.len()
    }

    /// Returns whether a stream is among them.
    pub(crate) fn contains(&self, stream: u64) -> bool
        ensures { result ≡ list_any (λ r. nat_eq r.stream stream) self.now.streams.items }
    {
        self.streams.iter().any(|kept| kept.stream == stream)
    }

    /// Makes room for one more, if a stream may be blocked. It asks for memory only then, and only if there is no room.
    pub(crate) fn make_room(&mut self, may_block: bool) -> Result<(), NoMemory>
        ensures same { self.new.streams.items ≡ self.old.streams.items }
        ensures room { OnOk result (may_block ≡ true → vec_len self.new.streams < vec_capacity self.new.streams) }
        ensures memory { OnErr result ((may_block ≡ true)
            × (vec_capacity self.old.streams ≤ vec_len self.old.streams)) }
    {
        if !may_block {
            return Ok(());
        }
        match self.streams.reserve(1) {
            Ok(()) => Ok(()),
            Err(_) => Err(NoMemory),
        }
    }

    /// Puts a stream in the place of the one of its number, or adds it, unless that requires as many insertions already.
    pub(crate) fn put(&mut self, stream: BlockedStream)
        requires { vec_len self.old.streams < vec_capacity self.old.streams }
        ensures { self.new.streams.items ≡ with_stream stream self.old.streams.items }
    {
        if self.covers(stream) {
            return;
        }
        self.streams.retain(|kept| kept.stream != stream.stream);
        self.streams.push_reserved(stream);
    }

    /// Returns whether a stream is among them that requires as many insertions, or more.
    fn covers(&self, stream: BlockedStream) -> bool
        ensures { result ≡ covers stream self.now.streams.items }
    {
        self.streams.iter().any(|kept| kept.stream == stream.stream
            && kept.required >= stream.required)
    }

    /// Drops those that may be blocked no more, as the table has it: what they require is known to be received, or no
    /// section of theirs waits for its acknowledgment.
    pub(crate) fn keep_open(&mut self, table: &PackedTable)
        ensures { self.new.streams.items ≡ still_at_risk table.now self.old.streams.items }
    {
        let known = table.known_received_count();
        self.streams.retain(|kept| {
            kept.required > known && table.oldest_required(kept.stream).is_some()
        });
    }
}
