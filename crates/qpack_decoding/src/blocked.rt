//! The streams that are blocked: each has a section that waits for insertions (RFC 9204, sections 2.1.2 and 2.2.1).

ghost use Rattle.std.specs.Prelude.{◌≡◌, ◌≤◌, ℕ, [], IfErr, OnOk, OnErr, Ok, Some, None, nat_le};
ghost use Rattle.qpack_shared.specs.Streams.{without};
ghost use Rattle.qpack_decoding.specs.Blocked.{required_of, is_blocked, blocked_among, ready, IsCountedAnew};
ghost use Rattle.qpack_decoding.specs.Blocked.{with_blocked, Blocks};

use qpack_base::coding::NoMemory;
pub use qpack_shared::streams::BlockedStream;
use std::alloc::Global;
use std::collections::{BTreeMap, BTreeSet};
use std::marker::Model;

/// Why a stream was not counted as blocked.
#[derive(Clone, Copy, Debug, PartialEq, Eq, Drop)]
pub(crate) enum NotBlocked {
    /// As many streams are blocked as may be.
    TooMany,
    /// No memory was left.
    Memory,
}

/// The streams that are blocked, in the order in which their sections can be decoded.
#[derive(Debug, Drop)]
pub(crate) struct BlockedStreams {
    streams: BTreeSet<BlockedStream>,
    /// What the section of each stream requires.
    required: BTreeMap<u64, usize>,
}

impl Model for BlockedStreams {
    ghost use Rattle.std.specs.Prelude.{List};
    ghost use Rattle.qpack_decoding.specs.Blocked.{AreMapped};
    ghost use Rattle.qpack_shared.specs.declared.streams.BlockedStream.{BlockedStream};

    ghost Value = { List BlockedStream };

    ghost view = { λ b. b.streams.keys };

    ghost invariant = { λ b. AreMapped b.streams.keys b.required };
}

impl BlockedStreams {
    /// Returns an empty list. Takes no memory.
    pub(crate) fn new(alloc: Global) -> BlockedStreams
        ensures { result ≡ [] }
    {
        BlockedStreams {
            streams: BTreeSet::new(alloc),
            required: BTreeMap::new(alloc),
        }
    }

    /// Returns how many streams are blocked after this many insertions. Streams that were unblocked meanwhile do not
    /// count.
    pub(crate) fn count(&self, inserted: usize) -> usize
        ensures { result ≡ blocked_among inserted self.now }
    {
        let unblocked = self
            .streams
            .iter()
            .take_while(|blocked| blocked.required <= inserted);
        self.streams.len() - unblocked.count()
    }

    /// Marks a stream as blocked after this many insertions, unless more than `most` streams would then be blocked. On
    /// error nothing changes.
    pub(crate) fn block(
        &mut self,
        stream: BlockedStream,
        inserted: usize,
        most: usize,
    ) -> Result<(), NotBlocked>
        ensures { Blocks self.old self.new stream inserted most result }
    {
        if !self.is_blocked(stream.stream, inserted) && self.is_full(inserted, most) {
            return Err(NotBlocked::TooMany);
        }
        match self.put(stream) {
            Ok(()) => Ok(()),
            Err(_) => Err(NotBlocked::Memory),
        }
    }

    /// Removes the stream.
    pub(crate) fn forget(&mut self, stream: u64)
        ensures others { self.new ≡ without stream self.old }
        ensures few { (inserted : ℕ) → blocked_among inserted self.new ≤ blocked_among inserted self.old }
    {
        if let Some(required) = self.required.remove(&stream) {
            self.streams.remove(&BlockedStream { required, stream });
        }
    }

    /// Returns the first stream whose section requires no more than this many insertions.
    pub(crate) fn ready(&self, inserted: usize) -> Option<u64>
        ensures { result ≡ ready inserted self.now }
    {
        let first = self.streams.first()?;
        if first.required > inserted {
            return None;
        }
        Some(first.stream)
    }

    /// Returns whether as many streams are blocked as may be. It counts them only if there are that many.
    fn is_full(&self, inserted: usize, most: usize) -> bool
        ensures { result ≡ nat_le most (blocked_among inserted self.now) }
    {
        self.streams.len() >= most && self.count(inserted) >= most
    }

    /// Returns whether a stream is blocked after this many insertions.
    fn is_blocked(&self, stream: u64, inserted: usize) -> bool
        ensures { result ≡ is_blocked inserted stream self.now }
    {
        match self.required(stream) {
            Some(required) => required > inserted,
            None => false,
        }
    }

    /// Returns how many insertions a stream waits for, if it is there.
    fn required(&self, stream: u64) -> Option<usize>
        ensures { result ≡ required_of stream self.now }
    {
        self.required.get(&stream).copied()
    }

    /// Replaces the entry of the stream with this number, or adds one. Asks for memory only if the stream had no entry
    /// with this required insert count.
    fn put(&mut self, stream: BlockedStream) -> Result<(), NoMemory>
        ensures ok { result ≡ Ok tt → self.new ≡ with_blocked stream self.old }
        ensures err { IfErr result (λ _. (self.new ≡ self.old) × IsCountedAnew stream self.old) }
    {
        match self.required.get(&stream.stream).copied() {
            Some(required) if required == stream.required => Ok(()),
            Some(required) => self.put_again(stream, required),
            None => self.add(stream),
        }
    }

    /// Adds a stream that is not there.
    fn add(&mut self, stream: BlockedStream) -> Result<(), NoMemory>
        requires { required_of stream.stream self.old ≡ None }
        ensures ok { OnOk result (self.new ≡ with_blocked stream self.old) }
        ensures err { OnErr result (self.new ≡ self.old) }
    {
        let Ok(_) = self.required.insert(stream.stream, stream.required) else {
            return Err(NoMemory);
        };
        let Ok(_) = self.streams.insert(stream) else {
            self.required.remove(&stream.stream);
            return Err(NoMemory);
        };
        Ok(())
    }

    /// Puts a stream in the place of the one of its number, of which the section required another count.
    fn put_again(&mut self, stream: BlockedStream, required: usize) -> Result<(), NoMemory>
        requires there { required_of stream.stream self.old ≡ Some required }
        requires another { required ≡ stream.required → ⊥ }
        ensures ok { OnOk result (self.new ≡ with_blocked stream self.old) }
        ensures err { OnErr result (self.new ≡ self.old) }
    {
        let Ok(_) = self.streams.insert(stream) else {
            return Err(NoMemory);
        };
        let before = BlockedStream {
            required,
            stream: stream.stream,
        };
        self.streams.remove(&before);
        match self.required.insert(stream.stream, stream.required) {
            Ok(_) => Ok(()),
            Err(_) => unreachable!(),
        }
    }
}
