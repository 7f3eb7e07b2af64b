//! The bytes of a stream that are to be sent, of which a front is taken in pieces of any size. Each end writes its
//! instructions at their end.

ghost use Rattle.std.specs.Prelude.{◌≡◌, ◌<◌, ◌≤◌, ◌^◌, [], drop, length};

use crate::room::shrink_within;
use std::alloc::Global;
use std::marker::Model;

/// How many bytes there may be room for once all are sent; the memory of more is given back.
const KEPT_ROOM: usize = 1_024;

/// The bytes of a stream that are to be sent.
#[derive(Debug, Drop)]
pub struct Unsent {
    /// Bytes that were sent, and those that are to be sent.
    pub bytes: Vec<u8>,
    /// How many were sent: no more than are to be.
    pub sent: usize,
}

impl Model for Unsent {
    ghost use Rattle.std.specs.Prelude.{◌+◌, ◌≤◌, drop, length, vec_capacity};
    ghost use Rattle.qpack_shared.specs.Unsent.{UnsentView};

    ghost Value = { UnsentView };

    ghost view = { λ u. record {
      bytes = drop u.sent u.bytes.items;
      front = u.sent;
      capacity = vec_capacity u.bytes;
    } };

    ghost invariant = { λ u. u.sent + u.sent ≤ length u.bytes.items };
}

impl Unsent {
    /// Returns an empty list of bytes. Takes no memory.
    pub fn new(alloc: Global) -> Unsent
        ensures { result ≡ record { bytes = []; front = 0; capacity = 0 } }
    {
        Unsent {
            bytes: Vec::new(alloc),
            sent: 0,
        }
    }

    /// Returns the bytes that are to be sent, in order.
    pub fn as_slice(&self) -> &[u8]
        ensures { result.now ≡ self.now.bytes }
    {
        &self.bytes[self.sent..]
    }

    /// Returns how many bytes are to be sent.
    pub fn len(&self) -> usize
        ensures is { result ≡ length self.now.bytes }
        ensures few { result < 2 ^ 63 }
    {
        self.bytes.len() - self.sent
    }

    /// Drops this many bytes from the front, which were sent, or all.
    ///
    /// Those that are left are moved to the front once they are fewer than those that were sent. So taking all costs linear
    /// time in pieces of any size, and at most as many bytes are kept in front of the others as they are. Once none is
    /// left, the memory of more than `KEPT_ROOM` bytes is given back; otherwise the memory is kept.
    pub fn sent(&mut self, many: usize)
        ensures bytes { self.new.bytes ≡ drop many self.old.bytes }
        ensures front { self.new.front ≤ length self.new.bytes }
        ensures given_back { self.new.bytes ≡ [] → self.new.capacity ≤ 1024 }
        ensures kept { (self.new.bytes ≡ [] → self.old.capacity ≤ 1024) → self.new.capacity ≡ self.old.capacity }
    {
        let left = self.bytes.len() - self.sent;
        let many = many.min(left);
        let sent = self.sent + many;
        if sent > left - many {
            self.bytes.drain(..sent);
            self.sent = 0;
        } else {
            self.sent = sent;
        }
        if self.bytes.is_empty() {
            shrink_within(&mut self.bytes, KEPT_ROOM);
        }
    }
}
