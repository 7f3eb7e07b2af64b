//! A stream of instructions as an onlooker sees it: its bytes come in pieces, and are taken line by line.

ghost use Rattle.std.specs.Prelude.{◌≡◌, ◌++◌, [], true, false, None, Ok, OnOk, OnErr};
ghost use Rattle.qpk_show.specs.Streams.{cut_of, next_of};
ghost use Rattle.qpk_show.specs.Answers.{AnswersLine};

use qpack_base::coding::Cursor;
use qpack_base::parse_error::ParseError;
use qpack_wire::stream::{Wire, next_line};
use std::alloc::{AllocError, Global};
use std::marker::Model;

/// A stream of instructions.
#[derive(Debug, Drop)]
pub struct Stream {
    received: Vec<u8>,
    taken: usize,
    is_refused: bool,
}

/// The front of an instruction, of which no more came.
#[derive(Clone, Copy, Debug, PartialEq)]
pub struct Cut {
    /// The offset of its stream's byte where it begins, from 0.
    pub offset: usize,
    /// How many bytes of it came.
    pub bytes: usize,
}

impl Model for Stream {
    ghost use Rattle.std.specs.Prelude.{◌≤◌, length};
    ghost use Rattle.qpk_show.specs.Streams.{Stream};

    ghost Value = { Stream };

    ghost view = { λ s. record { received = s.received.items; taken = s.taken; is_refused = s.is_refused } };

    ghost invariant = { λ s. s.taken ≤ length s.received.items };
}

impl Stream {
    /// Returns a stream of which nothing came.
    pub fn new(alloc: Global) -> Stream
        ensures { result ≡ record { received = []; taken = 0; is_refused = false } }
    {
        Stream {
            received: Vec::new(alloc),
            taken: 0,
            is_refused: false,
        }
    }

    /// Returns how many bytes were taken: the offset of the next line, from 0.
    pub fn taken(&self) -> usize
        ensures { result ≡ self.now.taken }
    {
        self.taken
    }

    /// Returns the bytes that are not taken, if some are and they are not refused.
    pub fn cut(&self) -> Option<Cut>
        ensures { result ≡ cut_of self.now }
    {
        let bytes = self.received.len() - self.taken;
        if self.is_refused || bytes == 0 {
            return None;
        }
        Some(Cut {
            offset: self.taken,
            bytes,
        })
    }

    /// Appends bytes. On error, which is `Memory` only, nothing changes.
    pub fn receive(&mut self, bytes: &[u8]) -> Result<(), AllocError>
        ensures ok { OnOk result (self.new ≡ record self.old { received = self.old.received ++ bytes.now }) }
        ensures err { OnErr result (self.new ≡ self.old) }
    {
        self.received.extend_from_slice(bytes)
    }

    /// Refuses all bytes that are not taken.
    pub fn refuse(&mut self)
        ensures { self.new ≡ record self.old { is_refused = true } }
    {
        self.is_refused = true;
    }

    /// Takes the next line, or `None` if none is whole. At bytes that are no line the stream is refused, and no more
    /// lines are taken of it.
    pub fn next<W: Wire>(&mut self, alloc: Global) -> Result<Option<W>, ParseError>
        ensures answers { AnswersLine W.line_of self.new result (next_of W.read self.old) }
        ensures stays { result ≡ Ok None → self.new ≡ self.old }
    {
        if self.is_refused {
            return Ok(None);
        }
        let mut buf = Cursor::new(&self.received[self.taken..]);
        match next_line::<W>(alloc, &mut buf) {
            Ok(Some(line)) => {
                let passed = buf.position();
                self.taken += passed;
                Ok(Some(line))
            }
            Ok(None) => Ok(None),
            Err(e) => {
                self.is_refused = true;
                Err(e)
            }
        }
    }
}
