//! The streams of a run, in memory.

use std::alloc::Global;
use std::io::{self, ErrorKind, Read, Write};

/// An input. A broken one gives a byte at a time, and fails after the last.
#[derive(Clone, Copy)]
pub(crate) struct Input<'a> {
    pub(crate) rest: &'a [u8],
    pub(crate) is_broken: bool,
}

impl Read for Input<'_> {
    fn read(&mut self, buf: &mut [u8]) -> io::Result<usize> {
        if !self.is_broken {
            return self.rest.read(buf);
        }
        let (Some((first, rest)), Some(slot)) = (self.rest.split_first(), buf.first_mut()) else {
            return Err(io::Error::from(ErrorKind::BrokenPipe));
        };
        *slot = *first;
        self.rest = rest;
        Ok(1)
    }
}

/// An output, or faults. Those with a room take a byte at a time, are interrupted before each, and fail once it is full.
#[derive(Drop)]
pub(crate) struct Output {
    pub(crate) taken: Vec<u8>,
    room: usize,
    /// How it fails.
    failure: ErrorKind,
    is_interrupted: bool,
}

impl Output {
    /// An output with a room for this many bytes; the greatest number is no room: it takes all.
    pub(crate) fn new(alloc: Global, room: usize, failure: ErrorKind) -> Output {
        Output {
            taken: Vec::new(alloc),
            room,
            failure,
            is_interrupted: false,
        }
    }

    /// Makes room for more bytes, a second time in case memory was refused: an output that takes all has no need of it.
    fn make_room(&mut self, more: usize) {
        if self.taken.reserve(more).is_err() {
            let _ = self.taken.reserve(more);
        }
    }
}

impl Write for Output {
    fn write(&mut self, buf: &[u8]) -> io::Result<usize> {
        if self.room == usize::MAX {
            self.make_room(buf.len());
            return self.taken.write(buf);
        }
        self.is_interrupted = !self.is_interrupted;
        if self.is_interrupted {
            return Err(io::Error::from(ErrorKind::Interrupted));
        }
        if self.taken.len() >= self.room {
            return Err(io::Error::from(self.failure));
        }
        let Some(first) = buf.first() else {
            return Ok(0);
        };
        self.make_room(1);
        self.taken.push(*first)?;
        Ok(1)
    }

    fn flush(&mut self) -> io::Result<()> {
        Ok(())
    }
}
