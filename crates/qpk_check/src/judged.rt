//! What was seen of one encoder and of its decoder, as far as later findings rest on it.

use crate::duties::{Duties, Silence};
use crate::findings::Released;
use crate::messages::Messages;
use qpk_view::events::End;
use std::alloc::{AllocError, Global};

/// A section that waits.
#[derive(Clone, Copy)]
pub(crate) struct Waiting {
    pub(crate) stream: u64,
    pub(crate) required: usize,
    /// The line that it came in.
    pub(crate) line: usize,
    /// The end that sent it, if the recording says so.
    pub(crate) end: Option<End>,
    /// Its required insert count by the capacity in use, if that is in the table.
    pub(crate) by_capacity: Option<usize>,
}

/// A decoder instruction that released the oldest section of a stream, or all of them.
#[derive(Clone, Copy)]
struct Release {
    stream: u64,
    line: usize,
    is_cancellation: bool,
}

/// What was seen of one encoder and of its decoder.
#[derive(Drop)]
pub(crate) struct Judged {
    pub(crate) encoder_instructions: usize,
    pub(crate) decoder_instructions: usize,
    pub(crate) sections: usize,
    /// Whether the encoder stream was refused: what later things say of insertions follows from that alone.
    pub(crate) is_broken: bool,
    /// Whether an end had to close the connection: what later things say follows from that.
    pub(crate) has_ended: bool,
    pub(crate) waiting: Vec<Waiting>,
    /// The streams that had a section with a required insert count.
    referencing: Vec<u64>,
    released: Vec<Release>,
    /// How many bytes of the decoder stream were taken.
    pub(crate) decoder_taken: usize,
    pub(crate) duties: Duties,
    pub(crate) silence: Silence,
    pub(crate) messages: Messages,
}

impl Judged {
    /// Nothing was seen. The recording has the decoder's stream or not.
    pub(crate) fn new(alloc: Global, is_told: bool) -> Judged {
        Judged {
            encoder_instructions: 0,
            decoder_instructions: 0,
            sections: 0,
            is_broken: false,
            has_ended: false,
            waiting: Vec::new(alloc),
            referencing: Vec::new(alloc),
            released: Vec::new(alloc),
            decoder_taken: 0,
            duties: Duties::new(alloc, is_told),
            silence: Silence::new(),
            messages: Messages::new(alloc),
        }
    }

    /// Counts an encoder instruction, and returns its number.
    pub(crate) fn count_encoder(&mut self) -> usize {
        self.encoder_instructions = self.encoder_instructions.saturating_add(1);
        self.encoder_instructions
    }

    /// Counts a decoder instruction, and returns its number.
    pub(crate) fn count_decoder(&mut self) -> usize {
        self.decoder_instructions = self.decoder_instructions.saturating_add(1);
        self.decoder_instructions
    }

    /// Counts a section of a stream, or one that waited and waits no more.
    pub(crate) fn count_section(&mut self, stream: u64, was_blocked: bool) {
        if was_blocked {
            self.end_wait(stream);
        } else {
            self.sections = self.sections.saturating_add(1);
        }
    }

    /// Notes that a section begins to wait.
    pub(crate) fn wait(&mut self, waiting: Waiting) -> Result<(), AllocError> {
        self.waiting.push(waiting)?;
        self.refer(waiting.stream)
    }

    /// Notes that a stream had a section with a required insert count.
    pub(crate) fn refer(&mut self, stream: u64) -> Result<(), AllocError> {
        self.referencing.push(stream)?;
        Ok(())
    }

    /// Notes that the first section of a stream that waits no longer does.
    fn end_wait(&mut self, stream: u64) {
        if let Some(index) = self.waiting.iter().position(|w| w.stream == stream) {
            self.waiting.remove(index);
        }
    }

    /// Notes that no section of a stream waits any more.
    pub(crate) fn give_up(&mut self, stream: u64) -> Result<(), AllocError> {
        self.waiting.retain(|w| w.stream != stream);
        self.duties.give_up(stream)
    }

    /// Returns whether a section of a stream waits.
    pub(crate) fn is_waiting(&self, stream: u64) -> bool {
        self.waiting.iter().any(|w| w.stream == stream)
    }

    /// Notes that the oldest section of a stream is acknowledged in a line, or that the stream is cancelled there.
    pub(crate) fn release(
        &mut self,
        stream: u64,
        line: usize,
        is_cancellation: bool,
    ) -> Result<(), AllocError> {
        self.released.push(Release {
            stream,
            line,
            is_cancellation,
        })?;
        Ok(())
    }

    /// Returns how the sections of a stream were released.
    pub(crate) fn released(&self, stream: u64) -> Released {
        match self.released.iter().rev().find(|r| r.stream == stream) {
            Some(release) if release.is_cancellation => Released::Cancelled(release.line),
            Some(release) => Released::Acknowledged(Some(release.line)),
            None if self.referencing.contains(&stream) => Released::Acknowledged(None),
            None => Released::Never,
        }
    }

    /// Notes that an end has to close the connection. Neither is held to anything any longer that nobody refuses.
    pub(crate) fn end_connection(&mut self) {
        self.has_ended = true;
        self.duties.stop();
        self.silence.end();
    }

    /// Notes that the encoder stream is refused.
    pub(crate) fn break_off(&mut self) {
        self.is_broken = true;
        self.end_connection();
    }
}
