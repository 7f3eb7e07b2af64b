//! A recorded connection, shown: what each instruction and each line is, where it begins, and what it means (RFC 9204).

ghost use Rattle.std.specs.Prelude.{◌≡◌, false, IfOk, IsUtf8};

use crate::events::{End, Settings};
use crate::fault::Fault;
use crate::json::push_object;
use crate::place::Place;
use crate::printing::push_sight;
use crate::text::Text;
use crate::watch::{Sight, Step, Watch, Watcher};
use qpk_show::section::Reading;
use qpk_show::shown::Shown;
use std::alloc::Global;

/// How a recording is read, and what is printed of it.
#[derive(Clone, Copy)]
pub struct ShowOptions {
    /// Whether the table is printed after each instruction.
    pub table: bool,
    /// Whether objects of JSON are printed.
    pub json: bool,
    /// Whether the input is a recording of the offline interop format, and no lines.
    pub qif: bool,
    /// The limits of encoders for which the recording has no SETTINGS.
    pub settings: Settings,
}

/// A recording that is being shown, in its order.
#[derive(Drop)]
pub struct Showing<'a> {
    watch: Watch<'a>,
    screen: Screen,
    is_over: bool,
}

/// A piece of what is shown ends at the first event after this many bytes.
const PIECE: usize = 65_536;

impl<'a> Showing<'a> {
    /// Begins to show a recording. Fails if the maximum capacity is 2^30 or more, or if the input is no recording: all
    /// of it is read for that.
    pub fn new(alloc: Global, options: ShowOptions, input: &'a [u8]) -> Result<Showing<'a>, Fault>
        ensures { options.qif ≡ false → IfOk result (λ _. IsUtf8 input.now) }
    {
        let watch = Watch::new(alloc, options.qif, options.settings, input)?;
        let screen = Screen {
            options,
            text: Text::new(alloc),
            has_found: false,
        };
        Ok(Showing {
            watch,
            screen,
            is_over: false,
        })
    }

    /// Returns the next piece of what is printed, or `None` at the end. Fails if no memory is left.
    pub fn next_piece(&mut self) -> Result<Option<String>, Fault> {
        for _ in 0..u64::MAX {
            if self.is_over || self.screen.text.is_longer_than(PIECE) {
                break;
            }
            if let Step::End = self.watch.step(&mut self.screen)? {
                self.is_over = true;
            }
        }
        let piece = self.screen.text.take()?;
        if piece.is_empty() {
            return Ok(None);
        }
        Ok(Some(piece))
    }

    /// Returns whether something that was shown so far is refused.
    pub fn has_found(&self) -> bool {
        self.screen.has_found
    }
}

/// What was printed since the last piece.
#[derive(Drop)]
struct Screen {
    options: ShowOptions,
    text: Text,
    has_found: bool,
}

impl Watcher for Screen {
    ghost json = { λ screen. screen.options.json };

    fn see(&mut self, place: Place<'_>, _encoder: End, sight: Sight<'_>) {
        if let Sight::Shown(shown, _) = sight {
            self.has_found = self.has_found || is_refused(shown);
        }
        let table = self.options.table;
        if self.options.json {
            push_object(&mut self.text, place, sight, table);
        } else {
            push_sight(&mut self.text, place, sight, table);
        }
    }
}

/// Returns whether what is shown is refused.
fn is_refused(shown: &Shown) -> bool {
    match shown {
        Shown::NotApplied { .. }
        | Shown::NoEncoderInstruction { .. }
        | Shown::NotTold { .. }
        | Shown::NoDecoderInstruction { .. }
        | Shown::TooManyBlocked { .. } => true,
        Shown::Section { reading, .. } => is_stopped(reading),
        Shown::Applied { .. } | Shown::Told { .. } | Shown::BlockedUntil { .. } => false,
    }
}

/// Returns whether reading of a section ends early.
fn is_stopped(reading: &Reading) -> bool {
    match reading {
        Reading::Lines { stop, .. } => stop.is_some(),
        Reading::Blocked(_) => false,
        Reading::Refused(_) => true,
    }
}
