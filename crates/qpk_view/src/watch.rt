//! A recording in its order: two onlookers, one for each encoder, and a watcher of what they see.

ghost use Rattle.std.specs.Prelude.{◌≡◌, Bool, false, IfOk, IsUtf8};

use crate::events::{Act, End, Event, Settings};
use crate::fault::Fault;
use crate::place::Place;
use crate::recording::{Outline, Recording};
use qpack_base::coding::NoMemory;
use qpk_show::observer::Observer;
use qpk_show::shown::Shown;
use qpk_show::stream::Cut;
use std::alloc::{AllocError, Global};

/// What is seen.
#[derive(Clone, Copy)]
pub enum Sight<'a> {
    /// An instruction or a section, and the onlooker after it.
    Shown(&'a Shown, &'a Observer),
    /// SETTINGS.
    Settings(Settings),
    /// A stream is read no further.
    GivenUp(u64),
    /// Half a byte at the end of the input is left out.
    HalfByte,
    /// The end of the input cuts an instruction of a stream of this name, or a record.
    Cut(&'static str, Cut),
}

/// A watcher of what onlookers see.
pub trait Watcher {
    // Whether it prints objects of JSON.
    ghost json: { Self → Bool };

    /// Sees one thing. The encoder whose fields it is about is that of an end.
    fn see(&mut self, place: Place<'_>, encoder: End, sight: Sight<'_>)
        ensures { json self.new ≡ json self.old };
}

/// A recording that is being watched: its onlookers, to whom the events before came.
#[derive(Drop)]
pub struct Watch<'a> {
    alloc: Global,
    recording: Recording<'a>,
    outline: Outline,
    /// The number of the line that came last.
    line: Option<usize>,
    onlookers: Onlookers,
}

impl<'a> Watch<'a> {
    /// Begins to watch a recording: records of the offline interop, or lines. The limits are those of its SETTINGS, or
    /// else the given ones. Fails if a maximum capacity is 2^30 or more, or if the input is no recording: all of it is
    /// read for that.
    pub fn new(
        alloc: Global,
        is_qif: bool,
        settings: Settings,
        input: &'a [u8],
    ) -> Result<Watch<'a>, Fault>
        ensures { is_qif ≡ false → IfOk result (λ _. IsUtf8 input.now) }
    {
        let recording = Recording::new(alloc, is_qif, input)?;
        Watch::of(alloc, recording, settings)
    }

    /// Begins to watch a recording of which nothing was read.
    fn of(alloc: Global, recording: Recording<'a>, settings: Settings) -> Result<Watch<'a>, Fault> {
        let outline = Outline::read(alloc, recording)?;
        let client = outline.settings_for(End::Client).unwrap_or(settings);
        let server = outline.settings_for(End::Server).unwrap_or(settings);
        match Onlookers::new(alloc, client, server) {
            Some(onlookers) => Ok(Watch {
                alloc,
                recording,
                outline,
                line: None,
                onlookers,
            }),
            None => Err(Fault::Capacity),
        }
    }

    /// Returns whether the recording has bytes of the decoder stream that goes to the encoder of an end.
    pub fn tells(&self, encoder: End) -> bool {
        self.outline.tells(encoder)
    }

    /// Takes the next event, and shows all that can be by now. If there is no more, shows what the end of the input
    /// cuts, and returns that it is over.
    pub(crate) fn step<W: Watcher>(&mut self, watcher: &mut W) -> Result<Step, Fault>
        ensures { W.json watcher.new ≡ W.json watcher.old }
    {
        match self.recording.next(self.alloc)? {
            Some(event) => self.take(&event, watcher),
            None => {
                self.end(watcher);
                Ok(Step::End)
            }
        }
    }

    /// Takes all events, and shows what the end of the input cuts.
    pub fn finish<W: Watcher>(&mut self, watcher: &mut W) -> Result<(), Fault>
        ensures { W.json watcher.new ≡ W.json watcher.old }
    {
        for _ in 0..u64::MAX {
            if let Step::End = self.step(watcher)? {
                break;
            }
        }
        Ok(())
    }

    /// Takes an event, and shows all that can be by now.
    fn take<W: Watcher>(&mut self, event: &Event<'_>, watcher: &mut W) -> Result<Step, Fault>
        ensures { W.json watcher.new ≡ W.json watcher.old }
    {
        let encoder = event.encoder();
        self.line = Some(event.line);
        take_by(self.onlookers.of(encoder), event, encoder, watcher)?;
        Ok(Step::Event)
    }

    /// Shows what the end of the input cuts.
    fn end<W: Watcher>(&self, watcher: &mut W)
        ensures { W.json watcher.new ≡ W.json watcher.old }
    {
        if let Some(line) = self.line {
            let is_marked = self.outline.is_marked();
            show_cuts(
                &self.onlookers.client,
                line,
                End::Client,
                is_marked,
                watcher,
            );
            show_cuts(
                &self.onlookers.server,
                line,
                End::Server,
                is_marked,
                watcher,
            );
        }
        if let Some((line, cut)) = self.recording.cut() {
            let place = place_at_end(line, End::Client, false);
            watcher.see(place, End::Client, Sight::Cut("record", cut));
        }
    }
}

/// What was taken of a recording.
#[derive(Clone, Copy)]
pub(crate) enum Step {
    /// An event.
    Event,
    /// Nothing: there is no more.
    End,
}

/// An onlooker for the encoder of each end.
#[derive(Drop)]
struct Onlookers {
    client: Observer,
    server: Observer,
}

impl Onlookers {
    /// Returns those to whom nothing came, under the limits of both encoders. Returns `None` if a maximum capacity is 2^30
    /// or more.
    fn new(alloc: Global, client: Settings, server: Settings) -> Option<Onlookers> {
        Some(Onlookers {
            client: onlooker(alloc, client)?,
            server: onlooker(alloc, server)?,
        })
    }

    /// Returns the one for the encoder of an end.
    fn of(&mut self, encoder: End) -> &mut Observer {
        match encoder {
            End::Client => &mut self.client,
            End::Server => &mut self.server,
        }
    }
}

/// Returns an onlooker to whom nothing came, or `None` if the maximum capacity is 2^30 or more.
fn onlooker(alloc: Global, settings: Settings) -> Option<Observer> {
    Observer::new(alloc, settings.max_capacity, settings.max_blocked)
}

/// Returns the end that sent what is shown, if the encoder is that of an end.
fn sender_of(shown: &Shown, encoder: End) -> End {
    match shown {
        Shown::Told { .. } | Shown::NotTold { .. } | Shown::NoDecoderInstruction { .. } => {
            encoder.other()
        }
        _ => encoder,
    }
}

/// Takes an event by the onlooker of this end's encoder, and shows all that can be by now.
fn take_by<W: Watcher>(
    observer: &mut Observer,
    event: &Event<'_>,
    encoder: End,
    watcher: &mut W,
) -> Result<(), NoMemory>
    ensures { W.json watcher.new ≡ W.json watcher.old }
{
    let place = Place {
        line: event.line,
        time: event.time,
        end: event.end,
    };
    see_act(&event.act, place, encoder, watcher);
    receive(observer, &event.act)?;
    show_all(observer, place, encoder, watcher)?;
    if event.has_half {
        watcher.see(place, encoder, Sight::HalfByte);
    }
    Ok(())
}

/// Shows SETTINGS, or that a stream is read no further.
fn see_act<W: Watcher>(act: &Act, place: Place<'_>, encoder: End, watcher: &mut W)
    ensures { W.json watcher.new ≡ W.json watcher.old }
{
    match act {
        Act::GivenUp(stream) => watcher.see(place, encoder, Sight::GivenUp(*stream)),
        Act::Settings(settings) => watcher.see(place, encoder, Sight::Settings(*settings)),
        _ => {}
    }
}

/// Passes an onlooker what came, or that a stream is read no further.
fn receive(observer: &mut Observer, act: &Act) -> Result<(), AllocError> {
    match act {
        Act::Encoder(bytes) => observer.receive_encoder(bytes),
        Act::Decoder(bytes) => observer.receive_decoder(bytes),
        Act::Section(stream, bytes) => observer.receive_section(*stream, bytes),
        Act::GivenUp(stream) => {
            observer.cancel(*stream);
            Ok(())
        }
        Act::Settings(_) => Ok(()),
    }
}

/// Shows all that an onlooker can show by now.
fn show_all<W: Watcher>(
    observer: &mut Observer,
    place: Place<'_>,
    encoder: End,
    watcher: &mut W,
) -> Result<(), NoMemory>
    ensures { W.json watcher.new ≡ W.json watcher.old }
{
    for _ in 0..u64::MAX {
        if !show_next(observer, place, encoder, watcher)? {
            break;
        }
    }
    Ok(())
}

/// Shows the next thing that an onlooker can show. Returns false if there is none by now.
fn show_next<W: Watcher>(
    observer: &mut Observer,
    place: Place<'_>,
    encoder: End,
    watcher: &mut W,
) -> Result<bool, NoMemory>
    ensures { W.json watcher.new ≡ W.json watcher.old }
{
    let Some(shown) = observer.next()? else {
        return Ok(false);
    };
    see_shown(&shown, observer, place, encoder, watcher);
    Ok(true)
}

/// Shows one thing, which the end of the encoder sent or the other one.
fn see_shown<W: Watcher>(
    shown: &Shown,
    observer: &Observer,
    place: Place<'_>,
    encoder: End,
    watcher: &mut W,
)
    ensures { W.json watcher.new ≡ W.json watcher.old }
{
    let end = match place.end {
        Some(_) => Some(sender_of(shown, encoder)),
        None => None,
    };
    let place = Place {
        line: place.line,
        time: place.time,
        end,
    };
    watcher.see(place, encoder, Sight::Shown(shown, observer));
}

/// Shows which instructions an end cuts, after the line of this number.
fn show_cuts<W: Watcher>(
    observer: &Observer,
    line: usize,
    encoder: End,
    is_marked: bool,
    watcher: &mut W,
)
    ensures { W.json watcher.new ≡ W.json watcher.old }
{
    if let Some(cut) = observer.encoder_cut() {
        let place = place_at_end(line, encoder, is_marked);
        watcher.see(place, encoder, Sight::Cut("encoder", cut));
    }
    if let Some(cut) = observer.decoder_cut() {
        let place = place_at_end(line, encoder.other(), is_marked);
        watcher.see(place, encoder, Sight::Cut("decoder", cut));
    }
}

/// Returns the place of what an end sent, after the last line.
fn place_at_end(line: usize, end: End, is_marked: bool) -> Place<'static> {
    let end = if is_marked { Some(end) } else { None };
    Place {
        line,
        time: "",
        end,
    }
}
