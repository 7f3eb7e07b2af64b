//! Where something came from: the line of the recording, its time, and the end that sent it.

ghost use Rattle.qpk_view.specs.Places.{object_front};
ghost use Rattle.qpk_view.specs.Texts.{BeginsWith, Extends};

use crate::events::End;
use crate::text::Text;

/// Where something came from.
#[derive(Clone, Copy)]
pub struct Place<'a> {
    /// The number of the line that came last, from 1.
    pub line: usize,
    /// When it came, if the recording says so.
    pub time: &'a str,
    /// The end that sent it, if the recording says so.
    pub end: Option<End>,
}

impl Place<'_> {
    /// Appends the time and the mark of the end, if they are known.
    pub fn push(&self, text: &mut Text)
        ensures { Extends text.old text.new }
    {
        if !self.time.is_empty() {
            text.push_str(self.time);
            text.push_str(" ");
        }
        text.push_str(match self.end {
            Some(End::Client) => "> ",
            Some(End::Server) => "< ",
            None => "",
        });
    }

    /// Appends the first members of an object: the line, and the time and the end, if they are known.
    pub fn push_members(&self, text: &mut Text)
        ensures { BeginsWith object_front text.old text.new }
    {
        text.push_between("{\"line\":", &self.line, ",");
        if !self.time.is_empty() {
            text.push_str("\"time\":\"");
            text.push_str(self.time);
            text.push_str("\",");
        }
        text.push_str(match self.end {
            Some(End::Client) => "\"from\":\"client\",",
            Some(End::Server) => "\"from\":\"server\",",
            None => "",
        });
    }
}
