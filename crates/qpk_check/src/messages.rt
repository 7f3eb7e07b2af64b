//! Header lists as messages of HTTP/3: the names of their fields, and their pseudo-fields (RFC 9114, sections 4.2 and 4.3).

ghost use Rattle.qpk_view.specs.Texts.{Extends};

use qpk_show::section::LineShown;
use qpk_view::events::End;
use qpk_view::text::Text;
use std::alloc::{AllocError, Global};
use std::collections::BTreeMap;
use std::mem;

/// What a section is in its message.
#[derive(Clone, Copy, PartialEq)]
pub(crate) enum Part {
    /// The header section of a request, or what a server promises to push.
    Request,
    /// The header section of a response, also of an interim one.
    Response,
    /// The trailer section.
    Trailers,
    /// It is not known, as a section of its stream was not read.
    Unknown,
}

/// A pseudo-field.
#[derive(Clone, Copy, PartialEq)]
enum Pseudo {
    Method,
    Scheme,
    Authority,
    Path,
    /// That of an extended CONNECT (RFC 9220).
    Protocol,
    Status,
}

/// Why a list is no message.
#[derive(Clone, Copy)]
pub(crate) enum MessageFault {
    /// A name has capitals (RFC 9114, section 4.2).
    Capitals,
    /// A field is about the connection (section 4.2).
    OfConnection,
    /// A pseudo-field comes after another field (section 4.3).
    Late,
    /// A pseudo-field is none of such a message (section 4.3).
    Undefined(Part),
    /// Trailers have a pseudo-field (section 4.3).
    InTrailers,
    /// A pseudo-field comes twice in a request or a response (sections 4.3.1 and 4.3.2).
    Twice(Part),
    /// This pseudo-field is not there (sections 4.3.1 and 4.3.2).
    Missing(Part, &'static str),
}

impl MessageFault {
    /// Returns whether it is of one line, whatever came before that.
    pub(crate) fn is_of_one_line(self) -> bool {
        match self {
            MessageFault::Capitals
            | MessageFault::OfConnection
            | MessageFault::Undefined(_)
            | MessageFault::InTrailers => true,
            MessageFault::Late | MessageFault::Twice(_) | MessageFault::Missing(_, _) => false,
        }
    }
}

/// Why a list is no message, and where.
#[derive(Clone, Copy)]
pub(crate) struct Malformed {
    pub(crate) fault: MessageFault,
    /// The index of the line that it is at, unless something is missing.
    pub(crate) index: Option<usize>,
}

/// Returns why lines are no such part of a message, if they are none. The first of them counts.
pub(crate) fn first_fault(part: Part, lines: &[LineShown]) -> Option<Malformed> {
    let mut heading = Heading::new();
    for (index, line) in lines.iter().enumerate() {
        let fault = heading.take(
            part,
            line.field.name.as_slice(),
            line.field.value.as_slice(),
        );
        if let Some(fault) = fault {
            return Some(Malformed {
                fault,
                index: Some(index),
            });
        }
    }
    let name = heading.missing(part)?;
    Some(Malformed {
        fault: MessageFault::Missing(part, name),
        index: None,
    })
}

/// Which fields a list has so far.
#[derive(Clone, Copy)]
struct Heading {
    has_method: bool,
    has_scheme: bool,
    has_authority: bool,
    has_path: bool,
    has_protocol: bool,
    has_status: bool,
    is_connect: bool,
    has_other: bool,
}

impl Heading {
    /// Returns that of an empty list.
    fn new() -> Heading {
        Heading {
            has_method: false,
            has_scheme: false,
            has_authority: false,
            has_path: false,
            has_protocol: false,
            has_status: false,
            is_connect: false,
            has_other: false,
        }
    }

    /// Takes the next field. Returns why the list is no such part of a message with it.
    fn take(&mut self, part: Part, name: &[u8], value: &[u8]) -> Option<MessageFault> {
        if has_capitals(name) {
            return Some(MessageFault::Capitals);
        }
        if is_pseudo(name) {
            return self.take_pseudo(part, name, value);
        }
        self.has_other = true;
        if is_of_connection(name, value) {
            return Some(MessageFault::OfConnection);
        }
        None
    }

    /// Takes the next field, which is a pseudo-field.
    fn take_pseudo(&mut self, part: Part, name: &[u8], value: &[u8]) -> Option<MessageFault> {
        if part == Part::Unknown {
            return None;
        }
        if part == Part::Trailers {
            return Some(MessageFault::InTrailers);
        }
        let pseudo = match pseudo_of(name) {
            Some(pseudo) if is_defined(part, pseudo) => pseudo,
            _ => return Some(MessageFault::Undefined(part)),
        };
        if self.has_other {
            return Some(MessageFault::Late);
        }
        if pseudo == Pseudo::Method && value == b"CONNECT".as_slice() {
            self.is_connect = true;
        }
        if self.note(pseudo) {
            return Some(MessageFault::Twice(part));
        }
        None
    }

    /// Notes a pseudo-field, and returns whether it was there before.
    fn note(&mut self, pseudo: Pseudo) -> bool {
        match pseudo {
            Pseudo::Method => mem::replace(&mut self.has_method, true),
            Pseudo::Scheme => mem::replace(&mut self.has_scheme, true),
            Pseudo::Authority => mem::replace(&mut self.has_authority, true),
            Pseudo::Path => mem::replace(&mut self.has_path, true),
            Pseudo::Protocol => mem::replace(&mut self.has_protocol, true),
            Pseudo::Status => mem::replace(&mut self.has_status, true),
        }
    }

    /// Returns the name of a pseudo-field that such a part of a message must have, and this list has not.
    fn missing(&self, part: Part) -> Option<&'static str> {
        match part {
            Part::Request => self.missing_in_request(),
            Part::Response if !self.has_status => Some(":status"),
            _ => None,
        }
    }

    /// Returns the name of a pseudo-field that a request must have, and this list has not (RFC 9114, sections 4.3.1 and
    /// 4.4; RFC 9220).
    fn missing_in_request(&self) -> Option<&'static str> {
        if !self.has_method {
            return Some(":method");
        }
        if self.is_connect && !self.has_protocol {
            return if self.has_authority {
                None
            } else {
                Some(":authority")
            };
        }
        if !self.has_scheme {
            return Some(":scheme");
        }
        if self.has_path { None } else { Some(":path") }
    }
}

/// Returns whether a name has capitals.
fn has_capitals(name: &[u8]) -> bool {
    name.iter().any(|byte| byte.is_ascii_uppercase())
}

/// Returns whether a name is that of a pseudo-field.
fn is_pseudo(name: &[u8]) -> bool {
    name.first() == Some(&b':')
}

/// Returns the pseudo-field of this name, if it is defined.
fn pseudo_of(name: &[u8]) -> Option<Pseudo> {
    if name == b":method".as_slice() {
        return Some(Pseudo::Method);
    }
    if name == b":scheme".as_slice() {
        return Some(Pseudo::Scheme);
    }
    if name == b":authority".as_slice() {
        return Some(Pseudo::Authority);
    }
    if name == b":path".as_slice() {
        return Some(Pseudo::Path);
    }
    if name == b":protocol".as_slice() {
        return Some(Pseudo::Protocol);
    }
    if name == b":status".as_slice() {
        return Some(Pseudo::Status);
    }
    None
}

/// Returns whether such a part of a message may have a pseudo-field.
fn is_defined(part: Part, pseudo: Pseudo) -> bool {
    match part {
        Part::Response => pseudo == Pseudo::Status,
        _ => pseudo != Pseudo::Status,
    }
}

/// Returns whether a field is about the connection, which HTTP/3 has no fields for (RFC 9114, section 4.2).
fn is_of_connection(name: &[u8], value: &[u8]) -> bool {
    if name == b"te".as_slice() {
        return !value.eq_ignore_ascii_case(b"trailers");
    }
    name == b"connection".as_slice()
        || name == b"keep-alive".as_slice()
        || name == b"proxy-connection".as_slice()
        || name == b"transfer-encoding".as_slice()
        || name == b"upgrade".as_slice()
}

/// The header lists that an end sent.
#[derive(Drop)]
pub(crate) struct Messages {
    /// The streams whose next section is no header section: it is the trailer section, or it is not known what it is.
    begun: BTreeMap<u64, Part>,
    /// Whether a list had a pseudo-field. Lists of an end that uses none may be no messages of HTTP.
    has_pseudo: bool,
}

impl Messages {
    /// Returns those of an end that sent none.
    pub(crate) fn new(alloc: Global) -> Messages {
        Messages {
            begun: BTreeMap::new(alloc),
            has_pseudo: false,
        }
    }

    /// Notes that a section of a stream was not read.
    pub(crate) fn skip(&mut self, stream: u64) -> Result<(), AllocError> {
        self.begin(stream, Part::Unknown)
    }

    /// Notes what the next section of a stream is.
    fn begin(&mut self, stream: u64, part: Part) -> Result<(), AllocError> {
        self.begun.insert(stream, part)?;
        Ok(())
    }

    /// Takes a list that an end sent on a stream. Returns what it is, or `None` if it may be no message.
    pub(crate) fn take(
        &mut self,
        end: End,
        stream: u64,
        lines: &[LineShown],
    ) -> Result<Option<Part>, AllocError> {
        self.has_pseudo = self.has_pseudo || has_pseudo(lines);
        if !self.has_pseudo {
            return Ok(None);
        }
        let part = part_of(end, lines);
        if is_promise(end, part) {
            return Ok(Some(part));
        }
        if let Some(part) = self.begun.get(&stream) {
            return Ok(Some(*part));
        }
        if !is_interim(lines) {
            self.begin(stream, Part::Trailers)?;
        }
        Ok(Some(part))
    }
}

/// Returns whether lines have a pseudo-field.
fn has_pseudo(lines: &[LineShown]) -> bool {
    lines.iter().any(|l| is_pseudo(l.field.name.as_slice()))
}

/// Returns whether lines have a field of this name.
fn has_name(lines: &[LineShown], name: &str) -> bool {
    lines
        .iter()
        .any(|l| l.field.name.as_slice() == name.as_bytes())
}

/// Returns what the first section of an end on a stream is. A server promises requests, and else responds.
fn part_of(end: End, lines: &[LineShown]) -> Part {
    match end {
        End::Client => Part::Request,
        End::Server if has_name(lines, ":method") && !has_name(lines, ":status") => Part::Request,
        End::Server => Part::Response,
    }
}

/// Returns whether a section is what a server promises to push. Other sections of its stream are as they were.
fn is_promise(end: End, part: Part) -> bool {
    end == End::Server && part == Part::Request
}

/// Returns whether lines are an interim response.
fn is_interim(lines: &[LineShown]) -> bool {
    lines.iter().any(|l| {
        l.field.name.as_slice() == b":status".as_slice()
            && l.field.value.as_slice().first() == Some(&b'1')
    })
}

/// How many bytes of a name are printed at most.
const MOST_OF_NAME: usize = 80;

/// Appends why lines are no message.
pub(crate) fn push_malformed(text: &mut Text, malformed: Malformed, lines: &[LineShown])
    ensures { Extends text.old text.new }
{
    text.push_str(front_of(malformed.fault));
    if let Some(line) = malformed.index.and_then(|index| lines.get(index)) {
        push_token(text, line.field.name.as_slice());
    }
    text.push_str(back_of(malformed.fault));
}

/// Returns the words before the name of the field.
fn front_of(fault: MessageFault) -> &'static str {
    match fault {
        MessageFault::Capitals => "the name ",
        MessageFault::InTrailers => "trailers have the pseudo-field ",
        MessageFault::Missing(Part::Response, _) => "a response has no ",
        MessageFault::Missing(_, _) => "a request has no ",
        _ => "",
    }
}

/// Returns the words after the name of the field.
fn back_of(fault: MessageFault) -> &'static str {
    match fault {
        MessageFault::Capitals => " has capitals",
        MessageFault::OfConnection => " is a field of a connection, of which HTTP/3 has none",
        MessageFault::Late => " comes after a field that is no pseudo-field",
        MessageFault::Undefined(Part::Response) => " is no pseudo-field of a response",
        MessageFault::Undefined(_) => " is no pseudo-field of a request",
        MessageFault::InTrailers => "",
        MessageFault::Twice(_) => " comes twice",
        MessageFault::Missing(_, name) => name,
    }
}

/// Appends a name: of a long one its front, and for each byte that no name has a question mark.
fn push_token(text: &mut Text, name: &[u8])
    ensures { Extends text.old text.new }
{
    for byte in name.iter().take(MOST_OF_NAME) {
        text.push(printed(*byte));
    }
    if name.len() > MOST_OF_NAME {
        text.push_str("..");
    }
}

/// Returns a byte of a name as it is printed.
fn printed(byte: u8) -> char {
    if byte.is_ascii_alphanumeric()
        || byte == b':'
        || byte == b'-'
        || byte == b'_'
        || byte == b'.'
    {
        char::from(byte)
    } else {
        '?'
    }
}
