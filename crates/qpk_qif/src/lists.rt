//! Header lists in QIF: a field a line, `name TAB value`; an empty line ends a list; a line that begins with `#` is a
//! comment. The last list may lack its empty line.

ghost use Rattle.std.specs.Prelude.{◌≡◌, ◌++◌, [], OnOk, IfOk};
ghost use Rattle.qpack_base.specs.HeaderFields.{field_of};
ghost use Rattle.qpack_codec.specs.Stateless.{fields_in};
ghost use Rattle.qpk_qif.specs.Lists.{lists_of, meaning_of_line, text_of_field, text_of_list, WrittenListsAreRead};
ghost use Rattle.qpk_qif.specs.Answers.{ReadsLists, ReadsLine, lists_in, meaning_of, gathered, all_gathered};
ghost use Rattle.qpk_qif.specs.declared.lists.ListFault.TheVariants.{Memory};

use crate::lines::{split_field, split_line};
use qpack_base::coding::NoMemory;
use qpack_base::field::HeaderField;
use std::alloc::{AllocError, AllocFailed, Global};
use std::marker::Model;
use std::mem;
use thiserror::Error as ThisError;

/// Why lists were not read.
#[derive(Clone, Copy, Debug, PartialEq, Drop, ThisError)]
pub enum ListFault {
    /// The line of this number, counted from 1, is no end of a list, no comment, and has no TAB.
    #[error("line {0}: no tab")]
    NoTab(usize),
    /// No memory was left.
    #[error("out of memory")]
    Memory,
}

impl From<AllocError> for ListFault {
    ghost from_gives = { λ _ r. r ≡ Memory };

    fn from(_e: AllocError) -> ListFault {
        ListFault::Memory
    }
}

impl<T: Drop> From<AllocFailed<T>> for ListFault {
    ghost from_gives = { λ _ r. r ≡ Memory };

    fn from(_e: AllocFailed<T>) -> ListFault {
        ListFault::Memory
    }
}

impl From<NoMemory> for ListFault {
    ghost from_gives = { λ _ r. r ≡ Memory };

    fn from(_e: NoMemory) -> ListFault {
        ListFault::Memory
    }
}

/// A line of a text.
#[derive(Drop)]
enum Line {
    /// It ends a list.
    End,
    /// It is a comment.
    Remark,
    /// It is a field.
    Field(HeaderField),
}

/// The lists that were read so far.
#[derive(Drop)]
struct Lists {
    /// Those that ended.
    ended: Vec<Vec<HeaderField>>,
    /// The fields of the one that did not.
    open: Vec<HeaderField>,
}

impl Model for Lists {
    ghost use Rattle.qpack_codec.specs.Stateless.{fields_in};
    ghost use Rattle.qpk_qif.specs.Answers.{Gathered, lists_in};

    ghost Value = { Gathered };

    ghost view = { λ l. record { ended = lists_in l.ended.items; open_list = fields_in l.«open».items } };
}

/// Returns the header lists of a text, or the first line that is no line of QIF.
pub fn read_lists(alloc: Global, text: &[u8]) -> Result<Vec<Vec<HeaderField>>, ListFault>
    ensures { ReadsLists result (lists_of text.now) }
{
    let mut lists = Lists::new(alloc);
    let mut rest = text;
    let mut number = 0usize;
    while !rest.is_empty() {
        number += 1;
        let (line, after) = split_line(rest);
        let line = read_line(alloc, line, number)?;
        lists.take(alloc, line)?;
        rest = after;
    }
    Ok(lists.finish()?)
}

/// Returns what the line of this number is.
fn read_line(alloc: Global, line: &[u8], number: usize) -> Result<Line, ListFault>
    ensures { ReadsLine result number (meaning_of_line line.now) }
{
    match line.first() {
        None => Ok(Line::End),
        Some(b'#') => Ok(Line::Remark),
        Some(_) => match split_field(line) {
            Some((name, value)) => Ok(Line::Field(HeaderField::from_pair(alloc, name, value)?)),
            None => Err(ListFault::NoTab(number)),
        },
    }
}

impl Lists {
    /// Returns an empty list.
    fn new(alloc: Global) -> Lists
        ensures { result ≡ record { ended = []; open_list = [] } }
    {
        Lists {
            ended: Vec::new(alloc),
            open: Vec::new(alloc),
        }
    }

    /// Takes a line.
    fn take(&mut self, alloc: Global, line: Line) -> Result<(), AllocError>
        ensures { OnOk result (self.new ≡ gathered self.old (meaning_of line)) }
    {
        match line {
            Line::End => Ok(
                self.ended
                    .push(mem::replace(&mut self.open, Vec::new(alloc)))?,
            ),
            Line::Remark => Ok(()),
            Line::Field(field) => Ok(self.open.push(field)?),
        }
    }

    /// Returns all lists: those that ended, then the last one, if it has a field.
    fn finish(self) -> Result<Vec<Vec<HeaderField>>, AllocError>
        ensures { IfOk result (λ lists. lists_in lists.items ≡ all_gathered self) }
    {
        let Lists { mut ended, open } = self;
        if !open.is_empty() {
            ended.push(open)?;
        }
        Ok(ended)
    }
}

/// Appends a list: each field as a line, and an empty line. On error a part of it may remain.
pub fn push_list(out: &mut Vec<u8>, fields: &[HeaderField]) -> Result<(), AllocError>
    ensures { OnOk result (out.new.items ≡ out.old.items ++ text_of_list (fields_in fields.now)) }
{
    for field in fields {
        push_field(out, field)?;
    }
    Ok(out.push(b'\n')?)
}

/// Appends a field as a line. On error a part of it may remain.
fn push_field(out: &mut Vec<u8>, field: &HeaderField) -> Result<(), AllocError>
    ensures { OnOk result (out.new.items ≡ out.old.items ++ text_of_field (field_of field.now)) }
{
    out.extend_from_slice(field.name.as_slice())?;
    out.push(b'\t')?;
    out.extend_from_slice(field.value.as_slice())?;
    Ok(out.push(b'\n')?)
}

/// What is read of the text of lists is exactly these lists, if the name of each field has no TAB, no line feed and no
/// `#` at its front, and its value no line feed. A name, a value and a list may be empty.
pub fn written_lists_are_read()
    ensures { WrittenListsAreRead }
{}
