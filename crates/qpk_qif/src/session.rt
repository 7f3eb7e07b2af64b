//! Header lists encoded to a recording, and a recording decoded to header lists (RFC 9204).
//!
//! Lists are encoded on the streams 1, 2, 3 and so on. The maximum table capacity is the capacity that is asked for.
//! The first record of an encoded recording sets it, if it is above 0: so a decoder whose table begins at capacity 0
//! (RFC 9204, section 3.2.2) reads the recording, and so does one whose table has the whole capacity from the start, as
//! it has in the offline interop. Decoding begins with the whole capacity, and so reads recordings of either kind.
//!
//! Proved of these calls is that they are safe and end, and what the calls that they make promise: how lists are read and
//! written, how records are cut off and appended, and how a block is encoded and decoded. That a recording has these
//! records in this order, and that it is decoded to these lists, no contract says: it is only tested.

use crate::lists::{ListFault, push_list, read_lists};
use crate::session::receiver::{Received, Receiver};
use crate::session::sender::Sender;
use qpack_base::coding::NoMemory;
use qpack_codec::{DecoderError, EncoderError};
use qpack_table::dynamic;
use std::alloc::{AllocError, AllocFailed, Global};
use thiserror::Error as ThisError;

mod receiver;
mod sender;

/// What was agreed for a connection, and how its encoder learns what was received.
#[derive(Clone, Copy, Debug, PartialEq, Drop)]
pub struct EncoderSettings {
    /// The table capacity, and the maximum one, in bytes.
    pub capacity: usize,
    /// How many blocks may be blocked.
    pub blocked: usize,
    /// Whether each block is acknowledged before the next list is encoded; else none ever is.
    pub acknowledged: bool,
}

/// What was agreed for a connection.
#[derive(Clone, Copy, Debug, PartialEq, Drop)]
pub struct DecoderSettings {
    /// The table capacity, and the maximum one, in bytes.
    pub capacity: usize,
    /// How many streams may be blocked.
    pub blocked: usize,
}

/// Why lists were not encoded, or a recording was not decoded. Lines, lists and records are counted from 1.
#[derive(Clone, Copy, Debug, PartialEq, Drop, ThisError)]
pub enum Fault {
    /// This line of the text is no line of QIF.
    #[error("line {0}: no tab")]
    NoTab(usize),
    /// The block of this list, or the instructions before it, have 2^32 bytes or more.
    #[error("list {0}: too long for a record")]
    TooLong(u64),
    /// The encoder refuses the acknowledgment of this list's block.
    #[error("list {0}: {1}")]
    NotHeard(u64, EncoderError),
    /// This record is not whole.
    #[error("record {0}: cut off")]
    Cut(usize),
    /// The instructions of this record, or its block, are refused.
    #[error("record {0}: {1}")]
    Refused(usize, DecoderError),
    /// The block of this record is blocked, and no more streams may be.
    #[error("record {0}: too many streams are blocked")]
    TooManyBlocked(usize),
    /// The block of this record is blocked, and the insertions that it waits for never come.
    #[error("record {0}: blocked to the end")]
    BlockedToTheEnd(usize),
    /// The encoder stream, the last bytes of which are in this record, ends within an instruction.
    #[error("record {0}: ends within an instruction")]
    EndsWithin(usize),
    /// A table may not have this capacity, which is 2^30 or more.
    #[error("capacity too large")]
    Capacity,
    /// The limit of blocked blocks is 65,535 or more.
    #[error("limit of blocked streams too large")]
    Limit,
    /// No memory was left.
    #[error("out of memory")]
    Memory,
}

impl From<AllocError> for Fault {
    fn from(_e: AllocError) -> Fault {
        Fault::Memory
    }
}

impl<T: Drop> From<AllocFailed<T>> for Fault {
    fn from(_e: AllocFailed<T>) -> Fault {
        Fault::Memory
    }
}

impl From<NoMemory> for Fault {
    fn from(_e: NoMemory) -> Fault {
        Fault::Memory
    }
}

impl From<ListFault> for Fault {
    fn from(e: ListFault) -> Fault {
        match e {
            ListFault::NoTab(number) => Fault::NoTab(number),
            ListFault::Memory => Fault::Memory,
        }
    }
}

impl From<dynamic::Error> for Fault {
    fn from(e: dynamic::Error) -> Fault {
        match e {
            dynamic::Error::MaxBlockedStreamsTooLarge => Fault::Limit,
            dynamic::Error::Memory => Fault::Memory,
            _ => Fault::Capacity,
        }
    }
}

/// Returns the recording of the lists of a text in QIF: for each list a record of stream 0 with the instructions of the
/// encoder, if there are any, and one of the list's stream with its block.
pub fn encode_lists(
    alloc: Global,
    settings: EncoderSettings,
    text: &[u8],
) -> Result<Vec<u8>, Fault> {
    let lists = read_lists(alloc, text)?;
    let mut recording = Vec::new(alloc);
    let mut sender = Sender::new(alloc, settings, &mut recording)?;
    sender.send_all(alloc, &lists, &mut recording)?;
    Ok(recording)
}

/// Returns the lists of a recording, in QIF, in the order of their streams' numbers, and of one stream in the order of
/// its records. A block that waits for insertions is kept, and read once they came. An empty recording has no list.
pub fn decode_records(
    alloc: Global,
    settings: DecoderSettings,
    recording: &[u8],
) -> Result<Vec<u8>, Fault> {
    let mut receiver = Receiver::new(alloc, settings)?;
    receiver.receive_all(alloc, recording)?;
    write_lists(alloc, receiver.finish()?)
}

/// Writes lists in QIF.
fn write_lists(alloc: Global, lists: &[Received]) -> Result<Vec<u8>, Fault> {
    let mut text = Vec::new(alloc);
    for list in lists {
        push_list(&mut text, &list.fields)?;
    }
    Ok(text)
}
