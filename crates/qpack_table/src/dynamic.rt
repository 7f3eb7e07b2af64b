//! The dynamic table (RFC 9204, section 3.2): its errors, the table itself, and an encoder's handle, which references
//! its entries.

ghost use Rattle.std.specs.Prelude.{◌≡◌};
ghost use Rattle.qpack_table.specs.Errors.{table_error_of_index};
ghost use Rattle.qpack_table.specs.declared.dynamic.Error.TheVariants.{Memory as NoRoom};

use crate::vas;
use qpack_base::coding::NoMemory;
use std::alloc::{AllocError, AllocFailed};
use thiserror::Error as ThisError;

mod block;
mod capacities;
mod comparing;
mod encoder;
mod entries;
mod entry_index;
mod growth;
mod index;
mod lookups;
mod open_blocks;
mod sorted;
mod sought;
mod table;

pub use crate::dynamic::comparing::Steps;
pub use crate::dynamic::encoder::{
    DynamicInsertionResult, DynamicLookupResult, DynamicTableEncoder, Naming,
};
pub use crate::dynamic::entry_index::{EntryIndex, FindsEntries, NoIndex};
pub use crate::dynamic::index::{Hashes, Index};
pub use crate::dynamic::sorted::SortedIndex;
pub use crate::dynamic::sought::SoughtField;
pub use crate::dynamic::table::{
    DynamicTable, DynamicTableDecoder, PackedTable, ReceivedPackedTable, ReceivedTable,
};

/// Why a call of the dynamic table failed.
#[derive(Clone, Copy, Debug, PartialEq, Drop, ThisError)]
pub enum Error {
    /// No live entry has this relative index: the one that it references is dropped, or before the first one, or
    /// nothing is live (RFC 9204, section 3.2.5).
    #[error("no entry at relative index {0}")]
    BadRelativeIndex(usize),
    /// No live entry has this post-base index (RFC 9204, section 3.2.6).
    #[error("no entry at post-base index {0}")]
    BadPostbaseIndex(usize),
    /// No live entry has this position, from 0 at the oldest: a base past the total points after the newest.
    #[error("no entry at position {0}")]
    BadIndex(usize),
    /// A field is larger than a capacity above 0, or a smaller capacity would evict an entry that is not evictable (RFC
    /// 9204, sections 2.1.1 and 3.2.2).
    #[error("no room within the capacity")]
    MaxTableSizeReached,
    /// A capacity is above the greatest that may be set: the maximum capacity, and never 2^30 bytes or more (RFC
    /// 9204, section 3.2.3).
    #[error("capacity too large")]
    MaximumTableSizeTooLarge,
    /// A limit of blocked streams is 65,535 or more (RFC 9204, section 2.1.2).
    #[error("limit of blocked streams too large")]
    MaxBlockedStreamsTooLarge,
    /// No block of this stream waits for an acknowledgment (RFC 9204, section 4.4.1).
    #[error("unknown stream {0}")]
    UnknownStreamId(u64),
    /// Kept from the original, and never returned: what is tracked is never missing.
    #[error("no tracking data")]
    NoTrackingData,
    /// Kept from the original, and never returned: entries are not counted down by their references.
    #[error("invalid tracking count")]
    InvalidTrackingCount,
    /// No memory was left.
    #[error("out of memory")]
    Memory,
}

impl From<vas::Error> for Error {
    ghost from_gives = { λ e r. r ≡ table_error_of_index e };

    fn from(e: vas::Error) -> Error {
        match e {
            vas::Error::RelativeIndex(index) => Error::BadRelativeIndex(index),
            vas::Error::PostbaseIndex(index) => Error::BadPostbaseIndex(index),
            vas::Error::Index(position) => Error::BadIndex(position),
        }
    }
}

impl From<NoMemory> for Error {
    ghost from_gives = { λ _ r. r ≡ NoRoom };

    fn from(_e: NoMemory) -> Error {
        Error::Memory
    }
}

impl From<AllocError> for Error {
    ghost from_gives = { λ _ r. r ≡ NoRoom };

    fn from(_e: AllocError) -> Error {
        Error::Memory
    }
}

impl<T: Drop> From<AllocFailed<T>> for Error {
    ghost from_gives = { λ _ r. r ≡ NoRoom };

    fn from(_e: AllocFailed<T>) -> Error {
        Error::Memory
    }
}
