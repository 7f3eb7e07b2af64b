//! The blocks that are to be acknowledged, found by their streams, and the blocks that may be blocked, found by their
//! required insert counts (RFC 9204, sections 2.1 and 2.1.2).

ghost use Rattle.std.specs.Prelude.{◌≡◌, ◌^◌, ◌≤◌, [], ◌∷◌, ◌++◌, length, None, IfSome, IfNone, OnOk};
ghost use Rattle.std.specs.Prelude.{OnErr, nat_eq, ◌+◌, true, false, filter, nat_lt};
ghost use Rattle.std.specs.List.{find};
ghost use Rattle.std.specs.Option.{option_map};
ghost use Rattle.qpack_table.specs.Commits.{IsOldest, HasNone};

use std::alloc::{AllocError, Global};
use std::collections::{BTreeMap, BTreeSet};
use std::marker::Model;

/// The key of something that a commit keeps.
#[derive(Clone, Copy, Debug, PartialEq, Eq, PartialOrd, Ord, Drop)]
pub(super) struct CommitKey {
    /// The number of the block's stream, or its required insert count.
    pub(super) number: u64,
    /// How many were kept before it, which gives the order of commits.
    pub(super) order: u64,
}

/// The number of commits at which no more are kept.
const MOST_COMMITS: u64 = 1 << 62;

/// The blocks that are to be acknowledged, in the order of their commits.
#[derive(Debug, Drop)]
pub(super) struct OpenBlocks {
    /// The absolute indexes that the lines of each reference, by its stream and order number.
    references: BTreeMap<CommitKey, Vec<usize>>,
    /// How many blocks were ever opened.
    opened: u64,
}

impl Model for OpenBlocks {
    ghost use Rattle.std.specs.Prelude.{List};
    ghost use Rattle.qpack_spec.specs.Table.{UnacknowledgedBlock};
    ghost use Rattle.qpack_table.specs.Commits.{AreNumbered};
    ghost use Rattle.qpack_table.specs.OpenBlocks.{blocks_of};

    ghost Value = { List UnacknowledgedBlock };

    ghost view = { λ a. blocks_of a.opened a.references.entries };

    ghost invariant = { λ a. AreNumbered a.opened a.references.entries };
}

impl OpenBlocks {
    ghost use Rattle.qpack_spec.specs.Table.{without_oldest};
    ghost use Rattle.qpack_table.specs.Tables.{IsTaken};

    /// Returns an empty list.
    pub(super) fn new(alloc: Global) -> OpenBlocks
        ensures { result ≡ [] }
    {
        OpenBlocks {
            references: BTreeMap::new(alloc),
            opened: 0,
        }
    }

    /// Returns how many there are.
    pub(super) fn len(&self) -> usize
        ensures { result ≡ length self.now }
    {
        self.references.len()
    }

    /// Returns what the oldest block of a stream references.
    pub(super) fn oldest(&self, stream_id: u64) -> Option<&[usize]>
        ensures { option_map (λ references. references.now) result
            ≡ option_map (λ b. b.entries) (find (λ b. nat_eq b.stream stream_id) self.now) }
    {
        let (_, references) = oldest_entry(&self.references, stream_id)?;
        Some(references.as_slice())
    }

    /// Takes the oldest block of a stream out, if there is one: what it references. It takes no memory.
    pub(super) fn take_oldest(&mut self, stream_id: u64) -> Option<Vec<usize>>
        ensures taken { IfSome result (λ references.
            IsTaken stream_id (record { stream = stream_id; entries = references.items }) self.old self.new) }
        ensures none { IfNone result ((without_oldest stream_id self.old ≡ None) × (self.new ≡ self.old)) }
    {
        let (key, _) = oldest_entry(&self.references, stream_id)?;
        self.references.remove(&key)
    }

    /// Opens a block. On error, which is `Memory` only, nothing changes.
    pub(super) fn push(&mut self, stream_id: u64, references: Vec<usize>) -> Result<(), AllocError>
        ensures ok { OnOk result
            (self.new ≡ self.old ++ record { stream = stream_id; entries = references.items } ∷ []) }
        ensures few { OnOk result (length self.new ≤ 2 ^ 62) }
        ensures err { OnErr result (self.new ≡ self.old) }
    {
        let order = self.opened;
        if order >= MOST_COMMITS {
            return Err(AllocError);
        }
        let key = CommitKey {
            number: stream_id,
            order,
        };
        self.references.insert(key, references)?;
        self.opened = order + 1;
        Ok(())
    }
}

/// Returns the oldest block of a stream: its key, and what it references.
fn oldest_entry(
    blocks: &BTreeMap<CommitKey, Vec<usize>>,
    stream_id: u64,
) -> Option<(CommitKey, &Vec<usize>)>
    ensures found { IfSome result (λ e. IsOldest stream_id e.0 e.1.now blocks.now.entries) }
    ensures none { IfNone result (HasNone stream_id blocks.now.entries) }
{
    let first = CommitKey {
        number: stream_id,
        order: 0,
    };
    let (key, references) = blocks.range(first..).next()?;
    if key.number == stream_id {
        Some((*key, references))
    } else {
        None
    }
}

/// The required insert counts of blocks that may be blocked, in the order of their commits.
#[derive(Debug, Drop)]
pub(super) struct BlockedBlocks {
    /// Each count with its order number.
    keys: BTreeSet<CommitKey>,
    /// How many were ever kept.
    kept: u64,
}

impl Model for BlockedBlocks {
    ghost use Rattle.qpack_table.specs.Commits.{AreNumbered};
    ghost use Rattle.qpack_table.specs.BlockedBlocks.{BlockedKeys, numbered};

    ghost Value = { BlockedKeys };

    ghost view = { λ a. record { kept = a.kept; keys = a.keys.keys } };

    ghost invariant = { λ a. AreNumbered a.kept (numbered a.keys.keys) };
}

impl BlockedBlocks {
    ghost use Rattle.qpack_table.specs.BlockedBlocks.{BlockedKeys, counts_of, IsKeptBehind};

    /// Returns an empty list.
    pub(super) fn new(alloc: Global) -> BlockedBlocks
        ensures { counts_of result ≡ [] }
    {
        BlockedBlocks {
            keys: BTreeSet::new(alloc),
            kept: 0,
        }
    }

    /// Returns how many there are.
    pub(super) fn len(&self) -> usize
        ensures { result ≡ length (counts_of self.now) }
    {
        self.keys.len()
    }

    /// Keeps a blocked block that requires this many insertions. On error, which is `Memory` only, nothing changes.
    pub(super) fn push(&mut self, required: usize) -> Result<(), AllocError>
        ensures kept { OnOk result (IsKeptBehind required self.old self.new) }
        ensures counts { OnOk result (counts_of self.new ≡ counts_of self.old ++ required ∷ []) }
        ensures err { OnErr result (self.new ≡ self.old) }
    {
        let order = self.kept;
        if order >= MOST_COMMITS {
            return Err(AllocError);
        }
        let key = CommitKey {
            number: required as u64,
            order,
        };
        self.keys.insert(key)?;
        self.kept = order + 1;
        Ok(())
    }

    /// Takes back the block that was pushed last. It takes no memory.
    pub(super) fn take_back(&mut self, required: usize)
        requires { (before : BlockedKeys) × IsKeptBehind required before self.old }
        ensures { (before : BlockedKeys) → IsKeptBehind required before self.old → self.new ≡ before }
    {
        self.kept -= 1;
        let key = CommitKey {
            number: required as u64,
            order: self.kept,
        };
        self.keys.remove(&key);
    }

    /// Removes the blocks that require no more than a count. It takes no memory.
    pub(super) fn release_up_to(&mut self, count: usize)
        ensures { counts_of self.new ≡ filter (λ required. nat_lt count required) (counts_of self.old) }
    {
        while self.release_one(count) {}
    }

    /// Removes one of them, and returns whether there was one.
    fn release_one(&mut self, count: usize) -> bool
        ensures same { filter (λ required. nat_lt count required) (counts_of self.new)
            ≡ filter (λ required. nat_lt count required) (counts_of self.old) }
        ensures fewer { result ≡ true → length (counts_of self.new) + 1 ≡ length (counts_of self.old) }
        ensures none { result ≡ false
            → counts_of self.new ≡ filter (λ required. nat_lt count required) (counts_of self.new) }
    {
        let Some(least) = self.keys.first() else {
            return false;
        };
        if least.number > count as u64 {
            return false;
        }
        self.keys.pop_first();
        true
    }
}
