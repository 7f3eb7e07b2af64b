//! How much room a table makes for entries, and its index for slots, where they have none. Each grows by a quarter.

ghost use Rattle.std.specs.Prelude.{◌≡◌, ◌+◌, ◌/◌, ◌<◌, ◌≤◌, max, length, OnOk, OnErr, IsOk};
ghost use Rattle.std.specs.VecDeque.{deque_capacity};
ghost use Rattle.qpack_table.specs.Growth.{grown};

use std::alloc::AllocError;
use std::collections::VecDeque;

/// For how many entries a growth makes room at least, and the first one does.
pub(super) const ENTRIES: usize = 8;

/// For how many slots a row makes room at least, and the first time.
pub(super) const SLOTS: usize = 4;

/// Returns for how many more elements a vector makes room: for a quarter as many as it has, or for the least if that
/// is more.
pub(super) fn growth(len: usize, least: usize) -> usize
    ensures { result ≡ max least (len / 4) }
{
    (len / 4).max(least)
}

/// Makes room for one element more. If it is free already, nothing changes and no memory is taken.
#[inline(always)]
pub(super) fn make_room<T>(deque: &mut VecDeque<T>, least: usize) -> Result<(), AllocError>
    requires { 0 < least }
    ensures items { deque.new.items ≡ deque.old.items }
    ensures ok { OnOk result (length deque.new.items + 1 ≤ deque_capacity deque.new) }
    ensures succeeds { length deque.old.items + 1 ≤ deque_capacity deque.old → IsOk result }
    ensures full { OnErr result (deque_capacity deque.old ≤ length deque.old.items) }
    ensures still { length deque.old.items + 1 ≤ deque_capacity deque.old
        → deque_capacity deque.new ≡ deque_capacity deque.old }
    ensures grown { OnOk result (deque_capacity deque.old ≤ length deque.old.items
        → deque_capacity deque.new ≡ grown least (length deque.old.items)) }
    ensures capacity { deque_capacity deque.new
        ≤ max (deque_capacity deque.old) (grown least (length deque.old.items)) }
{
    if deque.len() < deque.capacity() {
        return Ok(());
    }
    grow(deque, least)
}

/// Makes room where there is none. This is a call of its own, so that a caller that has room saves no registers.
#[inline(never)]
fn grow<T>(deque: &mut VecDeque<T>, least: usize) -> Result<(), AllocError>
    requires some { 0 < least }
    requires full { deque_capacity deque.old ≤ length deque.old.items }
    ensures items { deque.new.items ≡ deque.old.items }
    ensures grown { OnOk result (deque_capacity deque.new ≡ grown least (length deque.old.items)) }
    ensures err { OnErr result (deque_capacity deque.new ≡ deque_capacity deque.old) }
{
    deque.reserve_exact(growth(deque.len(), least))
}
