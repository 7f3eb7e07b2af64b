//! Laws of the window of a dynamic table, which both ends share (RFC 9204, section 3.2).

ghost use Rattle.qpack_rules.specs.WindowLaws.{LiveEntriesAreFew, EvictionCountIsLeast, DroppedIsGreatest};
ghost use Rattle.qpack_rules.specs.WindowLaws.{LiveIsLongestTail};
ghost use Rattle.qpack_rules.specs.WindowLaws.{WindowsFollowHistories};

/// Live entries number at most a 32nd of the capacity.
pub fn live_entries_are_few()
    ensures { LiveEntriesAreFew }
{}

/// How many were dropped is the greatest, over the fronts of the instructions, of how many had to go at a front's end.
pub fn dropped_is_greatest()
    ensures least { EvictionCountIsLeast }
    ensures greatest { DroppedIsGreatest }
{}

/// With one capacity the live entries are the longest tail of all insertions that fits.
pub fn live_is_longest_tail()
    ensures { LiveIsLongestTail }
{}

/// Taking instructions one by one makes the window of the history that they lead to.
pub fn windows_follow_histories()
    ensures { WindowsFollowHistories }
{}
