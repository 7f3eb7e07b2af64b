//! Borrows what a handle keeps.

ghost use Rattle.std.specs.Prelude.{◌≡◌};
ghost use Rattle.std.specs.Borrow.{sem};
ghost use Rattle.h3_qpack_c.specs.DecoderFollows.{handle_follows};

use crate::decoder::{Handle, State};

/// Borrows it; the handle keeps what is written there.
pub(crate) fn state(handle: &mut Handle) -> &mut State
    ensures* writes_back { sem 𝓛 (handle_follows handle.entry result) }
    ensures value { result.now ≡ handle.old.value }
{
    unsafe { &mut *(handle.at as *mut State) }
}
