//! Where a new end is put, for C to keep.

ghost use Rattle.h3_qpack_c.specs.declared.decoder.State.{State};
ghost use Rattle.std.specs.Prelude.{◌≡◌, Option, Some};

use crate::decoder::State;
use std::marker::Model;

/// A decoding end that C keeps, or nothing yet.
#[repr(C)]
pub struct Slot {
    at: *mut u8,
    ghost value: { Option State },
}

impl Model for Slot {
    ghost use Rattle.h3_qpack_c.specs.DecoderSlots.{slot_owns};

    ghost also_owns = { λ s. slot_owns s.at s.value };
}

/// Keeps an end.
pub(super) fn keep(kept: Box<State>) -> Slot
    ensures { result.value ≡ Some kept.value }
{
    let at = Box::into_raw(kept);
    Slot { at: at as *mut u8 }
}

/// Puts an end into a slot that has none.
pub(super) fn put(kept: Box<State>, out: &mut Slot)
    ensures { out.new.value ≡ Some kept.value }
{
    let Slot { at: _ } = std::mem::replace(out, keep(kept));
}
