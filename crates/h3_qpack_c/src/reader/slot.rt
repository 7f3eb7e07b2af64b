//! Where a new reader is put, for C to keep.

ghost use Rattle.h3_qpack_c.specs.declared.reader.State.{State};
ghost use Rattle.std.specs.Prelude.{◌≡◌, Option, Some};

use crate::reader::State;
use std::marker::Model;

/// A reader that C keeps, or nothing yet.
#[repr(C)]
pub struct Slot {
    at: *mut u8,
    ghost value: { Option State },
}

impl Model for Slot {
    ghost use Rattle.h3_qpack_c.specs.ReaderSlots.{slot_owns};

    ghost also_owns = { λ s. slot_owns s.at s.value };
}

/// Keeps a reader.
pub(super) fn keep(kept: Box<State>) -> Slot
    ensures { result.value ≡ Some kept.value }
{
    let at = Box::into_raw(kept);
    Slot { at: at as *mut u8 }
}

/// Puts a reader into a slot that has none.
pub(super) fn put(kept: Box<State>, out: &mut Slot)
    ensures { out.new.value ≡ Some kept.value }
{
    let Slot { at: _ } = std::mem::replace(out, keep(kept));
}
