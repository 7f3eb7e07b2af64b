//! Where an instruction is on its stream (RFC 9204, section 4.2).

ghost use Rattle.std.specs.Prelude.{◌≡◌};
ghost use Rattle.qpack_shared.specs.Places.{first_place, passed};

/// Where an instruction is on its stream. Both numbers saturate.
#[derive(Clone, Copy, Debug, PartialEq, Eq, Drop)]
pub struct Place {
    /// The instruction's number, from 1.
    pub number: u64,
    /// Where it begins, in bytes from the stream's start.
    pub offset: u64,
}

impl Place {
    /// Returns the first instruction's place.
    pub fn first() -> Place
        ensures { result ≡ first_place }
    {
        Place {
            number: 1,
            offset: 0,
        }
    }

    /// Returns the place after an instruction of this many bytes.
    pub fn pass(self, len: usize) -> Place
        ensures { result ≡ passed self 1 len }
    {
        Place {
            number: self.number.saturating_add(1),
            offset: self.offset.saturating_add(len as u64),
        }
    }
}
