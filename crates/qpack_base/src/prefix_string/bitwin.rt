//! Positions in a payload, counted in bits.

ghost use Rattle.std.specs.Prelude.{◌≡◌, ◌+◌, ◌-◌, ◌*◌, ◌/◌, ◌%◌, ◌^◌, ◌<◌};
ghost use Rattle.qpack_base.specs.BitPositions.{position_of};

/// A position in a payload, the bit `bit` of the byte `byte`, and how many bits from it on are meant.
#[derive(Clone, Copy, Debug, Default, Drop, PartialEq)]
pub struct BitWindow {
    pub byte: u64,
    pub bit: u64,
    pub count: u64,
}

impl BitWindow {
    /// No bits, at the front.
    pub fn new() -> BitWindow
        ensures { result ≡ record { byte = 0; bit = 0; count = 0 } }
    {
        BitWindow {
            byte: 0,
            bit: 0,
            count: 0,
        }
    }

    /// Moves behind the bits that are meant; then `step` bits are.
    pub fn forwards(&mut self, step: u64)
        requires bits_fit { self.old.bit + self.old.count < 2 ^ 64 }
        requires bytes_fit { self.old.byte + (self.old.bit + self.old.count) / 8 < 2 ^ 64 }
        ensures position { position_of self.new ≡ position_of self.old + self.old.count }
        ensures within { self.new.bit < 8 }
        ensures count { self.new.count ≡ step }
    {
        let bit = self.bit + self.count;
        self.byte += bit / 8;
        self.bit = bit % 8;
        self.count = step;
    }

    /// The rest of the byte.
    pub fn opposite_bit_window(&self) -> BitWindow
        ensures { result ≡ record { byte = self.now.byte; bit = self.now.bit; count = 8 - self.now.bit % 8 } }
    {
        BitWindow {
            byte: self.byte,
            bit: self.bit,
            count: 8 - self.bit % 8,
        }
    }
}
