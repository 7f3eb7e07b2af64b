//! The capacity of the dynamic table, and the maximum capacity (RFC 9204, section 3.2.3).

ghost use Rattle.std.specs.Prelude.{◌≡◌, ◌^◌, ◌<◌, ◌≤◌, Some};
ghost use Rattle.qpack_spec.specs.Window.{greatest_capacity, maximum_capacity};

use std::marker::Model;

/// No greater capacity may be set, in bytes.
pub(super) const GREATEST_CAPACITY: usize = (1 << 30) - 1;

/// The capacity and the maximum capacity that was agreed on, in bytes. The capacity is at most the maximum.
#[derive(Debug, Drop)]
pub(super) struct Capacities {
    capacity: usize,
    agreed_max: Option<usize>,
}

impl Model for Capacities {
    ghost use Rattle.std.specs.Prelude.{◌≤◌};
    ghost use Rattle.qpack_spec.specs.Window.{maximum_capacity};
    ghost use Rattle.qpack_table.specs.Capacities.{Agreement};

    ghost Value = { Agreement };

    ghost view = { λ a. record { capacity = a.capacity; agreed_max = a.agreed_max } };

    ghost invariant = { λ a. a.capacity ≤ maximum_capacity a.agreed_max a.capacity };
}

impl Default for Capacities {
    ghost use Rattle.std.specs.Prelude.{◌≡◌};
    ghost use Rattle.qpack_table.specs.Capacities.{no_capacity};

    ghost is_default = { λ a. a ≡ no_capacity };

    /// Returns capacity 0, with no agreed maximum.
    fn default() -> Capacities {
        Capacities {
            capacity: 0,
            agreed_max: None,
        }
    }
}

impl Capacities {
    /// Returns the capacity.
    pub(super) fn capacity(&self) -> usize
        ensures { result ≡ self.now.capacity }
    {
        self.capacity
    }

    /// Returns the maximum capacity: what was agreed on, and the present capacity until then.
    pub(super) fn maximum(&self) -> usize
        ensures exact { result ≡ maximum_capacity self.now.agreed_max self.now.capacity }
        ensures most { self.now.capacity ≤ result }
    {
        self.agreed_max.unwrap_or(self.capacity)
    }

    /// Returns the greatest capacity that may be set.
    pub(super) fn greatest(&self) -> usize
        ensures exact { result ≡ greatest_capacity self.now.agreed_max }
        ensures most { result < 2 ^ 30 }
    {
        match self.agreed_max {
            None => GREATEST_CAPACITY,
            Some(most) => most.min(GREATEST_CAPACITY),
        }
    }

    /// Sets the capacity.
    pub(super) fn set(&mut self, capacity: usize)
        requires { capacity ≤ greatest_capacity self.old.agreed_max }
        ensures { self.new ≡ record self.old { capacity = capacity } }
    {
        self.capacity = capacity;
    }

    /// Agrees on a maximum capacity.
    pub(super) fn agree(&mut self, max: usize)
        requires { self.old.capacity ≤ max }
        ensures { self.new ≡ record self.old { agreed_max = Some max } }
    {
        self.agreed_max = Some(max);
    }
}
