//! The positions of a table's entries, and the indexes that name them (RFC 9204, sections 3.2.4 to 3.2.6).

use h3_qpack::vas::VirtualAddressSpace;
use qpack_testing::cases::{Call, Subject};

/// A space of entries that were added, of which the oldest were dropped.
#[derive(Drop)]
pub(crate) struct Positions {
    space: VirtualAddressSpace,
}

impl Subject for Positions {
    fn begin(_call: &mut Call<'_>, _size: usize) -> Option<Positions> {
        Some(Positions {
            space: VirtualAddressSpace::default(),
        })
    }

    fn make(&mut self, word: &str, call: &mut Call<'_>) {
        if word == "moves" {
            let (added, dropped) = (call.count(), call.count());
            move_on(&mut self.space, added, dropped);
            let word = call.word();
            show(word, call, &self.space);
        } else {
            show(word, call, &self.space);
        }
    }
}

/// Adds entries to a space, and drops the oldest.
fn move_on(space: &mut VirtualAddressSpace, added: usize, dropped: usize) {
    for _ in 0..added {
        if space.total_inserted() < 1 << 62 {
            space.add();
        }
    }
    for _ in 0..dropped {
        if space.largest_ref() > 0 {
            space.drop();
        }
    }
}

/// Appends what a space says of an index, or how many of its entries are live.
fn show(word: &str, call: &mut Call<'_>, space: &VirtualAddressSpace) {
    match word {
        "live" => call.show(&space.largest_ref()),
        "first" | "last" => show_under_total(word, call, space),
        "relative-under" => {
            let (base, index) = (call.count(), call.count());
            call.show_value(&space.relative_base(base, index));
        }
        "post-base" => {
            let (base, index) = (call.count(), call.count());
            call.show_value(&space.post_base(base, index));
        }
        _ => show_index(word, call.count(), call, space),
    }
}

/// Appends the position of the first entry ever added, or of the last, under a base that is how many were added.
fn show_under_total(word: &str, call: &mut Call<'_>, space: &VirtualAddressSpace) {
    let total = space.total_inserted();
    let index = match word {
        "first" => total.saturating_sub(1),
        _ => 0,
    };
    call.show_value(&space.relative_base(total, index));
}

/// Appends what a space says of an index alone.
fn show_index(word: &str, index: usize, call: &mut Call<'_>, space: &VirtualAddressSpace) {
    match word {
        "relative" => call.show_value(&space.relative(index)),
        "index" => call.show_value(&space.index(index)),
        "evicted" => call.show(&space.evicted(index)),
        _ => call.fail("there is no such call"),
    }
}
