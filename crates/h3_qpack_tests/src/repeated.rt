//! An iterator of fields that is none of std's.

use h3_qpack::HeaderField;

/// A field, given this many times.
#[derive(Drop)]
pub(crate) struct Repeated<'a> {
    pub(crate) field: &'a HeaderField,
    pub(crate) left: usize,
}

impl<'a> Iterator for Repeated<'a> {
    ghost use Rattle.std.specs.Iterator.{at_most};

    type Item = &'a HeaderField;

    ghost remaining = { λ s. at_most s.left };

    fn next(&mut self) -> Option<&'a HeaderField> {
        if self.left == 0 {
            return None;
        }
        self.left -= 1;
        Some(self.field)
    }
}
