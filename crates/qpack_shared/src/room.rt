//! The memory of a vector that is empty.

ghost use Rattle.std.specs.Prelude.{◌≡◌, ◌≤◌, [], vec_capacity};

/// Gives back the memory of an empty vector that has room for more than `most` elements; any other keeps its memory.
pub fn shrink_within<T>(vec: &mut Vec<T>, most: usize)
    requires { vec.old.items ≡ [] }
    ensures items { vec.new.items ≡ [] }
    ensures room { vec_capacity vec.new ≤ most }
    ensures kept { vec_capacity vec.old ≤ most → vec_capacity vec.new ≡ vec_capacity vec.old }
{
    if vec.capacity() > most {
        vec.shrink_to_fit();
    }
}
