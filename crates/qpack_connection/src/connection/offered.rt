//! Which bytes of an instruction stream are passed to the end that receives it.

ghost use Rattle.std.specs.Prelude.{◌≡◌, take, drop};

/// Returns the bytes that come after those that were received, this many of them or all.
pub(super) fn next_of(stream: &[u8], received: usize, many: usize) -> &[u8]
    ensures { result.now ≡ take many (drop received stream.now) }
{
    let start = received.min(stream.len());
    let end = start.saturating_add(many).min(stream.len());
    &stream[start..end]
}
