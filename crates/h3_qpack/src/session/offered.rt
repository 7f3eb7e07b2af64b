//! Which bytes of a stream are delivered, and passed to the end that reads it.

ghost use Rattle.std.specs.Prelude.{◌≡◌, ◌+◌, ◌≤◌, length, take, drop, min};

/// Returns how much of a stream of this length is delivered when this many more bytes come.
pub(super) fn delivered_after(delivered: usize, count: usize, len: usize) -> usize
    ensures { result ≡ min (delivered + count) len }
{
    delivered.saturating_add(count).min(len)
}

/// Returns the delivered bytes after those that were consumed.
pub(super) fn offered(stream: &[u8], taken: usize, delivered: usize) -> &[u8]
    requires order { taken ≤ delivered }
    requires within { delivered ≤ length stream.now }
    ensures { result.now ≡ drop taken (take delivered stream.now) }
{
    &stream[taken..delivered]
}
