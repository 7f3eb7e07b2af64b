//! What a decoding end writes to its stream: acknowledgments, cancellations and increments (RFC 9204, section 4.4).

ghost use Rattle.std.specs.Prelude.{◌≡◌, ◌<◌, ◌^◌, length, OnErr};
ghost use Rattle.qpack_spec.specs.Instruction.{Acknowledgment, Cancellation, written_decoder_instruction};
ghost use Rattle.qpack_codec.specs.Receiving.{written_report};
ghost use Rattle.qpack_shared.specs.Unsent.{Appends};

use qpack_base::coding::NoMemory;
use qpack_codec::decoder::{self, ack_header, stream_canceled};
use qpack_shared::unsent::Unsent;

/// Appends the acknowledgment of a section of this stream. On error the bytes are unchanged. It asks for memory
/// only if there is no room for it.
pub(crate) fn write_acknowledgment(unsent: &mut Unsent, stream: u64) -> Result<(), NoMemory>
    ensures { Appends (written_decoder_instruction (Acknowledgment stream)) unsent.old unsent.new result }
{
    ack_header(stream, &mut unsent.bytes)
}

/// Appends the cancellation of this stream. On error the bytes are unchanged. It asks for memory only if there is
/// no room for it.
pub(crate) fn write_cancellation(unsent: &mut Unsent, stream: u64) -> Result<(), NoMemory>
    ensures { Appends (written_decoder_instruction (Cancellation stream)) unsent.old unsent.new result }
{
    stream_canceled(stream, &mut unsent.bytes)
}

/// Appends increments that report this many insertions. On error the bytes are unchanged. It asks for memory only
/// if there is no room for them.
pub(crate) fn write_increments(unsent: &mut Unsent, insertions: usize) -> Result<(), NoMemory>
    ensures appends { Appends (written_report insertions) unsent.old unsent.new result }
    ensures memory { OnErr result (0 < insertions) }
{
    decoder::write_increments(insertions, &mut unsent.bytes)
}

/// Returns how many bytes the increments take that report this many insertions: one for each piece below 63, and two for
/// those of 63 and 64 (RFC 9204, section 4.4.3).
pub(crate) fn report_len(insertions: usize) -> usize
    ensures is { result ≡ length (written_report insertions) }
    ensures few { result < 2 ^ 63 }
{
    let full = 2 * (insertions / 64);
    let rest = insertions % 64;
    if rest == 0 {
        full
    } else if rest < 63 {
        full + 1
    } else {
        full + 2
    }
}
