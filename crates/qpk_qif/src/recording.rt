//! Recordings of the offline interop format: 8 bytes of a stream's number and 4 of a length, each with the most
//! significant byte first, and that many bytes.

ghost use Rattle.std.specs.Prelude.{◌≡◌, ◌++◌, ◌<◌, ◌^◌, OnOk, IfSome, length};
ghost use Rattle.qpk_qif.specs.Records.{written_record, CutsRecord};

use std::alloc::AllocError;

/// A record.
#[derive(Clone, Copy, Debug, PartialEq, Drop)]
pub struct Record<'a> {
    /// The stream; 0 is the encoder stream.
    pub stream: u64,
    /// The bytes.
    pub bytes: &'a [u8],
}

/// Returns the first record, and the input after it; `None` if there is no whole one.
pub fn split_record(input: &[u8]) -> Option<(Record<'_>, &[u8])>
    // What it returns is at the front.
    ensures found { IfSome result (λ r. input.now ≡ written_record r.0.stream r.0.bytes.now ++ r.1.now) }
    // It returns a record that is at the front.
    ensures only { CutsRecord input.now result }
    ensures shorter { IfSome result (λ r. length r.1.now < length input.now) }
{
    let (stream, rest) = input.split_first_chunk::<8>()?;
    let (size, rest) = rest.split_first_chunk::<4>()?;
    let size = u32::from_be_bytes(*size) as usize;
    if rest.len() < size {
        return None;
    }
    let (bytes, rest) = rest.split_at(size);
    let stream = u64::from_be_bytes(*stream);
    Some((Record { stream, bytes }, rest))
}

/// Appends a record. On error a part of it may remain.
pub fn push_record(out: &mut Vec<u8>, stream: u64, bytes: &[u8]) -> Result<(), AllocError>
    requires { length bytes.now < 2 ^ 32 }
    ensures { OnOk result (out.new.items ≡ out.old.items ++ written_record stream bytes.now) }
{
    out.extend_from_slice(&stream.to_be_bytes())?;
    out.extend_from_slice(&(bytes.len() as u32).to_be_bytes())?;
    out.extend_from_slice(bytes)?;
    Ok(())
}
