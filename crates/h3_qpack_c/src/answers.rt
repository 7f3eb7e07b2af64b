//! What calls return beside a status.

ghost use Rattle.std.specs.Prelude.{◌≡◌};

/// The result of encoding.
#[repr(C)]
#[derive(Drop)]
pub struct Encoded {
    pub status: i32,
    /// How many bytes the section has.
    pub len: usize,
    /// Its required insert count, 0 if it references no entry.
    pub required: usize,
    /// The size of the list of fields in bytes (RFC 9114, section 4.2.2), at most 2^64 - 1.
    pub size: usize,
}

/// A status and a number of bytes.
#[repr(C)]
#[derive(Drop)]
pub struct Written {
    pub status: i32,
    pub len: usize,
}

/// The result of receiving bytes of a stream.
#[repr(C)]
#[derive(Drop)]
pub struct Received {
    pub status: i32,
    /// How many of the bytes were consumed.
    pub taken: usize,
    /// Where an instruction was rejected: its number on the stream, from 1, else 0.
    pub number: u64,
    /// And where it begins, in bytes from the stream's start.
    pub offset: u64,
}

/// The result of decoding.
#[repr(C)]
#[derive(Drop)]
pub struct Decoding {
    pub status: i32,
    /// How many fields there are.
    pub fields: usize,
    /// How many bytes their names and values have.
    pub len: usize,
    /// The required insert count of a section that was decoded or that waits.
    pub required: usize,
    /// Where a line was rejected: its number in the section, from 1, else 0.
    pub number: u64,
    /// And where it begins, in bytes from the section's start.
    pub offset: u64,
}

/// The result of reading a piece of a section.
#[repr(C)]
#[derive(Drop)]
pub struct Piece {
    pub status: i32,
    /// How many of the bytes were consumed.
    pub taken: usize,
    /// The required insert count, of a section that begins, waits or ends.
    pub required: usize,
    /// Where a line was rejected: its number in the section, from 1, else 0.
    pub number: u64,
    /// And where it begins, in bytes from the section's start.
    pub offset: u64,
}

/// The result of reading the prefix of a section.
#[repr(C)]
#[derive(Drop)]
pub struct Prefixed {
    pub status: i32,
    /// The required insert count, 0 if the section references no entry.
    pub required: usize,
    /// The base of its indexes.
    pub base: usize,
    /// How many bytes the prefix takes.
    pub len: usize,
}

/// The result for one field.
#[repr(C)]
#[derive(Drop)]
pub struct Given {
    pub status: i32,
    /// The lowest bit says that the field is never to be indexed.
    pub flags: u32,
    pub name: usize,
    pub value: usize,
}

/// The result of decoding without an end.
#[repr(C)]
#[derive(Drop)]
pub struct DecodedAlone {
    pub status: i32,
    /// How many fields there are.
    pub fields: usize,
    /// How many bytes their names and values have.
    pub len: usize,
    /// Where a line was rejected: its number in the section, from 1, else 0.
    pub number: u64,
    /// And where it begins, in bytes from the section's start.
    pub offset: u64,
}
