//! The hashes of fields and of names, under a seed. How well they spread is not promised: a bad one costs time.

ghost use Rattle.std.specs.Prelude.{◌≡◌};
ghost use Rattle.qpack_base.specs.HeaderFields.{line_of};
ghost use Rattle.qpack_table.specs.Hashes.{bytes_hash, name_hash, field_hash, start_of, factor_of, length_under};
ghost use Rattle.qpack_table.specs.Hashes.{words_hash, piece_hash, rest_hash, short_hash, few_bytes, folded_product};
ghost use Rattle.qpack_table.specs.Indexes.{AreSeededHashesOf};

use qpack_base::field::FieldLine;

/// Where a hash begins. Any number will do: this and the next are of `wyhash`.
const START: u64 = 0xA076_1D64_78BD_642F;

/// A factor of each product of a hash. A second key goes into this: if the factor is known, bytes can be chosen that
/// make the product 0 whatever came before them.
const FACTOR: u64 = 0xE703_7ED1_A0B4_28DB;

/// What makes the second key of a seed. If both keys were the seed, two words could be exchanged under every seed.
const SPREAD: u64 = 0x8EBC_6AF0_9C88_C6E3;

/// The low half of 128 bits.
const LOW_HALF: u128 = (1 << 64) - 1;

/// The hashes of a field under some seed.
#[derive(Debug, Clone, Copy)]
pub struct Hashes {
    /// Of its name.
    pub(in crate::dynamic) name: u32,
    /// Of its name and its value.
    pub(super) field: u32,
}

impl Hashes {
    /// Returns the hashes of a field under a seed. That of the field goes on from the name, which is hashed once.
    #[inline(always)]
    pub(super) fn of(seed: u64, field: &FieldLine<'_>) -> Hashes
        ensures name { result.name ≡ name_hash seed (line_of field.now).field.name }
        ensures field { result.field ≡ field_hash seed (line_of field.now).field }
    {
        let factor = factor_of(seed);
        let name = hash_bytes(factor, start_of(seed), field.name);
        let field = hash_bytes(factor, name, field.value);
        Hashes {
            name: (name >> 32) as u32,
            field: (field >> 32) as u32,
        }
    }

    /// Returns the hash of the name.
    pub fn name(self) -> u32
        ensures { result ≡ self.name }
    {
        self.name
    }

    /// Returns the hash of the field, its name and its value.
    pub fn field(self) -> u32
        ensures { result ≡ self.field }
    {
        self.field
    }
}

/// The hashes of a field, with the seed that they were computed under.
#[derive(Debug, Clone, Copy)]
pub struct SeededHashes {
    pub(super) seed: u64,
    pub(in crate::dynamic) hashes: Hashes,
}

impl SeededHashes {
    /// Returns the hashes of a field under a seed.
    #[inline(always)]
    pub(in crate::dynamic) fn of(seed: u64, field: &FieldLine<'_>) -> SeededHashes
        ensures seed { result.seed ≡ seed }
        ensures hashes { AreSeededHashesOf result (line_of field.now).field }
    {
        SeededHashes {
            seed,
            hashes: Hashes::of(seed, field),
        }
    }

    /// Returns the hashes of the field under a seed. It computes them only if these have another.
    #[inline(always)]
    pub(in crate::dynamic) fn reseeded(self, seed: u64, field: &FieldLine<'_>) -> SeededHashes
        requires { AreSeededHashesOf self (line_of field.now).field }
        ensures seed { result.seed ≡ seed }
        ensures hashes { AreSeededHashesOf result (line_of field.now).field }
    {
        if self.seed == seed {
            return self;
        }
        SeededHashes::of(seed, field)
    }

    /// Returns the hash of its name under a seed. It computes it only if this one has another.
    #[inline(always)]
    pub(in crate::dynamic) fn name_under(&self, seed: u64, name: &[u8]) -> u32
        requires { self.now.hashes.name ≡ name_hash self.now.seed name.now }
        ensures { result ≡ name_hash seed name.now }
    {
        if self.seed == seed {
            return self.hashes.name;
        }
        hash_name(seed, name)
    }
}

/// Returns the number that a hash begins with under a seed.
#[inline(always)]
fn start_of(seed: u64) -> u64
    ensures { result ≡ start_of seed }
{
    START ^ seed
}

/// Returns a factor of each product of a hash under a seed.
#[inline(always)]
fn factor_of(seed: u64) -> u64
    ensures { result ≡ factor_of seed }
{
    FACTOR ^ fold_product(seed, SPREAD)
}

/// Returns the number that a hash begins with for a number of bytes: its product with the second key. What is read of two
/// strings of different lengths may be the same, so a known number could be outweighed by a byte.
#[inline(always)]
fn length_under(factor: u64, len: usize) -> u64
    ensures { result ≡ length_under factor len }
{
    (len as u64).wrapping_mul((factor ^ FACTOR) | 1)
}

/// Returns the hash of a name under a seed.
pub(super) fn hash_name(seed: u64, name: &[u8]) -> u32
    ensures { result ≡ name_hash seed name.now }
{
    (hash_bytes(factor_of(seed), start_of(seed), name) >> 32) as u32
}

/// Continues a hash over bytes, 16 at a step.
fn hash_bytes(factor: u64, start: u64, bytes: &[u8]) -> u64
    ensures { result ≡ bytes_hash factor start bytes.now }
{
    let mut hash = start ^ length_under(factor, bytes.len());
    let mut rest = bytes;
    while let Some((piece, more)) = rest.split_first_chunk::<16>() {
        hash = hash_piece(factor, hash, *piece);
        rest = more;
    }
    hash_rest(factor, hash, rest)
}

/// Continues a hash over 16 bytes.
fn hash_piece(factor: u64, hash: u64, piece: [u8; 16]) -> u64
    ensures { result ≡ piece_hash factor hash piece }
{
    let word = u128::from_le_bytes(piece);
    hash_words(factor, hash, (word & LOW_HALF) as u64, (word >> 64) as u64)
}

/// Ends a hash with fewer than 16 bytes: the first and the last eight, which may overlap.
fn hash_rest(factor: u64, hash: u64, rest: &[u8]) -> u64
    ensures { result ≡ rest_hash factor hash rest.now }
{
    let Some((first, _)) = rest.split_first_chunk::<8>() else {
        return hash_short(factor, hash, rest);
    };
    let Some((_, last)) = rest.split_last_chunk::<8>() else {
        unreachable!()
    };
    hash_words(
        factor,
        hash,
        u64::from_le_bytes(*first),
        u64::from_le_bytes(*last),
    )
}

/// Ends a hash with fewer than eight bytes: the first and the last four, which may overlap, or all.
fn hash_short(factor: u64, hash: u64, rest: &[u8]) -> u64
    ensures { result ≡ short_hash factor hash rest.now }
{
    let Some((first, _)) = rest.split_first_chunk::<4>() else {
        return hash_words(factor, hash, few_bytes(rest), 0);
    };
    let Some((_, last)) = rest.split_last_chunk::<4>() else {
        unreachable!()
    };
    let low = u32::from_le_bytes(*first);
    let high = u32::from_le_bytes(*last);
    hash_words(factor, hash, u64::from(low), u64::from(high))
}

/// Returns the number that a few bytes are, the greatest first.
fn few_bytes(bytes: &[u8]) -> u64
    ensures { result ≡ few_bytes bytes.now }
{
    let mut word = 0_u64;
    for byte in bytes {
        word = word.wrapping_mul(256).wrapping_add(u64::from(*byte));
    }
    word
}

/// Continues a hash over two words.
fn hash_words(factor: u64, hash: u64, low: u64, high: u64) -> u64
    ensures { result ≡ words_hash factor hash low high }
{
    fold_product(hash ^ low, factor ^ high)
}

/// Returns both halves of a product, in one number.
fn fold_product(a: u64, b: u64) -> u64
    ensures { result ≡ folded_product a b }
{
    let product = u128::from(a) * u128::from(b);
    (product & LOW_HALF) as u64 ^ (product >> 64) as u64
}
