//! Comparison of byte strings.

ghost use Rattle.std.specs.Prelude.{◌≡◌, ◌-◌, ◌<◌, length, take, drop};
ghost use Rattle.std.specs.Str.{bytes_eq};

/// Returns whether two byte strings are equal. Compares eight bytes at a time, which for short strings is faster than
/// `==` of slices, and the last eight first, in which most strings of one length differ.
pub fn same(a: &[u8], b: &[u8]) -> bool
    ensures { result ≡ bytes_eq a.now b.now }
{
    if a.len() != b.len() {
        return false;
    }
    let Some(x) = a.last_chunk::<8>() else {
        return same_short(a, b);
    };
    let Some(y) = b.last_chunk::<8>() else {
        return false;
    };
    if u64::from_le_bytes(*x) != u64::from_le_bytes(*y) {
        return false;
    }
    same_fronts(a, b)
}

/// Returns whether two strings of one length, whose last eight bytes are equal, are equal.
#[inline(always)]
fn same_fronts(a: &[u8], b: &[u8]) -> bool
    requires len { length a.now ≡ length b.now }
    requires last { drop (length a.now - 8) a.now ≡ drop (length a.now - 8) b.now }
    ensures { result ≡ bytes_eq a.now b.now }
{
    let mut left = a;
    let mut right = b;
    while let Some((x, behind)) = left.split_first_chunk::<8>() {
        let Some((y, beyond)) = right.split_first_chunk::<8>() else {
            return false;
        };
        if u64::from_le_bytes(*x) != u64::from_le_bytes(*y) {
            return false;
        }
        left = behind;
        right = beyond;
    }
    true
}

/// Returns whether two strings of one length below eight are equal: compares the first four bytes and the last four, or
/// each.
#[inline(always)]
fn same_short(a: &[u8], b: &[u8]) -> bool
    requires len { length a.now ≡ length b.now }
    requires short { length a.now < 8 }
    ensures { result ≡ bytes_eq a.now b.now }
{
    let Some(x) = a.first_chunk::<4>() else {
        return same_each(a, b);
    };
    let Some(y) = b.first_chunk::<4>() else {
        return false;
    };
    if u32::from_le_bytes(*x) != u32::from_le_bytes(*y) {
        return false;
    }
    same_last(a, b)
}

/// Returns whether two strings of one length, of four to seven bytes and with equal first four, are equal.
#[inline(always)]
fn same_last(a: &[u8], b: &[u8]) -> bool
    requires len { length a.now ≡ length b.now }
    requires short { length a.now < 8 }
    requires first { take 4 a.now ≡ take 4 b.now }
    ensures { result ≡ bytes_eq a.now b.now }
{
    let Some(x) = a.last_chunk::<4>() else {
        return same_each(a, b);
    };
    let Some(y) = b.last_chunk::<4>() else {
        return false;
    };
    u32::from_le_bytes(*x) == u32::from_le_bytes(*y)
}

/// Returns whether two strings of one length are equal, byte by byte.
#[inline(always)]
fn same_each(a: &[u8], b: &[u8]) -> bool
    requires { length a.now ≡ length b.now }
    ensures { result ≡ bytes_eq a.now b.now }
{
    for (i, x) in a.iter().enumerate() {
        if *x != b[i] {
            return false;
        }
    }
    true
}
