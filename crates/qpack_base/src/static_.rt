//! The static table (RFC 9204, Appendix A).

ghost use Rattle.std.specs.Prelude.{◌≡◌, ◌<◌, ◌≤◌, IfOk, IfErr, IfSome, IfNone, IsSome, Some, drop, find, length};
ghost use Rattle.std.specs.Prelude.{option_copied, slice_get, take};
ghost use Rattle.std.specs.Str.{bytes_eq};
ghost use Rattle.std.specs.Option.{option_map};
ghost use Rattle.qpack_spec.specs.StaticTable.{field, static_table, static_index, static_name_index, IsStaticAt};
ghost use Rattle.qpack_spec.specs.StaticTable.{IsLeastStatic, NoStatic};
ghost use Rattle.qpack_base.specs.HeaderFields.{field_of, line_of};
ghost use Rattle.qpack_base.specs.StaticFields.{match_of, indexes_with_name, has_value_at, field_of_row, fields_at};
ghost use Rattle.qpack_base.specs.declared.static_.Error.TheVariants.{Unknown};

use crate::bytes::same;
use crate::field::{FieldLine, HeaderField};
use names::{Name, names_of_length};
use std::borrow::CowSlice;
use thiserror::Error as ThisError;

mod names;

/// Why the static table has no such field.
#[derive(Clone, Copy, Debug, PartialEq, Drop, ThisError)]
pub enum Error {
    /// No field has this index.
    #[error("unknown static index {0}")]
    Unknown(usize),
}

/// What the static table has of a field.
#[derive(Clone, Copy, Debug, PartialEq, Eq)]
pub enum StaticMatch {
    /// The field, at this index.
    Field(usize),
    /// A field with its name and another value, the first of which has this index.
    Name(usize),
}

/// The 99 fields that both ends know from the start.
pub struct StaticTable;

impl StaticTable {
    /// Returns the field at an index, from 0 to 98, borrowed for 'static.
    pub fn get(index: usize) -> Result<HeaderField, Error>
        ensures found { IfOk result (λ field. IsStaticAt index (field_of field)) }
        ensures unknown { IfErr result (λ e. (e ≡ Unknown index) × (length static_table ≤ index)) }
    {
        let (name, value) = row(index)?;
        Ok(HeaderField {
            name: CowSlice::Borrowed(name),
            value: CowSlice::Borrowed(value),
        })
    }

    /// Returns the name of the field at an index, from 0 to 98.
    pub fn name(index: usize) -> Result<&'static [u8], Error>
        ensures found { IfOk result (λ name.
            Some name.now ≡ option_map (λ f. f.name) (slice_get static_table index)) }
        ensures unknown { IfErr result (λ e. (e ≡ Unknown index) × (length static_table ≤ index)) }
    {
        Ok(row(index)?.0)
    }

    /// Returns the name of the field at an index that is known to be in the table.
    #[inline(always)]
    #[tactic(auto, using(crate::proofs::StaticRows::row_below))]
    pub(crate) fn known_name(index: usize) -> &'static [u8]
        requires { IsSome (slice_get static_table index) }
        ensures { Some result.now ≡ option_map (λ f. f.name) (slice_get static_table index) }
    {
        known_row(index).0
    }

    /// Returns the equal field, or else the first one with the name, in one search.
    #[inline(always)]
    pub fn lookup(name: &[u8], value: &[u8]) -> Option<StaticMatch>
        ensures { result ≡ match_of (static_index (field name.now value.now)) (static_name_index name.now) }
    {
        let indexes = indexes_of(name);
        match (index_of_value(indexes, value), indexes.first()) {
            (Some(index), _) => Some(StaticMatch::Field(index)),
            (None, Some(index)) => Some(StaticMatch::Name(usize::from(*index))),
            (None, None) => None,
        }
    }

    /// Returns the index of the equal field.
    pub fn find(field: &HeaderField) -> Option<usize>
        ensures found { IfSome result (IsLeastStatic (λ f. f ≡ field_of field.now)) }
        ensures none { IfNone result (NoStatic (λ f. f ≡ field_of field.now)) }
        ensures exact { result ≡ static_index (field_of field.now) }
    {
        StaticTable::find_line(&field.as_line())
    }

    /// Returns the index of a borrowed field, as `find` does.
    pub fn find_line(field: &FieldLine<'_>) -> Option<usize>
        ensures { result ≡ static_index (line_of field.now).field }
    {
        index_of_value(indexes_of(field.name), field.value)
    }

    /// Returns the least index of a field with the name.
    pub fn find_name(name: &[u8]) -> Option<usize>
        ensures found { IfSome result (IsLeastStatic (λ f. f.name ≡ name.now)) }
        ensures none { IfNone result (NoStatic (λ f. f.name ≡ name.now)) }
        ensures exact { result ≡ static_name_index name.now }
    {
        indexes_of(name).first().copied().map(usize::from)
    }
}

/// Returns all indexes with this name, rising.
fn indexes_of(name: &[u8]) -> &'static [u8]
    ensures { result.now ≡ indexes_with_name name.now }
{
    let Some(entry) = entry_of(names_of_length(name.len()), name) else {
        return &[];
    };
    entry.1
}

/// Returns the entry with this name.
fn entry_of(names: &'static [Name], name: &[u8]) -> Option<&'static Name>
    ensures { option_copied result ≡ find (λ e. bytes_eq name.now e.0.now) names.now }
{
    names.iter().find(|entry| same(name, entry.0))
}

/// Returns the first of the indexes whose field has this value.
#[inline(always)]
fn index_of_value(indexes: &[u8], value: &[u8]) -> Option<usize>
    ensures { result ≡ find (λ index. has_value_at value.now index) indexes.now }
{
    indexes
        .iter()
        .copied()
        .map(usize::from)
        .find(|&index| has_value(index, value))
}

/// Returns whether the field at the index has this value.
#[inline(always)]
fn has_value(index: usize, value: &[u8]) -> bool
    ensures { result ≡ has_value_at value.now index }
{
    row(index).is_ok_and(|row| is_value(value, row.1))
}

/// Returns whether two values are equal. Most differ in length; the comparison of bytes is a call of its own, so that a
/// search for a value stays inlined.
#[inline(always)]
fn is_value(value: &[u8], known: &[u8]) -> bool
    ensures { result ≡ bytes_eq value.now known.now }
{
    if value.len() != known.len() {
        return false;
    }
    same_bytes(value, known)
}

/// Returns whether two values of one length are equal.
#[inline(never)]
fn same_bytes(value: &[u8], known: &[u8]) -> bool
    ensures { result ≡ bytes_eq value.now known.now }
{
    same(value, known)
}

/// How many fields there are.
const LEN: usize = 99;

/// A name and a value.
type Row = (&'static [u8], &'static [u8]);

/// Returns the row at an index.
fn row(index: usize) -> Result<Row, Error>
    ensures found { IfOk result (λ row. IsStaticAt index (field_of_row row)) }
    ensures unknown { IfErr result (λ e. (e ≡ Unknown index) × (length static_table ≤ index)) }
{
    if index < LEN {
        Ok(known_row(index))
    } else {
        Err(Error::Unknown(index))
    }
}

/// Returns the row at an index that is known to be in the table. The rows are in four parts, since the cost of a check
/// grows faster than the references of a function.
fn known_row(index: usize) -> Row
    requires { index < 99 }
    ensures { IsStaticAt index (field_of_row result) }
{
    if index < 25 {
        return rows_from_0()[index];
    }
    if index < 50 {
        return rows_from_25()[index - 25];
    }
    if index < 75 {
        return rows_from_50()[index - 50];
    }
    rows_from_75()[index - 75]
}

/// Returns the rows 0 to 24.
#[tactic(auto, unfolding(qpack_spec::specs::StaticTable::static_table))]
fn rows_from_0() -> &'static [Row; 25]
    ensures { fields_at result.now ≡ take 25 (drop 0 static_table) }
{
    &FROM_0
}

/// Returns the rows 25 to 49.
#[tactic(auto, unfolding(qpack_spec::specs::StaticTable::static_table))]
fn rows_from_25() -> &'static [Row; 25]
    ensures { fields_at result.now ≡ take 25 (drop 25 static_table) }
{
    &FROM_25
}

/// Returns the rows 50 to 74.
#[tactic(auto, unfolding(qpack_spec::specs::StaticTable::static_table))]
fn rows_from_50() -> &'static [Row; 25]
    ensures { fields_at result.now ≡ take 25 (drop 50 static_table) }
{
    &FROM_50
}

/// Returns the rows 75 to 98.
#[tactic(auto, unfolding(qpack_spec::specs::StaticTable::static_table))]
fn rows_from_75() -> &'static [Row; 24]
    ensures { fields_at result.now ≡ take 24 (drop 75 static_table) }
{
    &FROM_75
}

static FROM_0: [Row; 25] = [
    (b":authority", b""), // 0
    (b":path", b"/"), // 1
    (b"age", b"0"), // 2
    (b"content-disposition", b""), // 3
    (b"content-length", b"0"), // 4
    (b"cookie", b""), // 5
    (b"date", b""), // 6
    (b"etag", b""), // 7
    (b"if-modified-since", b""), // 8
    (b"if-none-match", b""), // 9
    (b"last-modified", b""), // 10
    (b"link", b""), // 11
    (b"location", b""), // 12
    (b"referer", b""), // 13
    (b"set-cookie", b""), // 14
    (b":method", b"CONNECT"), // 15
    (b":method", b"DELETE"), // 16
    (b":method", b"GET"), // 17
    (b":method", b"HEAD"), // 18
    (b":method", b"OPTIONS"), // 19
    (b":method", b"POST"), // 20
    (b":method", b"PUT"), // 21
    (b":scheme", b"http"), // 22
    (b":scheme", b"https"), // 23
    (b":status", b"103"), // 24
];

static FROM_25: [Row; 25] = [
    (b":status", b"200"), // 25
    (b":status", b"304"), // 26
    (b":status", b"404"), // 27
    (b":status", b"503"), // 28
    (b"accept", b"*/*"), // 29
    (b"accept", b"application/dns-message"), // 30
    (b"accept-encoding", b"gzip, deflate, br"), // 31
    (b"accept-ranges", b"bytes"), // 32
    (b"access-control-allow-headers", b"cache-control"), // 33
    (b"access-control-allow-headers", b"content-type"), // 34
    (b"access-control-allow-origin", b"*"), // 35
    (b"cache-control", b"max-age=0"), // 36
    (b"cache-control", b"max-age=2592000"), // 37
    (b"cache-control", b"max-age=604800"), // 38
    (b"cache-control", b"no-cache"), // 39
    (b"cache-control", b"no-store"), // 40
    (b"cache-control", b"public, max-age=31536000"), // 41
    (b"content-encoding", b"br"), // 42
    (b"content-encoding", b"gzip"), // 43
    (b"content-type", b"application/dns-message"), // 44
    (b"content-type", b"application/javascript"), // 45
    (b"content-type", b"application/json"), // 46
    (b"content-type", b"application/x-www-form-urlencoded"), // 47
    (b"content-type", b"image/gif"), // 48
    (b"content-type", b"image/jpeg"), // 49
];

static FROM_50: [Row; 25] = [
    (b"content-type", b"image/png"), // 50
    (b"content-type", b"text/css"), // 51
    (b"content-type", b"text/html; charset=utf-8"), // 52
    (b"content-type", b"text/plain"), // 53
    (b"content-type", b"text/plain;charset=utf-8"), // 54
    (b"range", b"bytes=0-"), // 55
    (b"strict-transport-security", b"max-age=31536000"), // 56
    (
        b"strict-transport-security",
        b"max-age=31536000; includesubdomains",
    ), // 57
    (
        b"strict-transport-security",
        b"max-age=31536000; includesubdomains; preload",
    ), // 58
    (b"vary", b"accept-encoding"), // 59
    (b"vary", b"origin"), // 60
    (b"x-content-type-options", b"nosniff"), // 61
    (b"x-xss-protection", b"1; mode=block"), // 62
    (b":status", b"100"), // 63
    (b":status", b"204"), // 64
    (b":status", b"206"), // 65
    (b":status", b"302"), // 66
    (b":status", b"400"), // 67
    (b":status", b"403"), // 68
    (b":status", b"421"), // 69
    (b":status", b"425"), // 70
    (b":status", b"500"), // 71
    (b"accept-language", b""), // 72
    (b"access-control-allow-credentials", b"FALSE"), // 73
    (b"access-control-allow-credentials", b"TRUE"), // 74
];

static FROM_75: [Row; 24] = [
    (b"access-control-allow-headers", b"*"), // 75
    (b"access-control-allow-methods", b"get"), // 76
    (b"access-control-allow-methods", b"get, post, options"), // 77
    (b"access-control-allow-methods", b"options"), // 78
    (b"access-control-expose-headers", b"content-length"), // 79
    (b"access-control-request-headers", b"content-type"), // 80
    (b"access-control-request-method", b"get"), // 81
    (b"access-control-request-method", b"post"), // 82
    (b"alt-svc", b"clear"), // 83
    (b"authorization", b""), // 84
    (
        b"content-security-policy",
        b"script-src 'none'; object-src 'none'; base-uri 'none'",
    ), // 85
    (b"early-data", b"1"), // 86
    (b"expect-ct", b""), // 87
    (b"forwarded", b""), // 88
    (b"if-range", b""), // 89
    (b"origin", b""), // 90
    (b"purpose", b"prefetch"), // 91
    (b"server", b""), // 92
    (b"timing-allow-origin", b"*"), // 93
    (b"upgrade-insecure-requests", b"1"), // 94
    (b"user-agent", b""), // 95
    (b"x-forwarded-for", b""), // 96
    (b"x-frame-options", b"deny"), // 97
    (b"x-frame-options", b"sameorigin"), // 98
];
