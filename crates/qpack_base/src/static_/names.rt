//! The names of the static table, each with its positions (RFC 9204, Appendix A). They are in three parts, since the
//! cost of a check grows faster than the references of a function.

ghost use Rattle.std.specs.Prelude.{◌≡◌, ◌^◌, [], slice_index_or};
ghost use Rattle.qpack_base.specs.StaticFields.{AreNamesOfLength, AreNamesBetween, names_at, name_rows_at};

/// A name and all its positions in the table, rising.
pub(super) type Name = (&'static [u8], &'static [u8]);

/// Returns the names of this length, each with all its positions, rising.
#[inline(always)]
pub(super) fn names_of_length(length: usize) -> &'static [Name]
    ensures { AreNamesOfLength length (names_at result.now) }
{
    if length < 9 {
        return names_in(short_names(), length);
    }
    if length < 16 {
        return names_in(middle_names(), length - 9);
    }
    names_in(long_names(), length - 16)
}

/// Returns the names in a row of a part, none if it has no such row.
#[inline(always)]
#[tactic(auto, using(crate::proofs::StaticNames::names_there, crate::proofs::StaticNames::no_names_past))]
fn names_in(rows: &'static [&'static [Name]], at: usize) -> &'static [Name]
    ensures { names_at result.now ≡ slice_index_or (name_rows_at rows.now) at [] }
{
    let Some(names) = rows.get(at) else {
        return &[];
    };
    names
}

/// Returns the names of fewer than 9 bytes, those of each length in a row.
fn short_names() -> &'static [&'static [Name]]
    ensures { AreNamesBetween 0 9 (name_rows_at result.now) }
{
    &SHORT
}

/// Returns the names of 9 to 15 bytes, those of each length in a row.
fn middle_names() -> &'static [&'static [Name]]
    ensures { AreNamesBetween 9 16 (name_rows_at result.now) }
{
    &MIDDLE
}

/// Returns the names of 16 bytes and more, those of each length in a row.
fn long_names() -> &'static [&'static [Name]]
    ensures { AreNamesBetween 16 (2 ^ 64) (name_rows_at result.now) }
{
    &LONG
}

static SHORT: [&[Name]; 9] = [
    // 0 bytes
    &[],
    // 1 bytes
    &[],
    // 2 bytes
    &[],
    // 3 bytes
    &[(b"age", &[2])],
    // 4 bytes
    &[
        (b"date", &[6]),
        (b"etag", &[7]),
        (b"link", &[11]),
        (b"vary", &[59, 60]),
    ],
    // 5 bytes
    &[(b":path", &[1]), (b"range", &[55])],
    // 6 bytes
    &[
        (b"accept", &[29, 30]),
        (b"cookie", &[5]),
        (b"origin", &[90]),
        (b"server", &[92]),
    ],
    // 7 bytes
    &[
        (b":method", &[15, 16, 17, 18, 19, 20, 21]),
        (b":scheme", &[22, 23]),
        (
            b":status",
            &[24, 25, 26, 27, 28, 63, 64, 65, 66, 67, 68, 69, 70, 71],
        ),
        (b"alt-svc", &[83]),
        (b"purpose", &[91]),
        (b"referer", &[13]),
    ],
    // 8 bytes
    &[(b"if-range", &[89]), (b"location", &[12])],
];

static MIDDLE: [&[Name]; 7] = [
    // 9 bytes
    &[(b"expect-ct", &[87]), (b"forwarded", &[88])],
    // 10 bytes
    &[
        (b":authority", &[0]),
        (b"early-data", &[86]),
        (b"set-cookie", &[14]),
        (b"user-agent", &[95]),
    ],
    // 11 bytes
    &[],
    // 12 bytes
    &[(
        b"content-type",
        &[44, 45, 46, 47, 48, 49, 50, 51, 52, 53, 54],
    )],
    // 13 bytes
    &[
        (b"accept-ranges", &[32]),
        (b"authorization", &[84]),
        (b"cache-control", &[36, 37, 38, 39, 40, 41]),
        (b"if-none-match", &[9]),
        (b"last-modified", &[10]),
    ],
    // 14 bytes
    &[(b"content-length", &[4])],
    // 15 bytes
    &[
        (b"accept-encoding", &[31]),
        (b"accept-language", &[72]),
        (b"x-forwarded-for", &[96]),
        (b"x-frame-options", &[97, 98]),
    ],
];

static LONG: [&[Name]; 17] = [
    // 16 bytes
    &[
        (b"content-encoding", &[42, 43]),
        (b"x-xss-protection", &[62]),
    ],
    // 17 bytes
    &[(b"if-modified-since", &[8])],
    // 18 bytes
    &[],
    // 19 bytes
    &[
        (b"content-disposition", &[3]),
        (b"timing-allow-origin", &[93]),
    ],
    // 20 bytes
    &[],
    // 21 bytes
    &[],
    // 22 bytes
    &[(b"x-content-type-options", &[61])],
    // 23 bytes
    &[(b"content-security-policy", &[85])],
    // 24 bytes
    &[],
    // 25 bytes
    &[
        (b"strict-transport-security", &[56, 57, 58]),
        (b"upgrade-insecure-requests", &[94]),
    ],
    // 26 bytes
    &[],
    // 27 bytes
    &[(b"access-control-allow-origin", &[35])],
    // 28 bytes
    &[
        (b"access-control-allow-headers", &[33, 34, 75]),
        (b"access-control-allow-methods", &[76, 77, 78]),
    ],
    // 29 bytes
    &[
        (b"access-control-expose-headers", &[79]),
        (b"access-control-request-method", &[81, 82]),
    ],
    // 30 bytes
    &[(b"access-control-request-headers", &[80])],
    // 31 bytes
    &[],
    // 32 bytes
    &[(b"access-control-allow-credentials", &[73, 74])],
];
