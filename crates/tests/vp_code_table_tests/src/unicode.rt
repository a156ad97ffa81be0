//! UTF-8 and UTF-16: the examples of The Unicode Standard, 3.9, and the corners of its tables.
use crate::checks::{Row, each_is};
use vp_code_tables::{ByteOrder, Encoding};

static UTF8: [Row; 23] = [
    (b"", &[]),
    (b"A\x7f", &[(Some(0x41), 1), (Some(0x7f), 1)]),
    // the first and the last of each length
    (b"\xc2\x80\xdf\xbf", &[(Some(0x80), 2), (Some(0x7ff), 2)]),
    (
        b"\xe0\xa0\x80\xef\xbf\xbf",
        &[(Some(0x800), 3), (Some(0xffff), 3)],
    ),
    (
        b"\xf0\x90\x80\x80\xf4\x8f\xbf\xbf",
        &[(Some(0x10000), 4), (Some(0x10ffff), 4)],
    ),
    // around the surrogates
    (
        b"\xed\x9f\xbf\xee\x80\x80",
        &[(Some(0xd7ff), 3), (Some(0xe000), 3)],
    ),
    // the standard's example of the encoding forms (table 3-4)
    (
        b"\x4d\xd0\xb0\xe4\xba\x8c\xf0\x90\x8c\x82",
        &[
            (Some(0x4d), 1),
            (Some(0x430), 2),
            (Some(0x4e8c), 3),
            (Some(0x10302), 4),
        ],
    ),
    // forms that aren't the shortest (table 3-8)
    (
        b"\xc0\xaf\xe0\x80\xbf\xf0\x81\x82A",
        &[
            (None, 1),
            (None, 1),
            (None, 1),
            (None, 1),
            (None, 1),
            (None, 1),
            (None, 1),
            (None, 1),
            (Some(0x41), 1),
        ],
    ),
    // surrogates (table 3-9)
    (
        b"\xed\xa0\x80\xed\xbf\xbf\xed\xafA",
        &[
            (None, 1),
            (None, 1),
            (None, 1),
            (None, 1),
            (None, 1),
            (None, 1),
            (None, 1),
            (None, 1),
            (Some(0x41), 1),
        ],
    ),
    // beyond the last code point, and bytes that none begins with (table 3-10)
    (
        b"\xf4\x91\x92\x93\xffA\x80\xbfB",
        &[
            (None, 1),
            (None, 1),
            (None, 1),
            (None, 1),
            (None, 1),
            (Some(0x41), 1),
            (None, 1),
            (None, 1),
            (Some(0x42), 1),
        ],
    ),
    // sequences that are cut (table 3-11)
    (
        b"\xe1\x80\xe2\xf0\x91\x92\xf1\xbfA",
        &[(None, 2), (None, 1), (None, 3), (None, 2), (Some(0x41), 1)],
    ),
    // cut by the end
    (b"\xc3", &[(None, 1)]),
    (b"\xe2\x82", &[(None, 2)]),
    (b"\xf0\x9f\x98", &[(None, 3)]),
    // the second byte's own ranges, a byte below and above
    (b"\xe0\x9f\x80", &[(None, 1), (None, 1), (None, 1)]),
    (b"\xed\xa0", &[(None, 1), (None, 1)]),
    (b"\xf0\x8f", &[(None, 1), (None, 1)]),
    (b"\xf4\x90", &[(None, 1), (None, 1)]),
    (
        b"\xc1\xbf\xf5\x80",
        &[(None, 1), (None, 1), (None, 1), (None, 1)],
    ),
    (b"\xe1\x7f\x80", &[(None, 1), (Some(0x7f), 1), (None, 1)]),
    (b"\xe1\xbf\xc0", &[(None, 2), (None, 1)]),
    // one is cut by the first byte of another
    (b"\xe2\x82\xe2\x82\xac", &[(None, 2), (Some(0x20ac), 3)]),
    (
        b"\xf0\x9f\x98\xf0\x9f\x98\x80",
        &[(None, 3), (Some(0x1f600), 4)],
    ),
];

static HIGH_FIRST: [Row; 7] = [
    (
        b"\0\x4d\x04\x30\x4e\x8c\xd8\0\xdf\x02",
        &[
            (Some(0x4d), 2),
            (Some(0x430), 2),
            (Some(0x4e8c), 2),
            (Some(0x10302), 4),
        ],
    ),
    (
        b"\xd7\xff\xe0\0\xff\xff",
        &[(Some(0xd7ff), 2), (Some(0xe000), 2), (Some(0xffff), 2)],
    ),
    (
        b"\xd8\0\xdc\0\xdb\xff\xdf\xff",
        &[(Some(0x10000), 4), (Some(0x10ffff), 4)],
    ),
    // surrogates alone
    (b"\xdc\0\0A", &[(None, 2), (Some(0x41), 2)]),
    (b"\xd8\0\0A", &[(None, 2), (Some(0x41), 2)]),
    (
        b"\xd8\0\xd8\0\xdc\0\xdb\xff",
        &[(None, 2), (Some(0x10000), 4), (None, 2)],
    ),
    (b"\xd8\0\xdc", &[(None, 2), (None, 1)]),
];

static LOW_FIRST: [Row; 4] = [
    (
        b"\x4d\0\x30\x04\x8c\x4e\0\xd8\x02\xdf",
        &[
            (Some(0x4d), 2),
            (Some(0x430), 2),
            (Some(0x4e8c), 2),
            (Some(0x10302), 4),
        ],
    ),
    (b"\0\xd8A\0", &[(None, 2), (Some(0x41), 2)]),
    (b"\0\xdc\0\xd8", &[(None, 2), (None, 2)]),
    (b"A\0B", &[(Some(0x41), 2), (None, 1)]),
];

#[test]
fn utf8(rt: HostRuntime) {
    each_is(&rt, Encoding::Utf8, &UTF8);
}

#[test]
fn utf16(rt: HostRuntime) {
    each_is(&rt, Encoding::Utf16(ByteOrder::HighFirst), &HIGH_FIRST);
    each_is(&rt, Encoding::Utf16(ByteOrder::LowFirst), &LOW_FIRST);
}
