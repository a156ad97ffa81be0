//! Bytes of code tables: their corners, holes, and national sets.
use crate::checks::{Row, each_is};
use vp_code_tables::{CodeTable, Country, Encoding, LabelSet, NationalSet};

static CP437: [Row; 1] = [(
    b"\0A~\x80\xe1\xff",
    &[
        (Some(0), 1),
        (Some(0x41), 1),
        (Some(0x7e), 1),
        (Some(0xc7), 1),
        (Some(0xdf), 1),
        (Some(0xa0), 1),
    ],
)];

static CP1252: [Row; 1] = [(
    b"\x80\x81\x9f\xff",
    &[
        (Some(0x20ac), 1),
        (None, 1),
        (Some(0x178), 1),
        (Some(0xff), 1),
    ],
)];

static CP851: [Row; 1] = [(
    b"\xb6\xb7\xb8\xbd\xf7",
    &[
        (Some(0x39b), 1),
        (Some(0x39c), 1),
        (Some(0x39d), 1),
        (Some(0x39e), 1),
        (Some(0xb8), 1),
    ],
)];

static CP864: [Row; 1] = [(
    b"%\xa6\xc7",
    &[(Some(0x25), 1), (None, 1), (Some(0xfe8d), 1)],
)];

static KATAKANA: [Row; 1] = [(
    b"\\\xa0\xb1\xdf\xf1\xff",
    &[
        (Some(0xa5), 1),
        (None, 1),
        (Some(0xff71), 1),
        (Some(0xff9f), 1),
        (Some(0x5186), 1),
        (None, 1),
    ],
)];

static GERMANY: [Row; 1] = [(
    b"@[{~a\x15",
    &[
        (Some(0xa7), 1),
        (Some(0xc4), 1),
        (Some(0xe4), 1),
        (Some(0xdf), 1),
        (Some(0x61), 1),
        (Some(0x15), 1),
    ],
)];

static LABEL: [Row; 1] = [(
    b"\\\x15\xd5$",
    &[
        (Some(0xa2), 1),
        (Some(0x20ac), 1),
        (Some(0x131), 1),
        (Some(0x24), 1),
    ],
)];

/// A code table with a country's set.
fn with(table: CodeTable, country: Country) -> Encoding {
    Encoding::Bytes(table, NationalSet::Country(country))
}

#[test]
fn tables(rt: HostRuntime) {
    each_is(&rt, with(CodeTable::Cp437, Country::Usa), &CP437);
    each_is(&rt, with(CodeTable::Cp1252, Country::Usa), &CP1252);
    each_is(&rt, with(CodeTable::Cp851, Country::Usa), &CP851);
    each_is(&rt, with(CodeTable::Cp864, Country::Usa), &CP864);
    each_is(&rt, with(CodeTable::Katakana, Country::Japan), &KATAKANA);
}

#[test]
fn sets(rt: HostRuntime) {
    each_is(&rt, with(CodeTable::Cp437, Country::Germany), &GERMANY);
    let label = Encoding::Bytes(CodeTable::Cp850, NationalSet::Label(LabelSet::UsaOne));
    each_is(&rt, label, &LABEL);
}
