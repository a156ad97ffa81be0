//! Worked symbols of the codes beside Code 39, EAN-13 and Code 128, and why there is none.
use crate::checks::same;
use vp_bars::{
    BarCode, CodabarEnd, CodabarEnds, Code11Checks, Code93Data, HriPosition, MsiChecks, UpcEData,
    linear,
};
use vp_dots::{Fault, Ink, Op, Why};
use vp_glyph::{Font, Sheets};

/// The bar codes of which data are read in several ways: as receipts have them, and as labels have them.
const CODABAR: BarCode = BarCode::Codabar {
    ends: CodabarEnds::Data,
};

const CODABAR_AROUND: BarCode = BarCode::Codabar {
    ends: CodabarEnds::Around {
        start: CodabarEnd::A,
        stop: CodabarEnd::B,
    },
};

const EAN_8: BarCode = BarCode::Ean8 { padded: false };

const EAN_8_PADDED: BarCode = BarCode::Ean8 { padded: true };

const UPC_A: BarCode = BarCode::UpcA { padded: false };

const UPC_A_PADDED: BarCode = BarCode::UpcA { padded: true };

const UPC_E: BarCode = BarCode::UpcE {
    data: UpcEData::Digits,
};

const UPC_E_MAKER: BarCode = BarCode::UpcE {
    data: UpcEData::MakerArticle,
};

const ADD_ON: BarCode = BarCode::AddOn { padded: false };

const ADD_ON_PADDED: BarCode = BarCode::AddOn { padded: true };

const CODE_93: BarCode = BarCode::Code93 {
    data: Code93Data::Ascii,
};

const CODE_93_SIGNS: BarCode = BarCode::Code93 {
    data: Code93Data::Signs,
};

type Worked = (BarCode, &'static [u8], &'static [u8], &'static [u8]);

/// Bytes, and the values and the text of their symbol.
static SYMBOLS: [Worked; 43] = [
    (
        BarCode::Interleaved { check: false },
        b"12345670",
        &[12, 34, 56, 70],
        b"12345670",
    ),
    (
        BarCode::Interleaved { check: true },
        b"1234567",
        &[12, 34, 56, 70],
        b"12345670",
    ),
    (
        BarCode::Interleaved { check: false },
        b"123",
        &[1, 23],
        b"0123",
    ),
    (
        BarCode::Interleaved { check: true },
        b"00",
        &[0, 0],
        b"0000",
    ),
    (CODABAR, b"A40156B", &[16, 4, 0, 1, 5, 6, 17], b"A40156B"),
    (
        CODABAR,
        b"C-$:/.+D",
        &[18, 10, 11, 12, 13, 14, 15, 19],
        b"C-$:/.+D",
    ),
    (
        BarCode::Code11 {
            checks: Code11Checks::One,
        },
        b"123-45",
        &[1, 2, 3, 10, 4, 5, 5],
        b"123-455",
    ),
    (
        BarCode::Code11 {
            checks: Code11Checks::Two,
        },
        b"123-45",
        &[1, 2, 3, 10, 4, 5, 5, 2],
        b"123-4552",
    ),
    (
        BarCode::Msi {
            checks: MsiChecks::None,
        },
        b"1234567",
        &[1, 2, 3, 4, 5, 6, 7],
        b"1234567",
    ),
    (
        BarCode::Msi {
            checks: MsiChecks::Mod10,
        },
        b"1234567",
        &[1, 2, 3, 4, 5, 6, 7, 4],
        b"12345674",
    ),
    (
        BarCode::Msi {
            checks: MsiChecks::Mod10Twice,
        },
        b"1234567",
        &[1, 2, 3, 4, 5, 6, 7, 4, 1],
        b"123456741",
    ),
    (
        BarCode::Msi {
            checks: MsiChecks::Mod11Mod10,
        },
        b"943457842",
        &[9, 4, 3, 4, 5, 7, 8, 4, 2, 3, 8],
        b"94345784238",
    ),
    (
        CODE_93_SIGNS,
        b"TEST93",
        &[29, 14, 28, 29, 9, 3, 41, 6],
        b"TEST93",
    ),
    (
        EAN_8,
        b"7351353",
        &[20, 7, 3, 5, 1, 21, 3, 5, 3, 7, 20],
        b"73513537",
    ),
    (
        EAN_8,
        b"73513530",
        &[20, 7, 3, 5, 1, 21, 3, 5, 3, 7, 20],
        b"73513537",
    ),
    (
        UPC_A,
        b"03600029145",
        &[20, 0, 3, 6, 0, 0, 0, 21, 2, 9, 1, 4, 5, 2, 20],
        b"036000291452",
    ),
    (
        UPC_E,
        b"654321",
        &[30, 20, 16, 5, 14, 3, 12, 1, 22, 37],
        b"06543217",
    ),
    (
        UPC_E,
        b"06510000432",
        &[30, 20, 16, 5, 14, 3, 12, 1, 22, 37],
        b"06543217",
    ),
    (
        UPC_E,
        b"0654321",
        &[30, 20, 16, 5, 14, 3, 12, 1, 22, 37],
        b"06543217",
    ),
    (
        UPC_E,
        b"06543210",
        &[30, 20, 16, 5, 14, 3, 12, 1, 22, 37],
        b"06543217",
    ),
    (
        UPC_E_MAKER,
        b"6510000432",
        &[30, 20, 16, 5, 14, 3, 12, 1, 22, 37],
        b"06543217",
    ),
    (
        UPC_E_MAKER,
        b"1230000045",
        &[30, 20, 11, 12, 3, 14, 5, 3, 22, 31],
        b"01234531",
    ),
    (
        UPC_E_MAKER,
        b"1234000007",
        &[30, 20, 11, 2, 13, 4, 17, 4, 22, 37],
        b"01234747",
    ),
    (
        UPC_E_MAKER,
        b"1234500006",
        &[30, 20, 11, 2, 3, 14, 15, 6, 22, 35],
        b"01234565",
    ),
    (
        UPC_E_MAKER,
        b"06510000432",
        &[30, 20, 16, 5, 14, 3, 12, 1, 22, 37],
        b"06543217",
    ),
    (
        EAN_8_PADDED,
        b"123",
        &[20, 0, 0, 0, 0, 21, 1, 2, 3, 6, 20],
        b"00001236",
    ),
    (
        EAN_8_PADDED,
        b"123456789",
        &[20, 1, 2, 3, 4, 21, 5, 6, 7, 0, 20],
        b"12345670",
    ),
    (
        UPC_A_PADDED,
        b"3600029145",
        &[20, 0, 3, 6, 0, 0, 0, 21, 2, 9, 1, 4, 5, 2, 20],
        b"036000291452",
    ),
    (ADD_ON_PADDED, b"4", &[23, 0, 24, 4], b"04"),
    (
        ADD_ON_PADDED,
        b"123",
        &[23, 10, 24, 10, 24, 1, 24, 2, 24, 3],
        b"00123",
    ),
    (
        ADD_ON_PADDED,
        b"524957",
        &[23, 15, 24, 2, 24, 14, 24, 9, 24, 5],
        b"52495",
    ),
    (CODABAR, b"a40156B", &[16, 4, 0, 1, 5, 6, 17], b"A40156B"),
    (
        CODABAR_AROUND,
        b"40156",
        &[16, 4, 0, 1, 5, 6, 17],
        b"A40156B",
    ),
    (CODABAR_AROUND, b"C1D", &[18, 1, 19], b"C1D"),
    (
        CODE_93,
        b"TEST93",
        &[29, 14, 28, 29, 9, 3, 41, 6],
        b"TEST93",
    ),
    (CODE_93, b"a", &[46, 10, 8, 25], b"a"),
    (CODE_93, b"\x01", &[43, 10, 2, 10], b" "),
    (CODE_93, b"\x7F", &[44, 29, 23, 25], b" "),
    (CODE_93, b"&", &[45, 15, 11, 35], b"&"),
    (CODE_93, b"$", &[39, 39, 23], b"$"),
    (CODE_93_SIGNS, b")A", &[46, 10, 8, 25], b")A"),
    (ADD_ON, b"34", &[23, 13, 24, 4], b"34"),
    (
        ADD_ON,
        b"52495",
        &[23, 15, 24, 2, 24, 14, 24, 9, 24, 5],
        b"52495",
    ),
];

/// The first row whose bytes haven't this symbol.
fn wrong_symbol(rows: &[Worked]) -> Option<usize> {
    for i in 0..rows.len() {
        let (code, src, values, text) = rows[i];
        match linear(code, src) {
            Ok(bars) => {
                if bars.symbols() != values || bars.text().as_slice() != text {
                    return Some(i);
                }
            }
            Err(_) => return Some(i),
        }
    }
    None
}

#[test]
fn symbols(rt: HostRuntime) {
    same(&rt, &wrong_symbol(&SYMBOLS), &None);
}

type Refused = (BarCode, &'static [u8], Fault);

/// Bytes, and why they have no symbol.
static REFUSED: [Refused; 32] = [
    (
        BarCode::Interleaved { check: false },
        b"",
        Fault::Symbol(Why::Empty),
    ),
    (
        BarCode::Interleaved { check: false },
        b"12A",
        Fault::Symbol(Why::Char),
    ),
    (CODABAR, b"A", Fault::Symbol(Why::Length)),
    (CODABAR, b"AB", Fault::Symbol(Why::Length)),
    (CODABAR, b"12", Fault::Symbol(Why::Char)),
    (CODABAR, b"A1A2B", Fault::Symbol(Why::Char)),
    (CODABAR, b"a1b2c", Fault::Symbol(Why::Char)),
    (CODABAR_AROUND, b"a1b", Fault::Symbol(Why::Char)),
    (CODABAR_AROUND, b"A1", Fault::Symbol(Why::Char)),
    (CODABAR_AROUND, b"AB", Fault::Symbol(Why::Length)),
    (
        BarCode::Code11 {
            checks: Code11Checks::One,
        },
        b"12.",
        Fault::Symbol(Why::Char),
    ),
    (
        BarCode::Msi {
            checks: MsiChecks::Mod10,
        },
        b"1-",
        Fault::Symbol(Why::Char),
    ),
    (CODE_93_SIGNS, b"a", Fault::Symbol(Why::Char)),
    (EAN_8, b"123456", Fault::Symbol(Why::Length)),
    (EAN_8, b"12345678A", Fault::Symbol(Why::Char)),
    (UPC_A, b"1234567890", Fault::Symbol(Why::Length)),
    (UPC_E, b"12345", Fault::Symbol(Why::Length)),
    (UPC_E, b"26510000432", Fault::Symbol(Why::Length)),
    (UPC_E, b"01234567890", Fault::Symbol(Why::Length)),
    (UPC_E, b"165100004324", Fault::Symbol(Why::Length)),
    (UPC_E, b"1654321", Fault::Symbol(Why::Length)),
    (UPC_E, b"6510000432", Fault::Symbol(Why::Length)),
    (UPC_E_MAKER, b"1230000100", Fault::Symbol(Why::Length)),
    (UPC_E_MAKER, b"1234000010", Fault::Symbol(Why::Length)),
    (UPC_E_MAKER, b"1234500004", Fault::Symbol(Why::Length)),
    (UPC_E_MAKER, b"123450000", Fault::Symbol(Why::Length)),
    (EAN_8_PADDED, b"1234567A", Fault::Symbol(Why::Char)),
    (EAN_8_PADDED, b"", Fault::Symbol(Why::Empty)),
    (CODE_93, b"\x80", Fault::Symbol(Why::Char)),
    (CODE_93, &[b'a'; 128], Fault::SymbolTooLong),
    (ADD_ON, b"123", Fault::Symbol(Why::Length)),
    (CODE_93_SIGNS, &[b'1'; 256], Fault::SymbolTooLong),
];

/// The first row whose bytes aren't refused so.
fn wrong_refusal(rows: &[Refused]) -> Option<usize> {
    for i in 0..rows.len() {
        let (code, src, fault) = rows[i];
        if linear(code, src).err() != Some(fault) {
            return Some(i);
        }
    }
    None
}

#[test]
fn refusals(rt: HostRuntime) {
    same(&rt, &wrong_refusal(&REFUSED), &None);
}

type Drawn = (BarCode, &'static [u8], u16, [u8; 16]);

/// Bytes, the dots of a wide element, where a narrow one and a module have one, and the bytes of a row of the
/// bars as an encoder from outside drew them.
static DRAWN: [Drawn; 13] = [
    (
        CODABAR,
        b"A40156B",
        2,
        [
            0xb2, 0x56, 0x95, 0x4d, 0x59, 0x6a, 0x52, 0xb4, 0x96, 0, 0, 0, 0, 0, 0, 0,
        ],
    ),
    (
        BarCode::Code11 {
            checks: Code11Checks::One,
        },
        b"123-45",
        2,
        [
            0xb2, 0xd6, 0x96, 0xca, 0xb5, 0x6d, 0xb5, 0xb5, 0x64, 0, 0, 0, 0, 0, 0, 0,
        ],
    ),
    (
        BarCode::Code11 {
            checks: Code11Checks::Two,
        },
        b"123-45",
        2,
        [
            0xb2, 0xd6, 0x96, 0xca, 0xb5, 0x6d, 0xb5, 0xb5, 0x2d, 0x64, 0, 0, 0, 0, 0, 0,
        ],
    ),
    (
        BarCode::Msi {
            checks: MsiChecks::None,
        },
        b"1234567",
        2,
        [
            0xd2, 0x4d, 0x26, 0x92, 0x6d, 0x34, 0x93, 0x4d, 0x36, 0x93, 0x6d, 0x20, 0, 0, 0, 0,
        ],
    ),
    (
        BarCode::Msi {
            checks: MsiChecks::Mod10,
        },
        b"1234567",
        2,
        [
            0xd2, 0x4d, 0x26, 0x92, 0x6d, 0x34, 0x93, 0x4d, 0x36, 0x93, 0x6d, 0x34, 0x92, 0, 0, 0,
        ],
    ),
    (
        CODE_93_SIGNS,
        b"TEST93",
        1,
        [
            0xaf, 0x69, 0xb2, 0x5a, 0xcd, 0x34, 0x2a, 0x85, 0x76, 0x91, 0x57, 0xa0, 0, 0, 0, 0,
        ],
    ),
    (
        EAN_8,
        b"7351353",
        1,
        [
            0xae, 0xde, 0xb1, 0x32, 0xa8, 0x53, 0xa1, 0x44, 0xa0, 0, 0, 0, 0, 0, 0, 0,
        ],
    ),
    (
        UPC_E,
        b"654321",
        1,
        [
            0xa1, 0x58, 0x9d, 0x7a, 0x6c, 0xca, 0xa0, 0, 0, 0, 0, 0, 0, 0, 0, 0,
        ],
    ),
    (
        ADD_ON,
        b"34",
        1,
        [0xb4, 0x2a, 0x30, 0, 0, 0, 0, 0, 0, 0, 0, 0, 0, 0, 0, 0],
    ),
    (
        ADD_ON,
        b"52495",
        1,
        [
            0xb7, 0x29, 0x34, 0xea, 0x2d, 0x62, 0, 0, 0, 0, 0, 0, 0, 0, 0, 0,
        ],
    ),
    (
        CODE_93,
        b"aB1?",
        1,
        [
            0xaf, 0x4c, 0xb5, 0x1a, 0x4a, 0x47, 0x6a, 0x69, 0xa8, 0xd4, 0x57, 0xa0, 0, 0, 0, 0,
        ],
    ),
    (
        UPC_E_MAKER,
        b"1230000045",
        1,
        [
            0xac, 0xcd, 0xbd, 0x3a, 0xc5, 0xea, 0xa0, 0, 0, 0, 0, 0, 0, 0, 0, 0,
        ],
    ),
    (
        EAN_8_PADDED,
        b"123",
        1,
        [
            0xa3, 0x46, 0x8d, 0x1a, 0xac, 0xdb, 0x21, 0x50, 0xa0, 0, 0, 0, 0, 0, 0, 0,
        ],
    ),
];

/// The first bytes of a row of a symbol's bars.
fn bars_of(code: BarCode, src: &[u8], wide: u16, sheets: &Sheets) -> [u8; 16] {
    let mut row = [0; 16];
    if let Ok(bars) = linear(code, src) {
        bars.boxed(1, wide, 1, sheets, Font::A, HriPosition::None)
            .paint_row(0, Op::Black, 0, &mut row);
    }
    row
}

/// The first row whose bars are others.
fn wrong_bars(rows: &[Drawn], sheets: &Sheets) -> Option<usize> {
    for i in 0..rows.len() {
        let (code, src, wide, bytes) = rows[i];
        if bars_of(code, src, wide, sheets) != bytes {
            return Some(i);
        }
    }
    None
}

#[test]
fn bars_to_the_dot(rt: HostRuntime) {
    let sheets = Sheets { a: None, b: None };
    same(&rt, &wrong_bars(&DRAWN, &sheets), &None);
}
