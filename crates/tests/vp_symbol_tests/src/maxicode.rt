//! MaxiCode: symbols module for module, how much they hold by the standard, refusals, and the dots of a
//! symbol. That a reader of others reads them back is checked by checks/symbols.py.

use arrayvec::ArrayVec;
use std::process::Abort;
use vp_dots::{Ink, Op, dot_of};
use vp_maxicode::{
    Carrier, MaxiCode, Mode, Part, PostalCode, Refusal, alphanumeric_carrier, encode,
    numeric_carrier,
};

/// The modules of a symbol, a row each.
type Rows = [u32; 33];

type Sample = ArrayVec<u8, 200>;

/// A carrier's message that is one.
const CARRIER: Carrier = Carrier {
    postal: PostalCode::Numeric {
        number: 481_430_000,
        digits: 9,
    },
    country: 840,
    service: 3,
};

/// The symbol of bytes that have one.
fn symbol(rt: &impl Abort, src: &[u8], mode: Mode, part: Option<Part>) -> MaxiCode {
    encode(src, mode, part).expect(rt, "no symbol")
}

/// Whether a symbol has these modules, and none outside.
fn has_rows(symbol: &MaxiCode, rows: &Rows) -> bool {
    for row in 0..40usize {
        let wanted = if row < 33 { rows[row] } else { 0 };
        for column in 0..40usize {
            let dark = column < 30 && wanted >> (29 - column) & 1 == 1;
            if symbol.is_dark(row, column) != dark {
                return false;
            }
        }
    }
    true
}

/// How many bytes of a kind a mode holds.
fn most(byte: u8, mode: Mode) -> usize {
    let mut sample = Sample::new();
    for n in 0..200usize {
        let _ = sample.try_push(byte);
        if encode(sample.as_slice(), mode, None).is_err() {
            return n;
        }
    }
    200
}

#[test]
fn standard_symbol(rt: HostRuntime) {
    // as zint draws it
    let rows = [
        0x1f40a557, 0x11040402, 0xa327aaa, 0x15555554, 0x3, 0x2aaaaaa8, 0x15555556, 0x0,
        0x2aaaaaa9, 0x157c0356, 0x1ce502, 0x2a8801a8, 0x15500d55, 0x202, 0x2ac000a8, 0x15400254,
        0x200203, 0x2a8002a8, 0x15500555, 0x800100, 0x2ac805aa, 0x15700656, 0x38f003, 0x2a9b15a8,
        0x1555554c, 0x2f2, 0x2aaaaa3c, 0x124b6330, 0x16a5f593, 0x292edffe, 0x13fa596f, 0x30d382ba,
        0x1687b7aa,
    ];
    let symbol = symbol(&rt, b"MAXICODE (19 CHARS)", Mode::Standard, None);
    assert!(rt; has_rows(&symbol, &rows));
}

#[test]
fn enhanced_symbol(rt: HostRuntime) {
    // three code sets, as zint draws them
    let rows = [
        0x15555557, 0x0, 0x2aaaaaa9, 0x15555556, 0x0, 0x2aaaaaa8, 0x15555555, 0x2, 0x2aaaaaa8,
        0x154f4154, 0x352103, 0x2aa828a8, 0x15580254, 0x400a00, 0x2a2001ab, 0x15c00254, 0x200200,
        0x2a0003aa, 0x15100756, 0x800602, 0x2a3802a8, 0x1480906, 0x16a8b9a2, 0x2bc8d2aa,
        0x3c2bfc14, 0x3ebe96aa, 0x157e817c, 0x3e82bc14, 0x2bd43c29, 0x28297fc2, 0x3d556a94,
        0x16a97fd4, 0x3e9403e9,
    ];
    let symbol = symbol(&rt, b"Ab\xc9", Mode::Enhanced, None);
    assert!(rt; has_rows(&symbol, &rows));
}

#[test]
fn joined_symbol(rt: HostRuntime) {
    // the second of three, and nine digits, as zint draws them
    let rows = [
        0x15555557, 0x0, 0x2aaaaaaa, 0x15555556, 0x1, 0x2aaaaaa8, 0x15555556, 0x2, 0x2aaaaaa9,
        0x156cc454, 0x5e500, 0x2aa010aa, 0x15980e56, 0x800e00, 0x2a6005a8, 0x15400256, 0xa00202,
        0x2aa003a8, 0x15100157, 0x600c02, 0x2ab006ab, 0x15600954, 0x397003, 0x2aac14aa, 0x155557d7,
        0x3d6, 0x2aaaa802, 0x3fc3c140, 0x16bc3d54, 0x2a8157ea, 0x3d683d6a, 0x16bd6abc, 0x14016a94,
    ];
    let part = Part { position: 2, of: 3 };
    let symbol = symbol(&rt, b"123456789", Mode::Program, Some(part));
    assert!(rt; has_rows(&symbol, &rows));
}

#[test]
fn parcel_of_numeric_postal_code(rt: HostRuntime) {
    // a parcel's label, as zint draws it
    let rows = [
        0x35dbefef, 0x155c3618, 0x36c4a990, 0x38a2fffe, 0xf0f0209, 0x9c604ae, 0x3d555555,
        0x20000000, 0x6aaaaa9, 0x157c0456, 0x2d0301, 0x2aa015aa, 0x15800b57, 0x100, 0x2a8003aa,
        0x15400356, 0x200202, 0x2ae002aa, 0x15d00757, 0x500902, 0x2a0804aa, 0x15500b56, 0x3bd000,
        0x2abf15aa, 0x1555572e, 0x2c6, 0x2aaaaa12, 0x1d77ce82, 0x1750d676, 0x1e7957bc, 0x31751d63,
        0x13d2428c, 0x4fccc71,
    ];
    let text = b"003840481430000[)>\x1e01\x1d961Z47114200\x1dNPSN\x1d042";
    let carrier = numeric_carrier(text).expect(&rt, "no carrier");
    assert_eq!(rt; carrier, CARRIER);
    let symbol = symbol(&rt, &text[15..], Mode::Structured(carrier), None);
    assert!(rt; has_rows(&symbol, &rows));
}

#[test]
fn parcel_of_alphanumeric_postal_code(rt: HostRuntime) {
    // as zint draws it
    let rows = [
        0x289d5557, 0x8480000, 0x2a82aaaa, 0x15555556, 0x3, 0x2aaaaaaa, 0x15555556, 0x2,
        0x2aaaaaaa, 0x155e0956, 0x70502, 0x2aa034a8, 0x15f00855, 0x300600, 0x2a9007a8, 0x15600054,
        0xa00201, 0x2ac002a8, 0x15400756, 0xa00700, 0x2af002a8, 0x15780754, 0x381e02, 0x2aad91aa,
        0x1555574d, 0x1de, 0x2aaaab4d, 0x33c784ba, 0x34775bc6, 0x600984c, 0x1f1bc29b, 0x9563e52,
        0xde6784f,
    ];
    let text = b"999056B1050 QUAY 4";
    let carrier = alphanumeric_carrier(text).expect(&rt, "no carrier");
    assert_eq!(rt; carrier.postal, PostalCode::Alphanumeric(*b"B1050 "));
    assert_eq!(rt; (carrier.service, carrier.country), (999, 56));
    let symbol = symbol(&rt, &text[12..], Mode::Structured(carrier), None);
    assert!(rt; has_rows(&symbol, &rows));
}

#[test]
fn carriers_that_are_none(rt: HostRuntime) {
    assert!(rt; numeric_carrier(b"00384048143000").is_none());
    assert!(rt; numeric_carrier(b"00384048143000A").is_none());
    assert!(rt; alphanumeric_carrier(b"999056B1050").is_none());
    assert!(rt; alphanumeric_carrier(b"99A056B1050 ").is_none());
}

#[test]
fn capacities(rt: HostRuntime) {
    // letters and digits that a symbol holds: 93 and 138 (ISO/IEC 16023), and fewer with more correction or
    // behind a carrier's message
    assert_eq!(rt; most(b'A', Mode::Standard), 93);
    assert_eq!(rt; most(b'7', Mode::Standard), 138);
    assert_eq!(rt; most(b'A', Mode::Enhanced), 77);
    assert_eq!(rt; most(b'7', Mode::Enhanced), 113);
    assert_eq!(rt; most(b'A', Mode::Program), 93);
    assert_eq!(rt; most(b'A', Mode::Structured(CARRIER)), 84);
    // 126 digits too, which are fourteen times nine, but not 124
    assert_eq!(rt; most(b'7', Mode::Structured(CARRIER)), 123);
    assert!(rt; encode(&[b'7'; 126], Mode::Structured(CARRIER), None).is_ok());
    // behind a latch, and behind a lock of two codewords
    assert_eq!(rt; most(b'a', Mode::Standard), 92);
    assert_eq!(rt; most(0xc0, Mode::Standard), 91);
}

#[test]
fn refusals(rt: HostRuntime) {
    let long = [b'A'; 94];
    let part = Some(Part { position: 9, of: 9 });
    let mut carrier = CARRIER;
    assert!(rt; matches!(encode(b"", Mode::Standard, part), Err(Refusal::Empty)));
    assert!(rt; encode(b"", Mode::Structured(carrier), None).is_ok());
    assert!(rt; matches!(encode(b"1", Mode::Program, part), Err(Refusal::Position)));
    assert!(rt; matches!(encode(&long, Mode::Standard, part), Err(Refusal::Position)));
    assert!(rt; matches!(encode(&long, Mode::Standard, None), Err(Refusal::TooLong)));
    carrier.postal = PostalCode::Numeric {
        number: 1000,
        digits: 3,
    };
    assert!(rt;
        matches!(
            encode(&long, Mode::Structured(carrier), part),
            Err(Refusal::Postal)
        )
    );
    carrier.postal = PostalCode::Alphanumeric(*b"B105\x1d ");
    assert!(rt;
        matches!(
            encode(b"", Mode::Structured(carrier), None),
            Err(Refusal::Postal)
        )
    );
    carrier.country = 1000;
    assert!(rt;
        matches!(
            encode(b"", Mode::Structured(carrier), None),
            Err(Refusal::Country)
        )
    );
    carrier.service = 1000;
    assert!(rt;
        matches!(
            encode(b"", Mode::Structured(carrier), None),
            Err(Refusal::Service)
        )
    );
}

/// How many dots of so many lines from one on have ink between two columns.
fn inked(ink: &impl Ink, from: (u32, u32), size: (u32, u32)) -> usize {
    let mut count = 0usize;
    for y in 0..size.1 {
        for x in 0..size.0 {
            if ink.ink(from.0.saturating_add(x), from.1.saturating_add(y)) {
                count = count.saturating_add(1);
            }
        }
    }
    count
}

#[test]
fn hexagons_and_rings(rt: HostRuntime) {
    let symbol = symbol(&rt, b"MAXICODE (19 CHARS)", Mode::Standard, None);
    let ink = symbol.inked();
    // the two dark modules at the end of the first row, and the lines of the last one
    assert_eq!(rt; inked(&ink, (196, 0), (6, 6)), 28);
    assert_eq!(rt; inked(&ink, (203, 0), (6, 7)), 30);
    let widths = [2, 4, 6, 6, 6, 4, 2];
    for y in 0..7usize {
        assert_eq!(rt; inked(&ink, (203, y as u32), (7, 1)), widths[y]);
    }
    // a line through the middle of the finder: nine dots without ink, and rings of five dots six dots apart
    let runs = [
        (73, 77, true),
        (78, 83, false),
        (84, 88, true),
        (89, 94, false),
        (95, 99, true),
        (100, 108, false),
        (109, 113, true),
    ];
    for (from, to, dark) in runs {
        for x in from..=to {
            assert_eq!(rt; ink.ink(x, 99), dark);
        }
    }
}

#[test]
fn dots(rt: HostRuntime) {
    let symbol = symbol(&rt, b"Dots", Mode::Enhanced, None);
    let ink = symbol.inked();
    let (wide, high) = ink.size();
    assert_eq!(rt; (wide, high), (210, 199));
    for y in 0..high {
        let mut row = [0; 27];
        ink.paint_row(y, Op::Black, 3, &mut row);
        for x in 0..wide {
            assert_eq!(rt; dot_of(&row, u128::from(x) + 3), ink.ink(x, y));
        }
    }
}
