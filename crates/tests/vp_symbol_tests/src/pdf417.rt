//! PDF417: the standard's worked example, what symbols hold by the standard, refusals, and the dots of a symbol.
//! That a reader of others reads them back is checked by checks/symbols.py.

use arrayvec::ArrayVec;
use std::process::Abort;
use vp_dots::{Ink, Op, dot_of};
use vp_pdf417::{Asked, Pdf417, Refusal, encode};

type Sample = ArrayVec<u8, 2800>;

/// What is asked for: columns and rows, 0 where they are left open, and a level.
fn asked(columns: usize, rows: usize, level: usize) -> Asked {
    Asked {
        columns: if columns == 0 { None } else { Some(columns) },
        rows: if rows == 0 { None } else { Some(rows) },
        level: Some(level),
        compact: false,
    }
}

/// The columns and rows of the symbol of so many bytes that are alike, at the lowest level, or 0 where it is
/// refused.
fn size_of(byte: u8, n: usize) -> (usize, usize) {
    let mut sample = Sample::new();
    for _ in 0..n {
        let _ = sample.try_push(byte);
    }
    match encode(sample.as_slice(), asked(0, 0, 0)) {
        Ok(symbol) => (symbol.size().columns, symbol.size().rows),
        Err(_) => (0, 0),
    }
}

/// The symbol of bytes that have one.
fn symbol(rt: &impl Abort, src: &[u8], asked: Asked) -> Pdf417 {
    encode(src, asked).expect(rt, "no symbol")
}

/// Whether a row of 120 modules has these.
fn has_modules(symbol: &Pdf417, row: usize, wanted: u128) -> bool {
    if row >= symbol.size().rows || symbol.across() != 120 {
        return false;
    }
    for x in 0..120usize {
        if symbol.is_dark(row, x) != (wanted >> (119 - x) & 1 == 1) {
            return false;
        }
    }
    true
}

#[test]
fn worked_example(rt: HostRuntime) {
    // "PDF417" at level 1, in the modules that zint and the readers of ZXing have for these codewords
    let symbol = symbol(&rt, b"PDF417", asked(3, 3, 1));
    assert!(rt; has_modules(&symbol, 0, 0xff54_7570_3ea7_ddd9_8fb5_e7d5_f3fa_29));
    assert!(rt; has_modules(&symbol, 1, 0xff54_7a88_3d14_1e5c_ec81_d7d5_83fa_29));
    assert!(rt; has_modules(&symbol, 2, 0xff54_54f0_2683_9cf5_c9c0_b547_83fa_29));
}

#[test]
fn capacities(rt: HostRuntime) {
    // the most letters, digits and bytes of a symbol (ISO/IEC 15438, 4.2), and one more
    assert_eq!(rt; size_of(b'A', 1850), (16, 58));
    assert_eq!(rt; size_of(b'A', 1851), (0, 0));
    assert_eq!(rt; size_of(b'1', 2710), (16, 58));
    assert_eq!(rt; size_of(b'1', 2711), (0, 0));
    assert_eq!(rt; size_of(0xff, 1108), (16, 58));
    assert_eq!(rt; size_of(0xff, 1109), (0, 0));
}

#[test]
fn refusals(rt: HostRuntime) {
    assert!(rt; matches!(encode(b"", asked(0, 0, 9)), Err(Refusal::Empty)));
    assert!(rt; matches!(encode(b"1", asked(31, 0, 9)), Err(Refusal::Level)));
    assert!(rt; matches!(encode(b"1", asked(31, 0, 8)), Err(Refusal::Shape)));
    assert!(rt; matches!(encode(b"1234567890", asked(1, 8, 1)), Err(Refusal::Shape)));
    assert!(rt; matches!(encode(b"1234567890", asked(1, 90, 1)), Ok(_)));
}

#[test]
fn dots(rt: HostRuntime) {
    let symbol = symbol(&rt, b"a1", asked(1, 0, 0));
    let ink = symbol.scaled(2, 5);
    let (wide, high) = ink.size();
    assert_eq!(rt; (wide, high), (2 * 86, 5 * symbol.size().rows as u32));
    for y in 0..high {
        let mut row = [0; 32];
        ink.paint_row(y, Op::Black, 3, &mut row);
        for x in 0..wide {
            assert_eq!(rt; dot_of(&row, u128::from(x) + 3), ink.ink(x, y));
        }
    }
}
