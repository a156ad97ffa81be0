//! Aztec: symbols and a rune module for module, what symbols hold by the standard, refusals, and the dots of a
//! symbol. That a reader of others reads them back is checked by checks/symbols.py.

use arrayvec::ArrayVec;
use std::process::Abort;
use vp_aztec::{Asked, Aztec, Layers, Refusal, encode, rune};
use vp_dots::{Ink, Op, dot_of};

type Sample = ArrayVec<u8, 3900>;

/// What is asked for where the error correction is left open.
fn asked(layers: Layers) -> Asked {
    Asked {
        percent: None,
        layers,
    }
}

/// So many bytes, of two kinds in turn.
fn sample(a: u8, b: u8, n: usize) -> Sample {
    let mut sample = Sample::new();
    for k in 0..n {
        let _ = sample.try_push(if k % 2 == 0 { a } else { b });
    }
    sample
}

/// The modules of a side of the symbol of so many bytes, or 0 where it is refused.
fn side_of(a: u8, b: u8, n: usize) -> usize {
    match encode(sample(a, b, n).as_slice(), asked(Layers::Any)) {
        Ok(symbol) => symbol.side(),
        Err(_) => 0,
    }
}

/// The symbol of bytes that have one.
fn symbol(rt: &impl Abort, src: &[u8], layers: Layers) -> Aztec {
    encode(src, asked(layers)).expect(rt, "no symbol")
}

/// Whether a row has these modules.
fn has_modules(symbol: &Aztec, y: usize, wanted: u64) -> bool {
    let side = symbol.side();
    if side > 64 {
        return false;
    }
    for x in 0..side {
        if symbol.is_dark(x, y) != (wanted >> (side - 1 - x) & 1 == 1) {
            return false;
        }
    }
    true
}

/// Whether a symbol has these rows.
fn has_rows(symbol: &Aztec, rows: &[u64]) -> bool {
    for y in 0..rows.len() {
        if !has_modules(symbol, y, rows[y]) {
            return false;
        }
    }
    symbol.side() == rows.len()
}

#[test]
fn compact_symbol(rt: HostRuntime) {
    // "HELLO", as zint draws it
    let rows = [
        0x1929, 0x2ed0, 0x1825, 0x5fff, 0x280a, 0x4bed, 0x3a2a, 0x4aae, 0x4a2a, 0x6beb, 0x280b,
        0x4ffe, 0x772, 0x7d9e, 0x3557,
    ];
    assert!(rt; has_rows(&symbol(&rt, b"HELLO", Layers::Any), &rows));
}

#[test]
fn full_symbol(rt: HostRuntime) {
    // "AZTEC CODE" in five layers, whose reference grid has two lines beside the middle ones, as zint draws it
    let symbol = symbol(&rt, b"AZTEC CODE", Layers::Full(5));
    assert_eq!(rt; symbol.side(), 37);
    assert!(rt; has_modules(&symbol, 0, 0x7f_6469_54e));
    assert!(rt; has_modules(&symbol, 1, 0x99_07ae_6b3));
    assert!(rt; has_modules(&symbol, 2, 0x155_5555_555));
    assert!(rt; has_modules(&symbol, 18, 0x155_5555_555));
    assert!(rt; has_modules(&symbol, 36, 0xf2_d6f6_7ce));
}

#[test]
fn rune_25(rt: HostRuntime) {
    // the figure of annex A
    let rows = [
        0x765, 0x7ff, 0x203, 0x2fb, 0x28a, 0x6ab, 0x68b, 0x6fa, 0x603, 0x3ff, 0x120,
    ];
    assert!(rt; has_rows(&rune(25), &rows));
}

#[test]
fn capacities(rt: HostRuntime) {
    // digits, letters and bytes that the smallest and the largest symbol hold (ISO/IEC 24778, table 1)
    assert_eq!(rt; side_of(b'1', b'8', 13), 15);
    assert_eq!(rt; side_of(b'Q', b'H', 12), 15);
    assert_eq!(rt; side_of(0xc5, 0x93, 6), 15);
    assert_eq!(rt; side_of(b'1', b'8', 40), 19);
    assert_eq!(rt; side_of(b'Q', b'H', 33), 19);
    assert_eq!(rt; side_of(0xc5, 0x93, 19), 19);
    assert_eq!(rt; side_of(b'1', b'8', 3832), 151);
    assert_eq!(rt; side_of(b'Q', b'H', 3067), 151);
    assert_eq!(rt; side_of(0xc5, 0x93, 1914), 151);
    // and more than that
    assert_eq!(rt; side_of(b'1', b'8', 3840), 0);
    assert_eq!(rt; side_of(b'Q', b'H', 3072), 0);
    assert_eq!(rt; side_of(0xc5, 0x93, 1918), 0);
}

#[test]
fn refusals(rt: HostRuntime) {
    let low = Asked {
        percent: Some(4),
        layers: Layers::Compact(5),
    };
    let five = Asked {
        percent: Some(5),
        layers: Layers::Compact(5),
    };
    assert!(rt; matches!(encode(b"", low), Err(Refusal::Empty)));
    assert!(rt; matches!(encode(b"1", low), Err(Refusal::Percent)));
    assert!(rt; matches!(encode(b"1", five), Err(Refusal::Layers)));
    assert!(rt; matches!(encode(b"1", asked(Layers::Full(33))), Err(Refusal::Layers)));
    assert!(rt;
        matches!(
            encode(b"ABCDEFGHIJKLMNO", asked(Layers::Compact(1))),
            Err(Refusal::TooLong)
        )
    );
    assert!(rt; matches!(encode(b"ABCDEFGHIJKLMNO", asked(Layers::Full(32))), Ok(_)));
}

#[test]
fn dots(rt: HostRuntime) {
    let symbol = symbol(&rt, b"a1", Layers::Any);
    let ink = symbol.scaled(3);
    let (wide, high) = ink.size();
    assert_eq!(rt; (wide, high), (45, 45));
    for y in 0..high {
        let mut row = [0; 8];
        ink.paint_row(y, Op::Black, 3, &mut row);
        for x in 0..wide {
            assert_eq!(rt; dot_of(&row, u128::from(x) + 3), ink.ink(x, y));
        }
    }
}
