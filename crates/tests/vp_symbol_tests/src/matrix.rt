//! Two-dimensional symbols by one code: sizes, refusals, and the dots of one of each kind, painted with each
//! operation at offsets on both sides of a row's ends, held to the modules that the kind's own crate gives.

use std::process::Abort;
use vp_dots::{Fault, Ink, Op, Why, dot_of};
use vp_matrix::{
    AztecAsked, Layers, Lead, Matrix, MatrixCode, MatrixInk, Pdf417Asked, Shape, encode,
};

const TEXT: &[u8] = b"VP 25";

const DATA_MATRIX: MatrixCode = MatrixCode::DataMatrix {
    lead: Lead::Plain,
    shape: Shape::Rectangle,
};

const AZTEC: MatrixCode = MatrixCode::Aztec {
    asked: AztecAsked {
        percent: None,
        layers: Layers::Any,
    },
};

const PDF417: MatrixCode = MatrixCode::Pdf417 {
    asked: Pdf417Asked {
        columns: Some(1),
        rows: None,
        level: Some(0),
        compact: true,
    },
};

/// The symbol of the text.
fn symbol(rt: &impl Abort, code: MatrixCode) -> Matrix {
    encode(code, TEXT).expect(rt, "no symbol")
}

/// A dot after an operation that acts where there is ink.
fn after(op: Op, ink: bool, old: bool) -> bool {
    match op {
        Op::Black => old || ink,
        Op::White => old && !ink,
        Op::Flip => old != ink,
    }
}

/// Whether dot `d` of a row has ink, from offset `at` on.
fn has_ink(ink: &MatrixInk<'_>, y: u32, at: i64, d: u32) -> bool {
    match u32::try_from(i64::from(d).wrapping_sub(at)) {
        Ok(x) => ink.ink(x, y),
        Err(_) => false,
    }
}

/// Whether a line at an offset is painted as the ink says, on a row of other dots.
fn is_painted(ink: &MatrixInk<'_>, y: u32, op: Op, at: i64) -> bool {
    let mut row = [0x00, 0xff, 0x35, 0xca, 0x0f, 0xf0, 0x96, 0x69, 0xff, 0x00];
    let old = row;
    ink.paint_row(y, op, at, &mut row);
    for d in 0..80u32 {
        let place = u128::from(d);
        let wanted = after(op, has_ink(ink, y, at, d), dot_of(&old, place));
        if dot_of(&row, place) != wanted {
            return false;
        }
    }
    true
}

/// Whether all lines, and one below them, are painted so, by each operation and at many offsets.
fn is_drawn(ink: &MatrixInk<'_>) -> bool {
    let (_, height) = ink.size();
    for op in [Op::Black, Op::White, Op::Flip] {
        for at in [-130i64, -61, -8, -3, 0, 1, 7, 8, 40, 79, 80, 1000] {
            for y in 0..height {
                if !is_painted(ink, y, op, at) {
                    return false;
                }
            }
            if !is_painted(ink, height, op, at) {
                return false;
            }
        }
    }
    true
}

/// Whether a line has the dots of its modules, and none behind them.
fn has_modules(ink: &MatrixInk<'_>, y: u32) -> bool {
    let (width, _) = ink.size();
    for x in 0..width {
        let dark = ink
            .symbol
            .is_dark((y / ink.high) as usize, (x / ink.wide) as usize);
        if ink.ink(x, y) != dark {
            return false;
        }
    }
    !ink.ink(width, y)
}

/// Whether lines that are said to be alike have the same dots, and are as many as a module is high.
fn are_alike(ink: &MatrixInk<'_>) -> bool {
    let (width, height) = ink.size();
    for y in 0..height {
        let (first, last) = ink.alike(y);
        if last - first != ink.high - 1 || !has_modules(ink, y) {
            return false;
        }
        for x in 0..width {
            if ink.ink(x, first) != ink.ink(x, y) || ink.ink(x, last) != ink.ink(x, y) {
                return false;
            }
        }
    }
    true
}

/// Why bytes are refused.
fn fault(code: MatrixCode, src: &[u8]) -> Option<Fault> {
    encode(code, src).err()
}

/// Aztec with a percentage and layers.
fn aztec_with(percent: usize, layers: Layers) -> MatrixCode {
    MatrixCode::Aztec {
        asked: AztecAsked {
            percent: Some(percent),
            layers,
        },
    }
}

/// PDF417 of one column, with rows and a level.
fn rows_and_level(rows: usize, level: usize) -> MatrixCode {
    MatrixCode::Pdf417 {
        asked: Pdf417Asked {
            columns: Some(1),
            rows: Some(rows),
            level: Some(level),
            compact: false,
        },
    }
}

#[test]
fn data_matrix(rt: HostRuntime) {
    let symbol = symbol(&rt, DATA_MATRIX);
    let own = vp_data_matrix::encode(TEXT, Lead::Plain, Shape::Rectangle).expect(&rt, "no symbol");
    assert_eq!(rt; (symbol.columns(), symbol.rows()), (18, 8));
    for row in 0..9usize {
        for column in 0..19usize {
            assert_eq!(rt; symbol.is_dark(row, column), own.is_dark(row, column));
        }
    }
    assert_eq!(rt; symbol.scaled(3, 2).size(), (54, 16));
    assert!(rt; is_drawn(&symbol.scaled(3, 2)));
    assert!(rt; is_drawn(&symbol.scaled(1, 1)));
    assert!(rt; are_alike(&symbol.scaled(3, 2)));
}

#[test]
fn aztec(rt: HostRuntime) {
    let symbol = symbol(&rt, AZTEC);
    let asked = AztecAsked {
        percent: None,
        layers: Layers::Any,
    };
    let own = vp_aztec::encode(TEXT, asked).expect(&rt, "no symbol");
    assert_eq!(rt; (symbol.columns(), symbol.rows()), (15, 15));
    for row in 0..16usize {
        for column in 0..16usize {
            assert_eq!(rt; symbol.is_dark(row, column), own.is_dark(column, row));
        }
    }
    assert_eq!(rt; symbol.scaled(4, 1).size(), (60, 15));
    assert!(rt; is_drawn(&symbol.scaled(4, 1)));
    assert!(rt; are_alike(&symbol.scaled(2, 5)));
}

#[test]
fn pdf417(rt: HostRuntime) {
    let symbol = symbol(&rt, PDF417);
    assert_eq!(rt; (symbol.columns(), symbol.rows()), (52, 6));
    for row in 0..6usize {
        // the start pattern, and the single module that a compact symbol ends with
        for column in 0..8usize {
            assert!(rt; symbol.is_dark(row, column));
        }
        assert!(rt; !symbol.is_dark(row, 8) && symbol.is_dark(row, 9));
        assert!(rt; symbol.is_dark(row, 51) && !symbol.is_dark(row, 52));
    }
    assert!(rt; !symbol.is_dark(6, 0));
    assert_eq!(rt; symbol.scaled(1, 1000).size(), (52, 6000));
    assert!(rt; is_drawn(&symbol.scaled(1, 3)));
    assert!(rt; is_drawn(&symbol.scaled(64, 1)));
    assert!(rt; are_alike(&symbol.scaled(2, 7)));
}

#[test]
fn refusals(rt: HostRuntime) {
    let gs1 = MatrixCode::DataMatrix {
        lead: Lead::Gs1,
        shape: Shape::Exactly(10, 10),
    };
    assert_eq!(rt; fault(gs1, b""), Some(Fault::Symbol(Why::Empty)));
    assert_eq!(rt;
        fault(gs1, b"0123456789\xe9"),
        Some(Fault::Symbol(Why::Char))
    );
    assert_eq!(rt; fault(gs1, b"0123456789"), Some(Fault::SymbolTooLong));
    assert_eq!(rt;
        fault(aztec_with(4, Layers::Any), b""),
        Some(Fault::Symbol(Why::Empty))
    );
    assert_eq!(rt;
        fault(aztec_with(96, Layers::Any), b"A"),
        Some(Fault::Symbol(Why::Unsupported))
    );
    assert_eq!(rt;
        fault(aztec_with(23, Layers::Full(33)), b"A"),
        Some(Fault::Symbol(Why::Unsupported))
    );
    assert_eq!(rt;
        fault(aztec_with(23, Layers::Compact(1)), b"0123456789ABCDEF"),
        Some(Fault::SymbolTooLong)
    );
    assert_eq!(rt; fault(aztec_with(23, Layers::Compact(1)), b"A"), None);
    assert_eq!(rt;
        fault(rows_and_level(3, 9), b""),
        Some(Fault::Symbol(Why::Empty))
    );
    assert_eq!(rt;
        fault(rows_and_level(3, 9), b"A"),
        Some(Fault::Symbol(Why::Unsupported))
    );
    assert_eq!(rt;
        fault(rows_and_level(3, 8), b"A"),
        Some(Fault::SymbolTooLong)
    );
    assert_eq!(rt;
        fault(rows_and_level(3, 0), b"ABCDEFGHI"),
        Some(Fault::SymbolTooLong)
    );
    assert_eq!(rt; fault(rows_and_level(4, 0), b"AB"), None);
}
