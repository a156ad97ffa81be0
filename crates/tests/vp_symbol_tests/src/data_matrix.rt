//! Data Matrix: what the sizes hold by the standard's table, refusals, and the dots of a symbol. That readers of
//! others read them back is checked by checks/symbols.py.

use arrayvec::ArrayVec;
use std::process::Abort;
use vp_data_matrix::{DataMatrix, Lead, Shape, encode};
use vp_dots::{Fault, Ink, Op, Why, dot_of};

type Sample = ArrayVec<u8, 3200>;

/// So many bytes that are alike.
fn sample(byte: u8, n: usize) -> Sample {
    let mut sample = ArrayVec::new();
    for _ in 0..n {
        let _ = sample.try_push(byte);
    }
    sample
}

/// The rows and columns of the symbol of so many bytes, or 0 where it is refused.
fn size_of(byte: u8, n: usize, shape: Shape) -> (usize, usize) {
    match encode(sample(byte, n).as_slice(), Lead::Plain, shape) {
        Ok(symbol) => (symbol.size().rows, symbol.size().columns),
        Err(_) => (0, 0),
    }
}

/// The symbol of bytes that have one.
fn symbol(rt: &impl Abort, src: &[u8], lead: Lead, shape: Shape) -> DataMatrix {
    encode(src, lead, shape).expect(rt, "no symbol")
}

#[test]
fn capacities(rt: HostRuntime) {
    // digits, letters and bytes that a size holds (ISO/IEC 16022, table 7), and one more
    assert_eq!(rt; size_of(b'1', 6, Shape::Square), (10, 10));
    assert_eq!(rt; size_of(b'1', 7, Shape::Square), (12, 12));
    assert_eq!(rt; size_of(b'1', 3116, Shape::Square), (144, 144));
    assert_eq!(rt; size_of(b'1', 3117, Shape::Square), (0, 0));
    assert_eq!(rt; size_of(0xff, 1, Shape::Square), (10, 10));
    assert_eq!(rt; size_of(0xff, 10, Shape::Square), (16, 16));
    assert_eq!(rt; size_of(0xff, 11, Shape::Square), (18, 18));
    assert_eq!(rt; size_of(0xff, 1555, Shape::Square), (144, 144));
    assert_eq!(rt; size_of(0xff, 1556, Shape::Square), (0, 0));
    assert_eq!(rt; size_of(b'1', 10, Shape::Rectangle), (8, 18));
    assert_eq!(rt; size_of(b'1', 98, Shape::Rectangle), (16, 48));
    assert_eq!(rt; size_of(b'1', 99, Shape::Rectangle), (0, 0));
    assert_eq!(rt; size_of(b'1', 6, Shape::Exactly(12, 26)), (12, 26));
    assert_eq!(rt; size_of(b'1', 6, Shape::Exactly(12, 27)), (0, 0));
}

/// Whether a size holds so many letters, capital or small ones, and no more.
fn holds_letters(shape: Shape, n: u16) -> bool {
    let most = usize::from(n);
    let held = size_of(b'A', most, shape);
    held.0 > 0
        && size_of(b'a', most, shape) == held
        && size_of(b'A', most + 1, shape) != held
        && size_of(b'a', most + 1, shape) != held
}

#[test]
fn capacities_of_letters(rt: HostRuntime) {
    // letters and digits that each size holds (ISO/IEC 16022, table 7)
    for n in [
        3, 6, 10, 16, 25, 31, 43, 52, 64, 91, 127, 169, 214, 259, 304, 418, 550, 682, 862, 1042,
        1222, 1573, 1954, 2335,
    ] {
        assert!(rt; holds_letters(Shape::Square, n));
    }
    for n in [6, 13, 22, 31, 46, 72] {
        assert!(rt; holds_letters(Shape::Rectangle, n));
    }
    assert_eq!(rt; size_of(b'A', 2335, Shape::Square), (144, 144));
    // X12 takes two codewords for three separators, EDIFACT three for four characters
    assert_eq!(rt; size_of(b'*', 16, Shape::Square), (16, 16));
    assert_eq!(rt; size_of(b'@', 13, Shape::Square), (16, 16));
    assert_eq!(rt; size_of(b'@', 14, Shape::Square), (18, 18));
}

#[test]
fn refusals(rt: HostRuntime) {
    let empty = encode(b"", Lead::Gs1, Shape::Square);
    assert!(rt; matches!(empty, Err(Fault::Symbol(Why::Empty))));
    let high = encode(&[48, 128], Lead::Gs1, Shape::Square);
    assert!(rt; matches!(high, Err(Fault::Symbol(Why::Char))));
    let long = encode(b"1234567", Lead::Macro05, Shape::Exactly(10, 10));
    assert!(rt; matches!(long, Err(Fault::SymbolTooLong)));
}

#[test]
fn worked_example(rt: HostRuntime) {
    // "123456" in 10 by 10 modules
    let wanted = [
        0b1010101010,
        0b1100101101,
        0b1100000100,
        0b1100011101,
        0b1100001000,
        0b1000001111,
        0b1110110000,
        0b1111011001,
        0b1001110100,
        0b1111111111,
    ];
    let symbol = symbol(&rt, b"123456", Lead::Plain, Shape::Square);
    for (row, modules) in wanted.iter().enumerate() {
        for column in 0..10usize {
            assert_eq!(rt;
                symbol.is_dark(row, column),
                modules >> (9 - column) & 1 == 1
            );
        }
    }
}

#[test]
fn dots(rt: HostRuntime) {
    let symbol = symbol(&rt, b"A1B2C3D4E5F6G7H8", Lead::Plain, Shape::Rectangle);
    let ink = symbol.scaled(3);
    let (wide, high) = ink.size();
    assert_eq!(rt;
        (wide, high),
        (
            3 * symbol.size().columns as u32,
            3 * symbol.size().rows as u32
        )
    );
    for y in 0..high {
        let mut row = [0; 32];
        ink.paint_row(y, Op::Black, 2, &mut row);
        for x in 0..wide {
            let dark = symbol.is_dark((y / 3) as usize, (x / 3) as usize);
            assert_eq!(rt; ink.ink(x, y), dark);
            assert_eq!(rt; dot_of(&row, u128::from(x) + 2), dark);
        }
    }
}
