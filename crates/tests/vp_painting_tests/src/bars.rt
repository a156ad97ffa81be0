//! Worked symbols: their values, texts and bars, and why there is none.
use crate::checks::same;
use crate::sheet::stairs;
use std::process::Abort;
use std::test::Fail;
use vp_bars::{Bars, HriPosition, code39, code128_esc, code128_zpl, ean13};
use vp_dots::{Fault, Ink, Op, Why};
use vp_glyph::{Font, Sheets};

/// Which symbol of some bytes.
#[derive(Clone, Copy)]
pub enum Made {
    Code39,
    Code39Checked,
    Ean13,
    Ean13Padded,
    Receipt,
    Label,
    LabelPacked,
}

use Made::{Code39, Code39Checked, Ean13, Ean13Padded, Label, LabelPacked, Receipt};

pub fn symbol_of(how: Made, src: &[u8]) -> Result<Bars, Fault> {
    match how {
        Code39 => code39(src, false),
        Code39Checked => code39(src, true),
        Ean13 => ean13(src, false),
        Ean13Padded => ean13(src, true),
        Receipt => code128_esc(src),
        Label => code128_zpl(src, false),
        LabelPacked => code128_zpl(src, true),
    }
}

pub type Worked = (Made, &'static [u8], &'static [u8], &'static [u8]);

/// Bytes, and the values and the text of their symbol.
pub static SYMBOLS: [Worked; 26] = [
    (Code39, b"A", &[43, 10, 43], b"A"),
    (Code39, b"*A*", &[43, 10, 43], b"A"),
    (Code39, b"*A-1 $*", &[43, 10, 36, 1, 38, 39, 43], b"A-1 $"),
    (Code39Checked, b"ABC", &[43, 10, 11, 12, 33, 43], b"ABCX"),
    (
        Code39Checked,
        b"CODE39",
        &[43, 12, 24, 13, 14, 3, 9, 32, 43],
        b"CODE39W",
    ),
    (
        Ean13,
        b"400638133393",
        &[4, 0, 0, 6, 3, 8, 1, 3, 3, 3, 9, 3, 1],
        b"4006381333931",
    ),
    (
        Ean13,
        b"4006381333937",
        &[4, 0, 0, 6, 3, 8, 1, 3, 3, 3, 9, 3, 1],
        b"4006381333931",
    ),
    (
        Ean13Padded,
        b"40063813339300",
        &[4, 0, 0, 6, 3, 8, 1, 3, 3, 3, 9, 3, 1],
        b"4006381333931",
    ),
    (
        Ean13Padded,
        b"12",
        &[0, 0, 0, 0, 0, 0, 0, 0, 0, 0, 1, 2, 3],
        b"0000000000123",
    ),
    // A book's number, 978-3-16-148410-0.
    (
        Ean13,
        b"978316148410",
        &[9, 7, 8, 3, 1, 6, 1, 4, 8, 4, 1, 0, 0],
        b"9783161484100",
    ),
    (
        Receipt,
        b"{APJJ123C",
        &[103, 48, 42, 42, 17, 18, 19, 35, 54, 106],
        b"PJJ123C",
    ),
    (
        Receipt,
        b"{BA{C\x0c{1",
        &[104, 33, 99, 12, 102, 58, 106],
        b"A12",
    ),
    (
        Receipt,
        b"{BWikipedia",
        &[104, 55, 73, 75, 73, 80, 69, 68, 73, 65, 88, 106],
        b"Wikipedia",
    ),
    // changes from A to C and from C to A, and a byte of B in A
    (Receipt, b"{AA{C\x0c", &[103, 33, 99, 12, 61, 106], b"A12"),
    (
        Receipt,
        b"{C\x01{A\x01",
        &[105, 1, 101, 65, 91, 106],
        b"01\x01",
    ),
    (Receipt, b"{AA{Sa", &[103, 33, 98, 65, 12, 106], b"Aa"),
    // FNC3, FNC2, and a change from B to A
    (
        Receipt,
        b"{B{3{2a{A1",
        &[104, 96, 97, 65, 101, 17, 48, 106],
        b"a1",
    ),
    (
        Receipt,
        b"{B{B{{{S\x01{4",
        &[104, 91, 98, 65, 100, 59, 106],
        b"{\x01",
    ),
    (
        Receipt,
        b"{Ba{S\x01b{4c",
        &[104, 65, 98, 65, 66, 100, 67, 78, 106],
        b"a\x01bc",
    ),
    (Label, b">;123456", &[105, 12, 34, 56, 44, 106], b"123456"),
    (Label, b">;123", &[105, 12, 14, 106], b"12"),
    (
        Label,
        b">935>61>6",
        &[103, 35, 100, 17, 100, 68, 106],
        b"C1",
    ),
    (
        Label,
        b">=A>50x12>8",
        &[104, 94, 33, 99, 12, 102, 89, 106],
        b"~A12",
    ),
    (
        Label,
        b">9>1>0><>=",
        &[103, 95, 30, 62, 94, 99, 106],
        b"\x1f>^\x1e",
    ),
    (
        LabelPacked,
        b"12345",
        &[105, 12, 34, 100, 21, 54, 106],
        b"12345",
    ),
    (
        LabelPacked,
        b"A1234>123",
        &[104, 33, 99, 12, 34, 100, 30, 17, 18, 19, 76, 106],
        b"A1234>123",
    ),
];

/// The first row whose bytes haven't this symbol.
fn wrong_symbol(rows: &[Worked]) -> Option<usize> {
    for i in 0..rows.len() {
        let (how, src, values, text) = rows[i];
        match symbol_of(how, src) {
            Ok(bars) => {
                if bars.symbols() != values || bars.text().as_slice() != text {
                    return Some(i);
                }
            }
            Err(_) => return Some(i),
        }
    }
    None
}

#[test]
fn symbols(rt: HostRuntime) {
    same(&rt, &wrong_symbol(&SYMBOLS), &None);
}

type Refused = (Made, &'static [u8], Fault);

/// Bytes, and why they have no symbol.
static REFUSED: [Refused; 32] = [
    (Code39, b"", Fault::Symbol(Why::Empty)),
    (Code39, b"**", Fault::Symbol(Why::Empty)),
    (Code39, b"*", Fault::Symbol(Why::Char)),
    (Code39, b"***", Fault::Symbol(Why::Char)),
    (Code39Checked, b"a", Fault::Symbol(Why::Char)),
    (Code39, &[b'A'; 256], Fault::SymbolTooLong),
    (Ean13Padded, b"", Fault::Symbol(Why::Empty)),
    (Ean13, b"12", Fault::Symbol(Why::Length)),
    (Ean13, b"12345678901234", Fault::Symbol(Why::Length)),
    (Ean13Padded, b"12345678901234A", Fault::Symbol(Why::Char)),
    (Ean13Padded, &[b'1'; 256], Fault::SymbolTooLong),
    (Receipt, b"", Fault::Symbol(Why::Empty)),
    (Receipt, b"{C", Fault::Symbol(Why::Empty)),
    (Receipt, b"{B{B", Fault::Symbol(Why::Empty)),
    (Receipt, b"A", Fault::Symbol(Why::CodeSet)),
    (Receipt, b"{C{2", Fault::Symbol(Why::CodeSet)),
    (Receipt, b"{C{{", Fault::Symbol(Why::CodeSet)),
    (Receipt, b"{A1{S", Fault::Symbol(Why::CodeSet)),
    (Receipt, b"{A1{", Fault::Symbol(Why::CodeSet)),
    (Receipt, b"{Aa{S", Fault::Symbol(Why::Char)),
    (Receipt, b"{Cd", Fault::Symbol(Why::Char)),
    (Receipt, &[b'{'; 256], Fault::SymbolTooLong),
    (Label, b"", Fault::Symbol(Why::Empty)),
    (Label, b">;1A", Fault::Symbol(Why::Empty)),
    (Label, b"A>9", Fault::Symbol(Why::CodeSet)),
    (Label, b"A>4", Fault::Symbol(Why::CodeSet)),
    (Label, b"A\x80", Fault::Symbol(Why::Char)),
    (Label, b"A>", Fault::Symbol(Why::CodeSet)),
    (Label, &[b'A'; 256], Fault::SymbolTooLong),
    (LabelPacked, b"", Fault::Symbol(Why::Empty)),
    (LabelPacked, b"\x1f", Fault::Symbol(Why::Char)),
    (LabelPacked, &[b'1'; 256], Fault::SymbolTooLong),
];

/// The first row whose bytes aren't refused so.
fn wrong_refusal(rows: &[Refused]) -> Option<usize> {
    for i in 0..rows.len() {
        let (how, src, fault) = rows[i];
        if symbol_of(how, src).err() != Some(fault) {
            return Some(i);
        }
    }
    None
}

#[test]
fn refusals(rt: HostRuntime) {
    same(&rt, &wrong_refusal(&REFUSED), &None);
}

/// As many bytes as a symbol can have.
static MOST: [u8; 255] = [b'A'; 255];

/// How many values a symbol has.
fn count_of(how: Made, src: &[u8]) -> Option<usize> {
    match symbol_of(how, src) {
        Ok(bars) => Some(bars.symbols().len()),
        Err(_) => None,
    }
}

#[test]
fn longest(rt: HostRuntime) {
    let counts = [count_of(Code39Checked, &MOST), count_of(LabelPacked, &MOST)];
    same(&rt, &counts, &[Some(258); 2]);
}

type Drawn = (Made, &'static [u8], u16, u16, [u8; 16]);

/// Bytes, the dots of a narrow and of a wide element, and the first bytes of a row of the bars.
static DRAWN: [Drawn; 4] = [
    (
        Code39,
        b"A",
        2,
        5,
        [
            0xc1, 0x9f, 0x3e, 0x67, 0xcc, 0xc1, 0x9f, 0x30, 0x67, 0xcf, 0x98, 0, 0, 0, 0, 0,
        ],
    ),
    (
        Code39,
        b"A",
        2,
        4,
        [
            0xc3, 0x3c, 0xf3, 0x3c, 0xcc, 0x33, 0xcc, 0x33, 0xcf, 0x30, 0, 0, 0, 0, 0, 0,
        ],
    ),
    // 101 0001101 0100111 0101111 0111101 0001001 0110011 01010 1000010 1000010 1000010 1110100
    // 1000010 1100110 101
    (
        Ean13,
        b"400638133393",
        1,
        1,
        [
            0xa3, 0x53, 0xaf, 0x7a, 0x25, 0x9a, 0xa1, 0x42, 0x85, 0xd2, 0x16, 0x6a, 0, 0, 0, 0,
        ],
    ),
    // 11010000100 10011100110 10011100110 1100011101011: start A, 1, the check 17, stop
    (
        Receipt,
        b"{A1",
        1,
        1,
        [
            0xd0, 0x93, 0x9a, 0x73, 0x63, 0xac, 0, 0, 0, 0, 0, 0, 0, 0, 0, 0,
        ],
    ),
];

/// The first bytes of a row of a symbol's bars.
fn bars_of(how: Made, src: &[u8], narrow: u16, wide: u16, sheets: &Sheets) -> [u8; 16] {
    let mut row = [0; 16];
    if let Ok(bars) = symbol_of(how, src) {
        bars.boxed(narrow, wide, 1, sheets, Font::A, HriPosition::None)
            .paint_row(0, Op::Black, 0, &mut row);
    }
    row
}

/// The first row whose bars are others.
fn wrong_bars(rows: &[Drawn], sheets: &Sheets) -> Option<usize> {
    for i in 0..rows.len() {
        let (how, src, narrow, wide, bytes) = rows[i];
        if bars_of(how, src, narrow, wide, sheets) != bytes {
            return Some(i);
        }
    }
    None
}

#[test]
fn bars_to_the_dot(rt: HostRuntime) {
    let sheets = Sheets { a: None, b: None };
    same(&rt, &wrong_bars(&DRAWN, &sheets), &None);
}

/// A symbol's box: which text it has, in which font, and its size.
type Sized = (
    Made,
    &'static [u8],
    u16,
    u16,
    u16,
    Font,
    HriPosition,
    (u32, u32),
);

static SIZED: [Sized; 5] = [
    (Code39, b"3", 2, 5, 1, Font::A, HriPosition::Below, (85, 25)),
    (Code39, b"3", 2, 5, 1, Font::B, HriPosition::Both, (85, 35)),
    (
        Receipt,
        b"{C\x0c",
        1,
        1,
        5,
        Font::A,
        HriPosition::Above,
        (46, 29),
    ),
    (
        LabelPacked,
        b"1234567890",
        1,
        1,
        5,
        Font::A,
        HriPosition::Above,
        (120, 29),
    ),
    (
        LabelPacked,
        b"1234567890",
        1,
        1,
        5,
        Font::A,
        HriPosition::None,
        (90, 5),
    ),
];

/// The first row whose box has another size.
fn wrong_size(rows: &[Sized], sheets: &Sheets) -> Option<usize> {
    for i in 0..rows.len() {
        let (how, src, narrow, wide, height, font, place, size) = rows[i];
        match symbol_of(how, src) {
            Ok(bars) => {
                let boxed = bars.boxed(narrow, wide, height, sheets, font, place);
                if boxed.size() != size {
                    return Some(i);
                }
            }
            Err(_) => return Some(i),
        }
    }
    None
}

#[test]
fn sizes(rt: HostRuntime) {
    let sheets = Sheets { a: None, b: None };
    same(&rt, &wrong_size(&SIZED, &sheets), &None);
}

/// A row of ink, painted black at the left.
fn row_of<I: Ink>(ink: &I, y: u32) -> [u8; 11] {
    let mut row = [0; 11];
    ink.paint_row(y, Op::Black, 0, &mut row);
    row
}

/// The bars of a 3 are in the first row, and the 3 is below them.
fn has_bars_and_text<I: Ink>(rt: &impl Abort, below: &I) {
    let bars = [
        0xc1, 0x9f, 0x3e, 0x67, 0xcf, 0x83, 0x33, 0x30, 0x67, 0xcf, 0x98,
    ];
    let text = [0, 0, 0, 0, 0x0f, 0xff, 0, 0, 0, 0, 0];
    same(rt, &[row_of(below, 0), row_of(below, 24)], &[bars, text]);
    same(rt, &[below.ink(36, 1), below.ink(35, 1)], &[true, false]);
}

fn shows_a_three(rt: &impl Abort, sheets: &Sheets) {
    let bars = code39(b"3", false).expect(rt, "no symbol");
    let below = bars.boxed(2, 5, 1, sheets, Font::A, HriPosition::Below);
    has_bars_and_text(rt, &below);
}

#[test]
fn a_box_with_its_text(rt: HostRuntime) -> Result<(), Fail> {
    shows_a_three(&rt, &stairs(rt.alloc())?);
    Ok(())
}
