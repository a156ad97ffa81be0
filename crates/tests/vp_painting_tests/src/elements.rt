//! The bars of each character, by the tables of the standards.
use crate::bars::{Made, SYMBOLS, symbol_of};
use crate::checks::same;
use vp_bars::HriPosition;
use vp_dots::{Ink, Op, paint_dot};
use vp_glyph::{Font, Sheets};

/// The widths of the elements of each value of Code 128, a bar first, and last those of the stop
/// (ISO/IEC 15417, table 1).
static CODE_128: [&[u8]; 107] = [
    b"212222", b"222122", b"222221", b"121223", b"121322", b"131222", b"122213", b"122312",
    b"132212", b"221213", b"221312", b"231212", b"112232", b"122132", b"122231", b"113222",
    b"123122", b"123221", b"223211", b"221132", b"221231", b"213212", b"223112", b"312131",
    b"311222", b"321122", b"321221", b"312212", b"322112", b"322211", b"212123", b"212321",
    b"232121", b"111323", b"131123", b"131321", b"112313", b"132113", b"132311", b"211313",
    b"231113", b"231311", b"112133", b"112331", b"132131", b"113123", b"113321", b"133121",
    b"313121", b"211331", b"231131", b"213113", b"213311", b"213131", b"311123", b"311321",
    b"331121", b"312113", b"312311", b"332111", b"314111", b"221411", b"431111", b"111224",
    b"111422", b"121124", b"121421", b"141122", b"141221", b"112214", b"112412", b"122114",
    b"122411", b"142112", b"142211", b"241211", b"221114", b"413111", b"241112", b"134111",
    b"111242", b"121142", b"121241", b"114212", b"124112", b"124211", b"411212", b"421112",
    b"421211", b"212141", b"214121", b"412121", b"111143", b"111341", b"131141", b"114113",
    b"114311", b"411113", b"411311", b"113141", b"114131", b"311141", b"411131", b"211412",
    b"211214", b"211232", b"2331112",
];

/// The widths of the elements of each character of Code 39, where a wide one has two dots (ISO/IEC 16388,
/// table 1), in the order of their values.
static CODE_39: [(u8, &[u8]); 43] = [
    (b'0', b"111221211"),
    (b'1', b"211211112"),
    (b'2', b"112211112"),
    (b'3', b"212211111"),
    (b'4', b"111221112"),
    (b'5', b"211221111"),
    (b'6', b"112221111"),
    (b'7', b"111211212"),
    (b'8', b"211211211"),
    (b'9', b"112211211"),
    (b'A', b"211112112"),
    (b'B', b"112112112"),
    (b'C', b"212112111"),
    (b'D', b"111122112"),
    (b'E', b"211122111"),
    (b'F', b"112122111"),
    (b'G', b"111112212"),
    (b'H', b"211112211"),
    (b'I', b"112112211"),
    (b'J', b"111122211"),
    (b'K', b"211111122"),
    (b'L', b"112111122"),
    (b'M', b"212111121"),
    (b'N', b"111121122"),
    (b'O', b"211121121"),
    (b'P', b"112121121"),
    (b'Q', b"111111222"),
    (b'R', b"211111221"),
    (b'S', b"112111221"),
    (b'T', b"111121221"),
    (b'U', b"221111112"),
    (b'V', b"122111112"),
    (b'W', b"222111111"),
    (b'X', b"121121112"),
    (b'Y', b"221121111"),
    (b'Z', b"122121111"),
    (b'-', b"121111212"),
    (b'.', b"221111211"),
    (b' ', b"122111211"),
    (b'$', b"121212111"),
    (b'/', b"121211121"),
    (b'+', b"121112121"),
    (b'%', b"111212121"),
];

/// Those of its start and stop.
const STAR: &[u8] = b"121121211";

/// Thirteen digits for each first one, with the widths of all elements that an encoder written apart from
/// this one drew. Each digit stands in each number set.
static EAN_13: [(&[u8], &[u8]); 10] = [
    (
        b"0185296307412",
        b"11122211213123121223112111411111141132111312113222212122111",
    ),
    (
        b"1418529630742",
        b"11111322221312112312212211311111111414113211131211322122111",
    ),
    (
        b"2741852963072",
        b"11113121132122231211231221211111311211141411321113122122111",
    ),
    (
        b"3074185296302",
        b"11132111312231112223121123111111212231121114141132112122111",
    ),
    (
        b"4307418529632",
        b"11114111123131211321222312111111123121223112111414112122111",
    ),
    (
        b"5630741852962",
        b"11111141141112313121132122211111121312312122311211142122111",
    ),
    (
        b"6963074185292",
        b"11131124111114111231312113211111222112131231212231122122111",
    ),
    (
        b"7296307418522",
        b"11121222113111411413211213111111113222211213123121222122111",
    ),
    (
        b"8529630741852",
        b"11112312212311241111141321111111131211322221121312312122111",
    ),
    (
        b"9852963074182",
        b"11112131321221231124111141111111321113121132222112132122111",
    ),
];

/// Paints elements from dot `x` on, in turn bars and spaces, and answers where they end. Their widths are
/// digits.
fn draw(widths: &[u8], x: u128, row: &mut [u8; 20]) -> u128 {
    let mut x = x;
    for (i, width) in widths.iter().enumerate() {
        for _ in 0..width.wrapping_sub(b'0') {
            if i % 2 == 0 {
                paint_dot(Op::Black, x, row);
            }
            x = x.wrapping_add(1);
        }
    }
    x
}

/// The row of a symbol of these values.
fn code_128(values: &[u8]) -> [u8; 20] {
    let mut row = [0; 20];
    let mut x = 0;
    for v in values {
        if let Some(widths) = CODE_128.get(usize::from(*v)) {
            x = draw(widths, x, &mut row);
        }
    }
    row
}

/// The row of a symbol of one character between stars, with gaps of one dot.
fn code_39(widths: &[u8]) -> [u8; 20] {
    let mut row = [0; 20];
    let mut x = 0;
    for part in [STAR, widths, STAR] {
        x = draw(part, x, &mut row).wrapping_add(1);
    }
    row
}

/// The row of a symbol whose elements are drawn so.
fn ean_13(widths: &[u8]) -> [u8; 20] {
    let mut row = [0; 20];
    draw(widths, 0, &mut row);
    row
}

/// A row of the bars of some bytes, in modules of one dot, where they have a symbol.
fn row_of(how: Made, src: &[u8]) -> Option<[u8; 20]> {
    let sheets: Sheets = Sheets { a: None, b: None };
    let bars = symbol_of(how, src).ok()?;
    let mut row = [0; 20];
    bars.boxed(1, 2, 1, &sheets, Font::A, HriPosition::None)
        .paint_row(0, Op::Black, 0, &mut row);
    Some(row)
}

/// The row of set C's pair `v`: start C, the pair, the check, the stop.
fn pair(v: u8) -> [u8; 20] {
    let check = u32::from(v).wrapping_add(105) % 103;
    code_128(&[105, v, check as u8, 106])
}

#[test]
fn pairs_of_code_128(rt: HostRuntime) {
    for v in 0..100u8 {
        same(
            &rt,
            &row_of(Made::Receipt, &[b'{', b'C', v]),
            &Some(pair(v)),
        );
    }
}

/// Whether a symbol is one of Code 128.
fn is_of_code_128(how: Made) -> bool {
    matches!(how, Made::Receipt | Made::Label | Made::LabelPacked)
}

#[test]
fn symbols_of_code_128(rt: HostRuntime) {
    for (how, src, values, _) in &SYMBOLS {
        if is_of_code_128(*how) {
            same(&rt, &row_of(*how, src), &Some(code_128(values)));
        }
    }
}

#[test]
fn characters_of_code_39(rt: HostRuntime) {
    for (character, widths) in &CODE_39 {
        same(
            &rt,
            &row_of(Made::Code39, &[*character]),
            &Some(code_39(widths)),
        );
    }
}

#[test]
fn digits_of_ean_13(rt: HostRuntime) {
    for (digits, widths) in &EAN_13 {
        same(&rt, &row_of(Made::Ean13, digits), &Some(ean_13(widths)));
    }
}
