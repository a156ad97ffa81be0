//! Rows of dots, bands, stores and faults.

ghost use Rattle.std.specs.Prelude.{◌≤◌};

use crate::checks::{reads, same};
use std::process::Abort;
use std::test::Fail;
use vp_dots::{
    Band, Fault, Full, Ink, Op, Store, Why, clear_into, fill_dots, fill_moved, first_dots, header,
    or_into, paint_at, paint_bits, paint_dot, paint_word, word_at, xor_into,
};

/// Stairs down to the right: line y has ink at its first y + 1 places.
#[derive(Drop)]
struct Stairs {
    steps: u32,
}

impl Ink for Stairs {
    ghost use Rattle.std.specs.Prelude.{nat_lt, nat_le, ◌&&◌};
    ghost use Rattle.std.proofs.lemmas.Bool.{and_parts, ltb-true};

    ghost width = { λ s. s.steps };

    ghost height = { λ s. s.steps };

    ghost ink_at = { λ s x y. nat_le x y && nat_lt x s.steps && nat_lt y s.steps };

    ghost outside = { λ s x y h.
        (ltb-true x s.steps (and_parts _ _ (and_parts _ _ h).0).1, ltb-true y s.steps (and_parts _ _ h).1) };

    fn size(&self) -> (u32, u32) {
        (self.steps, self.steps)
    }

    fn ink(&self, x: u32, y: u32) -> bool {
        x <= y && x < self.steps && y < self.steps
    }
}

static OPS: [Op; 3] = [Op::Black, Op::White, Op::Flip];

/// The last dot of a new band is white, then it is painted, and then the band is cleared.
fn paints_its_last_dot(rt: &impl Abort, band: &mut Band<72, 2>) {
    let dots = [
        band.get(0, 0),
        band.get(576, 0),
        band.get(575, 1),
        band.get(0, 2),
    ];
    same(rt, &dots, &[Some(false), None, Some(false), None]);
    band.row_mut(1)[71] = 1;
    same(rt, &band.get(575, 1), &Some(true));
    band.clear();
    same(rt, &band.row(1)[71], &0);
}

#[test]
fn bands(rt: HostRuntime) -> Result<(), Fail> {
    let mut band: Band<72, 2> = Band::new(rt.alloc())?;
    paints_its_last_dot(&rt, &mut band);
    Ok(())
}

/// Places, and a white row after the byte C1 is painted there.
static KERNELS: [(i64, [u8; 3]); 6] = [
    (0, [0xc1, 0, 0]),
    (3, [0x18, 0x20, 0]),
    (8, [0, 0xc1, 0]),
    (23, [0, 0, 0x01]),
    (-1, [0x82, 0, 0]),
    (-8, [0, 0, 0]),
];

/// A white row painted black, a black row painted white, and that flipped.
fn painted(source: &[u8], at: i64) -> [[u8; 3]; 3] {
    let mut black = [0; 3];
    or_into(source, at, &mut black);
    let mut white = [0xff; 3];
    clear_into(source, at, &mut white);
    let mut flipped = white;
    xor_into(source, at, &mut flipped);
    [black, white, flipped]
}

#[test]
fn kernels(rt: HostRuntime) {
    for (at, want) in &KERNELS {
        let white = [!want[0], !want[1], !want[2]];
        same(&rt, &painted(&[0xc1], *at), &[*want, white, [0xff; 3]]);
    }
}

/// Bytes with all kinds of bits in them.
fn mixed(seed: u8) -> [u8; 70] {
    let mut bytes = [0; 70];
    let mut byte = seed;
    for place in 0..70usize {
        bytes[place] = byte;
        byte = byte.wrapping_mul(109).wrapping_add(57);
    }
    bytes
}

fn kernel(op: Op, source: &[u8], at: i64, row: &mut [u8]) {
    match op {
        Op::Black => or_into(source, at, row),
        Op::White => clear_into(source, at, row),
        Op::Flip => xor_into(source, at, row),
    }
}

/// The kernel paints the beginning of a row as the slow reference does.
fn kernel_agrees(rt: &impl Abort, op: Op, source: &[u8], at: i64, length: usize)
    requires { length ≤ 70 }
{
    let mut fast = mixed(2);
    let mut slow = mixed(2);
    kernel(op, source, at, &mut fast[..length]);
    paint_bits(op, source, at, &mut slow[..length]);
    same(rt, &fast, &slow);
}

/// The kernel paints at `at` as the slow reference does, with sources and rows of 0 to 70 bytes.
fn kernel_agrees_at(rt: &impl Abort, op: Op, at: i64) {
    let source = mixed(1);
    for n in 0..71usize {
        for m in [n, 70 - n, 70] {
            kernel_agrees(rt, op, &source[..n], at, m);
        }
    }
}

#[test]
fn kernels_agree_with_the_slow_reference(rt: HostRuntime) {
    for op in &OPS {
        for at in -9i64..10 {
            kernel_agrees_at(&rt, *op, at);
        }
    }
}

/// A span is filled as dot by dot.
fn span_agrees(rt: &impl Abort, op: Op, from: u64, to: u64) {
    let mut fast = mixed(3);
    let mut slow = mixed(3);
    fill_dots(op, from, to, &mut fast[..10]);
    for d in from..to {
        paint_dot(op, u128::from(d), &mut slow[..10]);
    }
    same(rt, &fast, &slow);
}

#[test]
fn spans_agree_with_the_slow_reference(rt: HostRuntime) {
    for op in &OPS {
        for from in 0..90u64 {
            for to in 0..90u64 {
                span_agrees(&rt, *op, from, to);
            }
        }
    }
}

static FAR: [i64; 6] = [
    i64::MIN,
    i64::MIN + 1,
    i64::MIN + 9,
    i64::MAX - 9,
    i64::MAX - 1,
    i64::MAX,
];

/// A row after bytes and a span are painted at a place.
fn row_painted_at(op: Op, at: i64) -> [u8; 70] {
    let mut row = mixed(5);
    kernel(op, &mixed(4), at, &mut row);
    fill_moved(op, at, 0, u32::MAX, &mut row);
    row
}

/// A row after a span is filled past its end.
fn row_filled_past_its_end(op: Op) -> [u8; 70] {
    let mut row = mixed(5);
    fill_dots(op, u64::MAX - 9, u64::MAX, &mut row);
    row
}

#[test]
fn far_away_nothing_is_painted(rt: HostRuntime) {
    for op in &OPS {
        for at in &FAR {
            same(&rt, &row_painted_at(*op, *at), &mixed(5));
        }
        same(&rt, &row_filled_past_its_end(*op), &mixed(5));
    }
    let mut row = [0; 3];
    fill_dots(Op::Black, 5, u64::MAX, &mut row);
    same(&rt, &row, &[0x07, 0xff, 0xff]);
}

/// How stairs of three steps are painted, one after the other, where, and the rows of the band then.
static PLACES: [(Op, i64, i64, [[u8; 2]; 3]); 3] = [
    (Op::Black, 7, 1, [[0, 0], [0x01, 0], [0x01, 0x80]]),
    (Op::Flip, -1, -2, [[0xc0, 0], [0x01, 0], [0x01, 0x80]]),
    (
        Op::White,
        i64::MIN,
        i64::MAX,
        [[0xc0, 0], [0x01, 0], [0x01, 0x80]],
    ),
];

fn rows_of(band: &Band<2, 3>) -> [[u8; 2]; 3] {
    let mut rows = [[0; 2]; 3];
    for y in 0..3usize {
        rows[y].copy_from_slice(band.row(y));
    }
    rows
}

#[test]
fn places(rt: HostRuntime) -> Result<(), Fail> {
    let mut band: Band<2, 3> = Band::new(rt.alloc())?;
    for (op, x, y, rows) in &PLACES {
        paint_at(&Stairs { steps: 3 }, *op, *x, *y, &mut band);
        same(&rt, &rows_of(&band), rows);
    }
    Ok(())
}

static HEADS: [(u32, u32, &'static [u8]); 3] = [
    (576, 34, b"P4\n576 34\n"),
    (1, 1248, b"P4\n1 1248\n"),
    (u32::MAX, u32::MAX, b"P4\n4294967295 4294967295\n"),
];

#[test]
fn heads(rt: HostRuntime) {
    for (width, height, text) in &HEADS {
        same(&rt, &header(*width, *height).as_slice(), text);
    }
}

/// The third byte finds no room, until what is held is dropped.
fn holds_two_bytes(rt: &impl Abort, store: &mut Store<2>) {
    let pushed = [store.push(1), store.push(2), store.push(3)];
    same(rt, &pushed, &[Ok(()), Ok(()), Err(Full)]);
    same(rt, &store.bytes(), &[1, 2].as_slice());
    store.clear();
    same(rt, &store.push(4), &Ok(()));
    same(rt, &store.bytes(), &[4].as_slice());
}

#[test]
fn stores(rt: HostRuntime) -> Result<(), Fail> {
    let mut store: Store<2> = Store::new(rt.alloc())?;
    holds_two_bytes(&rt, &mut store);
    Ok(())
}

#[test]
fn a_full_store_in_words(rt: HostRuntime) -> Result<(), Fail> {
    reads(&rt, rt.alloc(), &Full, "no room is left")
}

static FAULTS: [(Fault, u8, &'static str); 14] = [
    (Fault::Unknown(0x1b, 0x7f), 1, "unknown command 1B 7F"),
    (Fault::Unknown(0, 0x41), 1, "unknown command 00 41"),
    (Fault::Symbol(Why::Empty), 2, "symbol: empty"),
    (Fault::Symbol(Why::Char), 2, "symbol: character"),
    (Fault::Symbol(Why::Length), 2, "symbol: length"),
    (Fault::Symbol(Why::CodeSet), 2, "symbol: set"),
    (Fault::Symbol(Why::Unsupported), 2, "symbol: unsupported"),
    (Fault::SymbolTooLong, 3, "symbol too long"),
    (Fault::SymbolTooWide, 4, "symbol too wide"),
    (Fault::FieldsFull, 5, "too many fields"),
    (Fault::StoreFull, 6, "too much field data"),
    (Fault::Graphic, 7, "bad graphic"),
    (Fault::Truncated, 8, "input ends inside a command"),
    (Fault::Unprinted, 9, "input ends before printing"),
];

#[test]
fn fault_texts(rt: HostRuntime) -> Result<(), Fail> {
    for (fault, number, text) in &FAULTS {
        same(&rt, &fault.number(), number);
        reads(&rt, rt.alloc(), fault, text)?;
    }
    Ok(())
}

static WORD_PLACES: [i64; 17] = [
    -70, -64, -63, -9, -1, 0, 1, 7, 8, 24, 25, 31, 32, 33, 40, 95, 96,
];

static TWELVE_BYTES: [u8; 12] = [
    0x5a, 0xff, 0x01, 0, 0xf0, 0x3c, 0x80, 0x0f, 0x55, 0xaa, 0, 0x81,
];

/// A row is painted by a word as dot by dot.
fn word_agrees(rt: &impl Abort, op: Op, at: i64) {
    let word: u64 = 0x9123_4567_89ab_cdef;
    let mut by_word = TWELVE_BYTES;
    paint_word(op, word, at, &mut by_word);
    let mut by_dot = TWELVE_BYTES;
    paint_bits(op, &word.to_be_bytes(), at, &mut by_dot);
    same(rt, &by_word, &by_dot);
}

#[test]
fn words(rt: HostRuntime) {
    for op in &OPS {
        for at in &WORD_PLACES {
            word_agrees(&rt, *op, *at);
        }
    }
}

#[test]
fn words_cut(rt: HostRuntime) {
    same(
        &rt,
        &word_at(&[0x12, 0x34, 0x56], 4),
        &0x2345_6000_0000_0000,
    );
    same(&rt, &word_at(&[0xff; 20], 3), &u64::MAX);
    let firsts = [first_dots(0), first_dots(12), first_dots(64)];
    same(&rt, &firsts, &[0, 0xfff0_0000_0000_0000, u64::MAX]);
}

#[test]
fn cleared_rows(rt: HostRuntime) -> Result<(), Fail> {
    let mut band: Band<3, 12> = Band::new(rt.alloc())?;
    for i in 0..8usize {
        paint_dot(Op::Black, i as u128 + 5, band.row_mut(i + 3));
    }
    band.clear_rows(0, 10);
    same(
        &rt,
        &[band.get(11, 9), band.get(12, 10)],
        &[Some(false), Some(true)],
    );
    Ok(())
}
