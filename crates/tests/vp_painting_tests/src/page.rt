//! The page: rows, images and wipes in four directions.
use crate::checks::same;
use std::alloc::Global;
use std::process::Abort;
use std::test::Fail;
use vp_dots::{Ink, Op, paint_dot};
use vp_page::{Area, Direction, LINE_BYTES, PAGE_ROWS, Page};
use vp_qr::{Level, Mode, QrInk, encode};

/// A wedge: line y has ink at its first side - y places.
#[derive(Drop)]
struct Wedge {
    side: u32,
}

impl Ink for Wedge {
    ghost use Rattle.std.specs.Prelude.{◌-◌, nat_lt, ◌&&◌};
    ghost use Rattle.std.proofs.lemmas.Bool.{and_parts, ltb-true};

    ghost width = { λ s. s.side };

    ghost height = { λ s. s.side };

    ghost ink_at = { λ s x y. nat_lt y s.side && nat_lt x (s.side - y) && nat_lt x s.side };

    ghost outside = { λ s x y h.
        (ltb-true x s.side (and_parts _ _ h).1, ltb-true y s.side (and_parts _ _ (and_parts _ _ h).0).0) };

    fn size(&self) -> (u32, u32) {
        (self.side, self.side)
    }

    fn ink(&self, x: u32, y: u32) -> bool {
        y < self.side && x < self.side - y && x < self.side
    }
}

const BOX: Area = Area {
    x: 0,
    y: 0,
    dx: 16,
    dy: 8,
};

/// The first two bytes of the first eight rows.
fn corner(page: &mut Page) -> [[u8; 2]; 8] {
    page.turn_in();
    let mut rows = [[0; 2]; 8];
    for y in 0..8 {
        if let [first, second, ..] = page.row(y) {
            rows[y] = [*first, *second];
        }
    }
    rows
}

/// One row of three dots is laid on a white page, whose corner is as wanted then.
fn lays(
    rt: &impl Abort,
    alloc: Global,
    area: Area,
    direction: Direction,
    v: u32,
    wanted: &[[u8; 2]; 8],
) -> Result<(), Fail> {
    let mut page = Page::new(alloc)?;
    page.lay_row(area, direction, v, &[0xe0]);
    same(rt, &corner(&mut page), wanted);
    Ok(())
}

#[test]
fn left_to_right(rt: HostRuntime) -> Result<(), Fail> {
    let mut wanted = [[0; 2]; 8];
    wanted[0] = [0xe0, 0];
    lays(&rt, rt.alloc(), BOX, Direction::LeftToRight, 0, &wanted)
}

#[test]
fn bottom_to_top(rt: HostRuntime) -> Result<(), Fail> {
    let mut wanted = [[0; 2]; 8];
    for y in 5..8 {
        wanted[y] = [0x80, 0];
    }
    lays(&rt, rt.alloc(), BOX, Direction::BottomToTop, 0, &wanted)
}

#[test]
fn right_to_left(rt: HostRuntime) -> Result<(), Fail> {
    let mut wanted = [[0; 2]; 8];
    wanted[7] = [0, 0x07];
    lays(&rt, rt.alloc(), BOX, Direction::RightToLeft, 0, &wanted)
}

#[test]
fn top_to_bottom(rt: HostRuntime) -> Result<(), Fail> {
    let mut wanted = [[0; 2]; 8];
    for y in 0..3 {
        wanted[y] = [0, 0x01];
    }
    lays(&rt, rt.alloc(), BOX, Direction::TopToBottom, 0, &wanted)
}

/// An area two dots wide and six high.
const NARROW: Area = Area {
    x: 3,
    y: 1,
    dx: 2,
    dy: 6,
};

#[test]
fn a_depth_further(rt: HostRuntime) -> Result<(), Fail> {
    let mut wanted = [[0; 2]; 8];
    wanted[2] = [0x18, 0];
    lays(&rt, rt.alloc(), NARROW, Direction::LeftToRight, 1, &wanted)?;
    lays(
        &rt,
        rt.alloc(),
        NARROW,
        Direction::BottomToTop,
        2,
        &[[0; 2]; 8],
    )
}

#[test]
fn images(rt: HostRuntime) -> Result<(), Fail> {
    let mut page = Page::new(rt.alloc())?;
    page.lay(&Wedge { side: 3 }, BOX, Direction::TopToBottom, 1);
    let mut wanted = [[0; 2]; 8];
    wanted[0] = [0, 0x0e];
    wanted[1] = [0, 0x06];
    wanted[2] = [0, 0x02];
    same(&rt, &corner(&mut page), &wanted);
    Ok(())
}

/// From the fifth dot of the last of eight rows on, past the end of the page.
const FROM_THE_EIGHTH_ROW: Area = Area {
    x: 4,
    y: 7,
    dx: 5,
    dy: 60000,
};

/// Five dots of a row are wiped, some of which were laid down the page, and then all.
fn wipes(rt: &impl Abort, page: &mut Page) {
    page.lay_row(BOX, Direction::LeftToRight, 7, &[0xff, 0x7f]);
    page.lay_row(BOX, Direction::TopToBottom, 7, &[0x01]);
    page.wipe(FROM_THE_EIGHTH_ROW);
    let mut wanted = [[0; 2]; 8];
    wanted[7] = [0xf0, 0x7f];
    same(rt, &corner(page), &wanted);
    page.clear();
    same(rt, &corner(page), &[[0; 2]; 8]);
}

#[test]
fn wiped(rt: HostRuntime) -> Result<(), Fail> {
    let mut page = Page::new(rt.alloc())?;
    wipes(&rt, &mut page);
    Ok(())
}

/// An area inside the page, and two past its edges.
static AREAS: [Area; 3] = [
    Area {
        x: 13,
        y: 21,
        dx: 40,
        dy: 99,
    },
    Area {
        x: 530,
        y: 1640,
        dx: 60,
        dy: 40,
    },
    Area {
        x: 560,
        y: 1600,
        dx: 60,
        dy: 3000,
    },
];

static DIRECTIONS: [Direction; 4] = [
    Direction::LeftToRight,
    Direction::BottomToTop,
    Direction::RightToLeft,
    Direction::TopToBottom,
];

static DEPTHS: [u32; 5] = [0, 5, 32, 33, 52];

/// As many rows as the highest line of text has.
const MANY: usize = 192;

/// So many rows: they have dots all over, and end black, or each third one white.
fn many_rows() -> [[u8; LINE_BYTES]; MANY] {
    let mut rows = [[0; LINE_BYTES]; MANY];
    for i in 0..192u8 {
        for j in 0..40u8 {
            rows[usize::from(i)][usize::from(j)] = (j ^ (i << 5)) & 0xb7;
        }
        for j in 40..208u8 {
            rows[usize::from(i)][usize::from(j)] = if i % 3 == 0 { 0 } else { 255 };
        }
    }
    rows
}

/// Rows of which each of 24 stands eight times, as those of a large character do.
fn large_rows() -> [[u8; LINE_BYTES]; MANY] {
    let few = many_rows();
    let mut rows = [[0; LINE_BYTES]; MANY];
    for i in 0..MANY {
        rows[i] = few[i / 8];
    }
    rows
}

/// How many dots a line of an area has, and how many lines there are.
fn extent(area: Area, direction: Direction) -> (u32, u32) {
    let (wide, high) = (u32::from(area.dx), u32::from(area.dy));
    match direction {
        Direction::LeftToRight | Direction::RightToLeft => (wide, high),
        _ => (high, wide),
    }
}

/// Where dot `u` of line `v` of an area falls on the page, if it does: a line runs to the right, up, to the
/// left or down, and the next one lies below, to the right, above or to the left of it.
fn place(area: Area, direction: Direction, u: u32, v: u32) -> Option<(u32, u32)> {
    let (length, depth) = extent(area, direction);
    if u >= length || v >= depth {
        return None;
    }
    let back_u = length.wrapping_sub(1).wrapping_sub(u);
    let back_v = depth.wrapping_sub(1).wrapping_sub(v);
    let (across, down) = match direction {
        Direction::LeftToRight => (u, v),
        Direction::BottomToTop => (v, back_u),
        Direction::RightToLeft => (back_u, back_v),
        Direction::TopToBottom => (back_v, u),
    };
    let x = u32::from(area.x).wrapping_add(across);
    let y = u32::from(area.y).wrapping_add(down);
    (x < 576 && y < 1664).then_some((x, y))
}

/// Blackens a place of a page, if it is one.
fn blacken(place: Option<(u32, u32)>, page: &mut [u8]) {
    if let Some((x, y)) = place {
        let dot = u128::from(y).wrapping_mul(576).wrapping_add(u128::from(x));
        paint_dot(Op::Black, dot, page);
    }
}

/// Paints a line at depth `v` of an area, dot by dot.
fn paint_line(area: Area, direction: Direction, v: u32, line: &[u8], page: &mut [u8]) {
    let (length, _) = extent(area, direction);
    for u in 0..length.min(1664) {
        if let Some(byte) = line.get(u as usize / 8) {
            if *byte & (0x80 >> (u % 8)) != 0 {
                blacken(place(area, direction, u, v), page);
            }
        }
    }
}

/// A page with lines in an area from depth `v` on, painted dot by dot.
fn painted(
    alloc: Global,
    area: Area,
    direction: Direction,
    v: u32,
    lines: &[[u8; LINE_BYTES]],
) -> Result<Vec<u8>, Fail> {
    let mut page = vec![in alloc; 0u8; 119_808]?;
    let mut depth = v;
    for line in lines {
        paint_line(area, direction, depth, line, &mut page);
        depth = depth.saturating_add(1);
    }
    Ok(page)
}

/// How many rows of a page are others than those of 72 bytes each.
fn differences(page: &mut Page, rows: &[u8]) -> u32 {
    page.turn_in();
    let mut count = 0u32;
    for y in 0..PAGE_ROWS {
        let from = y.wrapping_mul(72);
        if rows.get(from..from.wrapping_add(72)) != Some(page.row(y)) {
            count = count.saturating_add(1);
        }
    }
    count
}

/// Lays lines one by one, from depth `v` on.
fn lay_each(page: &mut Page, area: Area, direction: Direction, v: u32, lines: &[[u8; LINE_BYTES]]) {
    let mut depth = v;
    for line in lines {
        page.lay_row(area, direction, depth, line);
        depth = depth.saturating_add(1);
    }
}

/// Lines are laid as dot by dot, at once and one by one.
fn lays_lines(
    rt: &impl Abort,
    alloc: Global,
    area: Area,
    direction: Direction,
    v: u32,
    lines: &[[u8; LINE_BYTES]],
) -> Result<(), Fail> {
    let lines = &lines[..lines.len().min(MANY)];
    let want = painted(alloc, area, direction, v, lines)?;
    let mut at_once = Page::new(alloc)?;
    at_once.lay_lines(area, direction, v, lines, &[]);
    let mut one_by_one = Page::new(alloc)?;
    lay_each(&mut one_by_one, area, direction, v, lines);
    let found = [
        differences(&mut at_once, &want),
        differences(&mut one_by_one, &want),
    ];
    same(rt, &found, &[0, 0]);
    Ok(())
}

/// The first lines at once in all places and directions.
fn lays_everywhere(
    rt: &impl Abort,
    alloc: Global,
    lines: &[[u8; LINE_BYTES]],
    count: usize,
) -> Result<(), Fail> {
    let lines = &lines[..lines.len().min(count)];
    for area in &AREAS {
        for direction in &DIRECTIONS {
            for v in &DEPTHS {
                lays_lines(rt, alloc, *area, *direction, *v, lines)?;
            }
        }
    }
    Ok(())
}

#[test]
fn one_line(rt: HostRuntime) -> Result<(), Fail> {
    lays_everywhere(&rt, rt.alloc(), &many_rows(), 1)
}

#[test]
fn few_lines(rt: HostRuntime) -> Result<(), Fail> {
    lays_everywhere(&rt, rt.alloc(), &many_rows(), 32)
}

#[test]
fn more_lines_than_few(rt: HostRuntime) -> Result<(), Fail> {
    lays_everywhere(&rt, rt.alloc(), &many_rows(), 33)
}

#[test]
fn more_lines_than_two_squares(rt: HostRuntime) -> Result<(), Fail> {
    lays_everywhere(&rt, rt.alloc(), &many_rows(), 136)
}

#[test]
fn as_many_lines_as_text_has(rt: HostRuntime) -> Result<(), Fail> {
    lays_everywhere(&rt, rt.alloc(), &many_rows(), MANY)
}

#[test]
fn lines_that_are_the_same_in_runs(rt: HostRuntime) -> Result<(), Fail> {
    lays_everywhere(&rt, rt.alloc(), &large_rows(), MANY)
}

#[test]
fn some_of_them(rt: HostRuntime) -> Result<(), Fail> {
    lays_everywhere(&rt, rt.alloc(), &large_rows()[3..149], MANY)
}

/// A line of so many bytes is laid as dot by dot, from column `x` on.
fn lays_a_line(
    rt: &impl Abort,
    alloc: Global,
    x: u16,
    direction: Direction,
    bytes: usize,
) -> Result<(), Fail> {
    let area = Area {
        x,
        y: 8,
        dx: 570,
        dy: 1650,
    };
    let rows = many_rows();
    let line = &rows[5][..bytes.min(LINE_BYTES)];
    let mut want = vec![in alloc; 0u8; 119_808]?;
    paint_line(area, direction, 2, line, &mut want);
    let mut page = Page::new(alloc)?;
    page.lay_row(area, direction, 2, line);
    same(rt, &differences(&mut page, &want), &0);
    Ok(())
}

#[test]
fn lines_of_whole_words(rt: HostRuntime) -> Result<(), Fail> {
    for direction in &DIRECTIONS {
        for bytes in [8, 16, 64, 72] {
            for x in [0, 3, 6, 8] {
                lays_a_line(&rt, rt.alloc(), x, *direction, bytes)?;
            }
        }
    }
    Ok(())
}

/// The lines of a symbol, dot by dot.
fn lines_of(ink: &QrInk) -> [[u8; LINE_BYTES]; MANY] {
    let mut lines = [[0; LINE_BYTES]; MANY];
    for y in 0..192u32 {
        for x in 0..192u32 {
            if ink.ink(x, y) {
                paint_dot(Op::Black, u128::from(x), &mut lines[y as usize]);
            }
        }
    }
    lines
}

/// A symbol of 21 modules, of which each has nine lines that are alike, is laid as dot by dot.
fn lays_a_symbol(rt: &impl Abort, alloc: Global, direction: Direction) -> Result<(), Fail> {
    let qr = encode(b"HELLO WORLD", Level::L, Mode::Auto).expect(rt, "no symbol");
    let ink = qr.scaled(9);
    let (wide, _) = ink.size();
    assert!(rt; wide <= 1664);
    let lines = lines_of(&ink);
    for area in &AREAS {
        for v in &DEPTHS {
            let want = painted(alloc, *area, direction, *v, &lines)?;
            let mut page = Page::new(alloc)?;
            page.lay(&ink, *area, direction, *v);
            same(rt, &differences(&mut page, &want), &0);
        }
    }
    Ok(())
}

#[test]
fn a_symbol_to_the_right(rt: HostRuntime) -> Result<(), Fail> {
    lays_a_symbol(&rt, rt.alloc(), Direction::LeftToRight)
}

#[test]
fn a_symbol_upward(rt: HostRuntime) -> Result<(), Fail> {
    lays_a_symbol(&rt, rt.alloc(), Direction::BottomToTop)
}

#[test]
fn a_symbol_to_the_left(rt: HostRuntime) -> Result<(), Fail> {
    lays_a_symbol(&rt, rt.alloc(), Direction::RightToLeft)
}

#[test]
fn a_symbol_downward(rt: HostRuntime) -> Result<(), Fail> {
    lays_a_symbol(&rt, rt.alloc(), Direction::TopToBottom)
}
