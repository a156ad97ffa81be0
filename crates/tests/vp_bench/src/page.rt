//! How long filling a page takes in each direction, row by row, beside copying its bytes.
use crate::measure::{copy, least};
use anyhow::Result;
use std::io;
use std::rt::Clock;
use vp_dots::Band;
use vp_page::{Area, Direction, Page};

const ROUNDS: u32 = 40;

const BYTES: f64 = 119808.0;

const WHOLE: Area = Area {
    x: 0,
    y: 0,
    dx: 576,
    dy: 1664,
};

/// One that begins inside a byte.
const INNER: Area = Area {
    x: 3,
    y: 5,
    dx: 570,
    dy: 1650,
};

fn copy_rows(source: &[u8], band: &mut Band<72, 1664>) {
    for y in 0..1664usize {
        copy(source, band.row_mut(y));
    }
}

/// Bytes whose dots follow no pattern.
fn mixed() -> [u8; 4096] {
    let mut bytes = [0; 4096];
    let mut state = 1u64;
    for byte in bytes.iter_mut() {
        state = state
            .wrapping_mul(6_364_136_223_846_793_005)
            .wrapping_add(1_442_695_040_888_963_407);
        *byte = state.to_be_bytes()[0];
    }
    bytes
}

/// Lays rows of these bytes, each from another one on, until the area is full.
fn lay_rows(area: Area, direction: Direction, bytes: &[u8; 4096], page: &mut Page) {
    let n = match direction {
        Direction::LeftToRight | Direction::RightToLeft => 72,
        Direction::BottomToTop | Direction::TopToBottom => 208,
    };
    for v in 0..u32::from(area.depth(direction)) {
        let from = v as usize * 7 % 3888;
        page.lay_row(area, direction, v, &bytes[from..from + n]);
    }
}

/// Megabytes in a second, of pages that take `page` nanoseconds.
fn rate(page: f64) -> f64 {
    BYTES * 1e3 / page
}

/// What stands in the rows of a page.
fn kinds() -> [(&'static str, [u8; 4096]); 4] {
    [
        ("black rows", [0xff; 4096]),
        ("rows of 5a", [0x5a; 4096]),
        ("rows of 01", [0x01; 4096]),
        ("mixed rows", mixed()),
    ]
}

/// Prints how many times as long as copying the rows are laid, and how fast.
fn show_rows(
    rt: &impl Print,
    name: &str,
    kind: &str,
    x: u16,
    laid: f64,
    copied: f64,
) -> io::Result<()> {
    println!(rt;
        "{name}, {kind}, from column {x}: {:.0} MB/s, {:.1} times copying",
        rate(laid),
        laid / copied
    )
}

fn show(
    rt: &(impl Clock + Print),
    name: &str,
    direction: Direction,
    page: &mut Page,
    copied: f64,
) -> io::Result<()> {
    for (kind, bytes) in &kinds() {
        for area in [WHOLE, INNER] {
            let laid = least(rt, ROUNDS, || lay_rows(area, direction, bytes, page))?;
            show_rows(rt, name, kind, area.x, laid, copied)?;
        }
    }
    Ok(())
}

const DIRECTIONS: [(&str, Direction); 4] = [
    ("left to right", Direction::LeftToRight),
    ("bottom to top", Direction::BottomToTop),
    ("right to left", Direction::RightToLeft),
    ("top to bottom", Direction::TopToBottom),
];

/// Prints the times.
pub fn run(rt: &(impl AllocGlobal + Clock + Print)) -> Result<()> {
    let mut band: Band<72, 1664> = Band::new(rt.alloc())?;
    let source = [0x5a; 72];
    let copied = least(rt, ROUNDS, || copy_rows(&source, &mut band))?;
    println!(rt; "copying the rows of a page: {:.0} MB/s", rate(copied))?;
    let mut page = Page::new(rt.alloc())?;
    for (name, direction) in DIRECTIONS {
        show(rt, name, direction, &mut page, copied)?;
    }
    Ok(())
}
