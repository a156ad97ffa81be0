//! Glyph sheets, characters and blocks of text.

ghost use Rattle.std.specs.Prelude.{◌≤◌, ◌≤ℤ◌, pos};

use crate::checks::{reads, same};
use crate::sheet::{stairs, stairs_text};
use std::alloc::Global;
use std::process::Abort;
use std::test::Fail;
use vp_dots::{Ink, Op};
use vp_glyph::{Alignment, Font, Sheet, Sheets, Style};

const PLAIN: Style = Style {
    wm: 1,
    hm: 1,
    spacing: 0,
    bold: false,
    underline: 0,
    inverse: false,
};

const DOUBLE: Style = Style {
    wm: 2,
    hm: 2,
    ..PLAIN
};

const BOLD: Style = Style {
    bold: true,
    ..PLAIN
};

const UNDERLINED: Style = Style {
    underline: 2,
    ..PLAIN
};

const INVERSE: Style = Style {
    underline: 1,
    inverse: true,
    ..PLAIN
};

const SPACED: Style = Style {
    spacing: 4,
    inverse: true,
    ..PLAIN
};

const LARGE: Style = Style {
    underline: 1,
    ..DOUBLE
};

/// A row of ink, painted black at the left.
fn row_of<I: Ink>(ink: &I, y: u32) -> [u8; 4] {
    let mut row = [0; 4];
    ink.paint_row(y, Op::Black, 0, &mut row);
    row
}

/// Characters in a font and a style, and a row of each.
static CHARACTERS: [(u8, Font, Style, u32, [u8; 4]); 18] = [
    (b'M', Font::A, PLAIN, 0, [0xff, 0xf0, 0, 0]),
    (b'M', Font::A, PLAIN, 23, [0xff, 0xf0, 0, 0]),
    (b'M', Font::A, PLAIN, 24, [0, 0, 0, 0]),
    (b'M', Font::A, DOUBLE, 47, [0xff, 0xff, 0xff, 0]),
    (b'B', Font::A, DOUBLE, 47, [0xc0, 0, 0, 0]),
    (b'M', Font::A, DOUBLE, 48, [0, 0, 0, 0]),
    (b'N', Font::A, UNDERLINED, 21, [0, 0, 0, 0]),
    (b'N', Font::A, UNDERLINED, 22, [0xff, 0xf0, 0, 0]),
    (b'N', Font::A, LARGE, 46, [0, 0, 0, 0]),
    (b'N', Font::A, LARGE, 47, [0xff, 0xff, 0xff, 0]),
    (b'B', Font::A, BOLD, 0, [0xc0, 0, 0, 0]),
    (b'M', Font::A, BOLD, 0, [0xff, 0xf0, 0, 0]),
    (b'M', Font::A, INVERSE, 23, [0, 0, 0, 0]),
    (b'N', Font::A, INVERSE, 0, [0xff, 0xf0, 0, 0]),
    (b'M', Font::A, SPACED, 0, [0, 0x0f, 0, 0]),
    (b'M', Font::B, PLAIN, 0, [0xff, 0x80, 0, 0]),
    (b'M', Font::B, PLAIN, 16, [0xff, 0x80, 0, 0]),
    (b'M', Font::B, PLAIN, 17, [0, 0, 0, 0]),
];

fn are_drawn(rt: &impl Abort, sheets: &Sheets) {
    for (character, font, style, y, want) in &CHARACTERS {
        same(
            rt,
            &row_of(&sheets.cell(*character, *font, *style), *y),
            want,
        );
    }
}

#[test]
fn characters(rt: HostRuntime) -> Result<(), Fail> {
    are_drawn(&rt, &stairs(rt.alloc())?);
    Ok(())
}

/// Characters, the sizes that they are drawn in, and a row of each.
static SAMPLED: [(u8, u32, u32, u32, [u8; 4]); 7] = [
    (b'M', 12, 24, 0, [0xff, 0xf0, 0, 0]),
    (b'B', 12, 24, 23, [0x80, 0, 0, 0]),
    (b'B', 12, 24, 24, [0, 0, 0, 0]),
    (b'B', 24, 12, 11, [0xc0, 0, 0, 0]),
    (b'B', 30, 1, 0, [0xe0, 0, 0, 0]),
    (b'M', 5, 3, 2, [0xf8, 0, 0, 0]),
    (b'N', 5, 3, 2, [0, 0, 0, 0]),
];

fn are_sampled(rt: &impl Abort, sheets: &Sheets) {
    for (character, w, h, y, want) in &SAMPLED {
        same(rt, &row_of(&sheets.sampled(*character, *w, *h), *y), want);
    }
}

#[test]
fn sampled_characters(rt: HostRuntime) -> Result<(), Fail> {
    are_sampled(&rt, &stairs(rt.alloc())?);
    Ok(())
}

/// A row that a character fills twice.
const FULL: [u8; 4] = [0xff, 0xff, 0xff, 0];

/// A row with a character at its right.
const RIGHT: [u8; 4] = [0, 0x0f, 0xff, 0];

const WHITE: [u8; 4] = [0; 4];

/// Ink has these rows.
fn has_rows<I: Ink>(rt: &impl Abort, ink: &I, rows: &[(u32, [u8; 4])]) {
    for row in rows {
        same(rt, &(row.0, row_of(ink, row.0)), row);
    }
}

/// A line that breaks at a blank, and the same from its second line on.
fn breaks_at_a_blank(rt: &impl Abort, sheets: &Sheets) {
    let block = sheets.block(b"MM M", 12, 24, 24, 2, 0, Alignment::Right);
    same(rt, &block.size(), &(24, 48));
    has_rows(rt, &block, &[(23, FULL), (24, RIGHT)]);
    has_rows(rt, &block.from_row(24), &[(23, FULL), (24, RIGHT)]);
}

#[test]
fn a_line_breaks_at_a_blank(rt: HostRuntime) -> Result<(), Fail> {
    breaks_at_a_blank(&rt, &stairs(rt.alloc())?);
    Ok(())
}

/// `text` in at most `most` lines of 24 dots, in cells of 12 by 24.
#[derive(Clone, Copy)]
struct Lines {
    text: &'static [u8],
    most: u32,
    gap: i32,
    alignment: Alignment,
}

/// The lines have this height together, and these rows.
fn have_rows(
    rt: &impl Abort,
    alloc: Global,
    lines: Lines,
    height: u32,
    rows: &[(u32, [u8; 4])],
) -> Result<(), Fail>
    requires most { lines.most ≤ 9999 }
    requires gap { lines.gap ≤ℤ pos 9999 }
{
    let sheets = stairs(alloc)?;
    let (most, gap) = (lines.most, lines.gap);
    let block = sheets.block(lines.text, 12, 24, 24, most, gap, lines.alignment);
    same(rt, &block.size(), &(24, height));
    has_rows(rt, &block, rows);
    Ok(())
}

#[test]
fn lines_past_the_last_stand_over_it(rt: HostRuntime) -> Result<(), Fail> {
    let lines = Lines {
        text: b"MM M",
        most: 1,
        gap: 0,
        alignment: Alignment::Left,
    };
    have_rows(&rt, rt.alloc(), lines, 24, &[(0, FULL), (24, WHITE)])
}

#[test]
fn paragraphs_and_long_words(rt: HostRuntime) -> Result<(), Fail> {
    let paragraphs = Lines {
        text: br"M\&MM",
        most: 2,
        gap: 0,
        alignment: Alignment::Centre,
    };
    let middle = [0x03, 0xff, 0xc0, 0];
    have_rows(&rt, rt.alloc(), paragraphs, 48, &[(0, middle), (47, FULL)])?;
    let long_word = Lines {
        text: b"MMM",
        alignment: Alignment::Left,
        ..paragraphs
    };
    let left = [0xff, 0xf0, 0, 0];
    have_rows(&rt, rt.alloc(), long_word, 48, &[(0, FULL), (24, left)])
}

#[test]
fn lines_closer_than_their_height(rt: HostRuntime) -> Result<(), Fail> {
    let lines = Lines {
        text: b"MM MM ",
        most: 3,
        gap: -4,
        alignment: Alignment::Left,
    };
    have_rows(&rt, rt.alloc(), lines, 64, &[(43, FULL), (44, WHITE)])
}

/// Lines over one another flip each dot of a row once, and a line less wide than a character has no ink.
fn flips_once(rt: &impl Abort, sheets: &Sheets) {
    let block = sheets.block(b"MB MM", 12, 24, 24, 1, 0, Alignment::Left);
    let mut row = [0xff; 4];
    block.paint_row(0, Op::Flip, 4, &mut row);
    same(rt, &row, &[0xf0, 0, 0, 0x0f]);
    block.paint_row(0, Op::White, -12, &mut row);
    same(rt, &row, &[0, 0, 0, 0x0f]);
    let narrow = sheets.block(b"M", 12, 24, 11, 1, 0, Alignment::Left);
    same(rt, &row_of(&narrow, 0), &WHITE);
}

#[test]
fn lines_over_one_another_flip_once(rt: HostRuntime) -> Result<(), Fail> {
    flips_once(&rt, &stairs(rt.alloc())?);
    Ok(())
}

/// What is no sheet, and why.
static NO_SHEETS: [(&'static [u8], Option<u8>, &'static str); 7] = [
    (b"P5\n192 384\n", Some(1), "not P4"),
    (b"P4", Some(2), "bad header"),
    (b"P4\n191 384", Some(2), "bad header"),
    (b"P4\n192 384#\n", Some(2), "bad header"),
    (b"P4\n191 384\n", Some(3), "wrong size"),
    (b"P4#\r0192\t#192 384\n384 ", Some(4), "too short"),
    (b"P4 192 384\n", Some(4), "too short"),
];

/// Bytes are refused as a sheet, by this number and in these words.
fn is_refused(
    rt: &impl Abort,
    alloc: Global,
    src: &[u8],
    number: Option<u8>,
    words: &str,
) -> Result<(), Fail> {
    let why = Sheet::read(alloc, src, 12, 24).err().ok_or("a sheet")?;
    same(rt, &why.number(), &number);
    reads(rt, alloc, &why, words)
}

#[test]
fn sheets_refused(rt: HostRuntime) -> Result<(), Fail> {
    for (src, number, words) in &NO_SHEETS {
        is_refused(&rt, rt.alloc(), src, *number, words)?;
    }
    let text = stairs_text(rt.alloc())?;
    let short = &text[..text.len().saturating_sub(1)];
    is_refused(&rt, rt.alloc(), short, Some(4), "too short")
}
