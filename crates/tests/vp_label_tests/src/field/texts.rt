//! Texts and blocks of lines, in each orientation.
ghost use Rattle.std.specs.Prelude.{◌≤◌, length};
ghost use Rattle.vp_field.specs.Fields.{IsKept};

use super::{Label, Painter, Rows, shows, view_of, whole};
use crate::checks::same_by;
use crate::sheets::{NONE, stairs};
use std::alloc::Global;
use std::test::Fail;
use vp_dots::Op;
use vp_field::{SizedContent, turned_rows};
use vp_format::{Content, Field, Text, TextBlock};
use vp_glyph::{Alignment, Sheets};
use vp_zpl::item::Orientation;

/// A text of cells of 12 by 24 in the label's first row.
fn text(orientation: Orientation, left: i8, stored: &[u8]) -> Field
    requires { length stored.now ≤ 100 }
    ensures { IsKept stored.now result }
{
    let text = Text {
        bytes: whole(stored),
        width: 12,
        height: 24,
    };
    let shown = SizedContent::text(&NONE, stored, text);
    Field {
        op: Op::Black,
        left: i64::from(left),
        top: 0,
        rows: turned_rows(orientation, shown.width, shown.height),
        orientation,
        content: Content::Text(text),
    }
}

/// A block of 24 dots at the label's corner.
fn block(orientation: Orientation, stored: &[u8], lines: u8, alignment: Alignment) -> Field
    requires { length stored.now ≤ 100 }
    ensures { IsKept stored.now result }
{
    let text = Text {
        bytes: whole(stored),
        width: 12,
        height: 24,
    };
    let block = TextBlock {
        text,
        width: 24,
        lines: u16::from(lines),
        gap: 0,
        alignment,
    };
    let shown = SizedContent::block(&NONE, stored, block);
    Field {
        op: Op::Black,
        left: 0,
        top: 0,
        rows: turned_rows(orientation, shown.width, shown.height),
        orientation,
        content: Content::Block(block),
    }
}

/// A text in `orientation`, with its left edge at `left`, on `label`, and the rows that the band shows.
struct TextRow {
    letters: &'static [u8],
    orientation: Orientation,
    left: i8,
    label: Label,
    rows: Rows,
}

static TEXT_ROWS: &[TextRow] = &[
    TextRow {
        letters: b"M",
        orientation: Orientation::Normal,
        left: 0,
        label: (16, 24, false, false),
        rows: &[(24, [0xff, 0xf0, 0, 0, 0, 0])],
    },
    TextRow {
        letters: b"B",
        orientation: Orientation::Rotated,
        left: 0,
        label: (24, 12, false, false),
        rows: &[(1, [0xff, 0xff, 0xff, 0, 0, 0])],
    },
    TextRow {
        letters: b"B",
        orientation: Orientation::BottomUp,
        left: 0,
        label: (24, 12, false, false),
        rows: &[(11, [0; 6]), (1, [0xff, 0xff, 0xff, 0, 0, 0])],
    },
    TextRow {
        letters: b"B",
        orientation: Orientation::Inverted,
        left: 0,
        label: (24, 12, false, false),
        rows: &[(12, [0, 0x10, 0, 0, 0, 0])],
    },
    TextRow {
        letters: b"B",
        orientation: Orientation::Normal,
        left: 0,
        label: (24, 12, false, false),
        rows: &[(12, [0x80, 0, 0, 0, 0, 0])],
    },
    // past the left edge
    TextRow {
        letters: b"NMNMB",
        orientation: Orientation::Normal,
        left: -30,
        label: (40, 24, false, false),
        rows: &[(24, [0x03, 0xff, 0xe0, 0, 0, 0])],
    },
];

#[test]
fn texts(rt: HostRuntime) -> Result<(), Fail> {
    let sheets = stairs(rt.alloc())?;
    for case in TEXT_ROWS {
        let letters = case.letters;
        assert!(rt; letters.len() <= 100);
        let mut page = Painter::new(rt.alloc(), view_of(case.label), 0)?;
        page.paint(
            &sheets,
            letters,
            &text(case.orientation, case.left, letters),
        );
        shows(&rt, page, "a text", case.rows);
    }
    Ok(())
}

/// A block of 24 dots, and a band of the label that it is on.
struct BlockRow {
    letters: &'static [u8],
    orientation: Orientation,
    lines: u8,
    alignment: Alignment,
    label: Label,
    first: u32,
    rows: Rows,
}

const FULL: [u8; 6] = [0xff, 0xff, 0xff, 0, 0, 0];

static BLOCK_ROWS: &[BlockRow] = &[
    BlockRow {
        letters: b"MM M",
        orientation: Orientation::Normal,
        lines: 2,
        alignment: Alignment::Right,
        label: (24, 48, false, false),
        first: 0,
        rows: &[(24, FULL), (8, [0, 0x0f, 0xff, 0, 0, 0])],
    },
    BlockRow {
        letters: b"MM M",
        orientation: Orientation::Normal,
        lines: 2,
        alignment: Alignment::Right,
        label: (24, 48, false, false),
        first: 32,
        rows: &[(16, [0, 0x0f, 0xff, 0, 0, 0])],
    },
    BlockRow {
        letters: b"MM M",
        orientation: Orientation::Normal,
        lines: 1,
        alignment: Alignment::Left,
        label: (24, 48, false, false),
        first: 0,
        rows: &[(24, FULL), (8, [0; 6])],
    },
    BlockRow {
        letters: b"MM M",
        orientation: Orientation::Normal,
        lines: 1,
        alignment: Alignment::Left,
        label: (24, 48, false, false),
        first: 32,
        rows: &[(16, [0; 6])],
    },
    BlockRow {
        letters: b"M\\&MM",
        orientation: Orientation::Normal,
        lines: 2,
        alignment: Alignment::Centre,
        label: (24, 48, false, false),
        first: 0,
        rows: &[(24, [0x03, 0xff, 0xc0, 0, 0, 0]), (8, FULL)],
    },
    BlockRow {
        letters: b"M\\&MM",
        orientation: Orientation::Normal,
        lines: 2,
        alignment: Alignment::Centre,
        label: (24, 48, false, false),
        first: 32,
        rows: &[(16, FULL)],
    },
    BlockRow {
        letters: b"MMM",
        orientation: Orientation::Normal,
        lines: 2,
        alignment: Alignment::Left,
        label: (24, 48, false, false),
        first: 0,
        rows: &[(24, FULL), (8, [0xff, 0xf0, 0, 0, 0, 0])],
    },
    BlockRow {
        letters: b"MMM",
        orientation: Orientation::Normal,
        lines: 2,
        alignment: Alignment::Left,
        label: (24, 48, false, false),
        first: 32,
        rows: &[(16, [0xff, 0xf0, 0, 0, 0, 0])],
    },
    BlockRow {
        letters: b"MM M",
        orientation: Orientation::Rotated,
        lines: 2,
        alignment: Alignment::Right,
        label: (48, 24, false, false),
        first: 0,
        rows: &[(12, [0, 0, 0, 0xff, 0xff, 0xff]), (12, [0xff; 6])],
    },
];

#[test]
fn blocks(rt: HostRuntime) -> Result<(), Fail> {
    let sheets = stairs(rt.alloc())?;
    for case in BLOCK_ROWS {
        let letters = case.letters;
        assert!(rt; letters.len() <= 100);
        let field = block(case.orientation, letters, case.lines, case.alignment);
        let mut page = Painter::new(rt.alloc(), view_of(case.label), case.first)?;
        page.paint(&sheets, letters, &field);
        shows(&rt, page, "a block", case.rows);
    }
    Ok(())
}

/// The first 32 dots of the rows of a band that shows a block of four lines on a label so wide.
fn first_dots(
    alloc: Global,
    sheets: &Sheets,
    orientation: Orientation,
    width: u16,
) -> Result<[[u8; 4]; 32], Fail> {
    let letters = b"M\\&MM\\&M\\&MM";
    let field = block(orientation, letters, 4, Alignment::Left);
    let mut page = Painter::new(alloc, view_of((width, 24, false, false)), 0)?;
    page.paint(sheets, letters, &field);
    let rows = page.rows();
    let mut dots = [[0; 4]; 32];
    for y in 0..32 {
        dots[y].copy_from_slice(&rows[y][..4]);
    }
    Ok(dots)
}

/// A block is drawn only as wide as the label, and shows the same there.
#[test]
fn blocks_on_a_narrow_label(rt: HostRuntime) -> Result<(), Fail> {
    let sheets = stairs(rt.alloc())?;
    for orientation in [
        Orientation::Normal,
        Orientation::Rotated,
        Orientation::Inverted,
        Orientation::BottomUp,
    ] {
        let narrow = first_dots(rt.alloc(), &sheets, orientation, 32)?;
        let wide = first_dots(rt.alloc(), &sheets, orientation, 1248)?;
        same_by(&rt, "a block on a narrow label", &narrow, &wide);
    }
    Ok(())
}
