//! Bars and QR symbols.
ghost use Rattle.std.specs.Prelude.{◌≡◌, ◌≤◌, length, IfOk};
ghost use Rattle.vp_format.specs.declared.field.Content.TheVariants as contents;
ghost use Rattle.vp_glyph.specs.Sheets.{Sheets};
ghost use Rattle.vp_field.specs.Contents.{content_width, content_height, IsSymbol, LiesIn};
ghost use Rattle.vp_field.specs.Fields.{IsKept};
ghost use Rattle.vp_field.specs.Turning.{turned_height};

use super::{Painter, Rows, plain, shows, whole};
use crate::checks::same;
use crate::sheets::NONE;
use std::alloc::Global;
use std::test::Fail;
use vp_bars::{BarCode, HriPosition, linear};
use vp_dots::{Fault, Op};
use vp_field::{SizedContent, bytes_of, turned_rows};
use vp_format::{BarSymbol, Content, Field, QrSymbol};
use vp_qr::{Level, Mode, encode};
use vp_zpl::item::Orientation;

/// How many rows bars have that are turned: none where their data have no symbol.
fn rows_of(orientation: Orientation, stored: &[u8], bars: BarSymbol) -> u32
    requires { LiesIn stored.now bars.bytes }
    ensures { (sheets : Sheets) → result ≡ turned_height orientation
        (content_width sheets stored.now (contents.Bars bars))
        (content_height sheets stored.now (contents.Bars bars)) }
{
    match linear(bars.code, bytes_of(stored, bars.bytes)) {
        Ok(symbol) => {
            let shown = SizedContent::bars(&NONE, &symbol, bars);
            turned_rows(orientation, shown.width, shown.height)
        }
        Err(_) => 0,
    }
}

/// The bars of data at the label's corner.
fn bars_of(orientation: Orientation, stored: &[u8]) -> Field
    requires { length stored.now ≤ 100 }
    ensures { IsKept stored.now result }
{
    let bars = BarSymbol {
        bytes: whole(stored),
        code: BarCode::Code39 { check: false },
        narrow: 2,
        wide: 4,
        height: 1,
        place: HriPosition::None,
    };
    Field {
        op: Op::Black,
        left: 0,
        top: 0,
        rows: rows_of(orientation, stored, bars),
        orientation,
        content: Content::Bars(bars),
    }
}

/// The QR symbol of data, its modules of one dot, where they have one.
fn modules_of(stored: &[u8]) -> Result<QrSymbol, Fault>
    requires { length stored.now ≤ 100 }
    ensures { IfOk result (IsSymbol stored.now) }
{
    let qr = encode(stored, Level::M, Mode::Auto)?;
    let Ok(mask) = u8::try_from(qr.mask()) else {
        return Err(Fault::Unprinted);
    };
    Ok(QrSymbol {
        bytes: whole(stored),
        level: Level::M,
        mode: Mode::Auto,
        module: 1,
        version: qr.version() as u8,
        mask,
    })
}

/// The QR symbol of data at the label's corner, where they have one.
fn symbol(stored: &[u8]) -> Result<Field, Fault>
    requires { length stored.now ≤ 100 }
    ensures { IfOk result (IsKept stored.now) }
{
    let shown = SizedContent::qr(modules_of(stored)?);
    Ok(Field {
        op: Op::Black,
        left: 0,
        top: 0,
        rows: shown.height,
        orientation: Orientation::Rotated,
        content: shown.content,
    })
}

/// The bars of an A along the label.
static ALONG: Rows = &[(1, [0xc3, 0x3c, 0xf3, 0x3c, 0xcc, 0x33])];

/// The bars of an A down the label.
static DOWN: Rows = &[
    (2, [0x80, 0, 0, 0, 0, 0]),
    (4, [0; 6]),
    (2, [0x80, 0, 0, 0, 0, 0]),
    (2, [0; 6]),
    (4, [0x80, 0, 0, 0, 0, 0]),
    (2, [0; 6]),
    (4, [0x80, 0, 0, 0, 0, 0]),
    (2, [0; 6]),
    (2, [0x80, 0, 0, 0, 0, 0]),
    (2, [0; 6]),
    (4, [0x80, 0, 0, 0, 0, 0]),
];

/// A symbol of 21 modules, each of one dot.
static HELLO_WORLD: Rows = &[
    (1, [0xfe, 0x2b, 0xf8, 0, 0, 0]),
    (1, [0x82, 0xe2, 0x08, 0, 0, 0]),
    (1, [0xba, 0x2a, 0xe8, 0, 0, 0]),
    (1, [0xba, 0x2a, 0xe8, 0, 0, 0]),
    (1, [0xba, 0xba, 0xe8, 0, 0, 0]),
    (1, [0x82, 0x72, 0x08, 0, 0, 0]),
    (1, [0xfe, 0xab, 0xf8, 0, 0, 0]),
    (1, [0x00, 0x00, 0x00, 0, 0, 0]),
    (1, [0xaa, 0x48, 0x90, 0, 0, 0]),
    (1, [0x78, 0x90, 0x88, 0, 0, 0]),
    (1, [0x1f, 0xd2, 0xc0, 0, 0, 0]),
    (1, [0xf5, 0x9d, 0x70, 0, 0, 0]),
    (1, [0x4f, 0x53, 0xa8, 0, 0, 0]),
    (1, [0x00, 0xa2, 0x28, 0, 0, 0]),
    (1, [0xfe, 0x09, 0x60, 0, 0, 0]),
    (1, [0x82, 0x63, 0x40, 0, 0, 0]),
    (1, [0xba, 0xcb, 0xf8, 0, 0, 0]),
    (1, [0xba, 0x35, 0x10, 0, 0, 0]),
    (1, [0xba, 0xf7, 0x48, 0, 0, 0]),
    (1, [0x82, 0x1c, 0x58, 0, 0, 0]),
    (1, [0xfe, 0xd7, 0x08, 0, 0, 0]),
];

/// The first band of a label of `width` dots and `height` rows, with `field`.
fn painted(
    alloc: Global,
    width: u16,
    height: u16,
    stored: &[u8],
    field: &Field,
) -> Result<Painter, Fail>
    requires { IsKept stored.now field.now }
{
    let mut page = Painter::new(alloc, plain(width, height), 0)?;
    page.paint(&NONE, stored, field);
    Ok(page)
}

#[test]
fn bars(rt: HostRuntime) -> Result<(), Fail> {
    let along = bars_of(Orientation::Normal, b"A");
    shows(
        &rt,
        painted(rt.alloc(), 80, 1, b"A", &along)?,
        "bars",
        ALONG,
    );
    let down = bars_of(Orientation::Rotated, b"A");
    shows(
        &rt,
        painted(rt.alloc(), 80, 80, b"A", &down)?,
        "turned bars",
        DOWN,
    );
    Ok(())
}

#[test]
fn qr(rt: HostRuntime) -> Result<(), Fail> {
    match symbol(b"HELLO WORLD") {
        Ok(field) => {
            same(&rt, &field.rows, &21);
            let painter = painted(rt.alloc(), 40, 40, b"HELLO WORLD", &field)?;
            shows(&rt, painter, "a symbol", HELLO_WORLD);
        }
        Err(fault) => same(&rt, &Some(fault), &None),
    }
    Ok(())
}

#[test]
fn data_without_a_symbol(rt: HostRuntime) -> Result<(), Fail> {
    let field = bars_of(Orientation::Normal, b"a");
    same(&rt, &field.rows, &0);
    shows(
        &rt,
        painted(rt.alloc(), 40, 40, b"a", &field)?,
        "no symbol",
        &[],
    );
    Ok(())
}
