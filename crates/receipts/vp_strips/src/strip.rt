//! The rows of a strip: a line, white rows, a cut, a row of a raster, a symbol, or a page.
ghost use Rattle.std.specs.Prelude.{◌≡◌, ℕ, ◌+◌, ◌-◌, ◌*◌, ◌<◌, ◌≤◌, List, true, false, take, nat_le, ◌&&◌};
ghost use Rattle.vp_dots.specs.Dots.{dot};
ghost use Rattle.vp_dots.specs.Images.{row_of};
ghost use Rattle.vp_esc.specs.declared.item.EscItem.{EscItem};
ghost use Rattle.vp_dots.specs.Headers.{header_of};
ghost use Rattle.vp_strips.specs.Canvases.{canvas_of, Canvas as TheCanvas};
ghost use Rattle.vp_dots.specs.Images.{Image};
ghost use Rattle.vp_strips.specs.SymbolInks.{IsDrawn};
ghost use Rattle.vp_page.specs.declared.page.TheConstants.{PAPER_BYTES, PAPER_DOTS, PAGE_ROWS};
ghost use Rattle.vp_receipt_settings.specs.declared.text.TheConstants.{LINE_ROWS};
ghost use Rattle.vp_receipt_settings.specs.Setup.{across, row_bytes, Setup};
ghost use Rattle.vp_receipt_settings.specs.Line.{line};
ghost use Rattle.vp_receipt_settings.specs.Settings.{settings_of, IsFit};
ghost use Rattle.vp_strips.specs.LineDots.{HasOpen};
ghost use Rattle.vp_strips.specs.Rows.{clipped, image_text, line_text, cut_text, white_text, cut_dot};
ghost use Rattle.vp_strips.specs.Jobs.{row_text, line_dot_of, page_dot_of, dot_in};
ghost use Rattle.vp_strips.specs.Held.{IsLow, IsLowIf, IsLowDots, IsHigh, IsOwn, whole, whole_if};

use crate::canvas::Canvas;
use crate::paint::Bitmap;
use vp_dots::{Ink, Op, Small, dots_decide, fill_dots, or_into};
use vp_esc::item::Cut;
use vp_page::{PAGE_ROWS, PAPER_BYTES, PAPER_DOTS, Page};
use vp_receipt_settings::{LINE_ROWS, Settings, Width};

/// What the rows of a strip show.
#[derive(Clone, Copy)]
pub enum Dots {
    /// The lowest `height` rows of the line's bitmap, from dot `left` on, clipped after `length`; then white.
    Line { height: u16, left: u16, length: u16 },
    White,
    /// A cut.
    Across(Cut),
    /// The row of a raster.
    Raster,
    /// The symbol, `left` dots from the left, and clipped after `length` dots.
    Drawn { left: u16, length: u16 },
    /// The page.
    Page,
}

/// Rows of an image across the paper.
#[derive(Clone, Copy)]
pub struct Strip {
    pub paper: Width,
    /// The rows of the image.
    pub tall: u32,
    /// The rows that follow the image's header.
    pub rows: u32,
    pub dots: Dots,
}

/// Writes a row with these dots, `left` dots from the left.
fn write_moved(source: &[u8], left: u16, row: &mut [u8; PAPER_BYTES])
    ensures { (d : ℕ) → d < PAPER_DOTS → dot row.new d ≡ (nat_le left d && dot source.now (d - left)) }
{
    if left == 0 && source.len() >= PAPER_BYTES {
        row.copy_from_slice(&source[..PAPER_BYTES]);
        return;
    }
    *row = [0; PAPER_BYTES];
    or_into(source, i64::from(left), row);
}

/// Writes a row with these dots, `left` dots from the left, and clipped after `length` dots.
pub fn write_clipped(source: &[u8], left: u16, length: u16, row: &mut [u8; PAPER_BYTES])
    ensures { row.new ≡ row_of PAPER_BYTES (clipped left length (dot source.now)) }
{
    write_moved(source, left, row);
    let end = u64::from(left) + u64::from(length);
    fill_dots(Op::White, end, PAPER_DOTS as u64, row);
    dots_decide(row);
}

/// Writes a row of the lowest rows of a bitmap, or a white one past them.
fn write_line_row<A: Small>(
    height: u16,
    left: u16,
    length: u16,
    y: u32,
    bitmap: &Bitmap<A>,
    row: &mut [u8; PAPER_BYTES],
)
    requires { height ≤ LINE_ROWS }
    ensures { row.new ≡ row_of PAPER_BYTES (λ x. line_dot_of height left length bitmap.now x y) }
{
    if y < u32::from(height) {
        let source = bitmap.row(LINE_ROWS - height as usize + y as usize);
        write_clipped(source, left, length, row);
        return;
    }
    *row = [0; PAPER_BYTES];
    dots_decide(row);
}

/// Writes a row of the page, or a white one past them.
fn write_page_row<A: Small>(y: u32, page: &Page<A>, row: &mut [u8; PAPER_BYTES])
    ensures { row.new ≡ row_of PAPER_BYTES (λ x. page_dot_of page.now.rows x y) }
{
    if (y as usize) < PAGE_ROWS {
        row.copy_from_slice(page.row(y as usize));
        dots_decide(row);
        return;
    }
    *row = [0; PAPER_BYTES];
    dots_decide(row);
}

/// Writes a row with line y of ink, `left` dots from the left, and clipped after `length` dots.
pub fn write_ink<I: Ink>(ink: &I, y: u32, left: u16, length: u16, row: &mut [u8; PAPER_BYTES])
    ensures { row.new ≡ row_of PAPER_BYTES (clipped left length (λ x. I.ink_at ink.now x y)) }
{
    *row = [0; PAPER_BYTES];
    ink.paint_row(y, Op::Black, i64::from(left), row);
    let end = u64::from(left) + u64::from(length);
    fill_dots(Op::White, end, PAPER_DOTS as u64, row);
    dots_decide(row);
}

/// The bytes of a cut.
fn cut_row(cut: Cut) -> [u8; PAPER_BYTES]
    ensures { result ≡ row_of PAPER_BYTES (cut_dot cut) }
{
    match cut {
        Cut::Full => [0xff; PAPER_BYTES],
        Cut::Partial => [
            0xff, 0, 0xff, 0, 0xff, 0, 0xff, 0, 0xff, 0, 0xff, 0, 0xff, 0, 0xff, 0, 0xff, 0, 0xff,
            0, 0xff, 0, 0xff, 0, 0xff, 0, 0xff, 0, 0xff, 0, 0xff, 0, 0xff, 0, 0xff, 0, 0xff, 0,
            0xff, 0, 0xff, 0, 0xff, 0, 0xff, 0, 0xff, 0, 0xff, 0, 0xff, 0, 0xff, 0, 0xff, 0, 0xff,
            0, 0xff, 0, 0xff, 0, 0xff, 0, 0xff, 0, 0xff, 0, 0xff, 0, 0xff, 0,
        ],
    }
}

impl Dots {
    /// Writes the bytes of a row.
    pub fn write_row<A: Small>(self, y: u32, canvas: &Canvas<A>, row: &mut [u8; PAPER_BYTES])
        requires { IsLowDots self }
        ensures { row.new ≡ row_of PAPER_BYTES (λ x. dot_in self (canvas_of canvas.now) x y) }
    {
        match self {
            Dots::Line {
                height,
                left,
                length,
            } => {
                write_line_row(height, left, length, y, &canvas.bitmap, row);
                return;
            }
            Dots::White => *row = [0; PAPER_BYTES],
            Dots::Across(cut) => {
                *row = cut_row(cut);
                return;
            }
            Dots::Raster => *row = canvas.raster_row,
            Dots::Drawn { left, length } => {
                canvas
                    .symbol
                    .write_row(&canvas.sheets, y, left, length, row);
                return;
            }
            Dots::Page => {
                write_page_row(y, &canvas.page, row);
                return;
            }
        }
        dots_decide(row);
    }

    /// The first and the last of the rows around row y that are known to have its dots.
    pub fn alike<A: Small>(self, y: u32, canvas: &Canvas<A>) -> (u32, u32)
        ensures first { result.0 ≤ y }
        ensures last { y ≤ result.1 }
        ensures same { (x v : ℕ) → result.0 ≤ v → v ≤ result.1 →
            dot_in self (canvas_of canvas.now) x v ≡ dot_in self (canvas_of canvas.now) x y }
    {
        match self {
            Dots::White | Dots::Across(_) | Dots::Raster => (0, u32::MAX),
            Dots::Drawn { .. } => canvas.symbol.alike(&canvas.sheets, y),
            Dots::Line { .. } | Dots::Page => (y, y),
        }
    }

    /// How many of `rows` rows, from the top, may have a black dot.
    pub fn inked(self, rows: u32) -> u32
        ensures white { (canvas : TheCanvas) (x y : ℕ) → result ≤ y → y < rows →
            dot_in self canvas x y ≡ false }
        ensures page { self ≡ Dots.Page → result ≡ PAGE_ROWS }
        ensures line { (height left length : ℕ) → self ≡ Dots.Line height left length → result ≡ height }
    {
        match self {
            Dots::Line { height, .. } => u32::from(height),
            Dots::White => 0,
            Dots::Page => PAGE_ROWS as u32,
            Dots::Across(_) | Dots::Raster | Dots::Drawn { .. } => rows,
        }
    }
}

impl Strip {
    /// The line of the settings in an image of `rows` rows, unless these are none.
    pub fn of_line(s: &Settings, rows: u32) -> Option<Strip>
        requires { IsFit s.now }
        ensures low { IsLowIf result }
        ensures high { IsHigh result s.now.height }
        ensures text { (setup : Setup) (before : List EscItem) (canvas : TheCanvas) →
            s.now ≡ settings_of setup before →
            HasOpen (line setup before) canvas.bitmap → whole_if result canvas ≡ line_text setup before rows }
    {
        if rows == 0 {
            return None;
        }
        Some(Strip {
            paper: s.paper,
            tall: rows,
            rows,
            dots: Dots::Line {
                height: s.height,
                left: s.printed_at(u32::from(s.right_edge)),
                length: s.paper_length(),
            },
        })
    }

    /// White rows.
    pub fn white(paper: Width, rows: u32) -> Strip
        ensures own { IsOwn result }
        ensures text { (canvas : TheCanvas) → 0 < rows → whole result canvas ≡ white_text paper rows }
    {
        Strip {
            paper,
            tall: rows,
            rows,
            dots: Dots::White,
        }
    }

    /// A cut.
    pub fn cut(paper: Width, cut: Cut) -> Strip
        ensures own { IsOwn result }
        ensures text { (canvas : TheCanvas) → whole result canvas ≡ cut_text paper cut }
    {
        Strip {
            paper,
            tall: 1,
            rows: 1,
            dots: Dots::Across(cut),
        }
    }

    /// The header of a raster of `rows` rows.
    pub fn raster_head(paper: Width, rows: u32) -> Strip
        ensures own { IsOwn result }
        ensures text { (canvas : TheCanvas) → whole result canvas ≡ header_of (across paper) rows }
    {
        Strip {
            paper,
            tall: rows,
            rows: 0,
            dots: Dots::Raster,
        }
    }

    /// A symbol `wide` dots wide and `high` rows high.
    pub fn drawn(s: &Settings, wide: u32, high: u32) -> Strip
        requires { 0 < high }
        ensures own { IsOwn result }
        ensures text { (setup : Setup) (before : List EscItem) (canvas : TheCanvas) (image : Image) →
            s.now ≡ settings_of setup before → IsDrawn canvas.sheets canvas.symbol wide high image →
            whole result canvas ≡ image_text setup before (Some image) }
    {
        Strip {
            paper: s.paper,
            tall: high,
            rows: high,
            dots: Dots::Drawn {
                left: s.printed_at(wide),
                length: s.paper_length(),
            },
        }
    }

    /// Rows of the page.
    pub fn page(paper: Width, rows: u32) -> Strip
        ensures { result ≡ record { paper = paper; tall = rows; rows = rows; dots = Dots.Page } }
    {
        Strip {
            paper,
            tall: rows,
            rows,
            dots: Dots::Page,
        }
    }

    /// A row of a raster, `times` times.
    pub fn raster_rows(paper: Width, times: u32) -> Strip
        ensures { result ≡ record { paper = paper; tall = 0; rows = times; dots = Dots.Raster } }
    {
        Strip {
            paper,
            tall: 0,
            rows: times,
            dots: Dots::Raster,
        }
    }

    /// How many rows follow the header.
    pub fn rows(self) -> u32
        ensures { result ≡ self.rows }
    {
        self.rows
    }

    /// Writes the bytes of a row.
    pub fn write_row<A: Small>(self, y: u32, canvas: &Canvas<A>, row: &mut [u8; PAPER_BYTES])
        requires { IsLow self }
        ensures { take (row_bytes self.paper) row.new ≡ row_text self (canvas_of canvas.now) y }
    {
        self.dots.write_row(y, canvas, row);
    }
}
