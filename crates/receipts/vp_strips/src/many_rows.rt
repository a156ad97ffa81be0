//! Rows of a strip, many at a call.
ghost use Rattle.std.specs.Prelude.{◌≡◌, ℕ, ◌+◌, ◌-◌, ◌*◌, ◌<◌, ◌≤◌, ◌^◌, ◌++◌, replicate, take, drop, length};
ghost use Rattle.vp_page.specs.declared.page.TheConstants.{PAGE_ROWS, PAPER_BYTES};
ghost use Rattle.vp_receipt_settings.specs.Setup.{row_bytes};
ghost use Rattle.vp_receipt_settings.specs.declared.text.TheConstants.{LINE_ROWS};
ghost use Rattle.vp_dots.specs.Images.{row_of};
ghost use Rattle.vp_strips.specs.Rows.{paper_row, rows_text};
ghost use Rattle.vp_strips.specs.Jobs.{bitmap_dot, page_dot_of, dot_in, strip_dot};
ghost use Rattle.vp_strips.specs.Held.{IsLow, IsLowDots};
ghost use Rattle.vp_strips.specs.declared.strip.Dots.{Dots};
ghost use Rattle.vp_strips.specs.Canvases.{canvas_of};

use crate::canvas::Canvas;
use crate::paint::Bitmap;
use crate::strip::{Dots, Strip};
use vp_dots::{Small, dots_decide};
use vp_page::{PAGE_ROWS, PAPER_BYTES, Page};
use vp_receipt_settings::{LINE_ROWS, Width};

/// The bytes of a row of the page, as far as the paper goes.
fn page_row<A: Small>(paper: Width, y: usize, page: &Page<A>) -> &[u8]
    requires { y < PAGE_ROWS }
    ensures { result.now ≡ paper_row paper (λ x. page_dot_of page.now.rows x y) }
{
    let row = page.row(y);
    dots_decide(row);
    &row[..paper.row_bytes()]
}

/// Copies a row to the front of a room.
fn copy_row(row: &[u8], room: &mut [u8])
    requires { length row.now ≤ length room.old }
    ensures { room.new ≡ row.now ++ drop (length row.now) room.old }
{
    room[..row.len()].copy_from_slice(row);
}

/// Copies rows of the page, from row y on, as far as the paper goes.
fn copy_page_rows<A: Small>(paper: Width, y: usize, rows: usize, page: &Page<A>, room: &mut [u8])
    requires inside { 0 < rows → y + rows ≤ PAGE_ROWS }
    requires fits { rows * row_bytes paper ≤ length room.old }
    ensures { room.new ≡ rows_text paper (page_dot_of page.now.rows) y rows
        ++ drop (rows * row_bytes paper) room.old }
{
    let bytes = paper.row_bytes();
    for k in 0..rows {
        copy_row(page_row(paper, y + k, page), &mut room[k * bytes..]);
    }
}

/// The bytes of a row of the bitmap, as far as the paper goes.
fn line_row<A: Small>(paper: Width, y: usize, bitmap: &Bitmap<A>) -> &[u8]
    requires { y < LINE_ROWS }
    ensures { result.now ≡ paper_row paper (λ x. bitmap_dot bitmap.now x y) }
{
    let row = &bitmap.row(y)[..paper.row_bytes()];
    dots_decide(row);
    row
}

/// Copies rows of the bitmap, from row y on, as far as the paper goes.
fn copy_line_rows<A: Small>(
    paper: Width,
    y: usize,
    rows: usize,
    bitmap: &Bitmap<A>,
    room: &mut [u8],
)
    requires inside { 0 < rows → y + rows ≤ LINE_ROWS }
    requires fits { rows * row_bytes paper ≤ length room.old }
    ensures { room.new ≡ rows_text paper (bitmap_dot bitmap.now) y rows
        ++ drop (rows * row_bytes paper) room.old }
{
    let bytes = paper.row_bytes();
    for k in 0..rows {
        copy_row(line_row(paper, y + k, bitmap), &mut room[k * bytes..]);
    }
}

/// Copies rows that are written, from row y on, as far as the paper goes: of those that are known to be alike
/// one is written.
fn copy_written_rows<A: Small>(
    dots: Dots,
    paper: Width,
    y: u32,
    rows: u32,
    canvas: &Canvas<A>,
    room: &mut [u8],
)
    requires low { IsLowDots dots }
    requires inside { y + rows < 2 ^ 32 }
    requires fits { rows * row_bytes paper ≤ length room.old }
    ensures { room.new ≡ rows_text paper (dot_in dots (canvas_of canvas.now)) y rows
        ++ drop (rows * row_bytes paper) room.old }
{
    let bytes = paper.row_bytes();
    let mut row = [0; PAPER_BYTES];
    let mut k = 0;
    while k < rows {
        dots.write_row(y + k, canvas, &mut row);
        let (_, last) = dots.alike(y + k, canvas);
        let behind = last.min(y + (rows - 1)) + 1 - y;
        for j in k..behind {
            copy_row(&row[..bytes], &mut room[j as usize * bytes..]);
        }
        k = behind;
    }
}

/// Makes the bytes from <= i < to of a room those of white dots.
fn whiten(from: usize, to: usize, room: &mut [u8])
    requires some { from ≤ to }
    requires within { to ≤ length room.old }
    ensures { room.new ≡ take from room.old ++ (replicate (to - from) 0 ++ drop to room.old) }
{
    room[from..to].fill(0);
}

/// Copies rows that may have black dots, from row y on.
fn copy_inked<A: Small>(strip: Strip, y: u32, rows: u32, canvas: &Canvas<A>, room: &mut [u8])
    requires low { IsLow strip }
    requires inside { y + rows < 2 ^ 32 }
    requires page { strip.dots ≡ Dots.Page → 0 < rows → y + rows ≤ PAGE_ROWS }
    requires line { (height left length : ℕ) → strip.dots ≡ Dots.Line height left length →
        0 < rows → y + rows ≤ height }
    requires fits { rows * row_bytes strip.paper ≤ length room.old }
    ensures { room.new ≡ rows_text strip.paper (strip_dot strip (canvas_of canvas.now)) y rows
        ++ drop (rows * row_bytes strip.paper) room.old }
{
    match strip.dots {
        Dots::Page => {
            let page = &canvas.page;
            copy_page_rows(strip.paper, y as usize, rows as usize, page, room)
        }
        // Where the line isn't moved, and not clipped before the paper ends.
        Dots::Line {
            height,
            left: 0,
            length,
        } if strip.paper.across() <= length => {
            let top = LINE_ROWS - usize::from(height) + y as usize;
            copy_line_rows(strip.paper, top, rows as usize, &canvas.bitmap, room)
        }
        _ => copy_written_rows(strip.dots, strip.paper, y, rows, canvas, room),
    }
}

/// Copies rows of a strip, from row y on, to the front of a room.
pub fn copy_rows<A: Small>(strip: Strip, y: u32, rows: u32, canvas: &Canvas<A>, room: &mut [u8])
    requires low { IsLow strip }
    requires inside { y + rows < 2 ^ 32 }
    requires fits { rows * row_bytes strip.paper ≤ length room.old }
    ensures { room.new ≡ rows_text strip.paper (strip_dot strip (canvas_of canvas.now)) y rows
        ++ drop (rows * row_bytes strip.paper) room.old }
{
    let bytes = strip.paper.row_bytes();
    let inked = strip.dots.inked(y + rows).saturating_sub(y).min(rows);
    copy_inked(strip, y, inked, canvas, room);
    whiten(inked as usize * bytes, rows as usize * bytes, room);
}
