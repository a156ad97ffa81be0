//! Which rows of a line's bitmap have bytes of their own. Any other is known to show what the row above it
//! does, and isn't painted until it has to differ.
ghost use Rattle.std.specs.Prelude.{◌≡◌, ℕ, ◌+◌, ◌-◌, ◌*◌, ◌/◌, ◌<◌, ◌≤◌, List, [], true, false, length, slice_index_or, drop, if◌then◌else◌};
ghost use Rattle.vp_dots.specs.Dots.{dot};
ghost use Rattle.vp_glyph.specs.Cells.{cell_height, font_height, underlined};
ghost use Rattle.vp_page.specs.Lines.{shown_lines};
ghost use Rattle.vp_page.specs.declared.line.TheConstants.{LINE_BYTES, LINE_DOTS};
ghost use Rattle.vp_receipt_settings.specs.declared.text.TheConstants.{LINE_ROWS};
ghost use Rattle.vp_strips.specs.LineDots.{HasDots, IsClear};

use vp_dots::{Band, Small};
use vp_glyph::{Font, Style};
use vp_page::LINE_BYTES;
use vp_receipt_settings::LINE_ROWS;

/// The rows of a line, as long as the longest one of a page.
pub(crate) type LineBand<A> = Band<LINE_BYTES, LINE_ROWS, A>;

/// Whether each row is known to be the same as the one above.
pub(crate) type Same = [bool; LINE_ROWS];

/// The row whose bytes a row shows: the last one, up to it, that has its own.
pub(crate) fn own_row(y: usize, same: &Same) -> usize
    requires { y < LINE_ROWS }
    ensures up { result ≤ y }
    ensures shows { (rows : List (List ℕ)) → y < length rows →
        slice_index_or (shown_lines same.now rows) y [] ≡ slice_index_or rows result [] }
{
    let mut own = y;
    while own > 0 && same[own] {
        own -= 1;
    }
    own
}

/// Writes a row.
fn write_row(bytes: &[u8; LINE_BYTES], row: &mut [u8])
    requires { length row.old ≡ LINE_BYTES }
    ensures { row.new ≡ bytes.now }
{
    row.copy_from_slice(bytes);
}

/// Gives a row, if there is one, bytes of its own: those that it shows.
pub(crate) fn part_row<A: Small>(y: usize, band: &mut LineBand<A>, same: &mut Same)
    ensures len { length band.new ≡ length band.old }
    ensures shows { (z : ℕ) → slice_index_or (shown_lines same.new band.new) z []
        ≡ slice_index_or (shown_lines same.old band.old) z [] }
    ensures kept { (z : ℕ) → slice_index_or same.new z false ≡ true → slice_index_or same.old z false ≡ true }
    ensures parted { y < LINE_ROWS → slice_index_or same.new y false ≡ false }
    ensures clear { (used : ℕ) → IsClear used same.old band.old → IsClear used same.new band.new }
{
    if y < LINE_ROWS && same[y] {
        let own = own_row(y, same);
        let shown = band.rows(own, own + 1)[0];
        write_row(&shown, band.row_mut(y));
        same[y] = false;
    }
}

/// Gives bytes of their own to those rows of a character, whose uppermost row is `top`, that may differ from
/// the one above: where another of its font begins, and its underline.
#[inline(never)]
pub(crate) fn part_rows<A: Small>(
    font: Font,
    style: Style,
    top: usize,
    band: &mut LineBand<A>,
    same: &mut Same,
)
    requires some { 0 < style.hm }
    requires room { top + cell_height font style ≤ LINE_ROWS }
    ensures shows { (z : ℕ) → slice_index_or (shown_lines same.new band.new) z []
        ≡ slice_index_or (shown_lines same.old band.old) z [] }
    ensures kept { (z : ℕ) → slice_index_or same.new z false ≡ true → slice_index_or same.old z false ≡ true }
    ensures clear { (used : ℕ) → IsClear used same.old band.old → IsClear used same.new band.new }
    ensures below { (y : ℕ) → top ≤ y → y < top + cell_height font style →
        slice_index_or same.new y false ≡ true → top < y }
    ensures row { (y : ℕ) → top ≤ y → y < top + cell_height font style →
        slice_index_or same.new y false ≡ true → (y - top) / style.hm ≡ (y - top - 1) / style.hm }
    ensures underline { (y : ℕ) → top ≤ y → y < top + cell_height font style →
        slice_index_or same.new y false ≡ true →
        underlined font style (y - top) ≡ underlined font style (y - top - 1) }
{
    let rows = font.height() as usize;
    let hm = usize::from(style.hm);
    for k in 0..rows {
        part_row(top + k * hm, band, same);
    }
    let underline = (rows * hm).saturating_sub(usize::from(style.underline));
    part_row(top + underline, band, same);
}

/// Gives each row bytes of its own, of which the lowest are in use.
fn part_all<A: Small>(used: usize, band: &mut LineBand<A>, same: &mut Same)
    requires { IsClear used same.old band.old }
    ensures clear { IsClear used same.new band.new }
    ensures each { (y : ℕ) → slice_index_or same.new y false ≡ false }
    ensures shows { (x y : ℕ) → x < LINE_DOTS → y < LINE_ROWS → dot (slice_index_or band.new y []) x
        ≡ dot (slice_index_or (shown_lines same.old band.old) y []) x }
{
    for y in LINE_ROWS - used..LINE_ROWS {
        part_row(y, band, same);
    }
    *same = [false; LINE_ROWS];
}

/// Gives each row bytes of its own, where it may be told of some that they are the same as the one above.
#[inline(always)]
pub(crate) fn part_told<A: Small>(
    used: usize,
    told: &mut bool,
    band: &mut LineBand<A>,
    same: &mut Same,
)
    requires clear { IsClear used same.old band.old }
    requires none { told.old ≡ false → (y : ℕ) → slice_index_or same.old y false ≡ false }
    ensures clear { IsClear used same.new band.new }
    ensures none { told.new ≡ false }
    ensures each { (y : ℕ) → slice_index_or same.new y false ≡ false }
    ensures shows { (x y : ℕ) → x < LINE_DOTS → y < LINE_ROWS → dot (slice_index_or band.new y []) x
        ≡ dot (slice_index_or (shown_lines same.old band.old) y []) x }
{
    if *told {
        part_all(used, band, same);
        *told = false;
    }
}

/// Makes the rows white, of which the lowest are in use: where it may be told of some that they are the same
/// as the one above, the others.
pub(crate) fn clear<A: Small>(used: usize, told: bool, band: &mut LineBand<A>, same: &Same)
    requires { IsClear used same.now band.old }
    ensures { HasDots [] band.new }
{
    if !told {
        band.clear_rows(LINE_ROWS - used, LINE_ROWS);
        return;
    }
    for y in LINE_ROWS - used..LINE_ROWS {
        if !same[y] {
            band.clear_rows(y, y + 1);
        }
    }
}

/// What is told of the rows from one on, if anything is of any.
pub(crate) fn told_from(told: bool, same: &Same, from: usize) -> &[bool]
    requires { from ≤ LINE_ROWS }
    ensures { result.now ≡ (if told then drop from same.now else []) }
{
    if told { &same[from..] } else { &[] }
}
