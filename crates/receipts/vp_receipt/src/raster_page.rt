//! Rows of a raster, laid on the page: one, or a run of them.
ghost use Rattle.std.specs.Prelude.{◌≡◌, ◌≤◌, ◌<◌, ◌+◌, ◌-◌, ◌*◌, ◌/◌, ◌%◌, ◌∷◌, List, [], ℕ, Bool, length, min, take, slice_index_or};
ghost use Rattle.vp_dots.specs.Dots.{dot};
ghost use Rattle.vp_esc.specs.declared.item.EscItem.{EscItem};
ghost use Rattle.vp_esc.specs.declared.item.RasterScale.{RasterScale};
ghost use Rattle.vp_page.specs.Layers.{Layer, Laid, first_rows};
ghost use Rattle.vp_page.specs.Pages.{HasPage};
ghost use Rattle.vp_dots.specs.declared.square.TheConstants.{SIDE};
ghost use Rattle.vp_page.specs.declared.line.TheConstants.{LINE_BYTES, LINE_DOTS};
ghost use Rattle.vp_receipt.specs.PageMarks.{mark_of, raster_mark, rows_dot};
ghost use Rattle.vp_receipt.specs.Standing.{IsOnPage};
ghost use Rattle.vp_receipt_settings.specs.Gathering.{IsPartRow, kept_of, left_of};
ghost use Rattle.vp_receipt_settings.specs.Settings.{settings_of, IsFit, IsFitPage};
ghost use Rattle.vp_receipt_settings.specs.Rasters.{bytes_after, raster_scale, times_across, times_down};
ghost use Rattle.vp_receipt_settings.specs.Setup.{Setup};

use vp_dots::{SIDE, Small};
use vp_esc::item::RasterScale;
use vp_page::{LINE_BYTES, Page};
use vp_receipt_settings::{PageSettings, Raster, Settings, times_across, times_down};
use vp_strips::doubled;

/// Lays a row `times` times, one below the other, from `at` rows below the vertical position on.
fn lay_times<A: Small>(p: PageSettings, row: &[u8], at: u32, times: u32, page: &mut Page<A>)
    requires fit { IsFitPage p }
    requires long { length row.now ≤ LINE_BYTES }
    requires near { at ≤ 131070 }
    requires few { times ≤ 2 }
    ensures { (dots : ℕ → ℕ → Bool) (layers : List Layer) →
        ((u w : ℕ) → u < LINE_DOTS → w < times → dot row.now u ≡ dots u (at + w)) →
        HasPage (Laid (first_rows at (mark_of p 0 dots)) ∷ layers) page.old →
        HasPage (Laid (first_rows (at + times) (mark_of p 0 dots)) ∷ layers) page.new }
{
    let top = p.vertical as u32 + at;
    for y in 0..times {
        page.lay_row(p.area, p.direction, top + y, row);
    }
}

/// Lays a row as often as a scale says, from `at` rows below the vertical position on.
fn lay_scaled<A: Small>(
    p: PageSettings,
    scale: RasterScale,
    row: &[u8],
    at: u32,
    page: &mut Page<A>,
)
    requires fit { IsFitPage p }
    requires long { length row.now ≤ LINE_BYTES }
    requires near { at ≤ 131070 }
    ensures { (dots : ℕ → ℕ → Bool) (layers : List Layer) → ((u w : ℕ) → u < LINE_DOTS →
        w < times_down scale → dot row.now (u / times_across scale) ≡ dots u (at + w)) →
        HasPage (Laid (first_rows at (mark_of p 0 dots)) ∷ layers) page.old →
        HasPage (Laid (first_rows (at + times_down scale) (mark_of p 0 dots)) ∷ layers) page.new }
{
    let times = times_down(scale);
    if times_across(scale) == 1 {
        lay_times(p, row, at, times, page);
    } else {
        lay_times(p, &doubled(row), at, times, page);
    }
}

/// Lays the row whose last byte came, as often as its raster's scale says.
pub fn lay_raster_row<A: Small>(s: &Settings, raster: &Raster, page: &mut Page<A>)
    requires { IsFit s.now }
    ensures { (setup : Setup) (before : List EscItem) (came : List ℕ) (layers : List Layer) →
        s.now ≡ settings_of setup before → raster.now.scale ≡ raster_scale before →
        kept_of raster.now ≡ take LINE_BYTES came → HasPage layers page.old →
        HasPage (Laid (raster_mark setup before came) ∷ layers) page.new }
{
    lay_scaled(s.page, raster.scale, raster.kept(), 0, page);
}

/// Writes a row on a line, white behind its bytes.
#[inline(always)]
fn write_row(row: &[u8], line: &mut [u8; LINE_BYTES])
    ensures { (u : ℕ) → u < LINE_DOTS → dot line.new u ≡ dot row.now u }
{
    let n = row.len().min(LINE_BYTES);
    line[..n].copy_from_slice(&row[..n]);
    line[n..].fill(0);
}

/// Writes a row on a line as a scale draws it across.
#[inline(always)]
fn write_line(row: &[u8], scale: RasterScale, line: &mut [u8; LINE_BYTES])
    ensures { (u : ℕ) → u < LINE_DOTS → dot line.new u ≡ dot row.now (u / times_across scale) }
{
    if times_across(scale) == 1 {
        write_row(row, line);
    } else {
        *line = doubled(row);
    }
}

/// Writes as many lines as are laid at once, from line `from` on, of those that rows of `wide` bytes are as a
/// scale draws them, and tells how many. The second line of a row is the one above it again.
fn write_lines(
    scale: RasterScale,
    bytes: &[u8],
    wide: usize,
    from: usize,
    rows: usize,
    lines: &mut [[u8; LINE_BYTES]; SIDE],
) -> usize
    requires begins { from ≤ rows * times_down scale }
    requires row_begins { from % times_down scale ≡ 0 }
    requires few { rows ≤ 65535 }
    requires long { rows * wide ≤ length bytes.now }
    ensures few { result ≡ min (rows * times_down scale - from) SIDE }
    ensures dots { (i u : ℕ) → i < result → u < LINE_DOTS →
        dot (slice_index_or lines.new i []) u ≡ rows_dot scale wide rows bytes.now u (from + i) }
{
    let shown = wide.min(LINE_BYTES);
    let times = times_down(scale) as usize;
    let few = (rows * times - from).min(SIDE);
    for i in 0..few {
        if (from + i) % times > 0 {
            lines[i] = lines[i - 1];
        } else {
            let at = (from + i) / times * wide;
            write_line(&bytes[at..at + shown], scale, &mut lines[i]);
        }
    }
    few
}

/// Lays whole rows of a raster as many at once as go.
// Apart, since so many lines take much room.
#[inline(never)]
fn lay_many<A: Small>(
    p: PageSettings,
    raster: &Raster,
    bytes: &[u8],
    rows: usize,
    page: &mut Page<A>,
)
    requires fit { IsFitPage p }
    requires few { rows ≤ 65535 }
    requires long { rows * raster.now.bytes ≤ length bytes.now }
    ensures { (layers : List Layer) → HasPage layers page.old →
        HasPage (Laid (mark_of p (rows * times_down raster.now.scale)
        (rows_dot raster.now.scale raster.now.bytes rows bytes.now)) ∷ layers) page.new }
{
    let wide = usize::from(raster.bytes);
    let high = rows * times_down(raster.scale) as usize;
    let top = p.vertical as u32;
    let mut lines = [[0; LINE_BYTES]; SIDE];
    for k in 0..high.div_ceil(SIDE) {
        let from = SIDE * k;
        let few = write_lines(raster.scale, bytes, wide, from, rows, &mut lines);
        page.lay_lines(p.area, p.direction, top + from as u32, &lines[..few], &[]);
    }
}

/// Lays whole rows of a raster, as they stand in the bytes, from the vertical position on.
fn lay_rows<A: Small>(
    p: PageSettings,
    raster: &Raster,
    bytes: &[u8],
    rows: usize,
    page: &mut Page<A>,
)
    requires fit { IsFitPage p }
    requires few { rows ≤ 65535 }
    requires long { rows * raster.now.bytes ≤ length bytes.now }
    ensures { (layers : List Layer) → HasPage layers page.old →
        HasPage (Laid (mark_of p (rows * times_down raster.now.scale)
        (rows_dot raster.now.scale raster.now.bytes rows bytes.now)) ∷ layers) page.new }
{
    let wide = usize::from(raster.bytes);
    match raster.scale {
        RasterScale::Normal if wide <= LINE_BYTES => {
            page.lay_rows(p.area, p.direction, p.vertical as u32, wide, rows, bytes)
        }
        _ => lay_many(p, raster, bytes, rows, page),
    }
}

/// Takes what a row that has begun lacks, as far as it has come, and tells how many bytes; the row is laid
/// once it is whole.
fn end_begun<A: Small>(
    s: &mut Settings,
    raster: &mut Raster,
    bytes: &[u8],
    page: &mut Page<A>,
) -> usize
    requires fit { IsFit s.old }
    requires part { IsPartRow raster.old }
    requires few { length bytes.now ≤ left_of raster.old }
    ensures fit { IsFit s.new }
    ensures part { IsPartRow raster.new }
    ensures taken { result ≤ length bytes.now }
    ensures begins { result < length bytes.now → raster.new.got ≡ 0 }
    ensures few { length bytes.now - result ≤ left_of raster.new }
    ensures on_page { (setup : Setup) (before : List EscItem) →
        IsOnPage setup before s.old raster.old page.old →
        IsOnPage setup (bytes_after (take result bytes.now) before) s.new raster.new page.new }
{
    if raster.got == 0 {
        return 0;
    }
    let room = usize::from(raster.room());
    if bytes.len() <= room {
        raster.take_all(bytes);
        return bytes.len();
    }
    raster.end_row(&bytes[..room + 1]);
    lay_raster_row(s, raster, page);
    *s = s.after_row(times_down(raster.scale));
    room + 1
}

/// Takes bytes of a raster of which no row has begun: whole rows are laid, and what is left is kept.
fn take_rows<A: Small>(s: &mut Settings, raster: &mut Raster, bytes: &[u8], page: &mut Page<A>)
    requires fit { IsFit s.old }
    requires part { IsPartRow raster.old }
    requires begins { 0 < length bytes.now → raster.old.got ≡ 0 }
    requires few { length bytes.now ≤ left_of raster.old }
    ensures fit { IsFit s.new }
    ensures part { IsPartRow raster.new }
    ensures on_page { (setup : Setup) (before : List EscItem) →
        IsOnPage setup before s.old raster.old page.old →
        IsOnPage setup (bytes_after bytes.now before) s.new raster.new page.new }
{
    if bytes.is_empty() {
        return;
    }
    let wide = usize::from(raster.bytes);
    let rows = usize::from(raster.rows).min(bytes.len() / wide);
    lay_rows(s.page, raster, bytes, rows, page);
    *s = s.after_row(rows as u32 * times_down(raster.scale));
    raster.pass(rows as u16);
    raster.take_all(&bytes[rows * wide..]);
}

/// Takes bytes of a raster in page mode: rows that are whole are laid.
pub fn take_run<A: Small>(s: &mut Settings, raster: &mut Raster, bytes: &[u8], page: &mut Page<A>)
    requires fit { IsFit s.old }
    requires part { IsPartRow raster.old }
    requires few { length bytes.now ≤ left_of raster.old }
    ensures fit { IsFit s.new }
    ensures part { IsPartRow raster.new }
    ensures on_page { (setup : Setup) (before : List EscItem) →
        IsOnPage setup before s.old raster.old page.old →
        IsOnPage setup (bytes_after bytes.now before) s.new raster.new page.new }
{
    let begun = end_begun(s, raster, bytes, page);
    take_rows(s, raster, &bytes[begun..], page);
}
