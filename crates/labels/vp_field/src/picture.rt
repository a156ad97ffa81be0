//! Pictures: one row as ink, and the rows that fall on a band.
ghost use Rattle.std.specs.Prelude.{◌≡◌, ℕ, ◌+◌, ◌-◌, ◌*◌, ◌^◌, ◌<◌, ◌≤◌, ℤ, pos, Bool, false, length};
ghost use Rattle.vp_dots.specs.Places.{RowsPainted};
ghost use Rattle.vp_glyph.specs.Sheets.{Sheets};
ghost use Rattle.vp_format.specs.Pictures.{is_refused};
ghost use Rattle.vp_format.specs.declared.field.Content.TheVariants as contents;
ghost use Rattle.vp_field.specs.Axes.{dot_on, laid, IsWithin};
ghost use Rattle.vp_field.specs.Bands.{IsCounted};
ghost use Rattle.vp_field.specs.Contents.{picture_dot, most_work, IsPicture};
ghost use Rattle.vp_field.specs.Drawn.{drawn, part};
ghost use Rattle.vp_field.specs.Fields.{AreMarksOf};
ghost use Rattle.vp_field.specs.Rows.{row_dot, row_inside};
ghost use Rattle.vp_field.specs.Standing.{standing, IsNear};
ghost use Rattle.vp_field.specs.Views.{seen_x, seen_y};
ghost use Rattle.vp_zpl.specs.declared.item.Orientation.TheVariants.{Normal};
ghost use Rattle.vp_field.specs.declared.axis.Lines.TheVariants.{Along};
ghost use Rattle.vp_label_size.specs.declared.TheConstants.{BAND_ROWS};

use crate::axis::{Axis, clamped};
use crate::laid::Laid;
use crate::line::paint_line;
use crate::marks::Marks;
use crate::picture_rows::PictureRows;
use crate::pieces::Pieces;
use crate::standing::Standing;
use std::alloc::AllocError;
use vp_dots::{Ink, Op, Small, clear_into, dot_of, or_into, xor_into};
use vp_format::Picture;
use vp_label_size::{BAND_ROWS, LabelBand};
use vp_zpl::item::Orientation;

/// The most bytes of a row.
const ROW: usize = 1024;

/// The bytes of row `y` of a picture of `rows` rows.
pub struct PictureRow<'a> {
    pub bytes: &'a [u8],
    pub y: u32,
    pub rows: u32,
    ghost inside: { y < rows },
    ghost short: { length bytes.now < 2 ^ 28 },
}

impl Copy for PictureRow<'_> {}

impl Clone for PictureRow<'_> {
    fn clone(&self) -> Result<Self, AllocError> {
        Ok(*self)
    }
}

impl Ink for PictureRow<'_> {
    ghost width = { λ s. 8 * length s.bytes.now };

    ghost height = { λ s. s.rows };

    ghost ink_at = { λ s x y. row_dot s.bytes.now s.y x y };

    ghost outside = { λ s x y h. row_inside s.bytes.now s.y s.rows x y s.inside h };

    fn size(&self) -> (u32, u32) {
        (8 * self.bytes.len() as u32, self.rows)
    }

    fn ink(&self, x: u32, y: u32) -> bool {
        y == self.y && dot_of(self.bytes, u128::from(x))
    }

    fn paint_row(&self, y: u32, op: Op, at: i64, row: &mut [u8]) {
        if y != self.y {
            return;
        }
        match op {
            Op::Black => or_into(self.bytes, at, row),
            Op::White => clear_into(self.bytes, at, row),
            Op::Flip => xor_into(self.bytes, at, row),
        }
    }
}

impl Pieces for PictureRow<'_> {
    ghost most_pieces = { λ s d. 1 };

    fn paint_pieces(&self, y: u32, op: Op, at: i64, row: &mut [u8]) -> u64 {
        self.paint_row(y, op, at, row);
        1
    }
}

/// The first of `height` lines of ink on the band from row `first` on, and the one behind the last.
fn lines_on(rows: Axis, height: u32, first: u32) -> (u32, u32)
    requires { IsWithin (2 ^ 41) rows }
    ensures within { result.1 ≤ height }
    ensures few { result.1 ≤ result.0 + BAND_ROWS }
    ensures from { (k v : ℕ) → k < BAND_ROWS → v < height
        → dot_on rows (pos (first + k)) ≡ pos v → result.0 ≤ v }
    ensures to { (k v : ℕ) → k < BAND_ROWS → v < height
        → dot_on rows (pos (first + k)) ≡ pos v → v < result.1 }
{
    let line = rows.first_line(first, BAND_ROWS as u32);
    (
        clamped(line, height),
        clamped(line + BAND_ROWS as i64, height),
    )
}

/// Paints a row of a picture where it falls on the band.
fn paint_row_of<A: Small>(
    row: &PictureRow<'_>,
    op: Op,
    at: Laid,
    first: u32,
    band: &mut LabelBand<A>,
)
    requires columns { IsWithin (2 ^ 41) at.columns }
    requires rows { IsWithin (2 ^ 41) at.rows }
    ensures { RowsPainted BAND_ROWS op (λ x k. laid Along at.columns at.rows
        (row_dot row.now.bytes.now row.now.y) (pos x) (pos (first + k))) band.old band.new }
{
    if let Some(k) = at.rows.row_of(row.y, first) {
        let _one = paint_line(row, row.y, op, at.columns, band.row_mut(k));
    }
}

/// Reads and paints the rows of a picture up to one.
fn paint_rows<A: Small>(
    rows: &mut PictureRows<'_>,
    from: u32,
    to: u32,
    row: &mut [u8],
    op: Op,
    at: Laid,
    first: u32,
    band: &mut LabelBand<A>,
)
    requires len { length row.old ≡ rows.old.cursor.picture.row_bytes }
    requires short { length row.old ≤ 1024 }
    requires from { rows.old.cursor.next ≡ from }
    requires ordered { from ≤ to }
    requires to { to ≤ rows.old.cursor.picture.rows }
    requires count { rows.old.cursor.picture.rows < 2 ^ 32 }
    requires shown { rows.old.shown ≡ 0 }
    requires read { (y : ℕ) → y < rows.old.cursor.picture.rows
        → is_refused rows.old.cursor.picture y ≡ false }
    requires columns { IsWithin (2 ^ 41) at.columns }
    requires axis { IsWithin (2 ^ 41) at.rows }
    ensures picture { rows.new.cursor.picture ≡ rows.old.cursor.picture }
    ensures counted { rows.new.shown ≡ to - from }
    ensures painted { RowsPainted BAND_ROWS op (λ x k. laid Along at.columns at.rows
        (part from to (picture_dot rows.old.cursor.picture)) (pos x) (pos (first + k))) band.old band.new }
{
    for y in from..to {
        rows.next_row(row);
        let ink = PictureRow {
            bytes: row,
            y,
            rows: to,
        };
        paint_row_of(&ink, op, at, first, band);
    }
}

/// How a picture, which isn't turned, lies on the label as it is put out.
fn lying(picture: Picture, on: Standing) -> Laid
    requires { IsNear on.left on.top }
    ensures columns { IsWithin (2 ^ 41) result.columns }
    ensures rows { IsWithin (2 ^ 41) result.rows }
    ensures ink { (ink : ℕ → ℕ → Bool) (x y : ℤ) → laid Along result.columns result.rows ink x y
        ≡ standing on.left on.top Normal (8 * picture.row_bytes) picture.rows ink (seen_x on.view x)
        (seen_y on.view y) }
{
    let width = 8 * u32::from(picture.row_bytes);
    Laid::turned(Orientation::Normal, width, picture.rows, on.left, on.top).viewed(on.view)
}

/// Paints a picture, which isn't turned: the rows that fall on the band are read from the last mark before
/// them on, else from the first row. Marks are left on the way there, and one behind the rows. What that took
/// comes back: how many bytes of the codes were read, rows passed, and rows painted.
pub fn paint_picture<A: Small>(
    stored: &[u8],
    picture: Picture,
    on: Standing,
    marks: &mut Marks,
    first: u32,
    band: &mut LabelBand<A>,
) -> u64
    requires picture { IsPicture stored.now picture }
    requires marks { AreMarksOf stored.now (contents.Picture picture) marks.old }
    requires near { IsNear on.left on.top }
    requires normal { on.orientation ≡ Normal }
    ensures dots { (sheets : Sheets) → RowsPainted BAND_ROWS on.op
        (drawn sheets stored.now (contents.Picture picture) on first) band.old band.new }
    ensures marks { AreMarksOf stored.now (contents.Picture picture) marks.new }
    ensures work { result ≤ most_work Normal (contents.Picture picture) }
    ensures counted { (sheets : Sheets) →
        IsCounted (drawn sheets stored.now (contents.Picture picture) on first) result }
{
    let at = lying(picture, on);
    let (from, to) = lines_on(at.rows, picture.rows, first);
    if from >= to {
        return 0;
    }
    let mut row = [0u8; ROW];
    let row = &mut row[..usize::from(picture.row_bytes)];
    let least = clamped(at.rows.first_line(0, on.view.height), picture.rows);
    let (place, mark) = marks.last_before(from);
    let mut rows = PictureRows::new(stored, picture, mark);
    rows.go_to(stored, picture, least, from, place, marks);
    paint_rows(&mut rows, from, to, row, on.op, at, first, band);
    marks.keep_behind(rows.mark());
    rows.work()
}
