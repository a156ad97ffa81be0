//! Copies that are being put out, as far as there is room.
ghost use Rattle.std.specs.Prelude.{◌≡◌, ℕ, ◌+◌, ◌-◌, ◌*◌, ◌%◌, ◌<◌, ◌≤◌, ◌++◌, ◌↔◌, Bool, List, min, take, drop, length, IsTrue};
ghost use Rattle.vp_dots.specs.Images.{Image, row_bytes};
ghost use Rattle.vp_copies.specs.Copies.{advanced, ahead, band_rows, copies_text, line_bytes, lines_of, painted_for, pending};
ghost use Rattle.vp_output.specs.Lines.{line_text};
ghost use Rattle.vp_copies.specs.Progress.{image_of, HasPainted, IsPainted, IsPlaceOf, IsRowsOn, StandsPainted, rows_at_once};
ghost use Rattle.vp_output.specs.declared.place.Line.TheVariants.{Head, Row};
ghost use Rattle.vp_label_size.specs.declared.TheConstants.{WIDEST, BAND_ROWS};

use crate::place::{Ahead, behind, painted_then, wanted};
use crate::rows::{bytes_of_row, copy_rows, row_of_band};
use arrayvec::ArrayVec;
use std::marker::Model;
use vp_dots::{Small, header};
use vp_label_size::{BAND_ROWS, LabelBand};
use vp_output::{Line, Place, put_part};

/// Copies of an image that are being put out. Clauses see how wide and high it is, the place of the next byte,
/// and how many bands were painted of its copy, or of the one before.
#[derive(Drop)]
pub struct Copies {
    width: u16,
    height: u16,
    head: ArrayVec<u8, 32>,
    /// How many copies are not put out whole.
    copies: u32,
    /// In the first of them.
    place: Place,
    /// How many bands were painted, the last of which stands.
    painted: usize,
}

impl Model for Copies {
    ghost use Rattle.vp_copies.specs.Progress.{Progress};

    ghost Value = { Progress };

    ghost use Rattle.vp_copies.specs.Standing.{progress_of, IsCopies};

    ghost view = { progress_of };

    ghost invariant = { IsCopies };
}

/// How many rows of an image, from row y on, there are in its band before the last.
fn rows_before_last(y: u32, height: u16) -> usize
    requires { y < height }
    ensures inside { y % BAND_ROWS + result < BAND_ROWS }
    ensures below { y + result < height }
    ensures value { result ≡ min (BAND_ROWS - 1 - y % BAND_ROWS) (height - 1 - y) }
{
    let y = y as usize;
    let last = y / BAND_ROWS * BAND_ROWS + (BAND_ROWS - 1);
    last.min(usize::from(height) - 1) - y
}

impl Copies {
    /// `copies` copies of an image, 1 to 1,248 dots across and a row or more; of none, nothing is pending.
    pub fn new(width: u16, height: u16, copies: u32) -> Copies
        requires wide { 0 < width }
        requires narrow { width ≤ WIDEST }
        requires high { 0 < height }
        ensures value { result ≡
            record {
              width = width;
              height = height;
              place = record { copies = copies; line = Head; byte = 0 };
              painted = 0;
            } }
        ensures text { (dots : ℕ → ℕ → Bool) →
            pending (image_of result dots) result.place ≡ copies_text (image_of result dots) copies }
        ensures ready { (dots : ℕ → ℕ → Bool) (band : List (List ℕ)) →
            StandsPainted (image_of result dots) result.painted band }
        ensures place { IsPlaceOf result.width result.height result.place }
        ensures painted { HasPainted result }
    {
        Copies {
            width,
            height,
            head: header(u32::from(width), u32::from(height)),
            copies,
            place: Place::start(),
            painted: 0,
        }
    }

    /// Whether bytes are left.
    pub fn is_pending(&self) -> bool
        ensures bytes { (dots : ℕ → ℕ → Bool) →
            IsTrue result ↔ (0 < length (pending (image_of self.now dots) self.now.place)) }
        ensures copies { IsTrue result ↔ (0 < self.now.place.copies) }
    {
        self.copies > 0
    }

    /// What has to be ready before the next byte is put out.
    pub fn ahead(&self) -> Ahead
        ensures { result ≡ ahead self.now.painted self.now.place.line }
    {
        wanted(self.painted, self.place.line)
    }

    /// How many rows of the image are in the band of the next byte: none for the header's.
    pub fn band_rows(&self) -> usize
        ensures value { result ≡ band_rows self.now.height self.now.place.line }
        ensures most { result ≤ BAND_ROWS }
    {
        match self.place.line {
            Line::Head => 0,
            Line::Row(y) => {
                let above = y as usize / BAND_ROWS * BAND_ROWS;
                (usize::from(self.height) - above).min(BAND_ROWS)
            }
        }
    }

    /// The bytes of the place's line.
    fn line<'a, A: Small>(&'a self, band: &'a LabelBand<A>) -> &'a [u8]
        ensures count { length result.now ≡ line_bytes self.now.width self.now.height self.now.place.line }
        ensures text { (dots : ℕ → ℕ → Bool) →
            IsPainted (image_of self.now dots) self.now.place.line band.now →
            result.now ≡ line_text (lines_of (image_of self.now dots)) self.now.place.line }
    {
        match self.place.line {
            Line::Head => self.head.as_slice(),
            Line::Row(y) => row_of_band(band, y as usize, self.width),
        }
    }

    /// Puts out the next bytes of the place's line, as many as there are and room is for, and answers how
    /// many. For whatever dots the band is painted with, they are the image's.
    pub fn put_line<A: Small>(&mut self, band: &LabelBand<A>, out: &mut [u8]) -> usize
        requires { 0 < self.old.place.copies }
        ensures count { result ≡
            min (line_bytes self.old.width self.old.height self.old.place.line - self.old.place.byte)
            (length out.old) }
        ensures some { 0 < length out.old → 0 < result }
        ensures value { self.new ≡
            record self.old {
              place = advanced self.old.width self.old.height result self.old.place;
              painted = painted_for self.old.painted self.old.place.line;
            } }
        ensures within { (dots : ℕ → ℕ → Bool) →
            result ≤ length (pending (image_of self.old dots) self.old.place) }
        ensures bytes { (dots : ℕ → ℕ → Bool) →
            IsPainted (image_of self.old dots) self.old.place.line band.now →
            out.new ≡ take result (pending (image_of self.old dots) self.old.place) ++ drop result out.old }
        ensures rest { (dots : ℕ → ℕ → Bool) → pending (image_of self.new dots) self.new.place
            ≡ drop result (pending (image_of self.old dots) self.old.place) }
        ensures ready { (dots : ℕ → ℕ → Bool) →
            StandsPainted (image_of self.old dots) (painted_for self.old.painted self.old.place.line)
            band.now →
            StandsPainted (image_of self.new dots) self.new.painted band.now }
        ensures place { IsPlaceOf self.new.width self.new.height self.new.place }
        ensures painted { HasPainted self.new }
    {
        let line = self.line(band);
        let output = put_part(self.place, line, u32::from(self.height), out);
        self.painted = painted_then(self.painted, self.place.line);
        (self.copies, self.place) = behind(self.copies, output.next);
        output.count
    }

    /// Puts out whole rows of the place's band, as many as there is room for, but not its last one: where it
    /// puts out any, others of the band come next.
    pub fn put_rows<A: Small>(&mut self, band: &LabelBand<A>, out: &mut [u8]) -> usize
        requires { 0 < self.old.place.copies }
        ensures on { 0 < result → IsRowsOn self.old self.new }
        ensures none { result ≡ 0 → (self.new ≡ self.old) × (out.new ≡ out.old) }
        ensures fits { result ≤ length out.old }
        ensures count { (y : ℕ) → self.old.place.line ≡ Row y → self.old.place.byte ≡ 0 →
            result ≡ rows_at_once self.old.width self.old.height y (length out.old)
            * row_bytes self.old.width }
        ensures within { (dots : ℕ → ℕ → Bool) →
            result ≤ length (pending (image_of self.old dots) self.old.place) }
        ensures bytes { (dots : ℕ → ℕ → Bool) →
            IsPainted (image_of self.old dots) self.old.place.line band.now →
            out.new ≡ take result (pending (image_of self.old dots) self.old.place) ++ drop result out.old }
        ensures rest { (dots : ℕ → ℕ → Bool) → pending (image_of self.new dots) self.new.place
            ≡ drop result (pending (image_of self.old dots) self.old.place) }
        ensures place { IsPlaceOf self.new.width self.new.height self.new.place }
        ensures painted { HasPainted self.new }
    {
        let Line::Row(y) = self.place.line else {
            return 0;
        };
        let bytes = bytes_of_row(self.width);
        let rows = rows_before_last(y, self.height).min(out.len() / bytes);
        if self.place.byte > 0 || rows == 0 {
            return 0;
        }
        copy_rows(band, y, rows, self.width, out);
        self.place = Place {
            line: Line::Row(y + rows as u32),
            byte: 0,
        };
        self.painted = y as usize / BAND_ROWS + 1;
        rows * bytes
    }
}
