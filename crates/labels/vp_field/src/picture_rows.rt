//! The rows of a picture, read from a mark on, and counted as they are handed out.
ghost use Rattle.std.specs.Prelude.{◌≡◌, ℕ, ◌+◌, ◌*◌, ◌^◌, ◌<◌, ◌≤◌, false, length};
ghost use Rattle.vp_dots.specs.Dots.{dot};
ghost use Rattle.vp_format.specs.Cursors.{IsMark, marked_row};
ghost use Rattle.vp_format.specs.Pictures.{is_refused};
ghost use Rattle.vp_format.specs.declared.field.Content.TheVariants as contents;
ghost use Rattle.vp_field.specs.Contents.{picture_of, picture_dot, IsPicture};
ghost use Rattle.vp_field.specs.Fields.{row_at, AreMarksOf, IsMarkOf};

use crate::content::bytes_of;
use crate::marks::{Marks, ON_WAY};
use vp_format::{Picture, RunMark, RunRows};

/// The rows of a picture from one on, and how many of them were handed out: they are had in no other way.
#[derive(Drop)]
pub struct PictureRows<'a> {
    cursor: RunRows<'a>,
    shown: u64,
}

/// A cursor at a mark of a picture, or before its first row where there is none.
fn cursor<'a>(stored: &'a [u8], picture: Picture, mark: Option<RunMark>) -> RunRows<'a>
    requires picture { IsPicture stored.now picture }
    requires mark { IsMarkOf stored.now (contents.Picture picture) mark }
    ensures picture { result.picture ≡ picture_of stored.now picture }
    ensures next { result.next ≡ row_at mark }
{
    let codes = bytes_of(stored, picture.codes);
    let row_bytes = usize::from(picture.row_bytes);
    match mark {
        Some(mark) => RunRows::resume(codes, picture.coding, row_bytes, picture.rows, mark),
        None => RunRows::new(codes, picture.coding, row_bytes, picture.rows),
    }
}

/// The next row on the way to one at which a mark is of use to a band that comes later, or the row itself:
/// the least row that falls on the label, and behind that the row halfway.
fn next_stop(at: u32, least: u32, row: u32) -> u32
    requires { at ≤ row }
    ensures from { at ≤ result }
    ensures to { result ≤ row }
{
    if at < least {
        least.min(row)
    } else if row - at < 64 {
        row
    } else {
        at + (row - at) / 2
    }
}

impl<'a> PictureRows<'a> {
    /// The rows of a picture from a mark on, or from its first where there is none.
    pub fn new(stored: &'a [u8], picture: Picture, mark: Option<RunMark>) -> Self
        requires picture { IsPicture stored.now picture }
        requires mark { IsMarkOf stored.now (contents.Picture picture) mark }
        ensures picture { result.cursor.picture ≡ picture_of stored.now picture }
        ensures next { result.cursor.next ≡ row_at mark }
        ensures shown { result.shown ≡ 0 }
    {
        PictureRows {
            cursor: cursor(stored, picture, mark),
            shown: 0,
        }
    }

    /// The mark of the next row.
    pub fn mark(&self) -> RunMark
        ensures is { IsMark self.now.cursor.picture result }
        ensures row { marked_row result ≡ self.now.cursor.next }
    {
        self.cursor.mark()
    }

    /// Reads the next row, which isn't refused: it is handed out.
    pub fn next_row(&mut self, row: &mut [u8])
        requires len { length row.old ≡ self.old.cursor.picture.row_bytes }
        requires next { self.old.cursor.next < self.old.cursor.picture.rows }
        requires read { is_refused self.old.cursor.picture self.old.cursor.next ≡ false }
        requires count { self.old.shown < 2 ^ 32 }
        ensures len { length row.new ≡ length row.old }
        ensures dots { (x : ℕ) → dot row.new x ≡ picture_dot self.old.cursor.picture x self.old.cursor.next }
        ensures next { self.new.cursor ≡ record self.old.cursor { next = self.old.cursor.next + 1 } }
        ensures counted { self.new.shown ≡ self.old.shown + 1 }
    {
        let _ = self.cursor.next_row(row);
        self.shown += 1;
    }

    /// Goes on to a row of a picture of which none is refused.
    fn skip_to(&mut self, to: u32)
        requires next { self.old.cursor.next ≤ to }
        requires to { to ≤ self.old.cursor.picture.rows }
        requires read { (y : ℕ) → y < self.old.cursor.picture.rows
            → is_refused self.old.cursor.picture y ≡ false }
        ensures rows { self.new.cursor ≡ record self.old.cursor { next = to } }
        ensures shown { self.new.shown ≡ self.old.shown }
    {
        let _ = self.cursor.skip(to - self.cursor.mark().row());
    }

    /// Goes on to a row of the picture, and leaves marks on the way, from a place on.
    pub fn go_to(
        &mut self,
        stored: &[u8],
        picture: Picture,
        least: u32,
        row: u32,
        place: usize,
        marks: &mut Marks,
    )
        requires is { self.old.cursor.picture ≡ picture_of stored.now picture }
        requires next { self.old.cursor.next ≤ row }
        requires row { row ≤ picture.rows }
        requires read { (y : ℕ) → y < picture.rows → is_refused self.old.cursor.picture y ≡ false }
        requires marks { AreMarksOf stored.now (contents.Picture picture) marks.old }
        ensures rows { self.new.cursor ≡ record self.old.cursor { next = row } }
        ensures shown { self.new.shown ≡ self.old.shown }
        ensures marks { AreMarksOf stored.now (contents.Picture picture) marks.new }
    {
        let mut place = place;
        let mut stop = next_stop(self.cursor.mark().row(), least, row);
        while stop < row && place < ON_WAY {
            self.skip_to(stop);
            marks.keep(place, self.cursor.mark());
            place += 1;
            stop = next_stop(stop, least, row);
        }
        self.skip_to(row);
    }

    /// How many bytes of the codes were read, rows passed, and rows handed out.
    pub fn work(&self) -> u64
        requires few { length self.now.cursor.picture.codes < 2 ^ 32 }
        requires count { self.now.shown ≤ 2 ^ 32 }
        ensures most { result ≤ 2 * length self.now.cursor.picture.codes + 2 + self.now.shown }
        ensures shown { self.now.shown ≤ result }
    {
        self.cursor.read() + self.cursor.passed() + self.shown
    }
}
