//! One band of a label, painted from the fields that meet it.
ghost use Rattle.std.specs.Prelude.{◌≡◌, ℕ, ◌+◌, ◌*◌, ◌^◌, ◌<◌, ◌≤◌, pos, false, List, [], ◌∷◌, ◌++◌, length, map, slice_index_or};
ghost use Rattle.vp_dots.specs.Dots.{dot};
ghost use Rattle.vp_dots.specs.Images.{row_bytes};
ghost use Rattle.vp_field.specs.Contents.{most_work};
ghost use Rattle.vp_field.specs.Fields.{field_ink, stroke_of, IsKept, AreMarksOf};
ghost use Rattle.vp_field.specs.Bands.{Shows, IsCounted};
ghost use Rattle.vp_field.specs.Views.{seen_x, seen_y};
ghost use Rattle.vp_field.specs.Strokes.{Stroke, image_dot};
ghost use Rattle.vp_fields_by_band.specs.Held.{Stays};
ghost use Rattle.vp_format.specs.Formats.{held};
ghost use Rattle.vp_fields_by_band.specs.Threads.{IsThreaded};
ghost use Rattle.vp_bands.specs.Meeting.{band_work, meeting, showing};
ghost use Rattle.vp_bands.specs.Standing.{AreMarked, IsThreadedFor};
ghost use Rattle.vp_label_size.specs.declared.TheConstants.{WIDEST, BAND_ROWS};

use crate::marks::KeptMarks;
use crate::meeting::BANDS;
use vp_dots::Small;
use vp_field::{Marks, View, clear, cut, paint_field};
use vp_fields_by_band::{Threads, Walk, next_of};
use vp_format::{FIELDS, Field, Fields};
use vp_glyph::Sheets;
use vp_label_size::{BAND_ROWS, LabelBand};

/// Paints a field on a band, whose first row is row `first` of the label, and says what that took. What is
/// left of a field that begins in the band is of another copy or label, and dropped.
fn paint_met<A: Small>(
    field: &Field,
    begins: bool,
    marks: &mut Marks,
    sheets: &Sheets<A>,
    stored: &[u8],
    view: View,
    first: u32,
    band: &mut LabelBand<A>,
) -> u64
    requires kept { IsKept stored.now field.now }
    requires marked { begins ≡ false → AreMarksOf stored.now field.now.content marks.old }
    ensures shows { (strokes : List Stroke) → Shows view first strokes band.old
        → Shows view first (strokes ++ stroke_of sheets.now stored.now field.now ∷ []) band.new }
    ensures marked { AreMarksOf stored.now field.now.content marks.new }
    ensures work { result ≤ most_work field.now.orientation field.now.content }
    ensures counted { IsCounted (λ x k. field_ink sheets.now stored.now field.now
        (seen_x view (pos x)) (seen_y view (pos (first + k)))) result }
    ensures countable { result ≤ 2 ^ 27 }
{
    if begins {
        *marks = Marks::none();
    }
    paint_field(sheets, stored, field, marks, view, first, band)
}

/// Paints band b of a label from the fields that meet it, and threads those that the next band is to carry
/// on, the first of which is left in `carried`. What painting took comes back.
pub fn paint_band<A: Small>(
    threads: &mut Threads<A>,
    marks: &mut KeptMarks<A>,
    carried: &mut Option<usize>,
    b: usize,
    sheets: &Sheets<A>,
    fields: &mut Fields<A>,
    stored: &[u8],
    view: View,
    band: &mut LabelBand<A>,
) -> u64
    requires heads { b < length threads.old.heads }
    requires links { length threads.old.entries ≤ length threads.old.links }
    requires marks { length threads.old.entries ≤ length marks.old.items }
    requires few { length threads.old.entries ≤ FIELDS }
    requires narrow { view.width ≤ WIDEST }
    requires low { b < BANDS }
    requires label { IsThreadedFor sheets.now (held fields.old stored.now) view threads.old.entries
        threads.old.heads }
    requires carried { IsThreaded threads.old.entries threads.old.links b carried.old }
    requires marked { AreMarked (held fields.old stored.now) threads.old.entries marks.old.items b 0
        (length threads.old.entries) }
    ensures dots { (x k : ℕ) → x < 8 * row_bytes view.width → k < BAND_ROWS → 32 * b + k < view.height
        → dot (slice_index_or band.new k []) x
        ≡ image_dot view (map (stroke_of sheets.now stored.now) fields.old.items) x (32 * b + k) }
    ensures stays { Stays threads.old threads.new }
    ensures lengths { length marks.new.items ≡ length marks.old.items }
    ensures carried { IsThreaded threads.old.entries threads.new.links (b + 1) carried.new }
    ensures marked { AreMarked (held fields.old stored.now) threads.old.entries marks.new.items (b + 1) 0
        (length threads.old.entries) }
    ensures at_least { threads.old.looks
        + meeting sheets.now stored.now view fields.old.items b ≤ threads.new.looks }
    ensures at_most { threads.new.looks ≤ threads.old.looks + 1
        + 2 * meeting sheets.now stored.now view fields.old.items b }
    ensures read { fields.new ≡ record fields.old
        { read = fields.old.read + meeting sheets.now stored.now view fields.old.items b } }
    ensures read_marks { marks.new.read
        ≡ marks.old.read + meeting sheets.now stored.now view fields.old.items b }
    ensures work { result ≤ band_work sheets.now stored.now view fields.old.items b }
    ensures shown { showing sheets.now stored.now view fields.old.items b ≤ result }
    ensures countable { result ≤ 2 ^ 37 }
{
    let first = BAND_ROWS as u32 * b as u32;
    clear(view, first, band);
    let mut work = 0;
    let mut walk = Walk::start(b, *carried, threads);
    while let Some(n) = next_of(walk.carried, walk.begins) {
        let (after, begins) = walk.after(n, b, threads);
        let field = fields.field(n);
        work += paint_met(
            field,
            begins,
            marks.of(n),
            sheets,
            stored,
            view,
            first,
            band,
        );
        walk = after;
    }
    cut(view, first, band);
    *carried = walk.close(threads);
    work
}
