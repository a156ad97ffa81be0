//! How a box of dots lies on a label.
ghost use Rattle.std.specs.Prelude.{◌≡◌, ℕ, ◌+◌, ◌-◌, ◌^◌, ◌<◌, ◌≤◌, Bool, ℤ, pos, neg_ℤ, ◌-ℤ◌, ◌+ℤ◌, ◌≤ℤ◌};
ghost use Rattle.vp_field.specs.Turning.{turned};
ghost use Rattle.vp_field.specs.Views.{seen_x, seen_y};
ghost use Rattle.vp_field.specs.Axes.{laid, lines_of, IsWithin, dot_on};
ghost use Rattle.vp_field.specs.declared.axis.Lines.TheVariants.{Along, Across};
ghost use Rattle.vp_label_size.specs.declared.TheConstants.{BAND_ROWS};

use crate::axis::{Axis, Lines, clamped};
use crate::view::View;
use vp_label_size::BAND_ROWS;
use vp_zpl::item::Orientation;

/// How a box of dots lies on a label: which way its lines run, and where their dots fall.
#[derive(Clone, Copy, Debug, PartialEq, Eq)]
pub struct Laid {
    pub lines: Lines,
    pub columns: Axis,
    pub rows: Axis,
}

/// The last of `size` places from place `from` on.
fn last(from: i64, size: u32) -> i64
    requires low { neg_ℤ (pos (2 ^ 32)) ≤ℤ from }
    requires high { from ≤ℤ pos (2 ^ 32) }
    ensures { result ≡ from +ℤ pos size -ℤ pos 1 }
{
    from + i64::from(size) - 1
}

impl Laid {
    /// A box of w by h that is turned and stands at a place of the label.
    pub fn turned(orientation: Orientation, w: u32, h: u32, left: i64, top: i64) -> Laid
        requires left_low { neg_ℤ (pos (2 ^ 32)) ≤ℤ left }
        requires left_high { left ≤ℤ pos (2 ^ 32) }
        requires top_low { neg_ℤ (pos (2 ^ 32)) ≤ℤ top }
        requires top_high { top ≤ℤ pos (2 ^ 32) }
        ensures ink { (ink : ℕ → ℕ → Bool) (x y : ℤ)
            → laid result.lines result.columns result.rows ink x y
            ≡ turned orientation w h ink (x -ℤ left) (y -ℤ top) }
        ensures lines { result.lines ≡ lines_of orientation }
        ensures columns { IsWithin (2 ^ 40) result.columns }
        ensures rows { IsWithin (2 ^ 40) result.rows }
    {
        let (lines, columns, rows) = match orientation {
            Orientation::Normal => (Lines::Along, Axis::Forward(left), Axis::Forward(top)),
            Orientation::Rotated => (Lines::Across, Axis::Back(last(left, h)), Axis::Forward(top)),
            Orientation::Inverted => (
                Lines::Along,
                Axis::Back(last(left, w)),
                Axis::Back(last(top, h)),
            ),
            Orientation::BottomUp => (Lines::Across, Axis::Forward(left), Axis::Back(last(top, w))),
        };
        Laid {
            lines,
            columns,
            rows,
        }
    }

    /// How what is laid so lies on the label as it is put out.
    pub fn viewed(self, view: View) -> Laid
        requires columns { IsWithin (2 ^ 40) self.columns }
        requires rows { IsWithin (2 ^ 40) self.rows }
        ensures ink { (ink : ℕ → ℕ → Bool) (x y : ℤ)
            → laid result.lines result.columns result.rows ink x y
            ≡ laid self.lines self.columns self.rows ink (seen_x view x) (seen_y view y) }
        ensures lines { result.lines ≡ self.lines }
        ensures columns { IsWithin (2 ^ 41) result.columns }
        ensures rows { IsWithin (2 ^ 41) result.rows }
    {
        let turned = self.columns.counted(view.inverted, view.width);
        let columns = turned.counted(view.mirrored, view.width);
        let rows = self.rows.counted(view.inverted, view.height);
        Laid {
            lines: self.lines,
            columns,
            rows,
        }
    }

    /// The first of `lines` lines that may fall on the band from row `first` on, or on so many columns where
    /// they lie across it: none before it does.
    pub fn first_line(self, lines: u32, first: u32, columns: u32) -> u32
        requires columns { IsWithin (2 ^ 41) self.columns }
        requires rows { IsWithin (2 ^ 41) self.rows }
        ensures along { self.lines ≡ Along → (k v : ℕ) → k < BAND_ROWS → v < lines
            → dot_on self.rows (pos (first + k)) ≡ pos v → result ≤ v }
        ensures near { self.lines ≡ Along → (k v : ℕ) → k < BAND_ROWS → v < lines
            → dot_on self.rows (pos (first + k)) ≡ pos v → v < result + BAND_ROWS }
        ensures across { self.lines ≡ Across → (x v : ℕ) → x < columns → v < lines
            → dot_on self.columns (pos x) ≡ pos v → result ≤ v }
        ensures within { self.lines ≡ Across → (x v : ℕ) → x < columns → v < lines
            → dot_on self.columns (pos x) ≡ pos v → v < result + columns }
    {
        match self.lines {
            Lines::Along => clamped(self.rows.first_line(first, BAND_ROWS as u32), lines),
            Lines::Across => clamped(self.columns.first_line(0, columns), lines),
        }
    }
}
