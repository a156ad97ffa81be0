//! Ink that stands turned on a label, painted on a band of the label as it is put out.
ghost use Rattle.std.specs.Prelude.{◌≡◌, ℕ, ◌+◌, ◌^◌, ◌≤◌, Bool, ℤ, pos};
ghost use Rattle.vp_field.specs.Axes.{laid, lines_of, IsWithin};
ghost use Rattle.vp_field.specs.Bands.{ShownPainted, IsCounted};
ghost use Rattle.vp_field.specs.Contents.{lines_cost};
ghost use Rattle.vp_field.specs.Standing.{standing, IsNear};
ghost use Rattle.vp_field.specs.Views.{seen_x, seen_y, columns_of};
ghost use Rattle.vp_label_size.specs.declared.TheConstants.{BAND_ROWS};

use crate::laid::Laid;
use crate::paint::paint_laid;
use crate::pieces::Pieces;
use crate::view::View;
use vp_dots::{Ink, Op, Small};
use vp_label_size::LabelBand;
use vp_zpl::item::Orientation;

/// How ink stands on a label, and what it does to the dots there: the upper left corner of its turned box in
/// dots from the label's, which may lie off the label.
#[derive(Clone, Copy)]
pub struct Standing {
    pub op: Op,
    pub left: i64,
    pub top: i64,
    pub orientation: Orientation,
    pub view: View,
}

impl Standing {
    /// How ink that stands so lies on the label as it is put out.
    pub fn laid<I: Ink>(self, ink: &I) -> Laid
        requires { IsNear self.left self.top }
        ensures columns { IsWithin (2 ^ 41) result.columns }
        ensures rows { IsWithin (2 ^ 41) result.rows }
        ensures lines { result.lines ≡ lines_of self.orientation }
        ensures ink { (dots : ℕ → ℕ → Bool) (x y : ℤ) → laid result.lines result.columns result.rows dots x y
            ≡ standing self.left self.top self.orientation (I.width ink.now) (I.height ink.now) dots
            (seen_x self.view x) (seen_y self.view y) }
    {
        let (w, h) = ink.size();
        Laid::turned(self.orientation, w, h, self.left, self.top).viewed(self.view)
    }
}

/// Applies the operation to the dots of a band that are on the label, where ink that stands there has ink.
/// The band's first row is row `first` of the label as it is put out. How many lines were drawn, and pieces
/// of them, comes back.
pub fn paint_standing<I: Pieces, A: Small>(
    ink: &I,
    on: Standing,
    first: u32,
    band: &mut LabelBand<A>,
) -> u64
    requires near { IsNear on.left on.top }
    requires few { (d : ℕ) → I.most_pieces ink.now d ≤ 2 ^ 40 }
    ensures dots { ShownPainted (columns_of on.view) on.op (λ x k. standing on.left on.top on.orientation
        (I.width ink.now) (I.height ink.now) (I.ink_at ink.now) (seen_x on.view (pos x))
        (seen_y on.view (pos (first + k)))) band.old band.new }
    ensures lines { result ≤ lines_cost (lines_of on.orientation) (I.most_pieces ink.now) }
    ensures counted { IsCounted (λ x k. standing on.left on.top on.orientation (I.width ink.now)
        (I.height ink.now) (I.ink_at ink.now) (seen_x on.view (pos x)) (seen_y on.view (pos (first + k))))
        result }
{
    let laid = on.laid(ink);
    let seen = on.view.columns();
    paint_laid(
        ink,
        on.op,
        laid.lines,
        laid.columns,
        laid.rows,
        seen,
        first,
        band,
    )
}
