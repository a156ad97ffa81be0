//! A band of a label: white, painted stroke by stroke, and cut at the label's edge.
ghost use Rattle.std.specs.Prelude.{◌≡◌, ℕ, ◌+◌, ◌*◌, ◌<◌, ◌≤◌, List, [], ◌++◌, replicate, drop, slice_index_or, length};
ghost use Rattle.vp_dots.specs.Dots.{dot};
ghost use Rattle.vp_dots.specs.Images.{row_bytes};
ghost use Rattle.vp_field.specs.Strokes.{Stroke, image_dot};
ghost use Rattle.vp_label_size.specs.declared.TheConstants.{WIDEST, BAND_BYTES, BAND_ROWS};
ghost use Rattle.vp_field.specs.Bands.{Shows};

use crate::paint::row_lengths;
use crate::view::View;
use vp_dots::{Op, Small, fill_dots};
use vp_label_size::{BAND_BYTES, BAND_ROWS, LabelBand};

/// How many rows of the label there are in the band from row `first` on.
fn rows_on_label(view: View, first: u32) -> usize
    ensures most { result ≤ BAND_ROWS }
    ensures rows { (k : ℕ) → k < BAND_ROWS → first + k < view.height → k < result }
{
    (view.height.saturating_sub(first) as usize).min(BAND_ROWS)
}

/// How many bytes of a band's row the label reaches.
fn bytes_on_label(view: View) -> usize
    ensures most { result ≤ BAND_BYTES }
    ensures columns { (x : ℕ) → x < WIDEST → x < view.width → x < 8 * result }
{
    ((view.width as usize + 7) / 8).min(BAND_BYTES)
}

/// Makes the first bytes of a row those of white dots.
fn whiten(bytes: usize, row: &mut [u8])
    requires { bytes ≤ length row.old }
    ensures { row.new ≡ replicate bytes 0 ++ drop bytes row.old }
{
    row[..bytes].fill(0);
}

/// Makes a band white as far as the label reaches: it shows a label without strokes.
pub fn clear<A: Small>(view: View, first: u32, band: &mut LabelBand<A>)
    ensures { Shows view first [] band.new }
{
    row_lengths(band);
    let bytes = bytes_on_label(view);
    for k in 0..rows_on_label(view, first) {
        whiten(bytes, band.row_mut(k));
    }
}

/// Makes the dots beside the label white that share a byte with its last column.
pub fn cut<A: Small>(view: View, first: u32, band: &mut LabelBand<A>)
    requires { view.width ≤ WIDEST }
    ensures { (strokes : List Stroke) → Shows view first strokes band.old → (x k : ℕ)
        → x < 8 * row_bytes view.width → k < BAND_ROWS → first + k < view.height
        → dot (slice_index_or band.new k []) x ≡ image_dot view strokes x (first + k) }
{
    let edge = u64::from(view.width);
    for k in 0..rows_on_label(view, first) {
        fill_dots(Op::White, edge, (edge + 7) / 8 * 8, band.row_mut(k));
    }
}
