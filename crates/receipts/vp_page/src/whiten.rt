//! Areas of a half made white.
ghost use Rattle.std.specs.Prelude.{◌≡◌, ℕ, ◌+◌, ◌*◌, ◌/◌, ◌%◌, ◌≤◌, ◌<◌, ◌&&◌, not, length};
ghost use Rattle.vp_dots.specs.Dots.{dot, span};
ghost use Rattle.vp_dots.specs.Painting.{Painted};
ghost use Rattle.vp_dots.specs.Places.{RowsPainted};
ghost use Rattle.vp_dots.specs.declared.Op.TheVariants.{White};
ghost use Rattle.vp_page.specs.Areas.{holds};
ghost use Rattle.vp_page.specs.declared.line.TheConstants.{LINE_BYTES};

use crate::Area;
use crate::white::Rows;
use std::simd::{u8x8, u8x16};
use vp_dots::{Band, Op, Small, fill_dots};

/// A row that is black but where an area is.
fn kept_by<const B: usize>(area: Area) -> [u8; B]
    ensures { (x : ℕ) → x < 8 * B → dot result x ≡ not (span area.x (area.x + area.dx) x) }
{
    let mut kept = [255; B];
    let right = area.x as u64 + area.dx as u64;
    fill_dots(Op::White, area.x as u64, right, &mut kept);
    kept
}

/// Makes the dots of sixteen bytes of a row, from byte i on, white where the kept ones are.
#[inline(always)]
fn keep_sixteen(kept: &[u8], i: usize, row: &mut [u8])
    requires kept { i + 16 ≤ length kept.now }
    requires row { i + 16 ≤ length row.old }
    ensures { Painted White (λ d. span i (i + 16) (d / 8) && not (dot kept.now d)) row.old row.new }
{
    let new = u8x16::from_slice(&row[i..]) & u8x16::from_slice(&kept[i..]);
    new.copy_to_slice(&mut row[i..]);
}

/// Makes the dots of eight bytes of a row, from byte i on, white where the kept ones are.
#[inline(always)]
fn keep_eight(kept: &[u8], i: usize, row: &mut [u8])
    requires kept { i + 8 ≤ length kept.now }
    requires row { i + 8 ≤ length row.old }
    ensures { Painted White (λ d. span i (i + 8) (d / 8) && not (dot kept.now d)) row.old row.new }
{
    let new = u8x8::from_slice(&row[i..]) & u8x8::from_slice(&kept[i..]);
    new.copy_to_slice(&mut row[i..]);
}

/// Makes the dots of a row white where the kept ones are.
#[inline(always)]
fn keep<const B: usize>(kept: &[u8; B], row: &mut [u8])
    requires words { B % 8 ≡ 0 }
    requires row { length row.old ≡ B }
    ensures { Painted White (λ d. not (dot kept.now d)) row.old row.new }
{
    for k in 0..B / 16 {
        keep_sixteen(kept, 16 * k, row);
    }
    if B % 16 != 0 {
        keep_eight(kept, B - 8, row);
    }
}

/// Makes the places of an area white that lie on some rows.
pub(crate) fn whiten<const B: usize, const H: usize, A: Small>(
    area: Area,
    rows: Rows,
    band: &mut Band<B, H, A>,
)
    requires words { B % 8 ≡ 0 }
    requires narrow { B ≤ LINE_BYTES }
    requires few { rows.to ≤ H }
    requires inside { area.y ≤ rows.from }
    requires below { rows.to ≤ area.y + area.dy }
    ensures { RowsPainted H White (λ x k. span rows.from rows.to k && holds area x k) band.old band.new }
{
    let kept = kept_by::<B>(area);
    for i in 0..rows.to.saturating_sub(rows.from) {
        keep(&kept, band.row_mut(rows.from + i));
    }
}
