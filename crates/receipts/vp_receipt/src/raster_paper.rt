//! Rows of a raster that are printed as they come.
ghost use Rattle.std.specs.Prelude.{◌≡◌, ◌<◌, ◌≤◌, ◌+◌, ◌-◌, ◌*◌, ◌/◌, ◌++◌, List, ℕ, length, min, take, drop, true};
ghost use Rattle.vp_esc.specs.declared.item.EscItem.{EscItem};
ghost use Rattle.vp_receipt.specs.Plain.{is_once, is_plain, IsOnPaper};
ghost use Rattle.vp_receipt_settings.specs.Gathering.{IsGathering, IsPartRow, left_of};
ghost use Rattle.vp_receipt_settings.specs.Settings.{settings_of, IsFit};
ghost use Rattle.vp_receipt_settings.specs.Setup.{Setup};

use vp_esc::item::RasterScale;
use vp_receipt_settings::{Raster, Settings};

/// Whether a dot is drawn once.
fn is_once(scale: RasterScale) -> bool
    ensures { result ≡ is_once scale }
{
    match scale {
        RasterScale::Normal => true,
        RasterScale::DoubleWidth | RasterScale::DoubleHeight | RasterScale::Quadruple => false,
    }
}

/// Whether the next row begins, and it and those below it are printed as they come.
pub fn is_plain(s: &Settings, raster: &Raster) -> bool
    ensures { result ≡ is_plain s.now raster.now }
{
    raster.got == 0
        && !s.page.is_paged()
        && is_once(raster.scale)
        && usize::from(raster.bytes) == s.paper.row_bytes()
        && s.paper_length() == s.paper.across()
}

/// How many bytes of plain rows are taken in one run where `output` bytes can be put out.
pub fn plain_room(raster: &Raster, output: usize) -> usize
    requires part { IsPartRow raster.now }
    requires some { 0 < raster.now.bytes }
    ensures { result ≡ min (left_of raster.now)
        (output / raster.now.bytes * raster.now.bytes + (raster.now.bytes - 1)) }
{
    let wide = usize::from(raster.bytes);
    let most = (output / wide * wide).saturating_add(wide - 1);
    raster.left().min(most)
}

/// Takes bytes of plain rows: whole rows are put out, and what is left is kept. Answers how many bytes were
/// put out.
pub fn put_plain(s: &mut Settings, raster: &mut Raster, bytes: &[u8], output: &mut [u8]) -> usize
    requires fit { IsFit s.old }
    requires part { IsPartRow raster.old }
    requires plain { is_plain s.old raster.old ≡ true }
    requires few { length bytes.now ≤ min (left_of raster.old)
        (length output.old / raster.old.bytes * raster.old.bytes + (raster.old.bytes - 1)) }
    ensures fit { IsFit s.new }
    ensures part { IsPartRow raster.new }
    ensures count { result ≡ length bytes.now / raster.old.bytes * raster.old.bytes }
    ensures within { result ≤ length bytes.now }
    ensures fits { result ≤ length output.old }
    ensures bytes { output.new ≡ take result bytes.now ++ drop result output.old }
    ensures on_paper { (setup : Setup) (before : List EscItem) →
        s.old ≡ settings_of setup before → IsGathering raster.old before →
        IsOnPaper setup before s.new raster.new bytes.now result }
{
    let wide = usize::from(raster.bytes);
    let rows = usize::from(raster.rows).min(bytes.len() / wide);
    let n = rows * wide;
    output[..n].copy_from_slice(&bytes[..n]);
    *s = s.after_row(rows as u32);
    raster.pass(rows as u16);
    raster.take_all(&bytes[n..]);
    n
}
