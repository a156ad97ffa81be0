//! A row of a raster as it is printed: each dot as often across as the scale says.
ghost use Rattle.std.specs.Prelude.{◌≡◌, ℕ, ◌/◌, ◌<◌};
ghost use Rattle.vp_dots.specs.Dots.{bit, dot};
ghost use Rattle.vp_dots.specs.Images.{row_of};
ghost use Rattle.vp_page.specs.declared.page.TheConstants.{PAPER_BYTES};
ghost use Rattle.vp_page.specs.declared.line.TheConstants.{LINE_DOTS};
ghost use Rattle.vp_receipt_settings.specs.Rasters.{times_across};
ghost use Rattle.vp_receipt_settings.specs.Gathering.{kept_of};
ghost use Rattle.vp_strips.specs.Rows.{clipped};

use crate::strip::write_clipped;
use vp_page::{LINE_BYTES, PAPER_BYTES};
use vp_receipt_settings::{Raster, times_across};

/// Four dots, each of them twice.
static DOUBLED: [u8; 16] = [
    0x00, 0x03, 0x0c, 0x0f, 0x30, 0x33, 0x3c, 0x3f, 0xc0, 0xc3, 0xcc, 0xcf, 0xf0, 0xf3, 0xfc, 0xff,
];

/// The dots of half a byte, each of them twice.
#[inline(always)]
fn doubled_half(half: u8) -> u8
    requires { half < 16 }
    ensures { (k : ℕ) → k < 8 → bit result k ≡ bit half (k / 2) }
{
    DOUBLED[usize::from(half)]
}

/// The dots of a row, each of them twice, as far as the longest line of a page goes.
pub fn doubled(row: &[u8]) -> [u8; LINE_BYTES]
    ensures { (x : ℕ) → x < LINE_DOTS → dot result x ≡ dot row.now (x / 2) }
{
    let mut wide = [0; LINE_BYTES];
    for i in 0..row.len().min(LINE_BYTES / 2) {
        wide[2 * i] = doubled_half(row[i] >> 4);
        wide[2 * i + 1] = doubled_half(row[i] & 15);
    }
    wide
}

/// Writes the row whose bytes these are, as it is printed.
pub fn write_raster_row(raster: &Raster, left: u16, length: u16, row: &mut [u8; PAPER_BYTES])
    ensures { row.new ≡
        row_of PAPER_BYTES (clipped left length
        (λ x. dot (kept_of raster.now) (x / times_across raster.now.scale))) }
{
    let source = raster.kept();
    if times_across(raster.scale) == 1 {
        write_clipped(source, left, length, row);
    } else {
        write_clipped(&doubled(source), left, length, row);
    }
}
