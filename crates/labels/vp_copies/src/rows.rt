//! Whole rows of a band, many at a call.
ghost use Rattle.std.specs.Prelude.{◌≡◌, ◌+◌, ◌*◌, ◌%◌, ◌<◌, ◌≤◌, ◌++◌, take, drop, length};
ghost use Rattle.vp_dots.specs.Images.{Image, row_bytes};
ghost use Rattle.vp_copies.specs.Copies.{line_bytes, lines_of};
ghost use Rattle.vp_copies.specs.Progress.{IsPainted};
ghost use Rattle.vp_output.specs.Lines.{line_text, rows_from};
ghost use Rattle.vp_output.specs.declared.place.Line.TheVariants.{Row};
ghost use Rattle.vp_label_size.specs.declared.TheConstants.{WIDEST, BAND_ROWS};

use vp_dots::{Small, dots_decide};
use vp_label_size::{BAND_ROWS, LabelBand};

/// How many bytes hold a row of `width` dots.
pub fn bytes_of_row(width: u16) -> usize
    ensures { result ≡ row_bytes width }
{
    (usize::from(width) + 7) / 8
}

/// The bytes of the band's row for row y of an image `width` dots wide.
pub fn row_of_band<A: Small>(band: &LabelBand<A>, y: usize, width: u16) -> &[u8]
    requires narrow { width ≤ WIDEST }
    ensures count { length result.now ≡ line_bytes width 0 (Row y) }
    ensures text { (i : Image) → i.width ≡ width → y < i.height → IsPainted i (Row y) band.now →
        result.now ≡ line_text (lines_of i) (Row y) }
{
    let row = &band.row(y % BAND_ROWS)[..bytes_of_row(width)];
    dots_decide(row);
    row
}

/// Copies a row to the front of a room.
fn copy_row(row: &[u8], room: &mut [u8])
    requires { length row.now ≤ length room.old }
    ensures { room.new ≡ row.now ++ drop (length row.now) room.old }
{
    room[..row.len()].copy_from_slice(row);
}

/// Copies rows of an image `width` dots wide, from row y on, all of which are on its band, to the front of
/// a room.
pub fn copy_rows<A: Small>(band: &LabelBand<A>, y: u32, rows: usize, width: u16, room: &mut [u8])
    requires narrow { width ≤ WIDEST }
    requires inside { y % BAND_ROWS + rows ≤ BAND_ROWS }
    requires fits { rows * row_bytes width ≤ length room.old }
    ensures { (i : Image) → i.width ≡ width → y + rows ≤ i.height → IsPainted i (Row y) band.now →
        room.new ≡ take (rows * row_bytes width) (rows_from (lines_of i) y)
        ++ drop (rows * row_bytes width) room.old }
{
    let bytes = bytes_of_row(width);
    for k in 0..rows {
        copy_row(
            row_of_band(band, y as usize + k, width),
            &mut room[k * bytes..],
        );
    }
}
