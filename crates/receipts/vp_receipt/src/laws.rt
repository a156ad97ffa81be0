//! Laws of what is printed: a raster's rows, and images one after the other.
ghost use Rattle.std.specs.Prelude.{◌≡◌, ◌<◌, ◌+◌, ◌∷◌, ◌++◌, ℕ, List, [], flat_map, length, reverse};
ghost use Rattle.vp_dots.specs.Images.{pbm};
ghost use Rattle.vp_esc.specs.Split.{items, split};
ghost use Rattle.vp_esc.specs.declared.item.EscItem.{EscItem};
ghost use Rattle.vp_esc.specs.declared.reading.Reading.{Reading};
ghost use Rattle.vp_receipt_settings.specs.Setup.{Setup, across};
ghost use Rattle.vp_receipt_settings.specs.Rasters.{raster_bytes, rows_to_come, row_so_far, bytes_after};
ghost use Rattle.vp_receipt.specs.Images.{images, begun, AreAcross};
ghost use Rattle.vp_receipt.specs.Strips.{own_strips, printed, raster_row_text};
ghost use Rattle.vp_receipt.specs.Work.{AddsAtMost, BytesCostAtMost, CostsAtMost, DrawsAtMost};

use vp_esc::laws::{a_byte_gives_at_most_one, one_reading, only_more};

/// A law: where a row of a raster begins, the bytes of a row are gathered, the last of them prints them as a
/// row, and the next row begins.
pub fn a_row_is_its_bytes()
    ensures gathered { (before : List EscItem) (row : List ℕ) → row_so_far before ≡ [] →
        0 < rows_to_come before → length row < raster_bytes before →
        row_so_far (bytes_after row before) ≡ row }
    ensures printed { (setup : Setup) (before : List EscItem) (row : List ℕ) (byte : ℕ) →
        row_so_far before ≡ [] → 0 < rows_to_come before → length row + 1 ≡ raster_bytes before →
        own_strips setup (bytes_after row before) (EscItem.RasterByte byte) ≡
        raster_row_text setup (bytes_after row before) (row ++ byte ∷ []) }
    ensures begins { (before : List EscItem) (row : List ℕ) (byte : ℕ) → row_so_far before ≡ [] →
        0 < rows_to_come before → length row + 1 ≡ raster_bytes before →
        row_so_far (EscItem.RasterByte byte ∷ bytes_after row before) ≡ [] }
    ensures fewer { (before : List EscItem) (row : List ℕ) (byte : ℕ) → row_so_far before ≡ [] →
        0 < rows_to_come before → length row + 1 ≡ raster_bytes before →
        rows_to_come (EscItem.RasterByte byte ∷ bytes_after row before) + 1 ≡ rows_to_come before }
{}

/// A law: what an item adds to the work of a page is at most the rows of the line that it ends, of its own
/// symbol or row of a raster, and for CAN of the area. One that ends the line adds to nothing.
pub fn an_item_adds_at_most()
    ensures { AddsAtMost }
{}

/// A law: that is at most a line of 192 rows, and one symbol or one wipe of the rows of a page, and so is
/// what is counted behind an item that ends the line; for a byte of a raster it is two rows.
pub fn an_item_costs_at_most()
    ensures { CostsAtMost }
{}

/// A law: a byte gives at most one item, so that any bytes lay on pages and wipe there at most 2,432 rows for
/// each of them. All that was ever counted is no more, beside a page that is white from the start.
pub fn bytes_cost_at_most()
    ensures { BytesCostAtMost }
{
    a_byte_gives_at_most_one();
    only_more();
}

/// A law: an item draws at most one character or column into the line, no higher than 192 rows, over what
/// stands in it or into one that it begins anew.
pub fn an_item_draws_at_most()
    ensures { DrawsAtMost }
{}

/// A law: what the items of bytes print is images, one after the other, each as wide as the paper and of a
/// row or more, and then what has come of a raster of which rows are to come: nothing where the bytes end
/// with a whole command.
pub fn what_is_printed_is_images()
    ensures images { (reading : Reading) (setup : Setup) (bytes : List ℕ) →
        printed setup (reverse (items reading bytes)) ≡
        flat_map pbm (images setup (reverse (items reading bytes)))
        ++ begun setup (reverse (items reading bytes)) }
    ensures whole { (reading : Reading) (setup : Setup) (bytes : List ℕ) → (split reading bytes).rest ≡ [] →
        begun setup (reverse (items reading bytes)) ≡ [] }
    ensures across { (setup : Setup) (before : List EscItem) →
        AreAcross (across setup.width) (images setup before) }
{
    one_reading();
}
