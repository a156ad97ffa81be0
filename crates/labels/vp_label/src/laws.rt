//! Laws of items: they are taken one after the other, where data find no room none behind them do, all
//! that is printed is images, and what bytes cost at most.
ghost use Rattle.std.specs.Prelude.{◌≡◌, ◌++◌, ◌∷◌, [], ℕ, List, flat_map, reverse, None, Some};
ghost use Rattle.vp_dots.specs.Images.{pbm};
ghost use Rattle.vp_dots.specs.declared.fault.Fault.{Fault};
ghost use Rattle.vp_glyph.specs.Sheets.{Sheets};
ghost use Rattle.vp_zpl.specs.Items.{Item, data_items};
ghost use Rattle.vp_zpl.specs.Items.Item.{Data};
ghost use Rattle.vp_label_settings.specs.Formats.{followed_by};
ghost use Rattle.vp_label.specs.Bytes.{BytesCostAtMost};
ghost use Rattle.vp_label.specs.Images.{images, AreOfLabels};
ghost use Rattle.vp_label.specs.Prints.{all_print, printed};
ghost use Rattle.vp_label.specs.Refusals.{first_refusal, refusal};

use vp_bands::a_field_costs_at_most;
use vp_label_settings::laws::{between_formats, in_range};
use vp_zpl::laws::items_take_bytes;

/// A law: items stand behind those before them, the newest first, and where none of them is refused, the
/// first one isn't, nor are the others behind it. What they print stands behind what was printed before.
pub fn in_turn()
    ensures order { (before items : List Item) → followed_by before items ≡ reverse items ++ before }
    ensures taken { (sheets : Sheets) (before : List Item) (item : Item) (more : List Item) →
        first_refusal sheets before (item ∷ more) ≡ None →
        (refusal sheets before item ≡ None) × (first_refusal sheets (item ∷ before) more ≡ None) }
    ensures printed { (sheets : Sheets) (before items : List Item) →
        printed sheets (followed_by before items) ≡ printed sheets before ++ all_print sheets before items }
{}

/// A law: data print nothing, and where a byte of them is refused, so is the last one, for the same reason.
pub fn data_in_turn()
    ensures silent { (sheets : Sheets) (before : List Item) (bytes : List ℕ) →
        all_print sheets before (data_items bytes) ≡ [] }
    ensures full { (sheets : Sheets) (before : List Item) (bytes : List ℕ) (byte : ℕ) (f : Fault) →
        first_refusal sheets before (data_items (bytes ++ byte ∷ [])) ≡ Some f →
        refusal sheets (followed_by before (data_items bytes)) (Data byte) ≡ Some f }
{}

/// A law: what items print is the images of the formats that they end, one after the other, each of them as
/// wide and as high as its format says, which is 1 to 1,248 by 1 to 8,000 dots.
pub fn what_is_printed_is_images()
    ensures images { (sheets : Sheets) (before : List Item) →
        printed sheets before ≡ flat_map pbm (images sheets before) }
    ensures sizes { (sheets : Sheets) (before : List Item) → AreOfLabels (images sheets before) }
{
    in_range();
}

/// A law: a field is of six bytes of its format or more, and a byte of a text or of a picture's codes of one.
/// So a copy takes at most 7,327 for each byte of the format in each band of the label.
pub fn bytes_cost_at_most()
    ensures { BytesCostAtMost }
{
    items_take_bytes();
    a_field_costs_at_most();
    between_formats();
    in_range();
}
