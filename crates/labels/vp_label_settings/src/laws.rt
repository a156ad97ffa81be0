//! What holds behind every stream.
ghost use Rattle.std.specs.Prelude.{◌≡◌, ℕ, List, [], false, length};
ghost use Rattle.vp_zpl.specs.Items.{Item, data_items};
ghost use Rattle.vp_label_settings.specs.declared.in_force.InForce.{InForce};
ghost use Rattle.vp_label_settings.specs.Formats.{followed_by, is_open, stored};
ghost use Rattle.vp_label_settings.specs.Settings.{settings_of, quantity};
ghost use Rattle.vp_label_settings.specs.Parts.{parts_of};
ghost use Rattle.vp_label_settings.specs.Laws.{AreInRange, AreParts};
ghost use Rattle.vp_label_settings.specs.Standing.{StandsAfter};

/// The settings and the parts of the open field are in their ranges, and its content begins among the stored
/// bytes.
pub fn in_range()
    ensures settings { (before : List Item) → AreInRange (settings_of before) }
    ensures parts { (before : List Item) → AreParts (length (stored before)) (parts_of before) }
{}

/// Where no format is open, nothing is said of a field, nothing is stored, and one copy is to be printed.
pub fn between_formats()
    ensures parts { (before : List Item) → is_open before ≡ false → parts_of before ≡ parts_of [] }
    ensures stored { (before : List Item) → is_open before ≡ false → stored before ≡ [] }
    ensures quantity { (before : List Item) → is_open before ≡ false → quantity before ≡ 1 }
{}

/// Data change nothing of what is in force.
pub fn data_set_nothing()
    ensures { (now : InForce) (before : List Item) (bytes : List ℕ) → StandsAfter now before →
        StandsAfter now (followed_by before (data_items bytes)) }
{}
