//! What looking back shows of the line: what lays it on a page, and what was set last of what holds its
//! length.
ghost use Rattle.std.specs.Prelude.{◌≡◌, ◌∷◌, ◌++◌, List, false, true};
ghost use Rattle.vp_esc.specs.declared.item.EscItem.{EscItem};
ghost use Rattle.vp_receipt_settings.specs.Extent.{begun, ends_line, gives_up};
ghost use Rattle.vp_receipt_settings.specs.Line.{Placed, line, left_margin, area_width, mode};
ghost use Rattle.vp_receipt_settings.specs.Line.{margin_set, width_set, mode_set, set_last};
ghost use Rattle.vp_receipt_settings.specs.Pages.{is_paged};
ghost use Rattle.vp_receipt_settings.specs.Setup.{Setup, across};
ghost use Rattle.vp_receipt_settings.specs.declared.page_mode.PrinterMode.TheVariants.{Standard};

/// What lays an open line of a page leaves nothing of it, and nothing is lost: any other item leaves it as it
/// is, with what it puts into it, but for ESC S and ESC @, which give it up.
pub fn a_page_lays_its_lines()
    ensures laid { (setup : Setup) (before : List EscItem) (item : EscItem) →
        is_paged (mode setup before) ≡ true → ends_line setup before item ≡ true →
        line setup (item ∷ before) ≡ begun setup before item }
    ensures stays { (setup : Setup) (before : List EscItem) (item : EscItem) →
        is_paged (mode setup before) ≡ true → ends_line setup before item ≡ false → gives_up item ≡ false →
        (more : List Placed) × (line setup (item ∷ before) ≡ more ++ line setup before) }
{}

/// The left margin, the width of the area and the mode are each what was set last, though one definition
/// tells them with the line.
pub fn a_frame_is_what_was_set_last()
    ensures left_margin { (setup : Setup) (before : List EscItem) →
        left_margin setup before ≡ set_last 0 (margin_set setup) before }
    ensures area_width { (setup : Setup) (before : List EscItem) →
        area_width setup before ≡ set_last (across setup.width) (width_set setup) before }
    ensures mode { (setup : Setup) (before : List EscItem) →
        mode setup before ≡ set_last Standard (mode_set setup) before }
{}
