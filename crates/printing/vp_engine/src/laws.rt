//! What the definitions of `specs/` say of every stream, whatever it is written in.
ghost use Rattle.std.specs.Prelude.{◌≡◌, ◌<◌, ◌≤◌, ◌+◌, ◌*◌, ◌++◌, ℕ, List, flat_map, length, take, Option, Some, Err};
ghost use Rattle.vp_dots.specs.declared.fault.Fault.{Fault};
ghost use Rattle.vp_dots.specs.Images.{Image, pbm};
ghost use Rattle.vp_join.specs.Passes.{IsExact, IsOfCalls};
ghost use Rattle.vp_join.specs.Strips.{IsJoined, greatest, height_together};
ghost use Rattle.vp_join.specs.declared.fault.JoinFault.{JoinFault};
ghost use Rattle.vp_glyph.specs.Sheets.{Sheets};
ghost use Rattle.vp_label.specs.Images.{AreOfLabels};
ghost use Rattle.vp_label.specs.Work.{most_work as most_painting};
ghost use Rattle.vp_page.specs.declared.page.TheConstants.{PAGE_ROWS, PAPER_DOTS};
ghost use Rattle.vp_receipt.specs.Images.{AreAcross};
ghost use Rattle.vp_receipt.specs.Work.{most_work};
ghost use Rattle.vp_receipt_settings.specs.declared.text.TheConstants.{LINE_ROWS};
ghost use Rattle.vp_receipt_settings.specs.Setup.{Setup as ReceiptSetup, across};
ghost use Rattle.vp_language.specs.declared.language.Language.{Language};
ghost use Rattle.vp_esc.specs.declared.reading.Reading.{Reading};
ghost use Rattle.vp_zpl.specs.declared.reading.Reading.{Reading as ZplReading};
ghost use Rattle.vp_engine.specs.Bytes.{IsPrefix};
ghost use Rattle.vp_engine.specs.Images.{receipts, IsPrinted, images_of, begun_of, labels, images_of_labels};
ghost use Rattle.vp_engine.specs.Listing.{lines};
ghost use Rattle.vp_engine.specs.Offsets.{offset_of, placed_line};
ghost use Rattle.vp_engine.specs.Paper.{Reads, IsOfByte, IsOfEnd, before_fault, ending, fault, history, paper};
ghost use Rattle.vp_engine.specs.Setups.{Setup, reading, rules_of};
ghost use Rattle.vp_engine.specs.Setups.{line, Listing, ListingWithOffsets};

use vp_join::laws::{images_are_not_refused, images_make_one};
use vp_receipt::what_is_printed_is_images;

/// Items that are given stay given, and a fault stays, in each language.
pub fn items_grow()
    ensures { (setup : Setup) → Reads (rules_of setup).reading }
{
    vp_esc::laws::only_more();
    vp_esc::laws::fault_stays();
    vp_zpl::laws::only_more();
}

/// What is printed stays printed.
pub fn paper_grows()
    ensures { (setup : Setup) (bytes more : List ℕ) →
        IsPrefix (paper (rules_of setup) bytes) (paper (rules_of setup) (bytes ++ more)) }
{
    items_grow();
}

/// The first fault stays the first, and nothing is printed after it.
pub fn nothing_follows_a_fault()
    ensures fault { (setup : Setup) (bytes more : List ℕ) (f : Fault) →
        fault (rules_of setup) bytes ≡ Some f →
        fault (rules_of setup) (bytes ++ more) ≡ Some f }
    ensures paper { (setup : Setup) (bytes more : List ℕ) (f : Fault) →
        fault (rules_of setup) bytes ≡ Some f →
        paper (rules_of setup) (bytes ++ more) ≡ paper (rules_of setup) bytes }
{}

/// A byte makes a fault of F1 to F7, in each language and in its listings; what is missing where bytes end is
/// F8 or F9. So the fault alone tells whether more bytes may follow.
pub fn the_fault_tells_the_end()
    ensures byte { (setup : Setup) (bytes : List ℕ) (f : Fault) →
        fault (rules_of setup) bytes ≡ Some f → IsOfByte f }
    ensures end { (setup : Setup) (bytes : List ℕ) (f : Fault) →
        ending (rules_of setup) bytes ≡ Some f → IsOfEnd f }
{}

/// The paper of a listing is the lines of the items before the first fault, with their places or without.
pub fn a_listing_is_its_lines()
    ensures alone { (language : Language) (bytes : List ℕ) →
        paper (rules_of (Listing language)) bytes ≡
        lines (rules_of (Listing language)) (line language)
        (before_fault (rules_of (Listing language)) bytes) }
    ensures with_offsets { (language : Language) (bytes : List ℕ) →
        paper (rules_of (ListingWithOffsets language)) bytes ≡
        lines (rules_of (ListingWithOffsets language)) (placed_line (line language))
        (before_fault (rules_of (ListingWithOffsets language)) bytes) }
{}

/// The place of an item of a language: as many bytes give it, and no fewer; it is no more than there are, it
/// stays, and later items have none before it.
pub fn places()
    ensures gives { (language : Language) (bytes : List ℕ) (k : ℕ) →
        k < length ((reading language).items bytes) →
        k < length ((reading language).items (take (offset_of (reading language) bytes k) bytes)) }
    ensures shortest { (language : Language) (bytes : List ℕ) (k n : ℕ) →
        n < offset_of (reading language) bytes k → length ((reading language).items (take n bytes)) ≤ k }
    ensures within { (language : Language) (bytes : List ℕ) (k : ℕ) →
        offset_of (reading language) bytes k ≤ length bytes }
    ensures stays { (language : Language) (bytes more : List ℕ) (k : ℕ) →
        k < length ((reading language).items bytes) →
        offset_of (reading language) (bytes ++ more) k ≡ offset_of (reading language) bytes k }
    ensures rises { (language : Language) (bytes : List ℕ) (j k : ℕ) → j ≤ k →
        offset_of (reading language) bytes j ≤ offset_of (reading language) bytes k }
{}

/// The paper of a receipt that has no fault, and is printed where it ends, is images, one after the other,
/// each as wide as the paper and of a row or more. That of any bytes is images, and what has come of a
/// raster.
pub fn a_receipt_is_images()
    ensures printed { (by : Reading) (setup : ReceiptSetup) (bytes : List ℕ) → IsPrinted by setup bytes →
        paper (receipts by setup) bytes ≡ flat_map pbm (images_of by setup bytes) }
    ensures any { (by : Reading) (setup : ReceiptSetup) (bytes : List ℕ) →
        paper (receipts by setup) bytes ≡
        flat_map pbm (images_of by setup bytes) ++ begun_of by setup bytes }
    ensures across { (by : Reading) (setup : ReceiptSetup) (bytes : List ℕ) →
        AreAcross (across setup.width) (images_of by setup bytes) }
{
    what_is_printed_is_images();
}

/// So what is printed of it is one joined image, as wide as the paper, where that is within the greatest
/// height, and is then never refused: only a call that fails, or too many of them, ends a call of `join`
/// early.
pub fn a_receipt_is_joined()
    ensures joined { (by : Reading) (setup : ReceiptSetup) (bytes : List ℕ) → IsPrinted by setup bytes →
        height_together (images_of by setup bytes) ≤ greatest → (image : Image)
        × IsJoined (paper (receipts by setup) bytes) image × (image.width ≡ across setup.width)
        × (image.height ≡ height_together (images_of by setup bytes)) }
    ensures not_refused { (by : Reading) (setup : ReceiptSetup) (bytes : List ℕ)
        (held holds : Option (List ℕ)) (fault : JoinFault) → IsPrinted by setup bytes →
        height_together (images_of by setup bytes) ≤ greatest →
        IsExact (paper (receipts by setup) bytes) held holds (Err fault) → IsOfCalls fault }
{
    a_receipt_is_images();
    images_make_one();
    images_are_not_refused();
}

/// The paper of any bytes of labels is images, one after the other: the copies of each format that has ended,
/// each as wide and as high as a label may be, and of a dot or more.
pub fn a_label_is_images()
    ensures images { (by : ZplReading) (sheets : Sheets) (bytes : List ℕ) →
        paper (labels by sheets) bytes ≡ flat_map pbm (images_of_labels by sheets bytes) }
    ensures sizes { (by : ZplReading) (sheets : Sheets) (bytes : List ℕ) →
        AreOfLabels (images_of_labels by sheets bytes) }
{
    vp_label::laws::what_is_printed_is_images();
}

/// What `Printer::work` is at most, by the bytes that the printer took: on a receipt's page the rows and
/// columns of a page, and for each byte the rows of a line with those; of the label that was printed last,
/// for each byte 7,327 in each of 250 bands.
pub fn work_is_by_bytes()
    ensures receipts { (by : Reading) (setup : ReceiptSetup) (bytes : List ℕ) →
        most_work setup (history (receipts by setup) (before_fault (receipts by setup) bytes))
        ≤ PAGE_ROWS + PAPER_DOTS + (LINE_ROWS + PAGE_ROWS + PAPER_DOTS) * length bytes }
    ensures labels { (by : ZplReading) (sheets : Sheets) (bytes : List ℕ) →
        most_painting sheets (history (labels by sheets) (before_fault (labels by sheets) bytes))
        ≤ 7327 * (250 * length bytes) }
{
    items_grow();
    vp_receipt::bytes_cost_at_most();
    vp_label::laws::bytes_cost_at_most();
}
