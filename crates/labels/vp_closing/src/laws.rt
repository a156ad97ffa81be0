//! What is refused.
ghost use Rattle.std.specs.Prelude.{◌≡◌, ◌≢◌, ◌<◌, ℕ, Bool, List, length, Option, Some, Ok, Err, true, false};
ghost use Rattle.vp_dots.specs.declared.fault.Fault.TheVariants.{Symbol, SymbolTooLong, Graphic};
ghost use Rattle.vp_dots.specs.declared.fault.Why.TheVariants.{Unsupported, Empty};
ghost use Rattle.vp_zpl.specs.declared.item.Code128Mode.TheVariants.{UccCase, UccEan};
ghost use Rattle.vp_format.specs.declared.field.Content.TheVariants as kept;
ghost use Rattle.vp_format.specs.Pictures.{is_refused};
ghost use Rattle.vp_label_settings.specs.declared.graphic.PictureHead.{PictureHead};
ghost use Rattle.vp_format.specs.declared.field.Span.{Span};
ghost use Rattle.vp_zpl.specs.declared.item.Orientation.{Orientation};
ghost use Rattle.vp_label_settings.specs.declared.parts.FieldParts.{FieldParts};
ghost use Rattle.vp_label_settings.specs.declared.settings.Settings.{Settings};
ghost use Rattle.vp_label_settings.specs.declared.choice.BarChoice.{BarChoice};
ghost use Rattle.vp_label_settings.specs.declared.choice.SymbolChoice.TheVariants.{Bars, Qr};
ghost use Rattle.vp_label_settings.specs.Choices.{code128_choice};
ghost use Rattle.vp_closing.specs.Graphics.{picture_with};
ghost use Rattle.vp_field.specs.Contents.{bytes_of, picture_of};
ghost use Rattle.vp_closing.specs.Contents.{data_content, picture_content};

use vp_bars::data_are_counted;

/// A picture is refused where a symbol that starts in one of its rows is, and kept where none is, whatever
/// stands behind its last row.
pub fn pictures_are_read()
    ensures refused { (stored : List ℕ) (head : PictureHead) (bytes : Span) (y : ℕ) → y < head.rows
        → is_refused (picture_of stored (picture_with head bytes)) y ≡ true
        → picture_content stored head bytes ≡ Err Graphic }
    ensures kept { (stored : List ℕ) (head : PictureHead) (bytes : Span)
        → ((y : ℕ) → y < head.rows → is_refused (picture_of stored (picture_with head bytes)) y ≡ false)
        → picture_content stored head bytes ≡ Ok (kept.Picture (picture_with head bytes)) }
{}

/// Bars of ^BC's modes U and D and QR symbols of model 1 aren't drawn, whatever their data.
pub fn not_drawn()
    ensures ucc_case { (stored : List ℕ) (s : Settings) (p : FieldParts) (o : Option Orientation)
        (height : Option ℕ) (text above : Option Bool) (bytes : Span) →
        data_content stored s p (Some (code128_choice (Some UccCase) o height text above)) bytes
        ≡ Err (Symbol Unsupported) }
    ensures ucc_ean { (stored : List ℕ) (s : Settings) (p : FieldParts) (o : Option Orientation)
        (height : Option ℕ) (text above : Option Bool) (bytes : Span) →
        data_content stored s p (Some (code128_choice (Some UccEan) o height text above)) bytes
        ≡ Err (Symbol Unsupported) }
    ensures model_1 { (stored : List ℕ) (s : Settings) (p : FieldParts) (dots : ℕ) (bytes : Span)
        → data_content stored s p (Some (Qr 1 dots)) bytes ≡ Err (Symbol Unsupported) }
{}

/// Of bars, no data at all are refused first, then more than 255 bytes.
pub fn bars_are_counted()
    ensures none { (stored : List ℕ) (s : Settings) (p : FieldParts) (b : BarChoice) (bytes : Span)
        → length (bytes_of stored bytes) ≡ 0
        → data_content stored s p (Some (Bars b)) bytes ≡ Err (Symbol Empty) }
    ensures many { (stored : List ℕ) (s : Settings) (p : FieldParts) (b : BarChoice) (bytes : Span)
        → 255 < length (bytes_of stored bytes)
        → data_content stored s p (Some (Bars b)) bytes ≡ Err SymbolTooLong }
{
    data_are_counted();
}

/// Of QR symbols that are drawn, no data at all are refused first.
pub fn no_front()
    ensures { (stored : List ℕ) (s : Settings) (p : FieldParts) (model dots : ℕ) (bytes : Span)
        → model ≢ 1 → length (bytes_of stored bytes) ≡ 0
        → data_content stored s p (Some (Qr model dots)) bytes ≡ Err (Symbol Empty) }
{}
