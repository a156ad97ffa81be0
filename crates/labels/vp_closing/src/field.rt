//! A field that is closed, as the format keeps it.
ghost use Rattle.std.specs.Prelude.{◌≡◌, ◌≤◌, ◌++◌, length, Some, IfOk, OnOk, IfSome};
ghost use Rattle.vp_label_settings.specs.Laws.{AreInRange, AreParts, IsFieldBlockIf, IsContent, IsSymbolIf};
ghost use Rattle.vp_field.specs.Fields.{IsKept};
ghost use Rattle.vp_format.specs.Formats.{held};
ghost use Rattle.vp_closing.specs.Contents.{made_of, stored_with, CanBeMade};
ghost use Rattle.vp_closing.specs.Closing.{asked_orientation, closed, colour_of, field_of, operation, paint_of};

use crate::content::content_of;
use crate::position::{left_of, top_of};
use crate::text::text_orientation;
use vp_dots::{Fault, Op, Small};
use vp_field::{orientation_of, turned_rows};
use vp_format::{Field, Format, STORED};
use vp_glyph::Sheets;
use vp_label_settings::{FieldParts, OpenContent, Settings, SymbolChoice};
use vp_zpl::item::{Colour, Orientation};

/// How a field is turned, if its content is one that is.
fn asked_orientation(settings: &Settings, parts: &FieldParts) -> Orientation
    ensures { result ≡ asked_orientation settings.now parts.now parts.now.symbol }
{
    match parts.symbol {
        None => text_orientation(settings, parts.font),
        Some(SymbolChoice::Bars(bars)) => bars.orientation.unwrap_or(settings.field_orientation),
        Some(SymbolChoice::Matrix(choice)) => {
            choice.orientation.unwrap_or(settings.field_orientation)
        }
        Some(_) => settings.field_orientation,
    }
}

/// What a colour paints.
fn paint_of(colour: Colour) -> Op
    ensures { result ≡ paint_of colour }
{
    match colour {
        Colour::Black => Op::Black,
        Colour::White => Op::White,
    }
}

/// What a content paints, unless it reverses.
fn colour_of(content: OpenContent) -> Op
    ensures { result ≡ colour_of content }
{
    match content {
        OpenContent::Frame { frame: _, colour }
        | OpenContent::Ring { ring: _, colour }
        | OpenContent::Diagonal {
            diagonal: _,
            colour,
        } => paint_of(colour),
        OpenContent::Data { .. } | OpenContent::Picture { .. } => Op::Black,
    }
}

/// What a field does where it has ink.
fn operation(settings: &Settings, parts: &FieldParts, colour: Op) -> Op
    ensures { result ≡ operation settings.now parts.now colour }
{
    if parts.is_reversed || settings.label_reverse {
        Op::Flip
    } else {
        colour
    }
}

/// The field of a content.
fn field_of<A: Small>(
    sheets: &Sheets<A>,
    stored: &[u8],
    settings: &Settings,
    parts: &FieldParts,
    asked: OpenContent,
) -> Result<Field, Fault>
    requires settings { AreInRange settings.now }
    requires symbol { IsSymbolIf parts.now.symbol }
    requires block { IsFieldBlockIf parts.now.block }
    requires content { IsContent (length stored.now) asked }
    requires few { length stored.now ≤ STORED }
    ensures value { result ≡ field_of sheets.now stored.now settings.now parts.now asked }
    ensures kept { IfOk result (IsKept (stored.now ++ made_of stored.now parts.now.symbol asked)) }
    ensures made { OnOk result (CanBeMade stored.now parts.now.symbol (Some asked)) }
{
    let shown = content_of(sheets, stored, settings, parts, asked)?;
    let orientation = orientation_of(asked_orientation(settings, parts), &shown.content);
    let (width, height) = (shown.width, shown.height);
    Ok(Field {
        left: left_of(settings.home, parts.origin, orientation, width, height),
        top: top_of(settings.home, parts.origin, orientation, width, height),
        rows: turned_rows(orientation, width, height),
        orientation,
        op: operation(settings, parts, colour_of(asked)),
        content: shown.content,
    })
}

/// The field that its parts close in a format, as the format keeps it; without a content there is none. It is
/// refused as `Symbol` or `SymbolTooLong` where the data have no such symbol, or it isn't drawn, as `StoreFull`
/// where the modules of one have no room, and as `Graphic` where a code that starts in one of a picture's rows
/// is refused. What it makes is stored by `keep_made`.
pub fn closed<A: Small>(
    sheets: &Sheets<A>,
    format: &Format<A>,
    settings: &Settings,
    parts: &FieldParts,
) -> Option<Result<Field, Fault>>
    requires settings { AreInRange settings.now }
    requires parts { AreParts (length format.now.stored) parts.now }
    ensures value { result ≡ closed sheets.now (held format.now.fields format.now.stored)
        settings.now parts.now }
    ensures kept { IfSome result (λ field. IfOk field (IsKept (stored_with format.now.stored parts.now))) }
    ensures made { IfSome result (λ field. OnOk field (CanBeMade format.now.stored
        parts.now.symbol parts.now.content)) }
{
    let content = parts.content?;
    Some(field_of(sheets, format.stored(), settings, parts, content))
}
