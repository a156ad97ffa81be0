//! What a field shows, as the format keeps it, and its size.
ghost use Rattle.std.specs.Prelude.{◌≡◌, ◌+◌, ◌≤◌, length, Some, IfOk, OnOk};
ghost use Rattle.vp_label_settings.specs.Laws.{AreInRange, IsFieldBlockIf, IsContent, IsSymbolIf};
ghost use Rattle.vp_closing.specs.Contents.{bytes_from, data_content, content_of, made_of, made_with, sized_if, CanBeMade, IsAccepted, IsShown};

use crate::graphic::picture_content;
use crate::matrix::matrix_content;
use crate::symbol::{bars_content, qr_content};
use crate::text::{text_content, text_of, text_size};
use vp_dots::{Fault, Small, Why};
use vp_field::SizedContent;
use vp_format::{STORED, Span};
use vp_glyph::Sheets;
use vp_label_settings::{FieldParts, OpenContent, Settings, SymbolChoice};

/// The stored bytes from a place on.
pub(crate) fn bytes_from(stored: &[u8], start: u32) -> Span
    requires within { start ≤ length stored.now }
    requires few { length stored.now ≤ STORED }
    ensures value { result ≡ bytes_from stored.now start }
    ensures among { result.start + result.len ≤ length stored.now }
{
    Span {
        start,
        len: stored.len() as u32 - start,
    }
}

/// What data are drawn as, or why they aren't.
fn data_content<A: Small>(
    sheets: &Sheets<A>,
    stored: &[u8],
    settings: &Settings,
    parts: &FieldParts,
    bytes: Span,
) -> Result<SizedContent, Fault>
    requires settings { AreInRange settings.now }
    requires symbol { IsSymbolIf parts.now.symbol }
    requires block { IsFieldBlockIf parts.now.block }
    requires among { bytes.start + bytes.len ≤ length stored.now }
    requires few { length stored.now ≤ STORED }
    ensures value { result ≡ sized_if sheets.now stored.now
        (data_content stored.now settings.now parts.now parts.now.symbol bytes) }
    ensures shown { IfOk result (λ shown. IsShown stored.now
        (made_with stored.now bytes parts.now.symbol) shown.content) }
    ensures made { OnOk result (IsAccepted stored.now bytes parts.now.symbol) }
{
    match parts.symbol {
        None => {
            let text = text_of(text_size(settings, parts.font), bytes);
            Ok(text_content(sheets, stored, text, parts.block))
        }
        Some(SymbolChoice::Bars(choice)) => {
            bars_content(sheets, stored, settings.bar_defaults, choice, bytes)
        }
        Some(SymbolChoice::NotDrawn) => Err(Fault::Symbol(Why::Unsupported)),
        Some(SymbolChoice::Qr { model, module_dots }) => {
            qr_content(stored, model, module_dots as u8, bytes)
        }
        Some(SymbolChoice::Matrix(choice)) => {
            matrix_content(stored, settings.bar_defaults, choice.asked, bytes)
        }
    }
}

/// What a field shows, or why it is refused.
pub fn content_of<A: Small>(
    sheets: &Sheets<A>,
    stored: &[u8],
    settings: &Settings,
    parts: &FieldParts,
    content: OpenContent,
) -> Result<SizedContent, Fault>
    requires settings { AreInRange settings.now }
    requires symbol { IsSymbolIf parts.now.symbol }
    requires block { IsFieldBlockIf parts.now.block }
    requires content { IsContent (length stored.now) content }
    requires few { length stored.now ≤ STORED }
    ensures value { result ≡ sized_if sheets.now stored.now
        (content_of stored.now settings.now parts.now content) }
    ensures shown { IfOk result (λ shown. IsShown stored.now
        (made_of stored.now parts.now.symbol content) shown.content) }
    ensures made { OnOk result (CanBeMade stored.now parts.now.symbol (Some content)) }
{
    match content {
        OpenContent::Data { start } => {
            let bytes = bytes_from(stored, start);
            data_content(sheets, stored, settings, parts, bytes)
        }
        OpenContent::Frame { frame, colour: _ } => Ok(SizedContent::graphic_box(frame)),
        OpenContent::Ring { ring, colour: _ } => Ok(SizedContent::ring(ring)),
        OpenContent::Diagonal {
            diagonal,
            colour: _,
        } => Ok(SizedContent::diagonal(diagonal)),
        OpenContent::Picture { head, start } => {
            picture_content(stored, head, bytes_from(stored, start))
        }
    }
}
