//! What fields show: its bytes, its ink, and whether it is turned.
ghost use Rattle.std.specs.Prelude.{◌≡◌};
ghost use Rattle.vp_glyph.specs.Blocks.{pitch};
ghost use Rattle.vp_field.specs.Contents.{bytes_of, orientation_of, LiesIn, IsText, IsTextBlock};

use crate::text::Cells;
use vp_dots::Small;
use vp_format::{Content, Span, Text, TextBlock};
use vp_glyph::{Block, Sheets, Stretch};
use vp_zpl::item::Orientation;

/// The bytes that a span names among the stored ones.
pub fn bytes_of(stored: &[u8], span: Span) -> &[u8]
    requires { LiesIn stored.now span }
    ensures { result.now ≡ bytes_of stored.now span }
{
    let start = span.start as usize;
    &stored[start..start + span.len as usize]
}

/// A text as ink.
pub fn cells<'a, A: Small>(sheets: &'a Sheets<A>, stored: &'a [u8], text: Text) -> Cells<'a, A>
    requires { IsText stored.now text }
    ensures sheet { result.sheet.now ≡ sheets.now.a }
    ensures text { result.text.now ≡ bytes_of stored.now text.bytes }
    ensures w { result.stretch.width ≡ text.width }
    ensures h { result.h ≡ text.height }
{
    Cells {
        sheet: &sheets.a,
        text: bytes_of(stored, text.bytes),
        stretch: Stretch::new(u32::from(text.width)),
        h: u32::from(text.height),
    }
}

/// A block of lines as ink.
pub fn block_of<'a, A: Small>(
    sheets: &'a Sheets<A>,
    stored: &'a [u8],
    block: TextBlock,
) -> Block<'a, A>
    requires { IsTextBlock stored.now block }
    ensures sheet { result.sheet.now ≡ sheets.now.a }
    ensures text { result.text.now ≡ bytes_of stored.now block.text.bytes }
    ensures w { result.w ≡ block.text.width }
    ensures h { result.h ≡ block.text.height }
    ensures wide { result.wide ≡ block.width }
    ensures rows { result.rows ≡ block.lines }
    ensures pitch { result.pitch ≡ pitch block.text.height block.gap }
    ensures alignment { result.alignment ≡ block.alignment }
    ensures passed { result.passed ≡ 0 }
    ensures walked { result.walked ≡ 0 }
{
    sheets.block(
        bytes_of(stored, block.text.bytes),
        u32::from(block.text.width),
        u32::from(block.text.height),
        u32::from(block.width),
        u32::from(block.lines),
        i32::from(block.gap),
        block.alignment,
    )
}

/// How a content is turned; boxes, other shapes, pictures and QR symbols are not.
pub fn orientation_of(orientation: Orientation, content: &Content) -> Orientation
    ensures { result ≡ orientation_of orientation content.now }
{
    match content {
        Content::Text(_) | Content::Block(_) | Content::Bars(_) | Content::Matrix(_) => orientation,
        Content::Box(_)
        | Content::Picture(_)
        | Content::Qr(_)
        | Content::Ring(_)
        | Content::Diagonal(_) => Orientation::Normal,
    }
}
