//! Texts, and blocks of them.
ghost use Rattle.std.specs.Prelude.{◌≡◌};
ghost use Rattle.vp_field.specs.Contents.{IsStored};
ghost use Rattle.vp_field.specs.Sizes.{sized};
ghost use Rattle.vp_label_settings.specs.Laws.{IsSize, IsSpace, IsFieldBlock, IsFieldBlockIf};
ghost use Rattle.vp_closing.specs.Texts.{text_orientation, text_size, text_drawn, gap_of, text_block, text_content};

use vp_dots::Small;
use vp_field::SizedContent;
use vp_format::{Span, Text, TextBlock};
use vp_glyph::Sheets;
use vp_label_settings::{CharacterSize, FieldBlock, FontChoice, Settings};
use vp_zpl::item::{LineSpace, Orientation};

/// How a text is turned: as ^A says, or else ^FW.
pub fn text_orientation(settings: &Settings, font: Option<FontChoice>) -> Orientation
    ensures { result ≡ text_orientation settings.now font }
{
    match font {
        None => settings.field_orientation,
        Some(font) => font.orientation.unwrap_or(settings.field_orientation),
    }
}

/// The size of its characters: as ^A says, or else ^CF.
pub fn text_size(settings: &Settings, font: Option<FontChoice>) -> CharacterSize
    requires { IsSize settings.now.default_font }
    ensures value { result ≡ text_size settings.now font }
    ensures fits { IsSize result }
{
    match font {
        None => settings.default_font,
        Some(font) => CharacterSize::given(font.height, font.width, settings.default_font),
    }
}

/// A text in one line.
pub fn text_of(size: CharacterSize, bytes: Span) -> Text
    ensures { result ≡ text_drawn size bytes }
{
    Text {
        bytes,
        width: size.width,
        height: size.height,
    }
}

/// The dots between the lines of a block, fewer than none where some are deleted.
fn gap_of(space: LineSpace) -> i16
    requires { IsSpace space }
    ensures { result ≡ gap_of space }
{
    match space {
        LineSpace::Added(dots) => dots as i16,
        LineSpace::Deleted(dots) => -(dots as i16),
    }
}

fn block_of(text: Text, block: FieldBlock) -> TextBlock
    requires { IsFieldBlock block }
    ensures { result ≡ text_block text block }
{
    TextBlock {
        text,
        width: block.width,
        lines: block.lines,
        gap: gap_of(block.space),
        alignment: block.alignment,
    }
}

/// A text, in a block where ^FB asks for one.
pub fn text_content<A: Small>(
    sheets: &Sheets<A>,
    stored: &[u8],
    text: Text,
    block: Option<FieldBlock>,
) -> SizedContent
    requires block { IsFieldBlockIf block }
    requires stored { IsStored stored.now (text_content text block) }
    ensures { result ≡ sized sheets.now stored.now (text_content text block) }
{
    match block {
        None => SizedContent::text(sheets, stored, text),
        Some(block) => SizedContent::block(sheets, stored, block_of(text, block)),
    }
}
