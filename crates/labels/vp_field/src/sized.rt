//! Contents with their sizes, as they are read.
ghost use Rattle.std.specs.Prelude.{◌≡◌, ◌≤◌, ◌*◌, ℕ, List, Ok};
ghost use Rattle.vp_bars.specs.Symbologies.{symbol_of};
ghost use Rattle.vp_format.specs.declared.field.Content.TheVariants as contents;
ghost use Rattle.vp_glyph.specs.Sheets.{Sheets as Given};
ghost use Rattle.vp_qr.specs.Places.{size};
ghost use Rattle.vp_field.specs.Contents.{bytes_of, IsText, IsTextBlock, IsSymbol};
ghost use Rattle.vp_field.specs.Sizes.{sized};

use crate::content::{block_of, cells};
use crate::frame::Frame;
use vp_bars::Bars;
use vp_dots::{Ink, Small};
use vp_format::{BarSymbol, Content, GraphicBox, MatrixSymbol, Picture, QrSymbol, Text, TextBlock};
use vp_glyph::{Font, Sheets};
use vp_shapes::{Diagonal, Ring};

/// What a field shows, and its width and its height in dots, as it is read.
#[derive(Clone, Copy, Debug, PartialEq, Eq)]
pub struct SizedContent {
    pub content: Content,
    pub width: u32,
    pub height: u32,
}

/// A content that is drawn as this ink.
fn with_ink<I: Ink>(content: Content, ink: &I) -> SizedContent
    ensures { result ≡ record {
      content = content;
      width = I.width ink.now;
      height = I.height ink.now;
    } }
{
    let (width, height) = ink.size();
    SizedContent {
        content,
        width,
        height,
    }
}

/// The dots in a row of a QR symbol.
fn qr_side(symbol: QrSymbol) -> u32
    requires { symbol.module ≤ 16 }
    ensures { result ≡ symbol.module * size symbol.version }
{
    let modules = 17 + 4 * u32::from(symbol.version);
    u32::from(symbol.module) * modules
}

impl SizedContent {
    /// A text in one line.
    pub fn text<A: Small>(sheets: &Sheets<A>, stored: &[u8], text: Text) -> Self
        requires { IsText stored.now text }
        ensures { result ≡ sized sheets.now stored.now (contents.Text text) }
    {
        with_ink(Content::Text(text), &cells(sheets, stored, text))
    }

    /// A text in lines.
    pub fn block<A: Small>(sheets: &Sheets<A>, stored: &[u8], block: TextBlock) -> Self
        requires { IsTextBlock stored.now block }
        ensures { result ≡ sized sheets.now stored.now (contents.Block block) }
    {
        with_ink(Content::Block(block), &block_of(sheets, stored, block))
    }

    /// A box.
    pub fn graphic_box(shape: GraphicBox) -> Self
        ensures { (sheets : Given) (stored : List ℕ) → result ≡ sized sheets stored (contents.Box shape) }
    {
        with_ink(Content::Box(shape), &Frame::of(shape))
    }

    /// A circle or an ellipse.
    pub fn ring(ring: Ring) -> Self
        ensures { (sheets : Given) (stored : List ℕ) → result ≡ sized sheets stored (contents.Ring ring) }
    {
        with_ink(Content::Ring(ring), &ring)
    }

    /// A diagonal.
    pub fn diagonal(diagonal: Diagonal) -> Self
        ensures { (sheets : Given) (stored : List ℕ) →
            result ≡ sized sheets stored (contents.Diagonal diagonal) }
    {
        with_ink(Content::Diagonal(diagonal), &diagonal)
    }

    /// A two-dimensional symbol.
    pub fn matrix(symbol: MatrixSymbol) -> Self
        ensures { (sheets : Given) (stored : List ℕ) →
            result ≡ sized sheets stored (contents.Matrix symbol) }
    {
        SizedContent {
            content: Content::Matrix(symbol),
            width: u32::from(symbol.wide) * u32::from(symbol.columns),
            height: u32::from(symbol.high) * u32::from(symbol.rows),
        }
    }

    /// A picture.
    pub fn picture(picture: Picture) -> Self
        requires { picture.row_bytes ≤ 1024 }
        ensures { (sheets : Given) (stored : List ℕ) →
            result ≡ sized sheets stored (contents.Picture picture) }
    {
        SizedContent {
            content: Content::Picture(picture),
            width: 8 * u32::from(picture.row_bytes),
            height: picture.rows,
        }
    }

    /// The bars of a symbol, and their text.
    pub fn bars<A: Small>(sheets: &Sheets<A>, symbol: &Bars, bars: BarSymbol) -> Self
        ensures { (stored : List ℕ) → symbol_of bars.code (bytes_of stored bars.bytes) ≡ Ok symbol.now →
            result ≡ sized sheets.now stored (contents.Bars bars) }
    {
        let ink = symbol.boxed(
            bars.narrow,
            bars.wide,
            bars.height,
            sheets,
            Font::A,
            bars.place,
        );
        with_ink(Content::Bars(bars), &ink)
    }

    /// A QR symbol.
    pub fn qr(symbol: QrSymbol) -> Self
        requires { symbol.module ≤ 16 }
        ensures { (sheets : Given) (stored : List ℕ) → IsSymbol stored symbol →
            result ≡ sized sheets stored (contents.Qr symbol) }
    {
        let side = qr_side(symbol);
        SizedContent {
            content: Content::Qr(symbol),
            width: side,
            height: side,
        }
    }
}
