//! A closed field: where it stands, how it is turned, how it paints and what it shows.

use crate::rows::Coding;
use vp_bars::{BarCode, HriPosition};
use vp_dots::Op;
use vp_glyph::Alignment;
use vp_qr::{Level, Mode};
use vp_shapes::{Diagonal, Ring};
use vp_zpl::item::Orientation;

/// Bytes among the stored ones.
#[derive(Clone, Copy, Debug, PartialEq, Eq)]
pub struct Span {
    pub start: u32,
    pub len: u32,
}

/// A text in one line, of cells of 1 to 1,500 by 1 to 1,500 dots.
#[derive(Clone, Copy, Debug, PartialEq, Eq)]
pub struct Text {
    pub bytes: Span,
    pub width: u16,
    pub height: u16,
}

/// A text in lines (^FB): the block's width, 0 to 32,000 dots, its lines, 1 to 9,999, the dots between them,
/// -9,999 to 9,999, and where they stand in its width.
#[derive(Clone, Copy, Debug, PartialEq, Eq)]
pub struct TextBlock {
    pub text: Text,
    pub width: u16,
    pub lines: u16,
    pub gap: i16,
    pub alignment: Alignment,
}

/// A box (^GB), its sides and their thickness in dots.
#[derive(Clone, Copy, Debug, PartialEq, Eq)]
pub struct GraphicBox {
    pub width: u16,
    pub height: u16,
    pub thickness: u16,
}

/// A picture (^GF): its codes, and its rows, each of 1 to 1,024 bytes.
#[derive(Clone, Copy, Debug, PartialEq, Eq)]
pub struct Picture {
    pub codes: Span,
    pub coding: Coding,
    pub row_bytes: u16,
    pub rows: u32,
}

/// Bars: their elements' widths and their height in dots, and where their text stands.
#[derive(Clone, Copy, Debug, PartialEq, Eq)]
pub struct BarSymbol {
    pub bytes: Span,
    pub code: BarCode,
    pub narrow: u16,
    pub wide: u16,
    pub height: u16,
    pub place: HriPosition,
}

/// A QR symbol (^BQ): its data, a module's side in dots, 1 to 10, and the
/// version and mask that were chosen for it.
#[derive(Clone, Copy, Debug, PartialEq, Eq)]
pub struct QrSymbol {
    pub bytes: Span,
    pub level: Level,
    pub mode: Mode,
    pub module: u8,
    pub version: u8,
    pub mask: u8,
}

/// A two-dimensional symbol (^BX, ^B7, ^BO): its modules, of which rows of bits are stored, how many columns
/// and rows it has of them, and the width and the height of a module in dots, 1 to 64 and 1 to 1,000.
#[derive(Clone, Copy, Debug, PartialEq, Eq)]
pub struct MatrixSymbol {
    pub modules: Span,
    pub columns: u16,
    pub rows: u16,
    pub wide: u8,
    pub high: u16,
}

/// What a field shows.
#[derive(Clone, Copy, Debug, PartialEq, Eq)]
pub enum Content {
    Text(Text),
    Block(TextBlock),
    Box(GraphicBox),
    Picture(Picture),
    Bars(BarSymbol),
    Qr(QrSymbol),
    Matrix(MatrixSymbol),
    /// A circle (^GC) or an ellipse (^GE).
    Ring(Ring),
    /// A line from corner to corner (^GD).
    Diagonal(Diagonal),
}

/// A closed field, which is lent and never copied. The place is the upper left corner of the turned box, in
/// dots from the label's upper left corner, with the home added; it may lie off the label. The rows are those
/// of the turned box.
#[derive(Debug, Drop, PartialEq, Eq)]
pub struct Field {
    pub left: i64,
    pub top: i64,
    pub rows: u32,
    pub orientation: Orientation,
    pub op: Op,
    pub content: Content,
}
