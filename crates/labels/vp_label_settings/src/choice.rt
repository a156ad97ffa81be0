//! Fonts, symbols and blocks, as a field asks for them.
ghost use Rattle.std.specs.Prelude.{◌≡◌, ◌≤◌};
ghost use Rattle.vp_label_settings.specs.Choices.{bar_text, bar_choice, code128_choice, qr_choice, line_space, alignment_of, field_block};
ghost use Rattle.vp_label_settings.specs.Choices.{code11_checks, linear_bars, stands_above, linear_choice};
ghost use Rattle.vp_label_settings.specs.Choices.{number_said, shape_of, data_matrix_choice, data_matrix_asked, columns_asked, pdf417_asked, pdf417_choice, layers_of, percent_of, aztec_choice};

use crate::range::ranged;
use vp_bars::{
    BarCode, CodabarEnd, CodabarEnds, Code11Checks, Code93Data, Code128Data, HriPosition,
    MsiChecks, UpcEData,
};
use vp_glyph::Alignment;
use vp_matrix::{AztecAsked, Layers, Pdf417Asked, Shape};
use vp_zpl::item::{Code128Mode, Justification, LineSpace, LinearCode, Orientation};

/// What ^A says; what it leaves out is the settings' matter when the field is closed.
#[derive(Clone, Copy)]
pub struct FontChoice {
    pub orientation: Option<Orientation>,
    pub height: Option<u32>,
    pub width: Option<u32>,
}

/// A linear symbol; how it is turned and how high it is are the settings' matter where it doesn't say it.
#[derive(Clone, Copy)]
pub struct BarChoice {
    pub code: BarCode,
    pub orientation: Option<Orientation>,
    pub height: Option<u32>,
    /// Where their text stands.
    pub place: HriPosition,
}

/// Which two-dimensional symbol is asked for, and the dots of its modules.
#[derive(Clone, Copy)]
pub enum MatrixAsked {
    /// ^BX: the dots of a module's side, 1 to 64, where they are said, which sizes may be taken, and the sign
    /// that begins an escape.
    DataMatrix {
        side: Option<u16>,
        shape: Shape,
        escape: u8,
    },
    /// ^B7: a row's height in modules, 1 to 1,000, where it is said.
    Pdf417 {
        height: Option<u16>,
        asked: Pdf417Asked,
    },
    /// ^BO: the dots of a module's side, 1 to 10.
    Aztec {
        side: u16,
        asked: AztecAsked,
    },
}

/// A two-dimensional symbol; how it is turned is the settings' matter where it doesn't say it.
#[derive(Clone, Copy)]
pub struct MatrixChoice {
    pub orientation: Option<Orientation>,
    pub asked: MatrixAsked,
}

/// The symbol that a field asks for.
#[derive(Clone, Copy)]
pub enum SymbolChoice {
    /// ^B3, ^BE, ^BC, and what the whole language adds.
    Bars(BarChoice),
    /// ^BC in its modes U and D, ^BX of another quality than 200, ^B7 without columns and rows, and ^BO of a
    /// rune, which aren't drawn.
    NotDrawn,
    /// ^BQ: the model, 1 or 2, and the dots of a module, 1 to 10.
    Qr { model: u16, module_dots: u16 },
    /// ^BX, ^B7, ^BO
    Matrix(MatrixChoice),
}

/// A field block (^FB).
#[derive(Clone, Copy, PartialEq, Eq)]
pub struct FieldBlock {
    /// In dots, 0 to 32,000.
    pub width: u16,
    /// How many lines stand below each other, 1 to 9,999.
    pub lines: u16,
    /// Dots between them, at most 9,999 more or fewer.
    pub space: LineSpace,
    pub alignment: Alignment,
}

/// Below, or above where that is asked for too.
fn bar_text(text: Option<bool>, above: Option<bool>) -> HriPosition
    ensures { result ≡ bar_text text above }
{
    if !text.unwrap_or(true) {
        HriPosition::None
    } else if above.unwrap_or(false) {
        HriPosition::Above
    } else {
        HriPosition::Below
    }
}

/// The check characters of ^B1.
fn code11_checks(one_check: bool) -> Code11Checks
    ensures { result ≡ code11_checks one_check }
{
    if one_check {
        Code11Checks::One
    } else {
        Code11Checks::Two
    }
}

/// The bar code of a symbol that the whole language adds.
fn linear_bars(code: LinearCode) -> BarCode
    ensures { result ≡ linear_bars code }
{
    match code {
        LinearCode::Code11 { one_check } => BarCode::Code11 {
            checks: code11_checks(one_check.unwrap_or(false)),
        },
        LinearCode::Interleaved { check } => BarCode::Interleaved {
            check: check.unwrap_or(false),
        },
        LinearCode::Ean8 => BarCode::Ean8 { padded: true },
        LinearCode::UpcE => BarCode::UpcE {
            data: UpcEData::MakerArticle,
        },
        LinearCode::Code93 => BarCode::Code93 {
            data: Code93Data::Signs,
        },
        LinearCode::Codabar { start, stop } => BarCode::Codabar {
            ends: CodabarEnds::Around {
                start: start.unwrap_or(CodabarEnd::A),
                stop: stop.unwrap_or(CodabarEnd::A),
            },
        },
        LinearCode::Msi { checks } => BarCode::Msi {
            checks: checks.unwrap_or(MsiChecks::Mod10),
        },
        LinearCode::AddOn => BarCode::AddOn { padded: true },
        LinearCode::UpcA => BarCode::UpcA { padded: true },
    }
}

/// Whether its text stands above where nothing is said.
fn stands_above(code: LinearCode) -> bool
    ensures { result ≡ stands_above code }
{
    match code {
        LinearCode::AddOn => true,
        _ => false,
    }
}

/// A number that is said: 0 is none.
fn number_said(argument: Option<u32>) -> Option<u32>
    ensures { result ≡ number_said argument }
{
    match argument {
        None | Some(0) => None,
        Some(n) => Some(n),
    }
}

/// The sizes of ^BX that may be taken: the one of so many columns and rows, where one number alone is that of
/// a square, or else all squares, or all rectangles.
pub fn shape_of(columns: Option<u32>, rows: Option<u32>, aspect: Option<u32>) -> Shape
    ensures { result ≡ shape_of columns rows aspect }
{
    match (number_said(columns), number_said(rows)) {
        (None, None) => match aspect {
            Some(2) => Shape::Rectangle,
            _ => Shape::Square,
        },
        (Some(side), None) | (None, Some(side)) => Shape::Exactly(side as usize, side as usize),
        (Some(columns), Some(rows)) => Shape::Exactly(rows as usize, columns as usize),
    }
}

/// A number of columns or rows that is asked for, in its range.
fn columns_asked(low: u16, high: u16, argument: Option<u32>) -> Option<usize>
    requires { low ≤ high }
    ensures { result ≡ columns_asked low high argument }
{
    let n = number_said(argument)?;
    Some(usize::from(ranged(low, high, low, Some(n))))
}

/// What ^B7 asks for: the level 0 to 8, 1 to 30 columns and 3 to 90 rows.
pub fn pdf417_asked(
    level: Option<u32>,
    columns: Option<u32>,
    rows: Option<u32>,
    truncated: Option<bool>,
) -> Pdf417Asked
    ensures { result ≡ pdf417_asked level columns rows truncated }
{
    Pdf417Asked {
        columns: columns_asked(1, 30, columns),
        rows: columns_asked(3, 90, rows),
        level: Some(usize::from(ranged(0, 8, 0, level))),
        compact: truncated.unwrap_or(false),
    }
}

/// The layers of ^BO's error control: 101 to 104 ask for a compact symbol of 1 to 4, and 201 to 232 for a
/// full one of 1 to 32.
fn layers_of(control: u32) -> Layers
    ensures { result ≡ layers_of control }
{
    match control {
        101..=104 => Layers::Compact(control as usize - 100),
        201..=232 => Layers::Full(control as usize - 200),
        _ => Layers::Any,
    }
}

/// The percentage of ^BO's error control: 1 to 99 ask for it, the nearest of 5 to 95.
fn percent_of(control: u32) -> Option<usize>
    ensures { result ≡ percent_of control }
{
    match control {
        1..=99 => Some(usize::from(ranged(5, 95, 5, Some(control)))),
        _ => None,
    }
}

impl SymbolChoice {
    /// Bars, with their text where it stands by default.
    pub fn bars(
        code: BarCode,
        orientation: Option<Orientation>,
        height: Option<u32>,
        text: Option<bool>,
        above: Option<bool>,
    ) -> SymbolChoice
        ensures { result ≡ bar_choice code orientation height text above }
    {
        SymbolChoice::Bars(BarChoice {
            code,
            orientation,
            height,
            place: bar_text(text, above),
        })
    }

    /// Bars of a symbol that the whole language adds.
    pub fn linear(
        code: LinearCode,
        orientation: Option<Orientation>,
        height: Option<u32>,
        text: Option<bool>,
        above: Option<bool>,
    ) -> SymbolChoice
        ensures { result ≡ linear_choice code orientation height text above }
    {
        let above = above.unwrap_or(stands_above(code));
        SymbolChoice::bars(linear_bars(code), orientation, height, text, Some(above))
    }

    /// Bars of ^BC, unless its mode isn't drawn.
    pub fn code128(
        mode: Option<Code128Mode>,
        orientation: Option<Orientation>,
        height: Option<u32>,
        text: Option<bool>,
        above: Option<bool>,
    ) -> SymbolChoice
        ensures { result ≡ code128_choice mode orientation height text above }
    {
        let data = match mode {
            None => Code128Data::Invocations,
            Some(Code128Mode::Automatic) => Code128Data::Packed,
            Some(Code128Mode::UccCase | Code128Mode::UccEan) => return SymbolChoice::NotDrawn,
        };
        SymbolChoice::bars(BarCode::Code128 { data }, orientation, height, text, above)
    }

    /// A Data Matrix symbol, of quality 200 alone.
    pub fn data_matrix(
        orientation: Option<Orientation>,
        side: Option<u32>,
        quality: Option<u32>,
        shape: Shape,
        escape: Option<u8>,
    ) -> SymbolChoice
        ensures { result ≡ data_matrix_choice orientation side quality shape escape }
    {
        if quality != Some(200) {
            return SymbolChoice::NotDrawn;
        }
        let side = match number_said(side) {
            None => None,
            Some(dots) => Some(ranged(1, 64, 1, Some(dots))),
        };
        SymbolChoice::Matrix(MatrixChoice {
            orientation,
            asked: MatrixAsked::DataMatrix {
                side,
                shape,
                escape: escape.unwrap_or(b'_'),
            },
        })
    }

    /// A PDF417 symbol, where columns or rows are asked for.
    pub fn pdf417(
        orientation: Option<Orientation>,
        height: Option<u32>,
        asked: Pdf417Asked,
    ) -> SymbolChoice
        ensures { result ≡ pdf417_choice orientation height asked }
    {
        if asked.columns.is_none() && asked.rows.is_none() {
            return SymbolChoice::NotDrawn;
        }
        let height = match number_said(height) {
            None => None,
            Some(modules) => Some(ranged(1, 1000, 1, Some(modules))),
        };
        SymbolChoice::Matrix(MatrixChoice {
            orientation,
            asked: MatrixAsked::Pdf417 { height, asked },
        })
    }

    /// An Aztec symbol, unless a rune is asked for.
    pub fn aztec(
        orientation: Option<Orientation>,
        side: Option<u32>,
        control: Option<u32>,
    ) -> SymbolChoice
        ensures { result ≡ aztec_choice orientation side control }
    {
        let control = control.unwrap_or(0);
        if control == 300 {
            return SymbolChoice::NotDrawn;
        }
        SymbolChoice::Matrix(MatrixChoice {
            orientation,
            asked: MatrixAsked::Aztec {
                side: ranged(1, 10, 2, side),
                asked: AztecAsked {
                    percent: percent_of(control),
                    layers: layers_of(control),
                },
            },
        })
    }

    /// A QR symbol.
    pub fn qr(model: Option<u32>, module_dots: Option<u32>) -> SymbolChoice
        ensures { result ≡ qr_choice model module_dots }
    {
        SymbolChoice::Qr {
            model: ranged(1, 2, 2, model),
            module_dots: ranged(1, 10, 2, module_dots),
        }
    }
}

/// The dots between lines, in their range.
fn line_space(space: Option<LineSpace>) -> LineSpace
    ensures { result ≡ line_space space }
{
    match space {
        None => LineSpace::Added(0),
        Some(LineSpace::Added(dots)) => LineSpace::Added(dots.min(9999)),
        Some(LineSpace::Deleted(dots)) => LineSpace::Deleted(dots.min(9999)),
    }
}

/// How the lines of a block stand in its width: justified ones at the left.
fn alignment_of(justification: Option<Justification>) -> Alignment
    ensures { result ≡ alignment_of justification }
{
    match justification {
        Some(Justification::Centre) => Alignment::Centre,
        Some(Justification::Right) => Alignment::Right,
        None | Some(Justification::Left | Justification::Justified) => Alignment::Left,
    }
}

impl FieldBlock {
    /// The block of ^FB.
    pub fn new(
        width: Option<u32>,
        lines: Option<u32>,
        space: Option<LineSpace>,
        justification: Option<Justification>,
    ) -> FieldBlock
        ensures { result ≡ field_block width lines space justification }
    {
        FieldBlock {
            width: ranged(0, 32_000, 0, width),
            lines: ranged(1, 9999, 1, lines),
            space: line_space(space),
            alignment: alignment_of(justification),
        }
    }
}
