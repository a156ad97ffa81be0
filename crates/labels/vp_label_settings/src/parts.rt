//! The parts of the open field.
ghost use Rattle.std.specs.Prelude.{◌≡◌, [], IfOk, MatchResult, None, Some, true};
ghost use Rattle.vp_label_settings.specs.Settings.{coordinate};
ghost use Rattle.vp_label_settings.specs.Parts.{origin_by, font_by, symbol_by, added_by, is_reversed_by, block_by, content_by, drawn_by, parts_of, parts_by};
ghost use Rattle.vp_label_settings.specs.Refusals.{head_refusal};

use crate::choice::{FieldBlock, FontChoice, SymbolChoice, pdf417_asked, shape_of};
use crate::graphic::{PictureHead, box_of, circle_of, diagonal_of, ellipse_of};
use crate::range::ranged;
use vp_bars::BarCode;
use vp_dots::Fault;
use vp_format::GraphicBox;
use vp_shapes::{Diagonal, Ring};
use vp_zpl::item::{Colour, Command};

/// Where a field stands, in dots, 0 to 32,000 each way from the home.
#[derive(Clone, Copy)]
pub enum Origin {
    /// ^FO: its upper left corner.
    UpperLeft { x: u16, y: u16 },
    /// ^FT: its lower left corner, as it is read.
    LowerLeft { x: u16, y: u16 },
}

/// The content of an open field, the last of ^FD, ^GB, ^GC, ^GE, ^GD and ^GF.
#[derive(Clone, Copy)]
pub enum OpenContent {
    /// ^FD: its data begin behind `start` stored bytes.
    Data { start: u32 },
    /// ^GB: the box, and its colour.
    Frame { frame: GraphicBox, colour: Colour },
    /// ^GC, ^GE: the circle or ellipse, and its colour.
    Ring { ring: Ring, colour: Colour },
    /// ^GD: the diagonal, and its colour.
    Diagonal { diagonal: Diagonal, colour: Colour },
    /// ^GF: its codes begin behind `start` stored bytes.
    Picture { head: PictureHead, start: u32 },
}

/// The parts of the open field: what was said of it last.
#[derive(Clone, Copy)]
pub struct FieldParts {
    pub origin: Origin,
    pub font: Option<FontChoice>,
    pub symbol: Option<SymbolChoice>,
    pub is_reversed: bool,
    pub block: Option<FieldBlock>,
    pub content: Option<OpenContent>,
}

/// A coordinate.
fn coordinate(argument: Option<u32>) -> u16
    ensures { result ≡ coordinate argument }
{
    ranged(0, 32_000, 0, argument)
}

impl FieldParts {
    /// A field of which nothing is said.
    pub fn new() -> FieldParts
        ensures { result ≡ parts_of [] }
    {
        FieldParts {
            origin: Origin::UpperLeft { x: 0, y: 0 },
            font: None,
            symbol: None,
            is_reversed: false,
            block: None,
            content: None,
        }
    }

    /// What a command of an open format leaves of them, where the next byte of data is stored at `start`; or
    /// why it is refused.
    pub fn after(self, command: Command, start: u32) -> Result<FieldParts, Fault>
        ensures refusal { MatchResult result (λ _. head_refusal true command ≡ None)
            (λ f. head_refusal true command ≡ Some f) }
        ensures value { IfOk result (λ parts. parts ≡ parts_by start command self) }
    {
        Ok(FieldParts {
            origin: self.origin.after(command),
            font: font_after(self.font, command),
            symbol: symbol_after(self.symbol, command),
            is_reversed: is_reversed_after(self.is_reversed, command),
            block: block_after(self.block, command),
            content: content_after(self.content, command, start)?,
        })
    }
}

impl Origin {
    /// ^FO, ^FT
    fn after(self, command: Command) -> Origin
        ensures { result ≡ origin_by command self }
    {
        match command {
            Command::FieldOrigin { x, y } => Origin::UpperLeft {
                x: coordinate(x),
                y: coordinate(y),
            },
            Command::FieldTypeset { x, y } => Origin::LowerLeft {
                x: coordinate(x),
                y: coordinate(y),
            },
            Command::FieldSeparator | Command::FormatEnd => Origin::UpperLeft { x: 0, y: 0 },
            _ => self,
        }
    }
}

/// ^A
fn font_after(font: Option<FontChoice>, command: Command) -> Option<FontChoice>
    ensures { result ≡ font_by command font }
{
    match command {
        Command::Font {
            orientation,
            height,
            width,
        } => Some(FontChoice {
            orientation,
            height,
            width,
        }),
        Command::FieldSeparator | Command::FormatEnd => None,
        _ => font,
    }
}

/// ^B3, ^BE, ^BC, ^BQ, and what the whole language adds.
fn symbol_after(symbol: Option<SymbolChoice>, command: Command) -> Option<SymbolChoice>
    ensures { result ≡ symbol_by command symbol }
{
    match command {
        Command::Code39 {
            orientation,
            check,
            height,
            text,
            above,
        } => {
            let code = BarCode::Code39 {
                check: check.unwrap_or(false),
            };
            Some(SymbolChoice::bars(code, orientation, height, text, above))
        }
        Command::Ean13 {
            orientation,
            height,
            text,
            above,
        } => Some(SymbolChoice::bars(
            BarCode::Ean13 { padded: true },
            orientation,
            height,
            text,
            above,
        )),
        Command::Code128 {
            orientation,
            height,
            text,
            above,
            mode,
        } => Some(SymbolChoice::code128(mode, orientation, height, text, above)),
        Command::QrCode { model, module } => Some(SymbolChoice::qr(model, module)),
        Command::FieldSeparator | Command::FormatEnd => None,
        _ => added_after(symbol, command),
    }
}

/// What the whole language adds.
fn added_after(symbol: Option<SymbolChoice>, command: Command) -> Option<SymbolChoice>
    ensures { result ≡ added_by command symbol }
{
    match command {
        Command::Linear {
            code,
            orientation,
            height,
            text,
            above,
        } => Some(SymbolChoice::linear(code, orientation, height, text, above)),
        Command::DataMatrix {
            orientation,
            module,
            quality,
            columns,
            rows,
            escape,
            aspect,
        } => {
            let shape = shape_of(columns, rows, aspect);
            Some(SymbolChoice::data_matrix(orientation, module, quality, shape, escape))
        }
        Command::Pdf417 {
            orientation,
            height,
            level,
            columns,
            rows,
            truncated,
        } => {
            let asked = pdf417_asked(level, columns, rows, truncated);
            Some(SymbolChoice::pdf417(orientation, height, asked))
        }
        Command::Aztec {
            orientation,
            module,
            control,
        } => Some(SymbolChoice::aztec(orientation, module, control)),
        _ => symbol,
    }
}

/// ^FR
fn is_reversed_after(is_reversed: bool, command: Command) -> bool
    ensures { result ≡ is_reversed_by command is_reversed }
{
    match command {
        Command::ReversePrint => true,
        Command::FieldSeparator | Command::FormatEnd => false,
        _ => is_reversed,
    }
}

/// ^FB
fn block_after(block: Option<FieldBlock>, command: Command) -> Option<FieldBlock>
    ensures { result ≡ block_by command block }
{
    match command {
        Command::FieldBlock {
            width,
            lines,
            space,
            justification,
        } => Some(FieldBlock::new(width, lines, space, justification)),
        Command::FieldSeparator | Command::FormatEnd => None,
        _ => block,
    }
}

/// ^GB, ^GC, ^GE, ^GD.
fn drawn_after(content: Option<OpenContent>, command: Command) -> Option<OpenContent>
    ensures { result ≡ drawn_by command content }
{
    match command {
        Command::GraphicBox {
            width,
            height,
            thickness,
            colour,
        } => Some(OpenContent::Frame {
            frame: box_of(width, height, thickness),
            colour: colour.unwrap_or(Colour::Black),
        }),
        Command::GraphicCircle {
            diameter,
            thickness,
            colour,
        } => Some(OpenContent::Ring {
            ring: circle_of(diameter, thickness),
            colour: colour.unwrap_or(Colour::Black),
        }),
        Command::GraphicEllipse {
            width,
            height,
            thickness,
            colour,
        } => Some(OpenContent::Ring {
            ring: ellipse_of(width, height, thickness),
            colour: colour.unwrap_or(Colour::Black),
        }),
        Command::GraphicDiagonal {
            width,
            height,
            thickness,
            colour,
            leaning,
        } => Some(OpenContent::Diagonal {
            diagonal: diagonal_of(width, height, thickness, leaning),
            colour: colour.unwrap_or(Colour::Black),
        }),
        _ => content,
    }
}

/// ^FD, ^GF, and what draws a shape; a head of ^GF that can't be one is refused.
fn content_after(
    content: Option<OpenContent>,
    command: Command,
    start: u32,
) -> Result<Option<OpenContent>, Fault>
    ensures refusal { MatchResult result (λ _. head_refusal true command ≡ None)
        (λ f. head_refusal true command ≡ Some f) }
    ensures value { IfOk result (λ now. now ≡ content_by start command content) }
{
    match command {
        Command::FieldData => Ok(Some(OpenContent::Data { start })),
        Command::Graphic {
            format,
            binary_bytes,
            picture_bytes,
            row_bytes,
        } => match PictureHead::new(format, binary_bytes, picture_bytes, row_bytes) {
            Some(head) => Ok(Some(OpenContent::Picture { head, start })),
            None => Err(Fault::Graphic),
        },
        Command::FieldSeparator | Command::FormatEnd => Ok(None),
        _ => Ok(drawn_after(content, command)),
    }
}
