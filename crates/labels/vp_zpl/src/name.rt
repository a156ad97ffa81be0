//! Which command a name is, and how it goes on.
ghost use Rattle.std.specs.Prelude.{◌≡◌, Some};
ghost use Rattle.vp_zpl.specs.Commands.{kind_of as kind_is, kind_named as kind_is_named, format_command as format_is, field_command as field_is, label_command as label_is, print_command as print_is, bar_command as bar_is, graphic_command as graphic_is, in_format_by};
ghost use Rattle.vp_zpl.specs.Commands.{profile_kind as profile_is, added_kind as added_is};
ghost use Rattle.vp_zpl.specs.Commands.{added_bar as added_bar_is, added_matrix as added_matrix_is, added_shape as added_shape_is};
ghost use Rattle.vp_zpl.specs.Items.{name_of as name_is};
ghost use Rattle.vp_zpl.specs.Reader.{indicator_behind as indicator_is};

use crate::part::capital;
use crate::reading::Reading;

/// A command's sign and its name in capitals; the font byte of ^A stands as it came.
#[derive(Clone, Copy, Debug, PartialEq, Eq)]
pub struct Name {
    pub sign: u8,
    pub first: u8,
    pub second: u8,
}

/// ^F: what a field says of itself.
#[derive(Clone, Copy)]
pub enum FieldCommand {
    Origin,
    Typeset,
    Orientation,
    Block,
    Comment,
}

/// ^L: the label.
#[derive(Clone, Copy)]
pub enum LabelCommand {
    Home,
    Length,
    Reverse,
}

/// ^P: how it is printed.
#[derive(Clone, Copy)]
pub enum PrintCommand {
    Width,
    Quantity,
    Orientation,
    Mirror,
}

/// ^B: symbols, and what they say by default.
#[derive(Clone, Copy)]
pub enum BarCommand {
    Defaults,
    Code39,
    Ean13,
    Code128,
    QrCode,
}

/// ^B: the linear symbols that the whole language adds.
#[derive(Clone, Copy)]
pub enum LinearCommand {
    Code11,
    Interleaved,
    Ean8,
    UpcE,
    Code93,
    Codabar,
    Msi,
    AddOn,
    UpcA,
}

/// ^B: the two-dimensional symbols that the whole language adds.
#[derive(Clone, Copy)]
pub enum MatrixCommand {
    DataMatrix,
    Pdf417,
    Aztec,
}

/// ^G: the shapes that the whole language adds.
#[derive(Clone, Copy)]
pub enum ShapeCommand {
    Circle,
    Ellipse,
    Diagonal,
}

/// The commands whose parameters end with the command.
#[derive(Clone, Copy)]
pub enum Plain {
    Field(FieldCommand),
    Label(LabelCommand),
    Print(PrintCommand),
    Bar(BarCommand),
    Linear(LinearCommand),
    Matrix(MatrixCommand),
    Shape(ShapeCommand),
    /// ^GB
    GraphicBox,
    /// ^A
    Font,
    /// ^CF
    DefaultFont,
}

/// The commands, by how they go on behind their name.
#[derive(Clone, Copy)]
pub enum Kind {
    /// ^XA
    FormatStart,
    /// ^XZ
    FormatEnd,
    /// ^FS
    FieldSeparator,
    /// ^FR
    ReversePrint,
    /// ^FH: its parameter says how data are read.
    FieldHex,
    Plain(Plain),
    /// ^FD: data to the next sign.
    FieldData,
    /// ^GF: four parameters, and data behind them.
    Graphic,
    /// Every other name.
    Skipped,
}

/// ^X.
fn format_command(b: u8) -> Kind
    ensures { result ≡ format_is b }
{
    match b {
        b'A' => Kind::FormatStart,
        b'Z' => Kind::FormatEnd,
        _ => Kind::Skipped,
    }
}

/// ^F.
fn field_command(b: u8) -> Kind
    ensures { result ≡ field_is b }
{
    match b {
        b'S' => Kind::FieldSeparator,
        b'R' => Kind::ReversePrint,
        b'O' => Kind::Plain(Plain::Field(FieldCommand::Origin)),
        b'T' => Kind::Plain(Plain::Field(FieldCommand::Typeset)),
        b'W' => Kind::Plain(Plain::Field(FieldCommand::Orientation)),
        b'B' => Kind::Plain(Plain::Field(FieldCommand::Block)),
        b'H' => Kind::FieldHex,
        b'X' => Kind::Plain(Plain::Field(FieldCommand::Comment)),
        b'D' => Kind::FieldData,
        _ => Kind::Skipped,
    }
}

/// ^L.
fn label_command(b: u8) -> Kind
    ensures { result ≡ label_is b }
{
    match b {
        b'H' => Kind::Plain(Plain::Label(LabelCommand::Home)),
        b'L' => Kind::Plain(Plain::Label(LabelCommand::Length)),
        b'R' => Kind::Plain(Plain::Label(LabelCommand::Reverse)),
        _ => Kind::Skipped,
    }
}

/// ^P.
fn print_command(b: u8) -> Kind
    ensures { result ≡ print_is b }
{
    match b {
        b'W' => Kind::Plain(Plain::Print(PrintCommand::Width)),
        b'Q' => Kind::Plain(Plain::Print(PrintCommand::Quantity)),
        b'O' => Kind::Plain(Plain::Print(PrintCommand::Orientation)),
        b'M' => Kind::Plain(Plain::Print(PrintCommand::Mirror)),
        _ => Kind::Skipped,
    }
}

/// ^B.
fn bar_command(b: u8) -> Kind
    ensures { result ≡ bar_is b }
{
    match b {
        b'Y' => Kind::Plain(Plain::Bar(BarCommand::Defaults)),
        b'3' => Kind::Plain(Plain::Bar(BarCommand::Code39)),
        b'E' => Kind::Plain(Plain::Bar(BarCommand::Ean13)),
        b'C' => Kind::Plain(Plain::Bar(BarCommand::Code128)),
        b'Q' => Kind::Plain(Plain::Bar(BarCommand::QrCode)),
        _ => Kind::Skipped,
    }
}

/// ^B: the two-dimensional symbols that the whole language adds.
fn added_matrix(b: u8) -> Kind
    ensures { result ≡ added_matrix_is b }
{
    let command = match b {
        b'X' => MatrixCommand::DataMatrix,
        b'7' => MatrixCommand::Pdf417,
        b'O' | b'0' => MatrixCommand::Aztec,
        _ => return Kind::Skipped,
    };
    Kind::Plain(Plain::Matrix(command))
}

/// ^G: the shapes that the whole language adds.
fn added_shape(b: u8) -> Kind
    ensures { result ≡ added_shape_is b }
{
    let command = match b {
        b'C' => ShapeCommand::Circle,
        b'E' => ShapeCommand::Ellipse,
        b'D' => ShapeCommand::Diagonal,
        _ => return Kind::Skipped,
    };
    Kind::Plain(Plain::Shape(command))
}

/// ^B: what the whole language adds.
fn added_bar(b: u8) -> Kind
    ensures { result ≡ added_bar_is b }
{
    let command = match b {
        b'1' => LinearCommand::Code11,
        b'2' => LinearCommand::Interleaved,
        b'8' => LinearCommand::Ean8,
        b'9' => LinearCommand::UpcE,
        b'A' => LinearCommand::Code93,
        b'K' => LinearCommand::Codabar,
        b'M' => LinearCommand::Msi,
        b'S' => LinearCommand::AddOn,
        b'U' => LinearCommand::UpcA,
        _ => return added_matrix(b),
    };
    Kind::Plain(Plain::Linear(command))
}

/// ^G.
fn graphic_command(b: u8) -> Kind
    ensures { result ≡ graphic_is b }
{
    match b {
        b'B' => Kind::Plain(Plain::GraphicBox),
        b'F' => Kind::Graphic,
        _ => Kind::Skipped,
    }
}

impl Name {
    /// The name of a sign and two bytes, in either case.
    pub(crate) fn new(sign: u8, first: u8, second: u8) -> Name
        ensures { result ≡ name_is sign first second }
    {
        let is_font = sign == b'^' && capital(first) == b'A';
        Name {
            sign,
            first: capital(first),
            second: if is_font { second } else { capital(second) },
        }
    }
}

/// The commands of the profile.
fn profile_kind(sign: u8, first: u8, second: u8) -> Kind
    ensures { result ≡ profile_is sign first second }
{
    if sign != b'^' {
        return Kind::Skipped;
    }
    match first {
        b'X' => format_command(second),
        b'F' => field_command(second),
        b'L' => label_command(second),
        b'P' => print_command(second),
        b'B' => bar_command(second),
        b'G' => graphic_command(second),
        b'A' => Kind::Plain(Plain::Font),
        b'C' if second == b'F' => Kind::Plain(Plain::DefaultFont),
        _ => Kind::Skipped,
    }
}

/// The commands that the whole language adds.
fn added_kind(sign: u8, first: u8, second: u8) -> Kind
    ensures { result ≡ added_is sign first second }
{
    match first {
        b'B' if sign == b'^' => added_bar(second),
        b'G' if sign == b'^' => added_shape(second),
        _ => Kind::Skipped,
    }
}

/// The command of a name in capitals.
#[tactic(auto, unfolding(crate::specs::Commands::kind_of))]
fn kind_of(reading: Reading, sign: u8, first: u8, second: u8) -> Kind
    ensures { result ≡ kind_is reading sign first second }
{
    match profile_kind(sign, first, second) {
        Kind::Skipped => match reading {
            Reading::Profile => Kind::Skipped,
            Reading::Whole => added_kind(sign, first, second),
        },
        known => known,
    }
}

/// The command of a name in either case.
pub(crate) fn kind_named(reading: Reading, sign: u8, first: u8, second: u8) -> Kind
    ensures { result ≡ kind_is_named reading sign first second }
{
    kind_of(reading, sign, capital(first), capital(second))
}

impl Kind {
    /// Whether a format is open behind the command.
    pub(crate) fn in_format(self, was: bool) -> bool
        ensures { result ≡ in_format_by (Some self) was }
    {
        match self {
            Kind::FormatStart => true,
            Kind::FormatEnd => false,
            _ => was,
        }
    }

    /// The indicator that acts on data behind the command's name.
    pub(crate) fn indicator(self, was: Option<u8>) -> Option<u8>
        ensures { result ≡ indicator_is self was }
    {
        match self {
            Kind::FieldSeparator | Kind::FormatEnd => None,
            _ => was,
        }
    }
}
