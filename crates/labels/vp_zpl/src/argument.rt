//! What the parameters of a command mean.
ghost use Rattle.std.specs.Prelude.{◌≡◌, ◌<◌, ℕ, Some, slice_get};
ghost use Rattle.vp_zpl.specs.Arguments.{number_at as number_is, byte_at as byte_is, letter_at as letter_is, yes_at as yes_is, inverted_at as inverted_is, orientation_at as orientation_is, either_of, orientation_of as orientation_as, colour_of as colour_as, format_of as format_as, mode_of as mode_as, justification_of as justification_as, space_in, space_if, tenths_of as tenths_as, tenth_behind as tenth_as, tenths_if, field_command_of as field_is, label_command_of as label_is, print_command_of as print_is, bar_command_of as bar_is, plain_command as plain_is, command_of as command_is};
ghost use Rattle.vp_zpl.specs.Arguments.{codabar_end_of as codabar_end_as, msi_checks_of as msi_checks_as, linear_symbol as linear_is};
ghost use Rattle.vp_zpl.specs.Arguments.{late_symbol as late_is, linear_command_of as linear_command_is};
ghost use Rattle.vp_zpl.specs.Arguments.{leaning_of as leaning_as, matrix_command_of as matrix_is, shape_command_of as shape_is};
ghost use Rattle.vp_zpl.specs.Shown.{shown_part, shown_parts};

use crate::item::{
    Code128Mode, Colour, Command, GraphicFormat, Justification, LineSpace, LinearCode, Orientation,
};
use crate::name::{
    BarCommand, FieldCommand, Kind, LabelCommand, LinearCommand, MatrixCommand, Plain,
    PrintCommand, ShapeCommand,
};
use crate::part::{Part, capital, is_digit, number_in};
use vp_bar_code::{CodabarEnd, MsiChecks};
use vp_shapes::Leaning;

fn number_at(n: usize, parameters: &[Part]) -> Option<u32>
    ensures { result ≡ number_is n (shown_parts parameters.now) }
{
    parameters.get(n)?.number()
}

fn byte_at(n: usize, parameters: &[Part]) -> Option<u8>
    ensures { result ≡ byte_is n (shown_parts parameters.now) }
{
    let part = parameters.get(n)?;
    let bytes = part.bytes.as_slice();
    if bytes.len() == 1 {
        Some(bytes[0])
    } else {
        None
    }
}

#[tactic(auto, unfolding(crate::specs::Arguments::letter_at))]
fn letter_at(n: usize, parameters: &[Part]) -> Option<u8>
    ensures { result ≡ letter_is n (shown_parts parameters.now) }
{
    Some(capital(byte_at(n, parameters)?))
}

/// Whether a letter is the one that says yes, or the one that says no.
fn either(yes: u8, no: u8, letter: Option<u8>) -> Option<bool>
    ensures { result ≡ either_of yes no letter }
{
    match letter {
        Some(c) if c == yes => Some(true),
        Some(c) if c == no => Some(false),
        _ => None,
    }
}

fn yes_at(n: usize, parameters: &[Part]) -> Option<bool>
    ensures { result ≡ yes_is n (shown_parts parameters.now) }
{
    either(b'Y', b'N', letter_at(n, parameters))
}

fn inverted_at(n: usize, parameters: &[Part]) -> Option<bool>
    ensures { result ≡ inverted_is n (shown_parts parameters.now) }
{
    either(b'I', b'N', letter_at(n, parameters))
}

fn orientation_of(letter: Option<u8>) -> Option<Orientation>
    ensures { result ≡ orientation_as letter }
{
    match letter {
        Some(b'N') => Some(Orientation::Normal),
        Some(b'R') => Some(Orientation::Rotated),
        Some(b'I') => Some(Orientation::Inverted),
        Some(b'B') => Some(Orientation::BottomUp),
        _ => None,
    }
}

fn orientation_at(n: usize, parameters: &[Part]) -> Option<Orientation>
    ensures { result ≡ orientation_is n (shown_parts parameters.now) }
{
    orientation_of(letter_at(n, parameters))
}

fn colour_of(letter: Option<u8>) -> Option<Colour>
    ensures { result ≡ colour_as letter }
{
    match letter {
        Some(b'B') => Some(Colour::Black),
        Some(b'W') => Some(Colour::White),
        _ => None,
    }
}

fn leaning_of(letter: Option<u8>) -> Option<Leaning>
    ensures { result ≡ leaning_as letter }
{
    match letter {
        Some(b'R' | b'/') => Some(Leaning::Right),
        Some(b'L' | b'\\') => Some(Leaning::Left),
        _ => None,
    }
}

fn mode_of(letter: Option<u8>) -> Option<Code128Mode>
    ensures { result ≡ mode_as letter }
{
    match letter {
        Some(b'U') => Some(Code128Mode::UccCase),
        Some(b'A') => Some(Code128Mode::Automatic),
        Some(b'D') => Some(Code128Mode::UccEan),
        _ => None,
    }
}

fn msi_checks_of(letter: Option<u8>) -> Option<MsiChecks>
    ensures { result ≡ msi_checks_as letter }
{
    match letter {
        Some(b'A') => Some(MsiChecks::None),
        Some(b'B') => Some(MsiChecks::Mod10),
        Some(b'C') => Some(MsiChecks::Mod10Twice),
        Some(b'D') => Some(MsiChecks::Mod11Mod10),
        _ => None,
    }
}

fn codabar_end_of(letter: Option<u8>) -> Option<CodabarEnd>
    ensures { result ≡ codabar_end_as letter }
{
    match letter {
        Some(b'A' | b'T') => Some(CodabarEnd::A),
        Some(b'B' | b'N') => Some(CodabarEnd::B),
        Some(b'C' | b'*') => Some(CodabarEnd::C),
        Some(b'D' | b'E') => Some(CodabarEnd::D),
        _ => None,
    }
}

fn justification_of(letter: Option<u8>) -> Option<Justification>
    ensures { result ≡ justification_as letter }
{
    match letter {
        Some(b'L') => Some(Justification::Left),
        Some(b'C') => Some(Justification::Centre),
        Some(b'R') => Some(Justification::Right),
        Some(b'J') => Some(Justification::Justified),
        _ => None,
    }
}

/// ^GF's format; `None` where nothing was sent for it.
fn format_of(parameters: &[Part]) -> Option<GraphicFormat>
    ensures { result ≡ format_as (shown_parts parameters.now) }
{
    let part = parameters.first()?;
    if part.bytes.is_empty() {
        return None;
    }
    match letter_at(0, parameters) {
        Some(b'A') => Some(GraphicFormat::Ascii),
        Some(b'B') => Some(GraphicFormat::Binary),
        _ => Some(GraphicFormat::Other),
    }
}

impl Part {
    /// A number, perhaps with `-` before it.
    fn space(&self) -> Option<LineSpace>
        ensures { result ≡ space_in self.now.is_long self.now.bytes.items }
    {
        let bytes = self.bytes.as_slice();
        if bytes.is_empty() {
            return None;
        }
        if bytes[0] == b'-' {
            let dots = number_in(self.is_long, &bytes[1..])?;
            return Some(LineSpace::Deleted(dots));
        }
        let dots = number_in(self.is_long, bytes)?;
        Some(LineSpace::Added(dots))
    }

    /// Digits, perhaps a point and one digit: in tenths.
    #[tactic(auto, unfolding(crate::specs::Arguments::tenths_of))]
    fn tenths(&self) -> Option<u32>
        ensures { result ≡ tenths_as (shown_part self.now) }
    {
        let bytes = self.bytes.as_slice();
        let whole = bytes.len().saturating_sub(2);
        match tenth_behind(&bytes[whole..]) {
            Some(tenth) => {
                let n = number_in(self.is_long, &bytes[..whole])?;
                Some(10 * n + tenth)
            }
            None => {
                let n = self.number()?;
                Some(10 * n)
            }
        }
    }
}

/// A point and a digit.
fn tenth_behind(bytes: &[u8]) -> Option<u32>
    ensures value { result ≡ tenth_as bytes.now }
    ensures small { (n : ℕ) → result ≡ Some n → n < 10 }
{
    if bytes.len() == 2 && bytes[0] == b'.' && is_digit(bytes[1]) {
        return Some((bytes[1] - b'0') as u32);
    }
    None
}

fn space_at(n: usize, parameters: &[Part]) -> Option<LineSpace>
    ensures { result ≡ space_if (slice_get (shown_parts parameters.now) n) }
{
    parameters.get(n)?.space()
}

fn tenths_at(n: usize, parameters: &[Part]) -> Option<u32>
    ensures { result ≡ tenths_if (slice_get (shown_parts parameters.now) n) }
{
    parameters.get(n)?.tenths()
}

/// The command of these parameters.
#[tactic(auto, unfolding(crate::specs::Arguments::command_of))]
pub(crate) fn command_of(kind: Kind, sent: &[Part]) -> Command
    ensures { result ≡ command_is kind (shown_parts sent.now) }
{
    match kind {
        Kind::FormatStart => Command::FormatStart,
        Kind::FormatEnd => Command::FormatEnd,
        Kind::FieldSeparator => Command::FieldSeparator,
        Kind::ReversePrint => Command::ReversePrint,
        Kind::FieldHex => Command::FieldHex {
            indicator: byte_at(0, sent),
        },
        Kind::Plain(plain) => plain_command(plain, sent),
        Kind::FieldData => Command::FieldData,
        Kind::Graphic => Command::Graphic {
            format: format_of(sent),
            binary_bytes: number_at(1, sent),
            picture_bytes: number_at(2, sent),
            row_bytes: number_at(3, sent),
        },
        Kind::Skipped => Command::Skipped,
    }
}

/// ^F
fn field_command_of(command: FieldCommand, sent: &[Part]) -> Command
    ensures { result ≡ field_is command (shown_parts sent.now) }
{
    match command {
        FieldCommand::Origin => Command::FieldOrigin {
            x: number_at(0, sent),
            y: number_at(1, sent),
        },
        FieldCommand::Typeset => Command::FieldTypeset {
            x: number_at(0, sent),
            y: number_at(1, sent),
        },
        FieldCommand::Orientation => Command::FieldOrientation {
            orientation: orientation_at(0, sent),
        },
        FieldCommand::Block => Command::FieldBlock {
            width: number_at(0, sent),
            lines: number_at(1, sent),
            space: space_at(2, sent),
            justification: justification_of(letter_at(3, sent)),
        },
        FieldCommand::Comment => Command::Comment,
    }
}

/// ^L
fn label_command_of(command: LabelCommand, sent: &[Part]) -> Command
    ensures { result ≡ label_is command (shown_parts sent.now) }
{
    match command {
        LabelCommand::Home => Command::LabelHome {
            x: number_at(0, sent),
            y: number_at(1, sent),
        },
        LabelCommand::Length => Command::LabelLength {
            dots: number_at(0, sent),
        },
        LabelCommand::Reverse => Command::LabelReverse {
            reversed: yes_at(0, sent),
        },
    }
}

/// ^P
fn print_command_of(command: PrintCommand, sent: &[Part]) -> Command
    ensures { result ≡ print_is command (shown_parts sent.now) }
{
    match command {
        PrintCommand::Width => Command::PrintWidth {
            dots: number_at(0, sent),
        },
        PrintCommand::Quantity => Command::PrintQuantity {
            copies: number_at(0, sent),
        },
        PrintCommand::Orientation => Command::PrintOrientation {
            inverted: inverted_at(0, sent),
        },
        PrintCommand::Mirror => Command::MirrorImage {
            mirrored: yes_at(0, sent),
        },
    }
}

/// ^B
fn bar_command_of(command: BarCommand, sent: &[Part]) -> Command
    ensures { result ≡ bar_is command (shown_parts sent.now) }
{
    match command {
        BarCommand::Defaults => Command::BarDefaults {
            module: number_at(0, sent),
            ratio_tenths: tenths_at(1, sent),
            height: number_at(2, sent),
        },
        BarCommand::Code39 => Command::Code39 {
            orientation: orientation_at(0, sent),
            check: yes_at(1, sent),
            height: number_at(2, sent),
            text: yes_at(3, sent),
            above: yes_at(4, sent),
        },
        BarCommand::Ean13 => Command::Ean13 {
            orientation: orientation_at(0, sent),
            height: number_at(1, sent),
            text: yes_at(2, sent),
            above: yes_at(3, sent),
        },
        BarCommand::Code128 => Command::Code128 {
            orientation: orientation_at(0, sent),
            height: number_at(1, sent),
            text: yes_at(2, sent),
            above: yes_at(3, sent),
            mode: mode_of(letter_at(5, sent)),
        },
        BarCommand::QrCode => Command::QrCode {
            model: number_at(1, sent),
            module: number_at(2, sent),
        },
    }
}

/// A symbol whose height is its second parameter.
fn linear_symbol(code: LinearCode, sent: &[Part]) -> Command
    ensures { result ≡ linear_is code (shown_parts sent.now) }
{
    Command::Linear {
        code,
        orientation: orientation_at(0, sent),
        height: number_at(1, sent),
        text: yes_at(2, sent),
        above: yes_at(3, sent),
    }
}

/// A symbol whose height is its third parameter, behind its check digits.
fn late_symbol(code: LinearCode, sent: &[Part]) -> Command
    ensures { result ≡ late_is code (shown_parts sent.now) }
{
    Command::Linear {
        code,
        orientation: orientation_at(0, sent),
        height: number_at(2, sent),
        text: yes_at(3, sent),
        above: yes_at(4, sent),
    }
}

/// ^B: what the whole language adds.
fn linear_command_of(command: LinearCommand, sent: &[Part]) -> Command
    ensures { result ≡ linear_command_is command (shown_parts sent.now) }
{
    match command {
        LinearCommand::Code11 => {
            let one_check = yes_at(1, sent);
            late_symbol(LinearCode::Code11 { one_check }, sent)
        }
        LinearCommand::Interleaved => {
            let check = yes_at(4, sent);
            linear_symbol(LinearCode::Interleaved { check }, sent)
        }
        LinearCommand::Ean8 => linear_symbol(LinearCode::Ean8, sent),
        LinearCommand::UpcE => linear_symbol(LinearCode::UpcE, sent),
        LinearCommand::Code93 => linear_symbol(LinearCode::Code93, sent),
        LinearCommand::Codabar => {
            let start = codabar_end_of(letter_at(5, sent));
            let stop = codabar_end_of(letter_at(6, sent));
            late_symbol(LinearCode::Codabar { start, stop }, sent)
        }
        LinearCommand::Msi => {
            let checks = msi_checks_of(letter_at(1, sent));
            late_symbol(LinearCode::Msi { checks }, sent)
        }
        LinearCommand::AddOn => linear_symbol(LinearCode::AddOn, sent),
        LinearCommand::UpcA => linear_symbol(LinearCode::UpcA, sent),
    }
}

/// ^B: the two-dimensional symbols that the whole language adds.
fn matrix_command_of(command: MatrixCommand, sent: &[Part]) -> Command
    ensures { result ≡ matrix_is command (shown_parts sent.now) }
{
    match command {
        MatrixCommand::DataMatrix => Command::DataMatrix {
            orientation: orientation_at(0, sent),
            module: number_at(1, sent),
            quality: number_at(2, sent),
            columns: number_at(3, sent),
            rows: number_at(4, sent),
            escape: byte_at(6, sent),
            aspect: number_at(7, sent),
        },
        MatrixCommand::Pdf417 => Command::Pdf417 {
            orientation: orientation_at(0, sent),
            height: number_at(1, sent),
            level: number_at(2, sent),
            columns: number_at(3, sent),
            rows: number_at(4, sent),
            truncated: yes_at(5, sent),
        },
        MatrixCommand::Aztec => Command::Aztec {
            orientation: orientation_at(0, sent),
            module: number_at(1, sent),
            control: number_at(3, sent),
        },
    }
}

/// ^G: the shapes that the whole language adds.
fn shape_command_of(command: ShapeCommand, sent: &[Part]) -> Command
    ensures { result ≡ shape_is command (shown_parts sent.now) }
{
    match command {
        ShapeCommand::Circle => Command::GraphicCircle {
            diameter: number_at(0, sent),
            thickness: number_at(1, sent),
            colour: colour_of(letter_at(2, sent)),
        },
        ShapeCommand::Ellipse => Command::GraphicEllipse {
            width: number_at(0, sent),
            height: number_at(1, sent),
            thickness: number_at(2, sent),
            colour: colour_of(letter_at(3, sent)),
        },
        ShapeCommand::Diagonal => Command::GraphicDiagonal {
            width: number_at(0, sent),
            height: number_at(1, sent),
            thickness: number_at(2, sent),
            colour: colour_of(letter_at(3, sent)),
            leaning: leaning_of(letter_at(4, sent)),
        },
    }
}

fn plain_command(plain: Plain, sent: &[Part]) -> Command
    ensures { result ≡ plain_is plain (shown_parts sent.now) }
{
    match plain {
        Plain::Field(command) => field_command_of(command, sent),
        Plain::Label(command) => label_command_of(command, sent),
        Plain::Print(command) => print_command_of(command, sent),
        Plain::Bar(command) => bar_command_of(command, sent),
        Plain::Linear(command) => linear_command_of(command, sent),
        Plain::Matrix(command) => matrix_command_of(command, sent),
        Plain::Shape(command) => shape_command_of(command, sent),
        Plain::GraphicBox => Command::GraphicBox {
            width: number_at(0, sent),
            height: number_at(1, sent),
            thickness: number_at(2, sent),
            colour: colour_of(letter_at(3, sent)),
        },
        Plain::Font => Command::Font {
            orientation: orientation_at(0, sent),
            height: number_at(1, sent),
            width: number_at(2, sent),
        },
        Plain::DefaultFont => Command::DefaultFont {
            height: number_at(1, sent),
            width: number_at(2, sent),
        },
    }
}
