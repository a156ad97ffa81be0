//! What a label's stream says: commands with their arguments, and data.
ghost use Rattle.std.specs.Prelude.{◌≡◌, ◌≤◌, length};
ghost use Rattle.vp_zpl.specs.Shown.{data_bytes};

use crate::name::Name;
use crate::part::Part;
use arrayvec::ArrayVec;
use vp_bar_code::{CodabarEnd, MsiChecks};
use vp_shapes::Leaning;

/// How a field is turned, clockwise.
#[derive(Clone, Copy, Debug, PartialEq, Eq)]
pub enum Orientation {
    /// N: not at all.
    Normal,
    /// R: by 90 degrees.
    Rotated,
    /// I: by 180 degrees.
    Inverted,
    /// B: by 270 degrees, read from the bottom up.
    BottomUp,
}

/// The colour of a line: B or W.
#[derive(Clone, Copy, Debug, PartialEq, Eq)]
pub enum Colour {
    Black,
    White,
}

/// How a picture's bytes are written.
#[derive(Clone, Copy, Debug, PartialEq, Eq)]
pub enum GraphicFormat {
    /// A: hex digits and what shortens them.
    Ascii,
    /// B: the bytes themselves.
    Binary,
    /// Anything else that was sent.
    Other,
}

/// A mode of ^BC; N and whatever else there may be are none.
#[derive(Clone, Copy, Debug, PartialEq, Eq)]
pub enum Code128Mode {
    /// U: UCC case.
    UccCase,
    /// A: the sets are chosen by the data.
    Automatic,
    /// D: UCC/EAN.
    UccEan,
}

/// Where the lines of a field block stand.
#[derive(Clone, Copy, Debug, PartialEq, Eq)]
pub enum Justification {
    Left,
    Centre,
    Right,
    Justified,
}

/// Dots between the lines of a field block.
#[derive(Clone, Copy, PartialEq, Eq)]
pub enum LineSpace {
    Added(u32),
    /// With `-` before the number.
    Deleted(u32),
}

/// A linear symbol that the whole language adds, with what it alone says.
#[derive(Clone, Copy)]
pub enum LinearCode {
    /// ^B1: whether there is one check digit, in place of two.
    Code11 {
        one_check: Option<bool>,
    },
    /// ^B2: whether there is a check digit.
    Interleaved {
        check: Option<bool>,
    },
    /// ^B8
    Ean8,
    /// ^B9
    UpcE,
    /// ^BA
    Code93,
    /// ^BK: what starts and stops it.
    Codabar {
        start: Option<CodabarEnd>,
        stop: Option<CodabarEnd>,
    },
    /// ^BM: A, B, C or D.
    Msi {
        checks: Option<MsiChecks>,
    },
    /// ^BS
    AddOn,
    /// ^BU
    UpcA,
}

/// A command with its arguments, by Zebra's names. An argument that is missing or can't be read is `None`:
/// which value then stands, and which range it is brought into, is the label's matter. Numbers are 0 to
/// 99,999,999; coordinates, sizes and lengths are in dots.
#[derive(Clone, Copy)]
pub enum Command {
    /// ^XA
    FormatStart,
    /// ^XZ
    FormatEnd,
    /// ^FS
    FieldSeparator,
    /// ^FR
    ReversePrint,
    /// ^FO
    FieldOrigin {
        x: Option<u32>,
        y: Option<u32>,
    },
    /// ^FT
    FieldTypeset {
        x: Option<u32>,
        y: Option<u32>,
    },
    /// ^LH
    LabelHome {
        x: Option<u32>,
        y: Option<u32>,
    },
    /// ^PW
    PrintWidth {
        dots: Option<u32>,
    },
    /// ^LL
    LabelLength {
        dots: Option<u32>,
    },
    /// ^PQ
    PrintQuantity {
        copies: Option<u32>,
    },
    /// ^PO: N or I.
    PrintOrientation {
        inverted: Option<bool>,
    },
    /// ^PM: Y or N.
    MirrorImage {
        mirrored: Option<bool>,
    },
    /// ^LR: Y or N.
    LabelReverse {
        reversed: Option<bool>,
    },
    /// ^FW
    FieldOrientation {
        orientation: Option<Orientation>,
    },
    /// ^CF
    DefaultFont {
        height: Option<u32>,
        width: Option<u32>,
    },
    /// ^A
    Font {
        orientation: Option<Orientation>,
        height: Option<u32>,
        width: Option<u32>,
    },
    /// ^BY: the narrow bar's width, the ratio of a wide one in tenths, and the height.
    BarDefaults {
        module: Option<u32>,
        ratio_tenths: Option<u32>,
        height: Option<u32>,
    },
    /// ^B3: whether there is a check digit, and a text, and whether that stands above.
    Code39 {
        orientation: Option<Orientation>,
        check: Option<bool>,
        height: Option<u32>,
        text: Option<bool>,
        above: Option<bool>,
    },
    /// ^BE
    Ean13 {
        orientation: Option<Orientation>,
        height: Option<u32>,
        text: Option<bool>,
        above: Option<bool>,
    },
    /// ^BC
    Code128 {
        orientation: Option<Orientation>,
        height: Option<u32>,
        text: Option<bool>,
        above: Option<bool>,
        mode: Option<Code128Mode>,
    },
    /// ^B1, ^B2, ^B8, ^B9, ^BA, ^BK, ^BM, ^BS, ^BU
    Linear {
        code: LinearCode,
        orientation: Option<Orientation>,
        height: Option<u32>,
        text: Option<bool>,
        above: Option<bool>,
    },
    /// ^BQ: the model, and the dots of a module's side.
    QrCode {
        model: Option<u32>,
        module: Option<u32>,
    },
    /// ^BX: the dots of a module's side, the quality, columns and rows of modules, the sign that begins an
    /// escape, and the aspect ratio: 1 square, 2 rectangular.
    DataMatrix {
        orientation: Option<Orientation>,
        module: Option<u32>,
        quality: Option<u32>,
        columns: Option<u32>,
        rows: Option<u32>,
        escape: Option<u8>,
        aspect: Option<u32>,
    },
    /// ^B7: a row's height in modules, the error correction level, columns of data, rows, and whether the
    /// right row indicators are left out.
    Pdf417 {
        orientation: Option<Orientation>,
        height: Option<u32>,
        level: Option<u32>,
        columns: Option<u32>,
        rows: Option<u32>,
        truncated: Option<bool>,
    },
    /// ^BO, ^B0: the dots of a module's side, and the error control.
    Aztec {
        orientation: Option<Orientation>,
        module: Option<u32>,
        control: Option<u32>,
    },
    /// ^GB
    GraphicBox {
        width: Option<u32>,
        height: Option<u32>,
        thickness: Option<u32>,
        colour: Option<Colour>,
    },
    /// ^GC
    GraphicCircle {
        diameter: Option<u32>,
        thickness: Option<u32>,
        colour: Option<Colour>,
    },
    /// ^GE
    GraphicEllipse {
        width: Option<u32>,
        height: Option<u32>,
        thickness: Option<u32>,
        colour: Option<Colour>,
    },
    /// ^GD
    GraphicDiagonal {
        width: Option<u32>,
        height: Option<u32>,
        thickness: Option<u32>,
        colour: Option<Colour>,
        leaning: Option<Leaning>,
    },
    /// ^GF: where nothing is sent for the format it is `None`.
    Graphic {
        format: Option<GraphicFormat>,
        binary_bytes: Option<u32>,
        picture_bytes: Option<u32>,
        row_bytes: Option<u32>,
    },
    /// ^FH
    FieldHex {
        indicator: Option<u8>,
    },
    /// ^FX
    Comment,
    /// ^FB
    FieldBlock {
        width: Option<u32>,
        lines: Option<u32>,
        space: Option<LineSpace>,
        justification: Option<Justification>,
    },
    /// ^FD
    FieldData,
    /// Every other command.
    Skipped,
}

/// Bytes of data that become known at once.
#[derive(Clone, Copy)]
pub enum DataBytes {
    One([u8; 1]),
    Two([u8; 2]),
    Three([u8; 3]),
}

impl DataBytes {
    /// The bytes, in their order.
    pub fn as_slice(&self) -> &[u8]
        ensures value { result.now ≡ data_bytes self.now }
        ensures few { length result.now ≤ 3 }
    {
        match self {
            DataBytes::One(bytes) => bytes,
            DataBytes::Two(bytes) => bytes,
            DataBytes::Three(bytes) => bytes,
        }
    }
}

/// A command as it was sent.
#[derive(Drop)]
pub struct Sent {
    /// What it means.
    pub command: Command,
    pub name: Name,
    /// Its parameters, as far as they are kept.
    pub parameters: ArrayVec<Part, 8>,
}

/// What a byte of a label's stream gives.
#[derive(Clone, Copy)]
pub enum ZplItem<'a> {
    /// A command, which the reader lends.
    Command(&'a Sent),
    /// Data of ^FD or ^GF, which have become known and which the reader lends.
    Data(&'a DataBytes),
}
