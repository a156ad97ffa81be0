//! Commands of formats, fields, fonts and symbols, with their arguments and lines.
use super::rows::{Row, right};
use std::test::Fail;
use vp_zpl::Command;
use vp_zpl::item::{Code128Mode, Colour, Orientation};

static FORMATS_AND_FIELDS: [Row; 20] = [
    (b"^XA^", Command::FormatStart, b"^XA\n"),
    (b"^XZ^", Command::FormatEnd, b"^XZ\n"),
    (b"^FS^", Command::FieldSeparator, b"^FS\n"),
    (b"^FR^", Command::ReversePrint, b"^FR\n"),
    (
        b"^FO12,34^",
        Command::FieldOrigin {
            x: Some(12),
            y: Some(34),
        },
        b"^FO12,34\n",
    ),
    (
        b"^FT,7^",
        Command::FieldTypeset {
            x: None,
            y: Some(7),
        },
        b"^FT,7\n",
    ),
    (
        b"^LH99999999999,-1^",
        Command::LabelHome {
            x: Some(99_999_999),
            y: None,
        },
        b"^LH99999999999,-1\n",
    ),
    (
        b"^PW1300^",
        Command::PrintWidth { dots: Some(1300) },
        b"^PW1300\n",
    ),
    (b"^LL0^", Command::LabelLength { dots: Some(0) }, b"^LL0\n"),
    (
        b"^PQ2,0,0^",
        Command::PrintQuantity { copies: Some(2) },
        b"^PQ2,0,0\n",
    ),
    (
        b"^POi^",
        Command::PrintOrientation {
            inverted: Some(true),
        },
        b"^POi\n",
    ),
    (
        b"^PON^",
        Command::PrintOrientation {
            inverted: Some(false),
        },
        b"^PON\n",
    ),
    (
        b"^POR^",
        Command::PrintOrientation { inverted: None },
        b"^POR\n",
    ),
    (
        b"^PMY^",
        Command::MirrorImage {
            mirrored: Some(true),
        },
        b"^PMY\n",
    ),
    (
        b"^LRn^",
        Command::LabelReverse {
            reversed: Some(false),
        },
        b"^LRn\n",
    ),
    (
        b"^FWB^",
        Command::FieldOrientation {
            orientation: Some(Orientation::BottomUp),
        },
        b"^FWB\n",
    ),
    (
        b"^FWr^",
        Command::FieldOrientation {
            orientation: Some(Orientation::Rotated),
        },
        b"^FWr\n",
    ),
    (
        b"^FWX^",
        Command::FieldOrientation { orientation: None },
        b"^FWX\n",
    ),
    (
        b"^CF0,20^",
        Command::DefaultFont {
            height: Some(20),
            width: None,
        },
        b"^CF0,20\n",
    ),
    (
        b"^A0N,24,12^",
        Command::Font {
            orientation: Some(Orientation::Normal),
            height: Some(24),
            width: Some(12),
        },
        b"^A0N,24,12\n",
    ),
];

/// Formats and fields.
#[test]
fn formats_and_fields(rt: HostRuntime) -> Result<(), Fail> {
    right(&rt, rt.alloc(), &FORMATS_AND_FIELDS)
}

static FONTS_AND_SYMBOLS: [Row; 14] = [
    (
        b"^AaI^",
        Command::Font {
            orientation: Some(Orientation::Inverted),
            height: None,
            width: None,
        },
        b"^AaI\n",
    ),
    (
        b"^BY3,2.5,40^",
        Command::BarDefaults {
            module: Some(3),
            ratio_tenths: Some(25),
            height: Some(40),
        },
        b"^BY3,2.5,40\n",
    ),
    (
        b"^BY,3^",
        Command::BarDefaults {
            module: None,
            ratio_tenths: Some(30),
            height: None,
        },
        b"^BY,3\n",
    ),
    (
        b"^BY2,2.55^",
        Command::BarDefaults {
            module: Some(2),
            ratio_tenths: None,
            height: None,
        },
        b"^BY2,2.55\n",
    ),
    (
        b"^BY2,.5^",
        Command::BarDefaults {
            module: Some(2),
            ratio_tenths: None,
            height: None,
        },
        b"^BY2,.5\n",
    ),
    (
        b"^BY2,2.^",
        Command::BarDefaults {
            module: Some(2),
            ratio_tenths: None,
            height: None,
        },
        b"^BY2,2.\n",
    ),
    (
        b"^B3R,Y,50,N,y^",
        Command::Code39 {
            orientation: Some(Orientation::Rotated),
            check: Some(true),
            height: Some(50),
            text: Some(false),
            above: Some(true),
        },
        b"^B3R,Y,50,N,y\n",
    ),
    (
        b"^BEN,50,Y^",
        Command::Ean13 {
            orientation: Some(Orientation::Normal),
            height: Some(50),
            text: Some(true),
            above: None,
        },
        b"^BEN,50,Y\n",
    ),
    (
        b"^BCN,50,Y,N,N,a^",
        Command::Code128 {
            orientation: Some(Orientation::Normal),
            height: Some(50),
            text: Some(true),
            above: Some(false),
            mode: Some(Code128Mode::Automatic),
        },
        b"^BCN,50,Y,N,N,a\n",
    ),
    (
        b"^BC,,,,,U^",
        Command::Code128 {
            orientation: None,
            height: None,
            text: None,
            above: None,
            mode: Some(Code128Mode::UccCase),
        },
        b"^BC,,,,,U\n",
    ),
    (
        b"^BC,,,,,D^",
        Command::Code128 {
            orientation: None,
            height: None,
            text: None,
            above: None,
            mode: Some(Code128Mode::UccEan),
        },
        b"^BC,,,,,D\n",
    ),
    (
        b"^BC,,,,,N^",
        Command::Code128 {
            orientation: None,
            height: None,
            text: None,
            above: None,
            mode: None,
        },
        b"^BC,,,,,N\n",
    ),
    (
        b"^BQN,2,4^",
        Command::QrCode {
            model: Some(2),
            module: Some(4),
        },
        b"^BQN,2,4\n",
    ),
    (
        b"^GB8,4,2,w,0^",
        Command::GraphicBox {
            width: Some(8),
            height: Some(4),
            thickness: Some(2),
            colour: Some(Colour::White),
        },
        b"^GB8,4,2,w,0\n",
    ),
];

/// Fonts and symbols.
#[test]
fn fonts_and_symbols(rt: HostRuntime) -> Result<(), Fail> {
    right(&rt, rt.alloc(), &FONTS_AND_SYMBOLS)
}
