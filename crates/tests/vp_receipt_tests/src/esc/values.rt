//! What the bytes of arguments stand for in items.
use super::last_item;
use crate::checks::same;
use std::process::Abort;
use vp_bar_code::{BarCode, Code128Data, HriPosition};
use vp_esc::item::{
    ColumnMode, Cut, Magnification, PrintDirection, QrLevel, QrModel, RasterScale, Spelled,
    Underline,
};
use vp_esc::{EscItem, EscReader, Reading};
use vp_glyph::{Alignment, Font};

/// What ESC ! sets: whether font B, emphasized, of double height, of double width, and underlined.
fn print_mode(bytes: &[u8]) -> Option<[bool; 5]> {
    match last_item(&mut EscReader::new(Reading::Profile), bytes) {
        Some(EscItem::PrintMode(n)) => Some([
            matches!(n.value.font, Font::B),
            n.value.emphasized,
            n.value.double_height,
            n.value.double_width,
            n.value.underlined,
        ]),
        _ => None,
    }
}

static PRINT_MODES: [(&[u8], [bool; 5]); 3] = [
    (b"\x1B\x21\x00", [false, false, false, false, false]),
    (b"\x1B\x21\x99", [true, true, true, false, true]),
    (b"\x1B\x21\x66", [false, false, false, true, false]),
];

#[test]
fn print_modes(rt: HostRuntime) {
    for (bytes, mode) in &PRINT_MODES {
        same(&rt, &print_mode(bytes), &Some(*mode));
    }
}

/// By how much ESC \ moves the position.
fn moved(bytes: &[u8]) -> Option<i16> {
    match last_item(&mut EscReader::new(Reading::Profile), bytes) {
        Some(EscItem::MovePosition(dots)) => Some(*dots),
        _ => None,
    }
}

static MOVES: [(&[u8], i16); 3] = [
    (b"\x1B\x5C\xFF\xFF", -1),
    (b"\x1B\x5C\x00\x80", -32768),
    (b"\x1B\x5C\x02\x01", 258),
];

#[test]
fn moves(rt: HostRuntime) {
    for (bytes, dots) in &MOVES {
        same(&rt, &moved(bytes), &Some(*dots));
    }
}

/// Bytes, and what the item that the last of them gives says, in words.
type Row = (&'static [u8], &'static str);

/// Each row's bytes give the item of its words.
fn right(rt: &impl Abort, rows: &[Row]) {
    right_by(rt, Reading::Profile, rows);
}

/// The same by the commands of a reading.
fn right_by(rt: &impl Abort, reading: Reading, rows: &[Row]) {
    for (bytes, words) in rows {
        let found = match last_item(&mut EscReader::new(reading), bytes) {
            Some(item) => in_words(item),
            None => "nothing",
        };
        assert_eq!(rt; found, *words);
    }
}

/// What an item says, in words, if it is one of those that are expected below.
fn in_words(item: &EscItem) -> &'static str {
    match item {
        EscItem::Underline(
            Spelled {
                value: Some(Underline::TwoRows),
                ..
            },
        ) => "underlined by two rows",
        EscItem::Underline(
            Spelled {
                byte: 3,
                value: None,
            },
        ) => "a 3 that is no underline",
        EscItem::Emphasized(Spelled { value: false, .. }) => "not emphasized",
        EscItem::DoubleStrike(Spelled { value: true, .. }) => "struck twice",
        EscItem::Inverse(Spelled { value: false, .. }) => "not inverse",
        EscItem::Font(
            Spelled {
                value: Some(Font::B),
                ..
            },
        ) => "font B",
        other => place_in_words(other),
    }
}

fn place_in_words(item: &EscItem) -> &'static str {
    match item {
        EscItem::Position(1000) => "to 1000",
        EscItem::Area {
            x: 513,
            y: 1027,
            width: 1541,
            height: 2055,
        } => "at 513 and 1027, 1541 wide and 2055 high",
        EscItem::MoveVerticalPosition(-2) => "up by 2",
        EscItem::Direction(
            Spelled {
                value: Some(PrintDirection::TopToBottom),
                ..
            },
        ) => "top to bottom",
        EscItem::Justify(
            Spelled {
                value: Some(Alignment::Centre),
                ..
            },
        ) => "centred",
        other => image_in_words(other),
    }
}

fn image_in_words(item: &EscItem) -> &'static str {
    match item {
        EscItem::Columns {
            mode: ColumnMode::Double24,
            count: 258,
        } => "258 columns of 24 narrow dots",
        EscItem::Raster {
            scale: Spelled {
                value: Some(RasterScale::DoubleWidth),
                ..
            },
            bytes: 258,
            rows: 259,
        } => "259 rows of 258 bytes, twice as wide",
        EscItem::Raster {
            scale: Spelled {
                byte: 5,
                value: None,
            },
            bytes: 258,
            rows: 259,
        } => "259 rows of 258 bytes, and a 5 that is no scale",
        other => symbol_in_words(other),
    }
}

fn symbol_in_words(item: &EscItem) -> &'static str {
    match item {
        EscItem::Cut(
            Spelled {
                value: Cut::Full,
                ..
            },
        ) => "a full cut",
        EscItem::Cut(
            Spelled {
                value: Cut::Partial,
                ..
            },
        ) => "a partial cut",
        EscItem::FeedAndCut {
            cut: Spelled {
                value: Cut::Partial,
                ..
            },
            dots: 5,
        } => "5 dots and a partial cut",
        EscItem::HriPosition(
            Spelled {
                value: Some(HriPosition::Below),
                ..
            },
        ) => "text below",
        EscItem::HriFont(Spelled { value: None, .. }) => "text in no font",
        EscItem::Symbol {
            kind,
            more: false,
            ..
        } => bar_code_in_words(kind),
        EscItem::QrModel(QrModel::Two) => "model 2",
        EscItem::QrLevel(QrLevel::Q) => "level Q",
        EscItem::QrStore(256) => "256 bytes to store",
        _ => "something else",
    }
}

fn bar_code_in_words(kind: &Spelled<Option<BarCode>>) -> &'static str {
    match kind {
        Spelled {
            byte: 2,
            value: Some(BarCode::Ean13 { padded: false }),
        } => "2 for EAN-13",
        Spelled {
            byte: 69,
            value: Some(BarCode::Code39 { check: false }),
        } => "69 for Code 39",
        Spelled {
            byte: 73,
            value: Some(
                BarCode::Code128 {
                    data: Code128Data::Escapes,
                },
            ),
        } => "73 for Code 128",
        Spelled {
            byte: 65,
            value: None,
        } => "65 for no bar code",
        other => added_in_words(other),
    }
}

fn added_in_words(kind: &Spelled<Option<BarCode>>) -> &'static str {
    match kind.value {
        Some(BarCode::UpcA { .. }) => "UPC-A",
        Some(BarCode::UpcE { .. }) => "UPC-E",
        Some(BarCode::Ean8 { .. }) => "EAN-8",
        Some(BarCode::Interleaved { check: false }) => "2 of 5",
        Some(BarCode::Codabar { .. }) => "Codabar",
        Some(BarCode::Code93 { .. }) => "Code 93",
        Some(_) => "another bar code",
        None => "no bar code",
    }
}

static POSITIONS: [Row; 3] = [
    (b"\x1B\x24\xE8\x03", "to 1000"),
    (
        b"\x1B\x57\x01\x02\x03\x04\x05\x06\x07\x08",
        "at 513 and 1027, 1541 wide and 2055 high",
    ),
    (b"\x1D\x5C\xFE\xFF", "up by 2"),
];

#[test]
fn positions(rt: HostRuntime) {
    right(&rt, &POSITIONS);
}

static STYLES: [Row; 3] = [
    (b"\x1B\x2D\x32", "underlined by two rows"),
    (b"\x1B\x2D\x03", "a 3 that is no underline"),
    (b"\x1B\x45\xFE", "not emphasized"),
];

#[test]
fn styles(rt: HostRuntime) {
    right(&rt, &STYLES);
}

static FONTS_AND_INVERSE: [Row; 3] = [
    (b"\x1B\x47\x03", "struck twice"),
    (b"\x1B\x4D\x31", "font B"),
    (b"\x1D\x42\x02", "not inverse"),
];

#[test]
fn fonts_and_inverse(rt: HostRuntime) {
    right(&rt, &FONTS_AND_INVERSE);
}

static DIRECTIONS: [Row; 2] = [
    (b"\x1B\x54\x03", "top to bottom"),
    (b"\x1B\x61\x31", "centred"),
];

#[test]
fn directions(rt: HostRuntime) {
    right(&rt, &DIRECTIONS);
}

/// What GS ! sets, if anything: how often a dot is drawn across and down.
fn magnified(bytes: &[u8]) -> Option<Option<(u8, u8)>> {
    match last_item(&mut EscReader::new(Reading::Profile), bytes) {
        Some(EscItem::Magnify(n)) => Some(match n.value {
            Some(Magnification { width, height }) => Some((width, height)),
            None => None,
        }),
        _ => None,
    }
}

static MAGNIFICATIONS: [(&[u8], Option<(u8, u8)>); 4] = [
    (b"\x1D\x21\x70", Some((8, 1))),
    (b"\x1D\x21\x15", Some((2, 6))),
    (b"\x1D\x21\x08", None),
    (b"\x1D\x21\x80", None),
];

#[test]
fn magnifications(rt: HostRuntime) {
    for (bytes, magnification) in &MAGNIFICATIONS {
        same(&rt, &magnified(bytes), &Some(*magnification));
    }
}

static BAR_TEXTS: [Row; 2] = [
    (b"\x1D\x48\x32", "text below"),
    (b"\x1D\x66\x02", "text in no font"),
];

#[test]
fn bar_texts(rt: HostRuntime) {
    right(&rt, &BAR_TEXTS);
}

static CUTS: [Row; 3] = [
    (b"\x1D\x56\x30", "a full cut"),
    (b"\x1D\x56\x01", "a partial cut"),
    (b"\x1D\x56\x42\x05", "5 dots and a partial cut"),
];

#[test]
fn cuts(rt: HostRuntime) {
    right(&rt, &CUTS);
}

static IMAGES: [Row; 3] = [
    (b"\x1B\x2A\x21\x02\x01", "258 columns of 24 narrow dots"),
    (
        b"\x1D\x76\x30\x31\x02\x01\x03\x01",
        "259 rows of 258 bytes, twice as wide",
    ),
    (
        b"\x1D\x76\x30\x05\x02\x01\x03\x01",
        "259 rows of 258 bytes, and a 5 that is no scale",
    ),
];

#[test]
fn images(rt: HostRuntime) {
    right(&rt, &IMAGES);
}

static BAR_CODES: [Row; 4] = [
    (b"\x1D\x6B\x02\x31\x00", "2 for EAN-13"),
    (b"\x1D\x6B\x45\x01\x31", "69 for Code 39"),
    (b"\x1D\x6B\x49\x01\x31", "73 for Code 128"),
    (b"\x1D\x6B\x41\x01\x31", "65 for no bar code"),
];

#[test]
fn bar_codes(rt: HostRuntime) {
    right(&rt, &BAR_CODES);
}

static WHOLE_BAR_CODES: [Row; 16] = [
    (b"\x1D\x6B\x00\x31\x00", "UPC-A"),
    (b"\x1D\x6B\x01\x31\x00", "UPC-E"),
    (b"\x1D\x6B\x02\x31\x00", "2 for EAN-13"),
    (b"\x1D\x6B\x03\x31\x00", "EAN-8"),
    (b"\x1D\x6B\x05\x31\x00", "2 of 5"),
    (b"\x1D\x6B\x06\x31\x00", "Codabar"),
    (b"\x1D\x6B\x41\x01\x31", "UPC-A"),
    (b"\x1D\x6B\x42\x01\x31", "UPC-E"),
    (b"\x1D\x6B\x44\x01\x31", "EAN-8"),
    (b"\x1D\x6B\x45\x01\x31", "69 for Code 39"),
    (b"\x1D\x6B\x46\x01\x31", "2 of 5"),
    (b"\x1D\x6B\x47\x01\x31", "Codabar"),
    (b"\x1D\x6B\x48\x01\x31", "Code 93"),
    (b"\x1D\x6B\x49\x01\x31", "73 for Code 128"),
    (b"\x1D\x6B\x4A\x01\x31", "no bar code"),
    (b"\x1D\x6B\x4F\x01\x31", "no bar code"),
];

#[test]
fn bar_codes_of_the_whole_language(rt: HostRuntime) {
    right_by(&rt, Reading::Whole, &WHOLE_BAR_CODES);
}

static QR_VALUES: [Row; 3] = [
    (b"\x1D\x28\x6B\x04\x00\x31\x41\x32\x00", "model 2"),
    (b"\x1D\x28\x6B\x03\x00\x31\x45\x32", "level Q"),
    (b"\x1D\x28\x6B\x03\x01\x31\x50\x30", "256 bytes to store"),
];

#[test]
fn qr_values(rt: HostRuntime) {
    right(&rt, &QR_VALUES);
}
