//! What the bytes of arguments stand for.
ghost use Rattle.std.specs.Prelude.{◌≡◌, ◌<◌, ◌+◌, ◌*◌};
ghost use Rattle.vp_esc.specs.Values as spec;
ghost use Rattle.vp_esc.specs.Values.{spelled as spelled_as};

use crate::item::{
    ColumnMode, Cut, Magnification, PrintDirection, PrintMode, QrLevel, QrModel, RasterScale,
    Spelled, Underline,
};
use crate::reading::Reading;
use vp_bar_code::{BarCode, CodabarEnds, Code93Data, Code128Data, HriPosition, UpcEData};
use vp_glyph::{Alignment, Font};

/// A byte, and what it stands for.
pub fn spelled<T>(byte: u8, value: T) -> Spelled<T>
    ensures { result ≡ spelled_as byte value }
{
    Spelled { byte, value }
}

/// A number of two bytes.
pub fn word(low: u8, high: u8) -> u16
    ensures { result ≡ low + 256 * high }
{
    low as u16 + 256 * high as u16
}

/// Bit k, the lowest being 0.
pub fn bit(n: u8, k: u8) -> bool
    requires { k < 8 }
    ensures { result ≡ spec.bit n k }
{
    (n >> k) % 2 == 1
}

pub fn underline_of(n: u8) -> Option<Underline>
    ensures { result ≡ spec.underline_of n }
{
    match n {
        0 | 48 => Some(Underline::Off),
        1 | 49 => Some(Underline::OneRow),
        2 | 50 => Some(Underline::TwoRows),
        _ => None,
    }
}

pub fn font_of(n: u8) -> Option<Font>
    ensures { result ≡ spec.font_of n }
{
    match n {
        0 | 48 => Some(Font::A),
        1 | 49 => Some(Font::B),
        _ => None,
    }
}

pub fn justification_of(n: u8) -> Option<Alignment>
    ensures { result ≡ spec.justification_of n }
{
    match n {
        0 | 48 => Some(Alignment::Left),
        1 | 49 => Some(Alignment::Centre),
        2 | 50 => Some(Alignment::Right),
        _ => None,
    }
}

pub fn direction_of(n: u8) -> Option<PrintDirection>
    ensures { result ≡ spec.direction_of n }
{
    match n {
        0 | 48 => Some(PrintDirection::LeftToRight),
        1 | 49 => Some(PrintDirection::BottomToTop),
        2 | 50 => Some(PrintDirection::RightToLeft),
        3 | 51 => Some(PrintDirection::TopToBottom),
        _ => None,
    }
}

pub fn print_mode_of(n: u8) -> PrintMode
    ensures { result ≡ spec.print_mode_of n }
{
    PrintMode {
        font: if bit(n, 0) { Font::B } else { Font::A },
        emphasized: bit(n, 3),
        double_height: bit(n, 4),
        double_width: bit(n, 5),
        underlined: bit(n, 7),
    }
}

pub fn magnification_of(n: u8) -> Option<Magnification>
    ensures { result ≡ spec.magnification_of n }
{
    if bit(n, 3) || bit(n, 7) {
        return None;
    }
    Some(Magnification {
        width: 1 + n / 16 % 8,
        height: 1 + n % 8,
    })
}

pub fn hri_position_of(n: u8) -> Option<HriPosition>
    ensures { result ≡ spec.hri_position_of n }
{
    match n {
        0 | 48 => Some(HriPosition::None),
        1 | 49 => Some(HriPosition::Above),
        2 | 50 => Some(HriPosition::Below),
        3 | 51 => Some(HriPosition::Both),
        _ => None,
    }
}

pub fn is_cut(m: u8) -> bool
    ensures { result ≡ spec.is_cut m }
{
    m == 0 || m == 1 || m == 48 || m == 49
}

pub fn is_feed_cut(m: u8) -> bool
    ensures { result ≡ spec.is_feed_cut m }
{
    m == 65 || m == 66
}

pub fn is_other_cut(m: u8) -> bool
    ensures { result ≡ spec.is_other_cut m }
{
    m == 97 || m == 98 || m == 103 || m == 104
}

pub fn cut_of(m: u8) -> Cut
    ensures { result ≡ spec.cut_of m }
{
    match m {
        0 | 48 | 65 => Cut::Full,
        _ => Cut::Partial,
    }
}

pub fn is_column_mode(m: u8) -> bool
    ensures { result ≡ spec.is_column_mode m }
{
    m == 0 || m == 1 || m == 32 || m == 33
}

pub fn column_mode_of(m: u8) -> ColumnMode
    ensures { result ≡ spec.column_mode_of m }
{
    match m {
        0 => ColumnMode::Single8,
        1 => ColumnMode::Double8,
        32 => ColumnMode::Single24,
        _ => ColumnMode::Double24,
    }
}

pub fn scale_of(m: u8) -> Option<RasterScale>
    ensures { result ≡ spec.scale_of m }
{
    match m {
        0 | 48 => Some(RasterScale::Normal),
        1 | 49 => Some(RasterScale::DoubleWidth),
        2 | 50 => Some(RasterScale::DoubleHeight),
        3 | 51 => Some(RasterScale::Quadruple),
        _ => None,
    }
}

pub fn is_kind_to_zero(m: u8) -> bool
    ensures { result ≡ spec.is_kind_to_zero m }
{
    m <= 6
}

pub fn is_kind_counted(m: u8) -> bool
    ensures { result ≡ spec.is_kind_counted m }
{
    65 <= m && m <= 73
}

pub fn is_added_kind(m: u8) -> bool
    ensures { result ≡ spec.is_added_kind m }
{
    74 <= m && m <= 79
}

/// The bar code that GS k draws by this kind, if there is one.
pub fn bar_code_of(reading: Reading, m: u8) -> Option<BarCode>
    ensures { result ≡ spec.bar_code_of reading m }
{
    match profile_bar_code(m) {
        None => match reading {
            Reading::Profile => None,
            Reading::Whole => added_bar_code(m),
        },
        known => known,
    }
}

fn profile_bar_code(m: u8) -> Option<BarCode>
    ensures { result ≡ spec.profile_bar_code m }
{
    match m {
        2 | 67 => Some(BarCode::Ean13 { padded: false }),
        4 | 69 => Some(BarCode::Code39 { check: false }),
        73 => Some(BarCode::Code128 {
            data: Code128Data::Escapes,
        }),
        _ => None,
    }
}

/// The bar code that the whole language adds for this kind.
fn added_bar_code(m: u8) -> Option<BarCode>
    ensures { result ≡ spec.added_bar_code m }
{
    match m {
        0 | 65 => Some(BarCode::UpcA { padded: false }),
        1 | 66 => Some(BarCode::UpcE {
            data: UpcEData::Digits,
        }),
        3 | 68 => Some(BarCode::Ean8 { padded: false }),
        5 | 70 => Some(BarCode::Interleaved { check: false }),
        6 | 71 => Some(BarCode::Codabar {
            ends: CodabarEnds::Data,
        }),
        72 => Some(BarCode::Code93 {
            data: Code93Data::Ascii,
        }),
        _ => None,
    }
}

pub fn qr_model_of(n: u8) -> Option<QrModel>
    ensures { result ≡ spec.qr_model_of n }
{
    match n {
        49 => Some(QrModel::One),
        50 => Some(QrModel::Two),
        51 => Some(QrModel::Micro),
        _ => None,
    }
}

pub fn qr_level_of(n: u8) -> Option<QrLevel>
    ensures { result ≡ spec.qr_level_of n }
{
    match n {
        48 => Some(QrLevel::L),
        49 => Some(QrLevel::M),
        50 => Some(QrLevel::Q),
        51 => Some(QrLevel::H),
        _ => None,
    }
}
