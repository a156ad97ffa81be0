//! The kinds of symbols, and all in which one is drawn otherwise than another.

ghost use Rattle.std.specs.Prelude.{◌≡◌, ◌≤◌, ◌^◌, ◌<◌, length};
ghost use Rattle.vp_bars.specs.Regular.{is_regular as is_regular_in, regular_width as width_of_regular, AreRegular};
ghost use Rattle.vp_bars.specs.Symbologies.{symbol_of, pattern_of as pattern_for, gap_of as gap_for, start_of as start_for, stop_of as stop_for, two_sizes, size_of as size_for, text_of_values, most_values};

use crate::add_on::addon;
use crate::bars::Bars;
use crate::codabar::{CODABAR_SIGNS, codabar_pattern, codabar_symbol};
use crate::code_11::{CODE11_SIGNS, code11, code11_pattern};
use crate::code_39::code39;
use crate::code_93::{code93, code93_pattern, shown_ascii, shown_signs};
use crate::ean_8::ean8;
use crate::ean_13::ean13;
use crate::escapes::code128_esc;
use crate::interleaved::{interleaved_symbol, pair_elements, shown_pairs};
use crate::msi::{msi_pattern, msi_symbol};
use crate::packing::code128_zpl;
use crate::patterns::{code39_pattern, code128_pattern, set_a};
use crate::signs::{DIGITS, signs_of};
use crate::text::{characters, shown_data};
use crate::upc::{shown_digits, upc_pattern};
use crate::upc_a::upca;
use crate::upc_e::upce;
use arrayvec::ArrayVec;
use vp_bar_code::{BarCode, Code128Data};
use vp_dots::Fault;

/// The kinds of linear symbols: first those of narrow and wide elements, of which the last three have a gap
/// between characters, and then those of modules.
#[derive(Clone, Copy, Debug, PartialEq, Eq)]
pub enum Symbology {
    /// ISO/IEC 16390.
    Interleaved,
    Msi,
    /// ISO/IEC 16388.
    Code39,
    /// EN 798.
    Codabar,
    Code11,
    /// ISO/IEC 15417.
    Code128,
    /// AIM BC5.
    Code93,
    /// AIM BC5, of which the text is the characters of ASCII that shifts and letters stand for.
    Code93Ascii,
    /// ISO/IEC 15420, as the four that follow.
    Ean13,
    Ean8,
    UpcA,
    UpcE,
    AddOn,
}

/// The symbol of the data of a bar code, or why there is none, as the function of its kind says.
pub fn linear(code: BarCode, bytes: &[u8]) -> Result<Bars, Fault>
    ensures { result ≡ symbol_of code bytes.now }
{
    match code {
        BarCode::Code39 { check } => code39(bytes, check),
        BarCode::Ean13 { padded } => ean13(bytes, padded),
        BarCode::Code128 {
            data: Code128Data::Escapes,
        } => code128_esc(bytes),
        BarCode::Code128 {
            data: Code128Data::Invocations,
        } => code128_zpl(bytes, false),
        BarCode::Code128 {
            data: Code128Data::Packed,
        } => code128_zpl(bytes, true),
        BarCode::Interleaved { check } => interleaved_symbol(bytes, check),
        BarCode::Codabar { ends } => codabar_symbol(bytes, ends),
        BarCode::Code11 { checks } => code11(bytes, checks),
        BarCode::Msi { checks } => msi_symbol(bytes, checks),
        BarCode::Ean8 { padded } => ean8(bytes, padded),
        BarCode::UpcA { padded } => upca(bytes, padded),
        BarCode::UpcE { data } => upce(bytes, data),
        BarCode::AddOn { padded } => addon(bytes, padded),
        BarCode::Code93 { data } => code93(bytes, data),
    }
}

/// The elements of a character.
#[inline(always)]
pub(crate) fn pattern_of(symbology: Symbology, v: u8) -> &'static [u8]
    ensures { result.now ≡ pattern_for symbology v }
{
    match symbology {
        Symbology::Code39 => code39_pattern(v),
        Symbology::Ean13 => set_a(v),
        Symbology::Code128 => code128_pattern(v),
        Symbology::Interleaved => pair_elements(v),
        Symbology::Codabar => codabar_pattern(v),
        Symbology::Code11 => code11_pattern(v),
        Symbology::Msi => msi_pattern(v),
        Symbology::Code93 | Symbology::Code93Ascii => code93_pattern(v),
        Symbology::Ean8 | Symbology::UpcA | Symbology::UpcE | Symbology::AddOn => upc_pattern(v),
    }
}

/// The elements between two characters.
pub(crate) fn gap_of(symbology: Symbology) -> &'static [u8]
    ensures { result.now ≡ gap_for symbology }
{
    match symbology {
        Symbology::Code39 | Symbology::Codabar | Symbology::Code11 => &[0],
        _ => &[],
    }
}

/// The elements before the first character, where they are no value's.
pub(crate) fn start_of(symbology: Symbology) -> &'static [u8]
    ensures { result.now ≡ start_for symbology }
{
    match symbology {
        Symbology::Interleaved => &[0, 0, 0, 0],
        Symbology::Code11 => &[0, 0, 1, 1, 0],
        Symbology::Msi => &[1, 0],
        Symbology::Code93 | Symbology::Code93Ascii => &[1, 1, 1, 1, 4, 1],
        _ => &[],
    }
}

/// The elements behind the last character, where they are no value's.
pub(crate) fn stop_of(symbology: Symbology) -> &'static [u8]
    ensures { result.now ≡ stop_for symbology }
{
    match symbology {
        Symbology::Interleaved => &[1, 0, 0],
        Symbology::Code11 => &[0, 0, 0, 1, 1, 0],
        Symbology::Msi => &[0, 1, 0],
        Symbology::Code93 | Symbology::Code93Ascii => &[1, 1, 1, 1, 4, 1, 1],
        _ => &[],
    }
}

/// How wide an element is that is narrow or wide.
#[inline(always)]
fn narrow_or_wide(narrow: u16, wide: u16, element: u8) -> u32
    ensures { result ≡ two_sizes narrow wide element }
{
    if element == 1 {
        return u32::from(wide);
    }
    u32::from(narrow)
}

/// How wide an element is.
#[inline(always)]
pub(crate) fn size_of(symbology: Symbology, narrow: u16, wide: u16, element: u8) -> u32
    ensures { result ≡ size_for symbology narrow wide element }
{
    match symbology {
        Symbology::Ean13
        | Symbology::Code128
        | Symbology::Ean8
        | Symbology::UpcA
        | Symbology::UpcE
        | Symbology::AddOn
        | Symbology::Code93
        | Symbology::Code93Ascii => u32::from(element) * u32::from(narrow),
        Symbology::Code39
        | Symbology::Interleaved
        | Symbology::Codabar
        | Symbology::Code11
        | Symbology::Msi => narrow_or_wide(narrow, wide, element),
    }
}

/// Whether a character is one of those that are alike wide in its symbology.
#[inline(always)]
pub(crate) fn is_regular(symbology: Symbology, v: u8) -> bool
    ensures { result ≡ is_regular_in symbology v }
{
    match symbology {
        Symbology::Code39 => v < 44,
        Symbology::Ean13 => v < 10,
        Symbology::Code128 => v < 106,
        Symbology::Interleaved => v < 100,
        Symbology::Msi => v < 10,
        Symbology::Code93 | Symbology::Code93Ascii => v < 47,
        _ => false,
    }
}

/// How many characters are so, from the first on.
pub(crate) fn regular(symbology: Symbology, values: &[u8]) -> usize
    ensures { AreRegular symbology result values.now }
{
    for (i, v) in values.iter().enumerate() {
        if !is_regular(symbology, *v) {
            return i;
        }
    }
    values.len()
}

/// How wide each of them is.
pub(crate) fn regular_width(symbology: Symbology, narrow: u16, wide: u16) -> u32
    ensures width { result ≡ width_of_regular symbology narrow wide }
    ensures small { result < 2 ^ 20 }
{
    let (narrow, wide) = (u32::from(narrow), u32::from(wide));
    match symbology {
        Symbology::Code39 => 6 * narrow + 3 * wide,
        Symbology::Ean13 => 7 * narrow,
        Symbology::Code128 => 11 * narrow,
        Symbology::Interleaved => 6 * narrow + 4 * wide,
        Symbology::Msi => 4 * narrow + 4 * wide,
        Symbology::Code93 | Symbology::Code93Ascii => 9 * narrow,
        _ => 0,
    }
}

/// What values show.
pub(crate) fn text_of(symbology: Symbology, values: &[u8]) -> ArrayVec<u8, 512>
    requires { length values.now ≤ most_values symbology }
    ensures { result.items ≡ text_of_values symbology values.now }
{
    match symbology {
        Symbology::Code39 | Symbology::Ean13 => characters(values),
        Symbology::Code128 => shown_data(values),
        Symbology::Interleaved => shown_pairs(values),
        Symbology::Codabar => signs_of(CODABAR_SIGNS, values),
        Symbology::Code11 => signs_of(CODE11_SIGNS, values),
        Symbology::Msi => signs_of(DIGITS, values),
        Symbology::Code93 => shown_signs(values),
        Symbology::Code93Ascii => shown_ascii(values),
        Symbology::Ean8 | Symbology::UpcA | Symbology::UpcE | Symbology::AddOn => shown_digits(
            values,
        ),
    }
}
