//! The bar code of a command, in its box.
ghost use Rattle.std.specs.Prelude.{◌≡◌, ◌≤◌, ◌<◌, ◌-◌, ℕ, true, OnOk, IfOk, IfErr, None, Some};
ghost use Rattle.vp_glyph.specs.Sheets.{Sheets as Given};
ghost use Rattle.vp_bars.specs.Boxes.{box_width, box_height, box_dot};
ghost use Rattle.vp_strips.specs.SymbolInks.{box_of};
ghost use Rattle.vp_receipt_settings.specs.Symbols.{IsFitBars, bars_of, bars_refusal, bars_image, box_image};

use vp_bars::{BarBox, BarCode, Bars, HriPosition, alike_rows, linear};
use vp_dots::{Fault, Ink, Small, Why};
use vp_glyph::{Font, Sheets};
use vp_receipt_settings::BarStyle;

/// Bars that are put out, and how they are drawn.
#[derive(Drop)]
pub struct BarSymbol {
    pub bars: Bars,
    pub narrow: u16,
    pub wide: u16,
    pub height: u16,
    pub font: Font,
    pub place: HriPosition,
}

impl BarSymbol {
    /// The bars in their box.
    pub fn boxed<'a, A: Small>(&'a self, sheets: &'a Sheets<A>) -> BarBox<'a, A>
        ensures { record {
          bars = result.bars.now;
          narrow = result.narrow;
          wide = result.wide;
          height = result.height;
          sheets = result.sheets.now;
          font = result.font;
          place = result.place;
        } ≡
            box_of sheets.now self.now }
    {
        self.bars.boxed(
            self.narrow,
            self.wide,
            self.height,
            sheets,
            self.font,
            self.place,
        )
    }

    /// The first and the last of the rows around row y that are known to have its dots.
    pub fn alike(&self, y: u32) -> (u32, u32)
        ensures first { result.0 ≤ y }
        ensures last { y ≤ result.1 }
        ensures same { (sheets : Given) (x v : ℕ) → result.0 ≤ v → v ≤ result.1 →
            box_dot (box_of sheets self.now) x v ≡ box_dot (box_of sheets self.now) x y }
    {
        alike_rows(self.place, self.font, self.height, y)
    }

    /// How wide and high the box is.
    pub fn size<A: Small>(&self, sheets: &Sheets<A>) -> (u32, u32)
        ensures width { result.0 ≡ box_width (box_of sheets.now self.now) }
        ensures height { result.1 ≡ box_height (box_of sheets.now self.now) }
    {
        self.boxed(sheets).size()
    }
}

/// The bars of a command, or why it has none.
fn bars_of(code: Option<BarCode>, bytes: &[u8], more: bool) -> Result<Bars, Fault>
    ensures { result ≡ bars_of code bytes.now more }
{
    let Some(code) = code else {
        return Err(Fault::Symbol(Why::Unsupported));
    };
    if more {
        return Err(Fault::SymbolTooLong);
    }
    linear(code, bytes)
}

/// The bars of a command as they are drawn, if the line has room for them.
///
/// Refused are, in this order: a bar code that isn't drawn (`Symbol(Unsupported)`), no bytes
/// (`Symbol(Empty)`), more than are kept (`SymbolTooLong`), what the symbol's standard refuses, and a box
/// wider than the line (`SymbolTooWide`).
pub fn bar_symbol<A: Small>(
    style: BarStyle,
    code: Option<BarCode>,
    bytes: &[u8],
    more: bool,
    length: u16,
    sheets: &Sheets<A>,
) -> Result<BarSymbol, Fault>
    requires { IsFitBars style }
    ensures accepted { OnOk result (bars_refusal sheets.now style length (bars_of code bytes.now more) ≡
        None) }
    ensures refused { IfErr result
        (λ fault. bars_refusal sheets.now style length (bars_of code bytes.now more) ≡ Some fault) }
    ensures image { IfOk result (λ b. bars_image sheets.now style (bars_of code bytes.now more) ≡
        Some (box_image (box_of sheets.now b))) }
    ensures some { IfOk result (λ b. 0 < box_height (box_of sheets.now b)) }
    ensures fits { IfOk result (λ b. box_width (box_of sheets.now b) ≤ length) }
{
    let bars = match bars_of(code, bytes, more) {
        Ok(bars) => bars,
        Err(fault) => return Err(fault),
    };
    let symbol = BarSymbol {
        bars,
        narrow: u16::from(style.module_dots),
        wide: (5 * u16::from(style.module_dots) + 1) / 2,
        height: u16::from(style.height),
        font: style.hri_font,
        place: style.hri_position,
    };
    let (wide, _) = symbol.size(sheets);
    if wide > u32::from(length) {
        return Err(Fault::SymbolTooWide);
    }
    Ok(symbol)
}
