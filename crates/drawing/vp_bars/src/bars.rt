//! A symbol: the values of its characters.

ghost use Rattle.std.specs.Prelude.{◌≡◌, ◌+◌, ◌≤◌, ◌<◌, ◌^◌, ◌++◌, length, Result, OnOk, IfErr};
ghost use Rattle.vp_dots.specs.declared.fault.Fault.{Fault};
ghost use Rattle.vp_bars.specs.Symbols.{Linear, within_length};

use crate::pen::Pen;
use crate::strokes::Strokes;
use crate::symbology::{Symbology, regular, regular_width, text_of as text_in};
use arrayvec::ArrayVec;
use std::marker::Model;
use vp_dots::{Fault, Op, Why};

/// The most bytes of data that a symbol is made of.
pub const DATA_BYTES: usize = 255;

/// A linear symbol: the values of its characters, at most 258, of 0 to 106, and its text, which is made once.
#[derive(Drop)]
pub struct Bars {
    symbology: Symbology,
    values: ArrayVec<u8, 258>,
    regular: usize,
    text: ArrayVec<u8, 512>,
}

impl Model for Bars {
    ghost use Rattle.std.specs.Prelude.{◌≡◌};
    ghost use Rattle.vp_bars.specs.Regular.{AreRegular};
    ghost use Rattle.vp_bars.specs.Symbols.{Linear};
    ghost use Rattle.vp_bars.specs.Symbologies.{text_of_values};

    ghost Value = { Linear };

    ghost view = { λ b. record { symbology = b.symbology; values = b.values.items } };

    ghost invariant = { λ b. AreRegular b.symbology b.regular b.values.items
        × b.text.items ≡ text_of_values b.symbology b.values.items };
}

impl Bars {
    ghost use Rattle.vp_bars.specs.Symbologies.{text_of, most_values};
    ghost use Rattle.vp_bars.specs.Widths.{bars_width};

    /// The symbol of these values.
    pub(crate) fn new(symbology: Symbology, values: ArrayVec<u8, 258>) -> Self
        requires { length values.items ≤ most_values symbology }
        ensures { result ≡ record { symbology = symbology; values = values.items } }
    {
        let regular = regular(symbology, values.as_slice());
        let text = text_in(symbology, values.as_slice());
        Bars {
            symbology,
            values,
            regular,
            text,
        }
    }

    /// The kind of symbol.
    pub fn symbology(&self) -> Symbology
        ensures { result ≡ self.now.symbology }
    {
        self.symbology
    }

    /// The values of its characters from the left, as the standard's tables have them: those of Code 39,
    /// Code 128 and Codabar with start, check and stop, the thirteen digits of EAN-13, those of EAN-8, UPC
    /// and add-ons with their guards, and of the others data and check, of Interleaved 2 of 5 two digits
    /// each.
    pub fn symbols(&self) -> &[u8]
        ensures values { result.now ≡ self.now.values }
        ensures most { length result.now ≤ 258 }
    {
        self.values.as_slice()
    }

    /// Its bars, with narrow and wide elements of so many dots.
    pub(crate) fn strokes(&self, narrow: u16, wide: u16) -> Strokes<'_>
        ensures symbology { result.symbology ≡ self.now.symbology }
        ensures values { result.values.now ≡ self.now.values }
        ensures few { length self.now.values ≤ 258 }
        ensures narrow { result.narrow ≡ narrow }
        ensures wide { result.wide ≡ wide }
    {
        Strokes {
            symbology: self.symbology,
            values: self.values.as_slice(),
            regular: self.regular,
            narrow,
            wide,
            alike_width: regular_width(self.symbology, narrow, wide),
        }
    }

    /// How wide its bars are.
    pub(crate) fn width(&self, narrow: u16, wide: u16) -> u32
        ensures width { result ≡ bars_width self.now narrow wide }
        ensures small { result < 2 ^ 30 }
    {
        let strokes = self.strokes(narrow, wide);
        match self.symbology {
            Symbology::Code39 | Symbology::Code128 | Symbology::Codabar => {
                strokes.characters_width()
            }
            _ => {
                let pen = Pen { x: 0, bar: true };
                let (end, _) = strokes.draw_bars(pen, Op::Black, 0, &mut []);
                end.x
            }
        }
    }

    /// Its text, a byte a character: data and check of Code 39 without the stars, the thirteen digits of
    /// EAN-13, or what the data of Code 128 show, a byte for a value of set A or B, two digits for one of
    /// set C, and nothing for a function character. Of the others it is data and check, of Codabar with start
    /// and stop, of Code 93 without the check.
    pub fn text(&self) -> ArrayVec<u8, 512>
        ensures { result.items ≡ text_of self.now }
    {
        let mut text = ArrayVec::new();
        let _ = text.try_extend_from_slice(self.shown());
        text
    }

    /// Its text, as it is kept.
    #[tactic(auto, unfolding(crate::specs::Symbologies::text_of))]
    pub(crate) fn shown(&self) -> &[u8]
        ensures text { result.now ≡ text_of self.now }
        ensures few { length result.now ≤ 512 }
    {
        self.text.as_slice()
    }
}

/// Refuses no data, and more data than any symbol has.
pub(crate) fn check_length(src: &[u8]) -> Result<(), Fault>
    ensures some { OnOk result (1 ≤ length src.now) }
    ensures few { OnOk result (length src.now ≤ DATA_BYTES) }
    ensures stands { OnOk result ((r : Result Linear Fault) → within_length src.now r ≡ r) }
    ensures refused { IfErr result (λ f. (r : Result Linear Fault) → within_length src.now r ≡ Err f) }
{
    if src.is_empty() {
        return Err(Fault::Symbol(Why::Empty));
    }
    if src.len() > DATA_BYTES {
        return Err(Fault::SymbolTooLong);
    }
    Ok(())
}

/// Appends values.
pub(crate) fn extend(values: &mut ArrayVec<u8, 258>, more: &[u8])
    requires { length values.old.items + length more.now ≤ 258 }
    ensures items { values.new.items ≡ values.old.items ++ more.now }
    ensures len { length values.new.items ≡ length values.old.items + length more.now }
{
    let _ = values.try_extend_from_slice(more);
}
