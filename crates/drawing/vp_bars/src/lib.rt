//! Linear symbols, exact to the module: Code 39 (ISO/IEC 16388), EAN-13, EAN-8, UPC-A, UPC-E and their
//! add-ons (ISO/IEC 15420), Code 128 (ISO/IEC 15417), Interleaved 2 of 5 (ISO/IEC 16390), Codabar (EN 798),
//! Code 93 (AIM BC5), Code 11 and MSI.
//!
//! `code39`, `ean13`, `code128_esc`, `code128_zpl` and the others make the symbol of some bytes, or say why
//! there is none; `linear` makes that of any bar code that a command may ask for. `Bars` is such a symbol:
//! the values of its characters, and its text. `Bars::boxed` puts bars and text into a `BarBox`, which is an
//! `Ink`.
//!
//! - `bars`: a symbol. `symbology`: the kinds of them, and all in which they differ behind their data.
//! - `code_39`, `ean_13`: the symbols of characters and of digits.
//! - `interleaved`, `codabar`, `code_11`, `msi`, `code_93`: those of other characters, with their tables.
//!   `signs` has signs and their values, `checks` the sums of check characters.
//! - `ean_8`, `upc_a`, `upc_e`, `add_on`: those of digits and guards, whose characters `upc` knows.
//! - `code_128`: code sets, tokens of data, and the symbol of values. `escapes` reads the data of a
//!   receipt, `invocations` and `packing` those of a label.
//! - `text`: what the values of a symbol show.
//! - `patterns`: the tables of bars and spaces. `laws` says what holds of them as a whole, and of data.
//! - `pen`, `strokes`: the bars of a row, drawn from the left in one pass, a character at a time.
//! - `bar_box`: bars and text together.
#![tactic(auto)]

mod add_on;
mod bar_box;
mod bars;
mod checks;
mod codabar;
mod code_11;
mod code_128;
mod code_39;
mod code_93;
mod ean_13;
mod ean_8;
mod escapes;
mod interleaved;
mod invocations;
mod laws;
mod msi;
mod packing;
mod patterns;
mod pen;
mod signs;
mod strokes;
mod symbology;
mod text;
mod upc;
mod upc_a;
mod upc_e;

pub use add_on::addon;
pub use bar_box::{BarBox, alike_rows};
pub use bars::{Bars, DATA_BYTES};
pub use codabar::codabar_symbol;
pub use code_11::code11;
pub use code_39::code39;
pub use code_93::code93;
pub use ean_8::ean8;
pub use ean_13::ean13;
pub use escapes::code128_esc;
pub use interleaved::interleaved_symbol;
pub use laws::{
    code39_patterns_law, code39_text_law, code93_patterns_law, code128_patterns_law,
    data_are_counted, ean13_patterns_law, ean13_text_law, interleaved_patterns_law,
    packed_text_law, padded_law, set_b_text_law, signs_text_law, upc_sets_law, upce_law,
    wide_patterns_law,
};
pub use msi::msi_symbol;
pub use packing::code128_zpl;
pub use symbology::{Symbology, linear};
pub use upc_a::upca;
pub use upc_e::upce;
pub use vp_bar_code::{
    BarCode, CodabarEnd, CodabarEnds, Code11Checks, Code93Data, Code128Data, HriPosition,
    MsiChecks, UpcEData,
};
