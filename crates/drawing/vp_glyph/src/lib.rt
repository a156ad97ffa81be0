//! Glyph sheets, and every character drawn from them.
//!
//! A sheet is an image in raw PBM (netpbm, pbm(5)) of 16 by 16 cells, that of character c in column c mod
//! 16 of row c div 16. `Sheets` has those of the two fonts, as far as there are any, and gives what is
//! drawn from them, each an `Ink`: `cell` a receipt's character, `sampled` a label's, `block` a label's
//! text in lines.
//!
//! - `header`, `sheet`: the file and its refusals, and the dots of its cells.
//! - `cell`, `look`: a character in a font and a style, dot by dot and as the words of its rows.
//! - `sampled`, `stretch`: a character at any size, which of several side by side can be seen on a row, and
//!   the dots of its rows as a word.
//! - `text`: characters side by side.
//! - `lines`, `block`: a text broken into lines, and the lines below each other.
//! - `fronts`, `joined`, `kept`: the first dots of many of their rows at once, lines over each other, and
//!   lines that aren't drawn again.
//! - `rows`, `runs`: all dots of the rows of a band, what many of them have alike kept once.
#![tactic(auto)]

ghost use Rattle.std.specs.Prelude.{◌≡◌, ◌<◌, ◌≤◌, ◌^◌, ◌≤ℤ◌, pos};
ghost use Rattle.vp_glyph.specs.Blocks.{pitch};
ghost use Rattle.vp_glyph.specs.Memory.{sheets_memory};

mod block;
mod cell;
mod fronts;
mod header;
mod joined;
mod kept;
mod lines;
mod look;
mod rows;
mod runs;
mod sampled;
mod sheet;
mod stretch;
mod text;

use crate::sheet::memory_in;
pub use block::{Alignment, Block};
pub use cell::{Cell, Filled, Font, Style};
pub use header::header_law;
pub use lines::lines_law;
pub use look::{doubled_rows, widened_rows};
pub use rows::DrawnRows;
pub use runs::{BYTES, ROWS};
pub use sampled::{Sampled, seen};
pub use sheet::{Sheet, SheetError};
use std::alloc::Global;
use std::marker::Model;
pub use stretch::Stretch;
pub use text::paint_text;
use vp_dots::Small;

/// The sheets of the two fonts, as far as there are any.
#[derive(Drop)]
pub struct Sheets<A: Small = Global> {
    /// Font A's, with cells of 12 by 24 dots. What has another size is drawn from it too.
    pub a: Option<Sheet<A>>,
    /// Font B's, with cells of 9 by 17 dots. Without it font B is drawn from font A's.
    pub b: Option<Sheet<A>>,
}

impl<A: Small> Model for Sheets<A> {
    ghost use Rattle.vp_glyph.specs.Sheets.{Sheets as Given};

    ghost Value = { Given };

    ghost view = { λ s. record { a = s.a; b = s.b } };
}

impl<A: Small> Sheets<A> {
    /// The bytes of memory that the sheets hold, on the heap.
    pub fn memory(&self) -> usize
        ensures value { result ≡ sheets_memory self.now }
        ensures most { result ≤ 2 ^ 20 }
    {
        memory_in(&self.a) + memory_in(&self.b)
    }

    /// A character of a font in a style, from the font's sheet: (width + spacing) * wm dots wide and height
    /// * hm high. Without a sheet its dots are white, but an underline and what is inverse are drawn.
    pub fn cell(&self, character: u8, font: Font, style: Style) -> Cell<'_, A>
        ensures sheets { result.sheets.now ≡ self.now }
        ensures character { result.character ≡ character }
        ensures font { result.font ≡ font }
        ensures style { result.style ≡ style }
    {
        Cell {
            sheets: self,
            character,
            font,
            style,
        }
    }

    /// A character drawn w by h dots, from sheet A: dot (x, y) is that at (12x / w, 24y / h) of its cell,
    /// rounded down. Without the sheet, and where w or h is 0, it has no ink.
    pub fn sampled(&self, character: u8, w: u32, h: u32) -> Sampled<'_, A>
        ensures sheet { result.sheet.now ≡ self.now.a }
        ensures character { result.character ≡ character }
        ensures w { result.w ≡ w }
        ensures h { result.h ≡ h }
    {
        let sheet = &self.a;
        Sampled {
            sheet,
            character,
            w,
            h,
        }
    }

    /// A text in lines of `wide` dots, in cells of w by h dots from sheet A, each as `sampled` draws it.
    ///
    /// In the text `\&` ends a paragraph, `\\` is one backslash, and any other byte is a cell. A
    /// paragraph that is longer than a line breaks at the line's last blank, which is dropped, or where no
    /// cell fits any more. Of the lines `rows` stand below each other with `gap` rows between them, or
    /// fewer than none where that is negative, and any further ones over the last. A block less wide than a
    /// cell has no ink.
    pub fn block<'a>(
        &'a self,
        text: &'a [u8],
        w: u32,
        h: u32,
        wide: u32,
        rows: u32,
        gap: i32,
        alignment: Alignment,
    ) -> Block<'a, A>
        requires w { 0 < w }
        requires h { h ≤ 1500 }
        requires wide { wide ≤ 32000 }
        requires rows { rows ≤ 9999 }
        requires gap { gap ≤ℤ pos 9999 }
        ensures sheet { result.sheet.now ≡ self.now.a }
        ensures text { result.text.now ≡ text.now }
        ensures w { result.w ≡ w }
        ensures h { result.h ≡ h }
        ensures wide { result.wide ≡ wide }
        ensures rows { result.rows ≡ rows }
        ensures pitch { result.pitch ≡ pitch h gap }
        ensures alignment { result.alignment ≡ alignment }
        ensures passed { result.passed ≡ 0 }
        ensures walked { result.walked ≡ 0 }
    {
        Block {
            sheet: &self.a,
            text,
            w,
            h,
            stretch: Stretch::new(w),
            wide,
            rows,
            pitch: block::pitch(h, gap),
            alignment,
            passed: 0,
            rest: text,
            walked: 0,
        }
    }
}
