//! A symbol as ink: each module a square of dots.

ghost use Rattle.std.specs.Prelude.{◌≡◌, ℕ, ◌*◌, ◌<◌, ◌≤◌};
ghost use Rattle.vp_qr.specs.Places.{size};
ghost use Rattle.vp_dots.specs.Dots.{dot, shifted};
ghost use Rattle.vp_dots.specs.Words.{word_dot};
ghost use Rattle.vp_dots.specs.declared.word.TheConstants.{NARROW};
ghost use Rattle.vp_dots.specs.Painting.{Painted};
ghost use Rattle.vp_qr.specs.Inks.{line_ink};

use crate::lines::only;
use crate::mask::is_dark;
use crate::qr::Qr;
use crate::symbol::is_dark_at;
use std::marker::Model;
use vp_dots::{Ink, NARROW, Op, first_dots, paint_into, paint_narrow};

/// The bytes of a line of the largest symbol at the largest scale, and as many more as a word is painted on.
const LINE_BYTES: usize = 120;

/// A symbol as ink, without a quiet zone: (17 + 4 * version) * scale dots in a row and in a column.
#[derive(Clone, Copy)]
pub struct QrInk {
    /// Modules in a row.
    size: u32,
    /// Dots in a row of a module.
    scale: u32,
    rows: [u64; 57],
}

impl Model for QrInk {
    ghost use Rattle.std.specs.Prelude.{◌<◌, ◌≤◌};
    ghost use Rattle.vp_qr.specs.Inks.{ScaledSymbol};

    ghost Value = { ScaledSymbol };

    ghost view = { λ s. record { size = s.size; scale = s.scale; rows = s.rows } };

    ghost inverse = { λ v. record { size = v.size; scale = v.scale; rows = v.rows } };

    ghost invariant = { λ s. record { fits : s.size ≤ 57; some : 0 < s.scale; most : s.scale ≤ 16 } };
}

impl Qr {
    /// The symbol with modules of `scale` by `scale` dots, 1 to 16.
    pub fn scaled(&self, scale: u32) -> QrInk
        requires some { 0 < scale }
        requires most { scale ≤ 16 }
        ensures size { result.size ≡ size self.now.version }
        ensures scale { result.scale ≡ scale }
        ensures rows { result.rows ≡ self.now.rows }
    {
        QrInk {
            size: 17 + 4 * self.version() as u32,
            scale,
            rows: *self.rows(),
        }
    }
}

/// The dots of the first modules of a line, as a word.
fn modules_word(line: u64, modules: u32, scale: u32) -> u64
    requires some { 0 < scale }
    requires most { scale ≤ 16 }
    requires narrow { modules * scale ≤ NARROW }
    ensures { (x : ℕ) → word_dot result x ≡ line_ink line modules scale x }
{
    let module = first_dots(scale);
    let mut word = 0;
    for column in 0..modules {
        let has = is_dark(line, column as usize);
        word |= only(has, module >> (column * scale));
    }
    word
}

/// The dots of a line of modules.
fn line_dots(line: u64, size: u32, scale: u32) -> [u8; LINE_BYTES]
    requires size { size ≤ 57 }
    requires some { 0 < scale }
    requires most { scale ≤ 16 }
    ensures { (x : ℕ) → dot result x ≡ line_ink line size scale x }
{
    let mut dots = [0; LINE_BYTES];
    let most = NARROW / scale;
    let mut column = 0;
    while column < size {
        let modules = most.min(size - column);
        let word = modules_word(line >> column, modules, scale);
        paint_narrow(Op::Black, word, (column * scale) as usize, &mut dots);
        column += modules;
    }
    dots
}

impl Ink for QrInk {
    ghost use Rattle.vp_qr.specs.Inks.{side, ink_of, no_ink_outside};

    ghost width = { λ s. side s };

    ghost height = { λ s. side s };

    ghost ink_at = { λ s x y. ink_of s x y };

    ghost outside = { λ s x y h. no_ink_outside s x y h };

    fn size(&self) -> (u32, u32) {
        let side = self.scale * self.size;
        (side, side)
    }

    fn ink(&self, x: u32, y: u32) -> bool {
        let side = self.scale * self.size;
        if x >= side {
            return false;
        }
        if y >= side {
            return false;
        }
        let row = (y / self.scale) as usize;
        let column = (x / self.scale) as usize;
        is_dark_at(&self.rows, row, column)
    }

    fn paint_row(&self, y: u32, op: Op, at: i64, row: &mut [u8]) {
        if y >= self.scale * self.size {
            return;
        }
        let line = self.rows[(y / self.scale) as usize];
        paint_line(line, self.size, self.scale, op, at, row);
    }

    fn alike(&self, y: u32) -> (u32, u32) {
        if y >= self.scale * self.size {
            return (y, y);
        }
        let first = y / self.scale * self.scale;
        (first, first + self.scale - 1)
    }
}

/// Paints a line of modules.
fn paint_line(line: u64, size: u32, scale: u32, op: Op, at: i64, row: &mut [u8])
    requires size { size ≤ 57 }
    requires some { 0 < scale }
    requires most { scale ≤ 16 }
    ensures { Painted op (shifted at (line_ink line size scale)) row.old row.new }
{
    let dots = line_dots(line, size, scale);
    paint_into(op, &dots, at, row);
}
