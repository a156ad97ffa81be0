//! The symbol of bytes.

ghost use Rattle.std.specs.Prelude.{◌≡◌, ◌+◌, ◌-◌, ◌*◌, ◌/◌, ◌%◌, ◌<◌, ◌≤◌, OnOk, IfOk, IfErr, Some, None};
ghost use Rattle.vp_pdf417.specs.Sizes.{IsSound};
ghost use Rattle.vp_pdf417.specs.Modules.{said, left, right, codeword_at, parts, across, part, module_of};
ghost use Rattle.vp_pdf417.specs.Encoding.{refusal, Encodes};

use crate::codewords::codewords;
use crate::message::message;
use crate::pattern::pattern;
use crate::size::{Asked, Size};
use crate::words::Held;
use std::marker::Model;

/// Why bytes have no symbol.
#[derive(Clone, Copy, Debug, PartialEq, Eq)]
pub enum Refusal {
    /// There are none.
    Empty,
    /// There is no such error correction level.
    Level,
    /// They and the check codewords are more than any symbol holds.
    TooLong,
    /// The columns and rows that are asked for don't hold them.
    Shape,
}

/// A PDF417 symbol.
#[derive(Drop)]
pub struct Pdf417 {
    size: Size,
    words: Held,
}

impl Model for Pdf417 {
    ghost use Rattle.std.specs.Prelude.{◌≡◌, ◌*◌, length};
    ghost use Rattle.vp_reed_solomon.specs.declared.field.Field.TheVariants.{Gf929};
    ghost use Rattle.vp_reed_solomon.specs.Fields.{AreElements};
    ghost use Rattle.vp_pdf417.specs.Sizes.{IsSound};
    ghost use Rattle.vp_pdf417.specs.Encoding.{Pdf417Symbol};

    ghost Value = { Pdf417Symbol };

    ghost view = { λ s. record { size = s.size; words = s.words.items } };

    ghost invariant = { λ s. record {
      sound : IsSound s.size;
      long : length s.words.items ≡ s.size.columns * s.size.rows;
      elements : AreElements Gf929 s.words.items;
    } };
}

/// What a row indicator says: the row's number, and the rows, the level and the rows, or the columns.
fn said(size: Size, row: usize, k: usize) -> u16
    requires sound { IsSound size }
    requires row { row < size.rows }
    ensures word { result ≡ said size row k }
    ensures small { result < 929 }
{
    let rest = match k {
        0 => (size.rows - 1) / 3,
        1 => 3 * size.level + (size.rows - 1) % 3,
        _ => size.columns - 1,
    };
    (30 * (row / 3) + rest) as u16
}

/// Parts of 17 modules in a row.
fn parts(size: Size) -> usize
    requires { IsSound size }
    ensures { result ≡ parts size }
{
    size.columns + if size.compact { 2 } else { 4 }
}

impl Pdf417 {
    /// The size.
    pub fn size(&self) -> Size
        ensures size { result ≡ self.now.size }
        ensures sound { IsSound result }
    {
        self.size
    }

    /// Parts of 17 modules in a row. Behind them is one dark module more.
    pub fn parts(&self) -> usize
        ensures parts { result ≡ parts self.now.size }
        ensures most { result ≤ 34 }
    {
        parts(self.size)
    }

    /// Modules in a row.
    pub fn across(&self) -> usize
        ensures across { result ≡ across self.now.size }
        ensures most { result ≤ 579 }
    {
        17 * parts(self.size) + 1
    }

    /// Codeword number `k` of a row, the left indicator's being 0.
    #[tactic(auto, unfolding(crate::specs::Modules::codeword_at))]
    fn codeword_at(&self, row: usize, k: usize) -> u16
        requires row { row < self.now.size.rows }
        ensures word { result ≡ codeword_at self.now.size self.now.words row k }
        ensures small { result < 929 }
    {
        if k == 0 {
            return said(self.size, row, row % 3);
        }
        if k <= self.size.columns {
            return self.words[row * self.size.columns + (k - 1)];
        }
        said(self.size, row, (row + 2) % 3)
    }

    /// Part number `k` of a row: 17 modules, the leftmost highest.
    #[tactic(auto, unfolding(crate::specs::Modules::part))]
    pub fn part(&self, row: usize, k: usize) -> u32
        requires row { row < self.now.size.rows }
        ensures { result ≡ part self.now.size self.now.words row k }
    {
        if k == 0 {
            return 0x1fea8;
        }
        if k == self.size.columns + 3 {
            return 0x1fd14;
        }
        pattern(row, self.codeword_at(row, k - 1))
    }

    /// Whether module `x` of a row is dark.
    #[tactic(auto, unfolding(crate::specs::Modules::module_of))]
    pub fn is_dark(&self, row: usize, x: usize) -> bool
        requires row { row < self.now.size.rows }
        ensures { result ≡ module_of self.now.size self.now.words row x }
    {
        if x / 17 == parts(self.size) {
            return true;
        }
        self.part(row, x / 17) >> (16 - x % 17) & 1 == 1
    }
}

/// The symbol of bytes (ISO/IEC 15438), in the columns, rows and error correction level that are asked for:
/// the fewest columns that have room, the fewest rows, and the level that is recommended where they aren't.
///
/// Bytes without a symbol are refused: none at all, those for which there is no such level, too many for any
/// symbol, or too many for the columns and rows, in this order.
pub fn encode(src: &[u8], asked: Asked) -> Result<Pdf417, Refusal>
    ensures accepted { OnOk result (refusal asked src.now ≡ None) }
    ensures refused { IfErr result (λ why. refusal asked src.now ≡ Some why) }
    ensures symbol { IfOk result (Encodes asked src.now) }
{
    if src.is_empty() {
        return Err(Refusal::Empty);
    }
    if asked.level.unwrap_or(0) > 8 {
        return Err(Refusal::Level);
    }
    let words = message(src);
    let Some(all) = words.all() else {
        return Err(Refusal::TooLong);
    };
    let count = all.len() + 1;
    if !asked.has_room(count) {
        return Err(Refusal::TooLong);
    }
    let Some(size) = asked.size_for(count) else {
        return Err(Refusal::Shape);
    };
    Ok(Pdf417 {
        size,
        words: codewords(size, all),
    })
}
