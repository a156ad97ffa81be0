//! A character in a font and a style.
ghost use Rattle.std.specs.Prelude.{◌≡◌, ℕ, ◌+◌, ◌*◌, ◌/◌, ◌<◌, ◌≤◌, Bool, None, MatchOption, slice_index, nat_lt, ◌&&◌, true, false};
ghost use Rattle.vp_glyph.specs.Sheets.{Sheets as Given};
ghost use Rattle.vp_dots.specs.Dots.{span};
ghost use Rattle.vp_dots.specs.Words.{word_dot, IsReady};
ghost use Rattle.vp_dots.specs.declared.TheConstants.{WORDS};
ghost use Rattle.vp_glyph.specs.Cells.{font_width, font_height, font_dot, bold_dot, cell_width, cell_height, cell_dot, cell_inside};
ghost use Rattle.vp_glyph.specs.Parts.{row_dot, filled_dot};

use crate::Sheets;
use crate::look::{emphasized, inverted, nine_of, shared};
use crate::sheet::{dot_in, ready_in, row_at, rows_in};
use std::alloc::Global;
use vp_dots::{Ink, Ready, Small, WORDS, first_dots};

/// The two fonts of a receipt printer.
#[derive(Clone, Copy, Debug, PartialEq, Eq)]
pub enum Font {
    /// 12 by 24 dots.
    A,
    /// 9 by 17 dots.
    B,
}

impl Font {
    /// The dots of a character's row.
    pub fn width(self) -> u32
        ensures { result ≡ font_width self }
    {
        match self {
            Font::A => 12,
            Font::B => 9,
        }
    }

    /// The rows of a character.
    pub fn height(self) -> u32
        ensures { result ≡ font_height self }
    {
        match self {
            Font::A => 24,
            Font::B => 17,
        }
    }
}

/// How a character is printed.
#[derive(Clone, Copy)]
pub struct Style {
    /// How often each dot stands beside itself, 1 to 8.
    pub wm: u8,
    /// How often each row stands below itself, 1 to 8.
    pub hm: u8,
    /// White dots on the right of a character, before it is magnified.
    pub spacing: u8,
    /// Each dot is black also where its left neighbour is, before it is magnified.
    pub bold: bool,
    /// How many of the lowest rows an underline fills, 0 to 2, however large the character is.
    pub underline: u8,
    /// Black and white are exchanged, also those of the spacing; there is no underline then.
    pub inverse: bool,
}

impl Style {
    /// Whether a character is printed just as it stands in its sheet.
    fn is_plain(self) -> bool
        ensures { result ≡ true → (self.wm ≡ 1) × (self.hm ≡ 1) × (self.bold ≡ false)
            × (self.underline ≡ 0) × (self.inverse ≡ false) }
    {
        self.wm == 1 && self.hm == 1 && !self.bold && self.underline == 0 && !self.inverse
    }
}

/// A character of a font in a style.
#[derive_where(Clone, Copy)]
pub struct Cell<'a, A: Small = Global> {
    pub sheets: &'a Sheets<A>,
    /// The byte, which is the number of its cell.
    pub character: u8,
    pub font: Font,
    pub style: Style,
}

/// Dots of a character that are black whatever its rows show.
#[derive(Clone, Copy)]
pub struct Filled {
    /// The first column, and how many there are.
    pub left: u32,
    pub wide: u32,
    /// The first row, and how many there are.
    pub top: u32,
    pub high: u32,
}

/// How wide a character is with its spacing.
fn width_of(font: Font, style: Style) -> u32
    ensures { result ≡ cell_width font style }
{
    (font.width() + u32::from(style.spacing)) * u32::from(style.wm)
}

/// How high a character is.
fn height_of(font: Font, style: Style) -> u32
    ensures { result ≡ cell_height font style }
{
    font.height() * u32::from(style.hm)
}

/// Where the spacing of a character stands.
fn spacing_of(font: Font, style: Style) -> Filled
    requires { style.inverse ≡ true }
    ensures dots { (x y : ℕ) → (span result.left (result.left + result.wide) x
        && span result.top (result.top + result.high) y) ≡ filled_dot font style x y }
    ensures rows { result.top + result.high ≤ cell_height font style }
{
    let wm = u32::from(style.wm);
    Filled {
        left: font.width() * wm,
        wide: u32::from(style.spacing) * wm,
        top: 0,
        high: height_of(font, style),
    }
}

/// Where the underline of a character stands.
fn underline_of(font: Font, style: Style) -> Filled
    requires { style.inverse ≡ false }
    ensures dots { (x y : ℕ) → (span result.left (result.left + result.wide) x
        && span result.top (result.top + result.high) y) ≡ filled_dot font style x y }
    ensures rows { result.top + result.high ≤ cell_height font style }
{
    let height = height_of(font, style);
    let top = height.saturating_sub(u32::from(style.underline));
    Filled {
        left: 0,
        wide: width_of(font, style),
        top,
        high: height - top,
    }
}

/// The row of a character in its font that stands on a row of the magnified one.
fn row_behind(y: u32, font: Font, style: Style) -> u32
    requires { y < cell_height font style }
    ensures row { result ≡ y / style.hm }
    ensures within { result < font_height font }
{
    match style.hm {
        1 => y,
        2 => y / 2,
        hm => y / u32::from(hm),
    }
}

impl<A: Small> Cell<'_, A> {
    /// A dot of the character in its font.
    fn font_dot(&self, x: u32, y: u32) -> bool
        requires x { x < font_width self.now.font }
        requires y { y < font_height self.now.font }
        ensures { result ≡ font_dot self.now.sheets.now self.now.character self.now.font x y }
    {
        let sheets = self.sheets;
        match (self.font, &sheets.b) {
            (Font::B, Some(b)) => b.dot(self.character, x, y),
            (Font::B, None) => dot_in(&sheets.a, self.character, x * 12 / 9, y * 24 / 17),
            (Font::A, _) => dot_in(&sheets.a, self.character, x, y),
        }
    }

    /// A dot of the character before it is magnified.
    fn bold_dot(&self, x: u32, y: u32) -> bool
        requires x { x < font_width self.now.font }
        requires y { y < font_height self.now.font }
        ensures { result ≡ bold_dot self.now.style.bold
            (font_dot self.now.sheets.now self.now.character self.now.font) x y }
    {
        self.font_dot(x, y) || self.style.bold && x > 0 && self.font_dot(x - 1, y)
    }
}

/// A row of a character of a font, emphasized or not, white past the character.
#[inline(always)]
fn body_row(word: u64, font: Font, bold: bool) -> u64
    ensures { (glyph : ℕ → ℕ → Bool) (y : ℕ) → ((x : ℕ) → x < font_width font → word_dot word x ≡ glyph x y)
        → (x : ℕ) → word_dot result x ≡ (nat_lt x (font_width font) && bold_dot bold glyph x y) }
{
    let thick = if bold { emphasized(word) } else { word };
    shared(thick, first_dots(font.width()))
}

/// A row of a character before it is magnified, emphasized and inverted where its style says so.
#[inline(always)]
fn styled_row(word: u64, font: Font, style: Style) -> u64
    ensures { (sheets : Given) (c y : ℕ) → y < font_height font
        → ((x : ℕ) → x < font_width font → word_dot word x ≡ font_dot sheets c font x y)
        → (x : ℕ) → word_dot result x ≡ row_dot sheets font style c x y }
{
    let body = body_row(word, font, style.bold);
    if style.inverse {
        return shared(inverted(body), first_dots(font.width()));
    }
    body
}

/// The rows of a character of 9 by 17 dots, drawn from one of 12 by 24.
fn nine_rows(rows: &[u64]) -> [u64; 17]
    ensures { (x y : ℕ) → y < 17 → word_dot (slice_index result y) x
        ≡ (nat_lt x 9 && word_dot (slice_index rows.now (y * 24 / 17)) (x * 12 / 9)) }
{
    let mut nine = [0; 17];
    for y in 0..17usize {
        nine[y] = nine_of(row_at(rows, y * 24 / 17));
    }
    nine
}

/// The first rows of a character, white below it.
fn first_rows(rows: &[u64]) -> [u64; WORDS]
    ensures { (y : ℕ) → y < WORDS → slice_index result y ≡ slice_index rows.now y }
{
    let mut first = [0; WORDS];
    let n = rows.len().min(WORDS);
    first[..n].copy_from_slice(&rows[..n]);
    first
}

impl<A: Small> Cell<'_, A> {
    /// The rows of the character, unless its font is drawn from sheet A at another size.
    fn own_rows(&self) -> Option<&[u64]>
        ensures { MatchOption result ((self.now.font ≡ Font.B) × (self.now.sheets.now.b ≡ None))
            (λ rows. (x y : ℕ) → word_dot (slice_index rows.now y) x
            ≡ font_dot self.now.sheets.now self.now.character self.now.font x y) }
    {
        let sheets = self.sheets;
        match (self.font, &sheets.b) {
            (Font::B, Some(b)) => Some(b.rows_of(self.character)),
            (Font::B, None) => None,
            (Font::A, _) => Some(rows_in(&sheets.a, self.character)),
        }
    }

    /// A row of the character in its font.
    fn font_row(&self, y: u32) -> u64
        requires { y < font_height self.now.font }
        ensures { (x : ℕ) → x < font_width self.now.font
            → word_dot result x ≡ font_dot self.now.sheets.now self.now.character self.now.font x y }
    {
        let Some(rows) = self.own_rows() else {
            let sheets = self.sheets;
            let rows = rows_in(&sheets.a, self.character);
            return nine_of(row_at(rows, (y * 24 / 17) as usize));
        };
        row_at(rows, y as usize)
    }

    /// Row y of a character that is printed just as it stands in its sheet, white below it.
    #[inline(always)]
    pub fn plain_row(&self, y: u32) -> u64
        requires { (self.now.style.wm ≡ 1) × (self.now.style.hm ≡ 1) × (self.now.style.bold ≡ false)
            × (self.now.style.underline ≡ 0) × (self.now.style.inverse ≡ false) }
        ensures { (x : ℕ) → word_dot result x
            ≡ cell_dot self.now.sheets.now self.now.font self.now.style self.now.character x y }
    {
        if y >= self.font.height() {
            return 0;
        }
        body_row(self.font_row(y), self.font, false)
    }

    /// The rows of a character before they are magnified, of those in its font.
    #[inline(always)]
    fn styled_rows(&self, rows: &[u64; WORDS]) -> [u64; WORDS]
        requires { (x y : ℕ) → x < font_width self.now.font → y < font_height self.now.font
            → word_dot (slice_index rows.now y) x
            ≡ font_dot self.now.sheets.now self.now.character self.now.font x y }
        ensures { (x y : ℕ) → word_dot (slice_index result y) x
            ≡ row_dot self.now.sheets.now self.now.font self.now.style self.now.character x y }
    {
        let (font, style) = (self.font, self.style);
        let mut styled = [0; WORDS];
        for y in 0..font.height() as usize {
            styled[y] = styled_row(rows[y], font, style);
        }
        styled
    }

    /// The rows of the character before they are magnified, emphasized and inverted where its style says so.
    pub fn rows(&self) -> [u64; WORDS]
        ensures { (x y : ℕ) → word_dot (slice_index result y) x
            ≡ row_dot self.now.sheets.now self.now.font self.now.style self.now.character x y }
    {
        match self.own_rows() {
            Some(rows) => self.styled_rows(&first_rows(rows)),
            None => {
                let sheets = self.sheets;
                let nine = nine_rows(rows_in(&sheets.a, self.character));
                self.styled_rows(&first_rows(&nine))
            }
        }
    }

    /// Where the character is black whatever its rows show: in the spacing of an inverse one, in the
    /// underline of any other.
    pub fn filled(&self) -> Filled
        ensures dots { (x y : ℕ) → (span result.left (result.left + result.wide) x
            && span result.top (result.top + result.high) y) ≡ filled_dot self.now.font self.now.style x y }
        ensures rows { result.top + result.high ≤ cell_height self.now.font self.now.style }
    {
        if self.style.inverse {
            spacing_of(self.font, self.style)
        } else {
            underline_of(self.font, self.style)
        }
    }

    /// The rows of a character that is printed just as it stands in its sheet, each as a word of few dots.
    pub fn ready(&self) -> Option<Ready<'_>>
        ensures { MatchOption result (Unit {0}) (λ ready.
            IsReady (cell_height self.now.font self.now.style) ready.above ready.words.now
            (cell_dot self.now.sheets.now self.now.font self.now.style self.now.character)
            × ((x y : ℕ) → 12 ≤ x → word_dot (slice_index ready.words.now y) x ≡ false)) }
    {
        if !self.style.is_plain() {
            return None;
        }
        let (width, height) = (self.font.width(), self.font.height());
        let sheets = self.sheets;
        match (self.font, &sheets.b) {
            (Font::B, Some(b)) => b.ready(self.character, width, height),
            (Font::B, None) => None,
            (Font::A, _) => ready_in(&sheets.a, self.character, width, height),
        }
    }
}

impl<A: Small> Ink for Cell<'_, A> {
    ghost width = { λ s. cell_width s.font s.style };

    ghost height = { λ s. cell_height s.font s.style };

    ghost ink_at = { λ s x y. cell_dot s.sheets.now s.font s.style s.character x y };

    ghost outside = { λ s x y h. cell_inside s.sheets.now s.font s.style s.character x y h };

    fn size(&self) -> (u32, u32) {
        (
            width_of(self.font, self.style),
            height_of(self.font, self.style),
        )
    }

    #[tactic(auto, unfolding(crate::specs::Cells::cell_dot))]
    fn ink(&self, x: u32, y: u32) -> bool {
        let style = self.style;
        let (width, height) = self.size();
        if x >= width || y >= height {
            return false;
        }
        let source = x / u32::from(style.wm);
        let body = source < self.font.width()
            && self.bold_dot(source, row_behind(y, self.font, style));
        if style.inverse {
            !body
        } else {
            body || y >= height.saturating_sub(u32::from(style.underline))
        }
    }
}
