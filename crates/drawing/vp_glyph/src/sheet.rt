//! A glyph sheet: an image of 16 by 16 cells.
ghost use Rattle.std.specs.Prelude.{◌≡◌, ℕ, ◌<◌, ◌+◌, ◌≤◌, ◌*◌, ◌^◌, ◌⊎◌, length, slice_index, IfOk, Ok, Err, IsOk, MatchResult, MatchOption, true, alloc_error, vec_capacity};
ghost use Rattle.vp_dots.specs.Words.{word_dot, IsReady};
ghost use Rattle.vp_glyph.specs.Inked.{IsInked, AreInked};
ghost use Rattle.vp_glyph.specs.Sheets.{IsCut, glyph_dot, sheet_dot};
ghost use Rattle.vp_glyph.specs.Memory.{sheet_memory, memory_of};
ghost use Rattle.vp_glyph.specs.Reading.{sheet_of, number_of};

use crate::header::header_behind;
use crate::look::shared;
use std::alloc::{AllocError, Global};
use std::marker::Model;
use std::mem::size_of;
use thiserror::Error;
use vp_dots::{Ready, Small, copied, dot_of, filled, first_dots, word_at};

/// Why a text is no sheet, in the order in which it is looked at.
#[derive(Debug, Drop, PartialEq, Eq, Error)]
pub enum SheetError {
    /// The text doesn't begin with the magic of raw PBM.
    #[error("not P4")]
    Magic,
    /// No header stands behind the magic.
    #[error("bad header")]
    Header,
    /// The header doesn't tell 16 by 16 cells of the size asked for.
    #[error("wrong size")]
    Size,
    /// The text ends before the last row does.
    #[error("too short")]
    Short,
    /// There is no memory for the sheet.
    #[error(transparent)]
    Memory(AllocError),
}

impl SheetError {
    /// The number by which a text is refused, 1 to 4. Want of memory has none.
    pub fn number(&self) -> Option<u8>
        ensures { result ≡ number_of self.now }
    {
        match self {
            SheetError::Magic => Some(1),
            SheetError::Header => Some(2),
            SheetError::Size => Some(3),
            SheetError::Short => Some(4),
            SheetError::Memory(_) => None,
        }
    }
}

/// A glyph sheet: 16 by 16 cells, each 1 to 64 dots wide and high.
#[derive(Drop)]
pub struct Sheet<A: Small = Global> {
    wide: u32,
    high: u32,
    raster: Vec<u8, A>,
    /// The rows of the cells as words, those of cell 0 first.
    rows: Vec<u64, A>,
    /// Which rows of each cell have ink.
    inked: Vec<Inked, A>,
}

/// The rows of a cell from the first on that has ink to the last.
#[derive(Clone, Copy)]
struct Inked {
    first: usize,
    /// The row below the last.
    below: usize,
}

/// The bytes of one of these.
const INKED_BYTES: usize = size_of::<Inked>();

impl<A: Small> Model for Sheet<A> {
    ghost use Rattle.std.specs.Prelude.{ℕ, ◌≡◌, ◌*◌, ◌≤◌, length, vec_capacity};
    ghost use Rattle.vp_glyph.specs.Sheets.{Glyphs, IsCut};
    ghost use Rattle.vp_glyph.specs.Inked.{AreInked};

    ghost Value = { Glyphs };

    ghost view = { λ s. record { wide = s.wide; high = s.high; raster = s.raster.items } };

    ghost invariant = { λ s. record {
      wide : s.wide ≤ 64;
      high : s.high ≤ 64;
      whole : length s.raster.items ≡ 32 * s.wide * s.high;
      cut : IsCut (record { wide = s.wide; high = s.high; raster = s.raster.items }) s.rows.items;
      inked : AreInked s.high s.rows.items s.inked.items;
      raster_room : vec_capacity s.raster ≡ 32 * s.wide * s.high;
      rows_room : vec_capacity s.rows ≡ 256 * s.high;
      inked_room : vec_capacity s.inked ≡ 256;
    } };
}

impl<A: Small + Copy> Sheet<A> {
    /// Reads a sheet with cells of w by h dots, each 1 to 64, from an image in raw PBM (netpbm, pbm(5)) of
    /// 16w by 16h. What stands behind the image isn't looked at. The first offence is answered, in the
    /// order of `SheetError`.
    pub fn read(alloc: A, src: &[u8], w: u32, h: u32) -> Result<Self, SheetError>
        requires w { w ≤ 64 }
        requires h { h ≤ 64 }
        ensures { (result ≡ sheet_of src.now w h)
            ⊎ ((result ≡ Err (SheetError.Memory alloc_error)) × IsOk (sheet_of src.now w h)) }
    {
        match raster_of(src, w, h) {
            Err(why) => Err(why),
            Ok(raster) => match Sheet::of_raster(alloc, raster, w, h) {
                Err(why) => Err(SheetError::Memory(why)),
                Ok(sheet) => Ok(sheet),
            },
        }
    }

    /// The sheet whose rows have these bytes.
    fn of_raster(alloc: A, raster: &[u8], w: u32, h: u32) -> Result<Self, AllocError>
        requires w { w ≤ 64 }
        requires h { h ≤ 64 }
        requires whole { length raster.now ≡ 32 * w * h }
        ensures { IfOk result (λ sheet. sheet ≡ record { wide = w; high = h; raster = raster.now }) }
    {
        let rows = cut(alloc, raster, w, h)?;
        let inked = inked_cells(alloc, &rows, h as usize)?;
        let raster = copied(alloc, raster)?;
        Ok(Sheet {
            wide: w,
            high: h,
            raster,
            rows,
            inked,
        })
    }
}

impl<A: Small> Sheet<A> {
    /// The dot of cell c at column x of row y, white outside the cell.
    #[tactic(auto, unfolding(crate::specs::Sheets::glyph_dot))]
    pub fn dot(&self, c: u8, x: u32, y: u32) -> bool
        ensures { result ≡ glyph_dot self.now c x y }
    {
        if x < self.wide && y < self.high {
            let (column, line) = (u32::from(c) % 16, u32::from(c) / 16);
            let across = self.wide * column + x;
            let down = self.high * line + y;
            dot_of(&self.raster, u128::from(16 * self.wide * down + across))
        } else {
            false
        }
    }

    /// The rows of cell c, white past the cell.
    #[inline(always)]
    pub(crate) fn rows_of(&self, c: u8) -> &[u64]
        ensures { (x y : ℕ) → word_dot (slice_index result.now y) x ≡ glyph_dot self.now c x y }
    {
        let high = self.high as usize;
        let first = high * usize::from(c);
        &self.rows[first..first + high]
    }

    /// The lines of cell c, unless cells are larger than `w` by `h` dots.
    pub(crate) fn ready(&self, c: u8, w: u32, h: u32) -> Option<Ready<'_>>
        ensures { MatchOption result (Unit {0}) (λ ready.
            IsReady h ready.above ready.words.now (glyph_dot self.now c)
            × ((x y : ℕ) → glyph_dot self.now c x y ≡ true → (x < w) × (y < h))) }
    {
        if self.wide > w || self.high > h {
            return None;
        }
        let high = self.high as usize;
        let top = high * usize::from(c);
        let rows = &self.rows[top..top + high];
        let Inked { first, below } = self.inked[usize::from(c)];
        Some(Ready {
            above: first,
            words: &rows[first..below],
        })
    }

    /// The bytes of memory that it holds, on the heap.
    pub fn memory(&self) -> usize
        ensures value { result ≡ sheet_memory self.now }
        ensures most { result ≤ 2 ^ 19 }
    {
        self.raster.capacity() + 8 * self.rows.capacity() + INKED_BYTES * self.inked.capacity()
    }
}

/// Which rows have ink.
fn inked_rows(rows: &[u64]) -> Inked
    ensures { IsInked rows.now result }
{
    let mut first = 0;
    while first < rows.len() && rows[first] == 0 {
        first += 1;
    }
    let mut below = rows.len();
    while below > first && rows[below - 1] == 0 {
        below -= 1;
    }
    Inked { first, below }
}

/// Which rows of each cell have ink, of cells `high` rows high.
fn inked_cells<A: Small>(alloc: A, rows: &[u64], high: usize) -> Result<Vec<Inked, A>, AllocError>
    requires high { high ≤ 64 }
    requires whole { length rows.now ≡ 256 * high }
    ensures inked { IfOk result (λ inked. AreInked high rows.now inked.items) }
    ensures room { IfOk result (λ inked. vec_capacity inked ≡ 256) }
{
    let none = Inked { first: 0, below: 0 };
    let mut cells = filled(alloc, 256, none)?;
    for c in 0..256usize {
        cells[c] = inked_rows(&rows[high * c..high * c + high]);
    }
    Ok(cells)
}

/// A row of a cell of a raster, white past the cell.
fn cut_row(raster: &[u8], w: u32, h: u32, c: u32, y: u32) -> u64
    requires w { w ≤ 64 }
    requires h { h ≤ 64 }
    requires c { c < 256 }
    requires y { y < h }
    ensures { (x : ℕ) → word_dot result x ≡ glyph_dot
        (record { wide = w; high = h; raster = raster.now }) c x y }
{
    let (column, line) = (c % 16, c / 16);
    let from = 16 * w * (h * line + y) + w * column;
    shared(word_at(raster, from as usize), first_dots(w))
}

/// The rows of the cells of a raster, those of cell 0 first.
fn cut<A: Small>(alloc: A, raster: &[u8], w: u32, h: u32) -> Result<Vec<u64, A>, AllocError>
    requires w { w ≤ 64 }
    requires h { h ≤ 64 }
    ensures cut { IfOk result (λ rows.
        IsCut (record { wide = w; high = h; raster = raster.now }) rows.items) }
    ensures room { IfOk result (λ rows. vec_capacity rows ≡ 256 * h) }
{
    let mut rows = filled(alloc, 256 * h as usize, 0)?;
    for c in 0..256u32 {
        for y in 0..h {
            rows[(h * c + y) as usize] = cut_row(raster, w, h, c, y);
        }
    }
    Ok(rows)
}

/// The bytes of the rows that a text tells.
#[tactic(auto, unfolding(crate::specs::Reading::sheet_of))]
fn raster_of(src: &[u8], w: u32, h: u32) -> Result<&[u8], SheetError>
    requires w { w ≤ 64 }
    requires h { h ≤ 64 }
    ensures { MatchResult result (λ raster. (length raster.now ≡ 32 * w * h)
        × (sheet_of src.now w h ≡ Ok (record { wide = w; high = h; raster = raster.now })))
        (λ why. sheet_of src.now w h ≡ Err why) }
{
    if src.len() < 2 || src[0] != b'P' || src[1] != b'4' {
        return Err(SheetError::Magic);
    }
    let Some(header) = header_behind(&src[2..]) else {
        return Err(SheetError::Header);
    };
    if header.width != 16 * w || header.height != 16 * h {
        return Err(SheetError::Size);
    }
    let size = (32 * w * h) as usize;
    if header.raster.len() < size {
        return Err(SheetError::Short);
    }
    Ok(&header.raster[..size])
}

/// The bytes of memory of a sheet, none without a sheet.
pub(crate) fn memory_in<A: Small>(sheet: &Option<Sheet<A>>) -> usize
    ensures value { result ≡ memory_of sheet.now }
    ensures most { result ≤ 2 ^ 19 }
{
    match sheet {
        Some(sheet) => sheet.memory(),
        None => 0,
    }
}

/// The dot of a cell of a sheet, white without a sheet.
pub fn dot_in<A: Small>(sheet: &Option<Sheet<A>>, c: u8, x: u32, y: u32) -> bool
    ensures { result ≡ sheet_dot sheet.now c x y }
{
    match sheet {
        Some(sheet) => sheet.dot(c, x, y),
        None => false,
    }
}

/// The lines of a cell of a sheet, unless cells are larger than `w` by `h` dots, or there is no sheet.
pub fn ready_in<A: Small>(sheet: &Option<Sheet<A>>, c: u8, w: u32, h: u32) -> Option<Ready<'_>>
    ensures { MatchOption result (Unit {0}) (λ ready.
        IsReady h ready.above ready.words.now (sheet_dot sheet.now c)
        × ((x y : ℕ) → sheet_dot sheet.now c x y ≡ true → (x < w) × (y < h))) }
{
    sheet.as_ref()?.ready(c, w, h)
}

/// The rows of a cell of a sheet, none without a sheet.
#[inline(always)]
pub fn rows_in<A: Small>(sheet: &Option<Sheet<A>>, c: u8) -> &[u64]
    ensures { (x y : ℕ) → word_dot (slice_index result.now y) x ≡ sheet_dot sheet.now c x y }
{
    match sheet {
        Some(sheet) => sheet.rows_of(c),
        None => &[],
    }
}

/// Row y of a cell, white below it.
#[inline(always)]
pub fn row_at(rows: &[u64], y: usize) -> u64
    ensures { result ≡ slice_index rows.now y }
{
    if y < rows.len() { rows[y] } else { 0 }
}
