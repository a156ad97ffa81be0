//! The symbol of bytes.

ghost use Rattle.std.specs.Prelude.{◌≡◌, ℕ, ◌<◌, ◌≤◌, List, length, OnOk, IfOk, IfErr, Some, None};
ghost use Rattle.arrayvec.specs.ArrayVec.{array_vec_len};
ghost use Rattle.vp_qr.specs.Strings.{padded};
ghost use Rattle.vp_qr.specs.Segments.{message};
ghost use Rattle.vp_qr.specs.Versions.{Holds};
ghost use Rattle.vp_qr.specs.Blocks.{total, blocks_of, capacity, interleaved};
ghost use Rattle.vp_qr.specs.Places.{size};
ghost use Rattle.vp_qr.specs.Walk.{dark};
ghost use Rattle.vp_qr.specs.Grids.{IsGrid, IsGridOf};
ghost use Rattle.vp_qr.specs.Encoding.{refusal, version_of, mask_of, masked, best_mask, Encodes};

use crate::interleave::{Codewords, interleaved};
use crate::level::Level;
use crate::mask::{least, penalty};
use crate::segment::{Kind, Mode, message, smallest_version};
use crate::string::{Words, padded};
use crate::symbol::Grid;
use std::marker::Model;
use vp_dots::{Fault, Why};

/// A QR symbol of version 1 to 10.
#[derive(Drop)]
pub struct Qr {
    version: usize,
    mask: usize,
    codewords: Codewords,
    rows: [u64; 57],
}

impl Model for Qr {
    ghost use Rattle.std.specs.Prelude.{◌≡◌, ◌≤◌, length};
    ghost use Rattle.vp_qr.specs.Blocks.{total};
    ghost use Rattle.vp_qr.specs.Encoding.{QrSymbol};

    ghost Value = { QrSymbol };

    ghost view = { λ s. record {
      version = s.version;
      mask = s.mask;
      codewords = s.codewords.items;
      rows = s.rows;
    } };

    ghost invariant = { λ s. record {
      low : 1 ≤ s.version;
      high : s.version ≤ 10;
      count : length s.codewords.items ≡ total s.version;
    } };
}

impl Qr {
    /// The version, 1 to 10; a symbol has 17 + 4 versions modules in a row.
    pub fn version(&self) -> usize
        ensures version { result ≡ self.now.version }
        ensures low { 1 ≤ result }
        ensures high { result ≤ 10 }
    {
        self.version
    }

    /// The mask, 0 to 7.
    pub fn mask(&self) -> usize
        ensures { result ≡ self.now.mask }
    {
        self.mask
    }

    /// All codewords, in the order in which they are placed.
    pub fn codewords(&self) -> &[u8]
        ensures codewords { result.now ≡ self.now.codewords }
        ensures count { length result.now ≡ total self.now.version }
    {
        self.codewords.as_slice()
    }

    /// The rows of modules; bit j of a row is its module in column j.
    pub(crate) fn rows(&self) -> &[u64; 57]
        ensures { result.now ≡ self.now.rows }
    {
        &self.rows
    }
}

/// The lowest mask of least penalty.
fn best_mask(level: Level, grid: &Grid) -> usize
    requires { IsGrid grid.now }
    ensures mask { (codewords : List ℕ) → IsGridOf codewords grid.now →
        result ≡ best_mask level grid.now.version codewords }
    ensures most { result < 8 }
{
    let mut penalties = [0; 8];
    for mask in 0..8usize {
        let rows = grid.masked(level, mask);
        penalties[mask] = penalty(&rows, 17 + 4 * grid.version);
    }
    least(&penalties)
}

/// The symbol of codewords with a mask.
fn finished(level: Level, grid: &Grid, mask: usize, codewords: Codewords) -> Qr
    requires grid { IsGridOf codewords.items grid.now }
    requires mask { mask < 8 }
    requires count { array_vec_len codewords ≡ total grid.now.version }
    ensures version { result.version ≡ grid.now.version }
    ensures codewords { result.codewords ≡ codewords.items }
    ensures mask { result.mask ≡ mask }
    ensures modules { (i j : ℕ) → i < size grid.now.version → j < size grid.now.version
        → dark result.rows i j ≡ masked level grid.now.version codewords.items mask i j }
{
    let rows = grid.masked(level, mask);
    Qr {
        version: grid.version,
        mask,
        codewords,
        rows,
    }
}

/// The data codewords of a segment, in a version that holds it.
fn data_words(level: Level, kind: Kind, version: usize, src: &[u8]) -> Words
    requires { Holds level kind src.now version }
    ensures words { result.items ≡ padded (capacity level version) (message kind version src.now) }
    ensures count { array_vec_len result ≡ capacity level version }
{
    let capacity = level.blocks(version).capacity();
    let mut string = message(kind, version, src);
    padded(&mut string, capacity)
}

/// The codewords of a segment, in a version that holds it.
fn codewords_in(level: Level, kind: Kind, version: usize, src: &[u8]) -> Codewords
    requires { Holds level kind src.now version }
    ensures codewords { result.items ≡ interleaved (blocks_of level version)
        (padded (capacity level version) (message kind version src.now)) }
    ensures count { array_vec_len result ≡ total version }
{
    let words = data_words(level, kind, version, src);
    interleaved(level, version, words.as_slice())
}

/// The symbol of bytes (ISO/IEC 18004), in one segment of a mode and in the smallest version up to 10 that
/// holds them: at most 652 digits, 395 alphanumeric characters or 271 bytes at level L, and 288, 174 or 119
/// at level H.
///
/// Bytes without a symbol are refused: none at all (`Symbol(Empty)`), one that the mode lacks
/// (`Symbol(Char)`), or too many (`SymbolTooLong`).
pub fn encode(src: &[u8], level: Level, mode: Mode) -> Result<Qr, Fault>
    ensures accepted { OnOk result (refusal level mode src.now ≡ None) }
    ensures refused { IfErr result (λ fault. refusal level mode src.now ≡ Some fault) }
    ensures symbol { IfOk result (Encodes level mode src.now) }
{
    if src.is_empty() {
        return Err(Fault::Symbol(Why::Empty));
    }
    let kind = mode.kind(src);
    if !kind.has_all(src) {
        return Err(Fault::Symbol(Why::Char));
    }
    let Some(version) = smallest_version(level, kind, src) else {
        return Err(Fault::SymbolTooLong);
    };
    let codewords = codewords_in(level, kind, version, src);
    let grid = Grid::of(version, codewords.as_slice());
    let mask = best_mask(level, &grid);
    Ok(finished(level, &grid, mask, codewords))
}

/// The symbol of bytes that `encode` takes, drawn with the version, 1 to 10, and the mask, 0 to 7, that
/// were chosen for it: neither is chosen again.
#[tactic(auto, using(crate::proofs::Choosing::best_below))]
pub fn drawn(src: &[u8], level: Level, mode: Mode, version: usize, mask: usize) -> Qr
    requires accepted { refusal level mode src.now ≡ None }
    requires version { version ≡ version_of level mode src.now }
    requires mask { mask ≡ mask_of level mode src.now }
    ensures { Encodes level mode src.now result }
{
    let kind = mode.kind(src);
    let codewords = codewords_in(level, kind, version, src);
    let grid = Grid::of(version, codewords.as_slice());
    finished(level, &grid, mask, codewords)
}
