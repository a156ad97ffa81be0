//! The lines of a field block.
ghost use Rattle.std.specs.Prelude.{◌≡◌, ℕ, ◌+◌, ◌-◌, ◌≤◌, ◌<◌, ◌^◌, ◌==◌, true, false, List, ◌∷◌, [], min, length, take, drop, MatchOption, slice_index, Some, None};
ghost use Rattle.std.specs.List.{All};
ghost use Rattle.vp_dots.specs.Dots.{bit};
ghost use Rattle.vp_glyph.specs.Blocks.{pieces, first, others, last_blank, lines, StandIn, block_lines, line_pieces};

use std::simd::prelude::*;

/// What stands in a text.
#[derive(Drop)]
pub enum Piece {
    Cell(u8),
    ParagraphEnd,
}

/// The piece at the front of a text, and what stands behind it.
fn next_piece(text: &[u8]) -> Option<(Piece, &[u8])>
    ensures { MatchOption result (pieces text.now ≡ []) (λ r. pieces text.now ≡ r.0 ∷ pieces r.1.now) }
{
    match text {
        [b'\\', b'&', rest @ ..] => Some((Piece::ParagraphEnd, rest)),
        [b'\\', b'\\', rest @ ..] => Some((Piece::Cell(b'\\'), rest)),
        [b, rest @ ..] => Some((Piece::Cell(*b), rest)),
        [] => None,
    }
}

/// The cell of the piece at the front of a text, unless its paragraph ends there, and what stands behind it.
#[inline(never)]
fn cell_of_piece(text: &[u8]) -> Option<(u8, &[u8])>
    ensures { MatchOption result (first (pieces text.now) ≡ []) (λ r. pieces text.now
        ≡ Piece.Cell r.0 ∷ pieces r.1.now) }
{
    match next_piece(text) {
        Some((Piece::Cell(b), rest)) => Some((b, rest)),
        Some((Piece::ParagraphEnd, _)) | None => None,
    }
}

/// The cell of the piece at the front of a text, unless its paragraph ends there, and what stands behind it:
/// found at once where the text doesn't begin with a backslash.
#[inline(always)]
pub fn next_cell(text: &[u8]) -> Option<(u8, &[u8])>
    ensures { MatchOption result (first (pieces text.now) ≡ []) (λ r. pieces text.now
        ≡ Piece.Cell r.0 ∷ pieces r.1.now) }
{
    match text {
        [b, rest @ ..] if *b != b'\\' => Some((*b, rest)),
        _ => cell_of_piece(text),
    }
}

/// The front of a paragraph.
struct Measured<'a> {
    /// How many cells are left in the paragraph, or one more than fit into a line.
    cells: usize,
    /// The last blank among them behind the first, or 0.
    blank: usize,
    /// What stands behind those of them that fit into a line.
    behind: &'a [u8],
}

/// So many bytes are looked at at once.
const AT_ONCE: usize = 16;

/// Which of the first bytes of a text are a byte, the first by the lowest bit.
#[inline(always)]
fn are_byte(text: &[u8], byte: u8) -> u64
    requires { AT_ONCE ≤ length text.now }
    ensures { (i : ℕ) → i < AT_ONCE → bit result i ≡ false → slice_index text.now i == byte ≡ false }
{
    u8x16::from_slice(text)
        .simd_eq(u8x16::splat(byte))
        .to_bitmask()
}

/// Whether more than `most` bytes at the front of a text are known to be cells, none of them a blank.
#[inline(always)]
fn is_plain(text: &[u8], most: usize) -> bool
    ensures { result ≡ true → (most < length text.now) × ((i : ℕ) → i ≤ most
        → (slice_index text.now i == 0x20 ≡ false) × (slice_index text.now i == 0x5c ≡ false)) }
{
    if most >= AT_ONCE || text.len() < AT_ONCE {
        return false;
    }
    let others = are_byte(text, b' ') | are_byte(text, b'\\');
    others.trailing_zeros() as usize > most
}

/// The front of a paragraph, in lines of at most `most` cells.
#[tactic(auto, using(crate::proofs::Breaking::last_blank_within))]
fn measure(text: &[u8], most: usize) -> Measured<'_>
    requires { most < 2 ^ 32 }
    ensures cells { result.cells ≡ min (length (first (pieces text.now))) (most + 1) }
    ensures blank { result.blank ≡ last_blank (result.cells - 1) (first (pieces text.now)) }
    ensures within { result.blank ≤ result.cells - 1 }
    ensures first { first (pieces result.behind.now)
        ≡ drop (min result.cells most) (first (pieces text.now)) }
    ensures others { others (pieces result.behind.now) ≡ others (pieces text.now) }
{
    let mut at = text;
    let mut blank = 0;
    for i in 0..most {
        let Some((b, rest)) = next_cell(at) else {
            return Measured {
                cells: i,
                blank,
                behind: at,
            };
        };
        if b == b' ' {
            blank = i;
        }
        at = rest;
    }
    let Some((b, _)) = next_cell(at) else {
        return Measured {
            cells: most,
            blank,
            behind: at,
        };
    };
    if b == b' ' {
        blank = most;
    }
    Measured {
        cells: most + 1,
        blank,
        behind: at,
    }
}

/// A text behind its first cells.
pub fn behind_cells(text: &[u8], cells: usize) -> &[u8]
    requires { cells ≤ length (first (pieces text.now)) }
    ensures first { first (pieces result.now) ≡ drop cells (first (pieces text.now)) }
    ensures others { others (pieces result.now) ≡ others (pieces text.now) }
{
    let mut at = text;
    for _i in 0..cells {
        let Some((_, rest)) = next_cell(at) else {
            unreachable!()
        };
        at = rest;
    }
    at
}

/// The next paragraph, behind the end of one.
fn next_paragraph(text: &[u8]) -> Option<&[u8]>
    requires { first (pieces text.now) ≡ [] }
    ensures { MatchOption result (others (pieces text.now) ≡ []) (λ r. others (pieces text.now)
        ≡ first (pieces r.now) ∷ others (pieces r.now)) }
{
    match next_piece(text) {
        Some((_, rest)) => Some(rest),
        None => None,
    }
}

/// Lines of more cells aren't compared.
const SHORT: usize = 32;

/// `cells` cells at the front of a text.
#[derive(Clone, Copy)]
pub struct Line<'a> {
    pub text: &'a [u8],
    pub cells: usize,
}

/// Whether two texts are known to begin with the same cells, so many of them: none is compared that is told
/// by a backslash.
fn begin_alike(one: &[u8], other: &[u8], cells: usize) -> bool
    ensures { result ≡ true → take cells (first (pieces one.now)) ≡ take cells (first (pieces other.now)) }
{
    if one.len() < cells || other.len() < cells {
        return false;
    }
    for i in 0..cells {
        if one[i] != other[i] || one[i] == b'\\' {
            return false;
        }
    }
    true
}

impl Line<'_> {
    /// Whether it is known to have the cells of another line.
    pub fn is_like(self, other: Line<'_>) -> bool
        ensures { result ≡ true → take self.entry.cells (first (pieces self.entry.text.now))
            ≡ take other.entry.cells (first (pieces other.entry.text.now)) }
    {
        self.cells == other.cells
            && self.cells <= SHORT
            && begin_alike(self.text, other.text, self.cells)
    }
}

/// What `next_line` gives, cell by cell.
#[inline(never)]
fn measured_line(text: &[u8], most: usize) -> (Line<'_>, Option<&[u8]>)
    requires some { 0 < most }
    requires most { most < 2 ^ 32 }
    ensures text { result.0.text.now ≡ text.now }
    ensures most { result.0.cells ≤ most }
    ensures cells { result.0.cells ≤ length (first (pieces text.now)) }
    ensures lines { let line = take result.0.cells (first (pieces text.now))
        in MatchOption result.1 (block_lines most text.now ≡ line ∷ []) (λ r. block_lines most text.now
        ≡ line ∷ block_lines most r.now) }
    ensures less { MatchOption result.1 (1 + result.0.cells ≤ line_pieces text.now)
        (λ r. 1 + result.0.cells + line_pieces r.now ≤ line_pieces text.now) }
{
    let Measured {
        cells,
        blank,
        behind,
    } = measure(text, most);
    if cells <= most {
        return (Line { text, cells }, next_paragraph(behind));
    }
    if blank == 0 {
        return (Line { text, cells: most }, Some(behind));
    }
    let line = Line { text, cells: blank };
    let behind = behind_cells(text, blank + 1);
    let Some(_) = next_cell(behind) else {
        return (line, next_paragraph(behind));
    };
    (line, Some(behind))
}

/// The first line of a text, in lines of at most `most` cells, and the text of the others: found
/// at once where it is all plain.
#[inline(always)]
pub fn next_line(text: &[u8], most: usize) -> (Line<'_>, Option<&[u8]>)
    requires some { 0 < most }
    requires most { most < 2 ^ 32 }
    ensures text { result.0.text.now ≡ text.now }
    ensures most { result.0.cells ≤ most }
    ensures cells { result.0.cells ≤ length (first (pieces text.now)) }
    ensures lines { let line = take result.0.cells (first (pieces text.now))
        in MatchOption result.1 (block_lines most text.now ≡ line ∷ []) (λ r. block_lines most text.now
        ≡ line ∷ block_lines most r.now) }
    ensures less { MatchOption result.1 (1 + result.0.cells ≤ line_pieces text.now)
        (λ r. 1 + result.0.cells + line_pieces r.now ≤ line_pieces text.now) }
{
    if is_plain(text, most) {
        return (Line { text, cells: most }, Some(&text[most..]));
    }
    measured_line(text, most)
}

/// The first line of a text, as `next_line` gives it, whose pieces are counted: the line, and each of its
/// cells.
#[inline(always)]
pub fn hand_line<'a>(text: &'a [u8], most: usize, counter: &mut u64) -> (Line<'a>, Option<&'a [u8]>)
    requires some { 0 < most }
    requires most { most < 2 ^ 32 }
    ensures text { result.0.text.now ≡ text.now }
    ensures most { result.0.cells ≤ most }
    ensures cells { result.0.cells ≤ length (first (pieces text.now)) }
    ensures lines { let line = take result.0.cells (first (pieces text.now))
        in MatchOption result.1 (block_lines most text.now ≡ line ∷ []) (λ r. block_lines most text.now
        ≡ line ∷ block_lines most r.now) }
    ensures less { MatchOption result.1 (1 + result.0.cells ≤ line_pieces text.now)
        (λ r. 1 + result.0.cells + line_pieces r.now ≤ line_pieces text.now) }
    ensures counted { counter.new ≡ min (counter.old + (1 + result.0.cells)) (2 ^ 64 - 1) }
    ensures more { counter.old ≤ counter.new }
{
    let (line, rest) = next_line(text, most);
    *counter = counter.saturating_add(1 + line.cells as u64);
    (line, rest)
}

/// A law: the lines of a paragraph have at most n cells each, and stand in it one after the other, with at
/// most one blank left out behind each.
pub fn lines_law()
    ensures few { (n : ℕ) (cells : List ℕ) → 0 < n → All (λ line. length line ≤ n) (lines n cells) }
    ensures whole { (n : ℕ) (cells : List ℕ) → 0 < n → StandIn cells (lines n cells) }
{}
