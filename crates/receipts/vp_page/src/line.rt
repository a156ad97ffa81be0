//! Lines of dots as long as the longest one, and which of some show the same.
ghost use Rattle.std.specs.Prelude.{◌≡◌, ℕ, ◌+◌, ◌≤◌, true, false, ◌<◌, [], length, slice_index_or};
ghost use Rattle.vp_page.specs.declared.line.TheConstants.{LINE_BYTES, LINE_DOTS};
ghost use Rattle.vp_dots.specs.Dots.{dot};
ghost use Rattle.vp_page.specs.Lines.{shown_lines};

use vp_dots::{Ink, Op};

/// The bytes of the longest line of a page: one across its rows.
pub const LINE_BYTES: usize = 208;

/// Its dots.
pub const LINE_DOTS: usize = 8 * LINE_BYTES;

/// A line of an image, as long as the longest one.
pub(crate) fn drawn<I: Ink>(ink: &I, y: u32) -> [u8; LINE_BYTES]
    requires { I.width ink.now ≤ LINE_DOTS }
    ensures { (x : ℕ) → dot result x ≡ I.ink_at ink.now x y }
{
    let mut line = [0; LINE_BYTES];
    ink.paint_row(y, Op::Black, 0, &mut line);
    line
}

/// A row as long as the longest line, white behind its bytes.
pub(crate) fn lengthened(row: &[u8]) -> [u8; LINE_BYTES]
    requires { length row.now ≤ LINE_BYTES }
    ensures { (u : ℕ) → dot result u ≡ dot row.now u }
{
    let mut line = [0; LINE_BYTES];
    line[..row.len()].copy_from_slice(row);
    line
}

/// How many lines from one on are as the first of them.
fn same_lines(lines: &[[u8; LINE_BYTES]], from: usize) -> usize
    requires { from < length lines.now }
    ensures some { 0 < result }
    ensures within { from + result ≤ length lines.now }
    ensures same { (i : ℕ) → i < result →
        slice_index_or lines.now (from + i) [] ≡ slice_index_or lines.now from [] }
{
    let mut n = 1;
    while from + n < lines.len() && lines[from + n] == lines[from] {
        n += 1;
    }
    n
}

/// Whether it is told of line i that it is the same as the one above.
#[inline(always)]
fn is_told(same: &[bool], i: usize) -> bool
    ensures { result ≡ slice_index_or same.now i false }
{
    i < same.len() && same[i]
}

/// How many lines from one on show the same: those of which it is told that they are the same as the one
/// above or, where nothing is told of any, those that are.
pub(crate) fn run_from(lines: &[[u8; LINE_BYTES]], same: &[bool], from: usize) -> usize
    requires { from < length lines.now }
    ensures some { 0 < result }
    ensures within { from + result ≤ length lines.now }
    ensures same { (i : ℕ) → i < result → slice_index_or (shown_lines same.now lines.now) (from + i) []
        ≡ slice_index_or (shown_lines same.now lines.now) from [] }
    ensures next { slice_index_or same.now (from + result) false ≡ true → from + result ≡ length lines.now }
{
    if same.is_empty() {
        return same_lines(lines, from);
    }
    let mut n = 1;
    while from + n < lines.len() && is_told(same, from + n) {
        n += 1;
    }
    n
}
