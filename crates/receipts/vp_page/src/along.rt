//! Lines laid along the rows of a half: each is moved, turned and clipped once, and laid on as many rows as
//! show it.
ghost use Rattle.std.specs.Prelude.{◌≡◌, ℕ, true, ◌+◌, ◌-◌, ◌*◌, ◌/◌, ◌%◌, ◌<◌, ◌≤◌, ◌^◌, ◌&&◌, min, nat_lt, nat_le, length};
ghost use Rattle.vp_dots.specs.Dots.{dot, span};
ghost use Rattle.vp_dots.specs.Painting.{Painted};
ghost use Rattle.vp_dots.specs.Places.{RowsPainted};
ghost use Rattle.vp_dots.specs.Words.{word_dot};
ghost use Rattle.vp_dots.specs.declared.Op.TheVariants.{Black};
ghost use Rattle.vp_page.specs.Halves.{IsOnWords, along_row, down_rows, from_top};
ghost use Rattle.vp_page.specs.Lines.{row_in};
ghost use Rattle.vp_page.specs.declared.line.TheConstants.{LINE_BYTES, LINE_DOTS};

use crate::area::{Area, Direction};
use crate::line::LINE_BYTES;
use crate::words::{or_bytes, or_eight, or_reversed, or_sixteens, or_words};
use vp_dots::{Band, Op, Small, eight_at, fill_dots, reversed_at, word_at};

/// The 64 dots from one of a line's dots on that aren't past its end.
// Where a row reaches no test is needed for the end.
#[inline(always)]
fn word_inside(line: &[u8; LINE_BYTES], from: usize) -> u64
    requires { from + 64 ≤ LINE_DOTS }
    ensures { (x : ℕ) → x < 64 → word_dot result x ≡ dot line.now (from + x) }
{
    let i = from / 8;
    let s = from % 8;
    if s == 0 {
        return eight_at(line, i);
    }
    (eight_at(line, i) << s) | (u64::from(line[i + 8]) >> (8 - s))
}

/// The 64 dots from place `at` on of a line that begins at place `far`.
#[inline(always)]
fn word_right(line: &[u8; LINE_BYTES], far: usize, at: usize) -> u64
    requires { at + 64 ≤ LINE_DOTS }
    ensures { (x : ℕ) → x < 64 → word_dot result x ≡ (nat_le far (at + x) && dot line.now (at + x - far)) }
{
    if at >= far {
        return word_inside(line, at - far);
    }
    if far - at < 64 {
        return eight_at(line, 0) >> (far - at);
    }
    0
}

/// A word with its dots in the other order.
#[inline(always)]
fn mirrored(word: u64) -> u64
    ensures { (x : ℕ) → x < 64 → word_dot result x ≡ word_dot word (63 - x) }
{
    if word == 0 {
        return 0;
    }
    reversed_at(&word.to_be_bytes(), 0)
}

/// The 64 dots from place `at` on of a line that begins before place `end` and runs to the left.
#[inline(always)]
fn word_left(line: &[u8; LINE_BYTES], end: usize, at: usize) -> u64
    requires near { at + 64 < 2 ^ 32 }
    requires ends { end < 2 ^ 32 }
    ensures { (x : ℕ) → x < 64 → word_dot result x ≡
        (nat_lt (at + x) end && dot line.now (end - 1 - (at + x))) }
{
    if end >= at + 64 {
        return mirrored(word_at(line, end - at - 64));
    }
    if end > at {
        return mirrored(word_at(line, 0)) << (at + 64 - end);
    }
    0
}

/// Whether so many dots from a place on are whole words that stand on whole bytes of a row.
#[inline(always)]
fn is_whole<const B: usize>(begin: usize, long: usize) -> bool
    requires near { begin + long < 2 ^ 32 }
    requires few { B ≤ LINE_BYTES }
    ensures begins { result ≡ true → begin % 8 ≡ 0 }
    ensures words { result ≡ true → long % 64 ≡ 0 }
    ensures inside { result ≡ true → begin + long ≤ 8 * B }
{
    begin % 8 == 0 && long % 64 == 0 && begin + long <= 8 * B
}

/// The row along which the first dots of a line are laid from a place on. Of its words those are made that
/// the dots reach: as they stand in the line where they are whole there.
#[inline(always)]
fn row_right<const B: usize>(line: &[u8; LINE_BYTES], begin: usize, long: usize) -> [u8; B]
    requires words { B % 8 ≡ 0 }
    requires few { B ≤ LINE_BYTES }
    requires near { begin + long < 2 ^ 31 }
    ensures { (x : ℕ) → x < 8 * B → dot result x ≡
        (span begin (begin + long) x && dot line.now (x - begin)) }
{
    let mut row = [0; B];
    if is_whole::<B>(begin, long) {
        or_words(&line[..long / 8], begin / 8, &mut row);
        return row;
    }
    let first = begin / 64;
    let words = (begin + long).div_ceil(64).min(B / 8);
    for i in 0..words.saturating_sub(first) {
        or_eight(
            word_right(line, begin % 64, 64 * i),
            8 * (first + i),
            &mut row,
        );
    }
    fill_dots(
        Op::White,
        (begin + long) as u64,
        64 * words as u64,
        &mut row,
    );
    row
}

/// The row as `row_right` makes it, with the dots in the other order: the line runs to the left.
#[inline(always)]
fn row_left<const B: usize>(line: &[u8; LINE_BYTES], begin: usize, long: usize) -> [u8; B]
    requires words { B % 8 ≡ 0 }
    requires few { B ≤ LINE_BYTES }
    requires near { begin + long < 2 ^ 31 }
    ensures { (x : ℕ) → x < 8 * B → dot result x ≡
        (span begin (begin + long) x && dot line.now (begin + long - 1 - x)) }
{
    let mut row = [0; B];
    if is_whole::<B>(begin, long) {
        or_reversed(&line[..long / 8], begin / 8, &mut row);
        return row;
    }
    let end = begin + long;
    let first = begin / 64;
    let words = end.div_ceil(64).min(B / 8);
    for i in 0..words.saturating_sub(first) {
        or_eight(
            word_left(line, end - 64 * first, 64 * i),
            8 * (first + i),
            &mut row,
        );
    }
    fill_dots(Op::White, 64 * first as u64, begin as u64, &mut row);
    row
}

/// The row of a half along which a line of an area is laid.
pub(crate) fn row_along<const B: usize>(
    line: &[u8; LINE_BYTES],
    area: Area,
    direction: Direction,
) -> [u8; B]
    requires words { B % 8 ≡ 0 }
    requires few { B ≤ LINE_BYTES }
    ensures { (x : ℕ) → x < 8 * B → dot result x ≡
        (span area.x (area.x + area.dx) x && dot line.now (along_row area direction x)) }
{
    let (begin, long) = (area.x as usize, area.dx as usize);
    match direction {
        Direction::LeftToRight | Direction::TopToBottom => row_right(line, begin, long),
        Direction::RightToLeft | Direction::BottomToTop => row_left(line, begin, long),
    }
}

/// The uppermost of so many rows of a half, of which the first one laid lies at a depth of an area.
pub(crate) fn top_of(area: Area, direction: Direction, v: usize, times: usize) -> usize
    requires { v + times ≤ area.dy }
    ensures rows { (y : ℕ) → span result (result + times) y ≡ (span area.y (area.y + area.dy) y
        && (nat_le v (down_rows area direction y) && nat_lt (down_rows area direction y - v) times)) }
    ensures near { result + times ≤ area.y + area.dy }
    ensures order { (y : ℕ) → span result (result + times) y ≡ true →
        from_top direction times (y - result) ≡ down_rows area direction y - v }
{
    match direction {
        Direction::LeftToRight | Direction::BottomToTop => area.y as usize + v,
        Direction::RightToLeft | Direction::TopToBottom => {
            area.y as usize + (area.dy as usize - v - times)
        }
    }
}

/// Blackens a row where another one is black.
#[inline(always)]
fn or_row<const B: usize>(these: &[u8; B], row: &mut [u8])
    requires words { B % 8 ≡ 0 }
    requires row { length row.old ≡ B }
    ensures { Painted Black (dot these.now) row.old row.new }
{
    or_sixteens(these, 0, B / 16, row);
    if B % 16 != 0 {
        or_bytes(these, B - 8, B - 8, row);
    }
}

/// Blackens `times` rows, from one on, where a row is black: those of them that there are.
pub(crate) fn lay_times<const B: usize, const H: usize, A: Small>(
    row: &[u8; B],
    times: usize,
    top: usize,
    band: &mut Band<B, H, A>,
)
    requires { B % 8 ≡ 0 }
    ensures { RowsPainted H Black (λ x y. span top (top + times) y && dot row.now x) band.old band.new }
{
    for i in 0..times.min(H.saturating_sub(top)) {
        or_row(row, band.row_mut(top + i));
    }
}

/// Whether a row of so many bytes stands on whole words of a row of a half along which it is laid, and is no
/// longer than a line of the area.
pub(crate) fn stands_on_words<const B: usize>(area: Area, direction: Direction, wide: usize) -> bool
    requires { wide ≤ LINE_BYTES }
    ensures { result ≡ true → IsOnWords B area direction wide }
{
    let (left, right) = (area.x as usize, area.x as usize + area.dx as usize);
    let begin = match direction {
        Direction::LeftToRight | Direction::TopToBottom => left,
        Direction::RightToLeft | Direction::BottomToTop => right,
    };
    wide % 8 == 0 && begin % 8 == 0 && 8 * wide <= area.dx as usize && right.div_ceil(8) <= B
}

/// Blackens a row of a half where a row of dots is black that stands on whole words of it.
#[inline(always)]
fn or_whole(bytes: &[u8], area: Area, direction: Direction, row: &mut [u8])
    requires { IsOnWords (length row.old) area direction (length bytes.now) }
    ensures { Painted Black (λ x. span area.x (area.x + area.dx) x
        && dot bytes.now (along_row area direction x)) row.old row.new }
{
    let (left, right) = (area.x as usize, area.x as usize + area.dx as usize);
    match direction {
        Direction::LeftToRight | Direction::TopToBottom => or_words(bytes, left / 8, row),
        Direction::RightToLeft | Direction::BottomToTop => {
            or_reversed(bytes, right / 8 - bytes.len(), row)
        }
    }
}

/// Which of so many rows, laid one below the other, stands i below the uppermost of them.
#[inline(always)]
fn row_from_top(direction: Direction, rows: usize, i: usize) -> usize
    requires { i < rows }
    ensures value { result ≡ from_top direction rows i }
    ensures within { result < rows }
{
    match direction {
        Direction::LeftToRight | Direction::BottomToTop => i,
        Direction::RightToLeft | Direction::TopToBottom => rows - 1 - i,
    }
}

/// Blackens so many rows of a half, from one on, where rows of `wide` bytes are black that stand on whole
/// words of them: those of them that there are.
pub(crate) fn lay_whole<const B: usize, const H: usize, A: Small>(
    bytes: &[u8],
    wide: usize,
    rows: usize,
    area: Area,
    direction: Direction,
    top: usize,
    band: &mut Band<B, H, A>,
)
    requires words { IsOnWords B area direction wide }
    requires long { rows * wide ≤ length bytes.now }
    ensures { RowsPainted H Black (λ x y. span top (top + rows) y && (span area.x (area.x + area.dx) x
        && dot (row_in bytes.now wide (from_top direction rows (y - top))) (along_row area direction x)))
        band.old band.new }
{
    for i in 0..rows.min(H.saturating_sub(top)) {
        let at = row_from_top(direction, rows, i) * wide;
        or_whole(
            &bytes[at..at + wide],
            area,
            direction,
            band.row_mut(top + i),
        );
    }
}
