//! Each short code against a reader that looks at each place alone.
ghost use Rattle.std.specs.Prelude.{◌≡◌, ◌<◌, ◌≤◌, ◌^◌, length, if◌then◌else◌, None, Some, IfSome};
ghost use Rattle.vp_format.specs.Codes.{code_of, symbols_behind};
ghost use Rattle.vp_format.specs.Cursors.{IsMark};
ghost use Rattle.vp_format.specs.declared.rows.Coding.TheVariants.{RunLength};
ghost use Rattle.vp_format.specs.Pictures.{shown_at, is_unreadable, value_of};
ghost use Rattle.vp_label_tests.specs.Codes.{told};

use vp_dots::Fault;
use vp_format::{Coding, RunMark, RunRows};

/// What a byte of the codes is: a count, else a digit, else a digit up to the row's end, else whether it is
/// the row before once more.
type Told = (Option<u16>, Option<u8>, Option<u8>, bool);

/// What a byte of the codes is, by the ranges that it may lie in.
#[tactic(auto, unfolding(vp_format::specs::Codes::code_of))]
fn told(b: u8) -> Told
    ensures code { told result.0 result.1 result.2 result.3 ≡ code_of b }
    ensures small { IfSome result.0 (λ n. n ≤ 400) }
{
    match b {
        b'0'..=b'9' => (None, Some(b - b'0'), None, false),
        b'A'..=b'F' => (None, Some(b - b'A' + 10), None, false),
        b'a'..=b'f' => (None, Some(b - b'a' + 10), None, false),
        b'G'..=b'Y' => (Some(u16::from(b - b'F')), None, None, false),
        b'g'..=b'z' => (Some(20 * u16::from(b - b'f')), None, None, false),
        b',' => (None, None, Some(0), false),
        b'!' => (None, None, Some(15), false),
        b':' => (None, None, None, true),
        _ => (None, None, None, false),
    }
}

/// The value of `place` in rows of `width` places, where the place above has `above`, by `codes` from the
/// first on; none where its symbol is refused.
fn value_of_place(codes: &[u8], width: u128, place: u128, above: u8) -> Option<u8>
    requires some { 0 < width }
    requires small { width < 2 ^ 32 }
    requires near { place < 2 ^ 32 }
    requires few { length codes.now < 2 ^ 32 }
    ensures { result ≡ (if is_unreadable (shown_at width 0 (symbols_behind codes.now 0 0) place) then None
        else Some (value_of (shown_at width 0 (symbols_behind codes.now 0 0) place) above)) }
{
    let mut start: u128 = 0;
    let mut count: u128 = 0;
    for i in 0..codes.len() {
        let (counted, digit, filled, is_above) = told(codes[i]);
        if let Some(n) = counted {
            count += n as u128;
            continue;
        }
        let row_end = (start / width + 1) * width;
        let (end, value) = match (digit, filled) {
            (Some(v), _) => (start + count.max(1), Some(v)),
            (None, Some(v)) if count == 0 => (row_end, Some(v)),
            (None, None) if is_above && count == 0 && start % width == 0 => (row_end, Some(above)),
            _ => (row_end, None),
        };
        if place < end {
            return value;
        }
        start = end;
        count = 0;
    }
    if count > 0 && place < (start / width + 1) * width {
        return None;
    }
    Some(0)
}

/// The row behind a mark in three rows of one or two bytes, and what its reading answers.
fn row_behind(codes: &[u8], row_bytes: usize, mark: RunMark) -> (Result<bool, Fault>, [u8; 2])
    requires some { 0 < row_bytes }
    requires narrow { row_bytes ≤ 2 }
    requires mark { IsMark (record {
      coding = RunLength;
      codes = codes.now;
      row_bytes = row_bytes;
      rows = 3;
    }) mark }
{
    let mut row = [0; 2];
    let mut cursor = RunRows::resume(codes, Coding::RunLength, row_bytes, 3, mark);
    let read = cursor.next_row(&mut row[..row_bytes]);
    (read, row)
}

/// Brings the values of a row's places from the row above to this one; false where one is refused.
fn step(codes: &[u8], row_bytes: usize, y: usize, above: &mut [u8; 4]) -> bool
    requires some { 0 < row_bytes }
    requires narrow { row_bytes ≤ 2 }
    requires row { y < 3 }
    requires few { length codes.now < 2 ^ 32 }
{
    for x in 0..2 * row_bytes {
        let place = 2 * row_bytes * y + x;
        let Some(v) = value_of_place(codes, 2 * row_bytes as u128, place as u128, above[x]) else {
            return false;
        };
        above[x] = v;
    }
    true
}

/// Whether a row's first bytes are of these values, two in a byte.
fn is_of(row: [u8; 2], row_bytes: usize, values: &[u8; 4]) -> bool
    requires { row_bytes ≤ 2 }
{
    for i in 0..row_bytes {
        if row[i] as u32 != 16 * values[2 * i] as u32 + values[2 * i + 1] as u32 {
            return false;
        }
    }
    true
}

/// Whether a picture of three rows of one or two bytes reads row by row, and from a mark on before each row,
/// as its places do one by one.
fn reads_by_places(codes: &[u8], row_bytes: usize) -> bool
    requires some { 0 < row_bytes }
    requires narrow { row_bytes ≤ 2 }
    requires few { length codes.now < 2 ^ 32 }
{
    let mut cursor = RunRows::new(codes, Coding::RunLength, row_bytes, 3);
    let mut values = [0; 4];
    for y in 0..3 {
        let (marked_read, marked_row) = row_behind(codes, row_bytes, cursor.mark());
        let mut row = [0; 2];
        let read = cursor.next_row(&mut row[..row_bytes]);
        if read != marked_read {
            return false;
        }
        if !step(codes, row_bytes, y, &mut values) {
            return read == Err(Fault::Graphic);
        }
        if read != Ok(true) || row != marked_row || !is_of(row, row_bytes, &values) {
            return false;
        }
    }
    true
}

#[test]
fn each_short_code(rt: HostRuntime) {
    let alphabet = *b"0FGg,!: x";
    let powers: [u32; 5] = [9, 81, 729, 6561, 59049];
    for len in 1..6 {
        for number in 0..powers[len - 1] {
            let mut codes = [0; 5];
            let mut rest = number;
            for i in 0..len {
                codes[i] = alphabet[(rest % 9) as usize];
                rest /= 9;
            }
            assert!(rt; reads_by_places(&codes[..len], 1));
            assert!(rt; reads_by_places(&codes[..len], 2));
        }
    }
}
