//! Codes passed by where their symbols end, in a quick way.
ghost use Rattle.std.specs.Prelude.{◌^◌, ◌<◌, ◌≤◌, length};
ghost use Rattle.vp_format.specs.Cursors.{PassesOn};

use crate::counted::counted;
use crate::digits::{LANES, WIDE, are_digits, digits_in};
use crate::short_runs::{OTHER, run_at};

/// Passes digits as `pass_digits` does, as far as they come `WIDE` at a time.
fn pass_wide(bytes: &[u8], first: usize, from: u64, end: u64) -> (u64, usize)
    requires first { first ≤ length bytes.now }
    requires end { end < 2 ^ 44 }
    ensures { PassesOn bytes.now from first result.0 result.1 }
{
    let mut x = from;
    let mut at = first;
    while x < end && bytes.len() - at >= WIDE && are_digits(bytes, at) {
        x += WIDE as u64;
        at += WIDE;
    }
    (x, at)
}

/// Passes digits from a byte on, where a symbol starts at a place, as far as they go, but none that starts
/// at an end: gives the place and the byte of the next symbol. Of the last bytes none may be passed.
fn pass_digits(bytes: &[u8], first: usize, from: u64, end: u64) -> (u64, usize)
    requires first { first ≤ length bytes.now }
    requires end { end < 2 ^ 44 }
    ensures { PassesOn bytes.now from first result.0 result.1 }
{
    let (mut x, mut at) = pass_wide(bytes, first, from, end);
    while x < end && bytes.len() - at >= LANES {
        let count = digits_in(bytes, at);
        if count < LANES {
            return (x + count as u64, at + count);
        }
        x += LANES as u64;
        at += LANES;
    }
    (x, at)
}

/// Passes digits, and those behind counts, in the same way. Sixteen codes that can't be passed at once are
/// passed one by one.
pub fn pass_runs(bytes: &[u8], first: usize, from: u64, end: u64) -> (u64, usize)
    requires first { first ≤ length bytes.now }
    requires end { end < 2 ^ 44 }
    ensures { PassesOn bytes.now from first result.0 result.1 }
{
    let (mut x, mut at) = pass_digits(bytes, first, from, end);
    let mut single = at;
    while x < end && bytes.len() - at > 1 {
        if at > single {
            single = at + (LANES - 1);
            let (places, behind) = counted(bytes, at);
            x += places as u64;
            at = behind;
            continue;
        }
        let run = run_at(bytes, at);
        if run.places >= OTHER {
            break;
        }
        x += run.places as u64;
        at = run.behind;
    }
    (x, at)
}
