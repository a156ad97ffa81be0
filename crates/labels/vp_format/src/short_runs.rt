//! Digits with the counts before them, and the short ones of them in a row.
ghost use Rattle.std.specs.Prelude.{◌≡◌, ℕ, ◌+◌, ◌-◌, ◌∷◌, ◌<◌, ◌≤◌, List, length};
ghost use Rattle.vp_format.specs.Codes.{spelled};
ghost use Rattle.vp_format.specs.Cursors.{symbols_from, HasRoom, ReadsOn};
ghost use Rattle.vp_format.specs.declared.codes.Symbol.TheVariants.{Digits};

use crate::codes::{count_value, digit_value};
use crate::counted::put_counted;
use crate::digits::LANES;
use crate::packing::{SHORT, fill_short};

/// More than two counts add.
pub const OTHER: usize = 1000;

/// A digit, and how many places it takes: `OTHER` or more where another code stands there.
#[derive(Clone, Copy)]
pub struct Run {
    pub places: usize,
    pub digit: u8,
    /// The byte behind it.
    pub behind: usize,
}

/// Another code before a byte.
fn other(behind: usize) -> Run
    ensures { result ≡ record { places = OTHER; digit = 0; behind = behind } }
{
    Run {
        places: OTHER,
        digit: 0,
        behind,
    }
}

/// The digit from a byte on, which may stand behind two counts.
// Whether a count stands before it is added up, not asked, since no processor guesses it.
#[inline(always)]
pub fn run_at(bytes: &[u8], at: usize) -> Run
    requires { at + 1 < length bytes.now }
    ensures some { 0 < result.places }
    ensures few { result.places ≤ 2000 }
    ensures digit { result.digit < 16 }
    ensures behind { at < result.behind }
    ensures inside { result.behind ≤ length bytes.now }
    ensures symbol { result.places < OTHER → symbols_from bytes.now at
        ≡ spelled (Digits result.places result.digit) (result.behind - at)
        ∷ symbols_from bytes.now result.behind }
{
    let count = usize::from(count_value(bytes[at]));
    // of digits and counts, these are the counts
    let next = at + usize::from(bytes[at] | 0x20 > b'f');
    let digit = digit_value(bytes[next]);
    if digit < 16 {
        return Run {
            places: count.max(1),
            digit,
            behind: next + 1,
        };
    }
    if bytes.len() - next == 1 {
        return other(next + 1);
    }
    let sum = count + usize::from(count_value(bytes[next]));
    let last = digit_value(bytes[next + 1]);
    if last >= 16 {
        return other(next + 2);
    }
    Run {
        places: sum.max(1),
        digit: last,
        behind: next + 2,
    }
}

/// Reads digits and runs of at most `SHORT` places from place `from` of a row of `width` places on, as long
/// as they end within it, and gives the place behind them and that of the next code that isn't read. Sixteen
/// codes that can't be read at once are read one by one.
// Each fills as many places, so that nothing hangs on how long it is.
pub fn short_runs(
    bytes: &[u8],
    first: usize,
    from: usize,
    width: usize,
    places: &mut [u8],
) -> (usize, usize)
    requires first { first ≤ length bytes.now }
    requires room { HasRoom width places.old from }
    ensures { ReadsOn width bytes.now places.old from first places.new result.0 result.1 }
{
    let mut x = from;
    let mut at = first;
    let mut single = first;
    while at + 1 < bytes.len() {
        if at > single {
            single = at + (LANES - 1);
            (x, at) = put_counted(bytes, at, x, width, places);
            continue;
        }
        let run = run_at(bytes, at);
        let to = x + run.places;
        if run.places > SHORT || to >= width {
            break;
        }
        fill_short(x, run.digit, places);
        x = to;
        at = run.behind;
    }
    (x, at)
}
