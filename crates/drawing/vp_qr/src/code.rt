//! The codes of format and version.

ghost use Rattle.std.specs.Prelude.{◌≡◌, ◌+◌, ◌^◌, ◌<◌, ◌≤◌};
ghost use Rattle.vp_qr.specs.Codes.{reduced, remainder, level_bits, format_code, version_code};

use crate::level::Level;

/// Clears bit `degree + place` by a multiple of the polynomial.
fn reduced(polynomial: u64, degree: u32, place: u32, number: u64) -> u64
    requires polynomial { polynomial < 2 ^ 16 }
    requires degree { degree ≤ 16 }
    requires place { place < 16 }
    requires number { number < 2 ^ 32 }
    ensures value { result ≡ reduced polynomial degree place number }
    ensures most { result < 2 ^ 32 }
{
    if number >> (degree + place) & 1 == 1 {
        return number ^ (polynomial << place);
    }
    number
}

/// The remainder of a number of `degree + n` bits by a polynomial of this degree.
fn remainder(polynomial: u64, degree: u32, n: u32, number: u64) -> u64
    requires polynomial { polynomial < 2 ^ 16 }
    requires degree { degree ≤ 16 }
    requires n { n ≤ 16 }
    requires number { number < 2 ^ 32 }
    ensures value { result ≡ remainder polynomial degree n number }
    ensures most { result < 2 ^ 32 }
{
    let mut number = number;
    for k in 0..n {
        number = reduced(polynomial, degree, n - 1 - k, number);
    }
    number
}

/// The two bits that name a level.
fn level_bits(level: Level) -> u64
    ensures value { result ≡ level_bits level }
    ensures most { result < 4 }
{
    match level {
        Level::L => 1,
        Level::M => 0,
        Level::Q => 3,
        Level::H => 2,
    }
}

/// The fifteen bits of the format.
#[tactic(auto, unfolding(crate::specs::Codes::format_code))]
pub fn format_code(level: Level, mask: usize) -> u64
    requires { mask < 8 }
    ensures { result ≡ format_code level mask }
{
    let five = 8 * level_bits(level) + mask as u64;
    (1024 * five + remainder(0x537, 10, 5, 1024 * five)) ^ 0x5412
}

/// The eighteen bits of the version.
#[tactic(auto, unfolding(crate::specs::Codes::version_code))]
pub fn version_code(version: usize) -> u64
    requires { version ≤ 10 }
    ensures { result ≡ version_code version }
{
    let version = version as u64;
    4096 * version + remainder(0x1f25, 12, 6, 4096 * version)
}
