//! What a byte of run-length codes is.
ghost use Rattle.std.specs.Prelude.{◌≡◌, ◌≤◌};
ghost use Rattle.vp_format.specs.Codes.{code_of};
ghost use Rattle.vp_format.specs.Cursors.{SmallCode, count_value, digit_value};

/// What a byte of the codes is.
#[derive(Clone, Copy)]
pub enum Code {
    /// A hex digit, by its value.
    Digit(u8),
    /// How often the next digit stands.
    Count(u16),
    /// A digit up to the row's end.
    Fill(u8),
    /// The row before once more.
    Above,
    Other,
}

/// Codes with the counts joined to their digit.
#[derive(Clone, Copy)]
pub enum Symbol {
    /// How often a digit stands, and the digit.
    Digits(u128, u8),
    /// A digit up to the row's end.
    ToEnd(u8),
    /// The row before once more.
    Again,
    Refused,
}

/// What a byte is, by the ranges that it may lie in.
#[tactic(auto, unfolding(crate::specs::Codes::code_of))]
fn code_by_range(b: u8) -> Code
    ensures code { result ≡ code_of b }
    ensures small { SmallCode result }
{
    match b {
        b'0'..=b'9' => Code::Digit(b - b'0'),
        b'A'..=b'F' => Code::Digit(b - b'A' + 10),
        b'a'..=b'f' => Code::Digit(b - b'a' + 10),
        b'G'..=b'Y' => Code::Count(u16::from(b - b'F')),
        b'g'..=b'z' => Code::Count(20 * u16::from(b - b'f')),
        b',' => Code::Fill(0),
        b'!' => Code::Fill(15),
        b':' => Code::Above,
        _ => Code::Other,
    }
}

/// The values of hex digits, and 16 of all other bytes.
const VALUES: [u8; 256] = [
    16, 16, 16, 16, 16, 16, 16, 16, 16, 16, 16, 16, 16, 16, 16, 16, 16, 16, 16, 16, 16, 16, 16, 16,
    16, 16, 16, 16, 16, 16, 16, 16, 16, 16, 16, 16, 16, 16, 16, 16, 16, 16, 16, 16, 16, 16, 16, 16,
    0, 1, 2, 3, 4, 5, 6, 7, 8, 9, 16, 16, 16, 16, 16, 16, 16, 10, 11, 12, 13, 14, 15, 16, 16, 16,
    16, 16, 16, 16, 16, 16, 16, 16, 16, 16, 16, 16, 16, 16, 16, 16, 16, 16, 16, 16, 16, 16, 16, 10,
    11, 12, 13, 14, 15, 16, 16, 16, 16, 16, 16, 16, 16, 16, 16, 16, 16, 16, 16, 16, 16, 16, 16, 16,
    16, 16, 16, 16, 16, 16, 16, 16, 16, 16, 16, 16, 16, 16, 16, 16, 16, 16, 16, 16, 16, 16, 16, 16,
    16, 16, 16, 16, 16, 16, 16, 16, 16, 16, 16, 16, 16, 16, 16, 16, 16, 16, 16, 16, 16, 16, 16, 16,
    16, 16, 16, 16, 16, 16, 16, 16, 16, 16, 16, 16, 16, 16, 16, 16, 16, 16, 16, 16, 16, 16, 16, 16,
    16, 16, 16, 16, 16, 16, 16, 16, 16, 16, 16, 16, 16, 16, 16, 16, 16, 16, 16, 16, 16, 16, 16, 16,
    16, 16, 16, 16, 16, 16, 16, 16, 16, 16, 16, 16, 16, 16, 16, 16, 16, 16, 16, 16, 16, 16, 16, 16,
    16, 16, 16, 16, 16, 16, 16, 16, 16, 16, 16, 16, 16, 16,
];

/// The value of a hex digit, and 16 of another byte.
pub fn digit_value(b: u8) -> u8
    ensures { result ≡ digit_value (code_of b) }
{
    VALUES[b as usize]
}

/// What counts add, 0 of hex digits, and 1,000, more than any count, of all other bytes.
const COUNTS: [u16; 256] = [
    1000, 1000, 1000, 1000, 1000, 1000, 1000, 1000, 1000, 1000, 1000, 1000, 1000, 1000, 1000, 1000,
    1000, 1000, 1000, 1000, 1000, 1000, 1000, 1000, 1000, 1000, 1000, 1000, 1000, 1000, 1000, 1000,
    1000, 1000, 1000, 1000, 1000, 1000, 1000, 1000, 1000, 1000, 1000, 1000, 1000, 1000, 1000, 1000,
    0, 0, 0, 0, 0, 0, 0, 0, 0, 0, 1000, 1000, 1000, 1000, 1000, 1000, 1000, 0, 0, 0, 0, 0, 0, 1, 2,
    3, 4, 5, 6, 7, 8, 9, 10, 11, 12, 13, 14, 15, 16, 17, 18, 19, 1000, 1000, 1000, 1000, 1000,
    1000, 1000, 0, 0, 0, 0, 0, 0, 20, 40, 60, 80, 100, 120, 140, 160, 180, 200, 220, 240, 260, 280,
    300, 320, 340, 360, 380, 400, 1000, 1000, 1000, 1000, 1000, 1000, 1000, 1000, 1000, 1000, 1000,
    1000, 1000, 1000, 1000, 1000, 1000, 1000, 1000, 1000, 1000, 1000, 1000, 1000, 1000, 1000, 1000,
    1000, 1000, 1000, 1000, 1000, 1000, 1000, 1000, 1000, 1000, 1000, 1000, 1000, 1000, 1000, 1000,
    1000, 1000, 1000, 1000, 1000, 1000, 1000, 1000, 1000, 1000, 1000, 1000, 1000, 1000, 1000, 1000,
    1000, 1000, 1000, 1000, 1000, 1000, 1000, 1000, 1000, 1000, 1000, 1000, 1000, 1000, 1000, 1000,
    1000, 1000, 1000, 1000, 1000, 1000, 1000, 1000, 1000, 1000, 1000, 1000, 1000, 1000, 1000, 1000,
    1000, 1000, 1000, 1000, 1000, 1000, 1000, 1000, 1000, 1000, 1000, 1000, 1000, 1000, 1000, 1000,
    1000, 1000, 1000, 1000, 1000, 1000, 1000, 1000, 1000, 1000, 1000, 1000, 1000, 1000, 1000, 1000,
    1000, 1000, 1000, 1000, 1000, 1000, 1000, 1000, 1000, 1000,
];

/// What a byte adds to the counts before it: none of a digit, and 1,000 of a byte that is neither.
pub fn count_value(b: u8) -> u16
    ensures value { result ≡ count_value (code_of b) }
    ensures few { result ≤ 1000 }
{
    COUNTS[b as usize]
}

/// What a byte is. Most are digits, and found in the table.
pub fn code_of(b: u8) -> Code
    ensures code { result ≡ code_of b }
    ensures small { SmallCode result }
{
    let value = digit_value(b);
    if value < 16 {
        Code::Digit(value)
    } else {
        code_by_range(b)
    }
}
