//! Parameters as they are kept, and the numbers, letters and hex digits that are read.
ghost use Rattle.std.specs.Prelude.{◌<◌, ◌≤◌, Some, ◌≡◌, ◌++◌, ◌∷◌, [], ℕ, List, take, map};
ghost use Rattle.vp_zpl.specs.Spelling.{kept, number_of, number_in as number_is_in, number_on as number_from, capital as capital_of, hex_of, hex_pair, is_digit as is_digit_byte};
ghost use Rattle.vp_zpl.specs.Commands.{is_b as says_b, count_of as count_in, indicator_in};
ghost use Rattle.vp_zpl.specs.Shown.{shown_part, shown_parts};

use arrayvec::ArrayVec;

/// A letter's capital.
#[tactic(auto, unfolding(crate::specs::Spelling::capital))]
pub(crate) fn capital(byte: u8) -> u8
    ensures { result ≡ capital_of byte }
{
    if byte >= b'a' && byte <= b'z' {
        return byte - 32;
    }
    byte
}

pub(crate) fn is_digit(byte: u8) -> bool
    ensures { result ≡ is_digit_byte byte }
{
    byte >= b'0' && byte <= b'9'
}

/// The value of a hex digit.
#[tactic(auto, unfolding(crate::specs::Spelling::hex_of))]
pub(crate) fn hex(byte: u8) -> Option<u8>
    ensures value { result ≡ hex_of byte }
    ensures small { (n : ℕ) → result ≡ Some n → n < 16 }
{
    if is_digit(byte) {
        return Some(byte - b'0');
    }
    let letter = capital(byte);
    if letter >= b'A' && letter <= b'F' {
        return Some(letter - 0x37);
    }
    None
}

/// The byte of two hex digits.
pub(crate) fn hex_byte(high: u8, low: u8) -> Option<u8>
    ensures { result ≡ hex_pair (hex_of high) (hex_of low) }
{
    match hex(high) {
        None => None,
        Some(a) => match hex(low) {
            None => None,
            Some(b) => Some(16 * a + b),
        },
    }
}

/// A parameter as far as it is kept.
#[derive(Debug, Default, Drop)]
pub struct Part {
    /// Its first 16 bytes.
    pub bytes: ArrayVec<u8, 16>,
    /// Whether the parameter is longer, and so unreadable.
    pub is_long: bool,
}

impl Part {
    pub(crate) fn new() -> Part
        ensures { shown_part result ≡ kept [] }
    {
        Part {
            bytes: ArrayVec::new(),
            is_long: false,
        }
    }

    /// One more byte of the parameter.
    pub(crate) fn push(&mut self, byte: u8)
        ensures { (p : List ℕ) → shown_part self.old ≡ kept p → shown_part self.new ≡ kept (p ++ byte ∷ []) }
    {
        if self.bytes.is_full() {
            self.is_long = true;
            return;
        }
        self.bytes.push(byte);
    }

    /// The parameter, which begins anew.
    pub(crate) fn take(&mut self) -> Part
        ensures gives { shown_part result ≡ shown_part self.old }
        ensures anew { shown_part self.new ≡ kept [] }
    {
        let bytes = self.bytes.take();
        let is_long = self.is_long;
        self.is_long = false;
        Part { bytes, is_long }
    }

    /// The number that it spells, at most 99,999,999.
    #[tactic(auto, unfolding(crate::specs::Spelling::number_of))]
    pub(crate) fn number(&self) -> Option<u32>
        ensures value { result ≡ number_of (shown_part self.now) }
        ensures bound { (n : ℕ) → result ≡ Some n → n ≤ 99999999 }
    {
        number_in(self.is_long, self.bytes.as_slice())
    }
}

/// The number of these digits, unless a longer parameter begins with them.
pub(crate) fn number_in(is_long: bool, digits: &[u8]) -> Option<u32>
    ensures value { result ≡ number_is_in is_long digits.now }
    ensures bound { (n : ℕ) → result ≡ Some n → n ≤ 99999999 }
{
    if digits.is_empty() {
        return None;
    }
    if is_long {
        return None;
    }
    number_on(digits)
}

/// The number of these digits; above 99,999,999 it counts as that.
fn number_on(digits: &[u8]) -> Option<u32>
    ensures value { result ≡ number_from 0 digits.now }
    ensures bound { (n : ℕ) → result ≡ Some n → n ≤ 99999999 }
{
    let mut n: u32 = 0;
    for i in 0..digits.len() {
        let byte = digits[i];
        if !is_digit(byte) {
            return None;
        }
        n = (10 * n + (byte - b'0') as u32).min(99_999_999);
    }
    Some(n)
}

/// ^GF's first parameter says B.
pub(crate) fn is_b(parameters: &[Part]) -> bool
    ensures { result ≡ says_b (shown_parts parameters.now) }
{
    if parameters.is_empty() {
        return false;
    }
    let bytes = parameters[0].bytes.as_slice();
    bytes.len() == 1 && capital(bytes[0]) == b'B'
}

/// How many bytes ^GF's second parameter says.
pub(crate) fn count_of(parameters: &[Part]) -> u32
    ensures { result ≡ count_in (shown_parts parameters.now) }
{
    if parameters.len() < 2 {
        return 0;
    }
    match parameters[1].number() {
        Some(n) => n,
        None => 0,
    }
}

/// The indicator that ^FH gives.
pub(crate) fn indicator_of(parameters: &[Part]) -> u8
    ensures { result ≡ indicator_in (shown_parts parameters.now) }
{
    if parameters.is_empty() {
        return b'_';
    }
    let bytes = parameters[0].bytes.as_slice();
    if bytes.len() == 1 { bytes[0] } else { b'_' }
}
