//! The one segment of a symbol: its mode, its bits and the version that holds them.

ghost use Rattle.std.specs.Prelude.{◌≡◌, ◌==◌, ◌+◌, ◌^◌, ◌<◌, ◌≤◌, ◌++◌, length, IfSome};
ghost use Rattle.std.specs.List.{list_all, position_or_len};
ghost use Rattle.arrayvec.specs.ArrayVec.{array_vec_len};
ghost use Rattle.vp_qr.specs.Segments.{alnum_value, digit_value, has, kind_of, three_digits, two_digits, pair_value, indicator, count_bits, numeric_bits, alphanumeric_bits, byte_bits, data_bits, message};
ghost use Rattle.vp_qr.specs.Versions.{fits, smallest, Holds};

use crate::level::Level;
use crate::string::{BitString, push_bits};
use arrayvec::ArrayVec;

/// The mode that is asked for.
#[derive(Clone, Copy, Debug, PartialEq, Eq)]
pub enum Mode {
    /// Digits where all bytes are, else alphanumeric where all are, else bytes.
    Auto,
    /// Digits alone.
    Digits,
    /// Digits, capital letters, space and `$%*+-./:`.
    Alnum,
    /// Any bytes.
    Bytes,
}

/// The mode of the segment.
#[derive(Clone, Copy)]
pub enum Kind {
    Numeric,
    Alphanumeric,
    Byte,
}

/// The characters of the alphanumeric mode, in the order of their values.
const ALPHABET: &[u8] = b"0123456789ABCDEFGHIJKLMNOPQRSTUVWXYZ $%*+-./:";

/// The value of an alphanumeric character, 45 for any other byte.
#[tactic(auto, unfolding(crate::specs::Segments::alnum_value))]
fn alnum_value(byte: u8) -> u32
    ensures value { result ≡ alnum_value byte }
    ensures most { result ≤ 45 }
{
    place_of(byte, ALPHABET) as u32
}

/// The place of a byte among others, or their number.
fn place_of(byte: u8, among: &[u8]) -> usize
    ensures place { result ≡ position_or_len (λ c. c == byte) among.now }
    ensures most { result ≤ length among.now }
{
    for (i, c) in among.iter().enumerate() {
        if *c == byte {
            return i;
        }
    }
    among.len()
}

/// The value of a digit.
fn digit_value(byte: u8) -> u32
    ensures value { result ≡ digit_value byte }
    ensures most { result ≤ 255 }
{
    u32::from(byte.saturating_sub(b'0'))
}

impl Mode {
    /// The mode of the segment that holds these bytes.
    pub(crate) fn kind(self, src: &[u8]) -> Kind
        ensures { result ≡ kind_of self src.now }
    {
        match self {
            Mode::Auto => {
                if Kind::Numeric.has_all(src) {
                    Kind::Numeric
                } else if Kind::Alphanumeric.has_all(src) {
                    Kind::Alphanumeric
                } else {
                    Kind::Byte
                }
            }
            Mode::Digits => Kind::Numeric,
            Mode::Alnum => Kind::Alphanumeric,
            Mode::Bytes => Kind::Byte,
        }
    }
}

impl Kind {
    /// Whether the mode has this byte.
    fn has(self, byte: u8) -> bool
        ensures { result ≡ has self byte }
    {
        match self {
            Kind::Numeric => byte.is_ascii_digit(),
            Kind::Alphanumeric => alnum_value(byte) < 45,
            Kind::Byte => true,
        }
    }

    /// Whether the mode has all these bytes.
    pub(crate) fn has_all(self, src: &[u8]) -> bool
        ensures { result ≡ list_all (has self) src.now }
    {
        src.iter().all(|byte| self.has(*byte))
    }

    /// How many bits the data take.
    #[tactic(auto, using(crate::proofs::Lengths::data_lengths))]
    fn data_length(self, src: &[u8]) -> u128
        ensures value { result ≡ length (data_bits self src.now) }
        ensures most { result < 2 ^ 70 }
    {
        let n = src.len() as u128;
        match self {
            Kind::Numeric => (10 * n + 2) / 3,
            Kind::Alphanumeric => (11 * n + 1) / 2,
            Kind::Byte => n * 8,
        }
    }

    /// The number that names the mode.
    fn indicator(self) -> u32
        ensures { result ≡ indicator self }
    {
        match self {
            Kind::Numeric => 1,
            Kind::Alphanumeric => 2,
            Kind::Byte => 4,
        }
    }

    /// How many bits count the bytes.
    fn count_bits(self, version: usize) -> u32
        ensures value { result ≡ count_bits self version }
        ensures most { result ≤ 16 }
    {
        match self {
            Kind::Numeric if version < 10 => 10,
            Kind::Numeric => 12,
            Kind::Alphanumeric if version < 10 => 9,
            Kind::Alphanumeric => 11,
            Kind::Byte if version < 10 => 8,
            Kind::Byte => 16,
        }
    }
}

/// The number of three digits.
fn three_digits(a: u8, b: u8, c: u8) -> u32
    ensures { result ≡ three_digits a b c }
{
    100 * digit_value(a) + 10 * digit_value(b) + digit_value(c)
}

/// The number of two digits.
fn two_digits(a: u8, b: u8) -> u32
    ensures { result ≡ two_digits a b }
{
    10 * digit_value(a) + digit_value(b)
}

/// The number of two characters.
fn pair_value(a: u8, b: u8) -> u32
    ensures { result ≡ pair_value a b }
{
    45 * alnum_value(a) + alnum_value(b)
}

/// Appends digits by three.
fn push_numeric(string: &mut BitString, digits: &[u8])
    requires { array_vec_len string.old + length (numeric_bits digits.now) ≤ 2192 }
    ensures { string.new.items ≡ string.old.items ++ numeric_bits digits.now }
{
    let mut left = digits;
    while let [a, b, c, rest @ ..] = left {
        push_bits(string, 10, three_digits(*a, *b, *c));
        left = rest;
    }
    match left {
        [a, b, ..] => push_bits(string, 7, two_digits(*a, *b)),
        [a] => push_bits(string, 4, digit_value(*a)),
        [] => {}
    }
}

/// Appends characters by two.
fn push_alphanumeric(string: &mut BitString, characters: &[u8])
    requires { array_vec_len string.old + length (alphanumeric_bits characters.now) ≤ 2192 }
    ensures { string.new.items ≡ string.old.items ++ alphanumeric_bits characters.now }
{
    let mut left = characters;
    while let [a, b, rest @ ..] = left {
        push_bits(string, 11, pair_value(*a, *b));
        left = rest;
    }
    if let [a, ..] = left {
        push_bits(string, 6, alnum_value(*a));
    }
}

/// Appends bytes.
fn push_bytes(string: &mut BitString, bytes: &[u8])
    requires { array_vec_len string.old + length (byte_bits bytes.now) ≤ 2192 }
    ensures { string.new.items ≡ string.old.items ++ byte_bits bytes.now }
{
    let mut left = bytes;
    while let [byte, rest @ ..] = left {
        push_bits(string, 8, u32::from(*byte));
        left = rest;
    }
}

/// Mode, count and data of the segment.
#[tactic(auto, unfolding(crate::specs::Segments::message))]
pub fn message(kind: Kind, version: usize, src: &[u8]) -> BitString
    requires { length (message kind version src.now) ≤ 2192 }
    ensures { result.items ≡ message kind version src.now }
{
    let mut string = ArrayVec::new();
    push_bits(&mut string, 4, kind.indicator());
    push_bits(&mut string, kind.count_bits(version), src.len() as u32);
    match kind {
        Kind::Numeric => push_numeric(&mut string, src),
        Kind::Alphanumeric => push_alphanumeric(&mut string, src),
        Kind::Byte => push_bytes(&mut string, src),
    }
    string
}

/// Whether a version holds the segment.
#[tactic(auto, using(crate::proofs::Lengths::length_message), unfolding(crate::specs::Versions::fits))]
fn fits(level: Level, kind: Kind, src: &[u8], version: usize) -> bool
    requires low { 1 ≤ version }
    requires high { version ≤ 10 }
    ensures { result ≡ fits level kind src.now version }
{
    let length = 4 + kind.count_bits(version) as u128 + kind.data_length(src);
    length <= 8 * level.blocks(version).capacity() as u128
}

/// The smallest version that holds the segment, if one up to 10 does.
#[tactic(auto, unfolding(crate::specs::Versions::smallest))]
pub fn smallest_version(level: Level, kind: Kind, src: &[u8]) -> Option<usize>
    ensures version { result ≡ smallest level kind src.now }
    ensures holds { IfSome result (Holds level kind src.now) }
{
    for version in 1..11usize {
        if fits(level, kind, src, version) {
            return Some(version);
        }
    }
    None
}
