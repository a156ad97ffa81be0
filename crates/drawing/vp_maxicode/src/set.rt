//! The code sets and their characters.

ghost use Rattle.std.specs.Prelude.{◌≡◌, ℕ, ◌<◌, true, IfSome};
ghost use Rattle.vp_maxicode.specs.Characters.{value_a, value_b, value_c, value_d, value_e, value_in, has, code, home, only_a, only_b};

/// A code set.
#[derive(Clone, Copy)]
pub enum CodeSet {
    A,
    B,
    C,
    D,
    E,
}

/// The value of a byte in set A.
#[tactic(auto, unfolding(crate::specs::Characters::value_a))]
fn value_a(byte: u8) -> Option<u16>
    ensures value { result ≡ value_a byte }
    ensures small { IfSome result (λ value. value < 64) }
{
    match byte {
        b'\r' => Some(0),
        28..=30 | b'"'..=b':' => Some(u16::from(byte)),
        b' ' => Some(32),
        b'A'..=b'Z' => Some(u16::from(byte) - 64),
        _ => None,
    }
}

/// In set B.
#[tactic(auto, unfolding(crate::specs::Characters::value_b))]
fn value_b(byte: u8) -> Option<u16>
    ensures value { result ≡ value_b byte }
    ensures small { IfSome result (λ value. value < 64) }
{
    match byte {
        28..=30 => Some(u16::from(byte)),
        b' ' => Some(47),
        b'!' => Some(53),
        b',' => Some(48),
        b'.'..=b'/' => Some(u16::from(byte) + 3),
        b':' => Some(51),
        b';'..=b'?' => Some(u16::from(byte) - 22),
        b'@' => Some(52),
        b'['..=b'_' => Some(u16::from(byte) - 49),
        b'`'..=b'z' => Some(u16::from(byte) - 96),
        b'{' => Some(32),
        b'|' => Some(54),
        b'}'..=127 => Some(u16::from(byte) - 91),
        _ => None,
    }
}

/// In set C.
#[tactic(auto, unfolding(crate::specs::Characters::value_c))]
fn value_c(byte: u8) -> Option<u16>
    ensures value { result ≡ value_c byte }
    ensures small { IfSome result (λ value. value < 64) }
{
    match byte {
        28..=30 => Some(u16::from(byte)),
        b' ' => Some(59),
        128..=137 => Some(u16::from(byte) - 80),
        170 => Some(37),
        172 => Some(38),
        177..=179 => Some(u16::from(byte) - 138),
        181 => Some(42),
        185..=186 => Some(u16::from(byte) - 142),
        188..=190 => Some(u16::from(byte) - 143),
        192..=218 => Some(u16::from(byte) - 192),
        219..=223 => Some(u16::from(byte) - 187),
        _ => None,
    }
}

/// In set D.
#[tactic(auto, unfolding(crate::specs::Characters::value_d))]
fn value_d(byte: u8) -> Option<u16>
    ensures value { result ≡ value_d byte }
    ensures small { IfSome result (λ value. value < 64) }
{
    match byte {
        28..=30 => Some(u16::from(byte)),
        b' ' => Some(59),
        138..=148 => Some(u16::from(byte) - 91),
        161 => Some(37),
        168 => Some(38),
        171 => Some(39),
        175..=176 => Some(u16::from(byte) - 135),
        180 => Some(42),
        183..=184 => Some(u16::from(byte) - 140),
        187 => Some(45),
        191 => Some(46),
        224..=250 => Some(u16::from(byte) - 224),
        251..=255 => Some(u16::from(byte) - 219),
        _ => None,
    }
}

/// In set E.
#[tactic(auto, unfolding(crate::specs::Characters::value_e))]
fn value_e(byte: u8) -> Option<u16>
    ensures value { result ≡ value_e byte }
    ensures small { IfSome result (λ value. value < 64) }
{
    match byte {
        0..=26 => Some(u16::from(byte)),
        27 => Some(30),
        28..=31 => Some(u16::from(byte) + 4),
        b' ' => Some(59),
        149..=158 => Some(u16::from(byte) - 101),
        159..=160 => Some(u16::from(byte) - 123),
        162..=167 => Some(u16::from(byte) - 124),
        169 => Some(44),
        173..=174 => Some(u16::from(byte) - 128),
        182 => Some(47),
        _ => None,
    }
}

impl CodeSet {
    /// The value of a byte that it has.
    pub fn value(self, byte: u8) -> Option<u16>
        ensures value { result ≡ value_in self byte }
        ensures small { IfSome result (λ value. value < 64) }
    {
        match self {
            CodeSet::A => value_a(byte),
            CodeSet::B => value_b(byte),
            CodeSet::C => value_c(byte),
            CodeSet::D => value_d(byte),
            CodeSet::E => value_e(byte),
        }
    }

    /// Whether it has a byte.
    pub fn has(self, byte: u8) -> bool
        ensures { result ≡ has self byte }
    {
        self.value(byte).is_some()
    }

    /// The value of a byte, 0 where it hasn't this.
    pub fn code(self, byte: u8) -> u16
        ensures code { result ≡ code self byte }
        ensures small { result < 64 }
    {
        self.value(byte).unwrap_or(0)
    }

    /// The first set that has a byte.
    #[tactic(auto, unfolding(crate::specs::Characters::home))]
    pub fn of(byte: u8) -> CodeSet
        ensures { result ≡ home byte }
    {
        if CodeSet::A.has(byte) {
            CodeSet::A
        } else if CodeSet::B.has(byte) {
            CodeSet::B
        } else if CodeSet::C.has(byte) {
            CodeSet::C
        } else if CodeSet::D.has(byte) {
            CodeSet::D
        } else {
            CodeSet::E
        }
    }
}

/// Each byte has a value in some set: in the first one that has it.
pub fn sets_law()
    ensures { (byte : ℕ) → byte < 256 → has (home byte) byte ≡ true }
{}

/// Whether A has a byte and B hasn't.
pub fn is_only_a(byte: u8) -> bool
    ensures { result ≡ only_a byte }
{
    CodeSet::A.has(byte) && !CodeSet::B.has(byte)
}

/// Whether B has a byte and A hasn't.
pub fn is_only_b(byte: u8) -> bool
    ensures { result ≡ only_b byte }
{
    CodeSet::B.has(byte) && !CodeSet::A.has(byte)
}
