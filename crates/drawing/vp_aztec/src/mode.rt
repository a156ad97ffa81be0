//! The modes and their characters.

ghost use Rattle.std.specs.Prelude.{◌≡◌, ◌<◌, ◌≤◌, IfSome};
ghost use Rattle.vp_aztec.specs.Characters.{capital, is_text, width, mixed_value, digit_value, value_in, mark_value, is_mark, pair_value, home, latch, can_shift, shift};

/// A mode.
#[derive(Clone, Copy)]
pub enum Mode {
    Upper,
    Lower,
    Mixed,
    Punct,
    Digit,
}

/// A number of so many bits.
pub type Code = (usize, u16);

/// A capital letter.
pub fn is_capital(byte: u8) -> bool
    ensures { result ≡ capital byte }
{
    byte.is_ascii_uppercase()
}

/// A byte that some mode has.
pub fn is_text(byte: u8) -> bool
    ensures { result ≡ is_text byte }
{
    matches!(byte, 1..=13 | 27..=127)
}

/// The value of a character in mixed.
#[tactic(auto, unfolding(crate::specs::Characters::mixed_value))]
fn mixed_value(byte: u8) -> Option<u16>
    ensures { result ≡ mixed_value byte }
{
    match byte {
        1..=13 => Some(u16::from(byte) + 1),
        27..=31 => Some(u16::from(byte) - 12),
        b'@' => Some(20),
        b'\\' => Some(21),
        b'^'..=b'`' => Some(u16::from(byte) - 72),
        b'|' => Some(25),
        126..=127 => Some(u16::from(byte) - 100),
        _ => None,
    }
}

/// The value of a character in the mode of digits.
#[tactic(auto, unfolding(crate::specs::Characters::digit_value))]
fn digit_value(byte: u8) -> Option<u16>
    ensures { result ≡ digit_value byte }
{
    match byte {
        b'0'..=b'9' => Some(u16::from(byte) - 46),
        b',' => Some(12),
        b'.' => Some(13),
        _ => None,
    }
}

/// The value of a character in punctuation.
#[tactic(auto, unfolding(crate::specs::Characters::mark_value))]
pub fn mark_value(byte: u8) -> Option<u16>
    ensures { result ≡ mark_value byte }
{
    match byte {
        b'\r' => Some(1),
        b'!'..=b'/' => Some(u16::from(byte) - 27),
        b':'..=b'?' => Some(u16::from(byte) - 37),
        b'[' => Some(27),
        b']' => Some(28),
        b'{' => Some(29),
        b'}' => Some(30),
        _ => None,
    }
}

/// A character of punctuation.
pub fn is_mark(byte: u8) -> bool
    ensures { result ≡ is_mark byte }
{
    mark_value(byte).is_some()
}

/// The value of two characters that are one of punctuation.
#[tactic(auto, unfolding(crate::specs::Characters::pair_value))]
pub fn pair_value(a: u8, b: u8) -> Option<u16>
    ensures { result ≡ pair_value a b }
{
    match (a, b) {
        (b'\r', b'\n') => Some(2),
        (b'.', b' ') => Some(3),
        (b',', b' ') => Some(4),
        (b':', b' ') => Some(5),
        _ => None,
    }
}

impl Mode {
    /// The bits of a value.
    pub fn width(self) -> usize
        ensures width { result ≡ width self }
        ensures most { result ≤ 5 }
    {
        match self {
            Mode::Upper | Mode::Lower | Mode::Mixed | Mode::Punct => 5,
            Mode::Digit => 4,
        }
    }

    /// The value of a character that it has.
    #[tactic(auto, unfolding(crate::specs::Characters::value_in))]
    pub fn value(self, byte: u8) -> Option<u16>
        ensures { result ≡ value_in self byte }
    {
        if byte == b' ' && !matches!(self, Mode::Punct) {
            return Some(1);
        }
        match self {
            Mode::Upper => match byte {
                b'A'..=b'Z' => Some(u16::from(byte) - 63),
                _ => None,
            },
            Mode::Lower => match byte {
                b'a'..=b'z' => Some(u16::from(byte) - 95),
                _ => None,
            },
            Mode::Mixed => mixed_value(byte),
            Mode::Punct => mark_value(byte),
            Mode::Digit => digit_value(byte),
        }
    }

    /// The mode of a character that punctuation hasn't.
    pub fn of(byte: u8) -> Mode
        ensures { result ≡ home byte }
    {
        match byte {
            b'A'..=b'Z' | b' ' => Mode::Upper,
            b'a'..=b'z' => Mode::Lower,
            b'0'..=b'9' => Mode::Digit,
            _ => Mode::Mixed,
        }
    }

    /// The latch to another mode: one value, or more where others are between.
    pub fn latch(self, to: Mode) -> Code
        ensures latch { result ≡ latch self to }
        ensures most { result.0 ≤ 14 }
    {
        match (self, to) {
            (Mode::Upper | Mode::Mixed, Mode::Lower) => (5, 28),
            (Mode::Upper | Mode::Lower, Mode::Mixed) => (5, 29),
            (Mode::Upper | Mode::Lower, Mode::Digit) => (5, 30),
            (Mode::Upper | Mode::Lower, Mode::Punct) => (10, 29 * 32 + 30),
            (Mode::Lower, Mode::Upper) => (9, 30 * 16 + 14),
            (Mode::Mixed, Mode::Upper) => (5, 29),
            (Mode::Mixed, Mode::Punct) => (5, 30),
            (Mode::Mixed, Mode::Digit) => (10, 29 * 32 + 30),
            (Mode::Punct, Mode::Upper) => (5, 31),
            (Mode::Punct, Mode::Lower) => (10, 31 * 32 + 28),
            (Mode::Punct, Mode::Mixed) => (10, 31 * 32 + 29),
            (Mode::Punct, Mode::Digit) => (10, 31 * 32 + 30),
            (Mode::Digit, Mode::Upper) => (4, 14),
            (Mode::Digit, Mode::Lower) => (9, 14 * 32 + 28),
            (Mode::Digit, Mode::Mixed) => (9, 14 * 32 + 29),
            (Mode::Digit, Mode::Punct) => (14, (14 * 32 + 29) * 32 + 30),
            _ => (0, 0),
        }
    }

    /// Whether it has a shift to upper for one character.
    pub fn can_shift(self) -> bool
        ensures { result ≡ can_shift self }
    {
        matches!(self, Mode::Lower | Mode::Digit)
    }

    /// That shift.
    pub fn shift(self) -> Code
        ensures shift { result ≡ shift self }
        ensures most { result.0 ≤ 5 }
    {
        match self {
            Mode::Digit => (4, 15),
            _ => (5, 28),
        }
    }
}
