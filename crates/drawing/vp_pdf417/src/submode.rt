//! The sub-modes of text compaction.

ghost use Rattle.std.specs.Prelude.{◌≡◌, ◌<◌, ◌≤◌, length, IfSome};
ghost use Rattle.vp_pdf417.specs.Text.{capital, small, place_in, value_in, home};

/// A sub-mode that is latched to. Punctuation always stands behind a shift.
#[derive(Clone, Copy)]
pub enum Submode {
    Alpha,
    Lower,
    Mixed,
}

/// The characters of the sub-mode mixed, in the order of their values.
pub const MIXED: [u8; 25] = [
    b'0', b'1', b'2', b'3', b'4', b'5', b'6', b'7', b'8', b'9', b'&', b'\r', b'\t', b',', b':',
    b'#', b'-', b'.', b'$', b'/', b'+', b'%', b'*', b'=', b'^',
];

/// Those of punctuation.
pub const PUNCTUATION: [u8; 29] = [
    b';', b'<', b'>', b'@', b'[', b'\\', b']', b'_', b'`', b'~', b'!', b'\r', b'\t', b',', b':',
    b'\n', b'-', b'.', b'$', b'/', b'"', b'|', b'*', b'(', b')', b'?', b'{', b'}', b'\'',
];

/// A capital letter.
pub fn is_capital(byte: u8) -> bool
    ensures { result ≡ capital byte }
{
    byte.is_ascii_uppercase()
}

/// The place of a character among others.
#[tactic(auto, unfolding(crate::specs::Text::place_in))]
fn place_in(characters: &[u8], byte: u8) -> Option<u8>
    requires { length characters.now ≤ 29 }
    ensures place { result ≡ place_in characters.now byte }
    ensures few { IfSome result (λ value. value < 29) }
{
    for k in 0..characters.len() {
        if characters[k] == byte {
            return Some(k as u8);
        }
    }
    None
}

/// The value of a character of punctuation.
pub fn punctuation(byte: u8) -> Option<u8>
    ensures value { result ≡ place_in PUNCTUATION byte }
    ensures few { IfSome result (λ value. value < 29) }
{
    place_in(&PUNCTUATION, byte)
}

impl Submode {
    /// The value of a character that it has.
    pub fn value(self, byte: u8) -> Option<u8>
        ensures value { result ≡ value_in self byte }
        ensures few { IfSome result (λ value. value < 29) }
    {
        if byte == b' ' {
            return Some(26);
        }
        match self {
            Submode::Alpha => match byte {
                b'A'..=b'Z' => Some(byte - b'A'),
                _ => None,
            },
            Submode::Lower => match byte {
                b'a'..=b'z' => Some(byte - b'a'),
                _ => None,
            },
            Submode::Mixed => place_in(&MIXED, byte),
        }
    }

    /// The sub-mode of a character that punctuation hasn't.
    pub fn of(byte: u8) -> Submode
        ensures { result ≡ home byte }
    {
        match byte {
            b'A'..=b'Z' => Submode::Alpha,
            b'a'..=b'z' => Submode::Lower,
            _ => Submode::Mixed,
        }
    }
}
