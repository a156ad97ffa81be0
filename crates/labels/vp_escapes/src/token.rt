//! One byte of the symbol as the data spell it.

ghost use Rattle.std.specs.Prelude.{◌≡◌, ◌≤◌, length};
ghost use Rattle.vp_escapes.specs.Escapes.{spelled, plain, is_digit, value_of, escape, token};

/// A byte, and how many bytes behind the first one spell it.
#[derive(Clone, Copy)]
pub struct Token {
    pub byte: u8,
    pub behind: usize,
}

/// The separator of GS1 element strings, which FNC1 gives.
const SEPARATOR: u8 = 0x1d;

impl Token {
    /// A byte, and how many bytes behind the first one spell it.
    fn spelled(byte: u8, behind: usize) -> Token
        ensures { result ≡ spelled byte behind }
    {
        Token { byte, behind }
    }

    /// A byte that stands for itself.
    fn plain(byte: u8) -> Token
        ensures { result ≡ plain byte }
    {
        Token::spelled(byte, 0)
    }
}

/// 0 to 9.
fn is_digit(c: u8) -> bool
    ensures { result ≡ is_digit c }
{
    b'0' <= c && c <= b'9'
}

/// The value of the three digits at the front, 0 to 255.
fn value_of(bytes: &[u8]) -> Option<u8>
    ensures { result ≡ value_of bytes.now }
{
    let [a, b, c, ..] = bytes else {
        return None;
    };
    if !(is_digit(*a) && is_digit(*b) && is_digit(*c)) {
        return None;
    }
    let tens = 10 * u16::from(*a - b'0') + u16::from(*b - b'0');
    let value = 10 * tens + u16::from(*c - b'0');
    if value > 255 { None } else { Some(value as u8) }
}

/// What a sign and the bytes behind it stand for.
fn escape(sign: u8, behind: &[u8]) -> Token
    ensures value { result ≡ escape sign behind.now }
    ensures within { result.behind ≤ length behind.now }
{
    let [c, rest @ ..] = behind else {
        return Token::plain(sign);
    };
    if *c == sign {
        return Token::spelled(sign, 1);
    }
    match *c {
        b'1' => Token::spelled(SEPARATOR, 1),
        b'@'..=b'^' => Token::spelled(*c - b'@', 1),
        b'd' => match value_of(rest) {
            Some(byte) => Token::spelled(byte, 4),
            None => Token::plain(sign),
        },
        _ => Token::plain(sign),
    }
}

impl Token {
    /// The token that begins with a byte: the sign, or another one.
    pub fn of(sign: u8, first: u8, behind: &[u8]) -> Token
        ensures value { result ≡ token sign first behind.now }
        ensures within { result.behind ≤ length behind.now }
    {
        if first == sign {
            escape(sign, behind)
        } else {
            Token::plain(first)
        }
    }
}
