//! The level of error correction, how the bytes are read, and where they begin.
ghost use Rattle.std.specs.Prelude.{◌≡◌, ◌+◌, ◌≤◌, length, IfOk};
ghost use Rattle.vp_qr_field.specs.Fronts.{level_of, counted_front, manual, front_in, front_of, is_digit};

use vp_dots::{Fault, Why};
use vp_qr::{Level, Mode};

/// What stands before the bytes of a symbol.
#[derive(Clone, Copy, Debug, PartialEq, Eq)]
pub struct QrFront {
    /// How much of the symbol may be lost.
    pub level: Level,
    /// How the bytes are read.
    pub mode: Mode,
    /// How many bytes of the data it takes itself: those of the symbol stand behind them.
    pub length: usize,
}

/// Any other front.
const NO_FRONT: Fault = Fault::Symbol(Why::CodeSet);

/// Behind B not four digits and as many bytes as they say.
const WRONG_COUNT: Fault = Fault::Symbol(Why::Length);

/// The level of a letter.
fn level_of(letter: u8) -> Option<Level>
    ensures { result ≡ level_of letter }
{
    match letter {
        b'H' => Some(Level::H),
        b'Q' => Some(Level::Q),
        b'M' => Some(Level::M),
        b'L' => Some(Level::L),
        _ => None,
    }
}

/// 0 to 9.
fn is_digit(c: u8) -> bool
    ensures { result ≡ is_digit c }
{
    b'0' <= c && c <= b'9'
}

/// Behind B: as many bytes as its four digits say.
fn counted(level: Level, rest: &[u8]) -> Result<QrFront, Fault>
    ensures value { result ≡ counted_front level rest.now }
    ensures within { IfOk result (λ front. front.length ≤ length rest.now + 4) }
{
    let [a, b, c, d, bytes @ ..] = rest else {
        return Err(WRONG_COUNT);
    };
    if !(is_digit(*a) && is_digit(*b) && is_digit(*c) && is_digit(*d)) {
        return Err(WRONG_COUNT);
    }
    let hundreds = 10 * usize::from(*a - b'0') + usize::from(*b - b'0');
    if 100 * hundreds + 10 * usize::from(*c - b'0') + usize::from(*d - b'0') != bytes.len() {
        return Err(WRONG_COUNT);
    }
    Ok(QrFront {
        level,
        mode: Mode::Bytes,
        length: 8,
    })
}

/// Behind M and a comma: a letter says how the bytes are read.
fn manual(level: Level, rest: &[u8]) -> Result<QrFront, Fault>
    ensures value { result ≡ manual level rest.now }
    ensures within { IfOk result (λ front. front.length ≤ length rest.now + 3) }
{
    let [letter, rest @ ..] = rest else {
        return Err(NO_FRONT);
    };
    let mode = match *letter {
        b'N' => Mode::Digits,
        b'A' => Mode::Alnum,
        b'B' => return counted(level, rest),
        b'K' => return Err(Fault::Symbol(Why::Unsupported)),
        _ => return Err(NO_FRONT),
    };
    Ok(QrFront {
        level,
        mode,
        length: 4,
    })
}

/// The front of data that aren't of model 1.
fn front_in(bytes: &[u8]) -> Result<QrFront, Fault>
    ensures value { result ≡ front_in bytes.now }
    ensures within { IfOk result (λ front. front.length ≤ length bytes.now) }
{
    if bytes.is_empty() {
        return Err(Fault::Symbol(Why::Empty));
    }
    let [letter, how, comma, rest @ ..] = bytes else {
        return Err(NO_FRONT);
    };
    let Some(level) = level_of(*letter) else {
        return Err(NO_FRONT);
    };
    if *comma != b',' {
        return Err(NO_FRONT);
    }
    match *how {
        b'A' => Ok(QrFront {
            level,
            mode: Mode::Auto,
            length: 3,
        }),
        b'M' => manual(level, rest),
        _ => Err(NO_FRONT),
    }
}

/// What the data of a QR field of a model (^BQ, 1 or 2) say before the bytes of the symbol: a letter for
/// the level, and `A,` or `M,` with `N`, `A`, or `B` and four digits that say how many bytes come. Model 1
/// is refused as not supported whatever the data, then no data as empty; behind `M,B` all else than four
/// digits and as many bytes by their length, Kanji (`M,K`) as not supported, and any other front by its code
/// set.
pub fn qr_front(model: u16, bytes: &[u8]) -> Result<QrFront, Fault>
    ensures value { result ≡ front_of model bytes.now }
    ensures within { IfOk result (λ front. front.length ≤ length bytes.now) }
{
    if model == 1 {
        return Err(Fault::Symbol(Why::Unsupported));
    }
    front_in(bytes)
}
