//! What is told of a letter before its rows.

ghost use Rattle.std.specs.Prelude.{◌≡◌, ℕ, true, Option, Some, IfOk};
ghost use Rattle.vp_font.specs.Orders.{code_rises, begun_rises};
ghost use Rattle.vp_font.specs.Letters.{no_parts, rises, code_at, with_part, complete};

use crate::fault::Fault;
use crate::keyword::Keyword;
use crate::letter::{Letter, Shape};
use crate::range::{shape_at, whole_at};
use crate::words::number_at;

/// The code of a letter.
#[derive(Clone, Copy)]
pub enum Code {
    /// It has none, and is passed.
    None,
    /// Its code point.
    Point(u32),
}

/// What was told so far.
#[derive(Clone, Copy)]
pub struct Parts {
    pub code: Option<Code>,
    pub advance: Option<u32>,
    pub thousandths: Option<u32>,
    pub shape: Option<Shape>,
}

/// What comes behind BITMAP.
#[derive(Clone, Copy)]
pub enum Begun {
    /// The rows of a letter.
    Letter(Letter),
    /// The rows of a letter without a code.
    Passed(Shape),
}

/// Nothing.
pub fn no_parts() -> Parts
    ensures { result ≡ no_parts }
{
    Parts {
        code: None,
        advance: None,
        thousandths: None,
        shape: None,
    }
}

/// Whether a code rises above the last one.
fn rises(last: Option<u32>, code: u32) -> bool
    ensures { result ≡ rises last code }
{
    match last {
        Some(last) => last < code,
        None => true,
    }
}

/// The code of a line, behind that of the last letter.
#[tactic(auto, unfolding(crate::specs::Letters::code_at))]
fn code_at(last: Option<u32>, line: &[u8]) -> Result<Code, Fault>
    ensures value { result ≡ code_at last line.now }
    ensures rises { IfOk result (λ c. code_rises (Some c) last ≡ true) }
{
    let n = number_at(line, 1)?;
    if n.below {
        if n.size == 1 {
            return Ok(Code::None);
        }
        return Err(Fault::Code);
    }
    if n.size > 0x10FFFF || !rises(last, n.size) {
        return Err(Fault::Code);
    }
    Ok(Code::Point(n.size))
}

/// What is known behind a line that is about this.
#[tactic(auto, unfolding(crate::specs::Letters::with_part))]
pub fn with_part(
    parts: Parts,
    last: Option<u32>,
    about: Keyword,
    line: &[u8],
) -> Result<Parts, Fault>
    requires { code_rises parts.code last ≡ true }
    ensures value { result ≡ with_part parts last about line.now }
    ensures rises { IfOk result (λ more. code_rises more.code last ≡ true) }
{
    let mut parts = parts;
    match about {
        Keyword::Encoding => parts.code = Some(code_at(last, line)?),
        Keyword::Scalable => parts.thousandths = Some(whole_at(line, 1, 65535, Fault::Number)?),
        Keyword::Device => parts.advance = Some(whole_at(line, 1, 2048, Fault::Advance)?),
        Keyword::Box => parts.shape = Some(shape_at(line)?),
        Keyword::StartChar | Keyword::EndChar | Keyword::EndFont => return Err(Fault::Incomplete),
        _ => {}
    }
    Ok(parts)
}

/// What comes behind BITMAP.
#[tactic(auto, unfolding(crate::specs::Letters::complete))]
pub fn complete(parts: Parts) -> Result<Begun, Fault>
    ensures value { result ≡ complete parts }
    ensures rises { IfOk result (λ begun. (last : Option ℕ) → code_rises parts.code last ≡ true
        → begun_rises begun last ≡ true) }
{
    let (Some(code), Some(advance), Some(shape)) = (parts.code, parts.advance, parts.shape) else {
        return Err(Fault::Incomplete);
    };
    match code {
        Code::None => Ok(Begun::Passed(shape)),
        Code::Point(code) => Ok(Begun::Letter(Letter {
            code,
            advance,
            thousandths: parts.thousandths,
            shape,
        })),
    }
}
