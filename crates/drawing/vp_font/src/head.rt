//! What stands before the letters: heights and the default letter.

ghost use Rattle.std.specs.Prelude.{◌≡◌};
ghost use Rattle.vp_font.specs.Heads.{empty, bounds_at, with_line, metrics};

use crate::fault::Fault;
use crate::keyword::Keyword;
use crate::letter::Metrics;
use crate::range::{offset_at, shape_at, whole_at};

/// How far lines reach above the baseline and below it.
#[derive(Clone, Copy)]
pub struct Bounds {
    pub ascent: i64,
    pub descent: i64,
}

/// What was told so far.
#[derive(Clone, Copy)]
pub struct Head {
    /// Of the box that has all letters.
    pub bounds: Option<Bounds>,
    pub ascent: Option<i64>,
    pub descent: Option<i64>,
    pub default_char: Option<u32>,
}

/// Nothing.
pub fn empty() -> Head
    ensures { result ≡ empty }
{
    Head {
        bounds: None,
        ascent: None,
        descent: None,
        default_char: None,
    }
}

/// How far the box of a line reaches.
#[tactic(auto, unfolding(crate::specs::Heads::bounds_at))]
fn bounds_at(line: &[u8]) -> Result<Bounds, Fault>
    ensures { result ≡ bounds_at line.now }
{
    let shape = shape_at(line)?;
    Ok(Bounds {
        ascent: i64::from(shape.height) + i64::from(shape.bottom),
        descent: 0 - i64::from(shape.bottom),
    })
}

/// What is known behind a line that is about this.
#[tactic(auto, unfolding(crate::specs::Heads::with_line))]
pub fn with_line(head: Head, about: Keyword, line: &[u8]) -> Result<Head, Fault>
    ensures { result ≡ with_line head about line.now }
{
    let mut head = head;
    match about {
        Keyword::BoundingBox => head.bounds = Some(bounds_at(line)?),
        Keyword::Ascent => head.ascent = Some(i64::from(offset_at(line, 1, 2048, Fault::Number)?)),
        Keyword::Descent => head.descent = Some(i64::from(offset_at(
            line,
            1,
            2048,
            Fault::Number,
        )?)),
        Keyword::DefaultChar => {
            head.default_char = Some(whole_at(line, 1, 0x10FFFF, Fault::Number)?)
        }
        _ => {}
    }
    Ok(head)
}

/// What the head tells of its font.
#[tactic(auto, unfolding(crate::specs::Heads::metrics))]
pub fn metrics(head: Head) -> Result<Metrics, Fault>
    ensures { result ≡ metrics head }
{
    let ascent = match (head.ascent, head.bounds) {
        (Some(ascent), _) => ascent,
        (None, Some(bounds)) => bounds.ascent,
        (None, None) => return Err(Fault::Height),
    };
    let descent = match (head.descent, head.bounds) {
        (Some(descent), _) => descent,
        (None, Some(bounds)) => bounds.descent,
        (None, None) => return Err(Fault::Height),
    };
    Ok(Metrics {
        ascent,
        descent,
        default_char: head.default_char,
    })
}
