//! Numbers of lines within ranges, and boxes.

ghost use Rattle.std.specs.Prelude.{◌≡◌, ◌≤◌};
ghost use Rattle.vp_font.specs.Ranges.{signed, whole_at, offset_at, shape_at};

use crate::fault::Fault;
use crate::letter::Shape;
use crate::words::{Number, number_at};

/// A number of at most 4,096 with its sign.
#[tactic(auto, unfolding(crate::specs::Ranges::signed))]
fn signed(n: Number) -> i32
    requires { n.size ≤ 4096 }
    ensures { result ≡ signed n }
{
    if n.below {
        0 - n.size as i32
    } else {
        n.size as i32
    }
}

/// Word n of a line as a number from 0 to `most`.
#[tactic(auto, unfolding(crate::specs::Ranges::whole_at))]
pub fn whole_at(line: &[u8], n: usize, most: u32, fault: Fault) -> Result<u32, Fault>
    ensures { result ≡ whole_at n most fault line.now }
{
    let number = number_at(line, n)?;
    if number.below || number.size > most {
        return Err(fault);
    }
    Ok(number.size)
}

/// Word n of a line as a number from -`most` to `most`.
#[tactic(auto, unfolding(crate::specs::Ranges::offset_at))]
pub fn offset_at(line: &[u8], n: usize, most: u32, fault: Fault) -> Result<i32, Fault>
    requires { most ≤ 4096 }
    ensures { result ≡ offset_at n most fault line.now }
{
    let number = number_at(line, n)?;
    if number.size > most {
        return Err(fault);
    }
    Ok(signed(number))
}

/// A box: its width and height, and where its lower left corner stands.
#[tactic(auto, unfolding(crate::specs::Ranges::shape_at))]
pub fn shape_at(line: &[u8]) -> Result<Shape, Fault>
    ensures { result ≡ shape_at line.now }
{
    let width = whole_at(line, 1, 1024, Fault::Box)?;
    let height = whole_at(line, 2, 1024, Fault::Box)?;
    let left = offset_at(line, 3, 1024, Fault::Box)?;
    let bottom = offset_at(line, 4, 1024, Fault::Box)?;
    Ok(Shape {
        width,
        height,
        left,
        bottom,
    })
}
