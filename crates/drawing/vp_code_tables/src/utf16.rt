//! UTF-16, a byte more behind what is begun (The Unicode Standard 15, 3.9, D91, and table 3-5).

ghost use Rattle.std.specs.Prelude.{◌≡◌, None};
ghost use Rattle.vp_code_tables.specs.Utf16.{code_unit, is_high, is_low, pair_value};
ghost use Rattle.vp_code_tables.specs.Begun.{IsBegun, Steps};
ghost use Rattle.vp_code_tables.specs.declared.encoding.Encoding.TheVariants as encodings;

use crate::begun::{Begun, Step};
use crate::unit::Decoded;

/// Which byte of a code unit comes first.
#[derive(Clone, Copy, Debug, PartialEq, Eq)]
pub enum ByteOrder {
    /// The high byte: UTF-16BE.
    HighFirst,
    /// The low byte: UTF-16LE.
    LowFirst,
}

impl ByteOrder {
    /// Two bytes as a code unit.
    fn code_unit(self, a: u8, b: u8) -> u16
        ensures { result ≡ code_unit self a b }
    {
        match self {
            ByteOrder::HighFirst => 256 * u16::from(a) + u16::from(b),
            ByteOrder::LowFirst => 256 * u16::from(b) + u16::from(a),
        }
    }
}

/// A high surrogate.
#[tactic(auto, unfolding(crate::specs::Utf16::is_high))]
fn is_high(unit: u16) -> bool
    ensures { result ≡ is_high unit }
{
    matches!(unit, 0xd800..=0xdbff)
}

/// A low surrogate.
#[tactic(auto, unfolding(crate::specs::Utf16::is_low))]
fn is_low(unit: u16) -> bool
    ensures { result ≡ is_low unit }
{
    matches!(unit, 0xdc00..=0xdfff)
}

/// The scalar value of a surrogate pair.
fn pair_value(high: u16, low: u16) -> u32
    ensures { result ≡ pair_value high low }
{
    0x10000 + (u32::from(high % 1024) * 1024 + u32::from(low % 1024))
}

/// A byte that ends a code unit with the one before it.
fn second(order: ByteOrder, a: u8, byte: u8) -> Step
    ensures alone { result.given.cut ≡ None }
    ensures steps { Steps (encodings.Utf16 order) (Begun.One a) byte result.begun result.given }
{
    let unit = order.code_unit(a, byte);
    if is_high(unit) {
        Step::on(Begun::Two(a, byte))
    } else if is_low(unit) {
        Step::ended(Decoded::wrong(2))
    } else {
        Step::ended(Decoded::character(u32::from(unit), 2))
    }
}

/// A byte that ends the code unit behind a high surrogate.
fn fourth(order: ByteOrder, a: u8, b: u8, c: u8, byte: u8) -> Step
    requires { IsBegun (encodings.Utf16 order) (Begun.Three a b c) }
    ensures { Steps (encodings.Utf16 order) (Begun.Three a b c) byte result.begun result.given }
{
    let low = order.code_unit(c, byte);
    if !is_low(low) {
        return second(order, c, byte).behind(2);
    }
    let code = pair_value(order.code_unit(a, b), low);
    Step::ended(Decoded::character(code, 4))
}

/// A byte behind what is begun.
pub fn next(order: ByteOrder, begun: Begun, byte: u8) -> Step
    requires { IsBegun (encodings.Utf16 order) begun }
    ensures { Steps (encodings.Utf16 order) begun byte result.begun result.given }
{
    match begun {
        Begun::Nothing => Step::on(Begun::One(byte)),
        Begun::One(a) => second(order, a, byte),
        Begun::Two(a, b) => Step::on(Begun::Three(a, b, byte)),
        Begun::Three(a, b, c) => fourth(order, a, b, c, byte),
    }
}
