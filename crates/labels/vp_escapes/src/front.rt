//! FNC1 at the front of the data, and what stands behind it.

ghost use Rattle.std.specs.Prelude.{◌≡◌, ◌<◌, ◌≤◌, ◌↔◌, true, false, length, drop, IsNone, IfSome, MatchOption};
ghost use Rattle.vp_escapes.specs.declared.bytes.TheConstants.{MOST};
ghost use Rattle.vp_escapes.specs.Escapes.{is_gs1, unescaped};

use crate::bytes::Unescaped;

/// The bytes behind FNC1 at the very front.
fn behind_fnc1(sign: u8, src: &[u8]) -> Option<&[u8]>
    ensures { MatchOption result (is_gs1 sign src.now ≡ false)
        (λ rest. (is_gs1 sign src.now ≡ true) × (rest.now ≡ drop 2 src.now)) }
{
    match src {
        [first, b'1', rest @ ..] if *first == sign && sign != b'1' => Some(rest),
        _ => None,
    }
}

/// Whether data of a Data Matrix field (ZPL II, ^BX), where `sign` begins an escape, are GS1 element strings:
/// whether FNC1 stands at their very front.
pub fn is_gs1(sign: u8, src: &[u8]) -> bool
    ensures { result ≡ is_gs1 sign src.now }
{
    behind_fnc1(sign, src).is_some()
}

/// What the data of a Data Matrix field (ZPL II, ^BX) stand for, where `sign` begins an escape.
///
/// The sign twice is the sign. The sign and `1` is FNC1: at the very front of the data it says that they are
/// GS1 element strings, and elsewhere it is their separator, 1D hex. The sign, `d` and three digits is the
/// byte of this value, 0 to 255. The sign and one of `@` to `^` is a control character, 00 to 1E hex. Any
/// other sign stands for itself. There is nothing where the data stand for more than `MOST` bytes.
pub fn unescaped(sign: u8, src: &[u8]) -> Option<Unescaped>
    ensures refused { IsNone result ↔ (MOST < length (unescaped sign src.now)) }
    ensures gs1 { IfSome result (λ u. u.gs1 ≡ is_gs1 sign src.now) }
    ensures bytes { IfSome result (λ u. u.bytes.items ≡ unescaped sign src.now) }
    ensures no_longer { length (unescaped sign src.now) ≤ length src.now }
{
    match behind_fnc1(sign, src) {
        Some(rest) => Unescaped::read(sign, true, rest),
        None => Unescaped::read(sign, false, src),
    }
}
