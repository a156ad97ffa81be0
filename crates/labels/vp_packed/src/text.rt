//! Which texts are well written.

ghost use Rattle.std.specs.Prelude.{◌≡◌, ◌≤◌, false, IfSome, is_some, length};
ghost use Rattle.vp_packed.specs.Base64.{value_of, is_break, are_signs, written, padding, are_fours};
ghost use Rattle.vp_packed.specs.Texts.{signs_before, kind_of};

use crate::sign::value;
use vp_inflate::Fault;

/// Why a text is refused: the first of these that holds.
#[derive(Clone, Copy, Debug, PartialEq, Eq)]
pub enum Refusal {
    /// It begins with neither `:B64:` nor `:Z64:`.
    Head,
    /// No colon stands behind the signs.
    End,
    /// Behind the colon there are no four hex digits, or not those of the signs' check.
    Check,
    /// A sign isn't base64's, or stands behind the padding (RFC 4648, 4).
    Sign,
    /// The signs, with up to two of padding, are no groups of four (RFC 4648, 4).
    Padding,
    /// What zlib's format packs is cut off.
    Short,
    /// What is packed breaks a rule of zlib's format.
    Broken(Fault),
}

/// How bytes are packed.
#[derive(Clone, Copy, Debug, PartialEq, Eq)]
pub enum Packing {
    /// Base64 alone.
    Plain,
    /// Zlib's format behind base64.
    Zlib,
}

/// How the text says that its bytes are packed.
#[tactic(auto, unfolding(crate::specs::Texts::kind_of))]
pub fn kind(text: &[u8]) -> Option<Packing>
    ensures kind { result ≡ kind_of text.now }
    ensures long { IfSome result (λ packing. 5 ≤ length text.now) }
{
    let [a, b, c, d, e, ..] = text else {
        return None;
    };
    if *a != b':' || *c != b'6' || *d != b'4' || *e != b':' {
        return None;
    }
    match *b {
        b'B' => Some(Packing::Plain),
        b'Z' => Some(Packing::Zlib),
        _ => None,
    }
}

/// How many signs stand before the first colon.
pub fn signs_before(text: &[u8]) -> usize
    ensures value { result ≡ signs_before text.now }
    ensures within { result ≤ length text.now }
{
    for (n, sign) in text.iter().enumerate() {
        if *sign == b':' {
            return n;
        }
    }
    text.len()
}

/// Whether a sign ends a line.
fn is_break(sign: u8) -> bool
    ensures { result ≡ is_break sign }
{
    sign == b'\r' || sign == b'\n'
}

/// Whether a sign has bits.
fn has_bits(sign: u8) -> bool
    ensures { result ≡ is_some (value_of sign) }
{
    value(sign).is_some()
}

/// Whether all signs are base64's: behind padding comes padding alone; the ends of lines are passed over.
pub fn are_signs(signs: &[u8]) -> bool
    ensures { result ≡ are_signs false signs.now }
{
    let mut padded = false;
    for sign in signs {
        if is_break(*sign) {
            continue;
        }
        if *sign == b'=' {
            padded = true;
            continue;
        }
        if padded {
            return false;
        }
        if !has_bits(*sign) {
            return false;
        }
    }
    true
}

/// How many signs there are, with padding.
fn written(signs: &[u8]) -> usize
    ensures { result ≡ written signs.now }
{
    signs
        .iter()
        .filter(|c| **c != b'\r' && **c != b'\n')
        .count()
}

/// How many of them are padding.
fn padding(signs: &[u8]) -> usize
    ensures { result ≡ padding signs.now }
{
    signs.iter().filter(|c| **c == b'=').count()
}

/// Whether signs are groups of four, with up to two of padding.
#[tactic(auto, unfolding(crate::specs::Base64::are_fours))]
pub fn are_fours(signs: &[u8]) -> bool
    ensures { result ≡ are_fours signs.now }
{
    written(signs) % 4 == 0 && padding(signs) <= 2
}
