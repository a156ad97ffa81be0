//! Text compaction.

ghost use Rattle.std.specs.Prelude.{◌≡◌, ℕ, List, ◌<◌, ◌∷◌, ◌++◌, None, IfSome, slice_index};
ghost use Rattle.vp_pdf417.specs.Text.{capital, home, is_shifted, latch, values_by, mode_by, values_of, mode_behind, text};
ghost use Rattle.vp_pdf417.specs.Written.{written, coming};

use crate::submode::{Submode, is_capital, punctuation};
use crate::words::Words;

/// The first of two values, which waits for the second.
type Half = Option<u8>;

/// Writes a value.
fn push_value(words: &mut Words, half: &mut Half, value: u8)
    requires half { IfSome half.old (λ first. first < 30) }
    requires value { value < 30 }
    ensures written { (rest : List ℕ) → coming words.new half.new rest
        ≡ coming words.old half.old (value ∷ rest) }
    ensures half { IfSome half.new (λ first. first < 30) }
{
    match *half {
        None => *half = Some(value),
        Some(first) => {
            words.push(30 * u16::from(first) + u16::from(value));
            *half = None;
        }
    }
}

/// Whether a capital among small letters stands behind a shift.
fn is_shifted(mode: Submode, byte: u8, more: bool) -> bool
    ensures { result ≡ is_shifted mode byte more }
{
    matches!(mode, Submode::Lower) && is_capital(byte) && !more
}

/// Writes the latch from a sub-mode to another.
fn push_latch(words: &mut Words, half: &mut Half, from: Submode, to: Submode)
    requires { IfSome half.old (λ first. first < 30) }
    ensures written { (rest : List ℕ) → coming words.new half.new rest
        ≡ coming words.old half.old (latch from to ++ rest) }
    ensures half { IfSome half.new (λ first. first < 30) }
{
    match (from, to) {
        (Submode::Lower, Submode::Alpha) => {
            push_value(words, half, 28);
            push_value(words, half, 28);
        }
        (_, Submode::Lower) => push_value(words, half, 27),
        _ => push_value(words, half, 28),
    }
}

/// Writes a character that neither the sub-mode in force nor punctuation has, and answers the sub-mode
/// behind it.
fn push_elsewhere(
    words: &mut Words,
    half: &mut Half,
    mode: Submode,
    byte: u8,
    more: bool,
) -> Submode
    requires { IfSome half.old (λ first. first < 30) }
    ensures written { (rest : List ℕ) → coming words.new half.new rest
        ≡ coming words.old half.old (values_by None None mode byte more ++ rest) }
    ensures mode { result ≡ mode_by None None mode byte more }
    ensures half { IfSome half.new (λ first. first < 30) }
{
    let to = Submode::of(byte);
    let value = to.value(byte).unwrap_or(0);
    if is_shifted(mode, byte, more) {
        push_value(words, half, 27);
        push_value(words, half, value);
        return mode;
    }
    push_latch(words, half, mode, to);
    push_value(words, half, value);
    to
}

/// Writes a character that a capital follows or doesn't, and answers the sub-mode behind it.
fn push_character(
    words: &mut Words,
    half: &mut Half,
    mode: Submode,
    byte: u8,
    more: bool,
) -> Submode
    requires { IfSome half.old (λ first. first < 30) }
    ensures written { (rest : List ℕ) → coming words.new half.new rest
        ≡ coming words.old half.old (values_of mode byte more ++ rest) }
    ensures mode { result ≡ mode_behind mode byte more }
    ensures half { IfSome half.new (λ first. first < 30) }
{
    if let Some(value) = mode.value(byte) {
        push_value(words, half, value);
        return mode;
    }
    if let Some(value) = punctuation(byte) {
        push_value(words, half, 29);
        push_value(words, half, value);
        return mode;
    }
    push_elsewhere(words, half, mode, byte, more)
}

/// Whether bytes begin with a capital letter.
fn begins_capital(bytes: &[u8]) -> bool
    ensures { result ≡ capital (slice_index bytes.now 0) }
{
    !bytes.is_empty() && is_capital(bytes[0])
}

/// Writes characters.
pub fn push_text(words: &mut Words, src: &[u8])
    ensures { words.new ≡ written words.old (text src.now) }
{
    let mut half = None;
    let mut mode = Submode::Alpha;
    let mut left = src;
    while let [byte, rest @ ..] = left {
        mode = push_character(words, &mut half, mode, *byte, begins_capital(rest));
        left = rest;
    }
    if let Some(first) = half {
        words.push(30 * u16::from(first) + 29);
    }
}
