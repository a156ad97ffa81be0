//! The bits of bytes.

ghost use Rattle.std.specs.Prelude.{◌≡◌, ◌<◌, ◌≤◌, [], length, slice_index, None, Some, true, false};
ghost use Rattle.vp_aztec.specs.Characters.{is_text, value_in, pair_value, mark_value};
ghost use Rattle.vp_aztec.specs.Messages.{is_shifted, begins_marks, elsewhere, mark_of, pair_in, character, from_mode, binary, step, steps, message};
ghost use Rattle.vp_aztec.specs.Written.{written};

use crate::bits::Bits;
use crate::mode::{Mode, is_capital, is_mark, is_text, mark_value, pair_value};
use crate::run::{count, push_bytes, run};

/// The mode in force behind a step, and of how many bytes it was.
type Behind = (Mode, usize);

/// Byte number `k`, 0 where there is none.
fn at(src: &[u8], k: usize) -> u8
    ensures { result ≡ slice_index src.now k }
{
    if k < src.len() { src[k] } else { 0 }
}

/// Whether a character stands behind a shift to upper.
#[tactic(auto, unfolding(crate::specs::Messages::is_shifted))]
fn is_shifted(mode: Mode, src: &[u8]) -> bool
    ensures { result ≡ is_shifted mode src.now }
{
    mode.can_shift()
        && is_capital(at(src, 0))
        && !(is_capital(at(src, 1)) && is_capital(at(src, 2)))
}

/// Writes a character of another mode.
#[tactic(auto, unfolding(crate::specs::Messages::elsewhere))]
fn push_elsewhere(bits: &mut Bits, mode: Mode, src: &[u8]) -> Behind
    requires { 0 < length src.now }
    ensures written { bits.new ≡ written bits.old (elsewhere mode src.now).codes }
    ensures mode { result.0 ≡ (elsewhere mode src.now).mode }
    ensures taken { result.1 ≡ (elsewhere mode src.now).taken }
    ensures within { result.1 ≤ length src.now }
{
    let byte = src[0];
    if is_shifted(mode, src) {
        bits.push(mode.shift());
        bits.push((5, u16::from(byte).saturating_sub(63)));
        return (mode, 1);
    }
    let home = Mode::of(byte);
    bits.push(mode.latch(home));
    bits.push((home.width(), home.value(byte).unwrap_or(0)));
    (home, 1)
}

/// Whether four characters of punctuation stand together.
#[tactic(auto, unfolding(crate::specs::Messages::begins_marks))]
fn begins_marks(src: &[u8]) -> bool
    ensures { result ≡ begins_marks src.now }
{
    is_mark(at(src, 0)) && is_mark(at(src, 1)) && is_mark(at(src, 2)) && is_mark(at(src, 3))
}

/// Writes a character that the mode in force hasn't, or two that are one of punctuation.
#[tactic(auto, unfolding(crate::specs::Messages::mark_of))]
fn push_mark(bits: &mut Bits, mode: Mode, src: &[u8]) -> Behind
    requires { 0 < length src.now }
    ensures written { bits.new ≡ written bits.old (mark_of mode src.now).codes }
    ensures mode { result.0 ≡ (mark_of mode src.now).mode }
    ensures taken { result.1 ≡ (mark_of mode src.now).taken }
    ensures within { result.1 ≤ length src.now }
{
    if let Some(value) = pair_value(at(src, 0), at(src, 1)) {
        bits.push((mode.width(), 0));
        bits.push((5, value));
        return (mode, 2);
    }
    let Some(value) = mark_value(at(src, 0)) else {
        return push_elsewhere(bits, mode, src);
    };
    if begins_marks(src) {
        bits.push(mode.latch(Mode::Punct));
        bits.push((5, value));
        return (Mode::Punct, 1);
    }
    bits.push((mode.width(), 0));
    bits.push((5, value));
    (mode, 1)
}

/// The value of two characters that are one in the mode in force.
fn pair_in(mode: Mode, a: u8, b: u8) -> Option<u16>
    ensures { result ≡ pair_in mode a b }
{
    match mode {
        Mode::Punct => pair_value(a, b),
        Mode::Upper | Mode::Lower | Mode::Mixed | Mode::Digit => None,
    }
}

/// Writes a character, or two that are one.
#[tactic(auto, unfolding(crate::specs::Messages::character))]
fn push_character(bits: &mut Bits, mode: Mode, src: &[u8]) -> Behind
    requires { 0 < length src.now }
    ensures written { bits.new ≡ written bits.old (character mode src.now).codes }
    ensures mode { result.0 ≡ (character mode src.now).mode }
    ensures taken { result.1 ≡ (character mode src.now).taken }
    ensures within { result.1 ≤ length src.now }
{
    if let Some(value) = pair_in(mode, at(src, 0), at(src, 1)) {
        bits.push((mode.width(), value));
        return (mode, 2);
    }
    if let Some(value) = mode.value(at(src, 0)) {
        bits.push((mode.width(), value));
        return (mode, 1);
    }
    push_mark(bits, mode, src)
}

/// The mode from which bytes can be written.
fn from_mode(mode: Mode) -> Mode
    ensures { result ≡ from_mode mode }
{
    match mode {
        Mode::Upper => Mode::Upper,
        Mode::Lower => Mode::Lower,
        Mode::Mixed => Mode::Mixed,
        Mode::Punct | Mode::Digit => Mode::Upper,
    }
}

/// Writes a run of bytes.
#[tactic(auto, unfolding(crate::specs::Messages::binary))]
fn push_binary(bits: &mut Bits, mode: Mode, src: &[u8]) -> Behind
    ensures written { bits.new ≡ written bits.old (binary mode src.now).codes }
    ensures mode { result.0 ≡ (binary mode src.now).mode }
    ensures taken { result.1 ≡ (binary mode src.now).taken }
    ensures within { result.1 ≤ length src.now }
{
    let n = run(src);
    let from = from_mode(mode);
    bits.push(mode.latch(from));
    bits.push((5, 31));
    bits.push(count(n));
    push_bytes(bits, &src[..n]);
    (from, n)
}

/// Writes what bytes begin with.
#[tactic(auto, unfolding(crate::specs::Messages::step))]
fn push_step(bits: &mut Bits, mode: Mode, src: &[u8]) -> Behind
    requires { 0 < length src.now }
    ensures written { bits.new ≡ written bits.old (step mode src.now).codes }
    ensures mode { result.0 ≡ (step mode src.now).mode }
    ensures taken { result.1 ≡ (step mode src.now).taken }
    ensures within { result.1 ≤ length src.now }
{
    if is_text(at(src, 0)) {
        push_character(bits, mode, src)
    } else {
        push_binary(bits, mode, src)
    }
}

/// The bits of bytes.
pub fn message(src: &[u8]) -> Bits
    ensures { result ≡ written (Some []) (message src.now) }
{
    let mut bits = Bits::new();
    let mut mode = Mode::Upper;
    let mut left = src;
    for _ in 0..src.len() {
        if left.is_empty() {
            return bits;
        }
        let (behind, taken) = push_step(&mut bits, mode, left);
        mode = behind;
        left = &left[taken..];
    }
    bits
}
