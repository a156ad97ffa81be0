//! The codewords of bytes.

ghost use Rattle.std.specs.Prelude.{◌≡◌, ◌<◌, ◌≤◌, ◌-◌, length, slice_index, true};
ghost use Rattle.std.specs.List.{list_all};
ghost use Rattle.vp_maxicode.specs.Characters.{has, home, only_a, only_b, is_digit};
ghost use Rattle.vp_maxicode.specs.Messages.{begins, digit, number, nine, shifted, latched, locked, to_b, to_a, shift, to_high, elsewhere, character_by, step, steps, text};
ghost use Rattle.vp_maxicode.specs.Written.{written};

use crate::set::{CodeSet, is_only_a, is_only_b};
use crate::words::Words;

/// The set in force behind a step, and of how many bytes it was.
type Behind = (CodeSet, usize);

/// Byte number `k`, 0 where there is none.
fn at(src: &[u8], k: usize) -> u8
    ensures { result ≡ slice_index src.now k }
{
    if k < src.len() { src[k] } else { 0 }
}

/// Whether all bytes are digits.
fn are_digits(src: &[u8]) -> bool
    ensures { result ≡ list_all is_digit src.now }
{
    src.iter().all(|byte| byte.is_ascii_digit())
}

/// Whether A has all bytes and B has none.
fn are_only_a(src: &[u8]) -> bool
    ensures { result ≡ list_all only_a src.now }
{
    src.iter().all(|byte| is_only_a(*byte))
}

/// Whether bytes begin with `n` digits.
#[tactic(auto, unfolding(crate::specs::Messages::begins))]
pub fn begins_digits(n: usize, src: &[u8]) -> bool
    ensures begins { result ≡ begins is_digit n src.now }
    ensures within { result ≡ true → n ≤ length src.now }
{
    src.len() >= n && are_digits(&src[..n])
}

/// Whether bytes begin with `n` that A has and B hasn't.
#[tactic(auto, unfolding(crate::specs::Messages::begins))]
fn begins_a(n: usize, src: &[u8]) -> bool
    ensures begins { result ≡ begins only_a n src.now }
    ensures within { result ≡ true → n ≤ length src.now }
{
    src.len() >= n && are_only_a(&src[..n])
}

/// Whether bytes begin with two that B has and A hasn't.
#[tactic(auto, unfolding(crate::specs::Messages::begins))]
fn begins_b(src: &[u8]) -> bool
    ensures { result ≡ begins only_b 2 src.now }
{
    if src.len() < 2 {
        return false;
    }
    src[..2].iter().all(|byte| is_only_b(*byte))
}

/// Whether bytes begin with four that a set has.
#[tactic(auto, unfolding(crate::specs::Messages::begins))]
fn begins_in(set: CodeSet, src: &[u8]) -> bool
    ensures { result ≡ begins (has set) 4 src.now }
{
    if src.len() < 4 {
        return false;
    }
    src[..4].iter().all(|byte| set.has(*byte))
}

/// A digit's number.
pub fn digit(src: &[u8], k: usize) -> u32
    ensures digit { result ≡ digit src.now k }
    ensures small { result ≤ 207 }
{
    u32::from(at(src, k).saturating_sub(b'0'))
}

/// The number of nine digits.
#[tactic(auto, unfolding(crate::specs::Messages::number))]
pub fn number(src: &[u8]) -> u64
    ensures { result ≡ number src.now }
{
    let high = 100 * digit(src, 0) + 10 * digit(src, 1) + digit(src, 2);
    let middle = 100 * digit(src, 3) + 10 * digit(src, 4) + digit(src, 5);
    let low = 100 * digit(src, 6) + 10 * digit(src, 7) + digit(src, 8);
    1_000_000 * u64::from(high) + 1000 * u64::from(middle) + u64::from(low)
}

/// Writes nine digits as one number.
fn push_nine(words: &mut Words, src: &[u8])
    ensures { words.new ≡ written words.old (nine (number src.now)) }
{
    let n = number(src);
    words.push(31);
    words.push((n / 16_777_216 % 64) as u16);
    words.push((n / 262_144 % 64) as u16);
    words.push((n / 4096 % 64) as u16);
    words.push((n / 64 % 64) as u16);
    words.push((n % 64) as u16);
}

/// Writes the first character as it is in a set, behind a codeword.
fn push_behind(words: &mut Words, word: u16, to: CodeSet, src: &[u8])
    requires { word < 64 }
    ensures { words.new ≡ written words.old (latched word to (slice_index src.now 0)).words }
{
    words.push(word);
    words.push(to.code(at(src, 0)));
}

/// Writes what B begins with, from A.
#[tactic(auto, unfolding(crate::specs::Messages::to_b))]
fn push_to_b(words: &mut Words, src: &[u8]) -> Behind
    ensures written { words.new ≡ written words.old (to_b src.now).words }
    ensures set { result.0 ≡ (to_b src.now).set }
    ensures taken { result.1 ≡ (to_b src.now).taken }
    ensures one { result.1 ≡ 1 }
{
    if begins_b(src) {
        push_behind(words, 63, CodeSet::B, src);
        (CodeSet::B, 1)
    } else {
        push_behind(words, 59, CodeSet::B, src);
        (CodeSet::A, 1)
    }
}

/// Writes what A begins with, from B.
#[tactic(auto, unfolding(crate::specs::Messages::to_a))]
fn push_to_a(words: &mut Words, src: &[u8]) -> Behind
    requires { 0 < length src.now }
    ensures written { words.new ≡ written words.old (to_a src.now).words }
    ensures set { result.0 ≡ (to_a src.now).set }
    ensures taken { result.1 ≡ (to_a src.now).taken }
    ensures within { result.1 ≤ length src.now }
{
    if begins_a(4, src) {
        push_behind(words, 63, CodeSet::A, src);
        return (CodeSet::A, 1);
    }
    if begins_a(3, src) {
        push_behind(words, 57, CodeSet::A, src);
        words.push(CodeSet::A.code(at(src, 1)));
        words.push(CodeSet::A.code(at(src, 2)));
        return (CodeSet::B, 3);
    }
    if begins_a(2, src) {
        push_behind(words, 56, CodeSet::A, src);
        words.push(CodeSet::A.code(at(src, 1)));
        return (CodeSet::B, 2);
    }
    push_behind(words, 59, CodeSet::A, src);
    (CodeSet::B, 1)
}

/// The shift to C, D or E.
fn shift(to: CodeSet) -> u16
    ensures shift { result ≡ shift to }
    ensures small { result < 64 }
{
    match to {
        CodeSet::C => 60,
        CodeSet::D => 61,
        _ => 62,
    }
}

/// Writes what C, D or E begins with, from another set.
#[tactic(auto, unfolding(crate::specs::Messages::to_high))]
fn push_to_high(words: &mut Words, set: CodeSet, to: CodeSet, src: &[u8]) -> Behind
    ensures written { words.new ≡ written words.old (to_high set to src.now).words }
    ensures set { result.0 ≡ (to_high set to src.now).set }
    ensures taken { result.1 ≡ (to_high set to src.now).taken }
    ensures one { result.1 ≡ 1 }
{
    if begins_in(to, src) {
        words.push(shift(to));
        push_behind(words, shift(to), to, src);
        (to, 1)
    } else {
        push_behind(words, shift(to), to, src);
        (set, 1)
    }
}

/// Writes what another set begins with.
fn push_elsewhere(words: &mut Words, set: CodeSet, to: CodeSet, src: &[u8]) -> Behind
    requires { 0 < length src.now }
    ensures written { words.new ≡ written words.old (elsewhere set to src.now).words }
    ensures set { result.0 ≡ (elsewhere set to src.now).set }
    ensures taken { result.1 ≡ (elsewhere set to src.now).taken }
    ensures within { result.1 ≤ length src.now }
{
    match (set, to) {
        (CodeSet::A, CodeSet::B) => push_to_b(words, src),
        (CodeSet::B, CodeSet::A) => push_to_a(words, src),
        (_, CodeSet::A) => {
            push_behind(words, 58, CodeSet::A, src);
            (CodeSet::A, 1)
        }
        (_, CodeSet::B) => {
            push_behind(words, 63, CodeSet::B, src);
            (CodeSet::B, 1)
        }
        _ => push_to_high(words, set, to, src),
    }
}

/// Writes what bytes begin with.
#[tactic(auto, unfolding(crate::specs::Messages::step))]
fn push_step(words: &mut Words, set: CodeSet, src: &[u8]) -> Behind
    requires { 0 < length src.now }
    ensures written { words.new ≡ written words.old (step set src.now).words }
    ensures set { result.0 ≡ (step set src.now).set }
    ensures taken { result.1 ≡ (step set src.now).taken }
    ensures within { result.1 ≤ length src.now }
{
    if begins_digits(9, src) {
        push_nine(words, src);
        return (set, 9);
    }
    if let Some(value) = set.value(at(src, 0)) {
        words.push(value);
        return (set, 1);
    }
    push_elsewhere(words, set, CodeSet::of(at(src, 0)), src)
}

/// Writes bytes, from set A on, and answers the set in force behind them.
pub fn push_text(words: &mut Words, src: &[u8]) -> CodeSet
    ensures written { words.new ≡ written words.old (text src.now).words }
    ensures set { result ≡ (text src.now).set }
{
    let mut set = CodeSet::A;
    let mut left = src;
    for _ in 0..src.len() {
        if left.is_empty() {
            return set;
        }
        let (behind, taken) = push_step(words, set, left);
        set = behind;
        left = &left[taken..];
    }
    set
}
