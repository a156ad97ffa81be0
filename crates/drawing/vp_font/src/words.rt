//! Lines, words and numbers of a file.

ghost use Rattle.std.specs.Prelude.{◌≡◌, ℕ, [], ◌∷◌, ◌+◌, ◌-◌, ◌^◌, ◌<◌, ◌≤◌, min, IsTrue, EachIndex, MatchOption, length, take, slice_index};
ghost use Rattle.std.specs.List.{prefix_len};
ghost use Rattle.std.specs.Str.Parse.{digits_value};
ghost use Rattle.vp_font.specs.Words.{lines, white, inked, within_line, past_white, first_word, behind_word, behind, word, digit, digits, number, number_at};

use crate::fault::Fault;

/// A number of a line.
#[derive(Clone, Copy)]
pub struct Number {
    /// Whether it has a minus.
    pub below: bool,
    /// Its digits, or the greatest of 32 bits if they are more.
    pub size: u32,
}

/// How many bytes stand before the first LF.
fn length_of_line(text: &[u8]) -> usize
    ensures value { result ≡ prefix_len within_line text.now }
    ensures most { result ≤ length text.now }
{
    text.iter().take_while(|b| **b != b'\n').count()
}

/// The first line, without what ends it, and what stands behind it.
pub fn next_line(text: &[u8]) -> Option<(&[u8], &[u8])>
    ensures lines { MatchOption result (lines text.now ≡ []) (λ r. lines text.now ≡ r.0.now ∷ lines r.1.now) }
    ensures less { MatchOption result (Unit {0}) (λ r. length r.0.now + length r.1.now ≤ length text.now) }
    ensures shorter { MatchOption result (Unit {0}) (λ r. length r.1.now < length text.now) }
{
    if text.is_empty() {
        return None;
    }
    let n = length_of_line(text);
    if n < text.len() {
        Some((&text[..n], &text[n + 1..]))
    } else {
        Some((text, &[]))
    }
}

/// A blank, TAB or CR.
fn is_white(b: u8) -> bool
    ensures { result ≡ white b }
{
    matches!(b, b' ' | b'\t' | b'\r')
}

/// How many white bytes stand at the front.
fn count_white(text: &[u8]) -> usize
    ensures value { result ≡ prefix_len white text.now }
    ensures most { result ≤ length text.now }
{
    text.iter().take_while(|b| is_white(**b)).count()
}

/// How many bytes of a word stand at the front.
fn count_inked(text: &[u8]) -> usize
    ensures value { result ≡ prefix_len inked text.now }
    ensures most { result ≤ length text.now }
{
    text.iter().take_while(|b| !is_white(**b)).count()
}

/// How many digits stand at the front.
fn count_digits(text: &[u8]) -> usize
    ensures value { result ≡ prefix_len digit text.now }
    ensures most { result ≤ length text.now }
{
    text.iter()
        .take_while(|b| **b >= b'0' && **b <= b'9')
        .count()
}

/// What stands behind the white bytes at the front.
fn past_white(line: &[u8]) -> &[u8]
    ensures { result.now ≡ past_white line.now }
{
    &line[count_white(line)..]
}

/// The first word.
#[tactic(auto, unfolding(crate::specs::Words::first_word))]
fn first_word(line: &[u8]) -> &[u8]
    ensures { result.now ≡ first_word line.now }
{
    let text = past_white(line);
    &text[..count_inked(text)]
}

/// What stands behind the first word.
#[tactic(auto, unfolding(crate::specs::Words::behind_word))]
fn behind_word(line: &[u8]) -> &[u8]
    ensures { result.now ≡ behind_word line.now }
{
    let text = past_white(line);
    &text[count_inked(text)..]
}

/// Word n of a line, from 0.
pub fn word(line: &[u8], n: usize) -> &[u8]
    ensures { result.now ≡ word n line.now }
{
    let mut rest = line;
    for _i in 0..n {
        rest = behind_word(rest);
    }
    first_word(rest)
}

/// The number that digits write, or the greatest u32 if that is less.
fn value(digits: &[u8]) -> u32
    requires { EachIndex digits.now (λ k. IsTrue (digit (slice_index digits.now k))) }
    ensures { result ≡ min (digits_value 10 digits.now) (2 ^ 32 - 1) }
{
    let mut value = 0u32;
    for d in digits {
        value = value
            .saturating_mul(10)
            .saturating_add(u32::from(*d - b'0'));
    }
    value
}

/// Digits as a number.
#[tactic(auto, unfolding(crate::specs::Words::digits))]
fn digits(below: bool, text: &[u8]) -> Result<Number, Fault>
    ensures { result ≡ digits below text.now }
{
    let n = count_digits(text);
    if n == 0 || n < text.len() {
        return Err(Fault::Number);
    }
    let size = value(text);
    Ok(Number { below, size })
}

/// A minus or none, and digits.
#[tactic(auto, unfolding(crate::specs::Words::number))]
fn number_of(word: &[u8]) -> Result<Number, Fault>
    ensures { result ≡ number word.now }
{
    match word {
        [] => Err(Fault::Number),
        [b'-', rest @ ..] => digits(true, rest),
        _ => digits(false, word),
    }
}

/// Word n of a line as a number.
pub fn number_at(line: &[u8], n: usize) -> Result<Number, Fault>
    ensures { result ≡ number_at n line.now }
{
    number_of(word(line, n))
}
