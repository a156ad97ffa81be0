//! Code 128: code sets, tokens of data, and the symbol of values.

ghost use Rattle.std.specs.Prelude.{◌≡◌, ℕ, ◌+◌, ◌*◌, ◌≤◌, ◌++◌, ◌∷◌, [], List, length, Result, Ok, Err, OnOk, IfErr, MatchOption};
ghost use Rattle.vp_bars.specs.declared.bars.TheConstants.{DATA_BYTES};
ghost use Rattle.vp_dots.specs.declared.fault.Why.{Why};
ghost use Rattle.vp_bars.specs.CodeSets.{start_of, selector_of, other_of, value_in, onto, plain, tokens, token_size, code_128_check, symbol_from};

use crate::bars::{Bars, extend};
use crate::symbology::Symbology;
use arrayvec::ArrayVec;
use vp_dots::{Fault, Why};

/// A code set of Code 128.
#[derive(Clone, Copy, PartialEq, Eq)]
pub enum CodeSet {
    A,
    B,
    C,
}

/// A part of data in which a lead and the byte after it are a code.
#[derive(Clone, Copy)]
pub enum Token {
    Byte(u8),
    Code(u8),
    /// A lead at the end.
    Lead,
}

/// The value of FNC1.
pub(crate) const FNC1: u8 = 102;

/// The value of the stop.
const STOP: u8 = 106;

impl CodeSet {
    /// The start character of the set.
    fn start(self) -> u8
        ensures { result ≡ start_of self }
    {
        match self {
            CodeSet::A => 103,
            CodeSet::B => 104,
            CodeSet::C => 105,
        }
    }

    /// The character that changes to the set.
    pub(crate) fn selector(self) -> u8
        ensures { result ≡ selector_of self }
    {
        match self {
            CodeSet::A => 101,
            CodeSet::B => 100,
            CodeSet::C => 99,
        }
    }

    /// The set that a shift takes the next character from.
    pub(crate) fn other(self) -> CodeSet
        ensures { result ≡ other_of self }
    {
        match self {
            CodeSet::A => CodeSet::B,
            CodeSet::B => CodeSet::A,
            CodeSet::C => CodeSet::C,
        }
    }

    /// The value of a byte.
    fn value(self, b: u8) -> Option<u8>
        ensures { result ≡ value_in self b }
    {
        match self {
            CodeSet::A if b < 32 => Some(b + 64),
            CodeSet::A if b < 96 => Some(b - 32),
            CodeSet::B if b >= 32 && b < 128 => Some(b - 32),
            CodeSet::C if b < 100 => Some(b),
            _ => None,
        }
    }
}

/// The first token, and the bytes behind it.
pub(crate) fn first_token(lead: u8, bytes: &[u8]) -> Option<(Token, &[u8])>
    ensures token { MatchOption result (bytes.now ≡ []) (λ t. tokens lead bytes.now
        ≡ t.0 ∷ tokens lead t.1.now) }
    ensures size { MatchOption result (bytes.now ≡ []) (λ t. length bytes.now
        ≡ token_size t.0 + length t.1.now) }
{
    let b = *bytes.first()?;
    if b != lead {
        return Some((Token::Byte(b), &bytes[1..]));
    }
    if bytes.len() == 1 {
        return Some((Token::Lead, &bytes[1..]));
    }
    Some((Token::Code(bytes[1]), &bytes[2..]))
}

/// Appends the value of a byte, which is refused where the set lacks it.
pub(crate) fn push_byte(set: CodeSet, b: u8, values: &mut ArrayVec<u8, 258>) -> Result<(), Why>
    requires { length values.old.items ≤ 257 }
    ensures value { OnOk result ((r : Result (List ℕ) Why)
        → onto values.old.items (plain (value_in set b) r) ≡ onto values.new.items r) }
    ensures refused { IfErr result (λ why. (r : Result (List ℕ) Why) → plain (value_in set b) r ≡ Err why) }
    ensures len { OnOk result (length values.new.items ≡ length values.old.items + 1) }
{
    match set.value(b) {
        Some(value) => {
            values.push(value);
            Ok(())
        }
        None => Err(Why::Char),
    }
}

/// Appends a value.
pub(crate) fn push_value(value: u8, values: &mut ArrayVec<u8, 258>)
    requires { length values.old.items ≤ 257 }
    ensures value { (r : Result (List ℕ) Why) → onto values.old.items (onto (value ∷ []) r)
        ≡ onto values.new.items r }
    ensures len { length values.new.items ≡ length values.old.items + 1 }
{
    values.push(value);
}

/// The check character of the start and the values.
#[tactic(auto, using(crate::proofs::Tokens::placed_more))]
fn check_character(start: u8, values: &[u8]) -> u8
    requires { length values.now ≤ 258 }
    ensures { result ≡ code_128_check start values.now }
{
    let mut sum = u32::from(start);
    let mut place = 1;
    for v in values {
        sum += place * u32::from(*v);
        place += 1;
    }
    (sum % 103) as u8
}

/// The symbol of these values, read from a start set.
pub(crate) fn symbol(start: CodeSet, read: &[u8]) -> Result<Bars, Fault>
    requires { length read.now ≤ DATA_BYTES }
    ensures { result ≡ symbol_from start (Ok read.now) }
{
    if read.is_empty() {
        return Err(Fault::Symbol(Why::Empty));
    }
    let mut values = ArrayVec::new();
    values.push(start.start());
    extend(&mut values, read);
    let check = check_character(start.start(), read);
    values.push(check);
    values.push(STOP);
    Ok(Bars::new(Symbology::Code128, values))
}
