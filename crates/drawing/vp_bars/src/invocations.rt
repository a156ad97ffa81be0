//! Code 128 with `>` and a character for code sets, function characters and some bytes.

ghost use Rattle.std.specs.Prelude.{◌≡◌, ◌≢◌, ℕ, ◌+◌, ◌≤◌, ◌<◌, ◌++◌, ◌∷◌, [], List, length, true, Result, Ok, Err, OnOk, IfOk, IfErr, IfSome, MatchOption, Some, None, IsTrue};
ghost use Rattle.vp_bars.specs.declared.bars.TheConstants.{DATA_BYTES};
ghost use Rattle.std.specs.Char.{is_ascii_digit};
ghost use Rattle.vp_dots.specs.declared.fault.Why.{Why};
ghost use Rattle.vp_bars.specs.declared.code_128.CodeSet.{CodeSet};
ghost use Rattle.vp_bars.specs.declared.code_128.CodeSet.TheVariants.{B};
ghost use Rattle.vp_bars.specs.declared.code_128.Token.TheVariants.{Byte};
ghost use Rattle.vp_bars.specs.CodeSets.{onto, tokens, token_size};
ghost use Rattle.vp_bars.specs.Invocations.{greater, started as started_by, invoked_set as set_invoked_by, invoked_value as value_invoked_by, valued, other_invocation, invoked_code, pair_of as number_of, pair_in, invoked, invoked_from, invoked_symbol};

use crate::bars::Bars;
use crate::code_128::{CodeSet, FNC1, Token, first_token, push_byte, push_value, symbol};
use arrayvec::ArrayVec;
use vp_dots::{Fault, Why};

/// The lead of the codes.
const GREATER: u8 = b'>';

/// The start set of a code.
fn started(code: u8) -> Option<CodeSet>
    ensures { result ≡ started_by code }
{
    match code {
        b'9' => Some(CodeSet::A),
        b':' => Some(CodeSet::B),
        b';' => Some(CodeSet::C),
        _ => None,
    }
}

/// The set that a code invokes.
fn invoked_set(code: u8) -> Option<CodeSet>
    ensures { result ≡ set_invoked_by code }
{
    match code {
        b'5' => Some(CodeSet::C),
        b'6' => Some(CodeSet::B),
        b'7' => Some(CodeSet::A),
        _ => None,
    }
}

/// The value that a code invokes in A and B.
fn invoked_value(code: u8) -> Option<u8>
    ensures { result ≡ value_invoked_by code }
{
    match code {
        b'1' => Some(95),
        b'2' => Some(96),
        b'3' => Some(97),
        b'0' => Some(30),
        b'<' => Some(62),
        b'=' => Some(94),
        _ => None,
    }
}

/// Appends what a code that invokes no set stands for.
fn read_other(set: CodeSet, code: u8, values: &mut ArrayVec<u8, 258>) -> Result<(), Why>
    requires { length values.old.items ≤ 257 }
    ensures value { OnOk result ((r : Result (List ℕ) Why)
        → onto values.old.items (other_invocation set code r) ≡ onto values.new.items r) }
    ensures refused { IfErr result (λ why. (r : Result (List ℕ) Why)
        → other_invocation set code r ≡ Err why) }
    ensures len { OnOk result (length values.new.items ≤ length values.old.items + 1) }
{
    if code == b'8' {
        push_value(FNC1, values);
        return Ok(());
    }
    match (set, invoked_value(code)) {
        (_, None) => Err(Why::CodeSet),
        (CodeSet::A | CodeSet::B, Some(value)) => {
            push_value(value, values);
            Ok(())
        }
        (CodeSet::C, Some(_)) => Ok(()),
    }
}

/// Appends what a code stands for, and gives the set that is in force after it.
fn read_code(set: CodeSet, code: u8, values: &mut ArrayVec<u8, 258>) -> Result<CodeSet, Why>
    requires { length values.old.items ≤ 257 }
    ensures value { IfOk result (λ next. (k : CodeSet → Result (List ℕ) Why)
        → onto values.old.items (invoked_code set code (set_invoked_by code) k)
        ≡ onto values.new.items (k next)) }
    ensures refused { IfErr result (λ why. (k : CodeSet → Result (List ℕ) Why)
        → invoked_code set code (set_invoked_by code) k ≡ Err why) }
    ensures len { OnOk result (length values.new.items ≤ length values.old.items + 1) }
{
    match invoked_set(code) {
        Some(next) => {
            if next != CodeSet::C || set != CodeSet::C {
                push_value(next.selector(), values);
            }
            Ok(next)
        }
        None => {
            read_other(set, code, values)?;
            Ok(set)
        }
    }
}

/// The number of two digits.
pub(crate) fn pair_of(d: u8, e: u8) -> u8
    requires tens { IsTrue (is_ascii_digit d) }
    requires ones { IsTrue (is_ascii_digit e) }
    ensures pair { result ≡ number_of d e }
    ensures small { result < 100 }
{
    10 * (d - b'0') + (e - b'0')
}

/// Appends the value of two digits in A or C, which A lacks above 95.
fn push_pair(set: CodeSet, d: u8, e: u8, values: &mut ArrayVec<u8, 258>)
    requires room { length values.old.items ≤ 257 }
    requires tens { IsTrue (is_ascii_digit d) }
    requires ones { IsTrue (is_ascii_digit e) }
    ensures value { (r : Result (List ℕ) Why) → onto values.old.items (onto (pair_in set (number_of d e)) r)
        ≡ onto values.new.items r }
    ensures len { length values.new.items ≤ length values.old.items + 1 }
{
    let pair = pair_of(d, e);
    if set == CodeSet::A && pair >= 96 {
        return;
    }
    push_value(pair, values);
}

/// Appends what a byte stands for in A or C, with the byte behind it, and gives the bytes that are left.
#[tactic(auto, using(crate::proofs::Pairs::dropped))]
fn read_pair<'a>(set: CodeSet, d: u8, bytes: &'a [u8], values: &mut ArrayVec<u8, 258>) -> &'a [u8]
    requires room { length values.old.items ≤ 257 }
    requires pairs { set ≢ B }
    ensures value { onto values.old.items (invoked set (Byte d ∷ tokens greater bytes.now))
        ≡ onto values.new.items (invoked set (tokens greater result.now)) }
    ensures size { length values.new.items + length result.now ≤ length values.old.items + 1 + length
        bytes.now }
    ensures shorter { length result.now ≤ length bytes.now }
{
    if !d.is_ascii_digit() {
        return bytes;
    }
    match first_token(GREATER, bytes) {
        Some((Token::Byte(e), rest)) => {
            if e.is_ascii_digit() {
                push_pair(set, d, e, values);
            }
            rest
        }
        Some((Token::Code(_), _)) => bytes,
        Some((Token::Lead, _)) => bytes,
        None => bytes,
    }
}

/// Appends what a token stands for, and gives the set that is in force after it and the bytes that are left.
fn read_token<'a>(
    set: CodeSet,
    token: Token,
    bytes: &'a [u8],
    values: &mut ArrayVec<u8, 258>,
) -> Result<(CodeSet, &'a [u8]), Why>
    requires { length values.old.items + token_size token + length bytes.now ≤ 258 }
    ensures value { IfOk result (λ next. onto values.old.items
        (invoked set (token ∷ tokens greater bytes.now))
        ≡ onto values.new.items (invoked next.0 (tokens greater next.1.now))) }
    ensures refused { IfErr result (λ why. invoked set (token ∷ tokens greater bytes.now) ≡ Err why) }
    ensures size { IfOk result (λ next. length values.new.items + length next.1.now ≤ length
        values.old.items + token_size token + length bytes.now) }
    ensures shorter { IfOk result (λ next. length next.1.now ≤ length bytes.now) }
{
    match token {
        Token::Lead => Err(Why::CodeSet),
        Token::Code(code) => {
            let next = read_code(set, code, values)?;
            Ok((next, bytes))
        }
        Token::Byte(b) => match set {
            CodeSet::B => {
                push_byte(CodeSet::B, b, values)?;
                Ok((CodeSet::B, bytes))
            }
            CodeSet::A | CodeSet::C => Ok((set, read_pair(set, b, bytes, values))),
        },
    }
}

/// The values of the bytes, read from a start set.
#[tactic(auto, using(crate::proofs::Tokens::onto_none))]
fn read_invocations(start: CodeSet, src: &[u8]) -> Result<ArrayVec<u8, 258>, Why>
    requires { length src.now ≤ DATA_BYTES }
    ensures values { IfOk result (λ vs. invoked start (tokens greater src.now) ≡ Ok vs.items) }
    ensures refused { IfErr result (λ why. invoked start (tokens greater src.now) ≡ Err why) }
    ensures few { IfOk result (λ vs. length vs.items ≤ length src.now) }
{
    let mut values = ArrayVec::new();
    let mut set = start;
    let mut bytes = src;
    while let Some((token, rest)) = first_token(GREATER, bytes) {
        let (next, rest) = read_token(set, token, rest, &mut values)?;
        set = next;
        bytes = rest;
    }
    Ok(values)
}

/// The start set, and the bytes behind it.
fn start_set(src: &[u8]) -> (CodeSet, &[u8])
    ensures start { invoked_symbol src.now ≡ invoked_from result.0 result.1.now }
    ensures few { length result.1.now ≤ length src.now }
{
    if let [GREATER, code, rest @ ..] = src {
        if let Some(set) = started(*code) {
            return (set, rest);
        }
    }
    (CodeSet::B, src)
}

/// The symbol of data with invocations.
pub(crate) fn with_invocations(src: &[u8]) -> Result<Bars, Fault>
    requires { length src.now ≤ DATA_BYTES }
    ensures { result ≡ invoked_symbol src.now }
{
    let (start, bytes) = start_set(src);
    match read_invocations(start, bytes) {
        Ok(values) => symbol(start, values.as_slice()),
        Err(why) => Err(Fault::Symbol(why)),
    }
}
