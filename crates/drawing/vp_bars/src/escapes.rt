//! Code 128 with `{` and a letter or digit for code sets and function characters.

ghost use Rattle.std.specs.Prelude.{◌≡◌, ℕ, ◌+◌, ◌≤◌, ◌<◌, ◌++◌, ◌∷◌, [], List, length, true, Result, Ok, Err, OnOk, IfOk, IfErr, IfSome, MatchOption, Some, None};
ghost use Rattle.vp_bars.specs.declared.bars.TheConstants.{DATA_BYTES};
ghost use Rattle.vp_dots.specs.declared.fault.Why.{Why};
ghost use Rattle.vp_bars.specs.declared.code_128.CodeSet.{CodeSet};
ghost use Rattle.vp_bars.specs.CodeSets.{onto, tokens, token_size};
ghost use Rattle.vp_bars.specs.Escapes.{brace, selected as selected_by, function_in, other_code, coded, shifted, is_shift, escaped, after_shift, from_set, escaped_symbol, code128_esc_of};

use crate::bars::{Bars, check_length};
use crate::code_128::{CodeSet, FNC1, Token, first_token, push_byte, push_value, symbol};
use arrayvec::ArrayVec;
use vp_dots::{Fault, Why};

/// The lead of the codes.
const BRACE: u8 = b'{';

/// The value of a shift to the other one of A and B, for one character.
const SHIFT: u8 = 98;

/// The set that a code selects.
fn selected(code: u8) -> Option<CodeSet>
    ensures { result ≡ selected_by code }
{
    match code {
        b'A' => Some(CodeSet::A),
        b'B' => Some(CodeSet::B),
        b'C' => Some(CodeSet::C),
        _ => None,
    }
}

/// The function character of a code in A or B.
fn function(set: CodeSet, code: u8) -> Option<u8>
    ensures { result ≡ function_in set code }
{
    match code {
        b'1' => Some(FNC1),
        b'2' => Some(97),
        b'3' => Some(96),
        b'4' => Some(set.selector()),
        _ => None,
    }
}

/// Appends what a code that selects no set stands for.
fn read_other(set: CodeSet, code: u8, values: &mut ArrayVec<u8, 258>) -> Result<(), Why>
    requires { length values.old.items ≤ 257 }
    ensures value { OnOk result ((r : Result (List ℕ) Why)
        → onto values.old.items (other_code set code r) ≡ onto values.new.items r) }
    ensures refused { IfErr result (λ why. (r : Result (List ℕ) Why) → other_code set code r ≡ Err why) }
    ensures len { OnOk result (length values.new.items ≤ length values.old.items + 1) }
{
    let value = match (set, code) {
        (CodeSet::C, b'1') => FNC1,
        (CodeSet::C, _) => return Err(Why::CodeSet),
        (CodeSet::A, BRACE) => return Err(Why::Char),
        (CodeSet::B, BRACE) => BRACE - 32,
        (CodeSet::A | CodeSet::B, _) => function(set, code).ok_or(Why::CodeSet)?,
    };
    push_value(value, values);
    Ok(())
}

/// Appends what a code stands for, and gives the set that is in force after it.
fn read_code(set: CodeSet, code: u8, values: &mut ArrayVec<u8, 258>) -> Result<CodeSet, Why>
    requires { length values.old.items ≤ 257 }
    ensures value { IfOk result (λ next. (k : CodeSet → Result (List ℕ) Why)
        → onto values.old.items (coded set code (selected_by code) k) ≡ onto values.new.items (k next)) }
    ensures refused { IfErr result (λ why. (k : CodeSet → Result (List ℕ) Why)
        → coded set code (selected_by code) k ≡ Err why) }
    ensures len { OnOk result (length values.new.items ≤ length values.old.items + 1) }
{
    match selected(code) {
        Some(next) => {
            if next != set {
                push_value(next.selector(), values);
            }
            Ok(next)
        }
        None => {
            read_other(set, code, values)?;
            Ok(set)
        }
    }
}

/// Appends a shift and the byte behind it, and gives the bytes that are left.
fn read_shifted<'a>(
    set: CodeSet,
    bytes: &'a [u8],
    values: &mut ArrayVec<u8, 258>,
) -> Result<&'a [u8], Why>
    requires { length values.old.items + length bytes.now ≤ 257 }
    ensures value { IfOk result (λ rest. onto values.old.items (after_shift set (tokens brace bytes.now))
        ≡ onto values.new.items (escaped set (tokens brace rest.now))) }
    ensures refused { IfErr result (λ why. after_shift set (tokens brace bytes.now) ≡ Err why) }
    ensures size { IfOk result (λ rest. length values.new.items + length rest.now ≤ length values.old.items
        + 1 + length bytes.now) }
    ensures shorter { IfOk result (λ rest. length rest.now < length bytes.now) }
{
    let (b, rest) = match first_token(BRACE, bytes) {
        Some((Token::Byte(b), rest)) => (b, rest),
        Some((Token::Code(BRACE), rest)) => (BRACE, rest),
        _ => return Err(Why::CodeSet),
    };
    push_value(SHIFT, values);
    push_byte(set.other(), b, values)?;
    Ok(rest)
}

/// Appends what a token stands for, and gives the set that is in force after it and the bytes that are left.
fn read_token<'a>(
    set: CodeSet,
    token: Token,
    bytes: &'a [u8],
    values: &mut ArrayVec<u8, 258>,
) -> Result<(CodeSet, &'a [u8]), Why>
    requires { length values.old.items + token_size token + length bytes.now ≤ 258 }
    ensures value { IfOk result (λ next. onto values.old.items
        (escaped set (token ∷ tokens brace bytes.now))
        ≡ onto values.new.items (escaped next.0 (tokens brace next.1.now))) }
    ensures refused { IfErr result (λ why. escaped set (token ∷ tokens brace bytes.now) ≡ Err why) }
    ensures size { IfOk result (λ next. length values.new.items + length next.1.now ≤ length
        values.old.items + token_size token + length bytes.now) }
    ensures shorter { IfOk result (λ next. length next.1.now ≤ length bytes.now) }
{
    match token {
        Token::Byte(b) => {
            push_byte(set, b, values)?;
            Ok((set, bytes))
        }
        Token::Lead => Err(Why::CodeSet),
        Token::Code(b'S') if set != CodeSet::C => {
            let rest = read_shifted(set, bytes, values)?;
            Ok((set, rest))
        }
        Token::Code(code) => {
            let next = read_code(set, code, values)?;
            Ok((next, bytes))
        }
    }
}

/// The values of the bytes, read from a start set.
#[tactic(auto, using(crate::proofs::Tokens::onto_none))]
fn read_escapes(start: CodeSet, src: &[u8]) -> Result<ArrayVec<u8, 258>, Why>
    requires { length src.now ≤ DATA_BYTES }
    ensures values { IfOk result (λ vs. escaped start (tokens brace src.now) ≡ Ok vs.items) }
    ensures refused { IfErr result (λ why. escaped start (tokens brace src.now) ≡ Err why) }
    ensures few { IfOk result (λ vs. length vs.items ≤ length src.now) }
{
    let mut values = ArrayVec::new();
    let mut set = start;
    let mut bytes = src;
    while let Some((token, rest)) = first_token(BRACE, bytes) {
        let (next, rest) = read_token(set, token, rest, &mut values)?;
        set = next;
        bytes = rest;
    }
    Ok(values)
}

/// The start set that the data begin with, and the bytes behind it.
fn start_set(src: &[u8]) -> Option<(CodeSet, &[u8])>
    ensures start { MatchOption result (escaped_symbol src.now ≡ from_set None src.now)
        (λ s. escaped_symbol src.now ≡ from_set (Some s.0) s.1.now) }
    ensures few { IfSome result (λ s. length s.1.now ≤ length src.now) }
{
    match src {
        [BRACE, code, rest @ ..] => Some((selected(*code)?, rest)),
        _ => None,
    }
}

/// The Code 128 symbol of these bytes.
///
/// The data begin with `{A`, `{B` or `{C`, and later ones change the set. `{1` to `{4` are FNC1 to FNC4,
/// `{S` shifts the next byte into the other one of A and B, and `{{` is the byte `{`. In set C only `{1`
/// and changes of the set stand, and a byte 0 to 99 is its own value. Refused are, in this order: no bytes;
/// more than 255 bytes (`SymbolTooLong`); the first offence against the sets (`CodeSet`) or byte that the
/// set lacks (`Char`); no value behind the start.
pub fn code128_esc(src: &[u8]) -> Result<Bars, Fault>
    ensures { result ≡ code128_esc_of src.now }
{
    check_length(src)?;
    let Some((start, bytes)) = start_set(src) else {
        return Err(Fault::Symbol(Why::CodeSet));
    };
    match read_escapes(start, bytes) {
        Ok(values) => symbol(start, values.as_slice()),
        Err(why) => Err(Fault::Symbol(why)),
    }
}
