//! Code 128 with runs of digits packed into set C, and ZPL's two modes.

ghost use Rattle.std.specs.Prelude.{◌≡◌, ◌≢◌, ℕ, ◌+◌, ◌≤◌, ◌<◌, ◌++◌, ◌∷◌, [], List, length, drop, slice_index, Result, Ok, Err, OnOk, IfOk, IfErr, IsTrue};
ghost use Rattle.vp_bars.specs.declared.bars.TheConstants.{DATA_BYTES};
ghost use Rattle.vp_dots.specs.declared.fault.Why.{Why};
ghost use Rattle.vp_bars.specs.CodeSets.{onto, plain, value_in};
ghost use Rattle.vp_bars.specs.declared.code_128.CodeSet.{CodeSet};
ghost use Rattle.vp_bars.specs.declared.code_128.CodeSet.TheVariants.{B, C};
ghost use Rattle.vp_bars.specs.Invocations.{pair_of as number_of};
ghost use Rattle.vp_bars.specs.Packing.{begins_pair as has_pair, begins_run as has_run, first_set as set_of_first, room_for, packed, packed_symbol, code128_zpl_of};

use crate::bars::{Bars, check_length};
use crate::code_128::{CodeSet, push_byte, push_value, symbol};
use crate::invocations::{pair_of, with_invocations};
use arrayvec::ArrayVec;
use vp_dots::{Fault, Why};

/// Whether two digits come first.
fn begins_pair(bytes: &[u8]) -> bool
    ensures { result ≡ has_pair bytes.now }
{
    bytes.len() >= 2 && bytes[0].is_ascii_digit() && bytes[1].is_ascii_digit()
}

/// Whether four digits come first.
fn begins_run(bytes: &[u8]) -> bool
    ensures { result ≡ has_run bytes.now }
{
    bytes.len() >= 4 && begins_pair(bytes) && begins_pair(&bytes[2..])
}

/// Appends the value of the two digits that come first, and gives the bytes behind them.
#[tactic(auto, using(crate::proofs::Packed::pair_digits))]
fn read_pair<'a>(bytes: &'a [u8], values: &mut ArrayVec<u8, 258>) -> &'a [u8]
    requires room { length values.old.items ≤ 257 }
    requires pair { IsTrue (has_pair bytes.now) }
    ensures value { (r : Result (List ℕ) Why) → onto values.old.items
        (onto (number_of (slice_index bytes.now 0) (slice_index bytes.now 1) ∷ []) r)
        ≡ onto values.new.items r }
    ensures len { length values.new.items ≡ length values.old.items + 1 }
    ensures rest { result.now ≡ drop 2 bytes.now }
    ensures size { length result.now + 2 ≡ length bytes.now }
{
    push_value(pair_of(bytes[0], bytes[1]), values);
    &bytes[2..]
}

/// Appends the value in B of the byte that comes first, and gives the bytes behind it.
fn read_byte<'a>(bytes: &'a [u8], values: &mut ArrayVec<u8, 258>) -> Result<&'a [u8], Why>
    requires room { length values.old.items ≤ 257 }
    requires some { 1 ≤ length bytes.now }
    ensures value { OnOk result ((r : Result (List ℕ) Why)
        → onto values.old.items (plain (value_in B (slice_index bytes.now 0)) r) ≡ onto values.new.items r) }
    ensures refused { IfErr result (λ why. (r : Result (List ℕ) Why)
        → plain (value_in B (slice_index bytes.now 0)) r ≡ Err why) }
    ensures len { OnOk result (length values.new.items ≡ length values.old.items + 1) }
    ensures rest { IfOk result (λ rest. rest.now ≡ drop 1 bytes.now) }
{
    push_byte(CodeSet::B, bytes[0], values)?;
    Ok(&bytes[1..])
}

/// Appends the values of what comes first where set C is in force, and gives the set in force after it and
/// the bytes behind it.
fn read_in_c<'a>(
    bytes: &'a [u8],
    values: &mut ArrayVec<u8, 258>,
) -> Result<(CodeSet, &'a [u8]), Why>
    requires some { 1 ≤ length bytes.now }
    requires room { length values.old.items + room_for C bytes.now ≤ 258 }
    ensures value { IfOk result (λ next. onto values.old.items (packed C bytes.now)
        ≡ onto values.new.items (packed next.0 next.1.now)) }
    ensures refused { IfErr result (λ why. packed C bytes.now ≡ Err why) }
    ensures size { IfOk result (λ next. length values.new.items + room_for next.0 next.1.now ≤ length
        values.old.items + room_for C bytes.now) }
    ensures shorter { IfOk result (λ next. length next.1.now < length bytes.now) }
{
    if begins_pair(bytes) {
        let rest = read_pair(bytes, values);
        return Ok((CodeSet::C, rest));
    }
    push_value(CodeSet::B.selector(), values);
    let rest = read_byte(bytes, values)?;
    Ok((CodeSet::B, rest))
}

/// Appends the values of what comes first where set A or B is in force, and gives the set in force after it
/// and the bytes behind it.
fn read_in_b<'a>(
    bytes: &'a [u8],
    values: &mut ArrayVec<u8, 258>,
) -> Result<(CodeSet, &'a [u8]), Why>
    requires some { 1 ≤ length bytes.now }
    requires room { length values.old.items + room_for B bytes.now ≤ 258 }
    ensures value { IfOk result (λ next. (set : CodeSet) → set ≢ C
        → onto values.old.items (packed set bytes.now) ≡ onto values.new.items (packed next.0 next.1.now)) }
    ensures refused { IfErr result (λ why. (set : CodeSet) → set ≢ C → packed set bytes.now ≡ Err why) }
    ensures size { IfOk result (λ next. length values.new.items + room_for next.0 next.1.now ≤ length
        values.old.items + room_for B bytes.now) }
    ensures shorter { IfOk result (λ next. length next.1.now < length bytes.now) }
{
    if begins_run(bytes) {
        push_value(CodeSet::C.selector(), values);
        let rest = read_pair(bytes, values);
        let rest = read_pair(rest, values);
        return Ok((CodeSet::C, rest));
    }
    let rest = read_byte(bytes, values)?;
    Ok((CodeSet::B, rest))
}

/// The values of the bytes, read from a start set.
#[tactic(auto, using(crate::proofs::Tokens::onto_none))]
fn read_packed(start: CodeSet, src: &[u8]) -> Result<ArrayVec<u8, 258>, Why>
    requires { room_for start src.now ≤ DATA_BYTES }
    ensures values { IfOk result (λ vs. packed start src.now ≡ Ok vs.items) }
    ensures refused { IfErr result (λ why. packed start src.now ≡ Err why) }
    ensures few { IfOk result (λ vs. length vs.items ≤ DATA_BYTES) }
{
    let mut values = ArrayVec::new();
    let mut set = start;
    let mut bytes = src;
    while !bytes.is_empty() {
        let (next, rest) = match set {
            CodeSet::C => read_in_c(bytes, &mut values)?,
            CodeSet::A | CodeSet::B => read_in_b(bytes, &mut values)?,
        };
        set = next;
        bytes = rest;
    }
    Ok(values)
}

/// The set of the first value.
fn first_set(src: &[u8]) -> CodeSet
    ensures set { result ≡ set_of_first src.now }
    ensures room { room_for result src.now ≡ length src.now }
{
    if begins_run(src) {
        CodeSet::C
    } else {
        CodeSet::B
    }
}

/// The symbol of packed data.
fn with_packing(src: &[u8]) -> Result<Bars, Fault>
    requires { length src.now ≤ DATA_BYTES }
    ensures { result ≡ packed_symbol src.now }
{
    let start = first_set(src);
    match read_packed(start, src) {
        Ok(values) => symbol(start, values.as_slice()),
        Err(why) => Err(Fault::Symbol(why)),
    }
}

/// The Code 128 symbol of these bytes, as ZPL's ^BC reads them.
///
/// With `auto` each run of four or more digits stands in set C, by pairs from its left, and all else in set
/// B. Without it `>` and the byte after it are an invocation, and the start is that of `>9`, `>:` or `>;`
/// at the front, or of set B. Refused are, in this order: no bytes; more than 255 bytes (`SymbolTooLong`);
/// the first byte that set B lacks (`Char`) or `>` that begins no invocation (`CodeSet`); no value behind
/// the start.
pub fn code128_zpl(src: &[u8], auto: bool) -> Result<Bars, Fault>
    ensures { result ≡ code128_zpl_of src.now auto }
{
    check_length(src)?;
    if auto {
        return with_packing(src);
    }
    with_invocations(src)
}
