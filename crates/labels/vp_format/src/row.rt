//! One row of a picture.
ghost use Rattle.std.specs.Prelude.{◌≡◌, ℕ, ◌+◌, ◌-◌, ◌*◌, ◌<◌, ◌≤◌, min, false, true, length, drop, List, ◌∷◌, None, IfSome};
ghost use Rattle.vp_format.specs.Codes.{Spelled, spelled, alone, joined, code_of, symbols_behind};
ghost use Rattle.vp_format.specs.Cursors.{symbols_at, symbols_from, HasRoom, SmallSymbol, IsReading, IsSpot, IsWhole, Advanced, Reached, ReachedNext, Decoded, RowRead};
ghost use Rattle.vp_format.specs.declared.rows.Spot.{Spot};
ghost use Rattle.vp_format.specs.declared.rows.Coding.TheVariants.{RunLength, Binary};

use crate::codes::{Code, Symbol, code_of};
use crate::packing::{SHORT, fill, pack_filled};
use crate::reading::Codes;
use crate::rows::{Coding, Spot};
use vp_dots::Fault;

/// What is known of a row that was read.
#[derive(Clone, Copy)]
pub struct RowEnd {
    /// What is left of a run that reaches into the next row, and its digit.
    pub left: u128,
    pub digit: u8,
    /// The row is the one before once more.
    pub repeats: bool,
}

/// The end of a row that is shown by codes of its own.
fn ended(left: u128, digit: u8) -> RowEnd
    ensures { result ≡ record { left = left; digit = digit; repeats = false } }
{
    RowEnd {
        left,
        digit,
        repeats: false,
    }
}

/// The end of a row that is the one before once more.
fn repeated() -> RowEnd
    ensures { result ≡ record { left = 0; digit = 0; repeats = true } }
{
    RowEnd {
        left: 0,
        digit: 0,
        repeats: true,
    }
}

/// Where a run of `count` places from `x` on ends in a row of `places` places.
fn end_of_run(x: usize, count: u128, places: usize) -> usize
    requires { x ≤ places }
    ensures { result ≡ min (x + count) places }
{
    if count < (places - x) as u128 {
        x + count as usize
    } else {
        places
    }
}

/// A symbol that no count may stand before.
fn alone(count: u128, symbol: Symbol) -> Symbol
    ensures { result ≡ alone count symbol }
{
    if count == 0 { symbol } else { Symbol::Refused }
}

/// The symbol that begins with a byte.
pub fn symbol_of(codes: &mut Codes, first: u8) -> Symbol
    requires { IsReading codes.old }
    ensures advanced { Advanced codes.old codes.new }
    ensures symbol { joined (code_of first) 0 0 (symbols_behind (drop codes.old.at codes.old.bytes.now))
        ≡ spelled result (1 + (codes.new.at - codes.old.at)) ∷ symbols_from codes.new.bytes.now codes.new.at }
    ensures small { SmallSymbol result }
{
    let mut code = code_of(first);
    let mut count = 0;
    loop {
        match code {
            Code::Count(n) => count += n as u128,
            Code::Digit(v) => return Symbol::Digits(count.max(1), v),
            Code::Fill(v) => return alone(count, Symbol::ToEnd(v)),
            Code::Above => return alone(count, Symbol::Again),
            Code::Other => return Symbol::Refused,
        }
        let Some(b) = codes.next() else {
            return Symbol::Refused;
        };
        code = code_of(b);
    }
}

/// Reads digits and short runs from a place of a row of `width` places on, and brings the place behind them;
/// gives the symbol that comes next, if the row goes on and there is one.
fn next_symbol(codes: &mut Codes, x: &mut usize, width: usize, places: &mut [u8]) -> Option<Symbol>
    requires reading { IsReading codes.old }
    requires room { HasRoom width places.old x.old }
    ensures len { length places.new ≡ length places.old }
    ensures advanced { Advanced codes.old codes.new }
    ensures place { x.new ≤ width }
    ensures end { result ≡ None → x.new < width → codes.new.at ≡ length codes.new.bytes.now }
    ensures some { IfSome result (λ s. (x.new < width) × (codes.old.at < codes.new.at) × SmallSymbol s) }
    ensures reached { (all : List Spelled) (start : ℕ) →
        Reached width all start places.old x.old (symbols_from codes.old.bytes.now codes.old.at) codes.old.at
        → ReachedNext width all start places.new x.new codes.new result }
{
    *x = codes.short_runs(*x, width, places);
    if *x == width {
        return None;
    }
    let Some(first) = codes.next() else {
        return None;
    };
    Some(symbol_of(codes, first))
}

/// The rest of a row, from a place on, by the codes.
fn read_on(
    codes: &mut Codes,
    from: usize,
    places: &mut [u8],
    row: &mut [u8],
) -> Result<RowEnd, Fault>
    requires reading { IsReading codes.old }
    requires short { length row.old ≤ 1024 }
    requires room { 2 * length row.old + SHORT ≤ length places.old }
    requires from { from < 2 * length row.old }
    ensures len { length row.new ≡ length row.old }
    ensures places { length places.new ≡ length places.old }
    ensures advanced { Advanced codes.old codes.new }
    ensures read { (s : Spot) →
        Reached (2 * length row.old) (symbols_at RunLength codes.old.bytes.now s) s.at places.old from
        (symbols_from codes.old.bytes.now codes.old.at) codes.old.at
        → RowRead (2 * length row.old) RunLength codes.old.bytes.now s result codes.new.at row.old row.new }
{
    let width = 2 * row.len();
    let mut x = from;
    loop {
        let Some(symbol) = next_symbol(codes, &mut x, width, places) else {
            fill(x, width, 0, places);
            pack_filled(x, 0, places, row);
            return Ok(ended(0, 0));
        };
        match symbol {
            Symbol::Digits(n, v) => {
                let to = end_of_run(x, n, width);
                fill(x, to, v, places);
                if to == width {
                    pack_filled(x, v, places, row);
                    return Ok(ended(n - (to - x) as u128, v));
                }
                x = to;
            }
            Symbol::ToEnd(v) => {
                fill(x, width, v, places);
                pack_filled(x, v, places, row);
                return Ok(ended(0, 0));
            }
            Symbol::Again if x == 0 => return Ok(repeated()),
            Symbol::Again => return Err(Fault::Graphic),
            Symbol::Refused => return Err(Fault::Graphic),
        }
    }
}

/// Turns the row before into the one that starts here, behind what is left of a digit's run.
fn decode(
    codes: &mut Codes,
    left: u128,
    digit: u8,
    places: &mut [u8],
    row: &mut [u8],
) -> Result<RowEnd, Fault>
    requires reading { IsReading codes.old }
    requires short { length row.old ≤ 1024 }
    requires some { 0 < length row.old }
    requires room { 2 * length row.old + SHORT ≤ length places.old }
    requires digit { digit < 16 }
    ensures len { length row.new ≡ length row.old }
    ensures places { length places.new ≡ length places.old }
    ensures advanced { Advanced codes.old codes.new }
    ensures read { RowRead (2 * length row.old) RunLength codes.old.bytes.now
        (record { left = left; digit = digit; at = codes.old.at }) result codes.new.at row.old row.new }
{
    if left == 0 {
        if codes.plain_row(row) {
            return Ok(ended(0, 0));
        }
        return read_on(codes, 0, places, row);
    }
    let width = 2 * row.len();
    let to = end_of_run(0, left, width);
    fill(0, to, digit, places);
    if to == width {
        pack_filled(0, digit, places, row);
        return Ok(ended(left - to as u128, digit));
    }
    read_on(codes, to, places, row)
}

/// The row's bytes as they are in the codes, and white where these end.
fn copy(codes: &mut Codes, row: &mut [u8]) -> RowEnd
    requires reading { IsReading codes.old }
    ensures len { length row.new ≡ length row.old }
    ensures advanced { Advanced codes.old codes.new }
    ensures end { result ≡ record { left = 0; digit = 0; repeats = false } }
    ensures decoded { Decoded (2 * length row.old) Binary codes.old.bytes.now
        (record { left = 0; digit = 0; at = codes.old.at }) result
        (record { left = 0; digit = 0; at = codes.new.at }) row.old row.new }
{
    let part = codes.up_to(row.len());
    row.fill(0);
    row[..part.len()].copy_from_slice(part);
    ended(0, 0)
}

/// Turns the first bytes of a longer row, the row before, into the row that starts at a spot; of the places
/// any may be overwritten.
pub fn next_row(
    codes: &mut Codes,
    coding: Coding,
    spot: Spot,
    n: usize,
    places: &mut [u8],
    row: &mut [u8],
) -> Result<RowEnd, Fault>
    requires reading { IsReading codes.old }
    requires at { codes.old.at ≡ spot.at }
    requires short { n ≤ 1024 }
    requires some { 0 < n }
    requires room { n ≤ length row.old }
    requires places { 2 * n + SHORT ≤ length places.old }
    requires spot { IsSpot codes.old.bytes.now spot }
    requires whole { IsWhole coding spot }
    ensures len { length row.new ≡ length row.old }
    ensures places { length places.new ≡ length places.old }
    ensures advanced { Advanced codes.old codes.new }
    ensures read { RowRead (2 * n) coding codes.old.bytes.now spot result codes.new.at row.old row.new }
{
    let front = &mut row[..n];
    match coding {
        Coding::RunLength => decode(codes, spot.left, spot.digit, places, front),
        Coding::Binary => Ok(copy(codes, front)),
    }
}
