//! The symbol of bytes.

ghost use Rattle.std.specs.Prelude.{◌≡◌, ◌+◌, ◌<◌, ◌≤◌, ◌++◌, length, take, true, OnOk, IfOk, IfErr, IfSome, Some, None, IfNone, ◌∷◌, slice_index};
ghost use Rattle.vp_reed_solomon.specs.declared.field.Field.TheVariants.{Gf64};
ghost use Rattle.vp_reed_solomon.specs.Fields.{AreElements};
ghost use Rattle.vp_maxicode.specs.Primaries.{room, is_carrier, is_mode, is_part};
ghost use Rattle.vp_maxicode.specs.Codewords.{primary, block};
ghost use Rattle.vp_maxicode.specs.Modules.{codeword, bit, is_mark, dark};
ghost use Rattle.vp_maxicode.specs.Encoding.{message, carrier_refusal, mode_refusal, part_refusal, refusal, symbol_in, symbol_of};

use crate::codewords::{Block, checked, every_second, padded};
use crate::message::push_text;
use crate::mode::{Carrier, Mode, Part, push_part};
use crate::place::{MARKS, number_at};
use crate::words::Words;
use std::marker::Model;

/// Why bytes have no symbol.
#[derive(Clone, Copy, Debug, PartialEq, Eq)]
pub enum Refusal {
    /// There are none.
    Empty,
    /// The class of service isn't one of three digits.
    Service,
    /// The country isn't one of three digits.
    Country,
    /// The postal code isn't one.
    Postal,
    /// There is no such part of joined symbols.
    Position,
    /// They are more than a symbol of the mode has room for.
    TooLong,
}

/// A MaxiCode symbol.
#[derive(Drop)]
pub struct MaxiCode {
    primary: Block,
    even: Block,
    odd: Block,
}

impl Model for MaxiCode {
    ghost use Rattle.vp_maxicode.specs.Modules.{MaxiCodeSymbol};

    ghost Value = { MaxiCodeSymbol };

    ghost view = { λ s. record { primary = s.primary.items; even = s.even.items; odd = s.odd.items } };
}

/// Number `k` of a block's codewords, 0 where there is none.
fn at(block: &[u16], k: usize) -> u16
    ensures { result ≡ slice_index block.now k }
{
    if k < block.len() { block[k] } else { 0 }
}

/// Whether a place is a dark one of a mark.
fn is_mark(row: usize, column: usize) -> bool
    requires row { row < 33 }
    requires column { column < 30 }
    ensures { result ≡ is_mark row column }
{
    MARKS
        .iter()
        .any(|place| usize::from(*place) == 30 * row + column)
}

impl MaxiCode {
    /// Codeword `k` of 144.
    #[tactic(auto, unfolding(crate::specs::Modules::codeword))]
    fn codeword(&self, k: usize) -> u16
        ensures { result ≡ codeword self.now k }
    {
        if k < 20 {
            return at(self.primary.as_slice(), k);
        }
        if k % 2 == 0 {
            at(self.even.as_slice(), (k - 20) / 2)
        } else {
            at(self.odd.as_slice(), (k - 20) / 2)
        }
    }

    /// Bit `n` of the codewords.
    #[tactic(auto, unfolding(crate::specs::Modules::bit))]
    fn bit(&self, n: usize) -> bool
        ensures { result ≡ bit self.now n }
    {
        self.codeword(n / 6) >> (5 - n % 6) & 1 == 1
    }

    /// Whether the module in a row and column from 0 is dark: none is outside of 33 rows of 30 and 29
    /// modules in turn, or in the finder.
    #[tactic(auto, unfolding(crate::specs::Modules::dark))]
    pub fn is_dark(&self, row: usize, column: usize) -> bool
        ensures { result ≡ dark self.now row column }
    {
        if row >= 33 || column >= 30 - row % 2 {
            return false;
        }
        if is_mark(row, column) {
            return true;
        }
        match number_at(row, column) {
            Some(n) => self.bit(n),
            None => false,
        }
    }
}

/// Why a carrier's message isn't one.
fn carrier_refusal(carrier: Carrier) -> Option<Refusal>
    ensures refusal { result ≡ carrier_refusal carrier }
    ensures sound { IfNone result (is_carrier carrier ≡ true) }
{
    if carrier.service > 999 {
        Some(Refusal::Service)
    } else if carrier.country > 999 {
        Some(Refusal::Country)
    } else if !carrier.postal.is_sound() {
        Some(Refusal::Postal)
    } else {
        None
    }
}

/// Why a mode has no symbol of bytes.
fn mode_refusal(mode: Mode, src: &[u8]) -> Option<Refusal>
    ensures refusal { result ≡ mode_refusal mode src.now }
    ensures sound { IfNone result (is_mode mode ≡ true) }
{
    match mode {
        Mode::Structured(carrier) => carrier_refusal(carrier),
        Mode::Standard | Mode::Enhanced | Mode::Program => {
            if src.is_empty() {
                Some(Refusal::Empty)
            } else {
                None
            }
        }
    }
}

/// Why there is no such part.
fn part_refusal(part: Option<Part>) -> Option<Refusal>
    ensures refusal { result ≡ part_refusal part }
    ensures sound { IfNone result (IfSome part (λ part. is_part part ≡ true)) }
{
    match part {
        Some(part) if !part.is_sound() => Some(Refusal::Position),
        _ => None,
    }
}

/// The mode's number and the first nine codewords.
fn primary_of(mode: u16, words: &[u16]) -> Block
    requires mode { mode < 64 }
    requires long { 9 ≤ length words.now }
    requires elements { AreElements Gf64 words.now }
    ensures words { result.items ≡ mode ∷ take 9 words.now }
    ensures elements { AreElements Gf64 result.items }
{
    let mut block = Block::new();
    block.push(mode);
    let _ = block.try_extend_from_slice(&words[..9]);
    block
}

/// The data of the primary message.
fn primary(mode: Mode, words: &[u16]) -> Block
    requires sound { is_mode mode ≡ true }
    requires long { length words.now ≡ room mode }
    requires elements { AreElements Gf64 words.now }
    ensures words { result.items ≡ primary mode words.now }
    ensures count { length result.items ≡ 10 }
    ensures elements { AreElements Gf64 result.items }
{
    match mode {
        Mode::Structured(carrier) => {
            let mut block = Block::new();
            let _ = block.try_extend_from_slice(&carrier.words());
            block
        }
        Mode::Standard => primary_of(4, words),
        Mode::Enhanced => primary_of(5, words),
        Mode::Program => primary_of(6, words),
    }
}

/// A block of the secondary message: each second codeword, and their check.
fn block(mode: Mode, k: usize, words: &[u16]) -> Block
    requires k { k ≤ 1 }
    requires long { length words.now ≡ room mode }
    requires elements { AreElements Gf64 words.now }
    ensures { result.items ≡ block mode k words.now }
{
    let n = mode.data();
    let half = every_second(n, mode.first() + k, words);
    checked(62 - n, half.as_slice())
}

/// The symbol of data codewords.
#[tactic(auto, unfolding(crate::specs::Encoding::symbol_in))]
fn symbol_in(mode: Mode, words: &[u16]) -> MaxiCode
    requires sound { is_mode mode ≡ true }
    requires long { length words.now ≡ room mode }
    requires elements { AreElements Gf64 words.now }
    ensures { result ≡ symbol_in mode words.now }
{
    let data = primary(mode, words);
    MaxiCode {
        primary: checked(10, data.as_slice()),
        even: block(mode, 0, words),
        odd: block(mode, 1, words),
    }
}

/// The symbol of bytes (ISO/IEC 16023) in a mode, and as one of several that are joined, if it is. With a
/// carrier's message the bytes are the secondary message, and there may be none.
///
/// Bytes without a symbol are refused: none at all, or a carrier's class of service, country or postal code
/// that isn't one, a part that isn't one, or more bytes than there is room for, in this order.
#[tactic(auto, unfolding(crate::specs::Encoding::message))]
pub fn encode(src: &[u8], mode: Mode, part: Option<Part>) -> Result<MaxiCode, Refusal>
    ensures accepted { OnOk result (refusal mode part src.now ≡ None) }
    ensures refused { IfErr result (λ why. refusal mode part src.now ≡ Some why) }
    ensures symbol { IfOk result (λ symbol. symbol ≡ symbol_of mode part src.now) }
{
    if let Some(why) = mode_refusal(mode, src) {
        return Err(why);
    }
    if let Some(why) = part_refusal(part) {
        return Err(why);
    }
    let mut words = Words::new();
    push_part(&mut words, part);
    let set = push_text(&mut words, src);
    let Some(all) = words.all() else {
        return Err(Refusal::TooLong);
    };
    let room = mode.room();
    if all.len() > room {
        return Err(Refusal::TooLong);
    }
    Ok(symbol_in(mode, padded(room, set, all).as_slice()))
}
