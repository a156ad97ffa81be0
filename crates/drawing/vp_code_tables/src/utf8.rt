//! UTF-8, a byte more behind the beginning of a sequence (The Unicode Standard 15, 3.9, tables 3-6 and 3-7).

ghost use Rattle.std.specs.Prelude.{◌≡◌, ◌%◌, None};
ghost use Rattle.vp_code_tables.specs.Utf8.{sequence_len, second_fits, later_fits};
ghost use Rattle.vp_code_tables.specs.Begun.{IsBegun, Steps};
ghost use Rattle.vp_code_tables.specs.declared.encoding.Encoding.TheVariants as encodings;

use crate::begun::{Begun, Step};
use crate::unit::Decoded;

/// How many bytes a sequence has that begins with this byte, 0 where none does.
#[tactic(auto, unfolding(crate::specs::Utf8::sequence_len))]
fn sequence_len(first: u8) -> u8
    ensures { result ≡ sequence_len first }
{
    match first {
        0x00..=0x7f => 1,
        0xc2..=0xdf => 2,
        0xe0..=0xef => 3,
        0xf0..=0xf4 => 4,
        _ => 0,
    }
}

/// Whether a byte may be the second behind a first.
#[tactic(auto, unfolding(crate::specs::Utf8::second_fits))]
fn second_fits(first: u8, byte: u8) -> bool
    ensures { result ≡ second_fits first byte }
{
    match first {
        0xe0 => matches!(byte, 0xa0..=0xbf),
        0xed => matches!(byte, 0x80..=0x9f),
        0xf0 => matches!(byte, 0x90..=0xbf),
        0xf4 => matches!(byte, 0x80..=0x8f),
        _ => matches!(byte, 0x80..=0xbf),
    }
}

/// Whether a byte may be the third or the fourth.
#[tactic(auto, unfolding(crate::specs::Utf8::later_fits))]
fn later_fits(byte: u8) -> bool
    ensures { result ≡ later_fits byte }
{
    matches!(byte, 0x80..=0xbf)
}

/// The six bits that a byte behind the first has.
fn bits(byte: u8) -> u32
    ensures { result ≡ byte % 64 }
{
    u32::from(byte % 64)
}

/// A byte with nothing begun.
fn first(byte: u8) -> Step
    ensures alone { result.given.cut ≡ None }
    ensures steps { Steps encodings.Utf8 Begun.Nothing byte result.begun result.given }
{
    match sequence_len(byte) {
        0 => Step::ended(Decoded::wrong(1)),
        1 => Step::ended(Decoded::character(u32::from(byte), 1)),
        _ => Step::on(Begun::One(byte)),
    }
}

/// A byte behind the first.
fn second(a: u8, byte: u8) -> Step
    requires { IsBegun encodings.Utf8 (Begun.One a) }
    ensures { Steps encodings.Utf8 (Begun.One a) byte result.begun result.given }
{
    if !second_fits(a, byte) {
        return first(byte).behind(1);
    }
    if sequence_len(a) != 2 {
        return Step::on(Begun::Two(a, byte));
    }
    let code = u32::from(a % 32) * 64 + bits(byte);
    Step::ended(Decoded::character(code, 2))
}

/// A byte behind two.
fn third(a: u8, b: u8, byte: u8) -> Step
    requires { IsBegun encodings.Utf8 (Begun.Two a b) }
    ensures { Steps encodings.Utf8 (Begun.Two a b) byte result.begun result.given }
{
    if !later_fits(byte) {
        return first(byte).behind(2);
    }
    if sequence_len(a) != 3 {
        return Step::on(Begun::Three(a, b, byte));
    }
    let code = (u32::from(a % 16) * 64 + bits(b)) * 64 + bits(byte);
    Step::ended(Decoded::character(code, 3))
}

/// A byte behind three.
fn fourth(a: u8, b: u8, c: u8, byte: u8) -> Step
    requires { IsBegun encodings.Utf8 (Begun.Three a b c) }
    ensures { Steps encodings.Utf8 (Begun.Three a b c) byte result.begun result.given }
{
    if !later_fits(byte) {
        return first(byte).behind(3);
    }
    let code = ((u32::from(a % 8) * 64 + bits(b)) * 64 + bits(c)) * 64 + bits(byte);
    Step::ended(Decoded::character(code, 4))
}

/// A byte behind what is begun.
pub fn next(begun: Begun, byte: u8) -> Step
    requires { IsBegun encodings.Utf8 begun }
    ensures { Steps encodings.Utf8 begun byte result.begun result.given }
{
    match begun {
        Begun::Nothing => first(byte),
        Begun::One(a) => second(a, byte),
        Begun::Two(a, b) => third(a, b, byte),
        Begun::Three(a, b, c) => fourth(a, b, c, byte),
    }
}
