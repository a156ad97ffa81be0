//! The text of a symbol.

ghost use Rattle.std.specs.Prelude.{◌≡◌, ◌+◌, ◌-◌, ◌≤◌, ◌++◌, length};
ghost use Rattle.vp_bars.specs.declared.bars.TheConstants.{DATA_BYTES};
ghost use Rattle.vp_bars.specs.Texts.{character_of, characters as characters_of, text_in_set, set_behind as set_after, next_set as set_of_next, set_of_start as started_set, data_of as data_between, shown_from, shown_by};

use crate::code_39::ALPHABET;
use crate::code_128::CodeSet;
use arrayvec::ArrayVec;

/// Appends the character of a value, if it has one.
fn push_character(v: u8, text: &mut ArrayVec<u8, 512>)
    requires { length text.old.items ≤ 511 }
    ensures items { text.new.items ≡ text.old.items ++ character_of v }
    ensures len { length text.new.items ≤ length text.old.items + 1 }
{
    if v < 43 {
        text.push(ALPHABET[v as usize]);
    }
}

/// The characters of values of Code 39, and of digits.
#[tactic(auto, using(crate::proofs::Shown::characters_more))]
pub(crate) fn characters(values: &[u8]) -> ArrayVec<u8, 512>
    requires { length values.now ≤ 258 }
    ensures { result.items ≡ characters_of values.now }
{
    let mut text = ArrayVec::new();
    for v in values {
        push_character(*v, &mut text);
    }
    text
}

/// Appends what a value shows in a code set.
fn push_shown(set: CodeSet, v: u8, text: &mut ArrayVec<u8, 512>)
    requires { length text.old.items ≤ 510 }
    ensures items { text.new.items ≡ text.old.items ++ text_in_set set v }
    ensures len { length text.new.items ≤ length text.old.items + 2 }
{
    match set {
        CodeSet::A if v < 64 => text.push(v + 32),
        CodeSet::A if v < 96 => text.push(v - 64),
        CodeSet::B if v < 96 => text.push(v + 32),
        CodeSet::C if v < 100 => {
            text.push(v / 10 + b'0');
            text.push(v % 10 + b'0');
        }
        _ => {}
    }
}

/// The set in force behind a value.
fn set_behind(set: CodeSet, v: u8) -> CodeSet
    ensures { result ≡ set_after set v }
{
    match (set, v) {
        (CodeSet::A, 99) => CodeSet::C,
        (CodeSet::A, 100) => CodeSet::B,
        (CodeSet::A, _) => CodeSet::A,
        (CodeSet::B, 99) => CodeSet::C,
        (CodeSet::B, 101) => CodeSet::A,
        (CodeSet::B, _) => CodeSet::B,
        (CodeSet::C, 100) => CodeSet::B,
        (CodeSet::C, 101) => CodeSet::A,
        (CodeSet::C, _) => CodeSet::C,
    }
}

/// The set of the value behind a value, which a shift lends.
fn next_set(set: CodeSet, v: u8) -> CodeSet
    ensures { result ≡ set_of_next set v }
{
    match (set, v) {
        (CodeSet::A, 98) => CodeSet::B,
        (CodeSet::B, 98) => CodeSet::A,
        (_, _) => set_behind(set, v),
    }
}

/// The set that a start character starts.
fn set_of_start(v: u8) -> CodeSet
    ensures { result ≡ started_set v }
{
    match v {
        103 => CodeSet::A,
        104 => CodeSet::B,
        _ => CodeSet::C,
    }
}

/// The values between start and check.
fn data_of(values: &[u8]) -> &[u8]
    ensures data { result.now ≡ data_between values.now }
    ensures len { length result.now ≤ length values.now - 3 }
{
    if values.len() < 3 {
        return &[];
    }
    &values[1..values.len() - 2]
}

/// What values show, where a code set is in force.
#[tactic(auto, using(crate::proofs::Shown::shown_more))]
fn shown_in(start: CodeSet, values: &[u8]) -> ArrayVec<u8, 512>
    requires { length values.now ≤ DATA_BYTES }
    ensures { result.items ≡ shown_from start start values.now }
{
    let mut text = ArrayVec::new();
    let mut set = start;
    let mut now = start;
    for v in values {
        push_shown(now, *v, &mut text);
        now = next_set(set, *v);
        set = set_behind(set, *v);
    }
    text
}

/// What the data of a symbol of Code 128 show.
pub(crate) fn shown_data(values: &[u8]) -> ArrayVec<u8, 512>
    requires { length values.now ≤ 258 }
    ensures { result.items ≡ shown_by values.now }
{
    let start = match values.first() {
        Some(start) => set_of_start(*start),
        None => CodeSet::C,
    };
    shown_in(start, data_of(values))
}
