//! Code 93.

ghost use Rattle.std.specs.Prelude.{◌≡◌, ◌+◌, ◌≤◌, ◌<◌, ◌++◌, length, true};
ghost use Rattle.vp_bars.specs.declared.bars.TheConstants.{DATA_BYTES};
ghost use Rattle.vp_bars.specs.Signs.{values_among};
ghost use Rattle.vp_bars.specs.Symbologies.{most_values};
ghost use Rattle.vp_bars.specs.Code93.{code93_signs, code93_pattern as pattern_for, with_c, with_k, ascii_signs, spelled as spelled_signs, is_ascii as all_ascii, code93_symbol, code93_of, without_checks as checks_cut, code93_shown, letters_behind as letters_for, shown_behind as sign_behind, text_behind, shift_behind as next_shift, ascii_shown};

use crate::bars::{Bars, DATA_BYTES, check_length};
use crate::checks::weighed;
use crate::patterns::row;
use crate::signs::{signs_of, values_of_signs};
use crate::symbology::Symbology;
use arrayvec::ArrayVec;
use vp_bar_code::Code93Data;
use vp_dots::{Fault, Why};

/// The characters in the order of their values, and behind them the signs of the four shifts.
const SIGNS: &[u8; 47] = b"0123456789ABCDEFGHIJKLMNOPQRSTUVWXYZ-. $/+%&'()";

/// The shift of each character of ASCII, or a blank where it has none.
const SHIFTS: &[u8; 128] = b"'&&&&&&&&&&&&&&&&&&&&&&&&&&''''' (((  ((((( (             ('''''\
    '                          ''''''))))))))))))))))))))))))))'''''";

/// The sign or the letter of each, which may stand behind its shift.
const LETTERS: &[u8; 128] = b"UABCDEFGHIJKLMNOPQRSTUVWXYZABCDE ABC$%FGHIJ+L-./0123456789ZFGHIJ\
    VABCDEFGHIJKLMNOPQRSTUVWXYZKLMNOWABCDEFGHIJKLMNOPQRSTUVWXYZPQRST";

/// The value of the first of the four shifts.
const FIRST_SHIFT: u8 = 43;

/// The widths of the elements of the characters, in modules.
static CODE93: [[u8; 6]; 47] = [
    [1, 3, 1, 1, 1, 2],
    [1, 1, 1, 2, 1, 3],
    [1, 1, 1, 3, 1, 2],
    [1, 1, 1, 4, 1, 1],
    [1, 2, 1, 1, 1, 3],
    [1, 2, 1, 2, 1, 2],
    [1, 2, 1, 3, 1, 1],
    [1, 1, 1, 1, 1, 4],
    [1, 3, 1, 2, 1, 1],
    [1, 4, 1, 1, 1, 1],
    [2, 1, 1, 1, 1, 3],
    [2, 1, 1, 2, 1, 2],
    [2, 1, 1, 3, 1, 1],
    [2, 2, 1, 1, 1, 2],
    [2, 2, 1, 2, 1, 1],
    [2, 3, 1, 1, 1, 1],
    [1, 1, 2, 1, 1, 3],
    [1, 1, 2, 2, 1, 2],
    [1, 1, 2, 3, 1, 1],
    [1, 2, 2, 1, 1, 2],
    [1, 3, 2, 1, 1, 1],
    [1, 1, 1, 1, 2, 3],
    [1, 1, 1, 2, 2, 2],
    [1, 1, 1, 3, 2, 1],
    [1, 2, 1, 1, 2, 2],
    [1, 3, 1, 1, 2, 1],
    [2, 1, 2, 1, 1, 2],
    [2, 1, 2, 2, 1, 1],
    [2, 1, 1, 1, 2, 2],
    [2, 1, 1, 2, 2, 1],
    [2, 2, 1, 1, 2, 1],
    [2, 2, 2, 1, 1, 1],
    [1, 1, 2, 1, 2, 2],
    [1, 1, 2, 2, 2, 1],
    [1, 2, 2, 1, 2, 1],
    [1, 2, 3, 1, 1, 1],
    [1, 2, 1, 1, 3, 1],
    [3, 1, 1, 1, 1, 2],
    [3, 1, 1, 2, 1, 1],
    [3, 2, 1, 1, 1, 1],
    [1, 1, 2, 1, 3, 1],
    [1, 1, 3, 1, 2, 1],
    [2, 1, 1, 1, 3, 1],
    [1, 2, 1, 2, 2, 1],
    [3, 1, 2, 1, 1, 1],
    [3, 1, 1, 1, 2, 1],
    [1, 2, 2, 2, 1, 1],
];

/// The elements of a character.
pub(crate) fn code93_pattern(v: u8) -> &'static [u8]
    ensures { result.now ≡ pattern_for v }
{
    row(&CODE93, v)
}

/// Appends the check character C.
fn push_c(values: &mut ArrayVec<u8, 258>)
    requires { length values.old.items ≤ 257 }
    ensures items { values.new.items ≡ with_c values.old.items }
    ensures len { length values.new.items ≡ length values.old.items + 1 }
{
    let c = weighed(values.as_slice(), 1, 20) % 47;
    values.push(c as u8);
}

/// Appends the check character K.
fn push_k(values: &mut ArrayVec<u8, 258>)
    requires { length values.old.items ≤ 257 }
    ensures items { values.new.items ≡ with_k values.old.items }
    ensures len { length values.new.items ≡ length values.old.items + 1 }
{
    let k = weighed(values.as_slice(), 1, 15) % 47;
    values.push(k as u8);
}

/// The symbol of the values of signs, if there are any.
fn symbol_of(symbology: Symbology, signs: &[u8]) -> Result<Bars, Fault>
    requires kind { most_values symbology ≡ 258 }
    requires few { length signs.now ≤ DATA_BYTES }
    ensures { result ≡ code93_symbol symbology (values_among code93_signs signs.now) }
{
    let Some(mut values) = values_of_signs(SIGNS, signs) else {
        return Err(Fault::Symbol(Why::Char));
    };
    push_c(&mut values);
    push_k(&mut values);
    Ok(Bars::new(symbology, values))
}

/// Whether all bytes are of ASCII.
fn is_ascii(src: &[u8]) -> bool
    ensures { result ≡ all_ascii src.now }
{
    src.iter().all(|c| *c < 128)
}

/// Appends the signs of a byte of ASCII.
fn push_signs(c: u8, signs: &mut ArrayVec<u8, 512>)
    requires ascii { c < 128 }
    requires room { length signs.old.items ≤ 510 }
    ensures items { signs.new.items ≡ signs.old.items ++ ascii_signs c }
    ensures len { length signs.new.items ≤ length signs.old.items + 2 }
{
    let shift = SHIFTS[c as usize];
    if shift != b' ' {
        signs.push(shift);
    }
    signs.push(LETTERS[c as usize]);
}

/// The signs of bytes of ASCII.
#[tactic(auto, using(crate::proofs::Shown::spelled_more, crate::proofs::Shown::ascii_at))]
fn spelled(src: &[u8]) -> ArrayVec<u8, 512>
    requires few { length src.now ≤ DATA_BYTES }
    requires ascii { all_ascii src.now ≡ true }
    ensures { result.items ≡ spelled_signs src.now }
{
    let mut signs = ArrayVec::new();
    for c in src {
        push_signs(*c, &mut signs);
    }
    signs
}

/// The symbol of these bytes: as signs of the 43 characters of Code 39, and `&`, `'`, `(` and `)`, which are
/// the four shifts; or as characters of ASCII, of which many are a shift and a letter.
///
/// Refused are, in this order: no bytes; more than 255 bytes (`SymbolTooLong`); a byte that is none of these;
/// ASCII of more than 255 characters of Code 93 (`SymbolTooLong`).
pub fn code93(src: &[u8], kind: Code93Data) -> Result<Bars, Fault>
    ensures { result ≡ code93_of src.now kind }
{
    check_length(src)?;
    match kind {
        Code93Data::Signs => symbol_of(Symbology::Code93, src),
        Code93Data::Ascii => {
            if !is_ascii(src) {
                return Err(Fault::Symbol(Why::Char));
            }
            let signs = spelled(src);
            if signs.len() > DATA_BYTES {
                return Err(Fault::SymbolTooLong);
            }
            symbol_of(Symbology::Code93Ascii, signs.as_slice())
        }
    }
}

/// The values of the data, without the check characters.
fn without_checks(values: &[u8]) -> &[u8]
    ensures data { result.now ≡ checks_cut values.now }
    ensures len { length result.now ≤ length values.now }
{
    &values[..values.len().saturating_sub(2)]
}

/// The signs of the data of values.
pub(crate) fn shown_signs(values: &[u8]) -> ArrayVec<u8, 512>
    requires { length values.now ≤ 258 }
    ensures { result.items ≡ code93_shown values.now }
{
    signs_of(SIGNS, without_checks(values))
}

/// What the letters are behind a shift: a blank for a control character.
fn letters_behind(shift: u8) -> &'static [u8]
    ensures { result.now ≡ letters_for shift }
{
    match shift {
        44 => b"     ;<=>?[\\]^_{|}~  @`   ",
        45 => b"!\"#$%&'()*+,-./0123456789:",
        46 => b"abcdefghijklmnopqrstuvwxyz",
        _ => &[],
    }
}

/// What a value shows behind a shift, or behind none, which is 0.
fn shown_behind(shift: u8, v: u8) -> u8
    requires { v < 47 }
    ensures { result ≡ sign_behind shift v }
{
    if shift == 0 {
        return SIGNS[v as usize];
    }
    match letters_behind(shift).get(v.saturating_sub(10) as usize) {
        Some(shown) => *shown,
        None => b' ',
    }
}

/// Appends what a value shows behind a shift, if it is none itself.
fn push_behind(shift: u8, v: u8, text: &mut ArrayVec<u8, 512>)
    requires { length text.old.items ≤ 511 }
    ensures items { text.new.items ≡ text.old.items ++ text_behind shift v }
    ensures len { length text.new.items ≤ length text.old.items + 1 }
{
    if v < FIRST_SHIFT {
        text.push(shown_behind(shift, v));
    }
}

/// The shift behind a value.
fn shift_behind(v: u8) -> u8
    ensures { result ≡ next_shift v }
{
    if v < FIRST_SHIFT { 0 } else { v }
}

/// The characters of ASCII of the data of values.
#[tactic(auto, using(crate::proofs::Shown::ascii_more))]
pub(crate) fn shown_ascii(values: &[u8]) -> ArrayVec<u8, 512>
    requires { length values.now ≤ 258 }
    ensures { result.items ≡ ascii_shown values.now }
{
    let mut text = ArrayVec::new();
    let mut shift = 0;
    for v in without_checks(values) {
        push_behind(shift, *v, &mut text);
        shift = shift_behind(*v);
    }
    text
}
