//! MSI.

ghost use Rattle.std.specs.Prelude.{◌≡◌, ◌+◌, ◌≤◌, true, reverse, length};
ghost use Rattle.vp_bars.specs.Msi.{msi_pattern as pattern_for, doubled as doubled_digit, doubled_sum as sum_of_doubled, with_mod10, with_mod11, msi_checked, msi_of};

use crate::bars::{Bars, check_length};
use crate::checks::weighed;
use crate::patterns::row;
use crate::signs::{DIGITS, values_of_signs};
use crate::symbology::Symbology;
use arrayvec::ArrayVec;
use vp_bar_code::MsiChecks;
use vp_dots::{Fault, Why};

/// The elements of the digits, 1 for a wide one.
static MSI: [[u8; 8]; 10] = [
    [0, 1, 0, 1, 0, 1, 0, 1],
    [0, 1, 0, 1, 0, 1, 1, 0],
    [0, 1, 0, 1, 1, 0, 0, 1],
    [0, 1, 0, 1, 1, 0, 1, 0],
    [0, 1, 1, 0, 0, 1, 0, 1],
    [0, 1, 1, 0, 0, 1, 1, 0],
    [0, 1, 1, 0, 1, 0, 0, 1],
    [0, 1, 1, 0, 1, 0, 1, 0],
    [1, 0, 0, 1, 0, 1, 0, 1],
    [1, 0, 0, 1, 0, 1, 1, 0],
];

/// The elements of a digit.
pub(crate) fn msi_pattern(v: u8) -> &'static [u8]
    ensures { result.now ≡ pattern_for v }
{
    row(&MSI, v)
}

/// The sum of the digits of twice a digit.
fn doubled(d: u8) -> u32
    ensures sum { result ≡ doubled_digit d }
    ensures small { result ≤ 501 }
{
    let d = u32::from(d);
    if d < 5 {
        return 2 * d;
    }
    2 * d - 9
}

/// The sum of digits of which the last one is doubled, the one before it isn't, and so on.
#[tactic(auto, using(crate::proofs::Sums::doubled_less))]
fn doubled_sum(digits: &[u8]) -> u32
    requires { length digits.now ≤ 258 }
    ensures { result ≡ sum_of_doubled true (reverse digits.now) }
{
    let mut sum = 0u32;
    let mut twice = true;
    for i in (0..digits.len()).rev() {
        sum += if twice {
            doubled(digits[i])
        } else {
            u32::from(digits[i])
        };
        twice = !twice;
    }
    sum
}

/// Appends the check digit modulo 10.
fn push_mod10(digits: &mut ArrayVec<u8, 258>)
    requires { length digits.old.items ≤ 257 }
    ensures items { digits.new.items ≡ with_mod10 digits.old.items }
    ensures len { length digits.new.items ≡ length digits.old.items + 1 }
{
    let check = (10 - doubled_sum(digits.as_slice()) % 10) % 10;
    digits.push(check as u8);
}

/// Appends the check digit modulo 11, or two digits for 10.
fn push_mod11(digits: &mut ArrayVec<u8, 258>)
    requires { length digits.old.items ≤ 256 }
    ensures items { digits.new.items ≡ with_mod11 digits.old.items }
    ensures len { length digits.new.items ≤ length digits.old.items + 2 }
{
    let check = (11 - weighed(digits.as_slice(), 2, 7) % 11) % 11;
    if check == 10 {
        digits.push(1);
        digits.push(0);
        return;
    }
    digits.push(check as u8);
}

/// Appends check digits.
fn push_checks(digits: &mut ArrayVec<u8, 258>, checks: MsiChecks)
    requires { length digits.old.items ≤ 255 }
    ensures { digits.new.items ≡ msi_checked checks digits.old.items }
{
    match checks {
        MsiChecks::None => {}
        MsiChecks::Mod10 => push_mod10(digits),
        MsiChecks::Mod10Twice => {
            push_mod10(digits);
            push_mod10(digits);
        }
        MsiChecks::Mod11Mod10 => {
            push_mod11(digits);
            push_mod10(digits);
        }
    }
}

/// The symbol of these digits with check digits.
///
/// Refused are, in this order: no bytes; more than 255 bytes (`SymbolTooLong`); a byte that isn't a digit.
pub fn msi_symbol(src: &[u8], checks: MsiChecks) -> Result<Bars, Fault>
    ensures { result ≡ msi_of src.now checks }
{
    check_length(src)?;
    let Some(mut values) = values_of_signs(DIGITS, src) else {
        return Err(Fault::Symbol(Why::Char));
    };
    push_checks(&mut values, checks);
    Ok(Bars::new(Symbology::Msi, values))
}
