//! A carrier's message as label printers are given it, in front of the bytes.

ghost use Rattle.std.specs.Prelude.{◌≡◌, ◌<◌, ◌≤◌, ◌+◌, drop, length, slice_index, true};
ghost use Rattle.vp_maxicode.specs.Characters.{is_digit};
ghost use Rattle.vp_maxicode.specs.Messages.{begins, digit, number};
ghost use Rattle.vp_maxicode.specs.Labels.{three, numeric_carrier, alphanumeric_carrier};

use crate::message::{begins_digits, digit, number};
use crate::mode::{Carrier, PostalCode};

/// The number of three digits from place `i` on.
fn three(src: &[u8], i: usize) -> u32
    requires { i ≤ 100 }
    ensures { result ≡ three src.now i }
{
    100 * digit(src, i) + 10 * digit(src, i + 1) + digit(src, i + 2)
}

/// The carrier's message in the first fifteen bytes: three digits of the class of service, three of the
/// country, and nine of the postal code. There is none where these aren't digits.
#[tactic(auto, unfolding(crate::specs::Labels::numeric_carrier))]
pub fn numeric_carrier(src: &[u8]) -> Option<Carrier>
    ensures { result ≡ numeric_carrier src.now }
{
    if !begins_digits(15, src) {
        return None;
    }
    Some(Carrier {
        postal: PostalCode::Numeric {
            number: number(&src[6..]),
            digits: 9,
        },
        country: three(src, 3),
        service: three(src, 0),
    })
}

/// The carrier's message in the first twelve bytes: three digits of the class of service, three of the
/// country, and six characters of the postal code. There is none where there are fewer, or no digits.
#[tactic(auto, unfolding(crate::specs::Labels::alphanumeric_carrier))]
pub fn alphanumeric_carrier(src: &[u8]) -> Option<Carrier>
    ensures { result ≡ alphanumeric_carrier src.now }
{
    if !begins_digits(6, src) || src.len() < 12 {
        return None;
    }
    Some(Carrier {
        postal: PostalCode::Alphanumeric([src[6], src[7], src[8], src[9], src[10], src[11]]),
        country: three(src, 3),
        service: three(src, 0),
    })
}
