//! The national sets: which characters stand in for some of ASCII's.

ghost use Rattle.std.specs.Prelude.{◌≡◌, ◌<◌, IfSome};
ghost use Rattle.vp_code_tables.specs.Sets.{place_of, in_set};

use crate::country::Country;
use crate::label_set::LabelSet;

/// The Euro sign.
const EURO: u32 = 0x20ac;

/// The byte of a label's set that is the Euro sign.
const EURO_BYTE: u8 = 0x15;

/// A national set.
#[derive(Clone, Copy, Debug, PartialEq, Eq)]
pub enum NationalSet {
    /// A receipt's.
    Country(Country),
    /// A label's, which has the Euro sign at 15 too.
    Label(LabelSet),
}

/// Which of the twelve bytes this is that sets change.
#[tactic(auto, unfolding(crate::specs::Sets::place_of))]
fn place_of(byte: u8) -> Option<usize>
    ensures value { result ≡ place_of byte }
    ensures few { IfSome result (λ place. place < 12) }
{
    match byte {
        0x23 => Some(0),
        0x24 => Some(1),
        0x40 => Some(2),
        0x5b => Some(3),
        0x5c => Some(4),
        0x5d => Some(5),
        0x5e => Some(6),
        0x60 => Some(7),
        0x7b => Some(8),
        0x7c => Some(9),
        0x7d => Some(10),
        0x7e => Some(11),
        _ => None,
    }
}

impl NationalSet {
    /// The character of a byte below 80.
    #[tactic(auto, unfolding(crate::specs::Sets::in_set))]
    pub fn character(self, byte: u8) -> u32
        ensures { result ≡ in_set self byte }
    {
        match (self, place_of(byte)) {
            (NationalSet::Country(country), Some(place)) => u32::from(country.code(place)),
            (NationalSet::Label(label), Some(place)) => u32::from(label.code(place)),
            (NationalSet::Label(_), None) if byte == EURO_BYTE => EURO,
            _ => u32::from(byte),
        }
    }
}
