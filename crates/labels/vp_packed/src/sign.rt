//! Base64's signs (RFC 4648, 4), and where a group of four of them stands.

ghost use Rattle.std.specs.Prelude.{◌≡◌, ℕ, ◌<◌, ◌++◌, ◌∷◌, List, IfSome};
ghost use Rattle.vp_packed.specs.Base64.{value_of, and_value};

/// A sign's six bits.
#[tactic(auto, unfolding(crate::specs::Base64::value_of))]
pub fn value(sign: u8) -> Option<u8>
    ensures value { result ≡ value_of sign }
    ensures small { IfSome result (λ v. v < 64) }
{
    match sign {
        b'A'..=b'Z' => Some(sign - b'A'),
        b'a'..=b'z' => Some(sign - b'a' + 26),
        b'0'..=b'9' => Some(sign - b'0' + 52),
        b'+' => Some(62),
        b'/' => Some(63),
        _ => None,
    }
}

/// Which sign of a group comes next.
#[derive(Clone, Copy, Debug)]
pub enum Place {
    First,
    Second,
    Third,
    Fourth,
}

/// Where a group of four signs stands: which comes next, and the six bits of the one before it.
#[derive(Clone, Copy)]
pub struct Group {
    place: Place,
    last: u8,
    ghost last_within: { last < 64 },
}

impl Group {
    ghost use Rattle.vp_packed.specs.Kept.{at, behind, listed};

    /// At a first sign.
    pub fn new() -> Self
        ensures { at result ≡ (Place.First, 0) }
    {
        Group {
            place: Place::First,
            last: 0,
        }
    }

    /// Takes a sign's six bits: the byte that ends with some of them, if one does.
    #[tactic(auto, unfolding(crate::specs::Base64::bytes_from))]
    fn take(&mut self, value: u8) -> Option<u8>
        requires { value < 64 }
        ensures { (rest : List ℕ) →
            behind self.old (value ∷ rest) ≡ listed result ++ behind self.new rest }
    {
        let last = self.last;
        self.last = value;
        match self.place {
            Place::First => {
                self.place = Place::Second;
                None
            }
            Place::Second => {
                self.place = Place::Third;
                Some(4 * last + value / 16)
            }
            Place::Third => {
                self.place = Place::Fourth;
                Some(last % 16 * 16 + value / 4)
            }
            Place::Fourth => {
                self.place = Place::First;
                Some(last % 4 * 64 + value)
            }
        }
    }

    /// Takes a sign, which may have no bits: the byte that ends with it, if one does.
    pub fn read(&mut self, sign: u8) -> Option<u8>
        ensures { (rest : List ℕ) →
            behind self.old (and_value (value_of sign) rest) ≡ listed result ++ behind self.new rest }
    {
        let value = value(sign)?;
        self.take(value)
    }
}
