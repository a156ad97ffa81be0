//! Bytes one by one.

ghost use Rattle.std.specs.Prelude.{◌≡◌, ◌++◌, ◌∷◌, [], ℕ, List, ◌+◌, ◌≤◌, length};
ghost use Rattle.vp_code_tables.specs.declared.unit.Decoded.{Decoded};
ghost use Rattle.vp_code_tables.specs.Begun.{Steps, IsBegun, begun_bytes, given_units};
ghost use Rattle.vp_code_tables.specs.Units.{total, units};

use crate::begun::{Begun, Step};
use crate::encoding::{Encoding, byte_character};
use crate::unit::{Decoded, Given};
use crate::{utf8, utf16};

/// Takes the bytes of a text one by one, and gives its characters.
#[derive(Clone, Copy, Debug)]
pub struct Decoder {
    encoding: Encoding,
    begun: Begun,
    ghost is_begun: { IsBegun encoding begun },
}

/// A byte behind what is begun.
fn next(encoding: Encoding, begun: Begun, byte: u8) -> Step
    requires { IsBegun encoding begun }
    ensures { Steps encoding begun byte result.begun result.given }
{
    match encoding {
        Encoding::Bytes(table, set) => Step::ended(Decoded {
            character: byte_character(table, set, byte),
            len: 1,
        }),
        Encoding::Utf8 => utf8::next(begun, byte),
        Encoding::Utf16(order) => utf16::next(order, begun, byte),
    }
}

/// What is begun at the end of a text, which is no character: one ill-formed part, but in UTF-16 a code unit
/// and a byte behind it are two.
fn left(encoding: Encoding, begun: Begun) -> Given
    requires { IsBegun encoding begun }
    ensures { given_units result ≡ units encoding (begun_bytes begun) }
{
    let (cut, unit) = match begun {
        Begun::Nothing => (None, None),
        Begun::One(_) => (None, Some(Decoded::wrong(1))),
        Begun::Two(_, _) => (None, Some(Decoded::wrong(2))),
        Begun::Three(_, _, _) => match encoding {
            Encoding::Utf16(_) => (Some(Decoded::wrong(2)), Some(Decoded::wrong(1))),
            _ => (None, Some(Decoded::wrong(3))),
        },
    };
    Given { cut, unit }
}

impl Decoder {
    ghost use Rattle.vp_code_tables.specs.Standing.{Stands};

    /// Before the first byte of a text.
    pub fn new(encoding: Encoding) -> Decoder
        ensures encoding { result.encoding ≡ encoding }
        ensures stands { Stands result [] [] }
    {
        Decoder {
            encoding,
            begun: Begun::Nothing,
        }
    }

    /// Takes the next byte. At most three bytes are not given yet.
    #[tactic(auto, using(crate::proofs::Decoding::takes, crate::proofs::Decoding::soon))]
    pub fn take(&mut self, byte: u8) -> Given
        ensures encoding { self.new.encoding ≡ self.old.encoding }
        ensures stands { (bytes : List ℕ) (given : List Decoded) → Stands self.old bytes given →
            Stands self.new (bytes ++ byte ∷ []) (given ++ given_units result) }
        ensures soon { (bytes : List ℕ) (given : List Decoded) → Stands self.new bytes given →
            length bytes ≤ total given + 3 }
    {
        let step = next(self.encoding, self.begun, byte);
        self.begun = step.begun;
        step.given
    }

    /// The text ends: gives what was left incomplete, which is no character, and begins a new text.
    pub fn finish(&mut self) -> Given
        ensures encoding { self.new.encoding ≡ self.old.encoding }
        ensures all { (bytes : List ℕ) (given : List Decoded) → Stands self.old bytes given →
            units self.old.encoding bytes ≡ given ++ given_units result }
        ensures stands { Stands self.new [] [] }
    {
        let given = left(self.encoding, self.begun);
        self.begun = Begun::Nothing;
        given
    }
}
