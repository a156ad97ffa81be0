//! The bytes of a sequence that is begun.

ghost use Rattle.std.specs.Prelude.{◌≡◌, None};

use crate::unit::{Decoded, Given};

/// The bytes that were taken and are no unit yet.
#[derive(Clone, Copy, Debug, PartialEq, Eq)]
pub enum Begun {
    Nothing,
    One(u8),
    Two(u8, u8),
    Three(u8, u8, u8),
}

/// What is begun behind a byte, and what the byte gave.
#[derive(Clone, Copy, Debug, PartialEq, Eq)]
pub struct Step {
    pub begun: Begun,
    pub given: Given,
}

impl Step {
    /// The byte goes on with what is begun.
    pub fn on(begun: Begun) -> Step
        ensures { result ≡ record { begun = begun; given = record { cut = None; unit = None } } }
    {
        Step {
            begun,
            given: Given {
                cut: None,
                unit: None,
            },
        }
    }

    /// The byte ends this.
    pub fn ended(unit: Decoded) -> Step
        ensures { result ≡ record { begun = Begun.Nothing; given = record { cut = None; unit = Some unit } } }
    {
        Step {
            begun: Begun::Nothing,
            given: Given {
                cut: None,
                unit: Some(unit),
            },
        }
    }

    /// So many bytes before were no character.
    pub fn behind(self, len: u8) -> Step
        ensures { result ≡ record {
          begun = self.begun;
          given = record { cut = Some (record { character = None; len = len }); unit = self.given.unit };
        } }
    {
        Step {
            begun: self.begun,
            given: Given {
                cut: Some(Decoded::wrong(len)),
                unit: self.given.unit,
            },
        }
    }
}
