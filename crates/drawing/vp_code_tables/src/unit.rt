//! What is decoded.

ghost use Rattle.std.specs.Prelude.{◌≡◌, None, Some};
ghost use Rattle.vp_code_tables.specs.declared.unit.Decoded.{Decoded};

/// A character, or bytes that are none.
#[derive(Clone, Copy, Debug, PartialEq, Eq)]
pub struct Decoded {
    /// The code point; none for a byte that the table lacks, or bytes that are ill-formed.
    pub character: Option<u32>,
    /// How many bytes it was written in, 1 to 4.
    pub len: u8,
}

/// What a byte gives: nothing yet, or what stands before it or ends with it.
#[derive(Clone, Copy, Debug, PartialEq, Eq)]
pub struct Given {
    /// Bytes before this one, which now turn out to be no character.
    pub cut: Option<Decoded>,
    /// What ends with this byte.
    pub unit: Option<Decoded>,
}

impl Decoded {
    /// A character, written in so many bytes.
    pub fn character(code: u32, len: u8) -> Decoded
        ensures { result ≡ record { character = Some code; len = len } }
    {
        Decoded {
            character: Some(code),
            len,
        }
    }

    /// So many bytes that are no character.
    pub fn wrong(len: u8) -> Decoded
        ensures { result ≡ record { character = None; len = len } }
    {
        Decoded {
            character: None,
            len,
        }
    }
}
