//! The units of a receipt, byte by byte.
ghost use Rattle.std.specs.Prelude.{◌≡◌, ◌++◌, ◌∷◌, [], ℕ, List, suc, None, length, option_to_list};
ghost use Rattle.vp_streams.specs.Count.{counted};
ghost use Rattle.vp_requests.specs.Units.{unit_request, ask_of as ask_is};
ghost use Rattle.vp_requests.specs.Standing.{UnitsStand, waiting_unit, ended_unit};

use crate::kept::keep;
use crate::request::{Ask, Request};
use crate::unit::{ask_of, name_len};
use arrayvec::ArrayVec;
use vp_esc::laws::the_profile_is_within;
use vp_esc::{EscReader, Reading};

/// How many bytes of a unit are kept: one more than one that asks can have.
const KEPT: usize = 22;

/// The unit that is begun, as far as its bytes are kept, or one that is whole, asks and is still to be told.
#[derive(Drop)]
pub struct Units {
    reader: EscReader,
    bytes: ArrayVec<u8, KEPT>,
    start: u64,
    ask: Option<Ask>,
}

impl Units {
    /// No bytes yet.
    pub fn new() -> Self
        ensures stands { UnitsStand result [] }
        ensures nothing { result.ask ≡ None }
    {
        Units {
            reader: EscReader::new(Reading::Whole),
            bytes: ArrayVec::new(),
            start: 0,
            ask: None,
        }
    }

    /// The unit is whole, with the byte behind `taken`.
    fn end(&mut self, taken: u64)
        ensures { self.new ≡ ended_unit self.old taken }
    {
        self.ask = ask_of(self.bytes.as_slice());
        if self.ask.is_none() {
            self.bytes.clear();
            self.start = taken.saturating_add(1);
        }
    }

    /// Takes the next byte, behind `taken`, where all that was known is told.
    pub fn take(&mut self, byte: u8, taken: u64)
        requires { self.old.ask ≡ None }
        ensures { (before : List ℕ) → UnitsStand self.old before → taken ≡ counted (length before) →
            UnitsStand self.new (before ++ byte ∷ [])
            × (waiting_unit self.new (counted (suc (length before))) ≡ unit_request before byte) }
    {
        the_profile_is_within();
        keep(&mut self.bytes, byte);
        let _item = self.reader.take(byte);
        if self.reader.at_rest() {
            self.end(taken);
        }
    }

    /// What the unit asks that the last byte made whole, where it isn't told yet; it ends behind so many
    /// bytes.
    pub fn tell(&mut self, end: u64) -> Option<Request>
        ensures told { option_to_list result ≡ waiting_unit self.old end }
        ensures all { self.new.ask ≡ None }
        ensures stands { (bytes : List ℕ) → UnitsStand self.old bytes → end ≡ counted (length bytes) →
            UnitsStand self.new bytes }
    {
        let ask = self.ask?;
        let request = Request::of(ask, name_len(ask), self.bytes.as_slice(), self.start, end);
        self.bytes.clear();
        self.start = end;
        self.ask = None;
        Some(request)
    }
}
