//! Real-time requests, byte by byte.
ghost use Rattle.std.specs.Prelude.{◌≡◌, ◌++◌, ◌∷◌, [], ℕ, List, suc, false, length, option_to_list};
ghost use Rattle.vp_streams.specs.Count.{counted};
ghost use Rattle.vp_requests.specs.RealTime.{real_time_request};
ghost use Rattle.vp_requests.specs.Standing.{ArrivalsStand, waiting_arrival, begun_anew};

use crate::kept::keep;
use crate::real_time::{DLE, Part, ask_of, part_of};
use crate::request::Request;
use arrayvec::ArrayVec;

/// How many bytes the longest request has.
const LONGEST: usize = 10;

/// The request that is begun, or has become whole and is still to be told.
#[derive(Drop)]
pub struct Arrivals {
    bytes: ArrayVec<u8, LONGEST>,
    start: u64,
    is_whole: bool,
}

impl Arrivals {
    /// No bytes yet.
    pub fn new() -> Self
        ensures stands { ArrivalsStand result [] }
        ensures nothing { result.is_whole ≡ false }
    {
        Arrivals {
            bytes: ArrayVec::new(),
            start: 0,
            is_whole: false,
        }
    }

    /// A byte that is no part of what was begun, and may begin a request itself.
    fn begin(&mut self, byte: u8, taken: u64)
        ensures { self.new ≡ begun_anew self.old byte taken }
    {
        self.bytes.clear();
        if byte == DLE {
            self.bytes.push(byte);
            self.start = taken;
        } else {
            self.start = taken.saturating_add(1);
        }
    }

    /// Takes the next byte, behind `taken`, where all that was known is told.
    pub fn take(&mut self, byte: u8, taken: u64)
        requires { self.old.is_whole ≡ false }
        ensures { (before : List ℕ) → ArrivalsStand self.old before → taken ≡ counted (length before) →
            ArrivalsStand self.new (before ++ byte ∷ [])
            × (waiting_arrival self.new (counted (suc (length before))) ≡ real_time_request before byte) }
    {
        keep(&mut self.bytes, byte);
        match part_of(self.bytes.as_slice()) {
            Part::Begun => {}
            Part::Whole => self.is_whole = true,
            Part::Neither => self.begin(byte, taken),
        }
    }

    /// The request that the last byte made whole, where it isn't told yet; it ends behind so many bytes.
    pub fn tell(&mut self, end: u64) -> Option<Request>
        ensures told { option_to_list result ≡ waiting_arrival self.old end }
        ensures all { self.new.is_whole ≡ false }
        ensures stands { (bytes : List ℕ) → ArrivalsStand self.old bytes → end ≡ counted (length bytes) →
            ArrivalsStand self.new bytes }
    {
        if !self.is_whole {
            return None;
        }
        let bytes = self.bytes.as_slice();
        let request = Request::of(ask_of(bytes), 2, bytes, self.start, end);
        self.bytes.clear();
        self.start = end;
        self.is_whole = false;
        Some(request)
    }
}
