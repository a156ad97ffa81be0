//! The requests of a receipt.
ghost use Rattle.std.specs.Prelude.{◌≡◌, ◌≤◌, ◌<◌, ◌++◌, ◌∷◌, [], ℕ, List, None, length, take};
ghost use Rattle.std.specs.Prelude.{option_to_list};
ghost use Rattle.vp_requests.specs.Requests.{receipt_requests};
ghost use Rattle.vp_requests.specs.Standing.{ReceiptsTold, IsIdle};

use crate::arrivals::Arrivals;
use crate::request::{Found, Request};
use crate::units::Units;

/// The requests in real time, the units, and how many bytes were taken.
#[derive(Drop)]
pub struct Receipts {
    arrivals: Arrivals,
    units: Units,
    taken: u64,
}

impl Receipts {
    /// No bytes yet.
    pub fn new() -> Self
        ensures { ReceiptsTold result [] [] }
    {
        Receipts {
            arrivals: Arrivals::new(),
            units: Units::new(),
            taken: 0,
        }
    }

    /// Takes the next byte, where all that was known is told.
    fn take(&mut self, byte: u8)
        requires { IsIdle self.old }
        ensures { (bytes : List ℕ) (told : List Request) → ReceiptsTold self.old bytes told →
            ReceiptsTold self.new (bytes ++ byte ∷ []) told }
    {
        self.arrivals.take(byte, self.taken);
        self.units.take(byte, self.taken);
        self.taken = self.taken.saturating_add(1);
    }

    /// The first request that the last byte made known and that isn't told.
    fn tell(&mut self) -> Option<Request>
        ensures told { (bytes : List ℕ) (told : List Request) → ReceiptsTold self.old bytes told →
            ReceiptsTold self.new bytes (told ++ option_to_list result) }
        ensures all { result ≡ None → IsIdle self.new }
    {
        let request = self.arrivals.tell(self.taken);
        if request.is_some() {
            return request;
        }
        self.units.tell(self.taken)
    }

    /// Takes bytes up to the next request.
    pub fn next(&mut self, input: &[u8]) -> Found
        ensures fits { result.taken ≤ length input.now }
        ensures told { (bytes : List ℕ) (told : List Request) → ReceiptsTold self.old bytes told →
            ReceiptsTold self.new (bytes ++ take result.taken input.now)
            (told ++ option_to_list result.request) }
        ensures at_its_byte { (bytes : List ℕ) (told : List Request) (n : ℕ) →
            ReceiptsTold self.old bytes told → n < result.taken →
            receipt_requests (bytes ++ take n input.now) ≡ told }
        ensures all { result.request ≡ None → IsIdle self.new }
        ensures all_taken { result.request ≡ None → result.taken ≡ length input.now }
    {
        let request = self.tell();
        if request.is_some() {
            return Found { taken: 0, request };
        }
        for i in 0..input.len() {
            self.take(input[i]);
            let request = self.tell();
            if request.is_some() {
                return Found {
                    taken: i + 1,
                    request,
                };
            }
        }
        Found {
            taken: input.len(),
            request: None,
        }
    }
}
