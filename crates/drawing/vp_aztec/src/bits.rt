//! Bits as they are written.

ghost use Rattle.std.specs.Prelude.{◌≡◌, ◌==◌, ◌<◌, ◌≤◌, [], length, None, Some, IfSome, IfNone};
ghost use Rattle.std.specs.Int.{bit_at};
ghost use Rattle.vp_aztec.specs.Written.{pushed};

use arrayvec::ArrayVec;
use std::marker::Model;

/// As many bits as the largest symbol holds.
type Held = ArrayVec<bool, 19968>;

/// Bits in the order in which they are written, or that there are more than the largest symbol holds.
#[derive(Drop)]
pub struct Bits {
    items: Held,
    full: bool,
}

impl Model for Bits {
    ghost use Rattle.std.specs.Prelude.{◌≤◌, Bool, length, List, Option, Some, None, if◌then◌else◌};

    ghost Value = { Option (List Bool) };

    ghost view = { λ s. if s.full then None else Some s.items.items };

    ghost invariant = { λ s. length s.items.items ≤ 19968 };
}

/// Bit `k` of a number.
fn bit(value: u16, k: usize) -> bool
    requires { k < 16 }
    ensures { result ≡ (bit_at value k == 1) }
{
    value >> k & 1 == 1
}

impl Bits {
    /// None yet.
    pub fn new() -> Self
        ensures { result ≡ Some [] }
    {
        Bits {
            items: ArrayVec::new(),
            full: false,
        }
    }

    /// Writes a number of so many bits.
    pub fn push(&mut self, code: (usize, u16))
        requires { code.0 ≤ 16 }
        ensures { self.new ≡ pushed self.old code }
    {
        let (n, value) = code;
        if self.items.len() + n > 19968 {
            self.full = true;
            return;
        }
        for k in 0..n {
            self.items.push(bit(value, n - 1 - k));
        }
    }

    /// All of them, or none where there are more.
    pub fn all(&self) -> Option<&[bool]>
        ensures none { IfNone result (self.now ≡ None) }
        ensures all { IfSome result (λ all. self.now ≡ Some all.now) }
        ensures few { IfSome result (λ all. length all.now ≤ 19968) }
    {
        if self.full {
            None
        } else {
            Some(self.items.as_slice())
        }
    }
}
