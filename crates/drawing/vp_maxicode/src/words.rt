//! Codewords as they are written.

ghost use Rattle.std.specs.Prelude.{◌≡◌, ◌<◌, ◌≤◌, [], length, None, Some, IfSome, IfNone};
ghost use Rattle.vp_reed_solomon.specs.declared.field.Field.TheVariants.{Gf64};
ghost use Rattle.vp_reed_solomon.specs.Fields.{AreElements};
ghost use Rattle.vp_maxicode.specs.Written.{pushed};

use arrayvec::ArrayVec;
use std::marker::Model;

/// As many codewords as a message has room for.
pub type Held = ArrayVec<u16, 93>;

/// Codewords in the order in which they are written, or that there are more than a symbol has room for.
#[derive(Drop)]
pub struct Words {
    items: Held,
    full: bool,
}

impl Model for Words {
    ghost use Rattle.std.specs.Prelude.{ℕ, ◌≤◌, length, List, Option, Some, None, if◌then◌else◌};
    ghost use Rattle.vp_reed_solomon.specs.declared.field.Field.TheVariants.{Gf64};
    ghost use Rattle.vp_reed_solomon.specs.Fields.{AreElements};

    ghost Value = { Option (List ℕ) };

    ghost view = { λ s. if s.full then None else Some s.items.items };

    ghost invariant = { λ s. record {
      elements : AreElements Gf64 s.items.items;
      few : length s.items.items ≤ 93;
    } };
}

impl Words {
    /// None yet.
    pub fn new() -> Self
        ensures { result ≡ Some [] }
    {
        Words {
            items: ArrayVec::new(),
            full: false,
        }
    }

    /// Writes one more.
    pub fn push(&mut self, word: u16)
        requires { word < 64 }
        ensures { self.new ≡ pushed self.old word }
    {
        if self.items.try_push(word).is_err() {
            self.full = true;
        }
    }

    /// All of them, or none where there are more.
    pub fn all(&self) -> Option<&[u16]>
        ensures none { IfNone result (self.now ≡ None) }
        ensures all { IfSome result (λ all. self.now ≡ Some all.now) }
        ensures elements { IfSome result (λ all. AreElements Gf64 all.now) }
        ensures few { IfSome result (λ all. length all.now ≤ 93) }
    {
        if self.full {
            None
        } else {
            Some(self.items.as_slice())
        }
    }
}
