//! A number that exists in proofs alone, and that only grows.
#![tactic(auto)]

ghost use Rattle.std.specs.Prelude.{◌≡◌, ℕ, ◌+◌};

use std::marker::{Model, PhantomData};
use std::mem::size_of;

/// How often something was done: a number with no bytes. No call lowers it, none sets it, and no code reads
/// it.
#[derive(Drop)]
pub struct Count {
    marker: PhantomData<()>,
    pub ghost so_far: { ℕ },
    pub ghost begun: { ℕ },
}

/// It has no bytes.
const _: () = prove!(size_of::<Count>() == 0);

impl Model for Count {
    ghost use base.Fml.{ftrue};

    ghost also_owns = { λ _. ftrue };
}

// It owns nothing, and so any thread may have it and see it.
unsafe impl Send for Count {}

unsafe impl Sync for Count {}

impl Count {
    /// A count of none.
    #[inline(always)]
    pub fn new() -> Count
        ensures { (result.so_far ≡ 0) × (result.begun ≡ 0) }
    {
        Count {
            marker: PhantomData,
        }
    }

    /// One more.
    #[inline(always)]
    pub fn more(&mut self)
        ensures { self.new ≡ record self.old { so_far = self.old.so_far + 1 } }
    {}

    /// Marks the number of now, and lowers nothing.
    #[inline(always)]
    pub fn begin(&mut self)
        ensures { self.new ≡ record self.old { begun = self.old.so_far } }
    {}
}
