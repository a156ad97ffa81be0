//! A value of the C library's heap by its pointer, with the right to free its block.
ghost use Rattle.std.specs.Prelude.{◌≡◌};
ghost use Rattle.vp_pointed.specs.Pointers.{owned_at};

use std::alloc::Global;
use std::marker::{Model, Send};

/// The pointer to a value, which it owns.
pub struct Pointed<T> {
    pub at: *mut T,
    pub ghost value: { T },
}

impl<T> Model for Pointed<T> {
    ghost also_owns = { λ p. owned_at T.row p.at p.value };
}

/// Any thread may have it where any may have the value: its block is the C library's heap's.
unsafe impl<T: Send> Send for Pointed<T> {}

impl<T> Pointed<T> {
    /// A box's value.
    pub fn of(value: Box<T, Global>) -> Self
    where
        T: Drop,
        ensures { result.value ≡ value.value }
    {
        let at = Box::into_raw(value);
        Pointed { at }
    }

    /// The value in a box again.
    pub fn into_box(self, alloc: Global) -> Box<T, Global>
        ensures { result.value ≡ self.value }
    {
        let Pointed { at } = self;
        unsafe { Box::from_raw(alloc, at) }
    }
}
