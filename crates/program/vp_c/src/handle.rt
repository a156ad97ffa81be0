//! A printer behind a pointer that C holds.
ghost use Rattle.std.specs.Prelude.{◌≡◌, Option, None, Some, MatchOption};
ghost use Rattle.std.specs.Coded.{coded_option};
ghost use Rattle.vp_pointed.specs.Pointers.{holds};
ghost use Rattle.vp_engine.specs.Stands.{Engine};
ghost use Rattle.vp_c.specs.contracts.owned.Owned.{the_row};

use crate::owned::Owned;
use std::alloc::Global;
use std::marker::{Model, Send};
use std::mem::replace;
use std::ptr::null_mut;
use vp_pointed::Pointed;

/// Null, or the pointer to a printer, which it owns.
#[repr(C)]
#[derive(Drop)]
pub struct Handle {
    at: *mut u8,
    pub ghost printer: { Option Engine } by { coded_option (the_row).coded },
}

impl Model for Handle {
    ghost also_owns = { λ h. holds the_row h.at h.printer };
}

/// Any thread may use it, one at a time: a printer is data and blocks of the C library's heap.
unsafe impl Send for Handle {}

impl Handle {
    /// Null.
    pub fn none() -> Self
        ensures { result.printer ≡ None }
    {
        Handle { at: null_mut() }
    }

    /// A printer's pointer.
    fn holding(printer: Pointed<Owned>) -> Self
        ensures { result.printer ≡ Some printer.value }
    {
        let Pointed { at } = printer;
        Handle { at: at as *mut u8 }
    }

    /// The pointer, where there is a printer.
    fn into_pointed(self) -> Option<Pointed<Owned>>
        ensures { MatchOption result (self.printer ≡ None) (λ p. self.printer ≡ Some p.value) }
    {
        let Handle { at } = self;
        if at.is_null() {
            return None;
        }
        Some(Pointed {
            at: at as *mut Owned,
        })
    }

    /// A printer's.
    pub fn of(printer: Box<Owned, Global>) -> Self
        ensures { result.printer ≡ Some printer.value }
    {
        Handle::holding(Pointed::of(printer))
    }

    /// Takes the printer out, where there is one, and leaves null.
    pub fn take(&mut self, alloc: Global) -> Option<Box<Owned, Global>>
        ensures taken { MatchOption result (self.old.printer ≡ None)
            (λ b. self.old.printer ≡ Some b.value) }
        ensures left { self.new.printer ≡ None }
    {
        match replace(self, Handle::none()).into_pointed() {
            Some(printer) => Some(printer.into_box(alloc)),
            None => None,
        }
    }
}
