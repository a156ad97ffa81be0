//! An asker behind a pointer that C holds.
ghost use Rattle.std.specs.Prelude.{◌≡◌, Option, None, Some, MatchOption};
ghost use Rattle.std.specs.Coded.{coded_option};
ghost use Rattle.vp_pointed.specs.Pointers.{holds};
ghost use Rattle.vp_requests.specs.declared.requests.Requests.{Requests};
ghost use Rattle.vp_asking.specs.contracts.asker.Asker.{the_row};

use crate::asker::Asker;
use std::alloc::Global;
use std::marker::{Model, Send};
use std::mem::replace;
use std::ptr::null_mut;
use vp_pointed::Pointed;

/// Null, or the pointer to an asker, which it owns.
#[repr(C)]
#[derive(Drop)]
pub struct AskerHandle {
    at: *mut u8,
    pub ghost asker: { Option Requests } by { coded_option (the_row).coded },
}

impl Model for AskerHandle {
    ghost also_owns = { λ h. holds the_row h.at h.asker };
}

/// Any thread may use it, one at a time: an asker is data and blocks of the C library's heap.
unsafe impl Send for AskerHandle {}

impl AskerHandle {
    /// Null.
    pub fn none() -> Self
        ensures { result.asker ≡ None }
    {
        AskerHandle { at: null_mut() }
    }

    /// An asker's pointer.
    fn holding(asker: Pointed<Asker>) -> Self
        ensures { result.asker ≡ Some asker.value }
    {
        let Pointed { at } = asker;
        AskerHandle { at: at as *mut u8 }
    }

    /// The pointer, where there is an asker.
    fn into_pointed(self) -> Option<Pointed<Asker>>
        ensures { MatchOption result (self.asker ≡ None) (λ p. self.asker ≡ Some p.value) }
    {
        let AskerHandle { at } = self;
        if at.is_null() {
            return None;
        }
        Some(Pointed {
            at: at as *mut Asker,
        })
    }

    /// An asker's.
    pub fn of(asker: Box<Asker, Global>) -> Self
        ensures { result.asker ≡ Some asker.value }
    {
        AskerHandle::holding(Pointed::of(asker))
    }

    /// Takes the asker out, where there is one, and leaves null.
    pub fn take(&mut self, alloc: Global) -> Option<Box<Asker, Global>>
        ensures taken { MatchOption result (self.old.asker ≡ None)
            (λ b. self.old.asker ≡ Some b.value) }
        ensures left { self.new.asker ≡ None }
    {
        match replace(self, AskerHandle::none()).into_pointed() {
            Some(asker) => Some(asker.into_box(alloc)),
            None => None,
        }
    }
}
