//! Allocators whose handles are small.
ghost use Rattle.std.proofs.Common.{rules};
ghost use Rattle.vp_dots.specs.Handles.{IsSmall};

use std::alloc::{Allocator, Global};

/// An allocator whose handle is small: so a list over it fits in memory, whatever else stands beside it.
pub trait Small: Allocator {
    ghost small: { IsSmall Self.row };
}

impl Small for Global {
    ghost small = { Prim.search rules };
}

impl<A: Allocator> Small for &A {
    ghost small = { Prim.search rules };
}
