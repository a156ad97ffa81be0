//! Rows of dots on the heap.
ghost use Rattle.std.specs.Prelude.{◌≡◌, ℕ, ◌+◌, ◌-◌, ◌*◌, ◌/◌, ◌%◌, ◌^◌, ◌<◌, ◌≤◌, ◌≢◌, false, List, [], replicate, length, slice_set, slice_index_or, Some, None, IfOk, nat_lt, ◌&&◌, if◌then◌else◌};
ghost use Rattle.std.specs.Borrow.{Lends, sem, Array, u8 as byte};
ghost use Rattle.vp_dots.specs.Dots.{dot, span};
ghost use Rattle.vp_dots.specs.contracts.band.Band.{the_row};

use crate::room::filled;
use std::alloc::{AllocError, Allocator, Global};
use std::marker::Model;

/// H rows of B bytes, each byte eight dots.
#[derive(Drop)]
pub struct Band<const B: usize, const H: usize, A: Allocator = Global> {
    rows: Vec<[u8; B], A>,
}

impl<const B: usize, const H: usize, A: Allocator> Model for Band<B, H, A> {
    ghost use Rattle.std.specs.Prelude.{ℕ, List, ◌≡◌, ◌*◌, ◌≤◌, ◌^◌, length, vec_capacity};

    ghost Value = { List (List ℕ) };

    ghost view = { λ s. s.rows.items };

    ghost invariant = { λ s. record {
      count : length s.rows.items ≡ H;
      small : B * H ≤ 2 ^ 28;
      room : vec_capacity s.rows ≡ H;
    } };
}

impl<const B: usize, const H: usize, A: Allocator> Band<B, H, A> {
    /// A white band, of at most 2^28 bytes: the only call that takes memory.
    pub fn new(alloc: A) -> Result<Self, AllocError>
        requires { B * H ≤ 2 ^ 28 }
        ensures { IfOk result (λ band. band ≡ replicate H (replicate B 0)) }
    {
        let rows = if H == 0 {
            Vec::new(alloc)
        } else {
            filled(alloc, H, [0; B])?
        };
        Ok(Band { rows })
    }

    /// Makes all dots white.
    pub fn clear(&mut self)
        ensures { self.new ≡ replicate H (replicate B 0) }
    {
        let white = [0; B];
        for row in self.rows.iter_mut() {
            *row = white;
        }
    }

    /// Makes the dots of the rows from <= y < to white: of all rows, where no other row has a black dot.
    pub fn clear_rows(&mut self, from: usize, to: usize)
        requires { to ≤ H }
        ensures rows { length self.new ≡ length self.old }
        ensures white { (y : ℕ) → slice_index_or self.new y []
            ≡ (if span from to y then replicate B 0 else slice_index_or self.old y []) }
        ensures all { ((y : ℕ) → y < H → span from to y ≡ false →
            slice_index_or self.old y [] ≡ replicate B 0)
            → self.new ≡ replicate H (replicate B 0) }
    {
        for y in from..to {
            self.rows[y] = [0; B];
        }
    }

    /// The dot at column x of row y, if there is one.
    pub fn get(&self, x: usize, y: usize) -> Option<bool>
        ensures { result ≡ (if nat_lt x (8 * B) && nat_lt y H
            then Some (dot (slice_index_or self.now y []) x) else None) }
    {
        if x / 8 < B && y < H {
            Some(self.rows[y][x / 8] >> (7 - x % 8) & 1 == 1)
        } else {
            None
        }
    }

    /// The bytes of a row.
    pub fn row(&self, y: usize) -> &[u8]
        requires { y < H }
        ensures value { result.now ≡ slice_index_or self.now y [] }
        ensures len { length result.now ≡ B }
        ensures rows { length self.now ≡ H }
    {
        &self.rows[y]
    }

    /// The rows from <= y < to.
    pub fn rows(&self, from: usize, to: usize) -> &[[u8; B]]
        requires some { from ≤ to }
        requires inside { to ≤ H }
        ensures len { length result.now ≡ to - from }
        ensures rows { (i : ℕ) → i < to - from →
            slice_index_or result.now i [] ≡ slice_index_or self.now (from + i) [] }
    {
        &self.rows[from..to]
    }

    /// The bytes of a row, to be written.
    pub fn row_mut(&mut self, y: usize) -> &mut [u8]
        requires { y < H }
        ensures* writes_back { sem 𝓛
            (Lends (the_row B.row H.row A.row A.Allocator) (Array byte 0) self.entry result
            (slice_set self.old y)) }
        ensures value { result.now ≡ slice_index_or self.old y [] }
        ensures len { length result.now ≡ B }
        ensures rows { length self.old ≡ H }
    {
        let _row = self.row(y);
        self.rows[y].as_mut_slice()
    }

    /// The bytes of memory that it holds, on the heap.
    pub fn memory(&self) -> usize
        ensures { result ≡ H * B }
    {
        self.rows.capacity() * B
    }
}
