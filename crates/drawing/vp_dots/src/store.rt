//! Bytes in room that is taken once.
ghost use Rattle.std.specs.Prelude.{◌≡◌, ℕ, ◌+◌, ◌<◌, ◌≤◌, ◌↔◌, List, [], ◌∷◌, ◌++◌, length, IfOk, IsOk, OnOk, OnErr};

use crate::room::append_reserved;
use std::alloc::{AllocError, Allocator, Global};
use std::marker::Model;
use thiserror::Error;

/// The store holds as many bytes as it can.
#[derive(Clone, Copy, Debug, PartialEq, Eq, Error)]
#[error("no room is left")]
pub struct Full;

/// At most N bytes.
#[derive(Drop)]
pub struct Store<const N: usize, A: Allocator = Global> {
    bytes: Vec<u8, A>,
}

impl<const N: usize, A: Allocator> Model for Store<N, A> {
    ghost use Rattle.std.specs.Prelude.{ℕ, List, ◌≡◌, ◌≤◌, length, vec_capacity};

    ghost Value = { List ℕ };

    ghost view = { λ s. s.bytes.items };

    ghost invariant = { λ s. record { filled : length s.bytes.items ≤ N; room : vec_capacity s.bytes ≡ N } };
}

impl<const N: usize, A: Allocator> Store<N, A> {
    /// An empty store, with room for N bytes: the only call that takes memory.
    pub fn new(alloc: A) -> Result<Self, AllocError>
        ensures { IfOk result (λ store. store ≡ []) }
    {
        Ok(Store {
            bytes: Vec::with_capacity(alloc, N)?,
        })
    }

    /// Appends a byte; `Full`, and nothing changes, where N bytes are held.
    pub fn push(&mut self, byte: u8) -> Result<(), Full>
        ensures room { IsOk result ↔ (length self.old < N) }
        ensures ok { OnOk result (self.new ≡ self.old ++ byte ∷ []) }
        ensures err { OnErr result (self.new ≡ self.old) }
    {
        if self.bytes.len() == N {
            return Err(Full);
        }
        self.bytes.push_reserved(byte);
        Ok(())
    }

    /// Appends bytes; `Full`, and nothing changes, where not all of them find room.
    pub fn append(&mut self, bytes: &[u8]) -> Result<(), Full>
        ensures room { IsOk result ↔ (length self.old + length bytes.now ≤ N) }
        ensures ok { OnOk result (self.new ≡ self.old ++ bytes.now) }
        ensures err { OnErr result (self.new ≡ self.old) }
    {
        if bytes.len() > N - self.bytes.len() {
            return Err(Full);
        }
        append_reserved(&mut self.bytes, bytes);
        Ok(())
    }

    /// The bytes.
    pub fn bytes(&self) -> &[u8]
        ensures bytes { result.now ≡ self.now }
        ensures filled { length self.now ≤ N }
    {
        &self.bytes
    }

    /// Drops all bytes.
    pub fn clear(&mut self)
        ensures { self.new ≡ [] }
    {
        self.bytes.clear();
    }

    /// The bytes of memory that it holds, on the heap.
    pub fn memory(&self) -> usize
        ensures { result ≡ N }
    {
        self.bytes.capacity()
    }
}
