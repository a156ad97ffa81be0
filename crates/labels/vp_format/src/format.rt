//! The format of a label: its closed fields and the bytes that they name, in room that is taken once. A field
//! is had by a call alone, which is counted.
ghost use Rattle.std.specs.Prelude.{◌≡◌, ℕ, ◌+◌, ◌<◌, ◌≤◌, ◌↔◌, List, [], ◌∷◌, ◌++◌, length, IfOk, IsOk, OnOk, OnErr, Some, slice_get, ⊤};
ghost use Rattle.std.specs.Borrow.{follows_so, sem};
ghost use mathlib.Core.Option.{none};
ghost use Rattle.vp_format.specs.Formats.{fields_memory, format_memory};
ghost use Rattle.vp_format.specs.contracts.format.Fields.{the_row};

use crate::field::Field;
use std::alloc::{AllocError, Global};
use std::marker::Model;
use std::mem::size_of;
use vp_count::Count;
use vp_dots::{Full, Small, Store};

/// The most fields of a format.
pub const FIELDS: usize = 1024;

/// The most stored bytes of a format.
pub const STORED: usize = 262144;

/// The bytes of a field.
const FIELD_BYTES: usize = size_of::<Field>();

/// At most 1,024 closed fields.
#[derive(Drop)]
pub struct Fields<A: Small = Global> {
    items: Vec<Field, A>,
    reads: Count,
}

impl<A: Small> Model for Fields<A> {
    ghost use Rattle.vp_format.specs.Formats.{Closed, HasRoom, closed_by};

    ghost Value = { Closed };

    ghost view = { closed_by };

    ghost invariant = { HasRoom };
}

impl<A: Small> Fields<A> {
    /// No fields, of which none was read: the only call that takes memory.
    pub fn new(alloc: A) -> Result<Self, AllocError>
    where
        A: Copy,
        ensures { IfOk result (λ fields. fields ≡ record { items = []; read = 0 }) }
    {
        Ok(Fields {
            items: Vec::with_capacity(alloc, FIELDS)?,
            reads: Count::new(),
        })
    }

    /// Adds a field behind those that are held; `Full`, and nothing changes, where these are 1,024.
    pub fn close(&mut self, field: Field) -> Result<(), Full>
        ensures room { IsOk result ↔ (length self.old.items < FIELDS) }
        ensures ok { OnOk result (self.new ≡ record self.old { items = self.old.items ++ field ∷ [] }) }
        ensures err { OnErr result (self.new ≡ self.old) }
    {
        if self.items.len() == FIELDS {
            return Err(Full);
        }
        self.items.push_reserved(field);
        Ok(())
    }

    /// How many fields are held.
    pub fn len(&self) -> usize
        ensures len { result ≡ length self.now.items }
        ensures few { result ≤ FIELDS }
    {
        self.items.len()
    }

    /// Lends a field, by its number from 0 in the order of closing. It is counted.
    pub fn field(&mut self, n: usize) -> &Field
        requires { n < length self.old.items }
        ensures* counted { sem 𝓛 (follows_so (the_row A.row A.Allocator) (the_row A.row A.Allocator)
            self.entry.ghost_name none (λ _ _. ⊤)
            (λ new. new ≡ record self.old { read = self.old.read + 1 })) }
        ensures value { slice_get self.old.items n ≡ Some result.now }
    {
        self.reads.more();
        &self.items[n]
    }

    /// Drops all fields. How many were read stays.
    pub fn clear(&mut self)
        ensures { self.new ≡ record self.old { items = [] } }
    {
        self.items.clear();
    }

    /// The bytes of memory that they hold, on the heap.
    pub fn memory(&self) -> usize
        ensures { result ≡ fields_memory }
    {
        FIELD_BYTES * self.items.capacity()
    }
}

/// At most 1,024 fields and 262,144 stored bytes.
#[derive(Drop)]
pub struct Format<A: Small = Global> {
    pub fields: Fields<A>,
    pub stored: Store<STORED, A>,
}

impl<A: Small> Format<A> {
    /// A format without fields and stored bytes: the only call that takes memory.
    pub fn new(alloc: A) -> Result<Self, AllocError>
    where
        A: Copy,
        ensures fields { IfOk result (λ format. format.fields ≡ record { items = []; read = 0 }) }
        ensures stored { IfOk result (λ format. format.stored ≡ []) }
    {
        Ok(Format {
            fields: Fields::new(alloc)?,
            stored: Store::new(alloc)?,
        })
    }

    /// Stores bytes behind those that are held; `Full`, and nothing changes,
    /// where these are more than 262,144 in all.
    pub fn keep(&mut self, bytes: &[u8]) -> Result<(), Full>
        ensures room { IsOk result ↔ (length self.old.stored + length bytes.now ≤ STORED) }
        ensures ok { OnOk result (self.new ≡ record self.old { stored = self.old.stored ++ bytes.now }) }
        ensures err { OnErr result (self.new ≡ self.old) }
    {
        self.stored.append(bytes)
    }

    /// Adds a field behind those that are held; `Full`, and nothing changes, where these are 1,024.
    pub fn close(&mut self, field: Field) -> Result<(), Full>
        ensures room { IsOk result ↔ (length self.old.fields.items < FIELDS) }
        ensures fields { OnOk result (self.new.fields
            ≡ record self.old.fields { items = self.old.fields.items ++ field ∷ [] }) }
        ensures stored { self.new.stored ≡ self.old.stored }
        ensures err { OnErr result (self.new ≡ self.old) }
    {
        self.fields.close(field)
    }

    /// How many fields are held.
    pub fn len(&self) -> usize
        ensures len { result ≡ length self.now.fields.items }
        ensures few { result ≤ FIELDS }
    {
        self.fields.len()
    }

    /// The stored bytes.
    pub fn stored(&self) -> &[u8]
        ensures bytes { result.now ≡ self.now.stored }
        ensures few { length self.now.stored ≤ STORED }
    {
        self.stored.bytes()
    }

    /// Drops all fields and stored bytes.
    pub fn clear(&mut self)
        ensures fields { self.new.fields ≡ record self.old.fields { items = [] } }
        ensures stored { self.new.stored ≡ [] }
    {
        self.fields.clear();
        self.stored.clear();
    }

    /// The bytes of memory that it holds, on the heap.
    pub fn memory(&self) -> usize
        ensures { result ≡ format_memory }
    {
        self.fields.memory() + self.stored.memory()
    }
}
