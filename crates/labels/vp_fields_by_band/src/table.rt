//! The table: which bands each field meets, and which field comes next in its band. It is read
//! by calls alone, each of which is counted.
ghost use Rattle.std.specs.Prelude.{◌≡◌, ℕ, ◌+◌, ◌-◌, ◌%◌, ◌^◌, ◌<◌, ◌≤◌, [], ◌∷◌, ◌++◌, Option, None, length, slice_set, IfOk, ⊤};
ghost use Rattle.std.specs.Borrow.{follows_so, sem};
ghost use mathlib.Core.Option.{none};
ghost use Rattle.vp_fields_by_band.specs.Threads.{entry_at, link_at, IsPlaced, KeepsSpans, ThreadedFrom};
ghost use Rattle.vp_fields_by_band.specs.Held.{looked, table_memory};
ghost use Rattle.vp_fields_by_band.specs.contracts.table.Threads.{the_row};

use std::alloc::{AllocError, Global};
use std::marker::Model;
use std::mem::size_of;
use vp_count::Count;
use vp_dots::{Small, filled};
use vp_format::FIELDS;

/// The bands that a field begins and ends in, and the next field that begins in the same band. One that ends
/// before it begins meets none. It is lent, and never copied.
#[derive(Debug, Drop, PartialEq, Eq)]
pub struct Entry {
    pub first: usize,
    pub last: usize,
    pub next: Option<usize>,
}

/// The bytes of an entry.
const ENTRY_BYTES: usize = size_of::<Entry>();

/// The bytes of a link to an entry.
const LINK_BYTES: usize = size_of::<Option<usize>>();

/// Lets no field begin in any band.
fn clear_heads(heads: &mut [Option<usize>])
    ensures len { length heads.new ≡ length heads.old }
    ensures none { (b : ℕ) → link_at heads.new b ≡ None }
{
    for head in heads.iter_mut() {
        *head = None;
    }
}

/// Threads the entries by the band that they begin in: each comes before those of its band behind it.
fn thread_all(entries: &mut [Entry], heads: &mut [Option<usize>])
    requires placed { (k : ℕ) → k < length entries.old →
        IsPlaced (entry_at entries.old k) (length heads.old) }
    ensures spans { KeepsSpans entries.old entries.new }
    ensures table { ThreadedFrom entries.new heads.new 0 }
    ensures lengths { (length entries.new ≡ length entries.old) × (length heads.new ≡ length heads.old) }
{
    clear_heads(heads);
    let mut k = entries.len();
    while k > 0 {
        k -= 1;
        let entry = &mut entries[k];
        if entry.first <= entry.last {
            entry.next = heads[entry.first];
            heads[entry.first] = Some(k);
        }
    }
}

/// At most 1,024 fields by their numbers, threaded by the bands that they begin in, and from band to band. An
/// entry, the first of a band and a link are read by calls alone, each of which counts a look.
#[derive(Drop)]
pub struct Threads<A: Small = Global> {
    entries: Vec<Entry, A>,
    heads: Vec<Option<usize>, A>,
    links: Vec<Option<usize>, A>,
    since: u64,
    looks: Count,
}

impl<A: Small> Model for Threads<A> {
    ghost use Rattle.vp_fields_by_band.specs.Held.{Table, HasRoom, table_by};

    ghost Value = { Table };

    ghost view = { table_by };

    ghost invariant = { HasRoom };
}

impl<A: Small> Threads<A> {
    /// No fields, with room for 1,024 and for `bands` bands: the only call that takes memory.
    pub fn new(alloc: A, bands: usize) -> Result<Self, AllocError>
    where
        A: Copy,
        ensures none { IfOk result (λ threads. threads.entries ≡ []) }
        ensures bands { IfOk result (λ threads. length threads.heads ≡ bands) }
        ensures links { IfOk result (λ threads. length threads.links ≡ FIELDS) }
        ensures looks { IfOk result (λ threads. (threads.looks ≡ 0) × (threads.begun ≡ 0)) }
    {
        Ok(Threads {
            entries: Vec::with_capacity(alloc, FIELDS)?,
            heads: filled(alloc, bands, None)?,
            links: filled(alloc, FIELDS, None)?,
            since: 0,
            looks: Count::new(),
        })
    }

    /// Drops all entries.
    pub fn clear(&mut self)
        ensures { self.new ≡ record self.old { entries = [] } }
    {
        self.entries.clear();
    }

    /// Adds an entry behind those that are held.
    pub fn push(&mut self, entry: Entry)
        requires { length self.old.entries < FIELDS }
        ensures { self.new ≡ record self.old { entries = self.old.entries ++ entry ∷ [] } }
    {
        self.entries.push_reserved(entry);
    }

    /// Threads the entries by the band that they begin in.
    pub fn thread(&mut self)
        requires placed { (k : ℕ) → k < length self.old.entries
            → IsPlaced (entry_at self.old.entries k) (length self.old.heads) }
        ensures spans { KeepsSpans self.old.entries self.new.entries }
        ensures table { ThreadedFrom self.new.entries self.new.heads 0 }
        ensures entries { length self.new.entries ≡ length self.old.entries }
        ensures heads { length self.new.heads ≡ length self.old.heads }
        ensures links { self.new.links ≡ self.old.links }
        ensures looks { (self.new.looks ≡ self.old.looks) × (self.new.begun ≡ self.old.begun) }
    {
        thread_all(&mut self.entries, &mut self.heads);
    }

    /// From here on the looks are told anew. How many there were in all stays.
    pub fn begin(&mut self)
        ensures { self.new ≡ record self.old { begun = self.old.looks } }
    {
        self.since = 0;
        self.looks.begin();
    }

    /// Counts a look.
    fn look(&mut self)
        ensures { self.new ≡ looked self.old }
    {
        self.since = self.since.wrapping_add(1);
        self.looks.more();
    }

    /// Lends an entry, which is counted.
    pub fn entry(&mut self, n: usize) -> &Entry
        requires { n < length self.old.entries }
        ensures* counted { sem 𝓛 (follows_so (the_row A.row A.Allocator) (the_row A.row A.Allocator)
            self.entry.ghost_name none (λ _ _. ⊤) (λ new. new ≡ looked self.old)) }
        ensures value { result.now ≡ entry_at self.old.entries n }
        ensures few { n < FIELDS }
    {
        self.look();
        &self.entries[n]
    }

    /// Reads which entry is the first that begins in a band, which is counted.
    pub fn first_in(&mut self, b: usize) -> Option<usize>
        requires { b < length self.old.heads }
        ensures value { result ≡ link_at self.old.heads b }
        ensures look { self.new ≡ looked self.old }
    {
        self.look();
        self.heads[b]
    }

    /// Reads a link, which is counted.
    pub fn link(&mut self, n: usize) -> Option<usize>
        requires { n < FIELDS }
        ensures value { result ≡ link_at self.old.links n }
        ensures look { self.new ≡ looked self.old }
    {
        self.look();
        self.links[n]
    }

    /// Links an entry that is carried over to the next such one.
    pub fn set_link(&mut self, from: usize, to: Option<usize>)
        requires { from < length self.old.links }
        ensures { self.new ≡ record self.old { links = slice_set self.old.links from to } }
    {
        self.links[from] = to;
    }

    /// The bytes of memory that it holds, on the heap.
    pub fn memory(&self) -> usize
        requires { length self.now.heads ≤ 2 ^ 16 }
        ensures { result ≡ table_memory (length self.now.heads) }
    {
        ENTRY_BYTES * self.entries.capacity()
            + LINK_BYTES * (self.links.capacity() + self.heads.capacity())
    }

    /// How often an entry, the first of a band or a link was read since `begin`.
    pub fn since(&self) -> u64
        ensures { result ≡ (self.now.looks - self.now.begun) % 2 ^ 64 }
    {
        self.since
    }
}
