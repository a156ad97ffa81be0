//! What earlier bands left of each field. It is had by a call alone, which is counted.
ghost use Rattle.std.specs.Prelude.{◌≡◌, ◌≤◌, ◌<◌, [], length, vec_capacity, IfOk};
ghost use Rattle.std.specs.Borrow.{Lends, sem};
ghost use Rattle.vp_field.specs.contracts.marks.Marks.{the_row as marks_row};
ghost use Rattle.vp_bands.specs.Kept.{marks_at, marks_memory, with_marks};
ghost use Rattle.vp_bands.specs.contracts.marks.KeptMarks.{the_row};

use std::alloc::{AllocError, Global};
use std::marker::Model;
use std::mem::size_of;
use vp_count::Count;
use vp_dots::Small;
use vp_field::Marks;
use vp_format::FIELDS;

/// The bytes of a field's marks.
const MARKS_BYTES: usize = size_of::<Marks>();

/// What earlier bands left of each of at most 1,024 fields.
#[derive(Drop)]
pub struct KeptMarks<A: Small = Global> {
    items: Vec<Marks, A>,
    reads: Count,
}

impl<A: Small> Model for KeptMarks<A> {
    ghost use Rattle.vp_bands.specs.Kept.{Kept, HasRoom, kept_by};

    ghost Value = { Kept };

    ghost view = { kept_by };

    ghost invariant = { HasRoom };
}

/// Makes a place for the marks of each of `fields` fields, in room that was taken before.
fn hold_marks<A: Small>(marks: &mut Vec<Marks, A>, fields: usize)
    requires { fields ≤ vec_capacity marks.old }
    ensures held { fields ≤ length marks.new.items }
    ensures room { vec_capacity marks.new ≡ vec_capacity marks.old }
{
    while marks.len() < fields {
        marks.push_reserved(Marks::none());
    }
}

impl<A: Small> KeptMarks<A> {
    /// Of no fields, and none was lent: the only call that takes memory.
    pub fn new(alloc: A) -> Result<Self, AllocError>
    where
        A: Copy,
        ensures { IfOk result (λ marks. marks ≡ record { items = []; read = 0 }) }
    {
        Ok(KeptMarks {
            items: Vec::with_capacity(alloc, FIELDS)?,
            reads: Count::new(),
        })
    }

    /// Makes a place for the marks of each of `fields` fields.
    pub fn hold(&mut self, fields: usize)
        requires { fields ≤ FIELDS }
        ensures held { fields ≤ length self.new.items }
        ensures read { self.new.read ≡ self.old.read }
    {
        hold_marks(&mut self.items, fields);
    }

    /// Lends the marks of field `n`. It is counted.
    pub fn of(&mut self, n: usize) -> &mut Marks
        requires { n < length self.old.items }
        ensures* writes_back { sem 𝓛 (Lends (the_row A.row A.Allocator) marks_row self.entry result
            (with_marks self.old n)) }
        ensures value { result.now ≡ marks_at self.old.items n }
    {
        self.reads.more();
        &mut self.items[n]
    }

    /// The bytes of memory that they hold, on the heap.
    pub fn memory(&self) -> usize
        ensures { result ≡ marks_memory }
    {
        MARKS_BYTES * self.items.capacity()
    }
}
