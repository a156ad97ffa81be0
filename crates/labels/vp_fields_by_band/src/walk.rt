//! A walk over the fields that meet a band, in the order of closing.
ghost use Rattle.std.specs.Prelude.{◌≡◌, ℕ, ◌+◌, ◌<◌, ◌≤◌, ◌↔◌, List, Option, None, Some, length, nat_le, IsTrue};
ghost use Rattle.std.specs.Option.{ForSome};
ghost use Rattle.vp_fields_by_band.specs.declared.table.Entry.{Entry};
ghost use Rattle.vp_fields_by_band.specs.Held.{looked, Stays};
ghost use Rattle.vp_fields_by_band.specs.Threads.{entry_at, begins_at, carried_at, meets_at, IsNext, IsTable, IsWalk, link_at, linked, ended, first_kept};

use crate::table::Threads;
use vp_dots::Small;
use vp_format::FIELDS;

/// Where a walk over the fields of a band stands.
#[derive(Clone, Copy, Debug, PartialEq, Eq)]
pub struct Walk {
    /// The next field that an earlier band carried over.
    pub carried: Option<usize>,
    /// The next field that begins here.
    pub begins: Option<usize>,
    /// The number up to which all fields were seen.
    pub seen: usize,
    /// The first and the last field seen that the next band is to carry on.
    pub kept: Option<usize>,
    pub tail: Option<usize>,
}

/// The first of the fields that either list has next.
pub fn next_of(carried: Option<usize>, begins: Option<usize>) -> Option<usize>
    ensures { (entries : List Entry) (b from to : ℕ) → IsNext (carried_at entries b) from to carried →
        IsNext (begins_at entries b) from to begins →
        IsNext (meets_at entries b) from to result }
{
    match (carried, begins) {
        (Some(m), Some(n)) => { if m < n { Some(m) } else { Some(n) } }
        (Some(m), None) => Some(m),
        (None, Some(n)) => Some(n),
        (None, None) => None,
    }
}

/// Whether the link leads to the field.
fn leads_to(link: Option<usize>, n: usize) -> bool
    ensures { IsTrue result ↔ (link ≡ Some n) }
{
    match link {
        Some(m) => m == n,
        None => false,
    }
}

impl Walk {
    /// A walk before the first field of band b, to which the fields from `carried` on are carried over.
    pub fn start<A: Small>(b: usize, carried: Option<usize>, threads: &mut Threads<A>) -> Walk
        requires { b < length threads.old.heads }
        ensures walk { result ≡ record {
          carried = carried;
          begins = link_at threads.old.heads b;
          seen = 0;
          kept = None;
          tail = None;
        } }
        ensures look { threads.new ≡ looked threads.old }
    {
        Walk {
            carried,
            begins: threads.first_in(b),
            seen: 0,
            kept: None,
            tail: None,
        }
    }

    /// The walk past field `n`, which `next` follows among those that begin in its band. What it keeps is the
    /// same.
    fn passed<A: Small>(self, n: usize, next: Option<usize>, threads: &mut Threads<A>) -> Walk
        requires { n < FIELDS }
        ensures seen { result.seen ≡ n + 1 }
        ensures kept { (result.kept ≡ self.kept) × (result.tail ≡ self.tail) }
        ensures heads { (entries : List Entry) (b : ℕ) →
            IsTable entries → IsWalk entries threads.old.links b self →
            IsNext (meets_at entries b) self.seen (length entries) (Some n) →
            next ≡ (entry_at entries n).next →
            IsNext (carried_at entries b) (n + 1) (length entries) result.carried
            × IsNext (begins_at entries b) (n + 1) (length entries) result.begins }
        ensures stays { threads.new ≡ record threads.old { looks = threads.new.looks } }
        ensures looks { (threads.old.looks ≤ threads.new.looks)
            × (threads.new.looks ≤ threads.old.looks + 1) }
    {
        if leads_to(self.carried, n) {
            Walk {
                carried: threads.link(n),
                seen: n + 1,
                ..self
            }
        } else {
            Walk {
                begins: next,
                seen: n + 1,
                ..self
            }
        }
    }

    /// Adds field `n` to what is kept for the next band.
    fn keep<A: Small>(self, n: usize, threads: &mut Threads<A>) -> Walk
        requires { ForSome self.tail (λ t. t < length threads.old.links) }
        ensures links { threads.new ≡ record threads.old { links = linked threads.old.links self.tail n } }
        ensures walk { result ≡ record self { kept = first_kept self.kept n; tail = Some n } }
    {
        if let Some(t) = self.tail {
            threads.set_link(t, Some(n));
        }
        let kept = match self.kept {
            Some(first) => first,
            None => n,
        };
        Walk {
            kept: Some(kept),
            tail: Some(n),
            ..self
        }
    }

    /// Ends what is kept: the first field of it, from which on it is carried over to the next band.
    pub fn close<A: Small>(self, threads: &mut Threads<A>) -> Option<usize>
        requires { ForSome self.tail (λ t. t < length threads.old.links) }
        ensures first { result ≡ self.kept }
        ensures links { threads.new ≡ record threads.old { links = ended threads.old.links self.tail } }
    {
        if let Some(t) = self.tail {
            threads.set_link(t, None);
        }
        self.kept
    }

    /// The walk after field `n`, whose entry is read, and whether the field begins in band b or behind it.
    pub fn after<A: Small>(self, n: usize, b: usize, threads: &mut Threads<A>) -> (Walk, bool)
        requires within { n < length threads.old.entries }
        requires tail { ForSome self.tail (λ t. t < length threads.old.links) }
        ensures seen { result.0.seen ≡ n + 1 }
        ensures walk { IsTable threads.old.entries → IsWalk threads.old.entries threads.old.links b self →
            IsNext (meets_at threads.old.entries b) self.seen (length threads.old.entries) (Some n) →
            IsWalk threads.old.entries threads.new.links b result.0 }
        ensures begins { result.1 ≡ nat_le b (entry_at threads.old.entries n).first }
        ensures stays { Stays threads.old threads.new }
        ensures looks { (threads.old.looks + 1 ≤ threads.new.looks)
            × (threads.new.looks ≤ threads.old.looks + 2) }
    {
        let entry = threads.entry(n);
        let (begins, last, next) = (entry.first >= b, entry.last, entry.next);
        let passed = self.passed(n, next, threads);
        if last > b {
            (passed.keep(n, threads), begins)
        } else {
            (passed, begins)
        }
    }
}
