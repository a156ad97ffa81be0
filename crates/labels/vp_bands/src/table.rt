//! The entries of the fields of a format, threaded by the bands that they meet.
ghost use Rattle.std.specs.Prelude.{◌≡◌, ℕ, ◌+◌, ◌*◌, ◌<◌, ◌≤◌, List, length};
ghost use Rattle.std.specs.List.{All};
ghost use Rattle.vp_field.specs.Fields.{IsKept};
ghost use Rattle.vp_field.specs.Standing.{IsNear};
ghost use Rattle.vp_format.specs.Formats.{held};
ghost use Rattle.vp_glyph.specs.Sheets.{Sheets};
ghost use Rattle.vp_fields_by_band.specs.Threads.{entry_at, IsPlaced};
ghost use Rattle.vp_bands.specs.Standing.{AreSpanned, IsSpanned, IsThreadedFor};
ghost use Rattle.vp_label_size.specs.declared.TheConstants.{BAND_ROWS};

use crate::meeting::{BANDS, span};
use vp_dots::Small;
use vp_field::View;
use vp_fields_by_band::{Entry, Threads};
use vp_format::{FIELDS, Field, Fields};

/// The entry of a field that no other follows yet.
fn entry_for(view: View, field: &Field) -> Entry
    requires near { IsNear field.now.left field.now.top }
    ensures spanned { (sheets : Sheets) (stored : List ℕ) → IsKept stored field.now →
        IsSpanned sheets stored view field.now result }
    ensures placed { view.height ≤ BAND_ROWS * BANDS → IsPlaced result BANDS }
{
    let (first, last) = span(view, field.top, field.rows);
    Entry {
        first,
        last,
        next: None,
    }
}

/// Sets the entries of the fields of a format, in the order of closing, each of which is read once.
fn fill<A: Small>(threads: &mut Threads<A>, fields: &mut Fields<A>, view: View)
    requires near { All (λ field. IsNear field.left field.top) fields.old.items }
    requires low { view.height ≤ BAND_ROWS * BANDS }
    ensures fields { length threads.new.entries ≡ length fields.old.items }
    ensures spanned { (sheets : Sheets) (stored : List ℕ) → All (IsKept stored) fields.old.items →
        AreSpanned sheets (held fields.old stored) view threads.new.entries }
    ensures placed { (k : ℕ) → k < length threads.new.entries →
        IsPlaced (entry_at threads.new.entries k) BANDS }
    ensures heads { threads.new.heads ≡ threads.old.heads }
    ensures links { threads.new.links ≡ threads.old.links }
    ensures few { length threads.new.entries ≤ FIELDS }
    ensures looks { (threads.new.looks ≡ threads.old.looks) × (threads.new.begun ≡ threads.old.begun) }
    ensures read { fields.new
        ≡ record fields.old { read = fields.old.read + length fields.old.items } }
{
    threads.clear();
    for n in 0..fields.len() {
        threads.push(entry_for(view, fields.field(n)));
    }
}

/// Sets the entries of the fields of a format, each of which is read once, and threads them by the bands that
/// they meet.
pub fn thread_fields<A: Small>(threads: &mut Threads<A>, fields: &mut Fields<A>, view: View)
    requires bands { length threads.old.heads ≡ BANDS }
    requires near { All (λ field. IsNear field.left field.top) fields.old.items }
    requires low { view.height ≤ BAND_ROWS * BANDS }
    ensures few { length threads.new.entries ≤ FIELDS }
    ensures fields { length threads.new.entries ≡ length fields.old.items }
    ensures heads { length threads.new.heads ≡ length threads.old.heads }
    ensures links { threads.new.links ≡ threads.old.links }
    ensures threaded { (sheets : Sheets) (stored : List ℕ) → All (IsKept stored) fields.old.items →
        IsThreadedFor sheets (held fields.old stored) view threads.new.entries threads.new.heads }
    ensures looks { (threads.new.looks ≡ threads.old.looks) × (threads.new.begun ≡ threads.old.begun) }
    ensures read { fields.new
        ≡ record fields.old { read = fields.old.read + length fields.old.items } }
{
    fill(threads, fields, view);
    threads.thread();
}
