//! All bands of a label, copy after copy.
ghost use Rattle.std.specs.Prelude.{◌≡◌, ℕ, ◌+◌, ◌*◌, ◌%◌, ◌^◌, ◌<◌, ◌≤◌, List, [], None, length, map, slice_index_or, IfOk};
ghost use Rattle.std.specs.List.{All};
ghost use Rattle.vp_dots.specs.Dots.{dot};
ghost use Rattle.vp_dots.specs.Images.{row_bytes};
ghost use Rattle.vp_glyph.specs.Sheets.{Sheets as Given};
ghost use Rattle.vp_format.specs.Formats.{held, Held};
ghost use Rattle.vp_field.specs.Fields.{stroke_of, IsKept};
ghost use Rattle.vp_field.specs.Standing.{IsNear};
ghost use Rattle.vp_field.specs.Strokes.{image_dot};
ghost use Rattle.vp_field.specs.declared.view.View.{View as Seen};
ghost use Rattle.vp_bands.specs.Meeting.{meeting, band_work, showing};
ghost use Rattle.vp_bands.specs.Standing.{looks_since, painter_memory, IsBefore};
ghost use Rattle.vp_label_size.specs.declared.TheConstants.{WIDEST, BAND_ROWS};

use crate::marks::KeptMarks;
use crate::meeting::BANDS;
use crate::table::thread_fields;
use crate::walk::paint_band;
use std::alloc::{AllocError, Global};
use std::marker::Model;
use vp_dots::Small;
use vp_field::View;
use vp_fields_by_band::Threads;
use vp_format::Fields;
use vp_glyph::Sheets;
use vp_label_size::LabelBand;

/// Paints the bands of a label of at most 1,248 by 8,000 dots and 1,024 fields, one after the other, in each
/// of its copies.
#[derive(Drop)]
pub struct BandPainter<A: Small = Global> {
    threads: Threads<A>,
    marks: KeptMarks<A>,
    carried: Option<usize>,
    work: u64,
}

impl<A: Small> Model for BandPainter<A> {
    ghost use Rattle.vp_bands.specs.Standing.{Threaded, HasRoom, threaded_by};

    ghost Value = { Threaded };

    ghost view = { threaded_by };

    ghost invariant = { HasRoom };
}

impl<A: Small> BandPainter<A> {
    /// A painter of a label without fields: the only call that takes memory.
    pub fn new(alloc: A) -> Result<Self, AllocError>
    where
        A: Copy,
        ensures none { IfOk result (λ painter. painter.entries ≡ []) }
        ensures looks { IfOk result (λ painter. (painter.looks ≡ 0) × (painter.begun ≡ 0)) }
        ensures work { IfOk result (λ painter. painter.work ≡ 0) }
    {
        Ok(BandPainter {
            threads: Threads::new(alloc, BANDS)?,
            marks: KeptMarks::new(alloc)?,
            carried: None,
            work: 0,
        })
    }

    /// Takes on the fields of a format, whose label is put out as `view` says, before its first band. Each
    /// field is read once.
    pub fn thread(&mut self, fields: &mut Fields<A>, view: View)
        requires near { All (λ field. IsNear field.left field.top) fields.old.items }
        requires low { view.height ≤ BAND_ROWS * BANDS }
        ensures before { (sheets : Given) (stored : List ℕ) → All (IsKept stored) fields.old.items →
            IsBefore sheets (held fields.old stored) view 0 self.new }
        ensures looks { self.new.looks ≡ self.old.looks }
        ensures begun { self.new.begun ≡ self.new.looks }
        ensures marked { self.new.marked ≡ self.old.marked }
        ensures work { self.new.work ≡ 0 }
        ensures read { fields.new
            ≡ record fields.old { read = fields.old.read + length fields.old.items } }
    {
        self.marks.hold(fields.len());
        thread_fields(&mut self.threads, fields, view);
        self.start();
    }

    /// Goes back before the first band, for another copy of the same label.
    pub fn start(&mut self)
        ensures is { self.new ≡ record self.old { carried = None; begun = self.old.looks; work = 0 } }
        ensures before { (sheets : Given) (held : Held) (view : Seen) (b : ℕ)
            → IsBefore sheets held view b self.old → IsBefore sheets held view 0 self.new }
    {
        self.threads.begin();
        self.carried = None;
        self.work = 0;
    }

    /// Paints band b, whose first row is row 32 b of the label as it is put out, from the format whose fields
    /// were taken on: each band of a copy once, in their order.
    pub fn paint(
        &mut self,
        b: usize,
        sheets: &Sheets<A>,
        fields: &mut Fields<A>,
        stored: &[u8],
        view: View,
        band: &mut LabelBand<A>,
    )
        requires before { IsBefore sheets.now (held fields.old stored.now) view b self.old }
        requires narrow { view.width ≤ WIDEST }
        requires low { b < BANDS }
        ensures dots { (x k : ℕ) → x < 8 * row_bytes view.width → k < BAND_ROWS → 32 * b + k < view.height
            → dot (slice_index_or band.new k []) x
            ≡ image_dot view (map (stroke_of sheets.now stored.now) fields.old.items) x
            (32 * b + k) }
        ensures before { IsBefore sheets.now (held fields.old stored.now) view (b + 1) self.new }
        ensures at_least { self.old.looks
            + meeting sheets.now stored.now view fields.old.items b ≤ self.new.looks }
        ensures at_most { self.new.looks ≤ self.old.looks + 1
            + 2 * meeting sheets.now stored.now view fields.old.items b }
        ensures begun { self.new.begun ≡ self.old.begun }
        ensures marked { self.new.marked
            ≡ self.old.marked + meeting sheets.now stored.now view fields.old.items b }
        ensures read { fields.new ≡ record fields.old
            { read = fields.old.read + meeting sheets.now stored.now view fields.old.items b } }
        ensures work { self.new.work ≤ self.old.work
            + band_work sheets.now stored.now view fields.old.items b }
        ensures shown { self.old.work
            + showing sheets.now stored.now view fields.old.items b ≤ self.new.work }
    {
        self.work += paint_band(
            &mut self.threads,
            &mut self.marks,
            &mut self.carried,
            b,
            sheets,
            fields,
            stored,
            view,
            band,
        );
    }

    /// The bytes of memory that it holds, on the heap.
    pub fn memory(&self) -> usize
        ensures { result ≡ painter_memory }
    {
        self.threads.memory() + self.marks.memory()
    }

    /// How often an entry or a link was read since the copy's start.
    pub fn looks(&self) -> u64
        ensures { result ≡ looks_since self.now % 2 ^ 64 }
    {
        self.threads.since()
    }

    /// What painting took since the copy's start: how many bytes of pictures' codes were read, how many of
    /// their rows passed or painted, and how many lines of ink drawn for all other fields, and cells and
    /// characters of these.
    pub fn work(&self) -> u64
        ensures { result ≡ self.now.work }
    {
        self.work
    }
}
