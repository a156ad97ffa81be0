//! What is put out of a format that has ended: its copies, painted band by band, of which a single band stands
//! for all of them.
ghost use Rattle.std.specs.Prelude.{◌≡◌, ◌≤◌, ◌<◌, ◌+◌, ◌++◌, IfOk, length, min, take, drop};
ghost use Rattle.vp_glyph.specs.Sheets.{Sheets as Given};
ghost use Rattle.vp_copies.specs.Copies.{copies_text};
ghost use Rattle.vp_copies.specs.Progress.{StandsPainted};
ghost use Rattle.vp_label_size.specs.declared.TheConstants.{WIDEST, LONGEST, BAND_ROWS};
ghost use Rattle.vp_label.specs.Gathered.{AreKept};
ghost use Rattle.vp_label.specs.Prints.{label_image};
ghost use Rattle.vp_bands.specs.Meeting.{bands_of};
ghost use Rattle.vp_bands.specs.Standing.{IsBefore};
ghost use Rattle.vp_format.specs.Formats.{held};
ghost use Rattle.vp_label.specs.Press.{left, painted_before, press_image, HasStood, IsBetween, IsPress, IsReadied, IsReadTo};

use std::alloc::{AllocError, Global};
use vp_bands::BandPainter;
use vp_copies::{Ahead, Copies};
use vp_dots::Small;
use vp_field::View;
use vp_format::{Fields, Format};
use vp_glyph::Sheets;
use vp_label_size::LabelBand;

/// Copies of a label that are being put out.
#[derive(Drop)]
pub struct Press<A: Small = Global> {
    pub copies: Copies,
    pub painter: BandPainter<A>,
    pub band: LabelBand<A>,
}

impl<A: Small> Press<A> {
    /// Nothing to put out.
    pub fn new(alloc: A) -> Result<Self, AllocError>
    where
        A: Copy,
        ensures none { IfOk result (λ press. press.copies.place.copies ≡ 0) }
        ensures looks { IfOk result (λ press. press.painter.looks ≡ 0) }
        ensures work { IfOk result (λ press. press.painter.work ≡ 0) }
    {
        Ok(Press {
            copies: Copies::new(1, 1, 0),
            painter: BandPainter::new(alloc)?,
            band: LabelBand::<A>::new(alloc)?,
        })
    }

    /// Begins anew: nothing to put out. What was read so far stays counted.
    pub fn begin_anew(&mut self)
        ensures none { self.new.copies.place.copies ≡ 0 }
        ensures looks { self.new.painter.looks ≡ self.old.painter.looks }
        ensures marked { self.new.painter.marked ≡ self.old.painter.marked }
        ensures begun { self.new.painter.begun ≡ self.new.painter.looks }
        ensures work { self.new.painter.work ≡ 0 }
    {
        self.copies = Copies::new(1, 1, 0);
        self.painter.start();
    }

    /// Begins to put out copies of a label with the fields of a format.
    pub fn begin(&mut self, copies: u32, format: &mut Format<A>, view: View)
        requires some { 0 < copies }
        requires kept { AreKept format.old.stored format.old.fields.items }
        requires wide { 0 < view.width }
        requires narrow { view.width ≤ WIDEST }
        requires high { 0 < view.height }
        requires low { view.height ≤ LONGEST }
        ensures press { (sheets : Given) →
            IsPress sheets (held format.old.fields format.old.stored) view self.new }
        ensures looks { self.new.painter.looks ≡ self.old.painter.looks }
        ensures begun { self.new.painter.begun ≡ self.new.painter.looks }
        ensures marked { self.new.painter.marked ≡ self.old.painter.marked }
        ensures read { format.new ≡ record format.old {
          fields = record format.old.fields
              { read = format.old.fields.read + length format.old.fields.items };
        } }
        ensures work { self.new.painter.work ≡ 0 }
        ensures some { 0 < self.new.copies.place.copies }
        ensures left { (sheets : Given) → left sheets (held format.old.fields format.old.stored) view self.new
            ≡ copies_text (label_image sheets view format.old.stored format.old.fields.items) copies }
    {
        self.painter.thread(&mut format.fields, view);
        self.copies = Copies::new(view.width as u16, view.height as u16, copies);
    }

    /// Readies what the next byte wants: a copy begins with no band painted, or with its only one, and a band
    /// is painted before its first byte.
    fn prepare(&mut self, sheets: &Sheets<A>, fields: &mut Fields<A>, stored: &[u8], view: View)
        requires press { IsPress sheets.now (held fields.old stored.now) view self.old }
        requires some { 0 < self.old.copies.place.copies }
        ensures copies { self.new.copies ≡ self.old.copies }
        ensures painted { StandsPainted (press_image sheets.now (held fields.old stored.now) view self.new)
            (painted_before self.new.copies) self.new.band }
        ensures before { IsBefore sheets.now (held fields.old stored.now) view
            (painted_before self.new.copies) self.new.painter }
        ensures fields { fields.new.items ≡ fields.old.items }
        ensures read { IsReadied sheets.now (held fields.old stored.now) view self.old self.new
            fields.old.read fields.new.read }
        ensures stood { self.old.copies.painted ≡ 1 → view.height ≤ BAND_ROWS →
            (self.new ≡ self.old) × (fields.new ≡ fields.old) }
    {
        match self.copies.ahead() {
            Ahead::Nothing => {}
            Ahead::Copy => self.painter.start(),
            Ahead::Band(b) => self
                .painter
                .paint(b, sheets, fields, stored, view, &mut self.band),
        }
    }

    /// Puts out whole rows of a band or, where none come next or have room, bytes of one line.
    fn put_line(
        &mut self,
        sheets: &Sheets<A>,
        fields: &mut Fields<A>,
        stored: &[u8],
        view: View,
        out: &mut [u8],
    ) -> usize
        requires press { IsPress sheets.now (held fields.old stored.now) view self.old }
        requires some { 0 < self.old.copies.place.copies }
        requires room { 0 < length out.old }
        ensures press { IsPress sheets.now (held fields.old stored.now) view self.new }
        ensures some { 0 < result }
        ensures fits { result ≤ length out.old }
        ensures within { result ≤ length (left sheets.now (held fields.old stored.now) view self.old) }
        ensures bytes { out.new ≡ take result (left sheets.now (held fields.old stored.now) view self.old)
            ++ drop result out.old }
        ensures rest { left sheets.now (held fields.old stored.now) view self.new
            ≡ drop result (left sheets.now (held fields.old stored.now) view self.old) }
        ensures ended { IsBetween self.new.copies.place →
            IsBefore sheets.now (held fields.old stored.now) view (bands_of view) self.new.painter }
        ensures fields { fields.new.items ≡ fields.old.items }
        ensures read { IsReadTo sheets.now (held fields.old stored.now) view self.old self.new
            fields.old.read fields.new.read }
        ensures stood { HasStood view self.old self.new fields.old fields.new }
    {
        self.prepare(sheets, fields, stored, view);
        let n = self.copies.put_rows(&self.band, out);
        if n > 0 {
            return n;
        }
        self.copies.put_line(&self.band, out)
    }

    /// Puts out the next bytes, as many as there are and room is for, and answers how many.
    pub fn put(
        &mut self,
        sheets: &Sheets<A>,
        fields: &mut Fields<A>,
        stored: &[u8],
        view: View,
        out: &mut [u8],
    ) -> usize
        requires { IsPress sheets.now (held fields.old stored.now) view self.old }
        ensures press { IsPress sheets.now (held fields.old stored.now) view self.new }
        ensures count { result
            ≡ min (length (left sheets.now (held fields.old stored.now) view self.old)) (length out.old) }
        ensures bytes { out.new ≡ take result (left sheets.now (held fields.old stored.now) view self.old)
            ++ drop result out.old }
        ensures rest { left sheets.now (held fields.old stored.now) view self.new
            ≡ drop result (left sheets.now (held fields.old stored.now) view self.old) }
        ensures ended { 0 < result → IsBetween self.new.copies.place →
            IsBefore sheets.now (held fields.old stored.now) view (bands_of view) self.new.painter }
        ensures fields { fields.new.items ≡ fields.old.items }
        ensures read { IsReadTo sheets.now (held fields.old stored.now) view self.old self.new
            fields.old.read fields.new.read }
        ensures stood { HasStood view self.old self.new fields.old fields.new }
        ensures idle { result ≡ 0 → (self.new ≡ self.old) × (fields.new ≡ fields.old) }
    {
        let mut n = 0;
        while n < out.len() && self.copies.is_pending() {
            n += self.put_line(sheets, fields, stored, view, &mut out[n..]);
        }
        n
    }
}
