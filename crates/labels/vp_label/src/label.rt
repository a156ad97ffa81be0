//! The printer: what it stands after, and what is still to be put out.
ghost use Rattle.std.specs.Prelude.{◌≡◌, ◌<◌, ◌≤◌, ◌+◌, ◌*◌, ◌%◌, ◌^◌, ◌++◌, ◌↔◌, ◌⊎◌, ◌∷◌, [], List, ℕ, true, IsTrue, IfOk, IsOk, OnOk, OnErr, MatchResult, None, Some, length, min, take, drop};
ghost use Rattle.vp_glyph.specs.Sheets.{Sheets as Given_sheets};
ghost use Rattle.vp_zpl.specs.Items.{Item, data_items};
ghost use Rattle.vp_zpl.specs.Items.Item.{Given};
ghost use Rattle.vp_zpl.specs.Shown.{shown_item};
ghost use Rattle.vp_zpl.specs.Spelling.{Kept};
ghost use Rattle.vp_zpl.specs.declared.name.Name.{Name};
ghost use Rattle.vp_label_settings.specs.Formats.{followed_by};
ghost use Rattle.vp_label.specs.Memory.{label_memory};
ghost use Rattle.vp_label.specs.Held.{band_rows_after, fields_after, stored_after};
ghost use Rattle.vp_label_size.specs.declared.TheConstants.{BAND_ROWS};
ghost use Rattle.vp_format.specs.declared.format.TheConstants.{FIELDS, STORED};
ghost use Rattle.vp_bands.specs.Standing.{looks_since};
ghost use Rattle.vp_label.specs.Gathered.{Gathers, IsPrinted, data_room, held_of};
ghost use Rattle.vp_label.specs.Press.{IsReadTo};
ghost use Rattle.vp_label.specs.Prints.{all_print, is_at_rest, prints, view_of as seen};
ghost use Rattle.vp_label.specs.Refusals.{first_refusal, refusal};
ghost use Rattle.vp_label.specs.Standing.{bands, met, painting, shown, AreCopies, Stands};
ghost use Rattle.vp_label.specs.Work.{most_work, least_work};

use crate::gathered::Gathered;
use crate::press::Press;
use std::alloc::{AllocError, Global};
use std::marker::Model;
use vp_bands::{looks_bounded, work_bounded};
use vp_copies::{pending_law, place_law};
use vp_dots::{Fault, Small};
use vp_field::View;
use vp_glyph::Sheets;
use vp_label_settings::Settings;
use vp_label_settings::laws::in_range;
use vp_zpl::{Command, ZplItem};

/// A label printer. What an item prints is pending until it is put out.
pub struct Label<A: Small = Global> {
    sheets: Sheets<A>,
    gathered: Gathered<A>,
    press: Press<A>,
}

/// Its memory is given back here, whoever held it.
impl<A: Small> Drop for Label<A> {
    fn drop(self) {
        let Label {
            sheets: _,
            gathered: _,
            press: _,
        } = self;
    }
}

impl<A: Small> Model for Label<A> {
    ghost use Rattle.vp_label.specs.Standing.{Printing};

    ghost Value = { Printing A };

    ghost use Rattle.vp_label.specs.Printing.{printing_of, IsLabel};

    ghost view = { printing_of };

    ghost invariant = { IsLabel };
}

/// How a label is put out.
fn view_of(settings: &Settings) -> View
    ensures { result ≡ seen settings.now }
{
    View {
        width: u32::from(settings.print_width),
        height: u32::from(settings.label_length),
        inverted: settings.is_inverted,
        mirrored: settings.is_mirrored,
    }
}

impl<A: Small> Label<A> {
    /// One that stands after no items, with these sheets for its font.
    pub fn new(alloc: A, sheets: Sheets<A>) -> Result<Self, AllocError>
    where
        A: Copy,
        ensures stands { IfOk result (λ label. Stands sheets label []) }
        ensures pending { IfOk result (λ label. label.pending ≡ []) }
        ensures looks { IfOk result (λ label. label.press.painter.looks ≡ 0) }
        ensures work { IfOk result (λ label. label.press.painter.work ≡ 0) }
    {
        Ok(Label {
            sheets,
            gathered: Gathered::new(alloc)?,
            press: Press::new(alloc)?,
        })
    }

    /// Begins anew: it stands after no items, with its sheets. What was read so far stays counted.
    pub fn begin_anew(&mut self)
        ensures stands { (sheets : Given_sheets) (before : List Item) → Stands sheets self.old before →
            Stands sheets self.new [] }
        ensures pending { self.new.pending ≡ [] }
        ensures sheets { self.new.sheets ≡ self.old.sheets }
        ensures looks { self.new.press.painter.looks ≡ self.old.press.painter.looks }
        ensures marked { self.new.press.painter.marked ≡ self.old.press.painter.marked }
        ensures fields { self.new.gathered.format.fields.read
            ≡ self.old.gathered.format.fields.read }
        ensures begun { looks_since self.new.press.painter ≡ 0 }
        ensures work { self.new.press.painter.work ≡ 0 }
    {
        self.gathered.begin_anew();
        self.press.begin_anew();
    }

    /// Prints an item: what it prints is then pending. A refused one changes nothing.
    pub fn apply(&mut self, item: ZplItem) -> Result<(), Fault>
        requires { self.old.pending ≡ [] }
        ensures refusal { (sheets : Given_sheets) (before : List Item) → Stands sheets self.old before →
            MatchResult result (λ _. first_refusal sheets before (shown_item item.entry) ≡ None)
            (λ f. first_refusal sheets before (shown_item item.entry) ≡ Some f) }
        ensures stands { OnOk result ((sheets : Given_sheets) (before : List Item) →
            Stands sheets self.old before →
            Stands sheets self.new (followed_by before (shown_item item.entry))) }
        ensures pending { OnOk result ((sheets : Given_sheets) (before : List Item) →
            Stands sheets self.old before →
            self.new.pending ≡ all_print sheets before (shown_item item.entry)) }
        ensures looks { OnOk result (self.new.press.painter.looks ≡ self.old.press.painter.looks) }
        ensures marked { OnOk result (self.new.press.painter.marked ≡ self.old.press.painter.marked) }
        ensures fields { OnOk result (self.new.gathered.format.fields.read
            ≤ self.old.gathered.format.fields.read + length self.new.gathered.format.fields.items) }
        ensures begun { OnOk result (0 < length self.new.pending →
            looks_since self.new.press.painter ≡ 0) }
        ensures work { OnOk result (0 < length self.new.pending → self.new.press.painter.work ≡ 0) }
        ensures idle { OnOk result (self.new.pending ≡ [] →
            self.new.press.painter.begun ≡ self.old.press.painter.begun) }
        ensures idle_work { OnOk result (self.new.pending ≡ [] →
            self.new.press.painter.work ≡ self.old.press.painter.work) }
        ensures err { OnErr result (self.new ≡ self.old) }
    {
        match item {
            ZplItem::Command(sent) => self.obey(sent.command),
            ZplItem::Data(bytes) => self.store(bytes.as_slice()),
        }
    }

    /// How many bytes of data, at least, are taken as things stand.
    pub fn data_room(&self) -> usize
        ensures value { result ≡ data_room self.now.gathered }
        ensures room { (sheets : Given_sheets) (before : List Item) → Stands sheets self.now before →
            (bytes : List ℕ) → length bytes ≤ result → first_refusal sheets before (data_items bytes) ≡ None }
    {
        self.gathered.data_room()
    }

    /// Takes data that there is room for.
    pub fn apply_data(&mut self, bytes: &[u8])
        requires pending { self.old.pending ≡ [] }
        requires room { length bytes.now ≤ data_room self.old.gathered }
        ensures stands { (sheets : Given_sheets) (before : List Item) → Stands sheets self.old before →
            Stands sheets self.new (followed_by before (data_items bytes.now)) }
        ensures pending { self.new.pending ≡ [] }
        ensures idle { self.new.press ≡ self.old.press }
    {
        let Ok(()) = self.store(bytes) else {
            unreachable!()
        };
    }

    /// Takes data, where there is room for them.
    fn store(&mut self, bytes: &[u8]) -> Result<(), Fault>
        requires { self.old.pending ≡ [] }
        ensures refusal { (sheets : Given_sheets) (before : List Item) →
            Gathers sheets self.old.gathered before →
            MatchResult result (λ _. first_refusal sheets before (data_items bytes.now) ≡ None)
            (λ f. first_refusal sheets before (data_items bytes.now) ≡ Some f) }
        ensures stands { OnOk result ((sheets : Given_sheets) (before : List Item) →
            Gathers sheets self.old.gathered before →
            Gathers sheets self.new.gathered (followed_by before (data_items bytes.now))) }
        ensures sheets { self.new.sheets ≡ self.old.sheets }
        ensures pending { OnOk result (self.new.pending ≡ []) }
        ensures idle { OnOk result (self.new.press ≡ self.old.press) }
        ensures fields { OnOk result (self.new.gathered.format.fields ≡ self.old.gathered.format.fields) }
        ensures room { length bytes.now ≤ data_room self.old.gathered → IsOk result }
        ensures err { OnErr result (self.new ≡ self.old) }
    {
        pending_law();
        self.gathered.store(bytes)
    }

    /// Takes a command.
    fn obey(&mut self, command: Command) -> Result<(), Fault>
        requires { self.old.pending ≡ [] }
        ensures refusal { (before : List Item) (name : Name) (sent : List Kept) →
            Gathers self.old.sheets self.old.gathered before →
            MatchResult result (λ _. refusal self.old.sheets before (Given command name sent) ≡ None)
            (λ f. refusal self.old.sheets before (Given command name sent) ≡ Some f) }
        ensures stands { OnOk result ((before : List Item) (name : Name) (sent : List Kept) →
            Gathers self.old.sheets self.old.gathered before →
            Gathers self.new.sheets self.new.gathered (Given command name sent ∷ before)) }
        ensures sheets { self.new.sheets ≡ self.old.sheets }
        ensures pending { OnOk result ((before : List Item) (name : Name) (sent : List Kept) →
            Gathers self.old.sheets self.old.gathered before →
            self.new.pending ≡ prints self.old.sheets before (Given command name sent)) }
        ensures printed { OnOk result ((before : List Item) →
            Gathers self.old.sheets self.old.gathered before →
            0 < length self.new.pending → IsPrinted self.old.sheets self.new.gathered before) }
        ensures looks { OnOk result (self.new.press.painter.looks ≡ self.old.press.painter.looks) }
        ensures marked { OnOk result (self.new.press.painter.marked ≡ self.old.press.painter.marked) }
        ensures fields { OnOk result (self.new.gathered.format.fields.read
            ≤ self.old.gathered.format.fields.read + length self.new.gathered.format.fields.items) }
        ensures begun { OnOk result (0 < length self.new.pending →
            looks_since self.new.press.painter ≡ 0) }
        ensures work { OnOk result (0 < length self.new.pending → self.new.press.painter.work ≡ 0) }
        ensures idle { OnOk result (self.new.pending ≡ [] →
            self.new.press.painter.begun ≡ self.old.press.painter.begun) }
        ensures idle_work { OnOk result (self.new.pending ≡ [] →
            self.new.press.painter.work ≡ self.old.press.painter.work) }
        ensures err { OnErr result (self.new ≡ self.old) }
    {
        pending_law();
        let copies = match self.gathered.obey(command, &self.sheets) {
            Ok(copies) => copies,
            Err(fault) => return Err(fault),
        };
        if copies == 0 {
            return Ok(());
        }
        in_range();
        let view = view_of(&self.gathered.in_force.settings);
        self.press.begin(copies, &mut self.gathered.format, view);
        Ok(())
    }

    /// Whether anything is still to be put out.
    pub fn pending(&self) -> bool
        ensures { IsTrue result ↔ (0 < length self.now.pending) }
    {
        self.press.copies.is_pending()
    }

    /// Puts out what is pending, as far as there is room.
    pub fn put(&mut self, out: &mut [u8]) -> usize
        ensures count { result ≡ min (length self.old.pending) (length out.old) }
        ensures bytes { out.new ≡ take result self.old.pending ++ drop result out.old }
        ensures rest { self.new.pending ≡ drop result self.old.pending }
        ensures stands { (sheets : Given_sheets) (before : List Item) → Stands sheets self.old before →
            Stands sheets self.new before }
        ensures at_most { 0 < length self.old.pending →
            looks_since self.new.press.painter ≤ bands self.old + 2 * met self.old }
        ensures at_least { 0 < result → AreCopies self.old self.new.pending →
            met self.old ≤ looks_since self.new.press.painter }
        ensures read { IsReadTo self.old.sheets (held_of self.old.gathered)
            (seen self.old.gathered.in_force.settings) self.old.press self.new.press
            self.old.gathered.format.fields.read self.new.gathered.format.fields.read }
        ensures work { 0 < length self.old.pending → self.new.press.painter.work ≤ painting self.old }
        ensures shown { 0 < result → AreCopies self.old self.new.pending →
            shown self.old ≤ self.new.press.painter.work }
        ensures stood { bands self.old ≡ 1 → self.old.press.copies.painted ≡ 1 →
            (self.new.press.painter ≡ self.old.press.painter) × (self.new.press.copies.painted ≡ 1) }
        ensures idle { result ≡ 0 → self.new.press ≡ self.old.press }
    {
        if !self.press.copies.is_pending() {
            return 0;
        }
        looks_bounded();
        work_bounded();
        place_law();
        let view = view_of(&self.gathered.in_force.settings);
        let format = &mut self.gathered.format;
        self.press.put(
            &self.sheets,
            &mut format.fields,
            format.stored.bytes(),
            view,
            out,
        )
    }

    /// Whether no format is open.
    pub fn at_rest(&self) -> bool
        ensures { (sheets : Given_sheets) (before : List Item) → Stands sheets self.now before →
            IsTrue result ↔ (is_at_rest before ≡ true) }
    {
        !self.gathered.in_force.is_open
    }

    /// Whether a format is held: one is open, or bytes of one are still to be put out.
    fn holds_format(&self) -> bool
        ensures { IsTrue result ↔
            ((self.now.gathered.in_force.is_open ≡ true) ⊎ (0 < length self.now.pending)) }
    {
        self.gathered.in_force.is_open || self.press.copies.is_pending()
    }

    /// The rows of the band of which the next byte is put out: none where that is in a header, or nothing is
    /// pending.
    pub fn band_rows(&self) -> u16
        ensures value { (sheets : Given_sheets) (before : List Item) → Stands sheets self.now before →
            result ≡ band_rows_after sheets before self.now.pending }
        ensures most { result ≤ BAND_ROWS }
    {
        if !self.press.copies.is_pending() {
            return 0;
        }
        place_law();
        self.press.copies.band_rows() as u16
    }

    /// The stored bytes of the format that is open, or of which bytes are still to be put out.
    pub fn stored(&self) -> u32
        ensures value { (sheets : Given_sheets) (before : List Item) → Stands sheets self.now before →
            result ≡ stored_after before self.now.pending }
        ensures most { result ≤ STORED }
    {
        if !self.holds_format() {
            return 0;
        }
        self.gathered.format.stored().len() as u32
    }

    /// Its fields.
    pub fn fields(&self) -> u16
        ensures value { (sheets : Given_sheets) (before : List Item) → Stands sheets self.now before →
            result ≡ fields_after sheets before self.now.pending }
        ensures most { result ≤ FIELDS }
    {
        if !self.holds_format() {
            return 0;
        }
        self.gathered.format.len() as u16
    }

    /// How often an entry of the table of fields or a link was read for the copy that is put out, or for the
    /// first of a label of one band, which stands for the others.
    pub fn visits(&self) -> u64
        ensures { result ≡ looks_since self.now.press.painter % 2 ^ 64 }
    {
        self.press.painter.looks()
    }

    /// What painting took for the copy that is put out, or for the first of a label of one band, which stands
    /// for the others: how many bytes of pictures' codes were read, how many of their rows passed or painted,
    /// and how many lines of ink drawn for all other fields, and cells and characters of these.
    pub fn work(&self) -> u64
        ensures value { result ≡ self.now.press.painter.work }
        ensures at_most { (sheets : Given_sheets) (before : List Item) → Stands sheets self.now before →
            result ≤ most_work sheets before }
        ensures at_least { (sheets : Given_sheets) (before : List Item) → Stands sheets self.now before →
            self.now.pending ≡ [] → least_work sheets before ≤ result }
    {
        self.press.painter.work()
    }

    /// The bytes of memory that it holds, on the heap.
    pub fn memory(&self) -> usize
        ensures { result ≡ label_memory self.now.sheets }
    {
        let Press { painter, band, .. } = &self.press;
        self.gathered.format.memory() + painter.memory() + band.memory() + self.sheets.memory()
    }
}
