//! The printer: what it stands after, and what is still to be put out.
ghost use Rattle.std.specs.List.{AllByRecursion};
ghost use Rattle.vp_esc.specs.Reader.{is_text};
ghost use Rattle.vp_receipt_settings.specs.Runs.{text_room, text_after, stored_after, raster_run};
ghost use Rattle.vp_strips.specs.SymbolInks.{is_symbol};
ghost use Rattle.std.specs.Prelude.{◌≡◌, ◌≤◌, ◌<◌, ◌+◌, ◌∷◌, ◌++◌, ◌↔◌, List, [], IsTrue, Some, None, IfOk, MatchResult, OnOk, OnErr, length, min, take, drop, true, unwrap_or};
ghost use Rattle.vp_esc.specs.declared.item.EscItem.{EscItem};
ghost use Rattle.vp_glyph.specs.Sheets.{Sheets};
ghost use Rattle.vp_receipt_settings.specs.declared.raster.Raster.{Raster};
ghost use Rattle.vp_receipt_settings.specs.Setup.{Setup};
ghost use Rattle.vp_receipt_settings.specs.Line.{is_open, line, mode};
ghost use Rattle.vp_receipt_settings.specs.Rasters.{bytes_after};
ghost use Rattle.vp_page.specs.declared.page.TheConstants.{PAGE_ROWS};
ghost use Rattle.vp_receipt_settings.specs.declared.text.TheConstants.{LINE_ROWS};
ghost use Rattle.vp_receipt.specs.Strips.{prints, printed, refusal, is_at_rest, line_rows_after, page_rows_after};
ghost use Rattle.vp_receipt.specs.Standing.{Stands, IsActing};
ghost use Rattle.vp_receipt.specs.Work.{most_work, least_work};
ghost use Rattle.vp_page.specs.Layers.{CountedAnew};
ghost use Rattle.vp_page.specs.Pages.{HasPage};
ghost use Rattle.vp_page.specs.Work.{MOST};
ghost use Rattle.vp_receipt_settings.specs.declared.page_mode.PrinterMode.{PrinterMode};
ghost use Rattle.vp_receipt_settings.specs.declared.effect.Effect.{Effect};
ghost use Rattle.vp_receipt.specs.Memory.{receipt_memory};
ghost use Rattle.vp_receipt.specs.Plain.{rows_room, rows_put};
ghost use Rattle.vp_receipt_settings.specs.Effects.{effect_of};
ghost use Rattle.vp_receipt_settings.specs.Gathering.{run_of};

use crate::act::{act, act_on_row, draw, prints_page, put_text, settle};
use crate::drawn::drawn;
use crate::raster_page::take_run;
use crate::raster_paper::{is_plain, plain_room, put_plain};
use std::alloc::{AllocError, Global};
use std::marker::Model;
use vp_dots::{Fault, Small};
use vp_esc::item::EscItem;
use vp_glyph::Sheets;
use vp_page::{PAGE_ROWS, PAPER_BYTES, Page};
use vp_receipt_settings::{
    Effect, Kept, PrinterMode, Raster, Settings, Stored, Width, first_stops, times_down,
};
use vp_strips::{Bitmap, Canvas, Job, Lines, Symbol};

/// A receipt printer. What an item prints is pending until it is put out.
pub struct Receipt<A: Small = Global> {
    settings: Settings,
    kept: Kept,
    canvas: Canvas<A>,
    /// The line that is being put out.
    lines: Lines,
    /// A character that broke the line, and is put into the next one once that line is printed.
    waiting: Option<u8>,
    job: Job,
    /// Whether what is pending is of a page.
    of_page: bool,
}

/// Its memory is given back here, whoever held it.
impl<A: Small> Drop for Receipt<A> {
    fn drop(self) {
        let Receipt {
            settings: _,
            kept: _,
            canvas: _,
            lines: _,
            waiting: _,
            job: _,
            of_page: _,
        } = self;
    }
}

impl<A: Small> Model for Receipt<A> {
    ghost use Rattle.vp_receipt.specs.Standing.{Printing};

    ghost Value = { Printing };

    ghost use Rattle.vp_receipt.specs.Printer.{printing_of, IsPrinter};

    ghost view = { printing_of };

    ghost invariant = { IsPrinter };
}

/// Puts what is printed in the place of a job that is done.
#[inline(always)]
fn replace(job: &mut Job, printed: Option<Job>)
    ensures { job.new ≡ unwrap_or printed job.old }
{
    if let Some(printed) = printed {
        *job = printed;
    }
}

impl<A: Small + Copy> Receipt<A> {
    /// One that stands after no items, with these sheets for its fonts, on paper of this width.
    pub fn new(alloc: A, sheets: Sheets<A>, width: Width) -> Result<Self, AllocError>
        ensures stands { IfOk result (λ r. Stands (record { width = width; sheets = sheets }) r []) }
        ensures pending { IfOk result (λ r. r.pending ≡ []) }
    {
        let bitmap = Bitmap::new(alloc)?;
        let page = Page::new(alloc)?;
        Ok(Receipt {
            settings: Settings::start(width),
            kept: Kept {
                stops: first_stops(),
                raster: Raster::none(),
                stored: Stored::none(),
            },
            canvas: Canvas {
                sheets,
                bitmap,
                raster_row: [0; PAPER_BYTES],
                symbol: Symbol::Blank,
                page,
            },
            lines: Lines::none(),
            waiting: None,
            job: Job::none(),
            of_page: false,
        })
    }
}

impl<A: Small> Receipt<A> {
    /// Begins anew: it stands after no items, with its sheets, on its paper. A page that was laid on is made
    /// white.
    pub fn begin_anew(&mut self)
        ensures stands { (setup : Setup) (before : List EscItem) → Stands setup self.old before →
            Stands setup self.new [] }
        ensures pending { self.new.pending ≡ [] }
        ensures sheets { self.new.sheets ≡ self.old.sheets }
        ensures page { HasPage (CountedAnew ∷ []) self.new.page }
    {
        self.kept.take(&EscItem::Initialize, self.settings.text);
        self.settings = Settings::start(self.settings.paper);
        self.canvas.page.clear();
        self.canvas.page.count_anew();
        self.waiting = None;
        self.job = Job::none();
        self.of_page = false;
    }

    /// Prints an item: what it prints is then pending. A refused one changes nothing.
    #[inline(always)]
    pub fn apply(&mut self, item: &EscItem) -> Result<(), Fault>
        requires { self.old.pending ≡ [] }
        ensures refusal { (setup : Setup) (before : List EscItem) → Stands setup self.old before →
            MatchResult result (λ _. refusal setup before item.now ≡ None)
            (λ f. refusal setup before item.now ≡ Some f) }
        ensures stands { OnOk result ((setup : Setup) (before : List EscItem) →
            Stands setup self.old before → Stands setup self.new (item.now ∷ before)) }
        ensures pending { OnOk result ((setup : Setup) (before : List EscItem) →
            Stands setup self.old before → self.new.pending ≡ prints setup before item.now) }
        ensures err { OnErr result (self.new ≡ self.old) }
    {
        let effect = self.settings.effect(item);
        match effect {
            Effect::Nothing => {
                self.kept.take(item, self.settings.text);
                Ok(())
            }
            Effect::Sets => {
                self.set(item);
                Ok(())
            }
            Effect::Fills(byte) => {
                self.fill(byte);
                Ok(())
            }
            Effect::Draws => self.draw(item),
            _ => {
                self.act(item, effect);
                Ok(())
            }
        }
    }

    /// Sets what an item sets: what is put into the line stays as it is.
    #[inline(always)]
    fn set(&mut self, item: &EscItem)
        requires pending { self.old.pending ≡ [] }
        requires effect { effect_of self.old.settings item.now ≡ Effect.Sets }
        ensures stands { (setup : Setup) (before : List EscItem) → Stands setup self.old before →
            Stands setup self.new (item.now ∷ before) }
        ensures pending { (setup : Setup) (before : List EscItem) → Stands setup self.old before →
            self.new.pending ≡ prints setup before item.now }
    {
        settle(
            &self.settings,
            self.waiting,
            &self.canvas.sheets,
            &mut self.canvas.bitmap,
        );
        self.waiting = None;
        let text = self.settings.text;
        let stops = self.kept.stops.as_slice();
        self.settings = self.settings.after(item, Effect::Sets, stops, 0);
        self.kept.take(item, text);
    }

    /// Takes a byte of a raster. One that ends a row prints it, or lays it on the page.
    #[inline(always)]
    fn fill(&mut self, byte: u8)
        requires { self.old.pending ≡ [] }
        ensures stands { (setup : Setup) (before : List EscItem) → Stands setup self.old before →
            Stands setup self.new (EscItem.RasterByte byte ∷ before) }
        ensures pending { (setup : Setup) (before : List EscItem) → Stands setup self.old before →
            self.new.pending ≡ prints setup before (EscItem.RasterByte byte) }
    {
        if self.kept.raster.take(byte) {
            self.job = act_on_row(&self.settings, &self.kept.raster, &mut self.canvas);
            self.of_page = false;
            self.settings = self.settings.after_row(times_down(self.kept.raster.scale));
        }
    }

    /// Does what an item does to the line and the page, and sets what it sets.
    #[inline(always)]
    fn act(&mut self, item: &EscItem, effect: Effect)
        requires pending { self.old.pending ≡ [] }
        requires effect { effect ≡ effect_of self.old.settings item.now }
        requires acts { IsActing item.now }
        ensures stands { (setup : Setup) (before : List EscItem) → Stands setup self.old before →
            Stands setup self.new (item.now ∷ before) }
        ensures pending { (setup : Setup) (before : List EscItem) → Stands setup self.old before →
            self.new.pending ≡ prints setup before item.now }
    {
        settle(
            &self.settings,
            self.waiting,
            &self.canvas.sheets,
            &mut self.canvas.bitmap,
        );
        let job = act(&self.settings, effect, &mut self.canvas);
        replace(&mut self.job, job);
        self.waiting = effect.waiting();
        self.of_page = prints_page(&self.settings, effect);
        let text = self.settings.text;
        let stops = self.kept.stops.as_slice();
        self.settings = self.settings.after(item, effect, stops, 0);
        self.kept.take(item, text);
    }

    /// Draws a symbol.
    fn draw(&mut self, item: &EscItem) -> Result<(), Fault>
        requires pending { self.old.pending ≡ [] }
        requires symbol { is_symbol item.now ≡ true }
        ensures refusal { (setup : Setup) (before : List EscItem) → Stands setup self.old before →
            MatchResult result (λ _. refusal setup before item.now ≡ None)
            (λ f. refusal setup before item.now ≡ Some f) }
        ensures stands { OnOk result ((setup : Setup) (before : List EscItem) →
            Stands setup self.old before → Stands setup self.new (item.now ∷ before)) }
        ensures pending { OnOk result ((setup : Setup) (before : List EscItem) →
            Stands setup self.old before → self.new.pending ≡ prints setup before item.now) }
        ensures err { OnErr result (self.new ≡ self.old) }
    {
        let symbol = drawn(&self.settings, item, &self.kept.stored, &self.canvas.sheets)?;
        settle(
            &self.settings,
            self.waiting,
            &self.canvas.sheets,
            &mut self.canvas.bitmap,
        );
        let (wide, high) = symbol.size(&self.canvas.sheets);
        self.job = draw(&self.settings, symbol, wide, high, &mut self.canvas);
        self.waiting = None;
        self.of_page = false;
        let text = self.settings.text;
        let stops = self.kept.stops.as_slice();
        self.settings = self.settings.after(item, Effect::Draws, stops, high);
        self.kept.take(item, text);
        Ok(())
    }

    /// How many characters go into the line before one could break it.
    pub fn text_room(&self) -> usize
        ensures { result ≡ text_room self.now.settings }
    {
        usize::from(self.settings.text_room())
    }

    /// Takes text that there is room for in the line: it prints nothing.
    pub fn apply_text(&mut self, text: &[u8])
        requires pending { self.old.pending ≡ [] }
        requires text { AllByRecursion (λ b. is_text b ≡ true) text.now }
        requires room { length text.now ≤ text_room self.old.settings }
        ensures prints { (setup : Setup) (before : List EscItem) → Stands setup self.old before →
            printed setup (text_after text.now before) ≡ printed setup before }
        ensures stands { (setup : Setup) (before : List EscItem) → Stands setup self.old before →
            Stands setup self.new (text_after text.now before) }
        ensures pending { self.new.pending ≡ [] }
    {
        if text.is_empty() {
            return;
        }
        let bitmap = &mut self.canvas.bitmap;
        settle(&self.settings, self.waiting, &self.canvas.sheets, bitmap);
        put_text(&mut self.settings, text, &self.canvas.sheets, bitmap);
        self.waiting = None;
        self.kept.raster.end();
    }

    /// Takes bytes that are stored for a QR symbol: they print nothing.
    pub fn apply_stored(&mut self, bytes: &[u8])
        requires { self.old.pending ≡ [] }
        ensures prints { (setup : Setup) (before : List EscItem) → Stands setup self.old before →
            printed setup (stored_after bytes.now before) ≡ printed setup before }
        ensures stands { (setup : Setup) (before : List EscItem) → Stands setup self.old before →
            Stands setup self.new (stored_after bytes.now before) }
        ensures pending { self.new.pending ≡ [] }
    {
        if bytes.is_empty() {
            return;
        }
        self.kept.raster.end();
        self.kept.stored.take_all(bytes);
    }

    /// How many bytes of a raster come before one that prints: in standard mode that is the one that ends the
    /// row; in page mode there is none, and it is how many have not come.
    pub fn raster_room(&self) -> usize
        ensures value { result ≡ run_of self.now.settings.page.mode self.now.raster }
        ensures comes { (setup : Setup) (before : List EscItem) → Stands setup self.now before →
            result ≡ raster_run (mode setup before) before }
    {
        match self.settings.page.mode {
            PrinterMode::Standard => usize::from(self.kept.raster.room()),
            PrinterMode::Page => self.kept.raster.left(),
        }
    }

    /// Takes bytes of a raster that there is room for: they print nothing.
    pub fn apply_raster(&mut self, bytes: &[u8])
        requires pending { self.old.pending ≡ [] }
        requires few { length bytes.now ≤ run_of self.old.settings.page.mode self.old.raster }
        ensures prints { (setup : Setup) (before : List EscItem) → Stands setup self.old before →
            printed setup (bytes_after bytes.now before) ≡ printed setup before }
        ensures stands { (setup : Setup) (before : List EscItem) → Stands setup self.old before →
            Stands setup self.new (bytes_after bytes.now before) }
        ensures pending { self.new.pending ≡ [] }
    {
        match self.settings.page.mode {
            PrinterMode::Standard => self.kept.raster.take_all(bytes),
            PrinterMode::Page => {
                let page = &mut self.canvas.page;
                take_run(&mut self.settings, &mut self.kept.raster, bytes, page);
                self.job = Job::none();
            }
        }
    }

    /// How many bytes of a raster are taken in one run where `output` bytes can be put out.
    pub fn rows_room(&self, output: usize) -> usize
        ensures { result ≡ rows_room self.now.settings self.now.raster output }
    {
        if is_plain(&self.settings, &self.kept.raster) {
            return plain_room(&self.kept.raster, output);
        }
        self.raster_room()
    }

    /// Takes bytes of a raster that there is room for, puts out all that they print, and answers how much:
    /// rows that are printed as they come are copied.
    pub fn put_rows(&mut self, bytes: &[u8], output: &mut [u8]) -> usize
        requires pending { self.old.pending ≡ [] }
        requires few { length bytes.now ≤ rows_room self.old.settings self.old.raster (length output.old) }
        ensures count { result ≡ rows_put self.old.settings self.old.raster (length bytes.now) }
        ensures within { result ≤ length bytes.now }
        ensures fits { result ≤ length output.old }
        ensures bytes { output.new ≡ take result bytes.now ++ drop result output.old }
        ensures prints { (setup : Setup) (before : List EscItem) → Stands setup self.old before →
            printed setup (bytes_after bytes.now before) ≡
            printed setup before ++ take result bytes.now }
        ensures stands { (setup : Setup) (before : List EscItem) → Stands setup self.old before →
            Stands setup self.new (bytes_after bytes.now before) }
        ensures pending { self.new.pending ≡ [] }
    {
        if is_plain(&self.settings, &self.kept.raster) {
            return put_plain(&mut self.settings, &mut self.kept.raster, bytes, output);
        }
        self.apply_raster(bytes);
        0
    }

    /// Whether anything is still to be put out.
    pub fn pending(&self) -> bool
        ensures { IsTrue result ↔ (0 < length self.now.pending) }
    {
        self.job.is_pending()
    }

    /// Puts out what is pending, as far as there is room.
    pub fn put(&mut self, output: &mut [u8]) -> usize
        ensures count { result ≡ min (length self.old.pending) (length output.old) }
        ensures bytes { output.new ≡ take result self.old.pending ++ drop result output.old }
        ensures rest { self.new.pending ≡ drop result self.old.pending }
        ensures stands { (setup : Setup) (before : List EscItem) → Stands setup self.old before →
            Stands setup self.new before }
    {
        self.job.put(&self.canvas, &mut self.lines, output)
    }

    /// Whether the mode is standard, and no line open.
    pub fn at_rest(&self) -> bool
        ensures { (setup : Setup) (before : List EscItem) → Stands setup self.now before →
            IsTrue result ↔ (is_at_rest setup before ≡ true) }
    {
        !self.settings.page.is_paged() && !self.settings.is_open
    }

    /// The height of the line of whose strip bytes are still to be put out, else of the line that is
    /// gathered.
    pub fn line_rows(&self) -> u16
        ensures value { (setup : Setup) (before : List EscItem) → Stands setup self.now before →
            result ≡ line_rows_after setup before self.now.pending }
        ensures most { result ≤ LINE_ROWS }
    {
        self.job.line_rows().unwrap_or(self.settings.height)
    }

    /// How many rows of dots the last item that ended the line of a page laid on it, with the rows of a
    /// raster that came behind it, and how many rows and columns it made white; and before such an item,
    /// ESC L.
    pub fn work(&self) -> u64
        ensures value { result ≡ min (self.now.page.laid + self.now.page.wiped) MOST }
        ensures at_most { (setup : Setup) (before : List EscItem) → Stands setup self.now before →
            mode setup before ≡ PrinterMode.Page → result ≤ most_work setup before }
        ensures at_least { (setup : Setup) (before : List EscItem) → Stands setup self.now before →
            mode setup before ≡ PrinterMode.Page → min (least_work setup before) MOST ≤ result }
    {
        let page = &self.canvas.page;
        page.rows_laid().saturating_add(page.rows_wiped())
    }

    /// The rows of the page that is held: all of them in page mode and while bytes of a page are still to be
    /// put out, else none.
    pub fn page_rows(&self) -> u16
        ensures value { (setup : Setup) (before : List EscItem) → Stands setup self.now before →
            result ≡ page_rows_after setup before self.now.pending }
        ensures most { result ≤ PAGE_ROWS }
    {
        if self.settings.page.is_paged() || (self.of_page && self.pending()) {
            PAGE_ROWS as u16
        } else {
            0
        }
    }

    /// The bytes of memory that it holds, on the heap.
    pub fn memory(&self) -> usize
        ensures { result ≡ receipt_memory self.now.sheets }
    {
        let Canvas {
            sheets,
            bitmap,
            page,
            ..
        } = &self.canvas;
        bitmap.memory() + page.memory() + sheets.memory()
    }
}
