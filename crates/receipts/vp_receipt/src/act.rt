//! What an item prints, and lays on the page.
ghost use Rattle.std.specs.List.{AllByRecursion};
ghost use Rattle.vp_esc.specs.Reader.{is_text};
ghost use Rattle.vp_receipt_settings.specs.Runs.{text_room, text_after};
ghost use Rattle.std.specs.Prelude.{◌≡◌, ◌≤◌, ◌<◌, ◌+◌, ◌-◌, ◌*◌, ◌∷◌, ◌++◌, List, ℕ, Bool, ◌&&◌, length, true, None, Some, IfSome, take, slice_index};
ghost use Rattle.vp_esc.specs.declared.item.EscItem.{EscItem};
ghost use Rattle.vp_glyph.specs.Cells.{cell_width, cell_height, cell_dot};
ghost use Rattle.vp_glyph.specs.Sheets.{Sheets};
ghost use Rattle.vp_receipt_settings.specs.declared.text.TheConstants.{LINE_ROWS};
ghost use Rattle.vp_strips.specs.Canvases.{canvas_of, Canvas as TheCanvas};
ghost use Rattle.vp_page.specs.declared.line.TheConstants.{LINE_BYTES, LINE_DOTS};
ghost use Rattle.vp_strips.specs.declared.job.After.{After};
ghost use Rattle.vp_strips.specs.declared.lines.Lines.{Lines};
ghost use Rattle.vp_receipt_settings.specs.Setup.{Setup};
ghost use Rattle.vp_receipt_settings.specs.Line.{height, is_open, line, mode, Placed};
ghost use Rattle.vp_receipt_settings.specs.Settings.{settings_of, IsFit};
ghost use Rattle.vp_page.specs.Layers.{Layer, Laid};
ghost use Rattle.vp_page.specs.Pages.{HasPage, IsShown};
ghost use Rattle.vp_receipt.specs.PageMarks.{HasRows, mark_of, layers_with, layers, printed_layers};
ghost use Rattle.vp_strips.specs.LineDots.{HasDots, HasOpen, ink_placed};
ghost use Rattle.vp_strips.specs.Rows.{line_text, image_text, white_text, cut_text};
ghost use Rattle.vp_receipt_settings.specs.Rasters.{raster_scale, raster_bytes};
ghost use Rattle.vp_receipt.specs.Strips.{prints, strips, own_part, own_strips, page_text, ended, raster_row_text};
ghost use Rattle.vp_receipt.specs.Effects.{line_by, own_by, strips_by, page_by, part_by, prints_by, layers_by, mode_by, text_if};
ghost use Rattle.vp_receipt_settings.specs.Effects.{waits_of, is_page};
ghost use Rattle.vp_receipt_settings.specs.Pages.{is_paged};
ghost use Rattle.vp_receipt_settings.specs.declared.effect.Effect.{Effect};
ghost use Rattle.vp_receipt_settings.specs.declared.page_mode.PrinterMode.{PrinterMode};
ghost use Rattle.vp_receipt_settings.specs.Symbols.{symbol_image};
ghost use Rattle.vp_dots.specs.Images.{Image};
ghost use Rattle.vp_strips.specs.SymbolInks.{symbol_width, symbol_height, IsSymbolOf, IsDrawn};
ghost use Rattle.vp_receipt_settings.specs.Pages.{area};
ghost use Rattle.vp_receipt.specs.Standing.{Gathers, HasPageIf, IsSettled, LeavesAlone};
ghost use Rattle.vp_receipt_settings.specs.Gathering.{EndsRow, kept_of};
ghost use Rattle.vp_strips.specs.Held.{job_text, after_text, IsJob, IsTurned, AreOwn, IsShowing};

use crate::raster_page::lay_raster_row;
use vp_dots::{Ink, Small};
use vp_esc::item::Cut;
use vp_glyph::{Cell, Sheets};
use vp_page::{PAPER_BYTES, Page};
use vp_receipt_settings::{Effect, Piece, PrinterMode, Raster, Settings, times_across, times_down};
use vp_strips::{After, Bitmap, Canvas, Job, Strip, Symbol, write_raster_row};

/// Puts the character that waits into the line.
pub fn settle<A: Small>(
    s: &Settings,
    waiting: Option<u8>,
    sheets: &Sheets<A>,
    bitmap: &mut Bitmap<A>,
)
    requires { IsFit s.now }
    ensures { (placed : List Placed) → Gathers sheets.now s.now bitmap.old waiting placed →
        Gathers sheets.now s.now bitmap.new None placed }
{
    if let Some(code) = waiting {
        bitmap.begin_line();
        bitmap.put_cell(&s.text.cell(sheets, code), 0);
    }
}

/// Puts ink into the line at its position.
fn put_next<I: Ink, A: Small>(s: &Settings, ink: &I, bitmap: &mut Bitmap<A>)
    requires { I.height ink.now ≤ LINE_ROWS }
    ensures { (placed : List Placed) → s.now.is_open ≡ is_open placed → HasOpen placed bitmap.old →
        HasDots (ink_placed s.now.position (I.width ink.now) (I.height ink.now) (I.ink_at ink.now) ∷ placed)
        bitmap.new }
{
    if !s.is_open {
        bitmap.begin_line();
    }
    bitmap.put_ink(ink, s.position);
}

/// Puts a character into the line at its position.
#[inline(always)]
fn put_character<A: Small>(s: &Settings, cell: &Cell<'_, A>, bitmap: &mut Bitmap<A>)
    requires { cell_height cell.now.font cell.now.style ≤ LINE_ROWS }
    ensures { (placed : List Placed) → s.now.is_open ≡ is_open placed → HasOpen placed bitmap.old →
        HasDots (ink_placed s.now.position (cell_width cell.now.font cell.now.style)
        (cell_height cell.now.font cell.now.style)
        (cell_dot cell.now.sheets.now cell.now.font cell.now.style cell.now.character) ∷ placed) bitmap.new }
{
    if !s.is_open {
        bitmap.begin_line();
    }
    bitmap.put_cell(cell, s.position);
}

/// Puts a piece into the line at its position.
fn put<A: Small>(s: &Settings, piece: Piece, canvas: &mut Canvas<A>)
    requires { IsFit s.now }
    ensures others { canvas_of canvas.new ≡ record (canvas_of canvas.old) { bitmap = canvas.new.bitmap } }
    ensures line { (setup : Setup) (before : List EscItem) →
        IsSettled setup before s.now (canvas_of canvas.old) →
        HasDots (line_by setup before (Effect.Puts piece)) canvas.new.bitmap }
{
    match piece {
        Piece::Character(code) => {
            let cell = s.text.cell(&canvas.sheets, code);
            put_character(s, &cell, &mut canvas.bitmap);
        }
        Piece::Column8(byte) => put_next(s, &s.column([byte], 3), &mut canvas.bitmap),
        Piece::Column24(bytes) => put_next(s, &s.column(bytes, 1), &mut canvas.bitmap),
    }
}

/// Whether a text has no character, but controls alone.
fn are_controls(text: &[u8]) -> bool
    ensures { result ≡ true → (i : ℕ) → i < length text.now → slice_index text.now i < 0x20 }
{
    for code in text {
        if *code >= 0x20 {
            return false;
        }
    }
    true
}

/// Puts text into the line, which none of it breaks.
pub fn put_text<A: Small>(s: &mut Settings, text: &[u8], sheets: &Sheets<A>, bitmap: &mut Bitmap<A>)
    requires fit { IsFit s.old }
    requires text { AllByRecursion (λ b. is_text b ≡ true) text.now }
    requires room { length text.now ≤ text_room s.old }
    ensures fit { IsFit s.new }
    ensures settings { (setup : Setup) (before : List EscItem) → s.old ≡ settings_of setup before →
        s.new ≡ settings_of setup (text_after text.now before) }
    ensures line { (setup : Setup) (before : List EscItem) → s.old ≡ settings_of setup before →
        sheets.now ≡ setup.sheets → HasOpen (line setup before) bitmap.old →
        HasOpen (line setup (text_after text.now before)) bitmap.new }
    ensures others { (setup : Setup) (before : List EscItem) → s.old ≡ settings_of setup before →
        LeavesAlone setup (text_after text.now before) before }
{
    if are_controls(text) {
        return;
    }
    let mut now = *s;
    for code in text {
        if *code >= 0x20 {
            let cell = now.text.cell(sheets, *code);
            put_character(&now, &cell, bitmap);
            now = now.with_character();
        }
    }
    *s = now;
}

/// The line in a strip of `rows` rows.
fn line_job(s: &Settings, rows: u32) -> Job
    requires { IsFit s.now }
    ensures job { (canvas : TheCanvas) (lines : Lines) → IsJob result canvas lines }
    ensures turned { IsTurned result.place result.after }
    ensures text { (setup : Setup) (before : List EscItem) (canvas : TheCanvas) →
        IsSettled setup before s.now canvas → job_text result canvas ≡ line_text setup before rows }
    ensures shows { (canvas : TheCanvas) → IsShowing result canvas s.now.height 0 }
{
    Job::of(Strip::of_line(s, rows), After::End)
}

/// The line, if it is open, and then strips.
fn ended_job(s: &Settings, after: After) -> Job
    requires fit { IsFit s.now }
    requires after { AreOwn after }
    ensures job { (canvas : TheCanvas) (lines : Lines) → IsJob result canvas lines }
    ensures turned { IsTurned result.place result.after }
    ensures text { (setup : Setup) (before : List EscItem) (canvas : TheCanvas) →
        IsSettled setup before s.now canvas →
        job_text result canvas ≡ ended setup before ++ after_text after canvas }
    ensures shows { (canvas : TheCanvas) →
        IsShowing result canvas s.now.height (length (after_text after canvas)) }
{
    Job::of(Strip::of_line(s, s.ended_rows()), after)
}

/// The job of a cut, after `dots` white rows.
fn cut_job(s: &Settings, dots: u8, cut: Cut) -> Job
    requires { IsFit s.now }
    ensures job { (canvas : TheCanvas) (lines : Lines) → IsJob result canvas lines }
    ensures turned { IsTurned result.place result.after }
    ensures text { (setup : Setup) (before : List EscItem) (canvas : TheCanvas) →
        IsSettled setup before s.now canvas →
        job_text result canvas ≡
        ended setup before ++ (white_text setup.width dots ++ cut_text setup.width cut) }
    ensures shows { (setup : Setup) (before : List EscItem) (canvas : TheCanvas) →
        IsSettled setup before s.now canvas →
        IsShowing result canvas (height (line setup before))
        (length (white_text setup.width dots ++ cut_text setup.width cut)) }
{
    let cut = Strip::cut(s.paper, cut);
    if dots == 0 {
        return ended_job(s, After::One(cut));
    }
    let white = Strip::white(s.paper, u32::from(dots));
    ended_job(s, After::Two(white, cut))
}

/// What an effect prints on paper.
fn printed(s: &Settings, effect: Effect) -> Option<Job>
    requires { IsFit s.now }
    ensures job { IfSome result (λ job. (canvas : TheCanvas) (lines : Lines) → IsJob job canvas lines) }
    ensures turned { IfSome result (λ job. IsTurned job.place job.after) }
    ensures text { (setup : Setup) (before : List EscItem) (canvas : TheCanvas) →
        IsSettled setup before s.now canvas → text_if result canvas ≡ strips_by setup before effect }
    ensures shows { IfSome result (λ job. (setup : Setup) (before : List EscItem) (canvas : TheCanvas) →
        IsSettled setup before s.now canvas →
        IsShowing job canvas (height (line setup before)) (length (own_by setup effect))) }
{
    match effect {
        Effect::Breaks { rows, .. } => Some(line_job(s, rows)),
        Effect::Feeds(rows) => Some(line_job(s, rows)),
        Effect::Cuts { dots, cut } => Some(cut_job(s, dots, cut)),
        Effect::BeginsRaster(rows) => {
            Some(ended_job(s, After::One(Strip::raster_head(s.paper, rows))))
        }
        Effect::Nothing
        | Effect::Sets
        | Effect::Moves(_)
        | Effect::Tabs
        | Effect::Initializes
        | Effect::Puts(_)
        | Effect::Fills(_)
        | Effect::Draws
        | Effect::BeginsPage
        | Effect::LeavesPage
        | Effect::Lays(_)
        | Effect::Wipes
        | Effect::PrintsPage
        | Effect::EndsPage => None,
    }
}

/// Lays the line with its top at the vertical position.
fn lay_line<A: Small>(s: &Settings, bitmap: &mut Bitmap<A>, page: &mut Page<A>)
    requires { IsFit s.now }
    ensures kept { bitmap.new ≡ bitmap.old }
    ensures laid { (dots : ℕ → ℕ → Bool) (layers : List Layer) → HasRows s.now bitmap.old dots →
        HasPage layers page.old → HasPage (Laid (mark_of s.now.page s.now.height dots) ∷ layers) page.new }
{
    let high = usize::from(s.height);
    let top = s.page.vertical as u32;
    bitmap.lay(high, s.page.area, s.page.direction, top, page);
}

/// Lays the line if it is open. The rows that this item lays and wipes are counted anew.
fn lay_open<A: Small>(s: &Settings, canvas: &mut Canvas<A>)
    requires fit { IsFit s.now }
    requires mode { s.now.page.mode ≡ PrinterMode.Page }
    ensures others { canvas_of canvas.new ≡ record (canvas_of canvas.old) { page = canvas.new.page } }
    ensures page { (setup : Setup) (before : List EscItem) →
        IsSettled setup before s.now (canvas_of canvas.old) →
        HasPage (printed_layers setup before) canvas.new.page }
{
    canvas.page.count_anew();
    if s.is_open {
        lay_line(s, &mut canvas.bitmap, &mut canvas.page);
    }
}

/// The page, with the line laid.
fn page_job(s: &Settings) -> Job
    requires { IsFit s.now }
    ensures job { (canvas : TheCanvas) (lines : Lines) → IsJob result canvas lines }
    ensures turned { IsTurned result.place result.after }
    ensures text { (setup : Setup) (before : List EscItem) (canvas : TheCanvas) →
        s.now ≡ settings_of setup before → HasPage (printed_layers setup before) canvas.page →
        IsShown canvas.page → job_text result canvas ≡ page_text setup before }
    ensures shows { (canvas : TheCanvas) (high : ℕ) →
        IsShowing result canvas high (length (job_text result canvas)) }
{
    Job::alone(Strip::page(s.paper, s.printed_rows()))
}

/// What an effect lays on the page, and what is printed of it.
fn laid<A: Small>(s: &Settings, effect: Effect, canvas: &mut Canvas<A>) -> Option<Job>
    requires fit { IsFit s.now }
    requires mode { s.now.page.mode ≡ PrinterMode.Page }
    requires old { effect ≡ Effect.BeginsPage → ⊥ }
    ensures others { canvas_of canvas.new ≡ record (canvas_of canvas.old) { page = canvas.new.page } }
    ensures job { IfSome result (λ job. (lines : Lines) → IsJob job (canvas_of canvas.new) lines) }
    ensures turned { IfSome result (λ job. IsTurned job.place job.after) }
    ensures page { (setup : Setup) (before : List EscItem) →
        IsSettled setup before s.now (canvas_of canvas.old) →
        HasPage (layers_by setup before effect) canvas.new.page }
    ensures text { (setup : Setup) (before : List EscItem) →
        IsSettled setup before s.now (canvas_of canvas.old) →
        text_if result (canvas_of canvas.new) ≡ page_by setup before effect }
    ensures shows { IfSome result (λ job. (high : ℕ) →
        IsShowing job (canvas_of canvas.new) high (length (job_text job (canvas_of canvas.new)))) }
{
    match effect {
        Effect::Breaks { .. } | Effect::Feeds(_) | Effect::BeginsRaster(_) | Effect::Lays(_) => {
            lay_open(s, canvas);
            None
        }
        Effect::Wipes => {
            lay_open(s, canvas);
            canvas.page.wipe(s.page.area);
            None
        }
        Effect::PrintsPage | Effect::EndsPage => {
            lay_open(s, canvas);
            canvas.page.turn_in();
            Some(page_job(s))
        }
        Effect::Nothing
        | Effect::Sets
        | Effect::Moves(_)
        | Effect::Tabs
        | Effect::Initializes
        | Effect::Puts(_)
        | Effect::Cuts { .. }
        | Effect::Fills(_)
        | Effect::Draws
        | Effect::BeginsPage
        | Effect::LeavesPage => None,
    }
}

/// What an effect that draws no symbol does to the line and the page, and what is printed of it.
pub fn act<A: Small>(s: &Settings, effect: Effect, canvas: &mut Canvas<A>) -> Option<Job>
    requires { IsFit s.now }
    ensures sheets { canvas.new.sheets ≡ canvas.old.sheets }
    ensures job { IfSome result (λ job. (lines : Lines) → IsJob job (canvas_of canvas.new) lines) }
    ensures turned { IfSome result (λ job. IsTurned job.place job.after) }
    ensures line { (setup : Setup) (before : List EscItem) →
        IsSettled setup before s.now (canvas_of canvas.old) →
        Gathers canvas.old.sheets s.now canvas.new.bitmap (waits_of effect) (line_by setup before effect) }
    ensures page { (setup : Setup) (before : List EscItem) →
        IsSettled setup before s.now (canvas_of canvas.old) →
        HasPageIf (mode_by setup before effect) (layers_by setup before effect) canvas.new.page }
    ensures text { (setup : Setup) (before : List EscItem) →
        IsSettled setup before s.now (canvas_of canvas.old) →
        text_if result (canvas_of canvas.new) ≡ prints_by setup before effect }
    ensures shows { IfSome result (λ job. (setup : Setup) (before : List EscItem) →
        IsSettled setup before s.now (canvas_of canvas.old) →
        IsShowing job (canvas_of canvas.new) (height (line setup before)) (length
        (part_by setup before effect))) }
{
    match effect {
        Effect::Puts(piece) => {
            put(s, piece, canvas);
            None
        }
        Effect::BeginsPage => {
            canvas.page.clear();
            None
        }
        _ => match s.page.mode {
            PrinterMode::Standard => printed(s, effect),
            PrinterMode::Page => laid(s, effect, canvas),
        },
    }
}

/// Whether what an effect prints is a page.
pub fn prints_page(s: &Settings, effect: Effect) -> bool
    ensures { result ≡ (is_paged s.now.page.mode && is_page effect) }
{
    s.page.is_paged() && effect.is_page()
}

/// The line, if it is open, and then a symbol `wide` dots wide and `high` rows high.
fn symbol_job(s: &Settings, wide: u32, high: u32) -> Job
    requires fit { IsFit s.now }
    requires some { 0 < high }
    ensures job { (canvas : TheCanvas) (lines : Lines) → IsJob result canvas lines }
    ensures turned { IsTurned result.place result.after }
    ensures text { (setup : Setup) (before : List EscItem) (canvas : TheCanvas) (image : Image) →
        IsSettled setup before s.now canvas →
        IsDrawn canvas.sheets canvas.symbol wide high image →
        job_text result canvas ≡ ended setup before ++ image_text setup before (Some image) }
    ensures shows { (setup : Setup) (before : List EscItem) (canvas : TheCanvas) (image : Image) →
        IsSettled setup before s.now canvas → IsDrawn canvas.sheets canvas.symbol wide high image →
        IsShowing result canvas (height (line setup before)) (length (image_text setup before (Some image))) }
{
    ended_job(s, After::One(Strip::drawn(s, wide, high)))
}

/// Prints a symbol, which is `wide` dots wide and `high` rows high, on paper.
fn symbol_on_paper<A: Small>(
    s: &Settings,
    symbol: Symbol,
    wide: u32,
    high: u32,
    canvas: &mut Canvas<A>,
) -> Job
    requires fit { IsFit s.now }
    requires width { wide ≡ symbol_width canvas.old.sheets symbol }
    requires height { high ≡ symbol_height canvas.old.sheets symbol }
    requires some { 0 < high }
    ensures others { canvas_of canvas.new ≡ record (canvas_of canvas.old) { symbol = symbol } }
    ensures job { (lines : Lines) → IsJob result (canvas_of canvas.new) lines }
    ensures turned { IsTurned result.place result.after }
    ensures text { (setup : Setup) (before : List EscItem) (item : EscItem) →
        IsSettled setup before s.now (canvas_of canvas.old) →
        IsSymbolOf setup.sheets (Some symbol) (symbol_image setup before item) →
        job_text result (canvas_of canvas.new) ≡ strips setup before item }
    ensures shows { (setup : Setup) (before : List EscItem) (item : EscItem) →
        IsSettled setup before s.now (canvas_of canvas.old) →
        IsSymbolOf setup.sheets (Some symbol) (symbol_image setup before item) →
        IsShowing result (canvas_of canvas.new) (height (line setup before)) (length
        (own_strips setup before item)) }
{
    canvas.symbol = symbol;
    symbol_job(s, wide, high)
}

/// Lays the line, and a symbol below it.
fn symbol_on_page<A: Small>(s: &Settings, symbol: &Symbol, canvas: &mut Canvas<A>)
    requires fit { IsFit s.now }
    requires mode { s.now.page.mode ≡ PrinterMode.Page }
    requires wide { symbol_width canvas.old.sheets symbol.now ≤ LINE_DOTS }
    ensures others { canvas_of canvas.new ≡ record (canvas_of canvas.old) { page = canvas.new.page } }
    ensures page { (setup : Setup) (before : List EscItem) (item : EscItem) →
        IsSettled setup before s.now (canvas_of canvas.old) →
        IsSymbolOf setup.sheets (Some symbol.now) (symbol_image setup before item) →
        HasPage (layers_with setup before item (layers setup before)) canvas.new.page }
{
    lay_open(s, canvas);
    let (area, direction) = (s.page.area, s.page.direction);
    symbol.lay(
        &canvas.sheets,
        area,
        direction,
        s.symbol_top(),
        &mut canvas.page,
    );
}

/// What drawing a symbol does, which is `wide` dots wide and `high` rows high: what is printed.
pub fn draw<A: Small>(
    s: &Settings,
    symbol: Symbol,
    wide: u32,
    high: u32,
    canvas: &mut Canvas<A>,
) -> Job
    requires fit { IsFit s.now }
    requires width { wide ≡ symbol_width canvas.old.sheets symbol }
    requires height { high ≡ symbol_height canvas.old.sheets symbol }
    requires some { 0 < high }
    requires within { wide ≤ LINE_DOTS }
    ensures sheets { canvas.new.sheets ≡ canvas.old.sheets }
    ensures job { (lines : Lines) → IsJob result (canvas_of canvas.new) lines }
    ensures turned { IsTurned result.place result.after }
    ensures page { (setup : Setup) (before : List EscItem) (item : EscItem) →
        IsSettled setup before s.now (canvas_of canvas.old) →
        IsSymbolOf setup.sheets (Some symbol) (symbol_image setup before item) →
        HasPageIf (mode setup (item ∷ before)) (layers setup (item ∷ before)) canvas.new.page }
    ensures text { (setup : Setup) (before : List EscItem) (item : EscItem) →
        IsSettled setup before s.now (canvas_of canvas.old) →
        IsSymbolOf setup.sheets (Some symbol) (symbol_image setup before item) →
        job_text result (canvas_of canvas.new) ≡ prints setup before item }
    ensures shows { (setup : Setup) (before : List EscItem) (item : EscItem) →
        IsSettled setup before s.now (canvas_of canvas.old) →
        IsSymbolOf setup.sheets (Some symbol) (symbol_image setup before item) →
        IsShowing result (canvas_of canvas.new) (height (line setup before)) (length
        (own_part setup before item)) }
{
    match s.page.mode {
        PrinterMode::Standard => symbol_on_paper(s, symbol, wide, high, canvas),
        PrinterMode::Page => {
            symbol_on_page(s, &symbol, canvas);
            Job::none()
        }
    }
}

/// The row whose last byte came, as often as its raster's scale says.
fn row_job(s: &Settings, raster: &Raster, row: &mut [u8; PAPER_BYTES]) -> Job
    requires { IsFit s.now }
    ensures job { (canvas : TheCanvas) (lines : Lines) → IsJob result canvas lines }
    ensures turned { IsTurned result.place result.after }
    ensures text { (setup : Setup) (before : List EscItem) (canvas : TheCanvas) (came : List ℕ) →
        s.now ≡ settings_of setup before → raster.now.scale ≡ raster_scale before →
        raster.now.bytes ≡ raster_bytes before →
        kept_of raster.now ≡ take LINE_BYTES came → canvas.raster_row ≡ row.new →
        job_text result canvas ≡ raster_row_text setup before came }
    ensures shows { (canvas : TheCanvas) (high : ℕ) →
        IsShowing result canvas high (length (job_text result canvas)) }
{
    let wide = 8 * u32::from(raster.bytes) * times_across(raster.scale);
    write_raster_row(raster, s.printed_at(wide), s.paper_length(), row);
    Job::of_rows(Strip::raster_rows(s.paper, times_down(raster.scale)))
}

/// What a byte that ends a row of a raster does: the row is printed, or laid on the page.
pub fn act_on_row<A: Small>(s: &Settings, raster: &Raster, canvas: &mut Canvas<A>) -> Job
    requires { IsFit s.now }
    ensures others { canvas_of canvas.new ≡
        record (canvas_of canvas.old) { raster_row = canvas.new.raster_row; page = canvas.new.page } }
    ensures job { (lines : Lines) → IsJob result (canvas_of canvas.new) lines }
    ensures turned { IsTurned result.place result.after }
    ensures page { (setup : Setup) (before : List EscItem) (byte : ℕ) → s.now ≡ settings_of setup before →
        EndsRow raster.now before byte →
        HasPageIf (mode setup before) (layers setup before) canvas.old.page →
        HasPageIf (mode setup (EscItem.RasterByte byte ∷ before))
        (layers setup (EscItem.RasterByte byte ∷ before)) canvas.new.page }
    ensures text { (setup : Setup) (before : List EscItem) (byte : ℕ) → s.now ≡ settings_of setup before →
        EndsRow raster.now before byte →
        job_text result (canvas_of canvas.new) ≡ prints setup before (EscItem.RasterByte byte) }
    ensures shows { (setup : Setup) (before : List EscItem) (byte : ℕ) →
        s.now ≡ settings_of setup before → EndsRow raster.now before byte →
        IsShowing result (canvas_of canvas.new) (height (line setup before))
        (length (own_part setup before (EscItem.RasterByte byte))) }
{
    match s.page.mode {
        PrinterMode::Standard => row_job(s, raster, &mut canvas.raster_row),
        PrinterMode::Page => {
            lay_raster_row(s, raster, &mut canvas.page);
            Job::none()
        }
    }
}
