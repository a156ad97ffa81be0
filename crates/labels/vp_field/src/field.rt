//! The fields of a label, painted on a band.
ghost use Rattle.std.specs.Prelude.{◌≡◌, ℕ, ◌+◌, ◌*◌, ◌^◌, ◌<◌, ◌≤◌, true, pos, length, List, [], ◌∷◌, ◌++◌};
ghost use Rattle.vp_glyph.specs.Blocks.{block_width, block_height, block_dot, block_pieces};
ghost use Rattle.vp_glyph.specs.Layouts.{layout_of};
ghost use Rattle.vp_glyph.specs.Sheets.{Sheets as Given};
ghost use Rattle.vp_glyph.specs.declared.runs.TheConstants.{ROWS};
ghost use Rattle.vp_format.specs.declared.field.Content.TheVariants as contents;
ghost use Rattle.vp_field.specs.Axes.{lines_of};
ghost use Rattle.vp_field.specs.declared.axis.Lines.TheVariants.{Along};
ghost use Rattle.vp_field.specs.Counts.{ArePassed};
ghost use Rattle.vp_field.specs.Contents.{lines_cost, most_work, LiesIn, IsText, IsTextBlock, IsSymbol};
ghost use Rattle.vp_field.specs.Standing.{standing, IsNear};
ghost use Rattle.vp_field.specs.Fields.{field_ink, stroke_of, IsDrawn, IsEncoded, IsKept, AreMarksOf};
ghost use Rattle.vp_field.specs.Strokes.{Stroke};
ghost use Rattle.vp_field.specs.Frames.{frame_dot};
ghost use Rattle.vp_field.specs.Views.{seen_x, seen_y, columns_of};
ghost use Rattle.vp_field.specs.Bands.{Shows, ShownPainted, IsCounted};
ghost use Rattle.vp_field.specs.Drawn.{drawn};
ghost use Rattle.vp_label_size.specs.declared.TheConstants.{BAND_ROWS, WIDEST};

use crate::axis::Lines;
use crate::block_band::BlockBand;
use crate::block_columns::paint_block_across;
use crate::content::{block_of, bytes_of, cells};
use crate::frame::{Frame, Hollow};
use crate::line::drawn_at;
use crate::lines::BlockRows;
use crate::marks::{DrawnSymbol, Marks};
use crate::matrix::paint_matrix;
use crate::picture::paint_picture;
use crate::standing::{Standing, paint_standing};
use crate::view::View;
use vp_bars::linear;
use vp_dots::{Ink, Small};
use vp_format::{BarSymbol, Content, Field, QrSymbol, Text, TextBlock};
use vp_glyph::{Block, Font, Sheets};
use vp_label_size::{BAND_BYTES, LabelBand};
use vp_qr::QrInk;
use vp_shapes::{Diagonal, Ring};
use vp_zpl::item::Orientation;

/// Paints a text: how many lines of ink it drew, and pieces of them.
fn paint_text<A: Small>(
    sheets: &Sheets<A>,
    stored: &[u8],
    text: Text,
    on: Standing,
    first: u32,
    band: &mut LabelBand<A>,
) -> u64
    requires text { IsText stored.now text }
    requires near { IsNear on.left on.top }
    ensures dots { ShownPainted (columns_of on.view) on.op
        (drawn sheets.now stored.now (contents.Text text) on first) band.old band.new }
    ensures lines { result ≤ most_work on.orientation (contents.Text text) }
    ensures counted { IsCounted (drawn sheets.now stored.now (contents.Text text) on first) result }
{
    let text = cells(sheets, stored, text);
    paint_standing(&text, on, first, band)
}

/// Paints a block of lines that lies along a band, all its rows that fall on it drawn at once: how many lines
/// of the text and cells of these that took, and how many lines of ink it drew, and pieces of them.
fn paint_block_at_once<A: Small>(
    rows: BlockRows<'_, A>,
    on: Standing,
    first: u32,
    band: &mut LabelBand<A>,
) -> u64
    requires lines { lines_of on.orientation ≡ Along }
    requires near { IsNear on.left on.top }
    requires few { length rows.block.text.now < 2 ^ 32 }
    ensures dots { ShownPainted (columns_of on.view) on.op (λ x k. standing on.left on.top on.orientation
        (block_width rows.entry.block.wide rows.entry.block.w)
        (block_height rows.entry.block.h rows.entry.block.rows rows.entry.block.pitch)
        (λ u v. block_dot (layout_of rows.entry.block) rows.entry.block.text.now u v)
        (seen_x on.view (pos x)) (seen_y on.view (pos (first + k)))) band.old band.new }
    ensures lines { result ≤ 2 * (ROWS + 1) * block_pieces rows.entry.block.text.now
        + lines_cost (lines_of on.orientation) (λ d. 2 * block_pieces rows.entry.block.text.now) }
    ensures counted { IsCounted (λ x k. standing on.left on.top on.orientation
        (block_width rows.entry.block.wide rows.entry.block.w)
        (block_height rows.entry.block.h rows.entry.block.rows rows.entry.block.pitch)
        (λ u v. block_dot (layout_of rows.entry.block) rows.entry.block.text.now u v)
        (seen_x on.view (pos x)) (seen_y on.view (pos (first + k)))) result }
    ensures drawn { (x k : ℕ) → x < WIDEST → k < BAND_ROWS → standing on.left on.top on.orientation
        (block_width rows.entry.block.wide rows.entry.block.w)
        (block_height rows.entry.block.h rows.entry.block.rows rows.entry.block.pitch)
        (λ u v. block_dot (layout_of rows.entry.block) rows.entry.block.text.now u v)
        (seen_x on.view (pos x)) (seen_y on.view (pos (first + k))) ≡ true → 1 < result }
{
    let laid = on.laid(&rows);
    let (_, height) = rows.size();
    let top = laid.first_line(height, first, on.view.columns());
    let drawn = BlockBand::new(rows, top, drawn_at(laid.columns, 0, BAND_BYTES));
    drawn.pieces() + paint_standing(&drawn, on, first, band)
}

/// Paints a block of lines that lies along a band: how many lines of ink it drew, and pieces of them. Where
/// its lines meet, its rows are drawn at once.
fn paint_block_along<A: Small>(
    block: Block<'_, A>,
    on: Standing,
    first: u32,
    band: &mut LabelBand<A>,
) -> u64
    requires lines { lines_of on.orientation ≡ Along }
    requires near { IsNear on.left on.top }
    requires few { length block.text.now < 2 ^ 32 }
    ensures dots { ShownPainted (columns_of on.view) on.op (λ x k. standing on.left on.top on.orientation
        (block_width block.entry.wide block.entry.w)
        (block_height block.entry.h block.entry.rows block.entry.pitch)
        (λ u v. block_dot (layout_of block.entry) block.entry.text.now u v)
        (seen_x on.view (pos x)) (seen_y on.view (pos (first + k)))) band.old band.new }
    ensures lines { result ≤ 2 * (ROWS + 1) * block_pieces block.entry.text.now
        + lines_cost (lines_of on.orientation) (λ d. 2 * block_pieces block.entry.text.now) }
    ensures counted { IsCounted (λ x k. standing on.left on.top on.orientation
        (block_width block.entry.wide block.entry.w)
        (block_height block.entry.h block.entry.rows block.entry.pitch)
        (λ u v. block_dot (layout_of block.entry) block.entry.text.now u v)
        (seen_x on.view (pos x)) (seen_y on.view (pos (first + k)))) result }
{
    let rows = BlockRows { block };
    if rows.lines_meet() {
        return paint_block_at_once(rows, on, first, band);
    }
    paint_standing(&rows, on, first, band)
}

/// Paints a block of lines, and where it lies across the band on the columns of the label alone: how many
/// lines of ink it drew, and pieces of them, and how many lines of its text and cells of these were passed
/// above the band.
fn paint_block<A: Small>(
    sheets: &Sheets<A>,
    stored: &[u8],
    block: TextBlock,
    on: Standing,
    first: u32,
    band: &mut LabelBand<A>,
) -> u64
    requires block { IsTextBlock stored.now block }
    requires near { IsNear on.left on.top }
    ensures dots { ShownPainted (columns_of on.view) on.op
        (drawn sheets.now stored.now (contents.Block block) on first) band.old band.new }
    ensures lines { result ≤ most_work on.orientation (contents.Block block) }
    ensures counted { IsCounted (drawn sheets.now stored.now (contents.Block block) on first) result }
    ensures passed { ArePassed sheets.now stored.now block on first result }
{
    let ink = block_of(sheets, stored, block);
    let (_, height) = ink.size();
    let laid = on.laid(&ink);
    let columns = on.view.columns();
    let row = laid.first_line(height, first, columns);
    let block = ink.from_row(row);
    let walked = block.walked();
    match laid.lines {
        Lines::Along => walked + paint_block_along(block, on, first, band),
        Lines::Across => walked + paint_block_across(&block, on.op, laid, columns, first, band),
    }
}

/// Paints a box: how many lines of ink it drew, and pieces of them.
fn paint_frame<A: Small>(frame: Frame, on: Standing, first: u32, band: &mut LabelBand<A>) -> u64
    requires near { IsNear on.left on.top }
    ensures dots { ShownPainted (columns_of on.view) on.op (λ x k. standing on.left on.top on.orientation
        frame.w frame.h (frame_dot frame.w frame.h frame.t) (seen_x on.view (pos x))
        (seen_y on.view (pos (first + k)))) band.old band.new }
    ensures lines { result ≤ lines_cost (lines_of on.orientation) (λ d. 1) }
    ensures counted { IsCounted (λ x k. standing on.left on.top on.orientation frame.w frame.h
        (frame_dot frame.w frame.h frame.t) (seen_x on.view (pos x)) (seen_y on.view (pos (first + k))))
        result }
{
    if frame.is_hollow() {
        return paint_standing(&Hollow { frame }, on, first, band);
    }
    paint_standing(&frame, on, first, band)
}

/// Paints a circle or an ellipse: how many lines of ink it drew, and pieces of them.
fn paint_ring<A: Small>(ring: Ring, on: Standing, first: u32, band: &mut LabelBand<A>) -> u64
    requires near { IsNear on.left on.top }
    ensures dots { (sheets : Given) (stored : List ℕ) → ShownPainted (columns_of on.view) on.op
        (drawn sheets stored (contents.Ring ring) on first) band.old band.new }
    ensures lines { result ≤ lines_cost (lines_of on.orientation) (λ d. 1) }
    ensures counted { (sheets : Given) (stored : List ℕ) →
        IsCounted (drawn sheets stored (contents.Ring ring) on first) result }
{
    paint_standing(&ring, on, first, band)
}

/// Paints a diagonal: how many lines of ink it drew, and pieces of them.
fn paint_diagonal<A: Small>(
    diagonal: Diagonal,
    on: Standing,
    first: u32,
    band: &mut LabelBand<A>,
) -> u64
    requires near { IsNear on.left on.top }
    ensures dots { (sheets : Given) (stored : List ℕ) → ShownPainted (columns_of on.view) on.op
        (drawn sheets stored (contents.Diagonal diagonal) on first) band.old band.new }
    ensures lines { result ≤ lines_cost (lines_of on.orientation) (λ d. 1) }
    ensures counted { (sheets : Given) (stored : List ℕ) →
        IsCounted (drawn sheets stored (contents.Diagonal diagonal) on first) result }
{
    paint_standing(&diagonal, on, first, band)
}

/// Encodes a linear symbol where no earlier band left it: there is none where the data have none.
fn encode(stored: &[u8], bars: BarSymbol, marks: &mut Marks)
    requires bytes { LiesIn stored.now bars.bytes }
    requires marks { AreMarksOf stored.now (contents.Bars bars) marks.old }
    ensures marks { AreMarksOf stored.now (contents.Bars bars) marks.new }
    ensures encoded { IsEncoded stored.now bars marks.new }
{
    if let Marks::Bars(_) = marks {
        return;
    }
    if let Ok(symbol) = linear(bars.code, bytes_of(stored, bars.bytes)) {
        *marks = Marks::Bars(symbol);
    }
}

/// Paints a linear symbol and its text, nothing where the data have none: how many lines of ink it drew, and
/// pieces of them.
fn paint_bars<A: Small>(
    sheets: &Sheets<A>,
    stored: &[u8],
    bars: BarSymbol,
    on: Standing,
    marks: &mut Marks,
    first: u32,
    band: &mut LabelBand<A>,
) -> u64
    requires bytes { LiesIn stored.now bars.bytes }
    requires marks { AreMarksOf stored.now (contents.Bars bars) marks.old }
    requires near { IsNear on.left on.top }
    ensures marks { AreMarksOf stored.now (contents.Bars bars) marks.new }
    ensures dots { ShownPainted (columns_of on.view) on.op
        (drawn sheets.now stored.now (contents.Bars bars) on first) band.old band.new }
    ensures lines { result ≤ most_work on.orientation (contents.Bars bars) }
    ensures counted { IsCounted (drawn sheets.now stored.now (contents.Bars bars) on first) result }
{
    encode(stored, bars, marks);
    let Marks::Bars(symbol) = &*marks else {
        return 0;
    };
    let ink = symbol.boxed(
        bars.narrow,
        bars.wide,
        bars.height,
        sheets,
        Font::A,
        bars.place,
    );
    paint_standing(&ink, on, first, band)
}

/// A QR symbol, drawn with the version and the mask that it keeps where no earlier band left it.
fn drawn_symbol(stored: &[u8], symbol: QrSymbol, marks: &mut Marks) -> QrInk
    requires symbol { IsSymbol stored.now symbol }
    requires marks { AreMarksOf stored.now (contents.Qr symbol) marks.old }
    ensures drawn { IsDrawn stored.now symbol result }
    ensures marks { AreMarksOf stored.now (contents.Qr symbol) marks.new }
{
    if let Marks::Symbol(symbol) = *marks {
        return symbol.ink;
    }
    let qr = vp_qr::drawn(
        bytes_of(stored, symbol.bytes),
        symbol.level,
        symbol.mode,
        usize::from(symbol.version),
        usize::from(symbol.mask),
    );
    let ink = qr.scaled(u32::from(symbol.module));
    *marks = Marks::Symbol(DrawnSymbol { ink });
    ink
}

/// Paints a QR symbol: how many lines of ink it drew, and pieces of them.
fn paint_qr<A: Small>(
    stored: &[u8],
    symbol: QrSymbol,
    on: Standing,
    marks: &mut Marks,
    first: u32,
    band: &mut LabelBand<A>,
) -> u64
    requires symbol { IsSymbol stored.now symbol }
    requires marks { AreMarksOf stored.now (contents.Qr symbol) marks.old }
    requires near { IsNear on.left on.top }
    ensures marks { AreMarksOf stored.now (contents.Qr symbol) marks.new }
    ensures dots { (sheets : Given) → ShownPainted (columns_of on.view) on.op
        (drawn sheets stored.now (contents.Qr symbol) on first) band.old band.new }
    ensures lines { result ≤ lines_cost (lines_of on.orientation) (λ d. 1) }
    ensures counted { (sheets : Given) →
        IsCounted (drawn sheets stored.now (contents.Qr symbol) on first) result }
{
    let modules = drawn_symbol(stored, symbol, marks);
    paint_standing(&modules, on, first, band)
}

/// Applies the field's operation to the dots of a band that are on the label, where the field has ink. The
/// band's first row is row `first` of the label as it is put out. What that took comes back.
fn paint_content<A: Small>(
    sheets: &Sheets<A>,
    stored: &[u8],
    field: &Field,
    marks: &mut Marks,
    view: View,
    first: u32,
    band: &mut LabelBand<A>,
) -> u64
    requires kept { IsKept stored.now field.now }
    requires marks { AreMarksOf stored.now field.now.content marks.old }
    ensures dots { ShownPainted (columns_of view) field.now.op (λ x k.
        field_ink sheets.now stored.now field.now (seen_x view (pos x))
        (seen_y view (pos (first + k)))) band.old band.new }
    ensures marks { AreMarksOf stored.now field.now.content marks.new }
    ensures work { result ≤ most_work field.now.orientation field.now.content }
    ensures counted { IsCounted (λ x k. field_ink sheets.now stored.now field.now (seen_x view (pos x))
        (seen_y view (pos (first + k)))) result }
{
    let turned = Standing {
        op: field.op,
        left: field.left,
        top: field.top,
        orientation: field.orientation,
        view,
    };
    let on = Standing {
        orientation: Orientation::Normal,
        ..turned
    };
    match field.content {
        Content::Text(text) => paint_text(sheets, stored, text, turned, first, band),
        Content::Block(block) => paint_block(sheets, stored, block, turned, first, band),
        Content::Box(shape) => paint_frame(Frame::of(shape), on, first, band),
        Content::Picture(picture) => paint_picture(stored, picture, on, marks, first, band),
        Content::Bars(bars) => paint_bars(sheets, stored, bars, turned, marks, first, band),
        Content::Qr(symbol) => paint_qr(stored, symbol, on, marks, first, band),
        Content::Matrix(symbol) => paint_matrix(stored, symbol, turned, first, band),
        Content::Ring(ring) => paint_ring(ring, on, first, band),
        Content::Diagonal(diagonal) => paint_diagonal(diagonal, on, first, band),
    }
}

/// Paints a field on a band, whose first row is row `first` of the label as it is put out: on all dots that
/// are on the label, and maybe on some beside it. The marks are those that earlier bands left in its picture,
/// or none, so that not all rows above are read again; more are left for the bands that come later, and of a
/// symbol its modules or characters. What that took comes back: of a picture how many bytes of its codes were
/// read, rows passed, and rows painted; of all else how many lines of ink were drawn, and pieces of them.
pub fn paint_field<A: Small>(
    sheets: &Sheets<A>,
    stored: &[u8],
    field: &Field,
    marks: &mut Marks,
    view: View,
    first: u32,
    band: &mut LabelBand<A>,
) -> u64
    requires kept { IsKept stored.now field.now }
    requires marks { AreMarksOf stored.now field.now.content marks.old }
    ensures dots { ShownPainted (columns_of view) field.now.op (λ x k.
        field_ink sheets.now stored.now field.now (seen_x view (pos x))
        (seen_y view (pos (first + k)))) band.old band.new }
    ensures shows { (strokes : List Stroke) → Shows view first strokes band.old
        → Shows view first (strokes ++ stroke_of sheets.now stored.now field.now ∷ []) band.new }
    ensures marks { AreMarksOf stored.now field.now.content marks.new }
    ensures work { result ≤ most_work field.now.orientation field.now.content }
    ensures counted { IsCounted (λ x k. field_ink sheets.now stored.now field.now (seen_x view (pos x))
        (seen_y view (pos (first + k)))) result }
{
    paint_content(sheets, stored, field, marks, view, first, band)
}
