//! Copies of labels of boxes, painted band by band, and the looks that they take.
ghost use Rattle.std.specs.Prelude.{◌≡◌, ℕ, ◌*◌, ◌≤◌, ◌<◌, List, IfOk, None};
ghost use Rattle.std.specs.List.{All};
ghost use Rattle.vp_field.specs.Fields.{IsKept};
ghost use Rattle.vp_field.specs.Standing.{IsNear};
ghost use Rattle.vp_format.specs.Formats.{held};
ghost use Rattle.vp_bands.specs.Standing.{IsBefore};

use crate::sheets::NONE;
use std::alloc::Global;
use std::process::Abort;
use std::test::Fail;
use vp_bands::{BANDS, BandPainter};
use vp_dots::Op;
use vp_field::View;
use vp_format::{Content, Field, Format, GraphicBox};
use vp_label_size::LabelBand;
use vp_zpl::item::Orientation;

/// A label of 8 dots in a row.
fn label(height: u16, inverted: bool) -> View
    ensures narrow { result.width ≡ 8 }
    ensures height { result.height ≡ height }
{
    View {
        width: 8,
        height: u32::from(height),
        inverted,
        mirrored: false,
    }
}

/// A box that is all ink, of `width` dots by `height` rows from row `top` on.
fn boxed(top: u16, width: u16, height: u16, op: Op) -> Field
    ensures kept { (stored : List ℕ) → IsKept stored result }
    ensures near { IsNear result.left result.top }
{
    Field {
        left: 0,
        top: i64::from(top),
        rows: u32::from(height),
        orientation: Orientation::Normal,
        op,
        content: Content::Box(GraphicBox {
            width,
            height,
            thickness: height,
        }),
    }
}

/// A format of such boxes.
fn boxes(alloc: Global, all: &[(u16, u16, u16, Op)]) -> Result<Format, Fail>
    ensures kept { IfOk result (λ format. All (IsKept format.stored) format.fields.items) }
    ensures near { IfOk result (λ format. All (λ field. IsNear field.left field.top) format.fields.items) }
{
    let mut format = Format::new(alloc)?;
    for one in all {
        let (top, width, height, op) = *one;
        format.close(boxed(top, width, height, op))?;
    }
    Ok(format)
}

/// What a copy shows at its left edge: the first bytes of five of its rows, how many of all rows have a dot
/// there, and how many looks it took.
#[derive(Clone, Copy)]
struct Copied {
    rows: [u8; 5],
    black: u64,
    looks: u64,
}

/// Adds what a band of a label of `height` rows shows, with five rows of the label from one on.
fn add(copied: &mut Copied, b: usize, height: u32, band: &LabelBand, from: usize)
    requires low { b < BANDS }
    requires from { from ≤ 8000 }
{
    for k in 0..32 {
        let y = 32 * b + k;
        if y >= height as usize {
            return;
        }
        let byte = band.row(k)[0];
        copied.black = copied.black.saturating_add(u64::from(byte != 0));
        if y >= from && y < from + 5 {
            copied.rows[y - from] = byte;
        }
    }
}

/// The next copy of a label, with five rows from one on.
fn copy(
    painter: &mut BandPainter,
    format: &mut Format,
    view: View,
    from: usize,
    band: &mut LabelBand,
) -> Copied
    requires narrow { view.width ≤ 1248 }
    requires low { view.height ≤ 32 * BANDS }
    requires from { from ≤ 8000 }
    requires before { IsBefore (record { a = None; b = None }) (held format.old.fields format.old.stored)
        view 0 painter.old }
    ensures before { IsBefore (record { a = None; b = None }) (held format.new.fields format.new.stored)
        view 0 painter.new }
{
    let mut copied = Copied {
        rows: [0; 5],
        black: 0,
        looks: 0,
    };
    for b in 0..view.height.div_ceil(32) as usize {
        let fields = &mut format.fields;
        painter.paint(b, &NONE, fields, format.stored.bytes(), view, band);
        add(&mut copied, b, view.height, band, from);
    }
    copied.looks = painter.looks();
    painter.start();
    copied
}

/// The first and the second copy of a label of the fields of a format.
fn both(
    painter: &mut BandPainter,
    format: &mut Format,
    view: View,
    from: usize,
    band: &mut LabelBand,
) -> [Copied; 2]
    requires kept { All (IsKept format.old.stored) format.old.fields.items }
    requires near { All (λ field. IsNear field.left field.top) format.old.fields.items }
    requires narrow { view.width ≤ 1248 }
    requires low { view.height ≤ 32 * BANDS }
    requires from { from ≤ 8000 }
{
    painter.thread(&mut format.fields, view);
    let first = copy(painter, format, view, from, band);
    let second = copy(painter, format, view, from, band);
    [first, second]
}

/// The first and the second copy of a label with such boxes.
fn copies(
    alloc: Global,
    all: &[(u16, u16, u16, Op)],
    view: View,
    from: usize,
) -> Result<[Copied; 2], Fail>
    requires narrow { view.width ≤ 1248 }
    requires low { view.height ≤ 32 * BANDS }
    requires from { from ≤ 8000 }
{
    let mut format = boxes(alloc, all)?;
    let mut band = LabelBand::new(alloc)?;
    let mut painter = BandPainter::new(alloc)?;
    Ok(both(&mut painter, &mut format, view, from, &mut band))
}

/// Each copy shows the five rows `rows`, and `black` of all rows have a dot at the left edge.
fn each_shows(rt: &impl Abort, copies: &[Copied; 2], rows: [u8; 5], black: u64) {
    for copied in copies {
        assert_eq!(rt; (copied.rows, copied.black), (rows, black));
    }
}

/// Each copy took at least `least` and at most `most` looks.
fn each_took(rt: &impl Abort, copies: &[Copied; 2], least: u64, most: u64) {
    for copied in copies {
        let looks = copied.looks;
        assert!(rt; looks >= least && looks <= most, "{looks} looks");
    }
}

/// Five pairs of a box and a band.
static OVER_THE_END: [(u16, u16, u16, Op); 3] = [
    (30, 8, 4, Op::Black),
    (32, 8, 1, Op::White),
    (31, 4, 3, Op::Flip),
];

#[test]
fn boxes_over_the_end_of_a_band(rt: HostRuntime) -> Result<(), Fail> {
    let both = copies(rt.alloc(), &OVER_THE_END, label(34, false), 29)?;
    each_shows(&rt, &both, [0, 0xff, 0x0f, 0xf0, 0x0f], 4);
    each_took(&rt, &both, 5, 12);
    Ok(())
}

#[test]
fn boxes_on_a_label_upside_down(rt: HostRuntime) -> Result<(), Fail> {
    let both = copies(rt.alloc(), &OVER_THE_END, label(34, true), 0)?;
    each_shows(&rt, &both, [0xf0, 0x0f, 0xf0, 0xff, 0], 4);
    each_took(&rt, &both, 3, 8);
    Ok(())
}

#[test]
fn a_thousand_boxes_on_one_row(rt: HostRuntime) -> Result<(), Fail> {
    let all = [(0, 8, 1, Op::Black); 1000];
    let both = copies(rt.alloc(), &all, label(8000, false), 0)?;
    each_shows(&rt, &both, [0xff, 0, 0, 0, 0], 1);
    each_took(&rt, &both, 1000, 2250);
    Ok(())
}

#[test]
fn boxes_behind_the_label(rt: HostRuntime) -> Result<(), Fail> {
    let all = [(100, 8, 1, Op::Black), (34, 8, 1, Op::Black)];
    let both = copies(rt.alloc(), &all, label(34, false), 0)?;
    each_shows(&rt, &both, [0; 5], 0);
    each_took(&rt, &both, 0, 2);
    Ok(())
}

#[test]
fn a_box_without_a_width(rt: HostRuntime) -> Result<(), Fail> {
    let all = [(0, 0, 34, Op::Black)];
    let both = copies(rt.alloc(), &all, label(34, false), 0)?;
    each_shows(&rt, &both, [0; 5], 0);
    each_took(&rt, &both, 2, 6);
    Ok(())
}

#[test]
fn the_order_of_closing(rt: HostRuntime) -> Result<(), Fail> {
    let black_first = [(32, 8, 1, Op::Black), (0, 8, 64, Op::Flip)];
    let both = copies(rt.alloc(), &black_first, label(64, false), 30)?;
    each_shows(&rt, &both, [0xff, 0xff, 0, 0xff, 0xff], 63);
    let black_last = [(0, 8, 64, Op::Flip), (32, 8, 1, Op::Black)];
    let both = copies(rt.alloc(), &black_last, label(64, false), 30)?;
    each_shows(&rt, &both, [0xff; 5], 64);
    Ok(())
}
