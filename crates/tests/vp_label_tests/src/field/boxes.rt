//! Boxes, on labels that are put out in each way.
ghost use Rattle.std.specs.Prelude.{[]};
ghost use Rattle.vp_field.specs.Fields.{IsKept};

use super::{Label, Painter, Rows, shows, view_of};
use crate::sheets::NONE;
use std::test::Fail;
use vp_dots::Op;
use vp_format::{Content, Field, GraphicBox};
use vp_zpl::item::Orientation;

fn boxed(left: i16, top: i16, w: u16, h: u16, t: u16, op: Op) -> Field
    ensures { IsKept [] result }
{
    Field {
        op,
        left: i64::from(left),
        top: i64::from(top),
        rows: u32::from(h),
        orientation: Orientation::Normal,
        content: Content::Box(GraphicBox {
            width: w,
            height: h,
            thickness: t,
        }),
    }
}

/// Boxes painted one after the other: of each its place, width, height, thickness and how it paints.
struct BoxRow {
    name: &'static str,
    label: Label,
    first: u32,
    boxes: &'static [(i16, i16, u16, u16, u16, Op)],
    rows: Rows,
}

/// A black box, a white one and a reversing one over the end of a band.
const OVER_THE_END: &[(i16, i16, u16, u16, u16, Op)] = &[
    (0, 30, 8, 4, 4, Op::Black),
    (0, 32, 8, 1, 1, Op::White),
    (0, 31, 4, 3, 3, Op::Flip),
];

/// The left half of a row of eight dots.
const HALF: &[(i16, i16, u16, u16, u16, Op)] = &[(0, 0, 4, 1, 1, Op::Black)];

static BOX_ROWS: &[BoxRow] = &[
    BoxRow {
        name: "a box",
        label: (16, 4, false, false),
        first: 0,
        boxes: &[(2, 1, 5, 3, 1, Op::Black)],
        rows: &[
            (1, [0; 6]),
            (1, [0x3e, 0, 0, 0, 0, 0]),
            (1, [0x22, 0, 0, 0, 0, 0]),
            (1, [0x3e, 0, 0, 0, 0, 0]),
        ],
    },
    BoxRow {
        name: "a reversing box",
        label: (16, 2, false, false),
        first: 0,
        boxes: &[(0, 0, 8, 2, 2, Op::Black), (4, 0, 8, 2, 2, Op::Flip)],
        rows: &[(2, [0xf0, 0xf0, 0, 0, 0, 0])],
    },
    BoxRow {
        name: "the upper of two bands",
        label: (8, 34, false, false),
        first: 0,
        boxes: OVER_THE_END,
        rows: &[
            (30, [0; 6]),
            (1, [0xff, 0, 0, 0, 0, 0]),
            (1, [0x0f, 0, 0, 0, 0, 0]),
        ],
    },
    BoxRow {
        name: "the lower of two bands",
        label: (8, 34, false, false),
        first: 32,
        boxes: OVER_THE_END,
        rows: &[(1, [0xf0, 0, 0, 0, 0, 0]), (1, [0x0f, 0, 0, 0, 0, 0])],
    },
    BoxRow {
        name: "the upper of two bands upside down",
        label: (8, 34, true, false),
        first: 0,
        boxes: OVER_THE_END,
        rows: &[
            (1, [0xf0, 0, 0, 0, 0, 0]),
            (1, [0x0f, 0, 0, 0, 0, 0]),
            (1, [0xf0, 0, 0, 0, 0, 0]),
            (1, [0xff, 0, 0, 0, 0, 0]),
        ],
    },
    BoxRow {
        name: "the lower of two bands upside down",
        label: (8, 34, true, false),
        first: 32,
        boxes: OVER_THE_END,
        rows: &[],
    },
    BoxRow {
        name: "mirrored",
        label: (8, 1, false, true),
        first: 0,
        boxes: HALF,
        rows: &[(1, [0x0f, 0, 0, 0, 0, 0])],
    },
    BoxRow {
        name: "inverted",
        label: (8, 1, true, false),
        first: 0,
        boxes: HALF,
        rows: &[(1, [0x0f, 0, 0, 0, 0, 0])],
    },
    BoxRow {
        name: "mirrored, of seven dots",
        label: (7, 1, false, true),
        first: 0,
        boxes: HALF,
        rows: &[(1, [0x1e, 0, 0, 0, 0, 0])],
    },
    BoxRow {
        name: "inverted, of seven dots",
        label: (7, 1, true, false),
        first: 0,
        boxes: HALF,
        rows: &[(1, [0x1e, 0, 0, 0, 0, 0])],
    },
    BoxRow {
        name: "inverted and mirrored, of seven dots",
        label: (7, 1, true, true),
        first: 0,
        boxes: HALF,
        rows: &[(1, [0xf0, 0, 0, 0, 0, 0])],
    },
    BoxRow {
        name: "of seven dots",
        label: (7, 1, false, false),
        first: 0,
        boxes: HALF,
        rows: &[(1, [0xf0, 0, 0, 0, 0, 0])],
    },
    BoxRow {
        name: "a box over one that reverses",
        label: (8, 1, false, false),
        first: 0,
        boxes: &[(0, 0, 8, 1, 1, Op::Flip), (0, 0, 8, 1, 1, Op::Black)],
        rows: &[(1, [0xff, 0, 0, 0, 0, 0])],
    },
    BoxRow {
        name: "reversing boxes over one",
        label: (8, 1, false, false),
        first: 0,
        boxes: &[
            (0, 0, 8, 1, 1, Op::Black),
            (0, 0, 4, 1, 1, Op::Flip),
            (0, 0, 2, 1, 1, Op::Flip),
        ],
        rows: &[(1, [0xcf, 0, 0, 0, 0, 0])],
    },
];

#[test]
fn boxes(rt: HostRuntime) -> Result<(), Fail> {
    for case in BOX_ROWS {
        let mut page = Painter::new(rt.alloc(), view_of(case.label), case.first)?;
        for (left, top, w, h, t, op) in case.boxes {
            page.paint(&NONE, &[], &boxed(*left, *top, *w, *h, *t, *op));
        }
        shows(&rt, page, case.name, case.rows);
    }
    Ok(())
}
