//! Lines of text: their places and styles, columns in them, and the cuts behind them.
use super::{Case, M, Strip, new_receipt, print_on, right, wanted};
use crate::checks::same;
use std::alloc::Global;
use std::process::Abort;
use std::test::Fail;
use vp_receipt::{Receipt, Width};

static LINES: [Case; 7] = [
    (
        b"\n",
        &[Strip {
            head: b"P4\n576 34\n",
            rows: &[(34, b"")],
        }],
    ),
    (b"\x1BJ\0", &[]),
    (b"M\n", &[M]),
    (b"M\x1Ba\x01\n", &[M]),
    (
        b"\x1D!\x11M\x1D!\0M\n",
        &[Strip {
            head: b"P4\n576 48\n",
            rows: &[(24, b"\xFF\xFF\xFF"), (24, b"\xFF\xFF\xFF\xFF\xF0")],
        }],
    ),
    (
        b"\x1Bd\x02",
        &[Strip {
            head: b"P4\n576 68\n",
            rows: &[(68, b"")],
        }],
    ),
    (
        b"M\x1Bd\0",
        &[Strip {
            head: b"P4\n576 24\n",
            rows: &[(24, b"\xFF\xF0")],
        }],
    ),
];

#[test]
fn lines(rt: HostRuntime) -> Result<(), Fail> {
    right(&rt, rt.alloc(), Width::W576, &LINES)
}

static FULL_LINE: [Case; 1] = [(
    b"MMMMMMMMMMMMMMMMMMMMMMMMMMMMMMMMMMMMMMMMMMMMMMMMM\n",
    &[
        Strip {
            head: b"P4\n576 34\n",
            rows: &[(24, &[0xff; 72]), (10, b"")],
        },
        M,
    ],
)];

static FULL_NARROW_LINE: [Case; 1] = [(
    b"MMMMMMMMMMMMMMMMMMMMMMMMMMMMMMMMM\n",
    &[
        Strip {
            head: b"P4\n384 34\n",
            rows: &[(24, &[0xff; 48]), (10, b"")],
        },
        NARROW_M,
    ],
)];

/// The line of an M on the narrow paper.
const NARROW_M: Strip = Strip {
    head: b"P4\n384 34\n",
    rows: &[(24, b"\xFF\xF0"), (10, b"")],
};

#[test]
fn a_full_line_and_one_more(rt: HostRuntime) -> Result<(), Fail> {
    right(&rt, rt.alloc(), Width::W576, &FULL_LINE)?;
    right(&rt, rt.alloc(), Width::W384, &FULL_NARROW_LINE)
}

static PLACES: [Case; 4] = [
    (
        b"\tM\n",
        &[Strip {
            head: b"P4\n576 34\n",
            rows: &[(24, b"\0\0\0\0\0\0\0\0\0\0\0\0\xFF\xF0"), (10, b"")],
        }],
    ),
    (
        b"\x1Ba\x02M\n",
        &[Strip {
            head: b"P4\n576 34\n",
            rows: &[
                (
                    24,
                    b"\
            \0\0\0\0\0\0\0\0\0\0\0\0\0\0\0\0\0\0\0\0\0\0\0\0\0\0\0\0\0\0\0\0\0\0\0\0\
            \0\0\0\0\0\0\0\0\0\0\0\0\0\0\0\0\0\0\0\0\0\0\0\0\0\0\0\0\0\0\0\0\0\0\x0F\
            \xFF",
                ),
                (10, b""),
            ],
        }],
    ),
    (
        b"\x1DL\x08\0M\n",
        &[Strip {
            head: b"P4\n576 34\n",
            rows: &[(24, b"\0\xFF\xF0"), (10, b"")],
        }],
    ),
    (b"\x1DW\x14\0MM\n", &[M, M]),
];

static NARROW_PLACES: [Case; 1] = [(b"\x1DL\x80\x01M\n", &[NARROW_M])];

#[test]
fn places(rt: HostRuntime) -> Result<(), Fail> {
    right(&rt, rt.alloc(), Width::W576, &PLACES)?;
    right(&rt, rt.alloc(), Width::W384, &NARROW_PLACES)
}

static LAST_STOP: [Case; 1] = [(
    b"\
        \x1BD\x01\x02\x03\x04\x05\x06\x07\x08\x09\x0A\x0B\x0C\x0D\x0E\x0F\x10\
        \x11\x12\x13\x14\x15\x16\x17\x18\x19\x1A\x1B\x1C\x1D\x1E\x1F\x20!\0\t\t\
        \t\t\t\t\t\t\t\t\t\t\t\t\t\t\t\t\t\t\t\t\t\t\t\t\t\t\t\t\t\t\tM\n",
    &[Strip {
        head: b"P4\n576 34\n",
        rows: &[
            (
                24,
                b"\
            \xFE\0\0\0\0\0\0\0\0\0\0\0\0\0\0\0\0\0\0\0\0\0\0\0\0\0\0\0\0\0\0\0\0\0\0\
            \0\0\0\0\0\0\0\0\0\0\0\0\0\xFF\xF0",
            ),
            (10, b""),
        ],
    }],
)];

#[test]
fn the_last_of_32_stops(rt: HostRuntime) -> Result<(), Fail> {
    right(&rt, rt.alloc(), Width::W576, &LAST_STOP)
}

static STYLES: [Case; 5] = [
    (
        b"\x1BE\x01B\n",
        &[Strip {
            head: b"P4\n576 34\n",
            rows: &[(24, b"\xC0"), (10, b"")],
        }],
    ),
    (
        b"\x1B-\x01\x1DB\x01M\n",
        &[Strip {
            head: b"P4\n576 34\n",
            rows: &[(34, b"")],
        }],
    ),
    (
        b"\x1B-\x02N\n",
        &[Strip {
            head: b"P4\n576 34\n",
            rows: &[(22, b""), (2, b"\xFF\xF0"), (10, b"")],
        }],
    ),
    (
        b"\x1BM\x01M\n",
        &[Strip {
            head: b"P4\n576 34\n",
            rows: &[(17, b"\xFF\x80"), (17, b"")],
        }],
    ),
    (
        b"\x1B!\x10M\n",
        &[Strip {
            head: b"P4\n576 48\n",
            rows: &[(48, b"\xFF\xF0")],
        }],
    ),
];

#[test]
fn styles(rt: HostRuntime) -> Result<(), Fail> {
    right(&rt, rt.alloc(), Width::W576, &STYLES)
}

static COLUMNS: [Case; 2] = [
    (
        b"\x1B*!\x01\0\x80\0\x01\n",
        &[Strip {
            head: b"P4\n576 34\n",
            rows: &[(1, b"\x80"), (22, b""), (1, b"\x80"), (10, b"")],
        }],
    ),
    (
        b"\x1B*\0\x02\0\x81\x01\n",
        &[Strip {
            head: b"P4\n576 34\n",
            rows: &[(3, b"\xC0"), (18, b""), (3, b"\xF0"), (10, b"")],
        }],
    ),
];

#[test]
fn columns(rt: HostRuntime) -> Result<(), Fail> {
    right(&rt, rt.alloc(), Width::W576, &COLUMNS)
}

/// A cut that leaves some of the paper.
const PARTIAL: Strip = Strip {
    head: b"P4\n576 1\n",
    rows: &[(
        1,
        b"\
        \xFF\0\xFF\0\xFF\0\xFF\0\xFF\0\xFF\0\xFF\0\xFF\0\xFF\0\xFF\0\xFF\0\xFF\0\
        \xFF\0\xFF\0\xFF\0\xFF\0\xFF\0\xFF\0\xFF\0\xFF\0\xFF\0\xFF\0\xFF\0\xFF\0\
        \xFF\0\xFF\0\xFF\0\xFF\0\xFF\0\xFF\0\xFF\0\xFF\0\xFF\0\xFF\0\xFF\0\xFF\0",
    )],
};

static CUTS: [Case; 2] = [
    (
        b"\x1DV\x42\x02",
        &[
            Strip {
                head: b"P4\n576 2\n",
                rows: &[(2, b"")],
            },
            PARTIAL,
        ],
    ),
    (b"M\x1Bi", &[M, PARTIAL]),
];

static NARROW_CUTS: [Case; 1] = [(
    b"\x1DV\0",
    &[Strip {
        head: b"P4\n384 1\n",
        rows: &[(1, &[0xff; 48])],
    }],
)];

#[test]
fn cuts(rt: HostRuntime) -> Result<(), Fail> {
    right(&rt, rt.alloc(), Width::W576, &CUTS)?;
    right(&rt, rt.alloc(), Width::W384, &NARROW_CUTS)
}

static THREE: [Strip; 1] = [Strip {
    head: b"P4\n576 34\n",
    rows: &[(24, b"\xFF\xFF\xFF\xFF\xF0"), (10, b"")],
}];

/// Takes three letters as a run of text where there is room for it: whether anything was pending, the room in
/// the line before and after, and the height of the line.
fn take_three(receipt: &mut Receipt) -> (bool, usize, usize, u16) {
    let pending = receipt.pending();
    let room = receipt.text_room();
    if !pending && room >= 4 {
        receipt.apply_text(b"M\x0DMM");
    }
    (pending, room, receipt.text_room(), receipt.line_rows())
}

/// A line feed is obeyed, and prints the three letters.
fn three_are_printed(rt: &impl Abort, alloc: Global, receipt: &mut Receipt) -> Result<(), Fail> {
    let mut paper = Vec::new(alloc);
    let fault = print_on(receipt, b"\n", 4096, &mut paper)?;
    let want = wanted(alloc, Width::W576, &THREE)?;
    same(rt, &(fault, paper.as_slice()), &(None, want.as_slice()));
    Ok(())
}

#[test]
fn a_run_of_text(rt: HostRuntime) -> Result<(), Fail> {
    let mut receipt = new_receipt(rt.alloc(), Width::W576)?;
    same(&rt, &take_three(&mut receipt), &(false, 48, 45, 24));
    three_are_printed(&rt, rt.alloc(), &mut receipt)
}
