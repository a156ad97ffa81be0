//! Lines on a page: their directions, areas and positions, and what is printed of it.
use super::{Case, Strip, apply, new_receipt, prints, right};
use crate::checks::same;
use std::alloc::Global;
use std::process::Abort;
use std::test::Fail;
use vp_esc::EscItem;
use vp_receipt::{Receipt, Width};

static DIRECTIONS: [Case; 4] = [
    (
        b"\x1BL\x1BW\0\0\0\0\x10\0\x1E\0\x1BT\x00M\x0C",
        &[Strip {
            head: b"P4\n576 30\n",
            rows: &[(24, b"\xFF\xF0"), (6, b"")],
        }],
    ),
    (
        b"\x1BL\x1BW\0\0\0\0\x20\0\x10\0\x1BT\x01M\x0C",
        &[Strip {
            head: b"P4\n576 16\n",
            rows: &[(4, b""), (12, b"\xFF\xFF\xFF")],
        }],
    ),
    (
        b"\x1BL\x1BW\0\0\0\0\x10\0\x1E\0\x1BT\x02M\x0C",
        &[Strip {
            head: b"P4\n576 30\n",
            rows: &[(6, b""), (24, b"\x0F\xFF")],
        }],
    ),
    (
        b"\x1BL\x1BW\0\0\0\0\x20\0\x10\0\x1BT\x03M\x0C",
        &[Strip {
            head: b"P4\n576 16\n",
            rows: &[(12, b"\0\xFF\xFF\xFF"), (4, b"")],
        }],
    ),
];

#[test]
fn a_line_in_each_direction(rt: HostRuntime) -> Result<(), Fail> {
    right(&rt, rt.alloc(), Width::W576, &DIRECTIONS)
}

static AREAS: [Case; 2] = [
    // A line as long as its area.
    (
        b"\x1BL\x1BW\0\0\0\0\x40\0\x14\0\x1BT\x01MM\x0C",
        &[Strip {
            head: b"P4\n576 20\n",
            rows: &[(8, b""), (12, b"\xFF\xFF\xFF\0\x3F\xFF\xFF\xC0")],
        }],
    ),
    // One of two areas made white.
    (
        b"\x1BL\x1BW\0\0\0\0\x10\0\x18\0M\x1BW\x10\0\0\0\x10\0\x18\0M\x18\x0C",
        &[Strip {
            head: b"P4\n576 24\n",
            rows: &[(24, b"\xFF\xF0")],
        }],
    ),
];

#[test]
fn areas(rt: HostRuntime) -> Result<(), Fail> {
    right(&rt, rt.alloc(), Width::W576, &AREAS)
}

/// Two Ms in one line of a page.
const BESIDE: Strip = Strip {
    head: b"P4\n576 24\n",
    rows: &[(24, b"\xFF\xFF\xFF")],
};

static POSITIONS: [Case; 4] = [
    (
        b"\x1BL\x1BW\0\0\0\0\x10\0\x28\0\x1D$\x08\0M\x0C",
        &[Strip {
            head: b"P4\n576 40\n",
            rows: &[(8, b""), (24, b"\xFF\xF0"), (8, b"")],
        }],
    ),
    (b"\x1BL\x1BW\0\0\0\0\x20\0\x18\0M\x1D$\0\0M\x0C", &[BESIDE]),
    // The position stops at 65,535.
    (
        b"\x1BL\x1BW\0\0\0\0\x20\0\x18\0\x1D$\xFF\xFF\n\x1D\\\0\x80\x1D\\\x01\x80\x1D\\\xFF\xFFMM\x0C",
        &[BESIDE],
    ),
    // A cut isn't obeyed on a page.
    (
        b"\x1BL\x1BW\0\0\0\0\x10\0\x3C\0\x1B3\x1EM\x1DV\0\nM\n\x0C",
        &[Strip {
            head: b"P4\n576 60\n",
            rows: &[(24, b"\xFF\xF0"), (6, b""), (24, b"\xFF\xF0"), (6, b"")],
        }],
    ),
];

#[test]
fn positions_on_a_page(rt: HostRuntime) -> Result<(), Fail> {
    right(&rt, rt.alloc(), Width::W576, &POSITIONS)
}

static PAGES: [Case; 2] = [
    // The lower of two areas ends the page.
    (
        b"\x1BL\x1BW\0\0\x64\0\x10\0\x0A\0\x1BW\0\0\0\0\x10\0\x18\0M\x0C",
        &[Strip {
            head: b"P4\n576 110\n",
            rows: &[(24, b"\xFF\xF0"), (86, b"")],
        }],
    ),
    // A page that is given up.
    (
        b"\x1BLM\x1BS\n",
        &[Strip {
            head: b"P4\n576 34\n",
            rows: &[(34, b"")],
        }],
    ),
];

const NARROW_PAGE: Strip = Strip {
    head: b"P4\n384 24\n",
    rows: &[(24, b"\xFF\xF0")],
};

/// A page that is printed twice.
static NARROW_PAGES: [Case; 1] = [(
    b"\x1BL\x1BW\0\0\0\0\x10\0\x18\0M\x1B\x0C\x0C",
    &[NARROW_PAGE, NARROW_PAGE],
)];

#[test]
fn pages_are_printed(rt: HostRuntime) -> Result<(), Fail> {
    right(&rt, rt.alloc(), Width::W576, &PAGES)?;
    right(&rt, rt.alloc(), Width::W384, &NARROW_PAGES)
}

static WHOLE_PAGE: [Strip; 1] = [Strip {
    head: b"P4\n576 1664\n",
    rows: &[(1664, b"")],
}];

static WHOLE_NARROW_PAGE: [Strip; 1] = [Strip {
    head: b"P4\n384 1664\n",
    rows: &[(1664, b"")],
}];

/// A page on which nothing stands is printed as these strips.
fn prints_page(rt: &impl Abort, alloc: Global, width: Width, strips: &[Strip]) -> Result<(), Fail> {
    let is = prints(alloc, width, b"\x1BL\x0C", strips, 4096)?;
    assert!(rt; is, "{width:?}");
    Ok(())
}

#[test]
fn whole_pages_are_printed(rt: HostRuntime) -> Result<(), Fail> {
    prints_page(&rt, rt.alloc(), Width::W576, &WHOLE_PAGE)?;
    prints_page(&rt, rt.alloc(), Width::W384, &WHOLE_NARROW_PAGE)
}

/// Whether a receipt is at rest, whether anything is pending, and the rows of its page.
fn state(receipt: &Receipt) -> (bool, bool, u16) {
    (receipt.at_rest(), receipt.pending(), receipt.page_rows())
}

#[test]
fn a_page_is_no_rest(rt: HostRuntime) -> Result<(), Fail> {
    let mut receipt = new_receipt(rt.alloc(), Width::W576)?;
    same(&rt, &state(&receipt), &(true, false, 0));
    let _ = apply(&mut receipt, &EscItem::PageMode);
    same(&rt, &state(&receipt), &(false, false, 1664));
    Ok(())
}
