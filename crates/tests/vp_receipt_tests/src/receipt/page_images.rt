//! Rasters and symbols on a page.
use super::page_runs::push_words;
use super::{Case, Strip, printed, right};
use crate::checks::{all_hold, same};
use std::alloc::{AllocError, Global};
use std::test::Fail;
use vp_receipt::Width;

static DIRECTIONS: [Case; 4] = [
    (
        b"\x1BL\x1BW\0\0\0\0\x10\0\x08\0\x1BT\x00\x1Dv0\0\x01\0\x01\0\xE0\x0C",
        &[Strip {
            head: b"P4\n576 8\n",
            rows: &[(1, b"\xE0"), (7, b"")],
        }],
    ),
    (
        b"\x1BL\x1BW\0\0\0\0\x10\0\x08\0\x1BT\x01\x1Dv0\0\x01\0\x01\0\xE0\x0C",
        &[Strip {
            head: b"P4\n576 8\n",
            rows: &[(5, b""), (3, b"\x80")],
        }],
    ),
    (
        b"\x1BL\x1BW\0\0\0\0\x10\0\x08\0\x1BT\x02\x1Dv0\0\x01\0\x01\0\xE0\x0C",
        &[Strip {
            head: b"P4\n576 8\n",
            rows: &[(7, b""), (1, b"\0\x07")],
        }],
    ),
    (
        b"\x1BL\x1BW\0\0\0\0\x10\0\x08\0\x1BT\x03\x1Dv0\0\x01\0\x01\0\xE0\x0C",
        &[Strip {
            head: b"P4\n576 8\n",
            rows: &[(3, b"\0\x01"), (5, b"")],
        }],
    ),
];

#[test]
fn a_raster_in_each_direction(rt: HostRuntime) -> Result<(), Fail> {
    right(&rt, rt.alloc(), Width::W576, &DIRECTIONS)
}

static AREAS: [Case; 3] = [
    // One of two areas made white.
    (
        b"\x1BL\x1BW\0\0\0\0\x08\0\x01\0\x1Dv0\0\x01\0\x01\0\xFF\
        \x1BW\x08\0\0\0\x08\0\x01\0\x1Dv0\0\x01\0\x01\0\xFF\x18\x0C",
        &[Strip {
            head: b"P4\n576 1\n",
            rows: &[(1, b"\xFF")],
        }],
    ),
    // Below a vertical position.
    (
        b"\x1BL\x1BW\0\0\0\0\x08\0\x04\0\x1D$\x02\0\x1Dv0\0\x01\0\x01\0\xFF\x0C",
        &[Strip {
            head: b"P4\n576 4\n",
            rows: &[(2, b""), (1, b"\xFF"), (1, b"")],
        }],
    ),
    // Printed, and then made white.
    (
        b"\x1BL\x1BW\0\0\0\0\x08\0\x02\0\x1Dv0\0\x01\0\x01\0\xFF\x1B\x0C\x18\x0C",
        &[
            Strip {
                head: b"P4\n576 2\n",
                rows: &[(1, b"\xFF"), (1, b"")],
            },
            Strip {
                head: b"P4\n576 2\n",
                rows: &[(2, b"")],
            },
        ],
    ),
];

#[test]
fn rasters_in_areas(rt: HostRuntime) -> Result<(), Fail> {
    right(&rt, rt.alloc(), Width::W576, &AREAS)
}

static BELOW_EACH_OTHER: [Case; 1] = [(
    b"\x1BL\x1BW\0\0\0\0\x10\0\x2D\0M\x1Dv0\0\x01\0\x02\0\xFF\x81\
    \x1Dv0\x03\x01\0\x01\0\x1E\x1Dv0\0\x01\0\x01\0\xFF\x0C",
    &[Strip {
        head: b"P4\n576 45\n",
        rows: &[
            (24, b"\xFF\xF0"),
            (10, b""),
            (1, b"\xFF"),
            (1, b"\x81"),
            (2, b"\x03\xFC"),
            (1, b"\xFF"),
            (6, b""),
        ],
    }],
)];

#[test]
fn rasters_below_each_other(rt: HostRuntime) -> Result<(), Fail> {
    right(&rt, rt.alloc(), Width::W576, &BELOW_EACH_OTHER)
}

static PAST_THE_DEPTH: [Case; 2] = [
    (
        b"\x1BW\0\0\x0A\0\x08\0\x04\0\x1BL\x1D$\x64\0\x1Dv0\0\x01\0\x01\0\xFF\
        \x1BW\0\0\0\0\x08\0\x04\0\x0C",
        &[Strip {
            head: b"P4\n576 14\n",
            rows: &[(14, b"")],
        }],
    ),
    // A raster of no bytes counts for nothing.
    (
        b"\x1BW\0\0\x0A\0\x08\0\x04\0\x1BL\x1D$\x64\0\x1Dv0\0\0\0\x01\0\
        \x1BW\0\0\0\0\x08\0\x04\0\x0C",
        &[Strip {
            head: b"P4\n576 4\n",
            rows: &[(4, b"")],
        }],
    ),
];

#[test]
fn rasters_past_the_depth_count_for_the_page(rt: HostRuntime) -> Result<(), Fail> {
    right(&rt, rt.alloc(), Width::W576, &PAST_THE_DEPTH)
}

/// Sends a page whose lines run down, with a raster of one row: white up to a byte, and then each eighth dot
/// black.
fn send_long_row(sent: &mut Vec<u8>, scale: u8, bytes: u16, at: u16) -> Result<(), AllocError> {
    sent.extend_from_slice(b"\x1BL\x1BT\x03\x1Dv0")?;
    sent.push(scale)?;
    push_words(sent, &[bytes, 1])?;
    for i in 0..bytes {
        sent.push(if i < at { 0 } else { 0x01 })?;
    }
    sent.push(0x0C)?;
    Ok(())
}

/// How many bytes are 1.
fn ones(paper: &[u8]) -> usize {
    let mut black = 0usize;
    for byte in paper {
        if *byte == 0x01 {
            black = black.saturating_add(1);
        }
    }
    black
}

/// The scale of a row, its bytes, the byte up to which it is white, and how many bytes of the page are 1.
static LONG_ROWS: [(u8, u16, u16, usize); 4] = [
    (0, 208, 207, 1),
    (0, 300, 207, 1),
    (1, 104, 103, 2),
    (1, 150, 103, 2),
];

/// How many bytes a page with the row has, how many of them are 1, and the last one.
fn long_row(
    alloc: Global,
    scale: u8,
    bytes: u16,
    at: u16,
) -> Result<(usize, usize, Option<u8>), Fail> {
    let mut sent = Vec::new(alloc);
    send_long_row(&mut sent, scale, bytes, at)?;
    let paper = printed(alloc, Width::W576, &[sent.as_slice()], 4096)?;
    let page = paper.as_slice();
    Ok((page.len(), ones(page), page.last().copied()))
}

/// Rows as long as the longest line of a page: the last dot of 1,664 is kept, what comes after it is not
/// seen.
#[test]
fn a_raster_as_long_as_the_page(rt: HostRuntime) -> Result<(), Fail> {
    for (scale, bytes, at, black) in &LONG_ROWS {
        let found = long_row(rt.alloc(), *scale, *bytes, *at)?;
        same(&rt, &found, &(12 + 1664 * 72, *black, Some(0x01)));
    }
    Ok(())
}

/// Whether `sent` prints an image with this header on paper, black in its first row, and the same on a page
/// that begins with `head`.
fn same_on_a_page(alloc: Global, head: &[u8], sent: &[u8], header: &[u8]) -> Result<bool, Fail> {
    let paper = printed(alloc, Width::W576, &[sent], 4096)?;
    let page = printed(alloc, Width::W576, &[head, sent, b"\x0C"], 4096)?;
    let begins = paper.as_slice().starts_with(header);
    Ok(begins && page.as_slice() == paper.as_slice())
}

#[test]
fn symbols_are_the_same_on_a_page(rt: HostRuntime) -> Result<(), Fail> {
    let bars = b"\x1Dh\x28\x1DH\x02\x1Dk\x04A1\0";
    let qr = b"\x1D(k\x0E\x001P0HELLO WORLD\x1D(k\x03\x001Q0";
    let agree = [
        same_on_a_page(
            rt.alloc(),
            b"\x1BL\x1BW\0\0\0\0\x40\x02\x40\0",
            bars,
            b"P4\n576 64\n\xE0\x1C\x7F",
        )?,
        same_on_a_page(
            rt.alloc(),
            b"\x1BL\x1BW\0\0\0\0\x40\x02\x3F\0",
            qr,
            b"P4\n576 63\n\xFF\xFF\xF8",
        )?,
    ];
    all_hold(&rt, &agree);
    Ok(())
}
