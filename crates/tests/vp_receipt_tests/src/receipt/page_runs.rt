//! Rasters on a page, in runs of bytes and byte by byte: what they print is painted dot by dot.
use super::plain::{Dots, Ground, cut, image};
use super::{Strip, new_receipt, print_whole, wanted};
use crate::checks::all_hold;
use std::alloc::{AllocError, Global};
use std::test::Fail;
use vp_esc::EscItem;
use vp_receipt::{Receipt, Width};

/// Takes `bytes` of a raster in runs of at most `run` bytes; one by one where there is no room for a run.
fn take_in_runs(receipt: &mut Receipt, bytes: &[u8], run: usize) {
    let mut rest = bytes;
    for _ in 0..bytes.len() {
        let n = receipt.raster_room().min(run).min(rest.len());
        if receipt.pending() || rest.is_empty() {
            return;
        }
        if n > 0 {
            receipt.apply_raster(&rest[..n]);
            rest = &rest[n..];
        } else {
            let _ = receipt.apply(&EscItem::RasterByte(rest[0]));
            rest = &rest[1..];
        }
    }
}

/// Prints a page that begins so, with a raster on it whose bytes come in runs.
fn print_in_runs(
    receipt: &mut Receipt,
    head: &[u8],
    bytes: &[u8],
    run: usize,
    paper: &mut Vec<u8>,
) -> Result<(), Fail> {
    print_whole(receipt, head, 4096, paper)?;
    take_in_runs(receipt, bytes, run);
    print_whole(receipt, b"\x0C", 4096, paper)
}

/// What a page that begins with `head` prints, with a raster's bytes in runs of at most `run` behind it.
fn page_in_runs(alloc: Global, head: &[u8], bytes: &[u8], run: usize) -> Result<Vec<u8>, Fail> {
    let mut receipt = new_receipt(alloc, Width::W576)?;
    let mut paper = Vec::new(alloc);
    print_in_runs(&mut receipt, head, bytes, run, &mut paper)?;
    Ok(paper)
}

/// Whether it prints this in each of these runs.
fn prints_in_runs(
    alloc: Global,
    head: &[u8],
    bytes: &[u8],
    runs: &[usize],
    want: &[u8],
) -> Result<bool, Fail> {
    for run in runs {
        let paper = page_in_runs(alloc, head, bytes, *run)?;
        if paper.as_slice() != want {
            return Ok(false);
        }
    }
    Ok(true)
}

/// Bytes of which none are alike near each other.
pub fn some_bytes(alloc: Global, count: u32) -> Result<Vec<u8>, AllocError> {
    let mut bytes = Vec::new(alloc);
    for i in 0..count {
        bytes.push((i.wrapping_mul(197).wrapping_add(i / 7) % 251) as u8)?;
    }
    Ok(bytes)
}

/// A raster on a page.
#[derive(Drop)]
struct OnPage {
    /// The area: its place, width and height.
    area: [u16; 4],
    scale: u8,
    bytes: u16,
    rows: u16,
}

pub fn push_words(sent: &mut Vec<u8>, words: &[u16]) -> Result<(), AllocError> {
    for word in words {
        sent.push((*word % 256) as u8)?;
        sent.push((*word / 256) as u8)?;
    }
    Ok(())
}

/// A page with an area and a direction, and the head of the raster.
fn head(alloc: Global, raster: &OnPage, direction: u8) -> Result<Vec<u8>, AllocError> {
    let mut sent = Vec::new(alloc);
    sent.extend_from_slice(b"\x1BL\x1BW")?;
    push_words(&mut sent, &raster.area)?;
    sent.extend_from_slice(&[0x1B, b'T', direction, 0x1D, b'v', b'0', raster.scale])?;
    push_words(&mut sent, &[raster.bytes, raster.rows])?;
    Ok(sent)
}

/// What the page shows, down to the lower edge of the area.
fn page(alloc: Global, raster: &OnPage, direction: u8, came: &[u8]) -> Result<Vec<u8>, Fail> {
    let dots = Dots {
        bytes: came,
        row: usize::from(raster.bytes),
        scale: raster.scale,
    };
    let [_, y, _, high] = cut(raster.area);
    let area = raster.area;
    image(
        alloc,
        576,
        y.wrapping_add(high),
        &dots,
        Ground::Page { area, direction },
    )
}

/// A run of none is byte by byte.
static RUNS: [usize; 6] = [0, 1, 2, 10, 61, 10000];

/// Whether the raster prints what it must in any runs.
fn right_in_direction(alloc: Global, raster: &OnPage, direction: u8) -> Result<bool, Fail> {
    let head = head(alloc, raster, direction)?;
    let count = u32::from(raster.bytes).wrapping_mul(u32::from(raster.rows));
    let came = some_bytes(alloc, count)?;
    let want = page(alloc, raster, direction, came.as_slice())?;
    prints_in_runs(
        alloc,
        head.as_slice(),
        came.as_slice(),
        &RUNS,
        want.as_slice(),
    )
}

/// Whether it does in each direction.
fn right_in_runs(alloc: Global, raster: &OnPage) -> Result<bool, Fail> {
    for direction in 0..4u8 {
        if !right_in_direction(alloc, raster, direction)? {
            return Ok(false);
        }
    }
    Ok(true)
}

/// Whether it does in each scale.
fn right_in_scales(alloc: Global, area: [u16; 4], bytes: u16, rows: u16) -> Result<bool, Fail> {
    for scale in 0..4u8 {
        let raster = OnPage {
            area,
            scale,
            bytes,
            rows,
        };
        if !right_in_runs(alloc, &raster)? {
            return Ok(false);
        }
    }
    Ok(true)
}

#[test]
fn rasters_in_runs_on_a_page(rt: HostRuntime) -> Result<(), Fail> {
    let agree = right_in_scales(rt.alloc(), [9, 5, 60, 61], 3, 21)?;
    all_hold(&rt, &[agree]);
    Ok(())
}

#[test]
fn rasters_in_runs_past_their_area(rt: HostRuntime) -> Result<(), Fail> {
    let agree = [
        right_in_scales(rt.alloc(), [3, 0, 19, 12], 3, 30)?,
        right_in_scales(rt.alloc(), [560, 1650, 100, 100], 2, 26)?,
    ];
    all_hold(&rt, &agree);
    Ok(())
}

#[test]
fn rows_as_long_as_a_page_in_runs(rt: HostRuntime) -> Result<(), Fail> {
    let raster = OnPage {
        area: [0, 0, 576, 1664],
        scale: 0,
        bytes: 210,
        rows: 17,
    };
    let agree = right_in_runs(rt.alloc(), &raster)?;
    all_hold(&rt, &[agree]);
    Ok(())
}

static NINE_BYTES: [u8; 9] = [0x80, 0x40, 0x20, 0x10, 8, 4, 2, 1, 0xff];

static RUNS_OF_NINE: [usize; 5] = [0, 1, 4, 8, 9];

static UP: [Strip; 1] = [Strip {
    head: b"P4\n576 8\n",
    rows: &[
        (1, b"\x01\x80"),
        (1, b"\x02\x80"),
        (1, b"\x04\x80"),
        (1, b"\x08\x80"),
        (1, b"\x10\x80"),
        (1, b"\x20\x80"),
        (1, b"\x40\x80"),
        (1, b"\x80\x80"),
    ],
}];

static DOWN: [Strip; 1] = [Strip {
    head: b"P4\n576 8\n",
    rows: &[
        (1, b"\x01\x01"),
        (1, b"\x01\x02"),
        (1, b"\x01\x04"),
        (1, b"\x01\x08"),
        (1, b"\x01\x10"),
        (1, b"\x01\x20"),
        (1, b"\x01\x40"),
        (1, b"\x01\x80"),
    ],
}];

/// Whether nine rows print the strip in a direction, in any runs.
fn nine_rows(alloc: Global, direction: u8, strips: &[Strip]) -> Result<bool, Fail> {
    let raster = OnPage {
        area: [0, 0, 16, 8],
        scale: 0,
        bytes: 1,
        rows: 9,
    };
    let head = head(alloc, &raster, direction)?;
    let want = wanted(alloc, Width::W576, strips)?;
    prints_in_runs(
        alloc,
        head.as_slice(),
        &NINE_BYTES,
        &RUNS_OF_NINE,
        want.as_slice(),
    )
}

#[test]
fn nine_rows_in_runs(rt: HostRuntime) -> Result<(), Fail> {
    let agree = [
        nine_rows(rt.alloc(), 1, &UP)?,
        nine_rows(rt.alloc(), 3, &DOWN)?,
    ];
    all_hold(&rt, &agree);
    Ok(())
}
