//! Rasters on paper, in runs of bytes and byte by byte: what they print is painted dot by dot.
use super::page_runs::{push_words, some_bytes};
use super::plain::{Dots, Ground, image};
use super::{new_receipt, print_whole, put_all};
use crate::checks::all_hold;
use std::alloc::{AllocError, Global};
use std::test::Fail;
use vp_esc::EscItem;
use vp_receipt::{Receipt, Width};

/// Takes `bytes` of a raster in runs of at most `run` bytes, with `room` bytes for what each run prints; one
/// by one where there is no room for a run.
fn take_in_runs(
    receipt: &mut Receipt,
    bytes: &[u8],
    run: usize,
    room: usize,
    paper: &mut Vec<u8>,
) -> Result<(), AllocError> {
    let mut out = [0u8; 4096];
    let mut rest = bytes;
    for _ in 0..bytes.len() {
        if receipt.pending() || rest.is_empty() {
            return Ok(());
        }
        let n = receipt.rows_room(room.min(4096)).min(run).min(rest.len());
        if n > 0 {
            let put = receipt.put_rows(&rest[..n], &mut out[..room.min(4096)]);
            paper.extend_from_slice(&out[..put.min(4096)])?;
            rest = &rest[n..];
        } else {
            let _ = receipt.apply(&EscItem::RasterByte(rest[0]));
            rest = &rest[1..];
            put_all(receipt, 4096, paper)?;
        }
    }
    Ok(())
}

/// What `head` prints with a raster's bytes in runs of at most `run` behind it.
fn paper_in_runs(
    alloc: Global,
    width: Width,
    head: &[u8],
    bytes: &[u8],
    run: usize,
    room: usize,
) -> Result<Vec<u8>, Fail> {
    let mut receipt = new_receipt(alloc, width)?;
    let mut paper = Vec::new(alloc);
    print_whole(&mut receipt, head, 4096, &mut paper)?;
    take_in_runs(&mut receipt, bytes, run, room, &mut paper)?;
    Ok(paper)
}

/// A run, and the room for what it prints; a run of none is byte by byte.
static RUNS: [(usize, usize); 7] = [
    (0, 4096),
    (1, 4096),
    (71, 72),
    (10000, 71),
    (10000, 145),
    (100, 4096),
    (10000, 4096),
];

/// A raster of 21 rows: what is set before it, its scale and the bytes of a row, and where it is printed: how
/// many dots from the left, and after how many it is cut.
#[derive(Clone, Copy)]
struct OnPaper {
    width: Width,
    before: &'static [u8],
    scale: u8,
    bytes: u16,
    left: usize,
    length: usize,
}

/// As wide as the paper.
const WHOLE: OnPaper = OnPaper {
    width: Width::W576,
    before: b"",
    scale: 0,
    bytes: 72,
    left: 0,
    length: 576,
};

static RASTERS: [OnPaper; 7] = [
    WHOLE,
    // at the right of narrow paper
    OnPaper {
        width: Width::W384,
        before: b"\x1Ba\x02",
        bytes: 48,
        length: 384,
        ..WHOLE
    },
    OnPaper { scale: 1, ..WHOLE },
    OnPaper { scale: 2, ..WHOLE },
    // 568 dots at the right
    OnPaper {
        before: b"\x1Ba\x02",
        bytes: 71,
        left: 8,
        ..WHOLE
    },
    // a margin of a dot, which the line is shorter by
    OnPaper {
        before: b"\x1DL\x01\x00",
        left: 1,
        length: 575,
        ..WHOLE
    },
    // an area of 575 dots
    OnPaper {
        before: b"\x1DW\x3F\x02",
        length: 575,
        ..WHOLE
    },
];

/// The head of the raster, and what is set before it.
fn head(alloc: Global, raster: &OnPaper) -> Result<Vec<u8>, AllocError> {
    let mut head = Vec::new(alloc);
    head.extend_from_slice(raster.before)?;
    head.extend_from_slice(&[0x1D, b'v', b'0', raster.scale])?;
    push_words(&mut head, &[raster.bytes, 21])?;
    Ok(head)
}

/// The image that it prints.
fn strip(alloc: Global, raster: &OnPaper, came: &[u8]) -> Result<Vec<u8>, Fail> {
    let width = match raster.width {
        Width::W576 => 576,
        Width::W384 => 384,
    };
    let dots = Dots {
        bytes: came,
        row: usize::from(raster.bytes),
        scale: raster.scale,
    };
    let (left, length) = (raster.left, raster.length);
    image(
        alloc,
        width,
        dots.high(),
        &dots,
        Ground::Paper { left, length },
    )
}

/// Whether it prints what it must in any runs.
fn right_in_runs(alloc: Global, raster: &OnPaper) -> Result<bool, Fail> {
    let head = head(alloc, raster)?;
    let came = some_bytes(alloc, u32::from(raster.bytes).wrapping_mul(21))?;
    let want = strip(alloc, raster, came.as_slice())?;
    for (run, room) in RUNS {
        let (sent, width) = (head.as_slice(), raster.width);
        let paper = paper_in_runs(alloc, width, sent, came.as_slice(), run, room)?;
        if paper.as_slice() != want.as_slice() {
            return Ok(false);
        }
    }
    Ok(true)
}

#[test]
fn rasters_in_runs_on_paper(rt: HostRuntime) -> Result<(), Fail> {
    let mut agree = [false; 7];
    for n in 0..7usize {
        agree[n] = right_in_runs(rt.alloc(), &RASTERS[n])?;
    }
    all_hold(&rt, &agree);
    Ok(())
}
