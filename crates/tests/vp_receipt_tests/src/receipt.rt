//! What a receipt prints: what is sent, and the strips that come of it.
mod images;
mod lines;
mod page;
mod page_images;
mod page_runs;
mod paper_runs;
mod plain;
mod symbols;
mod work;

use std::alloc::{AllocError, Global};
use std::process::Abort;
use std::test::Fail;
use vp_dots::Fault;
use vp_esc::{EscItem, EscReader, Reading};
use vp_glyph::{Sheet, Sheets};
use vp_receipt::{Receipt, Width};

/// A sheet of font A in whose cell c the leftmost c mod 13 dots of each row are black.
fn stairs(alloc: Global) -> Result<Sheets, Fail> {
    let mut bytes = Vec::new(alloc);
    bytes.extend_from_slice(b"P4\n192 384\n")?;
    for y in 0..384usize {
        for i in 0..24usize {
            let mut byte = 0u8;
            for bit in 0..8usize {
                let x = 8 * i + bit;
                let c = y / 24 * 16 + x / 12;
                if x % 12 < c % 13 {
                    byte |= 0x80 >> bit;
                }
            }
            bytes.push(byte)?;
        }
    }
    let a = Sheet::read(alloc, bytes.as_slice(), 12, 24)?;
    Ok(Sheets {
        a: Some(a),
        b: None,
    })
}

/// A receipt on which nothing is printed yet.
fn new_receipt(alloc: Global, width: Width) -> Result<Receipt, Fail> {
    Ok(Receipt::new(alloc, stairs(alloc)?, width)?)
}

/// What is printed of `parts` that are sent, each of whole commands, put out by `room` bytes at a time.
fn printed(alloc: Global, width: Width, parts: &[&[u8]], room: usize) -> Result<Vec<u8>, Fail> {
    let mut receipt = new_receipt(alloc, width)?;
    let mut paper = Vec::new(alloc);
    for part in parts {
        print_whole(&mut receipt, part, room, &mut paper)?;
    }
    Ok(paper)
}

/// Goes on with whole commands, none of which is refused, putting out `room` bytes at a time.
fn print_whole(
    receipt: &mut Receipt,
    sent: &[u8],
    room: usize,
    paper: &mut Vec<u8>,
) -> Result<(), Fail> {
    match print_on(receipt, sent, room, paper)? {
        Some(fault) => Err(fault.into()),
        None => Ok(()),
    }
}

/// Goes on with whole commands, putting out `room` bytes at a time, and answers the first fault.
fn print_on(
    receipt: &mut Receipt,
    sent: &[u8],
    room: usize,
    paper: &mut Vec<u8>,
) -> Result<Option<Fault>, AllocError> {
    print_by(Reading::Profile, receipt, sent, room, paper)
}

/// The same by the commands of a reading.
fn print_by(
    reading: Reading,
    receipt: &mut Receipt,
    sent: &[u8],
    room: usize,
    paper: &mut Vec<u8>,
) -> Result<Option<Fault>, AllocError> {
    let mut reader = EscReader::new(reading);
    let mut fault = None;
    for byte in sent {
        let refused = match reader.take(*byte) {
            Ok(Some(item)) => apply(receipt, item),
            Ok(None) => None,
            Err(unknown) => Some(unknown),
        };
        put_all(receipt, room, paper)?;
        fault = fault.or(refused);
    }
    Ok(fault)
}

/// Applies an item where nothing is pending, and answers its fault.
fn apply(receipt: &mut Receipt, item: &EscItem) -> Option<Fault> {
    if receipt.pending() {
        return None;
    }
    receipt.apply(item).err()
}

fn put_all(receipt: &mut Receipt, room: usize, paper: &mut Vec<u8>) -> Result<(), AllocError> {
    let mut out = [0u8; 4096];
    for _ in 0..100000 {
        let n = receipt.put(&mut out[..room.min(4096)]);
        if n == 0 {
            return Ok(());
        }
        paper.extend_from_slice(&out[..n.min(4096)])?;
    }
    Ok(())
}

/// Appends `count` rows of `width` bytes that begin with `bytes` and go on white.
fn rows(paper: &mut Vec<u8>, count: usize, bytes: &[u8], width: usize) -> Result<(), AllocError> {
    for _ in 0..count {
        for x in 0..width {
            paper.push(if x < bytes.len() { bytes[x] } else { 0 })?;
        }
    }
    Ok(())
}

/// A strip as it is wanted: its header's text, and in `rows` how many rows are alike and how they begin.
struct Strip {
    head: &'static [u8],
    rows: &'static [(usize, &'static [u8])],
}

fn push_strip(paper: &mut Vec<u8>, strip: &Strip, width: usize) -> Result<(), AllocError> {
    paper.extend_from_slice(strip.head)?;
    for (count, row) in strip.rows {
        rows(paper, *count, row, width)?;
    }
    Ok(())
}

fn wanted(alloc: Global, width: Width, strips: &[Strip]) -> Result<Vec<u8>, AllocError> {
    let bytes = match width {
        Width::W576 => 72,
        Width::W384 => 48,
    };
    let mut paper = Vec::new(alloc);
    for strip in strips {
        push_strip(&mut paper, strip, bytes)?;
    }
    Ok(paper)
}

/// Whether `sent` has no fault and prints `strips` where `room` bytes are put out at a time.
fn prints(
    alloc: Global,
    width: Width,
    sent: &[u8],
    strips: &[Strip],
    room: usize,
) -> Result<bool, Fail> {
    let mut receipt = new_receipt(alloc, width)?;
    let mut paper = Vec::new(alloc);
    let fault = print_on(&mut receipt, sent, room, &mut paper)?;
    let want = wanted(alloc, width, strips)?;
    Ok(fault.is_none() && paper.as_slice() == want.as_slice())
}

/// What is sent, and the strips that are printed.
type Case = (&'static [u8], &'static [Strip]);

/// The first case that prints others, with ample room or a byte at a time.
fn wrong_case(alloc: Global, width: Width, cases: &[Case]) -> Result<Option<usize>, Fail> {
    for i in 0..cases.len() {
        let (sent, strips) = cases[i];
        for room in [4096, 1] {
            if !prints(alloc, width, sent, strips, room)? {
                return Ok(Some(i));
            }
        }
    }
    Ok(None)
}

/// Each case prints its strips on paper of this width, or the number of the first that doesn't is told.
fn right(rt: &impl Abort, alloc: Global, width: Width, cases: &[Case]) -> Result<(), Fail> {
    let wrong = wrong_case(alloc, width, cases)?;
    assert_eq!(rt; wrong, None, "{width:?}");
    Ok(())
}

/// The line of an M.
const M: Strip = Strip {
    head: b"P4\n576 34\n",
    rows: &[(24, b"\xFF\xF0"), (10, b"")],
};
