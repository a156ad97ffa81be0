//! How long painting takes, a row, beside copying or filling as many bytes.
ghost use Rattle.std.specs.Prelude.{◌≡◌, length, replicate};

use crate::measure::{copy, least};
use anyhow::Result;
use std::io;
use std::rt::Clock;
use vp_dots::{Band, Op, fill_dots, or_into};

const ROUNDS: u32 = 40_000;

/// What is done to each row of a band.
#[derive(Clone, Copy)]
enum Work {
    Copy,
    OrInto(i64),
    FillBytes,
    FillDots(u64, u64),
}

#[inline(never)]
fn fill(row: &mut [u8])
    ensures { row.new ≡ replicate (length row.old) 255 }
{
    row.fill(0xff);
}

fn paint(work: Work, source: &[u8], band: &mut Band<72, 64>) {
    for y in 0..64usize {
        let row = band.row_mut(y);
        match work {
            Work::Copy => copy(source, row),
            Work::OrInto(at) => or_into(source, at, row),
            Work::FillBytes => fill(row),
            Work::FillDots(from, to) => fill_dots(Op::Black, from, to, row),
        }
    }
}

/// The least time of a row.
fn row(rt: &impl Clock, work: Work, band: &mut Band<72, 64>) -> io::Result<f64> {
    let source = [0x5a; 72];
    Ok(least(rt, ROUNDS, || paint(work, &source, band))? / 64.0)
}

fn show_or_into(rt: &(impl Clock + Print), band: &mut Band<72, 64>, copied: f64) -> io::Result<()> {
    for at in [0i64, 16, -24, 1, 3, 9, -5, -13] {
        let painted = row(rt, Work::OrInto(at), band)?;
        println!(rt;
            "or_into of 72 bytes at {at:>3}: {painted:.1} ns, {:.1} times",
            painted / copied
        )?;
    }
    Ok(())
}

fn show_fill_dots(
    rt: &(impl Clock + Print),
    band: &mut Band<72, 64>,
    filled: f64,
) -> io::Result<()> {
    for (from, to) in [(0u64, 576u64), (3, 571)] {
        let painted = row(rt, Work::FillDots(from, to), band)?;
        println!(rt;
            "fill_dots from {from} to {to}: {painted:.1} ns, {:.1} times",
            painted / filled
        )?;
    }
    Ok(())
}

fn show(rt: &(impl Clock + Print), band: &mut Band<72, 64>) -> io::Result<()> {
    let copied = row(rt, Work::Copy, band)?;
    println!(rt; "copying 72 bytes: {copied:.1} ns")?;
    show_or_into(rt, band, copied)?;
    let filled = row(rt, Work::FillBytes, band)?;
    println!(rt; "filling 72 bytes: {filled:.1} ns")?;
    show_fill_dots(rt, band, filled)
}

/// Prints the times.
pub fn run(rt: &(impl AllocGlobal + Clock + Print)) -> Result<()> {
    let mut band = Band::new(rt.alloc())?;
    show(rt, &mut band)?;
    Ok(())
}
