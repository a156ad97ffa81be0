//! How long a byte of a raster takes through the reader, beside counting it and beside copying it.
ghost use Rattle.std.specs.Prelude.{◌≡◌, ◌-◌, ◌==◌, if◌then◌else◌};

use crate::measure::{copying, least, some_bytes};
use anyhow::Result;
use std::io;
use std::rt::Clock;
use vp_esc::{EscItem, EscReader, Reading};

const ROUNDS: u32 = 200;

/// 64 rows of 72 bytes.
const BYTES: usize = 64 * 72;

/// A byte while some are left.
#[inline(never)]
fn counted(left: &mut u32, byte: u8) -> Option<u8>
    ensures left { left.new ≡ left.old - 1 }
    ensures byte { result ≡ (if left.old == 0 then None else Some byte) }
{
    if *left == 0 {
        return None;
    }
    *left -= 1;
    Some(byte)
}

#[inline(never)]
fn count(left: &mut u32, bytes: &[u8]) -> u64 {
    let mut sum = 0u64;
    for byte in bytes {
        if let Some(b) = counted(left, *byte) {
            sum = sum.wrapping_add(u64::from(b));
        }
    }
    sum
}

#[inline(never)]
fn read(reader: &mut EscReader, bytes: &[u8]) -> u64 {
    let mut sum = 0u64;
    for byte in bytes {
        if let Ok(Some(EscItem::RasterByte(b))) = reader.take(*byte) {
            sum = sum.wrapping_add(u64::from(*b));
        }
    }
    sum
}

#[inline(never)]
fn accept(item: &EscItem) -> u64 {
    match item {
        EscItem::RasterByte(b) => u64::from(*b),
        _ => 0,
    }
}

#[inline(never)]
fn hand_on(reader: &mut EscReader, bytes: &[u8]) -> u64 {
    let mut sum = 0u64;
    for byte in bytes {
        if let Ok(Some(item)) = reader.take(*byte) {
            sum = sum.wrapping_add(accept(item));
        }
    }
    sum
}

/// A reader behind the head of a raster of 65,535 by 65,535 bytes.
fn in_raster() -> EscReader {
    let mut reader = EscReader::new(Reading::Profile);
    for byte in b"\x1D\x76\x30\x00\xFF\xFF\xFF\xFF" {
        let _ = reader.take(*byte);
    }
    reader
}

/// Prints how long a byte takes that is counted, and returns it.
fn show_counting(rt: &(impl Clock + Print), bytes: &[u8]) -> io::Result<f64> {
    let mut sum = 0u64;
    let mut left = u32::MAX;
    let took = least(rt, ROUNDS, || sum = count(&mut left, bytes))? / 4608.0;
    println!(rt; "counting a byte: {took:.2} ns, sum {sum}")?;
    Ok(took)
}

fn show_reading(
    rt: &(impl Clock + Print),
    bytes: &[u8],
    counted: f64,
    copied: f64,
) -> io::Result<()> {
    let mut sum = 0u64;
    let mut reader = in_raster();
    let took = least(rt, ROUNDS, || sum = read(&mut reader, bytes))? / 4608.0;
    println!(rt;
        "reading a raster byte: {took:.2} ns, {:.0} MB/s, {:.1} times, {:.1} times copying, sum {sum}",
        1e3 / took,
        took / counted,
        took / copied
    )
}

fn show_handing_on(rt: &(impl Clock + Print), bytes: &[u8], counted: f64) -> io::Result<()> {
    let mut sum = 0u64;
    let mut reader = in_raster();
    let took = least(rt, ROUNDS, || sum = hand_on(&mut reader, bytes))? / 4608.0;
    println!(rt;
        "reading and handing on a raster byte: {took:.2} ns, {:.0} MB/s, {:.1} times, sum {sum}",
        1e3 / took,
        took / counted
    )
}

/// Prints the times.
pub fn run(rt: &(impl AllocGlobal + Clock + Print)) -> Result<()> {
    let bytes = some_bytes(rt.alloc(), BYTES)?;
    let counted = show_counting(rt, &bytes)?;
    let copied = copying(rt, &some_bytes(rt.alloc(), 125 * BYTES)?)?;
    println!(rt; "copying a byte: {copied:.3} ns")?;
    show_reading(rt, &bytes, counted, copied)?;
    show_handing_on(rt, &bytes, counted)?;
    Ok(())
}
