//! How long painting a row of characters takes, a character, and how many times as long dot by dot.
ghost use Rattle.std.specs.Prelude.{◌≡◌};

use crate::measure::least;
use anyhow::Result;
use std::alloc::Global;
use std::io;
use std::rt::Clock;
use vp_dots::{Ink, Op};
use vp_glyph::{Alignment, Sheet, Sheets};

const ROUNDS: u32 = 200;

const COLUMNS: u8 = 24;

const SAMPLED: [(&str, u32, u32); 2] = [("sampled 12 by 24", 12, 24), ("sampled 30 by 60", 30, 60)];

/// The ink of `inner`, painted dot by dot.
#[derive(Drop)]
struct Slow<'a, I> {
    inner: &'a I,
}

impl<I: Ink> Ink for Slow<'_, I> {
    ghost width = { λ s. I.width s.inner.now };

    ghost height = { λ s. I.height s.inner.now };

    ghost ink_at = { λ s x y. I.ink_at s.inner.now x y };

    ghost outside = { λ s x y h. I.outside s.inner.now x y h };

    fn size(&self) -> (u32, u32) {
        self.inner.size()
    }

    fn ink(&self, x: u32, y: u32) -> bool {
        self.inner.ink(x, y)
    }
}

/// Sheet A with three strokes in each cell, the first narrower in each other row.
fn strokes(alloc: Global) -> Result<Sheets> {
    let mut text = b"P4\n192 384\n".to_vec(alloc)?;
    for y in 0..384u32 {
        let two_cells = if y % 2 == 0 {
            [0x67, 0x66, 0x76]
        } else {
            [0x27, 0x62, 0x76]
        };
        for _ in 0..8u8 {
            text.extend_from_slice(&two_cells)?;
        }
    }
    let a = Sheet::read(alloc, &text, 12, 24)?;
    Ok(Sheets {
        a: Some(a),
        b: None,
    })
}

fn paint<I: Ink>(ink: &I, row: &mut [u8]) {
    let (_, height) = ink.size();
    for column in 0..COLUMNS {
        for y in 0..height {
            ink.paint_row(y, Op::Flip, i64::from(column) * 13, row);
        }
    }
}

/// The least time of a row of a character.
fn row<I: Ink>(rt: &impl Clock, ink: &I, rounds: u32) -> io::Result<f64> {
    let mut row = [0u8; 156];
    let painted = least(rt, rounds, || paint(ink, &mut row))?;
    let (_, height) = ink.size();
    Ok(painted / (f64::from(COLUMNS) * f64::from(height)))
}

fn show<I: Ink>(rt: &(impl Clock + Print), name: &str, ink: &I) -> io::Result<()> {
    let fast = row(rt, ink, ROUNDS)?;
    let slow = row(rt, &Slow { inner: ink }, ROUNDS / 20)?;
    println!(rt;
        "{name}: {fast:.1} ns a row, dot by dot {:.1} times as long",
        slow / fast
    )
}

fn show_sampled(rt: &(impl Clock + Print), sheets: &Sheets) -> io::Result<()> {
    for (name, width, height) in SAMPLED {
        show(rt, name, &sheets.sampled(b'M', width, height))?;
    }
    Ok(())
}

fn show_block(rt: &(impl Clock + Print), sheets: &Sheets) -> io::Result<()> {
    let text = b"Ten words in this block, broken by lines";
    let block = sheets.block(text, 12, 24, 240, 3, 0, Alignment::Left);
    show(rt, "a block of 40 characters", &block)
}

fn show_all(rt: &(impl Clock + Print), sheets: &Sheets) -> io::Result<()> {
    show_sampled(rt, sheets)?;
    show_block(rt, sheets)
}

/// Prints the times.
pub fn run(rt: &(impl AllocGlobal + Clock + Print)) -> Result<()> {
    let sheets = strokes(rt.alloc())?;
    show_all(rt, &sheets)?;
    Ok(())
}
