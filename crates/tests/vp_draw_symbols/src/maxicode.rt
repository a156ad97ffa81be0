//! MaxiCode symbols, a dot a module, and in dots.

use std::alloc::AllocError;
use std::io::Write;
use vp_dots::Ink;
use vp_maxicode::{MaxiCode, Mode, Part, alphanumeric_carrier, encode, numeric_carrier};

/// The mode of a digit, and how many bytes say a carrier's message.
fn mode_of(digit: u8, bytes: &[u8]) -> Option<(Mode, usize)> {
    match digit {
        b'2' => Some((Mode::Structured(numeric_carrier(bytes)?), 15)),
        b'3' => Some((Mode::Structured(alphanumeric_carrier(bytes)?), 12)),
        b'4' => Some((Mode::Standard, 0)),
        b'5' => Some((Mode::Enhanced, 0)),
        _ => Some((Mode::Program, 0)),
    }
}

/// Draws a symbol, a dot a module.
fn draw_modules(paper: &mut Vec<u8>, symbol: &MaxiCode) -> Result<(), AllocError> {
    let _ = writeln!(paper, "P1\n30 33");
    for row in 0..33usize {
        for column in 0..30usize {
            paper.push(if symbol.is_dark(row, column) {
                b'1'
            } else {
                b'0'
            })?;
        }
        paper.push(b'\n')?;
    }
    Ok(())
}

/// Draws a symbol in dots.
fn draw_dots(paper: &mut Vec<u8>, symbol: &MaxiCode) -> Result<(), AllocError> {
    let ink = symbol.inked();
    let (width, height) = ink.size();
    let _ = writeln!(paper, "P1\n{} {}", width, height);
    for y in 0..height {
        for x in 0..width {
            paper.push(if ink.ink(x, y) { b'1' } else { b'0' })?;
        }
        paper.push(b'\n')?;
    }
    Ok(())
}

/// Draws the symbol of bytes, or says why there is none.
pub fn draw_maxicode(
    paper: &mut Vec<u8>,
    in_dots: bool,
    digit: u8,
    position: u8,
    of: u8,
    bytes: &[u8],
) -> Result<(), AllocError> {
    let Some((mode, front)) = mode_of(digit, bytes) else {
        let _ = writeln!(paper, "refused");
        return Ok(());
    };
    let part = if of == 0 {
        None
    } else {
        Some(Part {
            position: u16::from(position),
            of: u16::from(of),
        })
    };
    if front > bytes.len() {
        return Ok(());
    }
    match encode(&bytes[front..], mode, part) {
        Ok(symbol) if in_dots => draw_dots(paper, &symbol),
        Ok(symbol) => draw_modules(paper, &symbol),
        Err(why) => {
            let _ = writeln!(paper, "refused {:?}", why);
            Ok(())
        }
    }
}
