//! Draws the symbols that are asked for on standard input, for readers of others to read them back. Each
//! has the letter of its kind, three bytes, the number of its data in two bytes, and its data. What comes out
//! is a plain PBM each, or `refused`.
//!
//! - `D`, Data Matrix: what stands before the data, and the rows and columns of its size (0 rows for a square
//!   and 1 for a rectangle); a dot a module
//! - `F` and `C`, PDF417, full and compact: the digit of the level, or another byte for the one that is
//!   recommended, and the rows and columns, 0 where they are left open; a row is three dots high
//! - `A`, Aztec: the percentage of check codewords, 0 where it is left open, and the number of layers, after 1 for
//!   a compact and 2 for a full symbol, and 0 for any; a dot a module
//! - `R`, a rune: its number; a dot a module
//! - `M`, MaxiCode: the digit of the mode, and which of how many symbols it is, 0 for one alone; the data of
//!   modes 2 and 3 as label printers are given them; a dot a module
//! - `m`, the same in dots
//! - `L`, a linear symbol: a letter of its kind (`bars`), and the dots of a narrow and of a wide element; one
//!   row of its bars
//! - `E`, the same as `F`, but not drawn: its columns and rows alone, for bench/peers.sh
#![tactic(auto)]

mod aztec;
mod bars;
mod maxicode;

use crate::aztec::{draw_aztec, draw_rune};
use crate::bars::draw_bars;
use crate::maxicode::draw_maxicode;
use std::alloc::{AllocError, Global};
use std::io::{Read, Write};
use std::process::ExitCode;
use vp_data_matrix::{DataMatrix, Lead, Shape, encode};
use vp_pdf417::{Asked, Pdf417};

/// What stands before the data, by its byte.
fn lead_of(byte: u8) -> Lead {
    match byte {
        b'G' => Lead::Gs1,
        b'5' => Lead::Macro05,
        b'6' => Lead::Macro06,
        _ => Lead::Plain,
    }
}

/// The shape of so many rows and columns.
fn shape_of(rows: u8, columns: u8) -> Shape {
    match rows {
        0 => Shape::Square,
        1 => Shape::Rectangle,
        _ => Shape::Exactly(usize::from(rows), usize::from(columns)),
    }
}

/// Draws a symbol.
fn draw(paper: &mut Vec<u8>, symbol: &DataMatrix) -> Result<(), AllocError> {
    let size = symbol.size();
    let _ = writeln!(paper, "P1\n{} {}", size.columns, size.rows);
    for row in 0..size.rows {
        for column in 0..size.columns {
            paper.push(if symbol.is_dark(row, column) {
                b'1'
            } else {
                b'0'
            })?;
        }
        paper.push(b'\n')?;
    }
    Ok(())
}

/// A number that 0 leaves open.
fn some_of(number: u8) -> Option<usize> {
    if number == 0 {
        None
    } else {
        Some(usize::from(number))
    }
}

/// What is asked for of PDF417, by its bytes.
fn asked_of(kind: u8, level: u8, rows: u8, columns: u8) -> Asked {
    Asked {
        columns: some_of(columns),
        rows: some_of(rows),
        level: match level {
            b'0'..=b'9' => Some(usize::from(level - b'0')),
            _ => None,
        },
        compact: kind == b'C',
    }
}

/// The dots of a row of a symbol of PDF417, and the line's end.
fn line_of(alloc: Global, symbol: &Pdf417, row: usize) -> Result<Vec<u8>, AllocError> {
    let mut line = Vec::new(alloc);
    if row < symbol.size().rows {
        for k in 0..symbol.parts() {
            let modules = symbol.part(row, k);
            for x in 0..17u32 {
                line.push(b'0' + (modules >> (16 - x) & 1) as u8)?;
            }
        }
    }
    line.extend_from_slice(b"1\n")?;
    Ok(line)
}

/// Draws a symbol of PDF417, or tells its columns and rows alone.
fn draw_stack(
    alloc: Global,
    paper: &mut Vec<u8>,
    symbol: &Pdf417,
    alone: bool,
) -> Result<(), AllocError> {
    let size = symbol.size();
    if alone {
        let _ = writeln!(paper, "{} {}", size.columns, size.rows);
        return Ok(());
    }
    let _ = writeln!(paper, "P1\n{} {}", symbol.across(), 3 * size.rows);
    for row in 0..size.rows {
        let line = line_of(alloc, symbol, row)?;
        for _ in 0..3 {
            paper.extend_from_slice(line.as_slice())?;
        }
    }
    Ok(())
}

/// Draws the symbol of bytes, or says why there is none.
fn draw_one(
    alloc: Global,
    paper: &mut Vec<u8>,
    asked: [u8; 4],
    bytes: &[u8],
) -> Result<(), AllocError> {
    let [kind, first, rows, columns] = asked;
    if kind == b'D' {
        match encode(bytes, lead_of(first), shape_of(rows, columns)) {
            Ok(symbol) => draw(paper, &symbol)?,
            Err(fault) => {
                let _ = writeln!(paper, "refused {}", fault);
            }
        }
        return Ok(());
    }
    if kind == b'L' {
        return draw_bars(alloc, paper, first, rows, columns, bytes);
    }
    if kind == b'A' {
        return draw_aztec(paper, first, rows, columns, bytes);
    }
    if kind == b'M' || kind == b'm' {
        return draw_maxicode(paper, kind == b'm', first, rows, columns, bytes);
    }
    if kind == b'R' {
        return draw_rune(paper, first);
    }
    match vp_pdf417::encode(bytes, asked_of(kind, first, rows, columns)) {
        Ok(symbol) => draw_stack(alloc, paper, &symbol, kind == b'E')?,
        Err(why) => {
            let _ = writeln!(paper, "refused {:?}", why);
        }
    }
    Ok(())
}

/// The symbols that are asked for.
fn drawn(alloc: Global, asked: &[u8]) -> Result<Vec<u8>, AllocError> {
    let mut paper = Vec::new(alloc);
    let mut left = asked;
    while let [kind, first, rows, columns, high, low, rest @ ..] = left {
        let n = 256 * usize::from(*high) + usize::from(*low);
        if n > rest.len() {
            break;
        }
        let (bytes, behind) = rest.split_at(n);
        draw_one(alloc, &mut paper, [*kind, *first, *rows, *columns], bytes)?;
        left = behind;
    }
    Ok(paper)
}

fn main(rt: HostRuntime) -> ExitCode {
    let mut asked = Vec::new(rt.alloc());
    if rt.stdin().read_to_end(&mut asked).is_err() {
        return ExitCode::from(3);
    }
    let Ok(paper) = drawn(rt.alloc(), asked.as_slice()) else {
        return ExitCode::from(4);
    };
    if rt.stdout().write_all(paper.as_slice()).is_err() {
        return ExitCode::from(3);
    }
    ExitCode::from(0)
}
