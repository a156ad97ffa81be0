//! Aztec symbols and runes, a dot a module.

use std::alloc::AllocError;
use std::io::Write;
use vp_aztec::{Asked, Aztec, Layers, encode, rune};

/// Draws a symbol.
fn draw(paper: &mut Vec<u8>, symbol: &Aztec) -> Result<(), AllocError> {
    let side = symbol.side();
    let _ = writeln!(paper, "P1\n{} {}", side, side);
    for y in 0..side {
        for x in 0..side {
            paper.push(if symbol.is_dark(x, y) { b'1' } else { b'0' })?;
        }
        paper.push(b'\n')?;
    }
    Ok(())
}

/// Draws the symbol of bytes, or says why there is none.
pub fn draw_aztec(
    paper: &mut Vec<u8>,
    percent: u8,
    form: u8,
    layers: u8,
    bytes: &[u8],
) -> Result<(), AllocError> {
    let asked = Asked {
        percent: if percent == 0 {
            None
        } else {
            Some(usize::from(percent))
        },
        layers: match form {
            1 => Layers::Compact(usize::from(layers)),
            2 => Layers::Full(usize::from(layers)),
            _ => Layers::Any,
        },
    };
    match encode(bytes, asked) {
        Ok(symbol) => draw(paper, &symbol)?,
        Err(why) => {
            let _ = writeln!(paper, "refused {:?}", why);
        }
    }
    Ok(())
}

/// Draws a rune.
pub fn draw_rune(paper: &mut Vec<u8>, number: u8) -> Result<(), AllocError> {
    draw(paper, &rune(number))
}
