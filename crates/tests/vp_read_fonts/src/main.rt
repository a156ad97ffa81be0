//! Reads the fonts that are given on standard input, each with the number of its bytes in three bytes before
//! it, and tells what was read: the heights and the default letter, and of each letter up to 2FFF its code,
//! advance, place and dots; or the line that is refused, and why.
#![tactic(auto)]

use std::alloc::{AllocError, Global};
use std::io::{Read, Write};
use std::process::ExitCode;
use vp_dots::Ink;
use vp_font::{Font, Glyph};

/// Tells a letter.
fn tell_letter(paper: &mut Vec<u8>, letter: &Glyph<'_>) -> Result<(), AllocError> {
    let _ = write!(paper, "{} {}", letter.code(), letter.advance());
    if let Some(exact) = letter.thousandths() {
        let _ = write!(paper, " ({})", exact);
    }
    let (w, h) = letter.size();
    let _ = write!(paper, " {} {} {} {} ", w, h, letter.left(), letter.bottom());
    for y in 0..h {
        for x in 0..w {
            paper.push(if letter.ink(x, y) { b'1' } else { b'0' })?;
        }
    }
    paper.push(b'\n')?;
    Ok(())
}

/// Tells a font.
fn tell_font(paper: &mut Vec<u8>, font: &Font) -> Result<(), AllocError> {
    let _ = write!(paper, "font {} {}", font.ascent(), font.descent());
    if let Some(code) = font.default_char() {
        let _ = write!(paper, " ({})", code);
    }
    paper.push(b'\n')?;
    for code in 0..0x3000u32 {
        if let Some(letter) = font.glyph(code) {
            tell_letter(paper, &letter)?;
        }
    }
    Ok(())
}

/// The fonts that are given.
fn told(alloc: Global, given: &[u8]) -> Result<Vec<u8>, AllocError> {
    let mut paper = Vec::new(alloc);
    let mut left = given;
    while let [high, middle, low, rest @ ..] = left {
        let n = 65536 * usize::from(*high) + 256 * usize::from(*middle) + usize::from(*low);
        if n > rest.len() {
            break;
        }
        let (file, behind) = rest.split_at(n);
        match Font::read(alloc, file) {
            Ok(font) => tell_font(&mut paper, &font)?,
            Err(why) => {
                let _ = writeln!(paper, "{}", why);
            }
        }
        left = behind;
    }
    Ok(paper)
}

fn main(rt: HostRuntime) -> ExitCode {
    let mut given = Vec::new(rt.alloc());
    if rt.stdin().read_to_end(&mut given).is_err() {
        return ExitCode::from(3);
    }
    let Ok(paper) = told(rt.alloc(), given.as_slice()) else {
        return ExitCode::from(4);
    };
    if rt.stdout().write_all(paper.as_slice()).is_err() {
        return ExitCode::from(3);
    }
    ExitCode::from(0)
}
