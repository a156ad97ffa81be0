//! Unpacks texts that are given on standard input, each with the number of its picture's bytes and the number of
//! its own, in three bytes each, before it. It tells + and the picture's bytes, or why the text is refused, on a
//! line.
#![tactic(auto)]

use std::alloc::{AllocError, Global};
use std::io::{Read, Write};
use std::process::ExitCode;
use vp_packed::unpack;

/// A number of three bytes.
fn number(high: u8, middle: u8, low: u8) -> usize {
    65536 * usize::from(high) + 256 * usize::from(middle) + usize::from(low)
}

/// Tells a picture of so many bytes.
fn tell(alloc: Global, paper: &mut Vec<u8>, size: usize, text: &[u8]) -> Result<(), AllocError> {
    let mut picture = Vec::new(alloc);
    picture.resize(size, 7u8)?;
    match unpack(text, picture.as_mut_slice()) {
        Ok(()) => {
            paper.push(b'+')?;
            paper.extend_from_slice(picture.as_slice())?;
        }
        Err(refusal) => {
            let _ = writeln!(paper, "{refusal:?}");
        }
    }
    Ok(())
}

/// The pictures of the texts that are given.
fn told(alloc: Global, given: &[u8]) -> Result<Vec<u8>, AllocError> {
    let mut paper = Vec::new(alloc);
    let mut left = given;
    while let [a, b, c, d, e, f, rest @ ..] = left {
        let n = number(*d, *e, *f);
        if n > rest.len() {
            break;
        }
        let (text, behind) = rest.split_at(n);
        tell(alloc, &mut paper, number(*a, *b, *c), text)?;
        left = behind;
    }
    Ok(paper)
}

fn main(rt: HostRuntime) -> ExitCode {
    let mut given = Vec::new(rt.alloc());
    if rt.stdin().read_to_end(&mut given).is_err() {
        return ExitCode::from(3);
    }
    let Ok(paper) = told(rt.alloc(), given.as_slice()) else {
        return ExitCode::from(4);
    };
    if rt.stdout().write_all(paper.as_slice()).is_err() {
        return ExitCode::from(3);
    }
    ExitCode::from(0)
}
