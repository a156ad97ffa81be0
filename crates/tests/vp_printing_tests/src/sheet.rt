//! The sheet of the tests: in cell c the leftmost c mod 13 dots of each row are black; and long streams.
use std::alloc::{AllocError, Global};
use vp_glyph::{Sheet, Sheets};

/// Dots x to x + 7 of row y of the sheet.
fn eight_dots(x: u32, y: u32) -> u8 {
    let mut byte: u8 = 0;
    for i in 0..8u32 {
        let dot = x.wrapping_add(i);
        let cell = (y / 24).wrapping_mul(16).wrapping_add(dot / 12);
        byte = byte
            .wrapping_mul(2)
            .wrapping_add(u8::from(dot % 12 < cell % 13));
    }
    byte
}

/// The bytes of the sheet.
pub fn sheet(alloc: Global) -> Result<Vec<u8>, AllocError> {
    let mut image = Vec::new(alloc);
    image.extend_from_slice(b"P4\n192 384\n")?;
    for y in 0..384u32 {
        for byte in 0..24u32 {
            image.push(eight_dots(byte.wrapping_mul(8), y))?;
        }
    }
    Ok(image)
}

/// The sheet of these bytes as font A, and none for font B.
pub fn sheets(alloc: Global, image: &[u8]) -> Sheets {
    Sheets {
        a: Sheet::read(alloc, image, 12, 24).ok(),
        b: None,
    }
}

/// Adds `part` `times` times.
pub fn repeat(bytes: &mut Vec<u8>, part: &[u8], times: usize) -> Result<(), AllocError> {
    for _ in 0..times {
        bytes.extend_from_slice(part)?;
    }
    Ok(())
}

/// `front`, and behind it `part` `times` times.
pub fn repeated(
    alloc: Global,
    front: &[u8],
    part: &[u8],
    times: usize,
) -> Result<Vec<u8>, AllocError> {
    let mut bytes = Vec::new(alloc);
    repeat(&mut bytes, front, 1)?;
    repeat(&mut bytes, part, times)?;
    Ok(bytes)
}

/// These parts, one after the other, each as often as the number beside it says.
pub fn joined(alloc: Global, parts: &[(&[u8], usize)]) -> Result<Vec<u8>, AllocError> {
    let mut bytes = Vec::new(alloc);
    for (part, times) in parts {
        repeat(&mut bytes, part, *times)?;
    }
    Ok(bytes)
}
