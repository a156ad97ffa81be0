//! The sheet of the tests: in cell c the leftmost c mod 13 dots of each row are black.
use std::alloc::Global;
use std::test::Fail;
use vp_dots::{Op, fill_dots};
use vp_glyph::{Sheet, Sheets};

/// The text of the sheet.
pub fn stairs_text(alloc: Global) -> Result<Vec<u8>, Fail> {
    let mut text = b"P4\n192 384\n".to_vec(alloc)?;
    for y in 0..384u64 {
        let mut row = [0u8; 24];
        for column in 0..16u64 {
            let c = y / 24 * 16 + column;
            fill_dots(Op::Black, column * 12, column * 12 + c % 13, &mut row);
        }
        text.extend_from_slice(&row)?;
    }
    Ok(text)
}

/// That sheet as font A's, and none for font B.
pub fn stairs(alloc: Global) -> Result<Sheets, Fail> {
    let text = stairs_text(alloc)?;
    let a = Sheet::read(alloc, &text, 12, 24)?;
    Ok(Sheets {
        a: Some(a),
        b: None,
    })
}
