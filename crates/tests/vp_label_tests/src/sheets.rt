//! The sheets of the tests.
use std::alloc::Global;
use std::test::Fail;
use vp_dots::{Op, fill_dots};
use vp_glyph::{Sheet, Sheets};

/// No sheet for either font.
pub const NONE: Sheets = Sheets { a: None, b: None };

/// Sheet A where in cell c the leftmost c mod 13 dots of each row are black.
pub fn stairs(alloc: Global) -> Result<Sheets, Fail> {
    let mut text = b"P4\n192 384\n".to_vec(alloc)?;
    for y in 0..384u64 {
        let mut row = [0u8; 24];
        for column in 0..16u64 {
            let c = y / 24 * 16 + column;
            fill_dots(Op::Black, column * 12, column * 12 + c % 13, &mut row);
        }
        text.extend_from_slice(&row)?;
    }
    let a = Sheet::read(alloc, &text, 12, 24)?;
    Ok(Sheets {
        a: Some(a),
        b: None,
    })
}
