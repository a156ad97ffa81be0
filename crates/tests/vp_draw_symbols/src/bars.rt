//! Linear symbols, a row of each.

use std::alloc::{AllocError, Global};
use std::io::Write;
use vp_bars::{
    BarCode, CodabarEnds, Code11Checks, Code93Data, Code128Data, HriPosition, MsiChecks, UpcEData,
    linear,
};
use vp_dots::{Ink, Op};
use vp_glyph::{Font, Sheets};

/// The bar code that a letter names.
fn code_of(letter: u8) -> Option<BarCode> {
    let code = match letter {
        b'3' => BarCode::Code39 { check: false },
        b'e' => BarCode::Ean13 { padded: false },
        b'c' => BarCode::Code128 {
            data: Code128Data::Packed,
        },
        b'I' => BarCode::Interleaved { check: false },
        b'i' => BarCode::Interleaved { check: true },
        b'B' => BarCode::Codabar {
            ends: CodabarEnds::Data,
        },
        b'1' => BarCode::Code11 {
            checks: Code11Checks::One,
        },
        b'2' => BarCode::Code11 {
            checks: Code11Checks::Two,
        },
        b'9' => BarCode::Code93 {
            data: Code93Data::Ascii,
        },
        _ => return other_code_of(letter),
    };
    Some(code)
}

/// The bar code that another letter names.
fn other_code_of(letter: u8) -> Option<BarCode> {
    let code = match letter {
        b'M' => BarCode::Msi {
            checks: MsiChecks::None,
        },
        b'm' => BarCode::Msi {
            checks: MsiChecks::Mod10,
        },
        b'n' => BarCode::Msi {
            checks: MsiChecks::Mod10Twice,
        },
        b'o' => BarCode::Msi {
            checks: MsiChecks::Mod11Mod10,
        },
        b'8' => BarCode::Ean8 { padded: false },
        b'A' => BarCode::UpcA { padded: false },
        b'E' => BarCode::UpcE {
            data: UpcEData::Digits,
        },
        b'+' => BarCode::AddOn { padded: false },
        _ => return None,
    };
    Some(code)
}

/// Draws a row of the bars of a code, with narrow and wide elements of so many dots.
fn draw_code(
    alloc: Global,
    paper: &mut Vec<u8>,
    code: BarCode,
    narrow: u8,
    wide: u8,
    bytes: &[u8],
) -> Result<(), AllocError> {
    let bars = match linear(code, bytes) {
        Ok(bars) => bars,
        Err(fault) => {
            let _ = writeln!(paper, "refused {}", fault);
            return Ok(());
        }
    };
    let sheets: Sheets = Sheets { a: None, b: None };
    let boxed = bars.boxed(
        u16::from(narrow),
        u16::from(wide),
        1,
        &sheets,
        Font::A,
        HriPosition::None,
    );
    let (width, _) = boxed.size();
    let mut row = vec![in alloc; 0u8; width as usize / 8 + 1]?;
    boxed.paint_row(0, Op::Black, 0, row.as_mut_slice());
    let _ = writeln!(paper, "P1\n{} 1", width);
    for x in 0..width as usize {
        paper.push(b'0' + (row[x / 8] >> (7 - x % 8) & 1))?;
    }
    paper.push(b'\n')?;
    Ok(())
}

/// Draws a row of the bars of the code that a letter names.
pub fn draw_bars(
    alloc: Global,
    paper: &mut Vec<u8>,
    letter: u8,
    narrow: u8,
    wide: u8,
    bytes: &[u8],
) -> Result<(), AllocError> {
    match code_of(letter) {
        Some(code) => draw_code(alloc, paper, code, narrow, wide, bytes),
        None => Ok(()),
    }
}
