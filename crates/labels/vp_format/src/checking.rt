//! Whether codes are refused, told by where their symbols end: no row is put together.
ghost use Rattle.std.specs.Prelude.{◌≡◌, ◌+◌, ◌-◌, ◌%◌, ◌^◌, ◌<◌, ◌≤◌};
ghost use Rattle.vp_format.specs.Pictures.{passing};

use crate::codes::Symbol;
use crate::law::binary_law;
use crate::reading::Codes;
use crate::row::symbol_of;
use crate::rows::Coding;
use vp_dots::Fault;

/// Where the row starts that comes after the one that holds a place.
fn row_behind(x: u64, width: u64) -> u64
    requires some { 0 < width }
    requires few { x + width < 2 ^ 64 }
    ensures { result ≡ x - x % width + width }
{
    x - x % width + width
}

/// `check` of run-length codes.
fn check_codes(codes: &[u8], row_bytes: usize, rows: u32) -> Result<(), Fault>
    requires some { 0 < row_bytes }
    requires short { row_bytes ≤ 1024 }
    ensures { result ≡ passing (record {
      coding = Coding.RunLength;
      codes = codes.now;
      row_bytes = row_bytes;
      rows = rows;
    }) 0 rows }
{
    let width = 2 * row_bytes as u64;
    let end = width * u64::from(rows);
    let mut codes = Codes::new(codes, 0);
    let mut x = 0;
    loop {
        let from = codes.pass_runs(x, end);
        if from >= end {
            return Ok(());
        }
        let Some(b) = codes.next() else {
            return Ok(());
        };
        match symbol_of(&mut codes, b) {
            Symbol::Digits(n, _) => {
                if n >= (end - from) as u128 {
                    return Ok(());
                }
                x = from + n as u64;
            }
            Symbol::ToEnd(_) => x = row_behind(from, width),
            Symbol::Again if from % width == 0 => x = row_behind(from, width),
            Symbol::Again | Symbol::Refused => return Err(Fault::Graphic),
        }
    }
}

/// What passing all rows of a picture answers: `Graphic` where a symbol is refused that starts in one.
pub fn check(codes: &[u8], coding: Coding, row_bytes: usize, rows: u32) -> Result<(), Fault>
    requires some { 0 < row_bytes }
    requires short { row_bytes ≤ 1024 }
    ensures { result ≡ passing (record {
      coding = coding;
      codes = codes.now;
      row_bytes = row_bytes;
      rows = rows;
    }) 0 rows }
{
    match coding {
        Coding::RunLength => check_codes(codes, row_bytes, rows),
        Coding::Binary => {
            binary_law();
            Ok(())
        }
    }
}
