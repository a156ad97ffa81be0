//! The stored format of a label: its fields and their bytes, and its pictures, read row by row.
//!
//! - `codes`: what a byte of run-length codes is.
//! - `reading`: the bytes of codes, read one after the other or in a quick way, and counted.
//! - `digits`, `counted`, `short_runs`, `passing`: the codes that most pictures are made of, in a quick way.
//! - `packing`: the places of a row, and its bytes.
//! - `row`: the row that starts at a place of the codes.
//! - `rows`: the rows, one after the other. `checking`: whether any is refused.
//! - `law`: the laws of codes.
//! - `field`, `format`: closed fields, and the format that holds them, of which each reading is counted.
#![tactic(auto)]

mod checking;
mod codes;
mod counted;
mod digits;
mod field;
mod format;
mod law;
mod packing;
mod passing;
mod reading;
mod row;
mod rows;
mod short_runs;

pub use checking::check;
pub use field::{
    BarSymbol, Content, Field, GraphicBox, MatrixSymbol, Picture, QrSymbol, Span, Text, TextBlock,
};
pub use format::{FIELDS, Fields, Format, STORED};
pub use law::{binary_law, codes_law, digits_law};
pub use rows::{Coding, RunMark, RunRows};
