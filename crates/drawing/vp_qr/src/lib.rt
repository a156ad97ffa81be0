//! QR symbols of versions 1 to 10, exact to the module (ISO/IEC 18004).
//!
//! `encode` gives the symbol of some bytes, in one segment and in the smallest version that holds
//! them, with the lowest mask of least penalty; `drawn` gives it again with the version and mask kept;
//! `Qr::scaled` is that symbol as ink.
//!
//! - `segment`, `string`: the mode, the bits and the data codewords of the bytes
//! - `level`, `interleave`: the blocks of each version and level, and the order of their codewords
//! - `field`, `check`: the field of 256 elements, and the check codewords of a block
//! - `lines`, `walk`: the modules that hold data, row by row, and in the order of their bits
//! - `shapes`: the dark modules of the finders, the timing and alignment patterns and the version
//! - `code`, `symbol`: the codes of format and version, and the finished modules
//! - `mask`: the penalty of a symbol, by which its mask is chosen
//! - `qr`, `ink`: the symbol, and its dots
#![tactic(auto)]

mod check;
mod code;
mod field;
mod ink;
mod interleave;
mod level;
mod lines;
mod mask;
mod qr;
mod segment;
mod shapes;
mod string;
mod symbol;
mod walk;

pub use check::{check_is_zero_at_roots, rs};
pub use ink::QrInk;
pub use level::Level;
pub use qr::{Qr, drawn, encode};
pub use segment::Mode;
pub use walk::free_modules_hold_the_codewords;
