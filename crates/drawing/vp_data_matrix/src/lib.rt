//! Data Matrix symbols, ECC 200, exact to the module (ISO/IEC 16022).
//!
//! `encode` gives the symbol of some bytes in the smallest size of a shape that holds them, and
//! `DataMatrix::scaled` is that symbol as ink.
//!
//! - `size`: the 24 square and 6 rectangular sizes
//! - `ascii`, `triple` (C40, Text, X12), `edifact`, `base_256`: the encodations
//! - `message`: the data codewords of the bytes, in the encodation that takes the fewest
//! - `pad`: the pads behind them
//! - `block`: the blocks of a size, and the order of their codewords
//! - `grid`: the mapping matrix, on which the bits of the codewords are laid along diagonals
//! - `symbol`: the finished modules, region by region
//! - `ink`: their dots
#![tactic(auto)]

mod ascii;
mod base_256;
mod block;
mod edifact;
mod grid;
mod ink;
mod message;
mod pad;
mod size;
mod symbol;
mod triple;

pub use ink::DataMatrixInk;
pub use message::Lead;
pub use size::{Shape, Size};
pub use symbol::{DataMatrix, encode};
