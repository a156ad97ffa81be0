//! Aztec symbols, exact to the module (ISO/IEC 24778).
//!
//! `encode` gives the symbol of some bytes, in the layers and with the error correction that are asked for,
//! `rune` that of a number, and `Aztec::scaled` is a symbol as ink. There are no ECI, no FNC1, no joined
//! symbols, and none that set a reader.
//!
//! - `bits`: bits as they are written
//! - `mode`: the modes and their characters
//! - `run`: runs of bytes
//! - `message`: the bits of bytes
//! - `stuffing`: the data codewords of bits
//! - `size`: layers, codewords, and which size is taken
//! - `codewords`: check codewords, and the mode message
//! - `place`: where modules lie, and that each one of the layers has a bit of its own
//! - `symbol`: the symbol, and its modules
//! - `ink`: their dots
#![tactic(auto)]

mod bits;
mod codewords;
mod ink;
mod message;
mod mode;
mod place;
mod run;
mod size;
mod stuffing;
mod symbol;

pub use ink::AztecInk;
pub use place::bits_law;
pub use size::{Asked, Layers, Size};
pub use symbol::{Aztec, Refusal, encode, rune};
