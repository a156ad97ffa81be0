//! PDF417 symbols, exact to the module (ISO/IEC 15438).
//!
//! `encode` gives the symbol of some bytes, in the columns, rows and error correction level that are asked
//! for, and `Pdf417::scaled` is that symbol as ink.
//!
//! - `words`: the codewords as they are written
//! - `submode`, `text`, `byte`, `numeric`: the compactions
//! - `mode`, `message`: which compaction bytes are in, and their message codewords
//! - `size`: columns, rows and level
//! - `codewords`: pads and check codewords
//! - `cluster_0`, `cluster_3`, `cluster_6`, `pattern`: the patterns of codewords
//! - `symbol`: the symbol, and its modules
//! - `ink`: their dots
#![tactic(auto)]

mod byte;
mod cluster_0;
mod cluster_3;
mod cluster_6;
mod codewords;
mod ink;
mod message;
mod mode;
mod numeric;
mod pattern;
mod size;
mod submode;
mod symbol;
mod text;
mod words;

pub use ink::Pdf417Ink;
pub use pattern::patterns_are_of_their_cluster;
pub use size::{Asked, Size};
pub use symbol::{Pdf417, Refusal, encode};
