//! MaxiCode symbols, exact to the module and to the dot (ISO/IEC 16023).
//!
//! `encode` gives the symbol of some bytes in a mode, with a carrier's message or without, and as one of
//! several that are joined. `MaxiCode::inked` is a symbol as ink at 8 dots a millimetre: there is one size.
//! There is no ECI.
//!
//! - `set`: the code sets and their characters, and that each byte is in one
//! - `words`: codewords as they are written
//! - `message`: the codewords of bytes
//! - `mode`: the modes, a carrier's message, and symbols that are joined
//! - `label`: a carrier's message as label printers are given it
//! - `codewords`: pads, check codewords, and the two blocks of the secondary message
//! - `place`: where modules lie, and that each has one place
//! - `symbol`: the symbol, and its modules
//! - `ink`: its dots
#![tactic(auto)]

mod codewords;
mod ink;
mod label;
mod message;
mod mode;
mod place;
mod set;
mod symbol;
mod words;

pub use ink::MaxiCodeInk;
pub use label::{alphanumeric_carrier, numeric_carrier};
pub use mode::{Carrier, Mode, Part, PostalCode};
pub use place::places_law;
pub use set::sets_law;
pub use symbol::{MaxiCode, Refusal, encode};
