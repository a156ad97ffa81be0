//! What the data of a label's QR field (^BQ) say before the bytes of the symbol.
//!
//! - `front`: the level of error correction, how the bytes are read, and where they begin.
#![tactic(auto)]

mod front;

pub use front::{QrFront, qr_front};
