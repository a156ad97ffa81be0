//! What the data of a label's Data Matrix field (^BX) stand for: the bytes of the symbol, where a sign that
//! the command says begins each escape.
//!
//! - `token`: a byte that stands for itself, or a sign and the bytes behind it
//! - `bytes`: the bytes of the symbol, token by token
//! - `front`: FNC1 at the front of the data, and what stands behind it
//! - `laws`: what the definitions say of all data
#![tactic(auto)]

mod bytes;
mod front;
mod laws;
mod token;

pub use bytes::{MOST, Unescaped};
pub use front::{is_gs1, unescaped};
pub use laws::{doubled_signs, escapes, fnc1_at_the_front, no_sign, plain_bytes};
