//! Packed data of a label's pictures (^GF): `:B64:` and `:Z64:`, base64 and zlib's format behind base64.
//!
//! - `sign`: base64's signs, and where a group of four of them stands
//! - `spelling`: the bytes that signs spell
//! - `check`: the check that stands behind them
//! - `text`: which texts are well written
//! - `picture`: the bytes of a picture
//! - `laws`: what the definitions say of all texts
#![tactic(auto)]

mod check;
mod laws;
mod picture;
mod sign;
mod spelling;
mod text;

pub use laws::groups_of_four;
pub use picture::{is_packed, unpack};
pub use text::Refusal;
