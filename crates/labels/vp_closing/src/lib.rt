//! The field that ^FS or ^XZ closes, from its parts and the settings in force: as the format keeps it, or why
//! it is refused (ZPL II).
//!
//! - `text`, `graphic`, `symbol`, `matrix`: texts and their blocks, pictures, bars and QR symbols, other
//!   two-dimensional symbols.
//! - `modules`: the modules of a symbol, which are stored when its field is closed.
//! - `position`: where a field stands.
//! - `content`, `field`: what a field shows, and the whole field. `laws`: what is refused.
#![tactic(auto)]

mod content;
mod field;
mod graphic;
pub mod laws;
mod matrix;
mod modules;
mod position;
mod symbol;
mod text;

pub use field::closed;
pub use modules::keep_made;
