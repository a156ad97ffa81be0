//! What is in force on a label printer, by what was sent.
//!
//! - `range`: an argument in its range. `size`: the size of characters.
//! - `settings`: what outlives a format. `choice`: symbols, fonts and blocks as they were asked for.
//!   `graphic`: shapes and pictures. `parts`: the open field.
//! - `in_force`: all of it, and what a command changes. `laws`: what holds behind every stream.
#![tactic(auto)]

mod choice;
mod graphic;
mod in_force;
pub mod laws;
mod parts;
mod range;
mod settings;
mod size;

pub use choice::{BarChoice, FieldBlock, FontChoice, MatrixAsked, MatrixChoice, SymbolChoice};
pub use graphic::PictureHead;
pub use in_force::InForce;
pub use parts::{FieldParts, OpenContent, Origin};
pub use range::ranged;
pub use settings::{BarDefaults, Home, Settings};
pub use size::CharacterSize;
