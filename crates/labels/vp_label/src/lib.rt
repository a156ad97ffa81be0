//! A label printer: what is gathered of a format, and what is printed once it ends.
//!
//! - `gathered`: all that is in force, and the closed fields and stored bytes of the format that is open.
//! - `press`: the copies of a format that has ended, painted band by band as they are put out.
//! - `label`: the printer.
//! - `laws`: the laws of its items.
#![tactic(auto)]

mod gathered;
mod label;
pub mod laws;
mod press;

pub use gathered::{Effect, Gathered};
pub use label::Label;
pub use press::Press;
