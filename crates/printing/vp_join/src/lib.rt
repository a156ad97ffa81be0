//! Many images of one width, joined to one: the strips of a receipt, or the labels of a roll.
#![tactic(auto)]

mod fault;
pub mod laws;
mod padding;
mod passes;
mod reading;
mod writing;

pub use fault::{JoinFault, Offence};
pub use passes::join;
pub use reading::Size;
pub use writing::ImageWriter;
