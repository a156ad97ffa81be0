//! What the words of a command line ask the program for.
//!
//! `order` is what can be asked for, `grammar` has the words that are read, and `reading` makes the one of
//! the other.
#![tactic(auto)]

mod grammar;
mod order;
mod reading;

pub use grammar::VERSION;
pub use order::{Fonts, Form, Order, Stream, Task};
