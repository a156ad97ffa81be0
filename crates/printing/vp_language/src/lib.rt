//! The languages that a printer reads, and the paper that each is printed on.
//!
//! The words of the command line name them without loading a printer.
#![tactic(auto)]

mod language;

pub use language::Language;
