//! A value of the C library's heap by its pointer.
//!
//! `pointed` takes it out of its box, and puts it into one again.
#![tactic(auto)]

mod pointed;

pub use pointed::Pointed;
