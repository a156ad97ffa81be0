//! Readers and writers that count their calls, between what they are and what a contract can say of them.
//!
//! A contract names the bytes that a reader has left and those that a writer holds, where their types
//! tell them, and how often they were called and failed; so a function over any reader and any writer
//! can promise what it does with their bytes, and for which failure it gives up.
#![tactic(auto)]

mod stream;

pub use stream::{Counted, Sink, Source};
