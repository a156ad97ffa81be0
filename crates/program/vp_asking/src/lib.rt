//! What C is told of what a stream asks.
//!
//! `request` is a request as a struct of C, `asker` what finds the requests of a stream, and `handle` a pointer
//! to one that C holds.
#![tactic(auto)]

mod asker;
mod handle;
mod request;

pub use asker::Asker;
pub use handle::AskerHandle;
pub use request::{NO_REQUEST, RequestOfC};
