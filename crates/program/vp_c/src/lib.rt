//! The library for C: `include/vp.h` declares what is exported here.
//!
//! `making` makes printers, in the C library's heap, and frees them, `printing` steps them, asks them and
//! begins them anew, and `texts` writes what is said of them. A printer is `owned` behind a `handle`. `asking`
//! finds what a stream asks of its printer.
#![tactic(auto)]

mod asking;
mod handle;
mod making;
mod owned;
mod printing;
mod texts;
