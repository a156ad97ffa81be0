//! The joined image as a PNG file, made as its rows come, at constant memory.
//!
//! A `PngWriter` is what `join` of `vp_join` can write to; `join_png` says what comes of that.
//!
//! - `drawing`: an image on its way into a PNG file, of whose rows bytes come in any pieces
//! - `writer`: what takes a joined image and puts its PNG file out
//! - `joining`: images joined into a PNG file
#![tactic(auto)]

mod drawing;
mod joining;
mod writer;

pub use joining::join_png;
pub use writer::PngWriter;
