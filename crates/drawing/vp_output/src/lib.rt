//! An image's bytes at any room: which one comes next, and as many put out as there is room for.
//!
//! An image is a header and rows, made one at a time by whoever puts it out, who hands in the bytes of the
//! line that is next. So nothing here hangs on what a row shows, or on what comes behind the last one.
//!
//! - `place`: where the next byte is.
//! - `part`: bytes of a line, put out as far as there is room.
#![tactic(auto)]

mod part;
mod place;

pub use part::{Output, put_part};
pub use place::{Line, Place};
