//! The copies of a label as bytes: which byte comes next, and what has to be ready before it does.
//!
//! A copy is one image, its header and its rows. Its rows are painted by bands of 32, and whoever paints is
//! told when a copy begins and which band is wanted next, where it doesn't stand: the only band of an image is
//! wanted once, for all copies. So nothing here hangs on what an image shows.
//!
//! - `place`: what has to be ready for the next byte, and where it is behind bytes of a copy.
//! - `rows`: whole rows of a band, many at a call.
//! - `copies`: copies that are being put out, as far as there is room.
//! - `law`: the laws of their text.
#![tactic(auto)]

mod copies;
mod law;
mod place;
mod rows;

pub use copies::Copies;
pub use law::{copies_law, pending_law, place_law};
pub use place::Ahead;
