//! Fields threaded by numbers, so that a band's painter looks only at those that meet the band.
//!
//! - `table`: which bands each field meets, and which field comes next in its band; each reading is counted.
//! - `walk`: a walk over the fields that meet a band, in the order of closing.
#![tactic(auto)]

mod table;
mod walk;

pub use table::{Entry, Threads};
pub use walk::{Walk, next_of};
