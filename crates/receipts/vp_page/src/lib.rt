//! The page of page mode: dots laid in four directions, and areas made white.
#![tactic(auto, using(vp_dots::proofs::Handles::list_small))]

mod along;
mod area;
mod half;
mod laws;
mod line;
mod page;
mod turning;
mod white;
mod whiten;
mod words;

pub use area::{Area, Direction};
pub use laws::{dots_fall, marks_and_wipes, rows_make_an_image};
pub use line::{LINE_BYTES, LINE_DOTS};
pub use page::{PAGE_ROWS, PAPER_BYTES, PAPER_DOTS, Page};
