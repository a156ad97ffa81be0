//! A receipt printer: the line that it gathers, and the strips that it prints.
//!
//! `drawn` knows the symbol that an item prints, `act` what an item prints or lays on the page, and
//! `raster_page` rows of a raster on the page, `raster_paper` those that are printed as they come. `receipt`
//! is the printer, and `laws` says what a raster's row is, what an item and a byte cost at most, and that
//! all that is printed is images.
#![tactic(auto, using(vp_dots::proofs::Handles::list_small))]

mod act;
mod drawn;
mod laws;
mod raster_page;
mod raster_paper;
mod receipt;

pub use laws::{
    a_row_is_its_bytes, an_item_adds_at_most, an_item_costs_at_most, an_item_draws_at_most,
    bytes_cost_at_most, what_is_printed_is_images,
};
pub use receipt::Receipt;
pub use vp_receipt_settings::Width;
