//! What strips are painted from.
use crate::paint::Bitmap;
use crate::symbol::Symbol;
use std::alloc::Global;
use vp_dots::Small;
use vp_glyph::Sheets;
use vp_page::{PAPER_BYTES, Page};

/// What strips are painted from.
#[derive(Drop)]
pub struct Canvas<A: Small = Global> {
    pub sheets: Sheets<A>,
    /// The line.
    pub bitmap: Bitmap<A>,
    /// A row of a raster, as it is printed.
    pub raster_row: [u8; PAPER_BYTES],
    pub symbol: Symbol,
    pub page: Page<A>,
}
