//! What a printer holds beside its settings and the row in hand.

#[derive(Clone, Copy, Debug, PartialEq, Eq)]
pub struct Held {
    /// The rows of the line that is gathered, or whose strip is being put out: at most 192.
    pub line_rows: u16,
    /// The rows of the page: 1,664 in page mode and while bytes of a page are still to be put out, else 0.
    pub page_rows: u16,
    /// The rows of the band of a label that is being put out: at most 32; 0 for receipts and listings.
    pub band_rows: u16,
    /// The stored bytes of a label's format: at most 262,144; 0 for receipts and listings.
    pub stored: u32,
    /// The closed fields of a label's format: at most 1,024; 0 for receipts and listings.
    pub fields: u16,
}

/// Nothing.
pub const NOTHING: Held = Held {
    line_rows: 0,
    page_rows: 0,
    band_rows: 0,
    stored: 0,
    fields: 0,
};
