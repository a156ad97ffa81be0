//! How wide the paper is.
ghost use Rattle.std.specs.Prelude.{◌≡◌};
ghost use Rattle.vp_receipt_settings.specs.Setup.{across, row_bytes};

use vp_page::{PAPER_BYTES, PAPER_DOTS};

/// The dots of a row of the narrow paper.
pub const NARROW_PAPER_DOTS: u16 = 384;

/// The bytes of such a row.
pub const NARROW_PAPER_BYTES: usize = 48;

/// The widths of paper: 576 dots on 80 mm, 384 dots on 58 mm.
#[derive(Clone, Copy, Debug, PartialEq, Eq)]
pub enum Width {
    W576,
    W384,
}

impl Width {
    /// How many dots the paper is wide.
    pub fn across(self) -> u16
        ensures { result ≡ across self }
    {
        match self {
            Width::W576 => PAPER_DOTS,
            Width::W384 => NARROW_PAPER_DOTS,
        }
    }

    /// How many bytes a row of it has.
    pub fn row_bytes(self) -> usize
        ensures { result ≡ row_bytes self }
    {
        match self {
            Width::W576 => PAPER_BYTES,
            Width::W384 => NARROW_PAPER_BYTES,
        }
    }
}
