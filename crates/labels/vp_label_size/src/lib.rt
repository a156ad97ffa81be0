//! How large a label may be, and the band of it that is painted at once.
//!
//! A label is painted by bands of 32 rows, each as wide as the widest label. Who paints bands and who puts
//! them out know no more of each other than this.
#![tactic(auto)]

use std::alloc::Global;
use vp_dots::Band;

/// The dots across the widest label, and across a band.
pub const WIDEST: u16 = 1248;

/// The rows of the longest label.
pub const LONGEST: u16 = 8000;

/// The rows of a band.
pub const BAND_ROWS: usize = 32;

/// The bytes of a row of a band: as many as `WIDEST` dots take.
pub const BAND_BYTES: usize = 156;

/// A band of a label: `BAND_ROWS` rows of `BAND_BYTES` bytes.
pub type LabelBand<A = Global> = Band<BAND_BYTES, BAND_ROWS, A>;
