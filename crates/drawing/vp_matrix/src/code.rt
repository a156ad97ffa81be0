//! Which symbol is asked for.

use vp_aztec::Asked as AztecAsked;
use vp_data_matrix::{Lead, Shape};
use vp_pdf417::Asked as Pdf417Asked;

/// A kind of two-dimensional symbol, with what is asked of it.
#[derive(Clone, Copy, Debug, PartialEq, Eq)]
pub enum MatrixCode {
    /// ISO/IEC 16022, ECC 200.
    DataMatrix { lead: Lead, shape: Shape },
    /// ISO/IEC 24778.
    Aztec { asked: AztecAsked },
    /// ISO/IEC 15438.
    Pdf417 { asked: Pdf417Asked },
}
