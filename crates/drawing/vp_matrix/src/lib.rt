//! Two-dimensional symbols of any kind: Data Matrix, Aztec and PDF417 by one code, and their dots.
//!
//! `encode` gives the symbol of some bytes, exact to the module, or why they have none, and `Matrix::scaled`
//! is that symbol as ink.
//!
//! - `code`: which symbol is asked for
//! - `matrix`: the symbol, its columns and rows, and which modules are dark
//! - `runs`: rows of modules, painted run by run of dark ones
//! - `ink`: their dots
#![tactic(auto)]

mod code;
mod ink;
mod matrix;
mod runs;

pub use code::MatrixCode;
pub use ink::MatrixInk;
pub use matrix::{MOST_COLUMNS, MOST_ROWS, Matrix, encode};
pub use vp_aztec::{Asked as AztecAsked, Layers};
pub use vp_data_matrix::{Lead, Shape};
pub use vp_pdf417::Asked as Pdf417Asked;
