//! The fields of a label, painted band by band.
//!
//! A label is put out in bands of 32 rows. When its format ends, each field gets an entry with the bands that
//! its box has a row in, and the entries are threaded: from each band the fields that begin there, and from
//! band to band those that reach on. So a band is painted from the fields that meet it alone, in the order of
//! closing. Each reading of an entry or of a link is a look. Looks are counted where they are done, as are
//! the readings of fields and of what earlier bands left of them; nothing counts one back. The work of
//! painting is counted from a copy's start on: the bytes of pictures' codes that are read, and the rows
//! passed or painted.
//!
//! - `meeting`: which bands a box meets.
//! - `table`: the entries of the fields of a format.
//! - `marks`: what earlier bands left of each field.
//! - `walk`: one band, painted from the fields that meet it.
//! - `painter`: all bands of a label, copy after copy.
//! - `laws`: which bands a box meets, and what a copy takes.
#![tactic(auto)]

mod laws;
mod marks;
mod meeting;
mod painter;
mod table;
mod walk;

pub use laws::{a_field_costs_at_most, bands_met, looks_bounded, work_bounded};
pub use meeting::BANDS;
pub use painter::BandPainter;
