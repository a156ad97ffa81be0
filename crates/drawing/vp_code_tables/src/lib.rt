//! Which characters bytes are: code tables, national sets, UTF-8 and UTF-16.
//!
//! `esc_t`, `esc_r`, `fs_c` and `zpl_ci` say what the numbers of commands mean. A `Decoder` takes the bytes
//! of an `Encoding` one by one, and gives characters by their code points, as soon as they are known.
//!
//! - `dos`, `windows`, `iso`: the code points of tables
//! - `table`: the code tables by name
//! - `country`, `label_set`, `national`: the national sets
//! - `encoding`: by what bytes are characters
//! - `number`: what the numbers of commands mean
//! - `unit`: what is decoded
//! - `begun`: the bytes of a sequence that is begun
//! - `utf8`, `utf16`: one byte more of a sequence
//! - `decoder`: bytes one by one
//! - `laws`: what holds of all bytes
#![tactic(auto)]

mod begun;
mod country;
mod decoder;
mod dos;
mod encoding;
mod iso;
mod label_set;
mod laws;
mod national;
mod number;
mod table;
mod unit;
mod utf16;
mod utf8;
mod windows;

pub use country::Country;
pub use decoder::Decoder;
pub use encoding::Encoding;
pub use iso::IsoPart;
pub use label_set::LabelSet;
pub use laws::{
    ascii, begun_is_completed, each_byte_once, first_unit, utf8_is_read_back, utf16_is_read_back,
    well_formed,
};
pub use national::NationalSet;
pub use number::{esc_r, esc_t, fs_c, zpl_ci};
pub use table::CodeTable;
pub use unit::{Decoded, Given};
pub use utf16::ByteOrder;
