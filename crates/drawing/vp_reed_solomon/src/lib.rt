//! Reed-Solomon check codewords, over the fields that symbols use.
//!
//! `generator` gives the polynomial whose roots are powers of the field's primitive element, one behind
//! another, and `check` the remainder by it: the codewords that are put behind data, so that all of them, as
//! a polynomial, are zero at each of these roots. Nothing is allocated: the caller hands in the room.
//!
//! - `field`: the fields of 16 to 4,096 elements and of 929, and their arithmetic
//! - `remainder`: the generator, and the remainder by a shift register
#![tactic(auto)]

mod field;
mod remainder;

pub use field::Field;
pub use remainder::{check, generator};
