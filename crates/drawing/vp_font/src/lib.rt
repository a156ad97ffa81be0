//! A font of letters whose advances are their own, read from BDF (Adobe's Glyph Bitmap Distribution Format,
//! versions 2.1 and 2.2, technical note 5005).
//!
//! `Font::read` takes a whole file and either has its letters or says which line breaks which rule.
//!
//! - `words`: lines, words and numbers of a file
//! - `keyword`: the words that begin lines
//! - `fault`: which rules there are
//! - `range`: numbers within ranges, and boxes
//! - `letter`: what is known of a letter and of a font
//! - `head`, `parts`, `row`: what lines tell of a font, of a letter, and of its dots
//! - `state`: what a line says where a file stands
//! - `font`: the whole file
//! - `glyph`, `search`: a letter and its dots, and how it is found
#![tactic(auto)]

mod fault;
mod font;
mod glyph;
mod head;
mod keyword;
mod letter;
mod parts;
mod range;
mod row;
mod search;
mod state;
mod words;

pub use fault::Fault;
pub use font::{Font, FontError};
pub use glyph::Glyph;
