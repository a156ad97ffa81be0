//! The fields of a label (ZPL II), painted by bands.
//!
//! A field of a format shows a content, turned, with the upper left corner of its turned box at a place that
//! may lie off the label, and makes dots black or white there or reverses them. A label is put out in bands
//! of 32 rows, upright or turned by 180 degrees, and perhaps mirrored: its `View`. The dot at a place is the
//! colour of the last field that paints it black or white, reversed once by each later field that reverses
//! it; painting the fields one after the other on a white band, and cutting it at the label's edges, gives
//! that dot at every place.
//!
//! - `turning`: how boxes are turned.
//! - `frame`, `text`, `lines`, `picture`, `picture_rows`: boxes, texts, blocks of lines and pictures.
//! - `block_columns`, `block_band`: blocks of lines, many of whose rows are drawn at once: those that fall on
//!   columns of the label, and those of lines that meet.
//! - `marks`: what earlier bands left of a field: the marks of a picture, or a QR symbol as it was drawn.
//! - `matrix`, `modules`: two-dimensional symbols, and their modules as ink.
//! - `content`, `sized`, `field`: what fields show, with their sizes, and how they are painted.
//! - `view`: how a label is put out.
//! - `axis`, `laid`: which way the lines of an ink run on the label as it is put out, and where they begin.
//! - `stretched`: which rows of stretched characters are alike.
//! - `pieces`: inks that tell of how many pieces their lines are painted.
//! - `line`, `pen`: lines of ink, drawn along places and painted on rows, and counted with their pieces as
//!   they are handed out.
//! - `counted_columns`, `plain`, `square`: columns of dots, counted as they are handed out, and turned many
//!   at once.
//! - `paint`, `across`, `standing`: ink painted along the rows of a band or across them.
//! - `band`: a white band, and one cut at the label's edges.
//! - `laws`: what the dots of a label come to.
#![tactic(auto)]

mod across;
mod axis;
mod band;
mod block_band;
mod block_columns;
mod content;
mod counted_columns;
mod field;
mod frame;
mod laid;
mod laws;
mod line;
mod lines;
mod marks;
mod matrix;
mod modules;
mod paint;
mod pen;
mod picture;
mod picture_rows;
mod pieces;
mod plain;
mod sized;
mod square;
mod standing;
mod stretched;
mod text;
mod turning;
mod view;

pub use band::{clear, cut};
pub use content::{bytes_of, orientation_of};
pub use field::paint_field;
pub use laws::{dots_move, in_the_box, stored_behind, stroke_after_stroke, turned_and_mirrored};
pub use marks::Marks;
pub use sized::SizedContent;
pub use turning::{dots_fall, turned_rows};
pub use view::View;
