//! Shapes of labels: circles and ellipses, diagonals, boxes with round corners (ZPL II, ^GC, ^GE, ^GD, ^GB).
//!
//! A dot is a square, and has ink where its centre lies in the shape: on its outer edge too, and on its
//! inner edge too. Nothing is rounded on the way: all is reckoned in whole numbers, with half dots doubled
//! and sixteenths of a dot as they are.
//!
//! - `ring`: an ellipse, or a circle, with its thickness
//! - `rounded`: a box with round corners, with its thickness
//! - `diagonal`: a line from corner to corner
//! - `sides`: a row that is the same from both ends
#![tactic(auto)]

mod diagonal;
mod ring;
mod rounded;
mod sides;

pub use diagonal::{Diagonal, Leaning};
pub use ring::Ring;
pub use rounded::{Rounded, circle_law};
