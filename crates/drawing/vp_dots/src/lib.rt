//! Rows of dots, eight to a byte: what images are made of, and how they are painted.
//!
//! A dot is black or white, 1 or 0, and the leftmost dot of a byte is its highest bit, as in
//! netpbm's raw pbm. A `Band` holds rows, and a `Store` bytes, in room that is taken once. What can
//! be painted is an `Ink`, and an `Op` says what painting does to a dot where there is ink: each
//! painter here promises the same, `Painted`, with an ink of its own.
//!
//! - `single`: one dot, and rows painted dot by dot, which is how the faster painters are tested.
//! - `span`: all dots from one to another.
//! - `kernel`: the dots of one row on another, moved by any offset. `reversed`: a row turned end for end.
//! - `word`: 64 dots at once, cut out of a row and painted on one.
//! - `lanes`: many numbers looked at at once.
//! - `square`: 64 by 64 dots in 64 words, rows and columns exchanged.
//! - `place`: an ink at a place of a band.
//! - `band`, `store`: rows of dots and bytes on the heap. `room`: as much of it as is asked for.
//!   `small`: allocators that what stands on them may have.
//! - `image`: the header of an image, and the laws from the bytes of its rows to its dots and back.
//! - `listing`: the lines of a listing.
//! - `fault`: why a stream is refused.
#![tactic(auto)]

ghost use Rattle.std.specs.Prelude.{◌≡◌, ℕ, ◌-◌, ◌<◌, ◌≤◌, Bool, true};
ghost use Rattle.vp_dots.specs.Dots.{shifted};
ghost use Rattle.vp_dots.specs.Painting.{Painted};

mod band;
mod fault;
mod image;
mod kernel;
mod lanes;
mod listing;
mod place;
mod reversed;
mod room;
mod single;
mod small;
mod span;
mod square;
mod store;
mod word;

use crate::single::paint_moved_dot;
pub use band::Band;
pub use fault::{Fault, Why};
pub use image::{dots_decide, header, image_law, row_law};
pub use kernel::{clear_into, or_into, paint_into, painted_law, shift_law, xor_into};
pub use lanes::{edges, inked};
pub use listing::{list, spell};
pub use place::{paint_at, paint_words};
pub use reversed::{copy_reversed, reversed_at};
pub use room::{copied, filled};
pub use single::{dot_of, paint_bits, paint_dot};
pub use small::Small;
pub use span::{fill_dots, fill_moved};
pub use square::{SIDE, turned_square};
pub use store::{Full, Store};
pub use word::{NARROW, eight_at, first_dots, paint_narrow, paint_word, word_at, word_of};

/// The most lines that are painted by words at once: as many as a character of a receipt has.
pub const WORDS: usize = 24;

/// What painting does to a dot where there is ink: it makes it black, makes it white, or reverses it.
#[derive(Clone, Copy, Debug, PartialEq, Eq)]
pub enum Op {
    Black,
    White,
    Flip,
}

/// Lines that stand ready as words, from the first on that has ink to the last.
#[derive(Clone, Copy)]
pub struct Ready<'a> {
    /// How many lines stand above them.
    pub above: usize,
    pub words: &'a [u64],
}

/// Something that can be painted: dots of ink in a box.
pub trait Ink {
    ghost width: { Self → ℕ };

    ghost height: { Self → ℕ };

    /// Which dots have ink, by x and y.
    ghost ink_at: { Self → ℕ → ℕ → Bool };

    /// The width and the height, in dots.
    fn size(&self) -> (u32, u32)
        ensures width { result.0 ≡ width self.now }
        ensures height { result.1 ≡ height self.now };

    /// Whether there is ink at column x of line y: nowhere outside the size.
    fn ink(&self, x: u32, y: u32) -> bool
        ensures { result ≡ ink_at self.now x y };

    /// Applies the operation to the dots d of the row where d - at, in line y, has ink.
    fn paint_row(&self, y: u32, op: Op, at: i64, row: &mut [u8])
        ensures { Painted op (shifted at (λ x. ink_at self.now x y)) row.old row.new }
    {
        let (w, _) = self.size();
        for x in 0..w {
            if self.ink(x, y) {
                paint_moved_dot(op, at, x as u128, row);
            }
        }
    }

    /// The first and the last of the lines around line y that are known to show what it shows, so that what
    /// was drawn for one of them serves for all.
    fn alike(&self, y: u32) -> (u32, u32)
        ensures first { result.0 ≤ y }
        ensures last { y ≤ result.1 }
        ensures same { (x v : ℕ) → result.0 ≤ v → v ≤ result.1 → ink_at self.now x v ≡ ink_at self.now x y }
    {
        (y, y)
    }

    /// There is no ink outside.
    ghost outside: { (s : Self) (x y : ℕ) → ink_at s x y ≡ true → (x < width s) × (y < height s) };
}
