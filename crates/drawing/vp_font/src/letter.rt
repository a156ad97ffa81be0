//! What is known of a letter and of a font.

/// A box of dots: its size, and where its lower left corner stands from the origin, which is on the baseline.
#[derive(Clone, Copy, Debug, PartialEq, Eq)]
pub struct Shape {
    /// In dots, 0 to 1,024.
    pub width: u32,
    /// In dots, 0 to 1,024.
    pub height: u32,
    /// How many dots it stands to the right of the origin, -1,024 to 1,024.
    pub left: i32,
    /// How many dots it stands above the baseline, -1,024 to 1,024.
    pub bottom: i32,
}

/// What is told of a letter before its rows.
#[derive(Clone, Copy, Debug, PartialEq, Eq)]
pub struct Letter {
    /// Its code point, 0 to 10FFFF.
    pub code: u32,
    /// How many dots the next letter's origin stands to the right, 0 to 2,048.
    pub advance: u32,
    /// The same in thousandths of the font's size, 0 to 65,535, if it is told.
    pub thousandths: Option<u32>,
    pub shape: Shape,
}

/// What is told of a font before its letters.
#[derive(Clone, Copy, Debug, PartialEq, Eq)]
pub struct Metrics {
    /// How many dots a line reaches above the baseline, -2,048 to 2,048.
    pub ascent: i64,
    /// How many dots it reaches below it, -2,048 to 2,048.
    pub descent: i64,
    /// The code of the letter that stands for those that are missing, if it is told.
    pub default_char: Option<u32>,
}

/// A letter, and where its rows begin among those of all.
#[derive(Clone, Copy)]
pub struct Entry {
    pub letter: Letter,
    pub from: usize,
}
