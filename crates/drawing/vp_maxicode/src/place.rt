//! Where the modules of codewords lie, by row and column from 0.

ghost use Rattle.std.specs.Prelude.{◌≡◌, ◌<◌, ◌≤◌, IfSome};
ghost use Rattle.vp_maxicode.specs.Places.{across, scattered, block_at, in_block, at_edge, number_at, HavePlaces};

/// The modules of the first nine codewords, by 30 times their row and their column.
pub const SCATTERED: [u16; 54] = [
    469, 529, 286, 316, 347, 346, 673, 672, 703, 702, 647, 676, 283, 282, 313, 312, 370, 610, 618,
    379, 378, 409, 408, 439, 705, 704, 559, 589, 588, 619, 458, 518, 640, 701, 675, 674, 285, 284,
    315, 314, 310, 340, 531, 289, 288, 319, 349, 348, 456, 486, 517, 516, 471, 470,
];

/// The codeword of each block of two columns and three rows, the first being 1, and 0 where there is none:
/// 14 to each three rows.
pub const BLOCKS: [u8; 154] = [
    21, 22, 23, 24, 25, 26, 27, 28, 29, 30, 31, 32, 33, 34, 48, 47, 46, 45, 44, 43, 42, 41, 40, 39,
    38, 37, 36, 35, 49, 50, 51, 52, 53, 54, 55, 56, 57, 58, 59, 60, 61, 62, 69, 68, 67, 66, 14, 0,
    0, 0, 0, 0, 19, 65, 64, 63, 70, 71, 72, 18, 10, 0, 0, 0, 0, 0, 15, 73, 74, 75, 81, 80, 79, 0,
    0, 0, 0, 0, 0, 0, 0, 78, 77, 76, 82, 83, 84, 17, 11, 0, 0, 0, 0, 0, 16, 85, 86, 87, 94, 93, 92,
    91, 13, 0, 0, 0, 0, 12, 20, 90, 89, 88, 95, 96, 97, 98, 99, 100, 101, 102, 103, 104, 105, 106,
    107, 108, 122, 121, 120, 119, 118, 117, 116, 115, 114, 113, 112, 111, 110, 109, 123, 124, 125,
    126, 127, 128, 129, 130, 131, 132, 133, 134, 135, 136,
];

/// The dark modules of the orientation patterns, and the two behind the codewords of the first row, by 30
/// times their row and their column.
pub const MARKS: [u16; 13] = [
    28, 29, 280, 281, 311, 457, 488, 500, 530, 670, 677, 700, 707,
];

/// Where a module of the first nine codewords lies.
#[tactic(auto, unfolding(crate::specs::Places::scattered))]
fn scattered(row: usize, column: usize) -> Option<usize>
    requires row { row < 33 }
    requires column { column < 30 }
    ensures number { result ≡ scattered row column }
    ensures few { IfSome result (λ n. n < 54) }
{
    for k in 0..54usize {
        if usize::from(SCATTERED[k]) == 30 * row + column {
            return Some(k);
        }
    }
    None
}

/// The module of a block's codeword.
fn in_block(word: usize, row: usize, column: usize) -> Option<usize>
    requires { word ≤ 255 }
    ensures number { result ≡ in_block word row column }
    ensures few { IfSome result (λ n. n < 1530) }
{
    if word == 0 {
        return None;
    }
    Some(6 * (word - 1) + 2 * (row % 3) + (1 - column % 2))
}

/// The module of the last codewords.
fn at_edge(row: usize, column: usize) -> Option<usize>
    requires row { row < 33 }
    requires column { column < 30 }
    ensures number { result ≡ at_edge row column }
    ensures few { IfSome result (λ n. n < 900) }
{
    if row == 0 {
        return None;
    }
    let first = 816 + 3 * ((row - 1) / 2);
    if row % 2 == 1 {
        Some(first)
    } else {
        Some(first + (30 - column))
    }
}

/// The number of the module at a place on the symbol, if it is one of a codeword's.
#[tactic(auto, unfolding(crate::specs::Places::number_at))]
pub fn number_at(row: usize, column: usize) -> Option<usize>
    requires row { row < 33 }
    requires column { column < across row }
    ensures number { result ≡ number_at row column }
    ensures few { IfSome result (λ n. n < 1530) }
{
    if let Some(n) = scattered(row, column) {
        return Some(n);
    }
    if column < 28 {
        let word = BLOCKS[14 * (row / 3) + column / 2];
        in_block(usize::from(word), row, column)
    } else {
        at_edge(row, column)
    }
}

/// Each module of a codeword has one place on the symbol, and each place is one module's at most.
pub fn places_law()
    ensures { HavePlaces }
{}
