//! The sizes of symbols.

ghost use Rattle.std.specs.Prelude.{◌≡◌, ◌<◌, ◌≤◌, IfSome};
ghost use Rattle.vp_data_matrix.specs.Sizes.{table, size_in, size_at, has_shape, fits, smallest, matrix_rows, matrix_columns, IsSound};

/// Which sizes are asked for.
#[derive(Clone, Copy, Debug, PartialEq, Eq)]
pub enum Shape {
    /// The 24 square ones.
    Square,
    /// The six rectangular ones.
    Rectangle,
    /// The one of so many rows and columns of modules.
    Exactly(usize, usize),
}

/// A size of symbols.
#[derive(Clone, Copy, Debug, PartialEq, Eq)]
pub struct Size {
    /// Modules in a column.
    pub rows: usize,
    /// Modules in a row.
    pub columns: usize,
    /// Modules in a column of a data region.
    pub region_rows: usize,
    /// Modules in a row of a data region.
    pub region_columns: usize,
    /// Data codewords.
    pub words: usize,
    /// Check codewords of each block.
    pub check: usize,
    /// Blocks.
    pub blocks: usize,
}

/// Rows, columns, those of a data region, data codewords, check codewords of each block, and blocks.
type Row = (usize, usize, usize, usize, usize, usize, usize);

const SIZES: [Row; 30] = [
    (10, 10, 8, 8, 3, 5, 1),
    (12, 12, 10, 10, 5, 7, 1),
    (14, 14, 12, 12, 8, 10, 1),
    (16, 16, 14, 14, 12, 12, 1),
    (18, 18, 16, 16, 18, 14, 1),
    (20, 20, 18, 18, 22, 18, 1),
    (22, 22, 20, 20, 30, 20, 1),
    (24, 24, 22, 22, 36, 24, 1),
    (26, 26, 24, 24, 44, 28, 1),
    (32, 32, 14, 14, 62, 36, 1),
    (36, 36, 16, 16, 86, 42, 1),
    (40, 40, 18, 18, 114, 48, 1),
    (44, 44, 20, 20, 144, 56, 1),
    (48, 48, 22, 22, 174, 68, 1),
    (52, 52, 24, 24, 204, 42, 2),
    (64, 64, 14, 14, 280, 56, 2),
    (72, 72, 16, 16, 368, 36, 4),
    (80, 80, 18, 18, 456, 48, 4),
    (88, 88, 20, 20, 576, 56, 4),
    (96, 96, 22, 22, 696, 68, 4),
    (104, 104, 24, 24, 816, 56, 6),
    (120, 120, 18, 18, 1050, 68, 6),
    (132, 132, 20, 20, 1304, 62, 8),
    (144, 144, 22, 22, 1558, 62, 10),
    (8, 18, 6, 16, 5, 7, 1),
    (8, 32, 6, 14, 10, 11, 1),
    (12, 26, 10, 24, 16, 14, 1),
    (12, 36, 10, 16, 22, 18, 1),
    (16, 36, 14, 16, 32, 24, 1),
    (16, 48, 14, 22, 49, 28, 1),
];

/// The table of sizes.
fn table() -> &'static [Row; 30]
    ensures { result.now ≡ table }
{
    &SIZES
}

/// Size number `k` of a table.
fn size_in(table: &[Row; 30], k: usize) -> Size
    requires { k < 30 }
    ensures { result ≡ size_in table.now k }
{
    let (rows, columns, region_rows, region_columns, words, check, blocks) = table[k];
    Size {
        rows,
        columns,
        region_rows,
        region_columns,
        words,
        check,
        blocks,
    }
}

impl Size {
    /// Size number `k`, the squares first.
    #[tactic(auto, unfolding(crate::specs::Sizes::size_at))]
    pub(crate) fn at(k: usize) -> Size
        requires { k < 30 }
        ensures size { result ≡ size_at k }
        ensures sound { IsSound result }
    {
        size_in(table(), k)
    }

    /// Modules in a column of all data regions together.
    pub(crate) fn matrix_rows(self) -> usize
        requires { IsSound self }
        ensures { result ≡ matrix_rows self }
    {
        self.rows / (self.region_rows + 2) * self.region_rows
    }

    /// Modules in a row of them.
    pub(crate) fn matrix_columns(self) -> usize
        requires { IsSound self }
        ensures { result ≡ matrix_columns self }
    {
        self.columns / (self.region_columns + 2) * self.region_columns
    }
}

impl Shape {
    /// Whether a size is of this shape.
    fn has(self, size: Size) -> bool
        ensures { result ≡ has_shape self size }
    {
        match self {
            Shape::Square => size.rows == size.columns,
            Shape::Rectangle => size.rows != size.columns,
            Shape::Exactly(rows, columns) => size.rows == rows && size.columns == columns,
        }
    }

    /// Whether size number `k` is of this shape and has room for so many data codewords.
    #[tactic(auto, unfolding(crate::specs::Sizes::fits))]
    fn fits(self, needed: u128, k: usize) -> bool
        requires { k < 30 }
        ensures { result ≡ fits self needed k }
    {
        let size = Size::at(k);
        self.has(size) && needed <= size.words as u128
    }

    /// The number of the smallest size of this shape that has room for so many data codewords.
    #[tactic(auto, unfolding(crate::specs::Sizes::smallest))]
    pub(crate) fn smallest(self, needed: u128) -> Option<usize>
        ensures number { result ≡ smallest self needed }
        ensures room { IfSome result (λ k. (k < 30) × (needed ≤ (size_at k).words)) }
    {
        for k in 0..30usize {
            if self.fits(needed, k) {
                return Some(k);
            }
        }
        None
    }
}
