//! The size of a symbol.

ghost use Rattle.std.specs.Prelude.{◌≡◌, nat_le, ◌+◌, ◌*◌, ◌<◌, ◌≤◌, true, IfSome};
ghost use Rattle.vp_pdf417.specs.Sizes.{check_count, recommended, level_of, needed, may_be, rows_of, is_wide, fits, columns_of, size_for, data_count, IsSound};

/// What is asked for: columns of data, 1 to 30, rows, 3 to 90, and the error correction level, 0 to 8. What
/// is left open is chosen.
#[derive(Clone, Copy, Debug, PartialEq, Eq)]
pub struct Asked {
    pub columns: Option<usize>,
    pub rows: Option<usize>,
    pub level: Option<usize>,
    /// Without right row indicators, and with a single module for the stop pattern.
    pub compact: bool,
}

/// A size of symbols.
#[derive(Clone, Copy, Debug, PartialEq, Eq)]
pub struct Size {
    /// Data codewords in a row.
    pub columns: usize,
    pub rows: usize,
    /// The error correction level.
    pub level: usize,
    pub compact: bool,
}

/// How many check codewords a level has.
pub fn check_count(level: usize) -> usize
    requires { level ≤ 8 }
    ensures count { result ≡ check_count level }
    ensures some { 2 ≤ result }
    ensures most { result ≤ 512 }
{
    match level {
        0 => 2,
        1 => 4,
        2 => 8,
        3 => 16,
        4 => 32,
        5 => 64,
        6 => 128,
        7 => 256,
        _ => 512,
    }
}

/// The level that is recommended for so many data codewords.
fn recommended(count: usize) -> usize
    ensures level { result ≡ recommended count }
    ensures most { result ≤ 5 }
{
    match count {
        0..=40 => 2,
        41..=160 => 3,
        161..=320 => 4,
        _ => 5,
    }
}

/// What is asked for is this, or not said.
fn may_be(asked: Option<usize>, n: usize) -> bool
    ensures { result ≡ may_be asked n }
{
    match asked {
        None => true,
        Some(wanted) => wanted == n,
    }
}

impl Asked {
    /// The level, for so many data codewords.
    pub(crate) fn level_of(self, count: usize) -> usize
        ensures { result ≡ level_of self count }
    {
        self.level.unwrap_or(recommended(count))
    }

    /// Whether so many data codewords and the check are no more than any symbol holds.
    pub(crate) fn has_room(self, count: usize) -> bool
        requires level { level_of self count ≤ 8 }
        requires count { count ≤ 1000 }
        ensures { result ≡ nat_le (needed self count) 928 }
    {
        count + check_count(self.level_of(count)) <= 928
    }

    /// The rows for so many codewords in so many columns.
    fn rows_of(self, all: usize, columns: usize) -> usize
        requires all { all ≤ 928 }
        requires some { 1 ≤ columns }
        requires columns { columns ≤ 30 }
        ensures { result ≡ rows_of self all columns }
    {
        self.rows.unwrap_or(3.max((all + columns - 1) / columns))
    }

    /// The symbol isn't higher than wide, with rows of three modules, or isn't to be.
    fn is_wide(self, columns: usize, rows: usize) -> bool
        requires columns { columns ≤ 30 }
        requires rows { rows ≤ 90 }
        ensures { result ≡ is_wide self columns rows }
    {
        self.columns.is_some() || self.rows.is_some() || 3 * rows <= 17 * columns + 69
    }

    /// Whether so many columns have room for so many codewords.
    #[tactic(auto, unfolding(crate::specs::Sizes::fits))]
    fn fits(self, all: usize, columns: usize) -> bool
        requires all { all ≤ 928 }
        requires some { 1 ≤ columns }
        requires columns { columns ≤ 30 }
        ensures { result ≡ fits self all columns }
    {
        let rows = self.rows_of(all, columns);
        may_be(self.columns, columns)
            && rows >= 3
            && rows <= 90
            && all <= columns * rows
            && columns * rows <= 928
            && self.is_wide(columns, rows)
    }

    /// The fewest columns that have room for so many codewords.
    #[tactic(auto, unfolding(crate::specs::Sizes::columns_of))]
    fn columns_of(self, all: usize) -> Option<usize>
        requires { all ≤ 928 }
        ensures columns { result ≡ columns_of self all }
        ensures fits { IfSome result (λ columns.
            (1 ≤ columns) × (columns ≤ 30) × (fits self all columns ≡ true)) }
    {
        for columns in 1..31usize {
            if self.fits(all, columns) {
                return Some(columns);
            }
        }
        None
    }

    /// The size for so many data codewords.
    pub(crate) fn size_for(self, count: usize) -> Option<Size>
        requires level { level_of self count ≤ 8 }
        requires all { needed self count ≤ 928 }
        requires some { 1 ≤ count }
        ensures size { result ≡ size_for self count }
        ensures sound { IfSome result (λ size. IsSound size × (count ≤ data_count size)) }
    {
        let level = self.level_of(count);
        let all = count + check_count(level);
        let columns = self.columns_of(all)?;
        Some(Size {
            columns,
            rows: self.rows_of(all, columns),
            level,
            compact: self.compact,
        })
    }
}

impl Size {
    /// How many data codewords there are.
    pub(crate) fn data_count(self) -> usize
        requires { IsSound self }
        ensures { result ≡ data_count self }
    {
        self.columns * self.rows - check_count(self.level)
    }
}
