//! The mapping matrix, and the bits of the codewords on it.

ghost use Rattle.std.specs.Prelude.{◌≡◌, ℕ, ◌+◌, ◌*◌, ◌^◌, ◌<◌, ◌≤◌, ◌==◌, [], ◌∷◌, List, slice_index_or, if◌then◌else◌};
ghost use Rattle.vp_data_matrix.specs.declared.grid.Cell.TheVariants.{Free};
ghost use Rattle.vp_data_matrix.specs.Placement.{at, moved, codeword_at, corner_1, corner_2, corner_3, corner_4, corner, laid_on, step, upwards, downwards, diagonals, places};
ghost use Rattle.vp_data_matrix.specs.Modules.{data_bit, fixed_place, fixed, matrix_module};
ghost use Rattle.vp_data_matrix.specs.Grids.{IsMatrix, IsLaid, is_free, is_dark, bit_cell};

/// A module by its row and column.
#[derive(Clone, Copy)]
pub struct Place {
    pub row: usize,
    pub column: usize,
}

/// The size of a mapping matrix.
#[derive(Clone, Copy)]
pub struct Matrix {
    pub rows: usize,
    pub columns: usize,
}

/// What stands on a module.
#[derive(Clone, Copy)]
pub enum Cell {
    Free,
    Light,
    Dark,
}

impl Cell {
    /// Whether no bit stands here.
    fn is_free(self) -> bool
        ensures { result ≡ is_free self }
    {
        match self {
            Cell::Free => true,
            Cell::Light | Cell::Dark => false,
        }
    }

    /// Whether a bit stands here that is set.
    fn is_dark(self) -> bool
        ensures { result ≡ is_dark self }
    {
        match self {
            Cell::Dark => true,
            Cell::Free | Cell::Light => false,
        }
    }
}

/// The most rows and columns of a mapping matrix.
pub const SIDE: usize = 132;

/// A mapping matrix with the bits of codewords laid on it.
#[derive(Drop)]
pub struct Grid {
    pub matrix: Matrix,
    pub cells: [[Cell; SIDE]; SIDE],
    /// How many bits are laid.
    pub laid: usize,
}

/// The place of a row and a column.
fn at(row: usize, column: usize) -> Place
    ensures { result ≡ at row column }
{
    Place { row, column }
}

impl Matrix {
    /// So many rows up and columns left of a place, around the matrix.
    fn moved(self, row: usize, column: usize, up: usize, left: usize) -> Place
        requires matrix { IsMatrix self }
        requires up { up ≤ 2 }
        requires left { left ≤ 2 }
        requires row { row < self.rows }
        requires column { column < self.columns }
        requires diagonal { 4 ≤ row + column }
        ensures { result ≡ moved self row column up left }
    {
        if row < up {
            return at(
                row + self.rows - up,
                (column + 4)
                    .saturating_sub((self.rows + 4) % 8)
                    .saturating_sub(left),
            );
        }
        if column < left {
            return at(
                (row + 4)
                    .saturating_sub((self.columns + 4) % 8)
                    .saturating_sub(up),
                column + self.columns - left,
            );
        }
        at(row - up, column - left)
    }

    /// The places of a codeword whose last bit is at a place.
    #[tactic(auto, unfolding(crate::specs::Placement::codeword_at))]
    fn codeword_at(self, row: usize, column: usize) -> [Place; 8]
        requires matrix { IsMatrix self }
        requires row { row < self.rows }
        requires column { column < self.columns }
        requires diagonal { 4 ≤ row + column }
        ensures { result ≡ codeword_at self row column }
    {
        [
            self.moved(row, column, 2, 2),
            self.moved(row, column, 2, 1),
            self.moved(row, column, 1, 2),
            self.moved(row, column, 1, 1),
            self.moved(row, column, 1, 0),
            self.moved(row, column, 0, 2),
            self.moved(row, column, 0, 1),
            self.moved(row, column, 0, 0),
        ]
    }

    /// The first corner's.
    fn corner_1(self) -> [Place; 8]
        requires { IsMatrix self }
        ensures { result ≡ corner_1 self }
    {
        let (last, end) = (self.rows - 1, self.columns - 1);
        [
            at(last, 0),
            at(last, 1),
            at(last, 2),
            at(0, end - 1),
            at(0, end),
            at(1, end),
            at(2, end),
            at(3, end),
        ]
    }

    /// The second corner's.
    fn corner_2(self) -> [Place; 8]
        requires { IsMatrix self }
        ensures { result ≡ corner_2 self }
    {
        let (last, end) = (self.rows - 1, self.columns - 1);
        [
            at(last - 2, 0),
            at(last - 1, 0),
            at(last, 0),
            at(0, end - 3),
            at(0, end - 2),
            at(0, end - 1),
            at(0, end),
            at(1, end),
        ]
    }

    /// The third corner's.
    fn corner_3(self) -> [Place; 8]
        requires { IsMatrix self }
        ensures { result ≡ corner_3 self }
    {
        let (last, end) = (self.rows - 1, self.columns - 1);
        [
            at(last - 2, 0),
            at(last - 1, 0),
            at(last, 0),
            at(0, end - 1),
            at(0, end),
            at(1, end),
            at(2, end),
            at(3, end),
        ]
    }

    /// The fourth corner's.
    fn corner_4(self) -> [Place; 8]
        requires { IsMatrix self }
        ensures { result ≡ corner_4 self }
    {
        let (last, end) = (self.rows - 1, self.columns - 1);
        [
            at(last, 0),
            at(last, end),
            at(0, end - 2),
            at(0, end - 1),
            at(0, end),
            at(1, end - 2),
            at(1, end - 1),
            at(1, end),
        ]
    }
}

impl Matrix {
    /// Whether a module is one of two at the lower right corner.
    fn is_fixed_place(self, row: usize, column: usize) -> bool
        requires { IsMatrix self }
        ensures { result ≡ fixed_place self row column }
    {
        row == self.rows - 1 && column == self.columns - 1
            || row == self.rows - 2 && column == self.columns - 2
    }
}

/// Bit `k` of codewords, the highest bit of each first.
#[tactic(auto, unfolding(crate::specs::Modules::data_bit))]
fn data_bit(codewords: &[u8], k: usize) -> bool
    ensures { result ≡ data_bit codewords.now k }
{
    k / 8 < codewords.len() && codewords[k / 8] >> (7 - k % 8) & 1 == 1
}

/// The cell of bit `k` of codewords.
fn bit_cell(codewords: &[u8], k: usize) -> Cell
    ensures { result ≡ bit_cell codewords.now k }
{
    if data_bit(codewords, k) {
        Cell::Dark
    } else {
        Cell::Light
    }
}

/// Puts a cell into a row.
fn put(row: &mut [Cell; SIDE], column: usize, cell: Cell)
    requires { column < SIDE }
    ensures { (j : ℕ) → slice_index_or row.new j Free
        ≡ (if column == j then cell else slice_index_or row.old j Free) }
{
    row[column] = cell;
}

impl Grid {
    /// A matrix on which nothing is laid.
    fn new(matrix: Matrix) -> Grid
        requires { IsMatrix matrix }
        ensures matrix { result.matrix ≡ matrix }
        ensures laid { (codewords : List ℕ) → IsLaid codewords [] result }
    {
        Grid {
            matrix,
            cells: [[Cell::Free; SIDE]; SIDE],
            laid: 0,
        }
    }

    /// Lays the next bit at a place, which the matrix may lack.
    fn lay(&mut self, codewords: &[u8], place: Place)
        requires matrix { IsMatrix self.old.matrix }
        requires few { self.old.laid < 2 ^ 32 }
        ensures matrix { self.new.matrix ≡ self.old.matrix }
        ensures count { self.new.laid ≡ self.old.laid + 1 }
        ensures laid { (laid : List Place) → IsLaid codewords.now laid self.old
            → IsLaid codewords.now (place ∷ laid) self.new }
    {
        let cell = bit_cell(codewords, self.laid);
        self.laid += 1;
        if place.row >= self.matrix.rows {
            return;
        }
        if place.column >= self.matrix.columns {
            return;
        }
        put(&mut self.cells[place.row], place.column, cell);
    }

    /// Lays the next eight bits.
    fn lay_all(&mut self, codewords: &[u8], places: &[Place; 8])
        requires matrix { IsMatrix self.old.matrix }
        requires few { self.old.laid < 2 ^ 31 }
        ensures matrix { self.new.matrix ≡ self.old.matrix }
        ensures count { self.new.laid ≡ self.old.laid + 8 }
        ensures laid { (laid : List Place) → IsLaid codewords.now laid self.old
            → IsLaid codewords.now (laid_on places.now laid) self.new }
    {
        for place in places {
            self.lay(codewords, *place);
        }
    }

    /// Lays the next codeword, if its last bit's place is in the matrix and nothing stands there.
    #[tactic(auto, unfolding(crate::specs::Placement::step))]
    fn step(&mut self, codewords: &[u8], row: usize, column: usize)
        requires matrix { IsMatrix self.old.matrix }
        requires few { self.old.laid < 2 ^ 31 }
        requires diagonal { 4 ≤ row + column }
        ensures matrix { self.new.matrix ≡ self.old.matrix }
        ensures count { self.new.laid ≤ self.old.laid + 8 }
        ensures laid { (laid : List Place) → IsLaid codewords.now laid self.old
            → IsLaid codewords.now (step self.old.matrix row column laid) self.new }
    {
        if row >= self.matrix.rows || column >= self.matrix.columns {
            return;
        }
        if !self.cells[row][column].is_free() {
            return;
        }
        let places = self.matrix.codeword_at(row, column);
        self.lay_all(codewords, &places);
    }

    /// Lays what comes before an upward diagonal.
    #[tactic(auto, unfolding(crate::specs::Placement::corner))]
    fn corner(&mut self, codewords: &[u8], diagonal: usize)
        requires matrix { IsMatrix self.old.matrix }
        requires few { self.old.laid < 2 ^ 31 }
        requires diagonal { diagonal < 2 ^ 31 }
        ensures matrix { self.new.matrix ≡ self.old.matrix }
        ensures count { self.new.laid ≤ self.old.laid + 8 }
        ensures laid { (laid : List Place) → IsLaid codewords.now laid self.old
            → IsLaid codewords.now (laid_on (corner self.old.matrix diagonal) laid) self.new }
    {
        let matrix = self.matrix;
        let places = if diagonal == matrix.rows {
            matrix.corner_1()
        } else if diagonal + 2 == matrix.rows && matrix.columns % 4 != 0 {
            matrix.corner_2()
        } else if diagonal + 2 == matrix.rows && matrix.columns % 8 == 4 {
            matrix.corner_3()
        } else if diagonal == matrix.rows + 6 && matrix.columns % 8 == 0 {
            matrix.corner_4()
        } else {
            return;
        };
        self.lay_all(codewords, &places);
    }

    /// Lays codewords in steps up a diagonal.
    fn upwards(&mut self, codewords: &[u8], diagonal: usize, steps: usize)
        requires matrix { IsMatrix self.old.matrix }
        requires few { self.old.laid < 2 ^ 30 }
        requires steps { steps ≤ 1000 }
        requires diagonal { 4 ≤ diagonal }
        requires within { 2 * steps ≤ diagonal + 2 }
        ensures matrix { self.new.matrix ≡ self.old.matrix }
        ensures count { self.new.laid ≤ self.old.laid + 8 * steps }
        ensures laid { (laid : List Place) → IsLaid codewords.now laid self.old
            → IsLaid codewords.now (upwards self.old.matrix diagonal steps laid) self.new }
    {
        for n in 0..steps {
            self.step(codewords, diagonal - 2 * n, 2 * n);
        }
    }

    /// Lays codewords in steps down a diagonal.
    fn downwards(&mut self, codewords: &[u8], diagonal: usize, steps: usize)
        requires matrix { IsMatrix self.old.matrix }
        requires few { self.old.laid < 2 ^ 30 }
        requires steps { steps ≤ 1000 }
        requires diagonal { 4 ≤ diagonal }
        requires within { 2 * steps ≤ diagonal }
        ensures matrix { self.new.matrix ≡ self.old.matrix }
        ensures count { self.new.laid ≤ self.old.laid + 8 * steps }
        ensures laid { (laid : List Place) → IsLaid codewords.now laid self.old
            → IsLaid codewords.now (downwards self.old.matrix diagonal steps laid) self.new }
    {
        for n in 0..steps {
            self.step(codewords, 2 * n + 1, diagonal - (2 * n + 1));
        }
    }

    /// The matrix with all codewords laid on it.
    pub fn of(matrix: Matrix, codewords: &[u8]) -> Grid
        requires { IsMatrix matrix }
        ensures matrix { result.matrix ≡ matrix }
        ensures laid { IsLaid codewords.now (places matrix) result }
    {
        let mut grid = Grid::new(matrix);
        for n in 0..(matrix.rows + matrix.columns) / 8 + 1 {
            grid.corner(codewords, 8 * n + 4);
            grid.upwards(codewords, 8 * n + 4, 4 * n + 3);
            grid.downwards(codewords, 8 * n + 8, 4 * n + 4);
        }
        grid
    }

    /// Whether a module is one of the dark ones of a lower right corner that no bit stands on.
    fn is_fixed(&self, row: usize, column: usize) -> bool
        requires { IsMatrix self.now.matrix }
        ensures { (codewords : List ℕ) (laid : List Place) → IsLaid codewords laid self.now
            → result ≡ fixed self.now.matrix laid row column }
    {
        let Matrix { rows, columns } = self.matrix;
        if !self.cells[rows - 1][columns - 1].is_free() {
            return false;
        }
        self.matrix.is_fixed_place(row, column)
    }

    /// Whether a module of the matrix is dark.
    pub fn is_dark(&self, row: usize, column: usize) -> bool
        requires matrix { IsMatrix self.now.matrix }
        requires row { row < self.now.matrix.rows }
        requires column { column < self.now.matrix.columns }
        ensures { (codewords : List ℕ) → IsLaid codewords (places self.now.matrix) self.now
            → result ≡ matrix_module self.now.matrix codewords row column }
    {
        if self.is_fixed(row, column) {
            return true;
        }
        self.cells[row][column].is_dark()
    }
}
