//! Rows of dots, of which many get the same ones: what runs to the last row or from the first is kept once.
ghost use Rattle.std.specs.Prelude.{◌≡◌, ℕ, ◌+◌, ◌-◌, ◌*◌, ◌<◌, ◌≤◌, ◌&&◌, ◌||◌, [], false, slice_index_or};
ghost use Rattle.vp_dots.specs.Dots.{dot, span};
ghost use Rattle.vp_glyph.specs.Runs.{dot_upto, run_dot};
ghost use Rattle.vp_glyph.specs.declared.runs.TheConstants.{ROWS, BYTES};

/// So many rows are drawn at once.
pub const ROWS: usize = 32;

/// So many bytes each of them has.
pub const BYTES: usize = 160;

/// Rows of dots.
#[derive(Drop)]
pub struct Runs {
    /// The dots of each row alone.
    alone: [[u8; BYTES]; ROWS],
    /// Of each row those that all rows below it have too.
    pub down: [[u8; BYTES]; ROWS],
    /// Of each row, counted from the last, those that all rows above it have too.
    pub up: [[u8; BYTES]; ROWS],
}

/// Makes the dots of a row black where another is.
#[inline(always)]
fn blacken<const B: usize>(ink: &[u8; B], row: &mut [u8; B])
    ensures { (x : ℕ) → x < 8 * B → dot row.new x ≡ (dot row.old x || dot ink.now x) }
{
    for i in 0..B {
        row[i] |= ink[i];
    }
}

/// Makes the dots of the rows from one to another black where a row is.
fn blacken_rows<const B: usize, const N: usize>(
    ink: &[u8; B],
    from: usize,
    to: usize,
    rows: &mut [[u8; B]; N],
)
    requires order { from ≤ to }
    requires to { to ≤ N }
    ensures { (k x : ℕ) → k < N → x < 8 * B → dot (slice_index_or rows.new k []) x
        ≡ (dot (slice_index_or rows.old k []) x || span from to k && dot ink.now x) }
{
    for k in from..to {
        blacken(ink, &mut rows[k]);
    }
}

/// Gives each row the dots of the rows above it.
fn pass_down<const B: usize, const N: usize>(rows: &mut [[u8; B]; N])
    ensures { (k x : ℕ) → k < N → x < 8 * B → dot (slice_index_or rows.new k []) x ≡ dot_upto rows.old k x }
{
    for k in 1..N {
        let above = rows[k - 1];
        blacken(&above, &mut rows[k]);
    }
}

/// Makes the dots of a row black where one of two is.
fn blacken_twice<const B: usize>(one: &[u8; B], other: &[u8; B], row: &mut [u8; B])
    ensures { (x : ℕ) → x < 8 * B → dot row.new x ≡ (dot row.old x || (dot one.now x || dot other.now x)) }
{
    blacken(one, row);
    blacken(other, row);
}

/// Adds to each row the dots that came down to it, and those that came up, which are counted from the last.
fn overlay<const B: usize, const N: usize>(
    down: &[[u8; B]; N],
    up: &[[u8; B]; N],
    rows: &mut [[u8; B]; N],
)
    ensures { (k x : ℕ) → k < N → x < 8 * B → dot (slice_index_or rows.new k []) x
        ≡ (dot (slice_index_or rows.old k []) x || (dot (slice_index_or down.now k []) x
        || dot (slice_index_or up.now (N - 1 - k) []) x)) }
{
    for k in 0..N {
        blacken_twice(&down[k], &up[N - 1 - k], &mut rows[k]);
    }
}

impl Runs {
    /// White rows.
    pub fn new() -> Self
        ensures { (k x : ℕ) → run_dot result.alone result.down result.up ROWS k x ≡ false }
    {
        Runs {
            alone: [[0; BYTES]; ROWS],
            down: [[0; BYTES]; ROWS],
            up: [[0; BYTES]; ROWS],
        }
    }

    /// Makes the dots of the rows from one to another black where a row is.
    pub fn blacken(&mut self, ink: &[u8; BYTES], from: usize, to: usize)
        requires some { from < to }
        requires to { to ≤ ROWS }
        ensures { (k x : ℕ) → k < ROWS → x < 8 * BYTES
            → run_dot self.new.alone self.new.down self.new.up ROWS k x
            ≡ (run_dot self.old.alone self.old.down self.old.up ROWS k x || span from to k && dot ink.now x) }
    {
        if to == ROWS {
            blacken(ink, &mut self.down[from]);
            return;
        }
        if from == 0 {
            blacken(ink, &mut self.up[ROWS - to]);
            return;
        }
        blacken_rows(ink, from, to, &mut self.alone);
    }

    /// The rows, where it is known whether any of them was drawn.
    pub fn rows(&mut self, drawn: bool) -> [[u8; BYTES]; ROWS]
        requires { drawn ≡ false → (k x : ℕ)
            → run_dot self.old.alone self.old.down self.old.up ROWS k x ≡ false }
        ensures { (k x : ℕ) → k < ROWS → x < 8 * BYTES → dot (slice_index_or result k []) x
            ≡ run_dot self.old.alone self.old.down self.old.up ROWS k x }
    {
        if !drawn {
            return self.alone;
        }
        pass_down(&mut self.down);
        pass_down(&mut self.up);
        overlay(&self.down, &self.up, &mut self.alone);
        self.alone
    }
}
