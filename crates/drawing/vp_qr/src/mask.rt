//! The penalty of a finished symbol, and the choice of its mask.

ghost use Rattle.std.specs.Prelude.{◌≡◌, ◌==◌, ◌<◌, ◌≤◌, ◌&&◌, ◌||◌, ◌+◌, ◌-◌, ℕ, not, length, slice_index};
ghost use Rattle.std.specs.Int.{bit_at};
ghost use Rattle.vp_qr.specs.Penalty.{same, line_from, begins, light_behind, light_before, runs_penalty, runs, patterns_penalty, bits_line, line_penalty, lines_penalty, is_set, square_at, squares_penalty, dark_modules, balance_penalty, sum_below, penalty};
ghost use Rattle.vp_qr.specs.Walk.{dark};
ghost use Rattle.vp_qr.specs.Encoding.{least_place};

/// A module of a line.
#[tactic(auto, using(std::proofs::lemmas::Nat::Bits::shr_and_one))]
pub fn is_dark(line: u64, at: usize) -> bool
    requires { at < 64 }
    ensures { result ≡ (bit_at line at == 1) }
{
    line >> at & 1 == 1
}

/// The columns in which the lines from `at` on have a finder's modules.
fn finders(lines: &[u64], at: usize) -> u64
    requires { at + 7 ≤ length lines.now }
    ensures { (j : ℕ) → j < 64 → is_set result j ≡ (dark lines.now at j && not (dark lines.now (at + 1) j)
        && dark lines.now (at + 2) j
        && dark lines.now (at + 3) j && dark lines.now (at + 4) j && not (dark lines.now (at + 5) j)
        && dark lines.now (at + 6) j) }
{
    lines[at]
        & !lines[at + 1]
        & lines[at + 2]
        & lines[at + 3]
        & lines[at + 4]
        & !lines[at + 5]
        & lines[at + 6]
}

/// The columns in which four lines from `at` on are light.
fn lights(lines: &[u64], at: usize) -> u64
    requires { at + 4 ≤ length lines.now }
    ensures { (j : ℕ) → j < 64 → is_set result j ≡ (not (dark lines.now at j)
        && not (dark lines.now (at + 1) j)
        && not (dark lines.now (at + 2) j) && not (dark lines.now (at + 3) j)) }
{
    !lines[at] & !lines[at + 1] & !lines[at + 2] & !lines[at + 3]
}

/// The columns in which a pattern begins at line `at`.
fn patterns(lines: &[u64], at: usize) -> u64
    requires { at + 11 ≤ length lines.now }
    ensures { (j : ℕ) → j < 64 → is_set result j
        ≡ (begins light_behind (line_from (λ i. dark lines.now i j) at 11)
        || begins light_before (line_from (λ i. dark lines.now i j) at 11)) }
{
    finders(lines, at) & lights(lines, at + 7) | lights(lines, at) & finders(lines, at + 4)
}

/// The columns in which five lines from `at` on are equal.
fn fives(lines: &[u64], at: usize) -> u64
    requires { at + 5 ≤ length lines.now }
    ensures { (j : ℕ) → j < 64 → is_set result j ≡ (same (dark lines.now at j) (dark lines.now (at + 1) j)
        && same (dark lines.now (at + 1) j) (dark lines.now (at + 2) j)
        && same (dark lines.now (at + 2) j) (dark lines.now (at + 3) j)
        && same (dark lines.now (at + 3) j) (dark lines.now (at + 4) j)) }
{
    !(lines[at] ^ lines[at + 1])
        & !(lines[at + 1] ^ lines[at + 2])
        & !(lines[at + 2] ^ lines[at + 3])
        & !(lines[at + 3] ^ lines[at + 4])
}

/// A line, and behind it the line without its first module, without its first two, and so on.
fn shifted(line: u64) -> [u64; 11]
    ensures { (k j : ℕ) → k < 11 → dark result k j ≡ is_set line (j + k) }
{
    [
        line,
        line >> 1,
        line >> 2,
        line >> 3,
        line >> 4,
        line >> 5,
        line >> 6,
        line >> 7,
        line >> 8,
        line >> 9,
        line >> 10,
    ]
}

/// The penalty of the runs of a line of `size` modules: 1 for each five equal modules, and 2 more for the
/// first five of a run.
fn runs_penalty(line: u64, size: usize) -> u32
    requires low { 21 ≤ size }
    requires most { size ≤ 57 }
    ensures penalty { result ≡ runs_penalty (runs (bits_line line size)) }
    ensures most { result ≤ 171 }
{
    let fives = fives(&shifted(line), 0);
    ones(fives, size - 4) + 2 * ones(fives & !(fives << 1), size - 4)
}

/// The penalty of the patterns in a line of `size` modules.
fn patterns_penalty(line: u64, size: usize) -> u32
    requires low { 21 ≤ size }
    requires most { size ≤ 57 }
    ensures penalty { result ≡ patterns_penalty (bits_line line size) }
    ensures most { result ≤ 2280 }
{
    40 * ones(patterns(&shifted(line), 0), size - 10)
}

/// The penalty of a line of `size` modules.
fn line_penalty(line: u64, size: usize) -> u32
    requires low { 21 ≤ size }
    requires high { size ≤ 57 }
    ensures penalty { result ≡ line_penalty (bits_line line size) }
    ensures most { result ≤ 2500 }
{
    runs_penalty(line, size) + patterns_penalty(line, size)
}

/// The penalty of the rows as lines.
fn lines_penalty(rows: &[u64; 57], size: usize) -> u32
    requires low { 21 ≤ size }
    requires high { size ≤ 57 }
    ensures penalty { result ≡ lines_penalty (dark rows.now) size }
    ensures most { result ≤ 142500 }
{
    let mut total = 0;
    for i in 0..size {
        total += line_penalty(rows[i], size);
    }
    total
}

/// How many of the `n` lowest bits of a row are set.
fn ones(row: u64, n: usize) -> u32
    requires { n ≤ 57 }
    ensures value { result ≡ sum_below n (λ j. bit_at row j) }
    ensures most { result ≤ 57 }
{
    (row & ((1 << n) - 1)).count_ones()
}

/// The places where two rows have a square of four equal modules.
fn squares_between(above: u64, below: u64) -> u64
    ensures { (j : ℕ) → j < 64 → bit_at result j ≡ square_at (is_set above) (is_set below) j }
{
    let beside = above ^ above >> 1;
    let across = above ^ below >> 1;
    !(beside | above ^ below | across)
}

/// How many squares of four equal modules two rows have.
fn row_squares(above: u64, below: u64, size: usize) -> u32
    requires low { 21 ≤ size }
    requires high { size ≤ 57 }
    ensures value { result ≡ sum_below (size - 1) (square_at (is_set above) (is_set below)) }
    ensures most { result ≤ 57 }
{
    ones(squares_between(above, below), size - 1)
}

/// The penalty of the squares of four equal modules.
fn squares_penalty(rows: &[u64; 57], size: usize) -> u32
    requires low { 21 ≤ size }
    requires high { size ≤ 57 }
    ensures penalty { result ≡ squares_penalty (dark rows.now) size }
    ensures most { result ≤ 10000 }
{
    let mut squares = 0;
    for i in 0..size - 1 {
        squares += row_squares(rows[i], rows[i + 1], size);
    }
    3 * squares
}

/// How many modules are dark.
fn dark_modules(rows: &[u64; 57], size: usize) -> u32
    requires { size ≤ 57 }
    ensures value { result ≡ dark_modules (dark rows.now) size }
    ensures most { result ≤ 3249 }
{
    let mut total = 0;
    for i in 0..size {
        total += ones(rows[i], size);
    }
    total
}

/// The penalty of a symbol of which `dark` modules among `all` are dark.
fn balance_penalty(dark: u32, all: u32) -> u32
    requires dark { dark ≤ 3249 }
    requires some { 0 < all }
    requires all { all ≤ 3249 }
    ensures penalty { result ≡ balance_penalty dark all }
    ensures most { result < 1000000 }
{
    10 * ((20 * dark).abs_diff(10 * all) / all)
}

/// The penalty of the runs in the columns.
fn columns_runs(rows: &[u64; 57], size: usize) -> u32
    requires low { 21 ≤ size }
    requires high { size ≤ 57 }
    ensures penalty { result ≡ sum_below size (λ j. runs_penalty
        (runs (line_from (λ i. dark rows.now i j) 0 size))) }
    ensures most { result ≤ 10000 }
{
    let mut total = 0;
    let mut above = 0;
    for at in 0..size - 4 {
        let fives = fives(rows, at);
        total += ones(fives, size) + 2 * ones(fives & !above, size);
        above = fives;
    }
    total
}

/// The penalty of the patterns in the columns.
fn columns_patterns(rows: &[u64; 57], size: usize) -> u32
    requires low { 21 ≤ size }
    requires high { size ≤ 57 }
    ensures penalty { result ≡ sum_below size (λ j. patterns_penalty
        (line_from (λ i. dark rows.now i j) 0 size)) }
    ensures most { result ≤ 130000 }
{
    let mut found = 0;
    for at in 0..size - 10 {
        found += ones(patterns(rows, at), size);
    }
    40 * found
}

/// The penalty of the columns as lines.
fn columns_penalty(rows: &[u64; 57], size: usize) -> u32
    requires low { 21 ≤ size }
    requires high { size ≤ 57 }
    ensures penalty { result ≡ lines_penalty (λ i j. dark rows.now j i) size }
    ensures most { result ≤ 140000 }
{
    columns_runs(rows, size) + columns_patterns(rows, size)
}

/// The penalty of a finished symbol.
#[tactic(auto, unfolding(crate::specs::Penalty::penalty))]
pub fn penalty(rows: &[u64; 57], size: usize) -> u32
    requires low { 21 ≤ size }
    requires high { size ≤ 57 }
    ensures { result ≡ penalty (dark rows.now) size }
{
    let all = (size * size) as u32;
    lines_penalty(rows, size)
        + columns_penalty(rows, size)
        + squares_penalty(rows, size)
        + balance_penalty(dark_modules(rows, size), all)
}

/// The first place of a least penalty.
pub fn least(penalties: &[u32; 8]) -> usize
    ensures place { result ≡ least_place penalties.now }
    ensures most { result < 8 }
{
    let mut best = 0;
    for m in 1..8usize {
        if penalties[m] < penalties[best] {
            best = m;
        }
    }
    best
}
