//! Where a line of dots lies on a line of places.
ghost use Rattle.std.specs.Prelude.{◌≡◌, ℕ, ◌+◌, ◌-◌, ◌^◌, ◌<◌, ◌≤◌, Bool, true, false, ℤ, pos, neg_ℤ, ◌-ℤ◌, ◌+ℤ◌, ◌≤ℤ◌, ◌<ℤ◌, option_map, unwrap_or, Some, IfSome};
ghost use Rattle.vp_field.specs.Places.{at_place};
ghost use Rattle.vp_field.specs.Views.{counted_back};
ghost use Rattle.vp_field.specs.Axes.{dot_on, read_at, IsWithin};
ghost use Rattle.vp_label_size.specs.declared.TheConstants.{BAND_ROWS};

use vp_label_size::BAND_ROWS;

/// Where a line of dots lies on a line of places: its first dot on a place, and the others behind it or
/// before it.
#[derive(Clone, Copy, Debug, PartialEq, Eq)]
pub enum Axis {
    Forward(i64),
    Back(i64),
}

/// How the lines of ink lie on a label.
#[derive(Clone, Copy, Debug, PartialEq, Eq)]
pub enum Lines {
    /// Along its rows.
    Along,
    /// Along its columns.
    Across,
}

/// Where dots of a line lie on places.
#[derive(Clone, Copy)]
pub struct Window {
    /// The first place on which one of them lies, and the one behind the last.
    pub from: u32,
    pub to: u32,
    /// The first of those that lie there.
    pub first: u32,
}

/// The place that is as far from the last of `size` places as place `at` is from the first.
fn from_end(at: i64, size: u32) -> i64
    requires low { neg_ℤ (pos (2 ^ 41)) ≤ℤ at }
    requires high { at ≤ℤ pos (2 ^ 41) }
    ensures { result ≡ pos size -ℤ pos 1 -ℤ at }
{
    i64::from(size) - 1 - at
}

/// A number of rows that isn't below 0 or above the most.
pub fn clamped(rows: i64, most: u32) -> u32
    ensures most { result ≤ most }
    ensures below { (v : ℕ) → v < most → pos v <ℤ rows → v < result }
    ensures above { (v : ℕ) → rows ≤ℤ pos v → result ≤ v }
{
    rows.clamp(0, i64::from(most)) as u32
}

/// How far place `at` is behind the last of `places` places from `from` on.
fn last_before(at: i64, from: u32, places: u32) -> i64
    requires low { neg_ℤ (pos (2 ^ 41)) ≤ℤ at }
    requires high { at ≤ℤ pos (2 ^ 41) }
    ensures { result ≡ at -ℤ pos from -ℤ pos places +ℤ pos 1 }
{
    at - i64::from(from) - i64::from(places) + 1
}

/// A number with the other sign.
fn negated(at: i64) -> i64
    requires low { neg_ℤ (pos (2 ^ 41)) ≤ℤ at }
    requires high { at ≤ℤ pos (2 ^ 41) }
    ensures { result ≡ pos 0 -ℤ at }
{
    -at
}

/// Which of the first `places` places are `size` places from `at` on, where the first of these shows dot
/// `first` of `size`, or the one that is nearest.
fn window_of(at: i64, first: i64, size: u32, places: u32) -> Window
    requires low { neg_ℤ (pos (2 ^ 42)) ≤ℤ at }
    requires high { at ≤ℤ pos (2 ^ 42) }
    ensures order { result.from ≤ result.to }
    ensures places { result.to ≤ places }
    ensures size { result.first ≤ size }
    ensures before { 0 < result.from → pos (result.from - 1) <ℤ at }
    ensures from { result.from < result.to → at ≤ℤ pos result.from }
    ensures to { 0 < result.to → pos (result.to - 1) <ℤ (at +ℤ pos size) }
    ensures behind { result.to < places → (at +ℤ pos size) ≤ℤ pos result.to }
    ensures above { 0 < result.first → pos (result.first - 1) <ℤ first }
    ensures first { result.first < size → first ≤ℤ pos result.first }
{
    let to = clamped(at + i64::from(size), places);
    Window {
        from: clamped(at, to),
        to,
        first: clamped(first, size),
    }
}

impl Axis {
    /// This line, on places that are counted from the other end of `size`.
    pub fn flipped(self, size: u32) -> Axis
        requires { IsWithin (2 ^ 41) self }
        ensures dots { (p : ℤ) → dot_on result p ≡ dot_on self (pos size -ℤ pos 1 -ℤ p) }
        ensures near { IsWithin (2 ^ 40) self → IsWithin (2 ^ 40 + 2 ^ 32) result }
        ensures far { IsWithin (2 ^ 40 + 2 ^ 32) self → IsWithin (2 ^ 41) result }
    {
        match self {
            Axis::Forward(at) => Axis::Back(from_end(at, size)),
            Axis::Back(at) => Axis::Forward(from_end(at, size)),
        }
    }

    /// This line, its places counted back where `back` asks for it.
    pub fn counted(self, back: bool, size: u32) -> Axis
        requires { IsWithin (2 ^ 41) self }
        ensures dots { (p : ℤ) → dot_on result p ≡ dot_on self (counted_back back size p) }
        ensures near { IsWithin (2 ^ 40) self → IsWithin (2 ^ 40 + 2 ^ 32) result }
        ensures far { IsWithin (2 ^ 40 + 2 ^ 32) self → IsWithin (2 ^ 41) result }
    {
        if back { self.flipped(size) } else { self }
    }

    /// The dot that lies on a place, if there is one.
    pub fn dot_on(self, place: u64) -> Option<u32>
        ensures { (line : ℕ → Bool) → ((u : ℕ) → line u ≡ true → u < 2 ^ 32) →
            at_place line (dot_on self (pos place)) ≡ unwrap_or (option_map line result) false }
    {
        let dot = match self {
            Axis::Forward(at) if at >= 0 => place.checked_sub(at.unsigned_abs())?,
            Axis::Forward(at) => place.checked_add(at.unsigned_abs())?,
            Axis::Back(at) if at >= 0 => at.unsigned_abs().checked_sub(place)?,
            Axis::Back(_) => return None,
        };
        u32::try_from(dot).ok()
    }

    /// The place on which a dot lies.
    fn place_of(self, dot: u32) -> i64
        requires { IsWithin (2 ^ 41) self }
        ensures low { neg_ℤ (pos (2 ^ 42)) ≤ℤ result }
        ensures high { result ≤ℤ pos (2 ^ 42) }
        ensures place { dot_on self result ≡ pos dot }
        ensures only { (p : ℤ) → dot_on self p ≡ pos dot → p ≡ result }
    {
        match self {
            Axis::Forward(at) => at + i64::from(dot),
            Axis::Back(at) => at - i64::from(dot),
        }
    }

    /// The row of a band on which a dot lies, if it lies on one, where the band's first row is a place.
    pub fn row_of(self, dot: u32, first: u32) -> Option<usize>
        requires { IsWithin (2 ^ 41) self }
        ensures high { IfSome result (λ k. k < BAND_ROWS) }
        ensures on { IfSome result (λ k. dot_on self (pos (first + k)) ≡ pos dot) }
        ensures only { (k : ℕ) → k < BAND_ROWS → dot_on self (pos (first + k)) ≡ pos dot → result ≡ Some k }
    {
        let k = self.place_of(dot) - i64::from(first);
        if k < 0 || k >= BAND_ROWS as i64 {
            return None;
        }
        Some(k as usize)
    }

    /// Which of so many dots in a row lies on the p-th of as many places.
    pub fn read_at(self, dots: usize, p: usize) -> usize
        requires { p < dots }
        ensures read { result ≡ read_at self dots p }
        ensures within { result < dots }
    {
        match self {
            Axis::Forward(_) => p,
            Axis::Back(_) => dots - 1 - p,
        }
    }

    /// The first place on which one of the first `size` dots lies, and the one behind the last.
    pub fn span(self, size: u32) -> (u64, u64)
        ensures before { (line : ℕ → Bool) → ((u : ℕ) → line u ≡ true → u < size) → (p : ℕ)
            → p < result.0 → at_place line (dot_on self (pos p)) ≡ false }
        ensures behind { (line : ℕ → Bool) → ((u : ℕ) → line u ≡ true → u < size) → (p : ℕ)
            → result.1 ≤ p → at_place line (dot_on self (pos p)) ≡ false }
        ensures near { IsWithin (2 ^ 41) self → result.0 ≤ 2 ^ 42 }
    {
        let size = u64::from(size);
        match self {
            Axis::Forward(at) if at >= 0 => (at.unsigned_abs(), at.unsigned_abs() + size),
            Axis::Forward(at) => (0, size.saturating_sub(at.unsigned_abs())),
            Axis::Back(at) if at >= 0 => {
                let behind = at.unsigned_abs() + 1;
                (behind.saturating_sub(size), behind)
            }
            Axis::Back(_) => (0, 0),
        }
    }

    /// Where the first `size` dots lie on the first `places` places.
    pub fn window(self, size: u32, places: u32) -> Window
        requires { IsWithin (2 ^ 41) self }
        ensures order { result.from ≤ result.to }
        ensures to { result.to ≤ places }
        ensures inside { (p : ℕ) → result.from ≤ p → p < result.to
            → let v = result.first + read_at self (result.to - result.from) (p - result.from)
            in (v < size) × (dot_on self (pos p) ≡ pos v) }
        ensures outside { (p v : ℕ) → p < places → v < size → dot_on self (pos p) ≡ pos v
            → (result.from ≤ p) × (p < result.to) }
    {
        match self {
            Axis::Forward(at) => window_of(at, negated(at), size, places),
            Axis::Back(at) => window_of(
                last_before(at, 0, size),
                last_before(at, 0, places),
                size,
                places,
            ),
        }
    }

    /// How many places, the first of which shows line v, show lines from one to another.
    pub fn run(self, v: u32, first: u32, last: u32) -> u64
        requires first { first ≤ v }
        requires last { v ≤ last }
        ensures some { 0 < result }
        ensures alike { (line : ℕ → Bool) (p : ℕ) → dot_on self (pos p) ≡ pos v
            → ((w : ℕ) → first ≤ w → w ≤ last → line w ≡ line v) → (j : ℕ) → j < result
            → at_place line (dot_on self (pos (p + j))) ≡ at_place line (dot_on self (pos p)) }
    {
        match self {
            Axis::Forward(_) => u64::from(last - v) + 1,
            Axis::Back(_) => u64::from(v - first) + 1,
        }
    }

    /// The dot on the first of `places` places from `from` on, or on the last, whichever comes first, on a
    /// line that goes on to either side.
    pub fn first_line(self, from: u32, places: u32) -> i64
        requires { IsWithin (2 ^ 41) self }
        ensures low { neg_ℤ (pos (2 ^ 42)) ≤ℤ result }
        ensures high { result ≤ℤ pos (2 ^ 42) }
        ensures from { (k v : ℕ) → k < places → dot_on self (pos (from + k)) ≡ pos v → result ≤ℤ pos v }
        ensures to { (k v : ℕ) → k < places → dot_on self (pos (from + k)) ≡ pos v
            → pos v <ℤ (result +ℤ pos places) }
    {
        match self {
            Axis::Forward(at) => i64::from(from) - at,
            Axis::Back(at) => last_before(at, from, places),
        }
    }
}
