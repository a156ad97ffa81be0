//! Rows of characters that are stretched to a height: which are alike.
ghost use Rattle.std.specs.Prelude.{◌≡◌, ℕ, ◌+◌, ◌*◌, ◌/◌, ◌<◌, ◌≤◌};

/// The first row that shows row s of 24, which are drawn `high` rows high in all.
fn first_of(s: u64, high: u32) -> u64
    requires { s ≤ 24 }
    ensures { result ≡ (s * high + 23) / 24 }
{
    (s * u64::from(high) + 23) / 24
}

/// The first and the last of the rows of a character drawn `high` rows high that show the row of the sheet
/// which row y shows.
pub fn alike_rows(y: u32, high: u32) -> (u32, u32)
    requires { y < high }
    ensures first { result.0 ≤ y }
    ensures last { y ≤ result.1 }
    ensures most { result.1 < high }
    ensures alike { (v : ℕ) → result.0 ≤ v → v ≤ result.1 → v * 24 / high ≡ y * 24 / high }
{
    if high <= 24 {
        return (y, y);
    }
    let s = u64::from(y) * 24 / u64::from(high);
    (first_of(s, high) as u32, (first_of(s + 1, high) - 1) as u32)
}
