//! An argument in its range.
ghost use Rattle.std.specs.Prelude.{◌≡◌, ◌≤◌, max};
ghost use Rattle.vp_label_settings.specs.Ranges.{ranged};

/// An argument brought into its range, which goes from `low` to `high`; where it
/// is missing or can't be read, its default.
pub fn ranged(low: u16, high: u16, default: u16, argument: Option<u32>) -> u16
    ensures value { result ≡ ranged low high default argument }
    ensures most { result ≤ max default (max low high) }
{
    match argument {
        None => default,
        Some(n) => n.min(u32::from(high)).max(u32::from(low)) as u16,
    }
}
