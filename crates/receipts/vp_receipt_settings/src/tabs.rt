//! The tab stops.
ghost use Rattle.std.specs.Prelude.{◌≡◌, ◌*◌, map};
ghost use Rattle.vp_receipt_settings.specs.Tabs.{first_tab_stops};

use arrayvec::ArrayVec;

/// The tab stops, in dots.
pub type Stops = ArrayVec<u32, 32>;

/// A stop every 96 dots.
pub fn first_stops() -> Stops
    ensures { result.items ≡ first_tab_stops }
{
    let mut stops = ArrayVec::new();
    for k in 0..32u32 {
        stops.push(96 * (k + 1));
    }
    stops
}

/// A stop behind each number of `characters`, which are `advance` dots wide.
pub(crate) fn stops_of(characters: &ArrayVec<u8, 32>, advance: u16) -> Stops
    ensures { result.items ≡ map (λ n. n * advance) characters.now.items }
{
    let mut stops = ArrayVec::new();
    for n in characters.as_slice() {
        stops.push(u32::from(*n) * u32::from(advance));
    }
    stops
}
