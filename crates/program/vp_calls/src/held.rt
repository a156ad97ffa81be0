//! What a printer holds, as C is told it.
ghost use Rattle.std.specs.Prelude.{◌≡◌};
ghost use Rattle.vp_calls.specs.Helds.{held_in_c};

use vp_engine::Held;

/// What is held, the largest number first.
#[repr(C)]
#[derive(Clone, Copy, Debug, PartialEq, Eq)]
pub struct HeldNow {
    stored: u32,
    fields: u16,
    line_rows: u16,
    page_rows: u16,
    band_rows: u16,
}

/// Nothing.
pub const NOTHING_HELD: HeldNow = HeldNow {
    stored: 0,
    fields: 0,
    line_rows: 0,
    page_rows: 0,
    band_rows: 0,
};

impl HeldNow {
    /// A printer's.
    pub fn of(held: Held) -> Self
        ensures { result ≡ held_in_c held }
    {
        HeldNow {
            stored: held.stored,
            fields: held.fields,
            line_rows: held.line_rows,
            page_rows: held.page_rows,
            band_rows: held.band_rows,
        }
    }
}
