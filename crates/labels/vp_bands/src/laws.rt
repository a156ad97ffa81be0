//! Which bands a box meets, and what a copy takes.
ghost use Rattle.vp_bands.specs.Laws.{BandsMet, CostsAtMost, LooksBounded, WorkBounded};

/// A box meets a band where one of its rows is shown on a row of it, and no band behind the label's last row.
pub fn bands_met()
    ensures { BandsMet }
{}

/// A copy takes one look or two for each field and each band that it meets, and at most one more for each
/// band.
pub fn looks_bounded()
    ensures { LooksBounded }
{}

/// Painting a copy takes at most the work of each pair of a field and a band that it meets, and at least one
/// for each pair of a field and a band on which it has ink.
pub fn work_bounded()
    ensures { WorkBounded }
{}

/// In a band a field takes at most 16,416, or 43,960 where its lines lie across the rows, and with that 262
/// times the bytes of its text and twice those of its codes. So a copy takes at most 43,960 for each pair of
/// a field and a band that it meets, and in each band 262 times the bytes of all texts and twice those of all
/// codes.
pub fn a_field_costs_at_most()
    ensures { CostsAtMost }
{}
