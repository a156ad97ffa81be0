//! Columns of a band, counted as they are handed out.
ghost use Rattle.std.specs.Prelude.{◌≡◌, ◌+◌, ◌-◌, ◌*◌, ◌/◌, ◌%◌, ◌<◌, ◌≤◌, ◌^◌, [], ◌++◌, length, take, min, MatchOption};
ghost use Rattle.vp_dots.specs.declared.square.TheConstants.{SIDE};
ghost use Rattle.vp_field.specs.declared.counted_columns.TheConstants.{COLUMNS};

use vp_dots::SIDE;

/// So many words have the columns of a label, and some more.
pub const ROW_WORDS: usize = 20;

/// As many columns.
pub const COLUMNS: usize = SIDE * ROW_WORDS;

/// As many columns of a band as a square has, each of 32 dots, and the place of the first.
#[derive(Clone, Copy)]
pub struct Handed<'a> {
    pub x: u64,
    pub columns: &'a [u32; SIDE],
}

/// Columns of a band from one place to another, and how many of them were handed out: they are had in no
/// other way. The last word of them may have more, which are white and not counted.
#[derive(Drop)]
pub struct CountedColumns<'a> {
    /// Those that are left.
    left: &'a [u32],
    /// The place of the first of these.
    x: u64,
    /// The place of the first of all.
    from: u64,
    /// The place behind the last of all.
    end: u64,
    counted: u64,
    ghost whole: { length left.now % SIDE ≡ 0 },
    ghost few: { length left.now ≤ COLUMNS },
    ghost near: { x + length left.now ≤ 2 ^ 33 },
    ghost all: { end ≤ x + length left.now },
    ghost each: { from + counted ≡ min x end },
}

impl<'a> CountedColumns<'a> {
    /// The columns from one place to another, of which none was handed out.
    pub fn new(columns: &'a [u32; COLUMNS], from: u32, end: u32) -> Self
        requires order { from ≤ end }
        requires few { end ≤ from + COLUMNS }
        ensures left { result.left.now ≡ take (SIDE * ((end - from + (SIDE - 1)) / SIDE)) columns.now }
        ensures x { result.x ≡ from }
        ensures from { result.from ≡ from }
        ensures end { result.end ≡ end }
    {
        let words = (end - from).div_ceil(SIDE as u32) as usize;
        CountedColumns {
            left: &columns[..SIDE * words],
            x: u64::from(from),
            from: u64::from(from),
            end: u64::from(end),
            counted: 0,
        }
    }

    /// The place of the next column.
    pub fn place(&self) -> u64
        ensures { result ≡ self.now.x }
    {
        self.x
    }

    /// How many columns were handed out.
    pub fn counted(&self) -> u64
        ensures { result ≡ self.now.counted }
    {
        self.counted
    }

    /// The next columns, if any are left: they are handed out.
    pub fn next(&mut self) -> Option<Handed<'a>>
        ensures handed { MatchOption result ((self.new ≡ self.old) × (self.old.left.now ≡ []))
            (λ r. (r.x ≡ self.old.x) × (length r.columns.now ≡ SIDE)
            × (self.old.left.now ≡ r.columns.now ++ self.new.left.now) × (self.new.x ≡ self.old.x + SIDE)) }
        ensures from { self.new.from ≡ self.old.from }
        ensures end { self.new.end ≡ self.old.end }
    {
        let columns = self.left.first_chunk::<SIDE>()?;
        let x = self.x;
        self.counted += self.end.saturating_sub(x).min(SIDE as u64);
        self.left = &self.left[SIDE..];
        self.x += SIDE as u64;
        Some(Handed { x, columns })
    }
}
