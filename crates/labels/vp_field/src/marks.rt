//! What earlier bands left of a field, from which a later one goes on.
ghost use Rattle.std.specs.Prelude.{ℕ, ◌<◌, ◌≤◌, List, Some};
ghost use Rattle.vp_format.specs.declared.field.Content.{Content};
ghost use Rattle.vp_field.specs.Fields.{row_at, ArePlacesOf, IsMarkOf, AreMarksOf};

use vp_bars::Bars;
use vp_format::RunMark;
use vp_qr::QrInk;

/// The most marks that are left on the way to a band.
pub const ON_WAY: usize = 8;

/// Marks of one picture: those on the way to a band, in their order, and the one behind the rows that fell on
/// it.
#[derive(Clone, Copy)]
pub struct Places {
    on_way: [Option<RunMark>; 8],
    behind: RunMark,
}

/// A QR symbol as it was drawn.
#[derive(Clone, Copy)]
pub struct DrawnSymbol {
    pub ink: QrInk,
}

/// What is left of one field.
#[derive(Drop)]
pub enum Marks {
    Nothing,
    Picture(Places),
    Symbol(DrawnSymbol),
    /// A linear symbol as it was encoded.
    Bars(Bars),
}

impl Places {
    /// The last mark that doesn't lie behind a row, if there is one, and the place behind its own.
    fn last_before(&self, row: u32) -> (usize, Option<RunMark>)
        ensures before { row_at result.1 ≤ row }
        ensures mark { (stored : List ℕ) (c : Content) → ArePlacesOf stored c self.now →
            IsMarkOf stored c result.1 }
    {
        if self.behind.row() <= row {
            return (ON_WAY + 1, Some(self.behind));
        }
        let mut k = self.on_way.len();
        while k > 0 {
            k -= 1;
            if let Some(mark) = self.on_way[k] {
                if mark.row() <= row {
                    return (k + 1, Some(mark));
                }
            }
        }
        (0, None)
    }
}

impl Marks {
    /// Nothing.
    pub fn none() -> Marks
        ensures { (stored : List ℕ) (c : Content) → AreMarksOf stored c result }
    {
        Marks::Nothing
    }

    /// The last mark that doesn't lie behind a row, if a picture left one, and the place behind its own.
    pub fn last_before(&self, row: u32) -> (usize, Option<RunMark>)
        ensures before { row_at result.1 ≤ row }
        ensures mark { (stored : List ℕ) (c : Content) → AreMarksOf stored c self.now →
            IsMarkOf stored c result.1 }
    {
        match self {
            Marks::Picture(places) => places.last_before(row),
            Marks::Nothing | Marks::Symbol(_) | Marks::Bars(_) => (0, None),
        }
    }

    /// The places of marks: where there are none, a mark stands behind the rows.
    fn places(&self, mark: RunMark) -> Places
        ensures { (stored : List ℕ) (c : Content) → AreMarksOf stored c self.now →
            IsMarkOf stored c (Some mark) → ArePlacesOf stored c result }
    {
        match *self {
            Marks::Picture(places) => places,
            Marks::Nothing | Marks::Symbol(_) | Marks::Bars(_) => Places {
                on_way: [None; 8],
                behind: mark,
            },
        }
    }

    /// Keeps a mark on the way, in a place.
    pub fn keep(&mut self, place: usize, mark: RunMark)
        requires { place < ON_WAY }
        ensures { (stored : List ℕ) (c : Content) → AreMarksOf stored c self.old →
            IsMarkOf stored c (Some mark) → AreMarksOf stored c self.new }
    {
        let mut places = self.places(mark);
        places.on_way[place] = Some(mark);
        *self = Marks::Picture(places);
    }

    /// Keeps a mark behind the rows that fell on a band.
    pub fn keep_behind(&mut self, mark: RunMark)
        ensures { (stored : List ℕ) (c : Content) → AreMarksOf stored c self.old →
            IsMarkOf stored c (Some mark) → AreMarksOf stored c self.new }
    {
        let places = self.places(mark);
        *self = Marks::Picture(Places {
            behind: mark,
            ..places
        });
    }
}
