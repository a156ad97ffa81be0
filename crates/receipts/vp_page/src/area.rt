//! Areas of the page, and where lines run in them.
ghost use Rattle.std.specs.Prelude.{◌≡◌, ℕ, true};

/// ESC T: where lines begin and which way they run; the next line lies to their right, as one reads them.
#[derive(Clone, Copy, Debug, PartialEq, Eq)]
pub enum Direction {
    LeftToRight,
    BottomToTop,
    RightToLeft,
    TopToBottom,
}

/// ESC W: a part of the page, in dots: its upper left place, its width and its height.
#[derive(Clone, Copy, Debug, PartialEq, Eq)]
pub struct Area {
    pub x: u16,
    pub y: u16,
    pub dx: u16,
    pub dy: u16,
}

impl Direction {
    ghost use Rattle.vp_page.specs.Areas.{is_level};

    /// Whether lines run along the rows of the page.
    pub(crate) fn is_level(self) -> bool
        ensures { result ≡ is_level self }
    {
        match self {
            Direction::LeftToRight | Direction::RightToLeft => true,
            Direction::BottomToTop | Direction::TopToBottom => false,
        }
    }
}

impl Area {
    ghost use Rattle.vp_page.specs.Areas.{line_length, depth, holds, turned};

    /// The area, its rows exchanged with its columns.
    pub(crate) fn turned(self) -> Area
        ensures { result ≡ turned self }
    {
        Area {
            x: self.y,
            y: self.x,
            dx: self.dy,
            dy: self.dx,
        }
    }

    /// Whether another area lies in this one.
    pub(crate) fn covers(self, other: Area) -> bool
        ensures { result ≡ true → (x y : ℕ) → holds other x y ≡ true → holds self x y ≡ true }
    {
        let end = |from: u16, long: u16| u32::from(from) + u32::from(long);
        self.x <= other.x
            && self.y <= other.y
            && end(other.x, other.dx) <= end(self.x, self.dx)
            && end(other.y, other.dy) <= end(self.y, self.dy)
    }

    /// How many dots a line holds.
    pub fn line_length(self, direction: Direction) -> u16
        ensures { result ≡ line_length self direction }
    {
        match direction {
            Direction::LeftToRight | Direction::RightToLeft => self.dx,
            Direction::BottomToTop | Direction::TopToBottom => self.dy,
        }
    }

    /// How many rows of dots lie below one another.
    pub fn depth(self, direction: Direction) -> u16
        ensures { result ≡ depth self direction }
    {
        match direction {
            Direction::LeftToRight | Direction::RightToLeft => self.dy,
            Direction::BottomToTop | Direction::TopToBottom => self.dx,
        }
    }
}
