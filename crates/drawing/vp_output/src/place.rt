//! Where the next byte of an image is: in which line of it, and how far into that.
ghost use Rattle.std.specs.Prelude.{◌≡◌, ◌+◌, ◌≤◌};
ghost use Rattle.vp_output.specs.declared.place.Line.TheVariants.{Head};
ghost use Rattle.vp_output.specs.Lines.{IsLineOf};
ghost use Rattle.vp_output.specs.Places.{behind_line, advanced};

/// A line of an image: its header, or a row, counted from 0.
#[derive(Clone, Copy, Debug, PartialEq, Eq)]
pub enum Line {
    Head,
    Row(u32),
}

/// The next byte to put out of an image.
#[derive(Clone, Copy, Debug, PartialEq, Eq)]
pub struct Place {
    pub line: Line,
    /// How many bytes of the line are put out.
    pub byte: usize,
}

impl Place {
    /// The first byte of an image.
    pub fn start() -> Place
        ensures { result ≡ record { line = Head; byte = 0 } }
    {
        Place {
            line: Line::Head,
            byte: 0,
        }
    }

    /// The place behind the line, in an image of `rows` rows.
    fn behind_line(self, rows: u32) -> Option<Place>
        requires { IsLineOf rows self.line }
        ensures { result ≡ behind_line rows self.line }
    {
        let y = match self.line {
            Line::Head => 0,
            Line::Row(y) => y + 1,
        };
        if y < rows {
            Some(Place {
                line: Line::Row(y),
                byte: 0,
            })
        } else {
            None
        }
    }

    /// The place `n` bytes further on, in a line of `len` bytes of an image of `rows` rows.
    pub fn advanced(self, n: usize, len: usize, rows: u32) -> Option<Place>
        requires line { IsLineOf rows self.line }
        requires within { self.byte + n ≤ len }
        ensures { result ≡ advanced rows len n self }
    {
        if self.byte + n < len {
            return Some(Place {
                line: self.line,
                byte: self.byte + n,
            });
        }
        self.behind_line(rows)
    }
}
