//! The bytes of the line that is being put out, a header or a row, made when the first of them is wanted.
ghost use Rattle.std.specs.Prelude.{◌≡◌};
ghost use Rattle.vp_strips.specs.Canvases.{canvas_of, Canvas as TheCanvas};
ghost use Rattle.vp_strips.specs.declared.strip.Strip.{Strip};
ghost use Rattle.vp_output.specs.Lines.{line_text};
ghost use Rattle.vp_strips.specs.Jobs.{lines_of};
ghost use Rattle.vp_strips.specs.Held.{HasLine, IsLineBegun, IsLow};

use crate::canvas::Canvas;
use crate::strip::Strip;
use arrayvec::ArrayVec;
use vp_dots::{Small, header};
use vp_output::{Line, Place};
use vp_page::PAPER_BYTES;
use vp_receipt_settings::Width;

/// The bytes of a header, and those of a row.
#[derive(Drop)]
pub struct Lines {
    pub head: ArrayVec<u8, 32>,
    pub row: [u8; PAPER_BYTES],
}

impl Lines {
    /// None yet.
    pub fn none() -> Lines {
        Lines {
            head: ArrayVec::new(),
            row: [0; PAPER_BYTES],
        }
    }

    /// Makes the bytes of the place's line where the first of them comes next.
    pub fn make<A: Small>(&mut self, strip: Strip, place: Place, canvas: &Canvas<A>)
        requires low { IsLow strip }
        requires begun { IsLineBegun strip (canvas_of canvas.now) self.old place.line place.byte }
        ensures { HasLine strip (canvas_of canvas.now) self.new place.line }
    {
        if place.byte > 0 {
            return;
        }
        match place.line {
            Line::Head => self.head = header(u32::from(strip.paper.across()), strip.tall),
            Line::Row(y) => strip.write_row(y, canvas, &mut self.row),
        }
    }

    /// The bytes of the line.
    pub fn at(&self, line: Line, paper: Width) -> &[u8]
        ensures { (s : Strip) (canvas : TheCanvas) → s.paper ≡ paper → HasLine s canvas self.now line →
            result.now ≡ line_text (lines_of s canvas) line }
    {
        match line {
            Line::Head => self.head.as_slice(),
            Line::Row(_) => &self.row[..paper.row_bytes()],
        }
    }
}
