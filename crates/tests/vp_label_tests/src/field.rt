//! Fields painted on bands, row by row.
ghost use Rattle.std.specs.Prelude.{◌≡◌, ◌≤◌, length};
ghost use Rattle.vp_field.specs.Fields.{IsKept};

mod boxes;
mod pictures;
mod symbols;
mod texts;

use crate::checks::same_by;
use std::alloc::Global;
use std::process::Abort;
use std::test::Fail;
use vp_field::{Marks, View, clear, cut, paint_field};
use vp_format::{Field, Span};
use vp_glyph::Sheets;
use vp_label_size::LabelBand;

/// A label that is put out as it is.
fn plain(width: u16, height: u16) -> View {
    View {
        width: u32::from(width),
        height: u32::from(height),
        inverted: false,
        mirrored: false,
    }
}

/// The first stored bytes.
fn whole(stored: &[u8]) -> Span
    requires { length stored.now ≤ 100 }
    ensures { result ≡ record { start = 0; len = length stored.now } }
{
    Span {
        start: 0,
        len: stored.len() as u32,
    }
}

/// The first bytes of the label's rows in a band after fields are painted, one after the other.
#[derive(Drop)]
struct Painter {
    view: View,
    first: u32,
    band: LabelBand,
}

impl Painter {
    fn new(alloc: Global, view: View, first: u32) -> Result<Painter, Fail> {
        let mut band = LabelBand::new(alloc)?;
        clear(view, first, &mut band);
        Ok(Painter { view, first, band })
    }

    fn paint(&mut self, sheets: &Sheets, stored: &[u8], field: &Field)
        requires { IsKept stored.now field.now }
    {
        let _ = paint_field(
            sheets,
            stored,
            field,
            &mut Marks::none(),
            self.view,
            self.first,
            &mut self.band,
        );
    }

    fn rows(mut self) -> [[u8; 6]; 32] {
        let width = self.view.width.min(1248);
        cut(View { width, ..self.view }, self.first, &mut self.band);
        let bytes = ((width as usize + 7) / 8).min(6);
        let high = self.view.height.saturating_sub(self.first).min(32);
        let mut rows = [[0; 6]; 32];
        for y in 0..high as usize {
            rows[y][..bytes].copy_from_slice(&self.band.row(y)[..bytes]);
        }
        rows
    }
}

/// Rows of a band from the top: how many are alike, and their first six bytes; below them it is white.
type Rows = &'static [(usize, [u8; 6])];

/// All 32 rows of a band; none where `want` counts more.
fn all_rows(want: Rows) -> Option<[[u8; 6]; 32]> {
    let mut rows = [[0; 6]; 32];
    let mut next = 0;
    for (count, row) in want {
        for _ in 0..*count {
            if next >= 32 {
                return None;
            }
            rows[next] = *row;
            next += 1;
        }
    }
    Some(rows)
}

/// A band shows these rows.
fn shows(rt: &impl Abort, painter: Painter, name: &str, want: Rows) {
    same_by(rt, name, &Some(painter.rows()), &all_rows(want));
}

/// A label's width and its rows, and whether it is put out inverted, and mirrored.
type Label = (u16, u16, bool, bool);

fn view_of((width, height, inverted, mirrored): Label) -> View {
    View {
        inverted,
        mirrored,
        ..plain(width, height)
    }
}
