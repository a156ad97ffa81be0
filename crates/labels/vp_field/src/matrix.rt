//! Two-dimensional symbols, painted.
ghost use Rattle.std.specs.Prelude.{◌≡◌, ◌+◌, ◌≤◌};
ghost use Rattle.vp_glyph.specs.Sheets.{Sheets as Given};
ghost use Rattle.vp_format.specs.declared.field.Content.TheVariants as contents;
ghost use Rattle.vp_field.specs.Contents.{lines_cost, IsMatrixSymbol};
ghost use Rattle.vp_field.specs.Axes.{lines_of};
ghost use Rattle.vp_field.specs.Bands.{ShownPainted, IsCounted};
ghost use Rattle.vp_field.specs.Drawn.{drawn};
ghost use Rattle.vp_field.specs.Standing.{IsNear};
ghost use Rattle.vp_field.specs.Views.{columns_of};

use crate::content::bytes_of;
use crate::modules::Modules;
use crate::standing::{Standing, paint_standing};
use vp_dots::Small;
use vp_format::MatrixSymbol;
use vp_label_size::LabelBand;

/// Paints a two-dimensional symbol: how many lines of ink it drew, and pieces of them.
pub fn paint_matrix<A: Small>(
    stored: &[u8],
    symbol: MatrixSymbol,
    on: Standing,
    first: u32,
    band: &mut LabelBand<A>,
) -> u64
    requires symbol { IsMatrixSymbol stored.now symbol }
    requires near { IsNear on.left on.top }
    ensures dots { (sheets : Given) → ShownPainted (columns_of on.view) on.op
        (drawn sheets stored.now (contents.Matrix symbol) on first) band.old band.new }
    ensures lines { result ≤ lines_cost (lines_of on.orientation) (λ d. 1) }
    ensures counted { (sheets : Given) →
        IsCounted (drawn sheets stored.now (contents.Matrix symbol) on first) result }
{
    let ink = Modules {
        symbol,
        bytes: bytes_of(stored, symbol.modules),
    };
    paint_standing(&ink, on, first, band)
}
