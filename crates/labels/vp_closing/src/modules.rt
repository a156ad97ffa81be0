//! What closing a field stores: the modules of a two-dimensional symbol, as rows of bits.
ghost use Rattle.std.specs.Prelude.{◌≡◌, ℕ, ◌+◌, ◌*◌, ◌<◌, ◌≤◌, ◌++◌, false, length};
ghost use Rattle.vp_dots.specs.Dots.{dot};
ghost use Rattle.vp_dots.specs.Images.{image_row, image_rows, row_bytes};
ghost use Rattle.vp_label_settings.specs.Laws.{AreParts};
ghost use Rattle.vp_matrix.specs.Symbols.{columns, rows};
ghost use Rattle.vp_closing.specs.Contents.{bytes_from, stored_with, CanBeMade, HaveSymbol};
ghost use Rattle.vp_closing.specs.Matrices.{matrix_made};
ghost use Rattle.vp_closing.specs.Rows.{image};

use crate::content::bytes_from;
use crate::matrix::{code_of, encoded, escape_of};
use vp_dots::{Ink, Op, Small, dots_decide};
use vp_field::bytes_of;
use vp_format::{Format, STORED};
use vp_label_settings::{FieldParts, MatrixAsked, OpenContent, SymbolChoice};
use vp_matrix::Matrix;

/// The bytes of the widest row of modules.
const ROW_BYTES: usize = 73;

/// Draws a row of modules on white bytes, a dot for each.
fn draw_row(matrix: &Matrix, y: u32, row: &mut [u8])
    requires inside { y < rows matrix.now }
    requires bytes { length row.old ≡ row_bytes (columns matrix.now) }
    requires white { (d : ℕ) → d < 8 * length row.old → dot row.old d ≡ false }
    ensures { row.new ≡ image_row (image matrix.now) y }
{
    matrix.scaled(1, 1).paint_row(y, Op::Black, 0, row);
    dots_decide(row);
}

/// Stores the rows of a symbol behind all that is stored.
fn keep_rows<A: Small>(matrix: &Matrix, format: &mut Format<A>)
    requires room { length format.old.stored + rows matrix.now * row_bytes (columns matrix.now) ≤ STORED }
    ensures stored { format.new.stored ≡ format.old.stored ++ image_rows (image matrix.now) }
    ensures fields { format.new.fields ≡ format.old.fields }
{
    let bytes = (matrix.columns() + 7) / 8;
    for y in 0..matrix.rows() as u32 {
        let mut room = [0; ROW_BYTES];
        let row = &mut room[..bytes];
        draw_row(matrix, y, row);
        let Ok(()) = format.keep(row) else {
            unreachable!()
        };
    }
}

/// Stores the modules of the symbol that data from a place on have, behind all that is stored.
// Apart, since a symbol's room would be cleared where a field has none.
#[inline(never)]
fn keep_symbol<A: Small>(format: &mut Format<A>, asked: MatrixAsked, start: u32)
    requires start { start ≤ length format.old.stored }
    requires symbol { HaveSymbol format.old.stored asked (bytes_from format.old.stored start) }
    ensures stored { format.new.stored ≡ format.old.stored
        ++ matrix_made format.old.stored asked (bytes_from format.old.stored start) }
    ensures fields { format.new.fields ≡ format.old.fields }
{
    let stored = format.stored();
    let src = bytes_of(stored, bytes_from(stored, start));
    let Ok(matrix) = encoded(code_of(asked, src), escape_of(asked), src) else {
        return;
    };
    keep_rows(&matrix, format);
}

/// Stores what closing a field makes behind all that is stored.
pub fn keep_made<A: Small>(format: &mut Format<A>, parts: &FieldParts)
    requires parts { AreParts (length format.old.stored) parts.now }
    requires made { CanBeMade format.old.stored parts.now.symbol parts.now.content }
    ensures stored { format.new.stored ≡ stored_with format.old.stored parts.now }
    ensures fields { format.new.fields ≡ format.old.fields }
{
    let Some(content) = parts.content else {
        return;
    };
    let OpenContent::Data { start } = content else {
        return;
    };
    let Some(symbol) = parts.symbol else {
        return;
    };
    let SymbolChoice::Matrix(choice) = symbol else {
        return;
    };
    keep_symbol(format, choice.asked, start);
}
