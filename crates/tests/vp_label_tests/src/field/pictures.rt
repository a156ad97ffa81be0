//! Pictures over several bands.
ghost use Rattle.std.specs.Prelude.{◌≤◌, ℕ, List, length};
ghost use Rattle.vp_format.specs.declared.field.Content.{Content as Shown};
ghost use Rattle.vp_field.specs.Fields.{IsKept, AreMarksOf};

use super::{view_of, whole};
use crate::checks::same;
use crate::sheets::NONE;
use std::alloc::Global;
use std::test::Fail;
use vp_dots::{Band, Op};
use vp_field::{Marks, View, clear, cut, paint_field};
use vp_format::{Coding, Content, Field, Picture, binary_law};
use vp_zpl::item::Orientation;

/// A picture of rows of one byte in the label's first column.
fn picture(top: i8, rows: u8, op: Op, stored: &[u8]) -> Field
    requires { length stored.now ≤ 100 }
    ensures { IsKept stored.now result }
{
    binary_law();
    Field {
        op,
        left: 0,
        top: i64::from(top),
        rows: u32::from(rows),
        orientation: Orientation::Rotated,
        content: Content::Picture(Picture {
            codes: whole(stored),
            coding: Coding::Binary,
            row_bytes: 1,
            rows: u32::from(rows),
        }),
    }
}

/// The marks, or none.
fn kept(keeps: bool, marks: Marks) -> Marks
    ensures { (stored : List ℕ) (c : Shown) → AreMarksOf stored c marks → AreMarksOf stored c result }
{
    if keeps { marks } else { Marks::none() }
}

/// The first byte of each row of four bands of a label of 8 dots that shows a picture. Its marks are kept
/// from band to band, or there are none.
fn over_bands(
    alloc: Global,
    view: View,
    keeps: bool,
    field: &Field,
    stored: &[u8],
) -> Result<[u8; 128], Fail>
    requires { IsKept stored.now field.now }
{
    let view = View { width: 8, ..view };
    let mut bytes = [0; 128];
    let mut marks = Marks::none();
    for b in 0..4u8 {
        let first = 32 * u32::from(b);
        let mut band = Band::new(alloc)?;
        clear(view, first, &mut band);
        let _ = paint_field(&NONE, stored, field, &mut marks, view, first, &mut band);
        marks = kept(keeps, marks);
        cut(view, first, &mut band);
        for k in 0..32u8 {
            bytes[usize::from(32 * b + k)] = band.row(usize::from(k))[0];
        }
    }
    Ok(bytes)
}

/// The first byte of each row of a label of 128 rows that is put out so and shows a picture of 80 rows from
/// the 31st on.
fn wanted(stored: &[u8; 100], inverted: bool, mirrored: bool) -> [u8; 128] {
    let mut bytes = [0; 128];
    for y in 0..128u8 {
        let v = if inverted { 127 - y } else { y };
        let byte = match v.wrapping_sub(30) {
            r if r < 80 => stored[usize::from(r)],
            _ => 0,
        };
        bytes[usize::from(y)] = if inverted == mirrored {
            byte
        } else {
            byte.reverse_bits()
        };
    }
    bytes
}

#[test]
fn pictures(rt: HostRuntime) -> Result<(), Fail> {
    let mut stored = [0x81u8; 100];
    for y in 0..70u8 {
        stored[usize::from(y)] = y;
    }
    for (inverted, mirrored) in [(false, false), (true, false), (false, true), (true, true)] {
        let view = view_of((8, 128, inverted, mirrored));
        let want = wanted(&stored, inverted, mirrored);
        for keeps in [false, true] {
            let field = picture(30, 80, Op::Black, &stored);
            let bytes = over_bands(rt.alloc(), view, keeps, &field, &stored)?;
            same(&rt, &bytes, &want);
        }
    }
    Ok(())
}
