//! Pictures worked by hand, and what a format holds.
ghost use Rattle.std.specs.Prelude.{◌≡◌, ◌≤◌, length};
ghost use Rattle.vp_format.specs.Cursors.{IsMark};
ghost use Rattle.vp_format.specs.declared.rows.Coding.TheVariants.{RunLength};

mod places;

use crate::checks::same;
use std::alloc::AllocError;
use std::process::Abort;
use vp_dots::{Fault, Op};
use vp_format::{Coding, Content, Field, Format, RunMark, RunRows, Span, Text};
use vp_zpl::item::Orientation;

/// The next row of a cursor is this one.
fn next_is(rt: &impl Abort, cursor: &mut RunRows, want: &[u8])
    requires wide { length want.now ≡ cursor.old.picture.row_bytes }
    requires small { length want.now ≤ 164 }
    ensures { cursor.new.picture ≡ cursor.old.picture }
{
    let mut row = [0; 164];
    let row = &mut row[..want.len()];
    same(rt, &cursor.next_row(row), &Ok(true));
    same(rt, &&*row, &want);
}

/// There is no further row, or it is refused.
fn next_answers(rt: &impl Abort, cursor: &mut RunRows, row_bytes: usize, want: Result<bool, Fault>)
    requires wide { row_bytes ≡ cursor.old.picture.row_bytes }
    requires small { row_bytes ≤ 164 }
    ensures { cursor.new.picture ≡ cursor.old.picture }
{
    let mut row = [0; 164];
    same(rt, &cursor.next_row(&mut row[..row_bytes]), &want);
}

#[test]
fn counts_add(rt: HostRuntime) {
    let mut want = [0xbb; 164];
    want[163] = 0xb0;
    let mut cursor = RunRows::new(b"vMB", Coding::RunLength, 164, 1);
    next_is(&rt, &mut cursor, &want);
    next_answers(&rt, &mut cursor, 164, Ok(false));
    same(&rt, &cursor.read(), &3);
    let mut cursor = RunRows::new(b"MB", Coding::RunLength, 4, 1);
    next_is(&rt, &mut cursor, &[0xbb, 0xbb, 0xbb, 0xb0]);
}

/// The row of two bytes behind a mark in four rows is this one; how many codes were read for it, and its
/// mark.
fn row_behind(rt: &impl Abort, codes: &[u8], mark: RunMark, want: [u8; 2]) -> (u64, RunMark)
    requires { IsMark (record { coding = RunLength; codes = codes.now; row_bytes = 2; rows = 4 }) mark }
    ensures { IsMark (record { coding = RunLength; codes = codes.now; row_bytes = 2; rows = 4 }) result.1 }
{
    let mut cursor = RunRows::resume(codes, Coding::RunLength, 2, 4, mark);
    next_is(rt, &mut cursor, &want);
    (cursor.read(), cursor.mark())
}

#[test]
fn rows_repeat(rt: HostRuntime) {
    let codes = b"8F,:!3";
    let first = RunRows::new(codes, Coding::RunLength, 2, 4).mark();
    let (_, second) = row_behind(&rt, codes, first, [0x8f, 0x00]);
    let (read_again, third) = row_behind(&rt, codes, second, [0x8f, 0x00]);
    let (_, fourth) = row_behind(&rt, codes, third, [0xff, 0xff]);
    let (read, last) = row_behind(&rt, codes, fourth, [0x30, 0x00]);
    same(&rt, &(read_again, read), &(4, 2));
    let mut cursor = RunRows::resume(codes, Coding::RunLength, 2, 4, last);
    next_answers(&rt, &mut cursor, 2, Ok(false));
}

#[test]
fn rows_are_skipped(rt: HostRuntime) {
    let mut cursor = RunRows::new(b"iAB123:::,!", Coding::RunLength, 2, 100_000_000);
    same(&rt, &cursor.skip(14), &Ok(()));
    next_is(&rt, &mut cursor, &[0xaa, 0xaa]);
    next_is(&rt, &mut cursor, &[0xb1, 0x23]);
    same(&rt, &cursor.skip(2), &Ok(()));
    next_is(&rt, &mut cursor, &[0xb1, 0x23]);
    same(&rt, &cursor.skip(1), &Ok(()));
    next_is(&rt, &mut cursor, &[0xff, 0xff]);
    same(&rt, &cursor.skip(99_999_978), &Ok(()));
    next_is(&rt, &mut cursor, &[0x00, 0x00]);
    same(&rt, &cursor.skip(1), &Ok(()));
    next_answers(&rt, &mut cursor, 2, Ok(false));
    same(&rt, &cursor.read(), &11);
    let mut cursor = RunRows::new(b"11x", Coding::RunLength, 1, 100_000_000);
    same(&rt, &cursor.skip(5), &Err(Fault::Graphic));
    next_answers(&rt, &mut cursor, 1, Err(Fault::Graphic));
}

/// The last of 34 rows of one byte, read from a mark on before each row, of which the others have a byte
/// each.
fn last_row(codes: &[u8], others: &[u8; 1]) -> Result<u8, Fault> {
    let mut mark = RunRows::new(codes, Coding::RunLength, 1, 34).mark();
    for y in 0..34 {
        let mut row = [0; 1];
        let mut cursor = RunRows::resume(codes, Coding::RunLength, 1, 34, mark);
        cursor.next_row(&mut row)?;
        mark = cursor.mark();
        if y == 33 {
            return Ok(row[0]);
        }
        if row != *others {
            return Err(Fault::Unprinted);
        }
    }
    Err(Fault::Truncated)
}

#[test]
fn thirty_four_rows(rt: HostRuntime) {
    // one row, repeated over a band's end, and another
    let repeated = last_row(b"80::::::::::::::::::::::::::::::::01", &[0x80]);
    same(&rt, &repeated, &Ok(0x01));
    // a run over a band's end: 67 times F, and 0
    same(&rt, &last_row(b"iMF0", &[0xff]), &Ok(0xf0));
}

/// The first row, of one byte, is refused.
fn first_is_refused(rt: &impl Abort, codes: &[u8]) {
    let mut cursor = RunRows::new(codes, Coding::RunLength, 1, 1);
    next_answers(rt, &mut cursor, 1, Err(Fault::Graphic));
}

/// The first of two rows is this byte, and the second is refused, as often as it is asked for.
fn second_is_refused(rt: &impl Abort, codes: &[u8], byte: u8) {
    let mut cursor = RunRows::new(codes, Coding::RunLength, 1, 2);
    next_is(rt, &mut cursor, &[byte]);
    next_answers(rt, &mut cursor, 1, Err(Fault::Graphic));
    next_answers(rt, &mut cursor, 1, Err(Fault::Graphic));
}

/// Codes that are refused in the first row.
static REFUSED: [&[u8]; 6] = [b"1:", b"1G", b"G", b"G,", b"1G:", b" 1"];

#[test]
fn refusals(rt: HostRuntime) {
    second_is_refused(&rt, b":Z64:x", 0);
    for codes in REFUSED.iter() {
        first_is_refused(&rt, codes);
    }
    let mut one_row = RunRows::new(b"12G", Coding::RunLength, 1, 1);
    next_is(&rt, &mut one_row, &[0x12]);
    second_is_refused(&rt, b"12G", 0x12);
}

#[test]
fn bytes_as_they_are(rt: HostRuntime) {
    let mut cursor = RunRows::new(b"^x:", Coding::Binary, 2, 3);
    next_is(&rt, &mut cursor, b"^x");
    let mut cursor = RunRows::resume(b"^x:", Coding::Binary, 2, 3, cursor.mark());
    next_is(&rt, &mut cursor, b":\0");
    next_is(&rt, &mut cursor, b"\0\0");
    next_answers(&rt, &mut cursor, 2, Ok(false));
    same(&rt, &cursor.read(), &3);
}

/// `format` holds `fields` fields, and the bytes `stored`.
fn holds(rt: &impl Abort, format: &Format, fields: usize, stored: &[u8]) {
    same(rt, &format.len(), &fields);
    same(rt, &format.stored(), &stored);
}

/// Bytes are kept behind those that are held, and these are then held.
fn keeps(rt: &impl Abort, format: &mut Format, bytes: &[u8], stored: &[u8]) {
    same(rt, &format.keep(bytes).is_ok(), &true);
    holds(rt, format, 0, stored);
}

/// A text that is closed is one field more.
fn closes_a_text(rt: &impl Abort, format: &mut Format, stored: &[u8]) {
    let text = Field {
        left: 8,
        top: -4,
        rows: 24,
        orientation: Orientation::Rotated,
        op: Op::Flip,
        content: Content::Text(Text {
            bytes: Span { start: 1, len: 2 },
            width: 12,
            height: 24,
        }),
    };
    same(rt, &format.close(text).is_ok(), &true);
    holds(rt, format, 1, stored);
}

#[test]
fn a_format_holds_fields_and_bytes(rt: HostRuntime) -> Result<(), AllocError> {
    let mut format = Format::new(rt.alloc())?;
    holds(&rt, &format, 0, b"");
    keeps(&rt, &mut format, b"MB", b"MB");
    keeps(&rt, &mut format, b"0", b"MB0");
    closes_a_text(&rt, &mut format, b"MB0");
    format.clear();
    holds(&rt, &format, 0, b"");
    Ok(())
}
