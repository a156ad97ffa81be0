//! Where fields stand, how they are turned and what they do.
use super::{closed, last};
use crate::checks::same;
use std::alloc::{AllocError, Global};
use std::test::Fail;
use vp_dots::Op;
use vp_zpl::item::Orientation;

/// The first row whose stream doesn't end in a field that stands at its corner, turned and painted as it
/// says.
fn wrong_place(
    alloc: Global,
    rows: &[(&[u8], (i64, i64), Orientation, Op)],
) -> Result<Option<usize>, AllocError> {
    for i in 0..rows.len() {
        let (stream, corner, orientation, op) = rows[i];
        let is_there = match last(alloc, stream)? {
            Some(field) => {
                (field.left, field.top) == corner
                    && field.orientation == orientation
                    && field.op == op
            }
            None => false,
        };
        if !is_there {
            return Ok(Some(i));
        }
    }
    Ok(None)
}

const CORNER: (i64, i64) = (0, 0);

/// Streams, and where the turned box of the field that they close last stands, how it is turned and what it
/// does.
static PLACES: [(&[u8], (i64, i64), Orientation, Op); 15] = [
    (
        b"^XA^A0^FDA^FWR^FS",
        CORNER,
        Orientation::Rotated,
        Op::Black,
    ),
    (b"^XA^FDA^FWR^XZ", CORNER, Orientation::Rotated, Op::Black),
    (
        b"^XA^A0I^FWR^FDA^FS",
        CORNER,
        Orientation::Inverted,
        Op::Black,
    ),
    (
        b"^XA^A0I^FR^FO1,2^FDA^FS^FDBC^FS",
        CORNER,
        Orientation::Normal,
        Op::Black,
    ),
    (
        b"^XA^FO1,2^FT3,4^FDA^LH10,20^FS",
        (13, 15),
        Orientation::Normal,
        Op::Black,
    ),
    (
        b"^XA^FDA^LH10,20^FS^LH^FDB^FS",
        CORNER,
        Orientation::Normal,
        Op::Black,
    ),
    (
        b"^XA^FO32001,5^LH32000^GB^FS",
        (64_000, 5),
        Orientation::Normal,
        Op::Black,
    ),
    (b"^XA^GB1,1,1,W^FS", CORNER, Orientation::Normal, Op::White),
    (
        b"^XA^FR^GB1,1,1,W^FS",
        CORNER,
        Orientation::Normal,
        Op::Flip,
    ),
    (b"^XA^GB^LRY^FS", CORNER, Orientation::Normal, Op::Flip),
    (b"^XA^LRY^GB^LRN^FS", CORNER, Orientation::Normal, Op::Black),
    (
        b"^XA^FWB^B3^FD1^FS",
        CORNER,
        Orientation::BottomUp,
        Op::Black,
    ),
    (
        b"^XA^FWB^BER^FD1^FS",
        CORNER,
        Orientation::Rotated,
        Op::Black,
    ),
    (
        b"^XA^FWB^BQR^FDMA,1^FS",
        CORNER,
        Orientation::Normal,
        Op::Black,
    ),
    (b"^XA^FWB^GB^FS", CORNER, Orientation::Normal, Op::Black),
];

/// How many fields a stream closes.
fn count(alloc: Global, stream: &[u8]) -> Result<usize, AllocError> {
    let (count, _, _) = closed(alloc, stream)?;
    Ok(count)
}

/// What a field leaves out is taken as it stands when the field is closed, and ^FS forgets what was said of
/// it.
#[test]
fn at_closing(rt: HostRuntime) -> Result<(), Fail> {
    same(&rt, &wrong_place(rt.alloc(), &PLACES)?, &None);
    same(
        &rt,
        &count(rt.alloc(), b"^XA^FDA^FS^FS^FO1,1^FS^FDB^XZ^FS")?,
        &2,
    );
    Ok(())
}

/// Texts of two cells of 12 by 30 dots, turned each way, and the corners of their turned boxes.
static CORNERS: [(&[u8], (i64, i64), Orientation, Op); 5] = [
    (
        b"^XA^FT10,200^A0N,30,12^FDAB^FS",
        (10, 170),
        Orientation::Normal,
        Op::Black,
    ),
    (
        b"^XA^FT10,200^A0R,30,12^FDAB^FS",
        (10, 200),
        Orientation::Rotated,
        Op::Black,
    ),
    (
        b"^XA^FT10,200^A0I,30,12^FDAB^FS",
        (-14, 200),
        Orientation::Inverted,
        Op::Black,
    ),
    (
        b"^XA^FT10,200^A0B,30,12^FDAB^FS",
        (-20, 176),
        Orientation::BottomUp,
        Op::Black,
    ),
    (
        b"^XA^FO10,200^A0B,30,12^FDAB^FS",
        (10, 200),
        Orientation::BottomUp,
        Op::Black,
    ),
];

/// ^FO gives the corner of the turned box, ^FT the lower left corner of the text as it is read.
#[test]
fn corners(rt: HostRuntime) -> Result<(), Fail> {
    same(&rt, &wrong_place(rt.alloc(), &CORNERS)?, &None);
    Ok(())
}
