//! Bars.
use super::{ONE, closes};
use std::test::Fail;
use vp_bars::{BarCode, Code128Data, HriPosition};
use vp_format::{BarSymbol, Content};

fn bars(code: BarCode, narrow: u16, wide: u16, height: u16, place: HriPosition) -> Option<Content> {
    Some(Content::Bars(BarSymbol {
        bytes: ONE,
        code,
        narrow,
        wide,
        height,
        place,
    }))
}

const UNCHECKED: BarCode = BarCode::Code39 { check: false };

/// Streams that close bars, their kind, their narrow and wide ones, their height and where their text stands.
static BARS: [(&[u8], BarCode, u16, u16, u16, HriPosition); 10] = [
    (b"^XA^B3^FD1^FS", UNCHECKED, 2, 6, 10, HriPosition::Below),
    (
        b"^XA^B3,Y,,N,Y^FD1^FS",
        BarCode::Code39 { check: true },
        2,
        6,
        10,
        HriPosition::None,
    ),
    (
        b"^XA^BE,50,Y,Y^FD1^FS",
        BarCode::Ean13 { padded: true },
        2,
        6,
        50,
        HriPosition::Above,
    ),
    (
        b"^XA^BC,9000,,,,A^FD1^FS",
        BarCode::Code128 {
            data: Code128Data::Packed,
        },
        2,
        6,
        8000,
        HriPosition::Below,
    ),
    (
        b"^XA^BC,0,,,,N^FD1^FS",
        BarCode::Code128 {
            data: Code128Data::Invocations,
        },
        2,
        6,
        1,
        HriPosition::Below,
    ),
    (
        b"^XA^BY1,2.0,7^B3^FD1^FS",
        UNCHECKED,
        1,
        2,
        7,
        HriPosition::Below,
    ),
    (
        b"^XA^BY3,2.5^B3^FD1^FS",
        UNCHECKED,
        3,
        7,
        10,
        HriPosition::Below,
    ),
    (
        b"^XA^BY20,9.9^B3^FD1^FS",
        UNCHECKED,
        10,
        30,
        10,
        HriPosition::Below,
    ),
    (
        b"^XA^B3^FD1^BY4,1.0,30^FS",
        UNCHECKED,
        4,
        8,
        30,
        HriPosition::Below,
    ),
    (
        b"^XA^BY4,2.0,30^BY5^B3^FD1^FS",
        UNCHECKED,
        5,
        15,
        10,
        HriPosition::Below,
    ),
];

/// Bars take what they leave out from ^BY, and a wide bar is at least a dot wider than a narrow one.
#[test]
fn bar_codes(rt: HostRuntime) -> Result<(), Fail> {
    for (stream, code, narrow, wide, height, place) in &BARS {
        let want = bars(*code, *narrow, *wide, *height, *place);
        closes(&rt, rt.alloc(), *stream, want)?;
    }
    Ok(())
}
