//! What a field shows: boxes, pictures, QR symbols, or nothing.
use super::{closed, closes, last};
use crate::checks::same;
use std::test::Fail;
use vp_dots::{Fault, Op};
use vp_format::{Coding, Content, GraphicBox, Picture, QrSymbol, Span};
use vp_qr::{Level, Mode};

/// Streams that close a box, its width, its height, its thickness, and what it paints.
static BOXES: [(&[u8], u16, u16, u16, Op); 6] = [
    (b"^XA^GB^FS", 1, 1, 1, Op::Black),
    (b"^XA^GB5,3,1^FS", 5, 3, 1, Op::Black),
    (b"^XA^GB,,4^FS", 4, 4, 4, Op::Black),
    (b"^XA^GB3,40000,4,W^FS", 4, 32_000, 4, Op::White),
    (b"^XA^GB0,0,0,X^FS", 1, 1, 1, Op::Black),
    (b"^XA^BQ^FDabc^GB^FS", 1, 1, 1, Op::Black),
];

/// Streams that close a picture, its coding, the bytes of a row, its rows and the bytes of its codes.
static PICTURES: [(&[u8], Coding, u16, u32, u32); 4] = [
    (b"^XA^GFA,3,10,4,FFF^FS", Coding::RunLength, 4, 2, 3),
    (b"^XA^GF,,4,4,FFF^FS", Coding::RunLength, 4, 1, 3),
    (b"^XA^GFA,4,4,4^FS", Coding::RunLength, 4, 1, 0),
    (b"^XA^GFB,3,3,1,abc^FS", Coding::Binary, 1, 3, 3),
];

/// Streams that close no field, and why the head of a picture in them is refused.
static NO_FIELDS: [(&[u8], Option<Fault>); 8] = [
    (b"^XA^FO1,1^FR^FS", None),
    (b"^XA^GFB,2,3,1,ab^FS", Some(Fault::Graphic)),
    (b"^XA^GFB,,3,1,^FS", Some(Fault::Graphic)),
    (b"^XA^GFC,3,3,1,FFF^FS", Some(Fault::Graphic)),
    (b"^XA^GFA,3,3,4,FFF^FS", Some(Fault::Graphic)),
    (b"^XA^GFA,3,3,0,FFF^FS", Some(Fault::Graphic)),
    (b"^XA^GFA,3,2000,1025,FFF^FS", Some(Fault::Graphic)),
    (b"^XA^GFA,3,3,FFF^FS", Some(Fault::Graphic)),
];

/// Streams that close a QR symbol of eleven bytes behind three, and the dots of its modules.
static QR_SYMBOLS: [(&[u8], u8); 3] = [
    (b"^XA^BQN,2,3^FDMA,HELLO WORLD^FS", 3),
    (b"^XA^BQN,5,0^FDMA,HELLO WORLD^FS", 1),
    (b"^XA^FDMA,HELLO WORLD^B3^BQ^FS", 2),
];

fn frame(width: u16, height: u16, thickness: u16) -> Option<Content> {
    Some(Content::Box(GraphicBox {
        width,
        height,
        thickness,
    }))
}

fn picture(coding: Coding, row_bytes: u16, rows: u32, len: u32) -> Option<Content> {
    Some(Content::Picture(Picture {
        codes: Span { start: 0, len },
        coding,
        row_bytes,
        rows,
    }))
}

fn qr(module: u8) -> Option<Content> {
    Some(Content::Qr(QrSymbol {
        bytes: Span { start: 3, len: 11 },
        level: Level::M,
        mode: Mode::Auto,
        module,
        version: 1,
        mask: 0,
    }))
}

/// The last of ^FD, ^GB and ^GF is the content, and the last symbol command anywhere in the field draws its
/// data.
#[test]
fn contents(rt: HostRuntime) -> Result<(), Fail> {
    for (stream, width, height, thickness, operation) in &BOXES {
        let want = frame(*width, *height, *thickness);
        closes(&rt, rt.alloc(), *stream, want)?;
        let paints = match last(rt.alloc(), stream)? {
            Some(field) => Some(field.op),
            None => None,
        };
        same(&rt, &paints, &Some(*operation));
    }
    for (stream, coding, row_bytes, rows, length) in &PICTURES {
        let want = picture(*coding, *row_bytes, *rows, *length);
        closes(&rt, rt.alloc(), *stream, want)?;
    }
    for (stream, fault) in &NO_FIELDS {
        let (count, _, refused) = closed(rt.alloc(), stream)?;
        same(&rt, &(count, refused), &(0, *fault));
    }
    for (stream, module) in &QR_SYMBOLS {
        closes(&rt, rt.alloc(), *stream, qr(*module))?;
    }
    Ok(())
}
