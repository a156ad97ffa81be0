//! Commands of pictures and data, with their arguments and lines.
use super::rows::{Row, right};
use std::test::Fail;
use vp_zpl::Command;
use vp_zpl::item::{Colour, GraphicFormat, Justification, LineSpace};

static PICTURES_AND_DATA: [Row; 16] = [
    (
        b"^GB8,4,2,B^",
        Command::GraphicBox {
            width: Some(8),
            height: Some(4),
            thickness: Some(2),
            colour: Some(Colour::Black),
        },
        b"^GB8,4,2,B\n",
    ),
    (
        b"^GFa,1,2,3^",
        Command::Graphic {
            format: Some(GraphicFormat::Ascii),
            binary_bytes: Some(1),
            picture_bytes: Some(2),
            row_bytes: Some(3),
        },
        b"^GFa,1,2,3\n",
    ),
    (
        b"^GFB^",
        Command::Graphic {
            format: Some(GraphicFormat::Binary),
            binary_bytes: None,
            picture_bytes: None,
            row_bytes: None,
        },
        b"^GFB\n",
    ),
    (
        b"^GFAB,,x^",
        Command::Graphic {
            format: Some(GraphicFormat::Other),
            binary_bytes: None,
            picture_bytes: None,
            row_bytes: None,
        },
        b"^GFAB,,x\n",
    ),
    (
        b"^GF,1^",
        Command::Graphic {
            format: None,
            binary_bytes: Some(1),
            picture_bytes: None,
            row_bytes: None,
        },
        b"^GF,1\n",
    ),
    (b"^FH^", Command::FieldHex { indicator: None }, b"^FH\n"),
    (
        b"^FH#^",
        Command::FieldHex {
            indicator: Some(b'#'),
        },
        b"^FH#\n",
    ),
    (b"^FH##^", Command::FieldHex { indicator: None }, b"^FH##\n"),
    (b"^FXa note^", Command::Comment, b"^FXanote\n"),
    (
        b"^FB200,3,-5,C,0^",
        Command::FieldBlock {
            width: Some(200),
            lines: Some(3),
            space: Some(LineSpace::Deleted(5)),
            justification: Some(Justification::Centre),
        },
        b"^FB200,3,-5,C,0\n",
    ),
    (
        b"^FB200,,5,j^",
        Command::FieldBlock {
            width: Some(200),
            lines: None,
            space: Some(LineSpace::Added(5)),
            justification: Some(Justification::Justified),
        },
        b"^FB200,,5,j\n",
    ),
    (
        b"^FB1,1,-,R^",
        Command::FieldBlock {
            width: Some(1),
            lines: Some(1),
            space: None,
            justification: Some(Justification::Right),
        },
        b"^FB1,1,-,R\n",
    ),
    (
        b"^FB1,1,--1,l^",
        Command::FieldBlock {
            width: Some(1),
            lines: Some(1),
            space: None,
            justification: Some(Justification::Left),
        },
        b"^FB1,1,--1,l\n",
    ),
    (b"^FD^", Command::FieldData, b"^FD\n"),
    (b"^SN001^", Command::Skipped, b"^SN skipped\n"),
    (b"~DGR:A^", Command::Skipped, b"~DG skipped\n"),
];

/// Pictures and data.
#[test]
fn pictures_and_data(rt: HostRuntime) -> Result<(), Fail> {
    right(&rt, rt.alloc(), &PICTURES_AND_DATA)
}
