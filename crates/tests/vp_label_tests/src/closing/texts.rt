//! The size of characters, and blocks of lines.
use super::{ONE, closes};
use std::test::Fail;
use vp_format::{Content, Text, TextBlock};
use vp_glyph::Alignment;

/// A text of one byte.
fn one(height: u16, width: u16) -> Text {
    Text {
        bytes: ONE,
        width,
        height,
    }
}

/// A text without a block.
fn text(height: u16, width: u16) -> Option<Content> {
    Some(Content::Text(one(height, width)))
}

/// Streams that close a text, and the height and width of its characters.
static FONTS: [(&[u8], u16, u16); 17] = [
    (b"^XA^FDA^FS", 9, 5),
    (b"^XA^CF^FDA^FS", 9, 5),
    (b"^XA^CF0,30^FDA^FS", 30, 15),
    (b"^XA^CF0,1^FDA^FS", 1, 1),
    (b"^XA^CF0,,20^FDA^FS", 9, 20),
    (b"^XA^CF0,0,20^FDA^FS", 9, 20),
    (b"^XA^CF0,30,40^CF0^FDA^FS", 9, 5),
    (b"^XA^CF0,2000^FDA^FS", 1500, 750),
    (b"^XA^CF0,30,2000^FDA^FS", 30, 1500),
    (b"^XA^CF0,30,40^A0^FDA^FS", 30, 40),
    (b"^XA^CF0,30,40^A0N,50^FDA^FS", 50, 25),
    (b"^XA^CF0,30,40^A0N,,60^FDA^FS", 30, 60),
    (b"^XA^CF0,30,40^A0N,50,60^FDA^FS", 50, 60),
    (b"^XA^CF0,30,40^A0N,0,0^FDA^FS", 30, 40),
    (b"^XA^A0N,50^CF0,30,40^FDA^FS", 50, 25),
    (b"^XA^A0^CF0,30,40^FDA^FS", 30, 40),
    (b"^XA^FDA^CF0,30,40^FS", 30, 40),
];

/// ^CF and ^A: 0 counts as missing, and a width alone goes with the default's height.
#[test]
fn fonts(rt: HostRuntime) -> Result<(), Fail> {
    for (stream, height, width) in &FONTS {
        closes(&rt, rt.alloc(), *stream, text(*height, *width))?;
    }
    Ok(())
}

fn block(width: u16, lines: u16, gap: i16, alignment: Alignment) -> Option<Content> {
    Some(Content::Block(TextBlock {
        text: one(9, 5),
        width,
        lines,
        gap,
        alignment,
    }))
}

/// Streams that close a block, its width, its lines, the dots between them and where they stand.
static BLOCKS: [(&[u8], u16, u16, i16, Alignment); 6] = [
    (b"^XA^FB^FDA^FS", 0, 1, 0, Alignment::Left),
    (b"^XA^FB24,2,0,R^FDA^FS", 24, 2, 0, Alignment::Right),
    (
        b"^XA^FB40000,0,-20000,J^FDA^FS",
        32_000,
        1,
        -9999,
        Alignment::Left,
    ),
    (
        b"^XA^FB1,10000,10000,C^FDA^FS",
        1,
        9999,
        9999,
        Alignment::Centre,
    ),
    (b"^XA^FB1,2,x,x^FDA^FS", 1, 2, 0, Alignment::Left),
    (b"^XA^FB1^FB2^FDA^FS", 2, 1, 0, Alignment::Left),
];

/// ^FB's ranges and defaults; it acts on texts, and the last one counts.
#[test]
fn blocks(rt: HostRuntime) -> Result<(), Fail> {
    for (stream, width, lines, gap, alignment) in &BLOCKS {
        let want = block(*width, *lines, *gap, *alignment);
        closes(&rt, rt.alloc(), *stream, want)?;
    }
    closes(&rt, rt.alloc(), b"^XA^FB1^FS^FDA^FS", text(9, 5))?;
    Ok(())
}
