//! Streams of QR symbols, and of symbols on a page, with what they print under the tests' sheet.
use crate::streams::{Image, Stream};
use vp_dots::Fault;
use vp_engine::Language;

static SYMBOL_PAGES: &[Stream] = &[
    Stream {
        name: "a QR symbol",
        language: Language::Receipt,
        bytes: b"\x1D(k\x03\x001E1\x1D(k\x03\x001C\x01\x1D(k\x0E\x001P0HELLO WORLD\x1D(k\x03\x001Q0",
        images: &[Image {
            head: b"P4\n576 21\n",
            rows: &[
                (1, b"\xFE+\xF8"),
                (1, b"\x82\xE2\x08"),
                (1, b"\xBA*\xE8"),
                (1, b"\xBA*\xE8"),
                (1, b"\xBA\xBA\xE8"),
                (1, b"\x82r\x08"),
                (1, b"\xFE\xAB\xF8"),
                (1, b"\x00\x00\x00"),
                (1, b"\xAAH\x90"),
                (1, b"x\x90\x88"),
                (1, b"\x1F\xD2\xC0"),
                (1, b"\xF5\x9Dp"),
                (1, b"OS\xA8"),
                (1, b"\x00\xA2("),
                (1, b"\xFE\x09`"),
                (1, b"\x82c@"),
                (1, b"\xBA\xCB\xF8"),
                (1, b"\xBA5\x10"),
                (1, b"\xBA\xF7H"),
                (1, b"\x82\x1CX"),
                (1, b"\xFE\xD7\x08"),
            ],
        }],
        fault: None,
    },
    Stream {
        name: "a QR symbol back along a page",
        language: Language::Receipt,
        bytes: b"\x1BL\x1BW\x00\x00\x00\x00\x18\x00\x15\x00\x1BT\x02\x1D(k\x03\x001E1\x1D(k\x03\x001C\x01\
            \x1D(k\x0E\x001P0HELLO WORLD\x1D(k\x03\x001Q0\x0C",
        images: &[Image {
            head: b"P4\n576 21\n",
            rows: &[
                (1, b"\x10\xEB\x7F"),
                (1, b"\x1A8A"),
                (1, b"\x12\xEF]"),
                (1, b"\x08\xAC]"),
                (1, b"\x1F\xD3]"),
                (1, b"\x02\xC6A"),
                (1, b"\x06\x90\x7F"),
                (1, b"\x14E\x00"),
                (1, b"\x15\xCA\xF2"),
                (1, b"\x0E\xB9\xAF"),
                (1, b"\x03K\xF8"),
                (1, b"\x11\x09\x1E"),
                (1, b"\x09\x12U"),
                (1, b"\x00\x00\x00"),
                (1, b"\x1F\xD5\x7F"),
                (1, b"\x10NA"),
                (1, b"\x17]]"),
                (1, b"\x17T]"),
                (1, b"\x17T]"),
                (1, b"\x10GA"),
                (1, b"\x1F\xD4\x7F"),
            ],
        }],
        fault: None,
    },
    Stream {
        name: "bars below a line on a page",
        language: Language::Receipt,
        bytes: b"\x1BL\x1BW\x00\x00\x00\x00@\x02\x1A\x00\x1B3\x00M\x1Dw\x02\x1Dh\x01\x1Dk\x04A\x00\x0C",
        images: &[Image {
            head: b"P4\n576 26\n",
            rows: &[
                (24, b"\xFF\xF0"),
                (1, b"\xC1\x9F>g\xCC\xC1\x9F0g\xCF\x98"),
                (1, b""),
            ],
        }],
        fault: None,
    },
    Stream {
        name: "bars back along a page",
        language: Language::Receipt,
        bytes: b"\x1BL\x1BW\x00\x00\x00\x00X\x00\x01\x00\x1BT\x02\x1Dw\x02\x1Dh\x01\x1Dk\x04A\x00\x0C",
        images: &[Image {
            head: b"P4\n576 1\n",
            rows: &[(1, b"\x19\xF3\xE6\x0C\xF9\x833\xE6|\xF9\x83")],
        }],
        fault: None,
    },
    Stream {
        name: "bars wider than their area",
        language: Language::Receipt,
        bytes: b"\x1BL\x1BW\x00\x00\x00\x00@\x00d\x00M\x1Dw\x02\x1Dh\x01\x1Dk\x04A\x00",
        images: &[],
        fault: Some(Fault::SymbolTooWide),
    },
];

pub fn tables() -> [&'static [Stream]; 1] {
    [SYMBOL_PAGES]
}
