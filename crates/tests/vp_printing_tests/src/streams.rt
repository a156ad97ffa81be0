//! Streams of receipts, with what they print under the tests' sheet.
use vp_dots::{Fault, Why};
use vp_engine::Language;

/// An image: its header, and in `rows` how many rows are alike and how they begin; they go on white.
pub struct Image {
    pub head: &'static [u8],
    pub rows: &'static [(usize, &'static [u8])],
}

/// A stream, what it prints, and its fault.
pub struct Stream {
    pub name: &'static str,
    pub language: Language,
    pub bytes: &'static [u8],
    pub images: &'static [Image],
    pub fault: Option<Fault>,
}

/// Rasters and feeds.
static FEED_STREAMS: &[Stream] = &[
    Stream {
        name: "nothing",
        language: Language::Receipt,
        bytes: b"",
        images: &[],
        fault: None,
    },
    Stream {
        name: "a printer that begins anew",
        language: Language::Receipt,
        bytes: b"\x1B@",
        images: &[],
        fault: None,
    },
    Stream {
        name: "a raster whose row is wider than the paper",
        language: Language::Receipt,
        bytes: b"\x1Dv0\x00\x49\x00\x01\x00\
            \0\0\0\0\0\0\0\0\0\0\0\0\0\0\0\0\0\0\0\0\0\0\0\0\0\0\0\0\0\0\0\0\0\0\0\0\
            \0\0\0\0\0\0\0\0\0\0\0\0\0\0\0\0\0\0\0\0\0\0\0\0\0\0\0\0\0\0\0\0\0\0\0\0\xFF",
        images: &[Image {
            head: b"P4\n576 1\n",
            rows: &[(1, b"")],
        }],
        fault: None,
    },
    Stream {
        name: "a feed before an unknown command",
        language: Language::Receipt,
        bytes: b"\x1BJ\x02\x1B\x7F\x0A",
        images: &[Image {
            head: b"P4\n576 2\n",
            rows: &[(2, b"")],
        }],
        fault: Some(Fault::Unknown(0x1B, 0x7F)),
    },
    Stream {
        name: "line feed on narrow paper",
        language: Language::Receipt58,
        bytes: b"\x0A",
        images: &[Image {
            head: b"P4\n384 34\n",
            rows: &[(34, b"")],
        }],
        fault: None,
    },
    Stream {
        name: "a raster of two rows",
        language: Language::Receipt,
        bytes: b"\x1Dv0\x00\x01\x00\x02\x00\x80\x01",
        images: &[Image {
            head: b"P4\n576 2\n",
            rows: &[(1, b"\x80"), (1, b"\x01")],
        }],
        fault: None,
    },
    Stream {
        name: "a raster that is cut off",
        language: Language::Receipt,
        bytes: b"\x1Dv0\x00\x01\x00\x02\x00\x80",
        images: &[Image {
            head: b"P4\n576 2\n",
            rows: &[(1, b"\x80")],
        }],
        fault: Some(Fault::Truncated),
    },
    Stream {
        name: "line feed",
        language: Language::Receipt,
        bytes: b"\x0A",
        images: &[Image {
            head: b"P4\n576 34\n",
            rows: &[(34, b"")],
        }],
        fault: None,
    },
    Stream {
        name: "a feed of no dots",
        language: Language::Receipt,
        bytes: b"\x1BJ\x00",
        images: &[],
        fault: None,
    },
];

/// Lines of text.
static LINE_STREAMS: &[Stream] = &[
    Stream {
        name: "a character",
        language: Language::Receipt,
        bytes: b"M\x0A",
        images: &[Image {
            head: b"P4\n576 34\n",
            rows: &[(24, b"\xFF\xF0"), (10, b"")],
        }],
        fault: None,
    },
    Stream {
        name: "a line that breaks",
        language: Language::Receipt,
        bytes: b"MMMMMMMMMMMMMMMMMMMMMMMMMMMMMMMMMMMMMMMMMMMMMMMMM\x0A",
        images: &[
            Image {
                head: b"P4\n576 34\n",
                rows: &[
                    (
                        24,
                        b"\xFF\xFF\xFF\xFF\xFF\xFF\xFF\xFF\xFF\xFF\xFF\xFF\xFF\xFF\xFF\xFF\xFF\xFF\
                        \xFF\xFF\xFF\xFF\xFF\xFF\xFF\xFF\xFF\xFF\xFF\xFF\xFF\xFF\xFF\xFF\xFF\xFF\
                        \xFF\xFF\xFF\xFF\xFF\xFF\xFF\xFF\xFF\xFF\xFF\xFF\xFF\xFF\xFF\xFF\xFF\xFF\
                        \xFF\xFF\xFF\xFF\xFF\xFF\xFF\xFF\xFF\xFF\xFF\xFF\xFF\xFF\xFF\xFF\xFF\xFF",
                    ),
                    (10, b""),
                ],
            },
            Image {
                head: b"P4\n576 34\n",
                rows: &[(24, b"\xFF\xF0"), (10, b"")],
            },
        ],
        fault: None,
    },
    Stream {
        name: "justification while the line is open",
        language: Language::Receipt,
        bytes: b"M\x1Ba\x01\x0A",
        images: &[Image {
            head: b"P4\n576 34\n",
            rows: &[(24, b"\xFF\xF0"), (10, b"")],
        }],
        fault: None,
    },
    Stream {
        name: "magnified, and then not",
        language: Language::Receipt,
        bytes: b"\x1D!\x11M\x1D!\x00M\x0A",
        images: &[Image {
            head: b"P4\n576 48\n",
            rows: &[(24, b"\xFF\xFF\xFF"), (24, b"\xFF\xFF\xFF\xFF\xF0")],
        }],
        fault: None,
    },
    Stream {
        name: "an unknown command",
        language: Language::Receipt,
        bytes: b"M\x0A\x1B\x7FM\x0A",
        images: &[Image {
            head: b"P4\n576 34\n",
            rows: &[(24, b"\xFF\xF0"), (10, b"")],
        }],
        fault: Some(Fault::Unknown(0x1B, 0x7F)),
    },
    Stream {
        name: "a tab",
        language: Language::Receipt,
        bytes: b"\x09M\x0A",
        images: &[Image {
            head: b"P4\n576 34\n",
            rows: &[
                (
                    24,
                    b"\x00\x00\x00\x00\x00\x00\x00\x00\x00\x00\x00\x00\xFF\xF0",
                ),
                (10, b""),
            ],
        }],
        fault: None,
    },
    Stream {
        name: "right justification",
        language: Language::Receipt,
        bytes: b"\x1Ba\x02M\x0A",
        images: &[Image {
            head: b"P4\n576 34\n",
            rows: &[
                (
                    24,
                    b"\x00\x00\x00\x00\x00\x00\x00\x00\x00\x00\x00\x00\x00\x00\x00\x00\x00\x00\
                    \x00\x00\x00\x00\x00\x00\x00\x00\x00\x00\x00\x00\x00\x00\x00\x00\x00\x00\
                    \x00\x00\x00\x00\x00\x00\x00\x00\x00\x00\x00\x00\x00\x00\x00\x00\x00\x00\
                    \x00\x00\x00\x00\x00\x00\x00\x00\x00\x00\x00\x00\x00\x00\x00\x00\x0F\xFF",
                ),
                (10, b""),
            ],
        }],
        fault: None,
    },
];

/// Styles, margins and areas.
static STYLE_STREAMS: &[Stream] = &[
    Stream {
        name: "underlined white",
        language: Language::Receipt,
        bytes: b"\x1B-\x02N\x0A",
        images: &[Image {
            head: b"P4\n576 34\n",
            rows: &[(22, b""), (2, b"\xFF\xF0"), (10, b"")],
        }],
        fault: None,
    },
    Stream {
        name: "a column",
        language: Language::Receipt,
        bytes: b"\x1B*!\x01\x00\x80\x00\x01\x0A",
        images: &[Image {
            head: b"P4\n576 34\n",
            rows: &[(1, b"\x80"), (22, b""), (1, b"\x80"), (10, b"")],
        }],
        fault: None,
    },
    Stream {
        name: "a feed and a partial cut",
        language: Language::Receipt,
        bytes: b"\x1DVB\x02",
        images: &[
            Image {
                head: b"P4\n576 2\n",
                rows: &[(2, b"")],
            },
            Image {
                head: b"P4\n576 1\n",
                rows: &[(
                    1,
                    b"\xFF\x00\xFF\x00\xFF\x00\xFF\x00\xFF\x00\xFF\x00\xFF\x00\xFF\x00\xFF\x00\
                    \xFF\x00\xFF\x00\xFF\x00\xFF\x00\xFF\x00\xFF\x00\xFF\x00\xFF\x00\xFF\x00\
                    \xFF\x00\xFF\x00\xFF\x00\xFF\x00\xFF\x00\xFF\x00\xFF\x00\xFF\x00\xFF\x00\
                    \xFF\x00\xFF\x00\xFF\x00\xFF\x00\xFF\x00\xFF\x00\xFF\x00\xFF\x00\xFF\x00",
                )],
            },
        ],
        fault: None,
    },
    Stream {
        name: "emphasized",
        language: Language::Receipt,
        bytes: b"\x1BE\x01B\x0A",
        images: &[Image {
            head: b"P4\n576 34\n",
            rows: &[(24, b"\xC0"), (10, b"")],
        }],
        fault: None,
    },
    Stream {
        name: "inverse",
        language: Language::Receipt,
        bytes: b"\x1B-\x01\x1DB\x01M\x0A",
        images: &[Image {
            head: b"P4\n576 34\n",
            rows: &[(34, b"")],
        }],
        fault: None,
    },
    Stream {
        name: "font B out of sheet A",
        language: Language::Receipt,
        bytes: b"\x1BM\x01M\x0A",
        images: &[Image {
            head: b"P4\n576 34\n",
            rows: &[(17, b"\xFF\x80"), (17, b"")],
        }],
        fault: None,
    },
    Stream {
        name: "a left margin",
        language: Language::Receipt,
        bytes: b"\x1DL\x08\x00M\x0A",
        images: &[Image {
            head: b"P4\n576 34\n",
            rows: &[(24, b"\x00\xFF\xF0"), (10, b"")],
        }],
        fault: None,
    },
    Stream {
        name: "a narrow area",
        language: Language::Receipt,
        bytes: b"\x1DW\x14\x00MM\x0A",
        images: &[
            Image {
                head: b"P4\n576 34\n",
                rows: &[(24, b"\xFF\xF0"), (10, b"")],
            },
            Image {
                head: b"P4\n576 34\n",
                rows: &[(24, b"\xFF\xF0"), (10, b"")],
            },
        ],
        fault: None,
    },
    Stream {
        name: "two lines",
        language: Language::Receipt,
        bytes: b"\x1Bd\x02",
        images: &[Image {
            head: b"P4\n576 68\n",
            rows: &[(68, b"")],
        }],
        fault: None,
    },
    Stream {
        name: "no line",
        language: Language::Receipt,
        bytes: b"M\x1Bd\x00",
        images: &[Image {
            head: b"P4\n576 24\n",
            rows: &[(24, b"\xFF\xF0")],
        }],
        fault: None,
    },
];

/// Rasters, and narrow paper.
static PAPER_STREAMS: &[Stream] = &[
    Stream {
        name: "a raster doubled both ways",
        language: Language::Receipt,
        bytes: b"\x1Dv0\x03\x01\x00\x01\x00\x80",
        images: &[Image {
            head: b"P4\n576 2\n",
            rows: &[(2, b"\xC0")],
        }],
        fault: None,
    },
    Stream {
        name: "a raster of no bytes",
        language: Language::Receipt,
        bytes: b"\x1Dv00\x00\x00\x05\x00\x0A",
        images: &[Image {
            head: b"P4\n576 34\n",
            rows: &[(34, b"")],
        }],
        fault: None,
    },
    Stream {
        name: "a raster on narrow paper",
        language: Language::Receipt58,
        bytes: b"\x1Dv0\x00\x01\x00\x02\x00\x80\x01",
        images: &[Image {
            head: b"P4\n384 2\n",
            rows: &[(1, b"\x80"), (1, b"\x01")],
        }],
        fault: None,
    },
    Stream {
        name: "a line that breaks on narrow paper",
        language: Language::Receipt58,
        bytes: b"MMMMMMMMMMMMMMMMMMMMMMMMMMMMMMMMM\x0A",
        images: &[
            Image {
                head: b"P4\n384 34\n",
                rows: &[
                    (
                        24,
                        b"\xFF\xFF\xFF\xFF\xFF\xFF\xFF\xFF\xFF\xFF\xFF\xFF\xFF\xFF\xFF\xFF\
                        \xFF\xFF\xFF\xFF\xFF\xFF\xFF\xFF\xFF\xFF\xFF\xFF\xFF\xFF\xFF\xFF\
                        \xFF\xFF\xFF\xFF\xFF\xFF\xFF\xFF\xFF\xFF\xFF\xFF\xFF\xFF\xFF\xFF",
                    ),
                    (10, b""),
                ],
            },
            Image {
                head: b"P4\n384 34\n",
                rows: &[(24, b"\xFF\xF0"), (10, b"")],
            },
        ],
        fault: None,
    },
    Stream {
        name: "a full cut on narrow paper",
        language: Language::Receipt58,
        bytes: b"\x1DV\x00",
        images: &[Image {
            head: b"P4\n384 1\n",
            rows: &[(
                1,
                b"\xFF\xFF\xFF\xFF\xFF\xFF\xFF\xFF\xFF\xFF\xFF\xFF\xFF\xFF\xFF\xFF\
                \xFF\xFF\xFF\xFF\xFF\xFF\xFF\xFF\xFF\xFF\xFF\xFF\xFF\xFF\xFF\xFF\
                \xFF\xFF\xFF\xFF\xFF\xFF\xFF\xFF\xFF\xFF\xFF\xFF\xFF\xFF\xFF\xFF",
            )],
        }],
        fault: None,
    },
    Stream {
        name: "a margin past narrow paper",
        language: Language::Receipt58,
        bytes: b"\x1DL\x80\x01M\x0A",
        images: &[Image {
            head: b"P4\n384 34\n",
            rows: &[(24, b"\xFF\xF0"), (10, b"")],
        }],
        fault: None,
    },
    Stream {
        name: "an open line at the end",
        language: Language::Receipt,
        bytes: b"M",
        images: &[],
        fault: Some(Fault::Unprinted),
    },
];

/// Symbols, drawn and refused.
static SYMBOL_STREAMS: &[Stream] = &[
    Stream {
        name: "a bar code",
        language: Language::Receipt,
        bytes: b"\x1Dw\x02\x1Dh\x01\x1Dk\x04A\x00",
        images: &[Image {
            head: b"P4\n576 1\n",
            rows: &[(1, b"\xC1\x9F\x3E\x67\xCC\xC1\x9F\x30\x67\xCF\x98")],
        }],
        fault: None,
    },
    Stream {
        name: "a bar code with its text",
        language: Language::Receipt,
        bytes: b"\x1Dw\x02\x1Dh\x01\x1DH\x02\x1Dk\x043\x00",
        images: &[Image {
            head: b"P4\n576 25\n",
            rows: &[
                (1, b"\xC1\x9F\x3E\x67\xCF\x83\x33\x30\x67\xCF\x98"),
                (24, b"\x00\x00\x00\x00\x0F\xFF"),
            ],
        }],
        fault: None,
    },
    Stream {
        name: "data too short for a bar code, behind an open line",
        language: Language::Receipt,
        bytes: b"M\x1Dk\x0212\x00",
        images: &[],
        fault: Some(Fault::Symbol(Why::Length)),
    },
    Stream {
        name: "a bar code wider than the line",
        language: Language::Receipt,
        bytes: b"\x1Dw\x06\x1Dk\x04AAAAA\x00",
        images: &[],
        fault: Some(Fault::SymbolTooWide),
    },
    Stream {
        name: "a bar code of another kind",
        language: Language::Receipt,
        bytes: b"\x1Dk\x000\x00",
        images: &[],
        fault: Some(Fault::Symbol(Why::Unsupported)),
    },
    Stream {
        name: "a QR symbol of nothing",
        language: Language::Receipt,
        bytes: b"\x1D(k\x03\x001Q0",
        images: &[],
        fault: Some(Fault::Symbol(Why::Empty)),
    },
    Stream {
        name: "a QR symbol of another model",
        language: Language::Receipt,
        bytes: b"\x1D(k\x04\x001A1\x00\x1D(k\x0E\x001P0HELLO WORLD\x1D(k\x03\x001Q0",
        images: &[],
        fault: Some(Fault::Symbol(Why::Unsupported)),
    },
    Stream {
        name: "more tab stops than are kept",
        language: Language::Receipt,
        bytes: b"\x1BD\x01\x02\x03\x04\x05\x06\x07\x08\x09\x0A\x0B\x0C\x0D\x0E\x0F\x10\
            \x11\x12\x13\x14\x15\x16\x17\x18\x19\x1A\x1B\x1C\x1D\x1E\x1F\x20\x21\x00\
            \x09\x09\x09\x09\x09\x09\x09\x09\x09\x09\x09\x09\x09\x09\x09\x09\x09\
            \x09\x09\x09\x09\x09\x09\x09\x09\x09\x09\x09\x09\x09\x09\x09\x09M\x0A",
        images: &[Image {
            head: b"P4\n576 34\n",
            rows: &[
                (
                    24,
                    b"\xFE\x00\x00\x00\x00\x00\x00\x00\x00\x00\x00\x00\x00\x00\x00\x00\x00\
                    \x00\x00\x00\x00\x00\x00\x00\x00\x00\x00\x00\x00\x00\x00\x00\x00\x00\
                    \x00\x00\x00\x00\x00\x00\x00\x00\x00\x00\x00\x00\x00\x00\xFF\xF0",
                ),
                (10, b""),
            ],
        }],
        fault: None,
    },
];

fn feeds() -> &'static [Stream] {
    FEED_STREAMS
}

fn lines() -> &'static [Stream] {
    LINE_STREAMS
}

fn styles() -> &'static [Stream] {
    STYLE_STREAMS
}

fn papers() -> &'static [Stream] {
    PAPER_STREAMS
}

fn symbols() -> &'static [Stream] {
    SYMBOL_STREAMS
}

/// All of them, each table from a function of its own: a check of a function takes the longer the more its
/// tables hold.
pub fn tables() -> [&'static [Stream]; 5] {
    [feeds(), lines(), styles(), papers(), symbols()]
}
