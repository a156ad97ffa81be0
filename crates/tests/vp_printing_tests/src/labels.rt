//! Streams of labels of boxes and pictures, with what they print.
use vp_dots::Fault;

/// An image, dot by dot: its size, its rows from the top (white below them), and how often it is
/// printed. Rows that are alike stand there once: how many, where their dots begin, and these dots, of
/// which `#` is black.
pub struct Printed {
    pub width: usize,
    pub height: usize,
    pub rows: &'static [(usize, usize, &'static [u8])],
    pub copies: usize,
}

/// A stream of labels, what it prints, and its fault.
pub struct Label {
    pub name: &'static str,
    pub bytes: &'static [u8],
    pub prints: &'static [Printed],
    pub fault: Option<Fault>,
}

/// Boxes, some of which reverse others.
static BOX_LABELS: &[Label] = &[
    Label {
        name: "a box",
        bytes: b"^XA^PW16^LL4^FO2,1^GB5,3,1^FS^XZ",
        prints: &[Printed {
            width: 16,
            height: 4,
            rows: &[
                (1, 0, b""),
                (1, 0, b"..#####"),
                (1, 0, b"..#...#"),
                (1, 0, b"..#####"),
            ],
            copies: 1,
        }],
        fault: None,
    },
    Label {
        name: "a box by its lower left corner",
        bytes: b"^XA^PW16^LL4^FT2,4^GB5,3,1^FS^XZ",
        prints: &[Printed {
            width: 16,
            height: 4,
            rows: &[
                (1, 0, b""),
                (1, 0, b"..#####"),
                (1, 0, b"..#...#"),
                (1, 0, b"..#####"),
            ],
            copies: 1,
        }],
        fault: None,
    },
    Label {
        name: "a box that reverses another",
        bytes: b"^XA^PW16^LL2^FO0,0^GB8,2,2^FS^FO4,0^FR^GB8,2,2^FS^XZ",
        prints: &[Printed {
            width: 16,
            height: 2,
            rows: &[(2, 0, b"####....####")],
            copies: 1,
        }],
        fault: None,
    },
    Label {
        name: "a box that reverses another, twice",
        bytes: b"^XA^PW16^LL2^PQ2^FO0,0^GB8,2,2^FS^FO4,0^FR^GB8,2,2^FS^XZ",
        prints: &[Printed {
            width: 16,
            height: 2,
            rows: &[(2, 0, b"####....####")],
            copies: 2,
        }],
        fault: None,
    },
];

/// Boxes over the end of a band.
static BAND_LABELS: &[Label] = &[
    Label {
        name: "boxes over one another in two bands",
        bytes: b"^XA^PW8^LL34^FO0,30^GB8,4,4^FS^FO0,32^GB8,1,1,W^FS^FO0,31^FR^GB4,3,3^FS^XZ",
        prints: &[Printed {
            width: 8,
            height: 34,
            rows: &[
                (30, 0, b""),
                (1, 0, b"########"),
                (1, 0, b"....####"),
                (1, 0, b"####"),
                (1, 0, b"....####"),
            ],
            copies: 1,
        }],
        fault: None,
    },
    Label {
        name: "boxes over one another in two bands, without one that reverses",
        bytes: b"^XA^PW8^LL34^FO0,30^GB8,4,4^FS^FO0,32^GB8,1,1,W^FS^XZ",
        prints: &[Printed {
            width: 8,
            height: 34,
            rows: &[
                (30, 0, b""),
                (2, 0, b"########"),
                (1, 0, b""),
                (1, 0, b"########"),
            ],
            copies: 1,
        }],
        fault: None,
    },
    Label {
        name: "boxes over one another in two bands, inverted",
        bytes: b"^XA^PW8^LL34^POI^FO0,30^GB8,4,4^FS^FO0,32^GB8,1,1,W^FS^FO0,31^FR^GB4,3,3^FS^XZ",
        prints: &[Printed {
            width: 8,
            height: 34,
            rows: &[
                (1, 0, b"####"),
                (1, 0, b"....####"),
                (1, 0, b"####"),
                (1, 0, b"########"),
            ],
            copies: 1,
        }],
        fault: None,
    },
    Label {
        name: "boxes over one another in two bands, twice",
        bytes: b"^XA^PW8^LL34^PQ2^FO0,30^GB8,4,4^FS^FO0,32^GB8,1,1,W^FS^FO0,31^FR^GB4,3,3^FS^XZ",
        prints: &[Printed {
            width: 8,
            height: 34,
            rows: &[
                (30, 0, b""),
                (1, 0, b"########"),
                (1, 0, b"....####"),
                (1, 0, b"####"),
                (1, 0, b"....####"),
            ],
            copies: 2,
        }],
        fault: None,
    },
];

/// Labels reversed, mirrored and inverted, and boxes at their edges.
static TURNED_LABELS: &[Label] = &[
    Label {
        name: "a box over one that reverses",
        bytes: b"^XA^PW8^LL1^FR^GB8,1,1^FS^GB8,1,1^FS^XZ",
        prints: &[Printed {
            width: 8,
            height: 1,
            rows: &[(1, 0, b"########")],
            copies: 1,
        }],
        fault: None,
    },
    Label {
        name: "a label that reverses, also by a white box",
        bytes: b"^XA^PW8^LL1^GB8,1,1^FS^LRY^GB4,1,1^FS^GB2,1,1,W^FS^XZ",
        prints: &[Printed {
            width: 8,
            height: 1,
            rows: &[(1, 0, b"##..####")],
            copies: 1,
        }],
        fault: None,
    },
    Label {
        name: "a mirrored label, twice",
        bytes: b"^XA^PW8^LL2^PMY^PQ2^GB4,1,1^FS^XZ",
        prints: &[Printed {
            width: 8,
            height: 2,
            rows: &[(1, 0, b"....####")],
            copies: 2,
        }],
        fault: None,
    },
    Label {
        name: "a label whose width isn't whole bytes, inverted and mirrored",
        bytes: b"^XA^PW11^LL3^POI^PMY^FO1,0^GFA,2,2,1,C080^FS^XZ",
        prints: &[Printed {
            width: 11,
            height: 3,
            rows: &[(1, 0, b""), (1, 0, b".#"), (1, 0, b".##")],
            copies: 1,
        }],
        fault: None,
    },
    Label {
        name: "a home, a frame, a white box and a line thicker than it is wide",
        bytes: b"^XA^PW20^LL8^LH2,1^FO1,1^GB6,4,1^FS^FO2,2^GB2,1,1,W^FS^FO1,1^GB1,4,1,W^FS^FO9,0\
            ^GB1,6,3^FS^XZ",
        prints: &[Printed {
            width: 20,
            height: 8,
            rows: &[
                (1, 0, b""),
                (1, 0, b"...........###"),
                (1, 0, b"....#####..###"),
                (2, 0, b"........#..###"),
                (1, 0, b"....#####..###"),
                (1, 0, b"...........###"),
            ],
            copies: 1,
        }],
        fault: None,
    },
    Label {
        name: "a box below the label",
        bytes: b"^XA^PW8^LL34^FO0,100^GB8,1,1^FS^XZ",
        prints: &[Printed {
            width: 8,
            height: 34,
            rows: &[],
            copies: 1,
        }],
        fault: None,
    },
    Label {
        name: "the widest label",
        bytes: b"^XA^PW1300^LL1^FO1240,0^GB8,1,1^FS^XZ",
        prints: &[Printed {
            width: 1248,
            height: 1,
            rows: &[(1, 1240, b"########")],
            copies: 1,
        }],
        fault: None,
    },
];

/// What stays from one format to the next, and what is skipped.
static SETTING_LABELS: &[Label] = &[
    Label {
        name: "settings that stay for the next label, and a quantity that doesn't",
        bytes: b"^XA^PW8^LL2^POI^LRY^PQ2^GB4,2,2^FS^GB2,1,1^FS^XZ^XA^GB3,1,1^FS^XZ",
        prints: &[
            Printed {
                width: 8,
                height: 2,
                rows: &[(1, 0, b"....####"), (1, 0, b"....##")],
                copies: 2,
            },
            Printed {
                width: 8,
                height: 2,
                rows: &[(1, 0, b""), (1, 0, b".....###")],
                copies: 1,
            },
        ],
        fault: None,
    },
    Label {
        name: "a setting sent again without its parameter",
        bytes: b"^XA^PW8^LL1^POI^PO^GB3,1,1^FS^XZ",
        prints: &[Printed {
            width: 8,
            height: 1,
            rows: &[(1, 0, b"###")],
            copies: 1,
        }],
        fault: None,
    },
    Label {
        name: "a field that the end of the format closes",
        bytes: b"^XA^PW8^LL1^GB8,1,1^XZ",
        prints: &[Printed {
            width: 8,
            height: 1,
            rows: &[(1, 0, b"########")],
            copies: 1,
        }],
        fault: None,
    },
    Label {
        name: "a format without fields",
        bytes: b"^XA^PW8^LL1^PQ3^FO1,1^FS^XZ",
        prints: &[],
        fault: None,
    },
    Label {
        name: "commands outside a format",
        bytes: b"^PW8^LL1^GB8,1,1^FS^XZ",
        prints: &[],
        fault: None,
    },
    Label {
        name: "what is skipped",
        bytes: b"junk~JA^XA^CI28\r\n^FXa comment, with words^PW8^LL1^XA^g\nB3,1,1^FS^XZ.",
        prints: &[Printed {
            width: 8,
            height: 1,
            rows: &[(1, 0, b"###")],
            copies: 1,
        }],
        fault: None,
    },
];

/// Pictures.
static PICTURE_LABELS: &[Label] = &[
    Label {
        name: "a picture by run-length codes",
        bytes: b"^XA^PW32^LL1^FO0,0^GFA,4,4,4,MB^FS^XZ",
        prints: &[Printed {
            width: 32,
            height: 1,
            rows: &[(1, 0, b"#.###.###.###.###.###.###.##")],
            copies: 1,
        }],
        fault: None,
    },
    Label {
        name: "rows that repeat",
        bytes: b"^XA^PW8^LL34^FO0,0^GFA,34,34,1,80::::::::::::::::::::::::::::::::01^FS^XZ",
        prints: &[Printed {
            width: 8,
            height: 34,
            rows: &[(33, 0, b"#"), (1, 0, b".......#")],
            copies: 1,
        }],
        fault: None,
    },
    Label {
        name: "rows that repeat, inverted",
        bytes: b"^XA^PW8^LL34^POI^FO0,0^GFA,34,34,1,80::::::::::::::::::::::::::::::::01^FS^XZ",
        prints: &[Printed {
            width: 8,
            height: 34,
            rows: &[(1, 0, b"#"), (33, 0, b".......#")],
            copies: 1,
        }],
        fault: None,
    },
    Label {
        name: "a run of codes over two bands",
        bytes: b"^XA^PW8^LL34^FO0,0^GFA,34,34,1,iMF0^FS^XZ",
        prints: &[Printed {
            width: 8,
            height: 34,
            rows: &[(33, 0, b"########"), (1, 0, b"####")],
            copies: 1,
        }],
        fault: None,
    },
    Label {
        name: "a run of codes over two bands, inverted",
        bytes: b"^XA^PW8^LL34^POI^FO0,0^GFA,34,34,1,iMF0^FS^XZ",
        prints: &[Printed {
            width: 8,
            height: 34,
            rows: &[(1, 0, b"....####"), (33, 0, b"########")],
            copies: 1,
        }],
        fault: None,
    },
    Label {
        name: "a run of codes over two bands, twice",
        bytes: b"^XA^PW8^LL34^PQ2^FO0,0^GFA,34,34,1,iMF0^FS^XZ",
        prints: &[Printed {
            width: 8,
            height: 34,
            rows: &[(33, 0, b"########"), (1, 0, b"####")],
            copies: 2,
        }],
        fault: None,
    },
    Label {
        name: "a picture as bytes",
        bytes: b"^XA^PW8^LL1^FO0,0^GFB,1,1,1,^^FS^XZ",
        prints: &[Printed {
            width: 8,
            height: 1,
            rows: &[(1, 0, b".#.####")],
            copies: 1,
        }],
        fault: None,
    },
];

/// Streams that end early or are refused, and of other printers.
static ENDED_LABELS: &[Label] = &[
    Label {
        name: "a box that is cut off",
        bytes: b"^XA^FO0,0^GB8,2,2",
        prints: &[],
        fault: Some(Fault::Truncated),
    },
    Label {
        name: "a format that is cut off",
        bytes: b"^XA^FO0,0^GB8,2,2^FS",
        prints: &[],
        fault: Some(Fault::Unprinted),
    },
    Label {
        name: "a picture in another coding",
        bytes: b"^XA^GFA,2,2,1,:Z64:x^FS",
        prints: &[],
        fault: Some(Fault::Graphic),
    },
    Label {
        name: "a label, and then a picture of rows longer than it",
        bytes: b"^XA^PW8^LL1^GB8,1,1^FS^XZ^XA^GFA,1,1,2,",
        prints: &[Printed {
            width: 8,
            height: 1,
            rows: &[(1, 0, b"########")],
            copies: 1,
        }],
        fault: Some(Fault::Graphic),
    },
    Label {
        name: "commands of receipts",
        bytes: b"\x1BJ\x02\n",
        prints: &[],
        fault: None,
    },
    Label {
        name: "commands of other printers",
        bytes: b"\x1B@N\r\nq400\r\nA50,0,0,1,1,1,N,\"text\"\r\nP1\r\n! 0 200 200 210 1\r\nFORM\r\\
            nPRINT\r\n\x1DV\x00",
        prints: &[],
        fault: None,
    },
];

fn boxes() -> &'static [Label] {
    BOX_LABELS
}

fn bands() -> &'static [Label] {
    BAND_LABELS
}

fn turned() -> &'static [Label] {
    TURNED_LABELS
}

fn settings() -> &'static [Label] {
    SETTING_LABELS
}

fn pictures() -> &'static [Label] {
    PICTURE_LABELS
}

fn ended() -> &'static [Label] {
    ENDED_LABELS
}

/// All of them, each table from a function of its own: a check of a function takes the longer the more its
/// tables hold.
pub fn tables() -> [&'static [Label]; 6] {
    [boxes(), bands(), turned(), settings(), pictures(), ended()]
}
