//! Streams of labels of the symbols and shapes that the whole language adds, with what they print.
use crate::labels::{Label, Printed};
use vp_dots::{Fault, Why};

static SYMBOL_LABELS: &[Label] = &[
    Label {
        name: "Interleaved 2 of 5",
        bytes: b"^XA^PW24^LL1^BY1,2^B2N,1,N^FD12^FS^XZ",
        prints: &[Printed {
            width: 24,
            height: 1,
            rows: &[(1, 0, b"#.#.##.#..#.#.##..##.#")],
            copies: 1,
        }],
        fault: None,
    },
    Label {
        name: "an add-on of two digits",
        bytes: b"^XA^PW24^LL2^BY1^BSN,1,N^FO2,1^FD12^FS^XZ",
        prints: &[Printed {
            width: 24,
            height: 2,
            rows: &[(1, 0, b""), (1, 2, b"#.##..##..#.#..#..##")],
            copies: 1,
        }],
        fault: None,
    },
    Label {
        name: "UPC-E of five digits",
        bytes: b"^XA^B9^FD12345^FS",
        prints: &[],
        fault: Some(Fault::Symbol(Why::Length)),
    },
    Label {
        name: "a box, as in the profile",
        bytes: b"^XA^PW8^LL2^ZZ^FO2,1^GB5,1,1^FS^XZ",
        prints: &[Printed {
            width: 8,
            height: 2,
            rows: &[(1, 0, b""), (1, 2, b"#####")],
            copies: 1,
        }],
        fault: None,
    },
];

/// Two-dimensional symbols. Their modules are those that zint draws.
static MATRIX_LABELS: &[Label] = &[
    Label {
        name: "Data Matrix",
        bytes: b"^XA^PW16^LL12^FO2,1^BXN,1,200^FD123456^FS^XZ",
        prints: &[Printed {
            width: 16,
            height: 12,
            rows: &[
                (1, 0, b""),
                (1, 2, b"#.#.#.#.#"),
                (1, 2, b"##..#.##.#"),
                (1, 2, b"##.....#"),
                (1, 2, b"##...###.#"),
                (1, 2, b"##....#"),
                (1, 2, b"#.....####"),
                (1, 2, b"###.##"),
                (1, 2, b"####.##..#"),
                (1, 2, b"#..###.#"),
                (1, 2, b"##########"),
            ],
            copies: 1,
        }],
        fault: None,
    },
    Label {
        name: "two Data Matrix symbols, twice, each with its own data",
        bytes: b"^XA^PW24^LL10^PQ2^BXN,1,200^FD123456^FS^FO12,0^BXN,1,200^FD1^FD123456^FS^XZ",
        prints: &[Printed {
            width: 24,
            height: 10,
            rows: &[
                (1, 0, b"#.#.#.#.#...#.#.#.#.#"),
                (1, 0, b"##..#.##.#..##..#.##.#"),
                (1, 0, b"##.....#....##.....#"),
                (1, 0, b"##...###.#..##...###.#"),
                (1, 0, b"##....#.....##....#"),
                (1, 0, b"#.....####..#.....####"),
                (1, 0, b"###.##......###.##"),
                (1, 0, b"####.##..#..####.##..#"),
                (1, 0, b"#..###.#....#..###.#"),
                (1, 0, b"##########..##########"),
            ],
            copies: 2,
        }],
        fault: None,
    },
    Label {
        name: "Data Matrix turned, of digits that are escaped",
        bytes: b"^XA^PW16^LL11^BXR,1,200^FD_d0492345_d054^FS^XZ",
        prints: &[Printed {
            width: 16,
            height: 11,
            rows: &[
                (1, 0, b"##########"),
                (1, 0, b"#.##.####"),
                (1, 0, b"#.##.....#"),
                (1, 0, b"###"),
                (1, 0, b"##.#....##"),
                (1, 0, b"####..#"),
                (1, 0, b"#.#.###.##"),
                (1, 0, b"##..#.###"),
                (1, 0, b"#...#....#"),
                (1, 0, b"#.#.#.#.#"),
            ],
            copies: 1,
        }],
        fault: None,
    },
    Label {
        name: "Data Matrix as ^BY says, two dots a module",
        bytes: b"^XA^PW24^LL20^BY1,2,20^BXN,,200^FD123456^FS^XZ",
        prints: &[Printed {
            width: 24,
            height: 20,
            rows: &[
                (1, 0, b"##..##..##..##..##"),
                (1, 0, b"##..##..##..##..##"),
                (1, 0, b"####....##..####..##"),
                (1, 0, b"####....##..####..##"),
                (1, 0, b"####..........##"),
                (1, 0, b"####..........##"),
                (1, 0, b"####......######..##"),
                (1, 0, b"####......######..##"),
                (1, 0, b"####........##"),
                (1, 0, b"####........##"),
                (1, 0, b"##..........########"),
                (1, 0, b"##..........########"),
                (1, 0, b"######..####"),
                (1, 0, b"######..####"),
                (1, 0, b"########..####....##"),
                (1, 0, b"########..####....##"),
                (1, 0, b"##....######..##"),
                (1, 0, b"##....######..##"),
                (1, 0, b"####################"),
                (1, 0, b"####################"),
            ],
            copies: 1,
        }],
        fault: None,
    },
    Label {
        name: "Aztec",
        bytes: b"^XA^PW16^LL15^BON,1^FDA^FS^XZ",
        prints: &[Printed {
            width: 16,
            height: 15,
            rows: &[
                (1, 0, b"....##...####.#"),
                (1, 0, b"..###..#..##"),
                (1, 0, b".###........#"),
                (1, 0, b".#############"),
                (1, 0, b"#..#.......#.#"),
                (1, 0, b"##.#.#####.#"),
                (1, 0, b"##.#.#...#.#.#"),
                (1, 0, b"#..#.#.#.#.#"),
                (1, 0, b"#..#.#...#.#.##"),
                (1, 0, b"#..#.#####.#..#"),
                (1, 0, b"...#.......#.#"),
                (1, 0, b"#..##########"),
                (1, 0, b"#.............#"),
                (1, 0, b"##.##....#.##"),
                (1, 0, b".#...#.#..#.##"),
            ],
            copies: 1,
        }],
        fault: None,
    },
    Label {
        name: "Data Matrix of no quality",
        bytes: b"^XA^BXN,1^FD1^FS",
        prints: &[],
        fault: Some(Fault::Symbol(Why::Unsupported)),
    },
    Label {
        name: "Data Matrix without data",
        bytes: b"^XA^BXN,1,200^FD^FS",
        prints: &[],
        fault: Some(Fault::Symbol(Why::Empty)),
    },
    Label {
        name: "Data Matrix of a size that there isn't",
        bytes: b"^XA^BXN,1,200,11,11^FD1^FS",
        prints: &[],
        fault: Some(Fault::SymbolTooLong),
    },
    Label {
        name: "PDF417 without columns and rows",
        bytes: b"^XA^B7N^FD1^FS",
        prints: &[],
        fault: Some(Fault::Symbol(Why::Unsupported)),
    },
    Label {
        name: "a rune",
        bytes: b"^XA^BON,1,,300^FD1^FS",
        prints: &[],
        fault: Some(Fault::Symbol(Why::Unsupported)),
    },
];

static SHAPE_LABELS: &[Label] = &[
    Label {
        name: "a circle",
        bytes: b"^XA^PW8^LL5^FO1,1^GC3^FS^XZ",
        prints: &[Printed {
            width: 8,
            height: 5,
            rows: &[(1, 0, b""), (1, 1, b"###"), (1, 1, b"#.#"), (1, 1, b"###")],
            copies: 1,
        }],
        fault: None,
    },
    Label {
        name: "an ellipse, filled",
        bytes: b"^XA^PW8^LL3^GE5,3,2^FS^XZ",
        prints: &[Printed {
            width: 8,
            height: 3,
            rows: &[(1, 0, b".###"), (1, 0, b"#####"), (1, 0, b".###")],
            copies: 1,
        }],
        fault: None,
    },
    Label {
        name: "a diagonal that leans right",
        bytes: b"^XA^PW8^LL3^GD4,3,2^FS^XZ",
        prints: &[Printed {
            width: 8,
            height: 3,
            rows: &[(1, 0, b"..##"), (1, 0, b".##"), (1, 0, b"##")],
            copies: 1,
        }],
        fault: None,
    },
    Label {
        name: "a diagonal that leans left by its lower left corner",
        bytes: b"^XA^PW8^LL3^FT1,3^GD4,3,2,B,L^FS^XZ",
        prints: &[Printed {
            width: 8,
            height: 3,
            rows: &[(1, 0, b".##"), (1, 0, b"..##"), (1, 0, b"...##")],
            copies: 1,
        }],
        fault: None,
    },
    Label {
        name: "a white circle on a box",
        bytes: b"^XA^PW8^LL3^GB3,3,3^FS^GC3,1,W^FS^XZ",
        prints: &[Printed {
            width: 8,
            height: 3,
            rows: &[(1, 0, b""), (1, 0, b".#"), (1, 0, b"")],
            copies: 1,
        }],
        fault: None,
    },
];

pub fn tables() -> [&'static [Label]; 3] {
    [SYMBOL_LABELS, MATRIX_LABELS, SHAPE_LABELS]
}
